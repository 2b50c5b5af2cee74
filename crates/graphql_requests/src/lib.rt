//! Requests: their grammar, their readers, the rules that their definitions keep, and the calls that read them
//! (GraphQL October 2021, section 2, and of section 5 what its documents need).
//!
//! Proved of `parse_query`, `parse_query_limited` and `parse_query_from`, unless memory runs out: where the text's
//! tokens have a tree within the limits, it is the only one, and it is given, or else the first rule that it breaks
//! is told. Where they have none, the answer is `RecursionLimitExceeded` or `Syntax`, at the first token whose front
//! no request completes; which of the two it is depends on whether a deeper request does.
//!
//! Users name `graphql_parser`, which gives these calls out. What a reader of the contracts has to believe stands in
//! `specs/grammar`, and below it in the public specs of `graphql_grammar` and `graphql_reading`; `specs/reading` is
//! inner.
#![tactic(auto)]

ghost use Rattle.std.specs.Prelude.{◌≡◌, ◌≢◌, ◌≤◌, ◌<◌, ◌⊎◌, ◌+◌, List, [], Err, IfOk, length};
ghost use Rattle.graphql_memory.specs.Refusals.{HeapRefused};
ghost use Rattle.graphql_tokens.specs.tokens.Cuts.{IsCutInto};
ghost use Rattle.graphql_tokens.specs.tokens.Token.{Token as SpecToken, left};
ghost use Rattle.graphql_grammar.specs.answers.Memory.{most_taken, most_taken_by};
ghost use Rattle.graphql_grammar.specs.answers.Reads.{ReadsText, ReadsTokens};
ghost use Rattle.graphql_grammar.specs.declared.error.Error.TheVariants.{OutOfMemory};
ghost use Rattle.graphql_reading.specs.grammar.Limits.{default_limits};
ghost use Rattle.graphql_trees.specs.trees.RequestViews.{document_tree};
ghost use Rattle.graphql_requests.specs.grammar.Laws.{IsLawful};
ghost use Rattle.graphql_requests.specs.grammar.Requests.{requests};

pub mod definitions;
mod rules;
mod seeds;
pub mod selections;
mod variables;

use graphql_grammar::document::read_document;
use graphql_grammar::error::Result;
use graphql_memory::Memory;
use graphql_reading::limits::Limits;
use graphql_tokens::lexer::Tokens;
use graphql_trees::ExecutableDocument;
use rules::KeptDefinitions;
use std::alloc::Global;

/// Reads a request (GraphQL October 2021, section 2): gives its one tree, with the place of each node.
/// Selection sets, values and types may nest 64 deep each, as [`Limits`] counts them.
///
/// Memory is taken for the tree alone; the text is only borrowed.
///
/// Errors:
/// - `Syntax` where the text has no tree, at the first token with which no request goes on from what
///   stands before it, with the message `syntax error at L:C`;
/// - `RecursionLimitExceeded` where that token could go on without the limits alone;
/// - where the text has a tree that breaks a rule, the first breach in source order:
///   `MultipleOperations` for an operation without a name beside another, `OperationDuplicated` and
///   `FragmentDuplicated` for a name given twice; and `MissingOperation` for fragments alone;
/// - `OutOfMemory` where memory was refused.
pub fn parse_query(alloc: Global, text: &str) -> Result<ExecutableDocument>
    ensures reads { ReadsText requests default_limits text.now result }
    // Operations have distinct names, or there is one without a name; fragments have distinct names; and so have the
    // fields of each object.
    ensures lawful { IfOk result (λ document. IsLawful (document_tree document)) }
{
    parse_query_within(&mut Memory::new(alloc), text, Limits::default())
}

/// As [`parse_query`], with limits that the caller chooses (this project's own call).
pub fn parse_query_limited(alloc: Global, text: &str, limits: Limits) -> Result<ExecutableDocument>
    ensures reads { ReadsText requests limits text.now result }
    ensures lawful { IfOk result (λ document. IsLawful (document_tree document)) }
{
    parse_query_within(&mut Memory::new(alloc), text, limits)
}

/// As [`parse_query_limited`], with who takes memory, as a budget bounds it (this project's own call). A text of n bytes
/// and t tokens, as many as `Tokens::new(text)` returns, takes at most 1,104 t + n + 57 bytes as [`Memory`] counts them, so at
/// most 1,105 n + 1,161. `OutOfMemory` is returned only if a request to `memory` was denied: the heap denied it, or less than
/// that was left.
pub fn parse_query_within(
    memory: &mut Memory,
    text: &str,
    limits: Limits,
) -> Result<ExecutableDocument>
    ensures reads { ReadsText requests limits text.now result }
    ensures lawful { IfOk result (λ document. IsLawful (document_tree document)) }
    ensures taken { memory.old.left ≤ memory.new.left + most_taken (length text.now) }
    ensures lent { memory.new.left ≤ memory.old.left }
    ensures refused { result ≡ Err OutOfMemory → HeapRefused memory.old memory.new
        ⊎ (memory.old.left < most_taken (length text.now)) }
    // The same by its tokens, the end among them.
    ensures by_tokens { (ts : List SpecToken) → IsCutInto text.now ts →
        (memory.old.left ≤ memory.new.left + most_taken_by (length ts) (length text.now)) ×
        (result ≡ Err OutOfMemory → HeapRefused memory.old memory.new
        ⊎ (memory.old.left < most_taken_by (length ts) (length text.now))) }
{
    let mut tokens = Tokens::new(text);
    read_document::<KeptDefinitions>(memory, &mut tokens, limits, &mut None)
}

/// As [`parse_query`], over the tokens that are not yet taken, with the places that they have in the whole
/// text (this project's own call). The caller owes that there are some: `is_ended` is false.
///
/// Afterwards so many more tokens are taken: where the text has no tree, those up to the refused one,
/// that one included; where it has one, all that were left; where memory ran out, no more than were
/// left. What `tokens` then gives is the rest of the same list.
pub fn parse_query_from(alloc: Global, tokens: &mut Tokens<'_>) -> Result<ExecutableDocument>
    requires { left tokens.old ≢ [] }
    ensures reads { ReadsTokens requests default_limits tokens.old tokens.new result }
    ensures lawful { IfOk result (λ document. IsLawful (document_tree document)) }
{
    let memory = &mut Memory::new(alloc);
    read_document::<KeptDefinitions>(memory, tokens, Limits::default(), &mut None)
}
