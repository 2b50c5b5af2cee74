//! Checks of documents without a tree: each returns for a text what the parser of its language does, except for the tree.
//!
//! Proved of `check_query` and `check_schema`, and of their `_limited` and `_from` forms: the clauses of the parses of
//! `graphql_requests` and `graphql_schemas`, over the same grammar and the same rules, of a language that makes nothing
//! of its documents (`specs/Checking`); and that each answers as the parse does (`as_parsed`).

ghost use Rattle.std.specs.Prelude.{◌≡◌, ◌≢◌, ◌≤◌, ◌<◌, ◌⊎◌, ◌+◌, List, [], map, length, Err};
ghost use Rattle.graphql_parser.specs.Checking.{checked, IsAsParsed, IsAsParsedText};
ghost use Rattle.graphql_parser.specs.RequestHeads.{head_of, in_heads};
ghost use Rattle.graphql_memory.specs.Refusals.{HeapRefused};
ghost use Rattle.graphql_grammar.specs.answers.Answers.{TokenFor};
ghost use Rattle.graphql_grammar.specs.answers.Memory.{most_taken, most_taken_by, message_bytes};
ghost use Rattle.graphql_reading.specs.reading.Worth.{worth};
ghost use Rattle.graphql_parser.specs.HeadFunds.{heads_owed};
ghost use Rattle.graphql_parser.specs.OneDefinition.{FirstStandsAlone};
ghost use Rattle.graphql_tokens.specs.tokens.Cuts.{IsCutInto};
ghost use Rattle.graphql_tokens.specs.tokens.Token.{Token as SpecToken, left};
ghost use Rattle.graphql_grammar.specs.answers.Reads.{ReadsText, ReadsTokens};
ghost use Rattle.graphql_grammar.specs.declared.error.Error.TheVariants.{OutOfMemory};
ghost use Rattle.graphql_reading.specs.grammar.Limits.{default_limits};
ghost use Rattle.graphql_requests.specs.grammar.Request.{Definition as SpecDefinition};
ghost use Rattle.graphql_requests.specs.grammar.Requests.{requests};
ghost use Rattle.graphql_requests.specs.reading.Request.{definitions_at};

pub mod arguments;
mod definitions;
pub mod production;
mod rules;
pub mod schemas;
pub mod selections;
mod separated;
pub mod types;
pub mod value;
pub mod variables;

use definitions::{Head, read_heads};
use graphql_grammar::document::{Kept, read_document};
use graphql_grammar::error::Result;
use graphql_memory::Memory;
use graphql_reading::limits::Limits;
use graphql_reading::parser::{Parser, Reading};
use graphql_tokens::lexer::{Token, Tokens};
use rules::judge;
pub use schemas::{
    check_schema, check_schema_from, check_schema_limited, check_schema_to, check_schema_within,
};
use smallvec::SmallVec;
use std::alloc::Global;

/// The heads of the operations and fragments of a request, of which the first lies in place.
#[derive(Drop)]
struct KeptHeads<'a> {
    items: SmallVec<Head<'a>, 1>,
}

impl<'a> Kept<'a> for KeptHeads<'a> {
    type Document = ();

    ghost Tree = { SpecDefinition };

    ghost Sum = { List SpecDefinition };

    ghost sum = { map head_of };

    ghost kept = { λ kept. in_heads kept.items };

    ghost Costs = { λ limits ts most. (most ≡ worth ts) ⊎ (FirstStandsAlone limits ts × (most ≡ 0)) };

    ghost owes = { λ kept. heads_owed kept.items.items };

    ghost language = { checked requests };

    ghost reader = { definitions_at };

    fn read_all(parser: &mut Parser<'a>, limits: Limits) -> Reading<KeptHeads<'a>> {
        let items = read_heads(parser, limits)?;
        parser.expect_end()?;
        Ok(KeptHeads { items })
    }

    fn into_document(self, memory: &mut Memory) -> Result<()> {
        judge(memory, self.items.as_slice())
    }
}

/// Checks a request (GraphQL October 2021, section 2): whether `parse_query` reads it, and else the error that it
/// gives. No tree is made. Selection sets, values and types may nest 64 deep each, as [`Limits`] counts them.
///
/// Memory is taken for places by name where there are two definitions or more, for a name of more than 22 bytes that is
/// given twice, and for the message of a `Syntax`.
///
/// Errors:
/// - `Syntax` where the text has no tree, at the first token with which no request goes on from what
///   stands before it, with the message `syntax error at L:C`;
/// - `RecursionLimitExceeded` where that token could go on without the limits alone;
/// - where the text has a tree that breaks a rule, the first breach in source order:
///   `MultipleOperations` for an operation without a name beside another, `OperationDuplicated` and
///   `FragmentDuplicated` for a name given twice; and `MissingOperation` for fragments alone;
/// - `OutOfMemory` where memory was refused.
pub fn check_query(alloc: Global, text: &str) -> Result<()>
    ensures reads { ReadsText (checked requests) default_limits text.now result }
    // It says what a parse of the text says, unless memory runs out.
    ensures as_parsed { IsAsParsedText requests default_limits text.now result }
{
    check_query_limited(alloc, text, Limits::default())
}

/// As [`check_query`], with limits that the caller chooses.
pub fn check_query_limited(alloc: Global, text: &str, limits: Limits) -> Result<()>
    ensures reads { ReadsText (checked requests) limits text.now result }
    ensures as_parsed { IsAsParsedText requests limits text.now result }
{
    check_query_within(&mut Memory::new(alloc), text, limits)
}

/// As [`check_query_limited`], with who takes memory, as a budget bounds it. A text of n bytes and t tokens, as many as
/// `Tokens::new(text)` returns, takes at most 1,104 t + n + 57 bytes as [`Memory`] counts them, so at most 1,105 n + 1,161; and
/// 57 if only its end is after its first definition. `OutOfMemory` is returned only if a request to `memory` was denied: the
/// heap denied it, or less than that was left.
pub fn check_query_within(memory: &mut Memory, text: &str, limits: Limits) -> Result<()>
    ensures reads { ReadsText (checked requests) limits text.now result }
    ensures as_parsed { IsAsParsedText requests limits text.now result }
    ensures taken { memory.old.left ≤ memory.new.left + most_taken (length text.now) }
    ensures lent { memory.new.left ≤ memory.old.left }
    ensures refused { result ≡ Err OutOfMemory → HeapRefused memory.old memory.new
        ⊎ (memory.old.left < most_taken (length text.now)) }
    // The same by its tokens, the end among them.
    ensures by_tokens { (ts : List SpecToken) → IsCutInto text.now ts →
        (memory.old.left ≤ memory.new.left + most_taken_by (length ts) (length text.now)) ×
        (result ≡ Err OutOfMemory → HeapRefused memory.old memory.new
        ⊎ (memory.old.left < most_taken_by (length ts) (length text.now))) }
    // One definition takes memory for a message alone.
    ensures alone { (ts : List SpecToken) → IsCutInto text.now ts → FirstStandsAlone limits ts →
        (memory.old.left ≤ memory.new.left + message_bytes) ×
        (result ≡ Err OutOfMemory → HeapRefused memory.old memory.new ⊎ (memory.old.left < message_bytes)) }
{
    check_query_to(memory, text, limits).0
}

/// As [`check_query_within`], and the token at which the text is refused, if it is refused at one.
pub fn check_query_to<'a>(
    memory: &mut Memory,
    text: &'a str,
    limits: Limits,
) -> (Result<()>, Option<Token<'a>>)
    ensures reads { ReadsText (checked requests) limits text.entry.now result.0 }
    ensures as_parsed { IsAsParsedText requests limits text.entry.now result.0 }
    ensures token { (ts : List SpecToken) → IsCutInto text.entry.now ts →
        TokenFor (checked requests) limits ts result.0 result.1 }
    ensures taken { memory.old.left ≤ memory.new.left + most_taken (length text.entry.now) }
    ensures lent { memory.new.left ≤ memory.old.left }
    ensures refused { result.0 ≡ Err OutOfMemory → HeapRefused memory.old memory.new
        ⊎ (memory.old.left < most_taken (length text.entry.now)) }
    // The same by its tokens, the end among them.
    ensures by_tokens { (ts : List SpecToken) → IsCutInto text.entry.now ts →
        (memory.old.left ≤ memory.new.left + most_taken_by (length ts) (length text.entry.now)) ×
        (result.0 ≡ Err OutOfMemory → HeapRefused memory.old memory.new
        ⊎ (memory.old.left < most_taken_by (length ts) (length text.entry.now))) }
    // One definition takes memory for a message alone.
    ensures alone { (ts : List SpecToken) → IsCutInto text.entry.now ts → FirstStandsAlone limits ts →
        (memory.old.left ≤ memory.new.left + message_bytes) ×
        (result.0 ≡ Err OutOfMemory → HeapRefused memory.old memory.new ⊎ (memory.old.left < message_bytes)) }
{
    let mut tokens = Tokens::new(text);
    let mut refused = None;
    let answer = read_document::<KeptHeads>(memory, &mut tokens, limits, &mut refused);
    (answer, refused)
}

/// As [`check_query`], over the tokens that are not yet taken, with the places that they have in the whole
/// text. The caller owes that there are some: `is_ended` is false.
///
/// Afterwards so many more tokens are taken: where the text has no tree, those up to the refused one,
/// that one included; where it has one, all that were left; where memory ran out, no more than were
/// left. What `tokens` then gives is the rest of the same list.
pub fn check_query_from(alloc: Global, tokens: &mut Tokens<'_>) -> Result<()>
    requires { left tokens.old ≢ [] }
    ensures reads { ReadsTokens (checked requests) default_limits tokens.old tokens.new result }
    ensures as_parsed { IsAsParsed requests default_limits (left tokens.old) result }
{
    let memory = &mut Memory::new(alloc);
    read_document::<KeptHeads>(memory, tokens, Limits::default(), &mut None)
}
