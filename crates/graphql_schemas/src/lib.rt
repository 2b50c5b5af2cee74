//! Schema files: their grammar, their readers, the rules that their definitions keep, and the calls that read them
//! (GraphQL October 2021, section 3).
//!
//! Proved of `parse_schema`, `parse_schema_limited` and `parse_schema_from`, unless memory runs out: where the text's
//! tokens have a tree within the limits, it is the only one, and it is given, or else the first rule that it breaks
//! is told. Where they have none, the answer is `RecursionLimitExceeded` or `Syntax`, at the first token whose front
//! no schema file completes; which of the two it is depends on whether a deeper schema file does.
//!
//! Users name `graphql_parser`, which gives these calls out. What a reader of the contracts has to believe stands in
//! `specs/grammar`, and below it in the public specs of `graphql_grammar` and `graphql_reading`; `specs/reading` is
//! inner. Modules are `pub` for the checks of `graphql_parser` alone, which reads the same keywords and tells the same tokens.
#![tactic(auto)]

ghost use Rattle.std.specs.Prelude.{◌≡◌, ◌≢◌, ◌≤◌, ◌<◌, ◌⊎◌, ◌+◌, ◌*◌, List, [], Err, IfOk, length, vec_len};
ghost use Rattle.graphql_memory.specs.Memory.{bytes};
ghost use Rattle.graphql_memory.specs.Refusals.{HeapRefused};
ghost use Rattle.graphql_schemas.specs.reading.Funds.{definition_row};
ghost use Rattle.graphql_reading.specs.reading.Worth.{worth};
ghost use Rattle.graphql_tokens.specs.tokens.Cuts.{IsCutInto};
ghost use Rattle.graphql_tokens.specs.tokens.Token.{Token as SpecToken, left};
ghost use Rattle.graphql_trees.specs.trees.SchemaViews.{schema_document_tree};
ghost use Rattle.graphql_grammar.specs.answers.Memory.{most_taken, most_taken_by};
ghost use Rattle.graphql_grammar.specs.answers.Reads.{ReadsText, ReadsTokens};
ghost use Rattle.graphql_grammar.specs.declared.error.Error.TheVariants.{OutOfMemory};
ghost use Rattle.graphql_reading.specs.grammar.Limits.{default_limits};
ghost use Rattle.graphql_schemas.specs.grammar.Laws.{IsLawful};
ghost use Rattle.graphql_schemas.specs.grammar.SchemaFile.{Definition as SpecDefinition};
ghost use Rattle.graphql_schemas.specs.grammar.Schemas.{schemas, FormerDescribesNoSchema};
ghost use Rattle.graphql_schemas.specs.reading.SchemaFile.{definitions_at};
ghost use Rattle.graphql_schemas.specs.reading.Views.{definition_trees};

pub mod definitions;
pub mod descriptions;
pub mod directives;
mod fields;
pub mod input_values;
pub mod members;
mod rules;
mod schema;
pub mod types;

use definitions::Definition;
use graphql_grammar::document::{Kept, read_document};
use graphql_grammar::error::Result;
use graphql_memory::Memory;
use graphql_reading::limits::Limits;
use graphql_reading::parser::{Parser, Reading};
use graphql_reading::production::one_or_more;
use graphql_tokens::lexer::Tokens;
use graphql_trees::ServiceDocument;
use rules::document_of;
use std::alloc::Global;

/// The definitions of a schema file.
#[derive(Drop)]
struct KeptDefinitions {
    items: Vec<Definition>,
}

impl<'a> Kept<'a> for KeptDefinitions {
    type Document = ServiceDocument;

    ghost Tree = { SpecDefinition };

    ghost Sum = { List SpecDefinition };

    ghost sum = { λ ds. ds };

    ghost kept = { λ kept. definition_trees kept.items.items };

    ghost language = { schemas };

    ghost Costs = { λ _ ts most. most ≡ worth ts };

    ghost owes = { λ kept. bytes definition_row * vec_len kept.items };

    ghost reader = { definitions_at };

    /// `TypeSystemExtensionDocument : TypeSystemDefinitionOrExtension+` (GraphQL October 2021, section 3.1)
    fn read_all(parser: &mut Parser<'a>, limits: Limits) -> Reading<KeptDefinitions> {
        let items = one_or_more::<Definition>(parser, limits)?;
        parser.expect_end()?;
        Ok(KeptDefinitions { items })
    }

    fn into_document(self, memory: &mut Memory) -> Result<ServiceDocument> {
        document_of(memory, self.items)
    }
}

/// Reads a schema file (GraphQL October 2021, section 3): gives its one tree, with the place of each node. Values and
/// types may nest 64 deep each, as [`Limits`] counts them.
///
/// Memory is taken for the tree alone; the text is only borrowed.
///
/// Errors:
/// - `Syntax` where the text has no tree, at the first token with which no schema file goes on from what
///   stands before it, with the message `syntax error at L:C`;
/// - `RecursionLimitExceeded` where that token could go on without the limits alone;
/// - where the text has a tree that breaks a rule, the first breach in source order: `MultipleRoots` for a
///   definition or an extension of a schema that names a root twice, and else `MissingQueryRoot` for a
///   definition without a query root;
/// - `OutOfMemory` where memory was refused.
pub fn parse_schema(alloc: Global, text: &str) -> Result<ServiceDocument>
    ensures reads { ReadsText schemas default_limits text.now result }
    // No schema of a former tree has a description.
    ensures former_schemas { FormerDescribesNoSchema default_limits }
    // A schema has a query root, or is an extension; and no extension has a description.
    ensures lawful { IfOk result (λ document. IsLawful (schema_document_tree document)) }
{
    parse_schema_within(&mut Memory::new(alloc), text, Limits::default())
}

/// As [`parse_schema`], with limits that the caller chooses (this project's own call). The first number isn't used:
/// a schema file has no selection sets.
pub fn parse_schema_limited(alloc: Global, text: &str, limits: Limits) -> Result<ServiceDocument>
    ensures reads { ReadsText schemas limits text.now result }
    ensures former_schemas { FormerDescribesNoSchema limits }
    ensures lawful { IfOk result (λ document. IsLawful (schema_document_tree document)) }
{
    parse_schema_within(&mut Memory::new(alloc), text, limits)
}

/// As [`parse_schema_limited`], with who takes memory, as a budget bounds it (this project's own call). A text of n bytes
/// and t tokens, as many as `Tokens::new(text)` returns, takes at most 1,104 t + n + 57 bytes as [`Memory`] counts them, so at
/// most 1,105 n + 1,161. `OutOfMemory` is returned only if a request to `memory` was denied: the heap denied it, or less than
/// that was left.
pub fn parse_schema_within(
    memory: &mut Memory,
    text: &str,
    limits: Limits,
) -> Result<ServiceDocument>
    ensures reads { ReadsText schemas limits text.now result }
    ensures former_schemas { FormerDescribesNoSchema limits }
    ensures lawful { IfOk result (λ document. IsLawful (schema_document_tree document)) }
    ensures taken { memory.old.left ≤ memory.new.left + most_taken (length text.now) }
    ensures lent { memory.new.left ≤ memory.old.left }
    ensures refused { result ≡ Err OutOfMemory → HeapRefused memory.old memory.new
        ⊎ (memory.old.left < most_taken (length text.now)) }
    // The same by its tokens, the end among them.
    ensures by_tokens { (ts : List SpecToken) → IsCutInto text.now ts →
        (memory.old.left ≤ memory.new.left + most_taken_by (length ts) (length text.now)) ×
        (result ≡ Err OutOfMemory → HeapRefused memory.old memory.new
        ⊎ (memory.old.left < most_taken_by (length ts) (length text.now))) }
{
    let mut tokens = Tokens::new(text);
    read_document::<KeptDefinitions>(memory, &mut tokens, limits, &mut None)
}

/// As [`parse_schema`], over the tokens that are not yet taken, with the places that they have in the whole
/// text (this project's own call). The caller owes that there are some: `is_ended` is false.
///
/// Afterwards so many more tokens are taken: where the text has no tree, those up to the refused one,
/// that one included; where it has one, all that were left; where memory ran out, no more than were
/// left. What `tokens` then gives is the rest of the same list.
pub fn parse_schema_from(alloc: Global, tokens: &mut Tokens<'_>) -> Result<ServiceDocument>
    requires { left tokens.old ≢ [] }
    ensures reads { ReadsTokens schemas default_limits tokens.old tokens.new result }
    ensures lawful { IfOk result (λ document. IsLawful (schema_document_tree document)) }
{
    let memory = &mut Memory::new(alloc);
    read_document::<KeptDefinitions>(memory, tokens, Limits::default(), &mut None)
}
