//! Schema files, checked without a tree (GraphQL October 2021, section 3).
ghost use Rattle.std.specs.Prelude.{◌≡◌, ◌≢◌, ◌≤◌, ◌<◌, ◌⊎◌, ◌+◌, Option, List, [], Err};
ghost use Rattle.graphql_memory.specs.Refusals.{HeapRefused};
ghost use Rattle.graphql_tokens.specs.tokens.Cuts.{IsCutInto};
ghost use Rattle.graphql_tokens.specs.tokens.Token.{Token as SpecToken, left};
ghost use Rattle.graphql_parser.specs.Checking.{checked, IsAsParsed, IsAsParsedText};
ghost use Rattle.graphql_parser.specs.SchemaRules.{first_breach};
ghost use Rattle.graphql_grammar.specs.answers.Answers.{TokenFor};
ghost use Rattle.graphql_grammar.specs.answers.Memory.{message_bytes};
ghost use Rattle.graphql_grammar.specs.answers.Reads.{ReadsText, ReadsTokens};
ghost use Rattle.graphql_grammar.specs.declared.error.Error.{Error as SpecError};
ghost use Rattle.graphql_grammar.specs.declared.error.Error.TheVariants.{OutOfMemory};
ghost use Rattle.graphql_reading.specs.grammar.Limits.{default_limits};
ghost use Rattle.graphql_schemas.specs.grammar.SchemaFile.{Definition as SpecDefinition};
ghost use Rattle.graphql_schemas.specs.grammar.Schemas.{schemas, FormerDescribesNoSchema};
ghost use Rattle.graphql_schemas.specs.reading.SchemaFile.{definitions_at};

mod definitions;
pub mod descriptions;
mod directives;
pub mod fields;
pub mod input_values;
pub mod members;
mod rules;
mod schema;
mod types;

use definitions::check_definitions;
use graphql_grammar::document::{Kept, read_document};
use graphql_grammar::error::{Error, Result};
use graphql_memory::Memory;
use graphql_reading::limits::Limits;
use graphql_reading::parser::{Parser, Reading};
use graphql_tokens::lexer::{Token, Tokens};
use std::alloc::Global;

/// What is kept of the definitions of a schema file: the first rule that one of them breaks.
#[derive(Drop)]
struct FirstBreach {
    breach: Option<Error>,
}

impl<'a> Kept<'a> for FirstBreach {
    type Document = ();

    ghost Tree = { SpecDefinition };

    ghost Sum = { Option SpecError };

    ghost sum = { first_breach };

    ghost kept = { λ kept. kept.breach };

    ghost Costs = { λ _ _ most. most ≡ 0 };

    ghost owes = { λ _. 0 };

    ghost language = { checked schemas };

    ghost reader = { definitions_at };

    fn read_all(parser: &mut Parser<'a>, limits: Limits) -> Reading<FirstBreach> {
        let breach = check_definitions(parser, limits)?;
        parser.expect_end()?;
        Ok(FirstBreach { breach })
    }

    fn into_document(self, _memory: &mut Memory) -> Result<()> {
        match self.breach {
            None => Ok(()),
            Some(error) => Err(error),
        }
    }
}

/// Tells of a schema file what [`parse_schema`](graphql_schemas::parse_schema) tells, and makes no tree: Ok where it
/// has one that breaks no rule, and else the same error. Memory is taken for the message of a `Syntax` alone.
///
/// Errors: as `parse_schema`'s.
pub fn check_schema(alloc: Global, text: &str) -> Result<()>
    ensures reads { ReadsText (checked schemas) default_limits text.now result }
    // It says what a parse of the text says, unless memory runs out.
    ensures as_parsed { IsAsParsedText schemas default_limits text.now result }
    // No schema of a former tree has a description.
    ensures former_schemas { FormerDescribesNoSchema default_limits }
{
    check_schema_limited(alloc, text, Limits::default())
}

/// As [`check_schema`], with limits that the caller chooses. The first number isn't used: a schema file has no
/// selection sets.
pub fn check_schema_limited(alloc: Global, text: &str, limits: Limits) -> Result<()>
    ensures reads { ReadsText (checked schemas) limits text.now result }
    ensures as_parsed { IsAsParsedText schemas limits text.now result }
    ensures former_schemas { FormerDescribesNoSchema limits }
{
    check_schema_within(&mut Memory::new(alloc), text, limits)
}

/// As [`check_schema_limited`], with who takes memory, as a budget bounds it. As [`Memory`] counts it takes at most the 57
/// bytes of a message. `OutOfMemory` is returned only if a request to `memory` was denied: the heap denied it, or less than
/// that was left.
pub fn check_schema_within(memory: &mut Memory, text: &str, limits: Limits) -> Result<()>
    ensures reads { ReadsText (checked schemas) limits text.now result }
    ensures as_parsed { IsAsParsedText schemas limits text.now result }
    ensures former_schemas { FormerDescribesNoSchema limits }
    // It takes memory for a message alone, of 57 bytes at most.
    ensures taken { memory.old.left ≤ memory.new.left + message_bytes }
    ensures lent { memory.new.left ≤ memory.old.left }
    ensures refused { result ≡ Err OutOfMemory → HeapRefused memory.old memory.new
        ⊎ (memory.old.left < message_bytes) }
{
    check_schema_to(memory, text, limits).0
}

/// As [`check_schema_within`], and the token at which the text is refused, if it is refused at one.
pub fn check_schema_to<'a>(
    memory: &mut Memory,
    text: &'a str,
    limits: Limits,
) -> (Result<()>, Option<Token<'a>>)
    ensures reads { ReadsText (checked schemas) limits text.entry.now result.0 }
    ensures as_parsed { IsAsParsedText schemas limits text.entry.now result.0 }
    ensures token { (ts : List SpecToken) → IsCutInto text.entry.now ts →
        TokenFor (checked schemas) limits ts result.0 result.1 }
    ensures former_schemas { FormerDescribesNoSchema limits }
    ensures taken { memory.old.left ≤ memory.new.left + message_bytes }
    ensures lent { memory.new.left ≤ memory.old.left }
    ensures refused { result.0 ≡ Err OutOfMemory → HeapRefused memory.old memory.new
        ⊎ (memory.old.left < message_bytes) }
{
    let mut tokens = Tokens::new(text);
    let mut refused = None;
    let answer = read_document::<FirstBreach>(memory, &mut tokens, limits, &mut refused);
    (answer, refused)
}

/// As [`check_schema`], over the tokens that are not yet taken, with the places that they have in the whole text. The
/// caller owes that there are some: `is_ended` is false.
///
/// Afterwards so many more tokens are taken: where the text has no tree, those up to the refused one,
/// that one included; where it has one, all that were left; where memory ran out, no more than were
/// left. What `tokens` then gives is the rest of the same list.
pub fn check_schema_from(alloc: Global, tokens: &mut Tokens<'_>) -> Result<()>
    requires { left tokens.old ≢ [] }
    ensures reads { ReadsTokens (checked schemas) default_limits tokens.old tokens.new result }
    ensures as_parsed { IsAsParsed schemas default_limits (left tokens.old) result }
{
    let memory = &mut Memory::new(alloc);
    read_document::<FirstBreach>(memory, tokens, Limits::default(), &mut None)
}
