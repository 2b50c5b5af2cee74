//! Texts laid out anew.
ghost use Rattle.std.specs.Prelude.{◌≡◌, IfOk, IfErr, string_bytes};
ghost use Rattle.graphql_parser.specs.Checking.{checked, IsAsParsedText};
ghost use Rattle.graphql_grammar.specs.answers.Reads.{ReadsText};
ghost use Rattle.graphql_grammar.specs.declared.error.Error.TheVariants.{OutOfMemory};
ghost use Rattle.graphql_layout.specs.texts.LaidOut.{IsLaidOut};
ghost use Rattle.graphql_layout.specs.texts.SameTokens.{HasFault};
ghost use Rattle.graphql_printer.specs.Rewritten.{judgement_of, MeanTheSame};
ghost use Rattle.graphql_requests.specs.grammar.Requests.{requests};
ghost use Rattle.graphql_schemas.specs.grammar.Schemas.{schemas};

use graphql_layout::format;
use graphql_parser::{Limits, Result, check_query_limited, check_schema_limited};
use std::alloc::Global;

/// The request laid out anew: two blanks for each level, a selection a line, a blank line between definitions; arguments, lists
/// and objects on one line, but where a field with its arguments is longer than 80 columns, and where a list or an object was
/// broken after its opening bracket. Comments are kept, those on lines of their own and those at the ends of others, and one
/// blank line where there were some between members. Tokens are kept as they are spelled, but block strings are indented anew:
/// they keep their values, by the specification too (section 2.9.4). One that the specification and this parser read differently
/// is kept as it is spelled. Lines end in a carriage return and a line feed if the first one of the text does, and else in line feeds.
/// Selection sets, values and types may nest as deep as the limits say.
///
/// Errors are those of `check_query_limited`, of the text that it is given; `OutOfMemory` where memory was refused.
pub fn format_query(alloc: Global, text: &str, limits: Limits) -> Result<String>
    ensures reads { ReadsText (checked requests) limits text.now (judgement_of result) }
    // It says of the text what a parse says, unless memory runs out.
    ensures as_parsed { IsAsParsedText requests limits text.now (judgement_of result) }
    ensures laid_out { IfOk result (λ s. IsLaidOut text.now (string_bytes s)) }
    ensures meaning { IfOk result (λ s. MeanTheSame requests limits text.now (string_bytes s)) }
{
    check_query_limited(alloc, text, limits)?;
    format_tokens(alloc, text)
}

/// The schema file laid out anew, as [`format_query`] lays out requests: a field, value or root operation a line, descriptions on
/// lines of their own, and definitions of arguments a line each where one is described. Values and types may nest as deep as the
/// limits say.
///
/// Errors are those of `check_schema_limited`, of the text that it is given; `OutOfMemory` where memory was refused.
pub fn format_schema(alloc: Global, text: &str, limits: Limits) -> Result<String>
    ensures reads { ReadsText (checked schemas) limits text.now (judgement_of result) }
    // It says of the text what a parse says, unless memory runs out.
    ensures as_parsed { IsAsParsedText schemas limits text.now (judgement_of result) }
    ensures laid_out { IfOk result (λ s. IsLaidOut text.now (string_bytes s)) }
    ensures meaning { IfOk result (λ s. MeanTheSame schemas limits text.now (string_bytes s)) }
{
    check_schema_limited(alloc, text, limits)?;
    format_tokens(alloc, text)
}

// The text laid out anew, which has no fault. It fails only where memory runs out.
fn format_tokens(alloc: Global, text: &str) -> Result<String>
    requires { ¬ (HasFault text.now) }
    ensures laid_out { IfOk result (λ s. IsLaidOut text.now (string_bytes s)) }
    ensures fails { IfErr result (λ error. error ≡ OutOfMemory) }
{
    match format(alloc, text)? {
        Some(formatted) => Ok(formatted),
        None => unreachable!(),
    }
}
