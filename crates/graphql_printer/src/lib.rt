//! GraphQL texts written anew, so that they mean what they meant.
//!
//! Proved of [`minify_query`] and [`minify_schema`], unless memory runs out: they answer as the checks of `graphql_parser` do;
//! a text that they give has the tokens of the text that they are given, one for one in kind and spelling, but that block strings
//! are written in few characters and keep their values, with nothing between two that may touch, and else one blank; it is no
//! longer; and so it has the same tree, except for places.
//!
//! Proved of [`format_query`] and [`format_schema`], unless memory runs out: they answer as the checks do; a text that they give
//! has the tokens of the text that they are given, one for one in kind and spelling, but that block strings are indented anew and
//! keep their values, and its comments in their order, each before the same token, less the blanks at its end; and so it has the
//! same tree, except for places.
//!
//! Proved of [`print_query`] and [`print_schema`], unless memory runs out: of a document that is that of a text, within some
//! limits and except for places, they give a text that has one tree within these limits; that tree breaks no rule, lacks nothing
//! and makes the document again, except for places; and no string in the text has a control character, nor the value of a block
//! string one but tabs and line feeds.
//!
//! Where lines break is proved of none of them.
#![tactic(auto)]

ghost use Rattle.std.specs.Prelude.{◌≡◌, List, ℕ, IfOk, IfErr, string_bytes};
ghost use Rattle.graphql_parser.specs.Checking.{checked, IsAsParsedText};
ghost use Rattle.graphql_grammar.specs.answers.Reads.{ReadsText};
ghost use Rattle.graphql_grammar.specs.declared.error.Error.TheVariants.{OutOfMemory};
ghost use Rattle.graphql_layout.specs.texts.Minified.{IsMinified};
ghost use Rattle.graphql_layout.specs.texts.SameTokens.{HasFault};
ghost use Rattle.graphql_printer.specs.Rewritten.{judgement_of, MeanTheSame};
ghost use Rattle.graphql_requests.specs.grammar.Requests.{requests};
ghost use Rattle.graphql_schemas.specs.grammar.Schemas.{schemas};

mod formatting;
mod nodes;
mod parts;
mod places;
mod requests;
mod scans;
mod schemas;
mod strings;
mod widths;
mod writer;

pub use formatting::{format_query, format_schema};
use graphql_layout::minify;
use graphql_parser::{Limits, Result, check_query_limited, check_schema_limited};
pub use requests::print_query;
pub use schemas::print_schema;
use std::alloc::Global;

/// The request without what is ignored in it (GraphQL October 2021, section 2.1.7) and isn't needed: comments, and all blanks,
/// line ends, commas and byte order marks; one blank is left where two tokens would be read as others if they touched. A block
/// string is written in few characters that have its value (section 2.9.4), as GraphQL.js strips it, unless it has fewer already, or
/// the specification and this parser read different values in it.
/// Selection sets, values and types may nest as deep as the limits say.
///
/// Errors are those of `check_query_limited`, of the text that it is given; `OutOfMemory` where memory was refused.
pub fn minify_query(alloc: Global, text: &str, limits: Limits) -> Result<String>
    ensures reads { ReadsText (checked requests) limits text.now (judgement_of result) }
    // It says of the text what a parse says, unless memory runs out.
    ensures as_parsed { IsAsParsedText requests limits text.now (judgement_of result) }
    ensures minified { IfOk result (λ s. IsMinified text.now (string_bytes s)) }
    // Of the text that it gives, it gives the same again.
    ensures again { IfOk result (λ s. (other : List ℕ) → IsMinified (string_bytes s) other →
        other ≡ string_bytes s) }
    ensures meaning { IfOk result (λ s. MeanTheSame requests limits text.now (string_bytes s)) }
{
    check_query_limited(alloc, text, limits)?;
    minify_tokens(alloc, text)
}

/// The schema file without what is ignored in it and isn't needed, as [`minify_query`] leaves it out. Values and types may
/// nest as deep as the limits say.
///
/// Errors are those of `check_schema_limited`, of the text that it is given; `OutOfMemory` where memory was refused.
pub fn minify_schema(alloc: Global, text: &str, limits: Limits) -> Result<String>
    ensures reads { ReadsText (checked schemas) limits text.now (judgement_of result) }
    // It says of the text what a parse says, unless memory runs out.
    ensures as_parsed { IsAsParsedText schemas limits text.now (judgement_of result) }
    ensures minified { IfOk result (λ s. IsMinified text.now (string_bytes s)) }
    // Of the text that it gives, it gives the same again.
    ensures again { IfOk result (λ s. (other : List ℕ) → IsMinified (string_bytes s) other →
        other ≡ string_bytes s) }
    ensures meaning { IfOk result (λ s. MeanTheSame schemas limits text.now (string_bytes s)) }
{
    check_schema_limited(alloc, text, limits)?;
    minify_tokens(alloc, text)
}

// The text minified, which has no fault. It fails only where memory runs out.
fn minify_tokens(alloc: Global, text: &str) -> Result<String>
    requires { ¬ (HasFault text.now) }
    ensures minified { IfOk result (λ s. IsMinified text.now (string_bytes s)) }
    ensures again { IfOk result (λ s. (other : List ℕ) → IsMinified (string_bytes s) other →
        other ≡ string_bytes s) }
    ensures fails { IfErr result (λ error. error ≡ OutOfMemory) }
{
    match minify(alloc, text)? {
        Some(minified) => Ok(minified),
        None => unreachable!(),
    }
}
