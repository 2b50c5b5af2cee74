//! One text written anew: laid out, minified, or its tree as text or as JSON.
ghost use Rattle.std.specs.Prelude.{true, IfOk, string_bytes};
ghost use Rattle.std.specs.Str.{IsUtf8};
ghost use Rattle.graphql_layout.specs.texts.LaidOut.{IsLaidOut};
ghost use Rattle.graphql_layout.specs.texts.Minified.{IsMinified};
ghost use Rattle.graphql_parser.specs.requests.Documents.{document_of as request_of};
ghost use Rattle.graphql_parser.specs.requests.Requests.{requests};
ghost use Rattle.graphql_parser.specs.schemas.Documents.{document_of as schema_of};
ghost use Rattle.graphql_parser.specs.schemas.Schemas.{schemas};
ghost use Rattle.graphql_texts.specs.checked.Good.{IsGoodText};
ghost use Rattle.graphql_texts.specs.checked.Rewritten.{MeanTheSameAs, Prints, PrintsAs};

use crate::errors::Source;
use graphql_json::{Places, request_json, schema_json};
use graphql_layout::line_ends::LineEnd;
use graphql_layout::{format, minify};
use graphql_parser::{Error, Limits, parse_query_limited, parse_schema_limited};
use graphql_printer::{print_query, print_schema};
use graphql_report::Language;
use std::alloc::{AllocError, Global};

/// The text of this source laid out anew, with its comments and the end of a line at its end.
pub fn laid_out(alloc: Global, source: &Source<'_>) -> Result<String, AllocError>
    requires { IsGoodText true source.now.language source.now.limits source.now.text.now }
    ensures laid_out { IfOk result (λ s. IsLaidOut source.now.text.now (string_bytes s)) }
    ensures meaning { IfOk result (λ s.
        MeanTheSameAs source.now.language source.now.limits source.now.text.now (string_bytes s)) }
{
    match format(alloc, source.text)? {
        Some(mut text) => {
            LineEnd::of(source.text).push(&mut text)?;
            Ok(text)
        }
        None => unreachable!(),
    }
}

/// The text of this source without what it doesn't need.
pub fn minified(alloc: Global, source: &Source<'_>) -> Result<String, AllocError>
    requires { IsGoodText true source.now.language source.now.limits source.now.text.now }
    ensures minified { IfOk result (λ s. IsMinified source.now.text.now (string_bytes s)) }
    ensures meaning { IfOk result (λ s.
        MeanTheSameAs source.now.language source.now.limits source.now.text.now (string_bytes s)) }
{
    match minify(alloc, source.text)? {
        Some(text) => Ok(text),
        None => unreachable!(),
    }
}

/// The tree of this source as text, with a line feed at its end. An error is that of the parse.
pub fn printed(alloc: Global, source: &Source<'_>) -> Result<String, Error>
    ensures { IfOk result (λ s.
        PrintsAs source.now.language source.now.limits source.now.text.now (string_bytes s)) }
{
    let Source { limits, text, .. } = *source;
    match source.language {
        Language::Requests => printed_request(alloc, text, limits),
        Language::Schemas => printed_schema(alloc, text, limits),
    }
}

// The tree of a request.
fn printed_request(alloc: Global, text: &str, limits: Limits) -> Result<String, Error>
    ensures { IfOk result (λ s. Prints requests request_of limits text.now (string_bytes s)) }
{
    let document = parse_query_limited(alloc, text, limits)?;
    let mut printed = print_query(alloc, &document)?;
    printed.push('\n')?;
    Ok(printed)
}

// The tree of a schema file.
fn printed_schema(alloc: Global, text: &str, limits: Limits) -> Result<String, Error>
    ensures { IfOk result (λ s. Prints schemas schema_of limits text.now (string_bytes s)) }
{
    let document = parse_schema_limited(alloc, text, limits)?;
    let mut printed = print_schema(alloc, &document)?;
    printed.push('\n')?;
    Ok(printed)
}

/// The tree of this source as JSON, with a line feed at its end, and with the place of each node that has one, if that
/// is asked for. An error is that of the parse.
pub fn tree_line(alloc: Global, source: &Source<'_>, has_places: bool) -> Result<String, Error> {
    let places = if has_places {
        Places::Written
    } else {
        Places::LeftOut
    };
    let json = tree_json(alloc, source, places)?;
    let mut line = String::from_utf8(json).unwrap();
    line.push('\n')?;
    Ok(line)
}

// The tree of a text as JSON.
fn tree_json(alloc: Global, source: &Source<'_>, places: Places) -> Result<Vec<u8>, Error>
    ensures { IfOk result (λ json. IsUtf8 json.items) }
{
    match source.language {
        Language::Requests => {
            let document = parse_query_limited(alloc, source.text, source.limits)?;
            Ok(request_json(alloc, &document, places)?)
        }
        Language::Schemas => {
            let document = parse_schema_limited(alloc, source.text, source.limits)?;
            Ok(schema_json(alloc, &document, places)?)
        }
    }
}
