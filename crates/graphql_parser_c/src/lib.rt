//! `graphql_parser` for callers that are not Rattle: a static library with eight functions of C for each language.
//!
//! A check reports whether a text is a request or a schema file, by a status and up to two places, and keeps no tree. A
//! parse reports the same, and hands over the tree, or the error, as JSON. An explanation reports the same, and hands over
//! a report of the error for people. A pack reports the same as a parse, and hands over the tree as bytes for a wrapper
//! that makes trees of its own. A text that is accepted is minified or formatted. Checks and parses within a budget of memory
//! stand beside these.
//! `bindings/graphql_parser.h` declares the functions and says what a caller owes;
//! `bindings/README.md` says how to link them.
//!
//! Proved of each call, for every text, at null too where it has no bytes, and for all limits: its status and its
//! places are those of the parser's one answer for that text, as `graphql_parser` promises it, or the status says that
//! a limit is too large or that the text isn't UTF-8, exactly if that is so. Where the status says something of the
//! text, what a parse hands over is the JSON of that answer's tree or error, as `graphql_json` defines it, and these
//! bytes lie where the pointer says; else null is handed over, with no bytes. Of an answer that is an error, an
//! explanation hands over a report as `graphql_report` defines it, of a text in a file without a name; else nothing. Of
//! an accepted text a pack hands over the bytes of that answer's tree, as `graphql_packed` defines them, else nothing; and what
//! is minified or formatted has the tokens of the text, and so the same tree, except for places.
//! What was there before makes no difference. The places are written where the caller's pointer isn't null, and the text
//! is the caller's own again after the call. That what is handed over lies in a block that `free` takes is tested, by
//! `bindings/check.sh`.
#![tactic(auto)]

ghost use Rattle.std.specs.Prelude.{◌≡◌, length};
ghost use Rattle.graphql_parser.specs.Checking.{checked};
ghost use Rattle.graphql_parser.specs.requests.Requests.{requests};
ghost use Rattle.graphql_parser.specs.schemas.Schemas.{schemas};
ghost use Rattle.graphql_parser_c.specs.Documents.{executable_bytes, executable_value, service_bytes, service_value};
ghost use Rattle.graphql_parser_c.specs.Explaining.{IsExplained};
ghost use Rattle.graphql_report.specs.declared.fronts.Language.TheVariants.{Requests, Schemas};
ghost use Rattle.graphql_parser_c.specs.Handing.{IsAnswered, places_asked};
ghost use Rattle.graphql_parser_c.specs.Packing.{IsPacked};
ghost use Rattle.graphql_parser_c.specs.Rewriting.{IsRewritten, LaysOut, Minifies};
ghost use Rattle.graphql_parser_c.specs.Telling.{IsBack, IsLeft, IsTold, limits_of};

mod block;
mod calls;
mod documents;
mod explaining;
mod handing;
mod lending;
mod packing;
mod rewriting;
mod status;
mod telling;
mod writing;

pub use block::Block;
use calls::{call, call_within, check, check_within};
use explaining::Report;
use graphql_parser::types::{ExecutableDocument, ServiceDocument};
pub use lending::{Room, Text, Told};
use packing::Packed;
use rewriting::{Formatted, Minified};
use std::alloc::Global;
use telling::Bounds;
pub use telling::{Left, Place, Places};
use writing::Json;

/// The version of the library: its first number times 10000, its second times 100, and its third, together.
#[unsafe(no_mangle)]
pub extern "C" fn graphql_parser_version() -> u32
    ensures { result ≡ 10000 }
{
    10000
}

/// Reports whether a text is a request: returns the number of a `Status`, and writes the places that it is about.
///
/// `text` is in UTF-8. `selections`, `values` and `types` say how deep selection sets, values and types may nest, each at
/// most 256. `places`, if it isn't null, is written on every call: 0:0 stands where there is no place. No tree is
/// made.
#[unsafe(no_mangle)]
pub extern "C" fn graphql_parser_check_query(
    alloc: Global,
    text: Text,
    selections: usize,
    values: usize,
    types: usize,
    places: Room,
) -> Told
    ensures told { IsTold (checked requests) (limits_of selections values types) text.bytes
        result.number result.places }
    ensures back { IsBack text places result }
{
    let bounds = Bounds(selections, values, types, usize::MAX);
    check::<ExecutableDocument>(alloc, text, bounds, places)
}

/// Reports whether a text is a schema file, as [`graphql_parser_check_query`] does of a request.
///
/// A schema file has no selection sets: `selections` makes no difference, but it may not be over 256 either.
#[unsafe(no_mangle)]
pub extern "C" fn graphql_parser_check_schema(
    alloc: Global,
    text: Text,
    selections: usize,
    values: usize,
    types: usize,
    places: Room,
) -> Told
    ensures told { IsTold (checked schemas) (limits_of selections values types) text.bytes
        result.number result.places }
    ensures back { IsBack text places result }
{
    let bounds = Bounds(selections, values, types, usize::MAX);
    check::<ServiceDocument>(alloc, text, bounds, places)
}

/// Checks a request as [`graphql_parser_check_query`] does, and takes `memory` bytes at most, counted as `Memory` of
/// `graphql_parser` does. A text that needs more is reported as one for which memory ran out.
#[unsafe(no_mangle)]
pub extern "C" fn graphql_parser_check_query_within(
    alloc: Global,
    text: Text,
    selections: usize,
    values: usize,
    types: usize,
    memory: usize,
    places: Room,
    left: &mut Left,
) -> Told
    ensures told { IsTold (checked requests) (limits_of selections values types) text.bytes
        result.number result.places }
    ensures back { IsBack text places result }
    ensures left { IsLeft memory (length text.bytes) result.number left.new }
{
    let bounds = Bounds(selections, values, types, memory);
    check_within::<ExecutableDocument>(alloc, text, bounds, places, left)
}

/// Checks a schema file as [`graphql_parser_check_schema`] does, within a budget as [`graphql_parser_check_query_within`] has.
#[unsafe(no_mangle)]
pub extern "C" fn graphql_parser_check_schema_within(
    alloc: Global,
    text: Text,
    selections: usize,
    values: usize,
    types: usize,
    memory: usize,
    places: Room,
    left: &mut Left,
) -> Told
    ensures told { IsTold (checked schemas) (limits_of selections values types) text.bytes
        result.number result.places }
    ensures back { IsBack text places result }
    ensures left { IsLeft memory (length text.bytes) result.number left.new }
{
    let bounds = Bounds(selections, values, types, memory);
    check_within::<ServiceDocument>(alloc, text, bounds, places, left)
}

/// Reads a request as [`graphql_parser_check_query`] does, and hands over its tree as JSON, or its error.
///
/// The JSON is that of `graphql_json`: for an accepted text `request_json`, with the places that it writes where
/// `with_places` is true; for a rejected one `error_json`. It is handed over in a block of the program's `malloc`, which
/// the caller gives back by `free`. If memory ran out, a limit is too large or the text isn't UTF-8, it is null
/// and has no bytes. `json` is written on every call, and what stood there isn't looked at.
#[unsafe(no_mangle)]
pub extern "C" fn graphql_parser_parse_query(
    alloc: Global,
    text: Text,
    selections: usize,
    values: usize,
    types: usize,
    with_places: bool,
    places: Room,
    json: &mut Block,
) -> Told
    ensures told { IsTold requests (limits_of selections values types) text.bytes result.number
        result.places }
    ensures handed { IsAnswered requests (executable_value (places_asked with_places))
        (limits_of selections values types) text.bytes result.number json.new }
    ensures back { IsBack text places result }
{
    let bounds = Bounds(selections, values, types, usize::MAX);
    call::<ExecutableDocument, Json>(alloc, text, bounds, &Json { with_places }, places, json)
}

/// Reads a schema file as [`graphql_parser_check_schema`] does, and hands over its tree as JSON, or its error, as
/// [`graphql_parser_parse_query`] does of a request.
#[unsafe(no_mangle)]
pub extern "C" fn graphql_parser_parse_schema(
    alloc: Global,
    text: Text,
    selections: usize,
    values: usize,
    types: usize,
    with_places: bool,
    places: Room,
    json: &mut Block,
) -> Told
    ensures told { IsTold schemas (limits_of selections values types) text.bytes result.number
        result.places }
    ensures handed { IsAnswered schemas (service_value (places_asked with_places))
        (limits_of selections values types) text.bytes result.number json.new }
    ensures back { IsBack text places result }
{
    let bounds = Bounds(selections, values, types, usize::MAX);
    call::<ServiceDocument, Json>(alloc, text, bounds, &Json { with_places }, places, json)
}

/// Reads a request as [`graphql_parser_parse_query`] does, and takes `memory` bytes at most for its tree and what it reads
/// on the way, counted as `Memory` of `graphql_parser` does. The JSON isn't counted.
#[unsafe(no_mangle)]
pub extern "C" fn graphql_parser_parse_query_within(
    alloc: Global,
    text: Text,
    selections: usize,
    values: usize,
    types: usize,
    memory: usize,
    with_places: bool,
    places: Room,
    json: &mut Block,
    left: &mut Left,
) -> Told
    ensures told { IsTold requests (limits_of selections values types) text.bytes result.number
        result.places }
    ensures handed { IsAnswered requests (executable_value (places_asked with_places))
        (limits_of selections values types) text.bytes result.number json.new }
    ensures back { IsBack text places result }
    ensures left { IsLeft memory (length text.bytes) result.number left.new }
{
    let bounds = Bounds(selections, values, types, memory);
    call_within::<ExecutableDocument, Json>(
        alloc,
        text,
        bounds,
        &Json { with_places },
        places,
        json,
        left,
    )
}

/// Reads a schema file as [`graphql_parser_parse_schema`] does, within a budget as [`graphql_parser_parse_query_within`] has.
#[unsafe(no_mangle)]
pub extern "C" fn graphql_parser_parse_schema_within(
    alloc: Global,
    text: Text,
    selections: usize,
    values: usize,
    types: usize,
    memory: usize,
    with_places: bool,
    places: Room,
    json: &mut Block,
    left: &mut Left,
) -> Told
    ensures told { IsTold schemas (limits_of selections values types) text.bytes result.number
        result.places }
    ensures handed { IsAnswered schemas (service_value (places_asked with_places))
        (limits_of selections values types) text.bytes result.number json.new }
    ensures back { IsBack text places result }
    ensures left { IsLeft memory (length text.bytes) result.number left.new }
{
    let bounds = Bounds(selections, values, types, memory);
    call_within::<ServiceDocument, Json>(
        alloc,
        text,
        bounds,
        &Json { with_places },
        places,
        json,
        left,
    )
}

/// Checks a request as [`graphql_parser_check_query`] does, and hands over a report of its error for people.
///
/// The report is that of `graphql_report`'s `explain` for a file without a name: what was found and what was expected, with
/// the line of the place and a caret under it. It is handed over in a block of the program's `malloc`, which the caller
/// gives back by `free`. For an accepted text, and if memory ran out, a limit is too large or the text isn't UTF-8,
/// it is null and has no bytes. `report` is written on every call, and what stood there isn't looked at.
#[unsafe(no_mangle)]
pub extern "C" fn graphql_parser_explain_query(
    alloc: Global,
    text: Text,
    selections: usize,
    values: usize,
    types: usize,
    places: Room,
    report: &mut Block,
) -> Told
    ensures told { IsTold (checked requests) (limits_of selections values types) text.bytes
        result.number result.places }
    ensures handed { IsExplained Requests (checked requests) (limits_of selections values types) text.bytes
        result.number report.new }
    ensures back { IsBack text places result }
{
    let bounds = Bounds(selections, values, types, usize::MAX);
    call::<ExecutableDocument, Report>(alloc, text, bounds, &Report, places, report)
}

/// Checks a schema file as [`graphql_parser_check_schema`] does, and hands over a report of its error for people, as
/// [`graphql_parser_explain_query`] does of a request.
#[unsafe(no_mangle)]
pub extern "C" fn graphql_parser_explain_schema(
    alloc: Global,
    text: Text,
    selections: usize,
    values: usize,
    types: usize,
    places: Room,
    report: &mut Block,
) -> Told
    ensures told { IsTold (checked schemas) (limits_of selections values types) text.bytes
        result.number result.places }
    ensures handed { IsExplained Schemas (checked schemas) (limits_of selections values types) text.bytes
        result.number report.new }
    ensures back { IsBack text places result }
{
    let bounds = Bounds(selections, values, types, usize::MAX);
    call::<ServiceDocument, Report>(alloc, text, bounds, &Report, places, report)
}

/// Reads a request as [`graphql_parser_parse_query`] does, and hands over its tree as bytes for a wrapper.
///
/// The bytes are those of `graphql_packed`, of this version of the library alone. They are handed over in a block of the
/// program's `malloc`, which the caller gives back by `free`. For a text that isn't accepted it is null and has no bytes.
/// `packed` is written on every call, and what stood there isn't looked at.
#[unsafe(no_mangle)]
pub extern "C" fn graphql_parser_pack_query(
    alloc: Global,
    text: Text,
    selections: usize,
    values: usize,
    types: usize,
    places: Room,
    packed: &mut Block,
) -> Told
    ensures told { IsTold requests (limits_of selections values types) text.bytes result.number
        result.places }
    ensures handed { IsPacked requests executable_bytes
        (limits_of selections values types) text.bytes result.number packed.new }
    ensures back { IsBack text places result }
{
    let bounds = Bounds(selections, values, types, usize::MAX);
    call::<ExecutableDocument, Packed>(alloc, text, bounds, &Packed, places, packed)
}

/// Reads a schema file as [`graphql_parser_parse_schema`] does, and hands over its tree as bytes for a wrapper, as
/// [`graphql_parser_pack_query`] does of a request.
#[unsafe(no_mangle)]
pub extern "C" fn graphql_parser_pack_schema(
    alloc: Global,
    text: Text,
    selections: usize,
    values: usize,
    types: usize,
    places: Room,
    packed: &mut Block,
) -> Told
    ensures told { IsTold schemas (limits_of selections values types) text.bytes result.number
        result.places }
    ensures handed { IsPacked schemas service_bytes
        (limits_of selections values types) text.bytes result.number packed.new }
    ensures back { IsBack text places result }
{
    let bounds = Bounds(selections, values, types, usize::MAX);
    call::<ServiceDocument, Packed>(alloc, text, bounds, &Packed, places, packed)
}

/// Checks a request as [`graphql_parser_check_query`] does, and hands over the text without what isn't needed in it.
///
/// Comments, blanks, line ends, commas and byte order marks are left out, and one blank stands where two tokens would be
/// read as others if they touched, as `minify_query` of `graphql_printer` does. The text is handed over in a block of the
/// program's `malloc`, which the caller gives back by `free`. For a text that isn't accepted it is null and has no bytes.
/// `minified` is written on every call, and what stood there isn't looked at.
#[unsafe(no_mangle)]
pub extern "C" fn graphql_parser_minify_query(
    alloc: Global,
    text: Text,
    selections: usize,
    values: usize,
    types: usize,
    places: Room,
    minified: &mut Block,
) -> Told
    ensures told { IsTold (checked requests) (limits_of selections values types) text.bytes
        result.number result.places }
    ensures handed { IsRewritten Minifies requests (limits_of selections values types) text.bytes
        result.number minified.new }
    ensures back { IsBack text places result }
{
    let bounds = Bounds(selections, values, types, usize::MAX);
    call::<ExecutableDocument, Minified>(alloc, text, bounds, &Minified, places, minified)
}

/// Checks a schema file as [`graphql_parser_check_schema`] does, and hands over the text without what isn't needed in it, as
/// [`graphql_parser_minify_query`] does of a request.
#[unsafe(no_mangle)]
pub extern "C" fn graphql_parser_minify_schema(
    alloc: Global,
    text: Text,
    selections: usize,
    values: usize,
    types: usize,
    places: Room,
    minified: &mut Block,
) -> Told
    ensures told { IsTold (checked schemas) (limits_of selections values types) text.bytes
        result.number result.places }
    ensures handed { IsRewritten Minifies schemas (limits_of selections values types) text.bytes
        result.number minified.new }
    ensures back { IsBack text places result }
{
    let bounds = Bounds(selections, values, types, usize::MAX);
    call::<ServiceDocument, Minified>(alloc, text, bounds, &Minified, places, minified)
}

/// Checks a request as [`graphql_parser_check_query`] does, and hands over the text laid out.
///
/// Its tokens and comments are kept, as `format_query` of `graphql_printer` keeps them. The text is handed over as
/// [`graphql_parser_minify_query`] hands over its own; `formatted` is written on every call.
#[unsafe(no_mangle)]
pub extern "C" fn graphql_parser_format_query(
    alloc: Global,
    text: Text,
    selections: usize,
    values: usize,
    types: usize,
    places: Room,
    formatted: &mut Block,
) -> Told
    ensures told { IsTold (checked requests) (limits_of selections values types) text.bytes
        result.number result.places }
    ensures handed { IsRewritten LaysOut requests (limits_of selections values types) text.bytes
        result.number formatted.new }
    ensures back { IsBack text places result }
{
    let bounds = Bounds(selections, values, types, usize::MAX);
    call::<ExecutableDocument, Formatted>(alloc, text, bounds, &Formatted, places, formatted)
}

/// Checks a schema file as [`graphql_parser_check_schema`] does, and hands over the text laid out, as
/// [`graphql_parser_format_query`] does of a request.
#[unsafe(no_mangle)]
pub extern "C" fn graphql_parser_format_schema(
    alloc: Global,
    text: Text,
    selections: usize,
    values: usize,
    types: usize,
    places: Room,
    formatted: &mut Block,
) -> Told
    ensures told { IsTold (checked schemas) (limits_of selections values types) text.bytes
        result.number result.places }
    ensures handed { IsRewritten LaysOut schemas (limits_of selections values types) text.bytes
        result.number formatted.new }
    ensures back { IsBack text places result }
{
    let bounds = Bounds(selections, values, types, usize::MAX);
    call::<ServiceDocument, Formatted>(alloc, text, bounds, &Formatted, places, formatted)
}
