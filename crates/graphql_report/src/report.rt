//! The report of an error: a finding as text, with the lines of its places.
ghost use Rattle.std.specs.Prelude.{◌≡◌, ◌∷◌, ◌++◌, [], codes, IfOk, OnOk, string_bytes};
ghost use Rattle.graphql_report.specs.declared.style.Style.TheVariants.{Plain};
ghost use Rattle.graphql_report.specs.inner.Told.{AddsMessage, AddsPart};
ghost use Rattle.graphql_report.specs.reports.Refused.{IsKnown, IsRefusedFrom};
ghost use Rattle.graphql_report.specs.reports.Rests.{BeginsAt, top};
ghost use Rattle.graphql_report.specs.reports.Reports.{IsReport, IsReportWith, named as named_by};

use crate::definitions::{SecondPlace, error_offsets};
use crate::excerpt::excerpt_of;
use crate::findings::finding_from;
use crate::fronts::Language;
use crate::rests::ReadUpTo;
use crate::style::{Part, Style};
use graphql_parser::{Error, Limits, Pos};
use std::alloc::{AllocError, Global};

/// A report of `error` for people, which a parser returned for `text` at these limits; each line ends in a line feed.
///
/// It begins with `FILE:LINE:COL: ` and the message, where `FILE` is `file_name` as it is; then the line of the place
/// follows, with a caret under it; and if the error has two places, the second follows in the same way. For a `Syntax`
/// error the message reports what was found, or what is wrong where no token begins, and what was expected; its place
/// is the error's, but for a bad escape in a string, where it is that of the first one. An error without a place has
/// the one line `FILE: ` and the message. If `file_name` is empty, `FILE:` is left out everywhere. (This project's own
/// call.)
///
/// `limits` are those that the parser was given, `Limits::default()` for the calls without limits. The text is read
/// twice: one check finds the rejected token, and what stands before it is read once to find what was expected; a limit
/// takes a third reading. An error says that memory was refused.
pub fn explain(
    alloc: Global,
    language: Language,
    file_name: &str,
    text: &str,
    limits: Limits,
    error: &Error,
) -> Result<String, AllocError>
    ensures { IfOk result (λ report.
        IsReport Plain file_name.now (IsRefusedFrom language limits text.now top) language limits text.now top
        error.now (string_bytes report)) }
{
    explain_in(
        Style::Plain,
        alloc,
        language,
        file_name,
        text,
        limits,
        error,
    )
}

/// What [`explain`] returns, in this style. (This project's own call.)
pub fn explain_in(
    style: Style,
    alloc: Global,
    language: Language,
    file_name: &str,
    text: &str,
    limits: Limits,
    error: &Error,
) -> Result<String, AllocError>
    ensures { IfOk result (λ report.
        IsReport style file_name.now (IsRefusedFrom language limits text.now top) language limits text.now top
        error.now (string_bytes report)) }
{
    let read = &ReadUpTo::refused(alloc, language, text, limits, error)?;
    explain_from(style, alloc, language, file_name, text, read, limits, error)
}

/// What [`explain_in`] returns, of a text that was read from a later line on, up to a token that is known. The caller
/// owes that the line begins where `read` says, and that the token is the rejected one. What stands before isn't read,
/// but for the line of the place, and where a place is counted: that of an escape in a string, and of a token that
/// nests too deep. The places of `error` are those in the whole text. An error about definitions is looked for in the
/// whole text. (This project's own call.)
pub fn explain_from(
    style: Style,
    alloc: Global,
    language: Language,
    file_name: &str,
    text: &str,
    read: &ReadUpTo<'_>,
    limits: Limits,
    error: &Error,
) -> Result<String, AllocError>
    requires { BeginsAt text.now read.now.from }
    ensures { IfOk result (λ report.
        IsReportWith style file_name.now (IsKnown language limits text.now read.now) language limits text.now
        read.now.from read.now.unclosed error.now (string_bytes report)) }
{
    let finding = finding_from(alloc, language, text, read, limits, error)?;
    let (place, caret) = (finding.place, finding.caret);
    let message = finding.message.as_str();
    let Some(place) = place else {
        return placeless_report(alloc, file_name, message);
    };
    let source = &Source {
        style,
        file_name,
        text,
    };
    let offsets = error_offsets(alloc, text, error)?;
    let caret = caret.unwrap_or(offsets.first);
    let mut report = String::new(alloc);
    push_part(alloc, &mut report, source, place, caret, message)?;
    if let Some(second) = offsets.second {
        let SecondPlace {
            place,
            offset,
            remark,
        } = second;
        push_part(alloc, &mut report, source, place, offset, remark)?;
    }
    Ok(report)
}

// A text, and how a report of it is written.
#[derive(Clone, Copy)]
struct Source<'a, 'b> {
    style: Style,
    file_name: &'a str,
    text: &'b str,
}

// Adds a place, the message that is said of it, and the line of the place.
fn push_part(
    alloc: Global,
    out: &mut String,
    source: &Source<'_, '_>,
    place: Pos,
    offset: usize,
    message: &str,
) -> Result<(), AllocError>
    ensures { OnOk result (AddsPart source.now.style source.now.file_name.now place message.now
        (string_bytes out.old) (string_bytes out.new)) }
{
    let file = named(alloc, source.file_name, ":")?;
    let file = file.as_str();
    let shown_place = format!(in alloc; "{file}{place}:")?;
    source.style.push(out, Part::Place, shown_place.as_str())?;
    out.push_str(" ")?;
    push_message(out, source.style, message)?;
    out.push_str("\n")?;
    let excerpt = excerpt_of(alloc, source.style, source.text, place.line, offset)?;
    out.push_str(excerpt.as_str())?;
    Ok(())
}

// Adds a message, in which the word `error` of a syntax error stands out.
fn push_message(out: &mut String, style: Style, message: &str) -> Result<(), AllocError>
    ensures { OnOk result (AddsMessage style message.now (string_bytes out.old) (string_bytes out.new)) }
{
    let Some(rest) = message.strip_prefix("syntax error") else {
        out.push_str(message)?;
        return Ok(());
    };
    out.push_str("syntax ")?;
    style.push(out, Part::Error, "error")?;
    out.push_str(rest)?;
    Ok(())
}

// The name of a file and a mark after it; nothing if the file has no name.
fn named(alloc: Global, file_name: &str, mark: &str) -> Result<String, AllocError>
    ensures { IfOk result (λ shown. string_bytes shown ≡ named_by file_name.now mark.now) }
{
    if file_name.is_empty() {
        return Ok(String::new(alloc));
    }
    format!(in alloc; "{file_name}{mark}")
}

// The line of an error without a place.
fn placeless_report(alloc: Global, file_name: &str, message: &str) -> Result<String, AllocError>
    ensures { IfOk result (λ line. string_bytes line ≡ named_by file_name.now (codes ": ") ++ message.now ++ 10 ∷ []) }
{
    let mut out = named(alloc, file_name, ": ")?;
    out.push_str(message)?;
    out.push_str("\n")?;
    Ok(out)
}
