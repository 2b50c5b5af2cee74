//! What could have stood in place of the rejected token.
ghost use Rattle.std.specs.Prelude.{◌≡◌, IfOk, IfSome};
ghost use Rattle.std.specs.Str.{chars};
ghost use Rattle.graphql_report.specs.fronts.Front.{LastIsLineFeed};
ghost use Rattle.graphql_report.specs.inner.Left.{IsLeftOf};
ghost use Rattle.graphql_report.specs.reports.Expected.{AreExpected, AreTaken, value_names};
ghost use Rattle.graphql_report.specs.inner.Called.{NamesAll, NamesOnly, samples_of, texts};

use crate::fronts::Language;
use crate::left::left_after;
use crate::phrases::Phrase;
use crate::probes::{ends, line_of, takes};
use crate::samples::{END, KEYWORDS, LITERALS, NAME, NAME_TEXT, PUNCTUATORS, Sample, VALUE};
use graphql_parser::Limits;
use std::alloc::{AllocError, Global};

// The names of those of the samples that can stand after this line, after which this is left, if it is known.
fn taken(
    alloc: Global,
    language: Language,
    limits: Limits,
    line: &str,
    left: &Option<Vec<Phrase>>,
    samples: &[Sample],
) -> Result<Vec<&'static str>, AllocError>
    requires line { LastIsLineFeed (chars line.now) }
    requires left { IfSome left.now (λ left. IsLeftOf language limits line.now left.items) }
    ensures { IfOk result (λ names.
        AreTaken language limits line.now (samples_of samples.now) (texts names.items)) }
{
    let mut taken = Vec::new(alloc);
    for sample in samples {
        let (text, name) = *sample;
        if takes(alloc, language, limits, line, left, text)? {
            taken.push(name)?;
        }
    }
    Ok(taken)
}

/// What is expected after a front: each sample such that some document within the limits begins with the front and the
/// sample, and the end of the text if the front is a whole document. Keywords are left out if a plain name is expected.
/// If the front has no fault, each token that can stand on the line after it is called by one of the names, and each
/// name is that of such a token, or of the end.
///
/// The front is read once, to find what is left of a document after it; each sample is tried with that.
pub fn expected_after(
    alloc: Global,
    language: Language,
    front: &str,
    limits: Limits,
) -> Result<Vec<&'static str>, AllocError>
    ensures samples { IfOk result (λ names. AreExpected language limits front.now (texts names.items)) }
    ensures all { IfOk result (λ names. NamesAll language limits front.now (texts names.items)) }
    ensures only { IfOk result (λ names. NamesOnly language limits front.now (texts names.items)) }
{
    expected_in(alloc, language, front, limits)
}

// What is expected after a front.
fn expected_in(
    alloc: Global,
    language: Language,
    front: &str,
    limits: Limits,
) -> Result<Vec<&'static str>, AllocError>
    ensures { IfOk result (λ names. AreExpected language limits front.now (texts names.items)) }
{
    let text = line_of(alloc, front)?;
    let line = text.as_str();
    let left = left_after(alloc, language, line, limits)?;
    let has_name = takes(alloc, language, limits, line, &left, NAME_TEXT)?;
    let literals = taken(alloc, language, limits, line, &left, &LITERALS)?;
    let punctuators = taken(alloc, language, limits, line, &left, &PUNCTUATORS)?;
    let keywords = if has_name {
        Vec::new(alloc)
    } else {
        taken(alloc, language, limits, line, &left, &KEYWORDS)?
    };
    let mut names = names_of_values(alloc, has_name, literals.as_slice())?;
    names.extend_from_slice(punctuators.as_slice())?;
    names.extend_from_slice(keywords.as_slice())?;
    if ends(alloc, language, limits, line, &left)? {
        names.push(END)?;
    }
    Ok(names)
}

// A name and literals, or a value if all that a value may begin with is expected, but for a variable.
fn names_of_values(
    alloc: Global,
    has_name: bool,
    literals: &[&'static str],
) -> Result<Vec<&'static str>, AllocError>
    ensures { IfOk result (λ names. texts names.items ≡ value_names has_name (texts literals.now)) }
{
    let mut names = Vec::new(alloc);
    if has_name && literals.len() == LITERALS.len() {
        names.push(VALUE)?;
        return Ok(names);
    }
    if has_name {
        names.push(NAME)?;
    }
    names.extend_from_slice(literals)?;
    Ok(names)
}
