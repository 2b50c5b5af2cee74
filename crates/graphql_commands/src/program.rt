//! The program's work, over any source of texts and any writers.
ghost use Rattle.std.specs.Prelude.{◌≡◌, ◌≤◌, ◌<◌, ◌⊎◌};
ghost use Rattle.graphql_commands.specs.declared.texts.Unread.TheVariants.{Forbidden, BadName};

use crate::check::{check_files, is_blank, source_of};
use crate::command::{Call, Command, Format, NoCall};
use crate::listed::tell_tokens;
use crate::output::put;
use crate::rewriting::{format_files, found_by, written_anew};
use crate::telling::Teller;
use crate::texts::{Listing, Passed, Texts, Unread};
use graphql_report::Style;
use graphql_texts::rewriting::tree_line;
use std::alloc::{AllocError, Global};
use std::io::Write;

// What `run` says of `lsp`, which the program itself answers.
const NO_SERVER: &str = "gql: an editor is served by the program alone\n";

/// Does the work of the program, and returns the exit status: 0, or 1 if a text is rejected, or would be rewritten
/// and is only checked, or 2 for wrong arguments, a file that can't be read or written or is no UTF-8, output that
/// can't be written, and memory that runs out. That the reader of `out` has gone away changes no status.
///
/// `asked` is what the arguments ask for. Texts are read from `texts`, and put there in the place of others; lists,
/// trees and other texts go to `out`, reports and complaints to `err`, the reports in this style. If memory runs out,
/// nothing goes to `out`, and what goes to `err` are whole lines of what went there else, and that memory ran out. If
/// `counts`, a terminal reads `err`, and it is shown there how many files are done while there are many to do.
pub fn run<T: Texts, O: Write, E: Write>(
    alloc: Global,
    asked: Result<Call<'_>, NoCall>,
    style: Style,
    counts: bool,
    texts: &mut T,
    out: &mut O,
    err: &mut E,
) -> u8
    ensures { result ≤ 2 }
{
    match asked {
        Ok(call) => {
            let mut teller = Teller::new(alloc, Format::Text, style, false);
            teller.counts = counts && !call.is_quiet;
            let status = answer_to_call(&call, texts, &mut teller, err);
            teller.hide_count(err);
            end(&mut teller, status, out, err)
        }
        Err(NoCall::Shown(text)) => print(text.as_str(), 0, out, err),
        Err(NoCall::Wrong(text)) => {
            put(err, text.as_bytes());
            2
        }
        Err(NoCall::NoMemory) => run_out(err),
    }
}

// Writes what was reported, and what is for standard output, and returns the exit status: this one if all is well.
fn end<O: Write, E: Write>(teller: &mut Teller, status: u8, out: &mut O, err: &mut E) -> u8
    ensures { status ≤ 2 → result ≤ 2 }
{
    if teller.put_reports(err).is_err() {
        return run_out(err);
    }
    print(teller.lines.as_str(), status, out, err)
}

// Writes a text to standard output, and returns the exit status: this one if it could be written.
fn print<O: Write, E: Write>(text: &str, status: u8, out: &mut O, err: &mut E) -> u8
    ensures { status ≤ 2 → result ≤ 2 }
{
    if put(out, text.as_bytes()) {
        return status;
    }
    put(err, b"gql: cannot write standard output\n");
    2
}

// Says that memory ran out, and returns the exit status for that.
fn run_out<E: Write>(err: &mut E) -> u8
    ensures { result ≡ 2 }
{
    put(err, b"gql: out of memory\n");
    2
}

fn answer_to_call<T: Texts, E: Write>(
    call: &Call<'_>,
    texts: &mut T,
    teller: &mut Teller,
    err: &mut E,
) -> u8
    ensures { result ≤ 2 }
{
    teller.style = call.style.unwrap_or(teller.style);
    if matches!(call.command, Command::Check | Command::Format) {
        teller.format = call.format;
        teller.is_quiet = call.is_quiet;
    }
    match call.command {
        Command::Lsp => {
            teller.report(NO_SERVER);
            2
        }
        Command::Check => each(call, texts, teller, err),
        Command::Format if call.only_checks || !call.reads_input() => {
            each(call, texts, teller, err)
        }
        _ => answer_to_text(call, texts, teller),
    }
}

// What is printed of the text of the one file of a call.
fn answer_to_text<T: Texts>(call: &Call<'_>, texts: &mut T, teller: &mut Teller) -> u8
    ensures { result ≤ 2 }
{
    let name = call.files.first().copied().unwrap_or("-");
    match texts.text(teller.alloc, name) {
        Ok(text) => print_text(call, name, text.as_str(), teller),
        Err(why) => {
            teller.tell_unread(name, why);
            2
        }
    }
}

// The same of this text.
fn print_text(call: &Call<'_>, name: &str, text: &str, teller: &mut Teller) -> u8
    ensures { result ≤ 2 }
{
    match call.command {
        Command::Tokens => {
            let is_whole = tell_tokens(teller, text);
            if is_whole { 0 } else { 1 }
        }
        Command::Tree => print_tree(call, name, text, teller),
        Command::Format if is_blank(text) => {
            teller.word(text);
            0
        }
        _ => match written_anew(call, name, text, teller) {
            Ok(written) => {
                teller.lines = written;
                0
            }
            Err(found) => found.status(),
        },
    }
}

// `tree`: the tree of the text, or what is wrong with it.
fn print_tree<'a>(call: &Call<'_>, name: &'a str, text: &'a str, teller: &mut Teller) -> u8
    ensures { result ≤ 2 }
{
    let Ok(source) = source_of(teller.alloc, call, name, text) else {
        return teller.run_out().status();
    };
    match tree_line(teller.alloc, &source, call.has_places) {
        Ok(json) => {
            teller.lines = json;
            0
        }
        Err(error) => found_by(&error, &source, teller).status(),
    }
}

// `check`, and `format` of files: what is done with each file, and how many there were of each kind.
fn each<T: Texts, E: Write>(call: &Call<'_>, texts: &mut T, teller: &mut Teller, err: &mut E) -> u8
    ensures { result ≤ 2 }
{
    let mut files: Vec<String> = Vec::new(teller.alloc);
    let unlisted = push_files(call, texts, &mut files, teller);
    let files = files.as_slice();
    let status = match call.command {
        Command::Format => format_files(call, files, texts, teller, err),
        _ => check_files(call, files, texts, teller, err),
    };
    tell_counts(call, teller);
    status_beside(status, unlisted)
}

// The status of a call whose files end with this one, and beside which so much should have been read.
fn status_beside(status: u8, unlisted: usize) -> u8
    ensures unlisted { 0 < unlisted → result ≡ 2 }
    ensures listed { unlisted ≡ 0 → result ≡ status }
    ensures most { status ≤ 2 → result ≤ 2 }
{
    if unlisted > 0 { 2 } else { status }
}

// Adds how many files there were, for people; nothing is printed if only the status is asked for.
fn tell_counts(call: &Call<'_>, teller: &mut Teller) {
    if call.is_quiet {
        teller.lines.clear();
    } else if !call.only_checks && matches!(call.format, Format::Text) {
        teller.count_files(match call.command {
            Command::Format => " formatted",
            _ => " good",
        });
    }
}

// Adds the files that are read: those of the call, and in place of a folder those below it. Reports what can't be read
// there or is skipped, and each folder that has no file or can't be listed; returns how much of that should have been
// read.
fn push_files<T: Texts>(
    call: &Call<'_>,
    texts: &mut T,
    files: &mut Vec<String>,
    teller: &mut Teller,
) -> usize {
    let mut unlisted = 0usize;
    for name in &call.files {
        let unread = match texts.files_below(teller.alloc, name, call.takes_all) {
            Ok(Some(found)) => push_found(name, found, files, teller),
            Ok(None) => {
                let pushed = push_name(teller.alloc, files, name);
                teller.note(pushed);
                0
            }
            Err(why) => tell_passed(name, why, teller),
        };
        unlisted = unlisted.saturating_add(unread);
    }
    unlisted
}

fn push_name(alloc: Global, files: &mut Vec<String>, name: &str) -> Result<(), AllocError> {
    let name = String::from_str(alloc, name)?;
    files.push(name)?;
    Ok(())
}

// The same of what was found below the folder of this name.
fn push_found(name: &str, found: Listing, files: &mut Vec<String>, teller: &mut Teller) -> usize {
    let mut found = found;
    let mut unread = 0usize;
    for Passed { name, why } in &found.passed {
        unread = unread.saturating_add(tell_passed(name.as_str(), *why, teller));
    }
    if found.files.is_empty() && unread == 0 {
        return tell_passed(name, Unread::NoFiles, teller);
    }
    let pushed = files.append(&mut found.files);
    teller.note(pushed);
    unread
}

// Reports why there is no text under this name, and returns 1, or 0 if it is only skipped.
fn tell_passed(name: &str, why: Unread, teller: &mut Teller) -> usize
    ensures { (why ≡ Forbidden) ⊎ (why ≡ BadName) → result ≡ 1 }
{
    teller.tell_unread(name, why);
    if why.is_skipped() { 0 } else { 1 }
}
