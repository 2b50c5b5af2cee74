//! Measures the libraries as they are built.
//!
//! `conformance_tools bench tokens` cuts the text on standard input into its tokens, again and again, and prints a line for
//! each round: `lex NANOSECONDS COUNT`, the count being that of the tokens. `bench query` reads it as a request, and
//! `bench schema` as a schema file; they drop the tree, and print `parse NANOSECONDS ANSWER` for each round, the answer
//! being `accepted` or `refused`. `bench check` and `bench check-schema` make no tree, and print the same. With
//! `memory` after one of these four it is read once, and `memory BYTES ANSWER` is printed, the bytes being those that
//! it takes of a budget. The modes that write texts print `write NANOSECONDS BYTES`.
//!
//! `bench texts` and `bench editing` take the texts of a workload, which `bench/make_texts.py` makes of a seed, and a
//! number of rounds. They print a digest of all that was answered, and no times. In each round of `texts` the names in
//! all texts are changed, and what the file asks for is done with each; so no text is read twice. In each round of
//! `editing` a key is pressed in each text, and all that is wrong with it is reported.
//!
//! Nothing is claimed of any but that it is safe and ends.
mod digest;
mod editing;
mod jobs;
mod modes;
mod texts;
mod walks;

use modes::{count_memory, mode_named, time};
use rows::{Shown, pair};
use std::alloc::{AllocError, Global};
use std::io;

const USAGE: &str = "usage: conformance_tools bench tokens < TEXT, or
       conformance_tools bench query|check|schema|check-schema [memory] < TEXT, or
       conformance_tools bench format|format-schema|minify|minify-schema|print|print-schema < TEXT, or
       conformance_tools bench texts|editing ROUNDS < TEXTS";

/// Does what the words ask for with the text on standard input.
pub fn run(rt: &HostRuntime, words: &str) -> io::Result<()> {
    let (what, more) = words.split_once(' ').unwrap_or((words, ""));
    let mode = mode_named(what);
    if mode.is_none() && what != "texts" && what != "editing" {
        return println!(rt; "{USAGE}");
    }
    let given = io::read_to_string(rt.alloc(), rt.stdin())?;
    let text = given.as_str();
    match (mode, more) {
        (Some(mode), "") => time(rt, mode, text),
        (Some(mode), "memory") => count_memory(rt, mode, text),
        _ => print_digest(rt, words, text),
    }
}

fn print_digest(rt: &HostRuntime, asked: &str, text: &str) -> io::Result<()> {
    let mut told = Shown::new(rt.alloc(), true);
    write_digest(&mut told, asked, text);
    println!(rt; "{}", told.whole().unwrap_or("out of memory"))
}

/// Writes the digest of all that is answered to the texts of a workload, after what is done with them and in how many
/// rounds, as `texts 2`.
pub fn write_digest(shown: &mut Shown, asked: &str, texts: &str) {
    let (what, rounds) = pair(asked, " ");
    let alloc = shown.alloc();
    match (what, rounds.parse()) {
        ("texts", Ok(rounds)) => write_number(shown, jobs::digest_of(alloc, texts, rounds)),
        ("editing", Ok(rounds)) => write_number(shown, editing::digest_of(alloc, texts, rounds)),
        _ => shown.word(USAGE),
    }
}

fn write_number(shown: &mut Shown, digest: Result<u64, AllocError>) {
    match digest {
        Ok(digest) => shown.item("", &format_args!("{digest:016x}")),
        Err(_) => shown.leave_out(),
    }
}
