//! What is timed with one text.
use crate::rewritten::{Rewriting, rewritten};
use graphql_parser::lexer::Tokens;
use graphql_parser::types::{ExecutableDocument, ServiceDocument};
use graphql_parser::{Limits, Memory, parse_query, parse_schema};
use graphql_printer::{print_query, print_schema};
use rows::{Parser, refused_within};
use std::alloc::Global;
use std::io;
use std::time::Instant;

// So many bytes are read in all, and each text 15 times at least: a short one more often, since the first
// rounds find the machine cold.
const BYTES: usize = 10_000_000;

/// What is done.
#[derive(Clone, Copy)]
pub enum Mode {
    Tokens,
    Read(Parser),
    Check(Parser),
    Write(Rewriting, Parser),
    Print(Parser),
}

/// The mode that a word names.
pub fn mode_named(word: &str) -> Option<Mode> {
    match word {
        "tokens" => Some(Mode::Tokens),
        "query" => Some(Mode::Read(Parser::Query)),
        "schema" => Some(Mode::Read(Parser::Schema)),
        _ => match word.strip_suffix("-schema") {
            Some(word) => mode_of(word, Parser::Schema),
            None => mode_of(word, Parser::Query),
        },
    }
}

fn mode_of(word: &str, parser: Parser) -> Option<Mode> {
    match word {
        "check" => Some(Mode::Check(parser)),
        "format" => Some(Mode::Write(Rewriting::Formatted, parser)),
        "minify" => Some(Mode::Write(Rewriting::Minified, parser)),
        "print" => Some(Mode::Print(parser)),
        _ => None,
    }
}

fn rounds(text: &str) -> usize {
    (BYTES / text.len().max(1)).max(15)
}

fn told(is_accepted: bool) -> &'static str {
    if is_accepted { "accepted" } else { "refused" }
}

/// Prints what a mode takes of a budget, and nothing for a mode without one.
pub fn count_memory(rt: &HostRuntime, mode: Mode, text: &str) -> io::Result<()> {
    let (parser, is_check) = match mode {
        Mode::Read(parser) => (parser, false),
        Mode::Check(parser) => (parser, true),
        _ => return Ok(()),
    };
    let mut memory = Memory::new(rt.alloc());
    let before = memory.left();
    let answer = told(refused_within(&mut memory, parser, is_check, text).is_none());
    let taken = before.wrapping_sub(memory.left());
    println!(rt; "memory {taken} {answer}")
}

// What one round returns.
#[derive(Clone, Copy)]
enum Seen {
    // How many tokens there are, and a number that hangs on each of them.
    Tokens { count: usize, mixed: usize },
    Verdict(bool),
    // How many bytes were written; 0 for a text that is rejected.
    Written(usize),
}

// The tree that is printed, which no round makes.
#[derive(Clone, Copy)]
enum Tree<'a> {
    None,
    Request(&'a ExecutableDocument),
    File(&'a ServiceDocument),
}

/// Does what a mode asks for in rounds, and prints the time of each.
pub fn time(rt: &HostRuntime, mode: Mode, text: &str) -> io::Result<()> {
    match mode {
        Mode::Print(Parser::Query) => {
            if let Ok(document) = &parse_query(rt.alloc(), text) {
                return time_rounds(rt, mode, Tree::Request(document), text);
            }
        }
        Mode::Print(Parser::Schema) => {
            if let Ok(document) = &parse_schema(rt.alloc(), text) {
                return time_rounds(rt, mode, Tree::File(document), text);
            }
        }
        _ => {}
    }
    time_rounds(rt, mode, Tree::None, text)
}

fn time_rounds(rt: &HostRuntime, mode: Mode, tree: Tree<'_>, text: &str) -> io::Result<()> {
    let mut all = 0;
    for _ in 0..rounds(text) {
        let start = Instant::now(rt)?;
        let seen = see(mode, tree, rt.alloc(), text);
        print_seen(rt, start.elapsed(rt)?.as_nanos(), seen)?;
        if let Seen::Tokens { mixed, .. } = seen {
            all ^= mixed;
        }
    }
    // What was seen of tokens is used, so that no round can be left out.
    match mode {
        Mode::Tokens => println!(rt; "mixed {all}"),
        _ => Ok(()),
    }
}

fn print_seen(rt: &HostRuntime, time: u128, seen: Seen) -> io::Result<()> {
    match seen {
        Seen::Tokens { count, .. } => println!(rt; "lex {time} {count}"),
        Seen::Verdict(is_accepted) => {
            let answer = told(is_accepted);
            println!(rt; "parse {time} {answer}")
        }
        Seen::Written(length) => println!(rt; "write {time} {length}"),
    }
}

// One round. What is made is dropped.
fn see(mode: Mode, tree: Tree<'_>, alloc: Global, text: &str) -> Seen {
    match mode {
        Mode::Tokens => look_over(text),
        Mode::Read(parser) => read(alloc, parser, false, text),
        Mode::Check(parser) => read(alloc, parser, true, text),
        Mode::Write(rewriting, parser) => {
            length(rewritten(alloc, rewriting, parser, text, Limits::default()))
        }
        Mode::Print(_) => print(tree, alloc),
    }
}

fn read(alloc: Global, parser: Parser, is_check: bool, text: &str) -> Seen {
    let error = refused_within(&mut Memory::new(alloc), parser, is_check, text);
    Seen::Verdict(error.is_none())
}

fn print(tree: Tree<'_>, alloc: Global) -> Seen {
    match tree {
        Tree::None => Seen::Written(0),
        Tree::Request(document) => length(print_query(alloc, document)),
        Tree::File(document) => length(print_schema(alloc, document)),
    }
}

fn length<E: Drop>(written: Result<String, E>) -> Seen {
    Seen::Written(written.map_or(0, |text| text.len()))
}

fn look_over(text: &str) -> Seen {
    let mut tokens = Tokens::new(text);
    let mut count = 0usize;
    let mut mixed = 0usize;
    while !tokens.is_ended() {
        let token = tokens.next_token();
        count = count.wrapping_add(1);
        mixed = mixed
            .wrapping_add(token.pos.line ^ token.pos.column)
            .wrapping_add(token.text.len())
            .wrapping_add(token.start);
    }
    Seen::Tokens { count, mixed }
}
