//! Cut texts, open quotes, other blanks, and every short list of tokens.
use super::answers::{write, write_each_call};
use super::taken::write_counted;
use graphql_parser::Pos;
use graphql_parser::lexer::{TokenKind, Tokens};
use rows::{Parser, Shown};

fn is_refused_at(answer: &Shown, place: Pos) -> bool {
    let mut wanted = Shown::new(answer.alloc(), true);
    wanted.place("syntax ", &place);
    answer.whole().is_some() && answer.whole() == wanted.whole()
}

/// Writes how many beginnings a text has, if each of them is accepted, breaks a rule, or is rejected at one of its
/// last two tokens; and else those that are not.
pub fn write_beginnings(shown: &mut Shown, parser: Parser, text: &str) {
    let mut count = 0usize;
    for offset in 0..=text.len() {
        if let Some((front, _)) = text.split_at_checked(offset) {
            write_unless_late(shown, parser, front);
            count = count.wrapping_add(1);
        }
    }
    shown.item("", &count);
    shown.word(" beginnings");
}

fn write_unless_late(shown: &mut Shown, parser: Parser, text: &str) {
    let mut answer = Shown::new(shown.alloc(), true);
    write(&mut answer, parser, "accepted", "", text);
    let (mut before, mut last) = (Pos::default(), Pos::default());
    for token in Tokens::new(text) {
        before = last;
        last = token.pos;
    }
    let words = answer.whole().unwrap_or("out of memory");
    let is_late = if words.starts_with("syntax") {
        is_refused_at(&answer, before) || is_refused_at(&answer, last)
    } else {
        words != "recursion limit exceeded" && words != "out of memory"
    };
    if !is_late {
        shown.item(text, &": ");
    }
}

/// Writes after how many of its tokens a line may end, and how many it has, if it is rejected at its end when
/// it is cut off after any other; and else the answers that are not so.
pub fn write_cuts(shown: &mut Shown, parser: Parser, text: &str) {
    shown.word("after");
    let mut count = 0usize;
    for token in Tokens::new(text) {
        if token.kind != TokenKind::End {
            count = count.wrapping_add(1);
            let end = token.start.wrapping_add(token.text.len());
            let (front, _) = text.split_at_checked(end).unwrap_or((text, ""));
            write_cut(shown, parser, front, count);
        }
    }
    shown.item(" of ", &count);
}

fn write_cut(shown: &mut Shown, parser: Parser, front: &str, count: usize) {
    let mut answer = Shown::new(shown.alloc(), true);
    write_each_call(&mut answer, parser, "accepted", front);
    let end = Pos {
        line: 1,
        column: front.chars().count().wrapping_add(1),
    };
    if answer.whole() == Some("accepted") {
        shown.item(" ", &count);
    } else if !is_refused_at(&answer, end) {
        shown.item(" ", &front);
        shown.item(": ", &answer.whole().unwrap_or("out of memory"));
    }
}

/// Writes how many tokens a text has, if a quote before any of them but the end is rejected at that quote; and else the
/// texts that are not.
pub fn write_quotes(shown: &mut Shown, parser: Parser, text: &str) {
    let mut count = 0usize;
    for token in Tokens::new(text) {
        if token.kind != TokenKind::End {
            write_unless_at_quote(shown, parser, text, token.start, token.pos);
            count = count.wrapping_add(1);
        }
    }
    shown.item("", &count);
    shown.word(" quotes");
}

fn write_unless_at_quote(shown: &mut Shown, parser: Parser, text: &str, offset: usize, place: Pos) {
    let (front, back) = text.split_at_checked(offset).unwrap_or((text, ""));
    let mut quoted = Shown::new(shown.alloc(), true);
    quoted.item(front, &'"');
    quoted.word(back);
    let mut answer = Shown::new(shown.alloc(), true);
    write(
        &mut answer,
        parser,
        "accepted",
        "",
        quoted.whole().unwrap_or(""),
    );
    if !is_refused_at(&answer, place) {
        shown.item(quoted.whole().unwrap_or("out of memory"), &": ");
    }
}

/// Writes how many tokens are taken of a text, if the answer is the same, but for the places, when its tokens are
/// written again with a line feed after each; else both answers.
pub fn write_lines(shown: &mut Shown, parser: Parser, text: &str) {
    let mut lines = Shown::new(shown.alloc(), true);
    for token in Tokens::new(text) {
        lines.word(token.text);
        lines.word("\n");
    }
    match lines.whole() {
        Some(lines) => write_taken_alike(shown, parser, text, lines),
        None => shown.leave_out(),
    }
}

fn write_taken_alike(shown: &mut Shown, parser: Parser, text: &str, lines: &str) {
    let mut one = Shown::new(shown.alloc(), false);
    write_counted(&mut one, parser, "whole", text);
    let mut other = Shown::new(shown.alloc(), false);
    write_counted(&mut other, parser, "whole", lines);
    match (one.whole(), other.whole()) {
        (Some(one), Some(other)) => write_both(shown, one, other),
        _ => shown.leave_out(),
    }
}

fn write_both(shown: &mut Shown, one: &str, other: &str) {
    match one.rsplit_once(", ") {
        Some((_, taken)) if one == other => shown.item("the same, ", &taken),
        _ => {
            shown.item("", &one);
            shown.item(" and ", &other);
        }
    }
}

/// Writes how many of the texts are accepted that are at most four of these spellings with blanks between them,
/// how many are rejected, and how many have another answer.
pub fn write_short_texts(shown: &mut Shown, parser: Parser, spellings: &str) {
    let (mut taken, mut refused, mut other) = (0usize, 0usize, 0usize);
    let count = spellings.split_whitespace().count();
    for length in 0..=4u32 {
        for index in 0..count.wrapping_pow(length) {
            match is_taken(shown, parser, spellings, length, index) {
                Some(true) => taken = taken.wrapping_add(1),
                Some(false) => refused = refused.wrapping_add(1),
                None => other = other.wrapping_add(1),
            }
        }
    }
    shown.item("", &taken);
    shown.item(" accepted, ", &refused);
    shown.item(" refused, ", &other);
    shown.word(" others");
}

// Whether the text of this index among those of this many spellings is accepted or rejected, if it is one of the two.
fn is_taken(
    shown: &Shown,
    parser: Parser,
    spellings: &str,
    length: u32,
    index: usize,
) -> Option<bool> {
    let mut text = Shown::new(shown.alloc(), true);
    write_spelled(&mut text, spellings, length, index);
    let mut answer = Shown::new(shown.alloc(), true);
    write(
        &mut answer,
        parser,
        "accepted",
        "",
        text.whole().unwrap_or(""),
    );
    match (text.whole(), answer.whole()) {
        (Some(_), Some("accepted")) => Some(true),
        (Some(_), Some(words)) if words.starts_with("syntax") => Some(false),
        _ => None,
    }
}

// The text of this index among those of this many spellings.
fn write_spelled(shown: &mut Shown, spellings: &str, length: u32, index: usize) {
    let count = spellings.split_whitespace().count();
    let mut rest = index;
    for _ in 0..length {
        let which = rest.checked_rem(count).unwrap_or(0);
        rest = rest.checked_div(count).unwrap_or(0);
        shown.word(spellings.split_whitespace().nth(which).unwrap_or("?"));
        shown.word(" ");
    }
}
