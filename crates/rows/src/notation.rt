//! The notation of the rows: what stands for characters that are not seen, and for many of them.
use super::Shown;
use std::alloc::{AllocError, Global};

/// The two parts of a text, before and after the first `between`. Without one, nothing stands before the text.
pub fn pair<'a>(text: &'a str, between: &str) -> (&'a str, &'a str) {
    text.split_once(between).unwrap_or(("", text))
}

/// The number that is written here. What is no number is beyond each text.
pub fn number_in(word: &str) -> usize {
    word.parse().unwrap_or(usize::MAX)
}

/// What a text in the notation of the rows stands for. A bracket that is not closed stands for itself.
pub fn meant(alloc: Global, text: &str) -> Result<String, AllocError> {
    let mut shown = Shown::new(alloc, true);
    write_meant(&mut shown, text);
    shown.finish()
}

// Adds the words of a text, and after each a blank.
pub fn write_words(shown: &mut Shown, text: &str) {
    for word in text.split_whitespace() {
        shown.word(word);
        shown.word(" ");
    }
}

// Adds what a text in the notation of the rows stands for.
pub fn write_meant(shown: &mut Shown, text: &str) {
    let mut parts = text.split('⟨');
    write_plain(shown, parts.next().unwrap_or(""));
    for part in parts {
        if let Some((inside, plain)) = part.split_once('⟩') {
            write_inside(shown, inside);
            write_plain(shown, plain);
        } else {
            shown.word("⟨");
            write_plain(shown, part);
        }
    }
}

fn write_plain(shown: &mut Shown, text: &str) {
    for c in text.chars() {
        shown.letter(plain(c));
    }
}

// The character that one stands for.
fn plain(c: char) -> char {
    match c {
        '␊' => '\n',
        '␍' => '\r',
        '␉' => '\t',
        '␠' | '\u{B}' => ' ',
        other => other,
    }
}

// Adds what stands for the text between ⟨ and ⟩; the text itself where it is in no notation.
fn write_inside(shown: &mut Shown, inside: &str) {
    if let Some((count, text)) = inside.split_once('×')
        && let Ok(count) = count.parse::<usize>()
    {
        write_times(shown, count, text);
    } else if let Ok(code) = u32::from_str_radix(inside, 16)
        && let Some(c) = char::from_u32(code)
    {
        shown.letter(c);
    } else {
        write_plain(shown, inside);
    }
}

// Adds the text this many times, each time with its number in place of each №.
fn write_times(shown: &mut Shown, count: usize, text: &str) {
    for index in 0..count {
        for c in text.chars() {
            match c {
                '№' => shown.item("", &index),
                other => shown.letter(plain(other)),
            }
        }
    }
}
