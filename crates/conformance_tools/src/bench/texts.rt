//! The texts that `bench/make_texts.py` makes, in which letters of names change.
use crate::random::Random;
use graphql_report::Language;
use rows::{number_in, pair};
use std::alloc::{AllocError, Global};
use std::str;

// How many letters change at a mark.
const LETTERS: usize = 8;

/// What is done with a text in each round.
#[derive(Clone, Copy)]
pub enum Way {
    /// It is parsed, and its tree walked.
    Walk,
    /// It is checked.
    Check,
    /// It is parsed, and its tree given as JSON and as packed bytes.
    Give,
    /// It is checked, and what is wrong with it reported.
    Explain,
    /// It is laid out, minified, parsed, and its tree printed.
    Write,
    /// It is cut into tokens, checked and parsed, and its tree walked.
    Cut,
    /// Keys are pressed in it, and all that is wrong with it is reported.
    Edit,
}

/// A text, and at which of its bytes the letters begin that change.
#[derive(Drop)]
pub struct Text {
    pub way: Way,
    pub language: Language,
    bytes: Vec<u8>,
    marks: Vec<usize>,
}

impl Text {
    /// Changes the letters.
    pub fn change(&mut self, random: &mut Random) {
        for mark in &self.marks {
            let mut bits = random.bits();
            for step in 0..LETTERS {
                if let Some(byte) = self.bytes.get_mut(mark.saturating_add(step)) {
                    *byte = b'a' | ((bits & 15) as u8);
                }
                bits >>= 4;
            }
        }
    }

    /// The text.
    pub fn text(&self) -> &str {
        str::from_utf8(self.bytes.as_slice()).unwrap_or("")
    }
}

/// Adds the texts of a file, and returns the random numbers that it begins with.
pub fn read_texts(file: &str, texts: &mut Vec<Text>) -> Result<Random, AllocError> {
    let (state, mut rest) = file.split_once('\n').unwrap_or(("", ""));
    for _ in 0..file.len() {
        let Some((head, after)) = rest.split_once('\n') else {
            break;
        };
        let Some(after) = read_text(head, after, texts)? else {
            break;
        };
        rest = after.strip_prefix('\n').unwrap_or("");
    }
    let state = state.parse::<u64>().unwrap_or(0);
    Ok(Random { state })
}

// Adds the text with this head that stands before the rest of a file, and returns what stands after it.
fn read_text<'a>(
    head: &str,
    rest: &'a str,
    texts: &mut Vec<Text>,
) -> Result<Option<&'a str>, AllocError> {
    let (way, head) = pair(head, " ");
    let (language, head) = pair(head, " ");
    let (length, marks) = head.split_once(' ').unwrap_or((head, ""));
    match (way_named(way), rest.split_at_checked(number_in(length))) {
        (Some(way), Some((text, after))) => {
            let language = language_named(language);
            texts.push(text_of(*texts.allocator(), way, language, text, marks)?)?;
            Ok(Some(after))
        }
        _ => Ok(None),
    }
}

fn language_named(word: &str) -> Language {
    match word {
        "schema" => Language::Schemas,
        _ => Language::Requests,
    }
}

fn text_of(
    alloc: Global,
    way: Way,
    language: Language,
    text: &str,
    words: &str,
) -> Result<Text, AllocError> {
    let mut marks = Vec::new(alloc);
    for word in words.split_whitespace() {
        marks.push(number_in(word))?;
    }
    Ok(Text {
        way,
        language,
        bytes: Vec::from_slice(alloc, text.as_bytes())?,
        marks,
    })
}

fn way_named(word: &str) -> Option<Way> {
    match word {
        "walk" => Some(Way::Walk),
        "check" => Some(Way::Check),
        "give" => Some(Way::Give),
        "explain" => Some(Way::Explain),
        _ => other_way_named(word),
    }
}

fn other_way_named(word: &str) -> Option<Way> {
    match word {
        "write" => Some(Way::Write),
        "cut" => Some(Way::Cut),
        "edit" => Some(Way::Edit),
        _ => None,
    }
}
