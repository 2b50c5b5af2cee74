//! Key strokes: a text is changed, and all that is wrong with it is reported, as a language server does it.
use super::texts::{Text, read_texts};
use crate::edits::document_of;
use crate::random::Random;
use graphql_parser::Limits;
use graphql_texts::{Diagnosis, Language, diagnoses_of};
use std::alloc::{AllocError, Global};
use text_edits::{Document, Encoding, Position, Range};

// What an editor that names no encoding counts columns in.
const ENCODING: Encoding = Encoding::Utf16;

// How many lines each definition takes, and on which of them, and behind how many blanks, a name stands.
const LINES: usize = 6;

const NAME_LINE: usize = 3;

const BLANKS: usize = 4;

// What is typed in comments.
const KEYS: [&str; 4] = ["x", "é", "日", "😀"];

/// Presses this many keys in each of the texts of a file. Returns a digest of all that is reported after each.
pub fn digest_of(alloc: Global, file: &str, strokes: u32) -> Result<u64, AllocError> {
    let mut texts = Vec::new(alloc);
    let mut edited = Vec::new(alloc);
    let random = read_texts(file, &mut texts)?;
    open(alloc, &texts, &mut edited)?;
    press_all(alloc, &mut edited, strokes, random)
}

// A text, and how many definitions it has.
#[derive(Drop)]
struct Edited {
    language: Language,
    document: Document,
    definitions: usize,
}

fn open(alloc: Global, texts: &Vec<Text>, edited: &mut Vec<Edited>) -> Result<(), AllocError> {
    for text in texts {
        edited.push(Edited {
            language: text.language,
            document: document_of(alloc, text.text())?,
            definitions: text.text().lines().count() / LINES,
        })?;
    }
    Ok(())
}

fn press_all(
    alloc: Global,
    edited: &mut Vec<Edited>,
    strokes: u32,
    mut random: Random,
) -> Result<u64, AllocError> {
    let mut digest = Random { state: 0 };
    for _ in 0..strokes {
        for text in &mut *edited {
            press(alloc, text, &mut random)?;
            tell(alloc, text, &mut digest)?;
        }
    }
    Ok(digest.bits())
}

// Types a character: one in the comment before a definition, or one at the beginning of a name in it.
fn press(alloc: Global, text: &mut Edited, random: &mut Random) -> Result<(), AllocError> {
    let first = random.below(text.definitions).saturating_mul(LINES);
    let (line, character, key) = if random.below(2) == 0 {
        let key = KEYS.get(random.below(KEYS.len())).copied();
        (first, 2, key.unwrap_or("x"))
    } else {
        (first.saturating_add(NAME_LINE), BLANKS, "x")
    };
    let place = Position { line, character };
    let range = Range {
        start: place,
        end: place,
    };
    text.document.apply(alloc, ENCODING, range, key)
}

// Adds what is wrong with a text to a digest, with the positions.
fn tell(alloc: Global, text: &Edited, digest: &mut Random) -> Result<(), AllocError> {
    let document = &text.document;
    for diagnosis in &diagnoses_of(alloc, text.language, document.text(), Limits::default())? {
        let Diagnosis { span, message, .. } = diagnosis;
        for offset in [span.start, span.end] {
            let position = document.position_of(ENCODING, offset);
            digest.add(position.line);
            digest.add(position.character);
        }
        digest.add(message.len());
        for byte in message.as_bytes() {
            digest.add(usize::from(*byte));
        }
    }
    digest.add(document.text().len());
    Ok(())
}
