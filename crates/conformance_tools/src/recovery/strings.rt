//! Whether nothing closes a block string, and where the one probably begins that isn't closed.
use graphql_report::Language;
use graphql_texts::recovery::{probable_opening, unclosed_string};
use rows::{Shown, pair};

/// Where the block string of a text begins that nothing closes.
pub fn unclosed(shown: &mut Shown, text: &str) {
    write_offset(shown, unclosed_string(text, 0));
}

/// The same of a text that is read from an offset on, which stands before it, with ` | ` between them.
pub fn unclosed_from(shown: &mut Shown, row: &str) {
    let (from, text) = pair(row, " | ");
    match from.parse() {
        Ok(from) => write_offset(shown, unclosed_string(text, from)),
        Err(_) => shown.word("no such offset"),
    }
}

/// Of a schema file that is rejected at an offset, which stands before it, with ` | ` between them: where the block string
/// begins that nothing closes, and where the one probably does that isn't closed.
pub fn opening(shown: &mut Shown, row: &str) {
    let (refused, text) = pair(row, " | ");
    match refused.parse() {
        Ok(refused) => {
            write_offset(shown, unclosed_string(text, refused));
            shown.word(" ");
            write_offset(shown, probable_opening(Language::Schemas, text, refused));
        }
        Err(_) => shown.word("no such offset"),
    }
}

fn write_offset(shown: &mut Shown, offset: Option<usize>) {
    match offset {
        Some(offset) => shown.item("", &offset),
        None => shown.word("none"),
    }
}
