//! How the lines of a text end (Language Server Protocol 3.17, "Text Documents").

use std::alloc::{AllocError, Global};

/// How the lines of a text end: as the first one does, or with a line feed if there is one line.
pub fn line_end_of(text: &str) -> &'static str {
    let (line, end) = match text.split_once('\n') {
        Some((line, _)) => (line, "\r\n"),
        None => (text, "\r"),
    };
    match line.split_once('\r') {
        None => "\n",
        Some((_, "")) => end,
        Some(_) => "\r",
    }
}

/// A text whose lines end so.
///
/// It fails only if memory runs out.
pub fn with_line_end(alloc: Global, text: &str, line_end: &str) -> Result<String, AllocError> {
    let text = text.replace(alloc, "\r\n", "\n")?;
    text.replace(alloc, "\n", line_end)
}
