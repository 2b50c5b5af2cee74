//! Texts that aren't open, which are read from their files ("file" URIs, RFC 8089).

use crate::answers::Failure;
use percent_encoding::percent_decode;
use std::alloc::{AllocError, Global};
use text_edits::Document;

/// Why a file isn't read.
#[derive(Clone, Copy)]
pub enum Unread {
    NoMemory,
    /// Why, in words.
    Because(&'static str),
}

/// What files are read from.
pub trait Files {
    /// The text of the file at an absolute path.
    fn text(&mut self, alloc: Global, path: &str) -> Result<String, Unread>;
}

/// The text of a URI that isn't open, from its file.
///
/// It fails if memory runs out, and with a reason if the URI has no path, or there is no text at it.
pub fn closed_text<'a, F: Files>(
    alloc: Global,
    files: &mut F,
    uri: &'a str,
) -> Result<Document, Failure<'a>> {
    let Some(path) = path_of(alloc, uri)? else {
        return Err(Failure::NoText(uri, NO_FILE));
    };
    match files.text(alloc, path.as_str()) {
        Ok(text) => Ok(Document::new(alloc, text)?),
        Err(Unread::NoMemory) => Err(Failure::OutOfMemory),
        Err(Unread::Because(why)) => Err(Failure::NoText(uri, why)),
    }
}

const NO_FILE: &str = "the text isn't open, and this is no file";

// The path that a URI has, its percent escapes read; None if it isn't of a file of this machine, or isn't UTF-8.
fn path_of(alloc: Global, uri: &str) -> Result<Option<String>, AllocError> {
    let escaped = escaped_path_of(uri);
    if !escaped.starts_with('/') {
        return Ok(None);
    }
    let mut path = Vec::new(alloc);
    percent_decode(escaped.as_bytes()).append_to(&mut path)?;
    Ok(String::from_utf8(path).ok())
}

// The path as the URI has it, if it is of a file of this machine. A path begins with a slash.
fn escaped_path_of(uri: &str) -> &str {
    let rest = uri.strip_prefix("file:").unwrap_or("");
    match rest.strip_prefix("//") {
        None => rest,
        Some(rest) => rest.strip_prefix("localhost").unwrap_or(rest),
    }
}
