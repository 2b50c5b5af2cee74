//! Messages cut from the bytes that arrive (Language Server Protocol 3.17, "Base Protocol").

use memchr::memmem;
use std::alloc::{AllocError, Global};

/// More bytes than this of header fields are no header part (this project's choice).
pub const LONGEST_HEADERS: usize = 1024;

/// A content of more bytes than this, 64 MiB, is not taken (this project's choice).
pub const LONGEST_CONTENT: usize = 64 * 1024 * 1024;

// After a fault, reading continues where this comes next.
const LENGTH_FIELD: &[u8] = b"Content-Length:";

/// What comes next in the bytes that arrived.
#[derive(Clone, Copy)]
pub enum Piece {
    /// The content of a message, from this byte of the pending ones up to that one.
    Content { start: usize, end: usize },
    /// The same, of a message whose header says that its characters are not coded in UTF-8.
    OtherCharset,
    /// Why a header part is invalid. It is reported once until a message is whole again.
    Fault(&'static str),
}

/// The bytes that arrived and are not yet cut into messages.
#[derive(Drop)]
pub struct Frames {
    alloc: Global,
    pending: Vec<u8>,
    // The bytes before this one are done with.
    passed: usize,
    // A fault was passed, and the next header part is looked for.
    is_lost: bool,
    // A fault was reported, and no message came after it.
    is_told: bool,
}

impl Frames {
    /// No bytes yet. It takes no memory.
    pub fn new(alloc: Global) -> Frames {
        Frames {
            alloc,
            pending: Vec::new(alloc),
            passed: 0,
            is_lost: false,
            is_told: false,
        }
    }

    /// Adds the bytes that arrived.
    ///
    /// It fails only if memory runs out. Then all bytes that are pending are gone, and the next header part is looked for.
    pub fn add(&mut self, bytes: &[u8]) -> Result<(), AllocError> {
        let added = self.pending.extend_from_slice(bytes);
        if added.is_err() {
            self.pending = Vec::new(self.alloc);
            self.passed = 0;
            self.is_lost = true;
        }
        added
    }

    /// The bytes of a content.
    pub fn content(&mut self, start: usize, end: usize) -> &mut [u8] {
        self.pending
            .as_mut_slice()
            .get_mut(start..end)
            .unwrap_or(&mut [])
    }

    /// What comes next; None if more bytes have to come first.
    pub fn next(&mut self) -> Option<Piece> {
        for _ in 0..u64::MAX {
            if self.is_lost && !self.finds_header() {
                return None;
            }
            match header_of(self.rest()) {
                Ok(header) => return self.cut(header?),
                Err(why) => {
                    self.pass(1);
                    self.is_lost = true;
                    if !self.is_told {
                        self.is_told = true;
                        return Some(Piece::Fault(why));
                    }
                }
            }
        }
        None
    }

    /// Lets go of the bytes that are done with.
    pub fn settle(&mut self) {
        if self.passed >= self.pending.len() {
            self.pending = Vec::new(self.alloc);
        } else if self.passed > 0 {
            let _ = self.pending.drain(..self.passed);
        }
        self.passed = 0;
    }

    // The bytes that are not yet done with.
    fn rest(&self) -> &[u8] {
        self.pending.as_slice().get(self.passed..).unwrap_or(&[])
    }

    fn pass(&mut self, bytes: usize) {
        self.passed = self.passed.saturating_add(bytes).min(self.pending.len());
    }

    // Passes what stands before the next header part, if there is one; else all that can be no part of one.
    fn finds_header(&mut self) -> bool {
        let rest = self.rest();
        match memmem::find(rest, LENGTH_FIELD) {
            Some(at) => {
                self.pass(at);
                self.is_lost = false;
                true
            }
            None => {
                let kept = rest.len().min(LENGTH_FIELD.len() - 1);
                let bytes = rest.len() - kept;
                self.pass(bytes);
                false
            }
        }
    }

    // The content that comes after this header part, if it has come.
    fn cut(&mut self, header: Header) -> Option<Piece> {
        let length = header.bytes.saturating_add(header.length.unwrap_or(0));
        if self.rest().len() < length {
            return None;
        }
        let start = self.passed.saturating_add(header.bytes);
        self.pass(length);
        self.is_told = false;
        if header.is_utf8 {
            let end = self.passed;
            Some(Piece::Content { start, end })
        } else {
            Some(Piece::OtherCharset)
        }
    }
}

// A header part: how many bytes it takes with the empty line at its end, and what it says.
#[derive(Clone, Copy)]
struct Header {
    bytes: usize,
    length: Option<usize>,
    is_utf8: bool,
}

// The header part with which these bytes begin; None if more bytes have to come, or why it is wrong.
fn header_of(bytes: &[u8]) -> Result<Option<Header>, &'static str> {
    let front = bytes.get(..LONGEST_HEADERS).unwrap_or(bytes);
    let mut header = Header {
        bytes: 0,
        length: None,
        is_utf8: true,
    };
    for _ in 0..LONGEST_HEADERS {
        let Some(line) = line_at(front, header.bytes) else {
            break;
        };
        header.bytes = header.bytes.saturating_add(line.len()).saturating_add(2);
        if line.is_empty() {
            return match header.length {
                Some(_) => Ok(Some(header)),
                None => Err("a header part has no Content-Length"),
            };
        }
        header.take(line)?;
    }
    if front.len() < LONGEST_HEADERS {
        Ok(None)
    } else {
        Err("a header part is longer than 1024 bytes")
    }
}

// The line that begins at this byte, without its end; None if it doesn't end in these bytes.
fn line_at(bytes: &[u8], start: usize) -> Option<&[u8]> {
    let rest = bytes.get(start..)?;
    let end = memmem::find(rest, b"\r\n")?;
    rest.get(..end)
}

impl Header {
    // Takes what a header field says.
    fn take(&mut self, line: &[u8]) -> Result<(), &'static str> {
        let Ok(line) = std::str::from_utf8(line) else {
            return Err("a header field is not ASCII");
        };
        let Some((name, value)) = line.split_once(':') else {
            return Err("a header field has no colon");
        };
        if name.eq_ignore_ascii_case("Content-Length") {
            if self.length.is_some() {
                return Err("a header part has two fields Content-Length");
            }
            self.length = Some(length_of(value.trim())?);
        } else if name.eq_ignore_ascii_case("Content-Type") {
            self.is_utf8 = is_utf8(value);
        }
        Ok(())
    }
}

// A length in digits alone.
fn length_of(value: &str) -> Result<usize, &'static str> {
    match value.parse::<usize>() {
        Ok(length) if length <= LONGEST_CONTENT && !matches!(value.as_bytes(), [b'+', ..]) => {
            Ok(length)
        }
        _ => Err("a Content-Length is no number up to 67108864"),
    }
}

// Whether a content type names no charset, or `utf-8`, or `utf8`, which is the same for old clients (Language Server Protocol 3.17,
// "Header Part").
fn is_utf8(value: &str) -> bool {
    for part in value.split(';') {
        if let Some((name, charset)) = part.split_once('=')
            && name.trim().eq_ignore_ascii_case("charset")
        {
            let charset = charset.trim().trim_matches('"');
            return charset.eq_ignore_ascii_case("utf-8") || charset.eq_ignore_ascii_case("utf8");
        }
    }
    true
}
