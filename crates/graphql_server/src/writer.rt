//! JSON that is written value by value.

use itoa::Buffer;
use std::alloc::{AllocError, Global};
use std::mem;
use text_edits::{Position, Range};

/// A text of JSON that is being written. Once memory has run out, nothing more is written, and [`JsonWriter::finish`] fails. It is
/// not the kit's writer, since an outline is mostly ranges, which are written here in few pieces.
#[derive(Drop)]
pub struct JsonWriter {
    json: String,
    // Whether a comma comes before the next value or name.
    needs_comma: bool,
    // The words of the text that is written next.
    said: String,
    // The range that was written last, and its text: most symbols of an outline have the same range twice.
    range: Option<Range>,
    range_text: String,
    // The line of the position that was written last, and the text of a position on it up to its character.
    line: Option<usize>,
    line_text: String,
    has_failed: bool,
}

impl JsonWriter {
    /// A text to which nothing was written. It takes no memory.
    pub fn new(alloc: Global) -> JsonWriter {
        JsonWriter {
            json: String::new(alloc),
            needs_comma: false,
            said: String::new(alloc),
            range: None,
            range_text: String::new(alloc),
            line: None,
            line_text: String::new(alloc),
            has_failed: false,
        }
    }

    /// The text, with the end of the object that it is.
    ///
    /// It fails only if memory has run out.
    pub fn finish(self) -> Result<Vec<u8>, AllocError> {
        let mut json = self;
        json.end_object();
        let JsonWriter {
            json,
            has_failed,
            ..
        } = json;
        if has_failed {
            return Err(AllocError);
        }
        Ok(json.into_bytes())
    }

    /// Takes memory for this many bytes more at once, if there is as much.
    pub fn reserve(&mut self, bytes: usize) {
        let _ = self.json.reserve(bytes);
    }

    // Remembers whether memory ran out.
    fn note(&mut self, written: Result<(), AllocError>) {
        self.has_failed = self.has_failed || written.is_err();
    }

    // Writes a piece of the text. Inlined, so that a piece of a length that is known is copied at once.
    #[inline(always)]
    fn push(&mut self, piece: &str) {
        if !self.has_failed && self.json.push_str(piece).is_err() {
            self.has_failed = true;
        }
    }

    // Begins a value or a member with this piece.
    #[inline(always)]
    fn begin(&mut self, piece: &str) {
        if self.needs_comma {
            self.push(",");
        }
        self.push(piece);
    }

    // Writes a value that is this piece.
    fn value(&mut self, piece: &str) {
        self.begin(piece);
        self.needs_comma = true;
    }

    pub fn begin_object(&mut self) {
        self.begin("{");
        self.needs_comma = false;
    }

    pub fn end_object(&mut self) {
        self.push("}");
        self.needs_comma = true;
    }

    pub fn begin_list(&mut self) {
        self.begin("[");
        self.needs_comma = false;
    }

    pub fn end_list(&mut self) {
        self.push("]");
        self.needs_comma = true;
    }

    /// Writes a piece of JSON as it is, after which a value comes.
    #[inline(always)]
    pub fn lead(&mut self, piece: &'static str) {
        self.push(piece);
        self.needs_comma = false;
    }

    /// Writes the end of lists and objects.
    #[inline(always)]
    pub fn end(&mut self, piece: &'static str) {
        self.push(piece);
        self.needs_comma = true;
    }

    /// Writes the name of a member, whose value is written next. None of its characters has to be escaped.
    pub fn name(&mut self, name: &'static str) {
        self.begin("\"");
        self.push(name);
        self.push("\":");
        self.needs_comma = false;
    }

    pub fn text(&mut self, text: &str) {
        self.begin("\"");
        let mut from = 0usize;
        for (at, byte) in text.as_bytes().iter().enumerate() {
            if is_escaped(*byte) {
                self.push(text.get(from..at).unwrap_or(""));
                self.push_escape(*byte);
                from = at.saturating_add(1);
            }
        }
        self.push(text.get(from..).unwrap_or(""));
        self.push("\"");
        self.needs_comma = true;
    }

    // Writes a character of one byte that is escaped.
    fn push_escape(&mut self, byte: u8) {
        match byte {
            b'"' => self.push("\\\""),
            b'\\' => self.push("\\\\"),
            b'\n' => self.push("\\n"),
            b'\r' => self.push("\\r"),
            b'\t' => self.push("\\t"),
            _ => {
                let written = write!(self.json, "\\u{byte:04x}");
                self.note(written);
            }
        }
    }

    pub fn integer(&mut self, number: i64) {
        self.value(Buffer::new().format(number));
    }

    pub fn size(&mut self, number: usize) {
        self.begin("");
        let written = push_number(&mut self.json, number);
        self.note(written);
        self.needs_comma = true;
    }

    pub fn boolean(&mut self, value: bool) {
        self.value(if value { "true" } else { "false" });
    }

    pub fn null(&mut self) {
        self.value("null");
    }

    // ---- Texts in parts

    /// Adds words to the text that [`JsonWriter::said_member`] writes.
    pub fn words(&mut self, words: &str) {
        let said = self.said.push_str(words);
        self.note(said);
    }

    /// Adds a number in brackets to the same text.
    pub fn number_in_brackets(&mut self, number: usize) {
        let said = write!(self.said, "[{number}]");
        self.note(said);
    }

    /// Writes a member whose value is the words that were added.
    pub fn said_member(&mut self, name: &'static str) {
        let empty = String::new(*self.said.allocator());
        let said = mem::replace(&mut self.said, empty);
        self.text_member(name, said.as_str());
    }

    // ---- Members of an object

    /// Begins a member that is an object.
    pub fn object_member(&mut self, name: &'static str) {
        self.name(name);
        self.begin_object();
    }

    /// Begins a member that is a list.
    pub fn list_member(&mut self, name: &'static str) {
        self.name(name);
        self.begin_list();
    }

    /// The same with a name whose characters may have to be escaped.
    pub fn named_list(&mut self, name: &str) {
        self.text(name);
        self.push(":[");
        self.needs_comma = false;
    }

    pub fn text_member(&mut self, name: &'static str, text: &str) {
        self.name(name);
        self.text(text);
    }

    pub fn size_member(&mut self, name: &'static str, number: usize) {
        self.name(name);
        self.size(number);
    }

    pub fn boolean_member(&mut self, name: &'static str, value: bool) {
        self.name(name);
        self.boolean(value);
    }

    /// Writes a member that is a range of a text.
    pub fn range_member(&mut self, name: &'static str, range: Range) {
        self.name(name);
        self.range(range);
    }

    /// Writes a range of a text.
    pub fn range(&mut self, range: Range) {
        if self.range != Some(range) {
            self.range = Some(range);
            let written = self.say_range(range);
            self.note(written);
        }
        let written = self.json.push_str(self.range_text.as_str());
        self.note(written);
        self.needs_comma = true;
    }

    // Makes the text of a range.
    fn say_range(&mut self, range: Range) -> Result<(), AllocError> {
        self.range_text.clear();
        self.range_text.push_str("{\"start\":")?;
        self.say_position(range.start)?;
        self.range_text.push_str("},\"end\":")?;
        self.say_position(range.end)?;
        self.range_text.push_str("}}")
    }

    // Adds a position to that text, up to its last brace.
    fn say_position(&mut self, position: Position) -> Result<(), AllocError> {
        if self.line != Some(position.line) {
            self.line = Some(position.line);
            self.line_text.clear();
            self.line_text.push_str("{\"line\":")?;
            push_number(&mut self.line_text, position.line)?;
            self.line_text.push_str(",\"character\":")?;
        }
        self.range_text.push_str(self.line_text.as_str())?;
        push_number(&mut self.range_text, position.character)
    }
}

// Adds a number. Most have one digit or two.
fn push_number(json: &mut String, number: usize) -> Result<(), AllocError> {
    if number >= 100 {
        return json.push_str(Buffer::new().format(number));
    }
    if number >= 10 {
        json.push(last_digit(number / 10))?;
    }
    json.push(last_digit(number))
}

fn last_digit(number: usize) -> char {
    (b'0' + (number % 10) as u8) as char
}

// Whether this byte of a text is a character that JSON escapes (RFC 8259, section 7).
fn is_escaped(byte: u8) -> bool {
    byte < b' ' || byte == b'"' || byte == b'\\'
}
