//! Bytes that are written one after another, with room made ahead of them.
ghost use Rattle.std.specs.Prelude.{◌≡◌, ◌+◌, ◌<◌, ◌≤◌, [], ◌∷◌, ◌++◌, cond, length, take, OnOk};
ghost use Rattle.graphql_json.specs.buffer.Buffered.{Appends};
ghost use Rattle.graphql_json.specs.inner.Buffers.{PutsPlain, opening_text, pos_text};
ghost use Rattle.json.specs.Filled.{Placed};

use crate::plain::{copy, copy_number, copy_plain, plain_run};
use graphql_parser::Pos;
use std::alloc::{AllocError, Global};
use std::marker::Model;

// So many bytes are made ready at a time once there are as many. A longer piece goes out with none made ready.
static BLOCK: [u8; 2048] = [0; 2048];

// So many at first, since most texts of errors are short, and then as many as there are.
const FIRST: usize = 256;

/// Bytes that are written one after another.
///
/// Zeros stand after them, so that a piece is copied with one test for room. A contract sees the bytes, and how many zeros
/// stand ready. It is `pub` only for `graphql_packed`, and may change.
#[derive(Drop)]
pub struct Buffer {
    bytes: Vec<u8>,
    len: usize,
}

impl Model for Buffer {
    ghost use Rattle.std.specs.Prelude.{◌-◌, ◌≤◌, length, take};
    ghost use Rattle.graphql_json.specs.buffer.Buffered.{Buffered, buffered_code};

    ghost Value = { Buffered };

    ghost coded = { buffered_code };

    ghost view = { λ b. record { items = take b.len b.bytes.items; ready = length b.bytes.items - b.len } };

    ghost invariant = { λ b. b.len ≤ length b.bytes.items };
}

impl Buffer {
    /// No bytes.
    pub fn new(alloc: Global) -> Buffer
        ensures { result.items ≡ [] }
    {
        Buffer {
            bytes: Vec::new(alloc),
            len: 0,
        }
    }

    /// The bytes.
    pub fn into_vec(self) -> Vec<u8>
        ensures { result.items ≡ self.items }
    {
        let Buffer { mut bytes, len } = self;
        bytes.truncate(len);
        bytes
    }

    /// How many bytes there are.
    pub(crate) fn len(&self) -> usize
        ensures { result ≡ length self.now.items }
    {
        self.len
    }

    /// Leaves so many bytes, and drops those after them.
    pub(crate) fn cut(&mut self, len: usize)
        ensures { self.new.items ≡ take len self.old.items }
    {
        self.len = self.len.min(len);
    }

    /// How many bytes are ready.
    #[inline(always)]
    pub fn ready(&self) -> usize
        ensures { result ≡ self.now.ready }
    {
        self.bytes.len() - self.len
    }

    /// Asks at once for the memory of so many bytes, which are made ready as they are wanted.
    pub(crate) fn make_room(&mut self, more: usize) -> Result<(), AllocError>
        ensures { self.new.items ≡ self.old.items }
    {
        let missing = more.saturating_sub(self.ready());
        self.bytes.reserve(missing)
    }

    /// Makes so many bytes ready.
    #[inline(always)]
    fn reserve(&mut self, more: usize) -> Result<(), AllocError>
        ensures items { self.new.items ≡ self.old.items }
        ensures ready { OnOk result (more ≤ self.new.ready) }
    {
        if self.ready() >= more {
            return Ok(());
        }
        self.grow(more)
    }

    // Adds zeros until so many bytes are ready.
    #[cold]
    #[inline(never)]
    fn grow(&mut self, more: usize) -> Result<(), AllocError>
        ensures items { self.new.items ≡ self.old.items }
        ensures ready { OnOk result (more ≤ self.new.ready) }
    {
        while self.ready() < more {
            let step = self.bytes.len().clamp(FIRST, BLOCK.len());
            self.bytes.extend_from_slice(&BLOCK[..step])?;
        }
        Ok(())
    }

    /// Writes three pieces, of which the first and the last have at most 64 bytes, after a comma where one is wanted. Where
    /// memory is refused, none is written.
    #[inline(always)]
    pub fn put(
        &mut self,
        comma: bool,
        front: &[u8],
        word: &[u8],
        back: &[u8],
    ) -> Result<(), AllocError>
        requires { (length front.now ≤ 64) × (length back.now ≤ 64) }
        ensures { Appends result self.old.items self.new.items
            (cond comma (44 ∷ []) [] ++ (front.now ++ (word.now ++ back.now))) }
    {
        self.reserve(1 + front.len() + word.len() + back.len())?;
        self.put_ready(comma, front, word, back);
        Ok(())
    }

    /// The same where enough bytes are ready.
    #[inline(always)]
    pub fn put_ready(&mut self, comma: bool, front: &[u8], word: &[u8], back: &[u8])
        requires { 1 + length front.now + length word.now + length back.now ≤ self.old.ready }
        ensures { self.new.items ≡ self.old.items
            ++ (cond comma (44 ∷ []) [] ++ (front.now ++ (word.now ++ back.now))) }
    {
        let row = self.bytes.as_mut_slice();
        let at = put_comma(row, self.len, comma);
        let at = copy(row, at, front);
        let at = copy(row, at, word);
        self.len = copy(row, at, back);
    }

    /// The same where room has to be made, of pieces of which the second may be long.
    #[cold]
    #[inline(never)]
    pub fn put_growing(
        &mut self,
        comma: bool,
        front: &[u8],
        word: &[u8],
        back: &[u8],
    ) -> Result<(), AllocError>
        requires { (length front.now ≤ 64) × (length back.now ≤ 64) }
        ensures { Appends result self.old.items self.new.items
            (cond comma (44 ∷ []) [] ++ (front.now ++ (word.now ++ back.now))) }
    {
        let more = 1 + front.len() + word.len() + back.len();
        if word.len() > BLOCK.len() {
            return self.append(more, comma, front, word, back);
        }
        self.grow(more)?;
        self.put_ready(comma, front, word, back);
        Ok(())
    }

    // The same of a long piece, for which no zeros are written. Memory is asked for once, with some for what comes next.
    fn append(
        &mut self,
        more: usize,
        comma: bool,
        front: &[u8],
        word: &[u8],
        back: &[u8],
    ) -> Result<(), AllocError>
        ensures { Appends result self.old.items self.new.items
            (cond comma (44 ∷ []) [] ++ (front.now ++ (word.now ++ back.now))) }
    {
        self.bytes.truncate(self.len);
        self.bytes.reserve(more.saturating_add(BLOCK.len()))?;
        if comma {
            self.bytes.extend_from_slice(b",")?;
        }
        self.bytes.extend_from_slice(front)?;
        self.bytes.extend_from_slice(word)?;
        self.bytes.extend_from_slice(back)?;
        self.len = self.bytes.len();
        Ok(())
    }

    /// Writes three pieces, as `put` does, of which the second is often long.
    #[inline(always)]
    pub(crate) fn put_run(
        &mut self,
        comma: bool,
        front: &[u8],
        run: &[u8],
        back: &[u8],
    ) -> Result<(), AllocError>
        requires { (length front.now ≤ 64) × (length back.now ≤ 64) }
        ensures { Appends result self.old.items self.new.items
            (cond comma (44 ∷ []) [] ++ (front.now ++ (run.now ++ back.now))) }
    {
        if self.ready() < 1 + front.len() + run.len() + back.len() {
            return self.put_growing(comma, front, run, back);
        }
        self.put_ready(comma, front, run, back);
        Ok(())
    }

    /// Writes what opens a node of a kind, with its place, after a comma where one is wanted. Where memory is refused,
    /// nothing is written.
    #[inline(always)]
    pub(crate) fn put_opening(
        &mut self,
        comma: bool,
        kind: &[u8],
        pos: Option<Pos>,
    ) -> Result<(), AllocError>
        ensures { Appends result self.old.items self.new.items
            (cond comma (44 ∷ []) [] ++ opening_text kind.now pos) }
    {
        self.reserve(1 + 64 + 40 + kind.len())?;
        let row = self.bytes.as_mut_slice();
        let at = put_comma(row, self.len, comma);
        let at = copy(row, at, b"{\"kind\":\"");
        let at = copy(row, at, kind);
        let at = copy(row, at, b"\"");
        self.len = copy_pos(row, at, pos);
        Ok(())
    }

    /// Writes a text between two pieces, if no byte of it needs an escape. Else, or where memory is refused, nothing is
    /// written.
    #[inline(always)]
    pub(crate) fn put_plain(
        &mut self,
        comma: bool,
        front: &[u8],
        text: &[u8],
        back: &[u8],
    ) -> Result<bool, AllocError>
        requires { (length front.now ≤ 64) × (length back.now ≤ 64) }
        ensures { PutsPlain result self.old.items self.new.items text.now
            (cond comma (44 ∷ []) [] ++ (front.now ++ (text.now ++ back.now))) }
    {
        if self.ready() < 1 + front.len() + text.len() + back.len() {
            return self.put_if_plain(comma, front, text, back);
        }
        let row = self.bytes.as_mut_slice();
        let at = put_comma(row, self.len, comma);
        let at = copy(row, at, front);
        if !copy_plain(row, at, text) {
            return Ok(false);
        }
        self.len = copy(row, at + text.len(), back);
        Ok(true)
    }

    // The same where room has to be made, for which a text that needs an escape doesn't ask.
    #[cold]
    #[inline(never)]
    fn put_if_plain(
        &mut self,
        comma: bool,
        front: &[u8],
        text: &[u8],
        back: &[u8],
    ) -> Result<bool, AllocError>
        requires { (length front.now ≤ 64) × (length back.now ≤ 64) }
        ensures { PutsPlain result self.old.items self.new.items text.now
            (cond comma (44 ∷ []) [] ++ (front.now ++ (text.now ++ back.now))) }
    {
        if plain_run(text, 0) < text.len() {
            return Ok(false);
        }
        self.put_growing(comma, front, text, back)?;
        Ok(true)
    }
}

// Where no comma is wanted, the one that is stored is written over: no branch depends on it.
#[inline(always)]
fn put_comma(row: &mut [u8], at: usize, comma: bool) -> usize
    requires { at < length row.old }
    ensures { Placed row.old row.new at (cond comma (44 ∷ []) []) result }
{
    row[at] = b',';
    at + usize::from(comma)
}

// A place, where there is one, as members of an object that has some.
#[inline(always)]
fn copy_pos(row: &mut [u8], at: usize, pos: Option<Pos>) -> usize
    requires { at + 60 ≤ length row.old }
    ensures { Placed row.old row.new at (pos_text pos) result }
{
    match pos {
        Some(pos) => {
            let at = copy(row, at, b",\"line\":");
            let at = copy_number(row, at, pos.line);
            let at = copy(row, at, b",\"column\":");
            copy_number(row, at, pos.column)
        }
        None => at,
    }
}
