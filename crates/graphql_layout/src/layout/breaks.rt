//! Which brackets are broken over lines, and what each token is. Sets are always broken. Of another bracket it is known by what
//! is in it: by its beginning where no comment comes any more; else the text is read up to its end before it is laid out, and each
//! token in it is met twice.
use crate::blocks::push_block;
use crate::layout::walk::{Bracket, Role, Step, Walk};
use crate::line_ends::LineBreak;
use crate::one_reading::has_one_reading;
use graphql_tokens::lexer::{TokenKind, Tokens};
use graphql_tokens::text::block_string_value;
use memchr::{memchr, memchr2, memrchr};
use std::alloc::{AllocError, Global};
use std::simd::prelude::*;

// The arguments of a field are broken where it would be longer than this with them.
const LONGEST_CALL: usize = 80;

/// The tokens of a text up to one of them, and what is known of those after it.
#[derive(Drop)]
pub struct Planner {
    alloc: Global,
    walk: Walk,
    // What each token is that was read ahead, and whether each bracket is broken that opens among them: a list, an object,
    // variables or definitions of arguments that were broken after the opening bracket, such definitions of which one is described,
    // the arguments of a field that are too long, and what has a comment in it. How many of both were passed since.
    steps: Vec<Step>,
    passed: usize,
    broken: Vec<bool>,
    opened: usize,
    // The brackets that are open where it reads ahead.
    open: Vec<Open>,
    // How long a selection or a field is up to there, on one line.
    column: usize,
    // In the text's last bytes, fewer than these, no comment begins.
    uncommented: usize,
}

// A bracket that is open where it reads ahead.
#[derive(Clone, Copy)]
struct Open {
    bracket: Bracket,
    // Which one it is.
    index: usize,
    // The column at which what it holds begins.
    inside: usize,
    // The column at which the line ends first, in a bracket in it that is broken.
    stop: Option<usize>,
}

impl Planner {
    /// Before the first token of a text.
    pub fn new(alloc: Global, text: &str) -> Planner {
        let before = memrchr(b'#', text.as_bytes()).unwrap_or(0);
        Planner {
            alloc,
            walk: Walk::new(alloc),
            steps: Vec::new(alloc),
            passed: 0,
            broken: Vec::new(alloc),
            opened: 0,
            open: Vec::new(alloc),
            column: 0,
            uncommented: text.len().saturating_sub(before),
        }
    }

    /// Passes the next token, and gives what it is. It fails only where memory runs out.
    pub fn pass(&mut self, kind: TokenKind, spelling: &str) -> Result<Step, AllocError> {
        if let Some(step) = self.steps.get(self.passed).copied() {
            self.passed = self.passed.saturating_add(1);
            return Ok(step);
        }
        let step = self.walk.step(kind, spelling)?;
        // A field with arguments is a member of a set, and begins a line.
        let before = match step.role {
            Role::Member => 0,
            _ => self.column.saturating_add(gap_width(&step)),
        };
        self.column = before.saturating_add(spelling.len());
        Ok(step)
    }

    /// Whether the bracket is broken that was passed last, where this text comes after it. It fails only where memory runs out.
    pub fn is_broken(&mut self, bracket: Bracket, after: &str) -> Result<bool, AllocError> {
        if bracket == Bracket::Set {
            return Ok(true);
        }
        if self.opened >= self.broken.len() {
            if closes_soon(bracket, after, self.room(bracket)) {
                return Ok(bracket.breaks_by_its_beginning() && begins_on_next_line(after));
            }
            if after.len() < self.uncommented {
                return self.is_broken_without_comment(bracket, after);
            }
            self.read_ahead(bracket, after)?;
        }
        let is_broken = self.broken.get(self.opened).copied() == Some(true);
        self.opened = self.opened.saturating_add(1);
        Ok(is_broken)
    }

    // How many columns a bracket may take that is not looked at closely: for the arguments of a field those that are left.
    fn room(&self, bracket: Bracket) -> usize {
        match bracket {
            Bracket::Call => LONGEST_CALL.saturating_sub(self.column),
            _ => LONGEST_CALL,
        }
    }

    // The same of a bracket in which there is no comment, by as much of it as tells.
    fn is_broken_without_comment(&self, bracket: Bracket, after: &str) -> Result<bool, AllocError> {
        match bracket {
            Bracket::Set => Ok(true),
            Bracket::List | Bracket::Object => Ok(begins_on_next_line(after)),
            Bracket::Call => self.is_long(after),
            Bracket::Definitions => Ok(
                begins_on_next_line(after) || !self.walk.is_in_request() && is_described(after),
            ),
            Bracket::Directive => Ok(false),
        }
    }

    // Whether the line of a field is too long with its arguments, which begin here: it ends where a list or an object in them is
    // broken, or else where they do.
    fn is_long(&self, arguments: &str) -> Result<bool, AllocError> {
        let mut column = self.column;
        let mut depth = 1usize;
        let mut last = b'(';
        for token in Tokens::new(arguments) {
            let mark = token.text.as_bytes().first().copied().unwrap_or(b' ');
            column = column.saturating_add(gap_in_call(last, mark));
            column = column.saturating_add(self.width(token.kind, token.text)?);
            last = mark;
            match mark {
                b'[' | b'{' => {
                    let after = token.start.saturating_add(1);
                    if begins_on_next_line(arguments.get(after..).unwrap_or("")) {
                        return Ok(column > LONGEST_CALL);
                    }
                    depth = depth.saturating_add(1);
                }
                b')' | b']' | b'}' => depth = depth.saturating_sub(1),
                _ => {}
            }
            if depth == 0 || column > LONGEST_CALL {
                break;
            }
        }
        Ok(column > LONGEST_CALL)
    }

    // Reads the text up to the end of this bracket, which opens before it.
    fn read_ahead(&mut self, bracket: Bracket, after: &str) -> Result<(), AllocError> {
        self.steps.clear();
        self.passed = 0;
        self.broken.clear();
        self.opened = 0;
        self.open.clear();
        self.open(bracket)?;
        let is_call = bracket == Bracket::Call;
        let mut end = 0;
        for token in Tokens::new(after) {
            let step = self.walk.step(token.kind, token.text)?;
            self.steps.push(step)?;
            let gap = after.get(end..token.start).unwrap_or("");
            if self.breaks(gap, &step) {
                self.break_innermost();
            }
            if is_call {
                let width = self.width(token.kind, token.text)?;
                let start = self.column.saturating_add(gap_width(&step));
                self.column = start.saturating_add(width);
            }
            if let Some(inner) = step.opens {
                self.open(inner)?;
            }
            if step.role == Role::Closing {
                self.close();
                if self.open.is_empty() {
                    break;
                }
            }
            end = token.start.saturating_add(token.text.len());
        }
        Ok(())
    }

    // How long a token is. Only a string has other characters than ASCII, and those past U+FFFF count twice. A block string of one
    // reading is measured as it is written anew.
    fn width(&self, kind: TokenKind, spelling: &str) -> Result<usize, AllocError> {
        if kind.is_block() {
            let end = spelling.len().saturating_sub(3);
            let raw = spelling.get(3..end).unwrap_or("");
            if has_one_reading(raw) {
                let value = block_string_value(self.alloc, raw)?;
                let mut written = String::new(self.alloc);
                push_block(&mut written, &value, LineBreak::feed(0))?;
                return Ok(written.encode_utf16().count());
            }
        }
        if kind.is_string() || kind.is_block() {
            return Ok(spelling.encode_utf16().count());
        }
        Ok(spelling.len())
    }

    // Whether the innermost bracket is broken for this token and what is ignored before it.
    fn breaks(&self, gap: &str, step: &Step) -> bool {
        let Some(open) = self.open.last() else {
            return false;
        };
        if step.describes && open.bracket == Bracket::Definitions {
            return true;
        }
        if gap.is_empty() || gap == " " {
            return false;
        }
        let was_broken = step.is_first
            && step.role != Role::Closing
            && open.bracket.breaks_by_its_beginning()
            && memchr2(b'\n', b'\r', gap.as_bytes()).is_some();
        was_broken || memchr(b'#', gap.as_bytes()).is_some()
    }

    fn break_innermost(&mut self) {
        if let Some(open) = self.open.last().copied() {
            self.break_at(open.index);
        }
    }

    fn break_at(&mut self, index: usize) {
        if let Some(broken) = self.broken.get_mut(index) {
            *broken = true;
        }
    }

    fn open(&mut self, bracket: Bracket) -> Result<(), AllocError> {
        self.open.push(Open {
            bracket,
            index: self.broken.len(),
            inside: self.column,
            stop: None,
        })?;
        self.broken.push(false)?;
        Ok(())
    }

    fn close(&mut self) {
        let Some(open) = self.open.pop() else {
            return;
        };
        let end = open.stop.unwrap_or(self.column);
        if open.bracket == Bracket::Call && end > LONGEST_CALL {
            self.break_at(open.index);
        }
        let is_broken = self.broken.get(open.index).copied() == Some(true);
        let stop = if is_broken {
            Some(open.inside)
        } else {
            open.stop
        };
        if let Some(outer) = self.open.last_mut()
            && outer.stop.is_none()
        {
            outer.stop = stop;
        }
    }
}

// How much stands before this token, on one line.
fn gap_width(step: &Step) -> usize {
    match step.role {
        Role::Member if !step.is_first => 2,
        Role::Apart | Role::Heading | Role::Branch | Role::Body => 1,
        _ => 0,
    }
}

// The same among the arguments of a field, after a token that begins so.
fn gap_in_call(last: u8, mark: u8) -> usize {
    match (last, mark) {
        (b'(' | b'[' | b'{' | b'$', _) | (_, b':' | b')' | b']' | b'}') => 0,
        (b':', _) => 1,
        _ => 2,
    }
}

// How many bytes are looked at at once.
const LANES: usize = 16;

// How many columns a character of a text without strings takes at most, with what may be put beside it.
const MOST_COLUMNS: usize = 3;

// Whether this bracket closes within so many columns, however what it holds is written on one line, and without strings, comments
// and brackets of its kind in it.
fn closes_soon(bracket: Bracket, after: &str, room: usize) -> bool {
    let (opening, closing) = bracket.marks();
    let mut rest = after.as_bytes();
    let mut left = room / MOST_COLUMNS;
    for _ in 0..=left / LANES {
        let Some((bytes, others)) = rest.split_first_chunk::<LANES>() else {
            return false;
        };
        let bytes = u8x16::from_array(*bytes);
        let closes = bytes.simd_eq(u8x16::splat(closing));
        let stops = bytes.simd_eq(u8x16::splat(b'"'))
            | bytes.simd_eq(u8x16::splat(b'#'))
            | bytes.simd_eq(u8x16::splat(opening));
        let end = closes.to_bitmask().trailing_zeros();
        let stop = stops.to_bitmask().trailing_zeros();
        if end < stop {
            return (end as usize) < left;
        }
        if stop < end || left < LANES {
            return false;
        }
        left -= LANES;
        rest = others;
    }
    false
}

// Whether one of the arguments that are defined here has a description. No parser accepts parentheses in parentheses in theirs, so
// nothing after them is looked at.
fn is_described(arguments: &str) -> bool {
    let mut depth = 1usize;
    let mut parentheses = 1usize;
    let mut last = b'(';
    for token in Tokens::new(arguments) {
        let is_value = matches!(last, b':' | b'=');
        if depth == 1 && !is_value && (token.kind.is_string() || token.kind.is_block()) {
            return true;
        }
        last = token.text.as_bytes().first().copied().unwrap_or(b' ');
        match last {
            b'(' | b'[' | b'{' => depth = depth.saturating_add(1),
            b')' | b']' | b'}' => depth = depth.saturating_sub(1),
            _ => {}
        }
        match last {
            b'(' => parentheses = parentheses.saturating_add(1),
            b')' => parentheses = parentheses.saturating_sub(1),
            _ => {}
        }
        if depth == 0 || parentheses > 2 {
            break;
        }
    }
    false
}

// Whether what a bracket holds begins on a line after it, if it holds anything. Where no string and no comment is, these bytes past
// ASCII are U+FEFF, which is ignored (GraphQL October 2021, section 2.1.1), or the text has a fault.
fn begins_on_next_line(after: &str) -> bool {
    let mut ends_line = false;
    for next in after.bytes() {
        match next {
            b'\n' | b'\r' => ends_line = true,
            b' ' | b'\t' | b',' | 0xEF | 0xBB | 0xBF => {}
            _ => return ends_line && !matches!(next, b')' | b']' | b'}'),
        }
    }
    false
}

/// Whether the members of a union or the locations of a directive, with which this text begins, are on more lines than one: a line
/// ends before the first of them, or before the second.
pub fn is_spread(branches: &str) -> bool {
    let mut rest = branches.as_bytes().iter();
    let (mut has_name, mut has_bar, mut is_apart, mut ends_line) = (false, false, false, false);
    while let Some(next) = rest.next() {
        match *next {
            b'\n' | b'\r' | b'#' if !has_name => return true,
            b'\n' | b'\r' => ends_line = true,
            b'#' => {
                let _ = rest.find(|c| **c == b'\n' || **c == b'\r');
                ends_line = true;
            }
            b' ' | b'\t' | b',' | 0xEF | 0xBB | 0xBF => is_apart = true,
            b'|' => has_bar = has_name,
            _ if has_bar => return ends_line,
            b'"' => return false,
            _ if has_name && (is_apart || ends_line) => return false,
            _ => (has_name, is_apart) = (true, false),
        }
    }
    false
}
