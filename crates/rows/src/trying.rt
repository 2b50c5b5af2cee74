//! A row once, and again and again at the end of memory, with a piece more each time.
use crate::little_memory::{Attempt, attempts};
use crate::notation::{meant, pair};
use crate::row::{End, REFUSED, Row};
use crate::{Calls, Shown};
use std::alloc::Global;

// Room for the longest answer.
const ROOM: usize = 4096;

/// What a call is given besides the text of its row.
pub trait Input: Drop {
    /// Makes the call of a row, and shows its answer, which takes no memory. Where memory is refused, what may not change then is
    /// shown, and the result is false.
    fn make(&mut self, row: &Row<'_>, shown: &mut Shown) -> bool;
}

/// Writes the answer where there is memory, unless the call ends in another way at the end of memory, or not in each
/// way in which it may end. Where memory has no end, as in `rt try`, the call is made once.
pub fn try_row<C: Calls>(calls: C, shown: &mut Shown, has_end: bool, call: &str, text: &str) {
    if !calls.try_row(shown, &Row::new(call, text, has_end)) {
        shown.leave_out();
    }
}

/// What comes of the call of a row that is made once; the name of its table stands in the line before it.
pub fn once<C: Calls>(calls: C, alloc: Global, told: &str) -> &'static str {
    let (table, row) = pair(told, "\n");
    let (text, answer) = pair(row, " ⇒ ");
    match meant(alloc, text) {
        Ok(text) => {
            let row = Row::new(table, text.as_str(), false);
            once_of(calls, alloc, &row, answer)
        }
        Err(_) => REFUSED,
    }
}

fn once_of<C: Calls>(calls: C, alloc: Global, row: &Row<'_>, answer: &str) -> &'static str {
    match meant(alloc, answer.trim_ascii()) {
        Ok(answer) => made_once(calls, alloc, row, answer.as_str()),
        Err(_) => REFUSED,
    }
}

fn made_once<C: Calls>(calls: C, alloc: Global, row: &Row<'_>, answer: &str) -> &'static str {
    let Ok(mut shown) = Shown::with_room(alloc, true, ROOM) else {
        return REFUSED;
    };
    if !calls.try_row(&mut shown, row) {
        return REFUSED;
    }
    match row.end(answer, shown.whole().unwrap_or("no room")) {
        End::Answered => "answered",
        End::Refused => REFUSED,
        End::Other => "another end",
    }
}

/// Makes the call of a row, and shows its answer. Where memory has an end the call is then made there, and how it must
/// not end is shown in place of its answer. False where there was no memory for what the call is given.
pub fn try_call<I: Input>(shown: &mut Shown, row: &Row<'_>, input: Option<I>) -> bool {
    let Some(mut input) = input else {
        return false;
    };
    make(row, &mut input, shown);
    if row.has_end {
        try_at_end(row, input, shown);
    }
    true
}

fn make<I: Input>(row: &Row<'_>, input: &mut I, shown: &mut Shown) {
    if !input.make(row, shown) {
        shown.word(REFUSED);
    }
}

fn try_at_end<I: Input>(row: &Row<'_>, input: I, shown: &mut Shown) {
    let answer = String::from_str(shown.alloc(), shown.whole().unwrap_or("no room"));
    match (answer, Shown::with_room(shown.alloc(), true, ROOM)) {
        (Ok(answer), Ok(room)) => {
            let tried = Tried {
                row: *row,
                input,
                answer,
                room,
                answered: 0,
                refused: 0,
                has_other: false,
            };
            show_fault(tried, shown);
        }
        _ => shown.leave_out(),
    }
}

// Makes the attempts, and shows what is wrong with them.
fn show_fault<I: Input>(mut tried: Tried<'_, I>, shown: &mut Shown) {
    let fault = match attempts(shown.alloc(), &mut tried) {
        Ok(true) => tried.fault(),
        Ok(false) => Some("memory has no end here"),
        Err(_) => Some(REFUSED),
    };
    if let Some(fault) = fault {
        shown.clear();
        shown.word(fault);
        shown.item(": ", &tried.room.whole().unwrap_or("no room"));
    }
}

// A call that is made again and again, and how often it has ended in each of its ways.
#[derive(Drop)]
struct Tried<'a, I> {
    row: Row<'a>,
    input: I,
    answer: String,
    room: Shown,
    answered: usize,
    refused: usize,
    has_other: bool,
}

impl<I: Input> Tried<'_, I> {
    // How the call ended that was made last.
    fn end(&self) -> End {
        let shown = self.room.whole().unwrap_or("no room");
        self.row.end(self.answer.as_str(), shown)
    }

    // What is wrong with the ways in which the call has ended.
    fn fault(&self) -> Option<&'static str> {
        if self.has_other {
            Some("another end")
        } else if self.answered == 0 {
            Some("never answered, but")
        } else if !self.row.is_free && self.refused == 0 {
            Some("never refused memory, but")
        } else {
            None
        }
    }
}

impl<I: Input> Attempt for Tried<'_, I> {
    // Makes the call, unless it has had another end. Takes no memory for itself.
    fn attempt(&mut self, _alloc: Global) {
        if self.has_other {
            return;
        }
        self.room.clear();
        make(&self.row, &mut self.input, &mut self.room);
        match self.end() {
            End::Answered => self.answered = self.answered.saturating_add(1),
            End::Refused => self.refused = self.refused.saturating_add(1),
            End::Other => self.has_other = true,
        }
    }
}
