//! A row, and how its call may end.
use crate::little_memory::ATTEMPTS;
use crate::notation::pair;

/// Stands behind what a call shows that is refused memory.
pub const REFUSED: &str = "out of memory";

/// A row of a table of the folder `refused`.
#[derive(Clone, Copy)]
pub struct Row<'a> {
    /// What the call is given.
    pub kind: &'a str,
    pub call: &'a str,
    pub text: &'a str,
    /// Whether the call takes no memory.
    pub is_free: bool,
    // Whether the call is made at the end of memory, too.
    pub has_end: bool,
}

/// How a call ended.
pub enum End {
    Answered,
    Refused,
    Other,
}

impl<'a> Row<'a> {
    /// A row of the table of this name.
    pub fn new(table: &'a str, text: &'a str, has_end: bool) -> Row<'a> {
        let named = table.strip_prefix("without memory, ");
        let (kind, call) = pair(named.unwrap_or(table), ": ");
        Row {
            kind,
            call,
            text,
            is_free: named.is_some(),
            has_end,
        }
    }

    /// How often the call is made.
    pub fn times(&self) -> usize {
        if self.has_end { ATTEMPTS + 1 } else { 1 }
    }

    /// How the call ended that may return this answer.
    pub fn end(&self, answer: &str, shown: &str) -> End {
        let (answer, shown) = (answer.trim_ascii(), shown.trim_ascii());
        if shown == answer {
            return End::Answered;
        }
        match shown.strip_prefix(self.before_refused(answer)) {
            Some(rest) if rest == REFUSED && !self.is_free => End::Refused,
            _ => End::Other,
        }
    }

    // What is shown where memory is refused, too: what is cloned is as it was, and tokens of which some were taken go on with
    // the rest.
    fn before_refused(&self, answer: &'a str) -> &'a str {
        match self.call {
            "clone" if self.kind != "value" => answer,
            "parse from" | "check from" => "taken within ",
            _ => "",
        }
    }
}
