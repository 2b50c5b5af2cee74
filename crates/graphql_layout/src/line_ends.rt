//! How lines end.
ghost use Rattle.std.specs.Prelude.{◌≡◌, ◌++◌, OnOk, OnErr, string_bytes};
ghost use Rattle.graphql_layout.specs.texts.Blocks.{feed};
ghost use Rattle.graphql_layout.specs.texts.LineEnds as spec;

use crate::scans::line_length;
use std::alloc::AllocError;

/// How the lines of a text end.
#[derive(Clone, Copy)]
pub enum LineEnd {
    /// In line feeds.
    Feed,
    /// In a carriage return and a line feed each.
    ReturnAndFeed,
}

/// What stands between two lines of a block string.
#[derive(Clone, Copy)]
pub struct LineBreak {
    /// How the first of them ends.
    pub line_end: LineEnd,
    /// How many blanks stand before the second.
    pub indent: usize,
}

impl LineBreak {
    /// A line feed, and so many blanks.
    pub fn feed(indent: usize) -> LineBreak
        ensures { result ≡ feed indent }
    {
        LineBreak {
            line_end: LineEnd::Feed,
            indent,
        }
    }
}

impl LineEnd {
    /// How the lines of this text end that is laid out anew: as its first one does, if that is in a carriage return and a line feed,
    /// and else in line feeds.
    pub fn of(text: &str) -> LineEnd
        ensures { result ≡ spec.first_line_end text.now }
    {
        let bytes = text.as_bytes();
        if bytes[line_length(bytes)..].starts_with(b"\r\n") {
            LineEnd::ReturnAndFeed
        } else {
            LineEnd::Feed
        }
    }

    /// Ends a line of a text. It fails only where memory runs out.
    #[inline(always)]
    pub fn push(self, text: &mut String) -> Result<(), AllocError>
        ensures ok { OnOk result (string_bytes text.new ≡ string_bytes text.old ++ spec.line_end self) }
        ensures err { OnErr result (string_bytes text.new ≡ string_bytes text.old) }
    {
        match self {
            LineEnd::Feed => text.push('\n'),
            LineEnd::ReturnAndFeed => text.push_str("\r\n"),
        }
    }
}
