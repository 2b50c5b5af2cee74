//! What stands before each token.
use crate::layout::breaks::{Planner, is_spread};
use crate::layout::walk::{Role, Step};
use graphql_tokens::lexer::TokenKind;
use std::alloc::{AllocError, Global};

/// What stands before a token.
#[derive(Clone, Copy, PartialEq)]
pub enum Gap {
    /// Nothing: it begins the text.
    Start,
    /// Nothing.
    Nothing,
    /// A blank.
    Blank,
    /// A comma and a blank.
    Comma,
    /// The end of a line.
    Line,
    /// The end of a line, and a blank line if there was one.
    Spread,
    /// A blank line.
    BlankLine,
}

/// Where a token stands.
#[derive(Clone, Copy)]
pub struct Place {
    /// What stands before it.
    pub gap: Gap,
    /// Whether it is the first in its bracket, or in the text.
    pub is_first: bool,
    /// How deep its line is, if it begins one, or if comments before it are on lines of their own.
    pub depth: usize,
    /// How deep these comments are.
    pub comments: usize,
    /// How many open brackets around it are broken.
    pub inside: usize,
}

impl Place {
    // After a comment it begins a line above the one of the closing bracket.
    fn line_up(&mut self) {
        self.depth = self.inside;
        self.comments = self.inside;
    }
}

/// A text up to one of its tokens.
#[derive(Drop)]
pub struct Layout {
    planner: Planner,
    // Whether each open bracket is broken, whether the innermost is, and how many are.
    open: Vec<bool>,
    is_broken: bool,
    depth: usize,
    // Whether each of the members of a union or the locations of a directive that come now begins a line.
    is_spread: bool,
}

impl Layout {
    /// Before the first token of a text.
    pub fn new(alloc: Global, text: &str) -> Layout {
        Layout {
            planner: Planner::new(alloc, text),
            open: Vec::new(alloc),
            is_broken: false,
            depth: 0,
            is_spread: false,
        }
    }

    /// Passes the next token, with which this text begins, and gives where it stands. It fails only where memory runs out.
    pub fn pass(
        &mut self,
        kind: TokenKind,
        spelling: &str,
        text: &str,
    ) -> Result<Place, AllocError> {
        let step = self.planner.pass(kind, spelling)?;
        let mut place = self.place(&step);
        match step.role {
            Role::Closing => self.close(),
            Role::Heading => self.is_spread = is_spread(text.get(spelling.len()..).unwrap_or("")),
            _ => {}
        }
        if let Some(bracket) = step.opens {
            let after = text.get(spelling.len()..).unwrap_or("");
            let is_broken = self.planner.is_broken(bracket, after)?;
            if is_broken || bracket.marks().0 == b'(' {
                place.line_up();
            }
            self.open(is_broken)?;
        }
        Ok(place)
    }

    fn place(&self, step: &Step) -> Place {
        let is_broken = self.is_broken;
        let deeper = self.depth.saturating_add(1);
        let outer = self.depth.saturating_sub(1);
        let (gap, depth, comments) = match step.role {
            Role::Definition | Role::End if step.is_first => (Gap::Start, 0, 0),
            Role::Definition => (Gap::BlankLine, self.depth, self.depth),
            Role::Member if is_broken => (Gap::Spread, self.depth, self.depth),
            Role::Member if step.is_first => (Gap::Nothing, deeper, deeper),
            Role::Member => (Gap::Comma, deeper, deeper),
            Role::Described => (Gap::Line, self.depth, self.depth),
            Role::Closing if is_broken => (Gap::Line, outer, self.depth),
            Role::Closing | Role::Touching => (Gap::Nothing, deeper, deeper),
            Role::Branch if self.is_spread => (Gap::Line, deeper, deeper),
            Role::Apart | Role::Heading | Role::Branch => (Gap::Blank, deeper, deeper),
            Role::Body => (Gap::Blank, self.depth, self.depth),
            Role::End => (Gap::Nothing, self.depth, self.depth),
        };
        Place {
            gap,
            is_first: step.is_first,
            depth,
            comments,
            inside: self.depth,
        }
    }

    fn open(&mut self, is_broken: bool) -> Result<(), AllocError> {
        self.open.push(is_broken)?;
        self.is_broken = is_broken;
        if is_broken {
            self.depth = self.depth.saturating_add(1);
        }
        Ok(())
    }

    fn close(&mut self) {
        if self.open.pop() == Some(true) {
            self.depth = self.depth.saturating_sub(1);
        }
        self.is_broken = self.open.last().copied() == Some(true);
    }
}
