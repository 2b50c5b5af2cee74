//! The walk over the words of a text.
ghost use Rattle.std.specs.Prelude.{◌≡◌};

mod brackets;
mod steps;
mod words;

use crate::SymbolKind;
use crate::chain::Chain;
use crate::roles::{Bracket, Last, Place};
use crate::structure::Structure;
use std::alloc::{AllocError, Global};

// The outline has symbols less deep than this.
const DEPTH: usize = 32;

// Of brackets in brackets, so many are told apart. What is in others counts as a part of these.
const LEVELS: usize = 10_000;

// A part of a member: a type, a value, a directive, or a clause of a head.
#[derive(Clone, Copy)]
struct Part {
    start: usize,
    // Whether it is the detail of the member's symbol.
    is_detail: bool,
}

// A member of a bracket: a definition, a field, an argument, an item of a list, and so on.
#[derive(Clone, Copy)]
struct Member {
    start: usize,
    // Its symbol in the outline.
    symbol: Option<usize>,
    // What a name is that comes next.
    place: Place,
    // Whether its own name was passed.
    is_named: bool,
    part: Option<Part>,
}

// An open bracket, or the text.
#[derive(Clone, Copy)]
struct Level {
    bracket: Bracket,
    // What closes it, and a blank for the text.
    closer: u8,
    start: usize,
    // Where its first member begins.
    content: Option<usize>,
    // How many symbols a member of it is in.
    depth: usize,
    // The member that was begun last.
    member: Option<Member>,
}

/// What is known of a text up to one of its words.
#[derive(Drop)]
pub(crate) struct Walk {
    structure: Structure,
    chain: Chain,
    // The innermost open bracket, and those around it, the text first.
    level: Level,
    outer: Vec<Level>,
    // How many brackets are open in the innermost one that aren't told apart.
    deeper: usize,
    // How many braces are open.
    braces: usize,
    // What the definition defines.
    defined: Option<SymbolKind>,
    is_extension: bool,
    last: Last,
    // Where the last `$`, `@` or `...` began.
    sigil: usize,
    // Whether the last name is that of a directive.
    is_directive: bool,
    // Where the line of the last word began.
    line: usize,
    // Where the last word ended, and where the last one ended that counts.
    passed: usize,
    end: usize,
    // Whether no bracket is missing or one too much.
    is_whole: bool,
    // Whether a word that begins a definition, at the beginning of a line, ends all brackets.
    recovers: bool,
}

impl Walk {
    /// Before the first word of a text of this size. The chain is that around the offset.
    pub fn new(alloc: Global, size: usize, offset: Option<usize>, recovers: bool) -> Walk
        ensures structure { result.structure ≡ size }
        ensures chain { result.chain ≡ size }
    {
        Walk {
            structure: Structure::unread(alloc, size),
            chain: Chain::new(alloc, size, offset),
            level: Level {
                bracket: Bracket::Definitions,
                closer: b' ',
                start: 0,
                content: None,
                depth: 0,
                member: None,
            },
            outer: Vec::new(alloc),
            deeper: 0,
            braces: 0,
            defined: None,
            is_extension: false,
            last: Last::Start,
            sigil: 0,
            is_directive: false,
            line: 0,
            passed: 0,
            end: 0,
            is_whole: true,
            recovers,
        }
    }

    /// Whether no bracket was missing or one too much.
    pub fn is_whole(&self) -> bool {
        self.is_whole
    }

    /// What was found.
    pub fn into_structure(self) -> Structure
        ensures { result ≡ self.structure }
    {
        self.structure
    }

    /// The parts of the text around the offset.
    pub fn into_chain(self) -> Chain
        ensures { result ≡ self.chain }
    {
        self.chain
    }

    /// Ends what is open, at the end of the text.
    pub fn finish(&mut self, text: &str) -> Result<(), AllocError>
        ensures structure { self.new.structure ≡ self.old.structure }
        ensures chain { self.new.chain ≡ self.old.chain }
    {
        self.pass_gap(text, text.len())?;
        if !self.outer.is_empty() {
            self.is_whole = false;
        }
        self.unwind()?;
        self.end_member()
    }
}
