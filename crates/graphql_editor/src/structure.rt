//! What a walk over a text finds.
ghost use Rattle.std.specs.Prelude.{◌≡◌, ℕ, All, IfOk, length};
ghost use Rattle.graphql_editor.specs.Spans.{IsSpanWithin, IsSymbolWithin, IsFoldWithin, IsNameWithin};

use crate::pieces::read;
use crate::walk::Walk;
use crate::{Fold, FoldKind, NameKind, Occurrence, Role, Span, Symbol, SymbolKind};
use std::alloc::{AllocError, Global};
use std::marker::Model;

/// What an editor asks of one text: its outline, what can be folded, its definitions and its names.
///
/// It doesn't hold the text. A contract sees it as the number of the text's bytes.
#[derive(Drop)]
pub struct Structure {
    size: usize,
    symbols: Vec<Symbol>,
    folds: Vec<Fold>,
    definitions: Vec<Span>,
    names: Vec<Occurrence>,
}

impl Model for Structure {
    ghost use Rattle.std.specs.Prelude.{ℕ, All};
    ghost use Rattle.graphql_editor.specs.Spans.{IsSpanWithin, IsSymbolWithin, IsFoldWithin, IsNameWithin};

    ghost Value = { ℕ };

    ghost view = { λ structure. structure.size };

    ghost invariant = { λ structure. All (IsSymbolWithin structure.size) structure.symbols.items
        × All (IsFoldWithin structure.size) structure.folds.items
        × All (IsSpanWithin structure.size) structure.definitions.items
        × All (IsNameWithin structure.size) structure.names.items };
}

/// The part of a text of this size between two offsets: what of it is in the text, and nothing where the end is before the start.
pub(crate) fn span_within(start: usize, end: usize, size: usize) -> Span
    ensures { IsSpanWithin size result }
{
    let start = start.min(size);
    Span {
        start,
        end: end.max(start).min(size),
    }
}

/// What is told of a symbol when its first name is passed.
#[derive(Clone, Copy)]
pub(crate) struct Found {
    /// What it is.
    pub kind: SymbolKind,
    /// Where it begins.
    pub start: usize,
    /// Where its name begins, as far as it is known.
    pub name_start: usize,
    /// Where its name ends.
    pub name_end: usize,
    /// How many symbols it is in.
    pub depth: usize,
    /// Whether it extends what is defined elsewhere.
    pub is_extension: bool,
}

// The symbol of a text of this size, up to its name.
fn begun(found: &Found, size: usize) -> Symbol
    ensures { IsSymbolWithin size result }
{
    let name = span_within(found.name_start, found.name_end, size);
    Symbol {
        kind: found.kind,
        name,
        whole: Span {
            start: found.start.min(name.start),
            end: name.end,
        },
        detail: None,
        depth: found.depth,
        is_extension: found.is_extension,
    }
}

// The symbol with this name.
fn named(symbol: Symbol, start: usize, end: usize, size: usize) -> Symbol
    requires { IsSymbolWithin size symbol }
    ensures { IsSymbolWithin size result }
{
    let name = span_within(start, end, size);
    let whole = Span {
        start: symbol.whole.start.min(name.start),
        end: symbol.whole.end.max(name.end),
    };
    Symbol {
        name,
        whole,
        ..symbol
    }
}

// The symbol as one of this kind.
fn turned(symbol: Symbol, kind: SymbolKind) -> Symbol
    ensures { (size : ℕ) → IsSymbolWithin size symbol → IsSymbolWithin size result }
{
    Symbol { kind, ..symbol }
}

// The symbol with this detail.
fn detailed(symbol: Symbol, start: usize, end: usize, size: usize) -> Symbol
    requires { IsSymbolWithin size symbol }
    ensures { IsSymbolWithin size result }
{
    let detail = Some(span_within(start, end, size));
    Symbol { detail, ..symbol }
}

// The symbol up to this end, or up to a later one that it has.
fn ended(symbol: Symbol, end: usize, size: usize) -> Symbol
    requires { IsSymbolWithin size symbol }
    ensures { IsSymbolWithin size result }
{
    let whole = Span {
        start: symbol.whole.start,
        end: end.min(size).max(symbol.whole.end),
    };
    Symbol { whole, ..symbol }
}

impl Structure {
    /// The structure of a text. It fails only where memory runs out.
    pub fn new(alloc: Global, text: &str) -> Result<Structure, AllocError>
        ensures { IfOk result (λ structure. structure ≡ length text.now) }
    {
        let mut walk = Walk::new(alloc, text.len(), None, false);
        read(&mut walk, text)?;
        if walk.is_whole() {
            return Ok(walk.into_structure());
        }
        // A bracket is missing or one too much: once more, with an eye on where definitions begin.
        let mut again = Walk::new(alloc, text.len(), None, true);
        read(&mut again, text)?;
        Ok(again.into_structure())
    }

    /// The structure of a text of this size of which nothing was read.
    pub(crate) fn unread(alloc: Global, size: usize) -> Structure
        ensures { result ≡ size }
    {
        Structure {
            size,
            symbols: Vec::new(alloc),
            folds: Vec::new(alloc),
            definitions: Vec::new(alloc),
            names: Vec::new(alloc),
        }
    }

    /// The outline: definitions, and what they have, in the order of the text. A symbol that is 32 symbols deep, or deeper, is
    /// left out (this project's choice).
    pub fn symbols(&self) -> &[Symbol]
        ensures { All (IsSymbolWithin self.now) result.now }
    {
        &self.symbols
    }

    /// What can be folded, in the order of the ends.
    pub fn folds(&self) -> &[Fold]
        ensures { All (IsFoldWithin self.now) result.now }
    {
        &self.folds
    }

    /// The definitions, each from its description, if it has one, to its last token, in the order of the text.
    pub fn definitions(&self) -> &[Span]
        ensures { All (IsSpanWithin self.now) result.now }
    {
        &self.definitions
    }

    /// The names of fragments, variables, types and directives, in the order of the text.
    pub fn names(&self) -> &[Occurrence]
        ensures { All (IsNameWithin self.now) result.now }
    {
        &self.names
    }

    /// Adds a symbol, and tells at which index.
    pub(crate) fn add_symbol(&mut self, found: &Found) -> Result<usize, AllocError>
        ensures { self.new ≡ self.old }
    {
        let index = self.symbols.len();
        self.symbols.push(begun(found, self.size))?;
        Ok(index)
    }

    /// Names a symbol.
    pub(crate) fn name_symbol(&mut self, index: usize, start: usize, end: usize)
        ensures { self.new ≡ self.old }
    {
        if index < self.symbols.len() {
            self.symbols[index] = named(self.symbols[index], start, end, self.size);
        }
    }

    /// Tells of an inline fragment that it is a spread.
    pub(crate) fn turn_to_spread(&mut self, index: usize)
        ensures { self.new ≡ self.old }
    {
        if index < self.symbols.len() {
            self.symbols[index] = turned(self.symbols[index], SymbolKind::Spread);
        }
    }

    /// Tells the type of a symbol, or what it is an alias for.
    pub(crate) fn detail_symbol(&mut self, index: usize, start: usize, end: usize)
        ensures { self.new ≡ self.old }
    {
        if index < self.symbols.len() {
            self.symbols[index] = detailed(self.symbols[index], start, end, self.size);
        }
    }

    /// Ends a symbol.
    pub(crate) fn end_symbol(&mut self, index: usize, end: usize)
        ensures { self.new ≡ self.old }
    {
        if index < self.symbols.len() {
            self.symbols[index] = ended(self.symbols[index], end, self.size);
        }
    }

    /// Adds what can be folded.
    pub(crate) fn add_fold(
        &mut self,
        kind: FoldKind,
        start: usize,
        end: usize,
    ) -> Result<(), AllocError>
        ensures { self.new ≡ self.old }
    {
        let span = span_within(start, end, self.size);
        self.folds.push(Fold { kind, span })?;
        Ok(())
    }

    /// Adds a definition.
    pub(crate) fn add_definition(&mut self, start: usize, end: usize) -> Result<(), AllocError>
        ensures { self.new ≡ self.old }
    {
        let span = span_within(start, end, self.size);
        self.definitions.push(span)?;
        Ok(())
    }

    /// Adds a name of the definition that is added next.
    pub(crate) fn add_name(
        &mut self,
        kind: NameKind,
        role: Role,
        start: usize,
        end: usize,
    ) -> Result<(), AllocError>
        ensures { self.new ≡ self.old }
    {
        let span = span_within(start, end, self.size);
        let definition = self.definitions.len();
        self.names.push(Occurrence {
            kind,
            role,
            span,
            definition,
        })?;
        Ok(())
    }
}
