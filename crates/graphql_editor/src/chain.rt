//! The parts of a text around a place, innermost first.
ghost use Rattle.std.specs.Prelude.{◌≡◌, ◌≤◌, ◌<◌, ◌+◌, ℕ, true, false, [], ◌∷◌, ◌++◌, All, IfOk, OnOk, length};
ghost use Rattle.graphql_editor.specs.Spans.{IsSpanWithin, IsInsideLonger, AreGrowing};

use crate::Span;
use crate::structure::span_within;
use std::alloc::{AllocError, Global};
use std::marker::Model;

// How many spans are kept beside the whole text.
const MOST: usize = 199;

/// The parts of a text around one offset, or none. A contract sees it as the number of the text's bytes.
#[derive(Drop)]
pub(crate) struct Chain {
    size: usize,
    offset: Option<usize>,
    spans: Vec<Span>,
    // Whether the first is a punctuator.
    is_punct: bool,
}

impl Model for Chain {
    ghost use Rattle.std.specs.Prelude.{◌≤◌, ℕ, All, length};
    ghost use Rattle.graphql_editor.specs.Spans.{IsSpanWithin, AreGrowing};

    ghost Value = { ℕ };

    ghost view = { λ chain. chain.size };

    ghost invariant = { λ chain. All (IsSpanWithin chain.size) chain.spans.items
        × AreGrowing chain.spans.items
        × (length chain.spans.items ≤ 199) };
}

// Whether a span is around another one, and longer.
fn is_around(outer: Span, inner: Span) -> bool
    ensures { result ≡ true → IsInsideLonger inner outer }
{
    outer.start <= inner.start
        && inner.end <= outer.end
        && inner.end.saturating_sub(inner.start) < outer.end.saturating_sub(outer.start)
}

// Whether a span may come after these.
fn may_follow(spans: &[Span], span: Span) -> bool
    ensures growing { result ≡ true → AreGrowing spans.now → AreGrowing (spans.now ++ span ∷ []) }
    // Any may come first.
    ensures first { result ≡ false → 0 < length spans.now }
{
    match spans.last() {
        None => true,
        Some(last) => is_around(span, *last),
    }
}

// Adds a span if it is around the last one, and longer, or the first.
fn push_around(spans: &mut Vec<Span>, span: Span) -> Result<(), AllocError>
    requires { AreGrowing spans.old.items }
    ensures growing { AreGrowing spans.new.items }
    ensures within { (size : ℕ) → All (IsSpanWithin size) spans.old.items → IsSpanWithin size span →
        All (IsSpanWithin size) spans.new.items }
    ensures few { length spans.new.items ≤ length spans.old.items + 1 }
    ensures some { OnOk result (0 < length spans.new.items) }
{
    if !may_follow(spans, span) {
        return Ok(());
    }
    spans.push(span)?;
    Ok(())
}

impl Chain {
    /// Nothing yet of a text of this size.
    pub fn new(alloc: Global, size: usize, offset: Option<usize>) -> Chain
        ensures { result ≡ size }
    {
        Chain {
            size,
            offset,
            spans: Vec::new(alloc),
            is_punct: false,
        }
    }

    // Whether the offset is between these two, or at one of them.
    fn touches(&self, start: usize, end: usize) -> bool {
        match self.offset {
            Some(offset) => start <= offset && offset <= end,
            None => false,
        }
    }

    /// Adds a token, if it touches the offset. A name, a number or a string goes before a punctuator that it touches.
    pub fn add_token(&mut self, is_punct: bool, start: usize, end: usize) -> Result<(), AllocError>
        ensures { self.new ≡ self.old }
    {
        if !self.touches(start, end) {
            return Ok(());
        }
        if self.is_punct && !is_punct {
            self.spans.clear();
        }
        if self.spans.is_empty() {
            self.is_punct = is_punct;
            let span = span_within(start, end, self.size);
            push_around(&mut self.spans, span)?;
        }
        Ok(())
    }

    /// Adds a part that is made of tokens.
    pub fn add(&mut self, start: usize, end: usize) -> Result<(), AllocError>
        ensures { self.new ≡ self.old }
    {
        if self.touches(start, end) && self.spans.len() < MOST {
            let span = span_within(start, end, self.size);
            push_around(&mut self.spans, span)?;
        }
        Ok(())
    }

    /// All of these, and the whole text.
    pub fn finish(self) -> Result<Vec<Span>, AllocError>
        ensures within { IfOk result (λ spans. All (IsSpanWithin self) spans.items) }
        ensures growing { IfOk result (λ spans. AreGrowing spans.items) }
        ensures some { IfOk result (λ spans. 0 < length spans.items) }
        ensures few { IfOk result (λ spans. length spans.items ≤ 200) }
    {
        let whole = Span {
            start: 0,
            end: self.size,
        };
        let mut spans = self.spans;
        push_around(&mut spans, whole)?;
        Ok(spans)
    }
}
