//! Number literals, as they were written.
ghost use Rattle.std.specs.Prelude.{◌≡◌, ◌↔◌, ◌≤◌, ◌+◌, ◌^◌, ℕ, ℤ, pos, length, Ok, Some, None, IfOk, IfSome, IfNone, IsOk, IsTrue, OnErr, FitsSigned, nat_eq};
ghost use Rattle.graphql_memory.specs.Memory.{Refused, Takes};
ghost use Rattle.std.specs.Int.{w64};
ghost use Rattle.std.specs.Fmt.{styled_text};
ghost use Rattle.std.specs.Option.{SomeIff};
ghost use Rattle.std.specs.Cmp.Lexicographic.{pointwise, nat_list_eq_equiv};
ghost use Rattle.std.specs.Cmp.{partial_equiv_from_equiv};
ghost use Rattle.graphql_tokens.specs.tokens.Numbers.{IsNumber};
ghost use Rattle.graphql_tokens.specs.tokens.Within.{StandsAt};
ghost use Rattle.graphql_tokens.specs.calls.Integers.{IsIntegerOf};
ghost use Rattle.graphql_tokens.specs.inner.Numerals.{is_numeral};

use crate::lexer::number::pass_number;
use crate::lexer::reading::has_more;
use crate::pos::running::RunningPlace;
use crate::small_text::SmallText;
use graphql_memory::Memory;
use std::alloc::{AllocError, Global};
use std::fmt;
use std::marker::Model;

// Whether the text is a number literal, from its first byte to its last. The lexer's reader of numbers tells.
fn is_number(text: &str) -> bool
    ensures { result ≡ is_numeral text.now }
{
    let bytes = text.as_bytes();
    let mut places = RunningPlace::new(text);
    let is_passed = pass_number(bytes, &mut places);
    is_passed && !has_more(bytes, &places)
}

/// A number, as the literal that was written: nothing is rounded and nothing rewritten.
///
/// A contract sees it as the bytes of its literal. Numbers are equal where their literals are, so
/// `1.0` and `1.00` differ. A number of at most 22 bytes takes no memory but its own.
#[derive(Drop)]
pub struct Number(SmallText);

impl Model for Number {
    ghost use Rattle.std.specs.Prelude.{ℕ, List, IsTrue};
    ghost use Rattle.graphql_tokens.specs.inner.Numerals.{is_numeral};

    ghost Value = { List ℕ };

    ghost view = { λ n. n.0 };

    ghost invariant = { λ n. IsTrue (is_numeral n.0) };
}

impl Number {
    /// The number of this literal, or None exactly where the text is no number literal of the
    /// grammar (GraphQL October 2021, sections 2.9.1 and 2.9.2).
    ///
    /// It fails only where memory runs out for the text of a literal longer than 22 bytes; a refusal takes none.
    pub fn new(alloc: Global, text: &str) -> Result<Option<Number>, AllocError>
        ensures number { IfOk result (λ number. SomeIff number (IsNumber text.now) text.now) }
        ensures refused { ¬ IsNumber text.now → result ≡ Ok None }
        ensures short { length text.now ≤ 22 → IsOk result }
    {
        if !is_number(text) {
            return Ok(None);
        }
        Ok(Some(Number(SmallText::new(&mut Memory::new(alloc), text)?)))
    }

    /// The number of a literal, which isn't scanned again. The caller owes that the text is one; the text of a number
    /// token is.
    ///
    /// It fails only where the text is longer than 22 bytes and memory runs out for it.
    pub fn of_literal(alloc: Global, literal: &str) -> Result<Number, AllocError>
        requires { IsNumber literal.now }
        ensures number { IfOk result (λ number. number ≡ literal.now) }
        ensures short { length literal.now ≤ 22 → IsOk result }
    {
        Ok(Number(SmallText::new(&mut Memory::new(alloc), literal)?))
    }

    /// The number of a literal that stands in `whole` from this offset on, in this memory: as `of_literal`, and quicker, as
    /// it may copy what follows the literal in `whole` along.
    #[inline(always)]
    pub fn cut_in(
        memory: &mut Memory,
        literal: &str,
        whole: &str,
        start: usize,
    ) -> Result<Number, AllocError>
        requires literal { IsNumber literal.now }
        requires stands { StandsAt literal.now whole.now start }
        ensures number { IfOk result (λ number. number ≡ literal.now) }
        ensures short { length literal.now ≤ 22 → IsOk result }
        ensures takes { Takes (24 + length literal.now) memory.old memory.new }
        ensures refused { OnErr result (Refused memory.new) }
    {
        Ok(Number(SmallText::new_within(memory, literal, whole, start)?))
    }

    /// The literal, borrowed.
    pub fn as_str(&self) -> &str
        ensures text { result.now ≡ self.now }
        ensures literal { IsNumber result.now }
    {
        self.0.as_str()
    }

    /// The value of a literal that has no fraction and no exponent, where it fits an `i64`; else
    /// None. It goes by the literal alone: `1.0` and `1e3` have none, and `-0` is 0.
    pub fn as_i64(&self) -> Option<i64>
        ensures some { IfSome result (IsIntegerOf self.now) }
        ensures none { IfNone result ((z : ℤ) → IsIntegerOf self.now z → ¬ (FitsSigned w64 z)) }
    {
        self.as_str().parse::<i64>().ok()
    }

    /// The value of a literal that has no fraction and no exponent, where it fits a `u64`; else
    /// None. It goes by the literal alone: `1.0` and `1e3` have none, and `-0` is 0.
    pub fn as_u64(&self) -> Option<u64>
        ensures some { IfSome result (λ n. IsIntegerOf self.now (pos n)) }
        ensures none { IfNone result ((n : ℕ) → IsIntegerOf self.now (pos n) → 2 ^ 64 ≤ n) }
    {
        match self.as_str() {
            "-0" => Some(0),
            text => text.parse::<u64>().ok(),
        }
    }
}

/// A clone of a number of at most 22 bytes never fails; that of a longer one fails where no memory is left for its
/// text.
impl Clone for Number {
    ghost is_clone = { λ number copy. copy ≡ number };

    ghost is_infallible = { λ number. length number ≤ 22 };

    fn clone(&self) -> Result<Number, AllocError> {
        Ok(Number(self.0.clone()?))
    }
}

impl PartialEq for Number {
    ghost eq = { pointwise nat_eq };

    ghost laws = { partial_equiv_from_equiv nat_list_eq_equiv };

    fn eq(&self, other: &Number) -> bool
        ensures value { result ≡ pointwise nat_eq self.now other.now }
        ensures same { IsTrue result ↔ (self.now ≡ other.now) }
    {
        self.as_str() == other.as_str()
    }
}

impl Eq for Number {
    ghost laws = { nat_list_eq_equiv };
}

impl fmt::Debug for Number {
    fn fmt<W: fmt::Write>(&self, f: &mut fmt::Formatter<W>) -> fmt::Result {
        f.debug_tuple("Number").field(&self.as_str()).finish()
    }
}

impl fmt::Display for Number {
    ghost output = { λ number. Some number };

    ghost styled_output = { λ number style. Some (styled_text style number) };

    fn fmt<W: fmt::Write>(&self, f: &mut fmt::Formatter<W>) -> fmt::Result {
        f.pad(self.as_str())
    }
}
