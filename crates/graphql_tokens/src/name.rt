//! Names, each with a text of its own.
ghost use Rattle.std.specs.Prelude.{◌≡◌, ◌↔◌, Some, IfOk, IsTrue, nat_eq, refl};
ghost use Rattle.std.specs.Ordering.{nat_cmp};
ghost use Rattle.std.specs.Fmt.{styled_text};
ghost use Rattle.std.specs.Hash as fed;
ghost use Rattle.std.specs.Cmp.Lexicographic.{pointwise, slice_cmp, nat_list_eq_equiv, nat_list_cmp_total, texts_ties, texts_po};
ghost use Rattle.std.specs.Cmp.{partial_equiv_from_equiv};
ghost use Rattle.std.specs.Cmp.Rules.{hashing};
ghost use Rattle.std.proofs.Common.{rules};

use crate::small_text::SmallText;
use graphql_memory::Memory;
use serde::{Described, Deserialize, Deserializer, Format, Serialize, Serializer};
use std::alloc::{AllocError, Global};
use std::cmp::Ordering;
use std::fmt;
use std::hash::{Hash, Hasher};
use std::marker::Model;

/// A name of a document: of a field, a type, an argument, a variable and the like.
///
/// It owns its text, and a contract sees it as the bytes of that text in UTF-8. Names are equal
/// where their texts are, ordered by the bytes of their texts, and hashed as texts, so they are
/// lawful keys of ordered and hashed maps. Serde writes and reads a name as a string. A name of at
/// most 22 bytes takes no memory but its own.
#[derive(Drop)]
pub struct Name(SmallText);

impl Model for Name {
    ghost use Rattle.std.specs.Prelude.{ℕ, List};

    ghost Value = { List ℕ };

    ghost view = { λ n. n.0 };
}

impl Name {
    ghost use Rattle.std.specs.Prelude.{◌≤◌, ◌+◌, length, IsOk, IfSome, IsSome, OnErr};
    ghost use Rattle.graphql_memory.specs.Memory.{Refused, Takes};
    ghost use Rattle.graphql_tokens.specs.tokens.Within.{StandsAt};

    /// The name with this text, if it is at most 22 bytes long, and so takes no memory; None where it is longer.
    #[inline]
    pub fn in_place(text: &str) -> Option<Name>
        ensures name { IfSome result (λ name. name ≡ text.now) }
        ensures room { length text.now ≤ 22 → IsSome result }
        ensures fits { IsSome result → length text.now ≤ 22 }
    {
        Some(Name(SmallText::in_place(text)?))
    }

    /// The name with this text, whatever the text is: it isn't held against the grammar of names.
    ///
    /// Fails only where the text is longer than 22 bytes and no memory is left for it.
    #[inline]
    pub fn new(alloc: Global, text: &str) -> Result<Name, AllocError>
        ensures name { IfOk result (λ name. name ≡ text.now) }
        ensures short { length text.now ≤ 22 → IsOk result }
    {
        Name::new_in(&mut Memory::new(alloc), text)
    }

    /// As `new`, in this memory.
    #[inline]
    pub fn new_in(memory: &mut Memory, text: &str) -> Result<Name, AllocError>
        ensures name { IfOk result (λ name. name ≡ text.now) }
        ensures short { length text.now ≤ 22 → IsOk result }
        ensures takes { Takes (24 + length text.now) memory.old memory.new }
        ensures refused { OnErr result (Refused memory.new) }
    {
        Ok(Name(SmallText::new(memory, text)?))
    }

    /// The name with this text, which stands in `whole` from this offset on, in this memory: as `new_in`, and quicker, as
    /// it may copy what follows the text in `whole` along.
    #[inline(always)]
    pub fn cut_in(
        memory: &mut Memory,
        text: &str,
        whole: &str,
        start: usize,
    ) -> Result<Name, AllocError>
        requires { StandsAt text.now whole.now start }
        ensures name { IfOk result (λ name. name ≡ text.now) }
        ensures short { length text.now ≤ 22 → IsOk result }
        ensures takes { Takes (24 + length text.now) memory.old memory.new }
        ensures refused { OnErr result (Refused memory.new) }
    {
        Ok(Name(SmallText::new_within(memory, text, whole, start)?))
    }

    /// The name's text, borrowed.
    #[inline]
    pub fn as_str(&self) -> &str
        ensures { result.now ≡ self.now }
    {
        self.0.as_str()
    }
}

/// A clone of a name of at most 22 bytes never fails; that of a longer one fails where no memory is left for its
/// text.
impl Clone for Name {
    ghost use Rattle.std.specs.Prelude.{◌≤◌, length};

    ghost is_clone = { λ name copy. copy ≡ name };

    ghost is_infallible = { λ name. length name ≤ 22 };

    fn clone(&self) -> Result<Name, AllocError> {
        Ok(Name(self.0.clone()?))
    }
}

impl PartialEq for Name {
    ghost eq = { pointwise nat_eq };

    ghost laws = { partial_equiv_from_equiv nat_list_eq_equiv };

    fn eq(&self, other: &Name) -> bool
        ensures value { result ≡ pointwise nat_eq self.now other.now }
        ensures same { IsTrue result ↔ (self.now ≡ other.now) }
    {
        self.as_str() == other.as_str()
    }
}

impl Eq for Name {
    ghost laws = { nat_list_eq_equiv };
}

impl PartialOrd for Name {
    ghost partial_cmp = { λ x y. Some (slice_cmp nat_cmp x y) };

    ghost laws = { texts_po };

    fn partial_cmp(&self, other: &Name) -> Option<Ordering> {
        Some(self.cmp(other))
    }
}

impl Ord for Name {
    ghost cmp = { slice_cmp nat_cmp };

    ghost total = { nat_list_cmp_total };

    ghost matches_partial_cmp = { λ x y. refl };

    ghost matches_eq = { texts_ties };

    fn cmp(&self, other: &Name) -> Ordering {
        self.as_str().cmp(other.as_str())
    }
}

impl Hash for Name {
    ghost hash_input = { fed.str };

    ghost respects_eq = { Prim.search (hashing, rules) };

    fn hash<H: Hasher>(&self, state: &mut H) {
        self.as_str().hash(state);
    }
}

impl fmt::Debug for Name {
    fn fmt<W: fmt::Write>(&self, f: &mut fmt::Formatter<W>) -> fmt::Result {
        f.debug_tuple("Name").field(&self.as_str()).finish()
    }
}

impl fmt::Display for Name {
    ghost output = { λ name. Some name };

    ghost styled_output = { λ name style. Some (styled_text style name) };

    fn fmt<W: fmt::Write>(&self, f: &mut fmt::Formatter<W>) -> fmt::Result {
        f.pad(self.as_str())
    }
}

impl Described for Name {}

impl Serialize for Name {
    fn serialize<S: Serializer>(&self, out: &mut S) -> Result<(), S::Error> {
        out.str(self.as_str())
    }
}

impl<'de> Deserialize<'de> for Name {
    fn deserialize<F: Format>(
        alloc: Global,
        from: &mut Deserializer<'de, '_, F>,
    ) -> Result<Name, F::Error> {
        let text = String::deserialize(alloc, from)?;
        match Name::new(alloc, text.as_str()) {
            Ok(name) => Ok(name),
            Err(_) => Err(from.no_memory()),
        }
    }
}
