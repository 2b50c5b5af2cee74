//! Equality of types: that of their trees.
//!
//! It is written out, since a derived one says nothing that a caller's proof can use of a type that
//! holds itself.
ghost use Rattle.std.specs.Prelude.{◌≡◌, ◌↔◌, IsTrue, true};
ghost use Rattle.std.specs.Cmp.{on_per, on_equiv, partial_equiv_from_equiv};
ghost use Rattle.graphql_syntax.specs.trees.TypeTree.{type_tree, base_tree};
ghost use Rattle.graphql_syntax.specs.trees.TypeEquality.{same_type};
ghost use Rattle.graphql_syntax.specs.inner.TypeLaws.{same_type_equiv};

use super::{BaseType, Type};

impl PartialEq for Type {
    ghost eq = { λ s t. same_type (type_tree s) (type_tree t) };

    ghost laws = { on_per type_tree (partial_equiv_from_equiv same_type_equiv) };

    #[cycle(same)]
    fn eq(&self, other: &Type) -> bool
        ensures value { result ≡ same_type (type_tree self.now) (type_tree other.now) }
        ensures same { IsTrue result ↔ (type_tree self.now ≡ type_tree other.now) }
    {
        self.base == other.base && self.nullable == other.nullable
    }
}

impl Eq for Type {
    ghost laws = { on_equiv type_tree same_type_equiv };
}

impl PartialEq for BaseType {
    ghost eq = { λ s t. same_type (base_tree s true) (base_tree t true) };

    ghost laws = { on_per (λ b. base_tree b true) (partial_equiv_from_equiv same_type_equiv) };

    #[cycle(same)]
    fn eq(&self, other: &BaseType) -> bool
        ensures value { result ≡ same_type (base_tree self.now true) (base_tree other.now true) }
        ensures same { IsTrue result ↔ (base_tree self.now true ≡ base_tree other.now true) }
    {
        match (self, other) {
            (BaseType::Named(m), BaseType::Named(n)) => m == n,
            (BaseType::List(s), BaseType::List(t)) => **s == **t,
            _ => false,
        }
    }
}

impl Eq for BaseType {
    ghost laws = { on_equiv (λ b. base_tree b true) same_type_equiv };
}
