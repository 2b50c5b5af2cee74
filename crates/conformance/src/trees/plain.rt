//! A third type of values, beside those of the crates.
ghost use Rattle.std.proofs.Common.{arith};
ghost use Rattle.std.specs.Prelude.{◌≡◌, map, string_bytes, true, false};
ghost use Rattle.graphql_syntax.specs.trees.ValueTree.{Tree, null, number, string, boolean, enumeration, list, object, trees_of, fields_of};
ghost use Rattle.conformance.specs.declared.trees.plain.Plain.{fold-Plain};
ghost use Rattle.conformance.specs.declared.trees.plain.Plain.TheOpen.{Plain-F};

use graphql_syntax::value::{Literal, Name, Number};

/// It has no variables, and its booleans are two cases.
#[derive(Drop)]
pub enum Plain {
    Null,
    Number(Number),
    Text(String),
    Yes,
    No,
    Enum(Name),
    List(Vec<Plain>),
    Object(Vec<(Name, Plain)>),
}

impl Literal for Plain {
    ghost value_fits = { Prim.omega arith };

    ghost field_fits = { Prim.omega arith };

    ghost argument_fits = { Prim.omega arith };

    ghost tree = { fold-Plain Tree (λ l. elim l [ Plain-F.Null ↦ null | Plain-F.Number n ↦ number n | Plain-F.Text s ↦ string (string_bytes s) | Plain-F.Yes ↦ boolean true | Plain-F.No ↦ boolean false | Plain-F.Enum n ↦ enumeration n | Plain-F.List v ↦ list (trees_of v.items) | Plain-F.Object v ↦ object (fields_of v.items) ]) };

    ghost VARIABLES = { false };

    const VARIABLES: bool = false;

    fn null() -> Self {
        Plain::Null
    }

    fn number(n: Number) -> Self {
        Plain::Number(n)
    }

    fn string(s: String) -> Self {
        Plain::Text(s)
    }

    fn boolean(b: bool) -> Self {
        if b { Plain::Yes } else { Plain::No }
    }

    fn enumeration(n: Name) -> Self {
        Plain::Enum(n)
    }

    fn list(items: Vec<Self>) -> Self
        ensures { ⟦<Plain as Literal>⟧.tree result ≡
            list (trees_of (map ⟦<Plain as Literal>⟧.tree items.items)) }
    {
        Plain::List(items)
    }

    fn object(fields: Vec<(Name, Self)>) -> Self
        ensures { ⟦<Plain as Literal>⟧.tree result ≡
            object (fields_of (map (λ f. (f.0, ⟦<Plain as Literal>⟧.tree f.1)) fields.items)) }
    {
        Plain::Object(fields)
    }

    fn variable(_n: Name) -> Option<Self> {
        None
    }
}
