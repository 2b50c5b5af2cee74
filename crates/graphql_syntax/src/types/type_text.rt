//! Types as texts.
ghost use Rattle.std.specs.Prelude.{◌≡◌, ◌++◌, Ok, Some, None, IfOk, MatchOption, IsTrue, codes, option_map};
ghost use Rattle.graphql_syntax.specs.calls.TypeText.{EndsWith, HasGraphqlName, IsTypeOf};
ghost use Rattle.graphql_syntax.specs.trees.TypeTree.{TypeTree, type_tree, base_text, type_text, mark};

use super::{BaseType, Type};
use crate::value::Name;
use std::alloc::{AllocError, Global};
use std::fmt;

/// The type as GraphQL writes it (October 2021, section 2.11): `[Int!]`. A width, a precision or another
/// option of the format changes nothing (this project's choice), since a name that is cut would be that of
/// another type.
impl fmt::Display for Type {
    ghost output = { λ t. Some (type_text (type_tree t)) };

    ghost styled_output = { λ t _. Some (type_text (type_tree t)) };

    #[cycle(show)]
    #[tactic(auto, using(crate::proofs::TypeTexts::text_of_base))]
    fn fmt<W: fmt::Write>(&self, f: &mut fmt::Formatter<W>) -> fmt::Result {
        self.base.fmt(f)?;
        if !self.nullable {
            f.write_str("!")?;
        }
        Ok(())
    }
}

/// The name, or the list in its brackets; an option of the format changes nothing, as for [`Type`].
impl fmt::Display for BaseType {
    ghost output = { λ b. Some (base_text b) };

    ghost styled_output = { λ b _. Some (base_text b) };

    #[cycle(show)]
    fn fmt<W: fmt::Write>(&self, f: &mut fmt::Formatter<W>) -> fmt::Result {
        match self {
            BaseType::Named(name) => f.write_str(name.as_str()),
            BaseType::List(inner) => {
                f.write_str("[")?;
                (**inner).fmt(f)?;
                f.write_str("]")
            }
        }
    }
}

impl Type {
    /// The type that `text` shows: the one whose text by Display is `text`, and in which no name begins
    /// with `[` and no name of a type that may be null ends with `!`. There is at most one; the answer is
    /// None where there is none.
    ///
    /// So the text of a type whose name is a GraphQL name gives that type back. Nothing else is asked of a
    /// name, so it may be empty (this project's choice). A list in a list may go as deep as memory does.
    /// Fails only where no memory is left for the names and the lists of the answer; the text of no type takes none.
    #[cycle(new)]
    pub fn new(alloc: Global, text: &str) -> Result<Option<Type>, AllocError>
        ensures shown { IfOk result (λ answer. MatchOption answer
            ((t : TypeTree) → ¬ IsTypeOf text.now t)
            (λ t. IsTypeOf text.now (type_tree t))) }
        ensures refused { ((t : TypeTree) → ¬ IsTypeOf text.now t) → result ≡ Ok None }
        ensures one { (s t : TypeTree) → IsTypeOf text.now s → IsTypeOf text.now t → s ≡ t }
        ensures back { (t : TypeTree) → HasGraphqlName t → type_text t ≡ text.now
            → IfOk result (λ answer. option_map type_tree answer ≡ Some t) }
    {
        match text.strip_suffix('!') {
            Some(rest) => type_of(alloc, rest, false),
            None => type_of(alloc, text, true),
        }
    }
}

// The type of a text whose mark was taken off, if it had one.
#[cycle(new)]
fn type_of(alloc: Global, text: &str, nullable: bool) -> Result<Option<Type>, AllocError>
    requires { IsTrue nullable → ¬ EndsWith (codes "!") text.now }
    ensures shown { IfOk result (λ answer. MatchOption answer
        ((t : TypeTree) → ¬ IsTypeOf (text.now ++ mark nullable) t)
        (λ t. IsTypeOf (text.now ++ mark nullable) (type_tree t))) }
    ensures refused { ((t : TypeTree) → ¬ IsTypeOf (text.now ++ mark nullable) t) →
        result ≡ Ok None }
{
    let Some(after) = text.strip_prefix('[') else {
        let base = BaseType::Named(Name::new(alloc, text)?);
        return Ok(Some(Type { base, nullable }));
    };
    let Some(inside) = after.strip_suffix(']') else {
        return Ok(None);
    };
    let Some(item) = Type::new(alloc, inside)? else {
        return Ok(None);
    };
    let base = BaseType::List(Box::new(alloc, item)?);
    Ok(Some(Type { base, nullable }))
}
