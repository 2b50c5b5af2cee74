//! `clone` of types: the same tree.
//!
//! It is written out, since a derived one says nothing of a type that holds itself.
ghost use Rattle.std.specs.Prelude.{◌≡◌, true};
ghost use Rattle.graphql_syntax.specs.trees.TypeTree.{type_tree, base_tree};

use super::{BaseType, Type};
use std::alloc::AllocError;

impl Clone for Type {
    ghost is_clone = { λ t clone. type_tree clone ≡ type_tree t };

    #[cycle(clone)]
    fn clone(&self) -> Result<Type, AllocError> {
        Ok(Type {
            base: self.base.clone()?,
            nullable: self.nullable,
        })
    }
}

impl Clone for BaseType {
    ghost is_clone = { λ b clone. base_tree clone true ≡ base_tree b true };

    #[cycle(clone)]
    fn clone(&self) -> Result<BaseType, AllocError> {
        match self {
            BaseType::Named(name) => Ok(BaseType::Named(name.clone()?)),
            BaseType::List(item) => {
                let clone = (**item).clone()?;
                Ok(BaseType::List(Box::new(*Box::allocator(item), clone)?))
            }
        }
    }
}
