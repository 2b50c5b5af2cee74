//! `clone` of directives: the same tree, places included.
//!
//! It is written out, so that its contract can say so.
ghost use Rattle.std.specs.Prelude.{◌≡◌};
ghost use Rattle.graphql_syntax.specs.trees.PartViews.{const_directive_tree, directive_tree};

use super::{ConstDirective, Directive};
use std::alloc::AllocError;

impl Clone for ConstDirective {
    ghost is_clone = { λ directive clone. const_directive_tree clone ≡ const_directive_tree directive };

    fn clone(&self) -> Result<ConstDirective, AllocError> {
        Ok(ConstDirective {
            name: self.name.clone()?,
            arguments: self.arguments.clone()?,
        })
    }
}

impl Clone for Directive {
    ghost is_clone = { λ directive clone. directive_tree clone ≡ directive_tree directive };

    fn clone(&self) -> Result<Directive, AllocError> {
        Ok(Directive {
            name: self.name.clone()?,
            arguments: self.arguments.clone()?,
        })
    }
}
