//! How a tree is handed over as bytes of the library's own.
ghost use Rattle.std.specs.Prelude.{◌≡◌};
ghost use Rattle.graphql_parser_c.specs.Packing.{Packs};

use crate::block::Block;
use crate::documents::Document;
use crate::handing::{Handing, Made};
use graphql_parser::{Limits, Memory, Result};
use std::alloc::Global;

/// Hands over the bytes of the tree, and nothing of a text that is rejected.
pub struct Packed;

impl<D: Document> Handing<D> for Packed {
    type Kept = D;

    ghost Tree = { D.Tree };

    ghost language = { D.language };

    ghost Hands = { λ _ _ _. Packs D.bytes };

    fn read(memory: &mut Memory, text: &str, limits: Limits) -> Result<D> {
        D::read(memory, text, limits)
    }

    fn make(&self, alloc: Global, _: &str, _: Limits, answer: &Result<D>) -> Made {
        let Ok(document) = answer else {
            return Ok(Block::nothing());
        };
        let bytes = document.packed(alloc)?;
        Ok(Block::of(bytes.leak()))
    }
}
