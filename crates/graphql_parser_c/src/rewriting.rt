//! How a text is handed over rewritten.
ghost use Rattle.std.specs.Prelude.{◌≡◌};
ghost use Rattle.graphql_parser.specs.Checking.{checked};
ghost use Rattle.graphql_parser_c.specs.Rewriting.{LaysOut, Minifies, Rewrites};

use crate::block::Block;
use crate::documents::Document;
use crate::handing::{Handing, Made};
use graphql_parser::{Limits, Memory, Result};
use std::alloc::Global;

/// Hands over the text without what isn't needed in it, and nothing of one that is rejected.
pub struct Minified;

impl<D: Document> Handing<D> for Minified {
    type Kept = ();

    ghost Tree = { D.Tree };

    ghost language = { checked D.language };

    ghost Hands = { λ _ limits text. Rewrites (Minifies D.language limits text) };

    fn read(memory: &mut Memory, text: &str, limits: Limits) -> Result<()> {
        D::check(memory, text, limits)
    }

    fn make(&self, alloc: Global, text: &str, limits: Limits, answer: &Result<()>) -> Made {
        let Ok(()) = answer else {
            return Ok(Block::nothing());
        };
        let minified = D::minified(alloc, text, limits)?;
        Ok(Block::of(minified.into_bytes().leak()))
    }
}

/// Hands over the text laid out, and nothing of one that is rejected.
pub struct Formatted;

impl<D: Document> Handing<D> for Formatted {
    type Kept = ();

    ghost Tree = { D.Tree };

    ghost language = { checked D.language };

    ghost Hands = { λ _ limits text. Rewrites (LaysOut D.language limits text) };

    fn read(memory: &mut Memory, text: &str, limits: Limits) -> Result<()> {
        D::check(memory, text, limits)
    }

    fn make(&self, alloc: Global, text: &str, limits: Limits, answer: &Result<()>) -> Made {
        let Ok(()) = answer else {
            return Ok(Block::nothing());
        };
        let formatted = D::formatted(alloc, text, limits)?;
        Ok(Block::of(formatted.into_bytes().leak()))
    }
}
