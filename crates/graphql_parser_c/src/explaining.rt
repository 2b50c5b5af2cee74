//! How an error is handed over as a report for people.
ghost use Rattle.std.specs.Prelude.{◌≡◌};
ghost use Rattle.graphql_parser.specs.Checking.{checked};
ghost use Rattle.graphql_parser_c.specs.Explaining.{Explains};

use crate::block::Block;
use crate::documents::Document;
use crate::handing::{Handing, Made};
use graphql_parser::{Limits, Memory, Result};
use std::alloc::Global;

/// Hands over the report of the error of a text that is checked, and nothing of one that is accepted.
pub struct Report;

impl<D: Document> Handing<D> for Report {
    type Kept = ();

    ghost Tree = { D.Tree };

    ghost language = { checked D.language };

    ghost Hands = { λ _. Explains D.read_as };

    fn read(memory: &mut Memory, text: &str, limits: Limits) -> Result<()> {
        D::check(memory, text, limits)
    }

    fn make(&self, alloc: Global, text: &str, limits: Limits, answer: &Result<()>) -> Made {
        let Err(error) = answer else {
            return Ok(Block::nothing());
        };
        let report = graphql_report::explain(alloc, D::language(), "", text, limits, error)?;
        Ok(Block::of(report.into_bytes().leak()))
    }
}
