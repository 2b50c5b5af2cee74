//! How a tree, or an error, is handed over as JSON.
ghost use Rattle.std.specs.Prelude.{◌≡◌, IfOk, Some};
ghost use Rattle.graphql_json.specs.nodes.Nodes.{json_text};
ghost use Rattle.graphql_parser_c.specs.Handing.{answer_value, places_asked};

use crate::block::Block;
use crate::documents::Document;
use crate::handing::{Handing, Made};
use graphql_json::error_json;
use graphql_parser::{Limits, Memory, Result};
use std::alloc::{AllocError, Global};

/// Hands over the JSON of the tree, or of the error.
#[derive(Drop)]
pub struct Json {
    /// Whether nodes have their places.
    pub with_places: bool,
}

// The JSON of an answer.
fn written<D: Document>(
    alloc: Global,
    answer: &Result<D>,
    with_places: bool,
) -> std::result::Result<Vec<u8>, AllocError>
    ensures { IfOk result (λ json. json.items ≡
        json_text (answer_value (D.value (places_asked with_places)) answer.now)) }
{
    match answer {
        Ok(document) if with_places => document.json(alloc, graphql_json::Places::Written),
        Ok(document) => document.json(alloc, graphql_json::Places::LeftOut),
        Err(error) => error_json(alloc, error),
    }
}

impl<D: Document> Handing<D> for Json {
    type Kept = D;

    ghost Tree = { D.Tree };

    ghost language = { D.language };

    ghost Hands = { λ json _ _ answer made. made.text ≡
        Some (json_text (answer_value (D.value (places_asked json.with_places)) answer)) };

    fn read(memory: &mut Memory, text: &str, limits: Limits) -> Result<D> {
        D::read(memory, text, limits)
    }

    fn make(&self, alloc: Global, _: &str, _: Limits, answer: &Result<D>) -> Made {
        let json = written(alloc, answer, self.with_places)?;
        Ok(Block::of(json.leak()))
    }
}
