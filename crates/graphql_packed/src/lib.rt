//! Trees of `graphql_parser` as bytes, for a wrapper in another language that makes trees of its own: `bindings/rust`.
//!
//! It has what that tree has, part by part and in its order:
//!
//! - a number is eight bytes, the lowest first, and a choice is one byte;
//! - a text is the number of its bytes, and these, in UTF-8;
//! - a node begins with its place, its line and its column; a selection is a choice and the node in it, whose place in a
//!   parsed tree is the selection's too, so the outer place is left out;
//! - a list is the number of its items, and these; what may be missing is a choice, and then the part if it is there.
//!
//! Nothing else reads it, and it may change with any version.
//!
//! Proved of it, on every tree, also those that no text has: what a call gives is the bytes that `specs/packed` defines for
//! the tree, part by part; or it tells that memory ran out. These bytes determine the tree, except for the outer places of
//! selections: the bytes of another tree are neither these nor a front of them. How they are read is tested, by trees in
//! Rust that are made of them and held against the JSON of the same texts.
#![tactic(auto)]

ghost use Rattle.std.specs.Prelude.{◌≡◌, [], ◌++◌, IfOk};
ghost use Rattle.graphql_parser.specs.trees.Request.{Document as RequestTree};
ghost use Rattle.graphql_parser.specs.trees.RequestViews.{document_tree};
ghost use Rattle.graphql_parser.specs.trees.Schema.{Document as SchemaTree};
ghost use Rattle.graphql_parser.specs.trees.SchemaViews.{schema_document_tree};
ghost use Rattle.graphql_packed.specs.packed.Bytes.{Bytes};
ghost use Rattle.graphql_packed.specs.packed.OuterPlaces.{without_outer_places};
ghost use Rattle.graphql_packed.specs.packed.Requests.{request_bytes};
ghost use Rattle.graphql_packed.specs.packed.Schemas.{schema_bytes};

mod buffer;
mod request;
mod schema;
mod values;

use buffer::Buffer;
use graphql_parser::types::{ExecutableDocument, ServiceDocument};
use std::alloc::{AllocError, Global};

/// The tree of a request as bytes. It fails only where memory runs out.
pub fn packed_request(alloc: Global, document: &ExecutableDocument) -> Result<Vec<u8>, AllocError>
    ensures bytes { IfOk result (λ packed. packed.items ≡
        request_bytes (document_tree document.now)) }
    // No other tree has these bytes, or a front of them, but for the outer places of selections.
    ensures determines { IfOk result (λ packed. (other : RequestTree) (more : Bytes) →
        packed.items ≡ request_bytes other ++ more →
        (without_outer_places other ≡ without_outer_places (document_tree document.now)) × (more ≡ [])) }
{
    let mut buffer = Buffer::new(alloc);
    request::pack_document(&mut buffer, document)?;
    Ok(buffer.finish())
}

/// The tree of a schema file as bytes. It fails only where memory runs out.
pub fn packed_schema(alloc: Global, document: &ServiceDocument) -> Result<Vec<u8>, AllocError>
    ensures bytes { IfOk result (λ packed. packed.items ≡
        schema_bytes (schema_document_tree document.now)) }
    // No other tree has these bytes, or a front of them.
    ensures determines { IfOk result (λ packed. (other : SchemaTree) (more : Bytes) →
        packed.items ≡ schema_bytes other ++ more →
        (other ≡ schema_document_tree document.now) × (more ≡ [])) }
{
    let mut buffer = Buffer::new(alloc);
    schema::pack_document(&mut buffer, document)?;
    Ok(buffer.finish())
}
