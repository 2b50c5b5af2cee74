//! Trees and errors of `graphql_parser` as JSON, for servers and tools: a tree in the form of GraphQL.js, version 16,
//! and an error as an entry of `errors` in a response.
//!
//! A node is an object with its `kind` first, and then the members that GraphQL.js gives a node of that kind, under its
//! names and in its order. A part that the text leaves out has no member, but that a list is empty then, and `repeatable`
//! is false. The JSON has no blanks. It differs from that of GraphQL.js in what our trees do not keep:
//!
//! - a node has no `loc`; with [`Places::Written`] it has `line` and `column` after its `kind`;
//! - these nodes have no place: the document, the names of operations and fragments, the roots of a schema, the name of
//!   a variable in a value, and what is inside a list, an object or a list type;
//! - the place of `on` before a fragment's type, and the outer place of a selection, are in no node, as in GraphQL.js: trees
//!   that differ only there have one JSON. In a parsed tree a selection's outer place is that of the node in it;
//! - a string has no `block`, which tells whether it is a block string;
//! - an object has each field once, with the value that stands last.
//!
//! Proved of it, on every tree and every error, also those that no text has: what a call gives is the text of the one JSON
//! value that `specs/nodes` defines for the tree or the error, member by member, and reads back as that value; or it tells
//! that memory ran out. The JSON of a text's tree is in source order, unless a carriage return without a line feed stands
//! in the text.
#![tactic(auto)]

ghost use Rattle.std.specs.Prelude.{◌≡◌, IfOk};
ghost use Rattle.std.specs.Str.{IsUtf8};
ghost use Rattle.graphql_parser.specs.errors.Errors.{error_text, error_places};
ghost use Rattle.graphql_parser.specs.trees.RequestViews.{document_tree};
ghost use Rattle.graphql_parser.specs.trees.SchemaViews.{schema_document_tree};
ghost use Rattle.graphql_json.specs.nodes.Errors.{error_value};
ghost use Rattle.graphql_json.specs.nodes.Nodes.{json_text, no_place, ReadsBack};
ghost use Rattle.graphql_json.specs.nodes.Requests.{request_value};
ghost use Rattle.graphql_json.specs.nodes.Schemas.{schema_value};
ghost use Rattle.graphql_json.specs.nodes.SourceOrder.{IsInSourceOrder, IsFileInSourceOrder};

mod buffer;
mod error;
mod escapes;
mod place;
mod plain;
mod request;
mod schema;
mod sheet;
mod values;

pub use buffer::Buffer;
use graphql_parser::Error;
use graphql_parser::types::{ExecutableDocument, ServiceDocument};
use place::Place;
pub use place::Places;
use sheet::{Node, Sheet};
use std::alloc::{AllocError, Global};

/// The tree of a request as JSON, a `Document` of GraphQL.js.
///
/// `document` is the tree that `parse_query` gives, and `places` tells whether its places are written. The operations
/// come in their order and the fragments in theirs, which in such a tree are those of the text. The next operation comes
/// before the next fragment unless the fragment's place is smaller. So the order is that of the text wherever places
/// grow. They do, but after a carriage return without a line feed: there the columns begin anew on the same line, and
/// the tree doesn't keep whether the operation or the fragment comes first. It fails only where memory runs out.
pub fn request_json(
    alloc: Global,
    document: &ExecutableDocument,
    places: Places,
) -> Result<Vec<u8>, AllocError>
    ensures text { IfOk result (λ json. json.items ≡
        json_text (request_value places (document_tree document.now))) }
    ensures utf8 { IfOk result (λ json. IsUtf8 json.items) }
    ensures reads_back { IfOk result (λ json.
        ReadsBack json.items (request_value places (document_tree document.now))) }
    ensures source_order { IfOk result (λ json.
        IsInSourceOrder places document.now json.items) }
{
    tree_json(alloc, document, places)
}

/// The tree of a schema file as JSON, a `Document` of GraphQL.js.
///
/// `document` is the tree that `parse_schema` gives, and `places` tells whether its places are written. The definitions
/// and extensions come in the order of the tree, which is that of the text. The roots of a schema come in the order of
/// the places of their types, which is that of the text but after a carriage return without a line feed. It fails only
/// where memory runs out.
pub fn schema_json(
    alloc: Global,
    document: &ServiceDocument,
    places: Places,
) -> Result<Vec<u8>, AllocError>
    ensures text { IfOk result (λ json. json.items ≡
        json_text (schema_value places (schema_document_tree document.now))) }
    ensures utf8 { IfOk result (λ json. IsUtf8 json.items) }
    ensures reads_back { IfOk result (λ json.
        ReadsBack json.items (schema_value places (schema_document_tree document.now))) }
    ensures source_order { IfOk result (λ json.
        IsFileInSourceOrder places document.now json.items) }
{
    tree_json(alloc, document, places)
}

// A tree as JSON, with or without the places of its nodes.
fn tree_json<N: Node>(alloc: Global, tree: &N, places: Places) -> Result<Vec<u8>, AllocError>
    ensures text { IfOk result (λ json. json.items ≡
        json_text (N.form.json (no_place places) (N.form.tree tree.now))) }
    ensures utf8 { IfOk result (λ json. IsUtf8 json.items) }
    ensures reads_back { IfOk result (λ json.
        ReadsBack json.items (N.form.json (no_place places) (N.form.tree tree.now))) }
{
    let mut sheet = Sheet::new(alloc);
    tree.write(&mut sheet, Place { places, pos: None })?;
    Ok(sheet.finish())
}

/// An error as JSON: an entry of `errors` in the response to a request (GraphQL October 2021, section 7.1.2).
///
/// It has the text of the error as `message`, and the places that the error names as `locations`, the most important
/// first, each with its `line` and `column`. An error that names no place has no `locations`. It fails only where memory
/// runs out.
pub fn error_json(alloc: Global, error: &Error) -> Result<Vec<u8>, AllocError>
    ensures text { IfOk result (λ json. json.items ≡
        json_text (error_value (error_text error.now) (error_places error.now))) }
    ensures utf8 { IfOk result (λ json. IsUtf8 json.items) }
    ensures reads_back { IfOk result (λ json.
        ReadsBack json.items (error_value (error_text error.now) (error_places error.now))) }
{
    let mut sheet = Sheet::new(alloc);
    error::write_error(alloc, &mut sheet, error)?;
    Ok(sheet.finish())
}
