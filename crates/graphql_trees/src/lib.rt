//! The trees of GraphQL requests and schema files (October 2021, sections 2 and 3): documents, operations, fragments and
//! selections; definitions and extensions of schemas, types and directives.
//!
//! Proved of it: accessors return what stands in the tree, and what `directives_mut` lends is written back into it; the
//! operations come in source order, each once; a clone of a document, or of a part of one, has the same tree; a place
//! where a directive may stand is written as its word.
//!
//! A tree keeps each node at its place: a node stands where its first token begins, at its description if it has one.
//! All fields are public, and a tree that a caller builds is as good as one that was read. Users name `graphql_parser`,
//! which gives these types out. What a reader of the contracts has to believe stands in `specs/trees` and `specs/calls`,
//! and in the public specs of `graphql_syntax`; `specs/inner` is inner.
#![tactic(auto)]

mod executable;
mod executable_clones;
mod hasher;
mod lookup;
mod service;
mod service_clones;

pub use executable::{
    DocumentOperations, ExecutableDocument, Field, FragmentDefinition, FragmentSpread,
    InlineFragment, OperationDefinition, OperationsIter, Selection, SelectionSet, TypeCondition,
    VariableDefinition,
};
pub use hasher::{NameHasher, NameMap, NameSeed};
pub use service::{
    DirectiveDefinition, DirectiveLocation, EnumType, EnumValueDefinition, FieldDefinition,
    InputObjectType, InputValueDefinition, InterfaceType, ObjectType, SchemaDefinition,
    ServiceDocument, TypeDefinition, TypeKind, TypeSystemDefinition, UnionType,
};
