//! The trees of requests and of schema files, by the GraphQL specification, October 2021.
//!
//! A tree keeps each node at its place: a node stands where its first token begins. All fields are
//! public, and a tree that a caller builds is as good as one that was read.
pub use graphql_syntax::types::{BaseType, ConstDirective, Directive, OperationType, Type};
pub use graphql_trees::{
    DirectiveDefinition, DirectiveLocation, DocumentOperations, EnumType, EnumValueDefinition,
    ExecutableDocument, Field, FieldDefinition, FragmentDefinition, FragmentSpread, InlineFragment,
    InputObjectType, InputValueDefinition, InterfaceType, NameHasher, NameMap, NameSeed,
    ObjectType, OperationDefinition, OperationsIter, SchemaDefinition, Selection, SelectionSet,
    ServiceDocument, TypeCondition, TypeDefinition, TypeKind, TypeSystemDefinition, UnionType,
    VariableDefinition,
};
