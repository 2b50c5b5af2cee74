//! The tree of a schema file: definitions and extensions of schemas, types and directives.
//!
//! A definition stands at its description where it has one, else at its keyword; an extension stands
//! at its `extend`.
ghost use Rattle.std.specs.Prelude.{◌≡◌, Some, codes};
ghost use Rattle.graphql_trees.specs.calls.Locations.{location_word};

use graphql_syntax::pos::Positioned;
use graphql_syntax::types::{ConstDirective, Type};
use graphql_syntax::value::{ConstValue, Name};
use std::fmt;

/// A schema file (section 3.1).
#[derive(Debug, Drop)]
pub struct ServiceDocument {
    /// The definitions and extensions, in source order.
    pub definitions: Vec<TypeSystemDefinition>,
}

/// A definition or an extension of a schema file.
#[derive(Debug, Drop)]
pub enum TypeSystemDefinition {
    /// Of a schema.
    Schema(Positioned<SchemaDefinition>),
    /// Of a type.
    TypeDef(Positioned<TypeDefinition>),
    /// Of a directive. There are no extensions of directives.
    Directive(Positioned<DirectiveDefinition>),
}

/// A definition or an extension of a schema (section 3.3).
#[derive(Clone, Debug, Drop)]
pub struct SchemaDefinition {
    /// The text of the description, at its opening quote. An extension has none.
    pub description: Option<Positioned<String>>,
    /// Whether it is an extension.
    pub extend: bool,
    /// The directives, in source order.
    pub directives: Vec<Positioned<ConstDirective>>,
    /// The name of the type that queries begin at. Only an extension may leave it out.
    pub query: Option<Positioned<Name>>,
    /// The name of the type that mutations begin at.
    pub mutation: Option<Positioned<Name>>,
    /// The name of the type that subscriptions begin at.
    pub subscription: Option<Positioned<Name>>,
}

/// A definition or an extension of a type (section 3.4).
#[derive(Clone, Debug, Drop)]
pub struct TypeDefinition {
    /// Whether it is an extension.
    pub extend: bool,
    /// The text of the description, at its opening quote. An extension has none.
    pub description: Option<Positioned<String>>,
    /// The name.
    pub name: Positioned<Name>,
    /// The directives, in source order.
    pub directives: Vec<Positioned<ConstDirective>>,
    /// The kind of the type, and its parts.
    pub kind: TypeKind,
}

/// The kind of a type, and its parts.
#[derive(Debug, Drop)]
pub enum TypeKind {
    /// `scalar` (section 3.5).
    Scalar,
    /// `type` (section 3.6).
    Object(ObjectType),
    /// `interface` (section 3.7).
    Interface(InterfaceType),
    /// `union` (section 3.8).
    Union(UnionType),
    /// `enum` (section 3.9).
    Enum(EnumType),
    /// `input` (section 3.10).
    InputObject(InputObjectType),
}

/// The parts of an object type (section 3.6).
#[derive(Clone, Debug, Drop)]
pub struct ObjectType {
    /// The names of the interfaces after `implements`, in source order.
    pub implements: Vec<Positioned<Name>>,
    /// The fields, in source order.
    pub fields: Vec<Positioned<FieldDefinition>>,
}

/// A field of an object type or of an interface.
#[derive(Clone, Debug, Drop)]
pub struct FieldDefinition {
    /// The text of the description, at its opening quote.
    pub description: Option<Positioned<String>>,
    /// The name.
    pub name: Positioned<Name>,
    /// The arguments that the field takes, in source order (section 3.6.1).
    pub arguments: Vec<Positioned<InputValueDefinition>>,
    /// The type of the field's value.
    pub ty: Positioned<Type>,
    /// The directives, in source order.
    pub directives: Vec<Positioned<ConstDirective>>,
}

/// The parts of an interface (section 3.7).
#[derive(Clone, Debug, Drop)]
pub struct InterfaceType {
    /// The names of the interfaces after `implements`, in source order.
    pub implements: Vec<Positioned<Name>>,
    /// The fields, in source order.
    pub fields: Vec<Positioned<FieldDefinition>>,
}

/// The parts of a union (section 3.8).
#[derive(Clone, Debug, Drop)]
pub struct UnionType {
    /// The names of its types, in source order.
    pub members: Vec<Positioned<Name>>,
}

/// The parts of an enum (section 3.9).
#[derive(Clone, Debug, Drop)]
pub struct EnumType {
    /// The values, in source order.
    pub values: Vec<Positioned<EnumValueDefinition>>,
}

/// A value of an enum.
#[derive(Clone, Debug, Drop)]
pub struct EnumValueDefinition {
    /// The text of the description, at its opening quote.
    pub description: Option<Positioned<String>>,
    /// The name: not `true`, `false` or `null`.
    pub value: Positioned<Name>,
    /// The directives, in source order.
    pub directives: Vec<Positioned<ConstDirective>>,
}

/// The parts of an input object (section 3.10).
#[derive(Clone, Debug, Drop)]
pub struct InputObjectType {
    /// The fields, in source order.
    pub fields: Vec<Positioned<InputValueDefinition>>,
}

/// An argument of a field or of a directive, or a field of an input object.
#[derive(Clone, Debug, Drop)]
pub struct InputValueDefinition {
    /// The text of the description, at its opening quote.
    pub description: Option<Positioned<String>>,
    /// The name.
    pub name: Positioned<Name>,
    /// The type.
    pub ty: Positioned<Type>,
    /// The value after the `=`, at its first token.
    pub default_value: Option<Positioned<ConstValue>>,
    /// The directives, in source order.
    pub directives: Vec<Positioned<ConstDirective>>,
}

/// The definition of a directive (section 3.13).
#[derive(Clone, Debug, Drop)]
pub struct DirectiveDefinition {
    /// The text of the description, at its opening quote.
    pub description: Option<Positioned<String>>,
    /// The name after the `@`.
    pub name: Positioned<Name>,
    /// The arguments that it takes, in source order.
    pub arguments: Vec<Positioned<InputValueDefinition>>,
    /// Whether one place may have it more than once: `repeatable` stands before `on`.
    pub is_repeatable: bool,
    /// The places where it may stand, in source order.
    pub locations: Vec<Positioned<DirectiveLocation>>,
}

/// A place where a directive may stand (section 3.13).
#[derive(Clone, Copy, Debug, PartialEq, Eq)]
pub enum DirectiveLocation {
    /// `QUERY`.
    Query,
    /// `MUTATION`.
    Mutation,
    /// `SUBSCRIPTION`.
    Subscription,
    /// `FIELD`.
    Field,
    /// `FRAGMENT_DEFINITION`.
    FragmentDefinition,
    /// `FRAGMENT_SPREAD`.
    FragmentSpread,
    /// `INLINE_FRAGMENT`.
    InlineFragment,
    /// `SCHEMA`.
    Schema,
    /// `SCALAR`.
    Scalar,
    /// `OBJECT`.
    Object,
    /// `FIELD_DEFINITION`.
    FieldDefinition,
    /// `ARGUMENT_DEFINITION`.
    ArgumentDefinition,
    /// `INTERFACE`.
    Interface,
    /// `UNION`.
    Union,
    /// `ENUM`.
    Enum,
    /// `ENUM_VALUE`.
    EnumValue,
    /// `INPUT_OBJECT`.
    InputObject,
    /// `INPUT_FIELD_DEFINITION`.
    InputFieldDefinition,
    /// `VARIABLE_DEFINITION`.
    VariableDefinition,
}

impl DirectiveLocation {
    /// The word of the place, as a schema file writes it: `FIELD_DEFINITION`.
    pub fn as_str(&self) -> &'static str
        ensures { result.now ≡ codes (location_word self.now) }
    {
        match self {
            DirectiveLocation::Query => "QUERY",
            DirectiveLocation::Mutation => "MUTATION",
            DirectiveLocation::Subscription => "SUBSCRIPTION",
            DirectiveLocation::Field => "FIELD",
            DirectiveLocation::FragmentDefinition => "FRAGMENT_DEFINITION",
            DirectiveLocation::FragmentSpread => "FRAGMENT_SPREAD",
            DirectiveLocation::InlineFragment => "INLINE_FRAGMENT",
            DirectiveLocation::Schema => "SCHEMA",
            DirectiveLocation::Scalar => "SCALAR",
            DirectiveLocation::Object => "OBJECT",
            DirectiveLocation::FieldDefinition => "FIELD_DEFINITION",
            DirectiveLocation::ArgumentDefinition => "ARGUMENT_DEFINITION",
            DirectiveLocation::Interface => "INTERFACE",
            DirectiveLocation::Union => "UNION",
            DirectiveLocation::Enum => "ENUM",
            DirectiveLocation::EnumValue => "ENUM_VALUE",
            DirectiveLocation::InputObject => "INPUT_OBJECT",
            DirectiveLocation::InputFieldDefinition => "INPUT_FIELD_DEFINITION",
            DirectiveLocation::VariableDefinition => "VARIABLE_DEFINITION",
        }
    }
}

/// The word of the place (October 2021, section 3.13). A width, a precision or another option of the format changes
/// nothing (this project's choice).
impl fmt::Display for DirectiveLocation {
    ghost output = { λ location. Some (codes (location_word location)) };

    ghost styled_output = { λ location _. Some (codes (location_word location)) };

    fn fmt<W: fmt::Write>(&self, f: &mut fmt::Formatter<W>) -> fmt::Result {
        f.write_str(self.as_str())
    }
}
