//! Schema files.
ghost use Rattle.std.specs.Prelude.{◌≡◌, [], codes};
ghost use Rattle.graphql_parser.specs.trees.SchemaViews.{definition_tree, directive_definition_tree, enum_value_tree, field_definition_tree, input_value_tree, kind_tree, schema_definition_tree, schema_document_tree, type_definition_tree};
ghost use Rattle.graphql_json.specs.inner.Forms.{form};
ghost use Rattle.graphql_json.specs.inner.Roots.{and_then, goes_before as goes_before_of, root_tokens};
ghost use Rattle.graphql_json.specs.inner.Words.{IsWord};
ghost use Rattle.graphql_json.specs.inner.Written.{Adds, member_tokens, optional_tokens};
ghost use Rattle.graphql_json.specs.nodes.Nodes.{items_of};
ghost use Rattle.graphql_json.specs.nodes.Schemas.{named_types_json, input_value_json, field_definition_json, enum_value_json, kind_word as kind_word_of, schema_word as schema_word_of, interfaces, contents, type_definition_json, root_json, with_root, roots_of, schema_definition_json, location_json, directive_definition_json, definition_json, document_json};
ghost use Rattle.json.specs.Json.{array, no_members, member};
ghost use Rattle.json.specs.Tree.{json_tokens, members_tokens};

use crate::place::{Place, stands_before};
use crate::sheet::{Node, Outcome, Sheet};
use crate::values::{operation_word, write_named_type, write_text};
use graphql_parser::Positioned;
use graphql_parser::types::{
    DirectiveDefinition, DirectiveLocation, EnumValueDefinition, FieldDefinition,
    InputValueDefinition, OperationType, SchemaDefinition, ServiceDocument, TypeDefinition,
    TypeKind, TypeSystemDefinition,
};
use graphql_parser::value::Name;

/// The tree of a schema file, its definitions and extensions in their order.
impl Node for ServiceDocument {
    ghost form = { form schema_document_tree document_json };

    fn write(&self, sheet: &mut Sheet, place: Place) -> Outcome {
        sheet.begin("Document", place)?;
        sheet.open_list("definitions")?;
        for definition in &self.definitions {
            write_definition(sheet, definition, place)?;
        }
        sheet.close_list()?;
        sheet.close()
    }
}

fn write_definition(sheet: &mut Sheet, definition: &TypeSystemDefinition, place: Place) -> Outcome
    ensures { Adds result sheet.old sheet.new
        (json_tokens (definition_json place (definition_tree definition.now))) }
{
    match definition {
        TypeSystemDefinition::Schema(schema) => schema.node.write(sheet, place.at(schema.pos)),
        TypeSystemDefinition::TypeDef(ty) => ty.node.write(sheet, place.at(ty.pos)),
        TypeSystemDefinition::Directive(directive) => {
            directive.node.write(sheet, place.at(directive.pos))
        }
    }
}

impl Node for SchemaDefinition {
    ghost form = { form schema_definition_tree schema_definition_json };

    fn write(&self, sheet: &mut Sheet, place: Place) -> Outcome {
        sheet.begin(schema_word(self.extend), place)?;
        sheet.optional("description", &self.description, place)?;
        sheet.nodes("directives", &self.directives, place)?;
        write_roots(sheet, self, place)?;
        sheet.close()
    }
}

fn schema_word(is_extension: bool) -> &'static str
    ensures kind { result.now ≡ schema_word_of is_extension }
    ensures word { IsWord result.now }
{
    if is_extension {
        "SchemaExtension"
    } else {
        "SchemaDefinition"
    }
}

// A kind of operation, and the name of the type that it begins at, where there is one.
type Root<'a> = (OperationType, &'a Option<Positioned<Name>>);

type Roots<'a> = (Root<'a>, Root<'a>, Root<'a>);

// The roots, in the order of their places.
fn write_roots(sheet: &mut Sheet, schema: &SchemaDefinition, place: Place) -> Outcome
    ensures { Adds result sheet.old sheet.new
        (member_tokens (codes "operationTypes")
        (array (items_of (root_json place) (roots_of (schema_definition_tree schema.now))))) }
{
    let roots = ordered_roots(schema);
    sheet.open_list("operationTypes")?;
    write_root(sheet, roots.0, place)?;
    write_root(sheet, roots.1, place)?;
    write_root(sheet, roots.2, place)?;
    sheet.close_list()
}

fn ordered_roots(schema: &SchemaDefinition) -> Roots<'_>
    ensures { and_then result.0.0 result.0.1.now
        (and_then result.1.0 result.1.1.now (and_then result.2.0 result.2.1.now []))
        ≡ roots_of (schema_definition_tree schema.now) }
{
    let query = (OperationType::Query, &schema.query);
    let mutation = (OperationType::Mutation, &schema.mutation);
    let subscription = (OperationType::Subscription, &schema.subscription);
    if goes_before(&schema.mutation, &schema.query) {
        with_third(mutation, query, subscription)
    } else {
        with_third(query, mutation, subscription)
    }
}

// The third root goes before the first whose place is larger.
fn with_third<'a>(first: Root<'a>, second: Root<'a>, third: Root<'a>) -> Roots<'a>
    ensures { and_then result.0.0 result.0.1.now
        (and_then result.1.0 result.1.1.now (and_then result.2.0 result.2.1.now []))
        ≡ with_root third.entry.0 third.entry.1.now
        (and_then first.entry.0 first.entry.1.now
        (and_then second.entry.0 second.entry.1.now [])) }
{
    if goes_before(third.1, first.1) {
        (third, first, second)
    } else if goes_before(third.1, second.1) {
        (first, third, second)
    } else {
        (first, second, third)
    }
}

// Whether both are there, and the place of the first is smaller.
fn goes_before(one: &Option<Positioned<Name>>, other: &Option<Positioned<Name>>) -> bool
    ensures { result ≡ goes_before_of one.now other.now }
{
    match (one, other) {
        (Some(one), Some(other)) => stands_before(one.pos, other.pos),
        _ => false,
    }
}

fn write_root(sheet: &mut Sheet, root: Root<'_>, place: Place) -> Outcome
    ensures { Adds result sheet.old sheet.new (root_tokens place root.entry.0 root.entry.1.now) }
{
    match root.1 {
        Some(name) => write_named_root(sheet, root.0, name, place),
        None => Ok(()),
    }
}

// The tree keeps the place of the name alone, and not that of the keyword.
fn write_named_root(
    sheet: &mut Sheet,
    kind: OperationType,
    name: &Positioned<Name>,
    place: Place,
) -> Outcome
    ensures { Adds result sheet.old sheet.new (json_tokens (root_json place (kind, name.now))) }
{
    sheet.begin("OperationTypeDefinition", place.nowhere())?;
    sheet.text("operation", operation_word(kind))?;
    sheet.key("type")?;
    write_named_type(sheet, &name.node, place.at(name.pos))?;
    sheet.close()
}

impl Node for TypeDefinition {
    ghost form = { form type_definition_tree type_definition_json };

    fn write(&self, sheet: &mut Sheet, place: Place) -> Outcome {
        let kind = kind_word(&self.kind, self.extend);
        sheet.begin_described(kind, place, &self.description, &self.name)?;
        write_interfaces(sheet, &self.kind, place)?;
        sheet.nodes("directives", &self.directives, place)?;
        write_contents(sheet, &self.kind, place)
    }
}

fn kind_word(kind: &TypeKind, is_extension: bool) -> &'static str
    ensures kind { result.now ≡ kind_word_of (kind_tree kind.now) is_extension }
    ensures word { IsWord result.now }
{
    match (kind, is_extension) {
        (TypeKind::Scalar, false) => "ScalarTypeDefinition",
        (TypeKind::Scalar, true) => "ScalarTypeExtension",
        (TypeKind::Object(_), false) => "ObjectTypeDefinition",
        (TypeKind::Object(_), true) => "ObjectTypeExtension",
        (TypeKind::Interface(_), false) => "InterfaceTypeDefinition",
        (TypeKind::Interface(_), true) => "InterfaceTypeExtension",
        (TypeKind::Union(_), false) => "UnionTypeDefinition",
        (TypeKind::Union(_), true) => "UnionTypeExtension",
        (TypeKind::Enum(_), false) => "EnumTypeDefinition",
        (TypeKind::Enum(_), true) => "EnumTypeExtension",
        (TypeKind::InputObject(_), false) => "InputObjectTypeDefinition",
        (TypeKind::InputObject(_), true) => "InputObjectTypeExtension",
    }
}

// The member `interfaces`, where the kind of type may have some.
fn write_interfaces(sheet: &mut Sheet, kind: &TypeKind, place: Place) -> Outcome
    ensures { Adds result sheet.old sheet.new
        (optional_tokens (codes "interfaces") (named_types_json place)
        (interfaces (kind_tree kind.now))) }
{
    match kind {
        TypeKind::Object(object) => {
            write_named_types(sheet, "interfaces", &object.implements, place)
        }
        TypeKind::Interface(interface) => {
            write_named_types(sheet, "interfaces", &interface.implements, place)
        }
        _ => Ok(()),
    }
}

// The member that comes last in this kind of type, and what closes the node.
fn write_contents(sheet: &mut Sheet, kind: &TypeKind, place: Place) -> Outcome
    ensures { Adds result sheet.old sheet.new
        (members_tokens (contents place (kind_tree kind.now))) }
{
    match kind {
        TypeKind::Scalar => sheet.close(),
        TypeKind::Object(object) => sheet.last("fields", &object.fields, place),
        TypeKind::Interface(interface) => sheet.last("fields", &interface.fields, place),
        TypeKind::Union(union) => write_types(sheet, &union.members, place),
        TypeKind::Enum(values) => sheet.last("values", &values.values, place),
        TypeKind::InputObject(input) => sheet.last("fields", &input.fields, place),
    }
}

// The types of a union, its last member, and what closes the node.
fn write_types(sheet: &mut Sheet, names: &Vec<Positioned<Name>>, place: Place) -> Outcome
    ensures { Adds result sheet.old sheet.new
        (members_tokens
        (member (codes "types") (named_types_json place names.now.items) no_members)) }
{
    write_named_types(sheet, "types", names, place)?;
    sheet.close()
}

// A member that is a list of types, each by its name.
fn write_named_types(
    sheet: &mut Sheet,
    key: &str,
    names: &Vec<Positioned<Name>>,
    place: Place,
) -> Outcome
    requires { IsWord key.now }
    ensures { Adds result sheet.old sheet.new
        (member_tokens key.now (named_types_json place names.now.items)) }
{
    sheet.open_list(key)?;
    for name in names {
        write_named_type(sheet, &name.node, place.at(name.pos))?;
    }
    sheet.close_list()
}

impl Node for FieldDefinition {
    ghost form = { form field_definition_tree field_definition_json };

    fn write(&self, sheet: &mut Sheet, place: Place) -> Outcome {
        sheet.begin_described("FieldDefinition", place, &self.description, &self.name)?;
        sheet.nodes("arguments", &self.arguments, place)?;
        sheet.node("type", &self.ty, place)?;
        sheet.last("directives", &self.directives, place)
    }
}

impl Node for InputValueDefinition {
    ghost form = { form input_value_tree input_value_json };

    fn write(&self, sheet: &mut Sheet, place: Place) -> Outcome {
        sheet.begin_described("InputValueDefinition", place, &self.description, &self.name)?;
        sheet.last_typed(&self.ty, &self.default_value, &self.directives, place)
    }
}

impl Node for EnumValueDefinition {
    ghost form = { form enum_value_tree enum_value_json };

    fn write(&self, sheet: &mut Sheet, place: Place) -> Outcome {
        sheet.begin_described("EnumValueDefinition", place, &self.description, &self.value)?;
        sheet.last("directives", &self.directives, place)
    }
}

impl Node for DirectiveDefinition {
    ghost form = { form directive_definition_tree directive_definition_json };

    fn write(&self, sheet: &mut Sheet, place: Place) -> Outcome {
        sheet.begin_described("DirectiveDefinition", place, &self.description, &self.name)?;
        sheet.nodes("arguments", &self.arguments, place)?;
        sheet.boolean("repeatable", self.is_repeatable)?;
        sheet.last("locations", &self.locations, place)
    }
}

/// A name, as GraphQL.js has it.
impl Node for DirectiveLocation {
    ghost form = { form (λ location. location) location_json };

    fn write(&self, sheet: &mut Sheet, place: Place) -> Outcome {
        write_text(sheet, "Name", place, self.as_str())
    }
}
