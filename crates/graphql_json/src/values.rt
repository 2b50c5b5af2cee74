//! What requests and schema files share: names, values, arguments, directives and types.
ghost use Rattle.std.specs.Prelude.{◌≡◌, List, map, string_bytes, true, codes};
ghost use Rattle.std.specs.List.{list_any};
ghost use Rattle.graphql_parser.specs.calls.Views.{view_tree, list_items, object_fields};
ghost use Rattle.graphql_parser.specs.calls.Words.{operation_word as operation_word_of};
ghost use Rattle.graphql_parser.specs.trees.Parts.{placed};
ghost use Rattle.graphql_parser.specs.trees.PartViews.{directive_tree, const_directive_tree};
ghost use Rattle.graphql_parser.specs.trees.TypeTree.{base_tree, type_tree};
ghost use Rattle.graphql_parser.specs.trees.ValueTree.{variable, null, boolean, trees_of, fields_of};
ghost use Rattle.graphql_parser.specs.trees.ValueViews.{value_tree, const_tree};
ghost use Rattle.graphql_json.specs.inner.Forms.{form};
ghost use Rattle.graphql_json.specs.inner.Words.{IsWord};
ghost use Rattle.graphql_json.specs.inner.Written.{Adds, member_tokens};
ghost use Rattle.graphql_json.specs.nodes.Nodes.{items_of};
ghost use Rattle.graphql_json.specs.nodes.Values.{text_json, name_json, string_json, value_json, items_json, fields_json, field_node, argument_tree, marks_float, number_kind as number_kind_of, argument_with, directive_node, directive_json, named_type_json, type_json};
ghost use Rattle.json.specs.Json.{array};
ghost use Rattle.json.specs.Tree.{json_tokens, items_tokens};

use crate::place::Place;
use crate::sheet::{Node, Outcome, Sheet};
use graphql_parser::Positioned;
use graphql_parser::types::{BaseType, ConstDirective, Directive, OperationType, Type};
use graphql_parser::value::{ConstValue, ListView, Name, ObjectView, Value, ValueView};

impl Node for Name {
    ghost form = { form (λ name. name) name_json };

    fn write(&self, sheet: &mut Sheet, place: Place) -> Outcome {
        write_text(sheet, "Name", place, self.as_str())
    }
}

/// What a string or a block string stands for, in a description.
impl Node for String {
    ghost form = { form string_bytes string_json };

    fn write(&self, sheet: &mut Sheet, place: Place) -> Outcome {
        write_text(sheet, "StringValue", place, self.as_str())
    }
}

impl Node for Value {
    ghost form = { form value_tree value_json };

    fn write(&self, sheet: &mut Sheet, place: Place) -> Outcome {
        write_value(sheet, &self.as_view(), place)
    }
}

impl Node for ConstValue {
    ghost form = { form const_tree value_json };

    fn write(&self, sheet: &mut Sheet, place: Place) -> Outcome {
        write_value(sheet, &self.as_view(), place)
    }
}

// A node whose `value` is a text.
#[inline(always)]
pub fn write_text(sheet: &mut Sheet, kind: &str, place: Place, text: &str) -> Outcome
    requires { IsWord kind.now }
    ensures { Adds result sheet.old sheet.new (json_tokens (text_json kind.now place text.now)) }
{
    sheet.begin(kind, place)?;
    sheet.last_text(text)
}

/// A member that is a name.
pub fn write_name(sheet: &mut Sheet, name: &Name, place: Place) -> Outcome
    ensures { Adds result sheet.old sheet.new
        (member_tokens (codes "name") (name_json place name.now)) }
{
    sheet.key("name")?;
    name.write(sheet, place)
}

// A number with a fraction or an exponent is a float (section 2.9.2).
fn number_kind(literal: &str) -> &'static str
    ensures kind { result.now ≡ number_kind_of literal.now }
    ensures word { IsWord result.now }
{
    for byte in literal.as_bytes() {
        if matches!(byte, b'.' | b'e' | b'E') {
            return "FloatValue";
        }
    }
    "IntValue"
}

fn write_variable(sheet: &mut Sheet, name: &Name, place: Place) -> Outcome
    ensures { Adds result sheet.old sheet.new (json_tokens (value_json place (variable name.now))) }
{
    sheet.begin("Variable", place)?;
    write_name(sheet, name, place.nowhere())?;
    sheet.close()
}

fn write_null(sheet: &mut Sheet, place: Place) -> Outcome
    ensures { Adds result sheet.old sheet.new (json_tokens (value_json place null)) }
{
    sheet.begin("NullValue", place)?;
    sheet.close()
}

fn write_boolean(sheet: &mut Sheet, value: bool, place: Place) -> Outcome
    ensures { Adds result sheet.old sheet.new (json_tokens (value_json place (boolean value))) }
{
    sheet.begin("BooleanValue", place)?;
    sheet.boolean("value", value)?;
    sheet.close()
}

// What is inside a list or an object has no place of its own.
#[cycle(value)]
fn write_value(sheet: &mut Sheet, value: &ValueView<'_>, place: Place) -> Outcome
    ensures { Adds result sheet.old sheet.new
        (json_tokens (value_json place (view_tree value.now))) }
{
    match value {
        ValueView::Variable(name) => write_variable(sheet, name, place),
        ValueView::Null => write_null(sheet, place),
        ValueView::Number(number) => {
            let literal = number.as_str();
            write_text(sheet, number_kind(literal), place, literal)
        }
        ValueView::String(text) => write_text(sheet, "StringValue", place, text),
        ValueView::Boolean(value) => write_boolean(sheet, *value, place),
        ValueView::Enum(name) => write_text(sheet, "EnumValue", place, name.as_str()),
        ValueView::List(items) => {
            sheet.begin("ListValue", place)?;
            sheet.open_list("values")?;
            write_items(sheet, items, place.nowhere())?;
            sheet.close()
        }
        ValueView::Object(fields) => {
            sheet.begin("ObjectValue", place)?;
            sheet.open_list("fields")?;
            write_fields(sheet, fields, place.nowhere())?;
            sheet.close()
        }
    }
}

// The items of a list, and what closes it.
#[cycle(value)]
fn write_items(sheet: &mut Sheet, items: &ListView<'_>, place: Place) -> Outcome
    ensures { Adds result sheet.old sheet.new
        (items_tokens (items_json place (trees_of (list_items items.now)))) }
{
    for item in items.iter() {
        write_value(sheet, &item, place)?;
    }
    sheet.close_list()
}

// The fields of an object, and what closes their list.
#[cycle(value)]
fn write_fields(sheet: &mut Sheet, fields: &ObjectView<'_>, place: Place) -> Outcome
    ensures { Adds result sheet.old sheet.new
        (items_tokens (fields_json place (fields_of (object_fields fields.now)))) }
{
    for (name, value) in fields.iter() {
        write_field(sheet, name, &value, place)?;
    }
    sheet.close_list()
}

#[cycle(value)]
fn write_field(sheet: &mut Sheet, name: &Name, value: &ValueView<'_>, place: Place) -> Outcome
    ensures { Adds result sheet.old sheet.new
        (json_tokens (field_node place name.now (value_json place (view_tree value.now)))) }
{
    sheet.begin("ObjectField", place)?;
    write_name(sheet, name, place)?;
    sheet.key("value")?;
    write_value(sheet, value, place)?;
    sheet.close()
}

/// The member `arguments`. An argument stands at its name.
pub fn write_arguments<V: Node>(
    sheet: &mut Sheet,
    arguments: &Vec<(Positioned<Name>, Positioned<V>)>,
    place: Place,
) -> Outcome
    ensures { Adds result sheet.old sheet.new
        (member_tokens (codes "arguments")
        (array (items_of (argument_with V.form.json place)
        (map (argument_tree V.form.tree) arguments.now.items)))) }
{
    if arguments.is_empty() {
        return sheet.empty_list("arguments");
    }
    sheet.open_list("arguments")?;
    for argument in arguments {
        write_argument(sheet, &argument.0, &argument.1, place)?;
    }
    sheet.close_list()
}

fn write_argument<V: Node>(
    sheet: &mut Sheet,
    name: &Positioned<Name>,
    value: &Positioned<V>,
    place: Place,
) -> Outcome
    ensures { Adds result sheet.old sheet.new
        (json_tokens (argument_with V.form.json place (name.now, placed V.form.tree value.now))) }
{
    sheet.begin("Argument", place.at(name.pos))?;
    sheet.node("name", name, place)?;
    sheet.node("value", value, place)?;
    sheet.close()
}

impl Node for Directive {
    ghost form = { form directive_tree directive_json };

    fn write(&self, sheet: &mut Sheet, place: Place) -> Outcome {
        write_directive(sheet, &self.name, &self.arguments, place)
    }
}

impl Node for ConstDirective {
    ghost form = { form const_directive_tree directive_json };

    fn write(&self, sheet: &mut Sheet, place: Place) -> Outcome {
        write_directive(sheet, &self.name, &self.arguments, place)
    }
}

fn write_directive<V: Node>(
    sheet: &mut Sheet,
    name: &Positioned<Name>,
    arguments: &Vec<(Positioned<Name>, Positioned<V>)>,
    place: Place,
) -> Outcome
    ensures { Adds result sheet.old sheet.new
        (json_tokens
        (directive_node place name.now
        (array (items_of (argument_with V.form.json place)
        (map (argument_tree V.form.tree) arguments.now.items))))) }
{
    sheet.begin("Directive", place)?;
    sheet.node("name", name, place)?;
    write_arguments(sheet, arguments, place)?;
    sheet.close()
}

/// A type that is named.
pub fn write_named_type(sheet: &mut Sheet, name: &Name, place: Place) -> Outcome
    ensures { Adds result sheet.old sheet.new (json_tokens (named_type_json place name.now)) }
{
    sheet.begin("NamedType", place)?;
    write_name(sheet, name, place)?;
    sheet.close()
}

impl Node for Type {
    ghost form = { form type_tree type_json };

    fn write(&self, sheet: &mut Sheet, place: Place) -> Outcome {
        write_type(sheet, self, place)
    }
}

// A type and what it is of without its mark stand at one place; the types inside a list have none.
#[cycle(types)]
fn write_type(sheet: &mut Sheet, ty: &Type, place: Place) -> Outcome
    ensures { Adds result sheet.old sheet.new (json_tokens (type_json place (type_tree ty.now))) }
{
    if ty.nullable {
        return write_base(sheet, &ty.base, place);
    }
    sheet.begin("NonNullType", place)?;
    sheet.key("type")?;
    write_base(sheet, &ty.base, place)?;
    sheet.close()
}

#[cycle(types)]
fn write_base(sheet: &mut Sheet, base: &BaseType, place: Place) -> Outcome
    ensures { Adds result sheet.old sheet.new
        (json_tokens (type_json place (base_tree base.now true))) }
{
    match base {
        BaseType::Named(name) => write_named_type(sheet, name, place),
        BaseType::List(inner) => {
            sheet.begin("ListType", place)?;
            sheet.key("type")?;
            write_type(sheet, inner, place.nowhere())?;
            sheet.close()
        }
    }
}

/// The keyword of a kind of operation.
pub fn operation_word(kind: OperationType) -> &'static str
    ensures { result.now ≡ operation_word_of kind }
{
    match kind {
        OperationType::Query => "query",
        OperationType::Mutation => "mutation",
        OperationType::Subscription => "subscription",
    }
}
