//! What requests and schema files share: names, values, arguments, directives and types.
ghost use Rattle.std.specs.Prelude.{◌++◌, map, string_bytes};
ghost use Rattle.graphql_parser.specs.calls.Views.{view_tree, list_items, object_fields};
ghost use Rattle.graphql_parser.specs.trees.PartViews.{directive_tree, const_directive_tree};
ghost use Rattle.graphql_parser.specs.trees.Parts.{placed};
ghost use Rattle.graphql_parser.specs.trees.TypeTree.{type_tree};
ghost use Rattle.graphql_parser.specs.trees.ValueTree.{list, object, trees_of, fields_of};
ghost use Rattle.graphql_parser.specs.trees.ValueViews.{value_tree, const_tree};
ghost use Rattle.graphql_packed.specs.inner.Forms.{form};
ghost use Rattle.graphql_packed.specs.inner.Written.{Adds, argument_tree, base_bytes};
ghost use Rattle.graphql_packed.specs.packed.Bytes.{choice as choice_of, list_bytes, node_bytes, text_bytes};
ghost use Rattle.graphql_packed.specs.packed.Values.{argument_with, directive_bytes, type_bytes, value_bytes};

use crate::buffer::{Buffer, Outcome, Packed};
use graphql_parser::Positioned;
use graphql_parser::types::{BaseType, ConstDirective, Directive, Type};
use graphql_parser::value::{ConstValue, ListView, Name, ObjectView, Value, ValueView};

impl Packed for Name {
    ghost form = { form (λ name. name) text_bytes };

    #[inline(always)]
    fn pack(&self, buffer: &mut Buffer) -> Outcome {
        buffer.text(self.as_str())
    }
}

impl Packed for String {
    ghost form = { form string_bytes text_bytes };

    fn pack(&self, buffer: &mut Buffer) -> Outcome {
        buffer.text(self.as_str())
    }
}

impl Packed for Value {
    ghost form = { form value_tree value_bytes };

    fn pack(&self, buffer: &mut Buffer) -> Outcome {
        pack_value(buffer, &self.as_view())
    }
}

impl Packed for ConstValue {
    ghost form = { form const_tree value_bytes };

    fn pack(&self, buffer: &mut Buffer) -> Outcome {
        pack_value(buffer, &self.as_view())
    }
}

// A choice, and a text.
fn pack_text(buffer: &mut Buffer, choice: u8, text: &str) -> Outcome
    ensures { Adds result buffer.old buffer.new (choice_of choice ++ text_bytes text.now) }
{
    buffer.choice(choice)?;
    buffer.text(text)
}

#[cycle(value)]
fn pack_value(buffer: &mut Buffer, value: &ValueView<'_>) -> Outcome
    ensures { Adds result buffer.old buffer.new (value_bytes (view_tree value.now)) }
{
    match value {
        ValueView::Variable(name) => pack_text(buffer, 0, name.as_str()),
        ValueView::Null => buffer.choice(1),
        ValueView::Number(number) => pack_text(buffer, 2, number.as_str()),
        ValueView::String(text) => pack_text(buffer, 3, text),
        ValueView::Boolean(false) => buffer.choice(4),
        ValueView::Boolean(true) => buffer.choice(5),
        ValueView::Enum(name) => pack_text(buffer, 6, name.as_str()),
        ValueView::List(items) => pack_items(buffer, items),
        ValueView::Object(fields) => pack_fields(buffer, fields),
    }
}

#[cycle(value)]
fn pack_items(buffer: &mut Buffer, items: &ListView<'_>) -> Outcome
    ensures { Adds result buffer.old buffer.new
        (value_bytes (list (trees_of (list_items items.now)))) }
{
    buffer.choice(7)?;
    buffer.number(items.len())?;
    for item in items.iter() {
        pack_value(buffer, &item)?;
    }
    Ok(())
}

#[cycle(value)]
fn pack_fields(buffer: &mut Buffer, fields: &ObjectView<'_>) -> Outcome
    ensures { Adds result buffer.old buffer.new
        (value_bytes (object (fields_of (object_fields fields.now)))) }
{
    buffer.choice(8)?;
    buffer.number(fields.len())?;
    for (name, value) in fields.iter() {
        buffer.text(name.as_str())?;
        pack_value(buffer, &value)?;
    }
    Ok(())
}

/// Arguments, each a name and a value.
pub fn pack_arguments<V: Packed>(
    buffer: &mut Buffer,
    arguments: &Vec<(Positioned<Name>, Positioned<V>)>,
) -> Outcome
    ensures { Adds result buffer.old buffer.new
        (list_bytes (argument_with V.form.bytes)
        (map (argument_tree V.form.tree) arguments.now.items)) }
{
    buffer.number(arguments.len())?;
    for argument in arguments {
        buffer.node(&argument.0)?;
        buffer.node(&argument.1)?;
    }
    Ok(())
}

// A directive: its name, and its arguments.
#[inline(always)]
fn pack_directive<V: Packed>(
    buffer: &mut Buffer,
    name: &Positioned<Name>,
    arguments: &Vec<(Positioned<Name>, Positioned<V>)>,
) -> Outcome
    ensures { Adds result buffer.old buffer.new
        (node_bytes text_bytes name.now ++
        list_bytes (argument_with V.form.bytes)
        (map (argument_tree V.form.tree) arguments.now.items)) }
{
    buffer.node(name)?;
    pack_arguments(buffer, arguments)
}

impl Packed for Directive {
    ghost form = { form directive_tree directive_bytes };

    fn pack(&self, buffer: &mut Buffer) -> Outcome {
        pack_directive(buffer, &self.name, &self.arguments)
    }
}

impl Packed for ConstDirective {
    ghost form = { form const_directive_tree directive_bytes };

    fn pack(&self, buffer: &mut Buffer) -> Outcome {
        pack_directive(buffer, &self.name, &self.arguments)
    }
}

impl Packed for Type {
    ghost form = { form type_tree type_bytes };

    fn pack(&self, buffer: &mut Buffer) -> Outcome {
        pack_type(buffer, self)
    }
}

// Whether it may be null; then the type itself, by its name or by that of its items.
#[cycle(types)]
fn pack_type(buffer: &mut Buffer, ty: &Type) -> Outcome
    ensures { Adds result buffer.old buffer.new (type_bytes (type_tree ty.now)) }
{
    buffer.flag(ty.nullable)?;
    pack_base(buffer, &ty.base)
}

#[cycle(types)]
fn pack_base(buffer: &mut Buffer, base: &BaseType) -> Outcome
    ensures { Adds result buffer.old buffer.new (base_bytes base.now) }
{
    match base {
        BaseType::Named(name) => pack_text(buffer, 0, name.as_str()),
        BaseType::List(inner) => {
            buffer.choice(1)?;
            pack_type(buffer, inner)
        }
    }
}
