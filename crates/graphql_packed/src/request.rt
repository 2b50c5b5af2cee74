//! Requests.
ghost use Rattle.std.specs.Prelude.{◌≡◌};
ghost use Rattle.graphql_parser.specs.trees.Parts.{placed};
ghost use Rattle.graphql_parser.specs.trees.Request.{of_field, of_inline_fragment};
ghost use Rattle.graphql_parser.specs.trees.RequestViews.{document_tree, field_tree, fragment_spread_tree, fragment_tree, inline_fragment_tree, operation_tree, selection_tree, selection_set_tree, type_condition_tree, variable_definition_tree};
ghost use Rattle.graphql_packed.specs.inner.Forms.{form};
ghost use Rattle.graphql_packed.specs.inner.Written.{Adds, lent_name};
ghost use Rattle.graphql_packed.specs.packed.Bytes.{node_bytes, optional_bytes, text_bytes};
ghost use Rattle.graphql_packed.specs.packed.Requests.{condition_bytes, fragment_bytes, operation_bytes, operation_number as number_of_kind, request_bytes, selection_bytes, set_bytes, spread_bytes, variable_bytes};

use crate::buffer::{Buffer, Outcome, Packed};
use crate::values::pack_arguments;
use graphql_parser::Positioned;
use graphql_parser::types::{
    ExecutableDocument, Field, FragmentDefinition, FragmentSpread, InlineFragment,
    OperationDefinition, OperationType, Selection, SelectionSet, TypeCondition, VariableDefinition,
};
use graphql_parser::value::Name;

/// The tree of a request: its operations, each with its name if it has one, and its fragments.
#[tactic(auto, using(graphql_trees::proofs::Requests::operations_walked))]
pub fn pack_document(buffer: &mut Buffer, document: &ExecutableDocument) -> Outcome
    ensures { Adds result buffer.old buffer.new (request_bytes (document_tree document.now)) }
{
    buffer.number(document.operations.iter().len())?;
    for (name, operation) in document.operations.iter() {
        pack_optional_name(buffer, name)?;
        buffer.node(operation)?;
    }
    buffer.number(document.fragments.len())?;
    for (name, fragment) in document.fragments.iter() {
        buffer.text(name.as_str())?;
        buffer.node(fragment)?;
    }
    Ok(())
}

fn pack_optional_name(buffer: &mut Buffer, name: Option<&Name>) -> Outcome
    ensures { Adds result buffer.old buffer.new (optional_bytes text_bytes (lent_name name.entry)) }
{
    buffer.flag(name.is_some())?;
    match name {
        Some(name) => buffer.text(name.as_str()),
        None => Ok(()),
    }
}

impl Packed for OperationDefinition {
    ghost form = { form operation_tree operation_bytes };

    fn pack(&self, buffer: &mut Buffer) -> Outcome {
        buffer.choice(operation_number(self.ty))?;
        buffer.nodes(&self.variable_definitions)?;
        buffer.nodes(&self.directives)?;
        pack_set(buffer, &self.selection_set)
    }
}

// The number of a kind of operation.
fn operation_number(kind: OperationType) -> u8
    ensures { result ≡ number_of_kind kind }
{
    match kind {
        OperationType::Query => 0,
        OperationType::Mutation => 1,
        OperationType::Subscription => 2,
    }
}

impl Packed for VariableDefinition {
    ghost form = { form variable_definition_tree variable_bytes };

    fn pack(&self, buffer: &mut Buffer) -> Outcome {
        buffer.node(&self.name)?;
        buffer.node(&self.var_type)?;
        buffer.optional(&self.default_value)?;
        buffer.nodes(&self.directives)
    }
}

impl Packed for FragmentDefinition {
    ghost form = { form fragment_tree fragment_bytes };

    fn pack(&self, buffer: &mut Buffer) -> Outcome {
        buffer.node(&self.type_condition)?;
        buffer.nodes(&self.directives)?;
        pack_set(buffer, &self.selection_set)
    }
}

impl Packed for TypeCondition {
    ghost form = { form type_condition_tree condition_bytes };

    fn pack(&self, buffer: &mut Buffer) -> Outcome {
        buffer.node(&self.on)
    }
}

// A selection set, with its place.
#[cycle(set)]
fn pack_set(buffer: &mut Buffer, set: &Positioned<SelectionSet>) -> Outcome
    ensures { Adds result buffer.old buffer.new
        (node_bytes set_bytes (placed selection_set_tree set.now)) }
{
    buffer.place(set.pos)?;
    pack_selections(buffer, &set.node)
}

#[cycle(set)]
fn pack_selections(buffer: &mut Buffer, set: &SelectionSet) -> Outcome
    ensures { Adds result buffer.old buffer.new (set_bytes (selection_set_tree set.now)) }
{
    buffer.number(set.items.len())?;
    for item in &set.items {
        pack_selection(buffer, &item.node)?;
    }
    Ok(())
}

#[cycle(set)]
fn pack_selection(buffer: &mut Buffer, selection: &Selection) -> Outcome
    ensures { Adds result buffer.old buffer.new (selection_bytes (selection_tree selection.now)) }
{
    match selection {
        Selection::Field(field) => pack_field(buffer, field),
        Selection::FragmentSpread(spread) => {
            buffer.choice(1)?;
            buffer.node(spread)
        }
        Selection::InlineFragment(fragment) => pack_inline_fragment(buffer, fragment),
    }
}

#[cycle(set)]
fn pack_field(buffer: &mut Buffer, field: &Positioned<Field>) -> Outcome
    ensures { Adds result buffer.old buffer.new
        (selection_bytes (of_field (placed field_tree field.now))) }
{
    buffer.choice(0)?;
    buffer.place(field.pos)?;
    buffer.optional(&field.node.alias)?;
    buffer.node(&field.node.name)?;
    pack_arguments(buffer, &field.node.arguments)?;
    buffer.nodes(&field.node.directives)?;
    pack_set(buffer, &field.node.selection_set)
}

impl Packed for FragmentSpread {
    ghost form = { form fragment_spread_tree spread_bytes };

    fn pack(&self, buffer: &mut Buffer) -> Outcome {
        buffer.node(&self.fragment_name)?;
        buffer.nodes(&self.directives)
    }
}

#[cycle(set)]
fn pack_inline_fragment(buffer: &mut Buffer, fragment: &Positioned<InlineFragment>) -> Outcome
    ensures { Adds result buffer.old buffer.new
        (selection_bytes (of_inline_fragment (placed inline_fragment_tree fragment.now))) }
{
    buffer.choice(2)?;
    buffer.place(fragment.pos)?;
    buffer.optional(&fragment.node.type_condition)?;
    buffer.nodes(&fragment.node.directives)?;
    pack_set(buffer, &fragment.node.selection_set)
}
