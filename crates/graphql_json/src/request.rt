//! Requests.
ghost use Rattle.std.specs.Prelude.{◌≡◌, ◌++◌, List, IfOk, OnOk, map, drop, codes};
ghost use Rattle.graphql_parser.specs.trees.Parts.{placed};
ghost use Rattle.graphql_parser.specs.trees.Request.{of_field, of_inline_fragment};
ghost use Rattle.graphql_parser.specs.trees.RequestViews.{document_tree, entry_tree, field_tree, fragment_spread_tree, fragment_tree, inline_fragment_tree, operation_tree, selection_tree, selection_set_tree, type_condition_tree, variable_definition_tree};
ghost use Rattle.graphql_json.specs.inner.Forms.{form};
ghost use Rattle.graphql_json.specs.inner.Written.{Adds, lent_name, member_tokens, optional_tokens};
ghost use Rattle.graphql_json.specs.nodes.Nodes.{at, nowhere, node, items_of, placed_json};
ghost use Rattle.graphql_json.specs.nodes.Requests.{Fragment as FragmentTree, after_fragments, condition_json, document_json, fragment_json, operation_json, selection_json, selections_json, set_json, set_node, some_of, spread_json, variable_json};
ghost use Rattle.graphql_json.specs.nodes.Values.{name_json};
ghost use Rattle.json.specs.Json.{Json, Items, no_items, item, array, member, no_members};
ghost use Rattle.json.specs.Tree.{json_tokens, items_tokens};

use crate::place::{Place, stands_before};
use crate::sheet::{Node, Outcome, Sheet};
use crate::values::{operation_word, write_arguments, write_name, write_named_type};
use graphql_parser::types::{
    ExecutableDocument, Field, FragmentDefinition, FragmentSpread, InlineFragment, NameMap,
    OperationDefinition, Selection, SelectionSet, TypeCondition, VariableDefinition,
};
use graphql_parser::value::Name;
use graphql_parser::{Pos, Positioned};
use std::alloc::AllocError;

/// The tree of a request: its operations in their order and its fragments in theirs, merged by their places. Each operation
/// comes after the fragments whose places are smaller.
impl Node for ExecutableDocument {
    ghost form = { form document_tree document_json };

    #[tactic(auto, using(graphql_trees::proofs::Requests::operations_walked))]
    fn write(&self, sheet: &mut Sheet, place: Place) -> Outcome {
        sheet.begin("Document", place)?;
        sheet.open_list("definitions")?;
        let fragments = &self.fragments;
        let mut next = 0;
        for (name, operation) in self.operations.iter() {
            next = write_fragments_before(sheet, fragments, next, operation.pos, place)?;
            write_operation(sheet, name, operation, place)?;
        }
        write_fragments(sheet, fragments, next, place)?;
        sheet.close_list()?;
        sheet.close()
    }
}

// The fragments from an index on whose places are smaller than one. Gives the index of the first whose isn't.
fn write_fragments_before(
    sheet: &mut Sheet,
    fragments: &NameMap<Positioned<FragmentDefinition>>,
    from: usize,
    pos: Pos,
    place: Place,
) -> Result<usize, AllocError>
    ensures { IfOk result (λ next. (definition : Json) → (others : List FragmentTree → Items) →
        sheet.new ++ items_tokens (item definition (others (map (entry_tree fragment_tree) (drop next fragments.now.entries))))
        ≡ sheet.old ++ items_tokens (after_fragments place pos definition others (map (entry_tree fragment_tree) (drop from fragments.now.entries)))) }
{
    for index in from..fragments.len() {
        let Some((name, fragment)) = fragments.get_index(index) else {
            return Ok(index);
        };
        if !stands_before(fragment.pos, pos) {
            return Ok(index);
        }
        write_fragment(sheet, name, fragment, place)?;
    }
    Ok(fragments.len())
}

// The fragments from an index on.
fn write_fragments(
    sheet: &mut Sheet,
    fragments: &NameMap<Positioned<FragmentDefinition>>,
    from: usize,
    place: Place,
) -> Outcome
    ensures { OnOk result (sheet.new ++ items_tokens no_items ≡ sheet.old ++
        items_tokens
        (items_of (fragment_json place)
        (map (entry_tree fragment_tree) (drop from fragments.now.entries)))) }
{
    for index in from..fragments.len() {
        let Some((name, fragment)) = fragments.get_index(index) else {
            return Ok(());
        };
        write_fragment(sheet, name, fragment, place)?;
    }
    Ok(())
}

fn write_operation(
    sheet: &mut Sheet,
    name: Option<&Name>,
    operation: &Positioned<OperationDefinition>,
    place: Place,
) -> Outcome
    ensures { Adds result sheet.old sheet.new
        (json_tokens
        (operation_json place (lent_name name.entry, placed operation_tree operation.now))) }
{
    sheet.begin("OperationDefinition", place.at(operation.pos))?;
    sheet.text("operation", operation_word(operation.node.ty))?;
    write_optional_name(sheet, name, place)?;
    sheet.nodes(
        "variableDefinitions",
        &operation.node.variable_definitions,
        place,
    )?;
    sheet.nodes("directives", &operation.node.directives, place)?;
    write_set(sheet, &operation.node.selection_set, place)?;
    sheet.close()
}

fn write_optional_name(sheet: &mut Sheet, name: Option<&Name>, place: Place) -> Outcome
    ensures { Adds result sheet.old sheet.new
        (optional_tokens (codes "name") (name_json (nowhere place)) (lent_name name.entry)) }
{
    match name {
        Some(name) => write_name(sheet, name, place.nowhere()),
        None => Ok(()),
    }
}

fn write_fragment(
    sheet: &mut Sheet,
    name: &Name,
    fragment: &Positioned<FragmentDefinition>,
    place: Place,
) -> Outcome
    ensures { Adds result sheet.old sheet.new
        (json_tokens (fragment_json place (name.now, placed fragment_tree fragment.now))) }
{
    sheet.begin("FragmentDefinition", place.at(fragment.pos))?;
    write_name(sheet, name, place.nowhere())?;
    sheet.node("typeCondition", &fragment.node.type_condition, place)?;
    sheet.nodes("directives", &fragment.node.directives, place)?;
    write_set(sheet, &fragment.node.selection_set, place)?;
    sheet.close()
}

/// The variable stands at its `$`, as its definition does.
impl Node for VariableDefinition {
    ghost form = { form variable_definition_tree variable_json };

    fn write(&self, sheet: &mut Sheet, place: Place) -> Outcome {
        sheet.begin("VariableDefinition", place)?;
        sheet.key("variable")?;
        write_variable(sheet, &self.name, place)?;
        sheet.last_typed(&self.var_type, &self.default_value, &self.directives, place)
    }
}

fn write_variable(sheet: &mut Sheet, name: &Positioned<Name>, place: Place) -> Outcome
    ensures { Adds result sheet.old sheet.new
        (json_tokens
        (node (codes "Variable") place
        (member (codes "name") (placed_json name_json place name.now) no_members))) }
{
    sheet.begin("Variable", place)?;
    sheet.node("name", name, place)?;
    sheet.close()
}

/// The type that a fragment applies to stands at its name.
impl Node for TypeCondition {
    ghost form = { form type_condition_tree condition_json };

    fn write(&self, sheet: &mut Sheet, place: Place) -> Outcome {
        write_named_type(sheet, &self.on.node, place.at(self.on.pos))
    }
}

// The member `selectionSet`.
#[cycle(set)]
fn write_set(sheet: &mut Sheet, set: &Positioned<SelectionSet>, place: Place) -> Outcome
    ensures { Adds result sheet.old sheet.new
        (member_tokens (codes "selectionSet")
        (set_json place (placed selection_set_tree set.now))) }
{
    sheet.key("selectionSet")?;
    sheet.begin("SelectionSet", place.at(set.pos))?;
    write_selections(sheet, &set.node, place)?;
    sheet.close()
}

#[cycle(set)]
fn write_selections(sheet: &mut Sheet, set: &SelectionSet, place: Place) -> Outcome
    ensures { Adds result sheet.old sheet.new
        (member_tokens (codes "selections")
        (array (selections_json place (selection_set_tree set.now)))) }
{
    sheet.open_list("selections")?;
    for item in &set.items {
        write_selection(sheet, &item.node, place)?;
    }
    sheet.close_list()
}

#[cycle(set)]
fn write_selection(sheet: &mut Sheet, selection: &Selection, place: Place) -> Outcome
    ensures { Adds result sheet.old sheet.new
        (json_tokens (selection_json place (selection_tree selection.now))) }
{
    match selection {
        Selection::Field(field) => write_field(sheet, field, place),
        Selection::FragmentSpread(spread) => spread.node.write(sheet, place.at(spread.pos)),
        Selection::InlineFragment(fragment) => write_inline_fragment(sheet, fragment, place),
    }
}

#[cycle(set)]
fn write_field(sheet: &mut Sheet, field: &Positioned<Field>, place: Place) -> Outcome
    ensures { Adds result sheet.old sheet.new
        (json_tokens (selection_json place (of_field (placed field_tree field.now)))) }
{
    sheet.begin("Field", place.at(field.pos))?;
    sheet.optional("alias", &field.node.alias, place)?;
    sheet.node("name", &field.node.name, place)?;
    write_arguments(sheet, &field.node.arguments, place)?;
    sheet.nodes("directives", &field.node.directives, place)?;
    write_optional_set(sheet, &field.node.selection_set, place)?;
    sheet.close()
}

// A field that selects nothing has no `selectionSet`.
#[cycle(set)]
fn write_optional_set(sheet: &mut Sheet, set: &Positioned<SelectionSet>, place: Place) -> Outcome
    ensures { Adds result sheet.old sheet.new
        (optional_tokens (codes "selectionSet") (set_node (at place set.now.pos))
        (some_of (selections_json place (selection_set_tree set.now.node)))) }
{
    if set.node.items.is_empty() {
        return Ok(());
    }
    write_set(sheet, set, place)
}

impl Node for FragmentSpread {
    ghost form = { form fragment_spread_tree spread_json };

    fn write(&self, sheet: &mut Sheet, place: Place) -> Outcome {
        sheet.begin("FragmentSpread", place)?;
        sheet.node("name", &self.fragment_name, place)?;
        sheet.last("directives", &self.directives, place)
    }
}

#[cycle(set)]
fn write_inline_fragment(
    sheet: &mut Sheet,
    fragment: &Positioned<InlineFragment>,
    place: Place,
) -> Outcome
    ensures { Adds result sheet.old sheet.new
        (json_tokens
        (selection_json place (of_inline_fragment (placed inline_fragment_tree fragment.now)))) }
{
    sheet.begin("InlineFragment", place.at(fragment.pos))?;
    sheet.optional("typeCondition", &fragment.node.type_condition, place)?;
    sheet.nodes("directives", &fragment.node.directives, place)?;
    write_set(sheet, &fragment.node.selection_set, place)?;
    sheet.close()
}
