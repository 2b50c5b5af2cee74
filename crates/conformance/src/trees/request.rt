//! The tree of a request, as text.
use crate::trees::parts::{
    write_arguments, write_default, write_directives, write_node, write_places,
};
use crate::trees::values::Written;
use graphql_syntax::pos::{Pos, Positioned};
use graphql_syntax::types::Directive;
use graphql_trees::{
    DocumentOperations, ExecutableDocument, Field, InlineFragment, OperationDefinition, Selection,
    SelectionSet, TypeCondition, VariableDefinition,
};
use rows::Shown;
use std::borrow::Cow;

/// The tree of a request: its operations, and then its fragments, each after its name.
impl Written for ExecutableDocument {
    fn write(&self, shown: &mut Shown) {
        shown.word(match &self.operations {
            DocumentOperations::Single(_) => "single",
            DocumentOperations::Multiple(_) => "multiple",
        });
        for (name, operation) in self.operations.iter() {
            if let Some(name) = name {
                shown.item(" ", name);
            }
            write_operation(shown, operation);
        }
        for (name, fragment) in self.fragments.iter() {
            shown.item(" ", name);
            shown.place(" (fragment ", &fragment.pos);
            let fragment = &fragment.node;
            write_condition(shown, &fragment.type_condition);
            write_rest(shown, &fragment.directives, &fragment.selection_set);
        }
    }
}

/// The default value that a variable has in effect, after whether it is lent or made; or that it has none.
pub fn write_default_value(shown: &mut Shown, variable: &VariableDefinition) {
    match variable.default_value() {
        None => shown.word(" none"),
        Some(Cow::Borrowed(value)) => {
            shown.word(" lent ");
            value.write(shown);
        }
        Some(Cow::Owned(value)) => {
            shown.word(" made ");
            value.write(shown);
        }
    }
}

fn write_operation(shown: &mut Shown, operation: &Positioned<OperationDefinition>) {
    shown.item(" (", &operation.node.ty);
    shown.place(" ", &operation.pos);
    let operation = &operation.node;
    for variable in &operation.variable_definitions {
        shown.place(" (variable ", &variable.pos);
        write_node(shown, " ", &variable.node.name);
        write_node(shown, " ", &variable.node.var_type);
        write_default(shown, &variable.node.default_value);
        write_directives(shown, &variable.node.directives);
        shown.word(")");
    }
    write_rest(shown, &operation.directives, &operation.selection_set);
}

fn write_condition(shown: &mut Shown, condition: &Positioned<TypeCondition>) {
    shown.place(" (on ", &condition.pos);
    write_node(shown, " ", &condition.node.on);
    shown.word(")");
}

// What an operation, a fragment or a selection ends with: its directives, and what it selects.
#[cycle(set)]
fn write_rest(
    shown: &mut Shown,
    directives: &Vec<Positioned<Directive>>,
    set: &Positioned<SelectionSet>,
) {
    write_directives(shown, directives);
    write_set(shown, set);
    shown.word(")");
}

// Nothing is written for a set that a text leaves out.
#[cycle(set)]
fn write_set(shown: &mut Shown, set: &Positioned<SelectionSet>) {
    if set.node.items.is_empty() && set.pos == Pos::default() {
        return;
    }
    shown.place(" {", &set.pos);
    for item in &set.node.items {
        match &item.node {
            Selection::Field(field) => write_field(shown, item.pos, field),
            Selection::InlineFragment(fragment) => write_inline(shown, item.pos, fragment),
            Selection::FragmentSpread(spread) => {
                write_places(shown, " (spread ", item.pos, spread.pos);
                write_node(shown, " ", &spread.node.fragment_name);
                write_directives(shown, &spread.node.directives);
                shown.word(")");
            }
        }
    }
    shown.word("}");
}

#[cycle(set)]
fn write_field(shown: &mut Shown, outer: Pos, field: &Positioned<Field>) {
    write_places(shown, " (field ", outer, field.pos);
    if let Some(alias) = &field.node.alias {
        write_node(shown, " alias ", alias);
    }
    write_node(shown, " ", &field.node.name);
    write_arguments(shown, &field.node.arguments);
    write_rest(shown, &field.node.directives, &field.node.selection_set);
}

#[cycle(set)]
fn write_inline(shown: &mut Shown, outer: Pos, fragment: &Positioned<InlineFragment>) {
    write_places(shown, " (inline ", outer, fragment.pos);
    let fragment = &fragment.node;
    if let Some(condition) = &fragment.type_condition {
        write_condition(shown, condition);
    }
    write_rest(shown, &fragment.directives, &fragment.selection_set);
}
