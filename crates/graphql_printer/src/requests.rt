//! Requests, printed as tokens.
ghost use Rattle.std.specs.Prelude.{◌≡◌, ◌++◌, ◌∷◌, [], List, IfOk, OnOk, string_bytes, codes, map, drop, flat_map, option_map};
ghost use Rattle.graphql_syntax.specs.trees.Parts.{placed};
ghost use Rattle.graphql_trees.specs.trees.Request.{of_field, of_inline_fragment};
ghost use Rattle.graphql_trees.specs.trees.RequestViews.{document_tree, entry_tree, field_tree, fragment_spread_tree, fragment_tree, inline_fragment_tree, operation_tree, selection_tree, selection_set_tree, type_condition_tree, variable_definition_tree};
ghost use Rattle.graphql_requests.specs.grammar.Documents.{document_of};
ghost use Rattle.graphql_requests.specs.grammar.Request.{Definition};
ghost use Rattle.graphql_requests.specs.grammar.Requests.{requests};
ghost use Rattle.graphql_printer.specs.Controls.{HasClearTokens};
ghost use Rattle.graphql_printer.specs.Printed.{IsPrinted};
ghost use Rattle.graphql_printer.specs.inner.Prints.{Prints, form};
ghost use Rattle.graphql_printer.specs.inner.Shown.{by_values, sign as sign_token, shown_node, shown_part};
ghost use Rattle.graphql_printer.specs.inner.ShownRequests.{Fragment as FragmentTree, a_fragment, after_fragments, is_short as is_short_tree, lent_name, shown_alias, shown_condition, shown_definition, shown_fragment, shown_full, shown_name, shown_operation, shown_request, shown_selection, shown_selections, shown_set, shown_spread, shown_variable};

use crate::nodes::{Outcome, Print, close, each, in_parentheses, maybe, open, sign, word};
use crate::parts::{operation_word, print_arguments, print_default};
use crate::places::stands_before;
use crate::widths::is_long;
use crate::writer::Writer;
use graphql_syntax::types::OperationType;
use graphql_syntax::value::Name;
use graphql_tokens::pos::{Pos, Positioned};
use graphql_trees::{
    ExecutableDocument, Field, FragmentDefinition, FragmentSpread, InlineFragment, NameMap,
    OperationDefinition, Selection, SelectionSet, TypeCondition, VariableDefinition,
};
use std::alloc::{AllocError, Global};

/// The request as text, laid out as [`format_query`](crate::format_query) lays texts out: its operations and fragments, where
/// an operation comes before the next fragment unless the fragment's place is smaller. Strings are printed between single
/// quotes, with escapes for control characters, and a query without a name, variables and directives as its selection set alone.
///
/// If a text has this tree but for places, what is printed has it, too, within the same limits: a tree that is made by hand may
/// have any places. Every other tree is printed as it is; from the first name on that is invalid nothing is laid out, and each
/// token has a blank after it.
///
/// It fails only where memory runs out.
pub fn print_query(alloc: Global, document: &ExecutableDocument) -> Result<String, AllocError>
    // If the tree is that of a text within some limits but for places, the printed text has the same within them.
    ensures printed { IfOk result (λ s. IsPrinted requests document_of document.now (string_bytes s)) }
    // Its strings have escapes for control characters.
    ensures clear { IfOk result (λ s. HasClearTokens requests document.now (string_bytes s)) }
{
    let mut tokens = Writer::new(alloc);
    print_request(&mut tokens, document)?;
    tokens.finish()
}

// Prints a request: its operations in their order and its fragments in theirs, each operation after the fragments whose
// places are smaller.
#[tactic(auto, using(graphql_trees::proofs::Requests::operations_walked))]
fn print_request(out: &mut Writer, document: &ExecutableDocument) -> Outcome
    ensures { Prints result out.old out.new
        (shown_request (document_tree document.now)) }
{
    let fragments = &document.fragments;
    let mut next = 0;
    for (name, operation) in document.operations.iter() {
        next = print_fragments_before(out, fragments, next, operation.pos)?;
        print_operation(out, name, &operation.node)?;
    }
    print_fragments(out, fragments, next)
}

// The fragments from an index on whose places are smaller than one. Gives the index of the first whose isn't.
fn print_fragments_before(
    out: &mut Writer,
    fragments: &NameMap<Positioned<FragmentDefinition>>,
    from: usize,
    pos: Pos,
) -> Result<usize, AllocError>
    ensures { IfOk result (λ next. (definition : Definition) → (others : List FragmentTree → List Definition) →
        out.new ++ by_values (flat_map shown_definition
        (definition ∷ others (map (entry_tree fragment_tree) (drop next fragments.now.entries))))
        ≡ out.old ++ by_values (flat_map shown_definition
        (after_fragments pos definition others (map (entry_tree fragment_tree) (drop from fragments.now.entries))))) }
{
    for index in from..fragments.len() {
        let Some((name, fragment)) = fragments.get_index(index) else {
            return Ok(index);
        };
        if !stands_before(fragment.pos, pos) {
            return Ok(index);
        }
        print_fragment(out, name, &fragment.node)?;
    }
    Ok(fragments.len())
}

// The fragments from an index on.
fn print_fragments(
    out: &mut Writer,
    fragments: &NameMap<Positioned<FragmentDefinition>>,
    from: usize,
) -> Outcome
    ensures { OnOk result (out.new ++ by_values [] ≡ out.old ++ by_values
        (flat_map shown_definition
        (map a_fragment (map (entry_tree fragment_tree) (drop from fragments.now.entries))))) }
{
    for index in from..fragments.len() {
        let Some((name, fragment)) = fragments.get_index(index) else {
            return Ok(());
        };
        print_fragment(out, name, &fragment.node)?;
    }
    Ok(())
}

fn print_operation(
    out: &mut Writer,
    name: Option<&Name>,
    operation: &OperationDefinition,
) -> Outcome
    ensures { Prints result out.old out.new
        (shown_operation (lent_name name.entry) (operation_tree operation.now)) }
{
    if is_short(name, operation) {
        return print_short(out, &operation.selection_set.node);
    }
    print_in_full(out, name, operation)
}

// Whether its set alone is printed: it is a query without a name, variables and directives.
fn is_short(name: Option<&Name>, operation: &OperationDefinition) -> bool
    ensures { result ≡ is_short_tree (lent_name name.entry) (operation_tree operation.now) }
{
    matches!(operation.ty, OperationType::Query)
        && name.is_none()
        && operation.variable_definitions.is_empty()
        && operation.directives.is_empty()
}

fn print_in_full(out: &mut Writer, name: Option<&Name>, operation: &OperationDefinition) -> Outcome
    ensures { Prints result out.old out.new
        (shown_full (lent_name name.entry) (operation_tree operation.now)) }
{
    out.begin_definition()?;
    word(out, operation_word(operation.ty))?;
    print_optional_name(out, name)?;
    part_variables(out, name, operation)?;
    in_parentheses(out, &operation.variable_definitions, false)?;
    each(out, &operation.directives)?;
    print_set(out, &operation.selection_set.node)
}

fn print_optional_name(out: &mut Writer, name: Option<&Name>) -> Outcome
    ensures { Prints result out.old out.new
        (shown_part shown_name (lent_name name.entry)) }
{
    let Some(name) = name else {
        return Ok(());
    };
    out.blank()?;
    word(out, name.as_str())
}

// Variables stand apart from a keyword, and touch a name.
fn part_variables(out: &mut Writer, name: Option<&Name>, operation: &OperationDefinition) -> Outcome
    ensures { out.new ≡ out.old }
{
    if name.is_some() || operation.variable_definitions.is_empty() {
        return Ok(());
    }
    out.blank()
}

fn print_fragment(out: &mut Writer, name: &Name, fragment: &FragmentDefinition) -> Outcome
    ensures { Prints result out.old out.new
        (shown_fragment name.now (fragment_tree fragment.now)) }
{
    out.begin_definition()?;
    word(out, "fragment")?;
    out.blank()?;
    word(out, name.as_str())?;
    fragment.type_condition.node.print(out)?;
    each(out, &fragment.directives)?;
    print_set(out, &fragment.selection_set.node)
}

impl Print for VariableDefinition {
    ghost form = { form variable_definition_tree shown_variable };

    fn print(&self, out: &mut Writer) -> Outcome {
        sign(out, "$")?;
        word(out, self.name.node.as_str())?;
        sign(out, ":")?;
        out.blank()?;
        self.var_type.node.print(out)?;
        print_default(out, &self.default_value)?;
        each(out, &self.directives)
    }
}

impl Print for TypeCondition {
    ghost form = { form type_condition_tree shown_condition };

    fn print(&self, out: &mut Writer) -> Outcome {
        out.blank()?;
        word(out, "on")?;
        out.blank()?;
        word(out, self.on.node.as_str())
    }
}

impl Print for FragmentSpread {
    ghost form = { form fragment_spread_tree shown_spread };

    fn print(&self, out: &mut Writer) -> Outcome {
        sign(out, "...")?;
        word(out, self.fragment_name.node.as_str())?;
        each(out, &self.directives)
    }
}

// A set that is a definition; nothing for an empty one.
fn print_short(out: &mut Writer, set: &SelectionSet) -> Outcome
    ensures { Prints result out.old out.new
        (shown_set (selection_set_tree set.now)) }
{
    if set.items.is_empty() {
        return Ok(());
    }
    out.begin_definition()?;
    print_braced(out, set)
}

// A set in its braces after what it belongs to; nothing for an empty one.
#[cycle(set)]
fn print_set(out: &mut Writer, set: &SelectionSet) -> Outcome
    ensures { Prints result out.old out.new
        (shown_set (selection_set_tree set.now)) }
{
    if set.items.is_empty() {
        return Ok(());
    }
    out.blank()?;
    print_braced(out, set)
}

// A set in its braces, even if it is empty.
#[cycle(set)]
fn print_braced(out: &mut Writer, set: &SelectionSet) -> Outcome
    ensures { Prints result out.old out.new
        (sign_token "{" ∷ (shown_selections (selection_set_tree set.now) ++ sign_token "}" ∷ [])) }
{
    open(out, "{", true)?;
    print_selections(out, set)?;
    close(out, "}", true)
}

#[cycle(set)]
fn print_selections(out: &mut Writer, set: &SelectionSet) -> Outcome
    ensures { Prints result out.old out.new
        (shown_selections (selection_set_tree set.now)) }
{
    for item in &set.items {
        out.begin_line()?;
        print_selection(out, &item.node)?;
    }
    Ok(())
}

#[cycle(set)]
fn print_selection(out: &mut Writer, selection: &Selection) -> Outcome
    ensures { Prints result out.old out.new
        (shown_selection (selection_tree selection.now)) }
{
    match selection {
        Selection::Field(field) => print_field(out, field),
        Selection::FragmentSpread(spread) => spread.node.print(out),
        Selection::InlineFragment(fragment) => print_inline_fragment(out, fragment),
    }
}

#[cycle(set)]
fn print_field(out: &mut Writer, field: &Positioned<Field>) -> Outcome
    ensures { Prints result out.old out.new
        (shown_selection (of_field (placed field_tree field.now))) }
{
    print_alias(out, &field.node.alias)?;
    word(out, field.node.name.node.as_str())?;
    print_arguments(out, &field.node.arguments, is_long(&field.node))?;
    each(out, &field.node.directives)?;
    print_set(out, &field.node.selection_set.node)
}

fn print_alias(out: &mut Writer, alias: &Option<Positioned<Name>>) -> Outcome
    ensures { Prints result out.old out.new
        (shown_part shown_alias alias.now) }
{
    let Some(alias) = alias else {
        return Ok(());
    };
    word(out, alias.node.as_str())?;
    sign(out, ":")?;
    out.blank()
}

#[cycle(set)]
fn print_inline_fragment(out: &mut Writer, fragment: &Positioned<InlineFragment>) -> Outcome
    ensures { Prints result out.old out.new
        (shown_selection (of_inline_fragment (placed inline_fragment_tree fragment.now))) }
{
    sign(out, "...")?;
    maybe(out, &fragment.node.type_condition)?;
    each(out, &fragment.node.directives)?;
    print_set(out, &fragment.node.selection_set.node)
}
