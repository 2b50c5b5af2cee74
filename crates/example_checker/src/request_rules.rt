//! Rules for requests.
ghost use Rattle.std.specs.Prelude.{◌≡◌};
ghost use Rattle.graphql_parser.specs.trees.RequestViews.{document_tree, selection_set_tree, selection_tree};
ghost use Rattle.example_checker.specs.Requests.{place_without_name, selection_spreads, spreads, operations_spread, fragments_spread, document_spreads};

use graphql_parser::Pos;
use graphql_parser::types::{DocumentOperations, ExecutableDocument, Selection, SelectionSet};

/// The place of the operation that has no name, where there is one. Then it is the only operation.
pub fn first_unnamed(document: &ExecutableDocument) -> Option<Pos>
    ensures { result ≡ place_without_name (document_tree document.now).operations }
{
    match &document.operations {
        DocumentOperations::Single(operation) => Some(operation.pos),
        DocumentOperations::Multiple(_) => None,
    }
}

/// Whether a spread in some operation or fragment names this fragment.
pub fn is_spread(document: &ExecutableDocument, name: &str) -> bool
    ensures { result ≡ document_spreads name.now (document_tree document.now) }
{
    operation_spreads(document, name) || fragment_spreads(document, name)
}

#[tactic(auto, using(crate::proofs::Spreads::operations_walked))]
fn operation_spreads(document: &ExecutableDocument, name: &str) -> bool
    ensures { result ≡ operations_spread name.now (document_tree document.now).operations }
{
    for (_, operation) in document.operations.iter() {
        if has_spread(&operation.node.selection_set.node, name) {
            return true;
        }
    }
    false
}

fn fragment_spreads(document: &ExecutableDocument, name: &str) -> bool
    ensures { result ≡ fragments_spread name.now (document_tree document.now).fragments }
{
    for (_, fragment) in document.fragments.iter() {
        if has_spread(&fragment.node.selection_set.node, name) {
            return true;
        }
    }
    false
}

// Whether a spread of this name stands in the set, at any depth.
#[cycle(spread)]
fn has_spread(set: &SelectionSet, name: &str) -> bool
    ensures { result ≡ spreads name.now (selection_set_tree set.now) }
{
    for item in &set.items {
        if is_or_has_spread(&item.node, name) {
            return true;
        }
    }
    false
}

#[cycle(spread)]
fn is_or_has_spread(selection: &Selection, name: &str) -> bool
    ensures { result ≡ selection_spreads name.now (selection_tree selection.now) }
{
    match selection {
        Selection::Field(field) => has_spread(&field.node.selection_set.node, name),
        Selection::InlineFragment(fragment) => has_spread(&fragment.node.selection_set.node, name),
        Selection::FragmentSpread(spread) => spread.node.fragment_name.node.as_str() == name,
    }
}
