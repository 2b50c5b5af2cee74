//! The tree of a request: operations and fragments, and the selections in them.
ghost use Rattle.std.specs.Prelude.{◌≡◌, ⊤, Some, [], length, option_map, IfSome, IsSome};
ghost use Rattle.std.specs.Iterator.{YieldsFirstBy, item_count, UpTo};
ghost use Rattle.std.specs.Iterator.SizeHint.{IsWithinCount};
ghost use Rattle.graphql_syntax.specs.calls.Named.{named, argument_named};
ghost use Rattle.std.specs.Cow.{cow_value, IsBorrowed};
ghost use Rattle.std.specs.Borrow.{sem};
ghost use Rattle.graphql_trees.specs.calls.Lending.{LendsDirectives, directives_of};
ghost use Rattle.graphql_trees.specs.inner.Loans.{LendsOfField, LendsOfSpread, LendsOfFragment};
ghost use Rattle.graphql_trees.specs.declared.executable.InlineFragment.{out-InlineFragment};
ghost use Rattle.graphql_trees.specs.calls.Defaults.{default_of, response_key};
ghost use Rattle.graphql_trees.specs.declared.executable.Field.{out-Field};
ghost use Rattle.graphql_trees.specs.declared.executable.SelectionSet.{out-SelectionSet};
ghost use Rattle.graphql_trees.specs.calls.Sets.{set_of};
ghost use Rattle.graphql_trees.specs.calls.Operations.{operations_list, operation_named, operation_item};

use crate::hasher::NameMap;
use crate::lookup::find_entry;
use graphql_syntax::pos::{Pos, Positioned};
use graphql_syntax::types::lookup::find_argument;
use graphql_syntax::types::{Directive, OperationType, Type};
use graphql_syntax::value::{ConstValue, Name, Value};
use indexmap::map;
use std::alloc::{AllocError, Global};
use std::borrow::Cow;
use std::iter::FusedIterator;
use std::marker::Model;

/// A request (section 2.2): its operations and its fragments.
#[derive(Debug, Drop)]
pub struct ExecutableDocument {
    /// The operations: a parsed request has at least one.
    pub operations: DocumentOperations,
    /// The fragments under their names, in source order.
    pub fragments: NameMap<Positioned<FragmentDefinition>>,
}

/// The operations of a request (section 2.3).
#[derive(Debug, Drop)]
pub enum DocumentOperations {
    /// One operation without a name, as `{a}` or `query {a}`.
    Single(Positioned<OperationDefinition>),
    /// Operations under their names, in source order.
    Multiple(NameMap<Positioned<OperationDefinition>>),
}

/// The operations of a request, in source order, each with its name where it has one.
///
/// Each operation comes once, and then `None` for good; `len` is how many are left. It takes no memory,
/// so its clone can't fail. A contract sees it as the list of the operations that it has left.
#[derive(Debug, Drop)]
pub struct OperationsIter<'a> {
    left: Left<'a>,
}

// An operation that stands alone, until it was given, or those of a map that are left.
#[derive(Debug, Drop)]
enum Left<'a> {
    Single(Option<&'a Positioned<OperationDefinition>>),
    Multiple(map::Iter<'a, Name, Positioned<OperationDefinition>>),
}

impl<'a> Model for OperationsIter<'a> {
    ghost use Rattle.std.specs.Prelude.{List};
    ghost use Rattle.graphql_trees.specs.calls.Operations.{NamedOperation};
    ghost use Rattle.graphql_trees.specs.inner.OperationsLeft.{operations_left};
    ghost use Rattle.std.specs.Coded.{coded×, coded_list, coded_option, coded_ℕ};
    ghost use Rattle.graphql_tokens.specs.contracts.pos.Positioned as positioned;
    ghost use Rattle.graphql_trees.specs.contracts.executable.OperationDefinition as operation;

    ghost Value = { List NamedOperation };

    // by which a proof tells two lists of operations apart
    ghost coded = { coded_list (coded× (coded_option (coded_list coded_ℕ)) (positioned.the_row operation.the_row).coded) };

    ghost view = { λ operations. operations_left operations.left };
}

impl ExecutableDocument {
    /// The fragment of this name; None where there is none.
    ///
    /// A name of at most 22 bytes is found through the map, at once. For a longer one the fragments are walked from the
    /// first on; `fragments.get` takes a [`Name`], as that of a spread, and finds each at once.
    pub fn fragment(&self, name: &str) -> Option<&Positioned<FragmentDefinition>>
        ensures { option_map (λ f. f.now) result ≡ named name.now self.now.fragments.entries }
    {
        find_entry(&self.fragments, name)
    }
}

impl DocumentOperations {
    /// The operations in source order, each with its name; the name is None exactly for `Single`.
    pub fn iter(&self) -> OperationsIter<'_>
        ensures { result ≡ operations_list self.now }
    {
        let left = match self {
            DocumentOperations::Single(operation) => Left::Single(Some(operation)),
            DocumentOperations::Multiple(operations) => Left::Multiple(operations.iter()),
        };
        OperationsIter { left }
    }

    /// The operation of this name; None where there is none, and always for `Single`.
    ///
    /// A name of at most 22 bytes is found through the map, at once. For a longer one the operations are walked from
    /// the first on.
    pub fn get(&self, name: &str) -> Option<&Positioned<OperationDefinition>>
        ensures { option_map (λ o. o.now) result ≡ operation_named name.now self.now }
    {
        match self {
            DocumentOperations::Single(_) => None,
            DocumentOperations::Multiple(operations) => find_entry(operations, name),
        }
    }
}

impl<'a> Clone for OperationsIter<'a> {
    ghost is_clone = { λ operations clone. clone ≡ operations };

    ghost is_infallible = { λ _. ⊤ };

    fn clone(&self) -> Result<OperationsIter<'a>, AllocError> {
        let left = match &self.left {
            Left::Single(operation) => Left::Single(*operation),
            Left::Multiple(operations) => Left::Multiple(operations.clone()?),
        };
        Ok(OperationsIter { left })
    }
}

impl<'a> Iterator for OperationsIter<'a> {
    type Item = (Option<&'a Name>, &'a Positioned<OperationDefinition>);

    ghost next_gives = { YieldsFirstBy operation_item (λ left. left) };

    ghost remaining = { item_count (λ left. left) };

    fn next(&mut self) -> Option<Self::Item> {
        match &mut self.left {
            Left::Single(operation) => {
                let operation = operation.take()?;
                Some((None, operation))
            }
            Left::Multiple(operations) => {
                let (name, operation) = operations.next()?;
                Some((Some(name), operation))
            }
        }
    }

    fn size_hint(&self) -> (usize, Option<usize>)
        ensures exact { result ≡ (length self.now, Some (length self.now)) }
        ensures lower { IsWithinCount result.0 (item_count (λ left. left) self.now) }
        ensures upper { IfSome result.1 (UpTo (item_count (λ left. left) self.now)) }
    {
        let len = self.len();
        (len, Some(len))
    }
}

impl FusedIterator for OperationsIter<'_> {}

impl ExactSizeIterator for OperationsIter<'_> {
    fn len(&self) -> usize {
        match &self.left {
            Left::Single(operation) => usize::from(operation.is_some()),
            Left::Multiple(operations) => operations.len(),
        }
    }
}

/// An operation (section 2.3). Its name is the key that a document keeps it under.
///
/// The node stands at its keyword, or at the `{` of the short form.
#[derive(Clone, Debug, Drop)]
pub struct OperationDefinition {
    /// The kind; `query` in the short form.
    pub ty: OperationType,
    /// The variables, in source order.
    pub variable_definitions: Vec<Positioned<VariableDefinition>>,
    /// The directives, in source order.
    pub directives: Vec<Positioned<Directive>>,
    /// What is selected of the root, at its `{`.
    pub selection_set: Positioned<SelectionSet>,
}

/// The definition of a variable (section 2.10).
///
/// The node stands at its `$`.
#[derive(Clone, Debug, Drop)]
pub struct VariableDefinition {
    /// The name after the `$`.
    pub name: Positioned<Name>,
    /// The type, at its first token.
    pub var_type: Positioned<Type>,
    /// The directives, in source order. Variables may stand in them (this project's choice).
    pub directives: Vec<Positioned<Directive>>,
    /// The value after the `=`, at its first token.
    pub default_value: Option<Positioned<ConstValue>>,
}

impl VariableDefinition {
    /// The value of the variable where a request gives none: the default, borrowed, where there is one;
    /// else null where the type may be null; else None.
    pub fn default_value(&self) -> Option<Cow<'_, ConstValue>>
        ensures value { option_map (λ c. cow_value c) result ≡ default_of self.now }
        ensures borrowed { IsSome self.now.default_value → IfSome result IsBorrowed }
    {
        if let Some(value) = &self.default_value {
            return Some(Cow::Borrowed(&value.node));
        }
        if self.var_type.node.nullable {
            Some(Cow::Owned(ConstValue::Null))
        } else {
            None
        }
    }
}

/// The selections of an object (section 2.4).
///
/// The node stands at its `{`; the set of a field that has none is empty and stands at 0:0.
#[cycle(selections)]
#[derive(Debug, Drop)]
pub struct SelectionSet {
    /// The selections, in source order.
    pub items: Vec<Positioned<Selection>>,
}

/// A selection (section 2.4). The node in it stands at the same place.
#[cycle(selections)]
#[derive(Debug, Drop)]
pub enum Selection {
    /// A field, at its alias where it has one, else at its name.
    Field(Positioned<Field>),
    /// A fragment by its name, at the `...`.
    FragmentSpread(Positioned<FragmentSpread>),
    /// A fragment that is written out, at the `...`.
    InlineFragment(Positioned<InlineFragment>),
}

impl SelectionSet {
    /// A set without selections. Takes no memory; `alloc` is where its selections will be kept.
    pub fn new(alloc: Global) -> SelectionSet
        ensures { (out-SelectionSet result).items.items ≡ [] }
    {
        SelectionSet {
            items: Vec::new(alloc),
        }
    }
}

impl Selection {
    /// What the field or the inline fragment selects in turn, at its `{`; None for a spread.
    ///
    /// A field without a set has an empty one, at 0:0.
    pub fn selection_set(&self) -> Option<&Positioned<SelectionSet>>
        ensures { option_map (λ set. set.now) result ≡ set_of self.now }
    {
        match self {
            Selection::Field(field) => Some(&field.node.selection_set),
            Selection::FragmentSpread(_) => None,
            Selection::InlineFragment(fragment) => Some(&fragment.node.selection_set),
        }
    }

    /// The directives of the field, the spread or the inline fragment itself, in source order.
    pub fn directives(&self) -> &Vec<Positioned<Directive>>
        ensures { result.now ≡ directives_of self.now }
    {
        match self {
            Selection::Field(field) => &field.node.directives,
            Selection::FragmentSpread(spread) => &spread.node.directives,
            Selection::InlineFragment(fragment) => &fragment.node.directives,
        }
    }

    /// The same directives, to be changed: what is written there stands in the selection, and nothing
    /// else of it changes.
    pub fn directives_mut(&mut self) -> &mut Vec<Positioned<Directive>>
        ensures* writes_back { sem 𝓛 (LendsDirectives self.entry result) }
        ensures value { result.now ≡ directives_of self.old }
    {
        match self {
            Selection::Field(field) => field_directives(field),
            Selection::FragmentSpread(spread) => spread_directives(spread),
            Selection::InlineFragment(fragment) => fragment_directives(fragment),
        }
    }
}

// The list of one case, to be changed. Each case has a function of its own, since what is lent of a selection is
// said by what is lent of the node in it.
fn field_directives(field: &mut Positioned<Field>) -> &mut Vec<Positioned<Directive>>
    ensures* writes_back { sem 𝓛 (LendsOfField field.entry result) }
    ensures value { result.now ≡ (out-Field field.old.node).directives }
{
    let node = &mut field.node;
    &mut node.directives
}

fn spread_directives(spread: &mut Positioned<FragmentSpread>) -> &mut Vec<Positioned<Directive>>
    ensures* writes_back { sem 𝓛 (LendsOfSpread spread.entry result) }
    ensures value { result.now ≡ spread.old.node.directives }
{
    let node = &mut spread.node;
    &mut node.directives
}

fn fragment_directives(fragment: &mut Positioned<InlineFragment>) -> &mut Vec<Positioned<Directive>>
    ensures* writes_back { sem 𝓛 (LendsOfFragment fragment.entry result) }
    ensures value { result.now ≡ (out-InlineFragment fragment.old.node).directives }
{
    let node = &mut fragment.node;
    &mut node.directives
}

/// A field (section 2.5).
#[cycle(selections)]
#[derive(Debug, Drop)]
pub struct Field {
    /// The name before the `:` (section 2.7).
    pub alias: Option<Positioned<Name>>,
    /// The name of the field.
    pub name: Positioned<Name>,
    /// The arguments, in source order (section 2.6). One name may come twice.
    pub arguments: Vec<(Positioned<Name>, Positioned<Value>)>,
    /// The directives, in source order.
    pub directives: Vec<Positioned<Directive>>,
    /// What is selected of the field's value, at its `{`; empty, at 0:0, where nothing is.
    pub selection_set: Positioned<SelectionSet>,
}

impl Field {
    /// The name of the field's value in an answer: the alias where there is one, else the name.
    pub fn response_key(&self) -> &Positioned<Name>
        ensures { result.now ≡ response_key self.now }
    {
        self.alias.as_ref().unwrap_or(&self.name)
    }

    /// The value of the first argument of this name; None where there is none.
    pub fn get_argument(&self, name: &str) -> Option<&Positioned<Value>>
        ensures { option_map (λ v. v.now) result ≡
            argument_named name.now (out-Field self.now).arguments.items }
    {
        find_argument(&self.arguments, name)
    }
}

/// The use of a fragment by its name (section 2.8).
#[derive(Clone, Debug, Drop)]
pub struct FragmentSpread {
    /// The name after the `...`: not `on`.
    pub fragment_name: Positioned<Name>,
    /// The directives, in source order.
    pub directives: Vec<Positioned<Directive>>,
}

/// A fragment that is written where it is used (section 2.8.2).
#[cycle(selections)]
#[derive(Debug, Drop)]
pub struct InlineFragment {
    /// The type that it applies to, where it names one.
    pub type_condition: Option<Positioned<TypeCondition>>,
    /// The directives, in source order.
    pub directives: Vec<Positioned<Directive>>,
    /// What it selects, at its `{`.
    pub selection_set: Positioned<SelectionSet>,
}

/// A fragment (section 2.8). Its name is the key that a document keeps it under.
///
/// The node stands at its `fragment`.
#[derive(Clone, Debug, Drop)]
pub struct FragmentDefinition {
    /// The type that it applies to.
    pub type_condition: Positioned<TypeCondition>,
    /// The directives, in source order.
    pub directives: Vec<Positioned<Directive>>,
    /// What it selects, at its `{`.
    pub selection_set: Positioned<SelectionSet>,
}

/// The type that a fragment applies to (section 2.8.1).
///
/// The node stands at its `on`.
#[derive(Debug, Drop)]
pub struct TypeCondition {
    /// The name of the type.
    pub on: Positioned<Name>,
}
