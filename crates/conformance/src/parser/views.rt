//! What the calls of a tree return, as text.
use crate::trees::{Written, write_default_value, write_directives, write_value};
use graphql_parser::types::{
    ConstDirective, Directive, ExecutableDocument, Field, OperationDefinition, OperationsIter,
    Selection, ServiceDocument,
};
use graphql_parser::value::{ConstValue, ListView, Name, ObjectView, Value, ValueView};
use graphql_parser::{Positioned, parse_query};
use rows::Shown;
use std::alloc::{AllocError, Global};

/// What is looked at in the tree of a request, beside the whole tree and whether there is one.
///
/// - `argument`: the argument of a name in the first field, in its first directive, and in that as one without variables
/// - `response key`: the key of the first field in a response
/// - `defaults`: the defaults of the variables of the first operation: `lent` where the request writes them, `made` where the
///   type is nullable
/// - `directives`: the directives of the first selection, and again when a copy of the first of them was put after them
/// - `operations`: all of them, and what is left when one more was given
/// - `named`: the operation and the fragment of a name, also in a copy
/// - `into const`: the first argument as a value without variables, and that as a value again
/// - `equality`: how the first two arguments compare, as values and as values without variables
/// - `directive into const`: the first directive of the first field as one without variables, and that as one with them again
/// - `sets of selections`: the selection sets of the selections of the first operation, by their places
/// - `text`: the first argument as GraphQL text, the same of it as a value without variables, and whether the text is read as
///   another value
/// - `viewed`: the first argument through its view, and the same of it as a value without variables
/// - `field viewed`: the field of a name in the first argument, through its view
pub const VIEWS: [&str; 13] = [
    "argument",
    "response key",
    "defaults",
    "directives",
    "operations",
    "named",
    "into const",
    "equality",
    "directive into const",
    "sets of selections",
    "text",
    "viewed",
    "field viewed",
];

/// What the parser of a language returns.
pub trait Document: Drop {
    /// Writes what is seen of it; `asked` is the name that is looked up in a request.
    fn write_view(&self, shown: &mut Shown, view: &str, asked: &str);
}

impl Document for ServiceDocument {
    fn write_view(&self, shown: &mut Shown, view: &str, _asked: &str) {
        match view {
            "whole" => self.write(shown),
            _ => shown.word("accepted"),
        }
    }
}

impl Document for ExecutableDocument {
    fn write_view(&self, shown: &mut Shown, view: &str, asked: &str) {
        match view {
            "whole" => self.write(shown),
            "accepted" => shown.word("accepted"),
            "operations" => write_operations(shown, self.operations.iter()),
            "named" => write_named_twice(shown, asked, self),
            _ => {
                if let Some((_, operation)) = self.operations.iter().next() {
                    write_operation(shown, view, asked, &operation.node);
                }
            }
        }
    }
}

// What is seen of the first operation.
fn write_operation(shown: &mut Shown, view: &str, asked: &str, operation: &OperationDefinition) {
    match (view, operation.selection_set.node.items.first()) {
        ("defaults", _) => write_defaults(shown, operation),
        ("sets of selections", _) => write_sets(shown, operation),
        (_, Some(selection)) => write_selection(shown, view, asked, &selection.node),
        (_, None) => {}
    }
}

// What is seen of the first selection.
fn write_selection(shown: &mut Shown, view: &str, asked: &str, selection: &Selection) {
    match selection {
        _ if view == "directives" => write_grown(shown, selection),
        Selection::Field(field) => write_field(shown, view, asked, &field.node),
        _ => {}
    }
}

// What is seen of the first field.
fn write_field(shown: &mut Shown, view: &str, asked: &str, field: &Field) {
    match view {
        "argument" => write_argument(shown, asked, field),
        "response key" => write_response_key(shown, field),
        "directive into const" => {
            if let Some(directive) = field.directives.first() {
                write_directive(shown, &directive.node);
            }
        }
        _ => write_arguments(shown, view, asked, field.arguments.as_slice()),
    }
}

// What is seen of its first two arguments, or of the first.
fn write_arguments(
    shown: &mut Shown,
    view: &str,
    asked: &str,
    arguments: &[(Positioned<Name>, Positioned<Value>)],
) {
    match arguments {
        [one, other] if view == "equality" => write_equality(shown, &one.1.node, &other.1.node),
        [argument, ..] => write_value_seen(shown, view, asked, &argument.1.node),
        _ => {}
    }
}

fn write_value_seen(shown: &mut Shown, view: &str, asked: &str, value: &Value) {
    match view {
        "field viewed" => write_field_viewed(shown, asked, value.as_view()),
        "equality" => {}
        _ => write_with_constant(shown, view, value),
    }
}

fn write_response_key(shown: &mut Shown, field: &Field) {
    let key = field.response_key();
    shown.item("", &key.node);
    shown.place("@", &key.pos);
}

fn write_found<V: Written>(shown: &mut Shown, value: Option<&Positioned<V>>) {
    match value {
        Some(value) => write_value(shown, "", value),
        None => shown.word("none"),
    }
}

// The argument of a field, and of its first directive, if it has one.
fn write_argument(shown: &mut Shown, asked: &str, field: &Field) {
    write_found(shown, field.get_argument(asked));
    if let Some(directive) = field.directives.first() {
        write_argument_of(shown, asked, &directive.node);
    }
}

// The argument of a directive, and of it as one without variables.
fn write_argument_of(shown: &mut Shown, asked: &str, directive: &Directive) {
    shown.word(", ");
    write_found(shown, directive.get_argument(asked));
    shown.word(", ");
    match constant_directive(shown.alloc(), directive) {
        Ok(Some(constant)) => write_found(shown, constant.get_argument(asked)),
        Ok(None) => shown.word("not constant"),
        Err(_) => shown.leave_out(),
    }
}

fn write_defaults(shown: &mut Shown, operation: &OperationDefinition) {
    for variable in &operation.variable_definitions {
        shown.item("", &variable.node.name.node);
        write_default_value(shown, &variable.node);
        shown.word(";");
    }
}

fn write_grown(shown: &mut Shown, selection: &Selection) {
    write_directives(shown, selection.directives());
    shown.word(" then");
    match selection.clone() {
        Ok(mut copy) => write_with_one_more(shown, &mut copy),
        Err(_) => shown.leave_out(),
    }
}

fn write_with_one_more(shown: &mut Shown, selection: &mut Selection) {
    if let Some(directive) = selection.directives().first() {
        match directive.clone() {
            Ok(directive) => put_directive(shown, selection, directive),
            Err(_) => shown.leave_out(),
        }
    }
    write_directives(shown, selection.directives());
}

fn put_directive(shown: &mut Shown, selection: &mut Selection, directive: Positioned<Directive>) {
    if selection.directives_mut().push(directive).is_err() {
        shown.leave_out();
    }
}

fn write_operations(shown: &mut Shown, mut left: OperationsIter<'_>) {
    write_left(shown, &left);
    for _ in 0..4 {
        shown.word(match left.next() {
            Some(_) => ", then",
            None => ", none",
        });
        write_left(shown, &left);
    }
}

// What is left, by a copy, and that its number is another, if it is.
fn write_left(shown: &mut Shown, left: &OperationsIter<'_>) {
    let Ok(copy) = left.clone() else {
        return shown.leave_out();
    };
    let mut count = 0usize;
    for (name, operation) in copy {
        shown.word(" ");
        shown.word(name.map(Name::as_str).unwrap_or("unnamed"));
        shown.place("@", &operation.pos);
        count = count.wrapping_add(1);
    }
    if left.len() != count || left.size_hint() != (count, Some(count)) {
        shown.word(" (not counted)");
    }
}

fn write_named_twice(shown: &mut Shown, asked: &str, document: &ExecutableDocument) {
    write_named(shown, asked, document);
    shown.word(", copied");
    match document.clone() {
        Ok(copy) => write_named(shown, asked, &copy),
        Err(_) => shown.leave_out(),
    }
}

fn write_named(shown: &mut Shown, asked: &str, document: &ExecutableDocument) {
    match document.operations.get(asked) {
        Some(operation) => shown.place(" operation ", &operation.pos),
        None => shown.word(" no operation"),
    }
    match document.fragment(asked) {
        Some(fragment) => shown.place(" fragment ", &fragment.pos),
        None => shown.word(" no fragment"),
    }
}

/// A value as one without variables, if it has none.
pub fn constant_of(alloc: Global, value: &Value) -> Result<Option<ConstValue>, AllocError> {
    value.clone()?.into_const(alloc)
}

// What is seen of a value, and of it as one without variables.
fn write_with_constant(shown: &mut Shown, view: &str, value: &Value) {
    match view {
        "text" => shown.item("", value),
        "viewed" => write_view(shown, value.as_view()),
        _ => {}
    }
    shown.word(if view == "into const" { "" } else { " and" });
    write_constant_of(shown, view, value);
    if view == "text" && !is_read_back(shown.alloc(), value) {
        shown.word(", read as another value");
    }
}

fn write_constant_of(shown: &mut Shown, view: &str, value: &Value) {
    match constant_of(shown.alloc(), value) {
        Ok(Some(constant)) => write_constant(shown, view, constant),
        Ok(None) => shown.word(" none"),
        Err(_) => shown.leave_out(),
    }
}

fn write_constant(shown: &mut Shown, view: &str, constant: ConstValue) {
    match view {
        "text" => shown.item(" ", &constant),
        "viewed" => write_view(shown, constant.as_view()),
        _ => write_into_value(shown, constant),
    }
}

fn write_into_value(shown: &mut Shown, constant: ConstValue) {
    constant.write(shown);
    shown.word(" and ");
    match constant.into_value(shown.alloc()) {
        Ok(value) => value.write(shown),
        Err(_) => shown.leave_out(),
    }
}

fn write_equality(shown: &mut Shown, one: &Value, other: &Value) {
    write_is_same(shown, one == other);
    match (
        constant_of(shown.alloc(), one),
        constant_of(shown.alloc(), other),
    ) {
        (Ok(one), Ok(other)) => write_is_same(shown, one == other),
        _ => shown.leave_out(),
    }
}

fn write_is_same(shown: &mut Shown, is_same: bool) {
    shown.word(if is_same { " equal" } else { " different" });
}

/// A directive as one without variables, if it has none.
pub fn constant_directive(
    alloc: Global,
    directive: &Directive,
) -> Result<Option<ConstDirective>, AllocError> {
    directive.clone()?.into_const(alloc)
}

fn write_directive(shown: &mut Shown, directive: &Directive) {
    match constant_directive(shown.alloc(), directive) {
        Ok(Some(constant)) => {
            constant.write(shown);
            shown.word(" and");
            match constant.into_directive(shown.alloc()) {
                Ok(directive) => directive.write(shown),
                Err(_) => shown.leave_out(),
            }
        }
        Ok(None) => shown.word("none"),
        Err(_) => shown.leave_out(),
    }
}

fn write_sets(shown: &mut Shown, operation: &OperationDefinition) {
    for selection in &operation.selection_set.node.items {
        match selection.node.selection_set() {
            Some(set) => {
                shown.item(" ", &set.node.items.len());
                shown.place(" at ", &set.pos);
            }
            None => shown.word(" none"),
        }
    }
}

// Whether the text of a value is read as it again where it stands for an argument.
fn is_read_back(alloc: Global, value: &Value) -> bool {
    let mut request = Shown::new(alloc, true);
    request.item("{f(a: ", value);
    request.word(")}");
    match parse_query(alloc, request.whole().unwrap_or("")) {
        Ok(document) => has_argument(&document, value),
        Err(_) => false,
    }
}

// Whether the argument `a` of a request's first field is this value.
fn has_argument(document: &ExecutableDocument, value: &Value) -> bool {
    let Some((_, operation)) = document.operations.iter().next() else {
        return false;
    };
    match operation.node.selection_set.node.items.first() {
        Some(
            Positioned {
                node: Selection::Field(field),
                ..
            },
        ) => match field.node.get_argument("a") {
            Some(argument) => argument.node == *value,
            None => false,
        },
        _ => false,
    }
}

// The case of a value with its parts.
fn write_view(shown: &mut Shown, view: ValueView<'_>) {
    match view {
        ValueView::Variable(name) => shown.item(" variable ", name),
        ValueView::Null => shown.word(" null"),
        ValueView::Number(number) => shown.item(" number ", number),
        ValueView::String(text) => shown.item(" string ", &text),
        ValueView::Boolean(value) => shown.item(" boolean ", &value),
        ValueView::Enum(name) => shown.item(" enum ", name),
        ValueView::List(items) => write_list(shown, items),
        ValueView::Object(fields) => write_object(shown, fields),
    }
}

// How many items a list has, the first two by their indices, and each in turn.
fn write_list(shown: &mut Shown, items: ListView<'_>) {
    write_count(shown, " list of ", items.len(), items.is_empty());
    write_item(shown, items.get(0));
    write_item(shown, items.get(1));
    shown.item("; ", &items.iter().len());
    for item in items.iter() {
        shown.item(" ", &item);
    }
}

// The same of the fields of an object.
fn write_object(shown: &mut Shown, fields: ObjectView<'_>) {
    write_count(shown, " object of ", fields.len(), fields.is_empty());
    write_item(shown, fields.get(0).map(|field| field.1));
    write_item(shown, fields.get(1).map(|field| field.1));
    shown.item("; ", &fields.iter().len());
    for (name, value) in fields.iter() {
        shown.item(" ", name);
        shown.item("=", &value);
    }
}

fn write_count(shown: &mut Shown, before: &str, count: usize, is_empty: bool) {
    shown.item(before, &count);
    shown.word(if is_empty { ", empty" } else { "" });
}

fn write_item(shown: &mut Shown, item: Option<ValueView<'_>>) {
    match item {
        Some(item) => shown.item(", ", &item),
        None => shown.word(", none"),
    }
}

fn write_field_viewed(shown: &mut Shown, asked: &str, view: ValueView<'_>) {
    if let ValueView::Object(fields) = view {
        match fields.field(asked) {
            Some(value) => shown.item("", &value),
            None => shown.word("none"),
        }
    }
}
