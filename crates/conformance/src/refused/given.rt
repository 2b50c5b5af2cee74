//! What calls are given besides a text. It is made while there is memory.
use super::answers::show_copy;
use super::calls::make_of_text;
use super::trees::{
    make_of_constant_directives, make_of_constants, make_of_directives, make_of_error,
    make_of_request, make_of_values,
};
use crate::parser::{constant_directive, constant_of};
use graphql_parser::types::{
    ConstDirective, Directive, ExecutableDocument, Field, Selection, ServiceDocument,
};
use graphql_parser::value::{ConstValue, Value};
use graphql_parser::{Error, parse_query, parse_schema};
use rows::{Input, Row, Shown};
use std::alloc::Global;

/// What a call is given besides the text of its row. A conversion lets its value go, so there is a copy for each time that the
/// call is made.
#[derive(Drop)]
pub enum Given {
    Nothing,
    Request(ExecutableDocument),
    File(ServiceDocument),
    Error(Error),
    Values(Vec<Value>),
    Constants(Vec<ConstValue>),
    Directives(Vec<Directive>),
    ConstantDirectives(Vec<ConstDirective>),
}

impl Input for Given {
    fn make(&mut self, row: &Row<'_>, shown: &mut Shown) -> bool {
        match self {
            Given::Nothing => make_of_text(shown, row),
            Given::Request(document) => make_of_request(shown, row.call, document),
            Given::File(document) => show_copy(shown, document),
            Given::Error(error) => make_of_error(shown, row.call, error),
            Given::Values(values) => make_of_values(shown, row.call, values),
            Given::Constants(values) => make_of_constants(shown, row.call, values),
            Given::Directives(directives) => make_of_directives(shown, directives),
            Given::ConstantDirectives(directives) => make_of_constant_directives(shown, directives),
        }
    }
}

/// A text alone, a tree, a part of a request, or the error of a text that is none; if there is memory for it.
pub fn given_to(alloc: Global, row: &Row<'_>) -> Option<Given> {
    match row.kind {
        "text" | "query text" | "schema text" => Some(Given::Nothing),
        "schema tree" => Some(Given::File(parse_schema(alloc, row.text).ok()?)),
        "query tree" => Some(Given::Request(parse_query(alloc, row.text).ok()?)),
        "error" => Some(Given::Error(error_of(alloc, row.text)?)),
        _ => part_of(alloc, row, &parse_query(alloc, row.text).ok()?),
    }
}

fn error_of(alloc: Global, text: &str) -> Option<Error> {
    match parse_query(alloc, text) {
        Ok(_) | Err(Error::OutOfMemory) => None,
        Err(error) => Some(error),
    }
}

// The first argument of the first field, or its first directive, as often as the call is made.
fn part_of(alloc: Global, row: &Row<'_>, document: &ExecutableDocument) -> Option<Given> {
    let field = first_field(document)?;
    if let Some(argument) = field.arguments.first() {
        values_of(alloc, row, &argument.1.node)
    } else {
        directives_of(alloc, row, &field.directives.first()?.node)
    }
}

fn values_of(alloc: Global, row: &Row<'_>, value: &Value) -> Option<Given> {
    if row.kind == "value" {
        return Some(Given::Values(copies(alloc, value, row.times())?));
    }
    let constant = constant_of(alloc, value).ok()??;
    Some(Given::Constants(copies(alloc, &constant, row.times())?))
}

fn directives_of(alloc: Global, row: &Row<'_>, directive: &Directive) -> Option<Given> {
    if row.kind == "directive" {
        return Some(Given::Directives(copies(alloc, directive, row.times())?));
    }
    let constant = constant_directive(alloc, directive).ok()??;
    Some(Given::ConstantDirectives(copies(alloc, &constant, row.times())?))
}

fn copies<T: Clone + Drop>(alloc: Global, item: &T, times: usize) -> Option<Vec<T>> {
    let mut copies = Vec::new(alloc);
    for _ in 0..times {
        copies.push(item.clone().ok()?).ok()?;
    }
    Some(copies)
}

/// The first field of the first operation.
pub fn first_field(document: &ExecutableDocument) -> Option<&Field> {
    let (_, operation) = document.operations.iter().next()?;
    match &operation.node.selection_set.node.items.first()?.node {
        Selection::Field(field) => Some(&field.node),
        _ => None,
    }
}
