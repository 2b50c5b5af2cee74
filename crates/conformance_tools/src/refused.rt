//! Calls that write texts, at the end of memory: each answers as its row says, or that memory ran out.
use crate::rewritten::{Rewriting, rewritten};
use graphql_parser::types::{ExecutableDocument, ServiceDocument};
use graphql_parser::{parse_query, parse_schema};
use graphql_printer::{print_query, print_schema};
use rows::{Input, Parser, Row, Shown, narrow, show, show_error, show_made};
use std::alloc::Global;

/// What a call is given besides the text of its row.
#[derive(Drop)]
pub enum Given {
    Nothing,
    Request(ExecutableDocument),
    File(ServiceDocument),
}

impl Input for Given {
    fn make(&mut self, row: &Row<'_>, shown: &mut Shown) -> bool {
        let alloc = shown.alloc();
        match self {
            Given::Nothing => show_rewritten(shown, row),
            Given::Request(document) => show_made(shown, print_query(alloc, document)),
            Given::File(document) => show_made(shown, print_schema(alloc, document)),
        }
    }
}

/// A tree, or a text alone; if there is memory for it.
pub fn given_to(alloc: Global, row: &Row<'_>) -> Option<Given> {
    Some(match row.kind {
        "query tree" => Given::Request(parse_query(alloc, row.text).ok()?),
        "schema tree" => Given::File(parse_schema(alloc, row.text).ok()?),
        _ => Given::Nothing,
    })
}

fn show_rewritten(shown: &mut Shown, row: &Row<'_>) -> bool {
    let parser = match row.kind {
        "query text" => Parser::Query,
        _ => Parser::Schema,
    };
    let rewriting = match row.call {
        "minify" => Rewriting::Minified,
        _ => Rewriting::Formatted,
    };
    match rewritten(shown.alloc(), rewriting, parser, row.text, narrow()) {
        Ok(text) => show(shown, &text),
        Err(error) => show_error(shown, &error),
    }
}
