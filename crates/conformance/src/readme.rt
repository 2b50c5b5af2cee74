//! The examples that docs/USING.md names.
use graphql_parser::types::{
    ExecutableDocument, Selection, ServiceDocument, TypeKind, TypeSystemDefinition,
};
use graphql_parser::{Error, parse_query, parse_schema};
use rows::Shown;
use std::alloc::{AllocError, Global};

/// Writes what an example makes of a text, in one line: the outline of a request, or the types of a schema file that implement
/// `Node`.
pub fn write_example(shown: &mut Shown, example: &str, text: &str) {
    let lines = match example {
        "outline" => outline(shown.alloc(), text),
        "implementors" => implementors(shown.alloc(), text, "Node"),
        _ => return shown.word("no such example"),
    };
    match lines {
        Ok(lines) => write_lines(shown, lines.as_str()),
        Err(_) => shown.word("refused"),
    }
}

fn write_lines(shown: &mut Shown, lines: &str) {
    for line in lines.lines() {
        shown.item(line, &' ');
    }
}

/// What a request selects at the top, a line for each, with its place.
fn outline(alloc: Global, text: &str) -> Result<String, Error> {
    let mut lines = String::new(alloc);
    write_outline(&mut lines, &parse_query(alloc, text)?)?;
    Ok(lines)
}

fn write_outline(lines: &mut String, document: &ExecutableDocument) -> Result<(), AllocError> {
    for (_, operation) in document.operations.iter() {
        for selection in &operation.node.selection_set.node.items {
            let place = selection.pos;
            match &selection.node {
                Selection::Field(field) => {
                    let key = field.node.response_key();
                    writeln!(lines, "{place} field {key}")?;
                }
                Selection::FragmentSpread(spread) => {
                    let name = spread.node.fragment_name.node.as_str();
                    let is_defined = document.fragment(name).is_some();
                    writeln!(lines, "{place} fragment {name}, defined: {is_defined}")?;
                }
                Selection::InlineFragment(_) => writeln!(lines, "{place} inline fragment")?,
            }
        }
    }
    Ok(())
}

/// The types that implement an interface, a line for each, with the place where they name it.
fn implementors(alloc: Global, text: &str, interface: &str) -> Result<String, Error> {
    let mut lines = String::new(alloc);
    write_implementors(&mut lines, &parse_schema(alloc, text)?, interface)?;
    Ok(lines)
}

fn write_implementors(
    lines: &mut String,
    document: &ServiceDocument,
    interface: &str,
) -> Result<(), AllocError> {
    for definition in &document.definitions {
        let TypeSystemDefinition::TypeDef(ty) = definition else {
            continue;
        };
        let implements = match &ty.node.kind {
            TypeKind::Object(object) => &object.implements,
            TypeKind::Interface(interface) => &interface.implements,
            _ => continue,
        };
        for name in implements {
            if name.node.as_str() == interface {
                let place = name.pos;
                let ty = &ty.node.name.node;
                writeln!(lines, "{place} {ty}")?;
            }
        }
    }
    Ok(())
}
