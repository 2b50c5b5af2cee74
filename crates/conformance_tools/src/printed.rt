//! Documents, printed.
use graphql_parser::types::{DocumentOperations, TypeSystemDefinition};
use graphql_parser::value::Name;
use graphql_parser::{Pos, parse_query, parse_schema};
use graphql_printer::{print_query, print_schema};
use rows::{Shown, pair};

/// What is printed of the document of a text, between quotes.
///
/// - `query`: of a request
/// - `query moved`: of a request whose only operation is given the place 1:1
/// - `schema`: of a schema file
/// - `schema named`: of a file whose first type is given a name. It stands before the text, with ` in ` between them.
pub fn answer(shown: &mut Shown, what: &str, text: &str) {
    shown.word("'");
    match what {
        "query" => write_request(shown, text, false),
        "query moved" => write_request(shown, text, true),
        "schema" => write_file(shown, text, None),
        "schema named" => {
            let (name, text) = pair(text, " in ");
            write_file(shown, text, Some(name));
        }
        _ => shown.word("nothing to print"),
    }
    shown.word("'");
}

fn write_request(shown: &mut Shown, text: &str, is_moved: bool) {
    let alloc = shown.alloc();
    match parse_query(alloc, text) {
        Ok(mut document) => {
            if is_moved && let DocumentOperations::Single(operation) = &mut document.operations {
                operation.pos = Pos { line: 1, column: 1 };
            }
            shown.made("", print_query(alloc, &document));
        }
        Err(_) => shown.word("refused"),
    }
}

fn write_file(shown: &mut Shown, text: &str, name: Option<&str>) {
    let alloc = shown.alloc();
    match parse_schema(alloc, text) {
        Ok(mut document) => {
            if let Some(name) = name
                && let Some(TypeSystemDefinition::TypeDef(ty)) = document.definitions.get_mut(0)
                && let Ok(name) = Name::new(alloc, name)
            {
                ty.node.name.node = name;
            }
            shown.made("", print_schema(alloc, &document));
        }
        Err(_) => shown.word("refused"),
    }
}
