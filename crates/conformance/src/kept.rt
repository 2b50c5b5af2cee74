//! Schema files of the length that people keep: a line for each definition, and places and contents inside.
use crate::trees::{Written, keyword};
use graphql_parser::types::{ServiceDocument, TypeSystemDefinition};
use graphql_parser::{check_schema, parse_schema};
use rows::{Shown, meant, pair};

/// Writes the definitions of a file, and those of the parts that are not in its tree. The parts stand after the file, a line
/// each.
pub fn write_file(shown: &mut Shown, row: &str) {
    let (text, parts) = pair(row, "\n⇒\n");
    if check_schema(shown.alloc(), text).is_err() {
        shown.word("refused by the check ");
    }
    match parse_schema(shown.alloc(), text) {
        Ok(document) => {
            write_definitions(shown, &document);
            write_missing(shown, &document, parts);
        }
        Err(_) => shown.word("refused"),
    }
}

// Of the parts, a line each, those that are not in the tree of a file.
fn write_missing(shown: &mut Shown, document: &ServiceDocument, parts: &str) {
    let mut tree = Shown::new(shown.alloc(), true);
    document.write(&mut tree);
    for part in parts.lines() {
        match meant(shown.alloc(), part) {
            Ok(part) if tree.whole().unwrap_or("").contains(part.as_str()) => {}
            _ => shown.item(" not in the tree: ", &part),
        }
    }
}

/// Writes how many definitions a file has of this many types and enums in turn, if each of them is read; and else those that
/// are.
pub fn write_long_file(shown: &mut Shown, count: &str) {
    let mut text = Shown::new(shown.alloc(), true);
    let mut wanted = Shown::new(shown.alloc(), true);
    for index in 0..count.parse::<usize>().unwrap_or(0) {
        write_two(&mut text, index);
        write_two_wanted(&mut wanted, index);
    }
    write_long_text(shown, text.whole().unwrap_or(""), &wanted);
}

fn write_long_text(shown: &mut Shown, text: &str, wanted: &Shown) {
    if check_schema(shown.alloc(), text).is_err() {
        shown.word("refused by the check ");
    }
    match parse_schema(shown.alloc(), text) {
        Ok(document) => write_unless_wanted(shown, &document, wanted),
        Err(_) => shown.word("refused"),
    }
}

// A type and an enum, a line each.
fn write_two(text: &mut Shown, index: usize) {
    text.item("  type T", &index);
    text.item("{a(b:Int=", &index);
    text.item("):[T", &index);
    text.item("!]}\n\"Of ", &index);
    text.item(".\" enum E", &index);
    text.word("{A B}\n");
}

// What is seen of them.
fn write_two_wanted(wanted: &mut Shown, index: usize) {
    let line = index.wrapping_mul(2).wrapping_add(1);
    wanted.item("type T", &index);
    wanted.item(" ", &line);
    wanted.item(":3 enum E", &index);
    wanted.item(" ", &line.wrapping_add(1));
    wanted.word(":1 ");
}

fn write_unless_wanted(shown: &mut Shown, document: &ServiceDocument, wanted: &Shown) {
    let mut found = Shown::new(shown.alloc(), true);
    write_definitions(&mut found, document);
    match (found.whole(), wanted.whole()) {
        (Some(found), Some(wanted)) if found == wanted => {
            shown.item("", &document.definitions.len());
            shown.word(" definitions");
        }
        (found, _) => shown.word(found.unwrap_or("out of memory")),
    }
}

// Of each definition `extend` before an extension, the keyword, the name where it has one, and the place.
fn write_definitions(shown: &mut Shown, document: &ServiceDocument) {
    for definition in &document.definitions {
        match definition {
            TypeSystemDefinition::Schema(schema) => {
                shown.word(extend(schema.node.extend));
                shown.item("schema ", &schema.pos);
            }
            TypeSystemDefinition::TypeDef(ty) => {
                shown.word(extend(ty.node.extend));
                shown.word(keyword(&ty.node.kind));
                shown.item(" ", &ty.node.name);
                shown.item(" ", &ty.pos);
            }
            TypeSystemDefinition::Directive(directive) => {
                shown.item("directive @", &directive.node.name);
                shown.item(" ", &directive.pos);
            }
        }
        shown.word(" ");
    }
}

fn extend(is_extension: bool) -> &'static str {
    if is_extension { "extend " } else { "" }
}
