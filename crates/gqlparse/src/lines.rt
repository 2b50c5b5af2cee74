//! What the program prints of an accepted text: a line for each definition, with the place where it stands.
use graphql_syntax::types::OperationType;
use graphql_tokens::pos::Pos;
use graphql_trees::{ExecutableDocument, ServiceDocument, TypeKind, TypeSystemDefinition};
use std::alloc::{AllocError, Global};

/// The lines of a request: its operations, and then its fragments, each kind in source order.
///
/// `document` is the tree that `parse_query` gives. A line has the kind of the definition, its name where it has one, and
/// its place, as `query Q 1:1`, and ends in a line feed. An error says that memory for the lines was refused.
pub fn request_lines(alloc: Global, document: &ExecutableDocument) -> Result<String, AllocError> {
    let mut lines = String::new(alloc);
    for (name, operation) in document.operations.iter() {
        let keyword = match operation.node.ty {
            OperationType::Query => "query",
            OperationType::Mutation => "mutation",
            OperationType::Subscription => "subscription",
        };
        match name {
            Some(name) => push_line(&mut lines, keyword, " ", name.as_str(), operation.pos)?,
            None => push_line(&mut lines, keyword, "", "", operation.pos)?,
        }
    }
    for (name, fragment) in document.fragments.iter() {
        push_line(&mut lines, "fragment", " ", name.as_str(), fragment.pos)?;
    }
    Ok(lines)
}

/// The lines of a schema file: its definitions and extensions, in source order.
///
/// `document` is the tree that `parse_schema` gives. A line has `extend` before an extension, the keyword of the
/// definition, its name where it has one, and its place, as `extend type Q 3:1` and `directive @d 4:1`, and ends in a
/// line feed. An error says that memory for the lines was refused.
pub fn schema_lines(alloc: Global, document: &ServiceDocument) -> Result<String, AllocError> {
    let mut lines = String::new(alloc);
    for definition in &document.definitions {
        match definition {
            TypeSystemDefinition::Schema(schema) => {
                lines.push_str(extend_word(schema.node.extend))?;
                push_line(&mut lines, "schema", "", "", schema.pos)?;
            }
            TypeSystemDefinition::TypeDef(definition) => {
                let keyword = keyword(&definition.node.kind);
                let name = definition.node.name.node.as_str();
                lines.push_str(extend_word(definition.node.extend))?;
                push_line(&mut lines, keyword, " ", name, definition.pos)?;
            }
            TypeSystemDefinition::Directive(directive) => {
                let name = directive.node.name.node.as_str();
                push_line(&mut lines, "directive", " @", name, directive.pos)?;
            }
        }
    }
    Ok(lines)
}

// Adds the line of a definition: its keyword, its name after this mark, and its place.
fn push_line(
    lines: &mut String,
    keyword: &str,
    mark: &str,
    name: &str,
    place: Pos,
) -> Result<(), AllocError> {
    lines.push_str(keyword)?;
    lines.push_str(mark)?;
    lines.push_str(name)?;
    writeln!(lines, " {place}")
}

// What stands before the keyword of an extension.
fn extend_word(is_extension: bool) -> &'static str {
    if is_extension { "extend " } else { "" }
}

fn keyword(kind: &TypeKind) -> &'static str {
    match kind {
        TypeKind::Scalar => "scalar",
        TypeKind::Object(_) => "type",
        TypeKind::Interface(_) => "interface",
        TypeKind::Union(_) => "union",
        TypeKind::Enum(_) => "enum",
        TypeKind::InputObject(_) => "input",
    }
}
