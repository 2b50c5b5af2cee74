//! The tree of a schema file, as text.
use crate::trees::parts::{write_default, write_directives, write_node};
use crate::trees::values::Written;
use graphql_syntax::pos::Positioned;
use graphql_syntax::value::Name;
use graphql_trees::{
    DirectiveDefinition, EnumValueDefinition, FieldDefinition, InputValueDefinition,
    SchemaDefinition, ServiceDocument, TypeDefinition, TypeKind, TypeSystemDefinition,
};
use rows::Shown;

/// The tree of a schema file: its definitions in order, after the word `file`.
impl Written for ServiceDocument {
    fn write(&self, shown: &mut Shown) {
        shown.word("file");
        for definition in &self.definitions {
            match definition {
                TypeSystemDefinition::Schema(schema) => write_schema(shown, schema),
                TypeSystemDefinition::TypeDef(ty) => write_type_definition(shown, ty),
                TypeSystemDefinition::Directive(directive) => {
                    write_directive_definition(shown, directive)
                }
            }
            shown.word(")");
        }
    }
}

/// The keyword of a definition of a type of this kind.
pub fn keyword(kind: &TypeKind) -> &'static str {
    match kind {
        TypeKind::Scalar => "scalar",
        TypeKind::Object(_) => "type",
        TypeKind::Interface(_) => "interface",
        TypeKind::Union(_) => "union",
        TypeKind::Enum(_) => "enum",
        TypeKind::InputObject(_) => "input",
    }
}

fn write_description(shown: &mut Shown, description: &Option<Positioned<String>>) {
    if let Some(description) = description {
        shown.item(" '", &description.node);
        shown.place("'@", &description.pos);
    }
}

fn write_schema(shown: &mut Shown, schema: &Positioned<SchemaDefinition>) {
    shown.word(if schema.node.extend {
        " (extend "
    } else {
        " ("
    });
    shown.place("schema ", &schema.pos);
    write_description(shown, &schema.node.description);
    write_directives(shown, &schema.node.directives);
    for (kind, root) in [
        (" query ", &schema.node.query),
        (" mutation ", &schema.node.mutation),
        (" subscription ", &schema.node.subscription),
    ] {
        if let Some(name) = root {
            write_node(shown, kind, name);
        }
    }
}

fn write_type_definition(shown: &mut Shown, ty: &Positioned<TypeDefinition>) {
    shown.word(if ty.node.extend { " (extend " } else { " (" });
    shown.word(keyword(&ty.node.kind));
    shown.place(" ", &ty.pos);
    write_description(shown, &ty.node.description);
    write_node(shown, " ", &ty.node.name);
    write_directives(shown, &ty.node.directives);
    write_kind(shown, &ty.node.kind);
}

fn write_kind(shown: &mut Shown, kind: &TypeKind) {
    match kind {
        TypeKind::Scalar => {}
        TypeKind::Object(object) => {
            write_names(shown, " implements", &object.implements);
            write_fields(shown, &object.fields);
        }
        TypeKind::Interface(interface) => {
            write_names(shown, " implements", &interface.implements);
            write_fields(shown, &interface.fields);
        }
        TypeKind::Union(members) => write_names(shown, " members", &members.members),
        TypeKind::Enum(values) => write_values(shown, &values.values),
        TypeKind::InputObject(input) => write_input_values(shown, &input.fields),
    }
}

fn write_values(shown: &mut Shown, values: &Vec<Positioned<EnumValueDefinition>>) {
    for value in values {
        shown.place(" (value ", &value.pos);
        write_description(shown, &value.node.description);
        write_node(shown, " ", &value.node.value);
        write_directives(shown, &value.node.directives);
        shown.word(")");
    }
}

// Names after a word, where there are any.
fn write_names(shown: &mut Shown, word: &str, names: &Vec<Positioned<Name>>) {
    if !names.is_empty() {
        shown.word(word);
    }
    for name in names {
        write_node(shown, " ", name);
    }
}

fn write_fields(shown: &mut Shown, fields: &Vec<Positioned<FieldDefinition>>) {
    for field in fields {
        shown.place(" (field ", &field.pos);
        write_description(shown, &field.node.description);
        write_node(shown, " ", &field.node.name);
        write_input_values(shown, &field.node.arguments);
        write_node(shown, " ", &field.node.ty);
        write_directives(shown, &field.node.directives);
        shown.word(")");
    }
}

fn write_input_values(shown: &mut Shown, values: &Vec<Positioned<InputValueDefinition>>) {
    for value in values {
        shown.place(" (value ", &value.pos);
        write_description(shown, &value.node.description);
        write_node(shown, " ", &value.node.name);
        write_node(shown, " ", &value.node.ty);
        write_default(shown, &value.node.default_value);
        write_directives(shown, &value.node.directives);
        shown.word(")");
    }
}

fn write_directive_definition(shown: &mut Shown, directive: &Positioned<DirectiveDefinition>) {
    shown.place(" (directive ", &directive.pos);
    write_description(shown, &directive.node.description);
    write_node(shown, " ", &directive.node.name);
    write_input_values(shown, &directive.node.arguments);
    if directive.node.is_repeatable {
        shown.word(" repeatable");
    }
    shown.word(" on");
    for location in &directive.node.locations {
        shown.debugged(" ", &location.node);
        shown.place("@", &location.pos);
    }
}
