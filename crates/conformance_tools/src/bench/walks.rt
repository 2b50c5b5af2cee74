//! Walks over trees: each adds all nodes and places to a digest.
use super::digest::Digest;
use graphql_parser::Positioned;
use graphql_parser::types::{
    BaseType, ConstDirective, Directive, DirectiveDefinition, ExecutableDocument, FieldDefinition,
    InputValueDefinition, OperationDefinition, SchemaDefinition, Selection, SelectionSet,
    ServiceDocument, Type, TypeDefinition, TypeKind, TypeSystemDefinition, VariableDefinition,
};
use graphql_parser::value::{ConstValue, Name, Value};

/// Adds a request.
pub fn add_request(digest: &mut Digest, document: &ExecutableDocument) {
    for (name, operation) in document.operations.iter() {
        if let Some(name) = name {
            digest.add_text(name.as_str());
        }
        digest.add_place(operation.pos);
        add_operation(digest, &operation.node);
    }
    for (name, fragment) in document.fragments.iter() {
        digest.add_text(name.as_str());
        digest.add_place(fragment.pos);
        add_name(digest, &fragment.node.type_condition.node.on);
        add_directives(digest, &fragment.node.directives);
        add_set(digest, &fragment.node.selection_set.node);
    }
}

fn add_operation(digest: &mut Digest, operation: &OperationDefinition) {
    digest.add(operation.ty as u64);
    for variable in &operation.variable_definitions {
        add_variable(digest, &variable.node);
    }
    add_directives(digest, &operation.directives);
    digest.add_place(operation.selection_set.pos);
    add_set(digest, &operation.selection_set.node);
}

fn add_variable(digest: &mut Digest, variable: &VariableDefinition) {
    add_name(digest, &variable.name);
    add_type(digest, &variable.var_type.node);
    add_directives(digest, &variable.directives);
    if let Some(value) = &variable.default_value {
        digest.add_place(value.pos);
        add_const(digest, &value.node);
    }
}

fn add_name(digest: &mut Digest, name: &Positioned<Name>) {
    digest.add_place(name.pos);
    digest.add_text(name.node.as_str());
}

fn add_set(digest: &mut Digest, set: &SelectionSet) {
    digest.add_size(set.items.len());
    for selection in &set.items {
        digest.add_place(selection.pos);
        match &selection.node {
            Selection::Field(field) => {
                if let Some(alias) = &field.node.alias {
                    add_name(digest, alias);
                }
                add_name(digest, &field.node.name);
                add_arguments(digest, &field.node.arguments);
                add_directives(digest, &field.node.directives);
                add_set(digest, &field.node.selection_set.node);
            }
            Selection::FragmentSpread(spread) => {
                add_name(digest, &spread.node.fragment_name);
                add_directives(digest, &spread.node.directives);
            }
            Selection::InlineFragment(fragment) => {
                if let Some(condition) = &fragment.node.type_condition {
                    add_name(digest, &condition.node.on);
                }
                add_directives(digest, &fragment.node.directives);
                add_set(digest, &fragment.node.selection_set.node);
            }
        }
    }
}

fn add_arguments(digest: &mut Digest, arguments: &Vec<(Positioned<Name>, Positioned<Value>)>) {
    for (name, value) in arguments {
        add_name(digest, name);
        digest.add_place(value.pos);
        add_value(digest, &value.node);
    }
}

fn add_directives(digest: &mut Digest, directives: &Vec<Positioned<Directive>>) {
    for directive in directives {
        add_name(digest, &directive.node.name);
        add_arguments(digest, &directive.node.arguments);
    }
}

fn add_value(digest: &mut Digest, value: &Value) {
    match value {
        Value::Variable(name) => digest.add_text(name.as_str()),
        Value::Null => digest.add(2),
        Value::Number(number) => digest.add_text(number.as_str()),
        Value::String(text) => digest.add_text(text.as_str()),
        Value::Boolean(is_true) => digest.add(if *is_true { 3 } else { 4 }),
        Value::Enum(name) => digest.add_text(name.as_str()),
        Value::List(items) => {
            digest.add_size(items.len());
            for item in items {
                add_value(digest, item);
            }
        }
        Value::Object(fields) => {
            digest.add_size(fields.len());
            for (name, value) in fields {
                digest.add_text(name.as_str());
                add_value(digest, value);
            }
        }
    }
}

fn add_const(digest: &mut Digest, value: &ConstValue) {
    match value {
        ConstValue::Null => digest.add(2),
        ConstValue::Number(number) => digest.add_text(number.as_str()),
        ConstValue::String(text) => digest.add_text(text.as_str()),
        ConstValue::Boolean(is_true) => digest.add(if *is_true { 3 } else { 4 }),
        ConstValue::Enum(name) => digest.add_text(name.as_str()),
        ConstValue::List(items) => {
            digest.add_size(items.len());
            for item in items {
                add_const(digest, item);
            }
        }
        ConstValue::Object(fields) => {
            digest.add_size(fields.len());
            for (name, value) in fields {
                digest.add_text(name.as_str());
                add_const(digest, value);
            }
        }
    }
}

fn add_type(digest: &mut Digest, ty: &Type) {
    digest.add(if ty.nullable { 5 } else { 6 });
    match &ty.base {
        BaseType::Named(name) => digest.add_text(name.as_str()),
        BaseType::List(inner) => add_type(digest, inner),
    }
}

// ---- schema files

/// Adds a schema file.
pub fn add_schema(digest: &mut Digest, document: &ServiceDocument) {
    for definition in &document.definitions {
        match definition {
            TypeSystemDefinition::Schema(schema) => {
                digest.add_place(schema.pos);
                add_roots(digest, &schema.node);
            }
            TypeSystemDefinition::TypeDef(ty) => {
                digest.add_place(ty.pos);
                add_type_definition(digest, &ty.node);
            }
            TypeSystemDefinition::Directive(directive) => {
                digest.add_place(directive.pos);
                add_directive_definition(digest, &directive.node);
            }
        }
    }
}

fn add_description(digest: &mut Digest, description: &Option<Positioned<String>>) {
    if let Some(text) = description {
        digest.add_place(text.pos);
        digest.add_text(text.node.as_str());
    }
}

fn add_roots(digest: &mut Digest, schema: &SchemaDefinition) {
    add_description(digest, &schema.description);
    add_const_directives(digest, &schema.directives);
    for root in [&schema.query, &schema.mutation, &schema.subscription] {
        if let Some(name) = root {
            add_name(digest, name);
        }
    }
}

fn add_const_directives(digest: &mut Digest, directives: &Vec<Positioned<ConstDirective>>) {
    for directive in directives {
        add_name(digest, &directive.node.name);
        for (name, value) in &directive.node.arguments {
            add_name(digest, name);
            add_const(digest, &value.node);
        }
    }
}

fn add_type_definition(digest: &mut Digest, ty: &TypeDefinition) {
    digest.add(if ty.extend { 7 } else { 8 });
    add_description(digest, &ty.description);
    add_name(digest, &ty.name);
    add_const_directives(digest, &ty.directives);
    match &ty.kind {
        TypeKind::Scalar => digest.add(9),
        TypeKind::Object(object) => {
            add_names(digest, &object.implements);
            add_fields(digest, &object.fields);
        }
        TypeKind::Interface(interface) => {
            add_names(digest, &interface.implements);
            add_fields(digest, &interface.fields);
        }
        TypeKind::Union(union) => add_names(digest, &union.members),
        TypeKind::Enum(ty) => {
            for value in &ty.values {
                add_description(digest, &value.node.description);
                add_name(digest, &value.node.value);
                add_const_directives(digest, &value.node.directives);
            }
        }
        TypeKind::InputObject(input) => add_input_values(digest, &input.fields),
    }
}

fn add_names(digest: &mut Digest, names: &Vec<Positioned<Name>>) {
    for name in names {
        add_name(digest, name);
    }
}

fn add_fields(digest: &mut Digest, fields: &Vec<Positioned<FieldDefinition>>) {
    for field in fields {
        add_description(digest, &field.node.description);
        add_name(digest, &field.node.name);
        add_input_values(digest, &field.node.arguments);
        add_type(digest, &field.node.ty.node);
        add_const_directives(digest, &field.node.directives);
    }
}

fn add_input_values(digest: &mut Digest, values: &Vec<Positioned<InputValueDefinition>>) {
    for value in values {
        add_description(digest, &value.node.description);
        add_name(digest, &value.node.name);
        add_type(digest, &value.node.ty.node);
        if let Some(default) = &value.node.default_value {
            add_const(digest, &default.node);
        }
        add_const_directives(digest, &value.node.directives);
    }
}

fn add_directive_definition(digest: &mut Digest, directive: &DirectiveDefinition) {
    add_description(digest, &directive.description);
    add_name(digest, &directive.name);
    add_input_values(digest, &directive.arguments);
    digest.add(if directive.is_repeatable { 10 } else { 11 });
    for location in &directive.locations {
        digest.add_place(location.pos);
        digest.add_text(location.node.as_str());
    }
}
