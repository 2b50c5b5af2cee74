//! Schema files.
ghost use Rattle.graphql_parser.specs.trees.SchemaViews.{definition_tree, directive_definition_tree, enum_value_tree, field_definition_tree, input_value_tree, kind_tree, schema_definition_tree, schema_document_tree, type_definition_tree};
ghost use Rattle.graphql_packed.specs.inner.Forms.{form};
ghost use Rattle.graphql_packed.specs.inner.Written.{Adds};
ghost use Rattle.graphql_packed.specs.packed.Schemas.{definition_bytes, directive_definition_bytes, enum_value_bytes, field_definition_bytes, input_value_bytes, kind_bytes, location_bytes, schema_bytes, schema_definition_bytes, type_definition_bytes};

use crate::buffer::{Buffer, Outcome, Packed};
use graphql_parser::types::{
    DirectiveDefinition, DirectiveLocation, EnumValueDefinition, FieldDefinition,
    InputValueDefinition, SchemaDefinition, ServiceDocument, TypeDefinition, TypeKind,
    TypeSystemDefinition,
};

/// The tree of a schema file: its definitions and extensions in their order.
pub fn pack_document(buffer: &mut Buffer, document: &ServiceDocument) -> Outcome
    ensures { Adds result buffer.old buffer.new (schema_bytes (schema_document_tree document.now)) }
{
    buffer.number(document.definitions.len())?;
    for definition in &document.definitions {
        pack_definition(buffer, definition)?;
    }
    Ok(())
}

fn pack_definition(buffer: &mut Buffer, definition: &TypeSystemDefinition) -> Outcome
    ensures { Adds result buffer.old buffer.new
        (definition_bytes (definition_tree definition.now)) }
{
    match definition {
        TypeSystemDefinition::Schema(schema) => {
            buffer.choice(0)?;
            buffer.node(schema)
        }
        TypeSystemDefinition::TypeDef(ty) => {
            buffer.choice(1)?;
            buffer.node(ty)
        }
        TypeSystemDefinition::Directive(directive) => {
            buffer.choice(2)?;
            buffer.node(directive)
        }
    }
}

impl Packed for SchemaDefinition {
    ghost form = { form schema_definition_tree schema_definition_bytes };

    fn pack(&self, buffer: &mut Buffer) -> Outcome {
        buffer.optional(&self.description)?;
        buffer.flag(self.extend)?;
        buffer.nodes(&self.directives)?;
        buffer.optional(&self.query)?;
        buffer.optional(&self.mutation)?;
        buffer.optional(&self.subscription)
    }
}

impl Packed for TypeDefinition {
    ghost form = { form type_definition_tree type_definition_bytes };

    fn pack(&self, buffer: &mut Buffer) -> Outcome {
        buffer.flag(self.extend)?;
        buffer.optional(&self.description)?;
        buffer.node(&self.name)?;
        buffer.nodes(&self.directives)?;
        pack_kind(buffer, &self.kind)
    }
}

fn pack_kind(buffer: &mut Buffer, kind: &TypeKind) -> Outcome
    ensures { Adds result buffer.old buffer.new (kind_bytes (kind_tree kind.now)) }
{
    match kind {
        TypeKind::Scalar => buffer.choice(0),
        TypeKind::Object(object) => {
            buffer.choice(1)?;
            buffer.nodes(&object.implements)?;
            buffer.nodes(&object.fields)
        }
        TypeKind::Interface(interface) => {
            buffer.choice(2)?;
            buffer.nodes(&interface.implements)?;
            buffer.nodes(&interface.fields)
        }
        TypeKind::Union(union) => {
            buffer.choice(3)?;
            buffer.nodes(&union.members)
        }
        TypeKind::Enum(values) => {
            buffer.choice(4)?;
            buffer.nodes(&values.values)
        }
        TypeKind::InputObject(input) => {
            buffer.choice(5)?;
            buffer.nodes(&input.fields)
        }
    }
}

impl Packed for FieldDefinition {
    ghost form = { form field_definition_tree field_definition_bytes };

    fn pack(&self, buffer: &mut Buffer) -> Outcome {
        buffer.optional(&self.description)?;
        buffer.node(&self.name)?;
        buffer.nodes(&self.arguments)?;
        buffer.node(&self.ty)?;
        buffer.nodes(&self.directives)
    }
}

impl Packed for InputValueDefinition {
    ghost form = { form input_value_tree input_value_bytes };

    fn pack(&self, buffer: &mut Buffer) -> Outcome {
        buffer.optional(&self.description)?;
        buffer.node(&self.name)?;
        buffer.node(&self.ty)?;
        buffer.optional(&self.default_value)?;
        buffer.nodes(&self.directives)
    }
}

impl Packed for EnumValueDefinition {
    ghost form = { form enum_value_tree enum_value_bytes };

    fn pack(&self, buffer: &mut Buffer) -> Outcome {
        buffer.optional(&self.description)?;
        buffer.node(&self.value)?;
        buffer.nodes(&self.directives)
    }
}

impl Packed for DirectiveDefinition {
    ghost form = { form directive_definition_tree directive_definition_bytes };

    fn pack(&self, buffer: &mut Buffer) -> Outcome {
        buffer.optional(&self.description)?;
        buffer.node(&self.name)?;
        buffer.nodes(&self.arguments)?;
        buffer.flag(self.is_repeatable)?;
        buffer.nodes(&self.locations)
    }
}

// Its name.
impl Packed for DirectiveLocation {
    ghost form = { form (λ location. location) location_bytes };

    fn pack(&self, buffer: &mut Buffer) -> Outcome {
        buffer.text(self.as_str())
    }
}
