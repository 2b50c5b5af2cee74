//! Rules for schema files.
ghost use Rattle.std.specs.Prelude.{◌≡◌};
ghost use Rattle.example_checker.specs.Schemas.{fields_in, deprecates_silently, is_silent};

use graphql_parser::Positioned;
use graphql_parser::types::{ConstDirective, FieldDefinition, TypeKind, TypeSystemDefinition};

/// The fields of an object type or of an interface; none of any other definition.
pub fn fields_of(definition: &TypeSystemDefinition) -> &[Positioned<FieldDefinition>]
    ensures { result.now ≡ fields_in definition.now }
{
    let TypeSystemDefinition::TypeDef(ty) = definition else {
        return &[];
    };
    match &ty.node.kind {
        TypeKind::Object(object) => object.fields.as_slice(),
        TypeKind::Interface(interface) => interface.fields.as_slice(),
        _ => &[],
    }
}

/// Whether the field has a directive `@deprecated` without an argument `reason`.
pub fn is_silently_deprecated(field: &FieldDefinition) -> bool
    ensures { result ≡ is_silent field.now.directives.items }
{
    for directive in &field.directives {
        if deprecates_without_reason(&directive.node) {
            return true;
        }
    }
    false
}

fn deprecates_without_reason(directive: &ConstDirective) -> bool
    ensures { result ≡ deprecates_silently directive.now }
{
    directive.name.node.as_str() == "deprecated" && directive.get_argument("reason").is_none()
}
