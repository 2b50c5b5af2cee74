//! `clone` of a schema file: the same tree, places included.
//!
//! It is written out where the tree has cases, and for the whole file, so that the contract can say so. A derived
//! clone says that each part is a clone, so that the tree is the same (`proofs/SameSchemas.antt`).
ghost use Rattle.std.specs.Prelude.{◌≡◌};
ghost use Rattle.graphql_trees.specs.trees.SchemaViews.{definition_tree, kind_tree, schema_document_tree};

use crate::service::{ServiceDocument, TypeKind, TypeSystemDefinition};
use std::alloc::AllocError;

impl Clone for TypeKind {
    ghost is_clone = { λ kind clone. kind_tree clone ≡ kind_tree kind };

    #[tactic(auto, using(crate::proofs::SameSchemas::same_object, crate::proofs::SameSchemas::same_interface, crate::proofs::SameSchemas::same_union, crate::proofs::SameSchemas::same_enum, crate::proofs::SameSchemas::same_input_object))]
    fn clone(&self) -> Result<TypeKind, AllocError> {
        match self {
            TypeKind::Scalar => Ok(TypeKind::Scalar),
            TypeKind::Object(object) => Ok(TypeKind::Object(object.clone()?)),
            TypeKind::Interface(interface) => Ok(TypeKind::Interface(interface.clone()?)),
            TypeKind::Union(union) => Ok(TypeKind::Union(union.clone()?)),
            TypeKind::Enum(values) => Ok(TypeKind::Enum(values.clone()?)),
            TypeKind::InputObject(object) => Ok(TypeKind::InputObject(object.clone()?)),
        }
    }
}

impl Clone for TypeSystemDefinition {
    ghost is_clone = { λ definition clone. definition_tree clone ≡ definition_tree definition };

    #[tactic(auto, using(crate::proofs::SameSchemas::same_schema, crate::proofs::SameSchemas::same_type, crate::proofs::SameSchemas::same_directive))]
    fn clone(&self) -> Result<TypeSystemDefinition, AllocError> {
        match self {
            TypeSystemDefinition::Schema(schema) => Ok(TypeSystemDefinition::Schema(
                schema.clone()?,
            )),
            TypeSystemDefinition::TypeDef(definition) => Ok(TypeSystemDefinition::TypeDef(
                definition.clone()?,
            )),
            TypeSystemDefinition::Directive(directive) => Ok(TypeSystemDefinition::Directive(
                directive.clone()?,
            )),
        }
    }
}

impl Clone for ServiceDocument {
    ghost is_clone = { λ document clone. schema_document_tree clone ≡ schema_document_tree document };

    fn clone(&self) -> Result<ServiceDocument, AllocError> {
        Ok(ServiceDocument {
            definitions: self.definitions.clone()?,
        })
    }
}
