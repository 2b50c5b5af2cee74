//! `clone` of a request and of its parts: the same tree, places included.
//!
//! A derived clone says that each part is a clone, so that the tree is the same (`proofs/SameRequests.antt`). Those that
//! are written out, as that of a set of selections, which can hold sets, say it of the tree itself.
ghost use Rattle.std.specs.Prelude.{◌≡◌};
ghost use Rattle.graphql_trees.specs.trees.RequestViews.{document_tree, field_tree, inline_fragment_tree, operations_tree, selection_set_tree, selection_tree, type_condition_tree};

use crate::executable::{
    DocumentOperations, ExecutableDocument, Field, InlineFragment, Selection, SelectionSet,
    TypeCondition,
};
use graphql_syntax::pos::Positioned;
use std::alloc::AllocError;

impl Clone for TypeCondition {
    ghost is_clone = { λ condition clone. type_condition_tree clone ≡ type_condition_tree condition };

    fn clone(&self) -> Result<TypeCondition, AllocError> {
        Ok(TypeCondition {
            on: self.on.clone()?,
        })
    }
}

impl Clone for SelectionSet {
    ghost is_clone = { λ set clone. selection_set_tree clone ≡ selection_set_tree set };

    #[cycle(clone)]
    fn clone(&self) -> Result<SelectionSet, AllocError> {
        let mut items = Vec::with_capacity(*self.items.allocator(), self.items.len())?;
        for item in &self.items {
            items.push(Positioned {
                pos: item.pos,
                node: item.node.clone()?,
            })?;
        }
        Ok(SelectionSet { items })
    }
}

impl Clone for Selection {
    ghost is_clone = { λ selection clone. selection_tree clone ≡ selection_tree selection };

    #[cycle(clone)]
    fn clone(&self) -> Result<Selection, AllocError> {
        match self {
            Selection::Field(field) => {
                let (pos, node) = (field.pos, field.node.clone()?);
                Ok(Selection::Field(Positioned { pos, node }))
            }
            Selection::FragmentSpread(spread) => Ok(Selection::FragmentSpread(spread.clone()?)),
            Selection::InlineFragment(fragment) => {
                let (pos, node) = (fragment.pos, fragment.node.clone()?);
                Ok(Selection::InlineFragment(Positioned { pos, node }))
            }
        }
    }
}

impl Clone for Field {
    ghost is_clone = { λ field clone. field_tree clone ≡ field_tree field };

    #[cycle(clone)]
    fn clone(&self) -> Result<Field, AllocError> {
        Ok(Field {
            alias: self.alias.clone()?,
            name: self.name.clone()?,
            arguments: self.arguments.clone()?,
            directives: self.directives.clone()?,
            selection_set: Positioned {
                pos: self.selection_set.pos,
                node: self.selection_set.node.clone()?,
            },
        })
    }
}

impl Clone for InlineFragment {
    ghost is_clone = { λ fragment clone. inline_fragment_tree clone ≡ inline_fragment_tree fragment };

    #[cycle(clone)]
    fn clone(&self) -> Result<InlineFragment, AllocError> {
        Ok(InlineFragment {
            type_condition: self.type_condition.clone()?,
            directives: self.directives.clone()?,
            selection_set: Positioned {
                pos: self.selection_set.pos,
                node: self.selection_set.node.clone()?,
            },
        })
    }
}

impl Clone for DocumentOperations {
    ghost is_clone = { λ operations clone. operations_tree clone ≡ operations_tree operations };

    #[tactic(auto, using(crate::proofs::SameRequests::same_operation, crate::proofs::SameRequests::same_operations))]
    fn clone(&self) -> Result<DocumentOperations, AllocError> {
        match self {
            DocumentOperations::Single(operation) => {
                Ok(DocumentOperations::Single(operation.clone()?))
            }
            DocumentOperations::Multiple(operations) => {
                Ok(DocumentOperations::Multiple(operations.clone()?))
            }
        }
    }
}

impl Clone for ExecutableDocument {
    ghost is_clone = { λ document clone. document_tree clone ≡ document_tree document };

    #[tactic(auto, using(crate::proofs::SameRequests::same_fragments))]
    fn clone(&self) -> Result<ExecutableDocument, AllocError> {
        Ok(ExecutableDocument {
            operations: self.operations.clone()?,
            fragments: self.fragments.clone()?,
        })
    }
}
