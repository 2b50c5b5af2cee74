//! Where names are defined and used.
use crate::{NameKind, Occurrence, Role, Span, Structure};
use std::alloc::{AllocError, Global};

// How a name is spelled in the text, if it stands there.
fn spelling(text: &str, name: Occurrence) -> Option<&str> {
    text.get(name.span.start..name.span.end)
}

// Whether two names are names of one thing: they are of one kind and spelled alike, and variables are of one definition.
fn is_same(text: &str, a: Occurrence, b: Occurrence) -> bool {
    a.kind == b.kind
        && (a.kind != NameKind::Variable || a.definition == b.definition)
        && a.span.end.saturating_sub(a.span.start) == b.span.end.saturating_sub(b.span.start)
        && spelling(text, a) == spelling(text, b)
}

// Whether an offset is in a name or right behind it, or at the `$` or `@` before it.
fn is_at(name: Occurrence, offset: usize) -> bool {
    let start = match name.kind {
        NameKind::Variable | NameKind::Directive => name.span.start.saturating_sub(1),
        NameKind::Fragment | NameKind::Type => name.span.start,
    };
    start <= offset && offset <= name.span.end
}

impl Structure {
    /// The name of a fragment, a variable, a type or a directive at an offset: the offset is in it, right behind it, or at the
    /// `$` or `@` before it.
    pub fn name_at(&self, offset: usize) -> Option<Occurrence> {
        for name in self.names() {
            if is_at(*name, offset) {
                return Some(*name);
            }
        }
        None
    }

    /// Where what a name names is defined in the text that the structure is of: the name there, the first one if there are several.
    ///
    /// A variable is defined by the operation that it is in, or by none. A fragment has no variables of its own, so there none is
    /// defined. (GraphQL October 2021, sections 2.8 and 2.10; this project's choice for what is defined twice.)
    pub fn definition_of(&self, text: &str, name: Occurrence) -> Option<Span> {
        Some(self.defining(text, name)?.span)
    }

    // The first name that defines what a name names.
    pub(crate) fn defining(&self, text: &str, name: Occurrence) -> Option<Occurrence> {
        for other in self.names() {
            if other.role == Role::Definition && is_same(text, *other, name) {
                return Some(*other);
            }
        }
        None
    }

    /// The names of what a name names in the text that the structure is of, where it is defined and where it is used, in the order
    /// of the text. Variables are those of one definition.
    ///
    /// It fails only where memory runs out.
    pub fn occurrences_of(
        &self,
        alloc: Global,
        text: &str,
        name: Occurrence,
    ) -> Result<Vec<Occurrence>, AllocError> {
        let mut found = Vec::new(alloc);
        for other in self.names() {
            if is_same(text, *other, name) {
                found.push(*other)?;
            }
        }
        Ok(found)
    }
}
