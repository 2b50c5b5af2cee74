//! Types that are read from a text, and shown again.
use crate::compared::{write_compared, write_copy};
use graphql_syntax::types::{BaseType, Type};
use rows::{Shown, pair};

/// Writes what `Type::new` returns: a name between `'`, a list in brackets, and after each whether null may stand; or `none`. That
/// the type prints as its text, and that a copy is equal, is looked at too.
pub fn write_read(shown: &mut Shown, text: &str) {
    match Type::new(shown.alloc(), text) {
        Ok(Some(ty)) => {
            write_type(shown, &ty);
            write_copy(shown, &ty);
            write_text(shown, &ty, text);
        }
        Ok(None) => shown.word("none"),
        Err(_) => shown.leave_out(),
    }
}

fn write_type(shown: &mut Shown, ty: &Type) {
    match &ty.base {
        BaseType::Named(name) => {
            shown.item("'", name);
            shown.word("'");
        }
        BaseType::List(item) => {
            shown.word("[");
            write_type(shown, item);
            shown.word("]");
        }
    }
    shown.word(if ty.nullable { "?" } else { "!" });
}

fn write_text(shown: &mut Shown, ty: &Type, text: &str) {
    let mut printed = Shown::new(shown.alloc(), true);
    printed.item("", ty);
    if printed.whole() != Some(text) {
        shown.word(" as another text");
    }
}

/// Writes how two types compare.
pub fn write_comparison(shown: &mut Shown, row: &str) {
    let (one, other) = pair(row, " and ");
    let alloc = shown.alloc();
    write_compared(shown, Type::new(alloc, one), Type::new(alloc, other));
}
