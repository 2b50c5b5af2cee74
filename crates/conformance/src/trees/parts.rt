//! Names, places, arguments and directives, as text. Each begins with a blank.
use crate::trees::values::Written;
use graphql_syntax::pos::{Pos, Positioned};
use graphql_syntax::types::{ConstDirective, Directive};
use graphql_syntax::value::{ConstValue, Name};
use rows::Shown;
use std::fmt;

// The place of a node, after what stands before it, and that of the node in it where it is another.
pub fn write_places(shown: &mut Shown, before: &str, outer: Pos, inner: Pos) {
    shown.place(before, &outer);
    if inner != outer {
        shown.place("/", &inner);
    }
}

// A name or a type, with its place, after what stands before it.
pub fn write_node<T: fmt::Display>(shown: &mut Shown, before: &str, node: &Positioned<T>) {
    shown.item(before, &node.node);
    shown.place("@", &node.pos);
}

pub fn write_value<V: Written>(shown: &mut Shown, before: &str, value: &Positioned<V>) {
    shown.word(before);
    value.node.write(shown);
    shown.place("@", &value.pos);
}

pub fn write_default(shown: &mut Shown, default: &Option<Positioned<ConstValue>>) {
    if let Some(value) = default {
        write_value(shown, " default ", value);
    }
}

pub fn write_arguments<V: Written>(
    shown: &mut Shown,
    arguments: &Vec<(Positioned<Name>, Positioned<V>)>,
) {
    for argument in arguments {
        write_node(shown, " ", &argument.0);
        write_value(shown, "=", &argument.1);
    }
}

pub fn write_directives<D: Written>(shown: &mut Shown, directives: &Vec<Positioned<D>>) {
    for directive in directives {
        shown.place(" (directive ", &directive.pos);
        directive.node.write(shown);
        shown.word(")");
    }
}

/// Its name and its arguments.
impl Written for Directive {
    fn write(&self, shown: &mut Shown) {
        write_node(shown, " ", &self.name);
        write_arguments(shown, &self.arguments);
    }
}

/// Its name and its arguments.
impl Written for ConstDirective {
    fn write(&self, shown: &mut Shown) {
        write_node(shown, " ", &self.name);
        write_arguments(shown, &self.arguments);
    }
}
