//! Lists and objects that are open while a value inside them is read.
ghost use Rattle.std.specs.Prelude.{◌≡◌, ◌≤◌, ◌+◌, IfOk, OnErr};
ghost use Rattle.graphql_memory.specs.Memory.{Refused, Takes};
ghost use Rattle.graphql_reading.specs.reading.Ahead.{Stays};

use graphql_reading::parser::Parser;
use graphql_syntax::value::{Literal, Name};
use std::alloc::{AllocError, Global};
use std::default::MadeWith;

/// A list or an object with what it holds so far. The fields of an object are pairs as they are written.
#[derive(Drop)]
pub enum Open<V> {
    List(Vec<V>),
    Object(Vec<(Name, V)>),
}

/// The same, waiting for a value; an object has the name of the value.
#[derive(Drop)]
pub enum Frame<V> {
    List(Vec<V>),
    Object(Vec<(Name, V)>, Name),
}

/// Where the reading of a list or an object stops: at its end, or after the first token of one inside it.
#[derive(Drop)]
pub enum Stop<V> {
    Closed(V),
    Entered(Frame<V>, Open<V>),
}

/// A list that holds nothing.
impl<V> MadeWith<Global> for Frame<V> {
    fn made_with(alloc: Global) -> Frame<V> {
        Frame::List(Vec::new(alloc))
    }
}

impl<V: Literal> Frame<V> {
    ghost use Rattle.graphql_grammar.specs.reading.OpenFunds.{open_credit, frame_credit};
    ghost use Rattle.graphql_grammar.specs.reading.OpenValues.{opened, waiting, add};

    /// With the value for which it waits. Most lists and objects that hold a list or an object hold nothing else: one that is
    /// empty gets room for that one alone.
    #[inline(always)]
    pub fn fill(self, parser: &mut Parser, value: V) -> Result<Open<V>, AllocError>
        ensures filled { IfOk result (λ o. opened V.tree o ≡
            add (waiting V.tree self) (V.tree value)) }
        ensures takes { Takes (frame_credit V.row self + 512) parser.old.memory parser.new.memory }
        ensures pays { IfOk result (λ o. parser.old.memory.left + parser.new.memory.lacking + open_credit V.row o ≤
            parser.new.memory.left + parser.old.memory.lacking + frame_credit V.row self + 512) }
        ensures refused { OnErr result (Refused parser.new.memory) }
        ensures stays { Stays parser.old parser.new }
    {
        match self {
            Frame::List(mut items) => {
                parser.push_with_room(&mut items, value, 1)?;
                Ok(Open::List(items))
            }
            Frame::Object(mut fields, name) => {
                parser.push_with_room(&mut fields, (name, value), 1)?;
                Ok(Open::Object(fields))
            }
        }
    }
}
