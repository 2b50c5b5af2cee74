//! The calls of both languages, over what a caller lends.
ghost use Rattle.std.specs.Prelude.{◌≡◌, length};
ghost use Rattle.graphql_parser.specs.Checking.{checked};
ghost use Rattle.graphql_parser_c.specs.Handing.{HandsOver};
ghost use Rattle.graphql_parser_c.specs.Telling.{IsBack, IsLeft, IsTold, limits_of};

use crate::block::Block;
use crate::documents::Document;
use crate::handing::{Handing, Nothing, answer};
use crate::lending::{Room, Text, Told};
use crate::telling::{Bounds, Left, Places, Question};
use std::alloc::Global;

/// Checks a text.
pub fn check<D: Document>(alloc: Global, text: Text, bounds: Bounds, room: Room) -> Told
    ensures told { IsTold (checked D.language) (limits_of bounds.0 bounds.1 bounds.2) text.bytes
        result.number result.places }
    ensures back { IsBack text room result }
{
    let mut left = Left::all_of(bounds.3);
    check_within::<D>(alloc, text, bounds, room, &mut left)
}

/// Checks a text, and says what is left of the memory that it may take.
pub fn check_within<D: Document>(
    alloc: Global,
    text: Text,
    bounds: Bounds,
    room: Room,
    left: &mut Left,
) -> Told
    ensures told { IsTold (checked D.language) (limits_of bounds.0 bounds.1 bounds.2) text.bytes
        result.number result.places }
    ensures back { IsBack text room result }
    ensures left { IsLeft bounds.3 (length text.bytes) result.number left.new }
{
    let mut nothing = Block::nothing();
    call_within::<D, Nothing>(alloc, text, bounds, &Nothing, room, &mut nothing, left)
}

/// Reads a text, and hands over what is made of its answer.
pub fn call<D: Document, H: Handing<D>>(
    alloc: Global,
    text: Text,
    bounds: Bounds,
    handing: &H,
    room: Room,
    handed: &mut Block,
) -> Told
    ensures told { IsTold H.language (limits_of bounds.0 bounds.1 bounds.2) text.bytes
        result.number result.places }
    ensures handed { HandsOver H.language (H.Hands handing.now (limits_of bounds.0 bounds.1 bounds.2) text.bytes)
        (limits_of bounds.0 bounds.1 bounds.2) text.bytes result.number handed.new }
    ensures back { IsBack text room result }
{
    let mut left = Left::all_of(bounds.3);
    call_within::<D, H>(alloc, text, bounds, handing, room, handed, &mut left)
}

/// Reads a text, hands over what is made of its answer, and says what is left of the memory that the parser may take.
pub fn call_within<D: Document, H: Handing<D>>(
    alloc: Global,
    text: Text,
    bounds: Bounds,
    handing: &H,
    room: Room,
    handed: &mut Block,
    left: &mut Left,
) -> Told
    ensures told { IsTold H.language (limits_of bounds.0 bounds.1 bounds.2) text.bytes
        result.number result.places }
    ensures handed { HandsOver H.language (H.Hands handing.now (limits_of bounds.0 bounds.1 bounds.2) text.bytes)
        (limits_of bounds.0 bounds.1 bounds.2) text.bytes result.number handed.new }
    ensures back { IsBack text room result }
    ensures left { IsLeft bounds.3 (length text.bytes) result.number left.new }
{
    let (lent, count) = text.lent();
    let question = Question {
        text: lent.bytes(count),
        bounds,
    };
    let mut places = Places::none();
    let number = answer::<D, H>(alloc, &question, handing, &mut places, handed, left);
    Told::of(number, places, room, lent)
}
