//! Where nodes stand, and whether that is written.
ghost use Rattle.std.specs.Prelude.{◌≡◌, ◌<◌, ◌^◌, IfSome};
ghost use Rattle.graphql_json.specs.inner.Written.{place_tokens, shown_tokens};
ghost use Rattle.graphql_json.specs.nodes.Nodes.{at, nowhere, stands_before as stands_before_at};

use graphql_parser::Pos;

/// Whether nodes are written with their places.
#[derive(Clone, Copy, Debug, PartialEq, Eq)]
pub enum Places {
    /// No node has a place.
    LeftOut,
    /// Each node of the JSON that has a place in the tree has the numbers `line` and `column`, both counted from 1. A node
    /// at 0:0, which is no place of a text, has neither. Two places of a tree are no node's here: that of `on` before a
    /// fragment's type, and the outer one of a selection, where in a parsed tree its field, spread or fragment stands too.
    Written,
}

/// Where a node stands in the tree, and whether places are written.
#[derive(Clone, Copy)]
pub struct Place {
    pub places: Places,
    pub pos: Option<Pos>,
}

impl Place {
    /// Another place in the same tree.
    pub fn at(self, pos: Pos) -> Place
        ensures { result ≡ at self pos }
    {
        Place {
            places: self.places,
            pos: Some(pos),
        }
    }

    /// No place, in the same tree.
    pub fn nowhere(self) -> Place
        ensures { result ≡ nowhere self }
    {
        Place {
            places: self.places,
            pos: None,
        }
    }

    /// The place that is written, if one is.
    pub fn shown(self) -> Option<Pos>
        ensures place { shown_tokens result ≡ place_tokens self.places self.pos }
        ensures fits { IfSome result (λ pos. (pos.line < 2 ^ 64) × (pos.column < 2 ^ 64)) }
    {
        match self.pos {
            Some(pos) if self.places == Places::Written && pos != Pos::default() => Some(pos),
            _ => None,
        }
    }
}

/// Whether a place is smaller than another: on an earlier line, or further left on the same line.
pub fn stands_before(one: Pos, other: Pos) -> bool
    ensures { result ≡ stands_before_at one other }
{
    one.line < other.line || one.line == other.line && one.column < other.column
}
