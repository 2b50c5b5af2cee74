//! The bytes that are being written.
ghost use Rattle.std.specs.Prelude.{◌≡◌, [], ◌∷◌, List, map, option_map};
ghost use Rattle.graphql_parser.specs.trees.Parts.{placed};
ghost use Rattle.graphql_packed.specs.inner.Written.{Adds};
ghost use Rattle.graphql_packed.specs.packed.Bytes.{choice as choice_of, flag as flag_of, list_bytes, node_bytes, number_bytes, optional_bytes, place_bytes, text_bytes};

use graphql_json::Buffer as Bytes;
use graphql_parser::{Pos, Positioned};
use std::alloc::{AllocError, Global};
use std::marker::Model;

// What a call that writes answers: an error says that memory was refused.
pub type Outcome = Result<(), AllocError>;

/// What is written as a node, after its place.
pub trait Packed {
    ghost use Rattle.graphql_packed.specs.inner.Forms.{Form};

    /// The tree of a node, and the bytes of a tree.
    ghost form: { Form Self };

    /// Writes the node.
    fn pack(&self, buffer: &mut Buffer) -> Outcome
        ensures { Adds result buffer.old buffer.new (form.bytes (form.tree self.now)) };
}

/// Bytes that are being written.
///
/// A contract sees these bytes.
#[derive(Drop)]
pub struct Buffer {
    bytes: Bytes,
}

impl Model for Buffer {
    ghost use Rattle.std.specs.Prelude.{ℕ, List};

    ghost Value = { List ℕ };

    ghost view = { λ buffer. buffer.bytes.items };
}

impl Buffer {
    /// No bytes.
    pub fn new(alloc: Global) -> Buffer
        ensures { result ≡ [] }
    {
        Buffer {
            bytes: Bytes::new(alloc),
        }
    }

    /// All of the bytes.
    pub fn finish(self) -> Vec<u8>
        ensures { result.items ≡ self }
    {
        self.bytes.into_vec()
    }

    /// A choice, by its number.
    #[inline(always)]
    pub fn choice(&mut self, number: u8) -> Outcome
        ensures { Adds result self.old self.new (choice_of number) }
    {
        self.bytes.put(false, b"", b"", &[number])
    }

    #[inline(always)]
    pub fn flag(&mut self, is_so: bool) -> Outcome
        ensures { Adds result self.old self.new (flag_of is_so) }
    {
        self.choice(if is_so { 1 } else { 0 })
    }

    #[inline(always)]
    #[tactic(auto, using(crate::proofs::Numbers::number_is))]
    pub fn number(&mut self, number: usize) -> Outcome
        ensures { Adds result self.old self.new (number_bytes number) }
    {
        let number = number as u64;
        self.bytes.put(false, b"", b"", &number.to_le_bytes())
    }

    #[inline(always)]
    pub fn text(&mut self, text: &str) -> Outcome
        ensures { Adds result self.old self.new (text_bytes text.now) }
    {
        if self.bytes.ready() < 9 + text.len() {
            return self.text_growing(text);
        }
        let length = text.len() as u64;
        self.bytes
            .put_ready(false, &length.to_le_bytes(), text.as_bytes(), b"");
        Ok(())
    }

    // The same where room has to be made.
    #[cold]
    #[inline(never)]
    fn text_growing(&mut self, text: &str) -> Outcome
        ensures { Adds result self.old self.new (text_bytes text.now) }
    {
        let length = text.len() as u64;
        self.bytes
            .put_growing(false, &length.to_le_bytes(), text.as_bytes(), b"")
    }

    #[inline(always)]
    pub fn place(&mut self, pos: Pos) -> Outcome
        ensures { Adds result self.old self.new (place_bytes pos) }
    {
        self.number(pos.line)?;
        self.number(pos.column)
    }

    /// A node, with its place.
    #[inline(always)]
    pub fn node<N: Packed>(&mut self, node: &Positioned<N>) -> Outcome
        ensures { Adds result self.old self.new
            (node_bytes N.form.bytes (placed N.form.tree node.now)) }
    {
        self.place(node.pos)?;
        node.node.pack(self)
    }

    /// A node that may be missing.
    pub fn optional<N: Packed>(&mut self, node: &Option<Positioned<N>>) -> Outcome
        ensures { Adds result self.old self.new
            (optional_bytes (node_bytes N.form.bytes) (option_map (placed N.form.tree) node.now)) }
    {
        self.flag(node.is_some())?;
        match node {
            Some(node) => self.node(node),
            None => Ok(()),
        }
    }

    /// A list of nodes.
    pub fn nodes<N: Packed>(&mut self, nodes: &Vec<Positioned<N>>) -> Outcome
        ensures { Adds result self.old self.new
            (list_bytes (node_bytes N.form.bytes) (map (placed N.form.tree) nodes.now.items)) }
    {
        self.number(nodes.len())?;
        for node in nodes {
            self.node(node)?;
        }
        Ok(())
    }
}
