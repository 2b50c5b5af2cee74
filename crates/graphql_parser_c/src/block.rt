//! What a parse hands over.
ghost use Rattle.std.specs.Prelude.{◌≡◌, ℕ, List, Option, Some};
ghost use Rattle.std.specs.Ptr.{null_ptr};
ghost use Rattle.graphql_parser_c.specs.Blocks.{holds};

use std::marker::Model;
use std::ptr::null;

/// A text, in a block of the program's `malloc`, which whoever is handed it gives back by `free`; or nothing: null, and no
/// bytes. What a caller has there before a call may be anything.
#[repr(C)]
#[derive(Drop)]
pub struct Block {
    /// Where the text begins. It is in UTF-8.
    pub start: *const u8,
    /// The number of its bytes.
    pub length: usize,
    pub ghost text: { Option (List ℕ) },
}

impl Model for Block {
    ghost also_owns = { λ block. holds block.start block.length block.text };
}

impl Block {
    /// Nothing to give back.
    pub fn nothing() -> Block
        ensures { (result.start ≡ null_ptr) × (result.length ≡ 0) }
    {
        Block {
            start: null(),
            length: 0,
        }
    }

    /// These bytes.
    pub fn of(bytes: &'static [u8]) -> Block
        ensures { result.text ≡ Some bytes.now }
    {
        Block {
            start: bytes.as_ptr(),
            length: bytes.len(),
        }
    }
}
