//! What is done at the end of memory: all of it is taken, and then given back piece by piece.
use std::alloc::{AllocError, Global};

const BLOCKS: usize = 100_000;

const PIECES: usize = 400;

/// How often an attempt is made: before any memory is given back, and after each piece.
pub const ATTEMPTS: usize = PIECES + 1;

/// Blocks of memory, which no one uses.
pub type Blocks = Vec<Vec<u8>>;

/// What is done again and again, with a piece of memory more each time.
pub trait Attempt {
    /// Does it once. What comes of it is kept without memory.
    fn attempt(&mut self, alloc: Global);
}

/// Takes all memory and gives it back piece by piece; before the first piece and after each the attempt is made.
/// False where memory has no end, and then none is made.
pub fn attempts<A: Attempt>(alloc: Global, attempted: &mut A) -> Result<bool, AllocError> {
    let mut blocks = Vec::with_capacity(alloc, BLOCKS)?;
    let mut pieces = Vec::with_capacity(alloc, PIECES)?;
    take_pieces(alloc, &mut pieces, &mut blocks)?;
    if !take_all(alloc, &mut blocks) {
        return Ok(false);
    }
    attempted.attempt(alloc);
    for piece in pieces {
        drop(piece);
        attempted.attempt(alloc);
    }
    Ok(true)
}

/// Takes all memory but this many bytes, and holds it until the answer is let go; None where memory has no end. Attempts that
/// are made meanwhile have little left to take.
pub fn all_but(alloc: Global, bytes: usize) -> Result<Option<Blocks>, AllocError> {
    let mut blocks = Vec::with_capacity(alloc, BLOCKS)?;
    let room: Vec<u8> = Vec::with_capacity(alloc, bytes)?;
    if !take_all(alloc, &mut blocks) {
        return Ok(None);
    }
    drop(room);
    Ok(Some(blocks))
}

// Takes all memory that is left, in blocks whose bytes are never touched. False where more blocks would
// be needed than `blocks` has room for.
fn take_all(alloc: Global, blocks: &mut Blocks) -> bool {
    let mut size = 1usize << 34;
    for _ in 0..24 {
        if !take(alloc, blocks, size) {
            return false;
        }
        size /= 2;
    }
    // Of small blocks an allocator keeps some of each size.
    for i in 0..75usize {
        if !take(alloc, blocks, 1208 - 16 * i) {
            return false;
        }
    }
    true
}

// Takes blocks of this size while there are some. False where `blocks` has no room for more.
fn take(alloc: Global, blocks: &mut Blocks, size: usize) -> bool {
    for _ in blocks.len()..blocks.capacity() {
        match Vec::with_capacity(alloc, size) {
            Ok(block) => {
                if blocks.push(block).is_err() {
                    return false;
                }
            }
            Err(_) => return true,
        }
    }
    false
}

// Takes blocks of growing sizes, and after each of them a small one in `between`, so that what is given back of them
// is not joined into larger pieces.
fn take_pieces(alloc: Global, pieces: &mut Blocks, between: &mut Blocks) -> Result<(), AllocError> {
    for i in 0..PIECES {
        pieces.push(Vec::with_capacity(alloc, 24 + 16 * i)?)?;
        between.push(Vec::with_capacity(alloc, 24)?)?;
    }
    Ok(())
}
