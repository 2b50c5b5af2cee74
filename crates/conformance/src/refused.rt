//! Calls at the end of memory: each answers as its row says, or that memory was refused.
mod answers;
mod calls;
mod free;
mod given;
mod trees;

pub use given::given_to;
