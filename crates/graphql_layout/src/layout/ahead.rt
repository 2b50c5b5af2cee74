//! Where a text is read on.
ghost use Rattle.std.specs.Prelude.{◌≡◌, [], IfOk};
ghost use Rattle.graphql_layout.specs.inner.Standing.{IsAhead, IsClear, StandsAt};

use crate::comments::{Passed, pass_comments};
use graphql_tokens::lexer::Tokens;
use memchr::memchr;
use std::alloc::AllocError;

// Within so many bytes before a `#`, comments are looked for before the next token is read.
const NEAR: usize = 64;

/// What is left of a text.
#[derive(Clone, Copy)]
pub struct Ahead<'a> {
    /// It.
    pub rest: &'a str,
    /// How much is left of it where its next `#` is; nothing, if it has none.
    pub hash: usize,
    // How much is left of it where its next `#` is near; nothing, if it has none.
    near: usize,
}

impl<'a> Ahead<'a> {
    ghost use Rattle.std.specs.Prelude.{◌≡◌};
    ghost use Rattle.graphql_layout.specs.inner.Standing.{IsClear};

    /// A text, with so much left where its next `#` is.
    fn new(rest: &'a str, hash: usize) -> Ahead<'a>
        ensures rest { result.rest.now ≡ rest.entry.now }
        ensures hash { result.hash ≡ hash }
    {
        let near = if hash == 0 {
            0
        } else {
            hash.saturating_add(NEAR)
        };
        Ahead { rest, hash, near }
    }

    /// A whole text.
    pub fn of(text: &'a str) -> Ahead<'a>
        ensures rest { result.rest.now ≡ text.entry.now }
        ensures clear { IsClear result.hash result.rest.now }
    {
        Ahead::new(text, first_hash(text))
    }

    /// With this text left.
    #[inline(always)]
    pub fn with_rest(self, rest: &'a str) -> Ahead<'a>
        ensures rest { result.rest.now ≡ rest.entry.now }
        ensures hash { result.hash ≡ self.entry.hash }
    {
        Ahead { rest, ..self }
    }
}

// How much of a text is left where its first `#` is; nothing, if it has none.
#[inline(never)]
fn first_hash(text: &str) -> usize
    ensures { IsClear result text.now }
{
    match memchr(b'#', text.as_bytes()) {
        None => 0,
        Some(start) => text.len() - start,
    }
}

// The same of what is left of a text, by what it was of that.
fn next_hash(rest: &str, hash: usize) -> usize
    requires { IsClear hash rest.now }
    ensures { IsClear result rest.now }
{
    if rest.len() >= hash {
        hash
    } else {
        first_hash(rest)
    }
}

/// Passes the comments that come next where the next `#` is near. The lexer would pass them line by line, and begins anew after them.
/// It fails only where memory runs out.
#[inline(always)]
pub fn go_on<'a>(
    tokens: &mut Tokens<'a>,
    passed: &mut Vec<Passed<'a>>,
    ahead: Ahead<'a>,
) -> Result<Ahead<'a>, AllocError>
    requires none { passed.old.items ≡ [] }
    requires stands { StandsAt tokens.old ahead.rest.now }
    requires clear { IsClear ahead.hash ahead.rest.now }
    ensures stands { IfOk result (λ next. StandsAt tokens.new next.rest.now) }
    ensures ahead { IfOk result (λ next. IsAhead ahead.entry.rest.now passed.new.items next) }
{
    if ahead.rest.len() >= ahead.near {
        return Ok(ahead);
    }
    let length = pass_comments(passed, ahead.rest)?;
    let (_, rest) = ahead.rest.split_at(length);
    *tokens = Tokens::new(rest);
    Ok(Ahead::new(rest, next_hash(rest, ahead.hash)))
}
