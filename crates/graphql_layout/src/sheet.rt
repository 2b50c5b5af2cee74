//! A text that is written token after token, and comment after comment.

ghost use Rattle.std.specs.Prelude.{◌≡◌, ◌≤◌, ◌++◌, ◌∷◌, [], false, IfOk, OnOk, OnErr, string_bytes};
ghost use Rattle.std.specs.Str.{byte, chars};
ghost use Rattle.graphql_tokens.specs.tokens.Ignored.{IsComment};
ghost use Rattle.graphql_tokens.specs.tokens.Proper.{Spells};
ghost use Rattle.graphql_tokens.specs.declared.lexer.TokenKind.TheVariants as kinds;
ghost use Rattle.graphql_layout.specs.declared.line_ends.LineEnd.{LineEnd};
ghost use Rattle.graphql_layout.specs.texts.Blocks.{blanks, spelled};
ghost use Rattle.graphql_layout.specs.texts.LineEnds.{line_end as line_end_of};
ghost use Rattle.graphql_layout.specs.inner.ItemsIn.{items_in};
ghost use Rattle.graphql_layout.specs.inner.Sheets.{IsSheet, Holds, holds_off, holds_off_token};
ghost use Rattle.graphql_layout.specs.texts.Items.{comment, in_quotes, word};

use crate::blocks::push_block;
use crate::ending::Ending;
use crate::line_ends::{LineBreak, LineEnd};
use graphql_tokens::lexer::TokenKind;
use std::alloc::{AllocError, Global};
use std::marker::Model;
use std::mem;

// What was written last.
#[derive(Clone, Copy)]
enum Last {
    // A comment, whose line has not ended.
    Comment,
    // A token that ends so; for a blank, a line feed or nothing at all as one that anything may follow.
    Other(Ending),
}

/// A text, as the comments and tokens that were written into it. Blanks and line ends make no difference to them: between two
/// tokens there are as many as the caller writes, and one that is needed and that the caller left out.
#[derive(Drop)]
pub struct Sheet {
    text: String,
    last: Last,
    line_end: LineEnd,
}

impl Model for Sheet {
    ghost use Rattle.std.specs.Prelude.{List, string_bytes};
    ghost use Rattle.graphql_layout.specs.texts.Items.{Item};

    ghost Value = { List Item };

    ghost use Rattle.graphql_layout.specs.inner.ItemsIn.{items_in};
    ghost use Rattle.graphql_layout.specs.inner.Sheets.{IsSheet};

    ghost view = { λ s. items_in (string_bytes s.text) };

    ghost invariant = { λ s. IsSheet (string_bytes s.text) s.last };
}

// Whether a token that is spelled so may not come next.
#[inline(always)]
fn is_held_off(last: Last, spelling: &str) -> bool
    ensures { result ≡ holds_off_token last spelling.now }
{
    match last {
        Last::Comment => true,
        Last::Other(ending) => ending.stops(spelling),
    }
}

// Writes a blank, or ends the line of a comment.
#[inline(always)]
fn push_blank(text: &mut String, last: Last, line_end: LineEnd) -> Result<(), AllocError>
    requires { IsSheet (string_bytes text.old) last }
    ensures ok { OnOk result (Holds (string_bytes text.new) (Last.Other Ending.Open)
        (items_in (string_bytes text.old))) }
    ensures err { OnErr result (string_bytes text.new ≡ string_bytes text.old) }
{
    match last {
        Last::Comment => push_line(text, last, line_end),
        Last::Other(_) => text.push(' '),
    }
}

// Writes a comma, or ends the line of a comment.
#[inline(always)]
fn push_comma(text: &mut String, last: Last, line_end: LineEnd) -> Result<(), AllocError>
    requires { IsSheet (string_bytes text.old) last }
    ensures ok { OnOk result (Holds (string_bytes text.new) (Last.Other Ending.Open)
        (items_in (string_bytes text.old))) }
    ensures err { OnErr result (string_bytes text.new ≡ string_bytes text.old) }
{
    match last {
        Last::Comment => push_line(text, last, line_end),
        Last::Other(_) => text.push(','),
    }
}

// Ends a line. Never inlined: most tokens end none.
#[inline(never)]
fn push_line(text: &mut String, last: Last, line_end: LineEnd) -> Result<(), AllocError>
    requires { IsSheet (string_bytes text.old) last }
    ensures ok { OnOk result (Holds (string_bytes text.new) (Last.Other Ending.Open)
        (items_in (string_bytes text.old))) }
    ensures err { OnErr result (string_bytes text.new ≡ string_bytes text.old) }
{
    line_end.push(text)
}

// How many levels of two blanks a line begins with at most that is begun at once.
const LEVELS: usize = 15;

// How many blanks are written for them, before some are taken back.
const BLANKS: usize = 31;

// Ends a line and writes blanks, by one copy of a length that is known.
#[inline(always)]
fn push_long_line(text: &mut String, line_end: LineEnd) -> Result<(), AllocError>
    ensures ok { OnOk result (string_bytes text.new ≡ string_bytes text.old ++ (line_end_of line_end ++ blanks 31)) }
    ensures err { OnErr result (string_bytes text.new ≡ string_bytes text.old) }
{
    match line_end {
        LineEnd::Feed => text.push_str("\n                               "),
        LineEnd::ReturnAndFeed => push_return_line(text),
    }
}

// The same where lines end in a carriage return and a line feed. Never inlined: few texts have such lines.
#[inline(never)]
fn push_return_line(text: &mut String) -> Result<(), AllocError>
    ensures ok { OnOk result (string_bytes text.new ≡ string_bytes text.old
        ++ (line_end_of LineEnd.ReturnAndFeed ++ blanks 31)) }
    ensures err { OnErr result (string_bytes text.new ≡ string_bytes text.old) }
{
    text.push_str("\r\n                               ")
}

// Ends a line, and writes so many levels of two blanks.
#[inline(always)]
fn push_begin(
    text: &mut String,
    last: Last,
    line_end: LineEnd,
    depth: usize,
) -> Result<(), AllocError>
    requires sheet { IsSheet (string_bytes text.old) last }
    requires depth { depth ≤ 15 }
    ensures ok { OnOk result (Holds (string_bytes text.new) (Last.Other Ending.Open)
        (items_in (string_bytes text.old))) }
    ensures err { OnErr result (string_bytes text.new ≡ string_bytes text.old) }
{
    push_long_line(text, line_end)?;
    text.truncate(text.len() - (BLANKS - 2 * depth));
    Ok(())
}

// Writes so many levels of two blanks.
#[inline(never)]
fn push_levels(text: &mut String, depth: usize) -> Result<(), AllocError>
    requires { IsSheet (string_bytes text.old) (Last.Other Ending.Open) }
    ensures { Holds (string_bytes text.new) (Last.Other Ending.Open) (items_in (string_bytes text.old)) }
{
    for _ in 0..depth / 4 {
        text.push_str("        ")?;
    }
    for _ in 0..depth % 4 {
        text.push_str("  ")?;
    }
    Ok(())
}

// Writes a blank or ends the line of a comment where this token may not come next, and gives what is then last.
#[inline(always)]
fn make_room(
    text: &mut String,
    last: Last,
    line_end: LineEnd,
    spelling: &str,
) -> Result<Last, AllocError>
    requires { IsSheet (string_bytes text.old) last }
    ensures ok { IfOk result (λ next. Holds (string_bytes text.new) next (items_in (string_bytes text.old))) }
    ensures room { IfOk result (λ next. holds_off_token next spelling.now ≡ false) }
    ensures err { OnErr result (string_bytes text.new ≡ string_bytes text.old) }
{
    if !is_held_off(last, spelling) {
        return Ok(last);
    }
    push_blank(text, last, line_end)?;
    Ok(Last::Other(Ending::Open))
}

// Ends the line of a comment, and gives what is then last.
fn end_comment(text: &mut String, last: Last, line_end: LineEnd) -> Result<Last, AllocError>
    requires { IsSheet (string_bytes text.old) last }
    ensures ok { IfOk result (λ next. Holds (string_bytes text.new) next (items_in (string_bytes text.old))) }
    ensures room { IfOk result (λ next. holds_off next (byte "#") ≡ false) }
    ensures err { OnErr result (string_bytes text.new ≡ string_bytes text.old) }
{
    match last {
        Last::Comment => {
            push_line(text, last, line_end)?;
            Ok(Last::Other(Ending::Open))
        }
        other => Ok(other),
    }
}

// Writes a quote, the content and a quote.
#[inline(always)]
fn push_quoted(text: &mut String, content: &str) -> Result<(), AllocError>
    ensures { OnOk result (string_bytes text.new ≡ string_bytes text.old ++ in_quotes content.now) }
{
    text.push('"')?;
    text.push_str(content)?;
    text.push('"')
}

impl Sheet {
    ghost use Rattle.graphql_layout.specs.texts.Items.{IsItems, words};
    ghost use Rattle.graphql_layout.specs.texts.SameTokens.{HasTokens};

    /// A sheet with nothing on it, whose lines end in line feeds.
    pub fn new(alloc: Global) -> Sheet
        ensures { result ≡ [] }
    {
        Sheet {
            text: String::new(alloc),
            last: Last::Other(Ending::Open),
            line_end: LineEnd::Feed,
        }
    }

    /// A sheet with nothing on it, and room for so many bytes, whose lines end so. It fails only where memory runs out.
    pub fn with_room(alloc: Global, room: usize, line_end: LineEnd) -> Result<Sheet, AllocError>
        ensures { IfOk result (λ sheet. sheet ≡ []) }
    {
        Ok(Sheet {
            text: String::with_capacity(alloc, room)?,
            last: Last::Other(Ending::Open),
            line_end,
        })
    }

    /// Writes a blank, or ends the line of a comment. It fails only where memory runs out.
    #[inline(always)]
    pub fn blank(&mut self) -> Result<(), AllocError>
        ensures { self.new ≡ self.old }
    {
        push_blank(&mut self.text, self.last, self.line_end)?;
        self.last = Last::Other(Ending::Open);
        Ok(())
    }

    /// Begins a line, so many levels of two blanks deep. It fails only where memory runs out. Never inlined: most tokens begin none.
    #[inline(never)]
    pub fn begin_line(&mut self, depth: usize) -> Result<(), AllocError>
        ensures { self.new ≡ self.old }
    {
        push_begin(&mut self.text, self.last, self.line_end, depth.min(LEVELS))?;
        self.last = Last::Other(Ending::Open);
        if depth > LEVELS {
            return push_levels(&mut self.text, depth - LEVELS);
        }
        Ok(())
    }

    /// Writes a comma, which is as good as a blank (GraphQL October 2021, section 2.1.5), or ends the line of a comment. It fails
    /// only where memory runs out.
    #[inline(always)]
    pub fn comma(&mut self) -> Result<(), AllocError>
        ensures { self.new ≡ self.old }
    {
        push_comma(&mut self.text, self.last, self.line_end)?;
        self.last = Last::Other(Ending::Open);
        Ok(())
    }

    /// Ends a line. It fails only where memory runs out.
    #[inline(always)]
    pub fn line(&mut self) -> Result<(), AllocError>
        ensures { self.new ≡ self.old }
    {
        push_line(&mut self.text, self.last, self.line_end)?;
        self.last = Last::Other(Ending::Open);
        Ok(())
    }

    /// Writes a token, after a blank where it may not touch the one before (GraphQL October 2021, section 2.1.7). The caller owes
    /// a spelling of the kind. It fails only where memory runs out.
    #[inline(always)]
    pub fn token(&mut self, kind: TokenKind, spelling: &str) -> Result<(), AllocError>
        requires { Spells kind spelling.now }
        ensures ok { OnOk result (self.new ≡ self.old
            ++ word (record { kind = kind; spelling = spelling.now }) ∷ []) }
        ensures err { OnErr result (self.new ≡ self.old) }
    {
        self.last = make_room(&mut self.text, self.last, self.line_end, spelling)?;
        self.text.push_str(spelling)?;
        self.last = Last::Other(Ending::of(kind, spelling));
        Ok(())
    }

    /// Writes a string: a quote, the content and a quote, after a blank where it may not touch the token before. The caller owes a
    /// content in which no character has to be an escape (GraphQL October 2021, section 2.9.4). It fails only where memory runs
    /// out, and what was on the sheet may be lost then.
    pub fn quoted(&mut self, content: &str) -> Result<(), AllocError>
        requires { Spells kinds.String (in_quotes content.now) }
        ensures { OnOk result (self.new ≡ self.old
            ++ word (record { kind = kinds.String; spelling = in_quotes content.now }) ∷ []) }
    {
        self.last = make_room(&mut self.text, self.last, self.line_end, "\"")?;
        let empty = String::new(*self.text.allocator());
        let mut text = mem::replace(&mut self.text, empty);
        self.last = Last::Other(Ending::Open);
        push_quoted(&mut text, content)?;
        self.text = text;
        self.last = Last::Other(Ending::of_content(content));
        Ok(())
    }

    /// Writes a block string of the value (GraphQL October 2021, section 2.9.4), with so many blanks before each line after its first.
    /// It fails only where memory runs out, and what was on the sheet may be lost then.
    pub fn block(&mut self, value: &str, indent: usize) -> Result<(), AllocError>
        ensures ok { OnOk result ((line_end : LineEnd) × (self.new ≡ self.old ++ word (record {
          kind = kinds.Block;
          spelling = spelled (record { line_end = line_end; indent = indent }) value.now;
        }) ∷ [])) }
    {
        self.last = make_room(&mut self.text, self.last, self.line_end, "\"\"\"")?;
        let empty = String::new(*self.text.allocator());
        let mut text = mem::replace(&mut self.text, empty);
        let last = self.last;
        self.last = Last::Other(Ending::Open);
        let line_end = self.line_end;
        push_block(&mut text, value, LineBreak { line_end, indent })?;
        self.text = text;
        Ok(())
    }

    /// Writes a comment, from its `#` up to the end of its line (GraphQL October 2021, section 2.1.4), which the next call ends.
    /// It fails only where memory runs out.
    pub fn comment(&mut self, spelling: &str) -> Result<(), AllocError>
        requires { IsComment (chars spelling.now) }
        ensures ok { OnOk result (self.new ≡ self.old ++ comment (chars spelling.now) ∷ []) }
        ensures err { OnErr result (self.new ≡ self.old) }
    {
        self.last = end_comment(&mut self.text, self.last, self.line_end)?;
        self.text.push_str(spelling)?;
        self.last = Last::Comment;
        Ok(())
    }

    /// The text.
    pub fn finish(self) -> String
        ensures items { IsItems (chars (string_bytes result)) self }
        ensures tokens { HasTokens (string_bytes result) (words self) }
    {
        self.text
    }
}
