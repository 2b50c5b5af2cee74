//! Which brackets of a definition aren't closed, and what closes them.
//!
//! A text is rejected where a bracket is missing, or later: what comes next may be taken for a part of the definition,
//! as the keyword of the next one for the name of a field. So brackets are missing before the first line within a
//! definition that begins as another one does, if the definition is whole with them and the text is then read past the
//! rejected token; and else before that token.
use crate::check::error_of;
use crate::errors::Source;
use crate::recovery::{begins_definition, end_of, stands_first};
use graphql_parser::lexer::{Token, TokenKind, Tokens};
use graphql_parser::{Error, Memory};
use graphql_report::Language;
use std::alloc::{AllocError, Global};

/// An insertion that closes brackets.
#[derive(Drop)]
pub struct Closing {
    /// Where it stands, as a byte offset.
    pub offset: usize,
    /// What is inserted, blanks and line ends included.
    pub new: String,
    /// The brackets in it.
    pub brackets: String,
}

/// Brackets of a text that are open and aren't closed. (This project's own type.)
#[derive(Drop)]
pub struct Missing {
    // Where what closes them is missing.
    gap: Gap,
    // So many of those that are open there, the inmost first.
    count: usize,
}

impl Missing {
    // Where the inmost of them stands, as a byte offset.
    pub(crate) fn inmost(&self) -> usize {
        match self.gap.open.last() {
            Some(inmost) => inmost.start,
            None => self.gap.next,
        }
    }

    // What closes them.
    pub(crate) fn closing(&self, alloc: Global, text: &str) -> Result<Closing, AllocError> {
        closing_at(alloc, text, &self.gap, self.count)
    }
}

/// The brackets that aren't closed, of a text that was read from this byte offset on and is rejected at this token: all
/// that are open, if the definition is whole once they are closed, or the inmost one, if the rejected token can come
/// next then. An error says that memory was denied.
pub fn missing_of(
    alloc: Global,
    source: &Source<'_>,
    from: usize,
    token: &Token<'_>,
) -> Result<Option<Missing>, AllocError> {
    let Gaps {
        suspected,
        refused: gap,
    } = gaps_of(alloc, source, from, token)?;
    if let Some(suspected) = suspected
        && is_missing_before(alloc, source, &suspected, &gap, token)?
    {
        return Ok(Some(all_of(suspected)));
    }
    match gap.open.last() {
        // What closes it would be expected, and this token isn't.
        Some(inmost) if token.text.starts_with(inmost.closes) => return Ok(None),
        Some(_) => {}
        None => return Ok(None),
    }
    if token.kind.is_end() || is_definition(source, token) {
        let is_whole = is_whole(alloc, source, &gap)?;
        return Ok(if is_whole { Some(all_of(gap)) } else { None });
    }
    let can_follow = can_follow(alloc, source, &gap, 1, token)?;
    Ok(if can_follow {
        Some(Missing { gap, count: 1 })
    } else {
        None
    })
}

// All brackets that are open at a place.
fn all_of(gap: Gap) -> Missing {
    let count = gap.open.len();
    Missing { gap, count }
}

// ---- places

// A bracket that is open.
#[derive(Clone, Copy)]
struct Open {
    start: usize,
    // What closes it.
    closes: char,
}

// A place between two tokens of a definition.
#[derive(Drop)]
struct Gap {
    // Where the definition begins.
    definition: usize,
    // The brackets that are open there, the inmost last.
    open: Vec<Open>,
    // Where the token before it begins and ends.
    begin: usize,
    last: usize,
    // Where the token after it begins, and where the one after that ends.
    next: usize,
    after: usize,
}

impl Gap {
    // The same place in a definition that begins at this offset.
    fn within(&self, alloc: Global, definition: usize) -> Result<Gap, AllocError> {
        let mut open = Vec::new(alloc);
        for bracket in &self.open {
            if bracket.start >= definition {
                open.push(*bracket)?;
            }
        }
        Ok(Gap {
            definition,
            open,
            begin: self.begin,
            last: self.last,
            next: self.next,
            after: self.after,
        })
    }
}

// Where brackets may be missing.
#[derive(Drop)]
struct Gaps {
    // Before a line that begins as a definition does.
    suspected: Option<Gap>,
    // Before the rejected token.
    refused: Gap,
}

// A walk over the tokens from an offset on.
#[derive(Drop)]
struct Walk<'a> {
    language: Language,
    text: &'a str,
    from: usize,
    // The place before the next token, whose own offsets stand there only once it is reached.
    gap: Gap,
    suspected: Option<Gap>,
}

// The places before the rejected token of a text that was read from this offset on.
fn gaps_of(
    alloc: Global,
    source: &Source<'_>,
    from: usize,
    token: &Token<'_>,
) -> Result<Gaps, AllocError> {
    let mut walk = Walk {
        language: source.language,
        text: source.text,
        from,
        gap: Gap {
            definition: from,
            open: Vec::new(alloc),
            begin: from,
            last: from,
            next: token.start,
            after: end_of(token),
        },
        suspected: None,
    };
    let read = source.text.get(from..token.start).unwrap_or("");
    let mut before: Option<Token<'_>> = None;
    for next in Tokens::new(read) {
        if let Some(first) = before {
            walk.look_at(alloc, &first, &next)?;
            walk.pass(&first)?;
        }
        before = Some(next);
    }
    let Walk { gap, suspected, .. } = walk;
    Ok(Gaps {
        suspected,
        refused: gap,
    })
}

impl Walk<'_> {
    // Sees whether a definition begins with these tokens, or seems to within another.
    fn look_at(
        &mut self,
        alloc: Global,
        first: &Token<'_>,
        second: &Token<'_>,
    ) -> Result<(), AllocError> {
        let start = self.from.saturating_add(first.start);
        let Some((front, rest)) = self.text.split_at_checked(start) else {
            return Ok(());
        };
        if !stands_first(front, rest, 0) || !begins_definition(self.language, first, second) {
            return Ok(());
        }
        if self.gap.open.is_empty() {
            self.gap.definition = start;
        } else if self.suspected.is_none() && !is_within(rest, first, second) {
            let definition = self.gap.definition;
            let mut suspected = self.gap.within(alloc, definition)?;
            suspected.next = start;
            suspected.after = self.from.saturating_add(end_of(second));
            self.suspected = Some(suspected);
        }
        Ok(())
    }

    // Passes a token.
    fn pass(&mut self, token: &Token<'_>) -> Result<(), AllocError> {
        let start = self.from.saturating_add(token.start);
        match token.text {
            "{" => self.gap.open.push(Open { start, closes: '}' })?,
            "(" => self.gap.open.push(Open { start, closes: ')' })?,
            "[" => self.gap.open.push(Open { start, closes: ']' })?,
            "}" | ")" | "]" => {
                self.gap.open.pop();
                if self.gap.open.is_empty() {
                    self.suspected = None;
                }
            }
            _ => {}
        }
        self.gap.begin = start;
        self.gap.last = self.from.saturating_add(end_of(token));
        Ok(())
    }
}

// Whether a part of a definition may begin with these tokens though a definition does: with a brace, or with a keyword
// after which the line ends. The first is where this rest of the text begins.
fn is_within(rest: &str, first: &Token<'_>, second: &Token<'_>) -> bool {
    let length = second.start.saturating_sub(first.start);
    first.text == "{" || (first.kind.is_name() && !is_one_line(rest, 0, length))
}

// Whether a definition seems to begin at this token of a text.
fn is_definition(source: &Source<'_>, token: &Token<'_>) -> bool {
    let Some((front, rest)) = source.text.split_at_checked(token.start) else {
        return false;
    };
    let mut tokens = Tokens::new(rest);
    match (tokens.next(), tokens.next()) {
        (Some(first), Some(second)) => {
            stands_first(front, rest, 0) && begins_definition(source.language, &first, &second)
        }
        _ => false,
    }
}

// ---- what closes them

// Whether the brackets that are open before a line that begins as a definition does are missing there: that line may
// begin a document, the definition before it is whole with them, and what begins with it is read past the rejected
// token, before which the other place is; or up to the end of the text, with the brackets that are missing there too.
fn is_missing_before(
    alloc: Global,
    source: &Source<'_>,
    suspected: &Gap,
    refused: &Gap,
    token: &Token<'_>,
) -> Result<bool, AllocError> {
    if !begins_another(alloc, source, suspected)? || !is_whole(alloc, source, suspected)? {
        return Ok(false);
    }
    let rest = refused.within(alloc, suspected.next)?;
    if token.kind.is_end() {
        is_whole(alloc, source, &rest)
    } else {
        can_follow(alloc, source, &rest, 0, token)
    }
}

// Whether a document may begin as the text after this place does, up to the end of the line.
fn begins_another(alloc: Global, source: &Source<'_>, gap: &Gap) -> Result<bool, AllocError> {
    let text = source.text;
    let end = match text.split_at_checked(gap.after) {
        Some((_, rest)) => gap.after.saturating_add(length_of_line(rest)),
        None => text.len(),
    };
    match text.get(gap.next..end) {
        Some(line) => is_front(alloc, source, line),
        None => Ok(false),
    }
}

// Whether the definition before this place is whole once all brackets are closed that are open there: a document, or
// one but for a rule.
fn is_whole(alloc: Global, source: &Source<'_>, gap: &Gap) -> Result<bool, AllocError> {
    let mended = mended(alloc, source.text, gap, gap.open.len())?;
    let read = Source {
        text: mended.as_str(),
        ..*source
    };
    Ok(match error_of(&mut Memory::new(alloc), &read, true)? {
        Some(refused) => !matches!(
            refused.error,
            Error::Syntax { .. } | Error::RecursionLimitExceeded
        ),
        None => true,
    })
}

// Whether a token can come next once so many brackets are closed at a place.
fn can_follow(
    alloc: Global,
    source: &Source<'_>,
    gap: &Gap,
    count: usize,
    token: &Token<'_>,
) -> Result<bool, AllocError> {
    let mut mended = mended(alloc, source.text, gap, count)?;
    mended.push_str(token.text)?;
    is_front(alloc, source, mended.as_str())
}

// Whether a document may begin with this text, if it is read as the source is: whether no token before its end is
// rejected.
fn is_front(alloc: Global, source: &Source<'_>, text: &str) -> Result<bool, AllocError> {
    let read = Source { text, ..*source };
    match error_of(&mut Memory::new(alloc), &read, true)? {
        Some(refused) => Ok(match refused.token {
            Some(token) => token.kind.is_end(),
            None => true,
        }),
        None => Ok(true),
    }
}

// The definition up to a place, with so many brackets closed there.
fn mended(alloc: Global, text: &str, gap: &Gap, count: usize) -> Result<String, AllocError> {
    let closing = closing_at(alloc, text, gap, count)?;
    let before = text.get(gap.definition..closing.offset).unwrap_or("");
    let after = text.get(closing.offset..gap.next).unwrap_or("");
    let mut mended = String::from_str(alloc, before)?;
    mended.push_str(closing.new.as_str())?;
    mended.push_str(after)?;
    Ok(mended)
}

// What closes so many of the brackets that are open at a place, the inmost first. A bracket is closed in its line if
// that is where the last token stands, and else in a line of its own, which begins as the one does in which the bracket
// stands.
fn closing_at(alloc: Global, text: &str, gap: &Gap, count: usize) -> Result<Closing, AllocError> {
    let mut closing = Closing {
        offset: gap.last,
        new: String::new(alloc),
        brackets: String::new(alloc),
    };
    let mut here = gap.begin;
    for open in gap.open.iter().rev().take(count) {
        if is_one_line(text, open.start, here) {
            if open.closes == '}' {
                closing.new.push(' ')?;
            }
        } else {
            if closing.new.is_empty() {
                closing.offset = end_of_line(text, gap);
            }
            closing.new.push_str(line_end_at(text, closing.offset))?;
            closing.new.push_str(blanks_before(text, open.start))?;
        }
        here = open.start;
        closing.new.push(open.closes)?;
        closing.brackets.push(open.closes)?;
    }
    Ok(closing)
}

// Where the line ends in which the token before a place ends, if no token follows in it; else where the token ends.
fn end_of_line(text: &str, gap: &Gap) -> usize {
    let Some(between) = text.get(gap.last..gap.next) else {
        return gap.last;
    };
    let length = length_of_line(between);
    if length < between.len() || gap.next == text.len() {
        gap.last.saturating_add(length)
    } else {
        gap.last
    }
}

// Whether no line ends between these offsets.
fn is_one_line(text: &str, start: usize, end: usize) -> bool {
    match text.get(start..end) {
        Some(between) => !between.contains(['\n', '\r']),
        None => true,
    }
}

// How many bytes stand before the first end of a line.
fn length_of_line(text: &str) -> usize {
    match text.find(['\n', '\r']) {
        Some(length) => length,
        None => text.len(),
    }
}

// How a line ends at this offset.
fn line_end_at(text: &str, offset: usize) -> &'static str {
    match text.split_at_checked(offset) {
        Some((_, rest)) if rest.starts_with("\r\n") => "\r\n",
        _ => "\n",
    }
}

// The blanks with which the line begins in which this offset stands.
fn blanks_before(text: &str, offset: usize) -> &str {
    let Some((front, _)) = text.split_at_checked(offset) else {
        return "";
    };
    let line = match front.rsplit_once(['\n', '\r']) {
        Some((_, line)) => line,
        None => front,
    };
    let rest = line.trim_start_matches(|c: char| c == ' ' || c == '\t');
    match line.split_at_checked(line.len().saturating_sub(rest.len())) {
        Some((blanks, _)) => blanks,
        None => "",
    }
}
