//! What is shown of a name.
use crate::{NameKind, Span, Structure};
use graphql_tokens::lexer::{Token, TokenKind, Tokens};
use graphql_tokens::text::{block_string_value, string_value};
use std::alloc::{AllocError, Global};

// How many lines of a definition are shown, and how many characters of each.
const LINES: usize = 10;

const WIDTH: usize = 120;

/// What is shown of a name.
#[derive(Debug, Drop)]
pub struct Hover {
    /// A text in Markdown.
    pub markdown: String,
    /// Where the name is.
    pub span: Span,
}

// The value of a description, if the token is one.
fn described(alloc: Global, token: &Token<'_>) -> Result<Option<String>, AllocError> {
    let text = token.text;
    match token.kind {
        TokenKind::String => {
            let content = text.get(1..text.len().saturating_sub(1)).unwrap_or("");
            string_value(alloc, content)
        }
        TokenKind::Block => {
            let raw = text.get(3..text.len().saturating_sub(3)).unwrap_or("");
            Ok(Some(block_string_value(alloc, raw)?))
        }
        _ => Ok(None),
    }
}

// How many backticks stand beside one another in the text, at most.
fn backticks(text: &str) -> usize {
    let mut most: usize = 0;
    let mut here: usize = 0;
    for b in text.as_bytes() {
        here = if *b == b'`' {
            here.saturating_add(1)
        } else {
            0
        };
        most = most.max(here);
    }
    most
}

// Adds a line, or as much as is shown of it.
fn push_line(out: &mut String, line: &str) -> Result<(), AllocError> {
    for (count, c) in line.chars().enumerate() {
        if count == WIDTH {
            out.push_str(" \u{2026}")?;
            break;
        }
        out.push(c)?;
    }
    out.push('\n')
}

// The first lines of a definition.
fn first_lines(alloc: Global, code: &str) -> Result<String, AllocError> {
    let mut out = String::new(alloc);
    for (count, line) in code.lines().enumerate() {
        if count == LINES {
            out.push_str("\u{2026}\n")?;
            break;
        }
        push_line(&mut out, line)?;
    }
    Ok(out)
}

fn push_fence(out: &mut String, length: usize) -> Result<(), AllocError> {
    for _ in 0..length {
        out.push('`')?;
    }
    Ok(())
}

// The definition's first lines as a block of code, and its description after it.
fn markdown_of(alloc: Global, definition: &str) -> Result<String, AllocError> {
    let mut tokens = Tokens::new(definition);
    let mut start = 0;
    let mut description = None;
    if let Some(first) = tokens.next() {
        description = described(alloc, &first)?;
        if description.is_some()
            && let Some(second) = tokens.next()
        {
            start = second.start;
        }
    }
    let code = first_lines(alloc, definition.get(start..).unwrap_or(""))?;
    let fence = backticks(&code).saturating_add(1).max(3);
    let mut out = String::new(alloc);
    push_fence(&mut out, fence)?;
    out.push_str("graphql\n")?;
    out.push_str(&code)?;
    push_fence(&mut out, fence)?;
    if let Some(description) = description
        && !description.is_empty()
    {
        out.push_str("\n\n")?;
        out.push_str(&description)?;
    }
    Ok(out)
}

impl Structure {
    /// What is shown of the fragment or the type whose name is at an offset of the text that the structure is of, where it is
    /// defined or used: the first lines of its definition and its description. `None` where no such name is, or the text doesn't
    /// define it.
    ///
    /// It fails only where memory runs out.
    pub fn hover_at(
        &self,
        alloc: Global,
        text: &str,
        offset: usize,
    ) -> Result<Option<Hover>, AllocError> {
        let Some(name) = self.name_at(offset) else {
            return Ok(None);
        };
        if !matches!(name.kind, NameKind::Fragment | NameKind::Type) {
            return Ok(None);
        }
        let Some(defining) = self.defining(text, name) else {
            return Ok(None);
        };
        let Some(whole) = self.definitions().get(defining.definition).copied() else {
            return Ok(None);
        };
        let definition = text.get(whole.start..whole.end).unwrap_or("");
        let markdown = markdown_of(alloc, definition)?;
        Ok(Some(Hover {
            markdown,
            span: name.span,
        }))
    }
}
