//! The tokens that an error about definitions is about. Places need not tell them apart: after a lone carriage return a
//! second definition may have the place of the first.
ghost use Rattle.std.specs.Prelude.{◌≡◌, ◌↔◌, true, [], ◌∷◌, IfOk};
ghost use Rattle.graphql_report.specs.reports.Offsets.{AreErrorOffsets, AreOffsetsOf, IsOffsetOf};

use graphql_parser::lexer::{Token, Tokens};
use graphql_parser::{Error, Pos};
use std::alloc::{AllocError, Global};

/// Where the tokens stand that an error about definitions is about, as byte offsets. (This project's own type.)
#[derive(Clone, Copy)]
pub struct ErrorOffsets {
    /// The token at the first place of the report; the length of the text if the error names none.
    pub first: usize,
    /// The second place; None of an error that names one place at most.
    pub second: Option<SecondPlace>,
}

/// The second place of an error about definitions. (This project's own type.)
#[derive(Clone, Copy)]
pub struct SecondPlace {
    pub place: Pos,
    /// The token there, as a byte offset.
    pub offset: usize,
    /// What the report says of it.
    pub remark: &'static str,
}

/// Where the tokens stand in `text` that `error` is about, an error about definitions that a parser returned for it: for
/// each place of the error a token that has it, by its name if several have it, or the length of the text if none has.
/// For other errors it returns the length of the text. An error says that memory was refused. (This project's own call.)
pub fn error_offsets(alloc: Global, text: &str, error: &Error) -> Result<ErrorOffsets, AllocError>
    ensures { IfOk result (AreErrorOffsets text.now error.now) }
{
    match error {
        Error::OperationDuplicated {
            operation: name,
            first,
            second,
        } => {
            let definitions = definitions_of(alloc, text)?;
            let starts = namesakes(definitions.as_slice(), false, name.as_str());
            Ok(offsets_at(text, starts, *second, *first, "it is first defined here"))
        }
        Error::FragmentDuplicated {
            fragment: name,
            first,
            second,
        } => {
            let definitions = definitions_of(alloc, text)?;
            let starts = namesakes(definitions.as_slice(), true, name.as_str());
            Ok(offsets_at(text, starts, *second, *first, "it is first defined here"))
        }
        Error::MultipleOperations {
            anonymous,
            operation,
        } => {
            let definitions = definitions_of(alloc, text)?;
            let starts = anonymous_and_other(definitions.as_slice());
            Ok(offsets_at(
                text,
                starts,
                *anonymous,
                *operation,
                "another operation is here",
            ))
        }
        Error::MultipleRoots { root, schema, pos } => {
            let word = format!(in alloc; "{root}")?;
            let roots = roots_of(alloc, text)?;
            let starts = repeated_root(roots.as_slice(), word.as_str(), *schema);
            Ok(offsets_at(text, starts, *pos, *schema, "the schema begins here"))
        }
        Error::MissingQueryRoot { pos } => {
            let roots = roots_of(alloc, text)?;
            let start = schema_without_query(roots.as_slice(), *pos);
            Ok(ErrorOffsets {
                first: offset_of(text, start, *pos),
                second: None,
            })
        }
        Error::Syntax { .. }
        | Error::RecursionLimitExceeded
        | Error::MissingOperation
        | Error::OutOfMemory => Ok(ErrorOffsets {
            first: text.len(),
            second: None,
        }),
    }
}

// Where two tokens begin, the more important first; 0 of one that wasn't found.
type Starts = (usize, usize);

// Where both begin, if they stand at these places; and what is said of the second.
fn offsets_at(
    text: &str,
    starts: Starts,
    first: Pos,
    second: Pos,
    remark: &'static str,
) -> ErrorOffsets
    ensures { AreOffsetsOf text.now (first ∷ second ∷ []) remark.now result }
{
    ErrorOffsets {
        first: offset_of(text, starts.0, first),
        second: Some(SecondPlace {
            place: second,
            offset: offset_of(text, starts.1, second),
            remark,
        }),
    }
}

// The byte offset of a token that stands at this place: of the first that doesn't begin before `start`, or else of the
// last; the length of the text if none stands there.
fn offset_of(text: &str, start: usize, place: Pos) -> usize
    ensures { IsOffsetOf text.now place result }
{
    let mut offset = text.len();
    for token in Tokens::new(text) {
        if stands_at(&token, place) {
            if token.start >= start {
                return token.start;
            }
            offset = token.start;
        }
    }
    offset
}

fn stands_at(token: &Token<'_>, place: Pos) -> bool
    ensures { (result ≡ true) ↔ (token.now.pos ≡ place) }
{
    token.pos == place
}

// How many braces and parentheses are open after a token, if so many were before it.
fn depth_after(depth: usize, token: &Token<'_>) -> usize {
    match token.text {
        "{" | "(" => depth.saturating_add(1),
        "}" | ")" => depth.saturating_sub(1),
        _ => depth,
    }
}

// ---- requests

// The first two tokens of a definition of a request.
#[derive(Clone, Copy)]
struct Definition<'a> {
    first: Token<'a>,
    second: Token<'a>,
}

impl<'a> Definition<'a> {
    fn is_fragment(&self) -> bool {
        self.first.text == "fragment"
    }

    // The word after the keyword; empty if there is none.
    fn name(&self) -> &'a str {
        if self.first.kind.is_name() && self.second.kind.is_name() {
            self.second.text
        } else {
            ""
        }
    }
}

// The definitions of a request that has a tree: one begins with the text, and one after each brace that closes another.
fn definitions_of<'a>(alloc: Global, text: &'a str) -> Result<Vec<Definition<'a>>, AllocError> {
    let mut definitions: Vec<Definition<'a>> = Vec::new(alloc);
    let mut depth = 0usize;
    let mut is_first = true;
    let mut begun: Option<Token<'a>> = None;
    for token in Tokens::new(text) {
        if let Some(first) = begun {
            definitions.push(Definition {
                first,
                second: token,
            })?;
        }
        begun = if is_first { Some(token) } else { None };
        depth = depth_after(depth, &token);
        is_first = depth == 0 && token.text == "}";
    }
    Ok(definitions)
}

// The second operation of this name and the first, or the second fragment and the first.
fn namesakes(definitions: &[Definition<'_>], are_fragments: bool, name: &str) -> Starts {
    let mut earlier = None;
    for definition in definitions {
        if definition.is_fragment() == are_fragments && definition.name() == name {
            let start = definition.first.start;
            if let Some(earlier) = earlier {
                return (start, earlier);
            }
            earlier = Some(start);
        }
    }
    (0, earlier.unwrap_or(0))
}

// The first operation, and the next one if either of them has no name: first the one without a name, then the other.
fn anonymous_and_other(definitions: &[Definition<'_>]) -> Starts {
    let mut earliest: Option<Definition<'_>> = None;
    for definition in definitions {
        if definition.is_fragment() {
            continue;
        }
        let start = definition.first.start;
        match earliest {
            None => earliest = Some(*definition),
            Some(other) if definition.name().is_empty() => return (start, other.first.start),
            Some(other) if other.name().is_empty() => return (other.first.start, start),
            Some(_) => {}
        }
    }
    (0, 0)
}

// ---- schema files

// The keyword of a root, and the first token of the definition or extension of a schema in which it stands.
#[derive(Clone, Copy)]
struct Root<'a> {
    schema: Token<'a>,
    keyword: Token<'a>,
}

// After one of these a name may stand that is spelled as a keyword.
const BEFORE_NAMES: [&str; 11] = [
    "type",
    "interface",
    "union",
    "enum",
    "input",
    "scalar",
    "implements",
    "&",
    "|",
    "=",
    "@",
];

// The first token of the definition whose keyword this is: `extend`, or a description, or the keyword itself.
fn first_of<'a>(before: Option<Token<'a>>, keyword: Token<'a>) -> Token<'a> {
    match before {
        Some(token) if token.text == "extend" || token.kind.is_string() || token.kind.is_block() =>
            { token }
        _ => keyword,
    }
}

// The roots of a schema file that has a tree.
fn roots_of<'a>(alloc: Global, text: &'a str) -> Result<Vec<Root<'a>>, AllocError> {
    let mut roots: Vec<Root<'a>> = Vec::new(alloc);
    let mut schema: Option<Token<'a>> = None;
    let mut before: Option<Token<'a>> = None;
    let mut depth = 0usize;
    let mut is_body = false;
    for token in Tokens::new(text) {
        let text_before = before.map_or("", |token| token.text);
        let is_named = token.kind.is_name();
        if depth == 0 && is_named && text_before != "@" {
            schema = schema_at(before, token, text_before);
        }
        if let Some(schema) = schema
            && depth == 1
            && is_body
            && is_named
            && text_before != ":"
        {
            roots.push(Root {
                schema,
                keyword: token,
            })?;
        }
        is_body = is_body_after(is_body, depth, token.text);
        depth = depth_after(depth, &token);
        before = Some(token);
    }
    Ok(roots)
}

// The first token of a schema's definition, if this word outside of braces is its keyword.
fn schema_at<'a>(
    before: Option<Token<'a>>,
    word: Token<'a>,
    text_before: &str,
) -> Option<Token<'a>> {
    if word.text == "schema" && !BEFORE_NAMES.contains(&text_before) {
        Some(first_of(before, word))
    } else {
        None
    }
}

// Whether what follows this token is within the braces of a definition.
fn is_body_after(is_body: bool, depth: usize, token: &str) -> bool {
    if depth == 0 { token == "{" } else { is_body }
}

// The first root that its schema, at this place, names a second time, and the schema.
fn repeated_root(roots: &[Root<'_>], word: &str, place: Pos) -> Starts {
    let mut earlier: Option<usize> = None;
    for root in roots {
        let schema = root.schema.start;
        if root.keyword.text == word && root.schema.pos == place {
            if earlier == Some(schema) {
                return (root.keyword.start, schema);
            }
            earlier = Some(schema);
        }
    }
    (0, 0)
}

// The first schema definition at this place that names no query root.
fn schema_without_query(roots: &[Root<'_>], place: Pos) -> usize {
    let mut schema: Option<usize> = None;
    let mut is_lacking = false;
    for root in roots {
        if schema != Some(root.schema.start) {
            if is_lacking {
                break;
            }
            schema = Some(root.schema.start);
            is_lacking = root.schema.pos == place && root.schema.text != "extend";
        }
        is_lacking = is_lacking && root.keyword.text != "query";
    }
    if is_lacking { schema.unwrap_or(0) } else { 0 }
}
