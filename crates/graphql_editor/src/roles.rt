//! What tokens are to those before them, as far as the walk tells it.
use crate::SymbolKind;
use graphql_tokens::lexer::TokenKind;

/// A token, or what is left of a broken one.
#[derive(Clone, Copy)]
pub(crate) struct Word<'a> {
    /// What it is.
    pub kind: TokenKind,
    /// Its spelling.
    pub text: &'a str,
    /// Where it begins.
    pub start: usize,
    /// Where it ends.
    pub end: usize,
    /// The first character of a punctuator, which no other has, and a blank for what is none.
    pub mark: u8,
}

impl<'a> Word<'a> {
    /// The word of a token that begins at this offset.
    pub fn new(kind: TokenKind, text: &'a str, start: usize) -> Word<'a> {
        let mark = match text.as_bytes().first() {
            Some(mark) if kind.is_punct() => *mark,
            _ => b' ',
        };
        Word {
            kind,
            text,
            start,
            end: start.saturating_add(text.len()),
            mark,
        }
    }
}

/// What a bracket holds.
#[derive(Clone, Copy)]
pub(crate) enum Bracket {
    /// The definitions of the text. It is the text itself.
    Definitions,
    /// What an operation or a fragment selects.
    Selections,
    /// The variables of an operation.
    Variables,
    /// The fields of an object type or an interface.
    Fields,
    /// The arguments that a field or a directive takes.
    Parameters,
    /// The values of an enum.
    EnumValues,
    /// The fields of an input object.
    Inputs,
    /// The root operations of a schema.
    Roots,
    /// The arguments that a field or a directive is given.
    Arguments,
    /// The fields of an object that is a value.
    Object,
    /// The items of a list that is a value.
    List,
    /// The type of the items of a list type.
    Types,
    /// What no text has that is right.
    Other,
}

impl Bracket {
    /// What a member of the bracket is that begins with a name, if the outline lists it.
    pub fn member(self) -> Option<SymbolKind> {
        match self {
            Bracket::Selections => Some(SymbolKind::SelectedField),
            Bracket::Fields => Some(SymbolKind::Field),
            Bracket::Parameters => Some(SymbolKind::Argument),
            Bracket::EnumValues => Some(SymbolKind::EnumValue),
            Bracket::Inputs => Some(SymbolKind::InputField),
            Bracket::Roots => Some(SymbolKind::RootOperation),
            _ => None,
        }
    }

    /// What a name is, at the beginning of a member.
    pub fn first_place(self) -> Place {
        match self {
            Bracket::Types => Place::Type,
            Bracket::List => Place::Value,
            _ => Place::Plain,
        }
    }

    /// What a name is, after a colon in a member.
    pub fn place_after_colon(self) -> Place {
        match self {
            Bracket::Variables
            | Bracket::Fields
            | Bracket::Parameters
            | Bracket::Inputs
            | Bracket::Roots => Place::Type,
            Bracket::Arguments | Bracket::Object => Place::Value,
            _ => Place::Plain,
        }
    }
}

/// What a name is in a member of a bracket.
#[derive(Clone, Copy)]
pub(crate) enum Place {
    /// The name of the member, or of what the walk doesn't tell.
    Plain,
    /// A type.
    Type,
    /// A value.
    Value,
}

/// What the token before was, as far as it decides what the next one is.
#[derive(Clone, Copy)]
pub(crate) enum Last {
    /// There is none.
    Start,
    /// It opened a bracket.
    Opening,
    /// `@`
    At,
    /// `$`
    Dollar,
    /// `...`
    Dots,
    /// `:`
    Colon,
    /// `=`
    Equals,
    /// `extend`
    Extend,
    /// Another after which a name belongs to it.
    Wanting,
    /// A description.
    Description,
    /// One after which the next may begin something.
    Whole,
    /// A `}` that ended a definition.
    Closed,
}

/// What a punctuator that closes no bracket is to the next token.
pub(crate) fn after_punct(mark: u8) -> Last {
    match mark {
        b'(' | b'[' | b'{' => Last::Opening,
        b'@' => Last::At,
        b'$' => Last::Dollar,
        b'.' => Last::Dots,
        b':' => Last::Colon,
        b'=' => Last::Equals,
        b'&' | b'|' => Last::Wanting,
        _ => Last::Whole,
    }
}

/// What is defined by a definition that begins with this word.
pub(crate) fn defined_by(keyword: &str) -> Option<SymbolKind> {
    match keyword {
        "query" => Some(SymbolKind::Query),
        "mutation" => Some(SymbolKind::Mutation),
        "subscription" => Some(SymbolKind::Subscription),
        "fragment" => Some(SymbolKind::Fragment),
        "schema" => Some(SymbolKind::Schema),
        "scalar" => Some(SymbolKind::Scalar),
        "type" => Some(SymbolKind::ObjectType),
        "interface" => Some(SymbolKind::Interface),
        "union" => Some(SymbolKind::Union),
        "enum" => Some(SymbolKind::Enum),
        "input" => Some(SymbolKind::Input),
        "directive" => Some(SymbolKind::Directive),
        _ => None,
    }
}

/// What `(` opens after the head of a definition.
pub(crate) fn round_of(defined: Option<SymbolKind>) -> Bracket {
    match defined {
        Some(
            SymbolKind::Query
            | SymbolKind::Mutation
            | SymbolKind::Subscription
            | SymbolKind::Fragment,
        ) => Bracket::Variables,
        Some(SymbolKind::Directive) => Bracket::Parameters,
        _ => Bracket::Other,
    }
}

/// What `{` opens after the head of a definition.
pub(crate) fn body_of(defined: Option<SymbolKind>) -> Bracket {
    match defined {
        Some(
            SymbolKind::Query
            | SymbolKind::Mutation
            | SymbolKind::Subscription
            | SymbolKind::Fragment,
        ) => Bracket::Selections,
        Some(SymbolKind::Schema) => Bracket::Roots,
        Some(SymbolKind::ObjectType | SymbolKind::Interface) => Bracket::Fields,
        Some(SymbolKind::Enum) => Bracket::EnumValues,
        Some(SymbolKind::Input) => Bracket::Inputs,
        _ => Bracket::Other,
    }
}

/// What closes the bracket that this punctuator opens.
pub(crate) fn closer_of(mark: u8) -> u8 {
    match mark {
        b'(' => b')',
        b'[' => b']',
        _ => b'}',
    }
}

/// Whether a word goes on with the head of a definition, after its name.
pub(crate) fn is_clause(spelling: &str) -> bool {
    matches!(spelling, "implements" | "on" | "repeatable")
}
