//! What an editor asks of one GraphQL text, found in one walk over its tokens: the outline, what can be folded, whole
//! definitions, where names are defined and used, the ranges around a place, and what is shown of a name.
//!
//! It knows the brackets and the words that begin things, and no grammar. Of a text that a parser accepts it tells what the text
//! has; of another it tells what can be seen, and it fails for no text. Where no token begins, it goes on after what isn't one:
//! after the quote or the line of a string that is broken, after the number or the character else. Where a bracket is missing or
//! one too much, a word that begins a definition does so where it begins a line. Of brackets in brackets 10,000 are told apart.
//! (This project's choice, as all else that no section of GraphQL October 2021 says.)
//!
//! Places are byte offsets of the text. Every call takes time that is linear in the text, and fails only where memory runs out.
//!
//! Proved: every [`Span`] that a [`Structure`] gives lies within its text, the name of a [`Symbol`] in the whole of it, and each
//! of the spans of [`selection_at`] in the next one, which is longer. What they are of is tested.
#![tactic(auto)]

mod chain;
mod gaps;
mod hover;
mod names;
mod pieces;
mod roles;
mod selection;
mod structure;
mod walk;

pub use hover::Hover;
pub use selection::selection_at;
pub use structure::Structure;

/// A part of a text: the bytes from one offset up to another.
#[derive(Clone, Copy, Debug, PartialEq, Eq)]
pub struct Span {
    /// Where it begins.
    pub start: usize,
    /// Where it ends: the first byte that is no longer in it.
    pub end: usize,
}

/// What a line of the outline is (GraphQL October 2021, sections 2 and 3).
#[derive(Clone, Copy, Debug, PartialEq, Eq)]
pub enum SymbolKind {
    /// A query, also one that is written as its selections alone.
    Query,
    /// A mutation.
    Mutation,
    /// A subscription.
    Subscription,
    /// A fragment that is defined.
    Fragment,
    /// A variable that an operation defines.
    Variable,
    /// A field that is selected.
    SelectedField,
    /// An inline fragment.
    InlineFragment,
    /// A fragment that is spread.
    Spread,
    /// A schema.
    Schema,
    /// The type of a schema's operations of one kind.
    RootOperation,
    /// A scalar type.
    Scalar,
    /// An object type.
    ObjectType,
    /// An interface.
    Interface,
    /// A union.
    Union,
    /// An enum.
    Enum,
    /// A value of an enum.
    EnumValue,
    /// An input object.
    Input,
    /// A field of an input object.
    InputField,
    /// A directive that is defined.
    Directive,
    /// A field of an object type or an interface.
    Field,
    /// An argument that a field or a directive takes.
    Argument,
}

/// A line of the outline.
#[derive(Clone, Copy, Debug, PartialEq, Eq)]
pub struct Symbol {
    /// What it is.
    pub kind: SymbolKind,
    /// Its name. That of a variable has its `$`, that of a directive its `@`. A field that is selected by an alias has that name.
    /// Where there is none: of an operation its keyword or its brace, of a schema the keyword, and of an inline fragment its
    /// dots, up to its type if it names one.
    pub name: Span,
    /// All of it, from its description, if it has one, to its last token.
    pub whole: Span,
    /// The type of a field, an argument, a variable or a root operation, and the field that an alias is for.
    pub detail: Option<Span>,
    /// How many symbols it is in. The last one before it with a depth of one less is the innermost of these.
    pub depth: usize,
    /// Whether it extends what is defined elsewhere.
    pub is_extension: bool,
}

/// Why a part of a text can be folded.
#[derive(Clone, Copy, Debug, PartialEq, Eq)]
pub enum FoldKind {
    /// It is a pair of brackets with what is between them.
    Brackets,
    /// It is a block string.
    BlockString,
    /// It is comments, each on a line of its own, one line after another.
    Comments,
}

/// A part of a text that goes over at least two lines, and that can be folded.
#[derive(Clone, Copy, Debug, PartialEq, Eq)]
pub struct Fold {
    /// Why it can be.
    pub kind: FoldKind,
    /// Where it is, with its brackets or quotes. That of comments begins at a `#` and has no line end after the last one.
    pub span: Span,
}

/// What a name is the name of.
#[derive(Clone, Copy, Debug, PartialEq, Eq)]
pub enum NameKind {
    /// A fragment.
    Fragment,
    /// A variable of an operation.
    Variable,
    /// A type.
    Type,
    /// A directive.
    Directive,
}

/// What a name is there for.
#[derive(Clone, Copy, Debug, PartialEq, Eq)]
pub enum Role {
    /// It is defined there.
    Definition,
    /// It is used, or what it names is extended.
    Use,
}

/// A name in a text.
#[derive(Clone, Copy, Debug, PartialEq, Eq)]
pub struct Occurrence {
    /// What it is the name of.
    pub kind: NameKind,
    /// What it is there for.
    pub role: Role,
    /// Where it is, without its `$` or `@`.
    pub span: Span,
    /// In which definition of the text it is, counted from 0.
    pub definition: usize,
}
