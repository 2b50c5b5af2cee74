//! What a phrase consists of, by the lookahead.
ghost use Rattle.std.specs.Prelude.{◌≡◌, ◌≤◌, ◌++◌, ◌∷◌, ◌||◌, ◌&&◌, [], cond, drop, length, not, reverse, OnOk};
ghost use Rattle.graphql_reading.specs.grammar.Limits.{Limits as Budgets};
ghost use Rattle.graphql_reading.specs.grammar.Tests.{punct};
ghost use Rattle.graphql_grammar.specs.reading.Values.{simple_first, value_first};
ghost use Rattle.graphql_schemas.specs.reading.Members.{enum_value_first};
ghost use Rattle.graphql_schemas.specs.reading.Types.{part_first, field_part_first};
ghost use Rattle.graphql_report.specs.declared.phrases.Phrase.TheVariants as phrases;
ghost use Rattle.graphql_report.specs.inner.Left.{Becomes, mark_text, word_by};

use crate::phrases::{Keyword, Mark, Phrase};
use crate::steps::{is_at, is_at_operation_type};
use graphql_parser::Limits;
use graphql_reading::parser::Parser;
use graphql_reading::production::Production;
use graphql_requests::definitions::Definition;
use graphql_requests::selections::{is_at_fragment_name, is_at_inline, is_at_selection};
use graphql_schemas::definitions::is_at_definition;
use graphql_schemas::descriptions::is_at_description;
use graphql_schemas::input_values::is_at_member;
use graphql_schemas::members::is_at_enum_name;
use graphql_schemas::types::Word;
use std::alloc::AllocError;

/// Puts these phrases in front of what is left, the first of them next.
pub fn put(left: &mut Vec<Phrase>, phrases: &[Phrase]) -> Result<(), AllocError>
    ensures { OnOk result (left.new.items ≡ left.old.items ++ reverse phrases.now) }
{
    let mut next = phrases.len();
    while next > 0 {
        next -= 1;
        left.push(phrases[next])?;
    }
    Ok(())
}

// The one or the other.
fn either(
    left: &mut Vec<Phrase>,
    is_there: bool,
    phrases: &[Phrase],
    others: &[Phrase],
) -> Result<(), AllocError>
    ensures { OnOk result (left.new.items ≡ left.old.items ++ reverse (cond is_there phrases.now others.now)) }
{
    if is_there {
        put(left, phrases)
    } else {
        put(left, others)
    }
}

/// Puts what a phrase consists of, by the lookahead, in its place.
pub fn take_apart(
    left: &mut Vec<Phrase>,
    phrase: Phrase,
    limits: Limits,
    parser: &Parser,
) -> Result<(), AllocError>
    ensures { OnOk result (Becomes limits parser.now.hand.bare (left.old.items ++ phrase ∷ []) left.new.items) }
{
    match phrase {
        Phrase::MaybeMark(mark) => { either(left, is_at(parser, mark), &[Phrase::Mark(mark)], &[]) }
        Phrase::MaybeName => either(left, parser.is_at_name(), &[Phrase::Name], &[]),
        Phrase::Value { variables, levels } => either(
            left,
            is_at_simple(parser, variables),
            &[Phrase::Simple { variables }],
            &[Phrase::Bracketed { variables, levels }],
        ),
        Phrase::Simple { variables } => either(
            left,
            parser.is_at_name(),
            &[Phrase::Name],
            &[Phrase::Unnamed { variables }],
        ),
        Phrase::Unnamed { variables } => either(
            left,
            parser.is_at_punct("$"),
            &[Phrase::Dollar { variables }, Phrase::Name],
            &[Phrase::Literal],
        ),
        Phrase::Bracketed { variables, levels } => {
            take_bracketed_apart(left, variables, levels, parser)
        }
        Phrase::Values { variables, levels } => either(
            left,
            is_at_value(parser, variables),
            &[
                Phrase::Value { variables, levels },
                Phrase::Values { variables, levels },
            ],
            &[],
        ),
        Phrase::ObjectFields { variables, levels } => either(
            left,
            parser.is_at_name(),
            &[
                Phrase::Name,
                Phrase::Mark(Mark::Colon),
                Phrase::Value { variables, levels },
                Phrase::ObjectFields { variables, levels },
            ],
            &[],
        ),
        Phrase::Arguments { variables } => either(
            left,
            parser.is_at_name(),
            &[
                Phrase::Name,
                Phrase::Mark(Mark::Colon),
                Phrase::OwnValue { variables },
                Phrase::Arguments { variables },
            ],
            &[],
        ),
        Phrase::MaybeArguments { variables } => either(
            left,
            parser.is_at_punct("("),
            &[
                Phrase::Mark(Mark::OpenParen),
                Phrase::Name,
                Phrase::Mark(Mark::Colon),
                Phrase::OwnValue { variables },
                Phrase::Arguments { variables },
                Phrase::Mark(Mark::CloseParen),
            ],
            &[],
        ),
        Phrase::Directives { variables } => either(
            left,
            parser.is_at_punct("@"),
            &[
                Phrase::Mark(Mark::At),
                Phrase::Name,
                Phrase::MaybeArguments { variables },
                Phrase::Directives { variables },
            ],
            &[],
        ),
        Phrase::MaybeDefault => either(
            left,
            parser.is_at_punct("="),
            &[
                Phrase::Mark(Mark::Equals),
                Phrase::OwnValue { variables: false },
            ],
            &[],
        ),
        Phrase::Type { levels } => take_type_apart(left, levels, parser),
        Phrase::OwnValue { variables } => put(
            left,
            &[Phrase::Value {
                variables,
                levels: limits.values(),
            }],
        ),
        Phrase::OwnType => put(
            left,
            &[Phrase::Type {
                levels: limits.types(),
            }],
        ),
        Phrase::OwnSet => put(
            left,
            &[Phrase::Set {
                levels: limits.selections(),
            }],
        ),
        _ => take_request_apart(left, phrase, parser),
    }
}

// Whether the lookahead begins a value that is neither a list nor an object.
fn is_at_simple(parser: &Parser, variables: bool) -> bool
    ensures { result ≡ simple_first variables parser.now.hand.bare }
{
    let kind = parser.hand().kind;
    parser.is_at_name()
        || kind.is_number()
        || kind.is_string()
        || kind.is_block()
        || (parser.is_at_punct("$") && variables)
}

// Whether the lookahead begins a value.
fn is_at_value(parser: &Parser, variables: bool) -> bool
    ensures { result ≡ value_first variables parser.now.hand.bare }
{
    is_at_simple(parser, variables) || parser.is_at_punct("[") || parser.is_at_punct("{")
}

// `'[' Value* ']' | '{' ObjectField* '}'`
fn take_bracketed_apart(
    left: &mut Vec<Phrase>,
    variables: bool,
    levels: usize,
    parser: &Parser,
) -> Result<(), AllocError>
    ensures { OnOk result ((limits : Budgets) → Becomes limits parser.now.hand.bare
        (left.old.items ++ phrases.Bracketed variables levels ∷ []) left.new.items) }
{
    if levels == 0 {
        let opens = parser.is_at_punct("[") || parser.is_at_punct("{");
        return either(left, opens, &[Phrase::TooDeep], &[Phrase::Never]);
    }
    let levels = levels - 1;
    either(
        left,
        parser.is_at_punct("["),
        &[
            Phrase::Mark(Mark::OpenBracket),
            Phrase::Values { variables, levels },
            Phrase::Mark(Mark::CloseBracket),
        ],
        &[
            Phrase::Mark(Mark::OpenBrace),
            Phrase::ObjectFields { variables, levels },
            Phrase::Mark(Mark::CloseBrace),
        ],
    )
}

// `Name '!'? | '[' Type ']' '!'?`
fn take_type_apart(left: &mut Vec<Phrase>, levels: usize, parser: &Parser) -> Result<(), AllocError>
    ensures { OnOk result ((limits : Budgets) → Becomes limits parser.now.hand.bare
        (left.old.items ++ phrases.Type levels ∷ []) left.new.items) }
{
    let named = [Phrase::Name, Phrase::MaybeMark(Mark::Bang)];
    if parser.is_at_name() {
        return put(left, &named);
    }
    if levels == 0 {
        return either(
            left,
            parser.is_at_punct("["),
            &[Phrase::TooDeep],
            &[Phrase::Never],
        );
    }
    put(
        left,
        &[
            Phrase::Mark(Mark::OpenBracket),
            Phrase::Type { levels: levels - 1 },
            Phrase::Mark(Mark::CloseBracket),
            Phrase::MaybeMark(Mark::Bang),
        ],
    )
}

// The same of what only requests have.
fn take_request_apart(
    left: &mut Vec<Phrase>,
    phrase: Phrase,
    parser: &Parser,
) -> Result<(), AllocError>
    ensures { OnOk result ((limits : Budgets) → Becomes limits parser.now.hand.bare
        (left.old.items ++ phrase ∷ []) left.new.items) }
{
    match phrase {
        Phrase::MaybeVariables => either(
            left,
            parser.is_at_punct("("),
            &[
                Phrase::Mark(Mark::OpenParen),
                Phrase::VariableDefinition,
                Phrase::VariableDefinitions,
                Phrase::Mark(Mark::CloseParen),
            ],
            &[],
        ),
        Phrase::VariableDefinition => put(
            left,
            &[
                Phrase::Dollar { variables: true },
                Phrase::Name,
                Phrase::Mark(Mark::Colon),
                Phrase::OwnType,
                Phrase::AfterType,
            ],
        ),
        Phrase::VariableDefinitions => either(
            left,
            parser.is_at_punct("$"),
            &[Phrase::VariableDefinition, Phrase::VariableDefinitions],
            &[],
        ),
        Phrase::AfterType => either(
            left,
            parser.is_at_punct("="),
            &[Phrase::MaybeDefault, Phrase::Directives { variables: true }],
            &[Phrase::Directives { variables: true }, Phrase::MaybeDefault],
        ),
        Phrase::Set { levels } => put(
            left,
            &[
                Phrase::Mark(Mark::OpenBrace),
                Phrase::Selection { levels },
                Phrase::Selections { levels },
                Phrase::Mark(Mark::CloseBrace),
            ],
        ),
        Phrase::Selections { levels } => either(
            left,
            is_at_selection(parser),
            &[Phrase::Selection { levels }, Phrase::Selections { levels }],
            &[],
        ),
        Phrase::Selection { levels } => either(
            left,
            parser.is_at_punct("..."),
            &[Phrase::Mark(Mark::Dots), Phrase::AfterDots { levels }],
            &[
                Phrase::Name,
                Phrase::MaybeAliased,
                Phrase::MaybeArguments { variables: true },
                Phrase::Directives { variables: true },
                Phrase::MaybeSet { levels },
            ],
        ),
        Phrase::MaybeAliased => either(
            left,
            parser.is_at_punct(":"),
            &[Phrase::Mark(Mark::Colon), Phrase::Name],
            &[],
        ),
        Phrase::AfterDots { levels } => either(
            left,
            is_at_fragment_name(parser),
            &[Phrase::FragmentName, Phrase::Directives { variables: true }],
            &[Phrase::Inline { levels }],
        ),
        Phrase::MaybeSet { levels } => take_set_apart(left, levels, parser),
        Phrase::Inline { levels } => take_inline_apart(left, levels, parser),
        Phrase::MaybeCondition => either(
            left,
            parser.is_at_keyword("on"),
            &[Phrase::Keyword(Keyword::On), Phrase::Name],
            &[],
        ),
        Phrase::RequestDefinition => either(
            left,
            parser.is_at_punct("{"),
            &[Phrase::OwnSet],
            &[Phrase::WordedDefinition],
        ),
        Phrase::WordedDefinition => either(
            left,
            parser.is_at_keyword("fragment"),
            &[
                Phrase::Keyword(Keyword::Fragment),
                Phrase::FragmentName,
                Phrase::Keyword(Keyword::On),
                Phrase::Name,
                Phrase::Directives { variables: true },
                Phrase::OwnSet,
            ],
            &[
                Phrase::OperationType,
                Phrase::MaybeName,
                Phrase::MaybeVariables,
                Phrase::Directives { variables: true },
                Phrase::OwnSet,
            ],
        ),
        Phrase::RequestDefinitions => either(
            left,
            Definition::is_next(parser),
            &[Phrase::RequestDefinition, Phrase::RequestDefinitions],
            &[],
        ),
        _ => take_schema_apart(left, phrase, parser),
    }
}

// `SelectionSet?`
fn take_set_apart(left: &mut Vec<Phrase>, levels: usize, parser: &Parser) -> Result<(), AllocError>
    ensures { OnOk result ((limits : Budgets) → Becomes limits parser.now.hand.bare
        (left.old.items ++ phrases.MaybeSet levels ∷ []) left.new.items) }
{
    let is_there = parser.is_at_punct("{");
    if levels == 0 {
        return either(left, is_there, &[Phrase::TooDeep], &[]);
    }
    let levels = levels - 1;
    either(left, is_there, &[Phrase::Set { levels }], &[])
}

// `TypeCondition? Directives? SelectionSet`
fn take_inline_apart(
    left: &mut Vec<Phrase>,
    levels: usize,
    parser: &Parser,
) -> Result<(), AllocError>
    ensures { OnOk result ((limits : Budgets) → Becomes limits parser.now.hand.bare
        (left.old.items ++ phrases.Inline levels ∷ []) left.new.items) }
{
    if levels == 0 {
        return either(
            left,
            is_at_inline(parser),
            &[Phrase::TooDeep],
            &[Phrase::Never],
        );
    }
    let levels = levels - 1;
    put(
        left,
        &[
            Phrase::MaybeCondition,
            Phrase::Directives { variables: true },
            Phrase::Set { levels },
        ],
    )
}

// The same of what only schema files have, but for types.
fn take_schema_apart(
    left: &mut Vec<Phrase>,
    phrase: Phrase,
    parser: &Parser,
) -> Result<(), AllocError>
    ensures { OnOk result ((limits : Budgets) → Becomes limits parser.now.hand.bare
        (left.old.items ++ phrase ∷ []) left.new.items) }
{
    match phrase {
        Phrase::SchemaDefinitions => either(
            left,
            is_at_definition(parser),
            &[Phrase::SchemaDefinition, Phrase::SchemaDefinitions],
            &[],
        ),
        Phrase::SchemaDefinition => either(
            left,
            parser.is_at_keyword("extend"),
            &[Phrase::Keyword(Keyword::Extend), Phrase::Extended],
            &[Phrase::MaybeDescription, Phrase::Undescribed],
        ),
        Phrase::Extended => either(
            left,
            parser.is_at_keyword("schema"),
            &[Phrase::Keyword(Keyword::Schema), Phrase::RootParts],
            &[Phrase::TypeBody { extend: true }],
        ),
        Phrase::RootParts => either(
            left,
            is_at_part(parser, Mark::OpenBrace),
            &[Phrase::Directives { variables: false }, Phrase::MaybeRoots],
            &[Phrase::Never],
        ),
        Phrase::Undescribed => either(
            left,
            parser.is_at_keyword("schema"),
            &[
                Phrase::Keyword(Keyword::Schema),
                Phrase::Directives { variables: false },
                Phrase::Mark(Mark::OpenBrace),
                Phrase::Root,
                Phrase::Roots,
                Phrase::Mark(Mark::CloseBrace),
            ],
            &[Phrase::NoSchema],
        ),
        Phrase::NoSchema => either(
            left,
            parser.is_at_keyword("directive"),
            &[
                Phrase::Keyword(Keyword::Directive),
                Phrase::Mark(Mark::At),
                Phrase::Name,
                Phrase::MaybeArgumentsDefinition,
                Phrase::MaybeRepeatable,
                Phrase::Keyword(Keyword::On),
                Phrase::MaybeMark(Mark::Bar),
                Phrase::Location,
                Phrase::Locations,
            ],
            &[Phrase::TypeBody { extend: false }],
        ),
        Phrase::MaybeRepeatable => either(
            left,
            parser.is_at_keyword("repeatable"),
            &[Phrase::Keyword(Keyword::Repeatable)],
            &[],
        ),
        Phrase::Locations => either(
            left,
            parser.is_at_punct("|"),
            &[Phrase::Mark(Mark::Bar), Phrase::Location, Phrase::Locations],
            &[],
        ),
        Phrase::MaybeRoots => either(
            left,
            parser.is_at_punct("{"),
            &[
                Phrase::Mark(Mark::OpenBrace),
                Phrase::Root,
                Phrase::Roots,
                Phrase::Mark(Mark::CloseBrace),
            ],
            &[],
        ),
        Phrase::Roots => either(
            left,
            is_at_operation_type(parser),
            &[Phrase::Root, Phrase::Roots],
            &[],
        ),
        Phrase::Root => put(
            left,
            &[
                Phrase::OperationType,
                Phrase::Mark(Mark::Colon),
                Phrase::Name,
            ],
        ),
        Phrase::MaybeDescription => either(left, is_at_description(parser), &[Phrase::Text], &[]),
        _ => take_type_definition_apart(left, phrase, parser),
    }
}

// The same of types.
fn take_type_definition_apart(
    left: &mut Vec<Phrase>,
    phrase: Phrase,
    parser: &Parser,
) -> Result<(), AllocError>
    ensures { OnOk result ((limits : Budgets) → Becomes limits parser.now.hand.bare
        (left.old.items ++ phrase ∷ []) left.new.items) }
{
    match phrase {
        Phrase::TypeBody { extend } => {
            let (keyword, word) = word_of(parser);
            put(
                left,
                &[
                    Phrase::Keyword(keyword),
                    Phrase::Name,
                    Phrase::Rest { extend, word },
                ],
            )
        }
        Phrase::Rest { extend, word } => take_rest_apart(left, extend, word, parser),
        Phrase::MaybeImplements => either(
            left,
            parser.is_at_keyword("implements"),
            &[
                Phrase::Keyword(Keyword::Implements),
                Phrase::MaybeMark(Mark::And),
                Phrase::Name,
                Phrase::Names(Mark::And),
            ],
            &[],
        ),
        Phrase::Names(mark) => either(
            left,
            is_at(parser, mark),
            &[Phrase::Mark(mark), Phrase::Name, Phrase::Names(mark)],
            &[],
        ),
        Phrase::MaybeFields => either(
            left,
            parser.is_at_punct("{"),
            &[
                Phrase::Mark(Mark::OpenBrace),
                Phrase::FieldDefinition,
                Phrase::FieldDefinitions,
                Phrase::Mark(Mark::CloseBrace),
            ],
            &[],
        ),
        Phrase::FieldDefinition => put(
            left,
            &[
                Phrase::MaybeDescription,
                Phrase::Name,
                Phrase::MaybeArgumentsDefinition,
                Phrase::Mark(Mark::Colon),
                Phrase::OwnType,
                Phrase::Directives { variables: false },
            ],
        ),
        Phrase::FieldDefinitions => either(
            left,
            is_at_member(parser),
            &[Phrase::FieldDefinition, Phrase::FieldDefinitions],
            &[],
        ),
        Phrase::MaybeMembers => either(
            left,
            parser.is_at_punct("="),
            &[
                Phrase::Mark(Mark::Equals),
                Phrase::MaybeMark(Mark::Bar),
                Phrase::Name,
                Phrase::Names(Mark::Bar),
            ],
            &[],
        ),
        Phrase::MaybeEnumValues => either(
            left,
            parser.is_at_punct("{"),
            &[
                Phrase::Mark(Mark::OpenBrace),
                Phrase::EnumValueDefinition,
                Phrase::EnumValueDefinitions,
                Phrase::Mark(Mark::CloseBrace),
            ],
            &[],
        ),
        Phrase::EnumValueDefinition => put(
            left,
            &[
                Phrase::MaybeDescription,
                Phrase::EnumName,
                Phrase::Directives { variables: false },
            ],
        ),
        Phrase::EnumValueDefinitions => either(
            left,
            is_at_enum_value(parser),
            &[Phrase::EnumValueDefinition, Phrase::EnumValueDefinitions],
            &[],
        ),
        _ => take_input_apart(left, phrase, parser),
    }
}

// Whether the lookahead begins a value of an enum: its description, or its name.
fn is_at_enum_value(parser: &Parser) -> bool
    ensures { result ≡ enum_value_first parser.now.hand.bare }
{
    is_at_description(parser) || is_at_enum_name(parser)
}

// The same of input fields and arguments.
fn take_input_apart(
    left: &mut Vec<Phrase>,
    phrase: Phrase,
    parser: &Parser,
) -> Result<(), AllocError>
    ensures { OnOk result ((limits : Budgets) → Becomes limits parser.now.hand.bare
        (left.old.items ++ phrase ∷ []) left.new.items) }
{
    match phrase {
        Phrase::MaybeInputFields => either(
            left,
            parser.is_at_punct("{"),
            &[
                Phrase::Mark(Mark::OpenBrace),
                Phrase::InputValueDefinition,
                Phrase::InputValueDefinitions,
                Phrase::Mark(Mark::CloseBrace),
            ],
            &[],
        ),
        Phrase::MaybeArgumentsDefinition => either(
            left,
            parser.is_at_punct("("),
            &[
                Phrase::Mark(Mark::OpenParen),
                Phrase::InputValueDefinition,
                Phrase::InputValueDefinitions,
                Phrase::Mark(Mark::CloseParen),
            ],
            &[],
        ),
        Phrase::InputValueDefinition => put(
            left,
            &[
                Phrase::MaybeDescription,
                Phrase::Name,
                Phrase::Mark(Mark::Colon),
                Phrase::OwnType,
                Phrase::MaybeDefault,
                Phrase::Directives { variables: false },
            ],
        ),
        Phrase::InputValueDefinitions => either(
            left,
            is_at_member(parser),
            &[Phrase::InputValueDefinition, Phrase::InputValueDefinitions],
            &[],
        ),
        // A single token stays.
        _ => put(left, &[phrase]),
    }
}

// Whether the lookahead begins directives, or what begins with this punctuator.
fn is_at_part(parser: &Parser, mark: Mark) -> bool
    ensures { result ≡ part_first (punct (mark_text mark)) parser.now.hand.bare }
{
    parser.is_at_punct("@") || is_at(parser, mark)
}

// Whether the lookahead begins interfaces, directives or fields.
fn is_at_field_part(parser: &Parser) -> bool
    ensures { result ≡ field_part_first parser.now.hand.bare }
{
    parser.is_at_keyword("implements") || is_at_part(parser, Mark::OpenBrace)
}

// What stands after the name of a type. An extension has at least one of its parts.
fn take_rest_apart(
    left: &mut Vec<Phrase>,
    extend: bool,
    word: Word,
    parser: &Parser,
) -> Result<(), AllocError>
    ensures { OnOk result ((limits : Budgets) → Becomes limits parser.now.hand.bare
        (left.old.items ++ phrases.Rest extend word ∷ []) left.new.items) }
{
    let directives = Phrase::Directives { variables: false };
    match word {
        Word::Scalar => owed(left, extend, parser.is_at_punct("@"), &[directives]),
        Word::Type | Word::Interface => owed(
            left,
            extend,
            is_at_field_part(parser),
            &[Phrase::MaybeImplements, directives, Phrase::MaybeFields],
        ),
        Word::Union => owed(
            left,
            extend,
            is_at_part(parser, Mark::Equals),
            &[directives, Phrase::MaybeMembers],
        ),
        Word::Enum => owed(
            left,
            extend,
            is_at_part(parser, Mark::OpenBrace),
            &[directives, Phrase::MaybeEnumValues],
        ),
        Word::Input => owed(
            left,
            extend,
            is_at_part(parser, Mark::OpenBrace),
            &[directives, Phrase::MaybeInputFields],
        ),
    }
}

// These phrases, of which an extension has to have one.
fn owed(
    left: &mut Vec<Phrase>,
    extend: bool,
    is_there: bool,
    parts: &[Phrase],
) -> Result<(), AllocError>
    ensures { OnOk result (left.new.items ≡
        left.old.items ++ reverse (cond (not extend || is_there) parts.now (phrases.Never ∷ []))) }
{
    either(left, !extend || is_there, parts, &[Phrase::Never])
}

// The keyword of a type at the lookahead, or the last of these, and its kind.
fn word_of(parser: &Parser) -> (Keyword, Word)
    ensures { result ≡ word_by parser.now.hand.bare }
{
    if parser.is_at_keyword("scalar") {
        (Keyword::Scalar, Word::Scalar)
    } else if parser.is_at_keyword("type") {
        (Keyword::Type, Word::Type)
    } else if parser.is_at_keyword("interface") {
        (Keyword::Interface, Word::Interface)
    } else if parser.is_at_keyword("union") {
        (Keyword::Union, Word::Union)
    } else if parser.is_at_keyword("enum") {
        (Keyword::Enum, Word::Enum)
    } else {
        (Keyword::Input, Word::Input)
    }
}
