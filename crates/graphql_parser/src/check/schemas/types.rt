//! The check of definitions and extensions of types, by GraphQL October 2021, sections 3.4 to 3.10.
ghost use Rattle.std.specs.Prelude.{◌≡◌};
ghost use Rattle.graphql_parser.specs.Checked.{Checks, Calm};
ghost use Rattle.graphql_reading.specs.grammar.Tests.{punct};
ghost use Rattle.graphql_reading.specs.reading.Outcome.{Takes, plus_at, between_at};
ghost use Rattle.graphql_reading.specs.reading.Spelled.{punct_of};
ghost use Rattle.graphql_schemas.specs.reading.Bodies.{rest_at, body_by_word_at};
ghost use Rattle.graphql_schemas.specs.reading.Members.{members_at};
ghost use Rattle.graphql_schemas.specs.reading.Types.{part_first, field_parts_at, some_field_parts_at, some_parts_at, scalar_rest_at};

use crate::check::arguments::check_const_directives;
use crate::check::production::{Phrase, check_maybe_bracketed};
use crate::check::schemas::fields::FieldPhrase;
use crate::check::schemas::input_values::InputValuePhrase;
use crate::check::schemas::members::{
    EnumValuePhrase, check_maybe_implements, check_maybe_members,
};
use graphql_reading::limits::Limits;
use graphql_reading::parser::{Parser, Reading};
use graphql_schemas::types::{Word, expect_part, read_word};

/// `Directives[Const]?`; an extension has them.
fn check_scalar_rest(parser: &mut Parser, limits: Limits, extend: bool) -> Reading<()>
    ensures checks { Checks result parser.old parser.new (scalar_rest_at extend limits) }
    ensures calm { Calm parser.old parser.new }
{
    let is_there = parser.is_at_punct("@");
    expect_part(extend, is_there)?;
    check_const_directives(parser, limits)
}

/// `ImplementsInterfaces? Directives[Const]? FieldsDefinition?`
fn check_field_parts(parser: &mut Parser, limits: Limits) -> Reading<()>
    ensures checks { Checks result parser.old parser.new (field_parts_at limits) }
    ensures calm { Calm parser.old parser.new }
{
    check_maybe_implements(parser, limits)?;
    check_const_directives(parser, limits)?;
    check_maybe_bracketed::<FieldPhrase>(parser, "{", "}", limits)
}

/// The same; an extension has at least one of them.
fn check_object_rest(parser: &mut Parser, limits: Limits, extend: bool) -> Reading<()>
    ensures checks { Checks result parser.old parser.new (some_field_parts_at extend limits) }
    ensures calm { Calm parser.old parser.new }
{
    let is_there = parser.is_at_keyword("implements")
        || parser.is_at_punct("@")
        || parser.is_at_punct("{");
    expect_part(extend, is_there)?;
    check_field_parts(parser, limits)
}

/// Whether the lookahead begins directives, or is this punctuator.
fn is_at_part(parser: &Parser, opening: &str) -> bool
    ensures { result ≡ part_first (punct_of opening.now) parser.now.hand.bare }
{
    parser.is_at_punct("@") || parser.is_at_punct(opening)
}

/// `Directives[Const]? UnionMemberTypes?`; an extension has at least one of them.
fn check_union_rest(parser: &mut Parser, limits: Limits, extend: bool) -> Reading<()>
    ensures checks { Checks result parser.old parser.new
        (some_parts_at extend limits (punct "=") members_at) }
    ensures calm { Calm parser.old parser.new }
{
    expect_part(extend, is_at_part(parser, "="))?;
    check_const_directives(parser, limits)?;
    check_maybe_members(parser, limits)
}

/// `Directives[Const]? ('{' Phrase+ '}')?`; an extension has at least one of them.
fn check_braced<P: Phrase>(parser: &mut Parser, limits: Limits, extend: bool) -> Reading<()>
    requires { Takes (P.reader limits) }
    ensures checks { Checks result parser.old parser.new (some_parts_at extend limits (punct "{")
        (between_at (punct "{") (plus_at P.first (P.reader limits)) (punct "}"))) }
    ensures calm { Calm parser.old parser.new }
{
    expect_part(extend, is_at_part(parser, "{"))?;
    check_const_directives(parser, limits)?;
    check_maybe_bracketed::<P>(parser, "{", "}", limits)
}

/// What stands after the name, by the keyword.
fn check_rest(parser: &mut Parser, limits: Limits, word: Word, extend: bool) -> Reading<()>
    ensures checks { Checks result parser.old parser.new (rest_at extend limits word) }
    ensures calm { Calm parser.old parser.new }
{
    match word {
        Word::Scalar => check_scalar_rest(parser, limits, extend),
        Word::Type | Word::Interface => check_object_rest(parser, limits, extend),
        Word::Union => check_union_rest(parser, limits, extend),
        Word::Enum => check_braced::<EnumValuePhrase>(parser, limits, extend),
        Word::Input => check_braced::<InputValuePhrase>(parser, limits, extend),
    }
}

/// A definition of a type after its description, or an extension after its `extend`:
///
/// ```text
/// TypeBody : 'scalar' Name Directives[Const]?
///   | 'type' Name ImplementsInterfaces? Directives[Const]? FieldsDefinition?
///   | 'interface' Name ImplementsInterfaces? Directives[Const]? FieldsDefinition?
///   | 'union' Name Directives[Const]? UnionMemberTypes?
///   | 'enum' Name Directives[Const]? EnumValuesDefinition?
///   | 'input' Name Directives[Const]? InputFieldsDefinition?
/// ```
/// In an extension at least one of the optional parts is there (GraphQL October 2021, sections 3.4 and 3.4.3).
pub fn check_body(parser: &mut Parser, limits: Limits, extend: bool) -> Reading<()>
    ensures checks { Checks result parser.old parser.new (body_by_word_at extend limits) }
    ensures calm { Calm parser.old parser.new }
{
    let (_, word) = read_word(parser)?;
    parser.expect_name()?;
    check_rest(parser, limits, word, extend)
}
