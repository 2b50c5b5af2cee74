//! Readers of definitions and extensions of types, by GraphQL October 2021, sections 3.4 to 3.10.
ghost use Rattle.std.specs.Prelude.{◌≡◌, ◌≤◌, false, true, cond, not, ◌&&◌, MatchResult};
ghost use Rattle.graphql_reading.specs.declared.parser.Refusal.TheVariants.{Syntax};
ghost use Rattle.graphql_tokens.specs.tokens.Seen.{seen};
ghost use Rattle.graphql_syntax.specs.trees.PartViews.{const_directives_tree};
ghost use Rattle.graphql_trees.specs.trees.Schema.{object, interface};
ghost use Rattle.graphql_trees.specs.trees.SchemaViews.{description_tree, type_definition_tree};
ghost use Rattle.graphql_reading.specs.grammar.Tests.{punct};
ghost use Rattle.graphql_reading.specs.reading.Funds.{Pays, Spares};
ghost use Rattle.graphql_reading.specs.reading.Worth.{per_token};
ghost use Rattle.graphql_memory.specs.Memory.{price};
ghost use Rattle.graphql_reading.specs.reading.Given.{Gives, trees_in};
ghost use Rattle.graphql_reading.specs.reading.Outcome.{Takes, plus_at, between_at};
ghost use Rattle.graphql_schemas.specs.grammar.Types as grammar;
ghost use Rattle.graphql_schemas.specs.reading.Bodies.{in_members, in_rest, in_body, word_of, word_at, rest_at, body_by_word_at, members_by_part_at};
ghost use Rattle.graphql_schemas.specs.reading.Types.{some_parts_at, fields_rest_at, body_at};

use crate::fields::FieldPhrase;
use crate::input_values::InputValuePhrase;
use crate::members::{EnumValuePhrase, read_maybe_implements, read_maybe_members};
use graphql_grammar::arguments::read_const_directives;
use graphql_reading::limits::Limits;
use graphql_reading::names::read_name;
use graphql_reading::parser::{Parser, Reading, Refusal};
use graphql_reading::production::{Production, maybe_bracketed};
use graphql_syntax::lexer::Token;
use graphql_syntax::pos::Positioned;
use graphql_syntax::types::ConstDirective;
use graphql_syntax::value::Name;
use graphql_trees::{
    EnumType, FieldDefinition, InputObjectType, InterfaceType, ObjectType, TypeDefinition,
    TypeKind, UnionType,
};

/// The keyword of a type's definition.
#[derive(Clone, Copy)]
pub enum Word {
    Scalar,
    Type,
    Interface,
    Union,
    Enum,
    Input,
}

type Directives = Vec<Positioned<ConstDirective>>;

/// What an object type and an interface may have: interfaces, directives and fields.
type Members = (
    Vec<Positioned<Name>>,
    (Directives, Vec<Positioned<FieldDefinition>>),
);

/// What stands after the name of a type: its directives, and its kind with the parts of that.
type Rest = (Directives, TypeKind);

/// What a definition and an extension of a type share.
pub(crate) struct Body<'a> {
    pub(crate) word: Token<'a>,
    name: Positioned<Name>,
    directives: Directives,
    kind: TypeKind,
}

/// The kind of type whose keyword is the lookahead, if it is one.
pub(crate) fn word_in_hand(parser: &Parser) -> Option<Word>
    ensures { result ≡ word_of parser.now.hand.bare }
{
    if parser.is_at_keyword("scalar") {
        Some(Word::Scalar)
    } else if parser.is_at_keyword("type") {
        Some(Word::Type)
    } else if parser.is_at_keyword("interface") {
        Some(Word::Interface)
    } else if parser.is_at_keyword("union") {
        Some(Word::Union)
    } else if parser.is_at_keyword("enum") {
        Some(Word::Enum)
    } else if parser.is_at_keyword("input") {
        Some(Word::Input)
    } else {
        None
    }
}

/// `'scalar' | 'type' | 'interface' | 'union' | 'enum' | 'input'`
pub fn read_word<'a>(parser: &mut Parser<'a>) -> Reading<(Token<'a>, Word)>
    ensures gives { Gives (λ x. (seen x.0, x.1)) result parser.old parser.new word_at }
    ensures pays { Pays per_token result parser.old parser.new }
    ensures saves { Spares 0 parser.old parser.new }
    ensures memory { parser.new.memory ≡ parser.old.memory }
{
    let Some(word) = word_in_hand(parser) else {
        return Err(Refusal::Syntax);
    };
    Ok((parser.take(), word))
}

/// An extension has at least one of the optional parts: this returns whether the lookahead begins one.
#[inline(always)]
pub fn expect_part(extend: bool, is_there: bool) -> Reading<()>
    ensures { MatchResult result
        (λ _. (extend && not is_there) ≡ false)
        (λ refusal. (refusal ≡ Syntax) × ((extend && not is_there) ≡ true)) }
{
    if extend && !is_there {
        return Err(Refusal::Syntax);
    }
    Ok(())
}

/// `ImplementsInterfaces? Directives[Const]? FieldsDefinition?`
fn read_members(parser: &mut Parser, limits: Limits) -> Reading<Members>
    ensures gives { Gives in_members result parser.old parser.new (members_by_part_at limits) }
    ensures pays { Pays 0 result parser.old parser.new }
{
    let implements = read_maybe_implements(parser, limits)?;
    let directives = read_const_directives(parser, limits)?;
    let fields = maybe_bracketed::<FieldPhrase>(parser, "{", "}", limits)?;
    Ok((implements, (directives, fields)))
}

/// The rest of an object type or of an interface; an extension has at least one of its parts.
fn read_fields_rest(
    parser: &mut Parser,
    limits: Limits,
    is_interface: bool,
    extend: bool,
) -> Reading<Rest>
    ensures gives { Gives in_rest result parser.old parser.new
        (fields_rest_at (cond is_interface interface object) extend limits) }
    ensures pays { Pays 0 result parser.old parser.new }
{
    let is_there = parser.is_at_keyword("implements")
        || parser.is_at_punct("@")
        || parser.is_at_punct("{");
    expect_part(extend, is_there)?;
    let (implements, (directives, fields)) = read_members(parser, limits)?;
    let kind = if is_interface {
        TypeKind::Interface(InterfaceType { implements, fields })
    } else {
        TypeKind::Object(ObjectType { implements, fields })
    };
    Ok((directives, kind))
}

/// `Directives[Const]? ('{' Phrase+ '}')?`; an extension has at least one of them.
#[inline(always)]
pub(crate) fn read_braced<P: Production>(
    parser: &mut Parser,
    limits: Limits,
    extend: bool,
) -> Reading<(Directives, Vec<P::Node>)>
    requires takes { Takes (P.reader limits) }
    requires fits { price P.Node.row ≤ P.spare }
    ensures gives { Gives (λ x. (const_directives_tree x.0.items, trees_in P.tree x.1)) result parser.old
        parser.new (some_parts_at extend limits (punct "{")
        (between_at (punct "{") (plus_at P.first (P.reader limits)) (punct "}"))) }
    ensures pays { Pays 0 result parser.old parser.new }
{
    let is_there = parser.is_at_punct("@") || parser.is_at_punct("{");
    expect_part(extend, is_there)?;
    let directives = read_const_directives(parser, limits)?;
    let items = maybe_bracketed::<P>(parser, "{", "}", limits)?;
    Ok((directives, items))
}

/// What stands after the name, by the keyword; an extension has at least one of the optional parts.
fn read_rest(parser: &mut Parser, limits: Limits, word: Word, extend: bool) -> Reading<Rest>
    ensures gives { Gives in_rest result parser.old parser.new (rest_at extend limits word) }
    ensures pays { Pays 0 result parser.old parser.new }
{
    match word {
        Word::Scalar => {
            let is_there = parser.is_at_punct("@");
            expect_part(extend, is_there)?;
            let directives = read_const_directives(parser, limits)?;
            Ok((directives, TypeKind::Scalar))
        }
        Word::Type => read_fields_rest(parser, limits, false, extend),
        Word::Interface => read_fields_rest(parser, limits, true, extend),
        Word::Union => {
            let is_there = parser.is_at_punct("@") || parser.is_at_punct("=");
            expect_part(extend, is_there)?;
            let directives = read_const_directives(parser, limits)?;
            let members = read_maybe_members(parser, limits)?;
            Ok((directives, TypeKind::Union(UnionType { members })))
        }
        Word::Enum => {
            let (directives, values) = read_braced::<EnumValuePhrase>(parser, limits, extend)?;
            Ok((directives, TypeKind::Enum(EnumType { values })))
        }
        Word::Input => {
            let (directives, fields) = read_braced::<InputValuePhrase>(parser, limits, extend)?;
            Ok((
                directives,
                TypeKind::InputObject(InputObjectType { fields }),
            ))
        }
    }
}

/// ```text
/// TypeBody : 'scalar' Name Directives[Const]?
///   | 'type' Name ImplementsInterfaces? Directives[Const]? FieldsDefinition?
///   | 'interface' Name ImplementsInterfaces? Directives[Const]? FieldsDefinition?
///   | 'union' Name Directives[Const]? UnionMemberTypes?
///   | 'enum' Name Directives[Const]? EnumValuesDefinition?
///   | 'input' Name Directives[Const]? InputFieldsDefinition?
/// ```
/// In an extension at least one of the optional parts is there.
fn read_body<'a>(parser: &mut Parser<'a>, limits: Limits, extend: bool) -> Reading<Body<'a>>
    ensures gives { Gives in_body result parser.old parser.new (body_by_word_at extend limits) }
    ensures pays { Pays per_token result parser.old parser.new }
{
    let (token, word) = read_word(parser)?;
    let name = read_name(parser)?;
    let (directives, kind) = read_rest(parser, limits, word, extend)?;
    Ok(Body {
        word: token,
        name,
        directives,
        kind,
    })
}

/// What a body says, in a definition or in an extension.
pub(crate) fn type_with(
    extend: bool,
    description: Option<Positioned<String>>,
    body: Body,
) -> TypeDefinition
    ensures { type_definition_tree result ≡
        grammar.type_with extend (description_tree description) (in_body body.entry) }
{
    let Body {
        word: _,
        name,
        directives,
        kind,
    } = body;
    TypeDefinition {
        extend,
        description,
        name,
        directives,
        kind,
    }
}

/// Reads what a type's definition says after its description, and an extension after its `extend`.
///
/// `TypeBody` (GraphQL October 2021, section 3.4); in an extension with at least one of the optional parts (section 3.4.3)
pub(crate) fn read_type_body<'a>(
    parser: &mut Parser<'a>,
    limits: Limits,
    extend: bool,
) -> Reading<Body<'a>>
    ensures gives { Gives in_body result parser.old parser.new (body_at extend limits) }
    ensures pays { Pays per_token result parser.old parser.new }
{
    read_body(parser, limits, extend)
}
