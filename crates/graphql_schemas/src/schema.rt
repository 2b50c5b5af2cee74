//! Readers of definitions and extensions of schemas, by GraphQL October 2021, section 3.3.
ghost use Rattle.graphql_tokens.specs.declared.pos.Positioned.{Positioned};
ghost use Rattle.graphql_tokens.specs.tokens.Seen.{seen};
ghost use Rattle.graphql_syntax.specs.trees.Parts.{placed};
ghost use Rattle.graphql_syntax.specs.trees.PartViews.{const_directives_tree};
ghost use Rattle.graphql_reading.specs.reading.Funds.{Pays};
ghost use Rattle.graphql_reading.specs.reading.Worth.{per_token};
ghost use Rattle.graphql_reading.specs.reading.Given.{Gives, trees_in};
ghost use Rattle.graphql_reading.specs.reading.Outcome.{mapped_at};
ghost use Rattle.graphql_schemas.specs.grammar.Schema as grammar;
ghost use Rattle.graphql_schemas.specs.reading.Schema.{root_first, root_at, schema_rest_at, extended_schema_at};
ghost use Rattle.graphql_schemas.specs.reading.Views.{root_tree, schema_tree};

use crate::types::read_braced;
use graphql_grammar::arguments::read_const_directives;
use graphql_grammar::operations::read_operation_type;
use graphql_reading::limits::Limits;
use graphql_reading::names::read_name;
use graphql_reading::parser::{Parser, Reading};
use graphql_reading::production::{Production, one_or_more};
use graphql_syntax::lexer::Token;
use graphql_syntax::pos::{Pos, Positioned};
use graphql_syntax::types::{ConstDirective, OperationType};
use graphql_syntax::value::Name;

/// The type at which operations of a kind begin.
#[derive(Drop)]
pub struct Root {
    /// The kind.
    pub kind: OperationType,
    /// The place of its keyword.
    pub pos: Pos,
    /// The name of the type.
    pub name: Positioned<Name>,
}

/// A definition or an extension of a schema, with its roots as they are written.
#[derive(Drop)]
pub struct Schema {
    /// The text of the description.
    pub description: Option<Positioned<String>>,
    /// Whether it is an extension.
    pub extend: bool,
    /// The directives, in source order.
    pub directives: Vec<Positioned<ConstDirective>>,
    /// The roots, in source order.
    pub roots: Vec<Root>,
}

/// What a definition of a schema says: its keyword, its directives and its roots.
type Parts<'a> = (Token<'a>, (Vec<Positioned<ConstDirective>>, Vec<Root>));

/// `RootOperationTypeDefinition : OperationType ':' Name`
struct RootPhrase;

impl Production for RootPhrase {
    type Node = Root;

    ghost Tree = { grammar.Root };

    ghost tree = { root_tree };

    ghost first = { root_first };

    ghost spare = { per_token };

    ghost reader = { λ _. root_at };

    const ROOM: usize = 2;

    fn is_next(parser: &Parser) -> bool {
        parser.is_at_keyword("query")
            || parser.is_at_keyword("mutation")
            || parser.is_at_keyword("subscription")
    }

    fn read(parser: &mut Parser, _limits: Limits) -> Reading<Root> {
        let (word, kind) = read_operation_type(parser)?;
        parser.expect_punct(":")?;
        let name = read_name(parser)?;
        Ok(Root {
            kind,
            pos: word.pos,
            name,
        })
    }
}

/// Reads the definition of a schema after its description.
///
/// `SchemaDefinition : Description? 'schema' Directives[Const]? '{' RootOperationTypeDefinition+ '}'` (GraphQL October
/// 2021, section 3.3)
pub fn read_schema<'a>(parser: &mut Parser<'a>, limits: Limits) -> Reading<Parts<'a>>
    ensures gives { Gives (λ x. (seen x.0, (const_directives_tree x.1.0.items, trees_in root_tree x.1.1)))
        result parser.old parser.new (schema_rest_at limits) }
    ensures pays { Pays per_token result parser.old parser.new }
{
    let word = parser.expect_keyword("schema")?;
    let directives = read_const_directives(parser, limits)?;
    parser.expect_punct("{")?;
    let roots = one_or_more::<RootPhrase>(parser, limits)?;
    parser.expect_punct("}")?;
    Ok((word, (directives, roots)))
}

/// Reads the extension of a schema after this `extend`.
///
/// `SchemaExtension : 'extend' 'schema' Directives[Const] Roots? | 'extend' 'schema' Roots` (GraphQL October 2021,
/// section 3.3.2)
pub fn read_schema_extension(
    parser: &mut Parser,
    limits: Limits,
    extend: Token,
) -> Reading<Positioned<Schema>>
    ensures gives { Gives (placed schema_tree) result parser.old parser.new
        (mapped_at (λ rest. grammar.schema_extension_of (seen extend.entry, rest))
        (extended_schema_at limits)) }
    ensures pays { Pays per_token result parser.old parser.new }
{
    parser.expect_keyword("schema")?;
    let (directives, roots) = read_braced::<RootPhrase>(parser, limits, true)?;
    let schema = Schema {
        description: None,
        extend: true,
        directives,
        roots,
    };
    Ok(Positioned::new(schema, extend.pos))
}
