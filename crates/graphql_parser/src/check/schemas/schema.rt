//! The check of definitions and extensions of schemas, by GraphQL October 2021, section 3.3.
ghost use Rattle.graphql_parser.specs.Checked.{Calm};
ghost use Rattle.std.specs.Prelude.{◌≡◌};
ghost use Rattle.graphql_parser.specs.SchemaRules.{head_of, roots_of};
ghost use Rattle.graphql_reading.specs.grammar.Relations.{given};
ghost use Rattle.graphql_reading.specs.grammar.Tests.{punct};
ghost use Rattle.graphql_reading.specs.reading.Given.{Gives};
ghost use Rattle.graphql_reading.specs.reading.Outcome.{mapped_at, opt_at, plus_at};
ghost use Rattle.graphql_schemas.specs.reading.Schema.{root_first, root_at, roots_at, schema_rest_at, extended_schema_at};

use crate::check::arguments::check_const_directives;
use crate::check::schemas::rules::{Root, Roots};
use graphql_grammar::operations::read_operation_type;
use graphql_reading::limits::Limits;
use graphql_reading::parser::{Parser, Reading, Refusal};

fn is_at_root(parser: &Parser) -> bool
    ensures { result ≡ root_first parser.now.hand.bare }
{
    parser.is_at_keyword("query")
        || parser.is_at_keyword("mutation")
        || parser.is_at_keyword("subscription")
}

/// `RootOperationTypeDefinition : OperationType ':' Name`
fn check_root(parser: &mut Parser) -> Reading<Root>
    ensures gives { Gives (λ root. root) result parser.old parser.new (mapped_at head_of root_at) }
    ensures calm { Calm parser.old parser.new }
{
    let (word, kind) = read_operation_type(parser)?;
    parser.expect_punct(":")?;
    parser.expect_name()?;
    Ok(Root {
        kind,
        pos: word.pos,
    })
}

/// `RootOperationTypeDefinition+`
fn check_root_list(parser: &mut Parser) -> Reading<Roots>
    ensures gives { Gives (λ roots. roots) result parser.old parser.new
        (mapped_at roots_of (plus_at root_first root_at)) }
    ensures calm { Calm parser.old parser.new }
{
    let mut roots = Roots::new();
    loop {
        roots = roots.with(check_root(parser)?);
        if !is_at_root(parser) {
            return Ok(roots);
        }
    }
}

/// `Roots : '{' RootOperationTypeDefinition+ '}'`
fn check_roots(parser: &mut Parser) -> Reading<Roots>
    ensures gives { Gives (λ roots. roots) result parser.old parser.new (mapped_at roots_of roots_at) }
    ensures calm { Calm parser.old parser.new }
{
    parser.expect_punct("{")?;
    let roots = check_root_list(parser)?;
    parser.expect_punct("}")?;
    Ok(roots)
}

/// `Roots?`
#[tactic(auto, unfolding(graphql_reading::specs::reading::Outcome::opt_at))]
fn check_maybe_roots(parser: &mut Parser) -> Reading<Roots>
    ensures gives { Gives (λ roots. roots) result parser.old parser.new
        (mapped_at (λ roots. roots_of (given roots)) (opt_at (punct "{") roots_at)) }
    ensures calm { Calm parser.old parser.new }
{
    if !parser.is_at_punct("{") {
        return Ok(Roots::new());
    }
    check_roots(parser)
}

/// A definition of a schema after its description: `'schema' Directives[Const]? Roots` (GraphQL October 2021, section
/// 3.3)
pub fn check_schema_definition(parser: &mut Parser, limits: Limits) -> Reading<Roots>
    ensures gives { Gives (λ roots. roots) result parser.old parser.new
        (mapped_at (λ rest. roots_of rest.1.1) (schema_rest_at limits)) }
    ensures calm { Calm parser.old parser.new }
{
    parser.expect_keyword("schema")?;
    check_const_directives(parser, limits)?;
    check_roots(parser)
}

/// An extension of a schema after its `extend`: `'schema' Directives[Const] Roots? | 'schema' Roots` (GraphQL October
/// 2021, section 3.3.2)
pub fn check_schema_extension(parser: &mut Parser, limits: Limits) -> Reading<Roots>
    ensures gives { Gives (λ roots. roots) result parser.old parser.new
        (mapped_at (λ rest. roots_of rest.1.1) (extended_schema_at limits)) }
    ensures calm { Calm parser.old parser.new }
{
    parser.expect_keyword("schema")?;
    if !(parser.is_at_punct("@") || parser.is_at_punct("{")) {
        return Err(Refusal::Syntax);
    }
    check_const_directives(parser, limits)?;
    check_maybe_roots(parser)
}
