//! Readers of operations, fragments and requests that keep of each definition what the rules look at.
ghost use Rattle.std.specs.Prelude.{◌≡◌, ◌+◌, length, IfOk, IfSome, true, option_map, map};
ghost use Rattle.graphql_parser.specs.Checked.{Checks, Calm};
ghost use Rattle.graphql_parser.specs.HeadFunds.{name_bytes, heads_owed, HeadsPay};
ghost use Rattle.graphql_parser.specs.OneDefinition.{FirstStandsAlone};
ghost use Rattle.graphql_reading.specs.reading.Ahead.{tokens};
ghost use Rattle.graphql_reading.specs.reading.Funds.{Spares};
ghost use Rattle.graphql_reading.specs.reading.Worth.{per_token};
ghost use Rattle.graphql_parser.specs.RequestHeads.{head_of, head_tree, in_heads};
ghost use Rattle.graphql_tokens.specs.tokens.Seen.{seen};
ghost use Rattle.graphql_grammar.specs.reading.Arguments.{directives_at};
ghost use Rattle.graphql_requests.specs.grammar.Request.{name_in};
ghost use Rattle.graphql_requests.specs.grammar.Selections.{fragment_name};
ghost use Rattle.graphql_requests.specs.reading.Request.{own_set_at, short_operation_at, full_operation_at, fragment_at, definition_at, definitions_at};
ghost use Rattle.graphql_reading.specs.grammar.Tests.{any_name};
ghost use Rattle.graphql_reading.specs.reading.Given.{Gives};
ghost use Rattle.graphql_reading.specs.reading.Outcome.{then_at, mapped_at, one_at, opt_at};

use crate::check::arguments::check_directives;
use crate::check::selections::{check_selection_set, check_type_condition};
use crate::check::variables::check_maybe_variable_definitions;
use graphql_grammar::operations::read_operation_type;
use graphql_reading::limits::Limits;
use graphql_reading::parser::{Parser, Reading, Refusal};
use graphql_reading::production::Production;
use graphql_requests::definitions::Definition;
use graphql_requests::selections::is_at_fragment_name;
use graphql_syntax::lexer::Token;
use graphql_syntax::pos::Pos;
use smallvec::SmallVec;

/// What the rules look at of a definition: what it is, its name, which lies in the text, and where it stands.
#[derive(Clone, Copy)]
pub enum Head<'a> {
    /// An operation, with its name where it has one.
    Operation(Option<&'a str>, Pos),
    /// A fragment, with its name.
    Fragment(&'a str, Pos),
}

// What a place for a head holds that has none yet.
impl Default for Head<'_> {
    fn default() -> Self {
        Head::Operation(None, Pos::default())
    }
}

/// The short form of a query: its set alone.
///
/// `OperationDefinition : SelectionSet` (GraphQL October 2021, section 2.3)
fn read_short_operation<'a>(parser: &mut Parser<'a>, limits: Limits) -> Reading<Head<'a>>
    ensures gives { Gives head_tree result parser.old parser.new
        (mapped_at head_of (short_operation_at limits)) }
    ensures calm { Calm parser.old parser.new }
    ensures pays { IfOk result (λ head. Spares (264 + name_bytes head) parser.old parser.new) }
{
    let place = parser.hand().pos;
    check_selection_set(parser, limits)?;
    Ok(Head::Operation(None, place))
}

#[tactic(auto, unfolding(graphql_reading::specs::reading::Outcome::opt_at))]
fn read_maybe_name<'a>(parser: &mut Parser<'a>) -> Reading<Option<Token<'a>>>
    ensures gives { Gives (option_map seen) result parser.old parser.new
        (opt_at any_name (one_at any_name)) }
    ensures calm { Calm parser.old parser.new }
    ensures pays { IfOk result (λ name. IfSome name (λ token. Spares (per_token + length token.text.now) parser.old parser.new)) }
{
    if !parser.is_at_name() {
        return Ok(None);
    }
    Ok(Some(parser.take()))
}

fn text_of<'a>(name: Option<Token<'a>>) -> Option<&'a str>
    ensures { option_map (λ text. text.now) result ≡ name_in (option_map seen name.entry) }
{
    Some(name?.text)
}

/// What a definition ends with.
///
/// `Directives? SelectionSet`
fn check_body(parser: &mut Parser, limits: Limits) -> Reading<()>
    ensures checks { Checks result parser.old parser.new
        (then_at (directives_at true limits.values) (own_set_at limits)) }
    ensures calm { Calm parser.old parser.new }
{
    check_directives(parser, limits)?;
    check_selection_set(parser, limits)
}

/// An operation that begins with its keyword.
///
/// `OperationDefinition : OperationType Name? VariableDefinitions? Directives? SelectionSet` (GraphQL October 2021,
/// section 2.3)
fn read_operation<'a>(parser: &mut Parser<'a>, limits: Limits) -> Reading<Head<'a>>
    ensures gives { Gives head_tree result parser.old parser.new
        (mapped_at head_of (full_operation_at limits)) }
    ensures calm { Calm parser.old parser.new }
    ensures pays { IfOk result (λ head. Spares (264 + name_bytes head) parser.old parser.new) }
{
    let (word, _) = read_operation_type(parser)?;
    let name = read_maybe_name(parser)?;
    check_maybe_variable_definitions(parser, limits)?;
    check_body(parser, limits)?;
    Ok(Head::Operation(text_of(name), word.pos))
}

fn expect_fragment_name<'a>(parser: &mut Parser<'a>) -> Reading<Token<'a>>
    ensures gives { Gives seen result parser.old parser.new (one_at fragment_name) }
    ensures calm { Calm parser.old parser.new }
    ensures pays { IfOk result (λ token. Spares (per_token + length token.text.now) parser.old parser.new) }
{
    if !is_at_fragment_name(parser) {
        return Err(Refusal::Syntax);
    }
    Ok(parser.take())
}

/// `FragmentDefinition : 'fragment' FragmentName TypeCondition Directives? SelectionSet` (GraphQL October 2021,
/// section 2.8)
fn read_fragment<'a>(parser: &mut Parser<'a>, limits: Limits) -> Reading<Head<'a>>
    ensures gives { Gives head_tree result parser.old parser.new
        (mapped_at head_of (fragment_at limits)) }
    ensures calm { Calm parser.old parser.new }
    ensures pays { IfOk result (λ head. Spares (264 + name_bytes head) parser.old parser.new) }
{
    let word = parser.expect_keyword("fragment")?;
    let name = expect_fragment_name(parser)?;
    check_type_condition(parser)?;
    check_body(parser, limits)?;
    Ok(Head::Fragment(name.text, word.pos))
}

/// `ExecutableDefinition : OperationDefinition | FragmentDefinition`
fn read_head<'a>(parser: &mut Parser<'a>, limits: Limits) -> Reading<Head<'a>>
    ensures gives { Gives head_tree result parser.old parser.new
        (mapped_at head_of (definition_at limits)) }
    ensures calm { Calm parser.old parser.new }
    ensures pays { IfOk result (λ head. Spares (264 + name_bytes head) parser.old parser.new) }
{
    if parser.is_at_punct("{") {
        read_short_operation(parser, limits)
    } else if parser.is_at_keyword("fragment") {
        read_fragment(parser, limits)
    } else {
        read_operation(parser, limits)
    }
}

/// The heads of the definitions of a request, up to its end, in source order. The first lies in place.
///
/// `ExecutableDocument : ExecutableDefinition+` (GraphQL October 2021, section 2.2)
pub fn read_heads<'a>(parser: &mut Parser<'a>, limits: Limits) -> Reading<SmallVec<Head<'a>, 1>>
    ensures gives { Gives in_heads result parser.old parser.new
        (mapped_at (map head_of) (definitions_at limits)) }
    ensures pays { HeadsPay result parser.old parser.new }
    ensures alone { FirstStandsAlone limits (tokens parser.old) →
        (parser.new.memory ≡ parser.old.memory) × IfOk result (λ heads. heads_owed heads.items ≡ 0) }
{
    let mut heads = parser.empty_small_list();
    loop {
        let head = read_head(parser, limits)?;
        parser.push_small(&mut heads, head)?;
        if !Definition::is_next(parser) {
            return Ok(heads);
        }
    }
}
