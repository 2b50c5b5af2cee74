//! Readers of operations, fragments and requests.
ghost use Rattle.std.specs.Prelude.{◌≡◌, ◌-◌, IfOk, option_map};
ghost use Rattle.graphql_requests.specs.grammar.Selections.{fragment_name};
ghost use Rattle.graphql_reading.specs.grammar.Places.{name_of};
ghost use Rattle.graphql_reading.specs.reading.Outcome.{one_at};
ghost use Rattle.graphql_requests.specs.grammar.Request.{Definition as SpecDefinition};
ghost use Rattle.graphql_requests.specs.reading.Definitions.{definition_tree, maybe_name_at, worded_at};
ghost use Rattle.graphql_requests.specs.reading.Seeds.{name_in};
ghost use Rattle.graphql_reading.specs.reading.Funds.{Pays};
ghost use Rattle.graphql_reading.specs.reading.Worth.{per_token};
ghost use Rattle.graphql_reading.specs.reading.Given.{Gives};
ghost use Rattle.graphql_requests.specs.reading.Request.{short_operation_at, fragment_at, definition_first, definition_at};

use crate::selections::{is_at_fragment_name, read_selection_set, read_type_condition};
use crate::variables::VariablePhrase;
use graphql_grammar::arguments::read_directives;
use graphql_grammar::operations::read_operation_type;
use graphql_reading::limits::Limits;
use graphql_reading::names::read_name;
use graphql_reading::parser::{Parser, Reading, Refusal};
use graphql_reading::production::{Production, maybe_bracketed};
use graphql_syntax::pos::Positioned;
use graphql_syntax::types::OperationType;
use graphql_syntax::value::Name;
use graphql_trees::{FragmentDefinition, OperationDefinition};

/// A definition, before the rules of documents are looked at.
#[derive(Drop)]
pub enum Definition {
    /// An operation, with its name where it has one.
    Operation(Option<Name>, Positioned<OperationDefinition>),
    /// A fragment, with its name.
    Fragment(Name, Positioned<FragmentDefinition>),
}

impl Definition {
    /// The name; None for an operation without one.
    pub(crate) fn name(&self) -> Option<&Name>
        ensures { option_map (λ name. name.now) result ≡ name_in self.now }
    {
        match self {
            Definition::Operation(name, _) => name.as_ref(),
            Definition::Fragment(name, _) => Some(name),
        }
    }
}

/// Reads the name of a fragment.
///
/// `FragmentName : Name but not 'on'` (GraphQL October 2021, section 2.8)
fn read_fragment_name(parser: &mut Parser) -> Reading<Positioned<Name>>
    ensures token { Gives (λ _. parser.old.hand) result parser.old parser.new (one_at fragment_name) }
    ensures pays { Pays (per_token - 24) result parser.old parser.new }
    ensures name { IfOk result (λ name. name ≡ name_of parser.old.hand) }
{
    if !is_at_fragment_name(parser) {
        return Err(Refusal::Syntax);
    }
    read_name(parser)
}

/// The short form of a query: its set alone.
///
/// `OperationDefinition : SelectionSet` (GraphQL October 2021, section 2.3)
fn read_short_operation(parser: &mut Parser, limits: Limits) -> Reading<Definition>
    ensures gives { Gives definition_tree result parser.old parser.new (short_operation_at limits) }
    ensures pays { Pays per_token result parser.old parser.new }
{
    let selection_set = read_selection_set(parser, limits)?;
    let pos = selection_set.pos;
    let operation = OperationDefinition {
        ty: OperationType::Query,
        variable_definitions: parser.empty_list(),
        directives: parser.empty_list(),
        selection_set,
    };
    Ok(Definition::Operation(None, Positioned::new(operation, pos)))
}

fn read_maybe_name(parser: &mut Parser) -> Reading<Option<Name>>
    ensures gives { Gives (λ name. name) result parser.old parser.new maybe_name_at }
    ensures pays { Pays 0 result parser.old parser.new }
{
    if !parser.is_at_name() {
        return Ok(None);
    }
    let token = parser.take();
    let name = parser.name(token)?;
    Ok(Some(name))
}

/// An operation that begins with its keyword.
///
/// `OperationDefinition : OperationType Name? VariableDefinitions? Directives? SelectionSet` (GraphQL October 2021,
/// section 2.3)
fn read_operation(parser: &mut Parser, limits: Limits) -> Reading<Definition>
    ensures gives { Gives definition_tree result parser.old parser.new (worded_at limits) }
    ensures pays { Pays per_token result parser.old parser.new }
{
    let (word, ty) = read_operation_type(parser)?;
    let name = read_maybe_name(parser)?;
    let operation = OperationDefinition {
        ty,
        variable_definitions: maybe_bracketed::<VariablePhrase>(parser, "(", ")", limits)?,
        directives: read_directives(parser, limits)?,
        selection_set: read_selection_set(parser, limits)?,
    };
    Ok(Definition::Operation(name, Positioned::new(operation, word.pos)))
}

/// `FragmentDefinition : 'fragment' FragmentName TypeCondition Directives? SelectionSet` (GraphQL October 2021,
/// section 2.8)
fn read_fragment(parser: &mut Parser, limits: Limits) -> Reading<Definition>
    ensures gives { Gives definition_tree result parser.old parser.new (fragment_at limits) }
    ensures pays { Pays per_token result parser.old parser.new }
{
    let word = parser.expect_keyword("fragment")?;
    let name = read_fragment_name(parser)?;
    let fragment = FragmentDefinition {
        type_condition: read_type_condition(parser)?,
        directives: read_directives(parser, limits)?,
        selection_set: read_selection_set(parser, limits)?,
    };
    Ok(Definition::Fragment(name.node, Positioned::new(fragment, word.pos)))
}

impl Production for Definition {
    type Node = Definition;

    ghost Tree = { SpecDefinition };

    ghost tree = { definition_tree };

    ghost first = { definition_first };

    ghost spare = { per_token };

    ghost reader = { definition_at };

    /// Whether the lookahead is `{`, the keyword of an operation, or `fragment`.
    fn is_next(parser: &Parser) -> bool {
        parser.is_at_punct("{")
            || parser.is_at_keyword("query")
            || parser.is_at_keyword("mutation")
            || parser.is_at_keyword("subscription")
            || parser.is_at_keyword("fragment")
    }

    /// `ExecutableDefinition : OperationDefinition | FragmentDefinition`
    fn read(parser: &mut Parser, limits: Limits) -> Reading<Definition> {
        if parser.is_at_punct("{") {
            read_short_operation(parser, limits)
        } else if parser.is_at_keyword("fragment") {
            read_fragment(parser, limits)
        } else {
            read_operation(parser, limits)
        }
    }
}
