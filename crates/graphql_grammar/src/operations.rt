//! The reader of the kinds of operations, by GraphQL October 2021, section 2.3.
ghost use Rattle.std.specs.Prelude.{◌≡◌};
ghost use Rattle.graphql_tokens.specs.tokens.Seen.{seen};
ghost use Rattle.graphql_grammar.specs.reading.Operations.{operation_type_at};
ghost use Rattle.graphql_reading.specs.reading.Funds.{Pays, Spares};
ghost use Rattle.graphql_reading.specs.reading.Worth.{per_token};
ghost use Rattle.graphql_reading.specs.reading.Given.{Gives};

use graphql_reading::parser::{Parser, Reading, Refusal};
use graphql_syntax::types::OperationType;
use graphql_tokens::lexer::Token;

/// Reads the keyword of an operation, and gives it with the kind that it means.
///
/// `OperationType : 'query' | 'mutation' | 'subscription'`
pub fn read_operation_type<'a>(parser: &mut Parser<'a>) -> Reading<(Token<'a>, OperationType)>
    ensures gives { Gives (λ x. (seen x.0, x.1)) result parser.old parser.new operation_type_at }
    ensures pays { Pays per_token result parser.old parser.new }
    ensures saves { Spares 0 parser.old parser.new }
    ensures memory { parser.new.memory ≡ parser.old.memory }
{
    let kind = if parser.is_at_keyword("query") {
        OperationType::Query
    } else if parser.is_at_keyword("mutation") {
        OperationType::Mutation
    } else if parser.is_at_keyword("subscription") {
        OperationType::Subscription
    } else {
        return Err(Refusal::Syntax);
    };
    Ok((parser.take(), kind))
}
