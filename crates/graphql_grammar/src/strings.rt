//! Readers of strings and block strings, by GraphQL October 2021, section 2.9.4.
ghost use Rattle.std.specs.Prelude.{◌≡◌, ◌≤◌, length, string_bytes};
ghost use Rattle.graphql_tokens.specs.tokens.Alike.{inside as inside_of};
ghost use Rattle.graphql_grammar.specs.reading.Values.{string_value_at, block_value_at};
ghost use Rattle.graphql_reading.specs.reading.Funds.{Pays};
ghost use Rattle.graphql_reading.specs.reading.Worth.{per_token};
ghost use Rattle.graphql_reading.specs.reading.Given.{Gives};
ghost use Rattle.graphql_reading.specs.reading.Spelled.{IsQuoted};

use graphql_reading::parser::{Parser, Reading, Refusal};

/// What stands between so many quotes.
fn inside(text: &str, quotes: usize) -> &str
    requires { IsQuoted quotes text.now }
    ensures inside { result.now ≡ inside_of quotes text.now }
    ensures fits { length result.now ≤ length text.now }
{
    let front = &text[..text.len() - quotes];
    &front[quotes..]
}

/// Reads a string, and gives its value.
///
/// `StringValue` between single quotes (GraphQL October 2021, section 2.9.4)
pub fn read_string(parser: &mut Parser) -> Reading<String>
    ensures gives { Gives string_bytes result parser.old parser.new string_value_at }
    ensures pays { Pays per_token result parser.old parser.new }
{
    let token = parser.hand();
    if !token.kind.is_string() {
        return Err(Refusal::Syntax);
    }
    let Some(text) = parser.string_value(inside(token.text, 1))? else {
        return Err(Refusal::Syntax);
    };
    parser.advance();
    Ok(text)
}

/// Reads a block string, and gives its value.
///
/// `StringValue` between triple quotes (GraphQL October 2021, section 2.9.4)
pub fn read_block(parser: &mut Parser) -> Reading<String>
    ensures gives { Gives string_bytes result parser.old parser.new block_value_at }
    ensures pays { Pays per_token result parser.old parser.new }
{
    let token = parser.hand();
    if !token.kind.is_block() {
        return Err(Refusal::Syntax);
    }
    let text = parser.block_string_value(inside(token.text, 3))?;
    parser.advance();
    Ok(text)
}
