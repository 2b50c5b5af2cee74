//! Values that are neither lists nor objects.
ghost use Rattle.graphql_parser.specs.Checked.{Checks, Calm};
ghost use Rattle.graphql_grammar.specs.reading.Values.{simple_at, word_at, number_at, string_at, block_at, variable_at};

use graphql_reading::parser::{Parser, Reading, Refusal};
use graphql_syntax::lexer::TokenKind;

/// `'true' | 'false' | 'null' | EnumValue` (GraphQL October 2021, sections 2.9.3, 2.9.5 and 2.9.6)
fn check_word(parser: &mut Parser) -> Reading<()>
    ensures checks { Checks result parser.old parser.new word_at }
    ensures calm { Calm parser.old parser.new }
{
    parser.expect_name()?;
    Ok(())
}

/// `IntValue | FloatValue` (GraphQL October 2021, sections 2.9.1 and 2.9.2)
fn check_number(parser: &mut Parser) -> Reading<()>
    ensures checks { Checks result parser.old parser.new number_at }
    ensures calm { Calm parser.old parser.new }
{
    if !parser.hand().kind.is_number() {
        return Err(Refusal::Syntax);
    }
    parser.advance();
    Ok(())
}

/// Each string stands for something, or else the lexer had found a fault.
///
/// `StringValue` between single quotes (GraphQL October 2021, section 2.9.4)
pub fn check_string(parser: &mut Parser) -> Reading<()>
    ensures checks { Checks result parser.old parser.new string_at }
    ensures calm { Calm parser.old parser.new }
{
    let token = parser.hand();
    if !token.kind.is_string() {
        return Err(Refusal::Syntax);
    }
    parser.advance();
    Ok(())
}

/// Each block string stands for something.
///
/// `StringValue` between triple quotes, a block string (GraphQL October 2021, section 2.9.4)
pub fn check_block(parser: &mut Parser) -> Reading<()>
    ensures checks { Checks result parser.old parser.new block_at }
    ensures calm { Calm parser.old parser.new }
{
    if !parser.hand().kind.is_block() {
        return Err(Refusal::Syntax);
    }
    parser.advance();
    Ok(())
}

/// `Variable : '$' Name` (GraphQL October 2021, section 2.10)
fn check_variable(parser: &mut Parser, vars: bool) -> Reading<()>
    ensures checks { Checks result parser.old parser.new (variable_at vars) }
    ensures calm { Calm parser.old parser.new }
{
    if !(parser.is_at_punct("$") && vars) {
        return Err(Refusal::Syntax);
    }
    parser.advance();
    parser.expect_name()?;
    Ok(())
}

/// A value that is neither a list nor an object.
///
/// `Variable | IntValue | FloatValue | StringValue | BooleanValue | NullValue | EnumValue`
pub fn check_simple(parser: &mut Parser, vars: bool) -> Reading<()>
    ensures checks { Checks result parser.old parser.new (simple_at vars) }
    ensures calm { Calm parser.old parser.new }
{
    match parser.hand().kind {
        TokenKind::Name => check_word(parser),
        TokenKind::Number => check_number(parser),
        TokenKind::String => check_string(parser),
        TokenKind::Block => check_block(parser),
        _ => check_variable(parser, vars),
    }
}
