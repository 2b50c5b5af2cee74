//! Values that are neither lists nor objects.
ghost use Rattle.std.specs.Prelude.{◌≡◌, ◌+◌, ◌-◌, length, IfOk, OnErr};
ghost use Rattle.graphql_memory.specs.Memory.{Refused, Takes};
ghost use Rattle.graphql_reading.specs.reading.Ahead.{Stays};
ghost use Rattle.graphql_tokens.specs.tokens.Seen.{seen};
ghost use Rattle.graphql_tokens.specs.tokens.Within.{StandsIn};
ghost use Rattle.graphql_grammar.specs.reading.OpenValues.{node_at, word_tree};
ghost use Rattle.graphql_reading.specs.reading.Funds.{Pays};
ghost use Rattle.graphql_reading.specs.reading.Worth.{per_token};
ghost use Rattle.graphql_reading.specs.reading.Given.{Gives};
ghost use Rattle.graphql_grammar.specs.reading.Values.{simple_at, word_at};

use crate::strings::{read_block, read_string};
use graphql_reading::parser::{Parser, Reading, Refusal};
use graphql_syntax::lexer::{Token, TokenKind};
use graphql_syntax::value::Literal;
use std::alloc::AllocError;

#[inline(always)]
fn word_of<V: Literal>(parser: &mut Parser, token: Token) -> Result<V, AllocError>
    requires { StandsIn parser.old.source.text (seen token) }
    ensures word { IfOk result (λ v. V.tree v ≡ word_tree token.entry.text.now) }
    ensures takes { Takes (24 + length token.entry.text.now) parser.old.memory parser.new.memory }
    ensures refused { OnErr result (Refused parser.new.memory) }
    ensures stays { Stays parser.old parser.new }
{
    let text = token.text;
    if text == "true" {
        return Ok(V::boolean(true));
    }
    if text == "false" {
        return Ok(V::boolean(false));
    }
    if text == "null" {
        return Ok(V::null());
    }
    Ok(V::enumeration(parser.name(token)?))
}

/// `'true' | 'false' | 'null' | EnumValue` (GraphQL October 2021, sections 2.9.3, 2.9.5 and 2.9.6)
#[inline(always)]
fn read_word<V: Literal>(parser: &mut Parser) -> Reading<V>
    ensures gives { Gives V.tree result parser.old parser.new (node_at word_at) }
    ensures pays { Pays (per_token - 24) result parser.old parser.new }
{
    let token = parser.expect_name()?;
    Ok(word_of(parser, token)?)
}

/// A value that is neither a list nor an object.
///
/// `Variable | IntValue | FloatValue | StringValue | BooleanValue | NullValue | EnumValue`, of which `Variable : '$' Name`
/// is by GraphQL October 2021, section 2.10, and the others by sections 2.9.1 to 2.9.6
#[inline(always)]
pub fn read_simple<V: Literal>(parser: &mut Parser) -> Reading<V>
    ensures gives { Gives V.tree result parser.old parser.new (node_at (simple_at V.VARIABLES)) }
    ensures pays { Pays (per_token - 24) result parser.old parser.new }
{
    let token = parser.hand();
    match token.kind {
        TokenKind::Name => read_word(parser),
        TokenKind::Number => {
            let number = parser.number(token)?;
            parser.advance();
            Ok(V::number(number))
        }
        TokenKind::String => Ok(V::string(read_string(parser)?)),
        TokenKind::Block => Ok(V::string(read_block(parser)?)),
        _ => {
            if !(parser.is_at_punct("$") && V::VARIABLES) {
                return Err(Refusal::Syntax);
            }
            parser.advance();
            let name = parser.expect_name()?;
            match V::variable(parser.name(name)?) {
                Some(variable) => Ok(variable),
                None => unreachable!(),
            }
        }
    }
}
