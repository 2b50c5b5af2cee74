//! The readers of values and arguments, at the third type.
use crate::trees::Written;
use crate::trees::plain::Plain;
use graphql_grammar::arguments::read_arguments;
use graphql_grammar::value::read_value;
use graphql_memory::Memory;
use graphql_reading::limits::Limits;
use graphql_reading::parser::{Parser, Reading, Refusal};
use graphql_tokens::lexer::Tokens;
use rows::{Shown, number_in, pair};

/// Writes what stands first in a text, arguments or else a value, where values may nest so deep as the call says, as `read 64`; and
/// the place of the next token after it, or of the rejected one.
pub fn write_read(shown: &mut Shown, what: &str, text: &str) {
    let (_, depth) = pair(what, "read ");
    match Limits::new(0, number_in(depth), 0) {
        Some(limits) => write_within(shown, limits, text),
        None => shown.word("no such limit"),
    }
}

fn write_within(shown: &mut Shown, limits: Limits, text: &str) {
    let mut parser = Parser::new(Memory::new(shown.alloc()), Tokens::new(text));
    match write_first(shown, &mut parser, limits) {
        Ok(()) => shown.word("up to"),
        Err(Refusal::Syntax) => shown.word("syntax at"),
        Err(Refusal::Limit) => shown.word("limit at"),
        Err(Refusal::Memory) => shown.leave_out(),
    }
    shown.place(" ", &parser.hand().pos);
}

fn write_first(shown: &mut Shown, parser: &mut Parser<'_>, limits: Limits) -> Reading<()> {
    if parser.is_at_punct("(") {
        let arguments = read_arguments::<Plain>(parser, limits)?;
        for argument in &arguments {
            shown.item("", &argument.0.node);
            shown.word("=");
            argument.1.node.write(shown);
            shown.word(" ");
        }
    } else {
        let value = read_value::<Plain>(parser, limits)?;
        value.node.write(shown);
        shown.word(" ");
    }
    Ok(())
}
