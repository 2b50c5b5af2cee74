//! The error that a refusal of the readers becomes.
ghost use Rattle.std.specs.Prelude.{◌≡◌, IfOk, OnErr, string_bytes};
ghost use Rattle.graphql_memory.specs.Memory.{Refused, Takes};
ghost use Rattle.graphql_grammar.specs.answers.Memory.{message_bytes};
ghost use Rattle.graphql_reading.specs.declared.parser.Refusal.TheVariants as refusals;
ghost use Rattle.graphql_grammar.specs.declared.error.Error.TheVariants.{OutOfMemory};
ghost use Rattle.graphql_grammar.specs.errors.Errors.{syntax_message};
ghost use Rattle.graphql_grammar.specs.reading.Errors.{IsErrorOf};

use crate::error::Error;
use graphql_memory::Memory;
use graphql_reading::parser::Refusal;
use graphql_syntax::pos::Pos;
use itoa::Buffer;
use std::alloc::AllocError;

// As long as the longest message.
const LONGEST: &str = "syntax error at 18446744073709551615:18446744073709551615";

fn message_of(memory: &mut Memory, start: Pos) -> Result<String, AllocError>
    ensures text { IfOk result (λ message. string_bytes message ≡ syntax_message start) }
    ensures takes { Takes message_bytes memory.old memory.new }
    ensures refused { OnErr result (Refused memory.new) }
{
    let mut number = Buffer::new();
    let mut message = memory.text_with_room(LONGEST)?;
    memory.push_text(&mut message, "syntax error at ")?;
    memory.push_text(&mut message, number.format(start.line))?;
    memory.push_text(&mut message, ":")?;
    memory.push_text(&mut message, number.format(start.column))?;
    Ok(message)
}

#[cold]
#[inline(never)]
pub fn syntax_error(memory: &mut Memory, start: Pos) -> Error
    ensures error { IsErrorOf refusals.Syntax start result }
    ensures takes { Takes message_bytes memory.old memory.new }
    ensures refused { result ≡ OutOfMemory → Refused memory.new }
{
    match message_of(memory, start) {
        Ok(message) => Error::Syntax {
            message,
            start,
            end: None,
        },
        Err(_) => Error::OutOfMemory,
    }
}

/// The error of a refusal, where the refused token stands at this place.
pub fn error_of(memory: &mut Memory, refusal: Refusal, place: Pos) -> Error
    requires { refusal ≡ refusals.Memory → Refused memory.old }
    ensures error { IsErrorOf refusal place result }
    ensures takes { Takes message_bytes memory.old memory.new }
    ensures refused { result ≡ OutOfMemory → Refused memory.new }
{
    match refusal {
        Refusal::Memory => Error::OutOfMemory,
        Refusal::Limit => Error::RecursionLimitExceeded,
        Refusal::Syntax => syntax_error(memory, place),
    }
}
