//! The program's work, over any reader and writers.
ghost use Rattle.std.specs.Prelude.{◌≡◌, ◌≢◌, ◌≤◌, ◌↔◌, ◌⊎◌, Ok, Err, IsSome, IsTrue, IfErr, IfOk, IfSome, codes, map, string_bytes};
ghost use Rattle.gqlparse.specs.Words.{IsServed, AsksForHelp};
ghost use Rattle.gqlparse.specs.declared.program.Answer.TheVariants.{Help};
ghost use Rattle.gqlparse.specs.declared.program.Stop.TheVariants.{NoMemory, Usage};

use crate::lines::{request_lines, schema_lines};
use graphql_grammar::error::Error;
use graphql_requests::parse_query;
use graphql_schemas::parse_schema;
use graphql_tokens::pos::Pos;
use std::alloc::{AllocError, Global};
use std::io::{ErrorKind, Read, Write};

// What is read from standard input: a request or a schema file.
#[derive(Clone, Copy)]
enum Command {
    Query,
    Schema,
}

const HELP: &str = "usage: gqlparse query|schema
Reads a text from standard input, a request or a schema file, and lists what it defines, a line for each definition, with
its line and its column. If a text is rejected, the error and the list of its places go to standard error. The status is
0 for an accepted text, 1 for a rejected one, and 2 for wrong arguments, input that can't be read or isn't UTF-8, output
that can't be written, and memory that runs out outside the parser.
";

// What is answered: help, the lines of an accepted text for standard output, or those of a refused one for standard error.
#[derive(Drop)]
enum Answer {
    Help,
    Accepted(String),
    Refused(String),
    // The parser found no memory. These two lines are fixed, so that they need none.
    OutOfMemory,
}

// Why there is no answer.
#[derive(Clone, Copy)]
enum Stop {
    Usage,
    Unreadable,
    NotText,
    Unwritable,
    NoMemory,
}

impl From<AllocError> for Stop {
    ghost from_gives = { λ _ stop. stop ≡ NoMemory };

    fn from(_refused: AllocError) -> Stop {
        Stop::NoMemory
    }
}

impl Stop {
    fn line(self) -> &'static str {
        match self {
            Stop::Usage => "usage: gqlparse query|schema\n",
            Stop::Unreadable => "error: cannot read standard input\n",
            Stop::NotText => "error: input is not UTF-8\n",
            Stop::Unwritable => "error: cannot write standard output\n",
            Stop::NoMemory => "error: out of memory\n",
        }
    }
}

/// Does the work of the program: reads a text from `input` to its end, and writes what it defines to
/// `out`, or why it is refused to `err`.
///
/// `words` are the arguments without the program's name; one word is served, `query` for a request and
/// `schema` for a schema file. With `--help` or `-h` alone nothing is read, and `out` is told how the program is
/// called. The answer is the exit status: 0 for an accepted text and for help, 1 for a refused text, and 2 for
/// wrong arguments, input that cannot be read or is no UTF-8, output that cannot be written, and memory that is
/// refused outside the parser. Everything that goes to `out` is built before the first write. A write to `err`
/// that fails changes no status.
pub fn run<R: Read, O: Write, E: Write>(
    alloc: Global,
    words: &[String],
    input: &mut R,
    out: &mut O,
    err: &mut E,
) -> u8
    ensures status { result ≤ 2 }
    // Wrong arguments are told before anything is read,
    ensures usage { (IsServed (map string_bytes words.now) → ⊥) →
        (AsksForHelp (map string_bytes words.now) → ⊥) → (result ≡ 2) × (input.new ≡ input.old) ×
        (out.new ≡ out.old) }
    // help is given without reading,
    ensures help { AsksForHelp (map string_bytes words.now) → (result ≢ 1) ×
        (input.new ≡ input.old) }
    // an accepted text says nothing on standard error,
    ensures accepted { result ≡ 0 → err.new ≡ err.old }
    // and a refused one nothing on standard output.
    ensures refused { result ≡ 1 → out.new ≡ out.old }
{
    match answer_to(alloc, words, input) {
        Ok(Answer::Help) => print_text(HELP, out, err),
        Ok(Answer::Accepted(lines)) => print_text(lines.as_str(), out, err),
        Ok(Answer::Refused(lines)) => {
            write_whole(err, lines.as_str());
            1
        }
        Ok(Answer::OutOfMemory) => {
            write_whole(err, "error: out of memory\nat []\n");
            1
        }
        Err(stop) => {
            write_whole(err, stop.line());
            2
        }
    }
}

// Writes a text to `out`, and says on `err` where it can't be written. The answer is the exit status.
fn print_text<O: Write, E: Write>(text: &str, out: &mut O, err: &mut E) -> u8
    ensures status { result ≤ 2 }
    ensures answered { result ≢ 1 }
    ensures quiet { result ≡ 0 → err.new ≡ err.old }
{
    if write_whole(out, text) {
        return 0;
    }
    write_whole(err, Stop::Unwritable.line());
    2
}

/// Says on `err` that memory was refused outside the parser, and gives the exit status for that.
pub fn out_of_memory<E: Write>(err: &mut E) -> u8
    ensures { result ≡ 2 }
{
    write_whole(err, Stop::NoMemory.line());
    2
}

// Whether all of the text was written.
fn write_whole<W: Write>(to: &mut W, text: &str) -> bool {
    to.write_all(text.as_bytes()).is_ok() && to.flush().is_ok()
}

fn answer_to<R: Read>(alloc: Global, words: &[String], input: &mut R) -> Result<Answer, Stop>
    ensures usage { (IsServed (map string_bytes words.now) → ⊥) →
        (AsksForHelp (map string_bytes words.now) → ⊥) → (result ≡ Err Usage) ×
        (input.new ≡ input.old) }
    ensures served { IsServed (map string_bytes words.now) → result ≢ Err Usage }
    ensures help { AsksForHelp (map string_bytes words.now) → (result ≡ Ok Help) ×
        (input.new ≡ input.old) }
{
    if asks_for_help(words) {
        return Ok(Answer::Help);
    }
    let Some(command) = command_of(words) else {
        return Err(Stop::Usage);
    };
    let text = read(alloc, input)?;
    let lines = match command {
        Command::Query => match parse_query(alloc, text.as_str()) {
            Ok(document) => Ok(request_lines(alloc, &document)?),
            Err(error) => Err(error),
        },
        Command::Schema => match parse_schema(alloc, text.as_str()) {
            Ok(document) => Ok(schema_lines(alloc, &document)?),
            Err(error) => Err(error),
        },
    };
    Ok(match lines {
        Ok(lines) => Answer::Accepted(lines),
        Err(Error::OutOfMemory) => Answer::OutOfMemory,
        Err(error) => Answer::Refused(refusal(alloc, &error)?),
    })
}

fn asks_for_help(words: &[String]) -> bool
    ensures { IsTrue result ↔ AsksForHelp (map string_bytes words.now) }
{
    match words {
        [word] => is_help(word.as_str()),
        _ => false,
    }
}

fn is_help(word: &str) -> bool
    ensures { IsTrue result ↔ ((word.now ≡ codes "--help") ⊎ (word.now ≡ codes "-h")) }
{
    if word == "--help" { true } else { word == "-h" }
}

fn command_of(words: &[String]) -> Option<Command>
    ensures { IsSome result ↔ IsServed (map string_bytes words.now) }
{
    match words {
        [word] => command_named(word.as_str()),
        _ => None,
    }
}

fn command_named(name: &str) -> Option<Command>
    ensures { IsSome result ↔ ((name.now ≡ codes "query") ⊎ (name.now ≡ codes "schema")) }
{
    if name == "query" {
        Some(Command::Query)
    } else if name == "schema" {
        Some(Command::Schema)
    } else {
        None
    }
}

// The whole input.
fn read<R: Read>(alloc: Global, input: &mut R) -> Result<String, Stop>
    ensures whole { IfOk result (λ text.
        IfSome (R.remaining input.old) (λ bytes. string_bytes text ≡ bytes)) }
    ensures stops { IfErr result (λ stop. stop ≢ Usage) }
{
    let mut bytes = Vec::new(alloc);
    if let Err(error) = input.read_to_end(&mut bytes) {
        return Err(match error.kind() {
            ErrorKind::OutOfMemory => Stop::NoMemory,
            _ => Stop::Unreadable,
        });
    }
    String::from_utf8(bytes).map_err(|_| Stop::NotText)
}

// The two lines of a refused text: the error, and the list of its places as JSON.
fn refusal(alloc: Global, error: &Error) -> Result<String, AllocError> {
    let mut lines = format!(in alloc; "error: {error}\nat [")?;
    let mut is_first = true;
    for place in error.positions() {
        if !is_first {
            lines.push_str(",")?;
        }
        is_first = false;
        push_place(&mut lines, place)?;
    }
    lines.push_str("]\n")?;
    Ok(lines)
}

fn push_place(lines: &mut String, place: Pos) -> Result<(), AllocError> {
    let Pos { line, column } = place;
    lines.push_str("{\"line\":")?;
    write!(lines, "{line}")?;
    lines.push_str(",\"column\":")?;
    write!(lines, "{column}")?;
    lines.push_str("}")
}
