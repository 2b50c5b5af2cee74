//! The program: `gqlparse query` reads a request from standard input, and `gqlparse schema` a schema file. It
//! lists what the text defines, a line for each definition, with status 0. A refused text is told on standard
//! error by the error and the list of its places, with status 1; wrong arguments, input that can't be read or
//! isn't UTF-8, output that can't be written and memory refused outside the parser by one line there, with
//! status 2. `gqlparse --help` prints how the program is called.
//!
//! Proved of it: it is safe and ends on every input; the status is 0, 1 or 2; wrong arguments leave input and
//! output untouched, and `--help` the input; an accepted text leaves standard error as it was, and a refused one
//! standard output. The lines themselves are tested.
#![tactic(auto)]

mod lines;
mod program;

use program::{out_of_memory, run};
use std::io::ErrorKind;
use std::process::ExitCode;
use std::{env, io};

fn main(rt: HostRuntime) -> ExitCode {
    let alloc = rt.alloc();
    let words = match words(&rt) {
        Ok(words) => words,
        Err(error) if error.kind() == ErrorKind::OutOfMemory => {
            return ExitCode::from(out_of_memory(&mut rt.stderr()));
        }
        // An argument that is no text is wrong, as none would be.
        Err(_) => Vec::new(alloc),
    };
    let status = run(
        alloc,
        words.as_slice(),
        &mut rt.stdin(),
        &mut rt.stdout(),
        &mut rt.stderr(),
    );
    ExitCode::from(status)
}

// The arguments without the program's name.
fn words(rt: &HostRuntime) -> io::Result<Vec<String>> {
    Ok(env::args(rt)?.skip(1).collect(rt.alloc())?)
}
