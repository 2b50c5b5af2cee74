//! The program for people: `gql check FILE..` reports what is wrong with requests and schema files, `gql format FILE..` lays
//! them out anew in their places, `gql minify FILE` prints one minified, `gql print FILE` the tree of one as text,
//! `gql tree FILE` the tree of one as JSON, and `gql tokens FILE` its tokens. `gql lsp` is a language server for editors, on standard
//! input and output. `gql --help` prints how it is called.
//!
//! Proved of it: it is safe and ends on every input; the status is 0, 1 or 2; a text is found good only where its tokens
//! have a tree, or where it has no token and may have none, and the files that are checked end with status 0 only where each of
//! them was found good; only a good text is rewritten, and it means the same then, and so does what is printed of a tree.
//! What else it prints is tested.
#![tactic(auto)]

use graphql_commands::texts::{Disk, Texts};
use graphql_commands::{Command, Style, command_of, run};
use graphql_server::Server;
use graphql_server::files::{Files, Unread};
use std::alloc::Global;
use std::env::VarError;
use std::io::{ErrorKind, IsTerminal, Read, Write};
use std::process::ExitCode;
use std::{env, fs, io};

fn main(rt: HostRuntime) -> ExitCode {
    let alloc = rt.alloc();
    let words = words(&rt);
    let given = match &words {
        Ok(words) => Ok(words.as_slice()),
        Err(error) => Err(error.kind()),
    };
    let asked = command_of(alloc, given);
    if let Ok(call) = &asked
        && matches!(call.command, Command::Lsp)
    {
        return ExitCode::from(serve(&rt));
    }
    let mut disk = Disk { rt: &rt };
    let status = run(
        alloc,
        asked,
        style_of(&rt),
        rt.stderr().is_terminal(),
        &mut disk,
        &mut rt.stdout(),
        &mut rt.stderr(),
    );
    ExitCode::from(status)
}

// How many bytes are read at once.
const PART: usize = 65536;

// Is a language server for the client at standard input and output until it says `exit`, or one of them ends; returns the exit status.
fn serve(rt: &HostRuntime) -> u8 {
    let mut input = rt.stdin();
    let mut server = Server::new(rt.alloc());
    let mut part = [0u8; PART];
    for _ in 0..u64::MAX {
        match input.read(&mut part) {
            Ok(0) => server.end(),
            Ok(length) => {
                server.receive(part.get(..length).unwrap_or(&[]));
                answer(rt, &mut server);
            }
            Err(error) if error.kind() == ErrorKind::Interrupted => {}
            Err(_) => server.end(),
        }
        if let Some(status) = server.has_ended() {
            return status;
        }
    }
    1
}

// Does what the messages that are whole ask for, and sends the answer to each before the next one is read.
fn answer(rt: &HostRuntime, server: &mut Server) {
    let mut output = rt.stdout();
    let mut files = ClosedFiles { rt };
    for _ in 0..u64::MAX {
        let is_more = server.next(&mut files);
        let bytes = server.output();
        if !bytes.is_empty() {
            if output.write_all(bytes).is_err() || output.flush().is_err() {
                server.end();
            }
            server.clear();
        }
        if !is_more {
            return;
        }
    }
}

// The files of the machine, for texts that an editor asks about and has not open.
#[derive(Drop)]
struct ClosedFiles<'a> {
    rt: &'a HostRuntime,
}

impl Files for ClosedFiles<'_> {
    fn text(&mut self, alloc: Global, path: &str) -> Result<String, Unread> {
        if let Ok(metadata) = fs::metadata(self.rt, path)
            && !metadata.is_file()
        {
            // A pipe might never end.
            return Err(Unread::Because("cannot be read: not a regular file"));
        }
        match (Disk { rt: self.rt }).text(alloc, path) {
            Ok(text) => Ok(text),
            Err(why) => Err(match why.words() {
                Some(words) => Unread::Because(words),
                None => Unread::NoMemory,
            }),
        }
    }
}

// The arguments without the program's name.
fn words(rt: &HostRuntime) -> io::Result<Vec<String>> {
    Ok(env::args(rt)?.skip(1).collect(rt.alloc())?)
}

// Reports have colours on a terminal that can show them, unless the variable NO_COLOR is set to something.
fn style_of(rt: &HostRuntime) -> Style {
    let allows_colours = match env::var(rt, "NO_COLOR") {
        Ok(value) => value.is_empty(),
        Err(error) => matches!(error, VarError::NotPresent),
    };
    let is_dumb = match env::var(rt, "TERM") {
        Ok(value) => value.as_str() == "dumb",
        Err(_) => false,
    };
    if allows_colours && !is_dumb && rt.stderr().is_terminal() {
        Style::Coloured
    } else {
        Style::Plain
    }
}
