//! How the program is called: its commands and options, as the arguments are read and as help shows them.

use clap::{Arg, ArgAction, Command, value_parser};
use std::alloc::{AllocError, Global};

// The commands that an option names, a bit each.
const CHECK: u8 = 1;

const FORMAT: u8 = 2;

const MINIFY: u8 = 4;

const PRINT: u8 = 8;

const TREE: u8 = 16;

const TOKENS: u8 = 32;

const LSP: u8 = 64;

const TEXTS: u8 = CHECK | FORMAT | MINIFY | PRINT | TREE | TOKENS;
// Those that came first: each takes the options of the others, and passes over them.
const FIRST: u8 = CHECK | TREE | TOKENS;

// A command of the program.
#[derive(Clone, Copy)]
struct Described {
    name: &'static str,
    bit: u8,
    about: &'static str,
    files: Files,
    after_help: &'static str,
}

// Which files a command takes.
#[derive(Clone, Copy)]
enum Files {
    None,
    One,
    Many,
}

// An option of commands: those whose help shows it, and those that take it too.
#[derive(Clone, Copy)]
struct Choice {
    name: &'static str,
    short: Option<char>,
    shown_by: u8,
    taken_by: u8,
    value: Value,
    // The option that a use of this one undoes, besides an earlier use of it.
    undoes: &'static str,
    help: &'static str,
}

// The value of an option, by the name that help gives it.
#[derive(Clone, Copy)]
enum Value {
    None,
    Text(&'static str),
    Number(&'static str),
    OneOf(&'static str, &'static [&'static str]),
}

const VERSION: &str = "1.0.0";

const ABOUT: &str =
    "Checks, formats and prints GraphQL requests and schema files, and serves editors";

const AFTER_HELP: &str =
    "Reports for people go to standard error, all else to standard output. The status is 0 if all files are
good, 1 if one is rejected, and 2 if one can't be read or written, if the output can't be written, if
memory runs out, and for a wrong call. If the reader of standard output has gone away, as head does,
the status is the same as if it had stayed.";

static COMMANDS: [Described; 7] = [
    Described {
        name: "check",
        bit: CHECK,
        about: "Report what is wrong with files: the first error of each definition, 100 of a file at most",
        files: Files::Many,
        after_help: "",
    },
    Described {
        name: "format",
        bit: FORMAT,
        about: "Lay out files anew in their places, with their comments",
        files: Files::Many,
        after_help: "A file with an error stays as it is, and the error is reported. Standard input is laid out on standard
output.",
    },
    Described {
        name: "minify",
        bit: MINIFY,
        about: "Print a file without comments, and without blanks and line ends that it doesn't need",
        files: Files::One,
        after_help: "",
    },
    Described {
        name: "print",
        bit: PRINT,
        about: "Print the tree of a file as text, without comments, laid out as by format",
        files: Files::One,
        after_help: "A file of fragments alone has no tree, and is rejected.",
    },
    Described {
        name: "tree",
        bit: TREE,
        about: "Print the tree of a file as JSON, as GraphQL.js has it",
        files: Files::One,
        after_help: "",
    },
    Described {
        name: "tokens",
        bit: TOKENS,
        about: "Print the tokens of a file, a line for each",
        files: Files::One,
        after_help: "",
    },
    Described {
        name: "lsp",
        bit: LSP,
        about: "Serve an editor on standard input and output, by the Language Server Protocol",
        files: Files::None,
        after_help: "",
    },
];

const FILE: &str = "A file; standard input if none is named, and for -";

const FILES: &str =
    "Files and folders; standard input if none is named, and for -. Below a folder, files
named *.graphql, *.graphqls, *.gqls, *.gql and *.sdl are read. No link is followed to a
folder or out of it; what can't be read, or is no file, is reported and skipped. Hidden
folders, those named node_modules, and what the file .gitignore in the folder excludes
are not searched";

static CHOICES: [Choice; 15] = [
    Choice {
        name: "query",
        short: None,
        shown_by: TEXTS,
        taken_by: TEXTS,
        value: Value::None,
        undoes: "schema",
        help: "Read each file as requests",
    },
    Choice {
        name: "schema",
        short: None,
        shown_by: TEXTS,
        taken_by: TEXTS,
        value: Value::None,
        undoes: "query",
        help: "Read each file as a schema file. Without either option, a file named
*.graphqls, *.gqls or *.sdl is a schema file, and the first word of another
file decides",
    },
    Choice {
        name: "limits",
        short: None,
        shown_by: TEXTS,
        taken_by: TEXTS,
        value: Value::Text("S,V,T"),
        undoes: "limits",
        help: "How deep selection sets, values and list types may nest, 256 at most
[default: 64,64,64]",
    },
    Choice {
        name: "memory",
        short: None,
        shown_by: CHECK,
        taken_by: FIRST,
        value: Value::Number("BYTES"),
        undoes: "memory",
        help: "How much memory the check of a file may take; a file that needs more counts
as not read. No request of N bytes needs more than 1105 N + 1161, and no
schema file more than 57",
    },
    Choice {
        name: "no-ignore",
        short: None,
        shown_by: CHECK | FORMAT,
        taken_by: CHECK | FORMAT,
        value: Value::None,
        undoes: "no-ignore",
        help: "Search all of a folder",
    },
    Choice {
        name: "check",
        short: None,
        shown_by: FORMAT,
        taken_by: FORMAT,
        value: Value::None,
        undoes: "check",
        help: "Write no file, and print the names of those that would be written; if there
are any, the status is 1",
    },
    Choice {
        name: "executable",
        short: None,
        shown_by: CHECK,
        taken_by: FIRST,
        value: Value::None,
        undoes: "fragments",
        help: "Reject a request without an operation",
    },
    Choice {
        name: "fragments",
        short: None,
        shown_by: CHECK,
        taken_by: FIRST,
        value: Value::None,
        undoes: "executable",
        help: "Accept fragments alone, and a file that is empty or has nothing but comments,
as without --executable",
    },
    Choice {
        name: "format",
        short: None,
        shown_by: CHECK,
        taken_by: FIRST,
        value: Value::OneOf("FORMAT", &["text", "json", "github"]),
        undoes: "format",
        help: "How to report: text, for people; json, a line for each finding: its file, its
line, column, endLine and endColumn if it has a place, its severity, status
and message; or github, a line for each, with which GitHub shows it where it is
[default: text]",
    },
    Choice {
        name: "color",
        short: None,
        shown_by: TEXTS,
        taken_by: TEXTS,
        value: Value::OneOf("WHEN", &["always", "never", "auto"]),
        undoes: "color",
        help: "When reports have colours; auto: if standard error is a terminal, NO_COLOR is
not set or empty, and TERM is not dumb
[default: auto]",
    },
    Choice {
        name: "verbose",
        short: Some('v'),
        shown_by: CHECK | FORMAT,
        taken_by: FIRST | FORMAT,
        value: Value::None,
        undoes: "verbose",
        help: "Print a line for each file that is good, or that is written",
    },
    Choice {
        name: "quiet",
        short: Some('q'),
        shown_by: CHECK | FORMAT,
        taken_by: FIRST | FORMAT,
        value: Value::None,
        undoes: "quiet",
        help: "Print nothing: only the status says what was found",
    },
    Choice {
        name: "places",
        short: None,
        shown_by: TREE,
        taken_by: FIRST,
        value: Value::None,
        undoes: "places",
        help: "Add the line and the column of each node that has a place",
    },
    Choice {
        name: "stdio",
        short: None,
        shown_by: LSP,
        taken_by: LSP,
        value: Value::None,
        undoes: "stdio",
        help: "Changes nothing; editors pass it to every server",
    },
    Choice {
        name: "clientProcessId",
        short: None,
        shown_by: LSP,
        taken_by: LSP,
        value: Value::Text("N"),
        undoes: "clientProcessId",
        help: "Changes nothing; editors pass it to every server",
    },
];

/// The program as it is called, without its own name among the arguments.
pub fn program<'a>(alloc: Global) -> Result<Command<'a>, AllocError> {
    let mut program = Command::new(alloc, "gql")
        .bin_name("gql")?
        .version(VERSION)
        .about(ABOUT)
        .after_help(AFTER_HELP)
        .no_binary_name(true)
        .subcommand_required(true)
        .arg_required_else_help(true);
    for command in &COMMANDS {
        program = program.subcommand(command_of(alloc, command)?)?;
    }
    Ok(program)
}

// A command with its options and files. The second use of an option undoes the first.
fn command_of<'a>(alloc: Global, described: &Described) -> Result<Command<'a>, AllocError> {
    let mut command = Command::new(alloc, described.name)
        .about(described.about)
        .after_help(described.after_help)
        .args_override_self(true);
    for choice in &CHOICES {
        if choice.taken_by & described.bit != 0 {
            let arg = option_of(alloc, choice)?;
            command = command.arg(arg.hide(choice.shown_by & described.bit == 0))?;
        }
    }
    let file = Arg::new(alloc, "FILE");
    match described.files {
        Files::None => Ok(command),
        Files::One => command.arg(file.help(FILE)),
        Files::Many => command.arg(file.help(FILES).num_args(0..).action(ArgAction::Append)),
    }
}

fn option_of<'a>(alloc: Global, choice: &Choice) -> Result<Arg<'a>, AllocError> {
    let mut arg = Arg::new(alloc, choice.name)
        .long(choice.name)
        .help(choice.help);
    if let Some(short) = choice.short {
        arg = arg.short(short);
    }
    arg = match choice.value {
        Value::None => arg.action(ArgAction::SetTrue),
        Value::Text(name) => arg.value_name(name),
        Value::Number(name) => arg.value_name(name).value_parser(value_parser!(usize)),
        Value::OneOf(name, values) => arg.value_name(name).value_parser(values),
    };
    arg.overrides_with(choice.undoes)
}
