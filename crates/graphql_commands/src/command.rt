//! What the program is asked for.
ghost use Rattle.std.specs.Prelude.{◌≡◌, ◌↔◌, IfOk, codes};
ghost use Rattle.clap.specs.Words.{found_of};
ghost use Rattle.graphql_commands.specs.checked.Options.{is_given, language_said};
ghost use Rattle.graphql_commands.specs.declared.command.Command.TheVariants.{Lsp};
ghost use Rattle.graphql_commands.specs.declared.command.NoCall.TheVariants.{NoMemory};

use crate::described::program;
use crate::output::push_visible;
use clap::ArgMatches;
use clap::error::ErrorKind as Kind;
use graphql_parser::Limits;
use graphql_report::{Language, Style};
use std::alloc::{AllocError, Global};
use std::io::ErrorKind;

/// What is done with the texts.
#[derive(Clone, Copy)]
pub enum Command {
    /// `check`: what is wrong with each of them is reported.
    Check,
    /// `format`: each of them is laid out, in its place.
    Format,
    /// `minify`: one is printed without what it doesn't need.
    Minify,
    /// `print`: the tree of one is printed as text.
    Print,
    /// `tree`: the tree of one is printed as JSON.
    Tree,
    /// `tokens`: the tokens of one are printed.
    Tokens,
    /// `lsp`: an editor is served.
    Lsp,
}

/// How findings are reported.
#[derive(Clone, Copy)]
pub enum Format {
    /// `text`: a report each, for people.
    Text,
    /// `json`: a line of JSON each.
    Json,
    /// `github`: a command each, by which GitHub shows it beside its line.
    Github,
}

/// A command with its options and files.
#[derive(Drop)]
pub struct Call<'a> {
    pub command: Command,
    /// The names of the files, and for `check` and `format` of folders too; `-` is standard input.
    pub files: Vec<&'a str>,
    /// What the texts are read as; None if each file says it.
    pub language: Option<Language>,
    pub limits: Limits,
    /// `--memory`: how many bytes the check of a text may take; None if it may take what there is.
    pub memory: Option<usize>,
    /// `--no-ignore`: all of a folder is searched.
    pub takes_all: bool,
    /// `--check`: no file is written, and those that would be are listed.
    pub only_checks: bool,
    /// `-v`: a line for each good text, or each that is written.
    pub is_verbose: bool,
    /// A request in which only an operation is missing is good: so it is without `--executable`.
    pub takes_fragments: bool,
    /// `--places`: each node of the tree that has a place is written with it.
    pub has_places: bool,
    /// `--format`.
    pub format: Format,
    /// `-q`: nothing is reported but the status.
    pub is_quiet: bool,
    /// `--color`: how reports are written; None if that depends on the terminal.
    pub style: Option<Style>,
}

impl Call<'_> {
    /// Whether standard input is read alone.
    pub fn reads_input(&self) -> bool {
        self.files.len() == 1 && self.files.contains(&"-")
    }
}

/// What the arguments ask for, if it is no call.
#[derive(Drop)]
pub enum NoCall {
    /// Help or the version, for standard output.
    Shown(String),
    /// What is wrong with the arguments, for standard error.
    Wrong(String),
    /// Memory ran out.
    NoMemory,
}

impl From<AllocError> for NoCall {
    ghost from_gives = { λ _ none. none ≡ NoMemory };

    fn from(_refused: AllocError) -> NoCall {
        NoCall::NoMemory
    }
}

/// The call that these arguments ask for: those after the program's name, or how reading them failed, without memory or
/// else since one is no text. A second use of an option undoes the first.
pub fn command_of<'a>(
    alloc: Global,
    words: Result<&'a [String], ErrorKind>,
) -> Result<Call<'a>, NoCall> {
    let words = match words {
        Ok(words) => words,
        Err(ErrorKind::OutOfMemory) => return Err(NoCall::NoMemory),
        Err(_) => return Err(wrong(alloc, "an argument is not UTF-8", "", USAGE)),
    };
    match program(alloc)?.try_get_matches_from(words) {
        Ok(given) => match given.subcommand() {
            Some((name, given)) => call_of(alloc, name, given),
            None => Err(wrong(alloc, "a command is missing", "", USAGE)),
        },
        Err(error) => Err(no_call(alloc, &error)),
    }
}

const USAGE: &str = "\n\nUsage: gql <COMMAND>";

// What the parser of the arguments says of them.
fn no_call(alloc: Global, error: &clap::Error) -> NoCall {
    if let Kind::OutOfMemory = error.kind() {
        return NoCall::NoMemory;
    }
    let Ok(text) = format!(in alloc; "{error}") else {
        return NoCall::NoMemory;
    };
    match visible(alloc, text.as_str()) {
        Ok(text) if error.use_stderr() => NoCall::Wrong(text),
        Ok(text) => NoCall::Shown(text),
        Err(_) => NoCall::NoMemory,
    }
}

// What is wrong with the arguments, in the same form: with a word of theirs between two texts.
fn wrong(alloc: Global, before: &str, word: &str, after: &str) -> NoCall {
    let told = format!(in alloc;
        "error: {before}{word}{after}\n\nFor more information, try '--help'.\n"
    );
    match told {
        Ok(text) => match visible(alloc, text.as_str()) {
            Ok(text) => NoCall::Wrong(text),
            Err(_) => NoCall::NoMemory,
        },
        Err(_) => NoCall::NoMemory,
    }
}

// The lines of a text as a terminal shows them.
fn visible(alloc: Global, text: &str) -> Result<String, AllocError> {
    let mut shown = String::new(alloc);
    for c in text.chars() {
        if c == '\n' {
            shown.push(c)?;
        } else {
            push_visible(&mut shown, c)?;
        }
    }
    Ok(shown)
}

// The call of the command of this name, to which these options and files are given.
fn call_of<'a>(alloc: Global, name: &str, given: &ArgMatches<'a>) -> Result<Call<'a>, NoCall>
    ensures command { IfOk result (λ call. (call.command ≡ Lsp) ↔ (name.now ≡ codes "lsp")) }
    ensures language { IfOk result (λ call. call.language ≡ language_said (found_of given.now)) }
{
    let command = command_named(name);
    let limits = given.get_str("limits").unwrap_or("64,64,64");
    let Some(limits) = limits_of(limits) else {
        return Err(wrong(alloc, "invalid value '", limits, WRONG_LIMITS));
    };
    let files = files_of(alloc, given)?;
    if matches!(command, Command::Format) && files.len() > 1 && files.contains(&"-") {
        return Err(wrong(
            alloc,
            "the argument '-' cannot be used with other files",
            "",
            FORMAT_USAGE,
        ));
    }
    Ok(Call {
        command,
        files,
        language: language_of(given),
        limits,
        memory: given.get_one("memory"),
        takes_all: is_given(given, "no-ignore"),
        only_checks: is_given(given, "check"),
        is_verbose: is_given(given, "verbose"),
        takes_fragments: !is_given(given, "executable"),
        has_places: is_given(given, "places"),
        format: match given.get_str("format") {
            Some("json") => Format::Json,
            Some("github") => Format::Github,
            _ => Format::Text,
        },
        is_quiet: is_given(given, "quiet"),
        style: match given.get_str("color") {
            Some("always") => Some(Style::Coloured),
            Some("never") => Some(Style::Plain),
            _ => None,
        },
    })
}

const WRONG_LIMITS: &str =
    "' for '--limits <S,V,T>': three numbers of at most 256 are needed, as 64,64,64";

const FORMAT_USAGE: &str = "\n\nUsage: gql format [OPTIONS] [FILE]...";

// The command of this name.
fn command_named(name: &str) -> Command
    ensures { (result ≡ Lsp) ↔ (name.now ≡ codes "lsp") }
{
    match name {
        "lsp" => Command::Lsp,
        "format" => Command::Format,
        "minify" => Command::Minify,
        "print" => Command::Print,
        "tree" => Command::Tree,
        "tokens" => Command::Tokens,
        _ => Command::Check,
    }
}

// The files that are given, or else standard input.
fn files_of<'a>(alloc: Global, given: &ArgMatches<'a>) -> Result<Vec<&'a str>, AllocError> {
    let mut files = Vec::new(alloc);
    match given.get_strs("FILE") {
        Some(names) => files.extend_from_slice(names)?,
        None => files.push("-")?,
    }
    Ok(files)
}

// What the options say that the texts are.
fn language_of(given: &ArgMatches<'_>) -> Option<Language>
    ensures { result ≡ language_said (found_of given.now) }
{
    if is_given(given, "query") {
        Some(Language::Requests)
    } else if is_given(given, "schema") {
        Some(Language::Schemas)
    } else {
        None
    }
}

// Whether an option that has no value is given.
fn is_given(given: &ArgMatches<'_>, option: &str) -> bool
    ensures { result ≡ is_given (found_of given.now) option.now }
{
    matches!(given.get_str(option), Some("true"))
}

// Three numbers with commas between them.
fn limits_of(word: &str) -> Option<Limits> {
    let (sets, others) = word.split_once(',')?;
    let (values, types) = others.split_once(',')?;
    Limits::new(
        sets.parse().ok()?,
        values.parse().ok()?,
        types.parse().ok()?,
    )
}
