//! Checking texts: whether each is good.
ghost use Rattle.std.specs.Prelude.{◌≡◌, ◌≤◌, ◌↔◌, ◌⊎◌, true, IfOk, IsTrue, map, string_bytes};
ghost use Rattle.graphql_texts.specs.checked.Good.{IsGoodText};
ghost use Rattle.graphql_texts.specs.checked.Language.{IsReadAs};
ghost use Rattle.graphql_commands.specs.checked.Files.{IsBlank, IsGoodFile, GivesGoodText, GiveGoodTexts};
ghost use Rattle.graphql_commands.specs.declared.check.Found.TheVariants.{Good};

use crate::command::Call;
use crate::output::reported_name;
use crate::telling::Teller;
use crate::texts::{Texts, Unread};
use graphql_parser::Memory;
use graphql_parser::lexer::Tokens;
use graphql_texts::check::error_of;
use graphql_texts::errors::Source;
use graphql_texts::language::read_as;
use std::alloc::{AllocError, Global};
use std::io::Write;

/// What was found of a file.
#[derive(Clone, Copy)]
pub enum Found {
    Good,
    Rejected,
    Unread,
}

impl Found {
    /// The exit status if all files are so.
    pub fn status(self) -> u8
        ensures least { (result ≡ 0) ↔ (self ≡ Good) }
        ensures most { result ≤ 2 }
    {
        match self {
            Found::Good => 0,
            Found::Rejected => 1,
            Found::Unread => 2,
        }
    }
}

/// Reads each of these files and checks it, one after another, and reports what is wrong with it. Reports go to `err`
/// before the next file is read, and what is for standard output is kept. No text is kept while the next one is read.
/// The status is 0 only if each file has a text that is good, or a blank one if requests may hold fragments alone; it
/// is 2 if memory ran out.
pub fn check_files<T: Texts, E: Write>(
    call: &Call<'_>,
    files: &[String],
    texts: &mut T,
    teller: &mut Teller,
    err: &mut E,
) -> u8
    ensures status { result ≤ 2 }
    ensures good { result ≡ 0 →
        GiveGoodTexts T.gives call.now.language call.now.takes_fragments call.now.limits texts.old
        (map string_bytes files.now) texts.new }
{
    let mut worst: u8 = 0;
    for file in files {
        if teller.begin_file(files.len(), err).is_err() {
            return 2;
        }
        worst = worst.max(check_file(call, file.as_str(), texts, teller));
    }
    worst
}

// Checks the file of this name, and returns the exit status if all files are so.
fn check_file<T: Texts>(call: &Call<'_>, name: &str, texts: &mut T, teller: &mut Teller) -> u8
    ensures status { result ≤ 2 }
    ensures good { result ≡ 0 →
        GivesGoodText T.gives call.now.language call.now.takes_fragments call.now.limits texts.old
        name.now texts.new }
{
    let found = match texts.text(teller.alloc, name) {
        Ok(text) => check_text(call, name, text.as_str(), teller),
        Err(why) => {
            teller.tell_unread(name, why);
            return 2;
        }
    };
    if let Found::Good = found {
        teller.tell_done(name, ": good\n", call.is_verbose);
    }
    found.status()
}

// What is found of this text of a file of this name.
fn check_text(call: &Call<'_>, name: &str, text: &str, teller: &mut Teller) -> Found
    ensures { (result ≡ Good) →
        IsGoodFile call.now.language call.now.takes_fragments call.now.limits name.now text.now
        ⊎ ((call.now.takes_fragments ≡ true) × IsBlank text.now) }
{
    if call.takes_fragments && is_blank(text) {
        return Found::Good;
    }
    match source_of(teller.alloc, call, name, text) {
        Ok(source) => check_source(call, &source, teller),
        Err(_) => teller.run_out(),
    }
}

/// A text of a file of this name, as the call reads it. An error reports that memory ran out.
pub fn source_of<'a>(
    alloc: Global,
    call: &Call<'_>,
    name: &'a str,
    text: &'a str,
) -> Result<Source<'a>, AllocError>
    ensures language { IfOk result (λ source. IsReadAs call.now.language name.now source.language) }
    ensures source { IfOk result (λ source.
        (source.text.now ≡ text.now) × (source.limits ≡ call.now.limits)) }
{
    Ok(Source {
        name: reported_name(name),
        language: read_as(alloc, call.language, name, text)?,
        limits: call.limits,
        text,
    })
}

/// Whether a text is empty, or has nothing but blanks, commas, line ends and comments.
pub fn is_blank(text: &str) -> bool
    ensures { IsTrue result → IsBlank text.now }
{
    let mut tokens = Tokens::new(text);
    match tokens.next() {
        Some(first) => first.kind.is_end(),
        None => false,
    }
}

/// What is found of a text, after what is wrong with it is reported. If memory runs out, a budget stops the check of
/// this text alone.
pub fn check_source(call: &Call<'_>, source: &Source<'_>, teller: &mut Teller) -> Found
    ensures { (result ≡ Good) →
        IsGoodText call.now.takes_fragments source.now.language source.now.limits
        source.now.text.now }
{
    let mut memory = Memory::with_budget(teller.alloc, call.memory.unwrap_or(usize::MAX));
    match error_of(&mut memory, source, call.takes_fragments) {
        Ok(None) => Found::Good,
        Ok(Some(refused)) => {
            teller.tell_mistakes(source, refused);
            Found::Rejected
        }
        Err(_) if call.memory.is_some() => {
            teller.tell_unread(source.name, Unread::OverBudget);
            Found::Unread
        }
        Err(_) => teller.run_out(),
    }
}
