//! Writing texts: files in their places, and one text, or its tree, for standard output.
ghost use Rattle.std.specs.Prelude.{◌≡◌, ◌≢◌, ◌≤◌, ◌⊎◌, ℕ, List, Result as Said, Ok, true, IfErr, IfOk, map, take, string_bytes};
ghost use Rattle.graphql_layout.specs.texts.LaidOut.{IsLaidOut};
ghost use Rattle.graphql_report.specs.declared.fronts.Language.{Language as Lang};
ghost use Rattle.graphql_texts.specs.checked.Good.{IsGoodText};
ghost use Rattle.graphql_texts.specs.checked.Rewritten.{MeanTheSameAs, PrintsAs};
ghost use Rattle.graphql_commands.specs.checked.Files.{IsBlank, AreSteps};
ghost use Rattle.graphql_commands.specs.checked.Replaced.{IsAnew, IsMinifiedLine, PutsLaidOut, LeavesLaidOut};
ghost use Rattle.graphql_commands.specs.declared.check.Found.TheVariants.{Good};
ghost use Rattle.graphql_commands.specs.declared.texts.Unwritten.{Unwritten};

use crate::check::{Found, check_source, is_blank};
use crate::command::{Call, Command};
use crate::output::reported_name;
use crate::telling::Teller;
use crate::texts::Texts;
use graphql_parser::Error;
use graphql_texts::errors::Source;
use graphql_texts::language::read_as;
use graphql_texts::rewriting::{laid_out, minified, printed};
use std::alloc::{AllocError, Global};
use std::io::Write;

/// What is found of a source whose parse gives this error, which is reported.
pub fn found_by(error: &Error, source: &Source<'_>, teller: &mut Teller) -> Found
    ensures { result ≢ Good }
{
    if let Error::OutOfMemory = error {
        return teller.run_out();
    }
    teller.tell_one(source, error);
    Found::Rejected
}

/// The text that the command writes in the place of this one, of a file of this name: laid out, its tree as text,
/// or minified with a line feed after it. What was found of the text if it isn't good, which is reported; to print it,
/// it needs an operation too, since a parse returns no tree of fragments alone.
pub fn written_anew<'a>(
    call: &Call<'_>,
    name: &'a str,
    text: &'a str,
    teller: &mut Teller,
) -> Result<String, Found>
    ensures laid_out { call.now.command ≡ Command.Format →
        IfOk result (λ s. IsAnew call.now.limits text.now (string_bytes s)) }
    ensures printed { call.now.command ≡ Command.Print →
        IfOk result (λ s. (language : Lang) × PrintsAs language call.now.limits text.now (string_bytes s)) }
    ensures minified { call.now.command ≡ Command.Minify →
        IfOk result (λ s. IsMinifiedLine text.now (string_bytes s)) }
    ensures found { IfErr result (λ found. found ≢ Good) }
{
    let Ok(language) = read_as(teller.alloc, call.language, name, text) else {
        return Err(teller.run_out());
    };
    let source = Source {
        name: reported_name(name),
        language,
        limits: call.limits,
        text,
    };
    let found = check_source(call, &source, teller);
    if !matches!(found, Found::Good) {
        return Err(found);
    }
    match written(teller.alloc, call.command, &source) {
        Ok(written) => Ok(written),
        Err(error) => Err(found_by(&error, &source, teller)),
    }
}

// A good text as the command writes it.
fn written(alloc: Global, command: Command, source: &Source<'_>) -> Result<String, Error>
    requires { IsGoodText true source.now.language source.now.limits source.now.text.now }
    ensures laid_out { command ≡ Command.Format →
        IfOk result (λ s. IsLaidOut source.now.text.now (string_bytes s)
        × MeanTheSameAs source.now.language source.now.limits source.now.text.now (string_bytes s)) }
    ensures printed { command ≡ Command.Print →
        IfOk result (λ s. PrintsAs source.now.language source.now.limits source.now.text.now (string_bytes s)) }
    ensures minified { command ≡ Command.Minify →
        IfOk result (λ s. IsMinifiedLine source.now.text.now (string_bytes s)) }
{
    match command {
        Command::Format => Ok(laid_out(alloc, source)?),
        Command::Print => printed(alloc, source),
        _ => Ok(minified_line(alloc, source)?),
    }
}

// A text minified, with a line feed after it.
fn minified_line(alloc: Global, source: &Source<'_>) -> Result<String, AllocError>
    requires { IsGoodText true source.now.language source.now.limits source.now.text.now }
    ensures { IfOk result (λ s. IsMinifiedLine source.now.text.now (string_bytes s)) }
{
    let mut minified = minified(alloc, source)?;
    minified.push('\n')?;
    Ok(minified)
}

/// Reads each of these files, and writes it anew if that changes it, one after another; if files are only checked,
/// lists those that would change. A blank file stays as it is. What is wrong with a file goes to `err` before the next
/// one is read, and the file stays as it is. The status is 2 if memory ran out.
///
/// What is put in a file's place is what was read of it laid out, as long as files are read; and with status 0 each
/// file is laid out then, or blank.
pub fn format_files<T: Texts, E: Write>(
    call: &Call<'_>,
    files: &[String],
    texts: &mut T,
    teller: &mut Teller,
    err: &mut E,
) -> u8
    requires { call.now.command ≡ Command.Format }
    ensures status { result ≤ 2 }
    ensures put { (read : ℕ) × AreSteps (PutsLaidOut T.gives T.puts call.now.limits) texts.old
        (map string_bytes (take read files.now)) texts.new }
    ensures laid_out { result ≡ 0 →
        AreSteps (LeavesLaidOut T.gives T.puts call.now.limits) texts.old (map string_bytes files.now) texts.new }
{
    let mut worst: u8 = 0;
    for file in files {
        if teller.begin_file(files.len(), err).is_err() {
            return 2;
        }
        worst = worst.max(format_file(call, file.as_str(), texts, teller));
    }
    worst
}

// Does with a file of this name what `format` does with it, and returns the exit status if it is so with all files.
fn format_file<T: Texts>(call: &Call<'_>, name: &str, texts: &mut T, teller: &mut Teller) -> u8
    requires { call.now.command ≡ Command.Format }
    ensures status { result ≤ 2 }
    ensures put { PutsLaidOut T.gives T.puts call.now.limits texts.old name.now texts.new }
    ensures laid_out { result ≡ 0 →
        LeavesLaidOut T.gives T.puts call.now.limits texts.old name.now texts.new }
{
    match texts.text(teller.alloc, name) {
        Ok(text) => format_text(call, name, text.as_str(), texts, teller),
        Err(why) => {
            teller.tell_unread(name, why);
            2
        }
    }
}

// The same with this text of the file.
fn format_text<T: Texts>(
    call: &Call<'_>,
    name: &str,
    text: &str,
    texts: &mut T,
    teller: &mut Teller,
) -> u8
    requires { call.now.command ≡ Command.Format }
    ensures status { result ≤ 2 }
    ensures put { (texts.old ≡ texts.new) ⊎ ((new : List ℕ) × (said : Said (Unit {0}) Unwritten) ×
        IsAnew call.now.limits text.now new × T.puts texts.old name.now new said texts.new) }
    ensures laid_out { result ≡ 0 →
        ((texts.old ≡ texts.new) × (IsBlank text.now ⊎ IsLaidOut text.now text.now))
        ⊎ ((new : List ℕ) × IsAnew call.now.limits text.now new × T.puts texts.old name.now new (Ok tt) texts.new) }
{
    if is_blank(text) {
        teller.tell_unchanged();
        return 0;
    }
    match written_anew(call, name, text, teller) {
        Ok(written) if written.as_str() == text => {
            teller.tell_unchanged();
            0
        }
        Ok(written) => replace_text(call, name, written.as_str(), texts, teller),
        Err(found) => found.status(),
    }
}

// Puts a text in the place of another, or lists its file if it is only checked.
fn replace_text<T: Texts>(
    call: &Call<'_>,
    name: &str,
    text: &str,
    texts: &mut T,
    teller: &mut Teller,
) -> u8
    ensures status { result ≤ 2 }
    ensures put { (texts.old ≡ texts.new)
        ⊎ ((said : Said (Unit {0}) Unwritten) × T.puts texts.old name.now text.now said texts.new) }
    ensures replaced { result ≡ 0 → T.puts texts.old name.now text.now (Ok tt) texts.new }
{
    if call.only_checks {
        teller.name(name, "\n");
        return 1;
    }
    match texts.replace(teller.alloc, name, text) {
        Ok(()) => {
            teller.tell_done(name, ": formatted\n", call.is_verbose);
            0
        }
        Err(why) => {
            teller.tell_unwritten(name, &why);
            2
        }
    }
}
