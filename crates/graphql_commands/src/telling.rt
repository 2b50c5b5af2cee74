//! Reporting what is wrong with files: in reports for people, or in lines for programs.
ghost use Rattle.std.specs.Prelude.{◌≡◌, ◌≤◌, All};
ghost use Rattle.graphql_texts.specs.checked.Diagnosed.{IsDiagnosisOf};
ghost use Rattle.graphql_report.specs.reports.Rests.{BeginsAt};
ghost use Rattle.graphql_commands.specs.declared.check.Found.TheVariants.{Unread as NotRead};

use crate::check::Found;
use crate::command::Format;
use crate::listed::push_in_one_line;
use crate::output::{push_shown, push_visible, put, reported_name, shown_name, whole_lines};
use crate::texts::{Unread, Unwritten};
use graphql_parser::pos::PositionCalculator;
use graphql_parser::{Error, Pos};
use graphql_report::{ReadUpTo, Style, explain_from, finding_of};
use graphql_texts::errors::{MOST_FINDINGS, Mistake, Refused, Source, first_error, next_error};
use graphql_texts::{Diagnosis, diagnoses_from};
use std::alloc::{AllocError, Global};
use std::io::Write;

/// Reports what is wrong with files: in which form, and what was reported so far. Reports for people wait until
/// [`Teller::put_reports`] writes them to standard error, and lines until standard output is written.
///
/// If memory runs out, nothing is reported any more, nothing is done with further files, and no line is written.
#[derive(Drop)]
pub struct Teller {
    pub alloc: Global,
    pub format: Format,
    pub style: Style,
    pub is_quiet: bool,
    /// What goes to standard output.
    pub lines: String,
    // How many findings were reported.
    findings: usize,
    // How many files were good or rewritten, stayed as they are, were rejected, and couldn't be read or written.
    done: usize,
    unchanged: usize,
    rejected: usize,
    unread: usize,
    unwritten: usize,
    // What goes to standard error.
    reports: String,
    is_out_of_memory: bool,
    /// Whether a terminal shows how many of many files are done.
    pub counts: bool,
    // How many were begun, and what the terminal shows of it.
    begun: usize,
    shown: String,
}

impl Teller {
    /// Has reported nothing yet.
    pub fn new(alloc: Global, format: Format, style: Style, is_quiet: bool) -> Teller {
        Teller {
            alloc,
            format,
            style,
            is_quiet,
            lines: String::new(alloc),
            findings: 0,
            done: 0,
            unchanged: 0,
            rejected: 0,
            unread: 0,
            unwritten: 0,
            reports: String::new(alloc),
            is_out_of_memory: false,
            counts: false,
            begun: 0,
            shown: String::new(alloc),
        }
    }

    /// Writes the reports so far to standard error; a failure there changes no status. The error says that memory ran
    /// out before: then only whole lines are written.
    pub fn put_reports<E: Write>(&mut self, err: &mut E) -> Result<(), AllocError> {
        put(err, whole_lines(self.reports.as_str()).as_bytes());
        self.reports.clear();
        if self.is_out_of_memory {
            return Err(AllocError);
        }
        Ok(())
    }

    /// The same as [`Teller::put_reports`], before one of so many files is begun. Each hundredth time it is shown how
    /// many are done.
    pub fn begin_file<E: Write>(&mut self, count: usize, err: &mut E) -> Result<(), AllocError> {
        if !self.reports.is_empty() {
            self.hide_count(err);
        }
        self.put_reports(err)?;
        if self.counts && self.begun > 0 && self.begun % 100 == 0 {
            self.show_count(count, err);
        }
        self.begun = self.begun.saturating_add(1);
        Ok(())
    }

    // Shows how many of so many files are done, if there is memory for that.
    fn show_count<E: Write>(&mut self, count: usize, err: &mut E) {
        if let Ok(shown) = format!(in self.alloc; "\r{}/{count} files", self.begun) {
            put(err, shown.as_bytes());
            self.shown = shown;
        }
    }

    /// Takes away what is shown of how many files are done.
    pub fn hide_count<E: Write>(&mut self, err: &mut E) {
        if self.shown.is_empty() {
            return;
        }
        put(err, b"\r");
        for _ in 1..self.shown.len() {
            put(err, b" ");
        }
        put(err, b"\r");
        self.shown.clear();
    }

    /// Memory ran out, so a file can't be read.
    pub fn run_out(&mut self) -> Found
        ensures { result ≡ NotRead }
    {
        self.is_out_of_memory = true;
        Found::Unread
    }

    /// Keeps whether memory ran out.
    pub fn note(&mut self, written: Result<(), AllocError>) {
        if written.is_err() {
            self.is_out_of_memory = true;
        }
    }

    // ---- Reports

    /// Adds a text to the reports, unless memory ran out before.
    pub fn report(&mut self, text: &str) {
        if !self.is_out_of_memory {
            let written = self.reports.push_str(text);
            self.note(written);
        }
    }

    // Adds a word from the command line to the reports, unless memory ran out before.
    fn report_shown(&mut self, word: &str) {
        if !self.is_out_of_memory {
            let written = push_shown(&mut self.reports, word);
            self.note(written);
        }
    }

    // Adds what is wrong with a file to the reports, up to the end of its line.
    fn report_file(&mut self, name: &str, why: &str) {
        self.report("gql: ");
        self.report_shown(reported_name(name));
        self.report(" ");
        self.report(why);
    }

    // ---- Lines

    /// Adds a text to the lines.
    pub fn word(&mut self, text: &str) {
        let written = self.lines.push_str(text);
        self.note(written);
    }

    // Adds a character to the lines.
    fn letter(&mut self, c: char) {
        let written = self.lines.push(c);
        self.note(written);
    }

    /// Adds a number to the lines, after a text.
    pub fn number(&mut self, before: &str, number: usize) {
        self.word(before);
        let written = write!(self.lines, "{number}");
        self.note(written);
    }

    /// Adds a text to the lines, with `\n` and `\r` for the ends of its own.
    pub fn word_in_one_line(&mut self, text: &str) {
        let written = push_in_one_line(&mut self.lines, text);
        self.note(written);
    }

    /// Adds the name of a file to the lines, and what is reported of it.
    pub fn name(&mut self, name: &str, what: &str) {
        let written = push_shown(&mut self.lines, reported_name(name));
        self.note(written);
        self.word(what);
    }

    /// Counts a file with which all is well, and adds a line for people, if one is asked for.
    pub fn tell_done(&mut self, name: &str, what: &str, is_verbose: bool) {
        self.done = self.done.saturating_add(1);
        if is_verbose && matches!(self.format, Format::Text) {
            self.name(name, what);
        }
    }

    /// Counts a file that stays as it is.
    pub fn tell_unchanged(&mut self) {
        self.unchanged = self.unchanged.saturating_add(1);
    }

    /// Adds how many files there were, as `3 files: 1 good, 1 rejected (2 findings), 1 not read`. This word says what
    /// was done with those with which all is well.
    pub fn count_files(&mut self, done: &str) {
        let count = self
            .done
            .saturating_add(self.unchanged)
            .saturating_add(self.rejected)
            .saturating_add(self.unread)
            .saturating_add(self.unwritten);
        self.number("", count);
        self.number(if count == 1 { " file: " } else { " files: " }, self.done);
        self.word(done);
        self.count(self.unchanged, " unchanged");
        self.count(self.rejected, " rejected");
        if self.rejected > 0 {
            self.number(" (", self.findings);
            self.word(if self.findings == 1 {
                " finding)"
            } else {
                " findings)"
            });
        }
        self.count(self.unread, " not read");
        self.count(self.unwritten, " not written");
        self.word("\n");
    }

    // Adds how many files are so, if some are.
    fn count(&mut self, count: usize, what: &str) {
        if count > 0 {
            self.number(", ", count);
            self.word(what);
        }
    }

    // ---- Errors of a text

    /// Reports what is wrong with a text: its first error, and those after it, [`MOST_FINDINGS`] at most.
    pub fn tell_mistakes<'a>(&mut self, source: &Source<'a>, refused: Refused<'a>) {
        self.rejected = self.rejected.saturating_add(1);
        if self.is_quiet {
            return;
        }
        if let Format::Text = self.format {
            match shown_name(self.alloc, source.name) {
                Ok(name) => self.report_mistakes(name.as_str(), source, refused),
                Err(_) => self.is_out_of_memory = true,
            }
        } else {
            self.list_mistakes(source, refused);
        }
    }

    // Reports what is wrong with a text of a file of this name, as a terminal shows it.
    fn report_mistakes<'a>(&mut self, name: &str, source: &Source<'a>, refused: Refused<'a>) {
        let mut mistake = first_error(source, refused);
        for _ in 0..MOST_FINDINGS {
            self.report_mistake(name, source, &mistake);
            match next_error(self.alloc, source, &mistake) {
                Ok(Some(next)) => mistake = next,
                Ok(None) => break,
                Err(_) => {
                    self.is_out_of_memory = true;
                    break;
                }
            }
        }
    }

    // Reports an error of a text.
    fn report_mistake(&mut self, name: &str, source: &Source<'_>, mistake: &Mistake<'_>)
        requires { BeginsAt source.now.text.now mistake.now.known.from }
    {
        let (told, read) = mistake.told_in(source);
        self.report_error(name, &told, &read, &mistake.error);
    }

    /// Reports the error of a text that was read from its beginning on.
    pub fn tell_one(&mut self, source: &Source<'_>, error: &Error) {
        let shown = shown_name(self.alloc, source.name);
        let known = source.refused_first(self.alloc, error);
        match (shown, known) {
            (Ok(name), Ok(known)) => self.report_error(name.as_str(), source, &known, error),
            _ => self.is_out_of_memory = true,
        }
    }

    // Reports the error of a text of whose reading this is known.
    fn report_error(&mut self, name: &str, source: &Source<'_>, known: &ReadUpTo<'_>, error: &Error)
        requires { BeginsAt source.now.text.now known.now.from }
    {
        self.findings = self.findings.saturating_add(1);
        let Source {
            language,
            limits,
            text,
            ..
        } = *source;
        match explain_from(
            self.style, self.alloc, language, name, text, known, limits, error,
        ) {
            Ok(report) => self.report(report.as_str()),
            Err(_) => self.is_out_of_memory = true,
        }
    }

    // Adds the lines of what is wrong with a text, of which this is wrong first: what an editor shows of it. An editor
    // shows nothing if a text needs an operation and has only fragments.
    fn list_mistakes<'a>(&mut self, source: &Source<'a>, refused: Refused<'a>) {
        if let Error::MissingOperation = refused.error {
            return self.list_error(source, &refused.error);
        }
        match diagnoses_from(self.alloc, source, refused) {
            Ok(found) => self.list_diagnoses(source, found.as_slice()),
            Err(_) => self.is_out_of_memory = true,
        }
    }

    // The same of these diagnoses.
    fn list_diagnoses(&mut self, source: &Source<'_>, found: &[Diagnosis])
        requires { All (IsDiagnosisOf source.now.text.now) found.now }
    {
        let mut places = PositionCalculator::new(source.text);
        let mut passed = 0usize;
        for diagnosis in found {
            places = before(places, passed, diagnosis.span.start, source.text);
            let start = places.step(diagnosis.span.start);
            let end = places.step(diagnosis.span.end);
            passed = diagnosis.span.end;
            self.push_line(&Line {
                name: source.name,
                range: Some((start, end)),
                status: diagnosis.status,
                message: diagnosis.message.as_str(),
            });
        }
    }

    // Adds the line of an error that names no place.
    fn list_error(&mut self, source: &Source<'_>, error: &Error) {
        match finding_of(
            self.alloc,
            source.language,
            source.text,
            source.limits,
            error,
        ) {
            Ok(found) => self.push_line(&Line {
                name: source.name,
                range: None,
                status: found.status,
                message: found.message.as_str(),
            }),
            Err(_) => self.is_out_of_memory = true,
        }
    }

    // ---- Files without a text

    /// Reports why there is no text in a file; to people alone, if it is only skipped.
    pub fn tell_unread(&mut self, name: &str, why: Unread) {
        let Some(message) = why.words() else {
            self.is_out_of_memory = true;
            return;
        };
        let is_skipped = why.is_skipped();
        if !is_skipped {
            self.unread = self.unread.saturating_add(1);
        }
        if self.is_quiet {
            return;
        }
        if is_skipped || matches!(self.format, Format::Text) {
            self.report_file(name, message);
            self.report("\n");
            return;
        }
        self.push_line(&Line {
            name: reported_name(name),
            range: None,
            status: why.status(),
            message,
        });
    }

    /// Reports to people why a file isn't written. If its old text is elsewhere, that is reported even if all else is
    /// quiet.
    pub fn tell_unwritten(&mut self, name: &str, why: &Unwritten) {
        let Some(words) = why.words() else {
            self.is_out_of_memory = true;
            return;
        };
        self.unwritten = self.unwritten.saturating_add(1);
        if let Unwritten::HalfWritten(copy) = why {
            self.report_file(name, words);
            self.report(" ");
            self.report_shown(copy.as_str());
            self.report("\n");
        } else if !self.is_quiet {
            self.report_file(name, words);
            self.report("\n");
        }
    }

    // ---- Lines for programs

    // Adds the line of a finding.
    fn push_line(&mut self, line: &Line<'_>) {
        if let Format::Github = self.format {
            self.push_command(line);
        } else {
            self.push_json(line);
        }
    }

    // Adds a finding as JSON.
    fn push_json(&mut self, line: &Line<'_>) {
        self.word("{\"file\":");
        self.push_quoted(line.name);
        if let Some((start, end)) = line.range {
            self.number(",\"line\":", start.line);
            self.number(",\"column\":", start.column);
            self.number(",\"endLine\":", end.line);
            self.number(",\"endColumn\":", end.column);
        }
        self.word(",\"severity\":\"error\",\"status\":\"");
        self.word(line.status);
        self.word("\",\"message\":");
        self.push_quoted(line.message);
        self.word("}\n");
    }

    // Adds a text as a string of JSON.
    fn push_quoted(&mut self, text: &str) {
        self.word("\"");
        for c in text.chars() {
            match c {
                '"' => self.word("\\\""),
                '\\' => self.word("\\\\"),
                '\u{8}' => self.word("\\b"),
                '\t' => self.word("\\t"),
                '\n' => self.word("\\n"),
                '\u{c}' => self.word("\\f"),
                '\r' => self.word("\\r"),
                '\0'..='\u{f}' => self.push_digit("\\u000", c),
                '\u{10}'..='\u{1f}' => self.push_digit("\\u001", c),
                other => self.letter(other),
            }
        }
        self.word("\"");
    }

    // Adds the last hexadecimal digit of a character's number, after a text.
    fn push_digit(&mut self, before: &str, c: char) {
        self.word(before);
        self.letter(char::from_digit(c as u32 % 16, 16).unwrap_or('0'));
    }

    // Adds the command by which GitHub shows a finding beside its line.
    fn push_command(&mut self, line: &Line<'_>) {
        self.word("::error file=");
        self.push_property(line.name);
        if let Some((start, _)) = line.range {
            self.number(",line=", start.line);
            self.number(",col=", start.column);
        }
        self.word("::");
        self.push_message(line.message);
        self.word("\n");
    }

    // Adds the name of a file, in which no character ends a property of a command.
    fn push_property(&mut self, name: &str) {
        for c in name.chars() {
            match c {
                '%' => self.word("%25"),
                ':' => self.word("%3A"),
                ',' => self.word("%2C"),
                other => {
                    let written = push_visible(&mut self.lines, other);
                    self.note(written);
                }
            }
        }
    }

    // Adds a text in which no character ends the message of a command.
    fn push_message(&mut self, text: &str) {
        for c in text.chars() {
            match c {
                '%' => self.word("%25"),
                '\r' => self.word("%0D"),
                '\n' => self.word("%0A"),
                other => self.letter(other),
            }
        }
    }
}

// A finding as it is written in a line.
#[derive(Clone, Copy)]
struct Line<'a> {
    name: &'a str,
    // Where it is, if it is at a place: the text from the first of these up to the second.
    range: Option<(Pos, Pos)>,
    status: &'static str,
    message: &'a str,
}

// Finds the places of a text from this offset on, as these do that have passed so much, or else from the beginning.
fn before<'a>(
    places: PositionCalculator<'a>,
    passed: usize,
    offset: usize,
    text: &'a str,
) -> PositionCalculator<'a>
    requires text { places.text ≡ text.now }
    requires passed { places.offset ≡ passed }
    ensures text { result.text ≡ text.entry.now }
    ensures offset { result.offset ≤ offset }
{
    if passed <= offset {
        places
    } else {
        PositionCalculator::new(text)
    }
}
