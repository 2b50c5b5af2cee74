//! Tables in files: all of them are judged, and what is found is printed.
use crate::little_memory::all_but;
use crate::notation::{pair, write_meant, write_words};
use crate::row::REFUSED;
use crate::trying::{once, try_row};
use crate::{Calls, Shown};
use std::alloc::AllocError;
use std::fs::DirEntry;
use std::test::Fail;
use std::{env, fs, io};

// Stands for a line end after which a row goes on, and is a blank in both parts of the row.
const GOES_ON: &str = "\u{B}";

// How many bytes are left for the tables at the end of memory, for what the calls are given, and for their answers.
const ROOM_FOR_ROWS: usize = 1 << 25;

/// How the calls of a folder's rows are made.
#[derive(Clone, Copy)]
enum Way {
    Once,
    /// At the end of memory, if it has one.
    Refused { has_end: bool },
}

/// The words of the program, with a blank between two. A word for which there is no memory is left out.
pub fn words(rt: &HostRuntime) -> Shown {
    let mut words = Shown::new(rt.alloc(), true);
    if write_arguments(rt, &mut words).is_err() {
        words.leave_out();
    }
    words
}

fn write_arguments(rt: &HostRuntime, words: &mut Shown) -> io::Result<()> {
    for word in env::args(rt)?.skip(1) {
        write_word(words, word.as_str());
    }
    Ok(())
}

fn write_word(words: &mut Shown, word: &str) {
    if words.whole() != Some("") {
        words.word(" ");
    }
    words.word(word);
}

/// Judges the tables that the program's words name, as `tokens` for `tables/tokens.rows`, or all; or makes one call `once`. Prints
/// how many rows each table has, and before that each row that doesn't hold, with its file and line, what was expected and what was
/// found. Fails if there is such a row.
pub fn judge<C: Calls>(rt: &HostRuntime, words: &Shown, calls: C) -> Result<(), Fail> {
    match words.whole() {
        Some("once") => Ok(make_once(rt, calls)?),
        Some(words) => judge_folders(rt, words, calls),
        None => Ok(println!(rt; "{REFUSED}")?),
    }
}

fn make_once<C: Calls>(rt: &HostRuntime, calls: C) -> io::Result<()> {
    let told = match io::read_to_string(rt.alloc(), rt.stdin()) {
        Ok(row) => once(calls, rt.alloc(), row.as_str()),
        Err(_) => REFUSED,
    };
    println!(rt; "{told}")
}

fn judge_folders<C: Calls>(rt: &HostRuntime, words: &str, calls: C) -> Result<(), Fail> {
    let tables_hold = judge_files(rt, calls, Way::Once, &files_in(rt, words, "tables")?)?;
    let files = files_in(rt, words, "refused")?;
    if (files.is_empty() || judge_refused(rt, calls, &files)?) && tables_hold {
        return Ok(());
    }
    Err(Fail::new("some rows don't hold"))
}

// Judges files of the folder `refused`. Most of the memory is taken once, for all rows. Whether all rows hold.
fn judge_refused<C: Calls>(rt: &HostRuntime, calls: C, files: &[String]) -> Result<bool, Fail> {
    let held = all_but(rt.alloc(), ROOM_FOR_ROWS)?;
    let has_end = held.is_some();
    let hold = judge_files(rt, calls, Way::Refused { has_end }, files)?;
    if has_end {
        return Ok(hold);
    }
    Err(Fail::new("memory has no end here: each call was made once"))
}

// Judges files. Whether all rows hold.
fn judge_files<C: Calls>(
    rt: &HostRuntime,
    calls: C,
    way: Way,
    files: &[String],
) -> Result<bool, Fail> {
    let mut hold = true;
    for file in files {
        hold = judge_file(rt, calls, way, file.as_str())? && hold;
    }
    Ok(hold)
}

// The files in a folder that the program's words name, in order: a name stands for the file with the ending `.rows`
// too. Without words they are all the files in the folder.
fn files_in(rt: &HostRuntime, words: &str, folder: &str) -> Result<Vec<String>, Fail> {
    let mut files = Vec::new(rt.alloc());
    add_files(rt, words, folder, &mut files)?;
    files.sort()?;
    Ok(files)
}

fn add_files(
    rt: &HostRuntime,
    words: &str,
    folder: &str,
    files: &mut Vec<String>,
) -> Result<(), Fail> {
    for entry in fs::read_dir(rt, folder)? {
        add_file(words, &entry?, files)?;
    }
    Ok(())
}

fn add_file(words: &str, entry: &DirEntry, files: &mut Vec<String>) -> Result<(), AllocError> {
    let name = entry.file_name();
    if is_asked_for(words, name.strip_suffix(".rows").unwrap_or(name)) {
        let path = entry.path();
        files.push(String::from_str(*files.allocator(), path.as_str())?)?;
    }
    Ok(())
}

// Whether this is one of the words, or there are none.
fn is_asked_for(words: &str, name: &str) -> bool {
    for word in words.split(' ') {
        if word == name {
            return true;
        }
    }
    words.is_empty()
}

// Judges a file. Whether all of its rows hold.
fn judge_file<C: Calls>(rt: &HostRuntime, calls: C, way: Way, file: &str) -> Result<bool, Fail> {
    let mut report = Shown::new(rt.alloc(), true);
    let hold = judge_text(
        &mut report,
        calls,
        way,
        file,
        &fs::read_to_string(rt, file)?,
    );
    print!(rt; "{}", report.whole().unwrap_or("out of memory\n"))?;
    Ok(hold)
}

// A table: its file, the name of its call, and how that is made.
#[derive(Clone, Copy)]
struct Table<'a, C> {
    calls: C,
    way: Way,
    file: &'a str,
    call: &'a str,
}

// How many rows of a table were judged, and whether all of them hold.
#[derive(Drop)]
struct Judged {
    rows: usize,
    hold: bool,
}

// Judges the tables of a file. Whether all rows hold.
fn judge_text<C: Calls>(report: &mut Shown, calls: C, way: Way, file: &str, text: &str) -> bool {
    let mut line = 0usize;
    let mut hold = true;
    for table in text.split("\n== ") {
        let (call, rows) = pair(table.strip_prefix("== ").unwrap_or(table), "\n");
        let table = Table {
            calls,
            way,
            file,
            call,
        };
        line = line.saturating_add(1);
        hold = judge_table(report, &table, line, rows) && hold;
        line = line.saturating_add(rows.split('\n').count());
    }
    hold
}

// Judges a table, whose name stands in this line, and reports how many rows it has. Whether all of them hold.
fn judge_table<C: Calls>(
    report: &mut Shown,
    table: &Table<'_, C>,
    line: usize,
    rows: &str,
) -> bool {
    let mut judged = Judged {
        rows: 0,
        hold: true,
    };
    match rows.rsplit_once("\n⇒\n") {
        Some((text, answer)) => judge_call(report, table, &mut judged, line, text, answer),
        None => judge_rows(report, table, &mut judged, line, rows),
    }
    report.word(table.file);
    report.word(": ");
    report.word(table.call);
    report.item(": ", &judged.rows);
    report.word(if judged.rows == 1 {
        " row\n"
    } else {
        " rows\n"
    });
    judged.hold
}

// Judges the rows after this line, of which each begins in a line of its own and goes on in those that begin with two blanks.
fn judge_rows<C: Calls>(
    report: &mut Shown,
    table: &Table<'_, C>,
    judged: &mut Judged,
    mut line: usize,
    rows: &str,
) {
    let mut row = Shown::new(report.alloc(), true);
    let mut first = line;
    for text in rows.split('\n') {
        line = line.saturating_add(1);
        if let Some(more) = text.strip_prefix("  ") {
            row.word(GOES_ON);
            row.word(more);
        } else {
            judge_row(report, table, judged, first, &row);
            first = line;
            row.clear();
            row.word(text);
        }
    }
    judge_row(report, table, judged, first, &row);
}

// Judges a row, if it is one.
fn judge_row<C: Calls>(
    report: &mut Shown,
    table: &Table<'_, C>,
    judged: &mut Judged,
    line: usize,
    row: &Shown,
) {
    let row = row.whole().unwrap_or("out of memory");
    if !row.is_empty() && !row.starts_with("-- ") {
        let (text, answer) = pair(row, " ⇒");
        let mut meant = Shown::new(report.alloc(), true);
        write_meant(&mut meant, text.trim_ascii_end());
        let text = meant.whole().unwrap_or("");
        judge_call(report, table, judged, line, text, answer);
    }
}

// Makes the call of a row, and reports what was expected and what was found, unless that is the same.
fn judge_call<C: Calls>(
    report: &mut Shown,
    table: &Table<'_, C>,
    judged: &mut Judged,
    line: usize,
    text: &str,
    answer: &str,
) {
    let mut wanted = Shown::new(report.alloc(), true);
    write_wanted(&mut wanted, answer);
    let mut found = Shown::new(report.alloc(), true);
    match table.way {
        Way::Once => table.calls.answer(&mut found, table.call, text),
        Way::Refused { has_end } => try_row(table.calls, &mut found, has_end, table.call, text),
    }
    let wanted = wanted.whole().unwrap_or("out of memory");
    let found = found.whole().unwrap_or("out of memory");
    judged.rows = judged.rows.saturating_add(1);
    if found.trim_ascii() != wanted.trim_ascii() {
        judged.hold = false;
        report.word(table.file);
        report.item(":", &line);
        report.item(": ", &table.call);
        report.item("\n  expected: ", &wanted);
        report.item("\n  found:    ", &found);
        report.word("\n");
    }
}

// Writes what the answer of a row stands for, by way of the answer in one line.
fn write_wanted(wanted: &mut Shown, answer: &str) {
    let mut line = Shown::new(wanted.alloc(), true);
    write_words(&mut line, answer);
    let line = line.whole().unwrap_or("out of memory");
    write_meant(wanted, line.trim_ascii_end());
}
