//! Tables of what stands on the parsers: what texts are minified and formatted to, what trees are printed as, JSON, reports, the
//! places where reading continues after a mistake, what is wrong with a text, what an editor asks of one, positions and edits, and
//! calls that write texts and run out of memory. What the programs `gql` and `gqlparse` print is judged by `tests/tables.py`.
//!
//! The answers were worked out by hand from the rules of `docs/GRAMMAR.md` and the Language Server Protocol 3.17, or come from
//! where a table says, and were never taken from what the crates print: only the digest of a workload was, which has to stay. The
//! tables are the files of `data`; the crate `rows` says how they are written and judged. Words of the program that begin with
//! `bench` are for the module `bench`, which measures.
#![tactic(auto)]

mod bench;
mod blocks;
mod cuts;
mod editor;
mod edits;
mod json;
mod printed;
mod random;
mod recovery;
mod refused;
mod reports;
mod rewritten;

use rewritten::Rewriting;
use rows::{Calls, Row, Shown, judge, pair, try_call, words};
use std::test::Fail;

/// The calls of this program's tables.
#[derive(Clone, Copy)]
struct OfTools;

impl Calls for OfTools {
    fn answer(self, shown: &mut Shown, call: &str, text: &str) {
        let (what, asked) = pair(call, " ");
        match what {
            "minified" => rewritten::answer(shown, Rewriting::Minified, asked, text),
            "formatted" => rewritten::answer(shown, Rewriting::Formatted, asked, text),
            "printed" => printed::answer(shown, asked, text),
            "json" => json::answer(shown, asked, text),
            _ => answer_report(shown, call, text),
        }
    }

    fn try_row(self, shown: &mut Shown, row: &Row<'_>) -> bool {
        try_call(shown, row, refused::given_to(shown.alloc(), row))
    }
}

fn answer_report(shown: &mut Shown, call: &str, text: &str) {
    let (what, asked) = pair(call, " ");
    match what {
        "front" => reports::front(shown, asked, text),
        "exact" => reports::exact(shown, asked, text),
        "gql" => recovery::answer(shown, asked, text),
        "bench" => bench::write_digest(shown, asked, text),
        _ => answer_editor(shown, call, text),
    }
}

fn answer_editor(shown: &mut Shown, call: &str, text: &str) {
    let (what, asked) = pair(call, " ");
    match what {
        "text" => edits::write_answer(shown, asked, text),
        "editor" => editor::write_listed(shown, asked, text),
        "at" => editor::write_at_offset(shown, asked, text),
        _ => answer_other(shown, call, text),
    }
}

fn answer_other(shown: &mut Shown, call: &str, text: &str) {
    match call {
        "block string written" => blocks::write_block(shown, text),
        "sheet" => blocks::write_sheet(shown, text),
        "cuts" => cuts::write_cuts(shown, text),
        _ => shown.word("no such call"),
    }
}

fn main(rt: HostRuntime) -> Result<(), Fail> {
    let words = words(&rt);
    if let Some(words) = words.whole()
        && let Some(asked) = words.strip_prefix("bench ")
    {
        return Ok(bench::run(&rt, asked)?);
    }
    judge(&rt, &words, OfTools)
}
