//! Tables of the parsers and of what is below them: tokens, values, requests and schema files, what the calls of their trees and
//! of their errors return, and calls that run out of memory. What stands on the parsers is judged by `conformance_tools`, and
//! what the programs `gql` and `gqlparse` print by `tests/tables.py`.
//!
//! The answers were worked out by hand from the rules of `docs/GRAMMAR.md`, or come from where a table says, and were never taken
//! from what the crates print. The tables are the files of `data`; the crate `rows` says how they are written and judged.
#![tactic(auto)]

mod compared;
mod errors;
mod example;
mod kept;
mod made;
mod parser;
mod parts;
mod readme;
mod refused;
mod seeds;
mod trees;

use rows::{Calls, Parser, Row, Shown, judge, pair, try_call, words};
use std::test::Fail;

/// The calls of this program's tables.
#[derive(Clone, Copy)]
struct OfParsers;

impl Calls for OfParsers {
    fn answer(self, shown: &mut Shown, call: &str, text: &str) {
        let (what, asked) = pair(call, " ");
        match what {
            "query" => parser::write_asked(shown, Parser::Query, asked, text),
            "schema" => answer_schema(shown, asked, text),
            "error" => errors::write_part(shown, asked, text),
            "example" => example::write_checked(shown, asked, text),
            _ => answer_other(shown, call, text),
        }
    }

    fn try_row(self, shown: &mut Shown, row: &Row<'_>) -> bool {
        try_call(shown, row, refused::given_to(shown.alloc(), row))
    }
}

fn answer_schema(shown: &mut Shown, asked: &str, text: &str) {
    match asked {
        "kept" => kept::write_file(shown, text),
        "long" => kept::write_long_file(shown, text),
        _ => parser::write_asked(shown, Parser::Schema, asked, text),
    }
}

fn answer_other(shown: &mut Shown, call: &str, text: &str) {
    let (what, asked) = pair(call, " ");
    match what {
        "made" => made::write_made(shown, asked, text),
        "seeds" => seeds::write_seeds(shown, asked, text),
        "readme" => readme::write_example(shown, asked, text),
        _ => parts::answer(shown, call, text),
    }
}

fn main(rt: HostRuntime) -> Result<(), Fail> {
    judge(&rt, &words(&rt), OfParsers)
}
