//! What a parser and its check answer where they may take only so much memory.
use graphql_parser::{Error, Memory};
use rows::{Parser, Shown, refused_within, write_error};

// How many steps a budget grows by, and how many bytes each of them is: 64 KiB in all.
const STEPS: usize = 1024;

const STEP: usize = 64;

/// Writes the different answers of a parser in budgets from none to 64 KiB, in turn; and then those of its check. An answer
/// is reported so that takes more than is promised, that runs out of as much, or that blames the heap.
pub fn write_answers(shown: &mut Shown, parser: Parser, text: &str) {
    write_in_turn(shown, parser, false, text);
    shown.word("; checked ");
    write_in_turn(shown, parser, true, text);
}

fn write_in_turn(shown: &mut Shown, parser: Parser, is_check: bool, text: &str) {
    let mut last = Shown::new(shown.alloc(), true);
    let mut now = Shown::new(shown.alloc(), true);
    for step in 0..=STEPS {
        now.clear();
        write_within(&mut now, parser, is_check, step * STEP, text);
        if now.whole() != last.whole() {
            last.clear();
            last.word(now.whole().unwrap_or("out of memory"));
            shown.word(if step == 0 { "" } else { ", then " });
            shown.word(now.whole().unwrap_or("out of memory"));
        }
    }
}

// What is answered in this budget.
fn write_within(shown: &mut Shown, parser: Parser, is_check: bool, budget: usize, text: &str) {
    let mut memory = Memory::with_budget(shown.alloc(), budget);
    let error = refused_within(&mut memory, parser, is_check, text);
    let promised = text.len().saturating_mul(1105).saturating_add(1161);
    if budget.saturating_sub(memory.left()) > promised {
        shown.word("too much taken, ");
    }
    if memory.heap_refused() {
        shown.word("the heap blamed, ");
    }
    match &error {
        None => shown.word("accepted"),
        Some(Error::OutOfMemory) if promised <= budget => shown.word("enough is too little"),
        Some(error) => write_error(shown, error),
    }
}
