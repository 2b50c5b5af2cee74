//! What is asked of a parser in a table.
use super::answers::{write, write_each_call, write_limited};
use super::views::VIEWS;
use super::{budgets, hostile, taken};
use rows::{Parser, Shown, limits_of, pair};

/// Writes what a parser returns that is asked so.
///
/// - `whole`: what each of its calls returns, the tree with all places or the error
/// - `accepted`: the same, where of an accepted text nothing is said but that it is
/// - `taken`: whether fresh tokens of a text are accepted, and how many are taken
/// - `in turn`: what is given over the tokens that are left, in turn until they have ended. The number of tokens that are
///   passed first stands before the text, with ` in ` between them.
/// - `limited`: whether a text is accepted within limits. They stand before it, with ` in ` between them.
/// - `budgets`: what is answered as the budget of memory grows
/// - `beginnings`: how many beginnings a text has, if each of them is rejected late or not at all
/// - `cuts`: after how many of its tokens a line may end, if it is rejected at its end after any other
/// - `quotes`: how many tokens a text has, if a quote before any of them but the end is rejected at that quote
/// - `lines`: how many tokens are taken of a text, if it returns the same when its tokens stand on lines of their own
/// - `short texts`: how many of the texts are accepted that are at most four of these spellings with blanks between them,
///   and how many are rejected
/// - the name of a view: what is looked at in the tree. Before the text may stand the name that is asked for, with ` in `
///   between them.
pub fn write_asked(shown: &mut Shown, parser: Parser, asked: &str, text: &str) {
    match asked {
        "whole" | "accepted" => write_each_call(shown, parser, asked, text),
        "taken" => taken::write_counted(shown, parser, "accepted", text),
        "in turn" => write_in_turn(shown, parser, text),
        "limited" => write_within(shown, parser, text),
        _ => write_hostile(shown, parser, asked, text),
    }
}

fn write_hostile(shown: &mut Shown, parser: Parser, asked: &str, text: &str) {
    match asked {
        "beginnings" => hostile::write_beginnings(shown, parser, text),
        "cuts" => hostile::write_cuts(shown, parser, text),
        "quotes" => hostile::write_quotes(shown, parser, text),
        "lines" => hostile::write_lines(shown, parser, text),
        _ => write_other(shown, parser, asked, text),
    }
}

fn write_other(shown: &mut Shown, parser: Parser, asked: &str, text: &str) {
    match asked {
        "budgets" => budgets::write_answers(shown, parser, text),
        "short texts" => hostile::write_short_texts(shown, parser, text),
        view if VIEWS.contains(&view) => write_viewed(shown, parser, view, text),
        _ => shown.word("no such call"),
    }
}

fn write_viewed(shown: &mut Shown, parser: Parser, view: &str, text: &str) {
    let (asked, text) = pair(text, " in ");
    write(shown, parser, view, asked, text);
}

fn write_in_turn(shown: &mut Shown, parser: Parser, text: &str) {
    let (passed, text) = pair(text, " in ");
    match passed.parse() {
        Ok(passed) => taken::write_in_turn(shown, parser, passed, text),
        Err(_) => shown.word("no number"),
    }
}

fn write_within(shown: &mut Shown, parser: Parser, text: &str) {
    let (limits, text) = pair(text, " in ");
    match limits_of(limits) {
        Some(limits) => write_limited(shown, parser, "accepted", text, limits),
        None => shown.word("no such limits"),
    }
}
