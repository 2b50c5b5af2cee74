//! Values as block strings, and sheets.
use graphql_layout::blocks::{may_be_block, push_block};
use graphql_layout::line_ends::LineBreak;
use graphql_layout::sheet::Sheet;
use graphql_tokens::lexer::TokenKind;
use rows::{Shown, pair};
use std::alloc::AllocError;

/// Writes the block string of a value; before it the word `kept` if it has the value, and else `lost`. The number of blanks before
/// each of its lines stands before the value, with ` in ` between them.
pub fn write_block(shown: &mut Shown, row: &str) {
    let (indent, value) = pair(row, " in ");
    let Ok(indent) = indent.parse::<usize>() else {
        return shown.word("no number");
    };
    shown.word(if may_be_block(value) {
        "kept "
    } else {
        "lost "
    });
    let mut block = String::new(shown.alloc());
    match push_block(&mut block, value, LineBreak::feed(indent)) {
        Ok(()) => shown.word(block.as_str()),
        Err(_) => shown.leave_out(),
    }
}

/// Writes the sheet on which these are written in turn: a `line` feed, a `blank`, a `comma`, the `comment` `# b`, and the `name` `a`.
pub fn write_sheet(shown: &mut Shown, items: &str) {
    let mut sheet = Sheet::new(shown.alloc());
    for item in items.split_whitespace() {
        if write_item(&mut sheet, item).is_err() {
            shown.leave_out();
        }
    }
    shown.word(sheet.finish().as_str());
}

fn write_item(sheet: &mut Sheet, item: &str) -> Result<(), AllocError> {
    match item {
        "line" => sheet.line(),
        "blank" => sheet.blank(),
        "comma" => sheet.comma(),
        "comment" => sheet.comment("# b"),
        _ => sheet.token(TokenKind::Name, "a"),
    }
}
