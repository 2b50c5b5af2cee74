//! What stands below the parsers: tokens, places, names, numbers, what strings mean, types and values, and the readers of values at a
//! third type of values.
mod literals_made;
mod literals_read;
mod names;
mod nodes;
mod numbers;
mod places;
mod tokens;
mod type_texts;
mod written;

use graphql_tokens::text::{block_string_value, string_value};
use rows::Shown;

/// Writes what the call of this name makes of a text.
pub fn answer(shown: &mut Shown, call: &str, text: &str) {
    match call {
        "tokens" => tokens::write_tokens(shown, text),
        "tokens for developers" => tokens::write_debugged(shown, text),
        "string value" => write_string(shown, text),
        "block string value" => write_block_string(shown, text),
        _ => answer_name(shown, call, text),
    }
}

fn answer_name(shown: &mut Shown, call: &str, text: &str) {
    match call {
        "number" => numbers::write_number(shown, text),
        "numbers compared" => numbers::write_comparison(shown, text),
        "name" => names::write_name(shown, text),
        "names ordered" => names::write_order(shown, text),
        _ => answer_place(shown, call, text),
    }
}

fn answer_place(shown: &mut Shown, call: &str, text: &str) {
    match call {
        "places of offsets" => places::write_places(shown, text),
        "calculator for developers" => places::write_debugged(shown, text),
        "place" => nodes::write_place(shown, text),
        "places ordered" => nodes::write_order(shown, text),
        _ => answer_node(shown, call, text),
    }
}

fn answer_node(shown: &mut Shown, call: &str, text: &str) {
    match call {
        "nodes compared" => nodes::write_comparison(shown, text),
        "node of a text" => nodes::write_text(shown, text),
        "type" => type_texts::write_read(shown, text),
        "types compared" => type_texts::write_comparison(shown, text),
        _ => answer_value(shown, call, text),
    }
}

fn answer_value(shown: &mut Shown, call: &str, text: &str) {
    if call == "value made" {
        literals_made::write_value(shown, text);
    } else if let Some(what) = call.strip_prefix("value ") {
        literals_read::write_read(shown, what, text);
    } else {
        written::write_read_back(shown, call, text);
    }
}

fn write_string(shown: &mut Shown, text: &str) {
    match string_value(shown.alloc(), text) {
        Ok(Some(value)) => {
            shown.item("'", &value);
            shown.word("'");
        }
        Ok(None) => shown.word("none"),
        Err(_) => shown.leave_out(),
    }
}

fn write_block_string(shown: &mut Shown, text: &str) {
    shown.made("'", block_string_value(shown.alloc(), text));
    shown.word("'");
}
