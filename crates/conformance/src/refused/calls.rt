//! Calls that are given a text.
use super::answers::{show_checked, show_found, show_json, show_option, show_tree};
use super::free;
use graphql_parser::lexer::Tokens;
use graphql_parser::text::{block_string_value, string_value};
use graphql_parser::types::Type;
use graphql_parser::value::{Name, Number};
use graphql_parser::{
    check_query, check_query_from, check_query_limited, check_schema, check_schema_from,
    check_schema_limited, parse_query, parse_query_from, parse_query_limited, parse_schema,
    parse_schema_from, parse_schema_limited,
};
use rows::{Row, Shown, narrow, pair, show, show_made};
use std::alloc::AllocError;

/// Makes a call that is given nothing but the text of its row.
pub fn make_of_text(shown: &mut Shown, row: &Row<'_>) -> bool {
    match row.kind {
        "query text" => of_query(shown, row.call, row.text),
        "schema text" => of_schema(shown, row.call, row.text),
        _ => of_text(shown, row.call, row.text),
    }
}

// A call that is given the text of a request.
fn of_query(shown: &mut Shown, call: &str, text: &str) -> bool {
    let alloc = shown.alloc();
    match call {
        "parse" => show_tree(shown, parse_query(alloc, text)),
        "parse limited" => show_tree(shown, parse_query_limited(alloc, text, narrow())),
        "check" => show_checked(shown, check_query(alloc, text)),
        "check limited" => show_checked(shown, check_query_limited(alloc, text, narrow())),
        _ => of_tokens(shown, call, true, text),
    }
}

// A call that is given the text of a schema file.
fn of_schema(shown: &mut Shown, call: &str, text: &str) -> bool {
    let alloc = shown.alloc();
    match call {
        "parse" => show_tree(shown, parse_schema(alloc, text)),
        "parse limited" => show_tree(shown, parse_schema_limited(alloc, text, narrow())),
        "check" => show_checked(shown, check_schema(alloc, text)),
        "check limited" => show_checked(shown, check_schema_limited(alloc, text, narrow())),
        _ => of_tokens(shown, call, false, text),
    }
}

// The answer over the tokens that are left, and how many are taken; and where memory is refused, whether no more
// are taken than there are, and the rest is still to come. Before the text may stand how many tokens are passed first, with
// ` in ` between them.
fn of_tokens(shown: &mut Shown, call: &str, is_query: bool, text: &str) -> bool {
    let (passed, text) = pair(text, " in ");
    let mut tokens = Tokens::new(text);
    for _ in 0..passed.parse::<usize>().unwrap_or(0) {
        tokens.next();
    }
    match call {
        "parse from" => parse_rest(shown, is_query, tokens, text),
        "check from" => check_rest(shown, is_query, tokens, text),
        _ => show(shown, &"no such call"),
    }
}

// The answer of a parse over the tokens that are left of a text.
fn parse_rest(shown: &mut Shown, is_query: bool, mut tokens: Tokens<'_>, text: &str) -> bool {
    if tokens.is_ended() {
        return show(shown, &"no tokens left");
    }
    let is_answered = if is_query {
        show_tree(shown, parse_query_from(shown.alloc(), &mut tokens))
    } else {
        show_tree(shown, parse_schema_from(shown.alloc(), &mut tokens))
    };
    show_taken(shown, is_answered, tokens, text);
    is_answered
}

// The same of a check.
fn check_rest(shown: &mut Shown, is_query: bool, mut tokens: Tokens<'_>, text: &str) -> bool {
    if tokens.is_ended() {
        return show(shown, &"no tokens left");
    }
    let is_answered = if is_query {
        show_checked(shown, check_query_from(shown.alloc(), &mut tokens))
    } else {
        show_checked(shown, check_schema_from(shown.alloc(), &mut tokens))
    };
    show_taken(shown, is_answered, tokens, text);
    is_answered
}

// How many tokens were taken, or that no more were than there are.
fn show_taken(shown: &mut Shown, is_answered: bool, tokens: Tokens<'_>, text: &str) {
    let taken = tokens.taken();
    if is_answered {
        shown.item(", taken ", &taken);
    } else if taken.checked_add(count(tokens)) == Some(count(Tokens::new(text))) {
        shown.word("taken within ");
    }
}

// How many tokens are left.
fn count(tokens: Tokens<'_>) -> usize {
    let mut count = 0usize;
    for _ in tokens {
        count = count.wrapping_add(1);
    }
    count
}

// A call that is given any other text.
fn of_text(shown: &mut Shown, call: &str, text: &str) -> bool {
    match call {
        "string value" => show_found(shown, string_value(shown.alloc(), text)),
        "block string value" => show_made(shown, block_string_value(shown.alloc(), text)),
        "places" => free::show_places(shown, text),
        "tokens" => free::show_tokens(shown, text),
        _ => of_name(shown, call, text),
    }
}

fn of_name(shown: &mut Shown, call: &str, text: &str) -> bool {
    match call {
        "name" => show_made(shown, Name::new(shown.alloc(), text)),
        "name cloned" => show_cloned(shown, Name::new(shown.alloc(), text)),
        "number" | "number cloned" => of_number(shown, call, text),
        "type" => show_found(shown, Type::new(shown.alloc(), text)),
        _ => of_type(shown, call, text),
    }
}

fn show_cloned(shown: &mut Shown, name: Result<Name, AllocError>) -> bool {
    match name {
        Ok(name) => show_made(shown, name.clone()),
        Err(_) => false,
    }
}

fn of_number(shown: &mut Shown, call: &str, text: &str) -> bool {
    match Number::new(shown.alloc(), text) {
        Ok(Some(number)) if call == "number cloned" => show_made(shown, number.clone()),
        Ok(Some(number)) => show_number(shown, &number),
        Ok(None) => show(shown, &"none"),
        Err(_) => false,
    }
}

fn show_number(shown: &mut Shown, number: &Number) -> bool {
    shown.item("", number);
    show_option(shown, " ", number.as_i64());
    show_option(shown, " ", number.as_u64());
    true
}

fn of_type(shown: &mut Shown, call: &str, text: &str) -> bool {
    match Type::new(shown.alloc(), text) {
        Ok(Some(ty)) => show_type(shown, call, &ty),
        Ok(None) => show(shown, &"none"),
        Err(_) => false,
    }
}

fn show_type(shown: &mut Shown, call: &str, ty: &Type) -> bool {
    match call {
        "type cloned" => show_made(shown, ty.clone()),
        "type as JSON" => show_json(shown, ty),
        _ => show(shown, &"no such call"),
    }
}
