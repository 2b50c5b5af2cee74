//! What an editor asks of a text.
use graphql_editor::{Fold, Occurrence, Span, Structure, Symbol, selection_at};
use rows::{Shown, pair};

/// Writes what there is in a text, in turn, or the word `nothing`.
///
/// - `outline`: of each symbol its depth, its kind with a plus if it extends something, its name, and its detail after a colon
/// - `symbols`: all of each symbol
/// - `definitions`: each definition
/// - `folds`: of each fold its kind and all of it
/// - `names`: of each name what it is of, its role, its spelling, and its definition
pub fn write_listed(shown: &mut Shown, what: &str, text: &str) {
    match Structure::new(shown.alloc(), text) {
        Ok(structure) => write_list(shown, what, text, &structure),
        Err(_) => shown.leave_out(),
    }
    if shown.whole() == Some("") {
        shown.word("nothing");
    }
}

fn write_list(shown: &mut Shown, what: &str, text: &str, structure: &Structure) {
    match what {
        "outline" => write_outline(shown, text, structure.symbols()),
        "symbols" => write_symbols(shown, text, structure.symbols()),
        "definitions" => write_spans(shown, text, structure.definitions()),
        "folds" => write_folds(shown, text, structure.folds()),
        "names" => write_names(shown, text, structure.names()),
        _ => shown.word("no such list"),
    }
}

fn write_symbols(shown: &mut Shown, text: &str, symbols: &[Symbol]) {
    for symbol in symbols {
        write_span(shown, text, symbol.whole);
    }
}

fn write_folds(shown: &mut Shown, text: &str, folds: &[Fold]) {
    for fold in folds {
        shown.debugged(" ", &fold.kind);
        write_span(shown, text, fold.span);
    }
}

/// Writes what there is at an offset, which stands before the text, with ` in ` between them.
///
/// - `name`: where what the name there names is defined, and all the places where it is named
/// - `hover`: where the name there begins, the name, and what is shown of it
/// - `selection`: the ranges around it
/// - `ranges`: how many ranges are around it, and where the last one begins and ends
/// - `sizes`: how many symbols the text has, if the ranges around it are at most 200
pub fn write_at_offset(shown: &mut Shown, what: &str, row: &str) {
    let (offset, text) = pair(row, " in ");
    match offset.parse::<usize>() {
        Ok(offset) if what == "name" || what == "hover" => write_named(shown, what, text, offset),
        Ok(offset) => write_around(shown, what, text, offset),
        Err(_) => shown.word("no offset"),
    }
}

fn write_named(shown: &mut Shown, what: &str, text: &str, offset: usize) {
    match Structure::new(shown.alloc(), text) {
        Ok(structure) if what == "name" => write_name(shown, text, offset, &structure),
        Ok(structure) => write_hover(shown, text, offset, &structure),
        Err(_) => shown.leave_out(),
    }
}

fn write_around(shown: &mut Shown, what: &str, text: &str, offset: usize) {
    match selection_at(shown.alloc(), text, offset) {
        Ok(selection) => write_selection(shown, what, text, &selection),
        Err(_) => shown.leave_out(),
    }
}

fn write_selection(shown: &mut Shown, what: &str, text: &str, selection: &[Span]) {
    match what {
        "selection" => write_spans(shown, text, selection),
        "ranges" => write_ranges(shown, selection),
        "sizes" if selection.len() <= 200 => write_size(shown, text),
        _ => shown.word("too much, or nothing to ask"),
    }
}

fn write_ranges(shown: &mut Shown, selection: &[Span]) {
    shown.item("", &selection.len());
    if let Some(last) = selection.last() {
        shown.item(" up to ", &last.start);
        shown.item(" ", &last.end);
    }
}

fn write_size(shown: &mut Shown, text: &str) {
    match Structure::new(shown.alloc(), text) {
        Ok(structure) => shown.item("", &structure.symbols().len()),
        Err(_) => shown.leave_out(),
    }
}

/// What a span is of; None if it is of no characters of the text.
pub fn cut(text: &str, span: Span) -> Option<&str> {
    text.get(span.start..span.end)
}

fn write_span(shown: &mut Shown, text: &str, span: Span) {
    shown.word(" '");
    shown.word(cut(text, span).unwrap_or("?"));
    shown.word("'");
}

fn write_spans(shown: &mut Shown, text: &str, spans: &[Span]) {
    for span in spans {
        write_span(shown, text, *span);
    }
}

fn write_outline(shown: &mut Shown, text: &str, symbols: &[Symbol]) {
    for symbol in symbols {
        shown.item(" ", &symbol.depth);
        shown.debugged(" ", &symbol.kind);
        shown.word(if symbol.is_extension { "+" } else { "" });
        write_span(shown, text, symbol.name);
        if let Some(detail) = symbol.detail {
            shown.word(" :");
            write_span(shown, text, detail);
        }
        shown.word(";");
    }
}

fn write_names(shown: &mut Shown, text: &str, names: &[Occurrence]) {
    for name in names {
        shown.debugged(" ", &name.kind);
        shown.debugged(" ", &name.role);
        write_span(shown, text, name.span);
        shown.item(" ", &name.definition);
        shown.word(";");
    }
}

fn write_name(shown: &mut Shown, text: &str, offset: usize, structure: &Structure) {
    let Some(name) = structure.name_at(offset) else {
        return shown.word("none");
    };
    match structure.definition_of(text, name) {
        Some(span) => shown.item("defined at ", &span.start),
        None => shown.word("not defined"),
    }
    shown.word(", named at");
    match structure.occurrences_of(shown.alloc(), text, name) {
        Ok(others) => {
            for other in &others {
                shown.item(" ", &other.span.start);
            }
        }
        Err(_) => shown.leave_out(),
    }
}

fn write_hover(shown: &mut Shown, text: &str, offset: usize, structure: &Structure) {
    match structure.hover_at(shown.alloc(), text, offset) {
        Ok(Some(hover)) => {
            shown.item("", &hover.span.start);
            write_span(shown, text, hover.span);
            shown.item(" '", &hover.markdown);
            shown.word("'");
        }
        Ok(None) => shown.word("nothing"),
        Err(_) => shown.leave_out(),
    }
}
