//! The outline of a text (Language Server Protocol 3.17, "Document Symbols Request").

use crate::navigation::write_span;
use crate::places::Places;
use crate::results::Asked;
use crate::writer::JsonWriter;
use graphql_editor::{Span, Structure, Symbol, SymbolKind};
use std::alloc::AllocError;

// About how many bytes of the answer a symbol takes.
const BYTES: usize = 256;

/// Writes the symbols of a text for a client: each with those inside of it, or one after another if it doesn't show them so.
///
/// It fails only if memory runs out.
pub fn write_outline(
    asked: Asked<'_>,
    structure: &Structure,
    places: &mut Places<'_>,
    json: &mut JsonWriter,
) -> Result<(), AllocError> {
    json.reserve(structure.symbols().len().saturating_mul(BYTES));
    json.begin_list();
    if asked.client.nests_symbols {
        write_nested(asked, structure.symbols(), places, json);
    } else {
        write_flat(asked, structure.symbols(), places, json)?;
    }
    json.end_list();
    Ok(())
}

// Writes each symbol with those inside of it ("DocumentSymbol").
fn write_nested(
    asked: Asked<'_>,
    symbols: &[Symbol],
    places: &mut Places<'_>,
    json: &mut JsonWriter,
) {
    // How many symbols are open: the one that was met last, and those around it.
    let mut open = 0usize;
    for symbol in symbols {
        close_to(symbol.depth, open, json);
        begin_symbol(asked, symbol, json);
        if let Some(detail) = symbol.detail {
            json.lead(",\"detail\":");
            json.text(slice_of(asked.text(), detail));
        }
        let Symbol { whole, name, .. } = *symbol;
        let range = places.range_of(whole.start, whole.end);
        json.lead(",\"range\":");
        json.range(range);
        json.lead(",\"selectionRange\":");
        json.range(if name == whole {
            range
        } else {
            places.range_of(name.start, name.end)
        });
        json.lead(",\"children\":[");
        open = open.min(symbol.depth).saturating_add(1);
    }
    close_to(0, open, json);
}

// Writes each symbol with the name of the one around it ("SymbolInformation").
fn write_flat(
    asked: Asked<'_>,
    symbols: &[Symbol],
    places: &mut Places<'_>,
    json: &mut JsonWriter,
) -> Result<(), AllocError> {
    let mut around: Vec<Span> = Vec::new(asked.alloc);
    for symbol in symbols {
        around.truncate(symbol.depth);
        begin_symbol(asked, symbol, json);
        json.name("location");
        write_span(asked, places, symbol.whole, json);
        if let Some(outer) = around.last() {
            json.text_member("containerName", slice_of(asked.text(), *outer));
        }
        json.end_object();
        around.push(symbol.name)?;
    }
    Ok(())
}

// Begins a symbol with its name and its kind.
fn begin_symbol(asked: Asked<'_>, symbol: &Symbol, json: &mut JsonWriter) {
    json.begin_object();
    json.lead("\"name\":");
    json.text(slice_of(asked.text(), symbol.name));
    let (kind, older) = kinds_of(symbol.kind);
    let is_known = asked.client.kinds.has(kind);
    json.lead(",\"kind\":");
    json.size(if is_known { kind } else { older });
}

// Ends each symbol that is open and not around this depth.
fn close_to(depth: usize, open: usize, json: &mut JsonWriter) {
    for _ in depth..open {
        json.end("]}");
    }
}

/// The part of a text between two offsets; nothing if they aren't offsets of characters.
pub fn slice_of(text: &str, span: Span) -> &str {
    text.get(span.start..span.end).unwrap_or("")
}

// What editors show for a symbol, and what those show that don't know that kind: one of the protocol's first version that is like it
// ("SymbolKind"; which one for what is this project's choice).
fn kinds_of(kind: SymbolKind) -> (usize, usize) {
    match kind {
        SymbolKind::Query | SymbolKind::Mutation | SymbolKind::Subscription => (FUNCTION, FUNCTION),
        SymbolKind::Fragment | SymbolKind::ObjectType => (CLASS, CLASS),
        SymbolKind::Variable | SymbolKind::Argument => (VARIABLE, VARIABLE),
        SymbolKind::SelectedField | SymbolKind::InputField | SymbolKind::Field => (FIELD, FIELD),
        SymbolKind::InlineFragment | SymbolKind::Spread => (OBJECT, FIELD),
        SymbolKind::Schema => (MODULE, MODULE),
        SymbolKind::RootOperation => (PROPERTY, PROPERTY),
        SymbolKind::Scalar => (TYPE_PARAMETER, CLASS),
        SymbolKind::Interface => (INTERFACE, INTERFACE),
        SymbolKind::Union | SymbolKind::Enum => (ENUM, ENUM),
        SymbolKind::EnumValue => (ENUM_MEMBER, CONSTANT),
        SymbolKind::Input => (STRUCT, CLASS),
        SymbolKind::Directive => (EVENT, FUNCTION),
    }
}

const MODULE: usize = 2;

const CLASS: usize = 5;

const PROPERTY: usize = 7;

const FIELD: usize = 8;

const ENUM: usize = 10;

const INTERFACE: usize = 11;

const FUNCTION: usize = 12;

const VARIABLE: usize = 13;

const CONSTANT: usize = 14;

const OBJECT: usize = 19;

const ENUM_MEMBER: usize = 22;

const STRUCT: usize = 23;

const EVENT: usize = 24;

const TYPE_PARAMETER: usize = 26;
