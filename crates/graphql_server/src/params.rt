//! The parameters of the messages of a client (Language Server Protocol 3.17).

ghost use Rattle.std.specs.Prelude.{IfOk};
ghost use Rattle.json.specs.Value.{value_view};
ghost use Rattle.graphql_server.specs.Members.{IsChangeIn, AreChangesIn};

use crate::answers::Failure;
use crate::client::{Client, SymbolKinds};
use crate::fixes::QUICK_FIX;
use crate::members::{Fault, Member, Reading};
use crate::methods::Method;
use crate::places::START;
use crate::texts::{Change, said_by};
use graphql_texts::Language;
use json::Value;
use std::alloc::Global;
use text_edits::{Encoding, Position, Range};

/// The URI of the text that a message is about ("TextDocumentIdentifier").
pub fn uri_of<'a>(message: Member<'_, 'a>) -> Result<&'a str, Fault> {
    message.text_at("params.textDocument.uri")
}

// The version of that text, if the client counts versions.
fn version_of(reading: &mut Reading<'_, '_>) -> Option<i64> {
    let read = reading.optional("params.textDocument.version")?.integer();
    reading.taken(read)
}

/// A text that is opened ("TextDocumentItem").
#[derive(Clone, Copy)]
pub struct Opened<'a> {
    pub uri: &'a str,
    /// The language that the client says it is in, if it is one that the server knows.
    pub said: Option<Language>,
    /// Its version, if the client counts versions.
    pub version: Option<i64>,
    pub text: &'a str,
}

/// The text that a message opens.
pub fn opened_of<'a>(message: Member<'_, 'a>) -> Result<Opened<'a>, Fault> {
    let mut reading = Reading::of(message);
    let opened = Opened {
        uri: reading.text("params.textDocument.uri"),
        said: said_by(reading.optional_text("params.textDocument.languageId")),
        version: version_of(&mut reading),
        text: reading.text("params.textDocument.text"),
    };
    reading.check()?;
    Ok(opened)
}

/// The text that a message changes: its URI, and the version that it then has.
pub fn changed_of<'a>(message: Member<'_, 'a>) -> Result<(&'a str, Option<i64>), Fault> {
    let mut reading = Reading::of(message);
    let uri = reading.text("params.textDocument.uri");
    let version = version_of(&mut reading);
    reading.check()?;
    Ok((uri, version))
}

/// What a request asks about a text.
#[derive(Clone, Copy)]
pub struct Query<'v, 'a> {
    pub method: Method,
    /// The URI of the text.
    pub uri: &'a str,
    /// The range that it is about, or its position, from which to which the range is then; else the beginning of the text.
    pub range: Range,
    /// Whether quick fixes are among the actions that are asked for ("CodeActionContext"), or definitions among the references
    /// ("ReferenceContext").
    pub takes: bool,
    /// The list of positions around which selections are asked for.
    pub positions: Option<Member<'v, 'a>>,
}

/// What a request of this method asks about a text.
pub fn query_of<'v, 'a>(method: Method, message: Member<'v, 'a>) -> Result<Query<'v, 'a>, Fault> {
    let mut reading = Reading::of(message);
    let uri = reading.text("params.textDocument.uri");
    let query = Query {
        method,
        uri,
        range: range_of(method, &mut reading),
        takes: takes_of(method, &mut reading),
        positions: match method {
            Method::SelectionRange => reading.member("params.positions"),
            _ => None,
        },
    };
    reading.check()?;
    Ok(query)
}

fn range_of(method: Method, reading: &mut Reading<'_, '_>) -> Range {
    match method {
        Method::RangeFormatting | Method::CodeAction => Range {
            start: reading.position("params.range.start.line", "params.range.start.character"),
            end: reading.position("params.range.end.line", "params.range.end.character"),
        },
        Method::Definition | Method::Hover | Method::References => {
            let position = reading.position("params.position.line", "params.position.character");
            Range {
                start: position,
                end: position,
            }
        }
        _ => Range {
            start: START,
            end: START,
        },
    }
}

fn takes_of(method: Method, reading: &mut Reading<'_, '_>) -> bool {
    match method {
        Method::CodeAction => {
            reading.object("params.context");
            // A kind stands for those below it too, and none for all.
            let kinds = reading.first_of("params.context.only", &["", QUICK_FIX], "");
            kinds.is_some()
        }
        Method::References => reading.boolean("params.context.includeDeclaration"),
        _ => false,
    }
}

// ---- Changes

/// The changes of a text.
pub fn changes_of<'a>(
    alloc: Global,
    message: Member<'_, 'a>,
) -> Result<Vec<Change<'a>>, Failure<'a>>
    ensures { IfOk result (λ changes. AreChangesIn (value_view message.entry.value.now) changes.items) }
{
    let list = message.at("params.contentChanges")?;
    let items = list.items()?;
    let mut changes = Vec::new(alloc);
    for (index, value) in items.iter().enumerate() {
        let change = change_of(list.item(index, value))?;
        if changes.push(change).is_err() {
            return Err(Failure::OutOfMemory);
        }
    }
    Ok(changes)
}

fn change_of<'a>(item: Member<'_, 'a>) -> Result<Change<'a>, Fault>
    ensures { IfOk result (λ change. IsChangeIn (value_view item.entry.value.now) change) }
{
    let mut reading = Reading::of(item);
    let range = match reading.optional("range") {
        None => None,
        Some(_) => Some(Range {
            start: reading.position("range.start.line", "range.start.character"),
            end: reading.position("range.end.line", "range.end.character"),
        }),
    };
    let text = reading.text("text");
    reading.check()?;
    Ok(Change { range, text })
}

/// A position of a list.
pub fn position_in<'v, 'a>(
    list: Member<'v, 'a>,
    index: usize,
    value: &'v Value<'a>,
) -> Result<Position, Fault> {
    let mut reading = Reading::of(list.item(index, value));
    let position = reading.position("line", "character");
    reading.check()?;
    Ok(position)
}

// ---- Capabilities

/// What a client can do ("ClientCapabilities"). One that has the capabilities of diagnostics asks for them itself.
pub fn client_of(message: Member<'_, '_>) -> Result<Client, Fault> {
    let mut reading = Reading::of(message);
    reading.object("params");
    let client = Client {
        encoding: encoding_of(&mut reading),
        asks_for_diagnostics: reading.has("params.capabilities.textDocument.diagnostic"),
        shows_related: reading.is_true(
            "params.capabilities.textDocument.publishDiagnostics.relatedInformation",
        ),
        takes_fixes: reading.has(
            "params.capabilities.textDocument.codeAction.codeActionLiteralSupport",
        ),
        nests_symbols: reading.is_true(
            "params.capabilities.textDocument.documentSymbol.hierarchicalDocumentSymbolSupport",
        ),
        kinds: kinds_of(&mut reading),
        likes_markdown: reading.first_of(
            "params.capabilities.textDocument.hover.contentFormat",
            &["plaintext", "markdown"],
            "plaintext",
        ) == Some("markdown"),
    };
    reading.check()?;
    Ok(client)
}

fn encoding_of(reading: &mut Reading<'_, '_>) -> Encoding {
    let path = "params.capabilities.general.positionEncodings";
    match reading.first_of(path, &["utf-8", "utf-16", "utf-32"], "utf-16") {
        Some("utf-8") => Encoding::Utf8,
        Some("utf-32") => Encoding::Utf32,
        _ => Encoding::Utf16,
    }
}

fn kinds_of(reading: &mut Reading<'_, '_>) -> SymbolKinds {
    let path = "params.capabilities.textDocument.documentSymbol.symbolKind.valueSet";
    let Some(list) = reading.optional(path) else {
        return SymbolKinds::first();
    };
    let mut kinds = SymbolKinds::none();
    let Some(items) = reading.items(list) else {
        return kinds;
    };
    for (index, value) in items.iter().enumerate() {
        if let Some(kind) = reading.taken(list.item(index, value).size()) {
            kinds.add(kind);
        }
    }
    kinds
}
