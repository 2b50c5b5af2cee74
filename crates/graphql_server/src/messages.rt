//! What a message of a client is, and parts of those that the server sends (Language Server Protocol 3.17, "Base Protocol").

use crate::answers::Failure;
use crate::client::Client;
use crate::methods::Method;
use crate::writer::JsonWriter;
use json::Value;
use text_edits::Range;

/// The name of a request, which its answer has too ("Request Message"); null for what is no message.
#[derive(Clone, Copy)]
pub enum Id<'a> {
    Number(i64),
    Text(&'a str),
    Null,
}

impl Id<'_> {
    /// Writes the member that has it.
    pub fn write(self, json: &mut JsonWriter) {
        json.name("id");
        match self {
            Id::Number(number) => json.integer(number),
            Id::Text(text) => json.text(text),
            Id::Null => json.null(),
        }
    }
}

/// What a message is.
#[derive(Clone, Copy)]
pub enum Message<'a> {
    Request(Id<'a>, Method),
    /// With the name of its method.
    Notice(Method, &'a str),
    /// What has a result or an error: the answer to a request, of which the server has made none.
    Answer,
    /// It is no message, and has this id.
    Wrong(Id<'a>, Failure<'a>),
}

/// What a message is ("Abstract Message", "Request Message", "Notification Message", "Response Message").
pub fn message_of<'a>(message: &Value<'a>) -> Message<'a> {
    if message.get("result").is_some() || message.get("error").is_some() {
        return Message::Answer;
    }
    let id = match message.get("id") {
        None => None,
        Some(id) => match id_of(id) {
            Some(id) => Some(id),
            None => return Message::Wrong(Id::Null, Failure::NoId),
        },
    };
    match (text_of(message, "jsonrpc"), text_of(message, "method")) {
        (Some("2.0"), Some(name)) => match id {
            Some(id) => Message::Request(id, Method::of(name)),
            None => Message::Notice(Method::of(name), name),
        },
        _ => Message::Wrong(id.unwrap_or(Id::Null), Failure::NotMessage),
    }
}

fn id_of<'a>(id: &Value<'a>) -> Option<Id<'a>> {
    match id {
        Value::String(text) => Some(Id::Text(*text)),
        Value::Number(digits) => Some(Id::Number(digits.parse::<i64>().ok()?)),
        _ => None,
    }
}

fn text_of<'a>(message: &Value<'a>, name: &str) -> Option<&'a str> {
    message.get(name)?.as_str()
}

// ---- What is sent

/// "Diagnostic".
#[derive(Drop)]
pub struct Diagnostic<'a> {
    pub range: Range,
    pub code: &'static str,
    pub message: String,
    pub related: Option<Related<'a>>,
}

// An error ("DiagnosticSeverity").
const ERROR: usize = 1;

/// Writes a member that is a list of diagnostics for a client.
pub fn write_diagnostics(
    name: &'static str,
    diagnostics: &[Diagnostic<'_>],
    client: &Client,
    json: &mut JsonWriter,
) {
    json.list_member(name);
    for diagnostic in diagnostics {
        write_diagnostic(diagnostic, client, json);
    }
    json.end_list();
}

/// Writes a diagnostic for a client.
pub fn write_diagnostic(diagnostic: &Diagnostic<'_>, client: &Client, json: &mut JsonWriter) {
    json.begin_object();
    json.range_member("range", diagnostic.range);
    json.size_member("severity", ERROR);
    json.text_member("code", diagnostic.code);
    json.text_member("source", "gql");
    json.text_member("message", diagnostic.message.as_str());
    if client.shows_related
        && let Some(related) = diagnostic.related
    {
        json.list_member("relatedInformation");
        json.begin_object();
        json.name("location");
        write_location(related.location, json);
        json.text_member("message", related.message);
        json.end_object();
        json.end_list();
    }
    json.end_object();
}

/// "DiagnosticRelatedInformation".
#[derive(Clone, Copy)]
pub struct Related<'a> {
    pub location: Location<'a>,
    pub message: &'static str,
}

/// "Location".
#[derive(Clone, Copy)]
pub struct Location<'a> {
    pub uri: &'a str,
    pub range: Range,
}

/// Writes a part of a text.
pub fn write_location(location: Location<'_>, json: &mut JsonWriter) {
    json.begin_object();
    json.text_member("uri", location.uri);
    json.range_member("range", location.range);
    json.end_object();
}

/// Writes what is put in the place of a part of a text ("TextEdit").
pub fn write_edit(range: Range, new: &str, json: &mut JsonWriter) {
    json.begin_object();
    json.range_member("range", range);
    json.text_member("newText", new);
    json.end_object();
}
