//! What is sent to the client, and why a message is rejected.

use crate::client::Client;
use crate::members::Fault;
use crate::messages::{Diagnostic, Id, write_diagnostics};
use crate::writer::JsonWriter;
use std::alloc::{AllocError, Global};
use std::io::Write;
use std::mem;

/// Why a message is rejected, or has no effect.
#[derive(Clone, Copy)]
pub enum Failure<'a> {
    OutOfMemory,
    /// Why a header part is invalid.
    Header(&'static str),
    /// Its content is coded otherwise than in UTF-8, as its header says.
    OtherCharset,
    NotUtf8,
    NotJson,
    NotMessage,
    NoId,
    NotInitialized,
    InitializedTwice,
    ShutDown,
    NoSuchRequest,
    TooManyPositions,
    WrongParams(Fault),
    /// There is no text of this URI, and why.
    NoText(&'a str, &'static str),
}

impl Failure<'_> {
    // The error of a request (JSON-RPC 2.0, "Error object"; Language Server Protocol 3.17, "ErrorCodes"), and the words that are
    // reported of it.
    fn row(self) -> (i64, &'static str) {
        match self {
            Failure::OutOfMemory => (-32603, "out of memory"),
            Failure::Header(why) => (-32700, why),
            Failure::OtherCharset => (-32700, "a content is not coded in UTF-8"),
            Failure::NotUtf8 => (-32700, "a content is no UTF-8"),
            Failure::NotJson => (-32700, "a content is no JSON"),
            Failure::NotMessage => (-32600, "a content is no message"),
            Failure::NoId => (-32600, "an id is no text and no number"),
            Failure::NotInitialized => (-32002, "the first request is initialize"),
            Failure::InitializedTwice => (-32600, "initialize comes once"),
            Failure::ShutDown => (-32600, "no request comes after shutdown"),
            Failure::NoSuchRequest => (-32601, "there is no such request"),
            Failure::TooManyPositions => (-32602, "so many positions are not answered at once"),
            Failure::WrongParams(_) => (-32602, ""),
            Failure::NoText(_, why) => (-32803, why),
        }
    }

    // Adds what is reported of it to the words of a text.
    fn write(self, json: &mut JsonWriter) {
        match self {
            Failure::WrongParams(fault) => fault.write(json),
            Failure::NoText(uri, _) => {
                json.words(uri);
                json.words(": ");
            }
            _ => {}
        }
        let (_, words) = self.row();
        json.words(words);
    }

    /// Whether memory ran out.
    pub fn is_of_memory(self) -> bool {
        matches!(self, Failure::OutOfMemory)
    }
}

impl From<AllocError> for Failure<'_> {
    fn from(_error: AllocError) -> Self {
        Failure::OutOfMemory
    }
}

impl From<Fault> for Failure<'_> {
    fn from(fault: Fault) -> Self {
        Failure::WrongParams(fault)
    }
}

// How much a message of the log matters (Language Server Protocol 3.17, "MessageType").
const ERROR: usize = 1;

const WARNING: usize = 2;

/// The messages to the client. One for which memory runs out is left out, which is logged once there is memory again.
#[derive(Drop)]
pub struct Outbox {
    alloc: Global,
    /// Those that are whole, each with its header part.
    pub bytes: Vec<u8>,
    /// The answer that is being written.
    pub json: JsonWriter,
    // Memory ran out, which isn't logged yet.
    is_short: bool,
}

impl Outbox {
    /// No message. It takes no memory.
    pub fn new(alloc: Global) -> Outbox {
        Outbox {
            alloc,
            bytes: Vec::new(alloc),
            json: JsonWriter::new(alloc),
            is_short: false,
        }
    }

    /// Drops the messages that are whole.
    pub fn clear(&mut self) {
        self.bytes = Vec::new(self.alloc);
    }

    // A message that begins.
    fn begun(&self) -> JsonWriter {
        let mut json = JsonWriter::new(self.alloc);
        json.begin_object();
        json.text_member("jsonrpc", "2.0");
        json
    }

    /// Begins the answer to a request, whose result comes next ("Response Message").
    pub fn begin_answer(&mut self, id: Id<'_>) {
        self.json = self.begun();
        id.write(&mut self.json);
        self.json.name("result");
    }

    /// Ends the answer, and adds it. Whether there was memory for it: if not, nothing is added.
    pub fn send_answer(&mut self) -> bool {
        let json = mem::replace(&mut self.json, JsonWriter::new(self.alloc));
        self.send(json)
    }

    // Ends a message, and adds it with its header part. Whether there was memory for it: if not, nothing is added.
    fn send(&mut self, json: JsonWriter) -> bool {
        let before = self.bytes.len();
        let is_sent = match json.finish() {
            Ok(content) => self.add(content.as_slice()),
            Err(_) => false,
        };
        if !is_sent {
            self.bytes.truncate(before);
            self.is_short = true;
        }
        is_sent
    }

    // Adds a message with its header part. Whether there was memory for all of it.
    fn add(&mut self, content: &[u8]) -> bool {
        let length = content.len();
        write!(self.bytes, "Content-Length: {length}\r\n\r\n").is_ok()
            && self.bytes.extend_from_slice(content).is_ok()
    }

    /// Answers a request by an error, or, if there is no memory for that one, by one that says so.
    pub fn refuse(&mut self, id: Id<'_>, failure: Failure<'_>) {
        if !self.send_error(id, failure) {
            let _ = self.send_error(id, Failure::OutOfMemory);
        }
    }

    // Answers a request by an error ("ResponseError"). Whether there was memory for it.
    fn send_error(&mut self, id: Id<'_>, failure: Failure<'_>) -> bool {
        let (code, _) = failure.row();
        self.is_short = self.is_short || failure.is_of_memory();
        let mut json = self.begun();
        id.write(&mut json);
        json.object_member("error");
        json.name("code");
        json.integer(code);
        failure.write(&mut json);
        json.said_member("message");
        json.end_object();
        self.send(json)
    }

    // A notification that begins, whose parameters come next ("Notification Message").
    fn begun_notice(&self, method: &str) -> JsonWriter {
        let mut json = self.begun();
        json.text_member("method", method);
        json.object_member("params");
        json
    }

    // A message of the log that begins ("window/logMessage").
    fn begun_log(&self, kind: usize) -> JsonWriter {
        let mut json = self.begun_notice("window/logMessage");
        json.size_member("type", kind);
        json.words("gql: ");
        json
    }

    // Ends a message of the log, which says the words that were added, and adds it.
    fn send_log(&mut self, json: JsonWriter) {
        let mut json = json;
        json.said_member("message");
        json.end_object();
        let _ = self.send(json);
    }

    /// Logs what is odd about a text.
    pub fn warn(&mut self, what: &str, uri: &str) {
        let mut json = self.begun_log(WARNING);
        json.words(what);
        json.words(": ");
        json.words(uri);
        self.send_log(json);
    }

    /// Logs a failure, with the name of its method if it has one.
    pub fn log(&mut self, method: &str, failure: Failure<'_>) {
        let mut json = self.begun_log(ERROR);
        if !method.is_empty() {
            json.words(method);
            json.words(": ");
        }
        failure.write(&mut json);
        self.send_log(json);
    }

    /// Notes that memory ran out for something that the client sent.
    pub fn note_shortage(&mut self) {
        self.is_short = true;
    }

    /// Logs that memory ran out, once and as soon as there is memory for that.
    pub fn log_shortage(&mut self) {
        if self.is_short {
            self.is_short = false;
            self.log("", Failure::OutOfMemory);
        }
    }

    /// Publishes diagnostics ("PublishDiagnosticsParams"), unless the client asks for them. Whether there was memory for it.
    pub fn publish(
        &mut self,
        uri: &str,
        version: Option<i64>,
        diagnostics: &[Diagnostic<'_>],
        client: &Client,
    ) -> bool {
        if client.asks_for_diagnostics {
            return true;
        }
        let mut json = self.begun_notice("textDocument/publishDiagnostics");
        json.text_member("uri", uri);
        if let Some(version) = version {
            json.name("version");
            json.integer(version);
        }
        write_diagnostics("diagnostics", diagnostics, client, &mut json);
        json.end_object();
        self.send(json)
    }
}
