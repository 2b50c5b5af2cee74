//! A session with one client: what it said, and what it is answered (Language Server Protocol 3.17, "Server lifecycle").

ghost use Rattle.std.specs.Prelude.{◌≤◌, IfSome};

use crate::answers::{Failure, Outbox};
use crate::capabilities::write_initialized;
use crate::client::Client;
use crate::files::{Files, closed_text};
use crate::halves::replace_halves;
use crate::members::Member;
use crate::messages::{Id, Message, message_of};
use crate::methods::Method;
use crate::params::{
    Opened, Query, changed_of, changes_of, client_of, opened_of, query_of, uri_of,
};
use crate::results::{Asked, RANGE_CLIPPED};
use crate::texts::{OpenText, change_all, index_of};
use json::{Error, Scratch, Value};
use std::alloc::{AllocError, Global};
use std::mem;

// How far a session is.
#[derive(Clone, Copy)]
enum Phase {
    // Before `initialize`.
    Fresh,
    Running,
    // After `shutdown`.
    ShutDown,
    // After `exit` that came after `shutdown`.
    Ended,
    // After another `exit`, or the end of the input.
    CutShort,
}

/// A session with one client.
#[derive(Drop)]
pub struct Session {
    alloc: Global,
    phase: Phase,
    client: Client,
    // The texts that are open, each with another URI. Nothing is kept of texts that are closed.
    texts: Vec<OpenText>,
    // Texts that are closed since a change of them may be lost, which isn't reported yet.
    lost: Vec<OpenText>,
    /// What is sent.
    pub outbox: Outbox,
}

// What is logged of a text.
const OPEN_BEFORE: &str = "the text was open before";

const NOT_OPEN: &str = "the text isn't open";

const LOST: &str = "the text is closed, since a change of it may be lost";

// What is done with a message: it has its effect, or it fails.
type Outcome<'a> = Result<(), Failure<'a>>;

impl Session {
    /// A session before its first message. It takes no memory.
    pub fn new(alloc: Global) -> Session {
        Session {
            alloc,
            phase: Phase::Fresh,
            client: Client::new(),
            texts: Vec::new(alloc),
            lost: Vec::new(alloc),
            outbox: Outbox::new(alloc),
        }
    }

    /// The input has ended.
    pub fn end(&mut self) {
        if self.status().is_none() {
            self.phase = Phase::CutShort;
        }
    }

    /// The exit status, if the session has ended.
    pub fn status(&self) -> Option<u8>
        ensures { IfSome result (λ status. status ≤ 1) }
    {
        match self.phase {
            Phase::Ended => Some(0),
            Phase::CutShort => Some(1),
            Phase::Fresh | Phase::Running | Phase::ShutDown => None,
        }
    }

    /// Does what a message asks for, and answers it, if it is a request. Texts that aren't open are read from files.
    pub fn take<F: Files>(&mut self, content: &mut [u8], files: &mut F) {
        replace_halves(content);
        let Ok(content) = std::str::from_utf8(content) else {
            return self.refuse_content(Failure::NotUtf8);
        };
        let mut scratch = Scratch::new(self.alloc);
        match Value::parse(self.alloc, content, &mut scratch) {
            Ok(message) => self.take_message(&message, files),
            Err(Error::OutOfMemory) => self.refuse_content(Failure::OutOfMemory),
            Err(_) => self.refuse_content(Failure::NotJson),
        }
    }

    fn take_message<F: Files>(&mut self, message: &Value<'_>, files: &mut F) {
        let kind = message_of(message);
        if !matches!(kind, Message::Notice(Method::DidChange, _)) {
            self.publish_changed();
        }
        match kind {
            Message::Request(id, method) => {
                if let Err(failure) = self.answer(id, method, Member::of(message), files) {
                    self.outbox.refuse(id, failure);
                }
            }
            Message::Notice(method, name) => self.take_notice(method, name, Member::of(message)),
            Message::Answer => {}
            Message::Wrong(id, failure) => self.refuse_message(id, failure),
        }
    }

    /// Logs what is wrong with a header part. The message may have changed a text: none is open from then on.
    pub fn take_fault(&mut self, why: &'static str) {
        self.publish_changed();
        if self.is_initialized() {
            self.outbox.log("", Failure::Header(why));
        }
        self.lose_all();
    }

    /// Answers a content that can't be read by an error without an id, and logs it. It may have changed a text: none is open from then
    /// on.
    pub fn refuse_content(&mut self, failure: Failure<'_>) {
        self.publish_changed();
        self.refuse_message(Id::Null, failure);
        self.lose_all();
    }

    // Answers a message that is none by an error, and logs it.
    fn refuse_message(&mut self, id: Id<'_>, failure: Failure<'_>) {
        if self.is_initialized() && !failure.is_of_memory() {
            self.outbox.log("", failure);
        }
        self.outbox.refuse(id, failure);
    }

    // Whether `initialize` was answered: nothing but answers is sent before that.
    fn is_initialized(&self) -> bool {
        !matches!(self.phase, Phase::Fresh)
    }

    // ---- Requests

    // Answers a request, and sends the answer unless it fails.
    fn answer<'a, F: Files>(
        &mut self,
        id: Id<'_>,
        method: Method,
        message: Member<'_, 'a>,
        files: &mut F,
    ) -> Outcome<'a> {
        let failure = match (self.phase, method) {
            (Phase::Fresh, Method::Initialize) => return self.initialize(id, message),
            (Phase::Fresh, _) => Failure::NotInitialized,
            (Phase::Running, Method::Initialize) => Failure::InitializedTwice,
            (Phase::Running, Method::Shutdown) => return self.shut_down(id),
            (
                Phase::Running,
                Method::Exit
                | Method::DidOpen
                | Method::DidChange
                | Method::DidClose
                | Method::Other,
            ) => Failure::NoSuchRequest,
            (Phase::Running, _) => {
                let query = query_of(method, message)?;
                return self.answer_query(id, &query, files);
            }
            (Phase::ShutDown | Phase::Ended | Phase::CutShort, _) => Failure::ShutDown,
        };
        Err(failure)
    }

    fn initialize<'a>(&mut self, id: Id<'_>, message: Member<'_, 'a>) -> Outcome<'a> {
        let client = client_of(message)?;
        self.outbox.begin_answer(id);
        write_initialized(&client, &mut self.outbox.json);
        self.send_answer()?;
        self.client = client;
        self.phase = Phase::Running;
        Ok(())
    }

    fn shut_down<'a>(&mut self, id: Id<'_>) -> Outcome<'a> {
        self.outbox.begin_answer(id);
        self.outbox.json.null();
        self.send_answer()?;
        self.phase = Phase::ShutDown;
        self.texts = Vec::new(self.alloc);
        Ok(())
    }

    fn send_answer<'a>(&mut self) -> Outcome<'a> {
        if self.outbox.send_answer() {
            Ok(())
        } else {
            Err(Failure::OutOfMemory)
        }
    }

    // Answers a request that is about one text: as it is in the editor, or else in its file.
    fn answer_query<'a, F: Files>(
        &mut self,
        id: Id<'_>,
        query: &Query<'_, 'a>,
        files: &mut F,
    ) -> Outcome<'a> {
        match index_of(self.texts.as_slice(), query.uri) {
            Some(index) => {
                let text = &self.texts[index];
                let asked = Asked {
                    alloc: self.alloc,
                    client: &self.client,
                    uri: query.uri,
                    said: text.said,
                    document: &text.document,
                };
                asked.answer(id, query, &mut self.outbox)?;
            }
            None => {
                let document = closed_text(self.alloc, files, query.uri)?;
                let asked = Asked {
                    alloc: self.alloc,
                    client: &self.client,
                    uri: query.uri,
                    said: None,
                    document: &document,
                };
                asked.answer(id, query, &mut self.outbox)?;
            }
        }
        self.send_answer()
    }

    // ---- Notifications

    // Those that the server doesn't know have no effect, and neither has `$/cancelRequest`, since each request is answered before the
    // next message is read.
    fn take_notice(&mut self, method: Method, name: &str, message: Member<'_, '_>) {
        if let Method::Exit = method {
            self.phase = match self.phase {
                Phase::ShutDown => Phase::Ended,
                _ => Phase::CutShort,
            };
        }
        let Phase::Running = self.phase else {
            return;
        };
        let outcome = match method {
            Method::DidOpen => self.did_open(message),
            Method::DidChange => self.did_change(message),
            Method::DidClose => self.did_close(message),
            _ => Ok(()),
        };
        if let Err(failure) = outcome {
            self.outbox.log(name, failure);
            self.lose_changed(method, message);
        }
    }

    fn did_open<'a>(&mut self, message: Member<'_, 'a>) -> Outcome<'a> {
        let opened = opened_of(message)?;
        if self.close(opened.uri) {
            self.outbox.warn(OPEN_BEFORE, opened.uri);
        }
        let index = self.texts.len();
        self.open(&opened)?;
        self.publish(index)
    }

    // Opens a text, which isn't open.
    fn open(&mut self, opened: &Opened<'_>) -> Result<(), AllocError> {
        self.texts.push(OpenText::new(self.alloc, opened)?)?;
        Ok(())
    }

    // Closes a text. Whether it was open.
    fn close(&mut self, uri: &str) -> bool {
        match index_of(self.texts.as_slice(), uri) {
            Some(index) => {
                let _ = self.texts.remove(index);
                true
            }
            None => false,
        }
    }

    // Changes a text, whose diagnostics are published before the next message that is no change of it, or once no message is left.
    fn did_change<'a>(&mut self, message: Member<'_, 'a>) -> Outcome<'a> {
        let (uri, version) = changed_of(message)?;
        let changes = changes_of(self.alloc, message)?;
        let Some(index) = index_of(self.texts.as_slice(), uri) else {
            self.outbox.warn(NOT_OPEN, uri);
            return Ok(());
        };
        if !self.is_changed(index) {
            self.publish_changed();
        }
        let Some(text) = self.texts.get_mut(index) else {
            return Ok(());
        };
        text.version = version;
        text.is_changed = true;
        let clipped = change_all(
            self.alloc,
            self.client.encoding,
            &mut text.document,
            changes,
        )?;
        for _ in 0..clipped {
            self.outbox.warn(RANGE_CLIPPED, uri);
        }
        Ok(())
    }

    fn did_close<'a>(&mut self, message: Member<'_, 'a>) -> Outcome<'a> {
        let uri = uri_of(message)?;
        if !self.close(uri) {
            self.outbox.warn(NOT_OPEN, uri);
        } else {
            self.publish_none(uri);
        }
        Ok(())
    }

    // ---- Lost changes

    // Closes what a notification without an effect may have changed: the text that it names, or any if that can't be read.
    fn lose_changed(&mut self, method: Method, message: Member<'_, '_>) {
        match (method, uri_of(message)) {
            (Method::DidOpen | Method::DidChange, Ok(uri)) => {
                if self.close(uri) {
                    self.outbox.warn(LOST, uri);
                    self.publish_none(uri);
                }
            }
            (Method::DidChange, Err(_)) => self.lose_all(),
            _ => {}
        }
    }

    /// Closes each text that is open, which [`Session::settle`] reports: a message that may have changed one is lost.
    pub fn lose_all(&mut self) {
        self.lost = mem::replace(&mut self.texts, Vec::new(self.alloc));
    }

    /// Reports what isn't reported yet, as far as there is memory for it: texts that were closed, the one that was opened last first, and
    /// that memory ran out.
    pub fn settle(&mut self) {
        for _ in 0..self.lost.len() {
            let Some(text) = self.lost.last() else {
                break;
            };
            self.outbox.warn(LOST, text.uri.as_str());
            if !self
                .outbox
                .publish(text.uri.as_str(), None, &[], &self.client)
            {
                break;
            }
            let _ = self.lost.pop();
        }
        if self.is_initialized() {
            self.outbox.log_shortage();
        }
    }

    // ---- Diagnostics

    /// Publishes what is wrong with each text that was changed, unless that was published.
    pub fn publish_changed(&mut self) {
        for index in 0..self.texts.len() {
            if self.is_changed(index)
                && let Err(failure) = self.publish(index)
            {
                self.outbox.log("textDocument/didChange", failure);
            }
        }
    }

    // Whether this text was changed, and what is wrong with it isn't published yet.
    fn is_changed(&self, index: usize) -> bool {
        match self.texts.get(index) {
            Some(text) => text.is_changed,
            None => false,
        }
    }

    // Publishes what is wrong with a text that is open, unless the client asks for it.
    fn publish<'a>(&mut self, index: usize) -> Outcome<'a> {
        if let Some(text) = self.texts.get_mut(index) {
            text.is_changed = false;
        }
        if self.client.asks_for_diagnostics {
            return Ok(());
        }
        let Some(text) = self.texts.get(index) else {
            return Ok(());
        };
        let asked = Asked {
            alloc: self.alloc,
            client: &self.client,
            uri: text.uri.as_str(),
            said: text.said,
            document: &text.document,
        };
        let diagnostics = asked.diagnostics()?;
        let _ = self.outbox.publish(
            asked.uri,
            text.version,
            diagnostics.as_slice(),
            &self.client,
        );
        Ok(())
    }

    // Takes back what was published of a text.
    fn publish_none(&mut self, uri: &str) {
        let _ = self.outbox.publish(uri, None, &[], &self.client);
    }
}
