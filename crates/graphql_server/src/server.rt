//! The server: bytes in and out.

ghost use Rattle.std.specs.Prelude.{◌≤◌, IfSome};

use crate::answers::Failure;
use crate::files::Files;
use crate::framing::{Frames, Piece};
use crate::session::Session;
use std::alloc::Global;

/// A language server for one client, which is written to and read from in bytes (Language Server Protocol 3.17, "Base Protocol").
#[derive(Drop)]
pub struct Server {
    frames: Frames,
    session: Session,
}

impl Server {
    /// A server to which nothing was sent. It takes no memory.
    pub fn new(alloc: Global) -> Server {
        Server {
            frames: Frames::new(alloc),
            session: Session::new(alloc),
        }
    }

    /// What is to be sent, messages with their header parts, since [`Server::clear`].
    pub fn output(&self) -> &[u8] {
        self.session.outbox.bytes.as_slice()
    }

    /// Drops what was sent.
    pub fn clear(&mut self) {
        self.session.outbox.clear();
    }

    /// Takes the bytes that arrived, in whatever parts. [`Server::next`] does what the messages that are whole then ask for.
    ///
    /// If there is no memory for them, the messages in them and the one that is in part before them are lost. They may have changed a
    /// text, so no text is open from then on. That is logged once there is memory for it, and reading continues at the next
    /// `Content-Length:`.
    pub fn receive(&mut self, bytes: &[u8]) {
        if self.frames.add(bytes).is_err() {
            self.session.lose_all();
            self.session.outbox.note_shortage();
        }
    }

    /// Does what the next message that is whole asks for, and returns whether there was one. If none is left, what is wrong with texts
    /// that were changed is published, unless it was before.
    ///
    /// A request is answered before the next message is read; one about a text that isn't open is answered from its file. A header part
    /// that is wrong, or a length beyond 64 MiB, is logged, and reading continues at the next `Content-Length:`. A content that is no JSON
    /// is answered by an error without id. Either may have been a change, so no text is open from then on.
    ///
    /// A request for whose answer memory runs out is answered by an error. Each such lack of memory is logged once there is memory for
    /// that, and the other messages are answered all the same.
    pub fn next<F: Files>(&mut self, files: &mut F) -> bool {
        if self.has_ended().is_some() {
            return false;
        }
        let piece = self.frames.next();
        match piece {
            Some(Piece::Content { start, end }) => self
                .session
                .take(self.frames.content(start, end), files),
            Some(Piece::OtherCharset) => self.session.refuse_content(Failure::OtherCharset),
            Some(Piece::Fault(why)) => self.session.take_fault(why),
            None => {
                self.frames.settle();
                self.session.publish_changed();
            }
        }
        self.session.settle();
        piece.is_some()
    }

    /// The input has ended. Unless the client said `exit` before, the status is 1.
    pub fn end(&mut self) {
        self.session.end();
    }

    /// The exit status, once the client said `exit` or the input ended: 0 if the client asked for `shutdown` before it said `exit`,
    /// and else 1 (Language Server Protocol 3.17, "Exit Notification").
    pub fn has_ended(&self) -> Option<u8>
        ensures { IfSome result (λ status. status ≤ 1) }
    {
        self.session.status()
    }
}
