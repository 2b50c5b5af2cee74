//! The language server of `gql lsp`, over bytes in and out (Language Server Protocol 3.17).
//!
//! [`Server::receive`] takes the bytes that a client sent, in whatever parts they arrive, [`Server::next`] does what the next message
//! asks for, and [`Server::output`] is what is sent back.
//! The modules have its parts: messages are cut from the bytes ([`framing`]). What each is ([`messages`], [`methods`]) and its
//! parameters ([`params`]) are found in the JSON by the paths of its members ([`members`]), and what is sent ([`answers`]) is written
//! value by value ([`writer`]). A session ([`session`]) keeps the open texts ([`texts`]), reads others from their files ([`files`]) and
//! answers each request ([`results`]), about
//! diagnostics ([`diagnostics`]), quick fixes ([`fixes`]), the outline ([`outline`]), folding and selection ranges ([`folding`],
//! [`selection`]), names ([`navigation`]) and layout ([`formatting`], [`differences`]); what it can do is reported at the beginning
//! ([`capabilities`]), and what it sends is what the client can take ([`client`]).
//!
//! Proved: it is safe and ends on every input. The changes that are read are those of the message, and a text after them is what the
//! protocol says, as `text_edits` has it. Each finding has one diagnostic, in order, with its range, code and words; what is published
//! of a text is made from that text alone, and is nothing only if the text is good. The edits that lay a text out make of it what is
//! laid out. What else is answered is tested.
#![tactic(auto)]

mod answers;
pub mod capabilities;
pub mod client;
pub mod diagnostics;
pub mod differences;
pub mod files;
pub mod fixes;
pub mod folding;
pub mod formatting;
pub mod framing;
mod halves;
mod line_ends;
pub mod members;
pub mod messages;
pub mod methods;
pub mod navigation;
pub mod outline;
pub mod params;
pub mod places;
mod results;
pub mod selection;
mod server;
mod session;
pub mod texts;
pub mod writer;

pub use server::Server;
