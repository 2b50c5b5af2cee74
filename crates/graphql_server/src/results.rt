//! What is answered to a request about a text.

use crate::answers::{Failure, Outbox};
use crate::client::Client;
use crate::diagnostics::diagnostics_of;
use crate::fixes::write_fixes;
use crate::folding::write_folds;
use crate::formatting::{write_layout, write_layout_of};
use crate::messages::{Diagnostic, Id, write_diagnostics};
use crate::methods::Method;
use crate::navigation::{write_definition, write_hover, write_references};
use crate::outline::write_outline;
use crate::params::{Query, position_in};
use crate::places::Places;
use crate::selection::{are_too_many, write_selection};
use crate::texts::are_known;
use crate::writer::JsonWriter;
use graphql_editor::Structure;
use graphql_texts::Language;
use graphql_texts::language::read_as;
use std::alloc::{AllocError, Global};
use text_edits::{Document, Position, Range};

const POSITION_CLIPPED: &str =
    "a position is on a line that the text doesn't have, or inside of a character";

/// What is logged of a range that the text doesn't have.
pub const RANGE_CLIPPED: &str =
    "a range begins or ends on a line that the text doesn't have, or inside of a character";

/// A text that a request is about.
#[derive(Clone, Copy)]
pub struct Asked<'s> {
    pub alloc: Global,
    pub client: &'s Client,
    pub uri: &'s str,
    /// The language that its `languageId` says, if it is open and says one.
    pub said: Option<Language>,
    pub document: &'s Document,
}

impl<'s> Asked<'s> {
    /// The text itself.
    pub fn text(self) -> &'s str {
        self.document.text()
    }

    /// What the text is read as: what its `languageId` says, else by the extension of its file, else by what the text contains.
    ///
    /// It fails only if memory runs out.
    pub fn language(self) -> Result<Language, AllocError> {
        read_as(self.alloc, self.said, self.uri, self.text())
    }

    /// The byte at a position.
    pub fn offset_of(self, position: Position) -> usize {
        self.document.offset_of(self.client.encoding, position)
    }

    // Logs that an end of a range is a place that the text doesn't have: it is clipped.
    fn log_clipped(self, range: Range, outbox: &mut Outbox) {
        if !are_known(self.document, self.client.encoding, range) {
            outbox.warn(POSITION_CLIPPED, self.uri);
        }
    }

    /// Writes the answer to a request, which is then to be sent.
    pub fn answer<'a>(
        self,
        id: Id<'_>,
        query: &Query<'_, 'a>,
        outbox: &mut Outbox,
    ) -> Result<(), Failure<'a>> {
        self.log_clipped(query.range, outbox);
        outbox.begin_answer(id);
        match query.method {
            Method::SelectionRange => self.write_selections(query, outbox),
            Method::Diagnostic => Ok(self.write_report(&mut outbox.json)?),
            Method::CodeAction => Ok(self.write_actions(query, &mut outbox.json)?),
            _ => Ok(self.write_places(query, &mut outbox.json)?),
        }
    }

    // Writes the quick fixes of a range, if they are asked for and the client takes them.
    fn write_actions(self, query: &Query<'_, '_>, json: &mut JsonWriter) -> Result<(), AllocError> {
        if query.takes && self.client.takes_fixes {
            return write_fixes(self, query.range, json);
        }
        json.begin_list();
        json.end_list();
        Ok(())
    }

    // Writes what a selection grows to at each position of a list.
    fn write_selections<'a>(
        self,
        query: &Query<'_, 'a>,
        outbox: &mut Outbox,
    ) -> Result<(), Failure<'a>> {
        let Some(list) = query.positions else {
            return Ok(());
        };
        let items = list.items()?;
        if are_too_many(items.len(), self.text()) {
            return Err(Failure::TooManyPositions);
        }
        let mut places = Places::new(self.alloc, self.client.encoding, self.text())?;
        outbox.json.begin_list();
        for (index, value) in items.iter().enumerate() {
            let position = position_in(list, index, value)?;
            let range = Range {
                start: position,
                end: position,
            };
            self.log_clipped(range, outbox);
            write_selection(
                self,
                &mut places,
                self.offset_of(position),
                &mut outbox.json,
            )?;
        }
        outbox.json.end_list();
        Ok(())
    }

    /// What is wrong with the text.
    ///
    /// It fails only if memory runs out.
    pub fn diagnostics(self) -> Result<Vec<Diagnostic<'s>>, AllocError> {
        diagnostics_of(
            self.alloc,
            self.uri,
            self.language()?,
            self.client.encoding,
            self.document,
            self.client.shows_related,
        )
    }

    // Writes what is wrong with a text ("FullDocumentDiagnosticReport").
    fn write_report(self, json: &mut JsonWriter) -> Result<(), AllocError> {
        let diagnostics = self.diagnostics()?;
        json.begin_object();
        json.text_member("kind", "full");
        write_diagnostics("items", diagnostics.as_slice(), self.client, json);
        json.end_object();
        Ok(())
    }

    // Writes a result that has many places of the text.
    fn write_places(self, query: &Query<'_, '_>, json: &mut JsonWriter) -> Result<(), AllocError> {
        let mut places = Places::new(self.alloc, self.client.encoding, self.text())?;
        if let Method::Formatting = query.method {
            return write_layout(self, &mut places, json);
        }
        let structure = Structure::new(self.alloc, self.text())?;
        let position = query.range.start;
        match query.method {
            Method::DocumentSymbol => write_outline(self, &structure, &mut places, json),
            Method::RangeFormatting => write_layout_of(
                self,
                &structure,
                &mut places,
                query.range,
                json,
            ),
            Method::References => write_references(
                self,
                &structure,
                &mut places,
                position,
                query.takes,
                json,
            ),
            Method::Hover => write_hover(self, &structure, &mut places, position, json),
            Method::Definition => {
                write_definition(self, &structure, &mut places, position, json);
                Ok(())
            }
            _ => {
                write_folds(&structure, &places, json);
                Ok(())
            }
        }
    }
}
