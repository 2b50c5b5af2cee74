//! What can be folded away (Language Server Protocol 3.17, "Folding Range Request").

use crate::places::Places;
use crate::writer::JsonWriter;
use graphql_editor::{FoldKind, Structure};

/// Writes the folds of a text: from its first line to its last one, or, if a bracket is last, to the line before that, so that
/// the bracket stays in view.
pub fn write_folds(structure: &Structure, places: &Places<'_>, json: &mut JsonWriter) {
    json.begin_list();
    for fold in structure.folds() {
        let first = places.position_of(fold.span.start).line;
        let last = places.position_of(fold.span.end).line;
        let last = match fold.kind {
            FoldKind::Brackets => last.saturating_sub(1),
            FoldKind::BlockString | FoldKind::Comments => last,
        };
        if first < last {
            json.begin_object();
            json.size_member("startLine", first);
            json.size_member("endLine", last);
            if matches!(fold.kind, FoldKind::Comments) {
                json.text_member("kind", "comment");
            }
            json.end_object();
        }
    }
    json.end_list();
}
