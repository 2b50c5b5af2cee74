//! The ranges around a place.
ghost use Rattle.std.specs.Prelude.{◌≤◌, ◌<◌, All, IfOk, length};
ghost use Rattle.graphql_editor.specs.Spans.{IsSpanOf, AreGrowing};

use crate::Span;
use crate::pieces::read;
use crate::walk::Walk;
use std::alloc::{AllocError, Global};

/// The parts of a text around an offset, innermost first, each longer than the one before and around it: the token at the offset or
/// beside it, what it belongs to, what is between the brackets around that, these brackets, and so on up to the definition, and
/// the text. There is at least one, and there are at most 200: of more those in the middle are left out (this project's choice).
///
/// It fails only where memory runs out.
pub fn selection_at(alloc: Global, text: &str, offset: usize) -> Result<Vec<Span>, AllocError>
    ensures within { IfOk result (λ spans. All (IsSpanOf text.now) spans.items) }
    ensures growing { IfOk result (λ spans. AreGrowing spans.items) }
    ensures some { IfOk result (λ spans. 0 < length spans.items) }
    ensures few { IfOk result (λ spans. length spans.items ≤ 200) }
{
    let offset = offset.min(text.len());
    let mut walk = Walk::new(alloc, text.len(), Some(offset), false);
    read(&mut walk, text)?;
    if walk.is_whole() {
        return walk.into_chain().finish();
    }
    let mut again = Walk::new(alloc, text.len(), Some(offset), true);
    read(&mut again, text)?;
    again.into_chain().finish()
}
