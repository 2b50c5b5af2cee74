//! Checking one text.
ghost use Rattle.std.specs.Prelude.{◌≡◌, ◌<◌, ◌⊎◌, OnErr, length, Ok, None};
ghost use Rattle.graphql_parser.specs.Refusals.{HeapRefused};
ghost use Rattle.graphql_parser.specs.answers.Memory.{most_taken};
ghost use Rattle.graphql_texts.specs.checked.Good.{IsGoodText};

use crate::errors::{Refused, Source};
use graphql_parser::{Error, Memory, check_query_to, check_schema_to};
use graphql_report::Language;
use std::alloc::AllocError;

/// What is wrong with a text within these limits; None if nothing is, or if only an operation is missing and may be. An
/// error says that memory was denied.
pub fn error_of<'a>(
    memory: &mut Memory,
    source: &Source<'a>,
    takes_fragments: bool,
) -> Result<Option<Refused<'a>>, AllocError>
    ensures good { (result ≡ Ok None) →
        IsGoodText takes_fragments source.now.language source.now.limits source.now.text.now }
    ensures refused { OnErr result (HeapRefused memory.old memory.new
        ⊎ (memory.old.left < most_taken (length source.now.text.now))) }
{
    let Source { limits, text, .. } = *source;
    let (error, token) = match source.language {
        Language::Requests => {
            let (answer, token) = check_query_to(memory, text, limits);
            match answer {
                Ok(_) => return Ok(None),
                Err(Error::MissingOperation) if takes_fragments => return Ok(None),
                Err(error) => (error, token),
            }
        }
        Language::Schemas => {
            let (answer, token) = check_schema_to(memory, text, limits);
            match answer {
                Ok(_) => return Ok(None),
                Err(error) => (error, token),
            }
        }
    };
    match error {
        Error::OutOfMemory => Err(AllocError),
        error => Ok(Some(Refused { error, token })),
    }
}
