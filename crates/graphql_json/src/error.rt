//! Errors.
ghost use Rattle.graphql_parser.specs.errors.Errors.{error_text, error_places};
ghost use Rattle.graphql_json.specs.inner.Written.{Adds, location_tokens};
ghost use Rattle.graphql_json.specs.nodes.Errors.{error_value, location_json};
ghost use Rattle.json.specs.Tree.{json_tokens};

use crate::sheet::{Outcome, Sheet};
use graphql_parser::{Error, Pos};
use std::alloc::Global;

/// The message of an error, and its places where it has some.
pub fn write_error(alloc: Global, sheet: &mut Sheet, error: &Error) -> Outcome
    ensures { Adds result sheet.old sheet.new
        (json_tokens (error_value (error_text error.now) (error_places error.now))) }
{
    let message = format!(in alloc; "{error}")?;
    sheet.open()?;
    sheet.text("message", message.as_str())?;
    write_places(sheet, error)?;
    sheet.close()
}

// The member `locations`, where the error has a place.
fn write_places(sheet: &mut Sheet, error: &Error) -> Outcome
    ensures { Adds result sheet.old sheet.new (location_tokens (error_places error.now)) }
{
    if error.positions().len() == 0 {
        return Ok(());
    }
    sheet.open_list("locations")?;
    for pos in error.positions() {
        write_place(sheet, pos)?;
    }
    sheet.close_list()
}

fn write_place(sheet: &mut Sheet, pos: Pos) -> Outcome
    ensures { Adds result sheet.old sheet.new (json_tokens (location_json pos)) }
{
    sheet.open()?;
    sheet.pos(pos)?;
    sheet.close()
}
