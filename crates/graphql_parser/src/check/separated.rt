//! The reader of phrases with a mark between each two of them, that makes no tree.
ghost use Rattle.graphql_parser.specs.Checked.{Checks, Calm};
ghost use Rattle.graphql_reading.specs.reading.Outcome.{Takes, separated_at};
ghost use Rattle.graphql_reading.specs.reading.Spelled.{punct_of};

use crate::check::production::Phrase;
use graphql_reading::limits::Limits;
use graphql_reading::parser::{Parser, Reading};

/// Reads one phrase or more with a mark between each two of them; the mark may stand before the first too.
///
/// `Mark? Phrase (Mark Phrase)*`
#[inline(always)]
pub fn check_separated<P: Phrase>(parser: &mut Parser, mark: &str, limits: Limits) -> Reading<()>
    requires { Takes (P.reader limits) }
    ensures checks { Checks result parser.old parser.new
        (separated_at (punct_of mark.now) (P.reader limits)) }
    ensures calm { Calm parser.old parser.new }
{
    parser.take_punct(mark);
    loop {
        P::check(parser, limits)?;
        if !parser.take_punct(mark) {
            return Ok(());
        }
    }
}
