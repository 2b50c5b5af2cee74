//! What is handed over of a text, beside what is reported of it.
ghost use Rattle.std.specs.Prelude.{◌≡◌, ◌≢◌, ◌⊎◌, List, ℕ, length, Err, IfOk, IsErr, Result as SpecResult};
ghost use Rattle.graphql_grammar.specs.declared.error.Error.{Error as SpecError};
ghost use Rattle.graphql_grammar.specs.declared.error.Error.TheVariants.{OutOfMemory};
ghost use Rattle.graphql_parser.specs.answers.Language.{Language};
ghost use Rattle.graphql_parser.specs.Checking.{checked};
ghost use Rattle.graphql_parser.specs.notation.Limits.{Limits as SpecLimits};
ghost use Rattle.graphql_parser_c.specs.Handing.{HandsOver, IsHanded, IsNothing};
ghost use Rattle.graphql_parser_c.specs.Statuses.{number_of, status_of};
ghost use Rattle.graphql_parser_c.specs.Telling.{AnswersText, IsLeft, IsSpent, IsTold, limits_of, places_of};
ghost use Rattle.graphql_parser_c.specs.declared.block.Block.{Block as SpecBlock};
ghost use Rattle.graphql_parser_c.specs.declared.status.Status.TheVariants as SpecStatus;

use crate::block::Block;
use crate::documents::Document;
use crate::status::Status;
use crate::telling::{Left, Places, Question, ReadableText, tell};
use graphql_parser::{Error, Limits, Memory, Result};
use std::alloc::{AllocError, Global};

/// What is made to be handed over; an error says that memory ran out.
pub type Made = std::result::Result<Block, AllocError>;

/// What a call hands over of a text in the language of `D`.
pub trait Handing<D: Document> {
    /// What is kept of a text that is accepted.
    type Kept: Drop;

    // The tree of a definition.
    ghost Tree: { Type 0 };

    ghost language: { Language Self.Tree Self.Kept };

    // What is handed over of the answer for a text, within limits.
    ghost Hands: { Self → SpecLimits → List ℕ → SpecResult Self.Kept SpecError → SpecBlock → Type 0 };

    /// Reads a text.
    fn read(memory: &mut Memory, text: &str, limits: Limits) -> Result<Self::Kept>
        ensures answers { AnswersText Self.language limits text.now result }
        ensures spent { IsSpent (length text.now) result memory.old memory.new };

    /// Makes what is handed over of the answer for a text.
    fn make(&self, alloc: Global, text: &str, limits: Limits, answer: &Result<Self::Kept>) -> Made
        ensures { IfOk result (λ made. Self.Hands self.now limits text.now answer.now made) };
}

/// Hands over nothing: the text is checked alone.
pub struct Nothing;

impl<D: Document> Handing<D> for Nothing {
    type Kept = ();

    ghost Tree = { D.Tree };

    ghost language = { checked D.language };

    ghost Hands = { λ _ _ _ _ made. IsNothing made };

    fn read(memory: &mut Memory, text: &str, limits: Limits) -> Result<()> {
        D::check(memory, text, limits)
    }

    fn make(&self, _: Global, _: &str, _: Limits, _: &Result<()>) -> Made {
        Ok(Block::nothing())
    }
}

// What is handed over of an answer; an error says that memory ran out, to the parser or to what makes it.
fn made_of<D: Document, H: Handing<D>>(
    alloc: Global,
    handing: &H,
    text: &str,
    limits: Limits,
    answer: &Result<H::Kept>,
) -> Made
    ensures made { IfOk result (λ made. H.Hands handing.now limits text.now answer.now made) }
    ensures memory { answer.now ≡ Err OutOfMemory → IsErr result }
{
    match answer {
        Err(Error::OutOfMemory) => Err(AllocError),
        _ => handing.make(alloc, text, limits, answer),
    }
}

// Reports an answer and hands over what was made of it; or, if that runs out of memory, reports this alone and hands over
// nothing.
fn hand_over<T>(answer: &Result<T>, made: Made, places: &mut Places, block: &mut Block) -> Status
    requires { answer.now ≡ Err OutOfMemory → IsErr made }
    ensures told { (told : SpecResult T SpecError) ×
        ((told ≡ answer.now) ⊎ (told ≡ Err OutOfMemory)) × (result ≡ status_of told) ×
        (places.new ≡ places_of told) }
    ensures handed { IsHanded made (number_of result) block.new }
{
    let Ok(made) = made else {
        *places = Places::none();
        *block = Block::nothing();
        return Status::OutOfMemory;
    };
    *block = made;
    tell(answer, places)
}

// 1 if memory ran out, by the number of the status, and not only by the budget; else 0.
fn heap_denied<T>(number: u32, answer: &Result<T>, memory: &Memory) -> u8
    ensures only { (result ≡ 0) ⊎ ((result ≡ 1) × (number ≡ number_of SpecStatus.OutOfMemory)) }
    ensures budget { number ≡ number_of SpecStatus.OutOfMemory →
        (result ≡ 1) ⊎ ((answer.now ≡ Err OutOfMemory) × ¬ (memory.now.refusals ≢ 0)) }
{
    if number != Status::OutOfMemory.number() {
        return 0;
    }
    match answer {
        Err(Error::OutOfMemory) => u8::from(memory.heap_refused()),
        _ => 1,
    }
}

/// Reads a text, reports the answer, hands over what is made of it, and says what is left of the memory that the parser may
/// take; or reports why the text can't be read, and hands over nothing.
pub fn answer<D: Document, H: Handing<D>>(
    alloc: Global,
    question: &Question<'_>,
    handing: &H,
    places: &mut Places,
    handed: &mut Block,
    left: &mut Left,
) -> u32
    ensures told { IsTold H.language
        (limits_of question.now.bounds.0 question.now.bounds.1 question.now.bounds.2)
        question.now.text.now result places.new }
    ensures handed { HandsOver H.language (H.Hands handing.now
        (limits_of question.now.bounds.0 question.now.bounds.1 question.now.bounds.2) question.now.text.now)
        (limits_of question.now.bounds.0 question.now.bounds.1 question.now.bounds.2)
        question.now.text.now result handed.new }
    ensures left { IsLeft question.now.bounds.3 (length question.now.text.now) result left.new }
{
    let ReadableText { text, limits } = match question.readable() {
        Ok(readable) => readable,
        Err(status) => {
            *places = Places::none();
            *handed = Block::nothing();
            *left = Left::all_of(question.bounds.3);
            return status.number();
        }
    };
    let mut memory = Memory::with_budget(alloc, question.bounds.3);
    let answer = H::read(&mut memory, text, limits);
    let made = made_of::<D, H>(alloc, handing, text, limits, &answer);
    let number = hand_over(&answer, made, places, handed).number();
    *left = Left {
        bytes: memory.left(),
        heap_denied: heap_denied(number, &answer, &memory),
    };
    number
}
