//! Documents, whichever language they are of: the definitions are read whole before the first rule is looked at.
ghost use Rattle.std.specs.Prelude.{◌≡◌, ◌≢◌, ◌≤◌, ◌<◌, ◌⊎◌, ◌+◌, ℕ, List, [], None, Err};
ghost use Rattle.graphql_memory.specs.Memory.{Refused, Takes};
ghost use Rattle.graphql_memory.specs.Refusals.{HeapRefused};
ghost use Rattle.graphql_tokens.specs.tokens.Token.{Token as SpecToken, left};
ghost use Rattle.graphql_grammar.specs.answers.Answers.{TokenFor};
ghost use Rattle.graphql_grammar.specs.answers.Language.{Language};
ghost use Rattle.graphql_grammar.specs.answers.Reads.{ReadsTokens};
ghost use Rattle.graphql_grammar.specs.declared.error.Error.TheVariants.{OutOfMemory};
ghost use Rattle.graphql_grammar.specs.reading.DocumentOf.{IsDocumentOf};
ghost use Rattle.graphql_grammar.specs.reading.ReadBy.{IsReadBy};
ghost use Rattle.graphql_reading.specs.grammar.Limits.{Limits as SpecLimits};
ghost use Rattle.graphql_grammar.specs.answers.Memory.{message_bytes};
ghost use Rattle.graphql_grammar.specs.reading.Funds.{TakesFor};
ghost use Rattle.graphql_reading.specs.reading.Ahead.{tokens as ahead};
ghost use Rattle.graphql_reading.specs.reading.Given.{GivesWhole};
ghost use Rattle.graphql_reading.specs.reading.Outcome.{Reader, mapped_at, whole_at};

use crate::error::Result;
use crate::refusals::error_of;
use graphql_memory::Memory;
use graphql_reading::limits::Limits;
use graphql_reading::parser::{Parser, Reading};
use graphql_tokens::lexer::{Token, Tokens};
use std::mem;

/// What is kept of the definitions of a text: all of them, to make a tree, or enough to tell the first of the rules
/// that they break.
pub trait Kept<'a>: Drop {
    /// What is made of a text.
    type Document;

    // The tree that a definition stands for.
    ghost Tree: { Type 0 };

    // What definitions come to, where nothing but this is kept.
    ghost Sum: { Type 0 };

    ghost sum: { List Self.Tree → Self.Sum };

    ghost kept: { Self → Self.Sum };

    // The language of the definitions.
    ghost language: { Language Self.Tree Self.Document };

    // How many bytes are taken at most where these tokens are read within these limits,
    ghost Costs: { SpecLimits → List SpecToken → ℕ → Type 0 };

    // and of these, for the document, once its definitions are read.
    ghost owes: { Self → ℕ };

    // How they are read from a list of tokens.
    ghost reader: { SpecLimits → Reader (List Self.Tree) };

    /// Reads the definitions of a text, and its end, which stays the lookahead.
    fn read_all(parser: &mut Parser<'a>, limits: Limits) -> Reading<Self>
        ensures gives { GivesWhole Self.kept result parser.old parser.new
            (mapped_at Self.sum (whole_at (Self.reader limits))) }
        ensures takes { (most : ℕ) → Self.Costs limits (ahead parser.old) most →
            TakesFor most Self.owes result parser.old parser.new }
        ensures lent { parser.new.memory.left ≤ parser.old.memory.left };

    /// The document of the definitions, or the first of the rules that they break, in source order.
    fn into_document(self, memory: &mut Memory) -> Result<Self::Document>
        ensures document { (ds : List Self.Tree) → Self.kept self ≡ Self.sum ds →
            IsDocumentOf Self.language ds result }
        ensures refused { (ds : List Self.Tree) → Self.kept self ≡ Self.sum ds →
            result ≡ Err OutOfMemory → Refused memory.new }
        ensures takes { Takes (Self.owes self) memory.old memory.new };
}

/// Reads the tokens that are left as a document. Where a token is refused, it is put in `refused`.
// Never inlined: the readers below it then are, also where a program has several callers.
#[inline(never)]
pub fn read_document<'a, K: Kept<'a>>(
    memory: &mut Memory,
    tokens: &mut Tokens<'a>,
    limits: Limits,
    refused: &mut Option<Token<'a>>,
) -> Result<K::Document>
    requires some { left tokens.old ≢ [] }
    requires read { IsReadBy K.language K.reader }
    ensures reads { ReadsTokens K.language limits tokens.old tokens.new result }
    ensures taken { (most : ℕ) → K.Costs limits (left tokens.old) most →
        memory.old.left ≤ memory.new.left + (most + message_bytes) }
    ensures lent { memory.new.left ≤ memory.old.left }
    ensures token { refused.old ≡ None → TokenFor K.language limits (left tokens.old) result refused.new }
    ensures refused { (most : ℕ) → K.Costs limits (left tokens.old) most → result ≡ Err OutOfMemory →
        HeapRefused memory.old memory.new ⊎ (memory.old.left < most + message_bytes) }
{
    let mut parser = Parser::new(memory.lend(), mem::replace(tokens, Tokens::new("")));
    let read = K::read_all(&mut parser, limits);
    let hand = parser.hand();
    let (left, mut lent) = parser.into_parts();
    *tokens = left;
    match read {
        Ok(kept) => {
            let answer = kept.into_document(&mut lent);
            memory.settle(lent);
            answer
        }
        Err(refusal) => {
            *refused = Some(hand);
            let error = error_of(&mut lent, refusal, hand.pos);
            memory.settle(lent);
            Err(error)
        }
    }
}
