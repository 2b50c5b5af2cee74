//! What each word is among those before it.
ghost use Rattle.std.specs.Prelude.{◌≡◌};

use super::Walk;
use crate::FoldKind;
use crate::gaps::{add_comments, last_line};
use crate::roles::{
    Bracket, Last, Place, Word, after_punct, body_of, defined_by, is_clause, round_of,
};
use graphql_tokens::lexer::TokenKind;
use std::alloc::AllocError;

impl Walk {
    /// Passes the next word of the text.
    pub fn pass(&mut self, text: &str, word: &Word<'_>) -> Result<(), AllocError>
        ensures structure { self.new.structure ≡ self.old.structure }
        ensures chain { self.new.chain ≡ self.old.chain }
    {
        self.pass_gap(text, word.start)?;
        self.chain
            .add_token(word.kind.is_punct(), word.start, word.end)?;
        if self.recovers && self.begins_anew(word) {
            self.unwind()?;
            self.last = Last::Closed;
        }
        if matches!(word.mark, b')' | b']' | b'}') {
            self.close(word)?;
        } else {
            self.step(word)?;
            self.end = word.end;
        }
        self.passed = word.end;
        self.pass_lines(text, word)
    }

    // Passes what stands before the next word.
    pub(super) fn pass_gap(&mut self, text: &str, to: usize) -> Result<(), AllocError>
        ensures structure { self.new.structure ≡ self.old.structure }
        ensures chain { self.new.chain ≡ self.old.chain }
    {
        add_comments(&mut self.structure, text, self.passed, to)?;
        if let Some(line) = last_line(text, self.passed, to) {
            self.line = line;
        }
        Ok(())
    }

    // Passes the lines of a block string.
    fn pass_lines(&mut self, text: &str, word: &Word<'_>) -> Result<(), AllocError>
        ensures structure { self.new.structure ≡ self.old.structure }
        ensures chain { self.new.chain ≡ self.old.chain }
    {
        if word.kind.is_block()
            && let Some(line) = last_line(text, word.start, word.end)
        {
            self.line = line;
            return self
                .structure
                .add_fold(FoldKind::BlockString, word.start, word.end);
        }
        Ok(())
    }

    // Whether a definition begins here, whatever bracket is open.
    fn begins_anew(&self, word: &Word<'_>) -> bool {
        if word.start != self.line || self.outer.is_empty() || self.last == Last::Description {
            return false;
        }
        match word.kind {
            TokenKind::Name => word.text == "extend" || defined_by(word.text).is_some(),
            TokenKind::String | TokenKind::Block => true,
            _ => false,
        }
    }

    // Passes a word that closes no bracket.
    fn step(&mut self, word: &Word<'_>) -> Result<(), AllocError>
        ensures structure { self.new.structure ≡ self.old.structure }
        ensures chain { self.new.chain ≡ self.old.chain }
    {
        let begins = self.begins(word);
        if begins {
            self.begin_member(word.start)?;
        }
        let last = self.last;
        match last {
            Last::Colon => self.begin_part(word.start, true),
            Last::Equals => self.begin_part(word.start, false),
            _ => (),
        }
        let leads = begins || last == Last::Description;
        match word.kind {
            TokenKind::Name => self.pass_name(word, leads)?,
            TokenKind::Punct => self.pass_punct(word, leads)?,
            _ => (),
        }
        let opened = self.opened(word.mark);
        self.last = self.after(word, begins, leads);
        match opened {
            Some(bracket) => self.open(bracket, word),
            None => Ok(()),
        }
    }

    // Whether a definition or a member begins.
    fn begins(&self, word: &Word<'_>) -> bool {
        match self.last {
            Last::Start | Last::Opening | Last::Closed => true,
            Last::Whole => self.begins_after_whole(word),
            // Dots begin a selection, whatever is missing before them.
            _ => word.mark == b'.' && self.level.bracket == Bracket::Selections,
        }
    }

    fn begins_after_whole(&self, word: &Word<'_>) -> bool {
        match word.kind {
            TokenKind::Name => {
                self.level.bracket != Bracket::Definitions || !is_clause(word.text)
            }
            TokenKind::Punct => match word.mark {
                b'.' | b'$' | b'[' => true,
                b'{' => self.level.bracket == Bracket::List,
                _ => false,
            },
            _ => true,
        }
    }

    // The bracket that this punctuator opens.
    fn opened(&self, mark: u8) -> Option<Bracket> {
        match mark {
            b'[' if self.place() == Place::Type => Some(Bracket::Types),
            b'[' => Some(Bracket::List),
            b'(' => Some(self.round()),
            b'{' => Some(self.curly()),
            _ => None,
        }
    }

    fn round(&self) -> Bracket {
        if self.is_directive {
            let is_defined = self.level.bracket == Bracket::Definitions
                && round_of(self.defined) == Bracket::Parameters;
            return if is_defined {
                Bracket::Parameters
            } else {
                Bracket::Arguments
            };
        }
        match self.level.bracket {
            Bracket::Definitions => round_of(self.defined),
            Bracket::Fields => Bracket::Parameters,
            Bracket::Selections => Bracket::Arguments,
            _ => Bracket::Other,
        }
    }

    fn curly(&self) -> Bracket {
        match self.level.bracket {
            Bracket::Definitions => body_of(self.defined),
            Bracket::Selections if self.last != Last::Colon => Bracket::Selections,
            _ => Bracket::Object,
        }
    }

    // What a name is in the member.
    pub(super) fn place(&self) -> Place {
        match self.level.member {
            Some(member) => member.place,
            None => Place::Plain,
        }
    }

    // What this word is to the next one.
    fn after(&self, word: &Word<'_>, begins: bool, leads: bool) -> Last {
        match word.kind {
            TokenKind::String | TokenKind::Block if begins && self.level.bracket != Bracket::List =>
                { Last::Description }
            TokenKind::Punct => after_punct(word.mark),
            TokenKind::Name => self.after_name(word.text, leads),
            _ => Last::Whole,
        }
    }

    fn after_name(&self, spelling: &str, leads: bool) -> Last {
        match self.last {
            Last::At | Last::Dollar => Last::Whole,
            Last::Dots if spelling == "on" => Last::Wanting,
            Last::Extend => Last::Wanting,
            _ if self.level.bracket != Bracket::Definitions => Last::Whole,
            _ if leads && spelling == "extend" => Last::Extend,
            _ if leads => Last::Wanting,
            Last::Whole if is_clause(spelling) && spelling != "repeatable" => Last::Wanting,
            _ => Last::Whole,
        }
    }
}
