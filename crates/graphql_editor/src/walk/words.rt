//! What the names of a text are, and what its punctuators say of those that come next.
ghost use Rattle.std.specs.Prelude.{◌≡◌};

use super::{Member, Walk};
use crate::roles::{Bracket, Last, Place, Word, defined_by};
use crate::{NameKind, Role, SymbolKind};
use std::alloc::AllocError;

impl Walk {
    /// Passes a name. It leads if it says what the definition or the member is.
    pub(super) fn pass_name(&mut self, word: &Word<'_>, leads: bool) -> Result<(), AllocError>
        ensures structure { self.new.structure ≡ self.old.structure }
        ensures chain { self.new.chain ≡ self.old.chain }
    {
        self.is_directive = self.last == Last::At;
        match self.last {
            Last::At => self.pass_directive(word),
            Last::Dollar => self.pass_variable(word),
            Last::Dots => self.pass_spread(word),
            _ if self.level.bracket == Bracket::Definitions => self.pass_head(word, leads),
            _ if self.place() == Place::Type => self.pass_type(word),
            _ if leads => match self.level.bracket.member() {
                Some(kind) => self.add_symbol(kind, word),
                None => Ok(()),
            },
            _ => Ok(()),
        }
    }

    // Passes a punctuator that closes no bracket.
    pub(super) fn pass_punct(&mut self, word: &Word<'_>, leads: bool) -> Result<(), AllocError>
        ensures structure { self.new.structure ≡ self.old.structure }
        ensures chain { self.new.chain ≡ self.old.chain }
    {
        let bracket = self.level.bracket;
        match word.mark {
            b'.' | b'$' | b'@' => self.sigil = word.start,
            b':' | b'=' => self.end_part()?,
            _ => (),
        }
        match word.mark {
            b'{' if leads && bracket == Bracket::Definitions => {
                self.defined = Some(SymbolKind::Query);
                self.add_symbol(SymbolKind::Query, word)?;
            }
            b'.' if leads && bracket == Bracket::Selections => {
                self.add_symbol(SymbolKind::InlineFragment, word)?;
            }
            b'$' if leads && bracket == Bracket::Variables => {
                self.add_symbol(SymbolKind::Variable, word)?;
            }
            b'@' => {
                self.end_part()?;
                self.begin_part(word.start, false);
                self.set_place(Place::Plain);
            }
            b':' => self.set_place(bracket.place_after_colon()),
            b'=' if bracket == Bracket::Definitions => self.set_place(Place::Type),
            b'=' => self.set_place(Place::Value),
            _ => (),
        }
        Ok(())
    }

    fn set_place(&mut self, place: Place)
        ensures structure { self.new.structure ≡ self.old.structure }
        ensures chain { self.new.chain ≡ self.old.chain }
    {
        if let Some(member) = self.level.member {
            self.level.member = Some(Member { place, ..member });
        }
    }

    // Notes that the member's own name was passed. Whether it was none before.
    fn take_name(&mut self) -> bool
        ensures structure { self.new.structure ≡ self.old.structure }
        ensures chain { self.new.chain ≡ self.old.chain }
    {
        match self.level.member {
            Some(member) if !member.is_named => {
                self.level.member = Some(Member {
                    is_named: true,
                    ..member
                });
                true
            }
            _ => false,
        }
    }

    // Gives the member's symbol its name.
    fn name_symbol(&mut self, start: usize, end: usize)
        ensures structure { self.new.structure ≡ self.old.structure }
        ensures chain { self.new.chain ≡ self.old.chain }
    {
        if let Some(member) = self.level.member
            && let Some(symbol) = member.symbol
        {
            self.structure.name_symbol(symbol, start, end);
        }
    }

    fn add_name(&mut self, kind: NameKind, role: Role, word: &Word<'_>) -> Result<(), AllocError>
        ensures structure { self.new.structure ≡ self.old.structure }
        ensures chain { self.new.chain ≡ self.old.chain }
    {
        self.structure.add_name(kind, role, word.start, word.end)
    }

    fn pass_directive(&mut self, word: &Word<'_>) -> Result<(), AllocError>
        ensures structure { self.new.structure ≡ self.old.structure }
        ensures chain { self.new.chain ≡ self.old.chain }
    {
        let is_defined = self.level.bracket == Bracket::Definitions
            && self.defined == Some(SymbolKind::Directive)
            && self.take_name();
        if !is_defined {
            return self.add_name(NameKind::Directive, Role::Use, word);
        }
        self.name_symbol(self.sigil, word.end);
        self.add_name(NameKind::Directive, Role::Definition, word)
    }

    fn pass_variable(&mut self, word: &Word<'_>) -> Result<(), AllocError>
        ensures structure { self.new.structure ≡ self.old.structure }
        ensures chain { self.new.chain ≡ self.old.chain }
    {
        let is_defined = self.level.bracket == Bracket::Variables && self.take_name();
        if !is_defined {
            return self.add_name(NameKind::Variable, Role::Use, word);
        }
        self.name_symbol(self.sigil, word.end);
        self.add_name(NameKind::Variable, Role::Definition, word)
    }

    // Passes a name after `...`.
    fn pass_spread(&mut self, word: &Word<'_>) -> Result<(), AllocError>
        ensures structure { self.new.structure ≡ self.old.structure }
        ensures chain { self.new.chain ≡ self.old.chain }
    {
        if word.text == "on" {
            self.set_place(Place::Type);
            return Ok(());
        }
        if let Some(member) = self.level.member
            && let Some(symbol) = member.symbol
        {
            self.structure.name_symbol(symbol, word.start, word.end);
            self.structure.turn_to_spread(symbol);
        }
        self.add_name(NameKind::Fragment, Role::Use, word)
    }

    // Passes the name of a type that is used.
    fn pass_type(&mut self, word: &Word<'_>) -> Result<(), AllocError>
        ensures structure { self.new.structure ≡ self.old.structure }
        ensures chain { self.new.chain ≡ self.old.chain }
    {
        if self.level.bracket == Bracket::Selections {
            self.name_symbol(self.sigil, word.end);
        }
        self.add_name(NameKind::Type, Role::Use, word)
    }

    // Passes a name of a definition's head.
    fn pass_head(&mut self, word: &Word<'_>, leads: bool) -> Result<(), AllocError>
        ensures structure { self.new.structure ≡ self.old.structure }
        ensures chain { self.new.chain ≡ self.old.chain }
    {
        match self.last {
            _ if leads && word.text == "extend" => {
                self.is_extension = true;
                Ok(())
            }
            Last::Extend => self.pass_keyword(word),
            _ if leads => self.pass_keyword(word),
            Last::Whole => self.pass_clause(word),
            _ if self.place() == Place::Type => self.pass_type(word),
            Last::Wanting => self.pass_defined(word),
            _ => Ok(()),
        }
    }

    // Passes the word that says what a definition defines.
    fn pass_keyword(&mut self, word: &Word<'_>) -> Result<(), AllocError>
        ensures structure { self.new.structure ≡ self.old.structure }
        ensures chain { self.new.chain ≡ self.old.chain }
    {
        self.defined = defined_by(word.text);
        match self.defined {
            Some(kind) => self.add_symbol(kind, word),
            None => Ok(()),
        }
    }

    // Passes a word that goes on with a definition's head after its name.
    fn pass_clause(&mut self, word: &Word<'_>) -> Result<(), AllocError>
        ensures structure { self.new.structure ≡ self.old.structure }
        ensures chain { self.new.chain ≡ self.old.chain }
    {
        if word.text == "repeatable" {
            return Ok(());
        }
        self.end_part()?;
        self.begin_part(word.start, false);
        if word.text == "implements" || self.defined == Some(SymbolKind::Fragment) {
            self.set_place(Place::Type);
        }
        Ok(())
    }

    // Passes the name of what is defined, and others after it that no text has that is right.
    fn pass_defined(&mut self, word: &Word<'_>) -> Result<(), AllocError>
        ensures structure { self.new.structure ≡ self.old.structure }
        ensures chain { self.new.chain ≡ self.old.chain }
    {
        if !self.take_name() {
            return Ok(());
        }
        let role = if self.is_extension {
            Role::Use
        } else {
            Role::Definition
        };
        match self.defined {
            None | Some(SymbolKind::Schema | SymbolKind::Directive) => return Ok(()),
            Some(SymbolKind::Query | SymbolKind::Mutation | SymbolKind::Subscription) => (),
            Some(SymbolKind::Fragment) => self.add_name(NameKind::Fragment, role, word)?,
            Some(_) => self.add_name(NameKind::Type, role, word)?,
        }
        self.name_symbol(word.start, word.end);
        Ok(())
    }
}
