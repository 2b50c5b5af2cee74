//! How members and brackets begin and end.
ghost use Rattle.std.specs.Prelude.{◌≡◌};

use super::{DEPTH, LEVELS, Level, Member, Part, Walk};
use crate::roles::{Bracket, Last, Word, closer_of};
use crate::structure::Found;
use crate::{FoldKind, SymbolKind};
use std::alloc::AllocError;

impl Walk {
    // Begins a member of the innermost bracket, or a definition.
    pub(super) fn begin_member(&mut self, start: usize) -> Result<(), AllocError>
        ensures structure { self.new.structure ≡ self.old.structure }
        ensures chain { self.new.chain ≡ self.old.chain }
    {
        self.end_member()?;
        if self.level.content.is_none() {
            self.level.content = Some(start);
        }
        self.level.member = Some(Member {
            start,
            symbol: None,
            place: self.level.bracket.first_place(),
            is_named: false,
            part: None,
        });
        if self.level.bracket == Bracket::Definitions {
            self.defined = None;
            self.is_extension = false;
        }
        Ok(())
    }

    // Ends the member, where the last word ended.
    pub(super) fn end_member(&mut self) -> Result<(), AllocError>
        ensures structure { self.new.structure ≡ self.old.structure }
        ensures chain { self.new.chain ≡ self.old.chain }
    {
        self.end_part()?;
        let Some(member) = self.level.member else {
            return Ok(());
        };
        self.chain.add(member.start, self.end)?;
        if let Some(symbol) = member.symbol {
            self.structure.end_symbol(symbol, self.end);
        }
        if self.level.bracket == Bracket::Definitions {
            self.structure.add_definition(member.start, self.end)?;
        }
        self.level.member = None;
        Ok(())
    }

    // Begins a part of the member.
    pub(super) fn begin_part(&mut self, start: usize, is_detail: bool)
        ensures structure { self.new.structure ≡ self.old.structure }
        ensures chain { self.new.chain ≡ self.old.chain }
    {
        if let Some(member) = self.level.member {
            self.level.member = Some(Member {
                part: Some(Part { start, is_detail }),
                ..member
            });
        }
    }

    // Ends the part of the member, where the last word ended.
    pub(super) fn end_part(&mut self) -> Result<(), AllocError>
        ensures structure { self.new.structure ≡ self.old.structure }
        ensures chain { self.new.chain ≡ self.old.chain }
    {
        if let Some(member) = self.level.member
            && let Some(part) = member.part
        {
            self.chain.add(part.start, self.end)?;
            if part.is_detail
                && let Some(symbol) = member.symbol
            {
                self.structure.detail_symbol(symbol, part.start, self.end);
            }
            self.level.member = Some(Member {
                part: None,
                ..member
            });
        }
        Ok(())
    }

    // Lists the member in the outline, with this name.
    pub(super) fn add_symbol(&mut self, kind: SymbolKind, word: &Word<'_>) -> Result<(), AllocError>
        ensures structure { self.new.structure ≡ self.old.structure }
        ensures chain { self.new.chain ≡ self.old.chain }
    {
        if self.level.depth >= DEPTH {
            return Ok(());
        }
        if let Some(member) = self.level.member {
            let symbol = self.structure.add_symbol(&Found {
                kind,
                start: member.start,
                name_start: word.start,
                name_end: word.end,
                depth: self.level.depth,
                is_extension: self.is_extension && self.outer.is_empty(),
            })?;
            self.level.member = Some(Member {
                symbol: Some(symbol),
                ..member
            });
        }
        Ok(())
    }

    // Opens a bracket.
    pub(super) fn open(&mut self, bracket: Bracket, word: &Word<'_>) -> Result<(), AllocError>
        ensures structure { self.new.structure ≡ self.old.structure }
        ensures chain { self.new.chain ≡ self.old.chain }
    {
        if self.outer.len() >= LEVELS {
            self.deeper = self.deeper.saturating_add(1);
            return Ok(());
        }
        let closer = closer_of(word.mark);
        if closer == b'}' {
            self.braces = self.braces.saturating_add(1);
            if bracket != Bracket::Object {
                self.end_part()?;
            }
        }
        let depth = self.depth_inside();
        self.outer.push(self.level)?;
        self.level = Level {
            bracket,
            closer,
            start: word.start,
            content: None,
            depth,
            member: None,
        };
        Ok(())
    }

    // How many symbols something inside of the member is in: it is in the member's symbol, if that has one.
    fn depth_inside(&self) -> usize {
        match self.level.member {
            Some(
                Member {
                    symbol: Some(_),
                    ..
                },
            ) => self.level.depth.saturating_add(1),
            _ => self.level.depth,
        }
    }

    // Closes the innermost bracket by this word, or one around it if that is what it closes.
    pub(super) fn close(&mut self, word: &Word<'_>) -> Result<(), AllocError>
        ensures structure { self.new.structure ≡ self.old.structure }
        ensures chain { self.new.chain ≡ self.old.chain }
    {
        if self.deeper > 0 {
            self.deeper -= 1;
            self.end = word.end;
            self.last = Last::Whole;
            return Ok(());
        }
        if !self.reach(word.mark)? {
            return Ok(());
        }
        if self.level.start < self.line {
            self.structure
                .add_fold(FoldKind::Brackets, self.level.start, word.end)?;
        }
        self.leave(word.end)?;
        self.end = word.end;
        self.last = if self.outer.is_empty() && word.mark == b'}' {
            Last::Closed
        } else {
            Last::Whole
        };
        Ok(())
    }

    // Leaves the brackets inside of the one that this closes. Whether there is one.
    fn reach(&mut self, closer: u8) -> Result<bool, AllocError>
        ensures structure { self.new.structure ≡ self.old.structure }
        ensures chain { self.new.chain ≡ self.old.chain }
    {
        if self.level.closer == closer {
            return Ok(true);
        }
        self.is_whole = false;
        if closer == b'}' {
            return self.reach_brace();
        }
        match self.outer.last().copied() {
            Some(level) if level.closer == closer => {
                self.leave(self.end)?;
                Ok(true)
            }
            _ => Ok(false),
        }
    }

    fn reach_brace(&mut self) -> Result<bool, AllocError>
        ensures structure { self.new.structure ≡ self.old.structure }
        ensures chain { self.new.chain ≡ self.old.chain }
    {
        if self.braces == 0 {
            return Ok(false);
        }
        for _ in 0..self.outer.len() {
            if self.level.closer == b'}' {
                return Ok(true);
            }
            self.leave(self.end)?;
        }
        Ok(false)
    }

    // Leaves the innermost bracket, which ends here.
    fn leave(&mut self, end: usize) -> Result<(), AllocError>
        ensures structure { self.new.structure ≡ self.old.structure }
        ensures chain { self.new.chain ≡ self.old.chain }
    {
        self.end_member()?;
        if let Some(content) = self.level.content {
            self.chain.add(content, self.end)?;
        }
        if let Some(level) = self.outer.pop() {
            self.chain.add(self.level.start, end)?;
            if self.level.closer == b'}' {
                self.braces = self.braces.saturating_sub(1);
            }
            self.level = level;
        }
        Ok(())
    }

    // Leaves all brackets, where the last word ended.
    pub(super) fn unwind(&mut self) -> Result<(), AllocError>
        ensures structure { self.new.structure ≡ self.old.structure }
        ensures chain { self.new.chain ≡ self.old.chain }
    {
        self.deeper = 0;
        for _ in 0..self.outer.len() {
            self.leave(self.end)?;
        }
        Ok(())
    }
}
