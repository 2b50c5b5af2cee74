//! Texts that are written part by part.
use std::alloc::{AllocError, Global};
use std::fmt;

/// A text that is being written. A part for which there is no memory is left out, and `finish` reports it.
#[derive(Drop)]
pub struct Shown {
    text: String,
    has_places: bool,
    is_cut: bool,
}

impl Shown {
    /// An empty text.
    pub fn new(alloc: Global, has_places: bool) -> Shown {
        Shown {
            text: String::new(alloc),
            has_places,
            is_cut: false,
        }
    }

    /// An empty text with room for this many bytes: up to there, writing takes no memory.
    pub fn with_room(alloc: Global, has_places: bool, bytes: usize) -> Result<Shown, AllocError> {
        Ok(Shown {
            text: String::with_capacity(alloc, bytes)?,
            has_places,
            is_cut: false,
        })
    }

    /// Begins anew, in the room that is there.
    pub fn clear(&mut self) {
        self.text.clear();
        self.is_cut = false;
    }

    /// What takes memory for the text.
    pub fn alloc(&self) -> Global {
        *self.text.allocator()
    }

    /// A part is left out, since there was no memory for it.
    pub fn leave_out(&mut self) {
        self.is_cut = true;
    }

    /// The whole text, unless a part was left out.
    pub fn whole(&self) -> Option<&str> {
        if self.is_cut {
            return None;
        }
        Some(self.text.as_str())
    }

    /// Adds these characters.
    pub fn word(&mut self, text: &str) {
        if self.text.push_str(text).is_err() {
            self.is_cut = true;
        }
    }

    /// Adds this character.
    pub fn letter(&mut self, c: char) {
        if self.text.push(c).is_err() {
            self.is_cut = true;
        }
    }

    /// Adds what was made, after what stands before it, if there was memory to make it.
    pub fn made<T: fmt::Display + Drop>(&mut self, before: &str, made: Result<T, AllocError>) {
        match made {
            Ok(made) => self.item(before, &made),
            Err(_) => self.is_cut = true,
        }
    }

    /// Adds anything that writes itself, after what stands before it.
    pub fn item<T: fmt::Display>(&mut self, before: &str, item: &T) {
        if write!(self.text, "{before}{item}").is_err() {
            self.is_cut = true;
        }
    }

    /// Adds anything as a developer sees it, after what stands before it.
    pub fn debugged<T: fmt::Debug>(&mut self, before: &str, item: &T) {
        if write!(self.text, "{before}{item:?}").is_err() {
            self.is_cut = true;
        }
    }

    /// Adds a place, after what stands before it. A text without places has only that.
    pub fn place<P: fmt::Display>(&mut self, before: &str, place: &P) {
        if self.has_places {
            self.item(before, place);
        } else {
            self.word(before);
        }
    }

    /// The whole text.
    pub fn finish(self) -> Result<String, AllocError> {
        if self.is_cut {
            return Err(AllocError);
        }
        Ok(self.text)
    }
}
