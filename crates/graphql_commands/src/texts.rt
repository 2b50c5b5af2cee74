//! Where the texts come from, and where they are written: files, and standard input.
ghost use Rattle.std.specs.Prelude.{◌≡◌, ◌⊎◌, false, ℕ, List, Result};
ghost use Rattle.std.specs.declared.alloc.Global.{Global};
ghost use Rattle.std.specs.declared.string.String.{String as Text};
ghost use Rattle.graphql_commands.specs.declared.texts.Unread.{Unread};
ghost use Rattle.graphql_commands.specs.declared.texts.Unwritten.{Unwritten};
ghost use Rattle.graphql_commands.specs.declared.texts.Unread.TheVariants.{Forbidden, BadName};

use crate::replacing::replace;
use crate::walking::walk;
use std::alloc::{AllocError, Global};
use std::io::{ErrorKind, Read};
use std::{fs, io};

/// Why there is no text, or it isn't checked.
#[derive(Clone, Copy)]
pub enum Unread {
    /// There is no such file.
    Missing,
    /// It may not be read.
    Forbidden,
    /// It is a directory.
    Folder,
    /// It is a directory, and no file below it is a GraphQL file.
    NoFiles,
    /// It can't be read for another reason.
    Unreadable,
    /// It is named as a GraphQL file, and the name isn't UTF-8, so that it can't be read.
    BadName,
    /// Its name isn't UTF-8, and it isn't named as a GraphQL file; it may be a folder.
    OddName,
    /// It is named as a GraphQL file, and is a pipe, a socket or a device.
    Special,
    /// It is a link that leads to no file.
    LinkToNothing,
    /// It is a link that leads out of the folder that is searched.
    LinkOutside,
    /// It isn't UTF-8.
    NotText,
    /// Its check needs more memory than it may take.
    OverBudget,
    /// Memory ran out.
    NoMemory,
}

impl Unread {
    /// What is said of it after the file's name; None if memory was denied, which stops the program.
    pub fn words(self) -> Option<&'static str> {
        match self {
            Unread::Missing => Some("cannot be read: no such file"),
            Unread::Forbidden => Some("cannot be read: permission denied"),
            Unread::Folder => Some("cannot be read: is a directory"),
            Unread::NoFiles => {
                Some("has no file named *.graphql, *.graphqls, *.gqls, *.gql or *.sdl")
            }
            Unread::Unreadable => Some("cannot be read"),
            Unread::BadName => Some("cannot be read: its name is not UTF-8"),
            Unread::OddName => Some("is skipped: its name is not UTF-8"),
            Unread::Special => Some("is skipped: not a regular file"),
            Unread::LinkToNothing => Some("is skipped: the link leads to no file"),
            Unread::LinkOutside => Some("is skipped: the link leads out of the folder"),
            Unread::NotText => Some("is not UTF-8"),
            Unread::OverBudget => Some("needs more memory than --memory allows"),
            Unread::NoMemory => None,
        }
    }

    /// Whether it is only skipped if a folder is searched, so that it doesn't count as a file that isn't read.
    pub fn is_skipped(self) -> bool
        ensures { (self ≡ Forbidden) ⊎ (self ≡ BadName) → result ≡ false }
    {
        matches!(
            self,
            Unread::OddName | Unread::Special | Unread::LinkToNothing | Unread::LinkOutside
        )
    }

    /// The name of its status, for programs.
    pub fn status(self) -> &'static str {
        match self {
            Unread::NotText => "NOT_UTF8",
            Unread::OverBudget | Unread::NoMemory => "OUT_OF_MEMORY",
            _ => "UNREADABLE",
        }
    }
}

impl From<AllocError> for Unread {
    fn from(_refused: AllocError) -> Unread {
        Unread::NoMemory
    }
}

/// Why a file isn't written.
#[derive(Drop)]
pub enum Unwritten {
    /// It isn't there any more.
    Missing,
    /// It may not be written.
    Forbidden,
    /// Nothing may be written where it is.
    ReadOnly,
    /// There is no room.
    Full,
    /// No copy of its old text could be made.
    NoCopy,
    /// It can't be written for another reason.
    Unwritable,
    /// It has a part of the new text, and its old text, which couldn't be put back, is in the file of this name.
    HalfWritten(String),
    /// Memory ran out.
    NoMemory,
}

impl Unwritten {
    /// What is said of it after the file's name, and before that of a copy; None if memory was denied, which stops the
    /// program.
    pub fn words(&self) -> Option<&'static str> {
        match self {
            Unwritten::Missing => Some("cannot be written: no such file"),
            Unwritten::Forbidden => Some("cannot be written: permission denied"),
            Unwritten::ReadOnly => Some("cannot be written: read-only file system"),
            Unwritten::Full => Some("cannot be written: no space left"),
            Unwritten::NoCopy => Some("cannot be written: no copy of it can be made first"),
            Unwritten::Unwritable => Some("cannot be written"),
            Unwritten::HalfWritten(_) => Some("is half written: its old text is in"),
            Unwritten::NoMemory => None,
        }
    }
}

/// What is found below a folder.
#[derive(Drop)]
pub struct Listing {
    /// The names of the GraphQL files, in their order.
    pub files: Vec<String>,
    /// What can't be read there, or is skipped.
    pub passed: Vec<Passed>,
}

/// What is passed over when a folder is searched.
#[derive(Drop)]
pub struct Passed {
    /// Its name, with U+FFFD for what of it isn't UTF-8.
    pub name: String,
    pub why: Unread,
}

/// What texts are read from by their names, and written to.
pub trait Texts {
    // What may be read under a name at a state of these, and the state after that.
    ghost gives: { Self → List ℕ → Result (Text Global) Unread → Self → Type 0 };
    // What may come of putting a text under a name at a state of these, and the state after that.
    ghost puts: { Self → List ℕ → List ℕ → Result (Unit {0}) Unwritten → Self → Type 0 };

    /// The text under this name; `-` is standard input.
    fn text(&mut self, alloc: Global, name: &str) -> Result<String, Unread>
        ensures { Self.gives self.old name.now result self.new };

    /// What is found below the folder of this name, of all that is there or only of what isn't ignored; None if it
    /// isn't a folder.
    fn files_below(
        &mut self,
        alloc: Global,
        name: &str,
        takes_all: bool,
    ) -> Result<Option<Listing>, Unread>;

    /// Puts this text in the place of the one under this name, which is no standard input. If that fails, the old one
    /// is there, unless the error says where else it is.
    fn replace(&mut self, alloc: Global, name: &str, text: &str) -> Result<(), Unwritten>
        ensures { Self.puts self.old name.now text.now result self.new };
}

/// The text that these bytes are.
pub fn text_of(bytes: Vec<u8>) -> Result<String, Unread> {
    match String::from_utf8(bytes) {
        Ok(text) => Ok(text),
        Err(_) => Err(Unread::NotText),
    }
}

/// Why there is no text if a system's call failed in this way.
pub fn reason(kind: ErrorKind) -> Unread {
    match kind {
        ErrorKind::NotFound => Unread::Missing,
        ErrorKind::PermissionDenied => Unread::Forbidden,
        ErrorKind::IsADirectory => Unread::Folder,
        ErrorKind::OutOfMemory => Unread::NoMemory,
        _ => Unread::Unreadable,
    }
}

// What is on standard input.
fn input(rt: &HostRuntime, alloc: Global) -> io::Result<Vec<u8>> {
    let mut bytes = Vec::new(alloc);
    rt.stdin().read_to_end(&mut bytes)?;
    Ok(bytes)
}

/// The files of the machine.
#[derive(Drop)]
pub struct Disk<'a> {
    pub rt: &'a HostRuntime,
}

impl Texts for Disk<'_> {
    // Nothing is known of what a machine's files hold.
    ghost gives = { λ _ _ _ _. Unit {0} };

    ghost puts = { λ _ _ _ _ _. Unit {0} };

    fn text(&mut self, alloc: Global, name: &str) -> Result<String, Unread> {
        let read = if name == "-" {
            input(self.rt, alloc)
        } else {
            fs::read(self.rt, name)
        };
        match read {
            Ok(bytes) => text_of(bytes),
            Err(error) => Err(reason(error.kind())),
        }
    }

    fn files_below(
        &mut self,
        alloc: Global,
        name: &str,
        takes_all: bool,
    ) -> Result<Option<Listing>, Unread> {
        let is_folder = match fs::metadata(self.rt, name) {
            Ok(metadata) => metadata.is_dir(),
            Err(_) => false,
        };
        if name == "-" || !is_folder {
            return Ok(None);
        }
        match walk(self.rt, alloc, name, takes_all) {
            Ok(found) => Ok(Some(found)),
            Err(error) => Err(reason(error.kind())),
        }
    }

    fn replace(&mut self, alloc: Global, name: &str, text: &str) -> Result<(), Unwritten> {
        replace(self.rt, alloc, name, text)
    }
}
