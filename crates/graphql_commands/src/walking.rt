//! Walking over folders of the machine: which GraphQL files are below one.
use crate::ignoring::is_ignored;
use crate::texts::{Listing, Passed, Unread, reason};
use std::alloc::{AllocError, Global};
use std::fs::{Files, Metadata};
use std::io::{ErrorKind, Read};
use std::{fs, io, str};

// So many folders lie in one another at most: the name of a path has at most 4,096 bytes.
const MOST_FOLDERS: usize = 2048;

// How many bytes of names are read at once.
const PART: usize = 4096;

// A walk over a folder.
#[derive(Drop)]
struct Walker<'a> {
    rt: &'a HostRuntime,
    alloc: Global,
    top: &'a str,
    takes_all: bool,
    // What the file `.gitignore` in the folder excludes.
    patterns: String,
    found: Listing,
}

// What the walk does with what has a name.
#[derive(Clone, Copy)]
enum Taken {
    File,
    Folder,
    Nothing,
}

/// The GraphQL files below the folder of this name, in the order of their names, and what can't be read there. Links to
/// folders, and to what is outside, aren't followed. Unless the walk takes all, it goes into no hidden folder, none
/// named `node_modules`, and takes nothing that the file `.gitignore` in the folder excludes. The error says why the
/// folder itself can't be read.
pub fn walk(rt: &HostRuntime, alloc: Global, name: &str, takes_all: bool) -> io::Result<Listing> {
    let mut walker = Walker {
        rt,
        alloc,
        top: name,
        takes_all,
        patterns: String::new(alloc),
        found: Listing {
            files: Vec::new(alloc),
            passed: Vec::new(alloc),
        },
    };
    match walker.take_all() {
        Ok(()) => Ok(walker.found),
        Err(error) => Err(error),
    }
}

// Adds the names of what is in a folder, a NUL after each.
fn push_names(rt: &HostRuntime, folder: &str, names: &mut Vec<u8>) -> io::Result<()> {
    let mut dir = rt.open_dir(folder)?;
    // A read returns whole names, and fails if it has no room for one.
    let mut part = [0u8; PART];
    for _ in 0..u64::MAX {
        let length = dir.read(&mut part)?;
        if length == 0 {
            break;
        }
        names.extend_from_slice(part.get(..length).unwrap_or(&[]))?;
    }
    Ok(())
}

fn joined(alloc: Global, folder: &str, name: &str) -> Result<String, AllocError> {
    let mut path = String::new(alloc);
    push_path(&mut path, folder, name)?;
    Ok(path)
}

fn push_path(path: &mut String, folder: &str, name: &str) -> Result<(), AllocError> {
    path.push_str(folder)?;
    if !folder.ends_with('/') {
        path.push('/')?;
    }
    path.push_str(name)
}

// Whether a file of this name is looked for in folders.
fn is_graphql(name: &str) -> bool {
    match name.rsplit_once('.') {
        Some((_, extension)) => {
            matches!(extension, "graphql" | "graphqls" | "gqls" | "gql" | "sdl")
        }
        None => false,
    }
}

impl Walker<'_> {
    // Takes what is below the folder, that first which lies less deep.
    fn take_all(&mut self) -> io::Result<()> {
        let mut folders = Vec::new(self.alloc);
        self.take_top(&mut folders)?;
        for _ in 0..MOST_FOLDERS {
            if folders.is_empty() {
                break;
            }
            folders = self.take_folders(folders.as_slice())?;
        }
        self.found.files.sort()?;
        Ok(())
    }

    // Takes what is in the folder itself, after its patterns are read.
    fn take_top(&mut self, inner: &mut Vec<String>) -> io::Result<()> {
        if !self.takes_all {
            self.read_patterns()?;
        }
        self.take_folder(self.top, inner)
    }

    // Reads the file `.gitignore`, if there is one.
    fn read_patterns(&mut self) -> Result<(), AllocError> {
        let path = joined(self.alloc, self.top, ".gitignore")?;
        match fs::symlink_metadata(self.rt, path.as_str()) {
            Ok(metadata) if metadata.is_file() => self.read_patterns_in(path.as_str()),
            _ => Ok(()),
        }
    }

    fn read_patterns_in(&mut self, path: &str) -> Result<(), AllocError> {
        match fs::read(self.rt, path) {
            Ok(bytes) => self.patterns = String::from_utf8_lossy(self.alloc, bytes.as_slice())?,
            Err(error) => self.pass(path, reason(error.kind()))?,
        }
        Ok(())
    }

    // Takes what is in these folders, and returns the folders in them.
    fn take_folders(&mut self, folders: &[String]) -> Result<Vec<String>, AllocError> {
        let mut inner = Vec::new(self.alloc);
        for folder in folders {
            if let Err(error) = self.take_folder(folder.as_str(), &mut inner) {
                self.pass(folder.as_str(), reason(error.kind()))?;
            }
        }
        Ok(inner)
    }

    // Takes the files in a folder, and adds the folders in it to `inner`. The error says why the folder can't be read.
    fn take_folder(&mut self, folder: &str, inner: &mut Vec<String>) -> io::Result<()> {
        let mut names = Vec::new(self.alloc);
        self.read_names(folder, &mut names)?;
        Ok(self.take_names(folder, names.as_slice(), inner)?)
    }

    // Adds the names of what is in a folder.
    fn read_names(&self, folder: &str, names: &mut Vec<u8>) -> io::Result<()> {
        let path = joined(self.alloc, folder, "")?;
        push_names(self.rt, path.as_str(), names)
    }

    // Takes the files of these names in a folder, and adds the folders to `inner`.
    fn take_names(
        &mut self,
        folder: &str,
        names: &[u8],
        inner: &mut Vec<String>,
    ) -> Result<(), AllocError> {
        for name in names.split(|byte| *byte == 0) {
            match str::from_utf8(name) {
                Ok("" | "." | "..") => {}
                Ok(name) => self.take_name(folder, name, inner)?,
                Err(_) => self.take_bad_name(folder, name)?,
            }
        }
        Ok(())
    }

    // Nothing can be done with what has this name, which is no text. It is reported unless it would be left out, also
    // if it is no GraphQL file, since it may be a folder of some.
    fn take_bad_name(&mut self, folder: &str, name: &[u8]) -> Result<(), AllocError> {
        let name = String::from_utf8_lossy(self.alloc, name)?;
        self.pass_bad_name(folder, name.as_str())
    }

    fn pass_bad_name(&mut self, folder: &str, name: &str) -> Result<(), AllocError> {
        let path = joined(self.alloc, folder, name)?;
        if self.leaves_out(path.as_str(), name, true)? {
            return Ok(());
        }
        let why = if is_graphql(name) {
            Unread::BadName
        } else {
            Unread::OddName
        };
        self.pass(path.as_str(), why)
    }

    // Keeps that this can't be read or is passed over.
    fn pass(&mut self, name: &str, why: Unread) -> Result<(), AllocError> {
        let name = String::from_str(self.alloc, name)?;
        self.found.passed.push(Passed { name, why })?;
        Ok(())
    }

    fn take_name(
        &mut self,
        folder: &str,
        name: &str,
        inner: &mut Vec<String>,
    ) -> Result<(), AllocError> {
        let path = joined(self.alloc, folder, name)?;
        match self.taken(path.as_str(), name) {
            Ok(Taken::File) => self.found.files.push(path)?,
            Ok(Taken::Folder) => inner.push(path)?,
            Ok(Taken::Nothing) => {}
            Err(why) => self.pass(path.as_str(), why)?,
        }
        Ok(())
    }

    // What the walk does with what has this path, whose last name this is.
    fn taken(&self, path: &str, name: &str) -> Result<Taken, Unread> {
        let metadata = match fs::symlink_metadata(self.rt, path) {
            Ok(metadata) => metadata,
            // It was taken away in the meantime.
            Err(error) if error.kind() == ErrorKind::NotFound => return Ok(Taken::Nothing),
            Err(error) => return Err(reason(error.kind())),
        };
        let is_folder = metadata.is_dir();
        if !is_folder && !is_graphql(name) || self.leaves_out(path, name, is_folder)? {
            return Ok(Taken::Nothing);
        }
        if is_folder {
            return Ok(Taken::Folder);
        }
        self.taken_file(path, &metadata)
    }

    // Whether the walk leaves this out, a folder or a file of this name.
    fn leaves_out(&self, path: &str, name: &str, is_folder: bool) -> Result<bool, AllocError> {
        if self.takes_all {
            return Ok(false);
        }
        if is_folder && (name.starts_with('.') || name == "node_modules") {
            return Ok(true);
        }
        let below = path.strip_prefix(self.top).unwrap_or(path);
        let below = below.trim_start_matches('/');
        is_ignored(self.alloc, self.patterns.as_str(), below, is_folder)
    }

    // What has a GraphQL file's name is taken if it is a file, or a link to one in the folder; no link to a folder is
    // taken.
    fn taken_file(&self, path: &str, metadata: &Metadata) -> Result<Taken, Unread> {
        if metadata.is_file() {
            return Ok(Taken::File);
        }
        if !metadata.is_symlink() {
            return Err(Unread::Special);
        }
        match fs::metadata(self.rt, path) {
            Ok(metadata) if metadata.is_dir() => Ok(Taken::Nothing),
            Ok(metadata) if !metadata.is_file() => Err(Unread::Special),
            Ok(_) if self.is_inside(path) => Ok(Taken::File),
            Ok(_) => Err(Unread::LinkOutside),
            Err(error) => Err(match error.kind() {
                ErrorKind::PermissionDenied => Unread::Forbidden,
                ErrorKind::OutOfMemory => Unread::NoMemory,
                _ => Unread::LinkToNothing,
            }),
        }
    }

    // Whether this leads to what is in the folder.
    fn is_inside(&self, path: &str) -> bool {
        match fs::canonicalize(self.rt, self.top) {
            Ok(top) => self.leads_below(top.as_str(), path),
            Err(_) => false,
        }
    }

    fn leads_below(&self, top: &str, path: &str) -> bool {
        match fs::canonicalize(self.rt, path) {
            Ok(path) => is_below(path.as_str(), top),
            Err(_) => false,
        }
    }
}

fn is_below(path: &str, top: &str) -> bool {
    match path.strip_prefix(top) {
        Some(below) => below.starts_with('/') || top == "/",
        None => false,
    }
}
