//! Writing texts into the files of the machine, each in its place, so that its owner, its permissions and its links
//! stay.
//!
//! Before a byte of a file goes, a copy of its old text is on the disk: beside it, or else in the folder for temporary
//! files. So nothing is lost if the run ends in the middle. If a write fails, the old text is put back.
ghost use Rattle.std.specs.Prelude.{◌≤◌, length};

use crate::texts::Unwritten;
use std::alloc::{AllocError, Global};
use std::fs::{File, OpenOptions};
use std::io::{Error, ErrorKind, Read, Write};
use std::os::unix::fs::{FileExt, OpenOptionsExt};
use std::{env, fs, io};

// So many names are tried for a copy.
const MOST_NAMES: usize = 100;

// A file whose name has more bytes isn't named in that of its copy, which no system then finds too long.
const LONGEST_NAME: usize = 128;

// Nobody else may read a copy.
const OWNERS_ONLY: u32 = 0o600;

// Why a text isn't written, and whether the old one is there.
#[derive(Clone, Copy)]
struct Failed {
    kind: ErrorKind,
    is_back: bool,
}

/// Writes this text into the file of this name in place of its old one. Where that fails, the file has its old text; or
/// else the error names the copy that has it.
pub fn replace(rt: &HostRuntime, alloc: Global, name: &str, text: &str) -> Result<(), Unwritten> {
    let mut old = Vec::new(alloc);
    match opened(rt, name, &mut old) {
        Ok(file) => replace_old(rt, alloc, &file, name, old.as_slice(), text.as_bytes()),
        Err(error) => Err(reason(error.kind())),
    }
}

// The same in the file of this name that is open, where it has these bytes.
fn replace_old(
    rt: &HostRuntime,
    alloc: Global,
    file: &File,
    name: &str,
    old: &[u8],
    text: &[u8],
) -> Result<(), Unwritten> {
    let copy = copied(rt, alloc, name, old)?;
    match written_over(file, old, text) {
        Err(Failed { is_back: false, .. }) => Err(Unwritten::HalfWritten(copy)),
        written => {
            // The text is where it belongs, and so is the old one if it isn't.
            let _ = fs::remove_file(rt, copy.as_str());
            match written {
                Ok(()) => Ok(()),
                Err(failed) => Err(reason(failed.kind)),
            }
        }
    }
}

fn reason(kind: ErrorKind) -> Unwritten {
    match kind {
        ErrorKind::NotFound => Unwritten::Missing,
        ErrorKind::PermissionDenied => Unwritten::Forbidden,
        ErrorKind::ReadOnlyFilesystem => Unwritten::ReadOnly,
        ErrorKind::StorageFull | ErrorKind::QuotaExceeded => Unwritten::Full,
        ErrorKind::OutOfMemory => Unwritten::NoMemory,
        _ => Unwritten::Unwritable,
    }
}

// Opens the file of this name, if it may be written, and adds its bytes to `old`.
fn opened(rt: &HostRuntime, name: &str, old: &mut Vec<u8>) -> io::Result<File> {
    if !fs::metadata(rt, name)?.is_file() {
        return Err(Error::from(ErrorKind::InvalidInput));
    }
    let mut file = OpenOptions::new().read(true).write(true).open(rt, name)?;
    match file.read_to_end(old) {
        Ok(_) => Ok(file),
        Err(error) => Err(error),
    }
}

// ---- the copy

// Makes a copy of a file's bytes that is on the disk, beside it or in the folder for temporary files, and returns its
// name.
fn copied(rt: &HostRuntime, alloc: Global, name: &str, bytes: &[u8]) -> Result<String, Unwritten> {
    let (folder, name) = match name.rsplit_once('/') {
        Some((folder, name)) => (folder, name),
        None => (".", name),
    };
    match copied_into(rt, alloc, folder, name, bytes) {
        Err(Unwritten::NoCopy) => copied_elsewhere(rt, alloc, name, bytes),
        copied => copied,
    }
}

// The same in the folder for temporary files.
fn copied_elsewhere(
    rt: &HostRuntime,
    alloc: Global,
    name: &str,
    bytes: &[u8],
) -> Result<String, Unwritten> {
    match env::temp_dir(rt) {
        Ok(folder) => copied_into(rt, alloc, folder.as_str(), name, bytes),
        Err(error) => Err(reason(error.kind())),
    }
}

// The same in one folder, in which nothing is left if it fails.
fn copied_into(
    rt: &HostRuntime,
    alloc: Global,
    folder: &str,
    name: &str,
    bytes: &[u8],
) -> Result<String, Unwritten> {
    let mut copy = String::new(alloc);
    for count in 0..MOST_NAMES {
        if name_copy(&mut copy, folder, name, count).is_err() {
            return Err(Unwritten::NoMemory);
        }
        match filled(rt, folder, copy.as_str(), bytes) {
            Ok(()) => return Ok(copy),
            Err(ErrorKind::AlreadyExists) => {}
            Err(ErrorKind::OutOfMemory) => return Err(Unwritten::NoMemory),
            Err(_) => break,
        }
    }
    Err(Unwritten::NoCopy)
}

// Writes the name of a copy in place of another.
fn name_copy(copy: &mut String, folder: &str, name: &str, count: usize) -> Result<(), AllocError> {
    copy.clear();
    copy.push_str(folder)?;
    copy.push_str("/.")?;
    copy.push_str(short(name))?;
    copy.push_str(".gql-format")?;
    if count > 0 {
        write!(copy, "{count}")?;
    }
    Ok(())
}

// A name, or none for one that is long.
fn short(name: &str) -> &str
    ensures { length result.now ≤ 128 }
{
    if name.len() > LONGEST_NAME { "" } else { name }
}

// Makes a copy, and waits until it and its folder are on the disk. Where that fails, there is no copy.
fn filled(rt: &HostRuntime, folder: &str, copy: &str, bytes: &[u8]) -> Result<(), ErrorKind> {
    let made = OpenOptions::new()
        .write(true)
        .create_new(true)
        .mode(OWNERS_ONLY)
        .open(rt, copy);
    let written = match made {
        Ok(mut file) => written_safely(&mut file, bytes),
        Err(error) => return Err(error.kind()),
    };
    match written {
        Ok(()) => {
            // Not every system can wait for a folder.
            if let Ok(folder) = File::open(rt, folder) {
                let _ = folder.sync_all();
            }
            Ok(())
        }
        Err(error) => {
            let _ = fs::remove_file(rt, copy);
            Err(error.kind())
        }
    }
}

fn written_safely(file: &mut File, bytes: &[u8]) -> io::Result<()> {
    file.write_all(bytes)?;
    file.sync_all()
}

// ---- the file

// Writes a text over the old one of a file, and puts that back if it fails. The file keeps its permissions.
fn written_over(file: &File, old: &[u8], text: &[u8]) -> Result<(), Failed> {
    let permissions = match file.metadata() {
        Ok(metadata) => metadata.permissions(),
        Err(error) => {
            return Err(Failed {
                kind: error.kind(),
                is_back: true,
            });
        }
    };
    let written = written_or_back(file, old, text);
    // What is written loses the right to run as its owner. Only the owner may give it back.
    if let Ok(metadata) = file.metadata()
        && metadata.permissions() != permissions
    {
        let _ = file.set_permissions(permissions);
    }
    written
}

fn written_or_back(file: &File, old: &[u8], text: &[u8]) -> Result<(), Failed> {
    if let Err(error) = lengthened(file, old.len(), text) {
        return Err(Failed {
            kind: error.kind(),
            is_back: file.set_len(old.len() as u64).is_ok(),
        });
    }
    if let Err(error) = written(file, text) {
        return Err(Failed {
            kind: error.kind(),
            is_back: written(file, old).is_ok(),
        });
    }
    Ok(())
}

// Writes what of a text is beyond the length of the old one, so that there is room before a byte of that goes.
fn lengthened(file: &File, length: usize, text: &[u8]) -> io::Result<()> {
    match text.get(length..) {
        Some(rest) if !rest.is_empty() => {
            file.write_all_at(rest, length as u64)?;
            file.sync_all()
        }
        _ => Ok(()),
    }
}

// Writes a text from the beginning of a file on, which has nothing else then.
fn written(file: &File, text: &[u8]) -> io::Result<()> {
    file.write_all_at(text, 0)?;
    file.set_len(text.len() as u64)?;
    file.sync_all()
}
