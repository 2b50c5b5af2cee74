//! What the patterns of a `.gitignore` file exclude, as gitignore(5) says.
//!
//! A pattern is matched as an automaton: of each byte of a path it is known which places of the pattern are reached, so
//! the work is at most the length of the pattern times that of the path.
use std::alloc::{AllocError, Global};

/// Whether these patterns, the lines of a `.gitignore` file, exclude the file or the folder of this path: its names
/// from the folder of that file on, with `/` between them. What is in an excluded folder is excluded too, but that
/// isn't seen here. An error reports that memory ran out.
pub fn is_ignored(
    alloc: Global,
    patterns: &str,
    path: &str,
    is_folder: bool,
) -> Result<bool, AllocError> {
    let mut reached = Vec::new(alloc);
    reached.resize(patterns.len().saturating_add(1), false)?;
    let reached = reached.as_mut_slice();
    let mut is_ignored = false;
    for line in patterns.trim_start_matches('\u{feff}').split('\n') {
        is_ignored = is_ignored_after(line, path, is_folder, is_ignored, reached);
    }
    Ok(is_ignored)
}

// Whether a path is excluded after this line, if it is or isn't before it. A comment and an empty line have no pattern.
// One after `!` takes back what lines before it exclude, one before `/` is for folders, and one without a `/` elsewhere
// is for the path's last name.
fn is_ignored_after(
    line: &str,
    path: &str,
    is_folder: bool,
    is_ignored: bool,
    reached: &mut [bool],
) -> bool {
    if line.starts_with('#') {
        return is_ignored;
    }
    let line = without_blanks(line.strip_suffix('\r').unwrap_or(line));
    let whole = line.strip_prefix('!').unwrap_or(line);
    let excludes = whole.len() == line.len();
    let names = whole.strip_suffix('/').unwrap_or(whole);
    let is_for_folders = names.len() < whole.len();
    let pattern = names.strip_prefix('/').unwrap_or(names);
    if pattern.is_empty() || excludes == is_ignored || is_for_folders && !is_folder {
        return is_ignored;
    }
    let text = match path.rsplit_once('/') {
        Some((_, name)) if !names.contains('/') => name,
        _ => path,
    };
    matches(pattern, text.as_bytes(), reached) != is_ignored
}

// A line without the blanks at its end; one that a backslash escapes stays.
fn without_blanks(line: &str) -> &str {
    let kept = line.trim_end_matches(' ');
    let slashes = kept.len().saturating_sub(kept.trim_end_matches('\\').len());
    if slashes % 2 == 0 {
        return kept;
    }
    line.get(..kept.len().saturating_add(1)).unwrap_or(kept)
}

// Whether a pattern matches the whole text. `reached` has a place for each byte of the pattern and one for its end, and
// says which of them are reached after some bytes of the text.
fn matches(pattern: &str, text: &[u8], reached: &mut [bool]) -> bool {
    for at in 0..pattern.len().saturating_add(1) {
        set(reached, at, at == 0);
    }
    let mut begins = true;
    for byte in text {
        pass_stars(pattern, begins, reached);
        take(pattern, *byte, reached);
        begins = *byte == b'/';
    }
    pass_stars(pattern, begins, reached);
    is_reached(reached, pattern.len())
}

fn is_reached(reached: &[bool], at: usize) -> bool {
    reached.get(at) == Some(&true)
}

fn set(reached: &mut [bool], at: usize, is_reached: bool) {
    if let Some(place) = reached.get_mut(at) {
        *place = is_reached;
    }
}

// Reaches what can be reached without a byte, where a name of the path begins or none does.
fn pass_stars(pattern: &str, begins: bool, reached: &mut [bool]) {
    for at in 0..pattern.len() {
        if is_reached(reached, at)
            && let Some((stars, after)) = stars_at(pattern, at)
            && (begins || !matches!(stars, Stars::Folders))
        {
            set(reached, after, true);
        }
    }
}

// Reaches what this byte leads to, and leaves what it leads from. It leads to no place before that, so the last are
// left first.
fn take(pattern: &str, byte: u8, reached: &mut [bool]) {
    set(reached, pattern.len(), false);
    for at in (0..pattern.len()).rev() {
        if is_reached(reached, at) {
            set(reached, at, false);
            if let Some(next) = taken(pattern, at, byte) {
                set(reached, next, true);
            }
        }
    }
}

// The place of a pattern to which this byte of a path leads from this place, if it leads to one.
fn taken(pattern: &str, at: usize, byte: u8) -> Option<usize> {
    let is_in_name = byte != b'/';
    if let Some((stars, _)) = stars_at(pattern, at) {
        return (is_in_name || !matches!(stars, Stars::InName)).then_some(at);
    }
    let after = at.saturating_add(1);
    match pattern.as_bytes().get(at)? {
        b'?' => is_in_name.then_some(after),
        b'[' => {
            let (has, after) = set_has(pattern, after, byte)?;
            (has && is_in_name).then_some(after)
        }
        _ => {
            let (only, after) = literal(pattern, at)?;
            (only == byte).then_some(after)
        }
    }
}

// What a run of stars takes.
#[derive(Clone, Copy)]
enum Stars {
    // Any bytes of a name.
    InName,
    // `**/`: any names, with the `/` after each.
    Folders,
    // `**` as the last name: whatever there is.
    All,
}

// What the stars at this place of a pattern take, and the place after them.
fn stars_at(pattern: &str, at: usize) -> Option<(Stars, usize)> {
    let (front, rest) = pattern.split_at_checked(at)?;
    let others = rest.trim_start_matches('*');
    let count = rest.len().saturating_sub(others.len());
    if count == 0 {
        return None;
    }
    let after = at.saturating_add(count);
    let is_name = count > 1 && (front.is_empty() || front.ends_with('/'));
    if is_name && others.is_empty() {
        return Some((Stars::All, after));
    }
    if is_name && others.starts_with('/') {
        return Some((Stars::Folders, after.saturating_add(1)));
    }
    Some((Stars::InName, after))
}

// Whether a set that begins at this place, after its bracket, has this byte, and the place after it; None if it doesn't
// end.
fn set_has(pattern: &str, start: usize, byte: u8) -> Option<(bool, usize)> {
    let bytes = pattern.as_bytes();
    let is_negated = matches!(bytes.get(start), Some(b'!' | b'^'));
    let first = start.saturating_add(usize::from(is_negated));
    let mut at = first;
    let mut has = false;
    for _ in start..bytes.len() {
        if at > first && bytes.get(at) == Some(&b']') {
            return Some((has != is_negated, at.saturating_add(1)));
        }
        let (has_byte, after) = member_has(pattern, at, byte)?;
        has = has || has_byte;
        at = after;
    }
    None
}

// Whether the member of a set at this place has this byte, and the place after it: a class as `[:alpha:]`, a range, or
// a byte.
fn member_has(pattern: &str, at: usize, byte: u8) -> Option<(bool, usize)> {
    if let Some((name, after)) = class_at(pattern, at) {
        return Some((class_has(name, byte)?, after));
    }
    let bytes = pattern.as_bytes();
    let (low, after) = literal(pattern, at)?;
    let next = after.saturating_add(1);
    if bytes.get(after) != Some(&b'-') || bytes.get(next) == Some(&b']') {
        return Some((byte == low, after));
    }
    let (high, after) = literal(pattern, next)?;
    Some((byte == low || low <= byte && byte <= high, after))
}

// The byte at a place of a pattern, which a backslash may escape, and the place after it.
fn literal(pattern: &str, at: usize) -> Option<(u8, usize)> {
    let bytes = pattern.as_bytes();
    let after = at.saturating_add(1);
    match *bytes.get(at)? {
        b'\\' => Some((*bytes.get(after)?, after.saturating_add(1))),
        byte => Some((byte, after)),
    }
}

// The name of the class at this place of a set, if there is one, and the place after it.
fn class_at(pattern: &str, at: usize) -> Option<(&str, usize)> {
    let rest = pattern.get(at..)?.strip_prefix("[:")?;
    let (name, others) = rest.split_once(']')?;
    let after = pattern.len().saturating_sub(others.len());
    Some((name.strip_suffix(':')?, after))
}

// Whether the class of this name has the byte; None if there is no such class.
fn class_has(name: &str, byte: u8) -> Option<bool> {
    Some(match name {
        "alnum" => byte.is_ascii_alphanumeric(),
        "alpha" => byte.is_ascii_alphabetic(),
        "blank" => matches!(byte, b' ' | b'\t'),
        "cntrl" => byte.is_ascii_control(),
        "digit" => byte.is_ascii_digit(),
        "graph" => byte.is_ascii_graphic(),
        "lower" => byte.is_ascii_lowercase(),
        "print" => matches!(byte, b' '..=b'~'),
        "punct" => byte.is_ascii_punctuation(),
        "space" => byte.is_ascii_whitespace(),
        "upper" => byte.is_ascii_uppercase(),
        "xdigit" => byte.is_ascii_hexdigit(),
        _ => return None,
    })
}
