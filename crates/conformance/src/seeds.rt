//! How the maps of a request hash: by a seed that each name of a definition changes, where the definitions are many.
use graphql_parser::types::{DocumentOperations, ExecutableDocument, NameMap, NameSeed};
use graphql_parser::value::Name;
use graphql_parser::{IndexMap, parse_query};
use rows::Shown;
use std::alloc::{AllocError, Global};

/// Writes what is said of the seeds of requests with this many definitions.
///
/// - `changed`: whether the seed is the default, and how many of the names change it, if no more than all of them
/// - `found`: how many of the names are found where they stand, in the request and in a clone of it with the same seed
/// - `compared`: how maps compare, one by the default seed and one by that of this digest, with the same names in another
///   order and with other names
pub fn write_seeds(shown: &mut Shown, what: &str, text: &str) {
    match (what, text.parse::<usize>()) {
        ("changed", Ok(count)) => write_changed(shown, count),
        ("found", Ok(count)) => write_found(shown, count),
        ("compared", Ok(digest)) => write_compared(shown, NameSeed::of_digest(digest as u64)),
        _ => shown.word("nothing to say"),
    }
}

fn write_changed(shown: &mut Shown, count: usize) {
    let seed = seed_of(shown.alloc(), count, count);
    shown.word(kind_of(seed));
    if seed != seed_of(shown.alloc(), count, count) {
        shown.word(", another seed for the same names");
    }
    write_others(shown, seed, count);
}

fn kind_of(seed: Option<NameSeed>) -> &'static str {
    match seed {
        None => "two seeds",
        Some(seed) if seed == NameSeed::default() => "the default",
        Some(_) => "a digest",
    }
}

// How many of so many names change this seed.
fn write_others(shown: &mut Shown, seed: Option<NameSeed>, count: usize) {
    let mut others = 0usize;
    for changed in 0..count {
        match seed_of(shown.alloc(), count, changed) {
            None => shown.word(", two seeds"),
            other if other != seed => others = others.saturating_add(1),
            Some(_) => {}
        }
    }
    shown.item(", changed by ", &others);
    shown.word(" names");
}

fn write_found(shown: &mut Shown, count: usize) {
    let mut text = Shown::new(shown.alloc(), true);
    write_request(&mut text, count, count);
    match parse_query(shown.alloc(), text.whole().unwrap_or("")) {
        Ok(document) => write_found_in_both(shown, &document, count),
        Err(_) => shown.word("refused"),
    }
}

fn write_found_in_both(shown: &mut Shown, document: &ExecutableDocument, count: usize) {
    match document.clone() {
        Ok(clone) if seed_in(&clone).is_some() && seed_in(&clone) == seed_in(document) => {
            write_found_in(shown, document, &clone, count);
        }
        Ok(_) => shown.word("a clone with another seed"),
        Err(_) => shown.leave_out(),
    }
}

fn write_found_in(
    shown: &mut Shown,
    document: &ExecutableDocument,
    clone: &ExecutableDocument,
    count: usize,
) {
    let mut name = Shown::new(shown.alloc(), true);
    let mut found = 0usize;
    for index in 0..count {
        name.clear();
        name.item("A", &index);
        let line = line_of(document, name.whole().unwrap_or(""));
        let wanted = index.saturating_add(1);
        if line == if index < 2 { None } else { Some(wanted) }
            && line == line_of(clone, name.whole().unwrap_or(""))
        {
            found = found.saturating_add(1);
        }
    }
    shown.item("", &found);
    shown.word(" names");
}

fn line_of(document: &ExecutableDocument, name: &str) -> Option<usize> {
    Some(document.fragment(name)?.pos.line)
}

fn write_compared(shown: &mut Shown, seed: NameSeed) {
    shown.item("default ", &(seed == NameSeed::default()));
    write_is_equal(shown, ", same names ", seed, ["BC", "A"]);
    write_is_equal(shown, ", others ", seed, ["B", "AC"]);
}

// Whether a map by the default seed, of `A` and `BC`, equals that of these names by this seed.
fn write_is_equal(shown: &mut Shown, before: &str, seed: NameSeed, names: [&str; 2]) {
    let mut map = IndexMap::with_hasher(shown.alloc(), NameSeed::default());
    let mut other = IndexMap::with_hasher(shown.alloc(), seed);
    match (put(&mut map, ["A", "BC"]), put(&mut other, names)) {
        (Ok(()), Ok(())) => shown.item(before, &(map == other)),
        _ => shown.leave_out(),
    }
}

// Puts names into a map, in their order.
fn put(map: &mut NameMap<usize>, names: [&str; 2]) -> Result<(), AllocError> {
    for name in names {
        map.insert(Name::new(*map.allocator(), name)?, name.len())?;
    }
    Ok(())
}

// A request of this many definitions: two operations, then fragments. Their names are `A0`, `A1` and so on, but for that
// of one definition, which is `B` and its index.
fn write_request(text: &mut Shown, count: usize, changed: usize) {
    for index in 0..count {
        text.word(if index < 2 { "query " } else { "fragment " });
        text.item(if index == changed { "B" } else { "A" }, &index);
        text.word(if index < 2 {
            " { a }\n"
        } else {
            " on T { a }\n"
        });
    }
}

// The seed of both maps of a request, if it is one.
fn seed_in(document: &ExecutableDocument) -> Option<NameSeed> {
    let seed = *document.fragments.hasher();
    match &document.operations {
        DocumentOperations::Multiple(operations) if *operations.hasher() == seed => Some(seed),
        _ => None,
    }
}

// The seed of a request, if both of its maps have one.
fn seed_of(alloc: Global, count: usize, changed: usize) -> Option<NameSeed> {
    let mut text = Shown::new(alloc, true);
    write_request(&mut text, count, changed);
    match parse_query(alloc, text.whole().unwrap_or("")) {
        Ok(document) => seed_in(&document),
        Err(_) => None,
    }
}
