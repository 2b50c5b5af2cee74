//! What strings and block strings mean.

ghost use Rattle.std.specs.Prelude.{◌≡◌, ◌≤◌, ◌<◌, Bool, ◌+◌, [], drop, length, slice_index, IfOk, IfSome, IfNone, IsOk, OnErr, Some, List, ℕ, string_bytes};
ghost use Rattle.std.specs.List.{prefix_len};
ghost use Rattle.std.specs.Str.{chars};
ghost use Rattle.graphql_memory.specs.Memory.{Refused, Takes};
ghost use Rattle.graphql_tokens.specs.tokens.BlockText.{block_value};
ghost use Rattle.graphql_tokens.specs.tokens.Edition.{Former, Current};
ghost use Rattle.graphql_tokens.specs.tokens.Strings.{is_plain as is_plain_char, StringMeans, IsContent};

mod block;
pub(crate) mod escape;
pub(crate) mod runs;

use block::{
    common_indent, first_text, is_plain as is_plain_text, last_text, one_line, push_lines,
};
use escape::escape_at;
use graphql_memory::Memory;
use runs::{Plain, past_run};
use std::alloc::{AllocError, Global};

// The byte at `at`, or 0 past the end.
#[inline(always)]
pub(crate) fn byte(bytes: &[u8], at: usize) -> u8
    ensures { result ≡ slice_index bytes.now at }
{
    if at < bytes.len() { bytes[at] } else { 0 }
}

// Where the first byte from `start` on stands that fails the test, or the end of the bytes.
#[inline(always)]
pub(crate) fn past_while<F: Fn(u8) -> bool>(bytes: &[u8], start: usize, test: F) -> usize
    requires from { start ≤ length bytes.now }
    requires callable { F.IsAlwaysCallable test }
    ensures value { (p : ℕ → Bool) → ((b : ℕ) (r : Bool) → b < 256 → F.post test b r → r ≡ p b) →
        result ≡ start + prefix_len p (drop start bytes.now) }
    ensures within { result ≤ length bytes.now }
{
    let mut at = start;
    while at < bytes.len() && test(bytes[at]) {
        at += 1;
    }
    at
}

// Where the first byte from `start` on stands that isn't plain.
fn past_plain(bytes: &[u8], start: usize) -> usize
    requires { start ≤ length bytes.now }
    ensures value { result ≡ start + prefix_len is_plain_char (drop start bytes.now) }
    ensures within { result ≤ length bytes.now }
{
    past_run::<Plain>(bytes, start)
}

/// The value of a string whose text between the quotes is `content`: each character but `"`, `\`, line
/// feed and carriage return stands for itself, and each escape for the character that it names.
///
/// `None` exactly where the content is no content of a string. It fails only where memory runs out.
///
/// The escapes with one letter and those with four digits are from GraphQL October 2021, section 2.9.4.
/// It is this project's choice that `\u{..}` and surrogate pairs are escapes too, that an escape which names
/// half of a pair is none, and that any character may stand in a string.
pub fn string_value(alloc: Global, content: &str) -> Result<Option<String>, AllocError>
    // What it gives is the value of the content,
    ensures some { IfOk result (λ value.
        IfSome value (λ s. StringMeans Current (chars content.now) (chars (string_bytes s)))) }
    // and the content has no other.
    ensures only { IfOk result (λ value.
        IfSome value
        (λ s. (other : List ℕ) → StringMeans Current (chars content.now) other →
        other ≡ chars (string_bytes s))) }
    ensures none { IfOk result (λ value. IfNone value (¬ IsContent Current (chars content.now))) }
    // What a content meant in the former edition, it means now.
    ensures former { (value : List ℕ) → StringMeans Former (chars content.now) value →
        StringMeans Current (chars content.now) value }
{
    string_value_in(&mut Memory::new(alloc), content)
}

/// As [`string_value`], in this memory.
pub fn string_value_in(memory: &mut Memory, content: &str) -> Result<Option<String>, AllocError>
    // What it gives is the value of the content,
    ensures some { IfOk result (λ value.
        IfSome value (λ s. StringMeans Current (chars content.now) (chars (string_bytes s)))) }
    // and the content has no other.
    ensures only { IfOk result (λ value.
        IfSome value
        (λ s. (other : List ℕ) → StringMeans Current (chars content.now) other →
        other ≡ chars (string_bytes s))) }
    ensures none { IfOk result (λ value. IfNone value (¬ IsContent Current (chars content.now))) }
    // What a content meant in the former edition, it means now.
    ensures former { (value : List ℕ) → StringMeans Former (chars content.now) value →
        StringMeans Current (chars content.now) value }
    ensures takes { Takes (length content.now) memory.old memory.new }
    ensures refused { OnErr result (Refused memory.new) }
{
    let bytes = content.as_bytes();
    let mut at = past_plain(bytes, 0);
    if at == bytes.len() {
        return Ok(Some(memory.text_of(content)?));
    }
    let mut value = memory.text_with_room(content)?;
    memory.push_text(&mut value, &content[..at])?;
    while at < bytes.len() {
        let Some((c, len)) = escape_at(&bytes[at..]) else {
            return Ok(None);
        };
        memory.push_char(&mut value, c)?;
        let start = at + len;
        at = past_plain(bytes, start);
        memory.push_text(&mut value, &content[start..at])?;
    }
    Ok(Some(value))
}

/// The value of a block string whose text between the quotes is `raw`. Each `\"""` stands for `"""`. Lines end
/// at CR LF, LF or CR, and all but the first lose their common indent. Blank lines at the front and at the end
/// go, and the others are joined by line feeds. A line is blank that holds tabs and spaces alone, or nothing.
/// The common indent is the least one of the lines after the first that aren't blank.
///
/// Every text has a value. It fails only where memory runs out, and an empty value takes none.
///
/// GraphQL October 2021, section 2.9.4. It departs in one thing: a blank line that is shorter than the common
/// indent stays as it is (this project's choice).
pub fn block_string_value(alloc: Global, raw: &str) -> Result<String, AllocError>
    ensures value { IfOk result (λ value. chars (string_bytes value) ≡
        block_value (chars raw.now)) }
    // An empty value, as that of white space alone, takes no memory.
    ensures empty { block_value (chars raw.now) ≡ [] → IsOk result }
{
    block_string_value_in(&mut Memory::new(alloc), raw)
}

/// As [`block_string_value`], in this memory.
pub fn block_string_value_in(memory: &mut Memory, raw: &str) -> Result<String, AllocError>
    ensures value { IfOk result (λ value. chars (string_bytes value) ≡
        block_value (chars raw.now)) }
    // An empty value, as that of white space alone, takes no memory.
    ensures empty { block_value (chars raw.now) ≡ [] → IsOk result }
    ensures takes { Takes (length raw.now) memory.old memory.new }
    ensures refused { OnErr result (Refused memory.new) }
{
    let Some(first) = first_text(raw.as_bytes()) else {
        return Ok(memory.empty_text());
    };
    let text = &raw[first..];
    let text = &text[..last_text(text.as_bytes())];
    let is_later = first > 0;
    if let Some(line) = one_line(text, is_later) {
        let mut value = memory.text_with_room(text)?;
        memory.push_text(&mut value, line)?;
        return Ok(value);
    }
    let indent = common_indent(text.as_bytes(), is_later);
    let is_plain = is_plain_text(text.as_bytes());
    if indent == 0 && is_plain {
        return memory.text_of(text);
    }
    let first_indent = if is_later { indent } else { 0 };
    let mut value = memory.text_with_room(text)?;
    push_lines(memory, &mut value, text, first_indent, indent, is_plain)?;
    Ok(value)
}
