//! Values as GraphQL text.
ghost use Rattle.std.specs.Prelude.{◌≡◌, ◌<◌, ℕ, List, Some};
ghost use Rattle.std.specs.Char.{digit_char};
ghost use Rattle.std.specs.Fmt.{DisplaysOnOk, DisplaysStyledOnOk, WritesStyledOnOk};
ghost use Rattle.std.specs.Str.{encode_utf8_all};
ghost use Rattle.graphql_tokens.specs.tokens.Edition.{Edition};
ghost use Rattle.graphql_tokens.specs.tokens.Strings.{StringMeans};
ghost use Rattle.graphql_syntax.specs.calls.Views.{view_tree, list_items, object_fields};
ghost use Rattle.graphql_syntax.specs.trees.ValueTree.{list, object, trees_of, fields_of};
ghost use Rattle.graphql_syntax.specs.trees.ValueText.{value_text, string_text, unit_for, content_for, escape_letter as letter_for};
ghost use Rattle.graphql_syntax.specs.trees.ValueViews.{const_tree, value_tree};

use super::view::{ListView, ObjectView, ValueView};
use super::{ConstValue, Value};
use std::fmt;

/// The value as GraphQL writes it (October 2021, section 2.9): `{a: [1, $b]}`, on one line.
///
/// A string stands in quotes. In it `"`, `\` and control characters below U+0020 are escaped, and every other character
/// stands for itself (this project's choice). A width, a precision or another option of the format changes nothing, since
/// what is cut would be another value.
impl fmt::Display for ValueView<'_> {
    ghost output = { λ view. Some (value_text (view_tree view)) };

    ghost styled_output = { λ view _. Some (value_text (view_tree view)) };

    #[tactic(auto, using(crate::proofs::StringTexts::content_means))]
    fn fmt<W: fmt::Write>(&self, f: &mut fmt::Formatter<W>) -> fmt::Result
        ensures writes { DisplaysOnOk W.write_str_gives f.old result
            (Some (value_text (view_tree self.now))) f.new }
        ensures styled { DisplaysStyledOnOk W.write_str_gives f.old result
            (Some (value_text (view_tree self.now))) f.new }
        // What stands between the quotes of a string means its text, in each edition.
        ensures string_back { (edition : Edition) (value : List ℕ) →
            StringMeans edition (content_for value) value }
    {
        write_view(self, f)
    }
}

/// The text of the value, as for [`ValueView`].
impl fmt::Display for Value {
    ghost output = { λ value. Some (value_text (value_tree value)) };

    ghost styled_output = { λ value _. Some (value_text (value_tree value)) };

    fn fmt<W: fmt::Write>(&self, f: &mut fmt::Formatter<W>) -> fmt::Result {
        write_view(&self.as_view(), f)
    }
}

/// The text of the value, as for [`ValueView`].
impl fmt::Display for ConstValue {
    ghost output = { λ value. Some (value_text (const_tree value)) };

    ghost styled_output = { λ value _. Some (value_text (const_tree value)) };

    fn fmt<W: fmt::Write>(&self, f: &mut fmt::Formatter<W>) -> fmt::Result {
        write_view(&self.as_view(), f)
    }
}

#[cycle(write)]
fn write_view<W: fmt::Write>(view: &ValueView<'_>, f: &mut fmt::Formatter<W>) -> fmt::Result
    ensures { WritesStyledOnOk W.write_str_gives f.old result (value_text (view_tree view.now))
        f.new }
{
    match view {
        ValueView::Variable(name) => {
            f.write_str("$")?;
            f.write_str(name.as_str())
        }
        ValueView::Null => f.write_str("null"),
        ValueView::Number(number) => f.write_str(number.as_str()),
        ValueView::String(text) => write_string(text, f),
        ValueView::Boolean(value) => f.write_str(if *value { "true" } else { "false" }),
        ValueView::Enum(name) => f.write_str(name.as_str()),
        ValueView::List(items) => write_list(items, f),
        ValueView::Object(fields) => write_object(fields, f),
    }
}

#[cycle(write)]
fn write_list<W: fmt::Write>(items: &ListView<'_>, f: &mut fmt::Formatter<W>) -> fmt::Result
    ensures { WritesStyledOnOk W.write_str_gives f.old result
        (value_text (list (trees_of (list_items items.now)))) f.new }
{
    f.write_str("[")?;
    let mut before = "";
    for item in items.iter() {
        f.write_str(before)?;
        write_view(&item, f)?;
        before = ", ";
    }
    f.write_str("]")
}

#[cycle(write)]
fn write_object<W: fmt::Write>(fields: &ObjectView<'_>, f: &mut fmt::Formatter<W>) -> fmt::Result
    ensures { WritesStyledOnOk W.write_str_gives f.old result
        (value_text (object (fields_of (object_fields fields.now)))) f.new }
{
    f.write_str("{")?;
    let mut before = "";
    for (name, value) in fields.iter() {
        f.write_str(before)?;
        f.write_str(name.as_str())?;
        f.write_str(": ")?;
        write_view(&value, f)?;
        before = ", ";
    }
    f.write_str("}")
}

// A text as a string in quotes.
fn write_string<W: fmt::Write>(text: &str, f: &mut fmt::Formatter<W>) -> fmt::Result
    ensures { WritesStyledOnOk W.write_str_gives f.old result (string_text text.now) f.new }
{
    f.write_str("\"")?;
    for c in text.chars() {
        write_unit(c, f)?;
    }
    f.write_str("\"")
}

// What stands for a character in a string.
fn write_unit<W: fmt::Write>(c: char, f: &mut fmt::Formatter<W>) -> fmt::Result
    ensures { WritesStyledOnOk W.write_str_gives f.old result (encode_utf8_all (unit_for c)) f.new }
{
    if let Some(letter) = escape_letter(c) {
        f.write_char('\\')?;
        return f.write_char(letter);
    }
    if c < ' ' {
        let code = u32::from(c);
        f.write_str("\\u00")?;
        f.write_char(hex_digit(code / 16))?;
        return f.write_char(hex_digit(code % 16));
    }
    f.write_char(c)
}

// The letter that stands for a character after a backslash, where it has one.
fn escape_letter(c: char) -> Option<char>
    ensures { result ≡ letter_for c }
{
    if c == '"' || c == '\\' {
        Some(c)
    } else if c == '\n' {
        Some('n')
    } else if c == '\r' {
        Some('r')
    } else if c == '\t' {
        Some('t')
    } else if c == '\u{8}' {
        Some('b')
    } else if c == '\u{c}' {
        Some('f')
    } else {
        None
    }
}

fn hex_digit(digit: u32) -> char
    requires { digit < 16 }
    ensures { result ≡ digit_char digit }
{
    char::from_digit(digit, 16).unwrap()
}
