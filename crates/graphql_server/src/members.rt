//! The members of a message that a client sent, found by their paths.

ghost use Rattle.std.specs.Prelude.{◌≡◌, ◌≢◌, None, Some, IfOk, IfErr, OnOk, MatchOption};
ghost use Rattle.json.specs.Json.{string, array};
ghost use Rattle.json.specs.Find.{get};
ghost use Rattle.json.specs.Value.{value_view, items_view};
ghost use Rattle.graphql_server.specs.Members.{names, value_at, IsLeftOut, IsSize, HasSize, HasText};

use crate::writer::JsonWriter;
use json::Value;
use text_edits::Position;

/// What is wrong with a member.
#[derive(Clone, Copy)]
pub enum Wrong {
    Missing,
    Twice,
    NotObject,
    NotList,
    NotText,
    NotSize,
    NotInteger,
    NotBoolean,
}

impl Wrong {
    fn words(self) -> &'static str {
        match self {
            Wrong::Missing => " is missing",
            Wrong::Twice => " is there twice",
            Wrong::NotObject => " is not an object",
            Wrong::NotList => " is not a list",
            Wrong::NotText => " is not a string",
            Wrong::NotSize => " is not an unsigned integer",
            Wrong::NotInteger => " is not an integer",
            Wrong::NotBoolean => " is not true or false",
        }
    }
}

// The list that an item is in, by its path, and which item it is.
#[derive(Clone, Copy)]
struct Item {
    list: &'static str,
    index: usize,
}

/// A member that is wrong.
#[derive(Clone, Copy)]
pub struct Fault {
    item: Option<Item>,
    path: &'static str,
    wrong: Wrong,
}

impl Fault {
    /// Adds what is wrong to the words of a text: the path of the member, and what is wrong with it.
    pub fn write(self, json: &mut JsonWriter) {
        if let Some(item) = self.item {
            json.words(item.list);
            json.number_in_brackets(item.index);
            if !self.path.is_empty() {
                json.words(".");
            }
        }
        json.words(self.path);
        json.words(self.wrong.words());
    }
}

/// A value of a message, and where it is.
#[derive(Clone, Copy)]
pub struct Member<'v, 'a> {
    value: &'v Value<'a>,
    item: Option<Item>,
    // From the message or the item.
    path: &'static str,
}

impl<'v, 'a> Member<'v, 'a> {
    /// A message itself.
    pub fn of(message: &'v Value<'a>) -> Member<'v, 'a> {
        Member {
            value: message,
            item: None,
            path: "",
        }
    }

    /// The value at a path, as `params.textDocument.uri`, of a message or an item of a list.
    pub fn at(self, path: &'static str) -> Result<Member<'v, 'a>, Fault>
        ensures found { IfOk result (λ member.
            value_at (names path.now) (value_view self.entry.value.now) ≡ Some (value_view member.value.now)) }
        ensures missing { IfErr result (λ fault. fault.wrong ≡ Wrong.Missing →
            value_at (names path.now) (value_view self.entry.value.now) ≡ None) }
    {
        match find(self.value, path) {
            Ok(value) => Ok(Member {
                value,
                item: self.item,
                path,
            }),
            Err(lack) => Err(Fault {
                item: self.item,
                path: path
                    .get(..path.len().saturating_sub(lack.left))
                    .unwrap_or(path),
                wrong: lack.wrong,
            }),
        }
    }

    /// The same, if it is there and not null.
    pub fn get(self, path: &'static str) -> Result<Option<Member<'v, 'a>>, Fault>
        ensures { IfOk result (λ found. MatchOption found (IsLeftOut (value_view self.entry.value.now) (names path.now))
            (λ member. value_at (names path.now) (value_view self.entry.value.now) ≡ Some (value_view member.value.now))) }
    {
        match self.at(path) {
            Ok(member) => Ok(match member.value {
                Value::Null => None,
                _ => Some(member),
            }),
            Err(fault) => match fault.wrong {
                Wrong::Missing => Ok(None),
                _ => Err(fault),
            },
        }
    }

    /// The text at a path.
    pub fn text_at(self, path: &'static str) -> Result<&'a str, Fault>
        ensures { IfOk result (λ text. HasText (value_view self.entry.value.now) (names path.now) text.now) }
    {
        self.at(path)?.text()
    }

    fn fault(self, wrong: Wrong) -> Fault {
        Fault {
            item: self.item,
            path: self.path,
            wrong,
        }
    }

    pub fn text(self) -> Result<&'a str, Fault>
        ensures { IfOk result (λ text. value_view self.entry.value.now ≡ string text.now) }
    {
        match self.value {
            Value::String(text) => Ok(*text),
            _ => Err(self.fault(Wrong::NotText)),
        }
    }

    /// An integer that isn't negative.
    pub fn size(self) -> Result<usize, Fault>
        ensures { IfOk result (λ size. IsSize (value_view self.entry.value.now) size) }
    {
        if let Value::Number(digits) = self.value
            && let Ok(size) = digits.parse::<usize>()
        {
            return Ok(size);
        }
        Err(self.fault(Wrong::NotSize))
    }

    pub fn integer(self) -> Result<i64, Fault> {
        if let Value::Number(digits) = self.value
            && let Ok(integer) = digits.parse::<i64>()
        {
            return Ok(integer);
        }
        Err(self.fault(Wrong::NotInteger))
    }

    pub fn boolean(self) -> Result<bool, Fault> {
        match self.value {
            Value::Bool(value) => Ok(*value),
            _ => Err(self.fault(Wrong::NotBoolean)),
        }
    }

    /// Checks that it is an object.
    pub fn object(self) -> Result<(), Fault> {
        match self.value {
            Value::Object(_) => Ok(()),
            _ => Err(self.fault(Wrong::NotObject)),
        }
    }

    /// The items of a list.
    pub fn items(self) -> Result<&'v [Value<'a>], Fault>
        ensures { IfOk result (λ items. value_view self.entry.value.now ≡ array (items_view items.now)) }
    {
        match self.value {
            Value::Array(items) => Ok(items.as_slice()),
            _ => Err(self.fault(Wrong::NotList)),
        }
    }

    /// An item of this list.
    pub fn item(self, index: usize, value: &'v Value<'a>) -> Member<'v, 'a>
        ensures { result.value.now ≡ value.entry.now }
    {
        Member {
            value,
            item: Some(Item {
                list: self.path,
                index,
            }),
            path: "",
        }
    }

    /// The first text of this list that is one of these; nothing if there is none.
    pub fn first_of(self, known: &[&'static str]) -> Result<Option<&'static str>, Fault> {
        let mut first = None;
        for (index, value) in self.items()?.iter().enumerate() {
            let text = self.item(index, value).text()?;
            for name in known {
                if first.is_none() && *name == text {
                    first = Some(*name);
                }
            }
        }
        Ok(first)
    }
}

/// Members that are read one after another. The first one that is wrong is remembered, and something stands for each that is.
#[derive(Clone, Copy)]
pub struct Reading<'v, 'a> {
    member: Member<'v, 'a>,
    fault: Option<Fault>,
}

impl<'v, 'a> Reading<'v, 'a> {
    /// Of this message or item nothing is read yet.
    pub fn of(member: Member<'v, 'a>) -> Reading<'v, 'a>
        ensures { result.member ≡ member.entry }
    {
        Reading {
            member,
            fault: None,
        }
    }

    /// Fails with the first member that is wrong.
    pub fn check(self) -> Result<(), Fault>
        ensures { OnOk result (self.entry.fault ≡ None) }
    {
        match self.fault {
            None => Ok(()),
            Some(fault) => Err(fault),
        }
    }

    /// What was read, unless it is wrong.
    pub fn taken<T: Copy>(&mut self, read: Result<T, Fault>) -> Option<T>
        ensures same { self.new.member ≡ self.old.member }
        ensures read { self.new.fault ≡ None → (self.old.fault ≡ None) × MatchOption result ⊥ (λ value. read ≡ Ok value) }
    {
        match read {
            Ok(value) => Some(value),
            Err(fault) => {
                self.note(fault);
                None
            }
        }
    }

    fn note(&mut self, fault: Fault)
        ensures same { self.new.member ≡ self.old.member }
        ensures noted { self.new.fault ≢ None }
    {
        self.fault = self.fault.or(Some(fault));
    }

    /// The member at a path.
    pub fn member(&mut self, path: &'static str) -> Option<Member<'v, 'a>>
        ensures same { self.new.member ≡ self.old.member }
        ensures read { self.new.fault ≡ None → (self.old.fault ≡ None) × MatchOption result ⊥
            (λ member. value_at (names path.now) (value_view self.old.member.value.now) ≡ Some (value_view member.value.now)) }
    {
        match self.member.at(path) {
            Ok(member) => Some(member),
            Err(fault) => {
                self.note(fault);
                None
            }
        }
    }

    /// The member at a path, if it is there and not null.
    pub fn optional(&mut self, path: &'static str) -> Option<Member<'v, 'a>>
        ensures same { self.new.member ≡ self.old.member }
        ensures read { self.new.fault ≡ None → (self.old.fault ≡ None) × MatchOption result (IsLeftOut (value_view self.old.member.value.now) (names path.now))
            (λ member. value_at (names path.now) (value_view self.old.member.value.now) ≡ Some (value_view member.value.now)) }
    {
        match self.member.get(path) {
            Ok(member) => member,
            Err(fault) => {
                self.note(fault);
                None
            }
        }
    }

    /// The items of a list.
    pub fn items(&mut self, list: Member<'v, 'a>) -> Option<&'v [Value<'a>]> {
        match list.items() {
            Ok(items) => Some(items),
            Err(fault) => {
                self.note(fault);
                None
            }
        }
    }

    pub fn text(&mut self, path: &'static str) -> &'a str
        ensures same { self.new.member ≡ self.old.member }
        ensures read { self.new.fault ≡ None → (self.old.fault ≡ None) × HasText (value_view self.old.member.value.now) (names path.now) result.now }
    {
        let read = self.member.text_at(path);
        self.taken(read).unwrap_or("")
    }

    /// The text at a path, and an empty one if none is there.
    pub fn optional_text(&mut self, path: &'static str) -> &'a str {
        match self.optional(path) {
            None => "",
            Some(member) => self.taken(member.text()).unwrap_or(""),
        }
    }

    /// Whether it is true, which must be told.
    pub fn boolean(&mut self, path: &'static str) -> bool {
        match self.member(path) {
            None => false,
            Some(member) => self.taken(member.boolean()).unwrap_or(false),
        }
    }

    /// Whether it is there and true.
    pub fn is_true(&mut self, path: &'static str) -> bool {
        match self.optional(path) {
            None => false,
            Some(member) => self.taken(member.boolean()).unwrap_or(false),
        }
    }

    /// Checks that it is an object.
    pub fn object(&mut self, path: &'static str) {
        if let Some(member) = self.member(path) {
            let _ = self.taken(member.object());
        }
    }

    /// Whether it is there, as an object.
    pub fn has(&mut self, path: &'static str) -> bool {
        match self.optional(path) {
            None => false,
            Some(member) => self.taken(member.object()).is_some(),
        }
    }

    fn size(&mut self, path: &'static str) -> usize
        ensures same { self.new.member ≡ self.old.member }
        ensures read { self.new.fault ≡ None → (self.old.fault ≡ None) × HasSize (value_view self.old.member.value.now) (names path.now) result }
    {
        match self.member(path) {
            None => 0,
            Some(member) => self.taken(member.size()).unwrap_or(0),
        }
    }

    /// The position that has its line at one path, and its column at another.
    pub fn position(&mut self, line: &'static str, character: &'static str) -> Position
        ensures same { self.new.member ≡ self.old.member }
        ensures read { self.new.fault ≡ None → (self.old.fault ≡ None) × HasSize (value_view self.old.member.value.now) (names line.now) result.line
            × HasSize (value_view self.old.member.value.now) (names character.now) result.character }
    {
        Position {
            line: self.size(line),
            character: self.size(character),
        }
    }

    /// The first text of the list at a path that is one of these; `instead` if there is no list, and nothing if it has none of them.
    pub fn first_of(
        &mut self,
        path: &'static str,
        known: &[&'static str],
        instead: &'static str,
    ) -> Option<&'static str> {
        match self.optional(path) {
            None => Some(instead),
            Some(list) => self.taken(list.first_of(known))?,
        }
    }
}

// What is wrong with a path, and how many bytes of it are left after the member that is wrong.
#[derive(Clone, Copy)]
struct Lack {
    wrong: Wrong,
    left: usize,
}

// The value at a path.
fn find<'v, 'a>(value: &'v Value<'a>, path: &str) -> Result<&'v Value<'a>, Lack>
    ensures found { IfOk result (λ found. value_at (names path.now) (value_view value.now) ≡ Some (value_view found.now)) }
    ensures missing { IfErr result (λ lack. lack.wrong ≡ Wrong.Missing →
        value_at (names path.now) (value_view value.now) ≡ None) }
{
    match path.split_once('.') {
        None => member_at(value, path, path),
        Some((name, rest)) => match member_at(value, name, path) {
            Ok(member) => find(member, rest),
            Err(lack) => Err(lack),
        },
    }
}

// The member of this name, with which a path begins.
fn member_at<'v, 'a>(value: &'v Value<'a>, name: &str, path: &str) -> Result<&'v Value<'a>, Lack>
    ensures found { IfOk result (λ member. get name.now (value_view value.now) ≡ Some (value_view member.now)) }
    ensures missing { IfErr result (λ lack. lack.wrong ≡ Wrong.Missing → get name.now (value_view value.now) ≡ None) }
{
    match member_of(value, name) {
        Ok(member) => Ok(member),
        Err(wrong) => Err(Lack {
            wrong,
            left: match wrong {
                // The value that has the path, and the dot after it.
                Wrong::NotObject => path.len().saturating_add(1),
                _ => path.len().saturating_sub(name.len()),
            },
        }),
    }
}

// The member of this name. Null has none.
fn member_of<'v, 'a>(value: &'v Value<'a>, name: &str) -> Result<&'v Value<'a>, Wrong>
    ensures found { IfOk result (λ member. get name.now (value_view value.now) ≡ Some (value_view member.now)) }
    ensures missing { IfErr result (λ wrong. wrong ≡ Wrong.Missing → get name.now (value_view value.now) ≡ None) }
{
    let members = match value {
        Value::Object(members) => members,
        Value::Null => return Err(Wrong::Missing),
        _ => return Err(Wrong::NotObject),
    };
    let mut found = None;
    for member in members {
        if member.0 == name {
            if found.is_some() {
                return Err(Wrong::Twice);
            }
            found = Some(&member.1);
        }
    }
    found.ok_or(Wrong::Missing)
}
