//! The JSON that is being written, node by node.
ghost use Rattle.std.specs.Prelude.{◌≡◌, [], ◌∷◌, ◌++◌, List, map, option_map, codes, decimal};
ghost use Rattle.std.specs.Str.{IsUtf8};
ghost use Rattle.graphql_parser.specs.trees.Parts.{placed};
ghost use Rattle.graphql_json.specs.inner.Words.{IsWord};
ghost use Rattle.graphql_json.specs.inner.Written.{Adds, pos_tokens, opening, member_tokens, optional_tokens};
ghost use Rattle.graphql_json.specs.nodes.Nodes.{optional, placed_json, placed_list};
ghost use Rattle.json.specs.Json.{string, boolean, member, no_members};
ghost use Rattle.json.specs.Lex.{tokens};
ghost use Rattle.json.specs.Print.{print, token_text};
ghost use Rattle.json.specs.Token.{begin_object, end_object, begin_array, end_array, key as key_token, string as string_token, number as number_token, boolean as boolean_token};
ghost use Rattle.json.specs.Tree.{json_tokens, members_tokens};

use crate::buffer::Buffer;
use crate::escapes::put_escaped;
use crate::place::Place;
use graphql_parser::{Pos, Positioned};
use std::alloc::{AllocError, Global};
use std::marker::Model;

// What a call that writes answers: an error says that memory was refused.
pub type Outcome = Result<(), AllocError>;

/// What is written as an object with a `kind`.
pub trait Node {
    ghost use Rattle.graphql_json.specs.inner.Forms.{Form};

    /// The tree of a node, and the JSON of a tree.
    ghost form: { Form Self };

    /// Writes the node.
    fn write(&self, sheet: &mut Sheet, place: Place) -> Outcome
        ensures { Adds result sheet.old sheet.new
            (json_tokens (form.json place (form.tree self.now))) };
}

/// A text of JSON that is being written: nothing stands before it. Objects and lists are closed by the caller.
///
/// A contract sees the tokens that are written.
#[derive(Drop)]
pub struct Sheet {
    text: Buffer,
    after_value: bool,
}

impl Model for Sheet {
    ghost use Rattle.std.specs.Prelude.{List};
    ghost use Rattle.graphql_json.specs.inner.Sheets.{sheet_view, IsSheet};
    ghost use Rattle.json.specs.Token.{Token, tokens_code};

    ghost Value = { List Token };

    ghost coded = { tokens_code };

    ghost view = { sheet_view };

    ghost invariant = { IsSheet };
}

impl Sheet {
    /// An empty text.
    pub fn new(alloc: Global) -> Sheet
        ensures { result ≡ [] }
    {
        Sheet {
            text: Buffer::new(alloc),
            after_value: false,
        }
    }

    /// The whole text.
    pub fn finish(self) -> Vec<u8>
        ensures text { result.items ≡ print self }
        ensures tokens { tokens result.items ≡ self }
        ensures utf8 { IsUtf8 result.items }
    {
        let Sheet { text, .. } = self;
        text.into_vec()
    }

    /// Opens an object.
    #[inline(always)]
    pub fn open(&mut self) -> Outcome
        ensures { Adds result self.old self.new (begin_object ∷ []) }
    {
        self.text.put(self.after_value, b"{", b"", b"")?;
        self.after_value = false;
        Ok(())
    }

    /// Closes an object.
    #[inline(always)]
    pub fn close(&mut self) -> Outcome
        ensures { Adds result self.old self.new (end_object ∷ []) }
    {
        self.text.put(false, b"}", b"", b"")?;
        self.after_value = true;
        Ok(())
    }

    /// Opens the object of a node: its kind, and its place where it is known and asked for.
    #[inline(always)]
    pub fn begin(&mut self, kind: &str, place: Place) -> Outcome
        requires { IsWord kind.now }
        ensures { Adds result self.old self.new (opening kind.now place) }
    {
        self.text
            .put_opening(self.after_value, kind.as_bytes(), place.shown())?;
        self.after_value = true;
        Ok(())
    }

    /// Opens the object of a node, and writes its description, where it has one, and its name.
    #[inline(always)]
    pub fn begin_described<D: Node, N: Node>(
        &mut self,
        kind: &str,
        place: Place,
        description: &Option<Positioned<D>>,
        name: &Positioned<N>,
    ) -> Outcome
        requires { IsWord kind.now }
        ensures { Adds result self.old self.new
            (opening kind.now place
            ++ optional_tokens (codes "description") (placed_json D.form.json place)
            (option_map (placed D.form.tree) description.now)
            ++ member_tokens (codes "name")
            (placed_json N.form.json place (placed N.form.tree name.now))) }
    {
        self.begin(kind, place)?;
        self.optional("description", description, place)?;
        self.node("name", name, place)
    }

    /// The members `line` and `column`.
    #[inline(always)]
    pub fn pos(&mut self, pos: Pos) -> Outcome
        ensures { Adds result self.old self.new (pos_tokens pos) }
    {
        self.key("line")?;
        self.number(pos.line)?;
        self.key("column")?;
        self.number(pos.column)
    }

    /// The key of a member, whose value is written next.
    #[inline(always)]
    pub fn key(&mut self, key: &str) -> Outcome
        requires { IsWord key.now }
        ensures { Adds result self.old self.new (key_token key.now ∷ []) }
    {
        self.text
            .put(self.after_value, b"\"", key.as_bytes(), b"\":")?;
        self.after_value = false;
        Ok(())
    }

    /// A member that is a text.
    #[inline(always)]
    pub fn text(&mut self, key: &str, text: &str) -> Outcome
        requires { IsWord key.now }
        ensures { Adds result self.old self.new (member_tokens key.now (string text.now)) }
    {
        self.key(key)?;
        self.string(text)
    }

    /// A member that is true or false.
    #[inline(always)]
    pub fn boolean(&mut self, key: &str, value: bool) -> Outcome
        requires { IsWord key.now }
        ensures { Adds result self.old self.new (member_tokens key.now (boolean value)) }
    {
        self.key(key)?;
        self.truth(value)
    }

    /// Opens a member that is a list.
    #[inline(always)]
    pub fn open_list(&mut self, key: &str) -> Outcome
        requires { IsWord key.now }
        ensures { Adds result self.old self.new (key_token key.now ∷ begin_array ∷ []) }
    {
        self.text
            .put(self.after_value, b"\"", key.as_bytes(), b"\":[")?;
        self.after_value = false;
        Ok(())
    }

    /// A member that is a list of nothing.
    #[inline(always)]
    pub fn empty_list(&mut self, key: &str) -> Outcome
        requires { IsWord key.now }
        ensures { Adds result self.old self.new
            (key_token key.now ∷ begin_array ∷ end_array ∷ []) }
    {
        self.text
            .put(self.after_value, b"\"", key.as_bytes(), b"\":[]")?;
        self.after_value = true;
        Ok(())
    }

    /// Closes a list.
    #[inline(always)]
    pub fn close_list(&mut self) -> Outcome
        ensures { Adds result self.old self.new (end_array ∷ []) }
    {
        self.text.put(false, b"]", b"", b"")?;
        self.after_value = true;
        Ok(())
    }

    /// A member that is a node.
    #[inline(always)]
    pub fn node<N: Node>(&mut self, key: &str, node: &Positioned<N>, place: Place) -> Outcome
        requires { IsWord key.now }
        ensures { Adds result self.old self.new
            (member_tokens key.now (placed_json N.form.json place (placed N.form.tree node.now))) }
    {
        self.key(key)?;
        node.node.write(self, place.at(node.pos))
    }

    /// A member that is a node, where there is one.
    #[inline(always)]
    pub fn optional<N: Node>(
        &mut self,
        key: &str,
        node: &Option<Positioned<N>>,
        place: Place,
    ) -> Outcome
        requires { IsWord key.now }
        ensures { Adds result self.old self.new
            (optional_tokens key.now (placed_json N.form.json place)
            (option_map (placed N.form.tree) node.now)) }
    {
        match node {
            Some(node) => self.node(key, node, place),
            None => Ok(()),
        }
    }

    /// A member that is a list of nodes.
    #[inline(always)]
    pub fn nodes<N: Node>(&mut self, key: &str, nodes: &Vec<Positioned<N>>, place: Place) -> Outcome
        requires { IsWord key.now }
        ensures { Adds result self.old self.new
            (member_tokens key.now
            (placed_list N.form.json place (map (placed N.form.tree) nodes.now.items))) }
    {
        if nodes.is_empty() {
            return self.empty_list(key);
        }
        self.open_list(key)?;
        for node in nodes {
            node.node.write(self, place.at(node.pos))?;
        }
        self.close_list()
    }

    /// The last members of a variable or an input value, and what closes the node.
    #[inline(always)]
    pub fn last_typed<T: Node, V: Node, D: Node>(
        &mut self,
        ty: &Positioned<T>,
        default_value: &Option<Positioned<V>>,
        directives: &Vec<Positioned<D>>,
        place: Place,
    ) -> Outcome
        ensures { Adds result self.old self.new
            (members_tokens
            (member (codes "type") (placed_json T.form.json place (placed T.form.tree ty.now))
            (optional (codes "defaultValue") (placed_json V.form.json place)
            (option_map (placed V.form.tree) default_value.now)
            (member (codes "directives")
            (placed_list D.form.json place (map (placed D.form.tree) directives.now.items))
            no_members)))) }
    {
        self.node("type", ty, place)?;
        self.optional("defaultValue", default_value, place)?;
        self.last("directives", directives, place)
    }

    /// The last member of a node, which is a list of nodes, and what closes the node.
    #[inline(always)]
    pub fn last<N: Node>(&mut self, key: &str, nodes: &Vec<Positioned<N>>, place: Place) -> Outcome
        requires { IsWord key.now }
        ensures { Adds result self.old self.new
            (members_tokens
            (member key.now
            (placed_list N.form.json place (map (placed N.form.tree) nodes.now.items))
            no_members)) }
    {
        self.nodes(key, nodes, place)?;
        self.close()
    }

    // A number as a value.
    #[inline(always)]
    fn number(&mut self, number: usize) -> Outcome
        ensures { Adds result self.old self.new (number_token (decimal number) ∷ []) }
    {
        let mut buffer = itoa::Buffer::new();
        let digits = buffer.format(number as u64);
        self.text
            .put(self.after_value, b"", digits.as_bytes(), b"")?;
        self.after_value = true;
        Ok(())
    }

    // A text as a value.
    #[inline(always)]
    fn string(&mut self, text: &str) -> Outcome
        ensures { Adds result self.old self.new (string_token text.now ∷ []) }
    {
        if self
            .text
            .put_plain(self.after_value, b"\"", text.as_bytes(), b"\"")?
        {
            self.after_value = true;
            return Ok(());
        }
        self.escaped(text)
    }

    /// The last member of a node, its `value`, which is a text, and what closes the node.
    #[inline(always)]
    pub fn last_text(&mut self, text: &str) -> Outcome
        ensures { Adds result self.old self.new
            (members_tokens (member (codes "value") (string text.now) no_members)) }
    {
        if self
            .text
            .put_plain(self.after_value, b"\"value\":\"", text.as_bytes(), b"\"}")?
        {
            self.after_value = true;
            return Ok(());
        }
        self.last_escaped(text)
    }

    // The same of a text in which a byte needs an escape.
    #[inline(never)]
    fn last_escaped(&mut self, text: &str) -> Outcome
        ensures { Adds result self.old self.new
            (members_tokens (member (codes "value") (string text.now) no_members)) }
    {
        self.key("value")?;
        self.escaped(text)?;
        self.close()
    }

    // A text as a value, with escapes.
    #[inline(never)]
    fn escaped(&mut self, text: &str) -> Outcome
        ensures { Adds result self.old self.new (string_token text.now ∷ []) }
    {
        put_escaped(&mut self.text, self.after_value, text.as_bytes())?;
        self.after_value = true;
        Ok(())
    }

    // True or false as a value.
    #[inline(always)]
    fn truth(&mut self, value: bool) -> Outcome
        ensures { Adds result self.old self.new (boolean_token value ∷ []) }
    {
        self.text
            .put(self.after_value, b"", truth_word(value).as_bytes(), b"")?;
        self.after_value = true;
        Ok(())
    }
}

// The word of a truth value.
fn truth_word(value: bool) -> &'static str
    ensures { result.now ≡ token_text (boolean_token value) }
{
    if value { "true" } else { "false" }
}
