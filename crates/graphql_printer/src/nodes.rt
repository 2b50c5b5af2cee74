//! Nodes that are printed as tokens.
ghost use Rattle.std.specs.Prelude.{◌≡◌, ◌∷◌, [], true, List, map, option_map, flat_map};
ghost use Rattle.graphql_tokens.specs.declared.lexer.TokenKind.TheVariants.{Punct};
ghost use Rattle.graphql_syntax.specs.trees.Parts.{placed};
ghost use Rattle.graphql_tokens.specs.tokens.Proper.{Spells};
ghost use Rattle.graphql_printer.specs.inner.Prints.{Prints};
ghost use Rattle.graphql_printer.specs.inner.Words.{is_sign};
ghost use Rattle.graphql_printer.specs.inner.Shown.{word as word_token, shown_between, shown_node, shown_part};
ghost use Rattle.graphql_printer.specs.inner.ShownSchemas.{shown_led};

use crate::writer::Writer;
use graphql_parser::Positioned;
use graphql_tokens::lexer::TokenKind;
use std::alloc::AllocError;

// What a call that prints answers: an error says that memory was refused.
pub type Outcome = Result<(), AllocError>;

/// What is printed as some tokens.
pub trait Print {
    ghost use Rattle.graphql_printer.specs.inner.Prints.{Form};

    /// The tree of a node, and the tokens that a tree is shown by.
    ghost form: { Form Self };

    /// Prints the node.
    fn print(&self, out: &mut Writer) -> Outcome
        ensures { Prints result out.old out.new
            (form.shown (form.tree self.now)) };
}

/// A name or a keyword.
#[inline(always)]
pub fn word(out: &mut Writer, name: &str) -> Outcome
    ensures { Prints result out.old out.new (word_token name.now ∷ []) }
{
    out.word(name)
}

/// A punctuator.
#[inline(always)]
#[tactic(auto, using(crate::proofs::Spellings::sign_spells))]
pub fn sign(out: &mut Writer, sign: &str) -> Outcome
    requires { is_sign sign.now ≡ true }
    ensures { Prints result out.old out.new (record { kind = Punct; spelling = sign.now } ∷ []) }
{
    out.token(TokenKind::Punct, sign)
}

/// A punctuator that stands apart from what is before it and after it.
pub fn apart(out: &mut Writer, mark: &str) -> Outcome
    requires { is_sign mark.now ≡ true }
    ensures { Prints result out.old out.new (record { kind = Punct; spelling = mark.now } ∷ []) }
{
    out.blank()?;
    sign(out, mark)?;
    out.blank()
}

/// What opens a bracket. If the bracket is broken over lines, those are a level deeper.
#[inline(always)]
pub fn open(out: &mut Writer, bracket: &str, is_broken: bool) -> Outcome
    requires { is_sign bracket.now ≡ true }
    ensures { Prints result out.old out.new (record { kind = Punct; spelling = bracket.now } ∷ []) }
{
    sign(out, bracket)?;
    if is_broken {
        out.deepen();
    }
    Ok(())
}

/// What closes a bracket: on a line of its own if the bracket is broken over lines.
#[inline(always)]
pub fn close(out: &mut Writer, bracket: &str, is_broken: bool) -> Outcome
    requires { is_sign bracket.now ≡ true }
    ensures { Prints result out.old out.new (record { kind = Punct; spelling = bracket.now } ∷ []) }
{
    end_members(out, is_broken)?;
    sign(out, bracket)
}

// Ends the last line of a bracket that is broken over lines.
#[inline(always)]
fn end_members(out: &mut Writer, is_broken: bool) -> Outcome
    ensures { out.new ≡ out.old }
{
    if !is_broken {
        return Ok(());
    }
    out.rise();
    out.begin_line()
}

/// Begins a member of a bracket: on a line of its own if the bracket is broken over lines, and else after a comma if there is
/// one before it.
#[inline(always)]
pub fn begin_member(out: &mut Writer, is_first: bool, is_broken: bool) -> Outcome
    ensures { out.new ≡ out.old }
{
    if is_broken {
        out.begin_line()
    } else if is_first {
        Ok(())
    } else {
        out.comma()
    }
}

/// A node, where there is one.
pub fn maybe<N: Print>(out: &mut Writer, node: &Option<Positioned<N>>) -> Outcome
    ensures { Prints result out.old out.new
        (shown_part (shown_node N.form.shown) (option_map (placed N.form.tree) node.now)) }
{
    match node {
        Some(node) => node.node.print(out),
        None => Ok(()),
    }
}

/// Nodes, one after another.
pub fn each<N: Print>(out: &mut Writer, nodes: &Vec<Positioned<N>>) -> Outcome
    ensures { Prints result out.old out.new
        (flat_map (shown_node N.form.shown) (map (placed N.form.tree) nodes.now.items)) }
{
    for node in nodes {
        node.node.print(out)?;
    }
    Ok(())
}

// Nodes that are the members of a bracket.
fn members<N: Print>(out: &mut Writer, nodes: &Vec<Positioned<N>>, is_broken: bool) -> Outcome
    ensures { Prints result out.old out.new
        (flat_map (shown_node N.form.shown) (map (placed N.form.tree) nodes.now.items)) }
{
    let mut is_first = true;
    for node in nodes {
        begin_member(out, is_first, is_broken)?;
        node.node.print(out)?;
        is_first = false;
    }
    Ok(())
}

/// Nodes in parentheses, a line each if these are broken over lines; nothing for none.
pub fn in_parentheses<N: Print>(
    out: &mut Writer,
    nodes: &Vec<Positioned<N>>,
    is_broken: bool,
) -> Outcome
    ensures { Prints result out.old out.new
        (shown_between "(" ")" (shown_node N.form.shown)
        (map (placed N.form.tree) nodes.now.items)) }
{
    if nodes.is_empty() {
        return Ok(());
    }
    open(out, "(", is_broken)?;
    members(out, nodes, is_broken)?;
    close(out, ")", is_broken)
}

/// Nodes in braces, a line each; nothing for none.
pub fn in_braces<N: Print>(out: &mut Writer, nodes: &Vec<Positioned<N>>) -> Outcome
    ensures { Prints result out.old out.new
        (shown_between "{" "}" (shown_node N.form.shown)
        (map (placed N.form.tree) nodes.now.items)) }
{
    if nodes.is_empty() {
        return Ok(());
    }
    out.blank()?;
    open(out, "{", true)?;
    members(out, nodes, true)?;
    close(out, "}", true)
}

/// Nodes after a keyword or a punctuator, with a sign between each two; nothing for none.
pub fn separated<N: Print>(
    out: &mut Writer,
    lead: (TokenKind, &str),
    mark: &str,
    nodes: &Vec<Positioned<N>>,
) -> Outcome
    requires lead { Spells lead.0 lead.1.now }
    requires mark { is_sign mark.now ≡ true }
    ensures { Prints result out.old out.new
        (shown_led (record { kind = lead.entry.0; spelling = lead.entry.1.now }) (record { kind = Punct; spelling = mark.now })
        (shown_node N.form.shown) (map (placed N.form.tree) nodes.now.items)) }
{
    let Some((first, others)) = nodes.split_first() else {
        return Ok(());
    };
    out.blank()?;
    out.token(lead.0, lead.1)?;
    out.blank()?;
    first.node.print(out)?;
    for node in others {
        apart(out, mark)?;
        node.node.print(out)?;
    }
    Ok(())
}
