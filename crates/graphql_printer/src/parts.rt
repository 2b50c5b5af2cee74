//! Values, types, arguments and directives, printed as tokens.
ghost use Rattle.std.specs.Prelude.{◌≡◌, ◌++◌, [], ◌∷◌, List, codes, flat_map, map, option_map, true};
ghost use Rattle.graphql_syntax.specs.calls.Words.{operation_word as operation_word_of};
ghost use Rattle.graphql_syntax.specs.calls.Views.{view_tree, list_items, object_fields};
ghost use Rattle.graphql_syntax.specs.trees.Parts.{placed};
ghost use Rattle.graphql_syntax.specs.trees.PartViews.{directive_tree, const_directive_tree};
ghost use Rattle.graphql_syntax.specs.trees.TypeTree.{base_tree, type_tree};
ghost use Rattle.graphql_syntax.specs.trees.ValueText.{word_of};
ghost use Rattle.graphql_syntax.specs.trees.ValueTree.{trees_of, fields_of};
ghost use Rattle.graphql_syntax.specs.trees.ValueViews.{value_tree, const_tree};
ghost use Rattle.graphql_printer.specs.inner.Prints.{Prints, form};
ghost use Rattle.graphql_printer.specs.inner.Shown.{sign as sign_token, word as word_token, literal, quoted, shown_value, shown_items, shown_fields, shown_mark, shown_type, argument_by, shown_argument_by, shown_arguments_by, shown_default, shown_directive, shown_part};

use crate::nodes::{Outcome, Print, apart, begin_member, close, open, sign, word};
use crate::writer::Writer;
use graphql_syntax::types::{BaseType, ConstDirective, Directive, OperationType, Type};
use graphql_syntax::value::{ConstValue, ListView, Name, Number, ObjectView, Value, ValueView};
use graphql_tokens::lexer::TokenKind;
use graphql_tokens::pos::Positioned;

impl Print for Value {
    ghost form = { form value_tree shown_value };

    fn print(&self, out: &mut Writer) -> Outcome {
        print_value(out, &self.as_view())
    }
}

impl Print for ConstValue {
    ghost form = { form const_tree shown_value };

    fn print(&self, out: &mut Writer) -> Outcome {
        print_value(out, &self.as_view())
    }
}

/// The keyword of a kind of operation.
pub fn operation_word(kind: OperationType) -> &'static str
    ensures { result.now ≡ operation_word_of kind }
{
    match kind {
        OperationType::Query => "query",
        OperationType::Mutation => "mutation",
        OperationType::Subscription => "subscription",
    }
}

// A number, by its literal.
#[tactic(auto, using(crate::proofs::Spellings::number_spells))]
fn print_number(out: &mut Writer, number: &Number) -> Outcome
    ensures { Prints result out.old out.new
        (literal number.now ∷ []) }
{
    out.token(TokenKind::Number, number.as_str())
}

/// The string that stands for a text.
pub fn print_string(out: &mut Writer, text: &str) -> Outcome
    ensures { Prints result out.old out.new (quoted text.now ∷ []) }
{
    out.string(text)
}

fn print_variable(out: &mut Writer, name: &Name) -> Outcome
    ensures { Prints result out.old out.new
        (sign_token "$" ∷ word_token name.now ∷ []) }
{
    sign(out, "$")?;
    word(out, name.as_str())
}

fn print_boolean(out: &mut Writer, value: bool) -> Outcome
    ensures { Prints result out.old out.new
        (word_token (word_of value) ∷ []) }
{
    if value {
        return word(out, "true");
    }
    word(out, "false")
}

#[cycle(value)]
fn print_value(out: &mut Writer, value: &ValueView<'_>) -> Outcome
    ensures { Prints result out.old out.new
        (shown_value (view_tree value.now)) }
{
    match value {
        ValueView::Variable(name) => print_variable(out, name),
        ValueView::Null => word(out, "null"),
        ValueView::Number(number) => print_number(out, number),
        ValueView::String(text) => print_string(out, text),
        ValueView::Boolean(value) => print_boolean(out, *value),
        ValueView::Enum(name) => word(out, name.as_str()),
        ValueView::List(items) => {
            sign(out, "[")?;
            print_items(out, items)
        }
        ValueView::Object(fields) => {
            sign(out, "{")?;
            print_fields(out, fields)
        }
    }
}

// The items of a list, and what closes it.
#[cycle(value)]
fn print_items(out: &mut Writer, items: &ListView<'_>) -> Outcome
    ensures { Prints result out.old out.new
        (shown_items (trees_of (list_items items.now)) ++ sign_token "]" ∷ []) }
{
    let mut is_first = true;
    for item in items.iter() {
        begin_member(out, is_first, false)?;
        print_value(out, &item)?;
        is_first = false;
    }
    sign(out, "]")
}

// The fields of an object, and what closes it.
#[cycle(value)]
fn print_fields(out: &mut Writer, fields: &ObjectView<'_>) -> Outcome
    ensures { Prints result out.old out.new
        (shown_fields (fields_of (object_fields fields.now)) ++ sign_token "}" ∷ []) }
{
    let mut is_first = true;
    for (name, value) in fields.iter() {
        begin_member(out, is_first, false)?;
        print_field(out, name, &value)?;
        is_first = false;
    }
    sign(out, "}")
}

#[cycle(value)]
fn print_field(out: &mut Writer, name: &Name, value: &ValueView<'_>) -> Outcome
    ensures { Prints result out.old out.new
        (word_token name.now ∷ sign_token ":" ∷ shown_value (view_tree value.now)) }
{
    word(out, name.as_str())?;
    sign(out, ":")?;
    out.blank()?;
    print_value(out, value)
}

impl Print for Type {
    ghost form = { form type_tree shown_type };

    fn print(&self, out: &mut Writer) -> Outcome {
        print_type(out, self)
    }
}

#[cycle(types)]
fn print_type(out: &mut Writer, ty: &Type) -> Outcome
    ensures { Prints result out.old out.new
        (shown_type (type_tree ty.now)) }
{
    print_base(out, &ty.base)?;
    print_mark(out, ty.nullable)
}

#[cycle(types)]
fn print_base(out: &mut Writer, base: &BaseType) -> Outcome
    ensures { Prints result out.old out.new
        (shown_type (base_tree base.now true)) }
{
    match base {
        BaseType::Named(name) => word(out, name.as_str()),
        BaseType::List(inner) => {
            sign(out, "[")?;
            print_type(out, inner)?;
            sign(out, "]")
        }
    }
}

fn print_mark(out: &mut Writer, nullable: bool) -> Outcome
    ensures { Prints result out.old out.new (shown_mark nullable) }
{
    if nullable {
        return Ok(());
    }
    sign(out, "!")
}

/// Arguments in their parentheses, a line each if these are broken over lines; nothing for none.
pub fn print_arguments<V: Print>(
    out: &mut Writer,
    arguments: &Vec<(Positioned<Name>, Positioned<V>)>,
    is_broken: bool,
) -> Outcome
    ensures { Prints result out.old out.new
        (shown_arguments_by V.form.shown (map (argument_by V.form.tree) arguments.now.items)) }
{
    if arguments.is_empty() {
        return Ok(());
    }
    open(out, "(", is_broken)?;
    each_argument(out, arguments, is_broken)?;
    close(out, ")", is_broken)
}

fn each_argument<V: Print>(
    out: &mut Writer,
    arguments: &Vec<(Positioned<Name>, Positioned<V>)>,
    is_broken: bool,
) -> Outcome
    ensures { Prints result out.old out.new
        (flat_map (shown_argument_by V.form.shown)
        (map (argument_by V.form.tree) arguments.now.items)) }
{
    let mut is_first = true;
    for argument in arguments {
        begin_member(out, is_first, is_broken)?;
        print_argument(out, &argument.0, &argument.1)?;
        is_first = false;
    }
    Ok(())
}

fn print_argument<V: Print>(
    out: &mut Writer,
    name: &Positioned<Name>,
    value: &Positioned<V>,
) -> Outcome
    ensures { Prints result out.old out.new
        (shown_argument_by V.form.shown (name.now, placed V.form.tree value.now)) }
{
    word(out, name.node.as_str())?;
    sign(out, ":")?;
    out.blank()?;
    value.node.print(out)
}

impl Print for Directive {
    ghost form = { form directive_tree shown_directive };

    fn print(&self, out: &mut Writer) -> Outcome {
        print_directive(out, &self.name, &self.arguments)
    }
}

impl Print for ConstDirective {
    ghost form = { form const_directive_tree shown_directive };

    fn print(&self, out: &mut Writer) -> Outcome {
        print_directive(out, &self.name, &self.arguments)
    }
}

fn print_directive<V: Print>(
    out: &mut Writer,
    name: &Positioned<Name>,
    arguments: &Vec<(Positioned<Name>, Positioned<V>)>,
) -> Outcome
    ensures { Prints result out.old out.new
        (sign_token "@" ∷ word_token name.now.node ∷ shown_arguments_by V.form.shown
        (map (argument_by V.form.tree) arguments.now.items)) }
{
    out.blank()?;
    sign(out, "@")?;
    word(out, name.node.as_str())?;
    print_arguments(out, arguments, false)
}

/// A default value, where there is one.
pub fn print_default(out: &mut Writer, value: &Option<Positioned<ConstValue>>) -> Outcome
    ensures { Prints result out.old out.new
        (shown_part shown_default (option_map (placed const_tree) value.now)) }
{
    let Some(value) = value else {
        return Ok(());
    };
    apart(out, "=")?;
    value.node.print(out)
}
