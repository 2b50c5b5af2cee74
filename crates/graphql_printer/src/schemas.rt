//! Schema files, printed as tokens.
ghost use Rattle.std.specs.Prelude.{◌≡◌, [], IfOk, option_map, string_bytes};
ghost use Rattle.std.specs.Str.{chars};
ghost use Rattle.graphql_layout.specs.texts.Blocks.{may_be_block as may_be_block_of};
ghost use Rattle.graphql_syntax.specs.trees.Parts.{placed};
ghost use Rattle.graphql_trees.specs.trees.SchemaViews.{definition_tree, directive_definition_tree, enum_value_tree, field_definition_tree, input_value_tree, kind_tree, schema_definition_tree, schema_document_tree, type_definition_tree};
ghost use Rattle.graphql_schemas.specs.grammar.Documents.{document_of};
ghost use Rattle.graphql_schemas.specs.grammar.Schemas.{schemas};
ghost use Rattle.graphql_printer.specs.Controls.{HasClearTokens};
ghost use Rattle.graphql_printer.specs.Printed.{IsPrinted};
ghost use Rattle.graphql_printer.specs.inner.PrintedRoots.{and_then, are_none as are_none_of, goes_before as goes_before_of, shown_maybe_root};
ghost use Rattle.graphql_printer.specs.inner.Prints.{Prints, form};
ghost use Rattle.graphql_printer.specs.inner.Shown.{shown_between};
ghost use Rattle.graphql_printer.specs.inner.ShownSchemas.{Root, shown_text, shown_description, shown_name, shown_input_value, shown_field, shown_enum_value, kind_word as kind_word_of, shown_implements, shown_interfaces, shown_contents, shown_extend, shown_type_definition, with_root, roots_of, shown_root, shown_schema, shown_repeatable, shown_location, shown_directive_definition, shown_definition, shown_file};

use crate::nodes::{
    Outcome, Print, close, each, in_braces, in_parentheses, open, separated, sign, word,
};
use crate::parts::{operation_word, print_default, print_string};
use crate::places::stands_before;
use crate::strings::are_clear;
use crate::writer::Writer;
use graphql_layout::blocks::may_be_block;
use graphql_parser::Positioned;
use graphql_parser::types::{
    DirectiveDefinition, DirectiveLocation, EnumValueDefinition, FieldDefinition,
    InputValueDefinition, OperationType, SchemaDefinition, ServiceDocument, TypeDefinition,
    TypeKind, TypeSystemDefinition,
};
use graphql_parser::value::Name;
use graphql_tokens::lexer::TokenKind;
use std::alloc::{AllocError, Global};

/// The schema file as a text, laid out as [`format_schema`](crate::format_schema) lays out others: its definitions and
/// extensions in their order, the roots of a schema in the order of their places, descriptions as block strings if these keep
/// them and show no control character but tabs and line feeds, and else as strings in quotes, with escapes for control
/// characters. A tree keeps no comments, so there are none.
///
/// If a text has this tree but for places, what is printed has it, too, within the same limits: a tree that is made by hand may
/// have any places. Every other tree is printed as it is; from the first name on that is invalid nothing is laid out, and each
/// token has a blank after it. It fails only where memory runs out.
pub fn print_schema(alloc: Global, document: &ServiceDocument) -> Result<String, AllocError>
    // If the tree is that of a text within some limits but for places, the printed text has the same within them.
    ensures printed { IfOk result (λ s. IsPrinted schemas document_of document.now (string_bytes s)) }
    // Its strings have escapes for control characters, and block strings show none but tabs and line feeds.
    ensures clear { IfOk result (λ s. HasClearTokens schemas document.now (string_bytes s)) }
{
    let mut tokens = Writer::new(alloc);
    print_file(&mut tokens, document)?;
    tokens.finish()
}

// The definitions and extensions in their order.
fn print_file(out: &mut Writer, document: &ServiceDocument) -> Outcome
    ensures { Prints result out.old out.new
        (shown_file (schema_document_tree document.now)) }
{
    for definition in &document.definitions {
        out.begin_definition()?;
        print_definition(out, definition)?;
    }
    Ok(())
}

fn print_definition(out: &mut Writer, definition: &TypeSystemDefinition) -> Outcome
    ensures { Prints result out.old out.new
        (shown_definition (definition_tree definition.now)) }
{
    match definition {
        TypeSystemDefinition::Schema(schema) => print_schema_definition(out, &schema.node),
        TypeSystemDefinition::TypeDef(ty) => print_type_definition(out, &ty.node),
        TypeSystemDefinition::Directive(directive) => print_directive(out, &directive.node),
    }
}

// The keyword of an extension, where it is one.
fn print_extend(out: &mut Writer, is_extension: bool) -> Outcome
    ensures { Prints result out.old out.new
        (shown_extend is_extension) }
{
    if !is_extension {
        return Ok(());
    }
    word(out, "extend")?;
    out.blank()
}

fn print_schema_definition(out: &mut Writer, schema: &SchemaDefinition) -> Outcome
    ensures { Prints result out.old out.new
        (shown_schema (schema_definition_tree schema.now)) }
{
    print_description(out, &schema.description)?;
    print_extend(out, schema.extend)?;
    word(out, "schema")?;
    each(out, &schema.directives)?;
    print_roots(out, schema)
}

// A kind of operation, and the name of the type that it begins at, where there is one.
type Root<'a> = (OperationType, &'a Option<Positioned<Name>>);

type Roots<'a> = (Root<'a>, Root<'a>, Root<'a>);

// The roots in the order of their places; nothing for none.
fn print_roots(out: &mut Writer, schema: &SchemaDefinition) -> Outcome
    ensures { Prints result out.old out.new
        (shown_between "{" "}" shown_root (roots_of (schema_definition_tree schema.now))) }
{
    let roots = ordered_roots(schema);
    if are_none(roots) {
        return Ok(());
    }
    out.blank()?;
    open(out, "{", true)?;
    print_root(out, roots.0)?;
    print_root(out, roots.1)?;
    print_root(out, roots.2)?;
    close(out, "}", true)
}

fn are_none(roots: Roots<'_>) -> bool
    ensures { result ≡ are_none_of roots.entry.0.1.now roots.entry.1.1.now roots.entry.2.1.now }
{
    roots.0.1.is_none() && roots.1.1.is_none() && roots.2.1.is_none()
}

fn ordered_roots(schema: &SchemaDefinition) -> Roots<'_>
    ensures { and_then result.0.0 result.0.1.now
        (and_then result.1.0 result.1.1.now (and_then result.2.0 result.2.1.now []))
        ≡ roots_of (schema_definition_tree schema.now) }
{
    let query = (OperationType::Query, &schema.query);
    let mutation = (OperationType::Mutation, &schema.mutation);
    let subscription = (OperationType::Subscription, &schema.subscription);
    if goes_before(&schema.mutation, &schema.query) {
        with_third(mutation, query, subscription)
    } else {
        with_third(query, mutation, subscription)
    }
}

// The third root goes before the first whose place is larger.
fn with_third<'a>(first: Root<'a>, second: Root<'a>, third: Root<'a>) -> Roots<'a>
    ensures { and_then result.0.0 result.0.1.now
        (and_then result.1.0 result.1.1.now (and_then result.2.0 result.2.1.now []))
        ≡ with_root third.entry.0 third.entry.1.now
        (and_then first.entry.0 first.entry.1.now
        (and_then second.entry.0 second.entry.1.now [])) }
{
    if goes_before(third.1, first.1) {
        (third, first, second)
    } else if goes_before(third.1, second.1) {
        (first, third, second)
    } else {
        (first, second, third)
    }
}

// Whether both are there, and the place of the first is smaller.
fn goes_before(one: &Option<Positioned<Name>>, other: &Option<Positioned<Name>>) -> bool
    ensures { result ≡ goes_before_of one.now other.now }
{
    match (one, other) {
        (Some(one), Some(other)) => stands_before(one.pos, other.pos),
        _ => false,
    }
}

fn print_root(out: &mut Writer, root: Root<'_>) -> Outcome
    ensures { Prints result out.old out.new
        (shown_maybe_root root.entry.0 root.entry.1.now) }
{
    let Some(name) = root.1 else {
        return Ok(());
    };
    out.begin_line()?;
    word(out, operation_word(root.0))?;
    sign(out, ":")?;
    out.blank()?;
    word(out, name.node.as_str())
}

fn print_type_definition(out: &mut Writer, ty: &TypeDefinition) -> Outcome
    ensures { Prints result out.old out.new
        (shown_type_definition (type_definition_tree ty.now)) }
{
    print_description(out, &ty.description)?;
    print_extend(out, ty.extend)?;
    word(out, kind_word(&ty.kind))?;
    out.blank()?;
    word(out, ty.name.node.as_str())?;
    print_interfaces(out, &ty.kind)?;
    each(out, &ty.directives)?;
    print_contents(out, &ty.kind)
}

fn kind_word(kind: &TypeKind) -> &'static str
    ensures { result.now ≡ kind_word_of (kind_tree kind.now) }
{
    match kind {
        TypeKind::Scalar => "scalar",
        TypeKind::Object(_) => "type",
        TypeKind::Interface(_) => "interface",
        TypeKind::Union(_) => "union",
        TypeKind::Enum(_) => "enum",
        TypeKind::InputObject(_) => "input",
    }
}

fn print_interfaces(out: &mut Writer, kind: &TypeKind) -> Outcome
    ensures { Prints result out.old out.new
        (shown_interfaces (kind_tree kind.now)) }
{
    match kind {
        TypeKind::Object(object) => print_implements(out, &object.implements),
        TypeKind::Interface(interface) => print_implements(out, &interface.implements),
        _ => Ok(()),
    }
}

fn print_implements(out: &mut Writer, names: &Vec<Positioned<Name>>) -> Outcome
    ensures { Prints result out.old out.new
        (shown_implements names.now.items) }
{
    separated(out, (TokenKind::Name, "implements"), "&", names)
}

// What stands after the directives of a type.
fn print_contents(out: &mut Writer, kind: &TypeKind) -> Outcome
    ensures { Prints result out.old out.new
        (shown_contents (kind_tree kind.now)) }
{
    match kind {
        TypeKind::Scalar => Ok(()),
        TypeKind::Object(object) => in_braces(out, &object.fields),
        TypeKind::Interface(interface) => in_braces(out, &interface.fields),
        TypeKind::Union(union) => separated(out, (TokenKind::Punct, "="), "|", &union.members),
        TypeKind::Enum(values) => in_braces(out, &values.values),
        TypeKind::InputObject(input) => in_braces(out, &input.fields),
    }
}

fn print_description(out: &mut Writer, description: &Option<Positioned<String>>) -> Outcome
    ensures { Prints result out.old out.new
        (shown_description (option_map (placed string_bytes) description.now)) }
{
    let Some(text) = description else {
        return Ok(());
    };
    print_text(out, text.node.as_str())?;
    out.begin_line()
}

// A text as a block string if that keeps it and shows no control character but tabs and line feeds, and else in quotes.
fn print_text(out: &mut Writer, text: &str) -> Outcome
    ensures { Prints result out.old out.new (shown_text text.now) }
{
    if !is_in_block(text) || !are_clear(text) {
        return print_string(out, text);
    }
    out.block(text)
}

fn is_in_block(text: &str) -> bool
    ensures { result ≡ may_be_block_of (chars text.now) }
{
    !text.is_empty() && may_be_block(text)
}

// Whether one of the arguments has a description.
fn are_described(arguments: &Vec<Positioned<InputValueDefinition>>) -> bool {
    arguments
        .iter()
        .any(|argument| argument.node.description.is_some())
}

impl Print for Name {
    ghost form = { form (λ name. name) shown_name };

    fn print(&self, out: &mut Writer) -> Outcome {
        word(out, self.as_str())
    }
}

impl Print for FieldDefinition {
    ghost form = { form field_definition_tree shown_field };

    fn print(&self, out: &mut Writer) -> Outcome {
        print_description(out, &self.description)?;
        word(out, self.name.node.as_str())?;
        in_parentheses(out, &self.arguments, are_described(&self.arguments))?;
        sign(out, ":")?;
        out.blank()?;
        self.ty.node.print(out)?;
        each(out, &self.directives)
    }
}

impl Print for InputValueDefinition {
    ghost form = { form input_value_tree shown_input_value };

    fn print(&self, out: &mut Writer) -> Outcome {
        print_description(out, &self.description)?;
        word(out, self.name.node.as_str())?;
        sign(out, ":")?;
        out.blank()?;
        self.ty.node.print(out)?;
        print_default(out, &self.default_value)?;
        each(out, &self.directives)
    }
}

impl Print for EnumValueDefinition {
    ghost form = { form enum_value_tree shown_enum_value };

    fn print(&self, out: &mut Writer) -> Outcome {
        print_description(out, &self.description)?;
        word(out, self.value.node.as_str())?;
        each(out, &self.directives)
    }
}

fn print_directive(out: &mut Writer, directive: &DirectiveDefinition) -> Outcome
    ensures { Prints result out.old out.new
        (shown_directive_definition (directive_definition_tree directive.now)) }
{
    print_description(out, &directive.description)?;
    word(out, "directive")?;
    out.blank()?;
    sign(out, "@")?;
    word(out, directive.name.node.as_str())?;
    in_parentheses(
        out,
        &directive.arguments,
        are_described(&directive.arguments),
    )?;
    print_repeatable(out, directive.is_repeatable)?;
    separated(out, (TokenKind::Name, "on"), "|", &directive.locations)
}

fn print_repeatable(out: &mut Writer, is_repeatable: bool) -> Outcome
    ensures { Prints result out.old out.new
        (shown_repeatable is_repeatable) }
{
    if !is_repeatable {
        return Ok(());
    }
    out.blank()?;
    word(out, "repeatable")
}

impl Print for DirectiveLocation {
    ghost form = { form (λ location. location) shown_location };

    fn print(&self, out: &mut Writer) -> Outcome {
        word(out, self.as_str())
    }
}
