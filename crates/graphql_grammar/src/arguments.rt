//! Readers of arguments, directives and default values, by GraphQL October 2021, sections 2.6, 2.10 and 2.12.
ghost use Rattle.std.specs.Prelude.{◌≡◌, true, false, option_map};
ghost use Rattle.graphql_tokens.specs.declared.pos.Positioned.{Positioned};
ghost use Rattle.graphql_syntax.specs.trees.Parts.{placed};
ghost use Rattle.graphql_syntax.specs.trees.Parts as trees;
ghost use Rattle.graphql_syntax.specs.trees.PartViews.{directive_tree, const_directive_tree};
ghost use Rattle.graphql_syntax.specs.trees.ValueViews.{const_tree};
ghost use Rattle.graphql_grammar.specs.reading.ArgumentViews.{in_argument};
ghost use Rattle.graphql_grammar.specs.reading.Arguments.{argument_at, maybe_arguments_at, directive_at, directives_at, maybe_default_at};
ghost use Rattle.graphql_reading.specs.grammar.Relations.{given};
ghost use Rattle.graphql_reading.specs.grammar.Tests.{any_name, punct};
ghost use Rattle.graphql_reading.specs.reading.Funds.{Pays};
ghost use Rattle.graphql_reading.specs.reading.Given.{Gives, trees_in};
ghost use Rattle.graphql_reading.specs.reading.Outcome.{mapped_at};

use crate::value::read_value;
use graphql_reading::limits::Limits;
use graphql_reading::names::read_name;
use graphql_reading::parser::{Parser, Reading};
use graphql_reading::production::{Production, any_number, maybe_bracketed};
use graphql_syntax::pos::Positioned;
use graphql_syntax::types::{ConstDirective, Directive};
use graphql_syntax::value::{ConstValue, Literal, Name, Value};
use std::marker::PhantomData;

type Arguments<V> = Vec<(Positioned<Name>, Positioned<V>)>;

/// A type of directives, whose arguments have values of the type `V`.
trait DirectiveNode<V: Literal>: Drop {
    // What a directive stands for.
    ghost tree: { Self → trees.Directive };

    /// The directive of this name, with these arguments.
    fn new(name: Positioned<Name>, arguments: Arguments<V>) -> Self
        ensures { Self.tree result ≡
            record { name = name; arguments = trees_in (in_argument V.tree) arguments } };
}

impl DirectiveNode<Value> for Directive {
    ghost tree = { directive_tree };

    fn new(name: Positioned<Name>, arguments: Arguments<Value>) -> Directive
        ensures { result ≡ record { name = name; arguments = arguments } }
    {
        Directive { name, arguments }
    }
}

impl DirectiveNode<ConstValue> for ConstDirective {
    ghost tree = { const_directive_tree };

    fn new(name: Positioned<Name>, arguments: Arguments<ConstValue>) -> ConstDirective
        ensures { result ≡ record { name = name; arguments = arguments } }
    {
        ConstDirective { name, arguments }
    }
}

/// `Argument : Name ':' Value`, with values of the type `V`.
struct ArgumentPhrase<V>(PhantomData<V>);

impl<V: Literal> Production for ArgumentPhrase<V> {
    type Node = (Positioned<Name>, Positioned<V>);

    ghost Tree = { trees.Argument };

    ghost tree = { in_argument V.tree };

    ghost first = { any_name };

    ghost spare = { 512 };

    ghost reader = { λ limits. argument_at V.VARIABLES limits.values };

    const ROOM: usize = 2;

    #[inline(always)]
    fn is_next(parser: &Parser) -> bool {
        parser.is_at_name()
    }

    fn read(parser: &mut Parser, limits: Limits) -> Reading<(Positioned<Name>, Positioned<V>)> {
        let name = read_name(parser)?;
        parser.expect_punct(":")?;
        let value = read_value(parser, limits)?;
        Ok((name, value))
    }
}

/// Reads arguments with their brackets, in source order, if the lookahead is a `(`; else there are none.
///
/// `Arguments? : ('(' Argument+ ')')?` (GraphQL October 2021, section 2.6)
// Most fields have none: so the bracket is tested before the call.
#[tactic(auto, unfolding(graphql_reading::specs::reading::Outcome::opt_at))]
#[inline(always)]
pub fn read_arguments<V: Literal>(parser: &mut Parser, limits: Limits) -> Reading<Arguments<V>>
    ensures gives { Gives (trees_in (in_argument V.tree)) result parser.old parser.new
        (mapped_at given (maybe_arguments_at V.VARIABLES limits.values)) }
    ensures pays { Pays 0 result parser.old parser.new }
{
    if !parser.is_at_punct("(") {
        return Ok(parser.empty_list());
    }
    maybe_bracketed::<ArgumentPhrase<V>>(parser, "(", ")", limits)
}

/// `Directive : '@' Name Arguments?`, as a node of the type `D`, with values of the type `V`.
struct DirectivePhrase<D, V>(PhantomData<(D, V)>);

impl<D: DirectiveNode<V>, V: Literal> Production for DirectivePhrase<D, V> {
    type Node = Positioned<D>;

    ghost Tree = { Positioned trees.Directive };

    ghost tree = { placed D.tree };

    ghost first = { punct "@" };

    ghost spare = { 512 };

    ghost reader = { λ limits. directive_at V.VARIABLES limits.values };

    #[inline(always)]
    fn is_next(parser: &Parser) -> bool {
        parser.is_at_punct("@")
    }

    #[inline(never)]
    fn read(parser: &mut Parser, limits: Limits) -> Reading<Positioned<D>> {
        let sign = parser.expect_punct("@")?;
        let name = read_name(parser)?;
        let arguments = read_arguments::<V>(parser, limits)?;
        Ok(Positioned::new(D::new(name, arguments), sign.pos))
    }
}

/// Reads directives, as long as the lookahead is an `@`, in source order.
///
/// `Directives? : Directive*` (GraphQL October 2021, section 2.12)
#[inline(always)]
pub fn read_directives(parser: &mut Parser, limits: Limits) -> Reading<Vec<Positioned<Directive>>>
    ensures gives { Gives (trees_in (placed directive_tree)) result parser.old parser.new
        (directives_at true limits.values) }
    ensures pays { Pays 0 result parser.old parser.new }
{
    any_number::<DirectivePhrase<Directive, Value>>(parser, limits)
}

/// As [`read_directives`], without variables.
pub fn read_const_directives(
    parser: &mut Parser,
    limits: Limits,
) -> Reading<Vec<Positioned<ConstDirective>>>
    ensures gives { Gives (trees_in (placed const_directive_tree)) result parser.old parser.new
        (directives_at false limits.values) }
    ensures pays { Pays 0 result parser.old parser.new }
{
    any_number::<DirectivePhrase<ConstDirective, ConstValue>>(parser, limits)
}

/// Reads a default value after its `=`, if the lookahead is a `=`.
///
/// `DefaultValue? : ('=' Value[Const])?` (GraphQL October 2021, section 2.10)
#[tactic(auto, unfolding(graphql_reading::specs::reading::Outcome::opt_at))]
pub fn read_maybe_default(
    parser: &mut Parser,
    limits: Limits,
) -> Reading<Option<Positioned<ConstValue>>>
    ensures gives { Gives (option_map (placed const_tree)) result parser.old parser.new
        (maybe_default_at limits.values) }
    ensures pays { Pays 0 result parser.old parser.new }
{
    if !parser.take_punct("=") {
        return Ok(None);
    }
    Ok(Some(read_value(parser, limits)?))
}
