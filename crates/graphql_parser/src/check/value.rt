//! Values: one loop over the lists and objects that are open, of which only the kind is kept.
ghost use Rattle.std.specs.Prelude.{◌≡◌, ◌+◌, ◌<◌, ◌≤◌, pred, [], ◌∷◌, ◌++◌, length, option_map, IfNone};
ghost use Rattle.std.specs.Option.{option_to_list};
ghost use Rattle.graphql_parser.specs.Checked.{Checks, Calm};
ghost use Rattle.graphql_parser.specs.Levels.{opens, end_at, met, step_at};
ghost use Rattle.graphql_grammar.specs.reading.OpenValues.{enter_at, open_rest};
ghost use Rattle.graphql_grammar.specs.reading.Values.{value_at};
ghost use Rattle.graphql_reading.specs.reading.Given.{Gives};

pub mod simple;

use arrayvec::ArrayVec;
use graphql_reading::limits::Limits;
use graphql_reading::parser::{Parser, Reading, Refusal};
use simple::check_simple;

/// What a step comes to: the end of a list or an object, a value in it, or one that begins in it, which is an object
/// or a list.
#[derive(Clone, Copy)]
pub enum Step {
    Closed,
    Passed,
    Entered(bool),
}

/// The lists and objects that are open, the innermost last: for each whether it is an object.
#[derive(Drop)]
pub struct Levels {
    pub objects: ArrayVec<bool, 256>,
    pub limit: usize,
    ghost few: { limit ≤ 256 },
}

impl Levels {
    /// One level that is open, and how many may be.
    pub fn new(first: bool, limit: usize) -> Levels
        requires { limit ≤ 256 }
        ensures objects { result.objects.items ≡ first ∷ [] }
        ensures limit { result.limit ≡ limit }
    {
        let mut objects = ArrayVec::new();
        objects.push(first);
        Levels { objects, limit }
    }

    /// Whether the innermost is an object, if one is open.
    pub fn pop(&mut self) -> Option<bool>
        ensures objects { self.old.objects.items ≡ self.new.objects.items ++ option_to_list result }
        ensures none { IfNone result (self.old.objects.items ≡ []) }
        ensures limit { self.new.limit ≡ self.old.limit }
    {
        self.objects.pop()
    }

    /// How many levels may open inside one more.
    pub fn left(&self) -> usize
        requires { length self.now.objects.items < self.now.limit }
        ensures { result + length self.now.objects.items + 1 ≡ self.now.limit }
    {
        self.limit - self.objects.len() - 1
    }

    /// Opens a level.
    pub fn push(&mut self, object: bool)
        requires { length self.old.objects.items < self.old.limit }
        ensures objects { self.new.objects.items ≡ self.old.objects.items ++ object ∷ [] }
        ensures limit { self.new.limit ≡ self.old.limit }
    {
        self.objects.push(object);
    }
}

/// A list or an object that begins here, where so many levels are left: whether it is an object.
///
/// `('[' | '{')?`
fn enter(parser: &mut Parser, left: usize) -> Reading<Option<bool>>
    ensures gives { Gives (option_map opens) result parser.old parser.new (enter_at left) }
    ensures calm { Calm parser.old parser.new }
{
    let list = parser.is_at_punct("[");
    let object = !list && parser.is_at_punct("{");
    if !list && !object {
        return Ok(None);
    }
    if left == 0 {
        return Err(Refusal::Limit);
    }
    parser.advance();
    Ok(Some(object))
}

/// The end of a list or an object, or else what stands before its next value.
///
/// `']' | '}' | (Name ':')?`
fn ends(parser: &mut Parser, object: bool) -> Reading<bool>
    ensures gives { Gives (λ ended. ended) result parser.old parser.new (end_at object) }
    ensures calm { Calm parser.old parser.new }
{
    if !object {
        return Ok(parser.take_punct("]"));
    }
    if parser.take_punct("}") {
        return Ok(true);
    }
    parser.expect_name()?;
    parser.expect_punct(":")?;
    Ok(false)
}

/// One step inside a list or an object, where so many levels are left.
#[inline(always)]
pub fn step_in(parser: &mut Parser, vars: bool, object: bool, left: usize) -> Reading<Step>
    ensures gives { Gives met result parser.old parser.new (step_at vars left object) }
    ensures calm { Calm parser.old parser.new }
{
    if ends(parser, object)? {
        return Ok(Step::Closed);
    }
    match enter(parser, left)? {
        None => {
            check_simple(parser, vars)?;
            Ok(Step::Passed)
        }
        Some(inner) => Ok(Step::Entered(inner)),
    }
}

/// The rest of a list or an object after its first token.
fn check_open(parser: &mut Parser, vars: bool, first: bool, limit: usize) -> Reading<()>
    requires some { 0 < limit }
    requires few { limit ≤ 256 }
    ensures checks { Checks result parser.old parser.new (open_rest vars (pred limit) (opens first)) }
    ensures calm { Calm parser.old parser.new }
{
    let mut levels = Levels::new(first, limit);
    while let Some(object) = levels.pop() {
        match step_in(parser, vars, object, levels.left())? {
            Step::Closed => {}
            Step::Passed => levels.push(object),
            Step::Entered(inner) => {
                levels.push(object);
                levels.push(inner);
            }
        }
    }
    Ok(())
}

/// Reads a value (GraphQL October 2021, section 2.9), with variables or without. It stands at its first token.
///
/// `Value : Variable | IntValue | FloatValue | StringValue | BooleanValue | NullValue | EnumValue | ListValue |
/// ObjectValue`
pub fn check_value(parser: &mut Parser, vars: bool, limits: Limits) -> Reading<()>
    ensures checks { Checks result parser.old parser.new (value_at vars limits.values) }
    ensures calm { Calm parser.old parser.new }
{
    let limit = limits.values();
    match enter(parser, limit)? {
        None => check_simple(parser, vars),
        Some(first) => check_open(parser, vars, first, limit),
    }
}
