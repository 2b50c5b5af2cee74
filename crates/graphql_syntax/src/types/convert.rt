//! Directives in which variables may stand to directives in which none does, and back.
ghost use Rattle.std.specs.Prelude.{◌≡◌, MatchOption, IfOk, Ok, None, true, false};
ghost use Rattle.graphql_syntax.specs.calls.Constants.{arguments_have_variable, directive_has_variable};
ghost use Rattle.graphql_syntax.specs.trees.PartViews.{arguments_tree, const_arguments_tree, directive_tree, const_directive_tree};

use super::{ConstDirective, Directive};
use crate::pos::Positioned;
use crate::value::{ConstValue, Name, Value, const_of, holds_variable};
use std::alloc::{AllocError, Global};

impl ConstDirective {
    /// The same directive as one in which variables may stand: the same names, values, order and places.
    /// None stands in it, so that `into_const` of it gives the directive back unless memory runs out.
    ///
    /// Fails only where no memory is left; the directive is then gone.
    #[tactic(auto, using(crate::proofs::Constant::constant_arguments))]
    pub fn into_directive(self, alloc: Global) -> Result<Directive, AllocError>
        ensures value { IfOk result (λ directive. directive_tree directive ≡
            const_directive_tree self) }
        ensures constant { IfOk result (λ directive.
            directive_has_variable (directive_tree directive) ≡ false) }
    {
        let ConstDirective { name, arguments } = self;
        let arguments = arguments_of(arguments, alloc)?;
        Ok(Directive { name, arguments })
    }
}

impl Directive {
    /// The same directive as one without variables, with the same names, values, order and places; None
    /// exactly where a variable stands in one of its arguments at any depth.
    ///
    /// That is found before any memory is taken, so where a variable stands the answer is always
    /// `Ok(None)`. Fails only where no memory is left for a directive without variables. The directive is
    /// gone in each case.
    pub fn into_const(self, alloc: Global) -> Result<Option<ConstDirective>, AllocError>
        ensures variable { directive_has_variable (directive_tree self) ≡ true → result ≡ Ok None }
        ensures value { IfOk result (λ answer. MatchOption answer
            (directive_has_variable (directive_tree self) ≡ true)
            (λ directive. (directive_has_variable (directive_tree self) ≡ false)
            × (const_directive_tree directive ≡ directive_tree self))) }
    {
        if arguments_hold(&self.arguments) {
            return Ok(None);
        }
        let Directive { name, arguments } = self;
        let arguments = const_arguments_of(arguments, alloc)?;
        Ok(Some(ConstDirective { name, arguments }))
    }
}

// Whether a variable stands in one of the arguments at any depth. Takes no memory.
fn arguments_hold(arguments: &Vec<(Positioned<Name>, Positioned<Value>)>) -> bool
    ensures { result ≡ arguments_have_variable (arguments_tree arguments.now.items) }
{
    for argument in arguments {
        if holds_variable(&argument.1.node) {
            return true;
        }
    }
    false
}

// The same arguments as ones in which variables may stand.
fn arguments_of(
    arguments: Vec<(Positioned<Name>, Positioned<ConstValue>)>,
    alloc: Global,
) -> Result<Vec<(Positioned<Name>, Positioned<Value>)>, AllocError>
    ensures { IfOk result (λ made. arguments_tree made.items ≡
        const_arguments_tree arguments.items) }
{
    let mut made = Vec::with_capacity(alloc, arguments.len())?;
    for (name, value) in arguments {
        let Positioned { pos, node } = value;
        let node = node.into_value(alloc)?;
        made.push((name, Positioned { pos, node }))?;
    }
    Ok(made)
}

// The same arguments as ones without variables, where none stands in them.
fn const_arguments_of(
    arguments: Vec<(Positioned<Name>, Positioned<Value>)>,
    alloc: Global,
) -> Result<Vec<(Positioned<Name>, Positioned<ConstValue>)>, AllocError>
    requires { arguments_have_variable (arguments_tree arguments.items) ≡ false }
    ensures { IfOk result (λ made. const_arguments_tree made.items ≡
        arguments_tree arguments.items) }
{
    let mut made = Vec::with_capacity(alloc, arguments.len())?;
    for (name, value) in arguments {
        let Positioned { pos, node } = value;
        let node = const_of(node, alloc)?;
        made.push((name, Positioned { pos, node }))?;
    }
    Ok(made)
}
