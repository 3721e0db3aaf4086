// Calls of a program's functions as nodes.

ghost use Rattle.std.specs.Prelude.{◌≡◌, IfOk, OnErr, None, slice_get};
ghost use Rattle.std.specs.Option.{option_map};
ghost use Rattle.awk_grammar.specs.Tree.{Call};
ghost use Rattle.awk_grammar.specs.View.{expr_of, exprs_of};
ghost use Rattle.awk_resolve.specs.support.Builds.{array_parameters_in, Stands, Evaluate, EvaluateArguments};
ghost use Rattle.awk_resolve.specs.support.Calls.{arrays_called, arrays_of, is_array_at, name_in, roles_from, IsCalled, IsFormOf, AreForms};
ghost use Rattle.awk_resolve.specs.support.Scopes.{Builds};

use crate::builder::Builder;
use crate::node::{ArgumentForm, ValueNode};
use crate::scope::Scope;
use awk_grammar::tree::Expr;
use awk_value::Bytes;
use std::alloc::{AllocError, Global};

/// Whether the parameter at a place is an array. There may be more arguments than parameters.
fn is_array_at(are_arrays: &[bool], place: usize) -> bool
    ensures { result ≡ is_array_at are_arrays.now place }
{
    match are_arrays.get(place) {
        Some(answer) => *answer,
        None => false,
    }
}

/// The name that an expression is, or else the empty one.
pub(crate) fn name_in(e: &Expr) -> &[u8]
    ensures { result.now ≡ name_in (expr_of e.now) }
{
    match e {
        Expr::Name(x) => x.as_slice(),
        _ => b"",
    }
}

/// How an argument is given for a parameter that is an array or isn't.
fn form_of(scope: &Scope, is_array: bool, e: &Expr) -> Result<ArgumentForm, AllocError>
    ensures { IfOk result (λ form. IsFormOf scope.now is_array form (expr_of e.now)) }
{
    if is_array {
        return Ok(ArgumentForm::Array(scope.array_of(name_in(e))?));
    }
    Ok(ArgumentForm::Value)
}

/// How the arguments are given.
fn forms_of(
    alloc: Global,
    scope: &Scope,
    are_arrays: &[bool],
    list: &[Expr],
) -> Result<Vec<ArgumentForm>, AllocError>
    ensures { IfOk result (λ forms. AreForms scope.now are_arrays.now 0 forms.items (exprs_of list.now)) }
{
    let mut forms = Vec::new(alloc);
    for (place, e) in list.iter().enumerate() {
        forms.push(form_of(scope, is_array_at(are_arrays, place), e)?)?;
    }
    Ok(forms)
}

impl Builder {
    /// Whether each parameter of a function is an array, if there is this function.
    fn array_parameters_of(&self, function: u32) -> Option<&[bool]>
        ensures { option_map (λ are_arrays. are_arrays.now) result ≡ slice_get (array_parameters_in self.now) function }
    {
        let are_arrays = self.array_parameters.get(function as usize)?;
        Some(are_arrays.as_slice())
    }

    /// The number of the function of a name, and whether each of its parameters is an array. An `Err` is that there is
    /// none: a program that calls what it doesn't define is refused before it is lowered.
    fn called(&self, scope: &Scope, name: &[u8]) -> Result<(u32, &[bool]), AllocError>
        ensures found { IfOk result (λ called. IsCalled scope.now self.now name.now called.0 called.1.now) }
        ensures missing { OnErr result (arrays_called scope.now self.now name.now ≡ None) }
    {
        let Some(number) = scope.kinds.function(name) else {
            return Err(AllocError);
        };
        let Some(are_arrays) = self.array_parameters_of(number) else {
            return Err(AllocError);
        };
        Ok((number, are_arrays))
    }

    /// Whether the parameter of a function at a place is an array.
    fn takes_array(&self, function: u32, place: usize) -> bool
        ensures { result ≡ is_array_at (arrays_of self.now function) place }
    {
        match self.array_parameters_of(function) {
            Some(are_arrays) => is_array_at(are_arrays, place),
            None => false,
        }
    }

    /// The arguments of a call of a function that aren't arrays are put on the stack, in their order.
    #[cycle(expressions)]
    fn lower_arguments(
        &mut self,
        scope: &Scope,
        function: u32,
        list: &[Expr],
        next: u32,
    ) -> Result<u32, AllocError>
        requires { Stands next self.old }
        ensures { IfOk result (λ place. Builds scope.now self.old self.new place (EvaluateArguments (roles_from 0 (arrays_of self.old function)) (exprs_of list.now) next)) }
    {
        let mut rest = next;
        for i in (0..list.len()).rev() {
            if !self.takes_array(function, i) {
                rest = self.lower(scope, &list[i], rest)?;
            }
        }
        Ok(rest)
    }

    /// A call: its arguments, and then the call itself.
    #[cycle(expressions)]
    pub(crate) fn lower_call(
        &mut self,
        scope: &Scope,
        function: &Bytes,
        list: &[Expr],
        next: u32,
    ) -> Result<u32, AllocError>
        requires { Stands next self.old }
        ensures { IfOk result (λ place. Builds scope.now self.old self.new place (Evaluate (Call function.now (exprs_of list.now)) next)) }
    {
        let (number, are_arrays) = self.called(scope, function.as_slice())?;
        let forms = forms_of(self.alloc, scope, are_arrays, list)?;
        let call = self.push_value(ValueNode::Call(number, forms), next)?;
        self.lower_arguments(scope, number, list, call)
    }
}
