// Where names of a part of a program stand.

ghost use Rattle.std.specs.Prelude.{◌≡◌, IfOk};
ghost use Rattle.awk_grammar.specs.View.{expr_of};
ghost use Rattle.awk_kinds.specs.definitions.Signatures.{place_of, parameter_names};
ghost use Rattle.awk_resolve.specs.support.Builds.{arrays_among, IsArrayOf, NamesArray, FindsVariable};
ghost use Rattle.awk_resolve.specs.support.Calls.{is_array_at};
ghost use Rattle.awk_resolve.specs.support.Scopes.{parameters_of, Measures};

use crate::builder::{Builder, next_number};
use awk_grammar::tree::Expr;
use awk_kinds::{Kinds, Parameters, Special};
use awk_storage::{Array, Variable};
use std::alloc::AllocError;

/// The names of the program that a part stands in, and the parameters of the function that it stands in, if it does.
#[derive(Clone, Copy)]
pub struct Scope<'a> {
    pub kinds: &'a Kinds,
    pub parameters: Option<&'a Parameters>,
}

impl Scope<'_> {
    /// The place of the parameter of a name.
    fn parameter(&self, name: &[u8]) -> Option<u32>
        ensures { result ≡ place_of (parameter_names (parameters_of self.now)) name.now }
    {
        let parameters = self.parameters?;
        parameters.find(name)
    }

    /// Whether the parameter at a place is an array.
    fn is_array_parameter(&self, place: u32) -> bool
        ensures { result ≡ is_array_at (arrays_among (parameters_of self.now)) place }
    {
        let Some(parameters) = self.parameters else {
            return false;
        };
        parameters.is_array(place).unwrap_or(false)
    }
}

impl Builder {
    /// The variable of a name that is used as a scalar.
    ///
    /// # Errors
    ///
    /// Where memory is refused, or 2^32 scalars are there.
    pub(crate) fn variable_of(&mut self, scope: &Scope, name: &[u8]) -> Result<Variable, AllocError>
        ensures { IfOk result (λ v. FindsVariable scope.now.kinds.now (parameters_of scope.now) self.old self.new v name.now) }
    {
        if let Some(place) = scope.parameter(name) {
            return Ok(Variable::Local(place));
        }
        if name == b"NF".as_slice() {
            return Ok(Variable::FieldCount);
        }
        if let Some(special) = Special::named(name) {
            return Ok(Variable::Special(special));
        }
        Ok(Variable::Global(self.slot_of(name)?))
    }
}

impl Scope<'_> {
    /// The array of a name that is used as one.
    ///
    /// # Errors
    ///
    /// Where the program has 2^32 arrays.
    pub fn array_of(&self, name: &[u8]) -> Result<Array, AllocError>
        ensures { IfOk result (λ a. IsArrayOf self.now.kinds.now (parameters_of self.now) a name.now) }
    {
        if let Some(place) = self.parameter(name) {
            return Ok(Array::Local(place));
        }
        match self.kinds.array(name) {
            Some(number) => Ok(Array::Global(number)),
            None => Ok(Array::Global(next_number(self.kinds.array_count())?)),
        }
    }

    /// The array that a name stands for, if it stands for one.
    fn array_named(&self, name: &[u8]) -> Option<Array>
        ensures { NamesArray self.now.kinds.now (parameters_of self.now) result name.now }
    {
        if let Some(place) = self.parameter(name) {
            if self.is_array_parameter(place) {
                return Some(Array::Local(place));
            }
            return None;
        }
        let number = self.kinds.array(name)?;
        Some(Array::Global(number))
    }

    /// The array that the argument of `length` is, if it is a bare name of one. (POSIX awk, String Functions)
    pub(crate) fn measured(&self, e: &Expr) -> Option<Array>
        ensures { Measures self.now result (expr_of e.now) }
    {
        match e {
            Expr::Name(x) => self.array_named(x.as_slice()),
            _ => None,
        }
    }
}
