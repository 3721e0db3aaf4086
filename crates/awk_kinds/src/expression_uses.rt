// What an expression does with names.

ghost use Rattle.std.specs.Prelude.{◌≡◌, [], ◌∷◌, OnOk, if◌then◌else◌};
ghost use Rattle.awk_grammar.specs.Tree.{Name};
ghost use Rattle.awk_grammar.specs.View.{expr_of, exprs_of, optional_expr_of};
ghost use Rattle.awk_kinds.specs.definitions.Kinds.{split_into, uses_in_expr, uses_in_list, uses_in_arguments, uses_in_optional_expr};
ghost use Rattle.awk_kinds.specs.definitions.NameUses.{makes_array, measures, names_in_argument, names_in_expr, names_in_list, names_in_call, names_in_built_in, names_in_optional_expr};
ghost use Rattle.awk_kinds.specs.declared.uses.NameUse.TheVariants.{NoArray};
ghost use Rattle.awk_kinds.specs.support.Adds.{Adds};

use crate::scope::Scope;
use crate::uses::{NameUse, Uses};
use awk_grammar::tree::Expr;
use awk_lex::token::BuiltIn;
use awk_value::Bytes;
use std::alloc::AllocError;

/// Whether the built-in makes an array of this argument.
fn makes_array(function: BuiltIn, place: usize) -> bool
    ensures { result ≡ makes_array function place }
{
    match function {
        BuiltIn::Split => place == 1,
        _ => false,
    }
}

/// Whether the built-in takes an array at this argument too.
fn measures(function: BuiltIn, place: usize) -> bool
    ensures { result ≡ measures function place }
{
    match function {
        BuiltIn::Length => place == 0,
        _ => false,
    }
}

impl Uses {
    /// The array that `split` makes.
    fn add_split(
        &mut self,
        scope: &Scope,
        function: BuiltIn,
        arguments: &[Expr],
    ) -> Result<(), AllocError>
        ensures { OnOk result (Adds self.old self.new (split_into scope.now function (exprs_of arguments.now)) []) }
    {
        if !makes_array(function, 1) {
            return Ok(());
        }
        let Some(array) = arguments.get(1) else {
            return Ok(());
        };
        match array {
            Expr::Name(name) => self.add_array(scope, name),
            _ => Ok(()),
        }
    }

    /// A bare name is this argument of a built-in.
    fn add_bare(
        &mut self,
        scope: &Scope,
        function: BuiltIn,
        place: usize,
        name: &Bytes,
    ) -> Result<(), AllocError>
        ensures { OnOk result (Adds self.old self.new [] (names_in_argument scope.now function place (Name name.now) (names_in_expr scope.now (Name name.now)))) }
    {
        if makes_array(function, place) {
            return Ok(());
        }
        if measures(function, place) {
            return self.add_measured(scope, name);
        }
        self.add_scalar(scope, name)
    }

    /// This argument of a built-in is no bare name.
    fn add_no_name(&mut self, function: BuiltIn, place: usize) -> Result<(), AllocError>
        ensures { OnOk result (Adds self.old self.new [] (if makes_array function place then NoArray ∷ [] else [])) }
    {
        if makes_array(function, place) {
            self.add_name_use(NameUse::NoArray)?;
        }
        Ok(())
    }

    #[cycle(expressions)]
    pub(crate) fn add_expr(&mut self, scope: &Scope, e: &Expr) -> Result<(), AllocError>
        ensures { OnOk result (Adds self.old self.new (uses_in_expr scope.now (expr_of e.now)) (names_in_expr scope.now (expr_of e.now))) }
    {
        match e {
            Expr::Number(_) | Expr::String(_) | Expr::Ere(_) | Expr::Length => Ok(()),
            Expr::Name(x) => self.add_scalar(scope, x),
            Expr::Element(x, list) => {
                self.add_array(scope, x)?;
                self.add_list(scope, list)
            }
            Expr::Field(e) | Expr::Group(e) | Expr::Unary(_, e) => self.add_expr(scope, e),
            Expr::PreIncrement(_, place) | Expr::PostIncrement(_, place) => {
                self.add_expr(scope, place)
            }
            Expr::Call(function, arguments) => {
                let called = NameUse::Called(function.clone()?, arguments.len());
                self.add_name_use(called)?;
                self.add_arguments(scope, function, arguments)
            }
            Expr::BuiltIn(function, arguments) => {
                self.add_split(scope, *function, arguments)?;
                self.add_built_in(scope, *function, arguments)
            }
            Expr::Getline(place, file) => {
                self.add_optional_expr(scope, place)?;
                self.add_optional_expr(scope, file)
            }
            Expr::PipedGetline(command, place) => {
                self.add_expr(scope, command)?;
                self.add_optional_expr(scope, place)
            }
            Expr::Binary(_, a, b) | Expr::Assign(_, a, b) => {
                self.add_expr(scope, a)?;
                self.add_expr(scope, b)
            }
            Expr::Membership(e, array) => {
                self.add_expr(scope, e)?;
                self.add_array(scope, array)
            }
            Expr::ListMembership(list, array) => {
                self.add_list(scope, list)?;
                self.add_array(scope, array)
            }
            Expr::Conditional(condition, a, b) => {
                self.add_expr(scope, condition)?;
                self.add_expr(scope, a)?;
                self.add_expr(scope, b)
            }
        }
    }

    #[cycle(expressions)]
    pub(crate) fn add_optional_expr(
        &mut self,
        scope: &Scope,
        e: &Option<Box<Expr>>,
    ) -> Result<(), AllocError>
        ensures { OnOk result (Adds self.old self.new (uses_in_optional_expr scope.now (optional_expr_of e.now)) (names_in_optional_expr scope.now (optional_expr_of e.now))) }
    {
        match e {
            Some(e) => self.add_expr(scope, e),
            None => Ok(()),
        }
    }

    #[cycle(expressions)]
    pub(crate) fn add_list(&mut self, scope: &Scope, list: &[Expr]) -> Result<(), AllocError>
        ensures { OnOk result (Adds self.old self.new (uses_in_list scope.now (exprs_of list.now)) (names_in_list scope.now (exprs_of list.now))) }
    {
        for e in list {
            self.add_expr(scope, e)?;
        }
        Ok(())
    }

    /// The arguments of a call.
    #[cycle(expressions)]
    fn add_arguments(
        &mut self,
        scope: &Scope,
        function: &Bytes,
        list: &[Expr],
    ) -> Result<(), AllocError>
        ensures { OnOk result (Adds self.old self.new (uses_in_arguments scope.now function.now 0 (exprs_of list.now)) (names_in_call scope.now function.now 0 (exprs_of list.now))) }
    {
        for (i, e) in list.iter().enumerate() {
            if let Expr::Name(x) = e {
                self.add_passed(scope, x, function, i)?;
            } else {
                self.add_name_use(NameUse::Computed(function.clone()?, i))?;
                self.add_expr(scope, e)?;
            }
        }
        Ok(())
    }

    /// The arguments of a built-in, but for the array that `split` makes.
    #[cycle(expressions)]
    fn add_built_in(
        &mut self,
        scope: &Scope,
        function: BuiltIn,
        list: &[Expr],
    ) -> Result<(), AllocError>
        ensures { OnOk result (Adds self.old self.new (uses_in_list scope.now (exprs_of list.now)) (names_in_built_in scope.now function 0 (exprs_of list.now))) }
    {
        for (i, e) in list.iter().enumerate() {
            if let Expr::Name(x) = e {
                self.add_bare(scope, function, i, x)?;
            } else {
                self.add_no_name(function, i)?;
                self.add_expr(scope, e)?;
            }
        }
        Ok(())
    }
}
