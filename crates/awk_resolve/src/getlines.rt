// `getline` as nodes.

ghost use Rattle.std.specs.Prelude.{◌≡◌, IfOk};
ghost use Rattle.awk_grammar.specs.Tree.{Getline, PipedGetline};
ghost use Rattle.awk_grammar.specs.View.{expr_of, optional_expr_of};
ghost use Rattle.awk_resolve.specs.support.Builds.{Stands, Evaluate, EvaluateOptional};
ghost use Rattle.awk_resolve.specs.support.Operands.{source_of};
ghost use Rattle.awk_resolve.specs.support.Scopes.{Builds};

use crate::builder::Builder;
use crate::node::{Source, ValueNode};
use crate::scope::Scope;
use awk_grammar::tree::Expr;
use std::alloc::AllocError;

/// Where `getline` reads from, with this file.
fn source_of(file: &Option<Box<Expr>>) -> Source
    ensures { result ≡ source_of (optional_expr_of file.now) }
{
    match file {
        Some(_) => Source::File,
        None => Source::Main,
    }
}

impl Builder {
    /// `getline`, with its place and its file.
    #[cycle(expressions)]
    pub(crate) fn lower_getline(
        &mut self,
        scope: &Scope,
        place: &Option<Box<Expr>>,
        file: &Option<Box<Expr>>,
        next: u32,
    ) -> Result<u32, AllocError>
        requires { Stands next self.old }
        ensures { IfOk result (λ place'. Builds scope.now self.old self.new place' (Evaluate (Getline (optional_expr_of place.now) (optional_expr_of file.now)) next)) }
    {
        let target = self.optional_place_of(scope, place)?;
        let read = self.push_value(ValueNode::Getline(source_of(file), target), next)?;
        let name = self.lower_optional(scope, file, read)?;
        self.lower_optional_operand(scope, place, name)
    }

    /// `command | getline`
    #[cycle(expressions)]
    pub(crate) fn lower_piped_getline(
        &mut self,
        scope: &Scope,
        command: &Expr,
        place: &Option<Box<Expr>>,
        next: u32,
    ) -> Result<u32, AllocError>
        requires { Stands next self.old }
        ensures { IfOk result (λ place'. Builds scope.now self.old self.new place' (Evaluate (PipedGetline (expr_of command.now) (optional_expr_of place.now)) next)) }
    {
        let target = self.optional_place_of(scope, place)?;
        let read = self.push_value(ValueNode::Getline(Source::Command, target), next)?;
        let operand = self.lower_optional_operand(scope, place, read)?;
        self.lower(scope, command, operand)
    }

    /// The value of an expression is put on the stack, if there is one.
    #[cycle(expressions)]
    pub(crate) fn lower_optional(
        &mut self,
        scope: &Scope,
        e: &Option<Box<Expr>>,
        next: u32,
    ) -> Result<u32, AllocError>
        requires { Stands next self.old }
        ensures { IfOk result (λ place. Builds scope.now self.old self.new place (EvaluateOptional (optional_expr_of e.now) next)) }
    {
        match e {
            Some(e) => self.lower(scope, e, next),
            None => Ok(next),
        }
    }
}
