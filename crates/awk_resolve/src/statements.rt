// Statements as nodes.

ghost use Rattle.std.specs.Prelude.{◌≡◌, IfOk};
ghost use Rattle.awk_grammar.specs.View.{expr_of, optional_expr_of, simple_of, optional_simple_of, statement_of, statements_of};
ghost use Rattle.awk_grammar.specs.Tree.{If, While, Do, ForIn, For, Return, ASimple};
ghost use Rattle.awk_resolve.specs.support.Builds.{Stands, ExitsStand, Opens, DecideOptional, Execute, ExecuteAll, ExecutePart};
ghost use Rattle.awk_resolve.specs.support.Scopes.{Builds};

use crate::builder::{Builder, Exits};
use crate::node::{EffectNode, Node};
use crate::scope::Scope;
use awk_grammar::tree::{Expr, ForParts, SimpleStatement, Statement};
use awk_value::Bytes;
use std::alloc::AllocError;

impl Builder {
    /// A `return` as an outer part of a `for`: its value is of no use.
    fn lower_useless_return(
        &mut self,
        scope: &Scope,
        e: &Option<Box<Expr>>,
        next: u32,
    ) -> Result<u32, AllocError>
        requires { Stands next self.old }
        ensures { IfOk result (λ place. Builds scope.now self.old self.new place (ExecutePart (ASimple (Return (optional_expr_of e.now))) next)) }
    {
        match e {
            None => self.step(next),
            Some(e) => {
                let leave = self.push(Node::Effect(EffectNode::Drop(1), next))?;
                let value = self.lower(scope, e, leave)?;
                self.step(value)
            }
        }
    }

    /// An outer part of a `for`; how it passes on is of no use.
    fn lower_part(
        &mut self,
        scope: &Scope,
        part: &Option<SimpleStatement>,
        next: u32,
    ) -> Result<u32, AllocError>
        requires { Stands next self.old }
        ensures { IfOk result (λ place. Builds scope.now self.old self.new place (ExecutePart (optional_simple_of part.now) next)) }
    {
        let Some(simple) = part else {
            return Ok(next);
        };
        match simple {
            SimpleStatement::Return(e) => self.lower_useless_return(scope, e, next),
            _ => {
                let exits = Exits {
                    next,
                    breaks: next,
                    continues: next,
                };
                self.lower_simple(scope, simple, exits)
            }
        }
    }

    /// The condition of a `for`; where there is none, it goes on here.
    fn lower_condition(
        &mut self,
        scope: &Scope,
        condition: &Option<Box<Expr>>,
        here: u32,
        other: u32,
    ) -> Result<u32, AllocError>
        requires here { Stands here self.old }
        requires other { Stands other self.old }
        ensures { IfOk result (λ place. Builds scope.now self.old self.new place (DecideOptional (optional_expr_of condition.now) here other)) }
    {
        match condition {
            None => Ok(here),
            Some(e) => self.lower_test(scope, e, here, other),
        }
    }

    #[cycle(statements)]
    fn lower_if(
        &mut self,
        scope: &Scope,
        c: &Expr,
        s: &Statement,
        exits: Exits,
    ) -> Result<u32, AllocError>
        requires { ExitsStand exits self.old }
        ensures { IfOk result (λ place. Builds scope.now self.old self.new place (Execute (If (expr_of c.now) (statement_of s.now)) exits)) }
    {
        let here = self.lower_statement(scope, s, exits)?;
        let test = self.lower_test(scope, c, here, exits.next)?;
        self.step(test)
    }

    /// The body of a loop stands behind its turn, and its condition before it.
    #[cycle(statements)]
    fn lower_while(
        &mut self,
        scope: &Scope,
        c: &Expr,
        s: &Statement,
        exits: Exits,
    ) -> Result<u32, AllocError>
        requires { ExitsStand exits self.old }
        ensures { IfOk result (λ place. Builds scope.now self.old self.new place (Execute (While (expr_of c.now) (statement_of s.now)) exits)) }
    {
        let number = self.open()?;
        let again = self.push(Node::Again(number))?;
        let condition = self.lower_test(scope, c, again, exits.next)?;
        let around = Exits {
            next: condition,
            breaks: exits.next,
            continues: condition,
        };
        let body = self.lower_statement(scope, s, around)?;
        self.close(number, body, condition);
        self.step(condition)
    }

    /// A `do` begins with a turn.
    #[cycle(statements)]
    fn lower_do(
        &mut self,
        scope: &Scope,
        s: &Statement,
        c: &Expr,
        exits: Exits,
    ) -> Result<u32, AllocError>
        requires { ExitsStand exits self.old }
        ensures { IfOk result (λ place. Builds scope.now self.old self.new place (Execute (Do (statement_of s.now) (expr_of c.now)) exits)) }
    {
        let number = self.open()?;
        let again = self.push(Node::Again(number))?;
        let condition = self.lower_test(scope, c, again, exits.next)?;
        let around = Exits {
            next: condition,
            breaks: exits.next,
            continues: condition,
        };
        let body = self.lower_statement(scope, s, around)?;
        self.close(number, body, condition);
        self.step(again)
    }

    #[cycle(statements)]
    fn lower_for(
        &mut self,
        scope: &Scope,
        parts: &ForParts,
        s: &Statement,
        exits: Exits,
    ) -> Result<u32, AllocError>
        requires { ExitsStand exits self.old }
        ensures { IfOk result (λ place. Builds scope.now self.old self.new place
            (Execute (For (optional_simple_of parts.now.first) (optional_expr_of parts.now.condition) (optional_simple_of parts.now.last) (statement_of s.now)) exits)) }
    {
        let number = self.open()?;
        let again = self.push(Node::Again(number))?;
        let condition = self.lower_condition(scope, &parts.condition, again, exits.next)?;
        let last = self.lower_part(scope, &parts.last, condition)?;
        let around = Exits {
            next: last,
            breaks: exits.next,
            continues: last,
        };
        let body = self.lower_statement(scope, s, around)?;
        self.close(number, body, condition);
        let first = self.lower_part(scope, &parts.first, condition)?;
        self.step(first)
    }

    /// A walk over the keys of an array: a turn takes the next one.
    #[cycle(statements)]
    fn lower_for_in(
        &mut self,
        scope: &Scope,
        name: &Bytes,
        array: &Bytes,
        s: &Statement,
        exits: Exits,
    ) -> Result<u32, AllocError>
        requires { ExitsStand exits self.old }
        ensures { IfOk result (λ place. Builds scope.now self.old self.new place (Execute (ForIn name.now array.now (statement_of s.now)) exits)) }
    {
        let variable = self.variable_of(scope, name.as_slice())?;
        let array = scope.array_of(array.as_slice())?;
        let number = self.open()?;
        let next = self.push(Node::NextKey(number, exits.next))?;
        let leave = self.push(Node::LeaveWalk(exits.next))?;
        let around = Exits {
            next,
            breaks: leave,
            continues: next,
        };
        let body = self.lower_statement(scope, s, around)?;
        let take = self.push(Node::TakeKey(variable, body))?;
        self.close(number, take, leave);
        let walk = self.push(Node::Walk(array, next))?;
        self.step(walk)
    }

    /// A statement goes on at one of its exits, or returns. (POSIX awk, Actions)
    ///
    /// # Errors
    ///
    /// Where memory is refused, or places or numbers run out.
    #[cycle(statements)]
    pub(crate) fn lower_statement(
        &mut self,
        scope: &Scope,
        s: &Statement,
        exits: Exits,
    ) -> Result<u32, AllocError>
        requires { ExitsStand exits self.old }
        ensures { IfOk result (λ place. Builds scope.now self.old self.new place (Execute (statement_of s.now) exits)) }
    {
        match s {
            Statement::Empty => Ok(exits.next),
            Statement::Simple(simple) => self.lower_simple(scope, simple, exits),
            Statement::Block(all) => self.lower_block(scope, all, exits),
            Statement::If(c, s) => self.lower_if(scope, c, s, exits),
            Statement::IfElse(c, s, other) => {
                let here = self.lower_statement(scope, s, exits)?;
                let other = self.lower_statement(scope, other, exits)?;
                let test = self.lower_test(scope, c, here, other)?;
                self.step(test)
            }
            Statement::While(c, s) => self.lower_while(scope, c, s, exits),
            Statement::Do(s, c) => self.lower_do(scope, s, c, exits),
            Statement::ForIn(name, array, s) => self.lower_for_in(scope, name, array, s, exits),
            Statement::For(parts, s) => self.lower_for(scope, parts, s, exits),
        }
    }

    /// Statements in a row, from their end.
    ///
    /// # Errors
    ///
    /// Where memory is refused, or places or numbers run out.
    #[cycle(statements)]
    pub(crate) fn lower_block(
        &mut self,
        scope: &Scope,
        all: &[Statement],
        exits: Exits,
    ) -> Result<u32, AllocError>
        requires { ExitsStand exits self.old }
        ensures { IfOk result (λ place. Builds scope.now self.old self.new place (ExecuteAll (statements_of all.now) exits)) }
    {
        let mut next = exits.next;
        for i in (0..all.len()).rev() {
            next = self.lower_statement(scope, &all[i], Exits { next, ..exits })?;
        }
        Ok(next)
    }
}
