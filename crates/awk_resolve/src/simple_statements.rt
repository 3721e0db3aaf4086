// Simple statements as nodes.

ghost use Rattle.std.specs.Prelude.{◌≡◌, IfOk};
ghost use Rattle.awk_grammar.specs.View.{expr_of, exprs_of, optional_expr_of, print_list_of, output_of, simple_of, optional_simple_of};
ghost use Rattle.awk_grammar.specs.Tree.{Expression, Print, Standard, Delete, DeleteAll, NextFile, Exit, Return, Simple};
ghost use Rattle.awk_resolve.specs.declared.node.Node.TheVariants.{Spend};
ghost use Rattle.awk_resolve.specs.support.Builds.{Pushes, Stands, ExitsStand, Execute, ExecutePart};
ghost use Rattle.awk_resolve.specs.support.Printed.{listed};
ghost use Rattle.awk_resolve.specs.support.Scopes.{Builds, LowersPrint};

use crate::builder::{Builder, Exits, next_number};
use crate::node::{EffectNode, Ending, Node};
use crate::scope::Scope;
use awk_grammar::tree::{Expr, Output, PrintForm, PrintList, SimpleStatement};
use awk_value::{Bytes, Value};
use std::alloc::AllocError;

/// The expressions of a print's list.
fn listed(list: &PrintList) -> &[Expr]
    ensures { exprs_of result.now ≡ listed (print_list_of list.now) }
{
    match list {
        PrintList::Bare(list) => list,
        PrintList::Parenthesized(list) => list,
    }
}

impl Builder {
    /// Spends a step, and goes on.
    pub(crate) fn step(&mut self, next: u32) -> Result<u32, AllocError>
        ensures { IfOk result (λ place. Pushes self.old self.new (Spend next) place) }
    {
        self.push(Node::Spend(next))
    }

    /// An expression whose value is of no use.
    fn lower_expression(&mut self, scope: &Scope, e: &Expr, exits: Exits) -> Result<u32, AllocError>
        requires { ExitsStand exits self.old }
        ensures { IfOk result (λ place. Builds scope.now self.old self.new place (Execute (Simple (Expression (expr_of e.now))) exits)) }
    {
        if let Some(place) = self.lower_change(scope, e, exits)? {
            return Ok(place);
        }
        let leave = self.push(Node::Effect(EffectNode::Drop(1), exits.next))?;
        let value = self.lower(scope, e, leave)?;
        self.step(value)
    }

    /// A print of what is all read where it stands, to standard output; none of any other one.
    fn lower_operand_print(
        &mut self,
        scope: &Scope,
        form: PrintForm,
        list: &PrintList,
        exits: Exits,
    ) -> Result<Option<u32>, AllocError>
        requires { ExitsStand exits self.old }
        ensures { IfOk result (λ place. LowersPrint scope.now self.old self.new place form (print_list_of list.now) exits) }
    {
        let PrintForm::Print = form else {
            return Ok(None);
        };
        let list = listed(list);
        if list.is_empty() {
            return Ok(None);
        }
        let Some(operands) = self.operands_of(scope, list)? else {
            return Ok(None);
        };
        let print = self.push(Node::Print(operands, exits.next))?;
        Ok(Some(print))
    }

    /// A print to standard output.
    fn lower_standard_print(
        &mut self,
        scope: &Scope,
        form: PrintForm,
        list: &PrintList,
        exits: Exits,
    ) -> Result<u32, AllocError>
        requires { ExitsStand exits self.old }
        ensures { IfOk result (λ place. Builds scope.now self.old self.new place (Execute (Simple (Print form (print_list_of list.now) Standard)) exits)) }
    {
        if let Some(place) = self.lower_operand_print(scope, form, list, exits)? {
            return Ok(place);
        }
        let list = listed(list);
        let count = next_number(list.len())?;
        let print = EffectNode::Print(form, count, None);
        let print = self.push(Node::Effect(print, exits.next))?;
        let values = self.lower_all(scope, list, print)?;
        self.step(values)
    }

    /// A print; its target is evaluated behind its list.
    fn lower_print(
        &mut self,
        scope: &Scope,
        form: PrintForm,
        list: &PrintList,
        output: &Output,
        exits: Exits,
    ) -> Result<u32, AllocError>
        requires { ExitsStand exits self.old }
        ensures { IfOk result (λ place. Builds scope.now self.old self.new place (Execute (Simple (Print form (print_list_of list.now) (output_of output.now))) exits)) }
    {
        match output {
            Output::Standard => self.lower_standard_print(scope, form, list, exits),
            Output::Redirected(way, target) => {
                let list = listed(list);
                let count = next_number(list.len())?;
                let print = EffectNode::Print(form, count, Some(*way));
                let print = self.push(Node::Effect(print, exits.next))?;
                let target = self.lower(scope, target, print)?;
                let values = self.lower_all(scope, list, target)?;
                self.step(values)
            }
        }
    }

    /// A deletion of an element.
    fn lower_delete(
        &mut self,
        scope: &Scope,
        name: &Bytes,
        list: &[Expr],
        exits: Exits,
    ) -> Result<u32, AllocError>
        requires { ExitsStand exits self.old }
        ensures { IfOk result (λ place. Builds scope.now self.old self.new place (Execute (Simple (Delete name.now (exprs_of list.now))) exits)) }
    {
        let array = scope.array_of(name.as_slice())?;
        let delete = self.push(Node::Effect(EffectNode::Delete(array), exits.next))?;
        let key = self.lower_key(scope, list, delete)?;
        self.step(key)
    }

    /// A deletion of all elements of an array.
    fn lower_delete_all(
        &mut self,
        scope: &Scope,
        name: &Bytes,
        exits: Exits,
    ) -> Result<u32, AllocError>
        requires { ExitsStand exits self.old }
        ensures { IfOk result (λ place. Builds scope.now self.old self.new place (Execute (Simple (DeleteAll name.now)) exits)) }
    {
        let array = scope.array_of(name.as_slice())?;
        let clear = self.push(Node::Effect(EffectNode::Clear(array), exits.next))?;
        self.step(clear)
    }

    /// A `nextfile`: the main input is closed, and then it ends as `next` does.
    fn lower_next_file(&mut self, scope: &Scope, exits: Exits) -> Result<u32, AllocError>
        ensures { IfOk result (λ place. Builds scope.now self.old self.new place (Execute (Simple NextFile) exits)) }
    {
        let stop = self.push(Node::Stop(Ending::Next))?;
        let end = self.push(Node::Effect(EffectNode::EndInput, stop))?;
        self.step(end)
    }

    /// An `exit`; its expression sets the status first.
    fn lower_exit(
        &mut self,
        scope: &Scope,
        e: &Option<Box<Expr>>,
        exits: Exits,
    ) -> Result<u32, AllocError>
        requires { ExitsStand exits self.old }
        ensures { IfOk result (λ place. Builds scope.now self.old self.new place (Execute (Simple (Exit (optional_expr_of e.now))) exits)) }
    {
        let stop = self.push(Node::Stop(Ending::Exit))?;
        match e {
            None => self.step(stop),
            Some(e) => {
                let status = self.push(Node::Effect(EffectNode::SetStatus, stop))?;
                let value = self.lower(scope, e, status)?;
                self.step(value)
            }
        }
    }

    /// A `return`; without an expression, it gives what was never assigned.
    fn lower_return(
        &mut self,
        scope: &Scope,
        e: &Option<Box<Expr>>,
        exits: Exits,
    ) -> Result<u32, AllocError>
        requires { ExitsStand exits self.old }
        ensures { IfOk result (λ place. Builds scope.now self.old self.new place (Execute (Simple (Return (optional_expr_of e.now))) exits)) }
    {
        let back = self.push(Node::Return)?;
        match e {
            None => {
                let value = self.push_constant(Value::Nothing, back)?;
                self.step(value)
            }
            Some(e) => {
                let value = self.lower(scope, e, back)?;
                self.step(value)
            }
        }
    }

    /// A simple statement spends a step as it begins. (POSIX awk, Actions; Output Statements; User-Defined Functions)
    ///
    /// # Errors
    ///
    /// Where memory is refused, or places or numbers run out.
    pub(crate) fn lower_simple(
        &mut self,
        scope: &Scope,
        simple: &SimpleStatement,
        exits: Exits,
    ) -> Result<u32, AllocError>
        requires { ExitsStand exits self.old }
        ensures { IfOk result (λ place. Builds scope.now self.old self.new place (Execute (Simple (simple_of simple.now)) exits)) }
    {
        match simple {
            SimpleStatement::Expression(e) => self.lower_expression(scope, e, exits),
            SimpleStatement::Print(form, list, output) => {
                self.lower_print(scope, *form, list, output, exits)
            }
            SimpleStatement::Delete(name, list) => self.lower_delete(scope, name, list, exits),
            SimpleStatement::DeleteAll(name) => self.lower_delete_all(scope, name, exits),
            SimpleStatement::Next => {
                let stop = self.push(Node::Stop(Ending::Next))?;
                self.step(stop)
            }
            SimpleStatement::NextFile => self.lower_next_file(scope, exits),
            SimpleStatement::Break => self.step(exits.breaks),
            SimpleStatement::Continue => self.step(exits.continues),
            SimpleStatement::Exit(e) => self.lower_exit(scope, e, exits),
            SimpleStatement::Return(e) => self.lower_return(scope, e, exits),
        }
    }
}
