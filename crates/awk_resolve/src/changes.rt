// Statements that change a place, whose value is of no use.

ghost use Rattle.std.specs.Prelude.{◌≡◌, IfOk};
ghost use Rattle.awk_grammar.specs.Tree as tree;
ghost use Rattle.awk_grammar.specs.Tree.{Assign, PreIncrement, PostIncrement};
ghost use Rattle.awk_grammar.specs.View.{expr_of, exprs_of};
ghost use Rattle.awk_resolve.specs.support.Builds.{ExitsStand};
ghost use Rattle.awk_resolve.specs.support.Operands.{assigned_by_one, substitution};
ghost use Rattle.awk_resolve.specs.support.Scopes.{LowersChange};

use crate::appends::appended;
use crate::builder::{Builder, Exits};
use crate::node::{EffectNode, Node, Operand};
use crate::scope::Scope;
use awk_grammar::tree::Expr;
use awk_lex::token::{AssignmentOperator, BuiltIn, IncrementOperator};
use awk_value::Value;
use std::alloc::AllocError;

/// The operator that assigns what `++` or `--` makes.
fn assigned_by_one(o: IncrementOperator) -> AssignmentOperator
    ensures { result ≡ assigned_by_one o }
{
    match o {
        IncrementOperator::Increment => AssignmentOperator::Add,
        IncrementOperator::Decrement => AssignmentOperator::Subtract,
    }
}

impl Builder {
    /// An assignment; that of an operand to a target is one node.
    fn lower_update(
        &mut self,
        scope: &Scope,
        o: AssignmentOperator,
        place: &Expr,
        right: &Expr,
        exits: Exits,
    ) -> Result<Option<u32>, AllocError>
        requires { ExitsStand exits self.old }
        ensures { IfOk result (λ place'. LowersChange scope.now self.old self.new place' (Assign o (expr_of place.now) (expr_of right.now)) exits) }
    {
        let Some(operand) = self.operand_of(scope, right)? else {
            return self.lower_assignment(scope, o, place, right, exits);
        };
        let Some(target) = self.target_of(scope, place)? else {
            return self.lower_assignment(scope, o, place, right, exits);
        };
        let update = self.push(Node::Update(o, target, operand, exits.next))?;
        Ok(Some(update))
    }

    /// An assignment of any value to any place, of which one that appends operands is one node.
    fn lower_assignment(
        &mut self,
        scope: &Scope,
        o: AssignmentOperator,
        place: &Expr,
        right: &Expr,
        exits: Exits,
    ) -> Result<Option<u32>, AllocError>
        requires { ExitsStand exits self.old }
        ensures { IfOk result (λ place'. LowersChange scope.now self.old self.new place' (Assign o (expr_of place.now) (expr_of right.now)) exits) }
    {
        let Some(append) = self.lower_append_operands(scope, o, place, right, exits)? else {
            return self.lower_any_assignment(scope, o, place, right, exits);
        };
        Ok(Some(append))
    }

    /// As `lower_assignment`, of one that is none of these; none where it appends parts that may change variables.
    fn lower_any_assignment(
        &mut self,
        scope: &Scope,
        o: AssignmentOperator,
        place: &Expr,
        right: &Expr,
        exits: Exits,
    ) -> Result<Option<u32>, AllocError>
        requires { ExitsStand exits self.old }
        ensures { IfOk result (λ place'. LowersChange scope.now self.old self.new place' (Assign o (expr_of place.now) (expr_of right.now)) exits) }
    {
        if let Some(name) = appended(o, place, right) {
            return self.lower_append_to(scope, name, right, exits);
        }
        let target = self.place_of(scope, place)?;
        let assign = self.push(Node::Assign(o, target, exits.next))?;
        let value = self.lower(scope, right, assign)?;
        let operand = self.lower_operand(scope, place, value)?;
        let step = self.step(operand)?;
        Ok(Some(step))
    }

    /// A place that is raised or lowered by 1.
    fn lower_pre_raise(
        &mut self,
        scope: &Scope,
        o: IncrementOperator,
        place: &Expr,
        exits: Exits,
    ) -> Result<Option<u32>, AllocError>
        requires { ExitsStand exits self.old }
        ensures { IfOk result (λ place'. LowersChange scope.now self.old self.new place' (PreIncrement o (expr_of place.now)) exits) }
    {
        if let Some(target) = self.target_of(scope, place)? {
            let one = Operand::Constant(Value::Number(1));
            let update = self.push(Node::Update(assigned_by_one(o), target, one, exits.next))?;
            return Ok(Some(update));
        }
        let target = self.place_of(scope, place)?;
        let assign = self.push(Node::Assign(assigned_by_one(o), target, exits.next))?;
        let one = self.push_constant(Value::Number(1), assign)?;
        let operand = self.lower_operand(scope, place, one)?;
        let step = self.step(operand)?;
        Ok(Some(step))
    }

    /// As `lower_pre_raise`, where the number before is the value.
    fn lower_post_raise(
        &mut self,
        scope: &Scope,
        o: IncrementOperator,
        place: &Expr,
        exits: Exits,
    ) -> Result<Option<u32>, AllocError>
        requires { ExitsStand exits self.old }
        ensures { IfOk result (λ place'. LowersChange scope.now self.old self.new place' (PostIncrement o (expr_of place.now)) exits) }
    {
        if let Some(target) = self.target_of(scope, place)? {
            let increment = self.push(Node::Increment(o, target, exits.next))?;
            return Ok(Some(increment));
        }
        let target = self.place_of(scope, place)?;
        let raise = self.push(Node::Raise(o, target, exits.next))?;
        let operand = self.lower_operand(scope, place, raise)?;
        let step = self.step(operand)?;
        Ok(Some(step))
    }

    /// Matches that are exchanged where they stand; none of any other `sub` or `gsub`.
    fn lower_exchange(
        &mut self,
        scope: &Scope,
        all: bool,
        list: &[Expr],
        exits: Exits,
    ) -> Result<Option<u32>, AllocError>
        requires { ExitsStand exits self.old }
        ensures { IfOk result (λ place. LowersChange scope.now self.old self.new place (tree.BuiltIn (substitution all) (exprs_of list.now)) exits) }
    {
        let Some(exchange) = self.exchange_of(scope, all, list)? else {
            return Ok(None);
        };
        let exchanges = self.push(Node::Effect(EffectNode::Exchange(exchange), exits.next))?;
        Ok(Some(exchanges))
    }

    /// An expression whose value is of no use, where it changes a place; none of any other one, and of some appends.
    ///
    /// # Errors
    ///
    /// Where memory is refused, or places or numbers run out.
    pub(crate) fn lower_change(
        &mut self,
        scope: &Scope,
        e: &Expr,
        exits: Exits,
    ) -> Result<Option<u32>, AllocError>
        requires { ExitsStand exits self.old }
        ensures { IfOk result (λ place. LowersChange scope.now self.old self.new place (expr_of e.now) exits) }
    {
        match e {
            Expr::Assign(o, place, right) => self.lower_update(scope, *o, place, right, exits),
            Expr::PreIncrement(o, place) => self.lower_pre_raise(scope, *o, place, exits),
            Expr::PostIncrement(o, place) => self.lower_post_raise(scope, *o, place, exits),
            Expr::BuiltIn(BuiltIn::Sub, list) => self.lower_exchange(scope, false, list, exits),
            Expr::BuiltIn(BuiltIn::Gsub, list) => self.lower_exchange(scope, true, list, exits),
            _ => Ok(None),
        }
    }
}
