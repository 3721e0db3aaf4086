// Expressions that assign as nodes.

ghost use Rattle.std.specs.Prelude.{IfOk};
ghost use Rattle.awk_grammar.specs.Tree.{Assign, PreIncrement, PostIncrement};
ghost use Rattle.awk_grammar.specs.View.{expr_of};
ghost use Rattle.awk_resolve.specs.support.Builds.{Stands, Evaluate};
ghost use Rattle.awk_resolve.specs.support.Scopes.{Builds};

use crate::appends::appended;
use crate::builder::Builder;
use crate::node::ValueNode;
use crate::scope::Scope;
use awk_grammar::tree::Expr;
use awk_lex::token::{AssignmentOperator, IncrementOperator};
use std::alloc::AllocError;

impl Builder {
    #[cycle(expressions)]
    pub(crate) fn lower_assign(
        &mut self,
        scope: &Scope,
        o: AssignmentOperator,
        place: &Expr,
        e: &Expr,
        next: u32,
    ) -> Result<u32, AllocError>
        requires { Stands next self.old }
        ensures { IfOk result (λ place'. Builds scope.now self.old self.new place' (Evaluate (Assign o (expr_of place.now) (expr_of e.now)) next)) }
    {
        if let Some(name) = appended(o, place, e) {
            return self.lower_append(scope, name, e, next);
        }
        let target = self.place_of(scope, place)?;
        let assign = self.push_value(ValueNode::Assign(o, target), next)?;
        let right = self.lower(scope, e, assign)?;
        self.lower_operand(scope, place, right)
    }

    #[cycle(expressions)]
    pub(crate) fn lower_pre_increment(
        &mut self,
        scope: &Scope,
        o: IncrementOperator,
        place: &Expr,
        next: u32,
    ) -> Result<u32, AllocError>
        requires { Stands next self.old }
        ensures { IfOk result (λ place'. Builds scope.now self.old self.new place' (Evaluate (PreIncrement o (expr_of place.now)) next)) }
    {
        let target = self.place_of(scope, place)?;
        let increment = self.push_value(ValueNode::PreIncrement(o, target), next)?;
        self.lower_operand(scope, place, increment)
    }

    #[cycle(expressions)]
    pub(crate) fn lower_post_increment(
        &mut self,
        scope: &Scope,
        o: IncrementOperator,
        place: &Expr,
        next: u32,
    ) -> Result<u32, AllocError>
        requires { Stands next self.old }
        ensures { IfOk result (λ place'. Builds scope.now self.old self.new place' (Evaluate (PostIncrement o (expr_of place.now)) next)) }
    {
        if let Some(target) = self.target_of(scope, place)? {
            return self.push_value(ValueNode::PostIncrementAt(o, target), next);
        }
        let target = self.place_of(scope, place)?;
        let increment = self.push_value(ValueNode::PostIncrement(o, target), next)?;
        self.lower_operand(scope, place, increment)
    }
}
