// Texts that are appended to variables as nodes: `x = x e` adds to the text of `x` in its own memory.

ghost use Rattle.std.specs.Prelude.{◌≡◌, true, IfOk, IfSome};
ghost use Rattle.awk_grammar.specs.Tree.{Assign, Name};
ghost use Rattle.awk_grammar.specs.View.{expr_of};
ghost use Rattle.awk_kinds.specs.definitions.NameUses.{count_of};
ghost use Rattle.awk_lex.specs.declared.token.AssignmentOperator.TheVariants.{Plain};
ghost use Rattle.awk_resolve.specs.support.Appends.{is_append, begins_with, without_first, AppendsTo};
ghost use Rattle.awk_resolve.specs.support.Builds.{Stands, ExitsStand, Evaluate, EvaluateAll};
ghost use Rattle.awk_resolve.specs.support.Parts.{parts_behind};
ghost use Rattle.awk_resolve.specs.support.Scopes.{Builds, LowersChange};

use crate::builder::{Builder, Exits, one_more};
use crate::expressions::is_concatenation;
use crate::node::{Node, ValueNode};
use crate::readings::parts_read;
use crate::scope::Scope;
use awk_grammar::tree::{BinaryOperator, Expr};
use awk_lex::token::AssignmentOperator;
use awk_value::Bytes;
use std::alloc::AllocError;

/// Whether an expression is this name, or a concatenation that begins with it.
fn begins_with(name: &[u8], e: &Expr) -> bool
    ensures { result ≡ true → begins_with name.now (expr_of e.now) ≡ true }
{
    match e {
        Expr::Name(x) => x.as_slice() == name,
        Expr::Binary(BinaryOperator::Concatenate, a, _) => begins_with(name, a),
        _ => false,
    }
}

/// The variable that an assignment appends to, if it appends: it assigns a concatenation that begins with the variable itself.
pub(crate) fn appended<'a>(o: AssignmentOperator, place: &'a Expr, e: &Expr) -> Option<&'a Bytes>
    ensures { IfSome result (λ x. AppendsTo o (expr_of place.now) (expr_of e.now) x.now) }
{
    let AssignmentOperator::Plain = o else {
        return None;
    };
    let Expr::Name(x) = place else {
        return None;
    };
    let Expr::Binary(BinaryOperator::Concatenate, a, _) = e else {
        return None;
    };
    if !begins_with(x.as_slice(), a) {
        return None;
    }
    Some(x)
}

/// How many parts a concatenation has behind its first. An `Err` is that numbers run out.
fn count_behind(e: &Expr) -> Result<u32, AllocError>
    ensures { IfOk result (λ count. count ≡ count_of (parts_behind (expr_of e.now))) }
{
    match e {
        Expr::Binary(BinaryOperator::Concatenate, a, _) => one_more(count_behind(a)?),
        _ => Ok(0),
    }
}

impl Builder {
    /// An assignment that appends to a variable: what is appended is one text.
    #[cycle(expressions)]
    pub(crate) fn lower_append(
        &mut self,
        scope: &Scope,
        name: &Bytes,
        e: &Expr,
        next: u32,
    ) -> Result<u32, AllocError>
        requires stands { Stands next self.old }
        requires append { is_append Plain (Name name.now) (expr_of e.now) ≡ true }
        ensures { IfOk result (λ i. Builds scope.now self.old self.new i (Evaluate (Assign Plain (Name name.now) (expr_of e.now)) next)) }
    {
        let variable = self.variable_of(scope, name.as_slice())?;
        let append = self.push_value(ValueNode::Append(variable), next)?;
        let right = self.lower_behind_first(scope, e, append)?;
        self.push_name(scope, name, right)
    }

    /// The text behind the name that a concatenation begins with.
    #[cycle(expressions)]
    fn lower_behind_first(&mut self, scope: &Scope, e: &Expr, next: u32) -> Result<u32, AllocError>
        requires { Stands next self.old }
        ensures { IfOk result (λ place. Builds scope.now self.old self.new place (Evaluate (without_first (expr_of e.now)) next)) }
    {
        let Expr::Binary(BinaryOperator::Concatenate, a, b) = e else {
            return self.lower(scope, e, next);
        };
        if !is_concatenation(a) {
            return self.lower(scope, b, next);
        }
        let operator = BinaryOperator::Concatenate;
        let operate = self.push_value(ValueNode::Operate(operator), next)?;
        let last = self.lower(scope, b, operate)?;
        self.lower_behind_first(scope, a, last)
    }

    /// The values of the parts of a concatenation behind its first are put on the stack.
    fn lower_parts_behind(&mut self, scope: &Scope, e: &Expr, next: u32) -> Result<u32, AllocError>
        requires { Stands next self.old }
        ensures { IfOk result (λ place. Builds scope.now self.old self.new place (EvaluateAll (parts_behind (expr_of e.now)) next)) }
    {
        let Expr::Binary(BinaryOperator::Concatenate, a, b) = e else {
            return Ok(next);
        };
        let last = self.lower(scope, b, next)?;
        self.lower_parts_behind(scope, a, last)
    }

    /// An append whose value is of no use: its parts are added to the text that the variable has behind them. None where a part may
    /// change it.
    ///
    /// # Errors
    ///
    /// Where memory is refused, or places or numbers run out.
    pub(crate) fn lower_append_to(
        &mut self,
        scope: &Scope,
        name: &Bytes,
        e: &Expr,
        exits: Exits,
    ) -> Result<Option<u32>, AllocError>
        requires stand { ExitsStand exits self.old }
        requires append { is_append Plain (Name name.now) (expr_of e.now) ≡ true }
        ensures { IfOk result (λ place. LowersChange scope.now self.old self.new place (Assign Plain (Name name.now) (expr_of e.now)) exits) }
    {
        if !parts_read(e) {
            return Ok(None);
        }
        let variable = self.variable_of(scope, name.as_slice())?;
        let count = count_behind(e)?;
        let append = self.push(Node::AppendTo(variable, count, exits.next))?;
        let parts = self.lower_parts_behind(scope, e, append)?;
        let step = self.step(parts)?;
        Ok(Some(step))
    }
}
