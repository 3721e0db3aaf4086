// Operands that are appended to the text of a variable or an element, as one node: `x = x e`, `a[k] = a[k] e`.

ghost use Rattle.std.specs.Prelude.{◌≡◌, true, IfOk};
ghost use Rattle.awk_grammar.specs.Tree.{Assign};
ghost use Rattle.awk_grammar.specs.View.{expr_of, exprs_of};
ghost use Rattle.awk_resolve.specs.support.Builds.{ExitsStand};
ghost use Rattle.awk_resolve.specs.support.Parts.{parts_behind};
ghost use Rattle.awk_resolve.specs.support.Scopes.{FindsOperands, LowersChange};
ghost use Rattle.awk_resolve.specs.support.Targets.{first_part};

use crate::builder::{Builder, Exits};
use crate::expressions::is_concatenation;
use crate::node::{Node, Operand};
use crate::scope::Scope;
use crate::targets::only;
use awk_grammar::tree::{BinaryOperator, Expr};
use awk_lex::token::AssignmentOperator;
use std::alloc::AllocError;

/// The part that a concatenation begins with; any other expression is it.
fn first_part(e: &Expr) -> &Expr
    ensures { expr_of result.now ≡ first_part (expr_of e.now) }
{
    match e {
        Expr::Binary(BinaryOperator::Concatenate, a, _) => first_part(a),
        e => e,
    }
}

/// Whether two expressions are the same constant or name.
fn is_same_leaf(a: &Expr, b: &Expr) -> bool
    ensures { result ≡ true → expr_of a.now ≡ expr_of b.now }
{
    match (a, b) {
        (Expr::Number(m), Expr::Number(n)) => m == n,
        (Expr::String(x), Expr::String(y)) => x.as_slice() == y.as_slice(),
        (Expr::Name(x), Expr::Name(y)) => x.as_slice() == y.as_slice(),
        _ => false,
    }
}

/// Whether two expressions are the same constant, name, or field of one.
fn is_same_key(a: &Expr, b: &Expr) -> bool
    ensures { result ≡ true → expr_of a.now ≡ expr_of b.now }
{
    match (a, b) {
        (Expr::Field(a), Expr::Field(b)) => is_same_leaf(a, b),
        _ => is_same_leaf(a, b),
    }
}

/// Whether two lists of subscripts are the same only one.
fn are_same_keys(list: &[Expr], others: &[Expr]) -> bool
    ensures { result ≡ true → exprs_of list.now ≡ exprs_of others.now }
{
    let Some(key) = only(list) else {
        return false;
    };
    let Some(other) = only(others) else {
        return false;
    };
    is_same_key(key, other)
}

/// Whether two expressions are the same name, or the element of one at the same key.
fn is_same_place(a: &Expr, b: &Expr) -> bool
    ensures { result ≡ true → expr_of a.now ≡ expr_of b.now }
{
    match (a, b) {
        (Expr::Name(x), Expr::Name(y)) => x.as_slice() == y.as_slice(),
        (Expr::Element(x, list), Expr::Element(y, others)) => {
            x.as_slice() == y.as_slice() && are_same_keys(list, others)
        }
        _ => false,
    }
}

impl Builder {
    /// The operands that the parts of a concatenation behind its first are, if each is one.
    fn operands_behind(
        &mut self,
        scope: &Scope,
        e: &Expr,
    ) -> Result<Option<Vec<Operand>>, AllocError>
        ensures { IfOk result (λ operands. FindsOperands scope.now self.old self.new operands (parts_behind (expr_of e.now))) }
    {
        let Expr::Binary(BinaryOperator::Concatenate, a, b) = e else {
            return Ok(Some(Vec::new(self.alloc)));
        };
        let Some(mut operands) = self.operands_behind(scope, a)? else {
            return Ok(None);
        };
        let Some(operand) = self.operand_of(scope, b)? else {
            return Ok(None);
        };
        operands.push(operand)?;
        Ok(Some(operands))
    }

    /// An assignment that appends operands to a variable or to an element at an operand; none of any other one.
    ///
    /// # Errors
    ///
    /// Where memory is refused, or places or numbers run out.
    pub(crate) fn lower_append_operands(
        &mut self,
        scope: &Scope,
        o: AssignmentOperator,
        place: &Expr,
        e: &Expr,
        exits: Exits,
    ) -> Result<Option<u32>, AllocError>
        requires { ExitsStand exits self.old }
        ensures { IfOk result (λ place'. LowersChange scope.now self.old self.new place' (Assign o (expr_of place.now) (expr_of e.now)) exits) }
    {
        let AssignmentOperator::Plain = o else {
            return Ok(None);
        };
        if !is_concatenation(e) || !is_same_place(place, first_part(e)) {
            return Ok(None);
        }
        let Some(target) = self.target_of(scope, place)? else {
            return Ok(None);
        };
        let Some(parts) = self.operands_behind(scope, e)? else {
            return Ok(None);
        };
        let append = self.push(Node::AppendOperands(target, parts, exits.next))?;
        Ok(Some(append))
    }
}
