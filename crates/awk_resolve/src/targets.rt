// Targets and keys: places that need nothing from the stack, and what their elements are found by.

ghost use Rattle.std.specs.Prelude.{◌≡◌, true, IfOk, IfSome};
ghost use Rattle.awk_grammar.specs.Tree.{Element, Cons, Nil};
ghost use Rattle.awk_grammar.specs.View.{expr_of, exprs_of};
ghost use Rattle.awk_resolve.specs.support.Parts.{is_concatenation, parts_of};
ghost use Rattle.awk_resolve.specs.support.Scopes.{FindsOperands};
ghost use Rattle.awk_resolve.specs.support.Targets.{FindsKey, FindsTarget};

use crate::builder::Builder;
use crate::expressions::is_concatenation;
use crate::node::{Key, Operand, Target};
use crate::scope::Scope;
use awk_grammar::tree::{BinaryOperator, Expr};
use awk_value::Bytes;
use std::alloc::AllocError;

/// The only expression of a list, if it has one.
pub(crate) fn only(list: &[Expr]) -> Option<&Expr>
    ensures { IfSome result (λ e. exprs_of list.now ≡ Cons (expr_of e.now) Nil) }
{
    match list {
        [e] => Some(e),
        _ => None,
    }
}

impl Builder {
    /// The target that an expression is, if it is a variable, or the element at a key that is read where it stands.
    ///
    /// # Errors
    ///
    /// Where memory is refused, or numbers run out.
    pub(crate) fn target_of(
        &mut self,
        scope: &Scope,
        place: &Expr,
    ) -> Result<Option<Target>, AllocError>
        ensures { IfOk result (λ target. FindsTarget scope.now self.old self.new target (expr_of place.now)) }
    {
        match place {
            Expr::Name(x) => Ok(Some(Target::Variable(self.variable_of(scope, x.as_slice())?))),
            Expr::Element(x, list) => self.element_target(scope, x, list),
            _ => Ok(None),
        }
    }

    /// The element of an array at a key that is read where it stands.
    fn element_target(
        &mut self,
        scope: &Scope,
        x: &Bytes,
        list: &[Expr],
    ) -> Result<Option<Target>, AllocError>
        ensures { IfOk result (λ target. FindsTarget scope.now self.old self.new target (Element x.now (exprs_of list.now))) }
    {
        let Some(key) = self.key_of(scope, list)? else {
            return Ok(None);
        };
        let array = scope.array_of(x.as_slice())?;
        Ok(Some(Target::Element(array, key)))
    }

    /// The key that subscripts are, if there is one alone, which is an operand or a concatenation of operands.
    ///
    /// # Errors
    ///
    /// Where memory is refused, or numbers run out.
    pub(crate) fn key_of(&mut self, scope: &Scope, list: &[Expr]) -> Result<Option<Key>, AllocError>
        ensures { IfOk result (λ key. FindsKey scope.now self.old self.new key (exprs_of list.now)) }
    {
        let Some(e) = only(list) else {
            return Ok(None);
        };
        if is_concatenation(e) {
            return self.joined_key(scope, e);
        }
        match self.operand_of(scope, e)? {
            Some(operand) => Ok(Some(Key::At(operand))),
            None => Ok(None),
        }
    }

    /// The key that a concatenation is, if its parts are operands.
    fn joined_key(&mut self, scope: &Scope, e: &Expr) -> Result<Option<Key>, AllocError>
        requires { is_concatenation (expr_of e.now) ≡ true }
        ensures { IfOk result (λ key. FindsKey scope.now self.old self.new key (Cons (expr_of e.now) Nil)) }
    {
        match self.parts_in_place(scope, e)? {
            Some(parts) => Ok(Some(Key::Joined(parts))),
            None => Ok(None),
        }
    }

    /// The operands that the parts of a concatenation are, if each is one; any other expression is one part.
    fn parts_in_place(
        &mut self,
        scope: &Scope,
        e: &Expr,
    ) -> Result<Option<Vec<Operand>>, AllocError>
        ensures { IfOk result (λ operands. FindsOperands scope.now self.old self.new operands (parts_of (expr_of e.now))) }
    {
        let Expr::Binary(BinaryOperator::Concatenate, a, b) = e else {
            return self.part_in_place(scope, e);
        };
        let Some(mut operands) = self.parts_in_place(scope, a)? else {
            return Ok(None);
        };
        let Some(operand) = self.operand_of(scope, b)? else {
            return Ok(None);
        };
        operands.push(operand)?;
        Ok(Some(operands))
    }

    /// The operand that an expression is, if it is one, in a list of its own.
    fn part_in_place(&mut self, scope: &Scope, e: &Expr) -> Result<Option<Vec<Operand>>, AllocError>
        ensures { IfOk result (λ operands. FindsOperands scope.now self.old self.new operands (Cons (expr_of e.now) Nil)) }
    {
        let Some(operand) = self.operand_of(scope, e)? else {
            return Ok(None);
        };
        let mut operands = Vec::new(self.alloc);
        operands.push(operand)?;
        Ok(Some(operands))
    }
}
