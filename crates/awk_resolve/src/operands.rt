// Operands that are read where they stand.

ghost use Rattle.std.specs.Prelude.{IfOk, Some};
ghost use Rattle.awk_grammar.specs.Tree.{Name, Field};
ghost use Rattle.awk_grammar.specs.View.{expr_of, exprs_of};
ghost use Rattle.awk_resolve.specs.support.Scopes.{FindsOperand, FindsOperands};

use crate::builder::Builder;
use crate::node::Operand;
use crate::scope::Scope;
use awk_grammar::tree::Expr;
use awk_value::{Bytes, Value};
use std::alloc::AllocError;

impl Builder {
    fn variable_operand(&mut self, scope: &Scope, x: &Bytes) -> Result<Operand, AllocError>
        ensures { IfOk result (λ operand. FindsOperand scope.now self.old self.new (Some operand) (Name x.now)) }
    {
        Ok(Operand::Variable(self.variable_of(scope, x.as_slice())?))
    }

    /// The operand that the field of a number is, if that is a number of the program or a variable.
    pub(crate) fn field_operand(
        &mut self,
        scope: &Scope,
        number: &Expr,
    ) -> Result<Option<Operand>, AllocError>
        ensures { IfOk result (λ operand. FindsOperand scope.now self.old self.new operand (Field (expr_of number.now))) }
    {
        match number {
            Expr::Number(n) => match u32::try_from(*n) {
                Ok(number) => Ok(Some(Operand::Field(number))),
                Err(_) => Ok(None),
            },
            Expr::Name(x) => {
                let variable = self.variable_of(scope, x.as_slice())?;
                Ok(Some(Operand::FieldAt(variable)))
            }
            _ => Ok(None),
        }
    }

    /// The operand that an expression is, if it is a constant, a variable, or the field of one of these.
    ///
    /// # Errors
    ///
    /// Where memory is refused, or numbers run out.
    pub(crate) fn operand_of(
        &mut self,
        scope: &Scope,
        e: &Expr,
    ) -> Result<Option<Operand>, AllocError>
        ensures { IfOk result (λ operand. FindsOperand scope.now self.old self.new operand (expr_of e.now)) }
    {
        match e {
            Expr::Number(n) => Ok(Some(Operand::Constant(Value::Number(*n)))),
            Expr::String(bytes) => Ok(Some(Operand::Constant(Value::Text(bytes.clone()?)))),
            Expr::Name(x) => Ok(Some(self.variable_operand(scope, x)?)),
            Expr::Field(number) => self.field_operand(scope, number),
            _ => Ok(None),
        }
    }

    /// The operands that expressions are, if each is one.
    ///
    /// # Errors
    ///
    /// Where memory is refused, or numbers run out.
    pub(crate) fn operands_of(
        &mut self,
        scope: &Scope,
        list: &[Expr],
    ) -> Result<Option<Vec<Operand>>, AllocError>
        ensures { IfOk result (λ operands. FindsOperands scope.now self.old self.new operands (exprs_of list.now)) }
    {
        let mut operands = Vec::new(self.alloc);
        for e in list {
            let Some(operand) = self.operand_of(scope, e)? else {
                return Ok(None);
            };
            operands.push(operand)?;
        }
        Ok(Some(operands))
    }
}
