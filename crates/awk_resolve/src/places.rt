// Places as nodes: what can be assigned, and the operands that it needs.

ghost use Rattle.std.specs.Prelude.{IfOk};
ghost use Rattle.awk_grammar.specs.Tree.{Field};
ghost use Rattle.awk_grammar.specs.View.{expr_of, optional_expr_of};
ghost use Rattle.awk_resolve.specs.support.Builds.{Stands, EvaluateOperand, EvaluateOptionalOperand};
ghost use Rattle.awk_resolve.specs.support.Scopes.{Builds, FindsPlace, FindsOptionalPlace};

use crate::builder::Builder;
use crate::excluded::no_place;
use crate::node::ValueNode;
use crate::scope::Scope;
use awk_grammar::tree::Expr;
use awk_storage::Place;
use awk_value::Value;
use std::alloc::AllocError;

impl Builder {
    /// The place that an expression is.
    ///
    /// # Errors
    ///
    /// Where memory is refused, or numbers run out.
    pub(crate) fn place_of(&mut self, scope: &Scope, p: &Expr) -> Result<Place, AllocError>
        ensures { IfOk result (λ place. FindsPlace scope.now self.old self.new place (expr_of p.now)) }
    {
        match p {
            Expr::Name(x) => Ok(Place::Variable(self.variable_of(scope, x.as_slice())?)),
            Expr::Element(x, _) => Ok(Place::Element(scope.array_of(x.as_slice())?)),
            Expr::Field(_) => Ok(Place::Field),
            _ => Err(no_place(p).unwrap()),
        }
    }

    /// The place that an expression is, if there is one.
    pub(crate) fn optional_place_of(
        &mut self,
        scope: &Scope,
        p: &Option<Box<Expr>>,
    ) -> Result<Option<Place>, AllocError>
        ensures { IfOk result (λ place. FindsOptionalPlace scope.now self.old self.new place (optional_expr_of p.now)) }
    {
        match p {
            Some(p) => Ok(Some(self.place_of(scope, p)?)),
            None => Ok(None),
        }
    }

    /// What a place needs is evaluated: the subscripts of an element, or the number of a field.
    ///
    /// # Errors
    ///
    /// Where memory is refused, or places or numbers run out.
    #[cycle(expressions)]
    pub(crate) fn lower_operand(
        &mut self,
        scope: &Scope,
        p: &Expr,
        next: u32,
    ) -> Result<u32, AllocError>
        requires { Stands next self.old }
        ensures { IfOk result (λ place. Builds scope.now self.old self.new place (EvaluateOperand (expr_of p.now) next)) }
    {
        match p {
            Expr::Name(_) => Ok(next),
            Expr::Element(_, list) => self.lower_key(scope, list, next),
            Expr::Field(e) => self.lower_field_number(scope, e, next),
            _ => Err(no_place(p).unwrap()),
        }
    }

    /// The number of a field that is a place. A number is it as it is.
    #[cycle(expressions)]
    fn lower_field_number(&mut self, scope: &Scope, e: &Expr, next: u32) -> Result<u32, AllocError>
        requires { Stands next self.old }
        ensures { IfOk result (λ place. Builds scope.now self.old self.new place (EvaluateOperand (Field (expr_of e.now)) next)) }
    {
        if let Expr::Number(n) = e {
            return self.push_constant(Value::Number(*n), next);
        }
        let number = self.push_value(ValueNode::FieldNumber, next)?;
        self.lower(scope, e, number)
    }

    /// What a place needs is evaluated, if there is one.
    #[cycle(expressions)]
    pub(crate) fn lower_optional_operand(
        &mut self,
        scope: &Scope,
        p: &Option<Box<Expr>>,
        next: u32,
    ) -> Result<u32, AllocError>
        requires { Stands next self.old }
        ensures { IfOk result (λ place. Builds scope.now self.old self.new place (EvaluateOptionalOperand (optional_expr_of p.now) next)) }
    {
        match p {
            Some(p) => self.lower_operand(scope, p, next),
            None => Ok(next),
        }
    }
}
