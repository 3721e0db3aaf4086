// Expressions that are tested, as nodes.

ghost use Rattle.std.specs.Prelude.{◌≡◌, true, IfOk};
ghost use Rattle.awk_lex.specs.declared.token.Operator.TheVariants.{Matches};
ghost use Rattle.awk_grammar.specs.declared.tree.BinaryOperator.TheVariants.{Infix};
ghost use Rattle.awk_grammar.specs.Tree.{Binary, Membership, PostIncrement};
ghost use Rattle.awk_grammar.specs.View.{expr_of};
ghost use Rattle.awk_resolve.specs.support.Builds.{Stands, Decide};
ghost use Rattle.awk_resolve.specs.support.Operands.{is_not, is_strict};
ghost use Rattle.awk_resolve.specs.support.Scopes.{Builds};

use crate::builder::Builder;
use crate::expressions::{is_and, is_or, is_strict};
use crate::node::{Key, Node, Operand, Tested};
use crate::scope::Scope;
use awk_grammar::tree::{BinaryOperator, Expr, UnaryOperator};
use awk_lex::token::{IncrementOperator, Operator};
use awk_value::Bytes;
use std::alloc::AllocError;

fn is_not(o: UnaryOperator) -> bool
    ensures { result ≡ is_not o }
{
    match o {
        UnaryOperator::Not => true,
        _ => false,
    }
}

impl Builder {
    /// An expression is tested: at one place it goes on where it is true, and at the other one where it isn't.
    ///
    /// # Errors
    ///
    /// Where memory is refused, or places or numbers run out.
    #[cycle(expressions)]
    pub(crate) fn lower_test(
        &mut self,
        scope: &Scope,
        e: &Expr,
        here: u32,
        other: u32,
    ) -> Result<u32, AllocError>
        requires here { Stands here self.old }
        requires other { Stands other self.old }
        ensures { IfOk result (λ place. Builds scope.now self.old self.new place (Decide (expr_of e.now) here other)) }
    {
        match e {
            Expr::Group(e) => self.lower_test(scope, e, here, other),
            Expr::Ere(ere) => {
                let number = self.ere_of(&ere.text)?;
                self.push(Node::Match(Operand::Field(0), number, here, other))
            }
            Expr::Unary(o, e) if is_not(*o) => self.lower_test(scope, e, other, here),
            Expr::Binary(o, a, b) if is_and(*o) => {
                let second = self.lower_test(scope, b, here, other)?;
                self.lower_test(scope, a, second, other)
            }
            Expr::Binary(o, a, b) if is_or(*o) => {
                let second = self.lower_test(scope, b, here, other)?;
                self.lower_test(scope, a, here, second)
            }
            Expr::Binary(BinaryOperator::Infix(Operator::Matches), a, b) => {
                self.lower_match_test(scope, a, b, here, other)
            }
            Expr::Binary(BinaryOperator::Infix(Operator::NotMatches), a, b) => {
                self.lower_match_test(scope, a, b, other, here)
            }
            Expr::Binary(o, a, b) if is_strict(*o) => {
                self.lower_comparison(scope, *o, a, b, here, other)
            }
            Expr::PostIncrement(o, place) => {
                self.lower_raise_test(scope, e, *o, place, here, other)
            }
            Expr::Membership(key, array) => {
                self.lower_element_test(scope, e, key, array, here, other)
            }
            _ => self.lower_any_test(scope, e, here, other),
        }
    }

    /// The same of any expression, whose value is made.
    #[cycle(expressions)]
    fn lower_any_test(
        &mut self,
        scope: &Scope,
        e: &Expr,
        here: u32,
        other: u32,
    ) -> Result<u32, AllocError>
        requires here { Stands here self.old }
        requires other { Stands other self.old }
        ensures { IfOk result (λ place. Builds scope.now self.old self.new place (Decide (expr_of e.now) here other)) }
    {
        let test = self.push(Node::Test(Tested::Top, here, other))?;
        self.lower(scope, e, test)
    }

    /// The number that a place had, which is raised or lowered, is tested; no value is made of that of a target.
    #[cycle(expressions)]
    fn lower_raise_test(
        &mut self,
        scope: &Scope,
        e: &Expr,
        o: IncrementOperator,
        place: &Expr,
        here: u32,
        other: u32,
    ) -> Result<u32, AllocError>
        requires raises { expr_of e.now ≡ PostIncrement o (expr_of place.now) }
        requires here { Stands here self.old }
        requires other { Stands other self.old }
        ensures { IfOk result (λ place. Builds scope.now self.old self.new place (Decide (expr_of e.now) here other)) }
    {
        let Some(target) = self.target_of(scope, place)? else {
            return self.lower_any_test(scope, e, here, other);
        };
        self.push(Node::Test(Tested::Raised(o, target), here, other))
    }

    /// Whether there is an element is tested; no value is made where its key is an operand.
    #[cycle(expressions)]
    fn lower_element_test(
        &mut self,
        scope: &Scope,
        e: &Expr,
        key: &Expr,
        array: &Bytes,
        here: u32,
        other: u32,
    ) -> Result<u32, AllocError>
        requires contains { expr_of e.now ≡ Membership (expr_of key.now) array.now }
        requires here { Stands here self.old }
        requires other { Stands other self.old }
        ensures { IfOk result (λ place. Builds scope.now self.old self.new place (Decide (expr_of e.now) here other)) }
    {
        let Some(key) = self.operand_of(scope, key)? else {
            return self.lower_any_test(scope, e, here, other);
        };
        let array = scope.array_of(array.as_slice())?;
        self.push(Node::Test(Tested::Element(array, Key::At(key)), here, other))
    }

    /// Whether a text has a match of a pattern is tested.
    #[cycle(expressions)]
    fn lower_match_test(
        &mut self,
        scope: &Scope,
        a: &Expr,
        b: &Expr,
        here: u32,
        other: u32,
    ) -> Result<u32, AllocError>
        requires here { Stands here self.old }
        requires other { Stands other self.old }
        ensures { IfOk result (λ place. Builds scope.now self.old self.new place (Decide (Binary (Infix Matches) (expr_of a.now) (expr_of b.now)) here other)) }
    {
        if let Expr::Ere(ere) = b
            && let Some(operand) = self.operand_of(scope, a)?
        {
            let number = self.ere_of(&ere.text)?;
            return self.push(Node::Match(operand, number, here, other));
        }
        let operator = BinaryOperator::Infix(Operator::Matches);
        let test = self.push(Node::Test(Tested::Top, here, other))?;
        self.lower_binary(scope, operator, a, b, test)
    }

    /// What an operator makes of two values is tested.
    #[cycle(expressions)]
    fn lower_comparison(
        &mut self,
        scope: &Scope,
        o: BinaryOperator,
        a: &Expr,
        b: &Expr,
        here: u32,
        other: u32,
    ) -> Result<u32, AllocError>
        requires strict { is_strict o ≡ true }
        requires here { Stands here self.old }
        requires other { Stands other self.old }
        ensures { IfOk result (λ place. Builds scope.now self.old self.new place (Decide (Binary o (expr_of a.now) (expr_of b.now)) here other)) }
    {
        let Some(right) = self.operand_of(scope, b)? else {
            let test = self.push(Node::Test(Tested::Top, here, other))?;
            return self.lower_binary(scope, o, a, b, test);
        };
        let Some(left) = self.operand_of(scope, a)? else {
            let test = self.push(Node::CompareWith(o, right, here, other))?;
            return self.lower(scope, a, test);
        };
        self.push(Node::Compare(o, left, right, here, other))
    }
}
