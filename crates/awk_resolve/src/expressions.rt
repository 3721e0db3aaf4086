// Expressions as nodes.

ghost use Rattle.std.specs.Prelude.{◌≡◌, true, IfOk};
ghost use Rattle.awk_grammar.specs.declared.tree.BinaryOperator.TheVariants.{Concatenate};
ghost use Rattle.awk_grammar.specs.Tree.{Element, Field, Name, Unary, Binary, Membership, ListMembership, Conditional};
ghost use Rattle.awk_grammar.specs.View.{expr_of, exprs_of};
ghost use Rattle.awk_kinds.specs.definitions.NameUses.{count_of};
ghost use Rattle.awk_resolve.specs.support.Nodes.{CallsFit};
ghost use Rattle.awk_resolve.specs.support.Builds.{array_parameters_in, Pushes, Stands, Evaluate, EvaluateAll};
ghost use Rattle.awk_resolve.specs.support.Operands.{is_and, is_or, is_strict, matching_operator, matching, PushesTruths, PushesEre};
ghost use Rattle.awk_resolve.specs.support.Parts.{is_concatenation, parts_of};
ghost use Rattle.awk_resolve.specs.support.Scopes.{Builds};

use crate::builder::{Builder, one_more};
use crate::node::{Key, Node, Operand, ValueNode};
use crate::scope::Scope;
use awk_grammar::tree::{BinaryOperator, Expr, UnaryOperator};
use awk_lex::token::Operator;
use awk_value::{Bytes, Value};
use std::alloc::AllocError;

pub(crate) fn is_and(o: BinaryOperator) -> bool
    ensures { result ≡ is_and o }
{
    match o {
        BinaryOperator::Infix(Operator::And) => true,
        _ => false,
    }
}

pub(crate) fn is_or(o: BinaryOperator) -> bool
    ensures { result ≡ is_or o }
{
    match o {
        BinaryOperator::Infix(Operator::Or) => true,
        _ => false,
    }
}

/// The operator whose right operand is a pattern, if it is one.
fn matching_operator(o: BinaryOperator) -> Option<Operator>
    ensures { result ≡ matching_operator o }
{
    match o {
        BinaryOperator::Infix(Operator::Matches) => Some(Operator::Matches),
        BinaryOperator::Infix(Operator::NotMatches) => Some(Operator::NotMatches),
        _ => None,
    }
}

/// Whether the operator takes the values of both operands, and neither as a pattern.
pub(crate) fn is_strict(o: BinaryOperator) -> bool
    ensures { result ≡ is_strict o }
{
    !is_and(o) && !is_or(o) && matching_operator(o).is_none()
}

pub(crate) fn is_concatenation(e: &Expr) -> bool
    ensures { result ≡ is_concatenation (expr_of e.now) }
{
    match e {
        Expr::Binary(BinaryOperator::Concatenate, _, _) => true,
        _ => false,
    }
}

/// How many parts a concatenation has: those of its left operand, which may be one too, and its right one. It is 1 of any other
/// expression. An `Err` is that numbers run out.
fn part_count(e: &Expr) -> Result<u32, AllocError>
    ensures { IfOk result (λ count. count ≡ count_of (parts_of (expr_of e.now))) }
{
    match e {
        Expr::Binary(BinaryOperator::Concatenate, a, _) => one_more(part_count(a)?),
        _ => Ok(1),
    }
}

/// What matches a text with an ERE, or with the text that lies above it.
fn matching(o: Operator, pattern: Option<u32>) -> ValueNode
    ensures { result ≡ matching o pattern }
{
    match pattern {
        Some(number) => ValueNode::MatchesEre(o, number),
        None => ValueNode::Operate(BinaryOperator::Infix(o)),
    }
}

impl Builder {
    /// A node that takes values off the stack and puts one on it.
    pub(crate) fn push_value(&mut self, node: ValueNode, next: u32) -> Result<u32, AllocError>
        requires { CallsFit (array_parameters_in self.old) (Node.Value node next) }
        ensures { IfOk result (λ place. Pushes self.old self.new (Node.Value node next) place) }
    {
        self.push(Node::Value(node, next))
    }

    /// A value of the program is put on the stack.
    pub(crate) fn push_constant(&mut self, value: Value, next: u32) -> Result<u32, AllocError>
        ensures { IfOk result (λ place. Pushes self.old self.new (Node.Value (ValueNode.Put (Operand.Constant value)) next) place) }
    {
        self.push_value(ValueNode::Put(Operand::Constant(value)), next)
    }

    /// The places that put 1 and 0 on the stack.
    fn push_truths(&mut self, next: u32) -> Result<(u32, u32), AllocError>
        ensures { IfOk result (λ places. PushesTruths self.old self.new places.0 places.1 next) }
    {
        let yes = self.push_constant(Value::Number(1), next)?;
        let no = self.push_constant(Value::Number(0), next)?;
        Ok((yes, no))
    }

    pub(crate) fn push_name(
        &mut self,
        scope: &Scope,
        x: &Bytes,
        next: u32,
    ) -> Result<u32, AllocError>
        requires { Stands next self.old }
        ensures { IfOk result (λ place. Builds scope.now self.old self.new place (Evaluate (Name x.now) next)) }
    {
        let variable = self.variable_of(scope, x.as_slice())?;
        self.push_value(ValueNode::Put(Operand::Variable(variable)), next)
    }

    fn push_ere(&mut self, text: &Bytes, next: u32) -> Result<u32, AllocError>
        ensures { IfOk result (λ place. PushesEre self.old self.new (λ i. ValueNode.Matches (Operand.Field 0) i) text.now place next) }
    {
        let number = self.ere_of(text)?;
        self.push_value(ValueNode::Matches(Operand::Field(0), number), next)
    }

    /// The value of an expression is put on the stack. What it needs is built behind it, so nodes are pushed from the end.
    ///
    /// # Errors
    ///
    /// Where memory is refused, or places or numbers run out.
    #[cycle(expressions)]
    pub fn lower(&mut self, scope: &Scope, e: &Expr, next: u32) -> Result<u32, AllocError>
        requires { Stands next self.old }
        ensures { IfOk result (λ place. Builds scope.now self.old self.new place (Evaluate (expr_of e.now) next)) }
    {
        match e {
            Expr::Number(n) => self.push_constant(Value::Number(*n), next),
            Expr::String(bytes) => self.push_constant(Value::Text(bytes.clone()?), next),
            Expr::Ere(ere) => self.push_ere(&ere.text, next),
            Expr::Name(x) => self.push_name(scope, x, next),
            Expr::Length => self.push_value(ValueNode::RecordLength, next),
            Expr::Element(x, list) => self.lower_element(scope, x, list, next),
            Expr::Field(e) => self.lower_field(scope, e, next),
            Expr::Group(e) => self.lower(scope, e, next),
            Expr::Unary(o, e) => self.lower_unary(scope, *o, e, next),
            Expr::Binary(o, a, b) => self.lower_binary(scope, *o, a, b, next),
            Expr::Membership(e, x) => self.lower_membership(scope, e, x, next),
            Expr::ListMembership(list, x) => self.lower_list_membership(scope, list, x, next),
            Expr::Conditional(c, a, b) => self.lower_conditional(scope, c, a, b, next),
            Expr::Assign(o, place, e) => self.lower_assign(scope, *o, place, e, next),
            Expr::PreIncrement(o, place) => self.lower_pre_increment(scope, *o, place, next),
            Expr::PostIncrement(o, place) => self.lower_post_increment(scope, *o, place, next),
            Expr::Call(function, list) => self.lower_call(scope, function, list, next),
            Expr::BuiltIn(function, list) => self.lower_built_in(scope, *function, list, next),
            Expr::Getline(place, file) => self.lower_getline(scope, place, file, next),
            Expr::PipedGetline(command, place) => {
                self.lower_piped_getline(scope, command, place, next)
            }
        }
    }

    #[cycle(expressions)]
    fn lower_element(
        &mut self,
        scope: &Scope,
        array: &Bytes,
        list: &[Expr],
        next: u32,
    ) -> Result<u32, AllocError>
        requires { Stands next self.old }
        ensures { IfOk result (λ place. Builds scope.now self.old self.new place (Evaluate (Element array.now (exprs_of list.now)) next)) }
    {
        let number = scope.array_of(array.as_slice())?;
        if let Some(key) = self.key_of(scope, list)? {
            return self.push_value(ValueNode::ReadElement(number, Some(key)), next);
        }
        let read = self.push_value(ValueNode::ReadElement(number, None), next)?;
        self.lower_key(scope, list, read)
    }

    #[cycle(expressions)]
    fn lower_unary(
        &mut self,
        scope: &Scope,
        o: UnaryOperator,
        e: &Expr,
        next: u32,
    ) -> Result<u32, AllocError>
        requires { Stands next self.old }
        ensures { IfOk result (λ place. Builds scope.now self.old self.new place (Evaluate (Unary o (expr_of e.now)) next)) }
    {
        let change = self.push_value(ValueNode::Change(o), next)?;
        self.lower(scope, e, change)
    }

    #[cycle(expressions)]
    fn lower_membership(
        &mut self,
        scope: &Scope,
        e: &Expr,
        array: &Bytes,
        next: u32,
    ) -> Result<u32, AllocError>
        requires { Stands next self.old }
        ensures { IfOk result (λ place. Builds scope.now self.old self.new place (Evaluate (Membership (expr_of e.now) array.now) next)) }
    {
        let number = scope.array_of(array.as_slice())?;
        if let Some(key) = self.operand_of(scope, e)? {
            let contains = ValueNode::Contains(number, Some(Key::At(key)));
            return self.push_value(contains, next);
        }
        let contains = self.push_value(ValueNode::Contains(number, None), next)?;
        self.lower(scope, e, contains)
    }

    /// As `lower_membership`, with several subscripts.
    #[cycle(expressions)]
    fn lower_list_membership(
        &mut self,
        scope: &Scope,
        list: &[Expr],
        array: &Bytes,
        next: u32,
    ) -> Result<u32, AllocError>
        requires { Stands next self.old }
        ensures { IfOk result (λ place. Builds scope.now self.old self.new place (Evaluate (ListMembership (exprs_of list.now) array.now) next)) }
    {
        let array = scope.array_of(array.as_slice())?;
        let contains = self.push_value(ValueNode::Contains(array, None), next)?;
        self.lower_key(scope, list, contains)
    }

    #[cycle(expressions)]
    fn lower_conditional(
        &mut self,
        scope: &Scope,
        c: &Expr,
        a: &Expr,
        b: &Expr,
        next: u32,
    ) -> Result<u32, AllocError>
        requires { Stands next self.old }
        ensures { IfOk result (λ place. Builds scope.now self.old self.new place (Evaluate (Conditional (expr_of c.now) (expr_of a.now) (expr_of b.now)) next)) }
    {
        let here = self.lower(scope, a, next)?;
        let other = self.lower(scope, b, next)?;
        self.lower_test(scope, c, here, other)
    }

    /// Two operands and what joins them.
    #[cycle(expressions)]
    pub(crate) fn lower_binary(
        &mut self,
        scope: &Scope,
        o: BinaryOperator,
        a: &Expr,
        b: &Expr,
        next: u32,
    ) -> Result<u32, AllocError>
        requires { Stands next self.old }
        ensures { IfOk result (λ place. Builds scope.now self.old self.new place (Evaluate (Binary o (expr_of a.now) (expr_of b.now)) next)) }
    {
        if is_and(o) {
            let (yes, no) = self.push_truths(next)?;
            let second = self.lower_test(scope, b, yes, no)?;
            return self.lower_test(scope, a, second, no);
        }
        if is_or(o) {
            let (yes, no) = self.push_truths(next)?;
            let second = self.lower_test(scope, b, yes, no)?;
            return self.lower_test(scope, a, yes, second);
        }
        if let Some(o) = matching_operator(o) {
            let pattern = self.pattern_of(b)?;
            let matches = self.push_value(matching(o, pattern), next)?;
            let right = self.lower_unless_ere(scope, b, matches)?;
            return self.lower(scope, a, right);
        }
        match o {
            BinaryOperator::Concatenate if is_concatenation(a) => {
                self.lower_joined(scope, a, b, next)
            }
            _ => self.lower_strict(scope, o, a, b, next),
        }
    }

    /// Two values and what joins them, of which each may be read where it stands.
    #[cycle(expressions)]
    fn lower_strict(
        &mut self,
        scope: &Scope,
        o: BinaryOperator,
        a: &Expr,
        b: &Expr,
        next: u32,
    ) -> Result<u32, AllocError>
        requires stands { Stands next self.old }
        requires strict { is_strict o ≡ true }
        ensures { IfOk result (λ place. Builds scope.now self.old self.new place (Evaluate (Binary o (expr_of a.now) (expr_of b.now)) next)) }
    {
        let Some(right) = self.operand_of(scope, b)? else {
            let operate = self.push_value(ValueNode::Operate(o), next)?;
            let right = self.lower(scope, b, operate)?;
            return self.lower(scope, a, right);
        };
        let Some(left) = self.operand_of(scope, a)? else {
            let operate = self.push_value(ValueNode::OperateWith(o, right), next)?;
            return self.lower(scope, a, operate);
        };
        self.push_value(ValueNode::OperateOn(o, left, right), next)
    }

    /// A concatenation of more than two parts.
    #[cycle(expressions)]
    fn lower_joined(
        &mut self,
        scope: &Scope,
        a: &Expr,
        b: &Expr,
        next: u32,
    ) -> Result<u32, AllocError>
        requires { Stands next self.old }
        ensures { IfOk result (λ place. Builds scope.now self.old self.new place (Evaluate (Binary Concatenate (expr_of a.now) (expr_of b.now)) next)) }
    {
        let count = one_more(part_count(a)?)?;
        let join = self.push_value(ValueNode::ConcatenateAll(count), next)?;
        let last = self.lower(scope, b, join)?;
        self.lower_parts(scope, a, last)
    }

    /// The field of a number, which may be read where it stands.
    #[cycle(expressions)]
    fn lower_field(&mut self, scope: &Scope, number: &Expr, next: u32) -> Result<u32, AllocError>
        requires { Stands next self.old }
        ensures { IfOk result (λ place. Builds scope.now self.old self.new place (Evaluate (Field (expr_of number.now)) next)) }
    {
        let Some(operand) = self.field_operand(scope, number)? else {
            let read = self.push_value(ValueNode::ReadField, next)?;
            return self.lower(scope, number, read);
        };
        self.push_value(ValueNode::Put(operand), next)
    }

    /// The values of the parts of a concatenation are put on the stack, or that of another expression.
    #[cycle(expressions)]
    fn lower_parts(&mut self, scope: &Scope, e: &Expr, next: u32) -> Result<u32, AllocError>
        requires { Stands next self.old }
        ensures { IfOk result (λ place. Builds scope.now self.old self.new place (EvaluateAll (parts_of (expr_of e.now)) next)) }
    {
        let Expr::Binary(BinaryOperator::Concatenate, a, b) = e else {
            return self.lower(scope, e, next);
        };
        let last = self.lower(scope, b, next)?;
        self.lower_parts(scope, a, last)
    }
}
