// The nodes of expressions that a frame ends with its last child: none where a child is none or the node is too high.

ghost use Rattle.std.specs.Prelude.{◌≡◌, IfOk};
ghost use Rattle.awk_grammar.specs.definitions.Tree as t;
ghost use Rattle.awk_grammar.specs.definitions.Height.{max_height, height_of};
ghost use Rattle.awk_grammar.specs.support.Nodes.{over_one, over_two, over_three};
ghost use Rattle.awk_frames.specs.support.CheckedExpressions.{checked_expr, checked_child};
ghost use Rattle.awk_frames.specs.support.Held.{held_of};

use crate::checked_expressions::CheckedExpr;
use crate::child::OptionalChild;
use crate::held::HeldChild;
use awk_grammar::tree::{BinaryOperator, Expr, UnaryOperator};
use awk_lex::token::{AssignmentOperator, IncrementOperator};
use std::alloc::{AllocError, Global};

/// `$` and the field's number.
pub(crate) fn field(
    alloc: Global,
    number: Option<CheckedExpr>,
) -> Result<Option<CheckedExpr>, AllocError>
    ensures { IfOk result (λ e. checked_expr e ≡ over_one max_height height_of t.Field (checked_expr number)) }
{
    let Some(number) = number else {
        return Ok(None);
    };
    let height = number.height + 1;
    CheckedExpr::of(alloc, Expr::Field(number.expr), height)
}

/// `++ place` or `-- place`
pub(crate) fn pre_increment(
    alloc: Global,
    operator: IncrementOperator,
    place: Option<CheckedExpr>,
) -> Result<Option<CheckedExpr>, AllocError>
    ensures { IfOk result (λ e. checked_expr e ≡ over_one max_height height_of (t.PreIncrement operator) (checked_expr place)) }
{
    let Some(place) = place else {
        return Ok(None);
    };
    let height = place.height + 1;
    CheckedExpr::of(alloc, Expr::PreIncrement(operator, place.expr), height)
}

/// A sign or `!` before an operand.
pub(crate) fn unary(
    alloc: Global,
    operator: UnaryOperator,
    operand: Option<CheckedExpr>,
) -> Result<Option<CheckedExpr>, AllocError>
    ensures { IfOk result (λ e. checked_expr e ≡ over_one max_height height_of (t.Unary operator) (checked_expr operand)) }
{
    let Some(operand) = operand else {
        return Ok(None);
    };
    let height = operand.height + 1;
    CheckedExpr::of(alloc, Expr::Unary(operator, operand.expr), height)
}

/// An operator between two operands.
pub(crate) fn binary(
    alloc: Global,
    operator: BinaryOperator,
    left: Option<CheckedExpr>,
    right: Option<CheckedExpr>,
) -> Result<Option<CheckedExpr>, AllocError>
    ensures { IfOk result
        (λ e. checked_expr e ≡ over_two max_height height_of (t.Binary operator) (checked_expr left) (checked_expr right)) }
{
    let Some(left) = left else {
        drop(right);
        return Ok(None);
    };
    let Some(right) = right else {
        drop(left);
        return Ok(None);
    };
    let height = left.height.max(right.height) + 1;
    CheckedExpr::of(alloc, Expr::Binary(operator, left.expr, right.expr), height)
}

/// `place = expr`, `place += expr` and so on.
pub(crate) fn assign(
    alloc: Global,
    operator: AssignmentOperator,
    place: Option<CheckedExpr>,
    value: Option<CheckedExpr>,
) -> Result<Option<CheckedExpr>, AllocError>
    ensures { IfOk result
        (λ e. checked_expr e ≡ over_two max_height height_of (t.Assign operator) (checked_expr place) (checked_expr value)) }
{
    let Some(place) = place else {
        drop(value);
        return Ok(None);
    };
    let Some(value) = value else {
        drop(place);
        return Ok(None);
    };
    let height = place.height.max(value.height) + 1;
    CheckedExpr::of(
        alloc,
        Expr::Assign(operator, place.expr, value.expr),
        height,
    )
}

/// `expr ? expr : expr`
pub(crate) fn conditional(
    alloc: Global,
    condition: Option<CheckedExpr>,
    first: Option<CheckedExpr>,
    second: Option<CheckedExpr>,
) -> Result<Option<CheckedExpr>, AllocError>
    ensures { IfOk result
        (λ e. checked_expr e
        ≡ over_three max_height height_of t.Conditional (checked_expr condition) (checked_expr first)
        (checked_expr second)) }
{
    let Some(condition) = condition else {
        drop(first);
        drop(second);
        return Ok(None);
    };
    let Some(first) = first else {
        drop(condition);
        drop(second);
        return Ok(None);
    };
    let Some(second) = second else {
        drop(condition);
        drop(first);
        return Ok(None);
    };
    let height = condition.height.max(first.height.max(second.height)) + 1;
    CheckedExpr::of(
        alloc,
        Expr::Conditional(condition.expr, first.expr, second.expr),
        height,
    )
}

// The child as a node holds it, none if it is too high.
fn held(child: OptionalChild) -> Option<HeldChild>
    ensures { held_of result ≡ checked_child child }
{
    match child {
        OptionalChild::Absent => Some(HeldChild {
            expr: None,
            height: 0,
        }),
        OptionalChild::Present(None) => None,
        OptionalChild::Present(Some(child)) => Some(HeldChild {
            expr: Some(child.expr),
            height: child.height,
        }),
    }
}

/// `getline`, with its place and its file where it has them.
pub(crate) fn getline(
    alloc: Global,
    place: OptionalChild,
    file: OptionalChild,
) -> Result<Option<CheckedExpr>, AllocError>
    ensures { IfOk result
        (λ e. checked_expr e ≡ over_two max_height height_of t.Getline (checked_child place) (checked_child file)) }
{
    let place = held(place);
    let file = held(file);
    let Some(place) = place else {
        drop(file);
        return Ok(None);
    };
    let Some(file) = file else {
        drop(place);
        return Ok(None);
    };
    let height = place.height.max(file.height) + 1;
    CheckedExpr::of(alloc, Expr::Getline(place.expr, file.expr), height)
}

/// `expr | getline`, with its place where it has one.
pub(crate) fn piped_getline(
    alloc: Global,
    command: Option<CheckedExpr>,
    place: OptionalChild,
) -> Result<Option<CheckedExpr>, AllocError>
    ensures { IfOk result
        (λ e. checked_expr e ≡ over_two max_height height_of t.PipedGetline (checked_expr command) (checked_child place)) }
{
    let place = held(place);
    let Some(command) = command else {
        drop(place);
        return Ok(None);
    };
    let Some(place) = place else {
        drop(command);
        return Ok(None);
    };
    let height = command.height.max(place.height) + 1;
    CheckedExpr::of(alloc, Expr::PipedGetline(command.expr, place.expr), height)
}
