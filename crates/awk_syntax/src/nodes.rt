// The nodes that a token behind an operand makes: none where the operand's tree is none or the node is too high.

ghost use Rattle.std.specs.Prelude.{◌≡◌, IfOk};
ghost use Rattle.awk_grammar.specs.definitions.Tree as t;
ghost use Rattle.awk_grammar.specs.definitions.Height.{max_height, height_of};
ghost use Rattle.awk_grammar.specs.support.Nodes.{over_one};
ghost use Rattle.awk_frames.specs.support.CheckedExpressions.{checked_expr};

use awk_frames::checked_expressions::CheckedExpr;
use awk_grammar::tree::Expr;
use awk_lex::token::IncrementOperator;
use awk_value::Bytes;
use std::alloc::{AllocError, Global};

/// `place ++` or `place --`
pub(crate) fn post_increment(
    alloc: Global,
    operator: IncrementOperator,
    place: Option<CheckedExpr>,
) -> Result<Option<CheckedExpr>, AllocError>
    ensures { IfOk result
        (λ e. checked_expr e ≡ over_one max_height height_of (t.PostIncrement operator) (checked_expr place)) }
{
    let Some(place) = place else {
        return Ok(None);
    };
    let height = place.height + 1;
    CheckedExpr::of(alloc, Expr::PostIncrement(operator, place.expr), height)
}

/// `expr in array`
pub(crate) fn membership(
    alloc: Global,
    subscript: Option<CheckedExpr>,
    array: Bytes,
) -> Result<Option<CheckedExpr>, AllocError>
    ensures { IfOk result
        (λ e. checked_expr e ≡ over_one max_height height_of (λ x. t.Membership x array) (checked_expr subscript)) }
{
    let Some(subscript) = subscript else {
        return Ok(None);
    };
    let height = subscript.height + 1;
    CheckedExpr::of(alloc, Expr::Membership(subscript.expr, array), height)
}
