// Lists of expressions, which grow at their ends.

ghost use Rattle.std.specs.Prelude.{◌≡◌, IfOk};
ghost use Rattle.awk_grammar.specs.definitions.Height.{max_height, tallest};
ghost use Rattle.awk_grammar.specs.support.Nodes.{over_two, append};
ghost use Rattle.awk_frames.specs.support.CheckedExpressions.{checked_expr, checked_exprs};

use crate::checked_expressions::{CheckedExpr, CheckedExprs};
use std::alloc::AllocError;

/// A list with one expression more.
pub(crate) fn one_more_expr(
    list: Option<CheckedExprs>,
    expr: Option<CheckedExpr>,
) -> Result<Option<CheckedExprs>, AllocError>
    ensures { IfOk result (λ xs. checked_exprs xs
        ≡ over_two max_height tallest append (checked_exprs list) (checked_expr expr)) }
{
    let Some(list) = list else {
        drop(expr);
        return Ok(None);
    };
    let Some(expr) = expr else {
        drop(list);
        return Ok(None);
    };
    let height = list.height.max(expr.height);
    let mut exprs = list.exprs;
    exprs.push(Box::into_inner(expr.expr))?;
    Ok(Some(CheckedExprs { exprs, height }))
}
