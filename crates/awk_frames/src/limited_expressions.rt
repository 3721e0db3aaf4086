// Expressions by their heights: none where that is too great.

ghost use Rattle.std.specs.Prelude.{◌≡◌, IfOk};
ghost use Rattle.awk_grammar.specs.definitions.Height.{max_height, height_of};
ghost use Rattle.awk_grammar.specs.definitions.View.{expr_of};
ghost use Rattle.awk_grammar.specs.support.Nodes.{limited};
ghost use Rattle.awk_frames.specs.support.CheckedExpressions.{checked_expr};

use crate::checked_expressions::CheckedExpr;
use awk_grammar::height::MAX_HEIGHT;
use awk_grammar::tree::Expr;
use std::alloc::{AllocError, Global};

impl CheckedExpr {
    /// The node of this height, unless that is too high.
    pub fn of(alloc: Global, expr: Expr, height: u32) -> Result<Option<CheckedExpr>, AllocError>
        requires { height ≡ height_of (expr_of expr) }
        ensures { IfOk result (λ e. checked_expr e ≡ limited max_height (height_of (expr_of expr)) (expr_of expr)) }
    {
        if height > MAX_HEIGHT {
            drop(expr);
            return Ok(None);
        }
        let expr = Box::new(alloc, expr)?;
        Ok(Some(CheckedExpr { expr, height }))
    }
}
