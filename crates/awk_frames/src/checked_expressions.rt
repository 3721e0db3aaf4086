// Checked trees: each is known not to be too high, and has its height beside it.

ghost use Rattle.std.specs.Prelude.{◌≡◌, ◌≤◌, []};
ghost use Rattle.awk_grammar.specs.definitions.Height.{max_height, height_of, tallest};
ghost use Rattle.awk_grammar.specs.definitions.View.{expr_of, exprs_of};

use awk_grammar::tree::Expr;
use std::alloc::Global;

/// An expression that is not too high. It stands in a box, as it does in the node above it.
#[derive(Drop)]
pub struct CheckedExpr {
    pub expr: Box<Expr>,
    pub height: u32,
    ghost counted: { height ≡ height_of (expr_of expr.value) },
    ghost low: { height ≤ max_height },
}

/// The expressions of a list, and the greatest height among them.
#[derive(Drop)]
pub struct CheckedExprs {
    pub exprs: Vec<Expr>,
    pub height: u32,
    ghost counted: { height ≡ tallest (exprs_of exprs.items) },
    ghost low: { height ≤ max_height },
}

impl CheckedExprs {
    /// None so far.
    pub fn new(alloc: Global) -> CheckedExprs
        ensures { result.exprs.items ≡ [] }
    {
        CheckedExprs {
            exprs: Vec::new(alloc),
            height: 0,
        }
    }
}
