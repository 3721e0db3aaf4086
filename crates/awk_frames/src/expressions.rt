// Makes the nodes of expressions that hold a list: none where the list is none or the node is too high.

ghost use Rattle.std.specs.Prelude.{◌≡◌, IfOk};
ghost use Rattle.awk_grammar.specs.definitions.Tree as t;
ghost use Rattle.awk_grammar.specs.definitions.Height.{max_height, height_of};
ghost use Rattle.awk_grammar.specs.support.Nodes.{over_one};
ghost use Rattle.awk_frames.specs.support.CheckedExpressions.{checked_expr, checked_exprs};

use crate::checked_expressions::{CheckedExpr, CheckedExprs};
use awk_grammar::tree::Expr;
use awk_lex::token::BuiltIn;
use awk_value::Bytes;
use std::alloc::{AllocError, Global};

/// `name[list]`
pub fn element(
    alloc: Global,
    name: Bytes,
    subscripts: Option<CheckedExprs>,
) -> Result<Option<CheckedExpr>, AllocError>
    ensures { IfOk result (λ e. checked_expr e ≡ over_one max_height height_of (t.Element name) (checked_exprs subscripts)) }
{
    let Some(subscripts) = subscripts else {
        return Ok(None);
    };
    let height = subscripts.height + 1;
    CheckedExpr::of(alloc, Expr::Element(name, subscripts.exprs), height)
}

/// A call of a function of the program.
pub fn call(
    alloc: Global,
    name: Bytes,
    arguments: Option<CheckedExprs>,
) -> Result<Option<CheckedExpr>, AllocError>
    ensures { IfOk result (λ e. checked_expr e ≡ over_one max_height height_of (t.Call name) (checked_exprs arguments)) }
{
    let Some(arguments) = arguments else {
        return Ok(None);
    };
    let height = arguments.height + 1;
    CheckedExpr::of(alloc, Expr::Call(name, arguments.exprs), height)
}

/// A call of a built-in function.
pub fn built_in(
    alloc: Global,
    function: BuiltIn,
    arguments: Option<CheckedExprs>,
) -> Result<Option<CheckedExpr>, AllocError>
    ensures { IfOk result (λ e. checked_expr e ≡ over_one max_height height_of (t.BuiltIn function) (checked_exprs arguments)) }
{
    let Some(arguments) = arguments else {
        return Ok(None);
    };
    let height = arguments.height + 1;
    CheckedExpr::of(alloc, Expr::BuiltIn(function, arguments.exprs), height)
}

/// `(list) in array`
pub fn list_membership(
    alloc: Global,
    subscripts: Option<CheckedExprs>,
    array: Bytes,
) -> Result<Option<CheckedExpr>, AllocError>
    ensures { IfOk result
        (λ e. checked_expr e ≡ over_one max_height height_of (λ x. t.ListMembership x array) (checked_exprs subscripts)) }
{
    let Some(subscripts) = subscripts else {
        return Ok(None);
    };
    let height = subscripts.height + 1;
    CheckedExpr::of(alloc, Expr::ListMembership(subscripts.exprs, array), height)
}
