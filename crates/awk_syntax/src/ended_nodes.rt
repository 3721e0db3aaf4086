// The nodes that the end of an expression makes: none where a child is none or the node is too high.

ghost use Rattle.std.specs.Prelude.{◌≡◌, IfOk};
ghost use Rattle.awk_grammar.specs.definitions.Tree as t;
ghost use Rattle.awk_grammar.specs.definitions.Height.{max_height, height_of, optional_height, height_of_simple};
ghost use Rattle.awk_grammar.specs.definitions.Height.{height_of_statement, height_of_pattern};
ghost use Rattle.awk_grammar.specs.support.Nodes.{over_one, over_two};
ghost use Rattle.awk_grammar.specs.support.ParserStatements as parser;
ghost use Rattle.awk_frames.specs.support.CheckedExpressions.{checked_expr};
ghost use Rattle.awk_frames.specs.support.CheckedStatementNodes.{checked_print_list, checked_simple, checked_optional_expr};
ghost use Rattle.awk_frames.specs.support.CheckedStatementNodes.{checked_statement, checked_pattern};

use awk_frames::checked_expressions::CheckedExpr;
use awk_frames::checked_statements::{
    CheckedOptionalExpr, CheckedPattern, CheckedPrintList, CheckedSimple, CheckedStatement,
};
use awk_grammar::tree::{
    Expr, Output, Pattern, PrintForm, Redirection, SimpleStatement, Statement,
};
use std::alloc::{AllocError, Global};

/// An expression in parentheses.
pub(crate) fn group(
    alloc: Global,
    inside: Option<CheckedExpr>,
) -> Result<Option<CheckedExpr>, AllocError>
    ensures { IfOk result (λ e. checked_expr e ≡ over_one max_height height_of t.Group (checked_expr inside)) }
{
    let Some(inside) = inside else {
        return Ok(None);
    };
    let height = inside.height + 1;
    CheckedExpr::of(alloc, Expr::Group(inside.expr), height)
}

/// An expression as a statement.
pub(crate) fn expression(expr: Option<CheckedExpr>) -> Option<CheckedSimple>
    ensures { checked_simple result ≡ over_one max_height height_of_simple t.Expression (checked_expr expr) }
{
    let expr = expr?;
    let height = expr.height + 1;
    CheckedSimple::of(SimpleStatement::Expression(expr.expr), height)
}

/// A print that is redirected.
pub(crate) fn print_to(
    form: PrintForm,
    redirection: Redirection,
    list: Option<CheckedPrintList>,
    target: Option<CheckedExpr>,
) -> Option<CheckedSimple>
    ensures { checked_simple result
        ≡ over_two max_height height_of_simple (parser.printed_to form redirection) (checked_print_list list)
        (checked_expr target) }
{
    let Some(list) = list else {
        drop(target);
        return None;
    };
    let Some(target) = target else {
        drop(list);
        return None;
    };
    let height = list.height.max(target.height) + 1;
    let output = Output::Redirected(redirection, target.expr);
    CheckedSimple::of(SimpleStatement::Print(form, list.list, output), height)
}

/// An expression that may be left out, and is there.
pub(crate) fn present(expr: Option<CheckedExpr>) -> Option<CheckedOptionalExpr>
    ensures { checked_optional_expr result ≡ over_one max_height optional_height t.AnExpr (checked_expr expr) }
{
    let expr = expr?;
    let height = expr.height;
    let expr = Some(expr.expr);
    Some(CheckedOptionalExpr { expr, height })
}

/// `do`
pub(crate) fn do_loop(
    alloc: Global,
    body: Option<CheckedStatement>,
    condition: Option<CheckedExpr>,
) -> Result<Option<CheckedStatement>, AllocError>
    ensures { IfOk result
        (λ s. checked_statement s
        ≡ over_two max_height height_of_statement t.Do (checked_statement body) (checked_expr condition)) }
{
    let Some(body) = body else {
        drop(condition);
        return Ok(None);
    };
    let Some(condition) = condition else {
        drop(body);
        return Ok(None);
    };
    let height = body.height.max(condition.height) + 1;
    CheckedStatement::of(alloc, Statement::Do(body.statement, condition.expr), height)
}

/// A range.
pub(crate) fn range(from: Option<CheckedExpr>, to: Option<CheckedExpr>) -> Option<CheckedPattern>
    ensures { checked_pattern result ≡ over_two max_height height_of_pattern t.Range (checked_expr from) (checked_expr to) }
{
    let Some(from) = from else {
        drop(to);
        return None;
    };
    let Some(to) = to else {
        drop(from);
        return None;
    };
    let height = from.height.max(to.height);
    let pattern = Pattern::Range(from.expr, to.expr);
    Some(CheckedPattern { pattern, height })
}
