// The nodes of statements and of the parts of a `for`: none where a child is none or the node is too high.

ghost use Rattle.std.specs.Prelude.{◌≡◌, Some, IfOk};
ghost use Rattle.awk_grammar.specs.definitions.Tree as t;
ghost use Rattle.awk_grammar.specs.definitions.Height.{max_height, height_of_statement, height_of_optional_simple, tallest_of};
ghost use Rattle.awk_grammar.specs.support.Nodes.{limited, over_one, over_two, over_three, over_four, push};
ghost use Rattle.awk_frames.specs.support.CheckedExpressions.{checked_expr};
ghost use Rattle.awk_frames.specs.support.CheckedStatementNodes.{checked_simple, checked_part, checked_optional_expr};
ghost use Rattle.awk_frames.specs.support.CheckedStatementNodes.{checked_statement, checked_statements};

use awk_frames::checked_expressions::CheckedExpr;
use awk_frames::checked_statements::{
    CheckedOptionalExpr, CheckedPart, CheckedSimple, CheckedStatement, CheckedStatements,
};
use awk_grammar::tree::{ForParts, SimpleStatement, Statement};
use awk_value::Bytes;
use std::alloc::{AllocError, Global};

/// `next`
pub(crate) fn next() -> CheckedSimple
    ensures { checked_simple (Some result) ≡ limited max_height 1 t.Next }
{
    CheckedSimple {
        simple: SimpleStatement::Next,
        height: 1,
    }
}

/// `nextfile`
pub(crate) fn next_file() -> CheckedSimple
    ensures { checked_simple (Some result) ≡ limited max_height 1 t.NextFile }
{
    CheckedSimple {
        simple: SimpleStatement::NextFile,
        height: 1,
    }
}

/// `break`
pub(crate) fn break_statement() -> CheckedSimple
    ensures { checked_simple (Some result) ≡ limited max_height 1 t.Break }
{
    CheckedSimple {
        simple: SimpleStatement::Break,
        height: 1,
    }
}

/// `continue`
pub(crate) fn continue_statement() -> CheckedSimple
    ensures { checked_simple (Some result) ≡ limited max_height 1 t.Continue }
{
    CheckedSimple {
        simple: SimpleStatement::Continue,
        height: 1,
    }
}

/// A part of a `for` that is there.
pub(crate) fn part(simple: Option<CheckedSimple>) -> Option<CheckedPart>
    ensures { checked_part result ≡ over_one max_height height_of_optional_simple t.ASimple (checked_simple simple) }
{
    let simple = simple?;
    let height = simple.height;
    let part = Some(simple.simple);
    Some(CheckedPart { part, height })
}

/// A `;` alone.
pub(crate) fn empty(alloc: Global) -> Result<Option<CheckedStatement>, AllocError>
    ensures { IfOk result (λ s. checked_statement s ≡ limited max_height 1 t.Empty) }
{
    CheckedStatement::of(alloc, Statement::Empty, 1)
}

/// A block.
pub(crate) fn block(
    alloc: Global,
    statements: Option<CheckedStatements>,
) -> Result<Option<CheckedStatement>, AllocError>
    ensures { IfOk result
        (λ s. checked_statement s ≡ over_one max_height height_of_statement t.Block (checked_statements statements)) }
{
    let Some(statements) = statements else {
        return Ok(None);
    };
    let height = statements.height + 1;
    CheckedStatement::of(alloc, Statement::Block(statements.statements), height)
}

/// `if` without `else`
pub(crate) fn if_statement(
    alloc: Global,
    condition: Option<CheckedExpr>,
    body: Option<CheckedStatement>,
) -> Result<Option<CheckedStatement>, AllocError>
    ensures { IfOk result
        (λ s. checked_statement s
        ≡ over_two max_height height_of_statement t.If (checked_expr condition) (checked_statement body)) }
{
    let Some(condition) = condition else {
        drop(body);
        return Ok(None);
    };
    let Some(body) = body else {
        drop(condition);
        return Ok(None);
    };
    let height = condition.height.max(body.height) + 1;
    CheckedStatement::of(alloc, Statement::If(condition.expr, body.statement), height)
}

/// `if` with `else`
pub(crate) fn if_else(
    alloc: Global,
    condition: Option<CheckedExpr>,
    body: Option<CheckedStatement>,
    other: Option<CheckedStatement>,
) -> Result<Option<CheckedStatement>, AllocError>
    ensures { IfOk result
        (λ s. checked_statement s
        ≡ over_three max_height height_of_statement t.IfElse (checked_expr condition) (checked_statement body)
        (checked_statement other)) }
{
    let Some(condition) = condition else {
        drop(body);
        drop(other);
        return Ok(None);
    };
    let Some(body) = body else {
        drop(condition);
        drop(other);
        return Ok(None);
    };
    let Some(other) = other else {
        drop(condition);
        drop(body);
        return Ok(None);
    };
    let height = condition.height.max(body.height.max(other.height)) + 1;
    CheckedStatement::of(
        alloc,
        Statement::IfElse(condition.expr, body.statement, other.statement),
        height,
    )
}

/// `while`
pub(crate) fn while_loop(
    alloc: Global,
    condition: Option<CheckedExpr>,
    body: Option<CheckedStatement>,
) -> Result<Option<CheckedStatement>, AllocError>
    ensures { IfOk result
        (λ s. checked_statement s
        ≡ over_two max_height height_of_statement t.While (checked_expr condition) (checked_statement body)) }
{
    let Some(condition) = condition else {
        drop(body);
        return Ok(None);
    };
    let Some(body) = body else {
        drop(condition);
        return Ok(None);
    };
    let height = condition.height.max(body.height) + 1;
    CheckedStatement::of(
        alloc,
        Statement::While(condition.expr, body.statement),
        height,
    )
}

/// `for (name in array)`
pub(crate) fn for_in(
    alloc: Global,
    name: Bytes,
    array: Bytes,
    body: Option<CheckedStatement>,
) -> Result<Option<CheckedStatement>, AllocError>
    ensures { IfOk result
        (λ s. checked_statement s ≡ over_one max_height height_of_statement (t.ForIn name array) (checked_statement body)) }
{
    let Some(body) = body else {
        return Ok(None);
    };
    let height = body.height + 1;
    CheckedStatement::of(alloc, Statement::ForIn(name, array, body.statement), height)
}

/// `for` with its parts
pub(crate) fn for_loop(
    alloc: Global,
    first: Option<CheckedPart>,
    condition: Option<CheckedOptionalExpr>,
    last: Option<CheckedPart>,
    body: Option<CheckedStatement>,
) -> Result<Option<CheckedStatement>, AllocError>
    ensures { IfOk result
        (λ s. checked_statement s
        ≡ over_four max_height height_of_statement t.For (checked_part first) (checked_optional_expr condition)
        (checked_part last) (checked_statement body)) }
{
    let Some(first) = first else {
        drop(condition);
        drop(last);
        drop(body);
        return Ok(None);
    };
    let Some(condition) = condition else {
        drop(first);
        drop(last);
        drop(body);
        return Ok(None);
    };
    let Some(last) = last else {
        drop(first);
        drop(condition);
        drop(body);
        return Ok(None);
    };
    let Some(body) = body else {
        drop(first);
        drop(condition);
        drop(last);
        return Ok(None);
    };
    let height = first
        .height
        .max(condition.height.max(last.height.max(body.height)))
        + 1;
    let parts = ForParts {
        first: first.part,
        condition: condition.expr,
        last: last.part,
    };
    let parts = Box::new(alloc, parts)?;
    CheckedStatement::of(alloc, Statement::For(parts, body.statement), height)
}

/// A block with one statement more.
pub(crate) fn one_more_statement(
    statements: Option<CheckedStatements>,
    statement: Option<CheckedStatement>,
) -> Result<Option<CheckedStatements>, AllocError>
    ensures { IfOk result (λ all. checked_statements all
        ≡ over_two max_height tallest_of push (checked_statements statements) (checked_statement statement)) }
{
    let Some(checked) = statements else {
        drop(statement);
        return Ok(None);
    };
    let Some(statement) = statement else {
        drop(checked);
        return Ok(None);
    };
    let height = checked.height.max(statement.height);
    let mut statements = checked.statements;
    statements.push(Box::into_inner(statement.statement))?;
    Ok(Some(CheckedStatements { statements, height }))
}
