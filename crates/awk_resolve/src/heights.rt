// How high parts of a program are.

ghost use Rattle.std.specs.Prelude.{◌≡◌, ◌+◌, max, IfOk};
ghost use Rattle.awk_grammar.specs.Height.{height_of, tallest, optional_height, height_of_print_list, height_of_output, height_of_simple};
ghost use Rattle.awk_grammar.specs.Height.{height_of_optional_simple, height_of_statement, tallest_of, height_of_block};
ghost use Rattle.awk_grammar.specs.View.{expr_of, exprs_of, optional_expr_of, print_list_of, output_of, simple_of, optional_simple_of, statement_of, statements_of};

use awk_grammar::tree::{Expr, ForParts, Output, PrintList, SimpleStatement, Statement};
use std::alloc::AllocError;

/// What stands above parts of this height.
fn above(height: u64) -> Result<u64, AllocError>
    ensures { IfOk result (λ sum. sum ≡ 1 + height) }
{
    height.checked_add(1).ok_or(AllocError)
}

#[cycle(heights)]
fn height_of(e: &Expr) -> Result<u64, AllocError>
    ensures { IfOk result (λ height. height ≡ height_of (expr_of e.now)) }
{
    match e {
        Expr::Number(_) | Expr::String(_) | Expr::Ere(_) | Expr::Name(_) | Expr::Length => Ok(1),
        Expr::Element(_, list)
        | Expr::Call(_, list)
        | Expr::BuiltIn(_, list)
        | Expr::ListMembership(list, _) => above(tallest(list)?),
        Expr::Field(e)
        | Expr::Group(e)
        | Expr::PreIncrement(_, e)
        | Expr::PostIncrement(_, e)
        | Expr::Unary(_, e)
        | Expr::Membership(e, _) => above(height_of(e)?),
        Expr::Getline(place, file) => {
            let place = optional_height(place)?;
            above(place.max(optional_height(file)?))
        }
        Expr::PipedGetline(command, place) => {
            let command = height_of(command)?;
            above(command.max(optional_height(place)?))
        }
        Expr::Binary(_, a, b) | Expr::Assign(_, a, b) => {
            let a = height_of(a)?;
            above(a.max(height_of(b)?))
        }
        Expr::Conditional(c, a, b) => {
            let c = height_of(c)?;
            let a = height_of(a)?;
            above(c.max(a.max(height_of(b)?)))
        }
    }
}

#[cycle(heights)]
fn tallest(list: &[Expr]) -> Result<u64, AllocError>
    ensures { IfOk result (λ height. height ≡ tallest (exprs_of list.now)) }
{
    let mut height: u64 = 0;
    for e in list {
        height = height.max(height_of(e)?);
    }
    Ok(height)
}

#[cycle(heights)]
fn optional_height(e: &Option<Box<Expr>>) -> Result<u64, AllocError>
    ensures { IfOk result (λ height. height ≡ optional_height (optional_expr_of e.now)) }
{
    match e {
        None => Ok(0),
        Some(e) => height_of(e),
    }
}

fn height_of_print_list(list: &PrintList) -> Result<u64, AllocError>
    ensures { IfOk result (λ height. height ≡ height_of_print_list (print_list_of list.now)) }
{
    match list {
        PrintList::Bare(list) => tallest(list),
        PrintList::Parenthesized(list) => tallest(list),
    }
}

fn height_of_output(output: &Output) -> Result<u64, AllocError>
    ensures { IfOk result (λ height. height ≡ height_of_output (output_of output.now)) }
{
    match output {
        Output::Standard => Ok(0),
        Output::Redirected(_, target) => height_of(target),
    }
}

fn height_of_simple(simple: &SimpleStatement) -> Result<u64, AllocError>
    ensures { IfOk result (λ height. height ≡ height_of_simple (simple_of simple.now)) }
{
    match simple {
        SimpleStatement::Expression(e) => above(height_of(e)?),
        SimpleStatement::Print(_, list, output) => {
            let list = height_of_print_list(list)?;
            above(list.max(height_of_output(output)?))
        }
        SimpleStatement::Delete(_, list) => above(tallest(list)?),
        SimpleStatement::DeleteAll(_)
        | SimpleStatement::Next
        | SimpleStatement::NextFile
        | SimpleStatement::Break
        | SimpleStatement::Continue => Ok(1),
        SimpleStatement::Exit(e) | SimpleStatement::Return(e) => above(optional_height(e)?),
    }
}

fn height_of_part(part: &Option<SimpleStatement>) -> Result<u64, AllocError>
    ensures { IfOk result (λ height. height ≡ height_of_optional_simple (optional_simple_of part.now)) }
{
    match part {
        None => Ok(0),
        Some(simple) => height_of_simple(simple),
    }
}

/// The tallest of what stands between the parentheses of a `for`, and of its body, which is so high.
fn height_of_for(parts: &ForParts, body: u64) -> Result<u64, AllocError>
    ensures { IfOk result (λ height. height ≡ max (height_of_optional_simple (optional_simple_of parts.now.first))
        (max (optional_height (optional_expr_of parts.now.condition)) (max (height_of_optional_simple (optional_simple_of parts.now.last)) body))) }
{
    let first = height_of_part(&parts.first)?;
    let condition = optional_height(&parts.condition)?;
    let last = height_of_part(&parts.last)?;
    Ok(first.max(condition.max(last.max(body))))
}

#[cycle(block_heights)]
fn height_of_statement(s: &Statement) -> Result<u64, AllocError>
    ensures { IfOk result (λ height. height ≡ height_of_statement (statement_of s.now)) }
{
    match s {
        Statement::Empty => Ok(1),
        Statement::Simple(simple) => height_of_simple(simple),
        Statement::Block(all) => block_height(all),
        Statement::If(c, s) | Statement::While(c, s) => {
            let c = height_of(c)?;
            above(c.max(height_of_statement(s)?))
        }
        Statement::IfElse(c, s, other) => {
            let c = height_of(c)?;
            let s = height_of_statement(s)?;
            above(c.max(s.max(height_of_statement(other)?)))
        }
        Statement::Do(s, c) => {
            let s = height_of_statement(s)?;
            above(s.max(height_of(c)?))
        }
        Statement::ForIn(_, _, s) => above(height_of_statement(s)?),
        Statement::For(parts, s) => {
            let body = height_of_statement(s)?;
            above(height_of_for(parts, body)?)
        }
    }
}

/// How high a block is.
///
/// # Errors
///
/// Where its height can't be counted.
#[cycle(block_heights)]
pub(crate) fn block_height(all: &[Statement]) -> Result<u64, AllocError>
    ensures { IfOk result (λ height. height ≡ height_of_block (statements_of all.now)) }
{
    let mut height: u64 = 0;
    for s in all {
        height = height.max(height_of_statement(s)?);
    }
    above(height)
}
