// Whether two statements are the same.

ghost use Rattle.std.specs.Prelude.{◌≡◌, true};
ghost use Rattle.awk_grammar.specs.View.{optional_expr_of, print_list_of, output_of, simple_of, optional_simple_of, statement_of, statements_of};

use crate::same::expressions::{same_bytes, same_expr, same_exprs, same_optional_expr};
use crate::same::operators::{same_form, same_redirection};
use awk_grammar::tree::{ForParts, Output, PrintList, SimpleStatement, Statement};

fn same_print_list(a: &PrintList, b: &PrintList) -> bool
    ensures { result ≡ true → print_list_of a.now ≡ print_list_of b.now }
{
    match (a, b) {
        (PrintList::Bare(list), PrintList::Bare(others)) => same_exprs(list, others),
        (PrintList::Parenthesized(list), PrintList::Parenthesized(others)) => {
            same_exprs(list, others)
        }
        _ => false,
    }
}

fn same_output(a: &Output, b: &Output) -> bool
    ensures { result ≡ true → output_of a.now ≡ output_of b.now }
{
    match (a, b) {
        (Output::Standard, Output::Standard) => true,
        (Output::Redirected(way, a), Output::Redirected(other, b)) => {
            same_redirection(*way, *other) && same_expr(a, b)
        }
        _ => false,
    }
}

/// Whether two simple statements without parts are the same.
fn same_jump(a: &SimpleStatement, b: &SimpleStatement) -> bool
    ensures { result ≡ true → simple_of a.now ≡ simple_of b.now }
{
    match (a, b) {
        (SimpleStatement::Next, SimpleStatement::Next) => true,
        (SimpleStatement::NextFile, SimpleStatement::NextFile) => true,
        (SimpleStatement::Break, SimpleStatement::Break) => true,
        (SimpleStatement::Continue, SimpleStatement::Continue) => true,
        _ => false,
    }
}

fn same_simple(a: &SimpleStatement, b: &SimpleStatement) -> bool
    ensures { result ≡ true → simple_of a.now ≡ simple_of b.now }
{
    match (a, b) {
        (SimpleStatement::Expression(a), SimpleStatement::Expression(b)) => same_expr(a, b),
        (SimpleStatement::Print(form, list, to), SimpleStatement::Print(other, others, at)) => {
            same_form(*form, *other) && same_print_list(list, others) && same_output(to, at)
        }
        (SimpleStatement::Delete(x, list), SimpleStatement::Delete(y, others)) => {
            same_bytes(x, y) && same_exprs(list, others)
        }
        (SimpleStatement::DeleteAll(x), SimpleStatement::DeleteAll(y)) => same_bytes(x, y),
        (SimpleStatement::Exit(a), SimpleStatement::Exit(b)) => same_optional_expr(a, b),
        (SimpleStatement::Return(a), SimpleStatement::Return(b)) => same_optional_expr(a, b),
        _ => same_jump(a, b),
    }
}

fn same_optional_simple(a: &Option<SimpleStatement>, b: &Option<SimpleStatement>) -> bool
    ensures { result ≡ true → optional_simple_of a.now ≡ optional_simple_of b.now }
{
    match (a, b) {
        (None, None) => true,
        (Some(a), Some(b)) => same_simple(a, b),
        _ => false,
    }
}

fn same_for_parts(a: &ForParts, b: &ForParts) -> bool
    ensures first { result ≡ true → optional_simple_of a.now.first ≡ optional_simple_of b.now.first }
    ensures condition { result ≡ true → optional_expr_of a.now.condition ≡ optional_expr_of b.now.condition }
    ensures last { result ≡ true → optional_simple_of a.now.last ≡ optional_simple_of b.now.last }
{
    same_optional_simple(&a.first, &b.first)
        && same_optional_expr(&a.condition, &b.condition)
        && same_optional_simple(&a.last, &b.last)
}

/// Whether two statements are the same.
#[cycle(statements)]
pub(crate) fn same_statement(a: &Statement, b: &Statement) -> bool
    ensures { result ≡ true → statement_of a.now ≡ statement_of b.now }
{
    match (a, b) {
        (Statement::Empty, Statement::Empty) => true,
        (Statement::Simple(a), Statement::Simple(b)) => same_simple(a, b),
        (Statement::Block(all), Statement::Block(others)) => same_statements(all, others),
        (Statement::If(c, s), Statement::If(d, t)) => same_expr(c, d) && same_statement(s, t),
        (Statement::IfElse(c, s, u), Statement::IfElse(d, t, v)) => {
            same_expr(c, d) && same_statement(s, t) && same_statement(u, v)
        }
        (Statement::While(c, s), Statement::While(d, t)) => {
            same_expr(c, d) && same_statement(s, t)
        }
        (Statement::Do(s, c), Statement::Do(t, d)) => same_statement(s, t) && same_expr(c, d),
        (Statement::ForIn(x, array, s), Statement::ForIn(y, other, t)) => {
            same_bytes(x, y) && same_bytes(array, other) && same_statement(s, t)
        }
        (Statement::For(parts, s), Statement::For(others, t)) => {
            same_for_parts(parts, others) && same_statement(s, t)
        }
        _ => false,
    }
}

#[cycle(statements)]
pub(crate) fn same_statements(all: &[Statement], others: &[Statement]) -> bool
    ensures { result ≡ true → statements_of all.now ≡ statements_of others.now }
{
    if all.len() != others.len() {
        return false;
    }
    for (i, s) in all.iter().enumerate() {
        if !same_statement(s, &others[i]) {
            return false;
        }
    }
    true
}
