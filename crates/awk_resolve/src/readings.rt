// Expressions that only read: no variable and no record is another one behind them.

ghost use Rattle.std.specs.Prelude.{◌≡◌, true};
ghost use Rattle.awk_grammar.specs.View.{expr_of, exprs_of};
ghost use Rattle.awk_resolve.specs.support.Readings.{only_reads, all_read, parts_read, is_field_number, is_read_behind};

use crate::expressions::is_strict;
use awk_grammar::tree::{BinaryOperator, Expr};
use awk_kinds::is_of_values;

/// Whether an expression only reads, as far as its form tells. It may make elements.
#[cycle(readings)]
fn only_reads(e: &Expr) -> bool
    ensures { result ≡ true → only_reads (expr_of e.now) ≡ true }
{
    match e {
        Expr::Number(_) | Expr::String(_) | Expr::Ere(_) | Expr::Name(_) | Expr::Length => true,
        Expr::Field(e) | Expr::Group(e) => only_reads(e),
        Expr::Unary(_, e) | Expr::Membership(e, _) => only_reads(e),
        Expr::Element(_, list) | Expr::ListMembership(list, _) => all_read(list),
        Expr::BuiltIn(function, list) => is_of_values(*function) && all_read(list),
        Expr::Binary(o, a, b) => is_strict(*o) && only_reads(a) && only_reads(b),
        Expr::Conditional(c, a, b) => only_reads(c) && only_reads(a) && only_reads(b),
        _ => false,
    }
}

/// Whether each expression of a list only reads.
#[cycle(readings)]
fn all_read(list: &[Expr]) -> bool
    ensures { result ≡ true → all_read (exprs_of list.now) ≡ true }
{
    for e in list {
        if !only_reads(e) {
            return false;
        }
    }
    true
}

/// Whether an expression may be read behind others: its value is that of a constant, a variable or a field of a number of the program,
/// and they only read.
pub(crate) fn is_read_behind(e: &Expr, list: &[Expr]) -> bool
    ensures { result ≡ true → is_read_behind (expr_of e.now) (exprs_of list.now) ≡ true }
{
    match e {
        Expr::Number(_) | Expr::String(_) | Expr::Name(_) => all_read(list),
        Expr::Field(number) => is_field_number(number) && all_read(list),
        _ => false,
    }
}

/// Whether an expression is a number of the program that fields have.
fn is_field_number(e: &Expr) -> bool
    ensures { result ≡ true → is_field_number (expr_of e.now) ≡ true }
{
    match e {
        Expr::Number(n) => *n >= 0,
        _ => false,
    }
}

/// Whether the parts of a concatenation behind its first only read.
pub(crate) fn parts_read(e: &Expr) -> bool
    ensures { result ≡ true → parts_read (expr_of e.now) ≡ true }
{
    match e {
        Expr::Binary(BinaryOperator::Concatenate, a, b) => only_reads(b) && parts_read(a),
        _ => true,
    }
}
