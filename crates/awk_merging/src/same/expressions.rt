// Whether two expressions are the same.

ghost use Rattle.std.specs.Prelude.{◌≡◌, true};
ghost use Rattle.awk_grammar.specs.View.{expr_of, exprs_of, optional_expr_of};

use crate::same::operators::{
    same_assignment, same_binary, same_built_in, same_increment, same_unary,
};
use awk_grammar::tree::Expr;
use awk_value::Bytes;

pub(crate) fn same_bytes(x: &Bytes, y: &Bytes) -> bool
    ensures { result ≡ true → x.now ≡ y.now }
{
    x.as_slice() == y.as_slice()
}

/// Whether two expressions without parts are the same.
fn same_leaf(a: &Expr, b: &Expr) -> bool
    ensures { result ≡ true → expr_of a.now ≡ expr_of b.now }
{
    match (a, b) {
        (Expr::Number(m), Expr::Number(n)) => m == n,
        (Expr::String(x), Expr::String(y)) => same_bytes(x, y),
        (Expr::Name(x), Expr::Name(y)) => same_bytes(x, y),
        (Expr::Ere(x), Expr::Ere(y)) => same_bytes(&x.text, &y.text),
        (Expr::Length, Expr::Length) => true,
        _ => false,
    }
}

/// Whether two expressions are the same.
#[cycle(expressions)]
pub(crate) fn same_expr(a: &Expr, b: &Expr) -> bool
    ensures { result ≡ true → expr_of a.now ≡ expr_of b.now }
{
    match (a, b) {
        (Expr::Element(x, list), Expr::Element(y, others)) => {
            same_bytes(x, y) && same_exprs(list, others)
        }
        (Expr::Field(a), Expr::Field(b)) => same_expr(a, b),
        (Expr::Group(a), Expr::Group(b)) => same_expr(a, b),
        (Expr::Call(f, list), Expr::Call(g, others)) => {
            same_bytes(f, g) && same_exprs(list, others)
        }
        (Expr::BuiltIn(f, list), Expr::BuiltIn(g, others)) => {
            same_built_in(*f, *g) && same_exprs(list, others)
        }
        (Expr::Unary(o, a), Expr::Unary(p, b)) => same_unary(*o, *p) && same_expr(a, b),
        (Expr::Binary(o, a, c), Expr::Binary(p, b, d)) => {
            same_binary(*o, *p) && same_expr(a, b) && same_expr(c, d)
        }
        (Expr::Conditional(c, a, e), Expr::Conditional(d, b, f)) => {
            same_expr(c, d) && same_expr(a, b) && same_expr(e, f)
        }
        (Expr::Membership(a, x), Expr::Membership(b, y)) => same_expr(a, b) && same_bytes(x, y),
        (Expr::ListMembership(list, x), Expr::ListMembership(others, y)) => {
            same_exprs(list, others) && same_bytes(x, y)
        }
        _ => same_change(a, b),
    }
}

/// Whether two expressions are the same, where they change a place or have no parts.
#[cycle(expressions)]
fn same_change(a: &Expr, b: &Expr) -> bool
    ensures { result ≡ true → expr_of a.now ≡ expr_of b.now }
{
    match (a, b) {
        (Expr::PreIncrement(o, a), Expr::PreIncrement(p, b)) => {
            same_increment(*o, *p) && same_expr(a, b)
        }
        (Expr::PostIncrement(o, a), Expr::PostIncrement(p, b)) => {
            same_increment(*o, *p) && same_expr(a, b)
        }
        (Expr::Assign(o, a, c), Expr::Assign(p, b, d)) => {
            same_assignment(*o, *p) && same_expr(a, b) && same_expr(c, d)
        }
        (Expr::Getline(place, file), Expr::Getline(other, from)) => {
            same_optional_expr(place, other) && same_optional_expr(file, from)
        }
        (Expr::PipedGetline(a, place), Expr::PipedGetline(b, other)) => {
            same_expr(a, b) && same_optional_expr(place, other)
        }
        _ => same_leaf(a, b),
    }
}

#[cycle(expressions)]
pub(crate) fn same_optional_expr(a: &Option<Box<Expr>>, b: &Option<Box<Expr>>) -> bool
    ensures { result ≡ true → optional_expr_of a.now ≡ optional_expr_of b.now }
{
    match (a, b) {
        (None, None) => true,
        (Some(a), Some(b)) => same_expr(a, b),
        _ => false,
    }
}

#[cycle(expressions)]
pub(crate) fn same_exprs(list: &[Expr], others: &[Expr]) -> bool
    ensures { result ≡ true → exprs_of list.now ≡ exprs_of others.now }
{
    if list.len() != others.len() {
        return false;
    }
    for (i, e) in list.iter().enumerate() {
        if !same_expr(e, &others[i]) {
            return false;
        }
    }
    true
}
