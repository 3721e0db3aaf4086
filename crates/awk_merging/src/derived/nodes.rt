// Whether an expression is a certain small one.

ghost use Rattle.std.specs.Prelude.{◌≡◌, true};
ghost use Rattle.awk_grammar.specs.Tree.{Number, String, Name, Cons, Nil};
ghost use Rattle.awk_grammar.specs.View.{expr_of, exprs_of};
ghost use Rattle.awk_merging.specs.definitions.Sums.{merge_key, at_merge_key, place_of_sum, whole_record};
ghost use Rattle.awk_merging.specs.support.SumsOf.{sum_of};

use crate::sums::Sum;
use awk_grammar::tree::Expr;

/// The variable that holds a cell's sum while it is read.
pub(crate) const MERGE_WHAT: &[u8] = b"merge_what";

/// The variable that holds a cell's key.
pub(crate) const MERGE_KEY: &[u8] = b"merge_key";

pub(crate) fn is_number(e: &Expr, n: i128) -> bool
    ensures { result ≡ true → expr_of e.now ≡ Number n }
{
    match e {
        Expr::Number(m) => *m == n,
        _ => false,
    }
}

pub(crate) fn is_string(e: &Expr, bytes: &[u8]) -> bool
    ensures { result ≡ true → expr_of e.now ≡ String bytes.now }
{
    match e {
        Expr::String(x) => x.as_slice() == bytes,
        _ => false,
    }
}

pub(crate) fn is_name(e: &Expr, name: &[u8]) -> bool
    ensures { result ≡ true → expr_of e.now ≡ Name name.now }
{
    match e {
        Expr::Name(x) => x.as_slice() == name,
        _ => false,
    }
}

/// Whether the expression is `$0`.
pub(crate) fn is_record(e: &Expr) -> bool
    ensures { result ≡ true → expr_of e.now ≡ whole_record }
{
    match e {
        Expr::Field(n) => is_number(n, 0),
        _ => false,
    }
}

/// Whether the expression is `array[merge_key]`.
fn is_at_merge_key(e: &Expr, array: &[u8]) -> bool
    ensures { result ≡ true → expr_of e.now ≡ at_merge_key array.now }
{
    match e {
        Expr::Element(x, list) => x.as_slice() == array && is_only_merge_key(list),
        _ => false,
    }
}

fn is_only_merge_key(list: &[Expr]) -> bool
    ensures { result ≡ true → exprs_of list.now ≡ Cons (Name merge_key) Nil }
{
    match list {
        [key] => is_name(key, MERGE_KEY),
        _ => false,
    }
}

/// Whether the expression is where the sum stands: the element at the cell's key, or the variable.
pub(crate) fn is_place_of(sum: &Sum, e: &Expr) -> bool
    ensures { result ≡ true → expr_of e.now ≡ place_of_sum (sum_of sum.now) }
{
    match sum {
        Sum::ByKey(array) => is_at_merge_key(e, array.as_slice()),
        Sum::Alone(variable) => is_name(e, variable.as_slice()),
    }
}
