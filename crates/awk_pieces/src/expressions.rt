// Expressions that read and change no more than the record and some variables and arrays.

ghost use Rattle.std.specs.Prelude.{◌≡◌};
ghost use Rattle.awk_grammar.specs.View as g;
ghost use Rattle.awk_pieces.specs.definitions.Pieceable.{is_own_place, sets_own, is_of_record, third_is_of_record, is_array_of_record, second_is_array, may_be_called, fills_array, is_filled, keeps_to_record, all_keep_to_record, arguments_keep_to_record, may_keep_to_record, list_keeps_to_record, pattern_keeps_to_record};

use crate::readable::Readable;
use awk_grammar::tree::{Expr, Pattern, PrintList};
use awk_kinds::is_of_values;
use awk_lex::token::{AssignmentOperator, BuiltIn};

/// Whether the expression is a place in the record: a field, NF, a variable of it, or an element of an array of it.
fn is_of_record<R: Readable>(readable: &R, place: &Expr) -> bool
    ensures { result ≡ is_of_record (R.own readable.now) (R.arrays readable.now) (g.expr_of place.now) }
{
    match place {
        Expr::Field(_) => true,
        Expr::Name(name) => name.as_slice() == b"NF".as_slice() || readable.is_own(name.as_slice()),
        Expr::Element(array, _) => readable.is_own_array(array.as_slice()),
        _ => false,
    }
}

/// Whether what `sub` and `gsub` exchange in is in the record, where it isn't left out.
fn third_is_of_record<R: Readable>(readable: &R, arguments: &[Expr]) -> bool
    ensures { result ≡ third_is_of_record (R.own readable.now) (R.arrays readable.now) (g.exprs_of arguments.now) }
{
    match arguments.get(2) {
        Some(place) => is_of_record(readable, place),
        None => true,
    }
}

fn is_array_of_record<R: Readable>(readable: &R, place: &Expr) -> bool
    ensures { result ≡ is_array_of_record (R.own readable.now) (R.arrays readable.now) (g.expr_of place.now) }
{
    match place {
        Expr::Name(array) => readable.is_own_array(array.as_slice()),
        _ => false,
    }
}

/// Whether what `split` fills is an array of the record.
fn second_is_array<R: Readable>(readable: &R, arguments: &[Expr]) -> bool
    ensures { result ≡ second_is_array (R.own readable.now) (R.arrays readable.now) (g.exprs_of arguments.now) }
{
    match arguments.get(1) {
        Some(place) => is_array_of_record(readable, place),
        None => false,
    }
}

/// Whether the built-in function does no more than make a value of values, exchange in the record, or fill an array of it.
fn may_be_called<R: Readable>(readable: &R, function: BuiltIn, arguments: &[Expr]) -> bool
    ensures { result ≡ may_be_called (R.own readable.now) (R.arrays readable.now) function (g.exprs_of arguments.now) }
{
    match function {
        BuiltIn::Length => true,
        BuiltIn::Sub | BuiltIn::Gsub => third_is_of_record(readable, arguments),
        BuiltIn::Split => second_is_array(readable, arguments),
        _ => is_of_values(function),
    }
}

/// Whether the built-in function fills an array.
fn fills_array(function: BuiltIn) -> bool
    ensures { result ≡ fills_array function }
{
    matches!(function, BuiltIn::Split)
}

/// Whether the array is one of the record, and one of these.
pub(crate) fn is_filled<R: Readable>(readable: &R, array: &[u8]) -> bool
    ensures { result ≡ is_filled (R.own readable.now) (R.arrays readable.now) (R.known readable.now) array.now }
{
    readable.is_own_array(array) && readable.has(array)
}

/// Whether the expression reads no more than the record and these variables and arrays, and changes no more than
/// the record.
#[cycle(expressions)]
pub fn keeps_to_record<R: Readable>(readable: &R, e: &Expr) -> bool
    ensures { result ≡ keeps_to_record (R.own readable.now) (R.arrays readable.now) (R.known readable.now) (g.expr_of e.now) }
{
    match e {
        Expr::Number(_) | Expr::String(_) | Expr::Ere(_) | Expr::Length => true,
        Expr::Name(name) => readable.has(name.as_slice()),
        Expr::Field(e) | Expr::Group(e) | Expr::Unary(_, e) => keeps_to_record(readable, e),
        Expr::Binary(_, a, b) => keeps_to_record(readable, a) && keeps_to_record(readable, b),
        Expr::Conditional(c, a, b) => {
            keeps_to_record(readable, c)
                && keeps_to_record(readable, a)
                && keeps_to_record(readable, b)
        }
        Expr::BuiltIn(function, arguments) => {
            may_be_called(readable, *function, arguments)
                && arguments_keep_to_record(readable, fills_array(*function), arguments)
        }
        Expr::PreIncrement(_, place) | Expr::PostIncrement(_, place) => {
            is_of_record(readable, place) && keeps_to_record(readable, place)
        }
        Expr::Assign(_, place, e) => {
            is_of_record(readable, place)
                && keeps_to_record(readable, place)
                && keeps_to_record(readable, e)
        }
        Expr::Element(array, subscripts) => {
            is_filled(readable, array.as_slice()) && all_keep_to_record(readable, subscripts)
        }
        Expr::ListMembership(subscripts, array) => {
            is_filled(readable, array.as_slice()) && all_keep_to_record(readable, subscripts)
        }
        Expr::Membership(e, array) => {
            is_filled(readable, array.as_slice()) && keeps_to_record(readable, e)
        }
        Expr::Call(_, _) | Expr::Getline(_, _) | Expr::PipedGetline(_, _) => false,
    }
}

/// Whether each of the expressions does.
#[cycle(expressions)]
pub fn all_keep_to_record<R: Readable>(readable: &R, list: &[Expr]) -> bool
    ensures { result ≡ all_keep_to_record (R.own readable.now) (R.arrays readable.now) (R.known readable.now) (g.exprs_of list.now) }
{
    for e in list {
        if !keeps_to_record(readable, e) {
            return false;
        }
    }
    true
}

/// Whether each argument does. An array of the record that is filled needn't be one of these.
#[cycle(expressions)]
fn arguments_keep_to_record<R: Readable>(readable: &R, fills: bool, arguments: &[Expr]) -> bool
    ensures { result ≡ arguments_keep_to_record (R.own readable.now) (R.arrays readable.now) (R.known readable.now) fills (g.exprs_of arguments.now) }
{
    for e in arguments {
        let keeps = keeps_to_record(readable, e) || (fills && is_array_of_record(readable, e));
        if !keeps {
            return false;
        }
    }
    true
}

/// Whether the place is a variable of the record.
fn is_own_place<R: Readable>(readable: &R, place: &Expr) -> bool
    ensures { result ≡ is_own_place (R.own readable.now) (R.arrays readable.now) (g.expr_of place.now) }
{
    match place {
        Expr::Name(name) => readable.is_own(name.as_slice()),
        _ => false,
    }
}

/// Whether the expression sets a variable of the record by `=`, to what reads no more than the record and these
/// variables. The one that is set needn't be one of them.
pub fn sets_own<R: Readable>(readable: &R, e: &Expr) -> bool
    ensures { result ≡ sets_own (R.own readable.now) (R.arrays readable.now) (R.known readable.now) (g.expr_of e.now) }
{
    match e {
        Expr::Assign(AssignmentOperator::Plain, place, e) => {
            is_own_place(readable, place) && keeps_to_record(readable, e)
        }
        _ => false,
    }
}

/// Whether the expression does, where it isn't left out.
pub fn may_keep_to_record<R: Readable>(readable: &R, e: &Option<Box<Expr>>) -> bool
    ensures { result ≡ may_keep_to_record (R.own readable.now) (R.arrays readable.now) (R.known readable.now) (g.optional_expr_of e.now) }
{
    match e {
        Some(e) => keeps_to_record(readable, e),
        None => true,
    }
}

/// Whether each expression of a print's list does.
pub(crate) fn list_keeps_to_record<R: Readable>(readable: &R, list: &PrintList) -> bool
    ensures { result ≡ list_keeps_to_record (R.own readable.now) (R.arrays readable.now) (R.known readable.now) (g.print_list_of list.now) }
{
    match list {
        PrintList::Bare(list) | PrintList::Parenthesized(list) => {
            all_keep_to_record(readable, list)
        }
    }
}

/// Whether the pattern is an expression that reads no more than the record and these variables, and changes no
/// more than the record. A range isn't: it tells a record by the records before it.
pub fn pattern_keeps_to_record<R: Readable>(readable: &R, pattern: &Pattern) -> bool
    ensures { result ≡ pattern_keeps_to_record (R.own readable.now) (R.arrays readable.now) (R.known readable.now) (g.pattern_of pattern.now) }
{
    match pattern {
        Pattern::Single(e) => keeps_to_record(readable, e),
        Pattern::Range(_, _) => false,
    }
}
