// Whether a statement prints the cells of a sum.

ghost use Rattle.std.specs.Prelude.{◌≡◌, true, pos, [], ◌∷◌};
ghost use Rattle.awk_lex.specs.declared.token.BuiltIn.TheVariants as builtin;
ghost use Rattle.awk_lex.specs.declared.token.Operator.TheVariants as operator;
ghost use Rattle.awk_grammar.specs.declared.tree.BinaryOperator.TheVariants.{Infix};
ghost use Rattle.awk_grammar.specs.Tree as tree;
ghost use Rattle.awk_grammar.specs.Tree.{Number, String, Name, Binary, Nil, Cons, AnExpr, Exit, Simple, Block, Then, NoMore};
ghost use Rattle.awk_grammar.specs.View.{expr_of, exprs_of, statement_of, statements_of};
ghost use Rattle.awk_merging.specs.definitions.Sums.{name_of_sum, merge_key, cell_format, print_cell, refuse_newline, place_of_sum, print_sum};
ghost use Rattle.awk_merging.specs.support.CellKeys.{key_of_sum};
ghost use Rattle.awk_merging.specs.support.SumsOf.{sum_of};

use crate::derived::nodes::{MERGE_KEY, is_name, is_number, is_place_of, is_string};
use crate::sums::Sum;
use awk_grammar::tree::{
    BinaryOperator, Expr, Output, PrintForm, PrintList, SimpleStatement, Statement,
};
use awk_lex::token::{BuiltIn, Operator};

/// A cell is three lines: the sum's name, the key, and the number.
const CELL_FORMAT: &[u8] = b"%s\n%s\n%s\n";

/// Whether the expression is the key of a cell: `merge_key`, or nothing for a variable.
fn is_key_of(sum: &Sum, e: &Expr) -> bool
    ensures { result ≡ true → expr_of e.now ≡ key_of_sum (sum_of sum.now) }
{
    match sum {
        Sum::ByKey(_) => is_name(e, MERGE_KEY),
        Sum::Alone(_) => is_string(e, b"".as_slice()),
    }
}

/// Whether the list is a cell and its format.
fn is_cell(sum: &Sum, list: &[Expr]) -> bool
    ensures { result ≡ true → exprs_of list.now ≡ Cons (String cell_format) (Cons (String (name_of_sum (sum_of sum.now))) (Cons (key_of_sum (sum_of sum.now)) (Cons (place_of_sum (sum_of sum.now)) Nil))) }
{
    match list {
        [format, name, key, number] => {
            is_string(format, CELL_FORMAT)
                && is_string(name, sum.name())
                && is_key_of(sum, key)
                && is_place_of(sum, number)
        }
        _ => false,
    }
}

/// Whether the statement prints a cell of the sum.
fn is_cell_print(sum: &Sum, s: &Statement) -> bool
    ensures { result ≡ true → statement_of s.now ≡ print_cell (name_of_sum (sum_of sum.now)) (key_of_sum (sum_of sum.now)) (place_of_sum (sum_of sum.now)) }
{
    match s {
        Statement::Simple(
            SimpleStatement::Print(PrintForm::Printf, PrintList::Bare(list), Output::Standard),
        ) => is_cell(sum, list),
        _ => false,
    }
}

/// Whether the list is `merge_key, "\n"`.
fn is_key_and_newline(list: &[Expr]) -> bool
    ensures { result ≡ true → exprs_of list.now ≡ Cons (Name merge_key) (Cons (String (10 ∷ [])) Nil) }
{
    match list {
        [key, newline] => is_name(key, MERGE_KEY) && is_string(newline, b"\n".as_slice()),
        _ => false,
    }
}

/// Whether the expression is `index(merge_key, "\n")`.
fn is_newline_found(e: &Expr) -> bool
    ensures { result ≡ true → expr_of e.now ≡ tree.BuiltIn builtin.Index (Cons (Name merge_key) (Cons (String (10 ∷ [])) Nil)) }
{
    match e {
        Expr::BuiltIn(BuiltIn::Index, list) => is_key_and_newline(list),
        _ => false,
    }
}

/// Whether the statement is `exit 1`.
fn is_exit_one(s: &Statement) -> bool
    ensures { result ≡ true → statement_of s.now ≡ Simple (Exit (AnExpr (Number (pos 1)))) }
{
    match s {
        Statement::Simple(SimpleStatement::Exit(Some(e))) => is_number(e, 1),
        _ => false,
    }
}

/// Whether the statement ends the run where a newline is in the key.
fn is_newline_refusal(s: &Statement) -> bool
    ensures { result ≡ true → statement_of s.now ≡ refuse_newline }
{
    match s {
        Statement::If(c, s) => is_newline_found(c) && is_exit_one(s),
        _ => false,
    }
}

/// Whether the statements print the cell of a key.
fn are_key_prints(sum: &Sum, all: &[Statement]) -> bool
    ensures { result ≡ true → statements_of all.now ≡ Then refuse_newline (Then (print_cell (name_of_sum (sum_of sum.now)) (key_of_sum (sum_of sum.now)) (place_of_sum (sum_of sum.now))) NoMore) }
{
    match all {
        [refusal, print] => is_newline_refusal(refusal) && is_cell_print(sum, print),
        _ => false,
    }
}

/// Whether the statement prints the cell of a key, as a block.
fn is_key_block(sum: &Sum, s: &Statement) -> bool
    ensures { result ≡ true → statement_of s.now ≡ Block (Then refuse_newline (Then (print_cell (name_of_sum (sum_of sum.now)) (key_of_sum (sum_of sum.now)) (place_of_sum (sum_of sum.now))) NoMore)) }
{
    match s {
        Statement::Block(all) => are_key_prints(sum, all),
        _ => false,
    }
}

/// Whether the expression is `variable != ""`.
fn is_not_empty(variable: &[u8], e: &Expr) -> bool
    ensures { result ≡ true → expr_of e.now ≡ Binary (Infix operator.NotEqual) (Name variable.now) (String []) }
{
    match e {
        Expr::Binary(BinaryOperator::Infix(Operator::NotEqual), a, b) => {
            is_name(a, variable) && is_string(b, b"".as_slice())
        }
        _ => false,
    }
}

/// Whether the statement prints the cells of the sum.
pub(crate) fn is_print_sum(sum: &Sum, s: &Statement) -> bool
    ensures { result ≡ true → statement_of s.now ≡ print_sum (sum_of sum.now) }
{
    match (sum, s) {
        (Sum::ByKey(array), Statement::ForIn(key, from, s)) => {
            key.as_slice() == MERGE_KEY
                && from.as_slice() == array.as_slice()
                && is_key_block(sum, s)
        }
        (Sum::Alone(variable), Statement::If(c, s)) => {
            is_not_empty(variable.as_slice(), c) && is_cell_print(sum, s)
        }
        _ => false,
    }
}
