// Whether an item is a rule that reads cells.

ghost use Rattle.std.specs.Prelude.{◌≡◌, true, codes, pos};
ghost use Rattle.awk_lex.specs.declared.token.Operator.TheVariants as operator;
ghost use Rattle.awk_grammar.specs.declared.tree.BinaryOperator.TheVariants.{Infix};
ghost use Rattle.awk_grammar.specs.Tree.{Number, Name, Binary, Single, Simple, Expression, Next, Then, NoMore};
ghost use Rattle.awk_grammar.specs.View.{expr_of, statements_of, pattern_of, item_of};
ghost use Rattle.awk_merging.specs.definitions.Sums.{line_is, keep_as, keep_line, is_what, place_of_sum, add_record, read_sum};
ghost use Rattle.awk_merging.specs.support.SumsOf.{sum_of};

use crate::derived::nodes::{MERGE_WHAT, is_name, is_number, is_place_of, is_record, is_string};
use crate::sums::Sum;
use awk_grammar::tree::{BinaryOperator, Expr, Item, Pattern, SimpleStatement, Statement};
use awk_lex::token::{AssignmentOperator, Operator};

/// Whether the expression is `NR % 3`.
fn is_line_of_cell(e: &Expr) -> bool
    ensures { result ≡ true → expr_of e.now ≡ Binary (Infix operator.Remainder) (Name (codes "NR")) (Number (pos 3)) }
{
    match e {
        Expr::Binary(BinaryOperator::Infix(Operator::Remainder), a, b) => {
            is_name(a, b"NR".as_slice()) && is_number(b, 3)
        }
        _ => false,
    }
}

/// Whether the pattern is `NR % 3 == line`.
fn is_line(line: u8, pattern: &Pattern) -> bool
    ensures { result ≡ true → pattern_of pattern.now ≡ line_is line }
{
    match pattern {
        Pattern::Single(e) => is_line_test(line, e),
        Pattern::Range(_, _) => false,
    }
}

fn is_line_test(line: u8, e: &Expr) -> bool
    ensures { result ≡ true → Single (expr_of e.now) ≡ line_is line }
{
    match e {
        Expr::Binary(BinaryOperator::Infix(Operator::Equal), a, b) => {
            is_line_of_cell(a) && is_number(b, i128::from(line))
        }
        _ => false,
    }
}

/// Whether the expression is `name = $0`.
fn is_kept_record(name: &[u8], e: &Expr) -> bool
    ensures { result ≡ true → Simple (Expression (expr_of e.now)) ≡ keep_as name.now }
{
    match e {
        Expr::Assign(AssignmentOperator::Plain, place, e) => is_name(place, name) && is_record(e),
        _ => false,
    }
}

/// Whether the statements are `name = $0; next`.
fn are_keeping(name: &[u8], block: &[Statement]) -> bool
    ensures { result ≡ true → statements_of block.now ≡ Then (keep_as name.now) (Then (Simple Next) NoMore) }
{
    match block {
        [
            Statement::Simple(SimpleStatement::Expression(e)),
            Statement::Simple(SimpleStatement::Next),
        ] => is_kept_record(name, e),
        _ => false,
    }
}

/// Whether the item keeps this line of each cell, counted from 1, in the variable.
pub(crate) fn is_keep_line(line: u8, name: &[u8], item: &Item) -> bool
    ensures { result ≡ true → item_of item.now ≡ keep_line line name.now }
{
    match item {
        Item::PatternAction(pattern, block) => is_line(line, pattern) && are_keeping(name, block),
        _ => false,
    }
}

/// Whether the expression is `merge_what == "name"`.
fn is_what_test(name: &[u8], e: &Expr) -> bool
    ensures { result ≡ true → Single (expr_of e.now) ≡ is_what name.now }
{
    match e {
        Expr::Binary(BinaryOperator::Infix(Operator::Equal), a, b) => {
            is_name(a, MERGE_WHAT) && is_string(b, name)
        }
        _ => false,
    }
}

fn is_what(name: &[u8], pattern: &Pattern) -> bool
    ensures { result ≡ true → pattern_of pattern.now ≡ is_what name.now }
{
    match pattern {
        Pattern::Single(e) => is_what_test(name, e),
        Pattern::Range(_, _) => false,
    }
}

/// Whether the expression adds `$0` to the sum.
fn is_addition(sum: &Sum, e: &Expr) -> bool
    ensures { result ≡ true → Simple (Expression (expr_of e.now)) ≡ add_record (place_of_sum (sum_of sum.now)) }
{
    match e {
        Expr::Assign(AssignmentOperator::Add, place, e) => is_place_of(sum, place) && is_record(e),
        _ => false,
    }
}

/// Whether the statements add `$0` to the sum.
fn are_adding(sum: &Sum, block: &[Statement]) -> bool
    ensures { result ≡ true → statements_of block.now ≡ Then (add_record (place_of_sum (sum_of sum.now))) NoMore }
{
    match block {
        [Statement::Simple(SimpleStatement::Expression(e))] => is_addition(sum, e),
        _ => false,
    }
}

/// Whether the item adds to the sum the number of each of its cells.
pub(crate) fn is_read_sum(sum: &Sum, item: &Item) -> bool
    ensures { result ≡ true → item_of item.now ≡ read_sum (sum_of sum.now) }
{
    match item {
        Item::PatternAction(pattern, block) => {
            is_what(sum.name(), pattern) && are_adding(sum, block)
        }
        _ => false,
    }
}
