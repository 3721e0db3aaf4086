// Whether two operators or words of a tree are the same.

ghost use Rattle.std.specs.Prelude.{◌≡◌, true};

use awk_grammar::tree::{BinaryOperator, PrintForm, Redirection, UnaryOperator};
use awk_lex::token::{AssignmentOperator, BuiltIn, IncrementOperator, Operator};

fn same_operator(a: Operator, b: Operator) -> bool
    ensures { result ≡ true → a ≡ b }
{
    a as u8 == b as u8
}

pub(crate) fn same_binary(a: BinaryOperator, b: BinaryOperator) -> bool
    ensures { result ≡ true → a ≡ b }
{
    match (a, b) {
        (BinaryOperator::Concatenate, BinaryOperator::Concatenate) => true,
        (BinaryOperator::Infix(a), BinaryOperator::Infix(b)) => same_operator(a, b),
        _ => false,
    }
}

pub(crate) fn same_unary(a: UnaryOperator, b: UnaryOperator) -> bool
    ensures { result ≡ true → a ≡ b }
{
    a as u8 == b as u8
}

pub(crate) fn same_assignment(a: AssignmentOperator, b: AssignmentOperator) -> bool
    ensures { result ≡ true → a ≡ b }
{
    a as u8 == b as u8
}

pub(crate) fn same_increment(a: IncrementOperator, b: IncrementOperator) -> bool
    ensures { result ≡ true → a ≡ b }
{
    a as u8 == b as u8
}

pub(crate) fn same_built_in(a: BuiltIn, b: BuiltIn) -> bool
    ensures { result ≡ true → a ≡ b }
{
    a as u8 == b as u8
}

pub(crate) fn same_form(a: PrintForm, b: PrintForm) -> bool
    ensures { result ≡ true → a ≡ b }
{
    a as u8 == b as u8
}

pub(crate) fn same_redirection(a: Redirection, b: Redirection) -> bool
    ensures { result ≡ true → a ≡ b }
{
    a as u8 == b as u8
}
