// What operators make of values.

ghost use Rattle.std.specs.Prelude.{◌≡◌};
ghost use Rattle.awk_value.specs.Values.{num_of};
ghost use Rattle.awk_semantics.specs.Operators.{applied, by_one, changed, exit_status, operator_of, raised, truth_value};
ghost use Rattle.awk_semantics.specs.Results.{Yields};

use crate::patterns::{PatternOperand, Patterns};
use crate::relations::relates;
use crate::short::apply_in_short;
use awk_grammar::tree::UnaryOperator;
use awk_lex::token::{AssignmentOperator, IncrementOperator, Operator};
use awk_semantics::Halt;
use awk_value::{
    Value, ValueFault, add, compare, divide, is_true, minus, multiply, negate, number_of, plus,
    power, remainder, to_number,
};
use std::alloc::Global;

/// What a test gives: the number 1 or 0 (POSIX awk, Expressions in awk).
#[inline(always)]
pub fn truth_value(is_true: bool) -> Value
    ensures { result ≡ truth_value is_true }
{
    Value::Number(i128::from(is_true))
}

/// What an operator makes of the value behind it. The fault is F3. (POSIX awk, Expressions in awk)
#[inline]
pub fn change(operator: UnaryOperator, value: &Value) -> Result<Value, Halt>
    ensures { Yields result (changed operator value.now) }
{
    match operator {
        UnaryOperator::Not => Ok(truth_value(!is_true(value))),
        UnaryOperator::Plus => Ok(to_number(value)?),
        UnaryOperator::Minus => Ok(negate(value)?),
    }
}

/// The operator that joins a number and 1 where `++` or `--` stands. (POSIX awk, Expressions in awk)
#[inline(always)]
pub fn by_one(operator: IncrementOperator) -> Operator
    ensures { result ≡ by_one operator }
{
    match operator {
        IncrementOperator::Increment => Operator::Plus,
        IncrementOperator::Decrement => Operator::Minus,
    }
}

/// The operator by which an assignment joins the old value and the new one; none for `=`. (POSIX awk, Expressions in awk)
#[inline(always)]
pub fn operator_of(operator: AssignmentOperator) -> Option<Operator>
    ensures { result ≡ operator_of operator }
{
    match operator {
        AssignmentOperator::Plain => None,
        AssignmentOperator::Add => Some(Operator::Plus),
        AssignmentOperator::Subtract => Some(Operator::Minus),
        AssignmentOperator::Multiply => Some(Operator::Times),
        AssignmentOperator::Divide => Some(Operator::Divide),
        AssignmentOperator::Remainder => Some(Operator::Remainder),
        AssignmentOperator::Power => Some(Operator::Power),
    }
}

// What an operator makes of two values of any kind.
#[inline(never)]
fn apply_to_values(
    operator: Operator,
    x: &Value,
    y: &Value,
    patterns: &mut Patterns,
) -> Result<Value, Halt>
    ensures { Yields result (applied operator x.now y.now) }
{
    match operator {
        Operator::Power => Ok(power(x, y)?),
        Operator::Times => Ok(multiply(x, y)?),
        Operator::Divide => Ok(divide(x, y)?),
        Operator::Remainder => Ok(remainder(x, y)?),
        Operator::Plus => Ok(plus(x, y)?),
        Operator::Minus => Ok(minus(x, y)?),
        Operator::Matches => {
            let found = patterns.matches(x, PatternOperand::Value(y))?;
            Ok(truth_value(found))
        }
        Operator::NotMatches => {
            let found = patterns.matches(x, PatternOperand::Value(y))?;
            Ok(truth_value(!found))
        }
        _ => {
            let order = compare(x, y)?;
            Ok(truth_value(relates(operator, order).unwrap_or(false)))
        }
    }
}

/// What an operator makes of two values: a number, or 1 or 0. The text right of `~` and `!~` is read as a pattern. The
/// faults are F1, F3, F4, F5 and F6. (POSIX awk, Expressions in awk)
#[inline(always)]
pub fn apply(
    operator: Operator,
    x: &Value,
    y: &Value,
    patterns: &mut Patterns,
) -> Result<Value, Halt>
    ensures { Yields result (applied operator x.now y.now) }
{
    if let Value::Number(m) = x {
        if let Value::Number(n) = y {
            if let Some(number) = apply_in_short(operator, *m, *n) {
                return Ok(Value::Number(number));
            }
        }
    }
    apply_to_values(operator, x, y, patterns)
}

// The number of a count, which is one unless the program assigned another value.
#[inline(always)]
fn count_of(count: &Value) -> Result<i128, ValueFault>
    ensures { result ≡ num_of count.now }
{
    match count {
        Value::Number(n) => Ok(*n),
        value => number_of(value),
    }
}

/// A count, raised by 1. The fault is F3. (POSIX awk, Variables and Special Variables: NR, FNR)
#[inline]
pub fn raise(count: &Value) -> Result<Value, Halt>
    ensures { Yields result (raised count.now) }
{
    Ok(Value::Number(add(count_of(count)?, 1)?))
}

/// The exit status that a number stands for: what is left of it by 256. (POSIX awk, Actions: exit)
pub fn exit_status(number: i128) -> u8
    ensures { result ≡ exit_status number }
{
    number.rem_euclid(256) as u8
}
