// Whether values are related as an operator says, by their numbers or by their texts.

ghost use Rattle.std.specs.Prelude.{◌≡◌, Ok, IfSome, IfNone, false};
ghost use Rattle.std.specs.Ordering.{nat_cmp};
ghost use Rattle.std.specs.Cmp.Lexicographic.{slice_cmp};
ghost use Rattle.awk_value.specs.declared.value.Value.{Value as AnyValue};
ghost use Rattle.awk_value.specs.declared.value.Value.TheVariants.{Number};
ghost use Rattle.awk_value.specs.Values.{str_of, order_of};
ghost use Rattle.awk_semantics.specs.Operators.{applied, relates as related, truth_value};

use awk_lex::token::Operator;
use awk_value::{Value, numeric_of, text_in};
use itoa::Buffer;
use std::cmp::Ordering;

/// Whether two values in this order are so related. `None` of an operator that is no relation. (POSIX awk, Expressions in awk)
#[inline(always)]
pub(crate) fn relates(operator: Operator, order: Ordering) -> Option<bool>
    ensures holds { IfSome result (λ holds. holds ≡ related operator order) }
    ensures relation { IfSome result (λ holds. (u v : AnyValue) → applied operator u v ≡ Ok (truth_value (related operator (order_of u v)))) }
    ensures other { IfNone result (related operator order ≡ false) }
{
    match operator {
        Operator::Less => Some(order == Ordering::Less),
        Operator::LessEqual => Some(order != Ordering::Greater),
        Operator::Equal => Some(order == Ordering::Equal),
        Operator::NotEqual => Some(order != Ordering::Equal),
        Operator::Greater => Some(order == Ordering::Greater),
        Operator::GreaterEqual => Some(order != Ordering::Less),
        Operator::Power
        | Operator::Times
        | Operator::Divide
        | Operator::Remainder
        | Operator::Plus
        | Operator::Minus
        | Operator::Matches
        | Operator::NotMatches
        | Operator::And
        | Operator::Or => None,
    }
}

/// Whether two numbers are so related. `None` of an operator that is no relation. (POSIX awk, Expressions in awk)
#[inline(always)]
pub fn relate_numbers(operator: Operator, x: i128, y: i128) -> Option<bool>
    ensures holds { IfSome result (λ holds. applied operator (Number x) (Number y) ≡ Ok (truth_value holds)) }
    ensures relation { IfSome result (λ holds. (u v : AnyValue) → applied operator u v ≡ Ok (truth_value (related operator (order_of u v)))) }
{
    relates(operator, x.cmp(&y))
}

// Whether two texts are so related by their bytes. `None` of an operator that is no relation. Lengths tell at once whether they may
// be equal.
#[inline(always)]
fn relate_bytes(operator: Operator, x: &[u8], y: &[u8]) -> Option<bool>
    ensures holds { IfSome result (λ holds. holds ≡ related operator (slice_cmp nat_cmp x.now y.now)) }
    ensures relation { IfSome result (λ holds. (u v : AnyValue) → applied operator u v ≡ Ok (truth_value (related operator (order_of u v)))) }
{
    match operator {
        Operator::Equal => Some(x == y),
        Operator::NotEqual => Some(x != y),
        _ => relates(operator, x.cmp(y)),
    }
}

// The numbers by which two values are compared, if they are compared by numbers.
#[inline(always)]
fn numbers_of(x: &Value, y: &Value) -> Option<(i128, i128)>
    ensures some { IfSome result (λ numbers. order_of x.now y.now ≡ order_of (Number numbers.0) (Number numbers.1)) }
    ensures none { IfNone result (order_of x.now y.now ≡ slice_cmp nat_cmp (str_of x.now) (str_of y.now)) }
{
    let m = numeric_of(x)?;
    let n = numeric_of(y)?;
    Some((m, n))
}

/// Whether two values are so related, by their numbers or by their texts. `None` of an operator that is no relation. (POSIX awk,
/// Expressions in awk)
#[inline(always)]
pub fn relate(operator: Operator, x: &Value, y: &Value) -> Option<bool>
    ensures { IfSome result (λ holds. applied operator x.now y.now ≡ Ok (truth_value holds)) }
{
    match numbers_of(x, y) {
        Some((m, n)) => relate_numbers(operator, m, n),
        None => relate_texts(operator, x, y),
    }
}

// Whether two values that are compared by their texts are so related.
#[inline(always)]
fn relate_texts(operator: Operator, x: &Value, y: &Value) -> Option<bool>
    requires { order_of x.now y.now ≡ slice_cmp nat_cmp (str_of x.now) (str_of y.now) }
    ensures { IfSome result (λ holds. applied operator x.now y.now ≡ Ok (truth_value holds)) }
{
    match (x, y) {
        (Value::Text(a) | Value::Input(a), Value::Text(b) | Value::Input(b)) => {
            relate_bytes(operator, a.as_slice(), b.as_slice())
        }
        _ => relate_written(operator, x, y),
    }
}

// Whether two values of which one is a number are so related by their texts, where that of a number is its decimal form.
#[inline(never)]
fn relate_written(operator: Operator, x: &Value, y: &Value) -> Option<bool>
    requires { order_of x.now y.now ≡ slice_cmp nat_cmp (str_of x.now) (str_of y.now) }
    ensures { IfSome result (λ holds. applied operator x.now y.now ≡ Ok (truth_value holds)) }
{
    let mut left_digits = Buffer::new();
    let mut right_digits = Buffer::new();
    relate_bytes(
        operator,
        text_in(x, &mut left_digits),
        text_in(y, &mut right_digits),
    )
}
