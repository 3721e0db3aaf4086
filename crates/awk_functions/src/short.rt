// What operators make of numbers for which the processor's own arithmetic is enough.

ghost use Rattle.std.specs.Prelude.{◌≡◌, Ok, IfSome};
ghost use Rattle.awk_value.specs.declared.value.Value.TheVariants.{Number};
ghost use Rattle.awk_value.specs.Arithmetic.{product_of, quotient_of, remainder_of};
ghost use Rattle.awk_semantics.specs.Operators.{applied};
ghost use Rattle.awk_functions.specs.support.Numbers.{IsOfNumbers};

use crate::relations::relate_numbers;
use awk_lex::token::Operator;
use awk_value::pow;

/// The product of two numbers that are short. `None` of longer ones.
#[inline(always)]
fn short_product(x: i128, y: i128) -> Option<i128>
    ensures { IfSome result (λ n. product_of x y ≡ Ok n) }
{
    let (Ok(short), Ok(other)) = (i64::try_from(x), i64::try_from(y)) else {
        return None;
    };
    i128::from(short).checked_mul(i128::from(other))
}

/// The quotient of two numbers that are short. `None` of longer ones, and by 0.
#[inline(always)]
fn short_quotient(x: i128, y: i128) -> Option<i128>
    ensures { IfSome result (λ n. quotient_of x y ≡ Ok n) }
{
    let (Ok(short), Ok(other)) = (i64::try_from(x), i64::try_from(y)) else {
        return None;
    };
    Some(i128::from(short.checked_div(other)?))
}

/// What division leaves of two numbers that are short. `None` of longer ones, and by 0.
#[inline(always)]
fn short_remainder(x: i128, y: i128) -> Option<i128>
    ensures { IfSome result (λ n. remainder_of x y ≡ Ok n) }
{
    let (Ok(short), Ok(other)) = (i64::try_from(x), i64::try_from(y)) else {
        return None;
    };
    Some(i128::from(short.checked_rem(other)?))
}

/// The number that an operator of arithmetic makes of two numbers. `None` of any other operator, and where that isn't found at once, as
/// of long factors or a fault. (POSIX awk, Expressions in awk)
#[inline(always)]
pub fn compute_in_short(operator: Operator, x: i128, y: i128) -> Option<i128>
    ensures some { IfSome result (λ n. applied operator (Number x) (Number y) ≡ Ok (Number n)) }
    ensures of_numbers { IfSome result (λ n. IsOfNumbers operator) }
{
    match operator {
        Operator::Plus => x.checked_add(y),
        Operator::Minus => x.checked_sub(y),
        Operator::Times => short_product(x, y),
        Operator::Divide => short_quotient(x, y),
        Operator::Remainder => short_remainder(x, y),
        Operator::Power => pow(x, y).ok(),
        Operator::Less
        | Operator::LessEqual
        | Operator::Equal
        | Operator::NotEqual
        | Operator::Greater
        | Operator::GreaterEqual
        | Operator::Matches
        | Operator::NotMatches
        | Operator::And
        | Operator::Or => None,
    }
}

/// The number that an operator makes of two numbers: of arithmetic, or 1 or 0 where they are related so. `None` where that isn't found
/// at once. (POSIX awk, Expressions in awk)
#[inline(always)]
pub fn apply_in_short(operator: Operator, x: i128, y: i128) -> Option<i128>
    ensures { IfSome result (λ n. applied operator (Number x) (Number y) ≡ Ok (Number n)) }
{
    if let Some(n) = compute_in_short(operator, x, y) {
        return Some(n);
    }
    let holds = relate_numbers(operator, x, y)?;
    Some(i128::from(holds))
}
