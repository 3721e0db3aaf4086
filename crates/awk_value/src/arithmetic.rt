// Arithmetic on numbers and on values.

ghost use Rattle.std.specs.Prelude.{◌≡◌};
ghost use Rattle.awk_value.specs.definitions.Arithmetic.{product_of, sum_of, difference_of, negative_of};
ghost use Rattle.awk_value.specs.definitions.Arithmetic.{quotient_of, remainder_of, power_of};
ghost use Rattle.awk_value.specs.definitions.Values.{num_of, number_value, from_numbers, from_number};

use crate::convert::number_of;
use crate::fault::ValueFault;
use crate::value::Value;

/// From this exponent on, only the powers of 0, 1 and -1 are in range.
const FAR_EXPONENT: i128 = 128;

/// The product of two numbers. The fault is `Range`. (POSIX awk, Expressions in awk.)
#[inline(never)]
pub fn mul(m: i128, n: i128) -> Result<i128, ValueFault>
    ensures { result ≡ product_of m n }
{
    match (i64::try_from(m), i64::try_from(n)) {
        // (no product of these is out of range, which the processor's own multiplication gives)
        (Ok(short), Ok(other)) => Ok(i128::from(short).wrapping_mul(i128::from(other))),
        _ => m.checked_mul(n).ok_or(ValueFault::Range),
    }
}

/// The sum of two numbers. The fault is `Range`. (POSIX awk, Expressions in awk.)
pub fn add(m: i128, n: i128) -> Result<i128, ValueFault>
    ensures { result ≡ sum_of m n }
{
    m.checked_add(n).ok_or(ValueFault::Range)
}

/// The difference of two numbers. The fault is `Range`. (POSIX awk, Expressions in awk.)
pub fn sub(m: i128, n: i128) -> Result<i128, ValueFault>
    ensures { result ≡ difference_of m n }
{
    m.checked_sub(n).ok_or(ValueFault::Range)
}

/// The number with the other sign. The fault is `Range`, of -2^127 alone. (POSIX awk, Expressions
/// in awk.)
pub fn neg(n: i128) -> Result<i128, ValueFault>
    ensures { result ≡ negative_of n }
{
    n.checked_neg().ok_or(ValueFault::Range)
}

/// The quotient of two numbers, cut off toward zero. The faults are `ZeroDivisor`, and `Range` of
/// -2^127 by -1 alone. (POSIX awk, Expressions in awk.)
#[inline(never)]
pub fn div(m: i128, n: i128) -> Result<i128, ValueFault>
    ensures { result ≡ quotient_of m n }
{
    if n == 0 {
        return Err(ValueFault::ZeroDivisor);
    }
    m.checked_div(n).ok_or(ValueFault::Range)
}

/// What division leaves of `m`, with the sign of `m`; what -1 leaves is 0, of the least number too.
/// The fault is `ZeroDivisor`. (POSIX awk, Expressions in awk.)
#[inline(never)]
pub fn rem(m: i128, n: i128) -> Result<i128, ValueFault>
    ensures { result ≡ remainder_of m n }
{
    if n == 0 {
        return Err(ValueFault::ZeroDivisor);
    }
    Ok(m.wrapping_rem(n))
}

/// The power of `m` by `n`; by 0 it is 1, of every number. The faults are `NegativePower`, of an
/// exponent below 0, and `Range`. No exponent takes long. (POSIX awk, Expressions in awk.)
#[inline(never)]
#[tactic(auto, using(crate::proofs::Powers::far_exponents))]
pub fn pow(m: i128, n: i128) -> Result<i128, ValueFault>
    ensures { result ≡ power_of m n }
{
    if n < 0 {
        return Err(ValueFault::NegativePower);
    }
    if n < FAR_EXPONENT {
        return m.checked_pow(n as u32).ok_or(ValueFault::Range);
    }
    match m {
        0 => Ok(0),
        1 => Ok(1),
        -1 => Ok(if n % 2 == 0 { 1 } else { -1 }),
        _ => Err(ValueFault::Range),
    }
}

/// The product of the numbers of two values, of which the left one's is taken first. The fault is
/// `Range`: of an operand's number, or of the product.
/// Takes no memory. (POSIX awk, Expressions in awk.)
pub fn multiply(left: &Value, right: &Value) -> Result<Value, ValueFault>
    ensures { result ≡ from_numbers product_of (num_of left.now) (num_of right.now) }
{
    let m = number_of(left)?;
    let n = number_of(right)?;
    Ok(Value::Number(mul(m, n)?))
}

/// The sum of the numbers of two values, of which the left one's is taken first. The fault is
/// `Range`: of an operand's number, or of the sum.
/// Takes no memory. (POSIX awk, Expressions in awk.)
pub fn plus(left: &Value, right: &Value) -> Result<Value, ValueFault>
    ensures { result ≡ from_numbers sum_of (num_of left.now) (num_of right.now) }
{
    let m = number_of(left)?;
    let n = number_of(right)?;
    Ok(Value::Number(add(m, n)?))
}

/// The difference of the numbers of two values, of which the left one's is taken first. The fault
/// is `Range`: of an operand's number, or of the difference.
/// Takes no memory. (POSIX awk, Expressions in awk.)
pub fn minus(left: &Value, right: &Value) -> Result<Value, ValueFault>
    ensures { result ≡ from_numbers difference_of (num_of left.now) (num_of right.now) }
{
    let m = number_of(left)?;
    let n = number_of(right)?;
    Ok(Value::Number(sub(m, n)?))
}

/// The quotient of the numbers of two values, cut off toward zero. The left one's is taken first. The
/// faults are `Range`, of an operand's number or of the quotient, and `ZeroDivisor`.
/// Takes no memory. (POSIX awk, Expressions in awk.)
pub fn divide(left: &Value, right: &Value) -> Result<Value, ValueFault>
    ensures { result ≡ from_numbers quotient_of (num_of left.now) (num_of right.now) }
{
    let m = number_of(left)?;
    let n = number_of(right)?;
    Ok(Value::Number(div(m, n)?))
}

/// What division of the left value's number by the right one's leaves. The faults are `Range`, of an
/// operand's number, and `ZeroDivisor`.
/// Takes no memory. (POSIX awk, Expressions in awk.)
pub fn remainder(left: &Value, right: &Value) -> Result<Value, ValueFault>
    ensures { result ≡ from_numbers remainder_of (num_of left.now) (num_of right.now) }
{
    let m = number_of(left)?;
    let n = number_of(right)?;
    Ok(Value::Number(rem(m, n)?))
}

/// The power of the left value's number by the right one's; by 0 it is 1. The left one's is taken
/// first. The faults are `Range`, of an operand's number or of the power, and `NegativePower`.
/// Takes no memory. (POSIX awk, Expressions in awk.)
pub fn power(left: &Value, right: &Value) -> Result<Value, ValueFault>
    ensures { result ≡ from_numbers power_of (num_of left.now) (num_of right.now) }
{
    let m = number_of(left)?;
    let n = number_of(right)?;
    Ok(Value::Number(pow(m, n)?))
}

/// The number of a value, with the other sign. The fault is `Range`. Takes no memory. (POSIX awk,
/// Expressions in awk.)
pub fn negate(value: &Value) -> Result<Value, ValueFault>
    ensures { result ≡ from_number negative_of (num_of value.now) }
{
    let n = number_of(value)?;
    Ok(Value::Number(neg(n)?))
}

/// The number of a value, as a value. The fault is `Range`. Takes no memory. (POSIX awk, Expressions
/// in awk.)
pub fn to_number(value: &Value) -> Result<Value, ValueFault>
    ensures { result ≡ number_value (num_of value.now) }
{
    Ok(Value::Number(number_of(value)?))
}
