// The order of two values.

ghost use Rattle.std.specs.Prelude.{◌≡◌, Ok};
ghost use Rattle.awk_value.specs.definitions.Values.{order_of};

use crate::convert::{numeric_of, text_in};
use crate::fault::ValueFault;
use crate::value::Value;
use itoa::Buffer;
use std::cmp::Ordering;

/// The order of two values: by their numbers where each is uninitialized, a number or a numeric
/// text from outside, and else by the bytes of their texts. Takes no memory and has no fault.
/// (POSIX awk, Expressions in awk.)
pub fn compare(left: &Value, right: &Value) -> Result<Ordering, ValueFault>
    ensures { result ≡ Ok (order_of left.now right.now) }
{
    if let Some(m) = numeric_of(left)
        && let Some(n) = numeric_of(right)
    {
        return Ok(m.cmp(&n));
    }
    let mut left_digits = Buffer::new();
    let mut right_digits = Buffer::new();
    Ok(text_in(left, &mut left_digits).cmp(&text_in(right, &mut right_digits)))
}
