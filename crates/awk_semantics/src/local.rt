// What a parameter stands for.

use awk_value::Value;

/// What a parameter of a call that is active stands for: a value of its own, or an array, by its number (POSIX awk,
/// User-Defined Functions).
#[derive(Drop)]
pub enum Local {
    Value(Value),
    Array(u32),
}
