// How a statement passes on.

use awk_value::Value;

/// How a statement that didn't end early passes on (POSIX awk, Actions).
#[derive(Drop)]
pub enum Flow {
    /// To the next statement.
    Normal,
    /// By `break`, behind the loop.
    Break,
    /// By `continue`, to the next turn of the loop.
    Continue,
    /// By `return`, out of the function, with its value.
    Return(Value),
}
