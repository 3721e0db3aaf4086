//! The values of the language, with their arithmetic, and arrays of them.
//!
//! - `Bytes`: a text of bytes that doesn't change; `Value`: nothing, a number, a text, or a text from outside.
//! - `number_of`, `numeric_of`, `text_of`, `append_text`, `is_true`: the number, the text and the truth of a value; `text_in`
//!   is the text where a value has one; `compare` orders two values.
//! - `add`, `sub`, `mul`, `div`, `rem`, `pow`, `neg`: arithmetic over numbers of 128 bits, whose faults are `ValueFault`s;
//!   `plus`, `minus`, `multiply`, `divide`, `remainder`, `power`, `negate`, `to_number` do the same to values.
//! - `Table`: an array, values by keys that are texts, in the order in which the keys were made: `new`, `has`, `get`,
//!   `get_or_make`, `put`, `remove`, `keys`, `clear`, `len`.
#![tactic(auto)]

mod arithmetic;
mod bytes;
mod convert;
mod decimal;
mod dense;
mod entry;
mod fault;
mod hashing;
mod key_rows;
mod long_keys;
mod number;
mod number_keys;
mod numbers;
mod order;
mod packed;
mod short;
mod short_keys;
mod short_text;
mod table;
mod text_entry;
mod value;
mod walk;

pub use crate::arithmetic::{
    add, div, divide, minus, mul, multiply, neg, negate, plus, pow, power, rem, remainder, sub,
    to_number,
};
pub use crate::bytes::Bytes;
pub use crate::convert::{append_text, is_true, number_of, numeric_of, text_in, text_of};
pub use crate::fault::ValueFault;
pub use crate::order::compare;
pub use crate::table::Table;
pub use crate::value::Value;
