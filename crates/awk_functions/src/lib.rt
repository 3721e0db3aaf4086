//! What operators and built-in functions make of values: numbers and texts, the texts of formats, and the patterns of a
//! run, each of which is read once.
#![tactic(auto)]

mod compiled;
mod formats;
mod found;
mod functions;
mod line;
mod operators;
mod patterns;
mod relations;
mod short;

pub use compiled::Compiled;
pub use formats::Formats;
pub use found::{Exchanged, length_of, start_of};
pub use functions::apply_function;
pub use line::{
    append, append_each, append_line, concatenate, concatenate_all, join, joined_key, make_line,
};
pub use operators::{apply, by_one, change, exit_status, operator_of, raise, truth_value};
pub use patterns::{PatternOperand, Patterns};
pub use relations::{relate, relate_numbers};
pub use short::{apply_in_short, compute_in_short};
