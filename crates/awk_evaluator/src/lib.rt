//! The one evaluator over nodes: from a place of a plan to the end of a run.
#![tactic(auto)]

mod appends;
mod at_key;
mod beginning;
mod comparisons;
mod effects;
mod elements;
mod evaluate;
mod field_arithmetic;
mod function_values;
mod laws;
mod machine;
mod moves;
pub mod operands;
mod operations;
mod prints;
mod quick_values;
mod room;
mod stream_values;
mod text_values;
mod updates;
mod values;
mod walks;
mod watch;
mod words;

pub use laws::law_of_plans;
pub use machine::{Machine, Move};
pub use watch::{Unwatched, Watch};
