//! The state of a run, and what each word of the language does to it and to the world.
#![tactic(auto)]

mod appends;
mod arrays;
mod at_hand;
mod calls;
mod commands;
mod elements;
mod fields;
mod getlines;
mod inputs;
mod keys;
mod lines;
mod names;
mod operands;
mod operators;
mod outputs;
mod passing;
mod places;
mod runtime;
mod start;
mod texts;
mod variables;

pub use keys::ElementKey;
pub use lines::append_value;
pub use names::ProgramNames;
pub use passing::Unwanted;
pub use runtime::Runtime;
pub use start::Assignment;
pub use texts::PatternSource;
