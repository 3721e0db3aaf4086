//! The meaning of the whole language: what a program does to the state of a run, as definitions; how a run ends;
//! and laws of all runs.
#![tactic(auto)]

mod fault;
mod flow;
mod halt;
pub mod laws;
mod local;
mod outcome;
mod text_laws;

pub use fault::{Fault, fault_line};
pub use flow::Flow;
pub use halt::Halt;
pub use laws::{
    law_of_choice, law_of_ends, law_of_items, law_of_keeping, law_of_limits, law_of_outcomes, law_of_results,
    law_of_sequence, law_of_turns,
};
pub use local::Local;
pub use outcome::{Outcome, status};
pub use text_laws::{law_of_exchanges, law_of_matches, law_of_positions};
