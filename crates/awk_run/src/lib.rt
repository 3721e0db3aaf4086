//! The run of a program: from a text and a world to the bytes on the outputs and an outcome, and the theorem on it.
//!
//! - `execute` reads a text as a program and runs it in a world from start values (`Start`, `Assignment`), with at most so
//!   many steps; it answers an `Outcome`, whose exit status is `status` and whose line, of a `Fault`, `fault_line`.
//! - `read_program` reads a text as a `Program`, or says why it is refused; `run` runs one, and `run_counted` counts how
//!   often the texts of its records were split and made anew.
//! - `Patterns` keeps the EREs of a run, `Control` its active calls.
//! - `execute_watched` does what `execute` does, and tells a `Watch` of the run.
//! - `one_program`, `law_of_limits`, `law_of_outcomes`, `law_of_turns`, `law_of_untouched`, `law_of_failed_writes`,
//!   `law_of_brought_outputs`: laws of programs and runs.
#![tactic(auto)]

mod items;
mod names;
mod plan_run;
mod program;
mod records;
mod start;

pub use awk_evaluator::{Unwatched, Watch};
pub use awk_functions::Patterns;
pub use awk_semantics::{
    Fault, Outcome, fault_line, law_of_limits, law_of_outcomes, law_of_turns, status,
};
pub use awk_storage::Control;
pub use program::{
    Program, execute, execute_watched, law_of_brought_outputs, law_of_failed_writes,
    law_of_untouched, one_program, read_program, run, run_counted,
};
pub use start::{Assignment, Start};
