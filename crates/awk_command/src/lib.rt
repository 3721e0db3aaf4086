//! The command line of awk: options and operands, program files, what a process is started with, and the run of the
//! program that the words after `awk` ask for, in any world.
//!
//! - `main_words` does all that the utility does, and answers its exit status.
//! - `main_words_watched` does the same, and tells a `Watch` of the run.
//! - `read_command_line` reads the words, as a `CommandLine` or a `CommandFault`.
//! - `given_words`, `given_environment`: what the process was started with.
#![tactic(auto)]

mod command_line;
mod invocation;
mod options;
mod process;
mod program_text;
mod report;

pub use command_line::{CommandLine, ProgramSource, read_command_line};
pub use invocation::{main_words, main_words_watched};
pub use options::CommandFault;
pub use process::{given_environment, given_words};
