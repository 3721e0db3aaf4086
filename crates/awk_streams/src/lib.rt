//! The streams of a run over any world, and the world.
//!
//! - `World`: the outside as a trait: openings, readings, writings, flushes, closings and runs of commands, with the log of
//!   them; `InputKind`, `OutputKind`, `Mode`, `WorldFault` are its words. `ScriptWorld` is a world in memory made from a
//!   list of `Answer`s, which stores its log as `Entry`s.
//! - `Streams`: the main input, the standard outputs, and files and commands by name: `open_main`, `next_main`,
//!   `next_named`, `open_output`, `print`, `flush`, `flush_all`, `close`, `run`, `finish`; `Target` is where a print goes,
//!   and its faults are `StreamFault`s. `print_error` writes a line to standard error.
//! - `some_oracle_is_consistent`, `is_consistent_with_less`: laws of logs and what an oracle would answer.
#![tactic(auto)]

mod fault;
mod input;
mod named;
mod output;
mod streams;

pub use awk_world::{
    Answer, Entry, InputKind, Mode, OUTPUT_BUFFER_SIZE, OutputKind, ScriptWorld, World, WorldFault,
    is_consistent_with_less, some_oracle_is_consistent,
};
pub use fault::StreamFault;
pub use input::NextNamed;
pub use output::print_error;
pub use streams::{Streams, Target};
