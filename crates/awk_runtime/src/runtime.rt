// The state of a run.

ghost use Rattle.std.specs.Prelude.{◌≡◌, ◌<◌, ◌-◌, true, false, Ok, OnOk};
ghost use Rattle.awk_runtime.specs.support.Simulation.{Spends};

use crate::names::ProgramNames;
use awk_functions::{Formats, Patterns};
use awk_record::Record;
use awk_semantics::Halt;
use awk_storage::{Arrays, Frames, Variables};
use awk_streams::Streams;
use awk_text::Span;
use awk_value::Value;
use std::alloc::Global;

/// The state of a run.
#[derive(Drop)]
pub struct Runtime {
    pub alloc: Global,
    pub names: ProgramNames,
    /// The record at hand.
    pub current: Record,
    /// The special variables.
    pub specials: Variables,
    /// The variables of the program, by their slots.
    pub globals: Vec<Value>,
    pub arrays: Arrays,
    pub frames: Frames,
    pub streams: Streams,
    pub patterns: Patterns,
    pub formats: Formats,
    /// The element of ARGV that is looked at next.
    pub next: i128,
    /// Whether a main input was found: a file operand, or standard input for want of one.
    pub input_seen: bool,
    /// Which ranges are inside, by the number of their item; those beyond the end aren't.
    pub inside: Vec<bool>,
    /// The exit status so far.
    pub status: u8,
    /// The steps left.
    pub steps: u64,
    /// The line that a print makes, kept for its room.
    pub line: Vec<u8>,
    /// The pieces that a split finds, kept for their room.
    pub spans: Vec<Span>,
}

impl Runtime {
    /// Spends a step, or says that none is left.
    #[inline(always)]
    pub fn spend(&mut self) -> Result<(), Halt>
        ensures { Spends self.old self.new result }
    {
        if self.steps == 0 {
            return Err(Halt::OutOfSteps);
        }
        self.steps -= 1;
        Ok(())
    }
}
