// What is told of a run while it goes on.

use crate::machine::Machine;
use awk_semantics::Outcome;

/// What is told of a run while it goes on. No run depends on what is done with it.
pub trait Watch {
    /// These bytes were joined to the program's text.
    fn read(&mut self, bytes: &[u8]);

    /// The machine comes to a node, by its place in the plan.
    fn visit(&mut self, at: u32);

    /// The machine halts.
    fn halt(&mut self, machine: &Machine);

    /// The run is over.
    fn end(&mut self, machine: &Machine, outcome: &Outcome);
}

/// Nothing is done with what is told of a run.
#[derive(Clone, Copy)]
pub struct Unwatched;

impl Watch for Unwatched {
    #[inline(always)]
    fn read(&mut self, _bytes: &[u8]) {}

    #[inline(always)]
    fn visit(&mut self, _at: u32) {}

    #[inline(always)]
    fn halt(&mut self, _machine: &Machine) {}

    #[inline(always)]
    fn end(&mut self, _machine: &Machine, _outcome: &Outcome) {}
}
