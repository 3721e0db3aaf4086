// What a run is started with.

ghost use Rattle.awk_run.specs.definitions.Start.{IsPlain};

pub use awk_runtime::Assignment;
use std::alloc::Global;

/// What a run is started with: assignments made before it, operands, and the environment
/// (POSIX awk, OPERANDS and ENVIRONMENT VARIABLES).
#[derive(Drop)]
pub struct Start {
    pub pre: Vec<Assignment>,
    pub operands: Vec<Vec<u8>>,
    pub environ: Vec<Assignment>,
}

impl Start {
    /// No assignment, no operand and no environment.
    pub fn new(alloc: Global) -> Start
        ensures { IsPlain result }
    {
        Start {
            pre: Vec::new(alloc),
            operands: Vec::new(alloc),
            environ: Vec::new(alloc),
        }
    }
}
