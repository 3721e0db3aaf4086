//! What an accepted program likely doesn't mean: faults that constants make, values that a format lacks, and mistakes
//! that everybody makes once.
#![tactic(auto)]

mod constants;
mod effects;
mod forms;
mod mistakes;
mod operands;
mod statements;
mod values;

pub use mistakes::find_mistakes;
pub use operands::{Output, operand_finding, output_finding, outputs_of, reads_operands};
