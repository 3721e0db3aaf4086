//! The outside of a run: what is known of any world, what an oracle of it would answer, and a world in memory.
#![tactic(auto)]

mod answer;
mod entry;
mod failure;
mod laws;
mod lent;
mod planned_faults;
mod script_stream;
mod script_world;
mod world;

pub use answer::{Answer, Ending, InputAnswer, OutputAnswer};
pub use entry::Entry;
pub use failure::Failure;
pub use laws::{is_consistent_with_less, some_oracle_is_consistent};
pub use script_world::ScriptWorld;
pub use world::{InputKind, Mode, OUTPUT_BUFFER_SIZE, OutputKind, World, WorldFault};
