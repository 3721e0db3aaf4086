//! The system as the outside of a run: its standard streams and its files.
#![tactic(auto)]

mod calls;
mod commands;
mod descriptors;
mod files;
mod opened;
mod system_world;

pub use descriptors::HeldDescriptors;
pub use system_world::SysWorld;
