//! What a run stores: where variables, arrays and places stand; the parameters of the active calls; the arrays by number.
#![tactic(auto)]

mod arrays;
mod control;
mod entry;
mod frames;
mod key;
mod position;
pub mod room;
mod subscript;
mod variables;

pub use arrays::Arrays;
pub use control::{Control, FIRST_BOUND, HIGHEST_SUM};
pub use entry::{Caller, Entry};
pub use frames::Frames;
pub use position::{Array, Place, Variable};
pub use subscript::Subscript;
pub use variables::Variables;
