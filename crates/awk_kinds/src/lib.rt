//! What names stand for: awk's own variables, each at its index; which names of a program are arrays, and its functions by their
//! numbers; and which programs fit: where statements stand, and how names are used.
#![tactic(auto)]

mod arrays;
mod expression_uses;
mod functions;
mod graph;
mod kinds;
mod laws;
mod misuses;
mod mixed;
mod names;
mod of_values;
mod parameters;
mod placed;
mod reach;
mod refusal;
mod scope;
mod special;
mod statement_uses;
mod uses;
pub mod variable;

pub use kinds::Kinds;
pub use laws::{law_of_array_names, law_of_kinds, law_of_refusals};
pub use names::Names;
pub use of_values::is_of_values;
pub use parameters::Parameters;
pub use refusal::resolve;
pub use special::{FirstValue, OWN_VARIABLES, OwnVariable, Special, is_special};
