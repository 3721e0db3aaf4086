//! Rows of the language, tried by the prover: a row is a program text with what it is started with and what the outside
//! answers, and the law that it comes to this outcome and leaves these bytes. The law is of the definitions alone (which text
//! is which program, and what that means), and it is proved by computing them: no code of this repository stands between.
//! The program is made of nothing here, and nothing depends on it.
#![tactic(auto)]

mod arrays;
mod control;
mod expressions;
mod fields;
mod patterns;
mod refusals;
mod streams;
mod texts;

pub use arrays::{calls, elements};
pub use control::{loops, runs};
pub use expressions::{arithmetic, conditions};
pub use fields::{places, separators};
pub use patterns::{exchanges, matches};
pub use refusals::{breaks, names, no_programs};
pub use streams::{inputs, outputs};
pub use texts::{formats, functions};
