//! The grammar of the whole language: its syntax tree, which trees a program's tokens spell, and the parser over lists
//! that finds them.
#![tactic(auto)]

pub mod arguments;
pub mod height;
pub mod laws;
pub mod precedence;
pub mod tree;
