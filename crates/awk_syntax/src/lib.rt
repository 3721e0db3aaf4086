//! The parser: from the tokens of a program to its syntax tree, one token at a time, with its EREs checked (POSIX awk,
//! Grammar).
//!
//! - `parse` reads a list of tokens as a `Tree`, or answers a `Refusal` with its code and line.
//! - `tree` has the types of the tree (`awk_grammar`).
#![tactic(auto)]

mod ended_nodes;
mod endings;
mod expressions;
mod for_part_beginnings;
mod for_part_ends;
mod item_nodes;
mod items;
mod lists;
mod nodes;
mod operands;
mod parser;
mod parsing;
mod patterns;
mod prints;
mod read;
mod simple;
mod simple_nodes;
mod statement_nodes;
mod statements;
mod step;
mod taken;

pub use awk_grammar::tree;
pub use awk_grammar::tree::Tree;
pub use parsing::{one_tree, parse};
