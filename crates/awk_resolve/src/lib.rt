//! Programs as nodes that name what follows them: what a place in the list of nodes means, and the lowering of trees.
#![tactic(auto)]

mod appends;
mod appends_in_place;
mod assignments;
pub mod builder;
mod built_ins;
mod calls;
mod changes;
mod conditions;
mod excluded;
mod expressions;
mod getlines;
mod heights;
mod items;
mod lists;
pub mod node;
mod operands;
mod patterns;
mod places;
pub mod plan;
mod program;
mod readings;
pub mod scope;
mod simple_statements;
mod statements;
mod targets;

pub use plan::{Function, Plan};
pub use program::resolve;
