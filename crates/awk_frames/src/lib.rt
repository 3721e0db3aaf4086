//! What the parser keeps between two tokens: checked nodes, operands, what has begun, and where it stands.
#![tactic(auto)]

pub mod checked_expressions;
pub mod checked_statements;
mod child;
mod expression_nodes;
pub mod expressions;
pub mod frame;
mod held;
pub mod infix_role;
mod limited_expressions;
mod limited_statements;
mod lists;
pub mod node;
pub mod operand;
pub mod reduce;
pub mod stack;
pub mod state;
