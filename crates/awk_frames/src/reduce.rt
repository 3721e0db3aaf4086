// Makes the nodes that a token ends.

ghost use Rattle.std.specs.Prelude.{◌≡◌, IfOk};
ghost use Rattle.awk_grammar.specs.definitions.Height.{max_height};
ghost use Rattle.awk_grammar.specs.support.Parser as parser;
ghost use Rattle.awk_frames.specs.support.FrameView.{role_of, operand_of, frame_of, stack_of, reduced};
ghost use Rattle.awk_frames.specs.support.Ended.{is_ended, is_top_ended, Ends};

use crate::frame::Frame;
use crate::infix_role::InfixRole;
use crate::operand::Operand;
use crate::stack::pop;
use std::alloc::{AllocError, Global};

impl Frame {
    /// Whether the operand makes the node before a token of this role.
    fn is_ended(&self, role: InfixRole, operand: &Operand) -> bool
        ensures { result ≡ is_ended (role_of role) (operand_of operand.now) (frame_of self.now) }
    {
        match self {
            Frame::Node(node) => {
                !role.continues(operand, node.greatest_allowed()) && !node.stays_open(operand, role)
            }
            _ => false,
        }
    }

    /// The node, made of its last child.
    fn finish(self, alloc: Global, operand: Operand) -> Result<Operand, AllocError>
        ensures { IfOk result (λ p. operand_of p ≡ parser.finish_node max_height (frame_of self) (operand_of operand)) }
    {
        match self {
            Frame::Node(node) => node.finish(alloc, operand),
            rest => {
                drop(rest);
                Ok(operand)
            }
        }
    }
}

/// Whether the operand makes the node on top before a token of this role.
fn is_top_ended(role: InfixRole, operand: &Operand, stack: &Vec<Frame>) -> bool
    ensures { result ≡ is_top_ended (role_of role) (operand_of operand.now) (stack_of stack.now.items) }
{
    match stack.last() {
        Some(frame) => frame.is_ended(role, operand),
        None => false,
    }
}

/// The node on top, taken off where the next token ends it.
fn pop_ended(role: InfixRole, operand: &Operand, stack: &mut Vec<Frame>) -> Option<Frame>
    ensures { Ends (role_of role) (operand_of operand.now) (stack_of stack.old.items) result (stack_of stack.new.items) }
{
    if is_top_ended(role, operand, stack) {
        return pop(stack);
    }
    None
}

/// Makes the nodes that the next token ends.
pub fn reduce(
    alloc: Global,
    role: InfixRole,
    operand: Operand,
    stack: &mut Vec<Frame>,
) -> Result<Operand, AllocError>
    ensures { IfOk result (λ p. reduced p stack.new.items
        ≡ parser.reduce max_height (role_of role) (operand_of operand) (stack_of stack.old.items)) }
{
    let mut operand = operand;
    while let Some(frame) = pop_ended(role, &operand, stack) {
        operand = frame.finish(alloc, operand)?;
    }
    Ok(operand)
}
