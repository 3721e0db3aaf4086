// The stack of the nodes that have begun.

ghost use Rattle.std.specs.Prelude.{◌≡◌, ◌∷◌, IfOk};
ghost use Rattle.awk_grammar.specs.support.Parser as parser;
ghost use Rattle.awk_frames.specs.support.FrameView.{frame_of, stack_of, popped};

use crate::frame::{ExpressionFrame, Frame};
use awk_grammar::precedence::{EXPR, FIELD_REFERENCE};
use std::alloc::AllocError;

/// A node begins.
pub fn push(stack: &mut Vec<Frame>, frame: Frame) -> Result<(), AllocError>
    ensures { IfOk result (λ _. stack_of stack.new.items ≡ frame_of frame ∷ stack_of stack.old.items) }
{
    stack.push(frame)?;
    Ok(())
}

/// The node that began last, taken off.
pub fn pop(stack: &mut Vec<Frame>) -> Option<Frame>
    ensures { stack_of stack.old.items ≡ popped result stack.new.items }
{
    stack.pop()
}

impl Frame {
    /// The greatest precedence that may stand as the next child.
    fn greatest_allowed(&self) -> u8
        ensures { result ≡ parser.greatest_allowed (frame_of self.now) }
    {
        match self {
            Frame::Node(node) => node.greatest_allowed(),
            Frame::Expression(ExpressionFrame::Output(..)) => FIELD_REFERENCE,
            _ => EXPR,
        }
    }
}

/// The greatest precedence that may stand next.
pub fn greatest_allowed_on(stack: &Vec<Frame>) -> u8
    ensures { result ≡ parser.greatest_allowed_on (stack_of stack.now.items) }
{
    match stack.last() {
        Some(frame) => frame.greatest_allowed(),
        None => EXPR,
    }
}
