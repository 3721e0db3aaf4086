// Where the parser stands behind a token that it has taken.

ghost use Rattle.std.specs.Prelude.{◌≡◌, ◌∷◌, List, IfOk};
ghost use Rattle.awk_grammar.specs.support.Parser as parser;
ghost use Rattle.awk_frames.specs.support.FrameView.{operand_of, body_frame_of, frame_of, stack_of, next_of};

use awk_frames::frame::{BodyFrame, Frame};
use awk_frames::operand::Operand;
use awk_frames::stack::push;
use awk_frames::state::{Behind, ExpressionState, ParserState, StatementState};
use std::alloc::{AllocError, Global};

/// Behind an operand.
pub fn operand(in_print_list: bool, operand: Operand) -> Option<ParserState>
    ensures { (frames : List Frame) →
        next_of result frames ≡ parser.AfterOperand in_print_list (operand_of operand) (stack_of frames) }
{
    Some(ParserState::Expression {
        in_print_list,
        state: ExpressionState::AfterOperand(operand, Behind::Nothing),
    })
}

/// A node begins, and an operand in it.
pub fn begin(
    frame: Frame,
    skips_newlines: bool,
    in_print_list: bool,
    stack: &mut Vec<Frame>,
) -> Result<Option<ParserState>, AllocError>
    ensures { IfOk result (λ state. next_of state stack.new.items
        ≡ parser.BeforeOperand skips_newlines in_print_list (frame_of frame ∷ stack_of stack.old.items)) }
{
    push(stack, frame)?;
    Ok(Some(ParserState::Expression {
        in_print_list,
        state: ExpressionState::BeforeOperand { skips_newlines },
    }))
}

/// A node begins, and a statement in it.
pub(crate) fn begin_statement(
    frame: Frame,
    stack: &mut Vec<Frame>,
) -> Result<Option<ParserState>, AllocError>
    ensures { IfOk result (λ state. next_of state stack.new.items
        ≡ parser.BeforeStatement (frame_of frame ∷ stack_of stack.old.items)) }
{
    push(stack, frame)?;
    Ok(Some(ParserState::Statement(StatementState::BeforeStatement)))
}

/// A statement begins whose body follows.
pub(crate) fn begin_body(
    alloc: Global,
    body: BodyFrame,
    stack: &mut Vec<Frame>,
) -> Result<Option<ParserState>, AllocError>
    ensures { IfOk result (λ state. next_of state stack.new.items
        ≡ parser.BeforeStatement (body_frame_of body ∷ stack_of stack.old.items)) }
{
    begin_statement(Frame::Body(Box::new(alloc, body)?), stack)
}
