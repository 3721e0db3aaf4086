// Where the parts of a `for` begin.

ghost use Rattle.std.specs.Prelude.{◌≡◌, IfOk};
ghost use Rattle.awk_grammar.specs.definitions.Height.{max_height};
ghost use Rattle.awk_grammar.specs.support.Parser as parser;
ghost use Rattle.awk_frames.specs.support.CheckedStatementNodes.{checked_part, checked_optional_expr};
ghost use Rattle.awk_frames.specs.support.FrameView.{stack_of, next_of};

use crate::operands::start_operand;
use crate::statements::start_part;
use crate::taken::begin_body;
use awk_frames::checked_statements::{CheckedOptionalExpr, CheckedPart};
use awk_frames::frame::{BodyFrame, ExpressionFrame, ForHead, Frame};
use awk_frames::stack::push;
use awk_frames::state::{NextToken, ParserState, StatementState};
use awk_lex::token::Kind;
use std::alloc::{AllocError, Global};

/// Before the first part of a `for`.
pub(crate) fn before_for_first(
    alloc: Global,
    next: NextToken,
    stack: &mut Vec<Frame>,
) -> Result<Option<ParserState>, AllocError>
    ensures { IfOk result (λ state. next_of state stack.new.items
        ≡ parser.before_for_first max_height (stack_of stack.old.items) next.entry.kind.now) }
{
    match next.kind {
        Kind::Semicolon => {
            let first = Box::new(alloc, Some(CheckedPart::absent()))?;
            Ok(Some(ParserState::Statement(StatementState::BeforeForCondition(first))))
        }
        _ => {
            push(stack, Frame::ForFirst)?;
            start_part(alloc, next, stack)
        }
    }
}

/// Before its condition.
pub(crate) fn before_for_condition(
    alloc: Global,
    next: NextToken,
    first: Box<Option<CheckedPart>>,
    stack: &mut Vec<Frame>,
) -> Result<Option<ParserState>, AllocError>
    ensures { IfOk result (λ state. next_of state stack.new.items
        ≡ parser.before_for_condition max_height (checked_part first.value) (stack_of stack.old.items) next.entry.kind.now) }
{
    match next.kind {
        Kind::Semicolon => {
            let condition = Some(CheckedOptionalExpr::absent());
            let head = Box::new(alloc, ForHead { first, condition })?;
            Ok(Some(ParserState::Statement(StatementState::BeforeForLast(head))))
        }
        _ => {
            let frame = ExpressionFrame::ForCondition(first);
            push(stack, Frame::Expression(frame))?;
            start_operand(alloc, next, false, false, stack)
        }
    }
}

/// Before its last part.
pub(crate) fn before_for_last(
    alloc: Global,
    next: NextToken,
    head: Box<ForHead>,
    stack: &mut Vec<Frame>,
) -> Result<Option<ParserState>, AllocError>
    ensures { IfOk result (λ state. next_of state stack.new.items
        ≡ parser.before_for_last max_height (checked_part head.value.first.value)
        (checked_optional_expr head.value.condition) (stack_of stack.old.items) next.entry.kind.now) }
{
    match next.kind {
        Kind::CloseParenthesis => {
            let last = Box::new(alloc, Some(CheckedPart::absent()))?;
            begin_body(alloc, BodyFrame::For(head, last), stack)
        }
        _ => {
            push(stack, Frame::ForLast(head))?;
            start_part(alloc, next, stack)
        }
    }
}
