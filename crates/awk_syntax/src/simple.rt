// The ends of simple statements, which may be parts of a `for`.

ghost use Rattle.std.specs.Prelude.{◌≡◌, IfOk};
ghost use Rattle.awk_grammar.specs.definitions.Height.{max_height};
ghost use Rattle.awk_grammar.specs.support.Parser as parser;
ghost use Rattle.awk_frames.specs.support.CheckedStatementNodes.{checked_simple};
ghost use Rattle.awk_frames.specs.support.FrameView.{list_of, expression_frame_of, stack_of, next_of};

use crate::for_part_ends::{end_part, is_part_on};
use crate::operands::start_operand;
use crate::simple_nodes::{delete, delete_all, simple};
use crate::statements::end_simple_statement;
use crate::taken::begin;
use awk_frames::checked_statements::CheckedSimple;
use awk_frames::frame::{ExpressionFrame, Frame, ListHead};
use awk_frames::operand::OperandList;
use awk_frames::stack::push;
use awk_frames::state::{NextToken, ParserState, StatementState};
use awk_lex::token::Kind;
use awk_value::Bytes;
use std::alloc::{AllocError, Global};

/// Behind a simple statement, which may be a part of a `for`.
pub fn end_simple(
    alloc: Global,
    next: NextToken,
    statement: Option<CheckedSimple>,
    stack: &mut Vec<Frame>,
) -> Result<Option<ParserState>, AllocError>
    ensures { IfOk result (λ state. next_of state stack.new.items
        ≡ parser.end_simple max_height next.entry.kind.now (checked_simple statement) (stack_of stack.old.items)) }
{
    if is_part_on(stack) {
        return end_part(alloc, next, statement, stack);
    }
    let statement = simple(alloc, statement)?;
    end_simple_statement(alloc, next, statement, stack)
}

/// Behind a subscript of a deletion.
pub fn after_delete_subscript(
    alloc: Global,
    next: NextToken,
    name: Bytes,
    list: OperandList,
    stack: &mut Vec<Frame>,
) -> Result<Option<ParserState>, AllocError>
    ensures { IfOk result (λ state. next_of state stack.new.items
        ≡ parser.after_delete_subscript max_height next.entry.kind.now name (list_of list) (stack_of stack.old.items)) }
{
    match next.kind {
        Kind::Comma => {
            let frame = Frame::list(alloc, ListHead::Delete(name), list)?;
            begin(frame, true, false, stack)
        }
        Kind::CloseBracket => {
            let statement = Box::new(alloc, delete(name, list.exprs))?;
            Ok(Some(ParserState::Statement(StatementState::AfterSimple(statement))))
        }
        _ => {
            drop(list);
            Ok(None)
        }
    }
}

/// Behind the word `delete` and a name: its subscripts, or the whole array is meant.
pub(crate) fn after_delete_name(
    alloc: Global,
    next: NextToken,
    name: Bytes,
    stack: &mut Vec<Frame>,
) -> Result<Option<ParserState>, AllocError>
    ensures { IfOk result (λ state. next_of state stack.new.items
        ≡ parser.after_delete_name max_height name (stack_of stack.old.items) next.entry.kind.now) }
{
    match next.kind {
        Kind::OpenBracket => {
            let list = OperandList::new(alloc);
            let frame = Frame::list(alloc, ListHead::Delete(name), list)?;
            begin(frame, false, false, stack)
        }
        _ => end_simple(alloc, next, Some(delete_all(name)), stack),
    }
}

/// Behind the word `exit` or `return`: the statement without a value, unless an expression follows.
pub(crate) fn after_exit(
    alloc: Global,
    next: NextToken,
    without_value: Option<CheckedSimple>,
    frame: ExpressionFrame,
    stack: &mut Vec<Frame>,
) -> Result<Option<ParserState>, AllocError>
    ensures { IfOk result (λ state. next_of state stack.new.items
        ≡ parser.after_exit max_height (checked_simple without_value) (expression_frame_of frame)
        (stack_of stack.old.items) next.entry.kind.now) }
{
    match next.kind {
        Kind::Semicolon | Kind::Newline | Kind::CloseBrace => {
            drop(frame);
            end_simple(alloc, next, without_value, stack)
        }
        _ => {
            drop(without_value);
            push(stack, Frame::Expression(frame))?;
            start_operand(alloc, next, false, false, stack)
        }
    }
}
