// One token at a time.

ghost use Rattle.std.specs.Prelude.{◌≡◌, ◌∷◌, false, List, IfOk};
ghost use Rattle.awk_grammar.specs.definitions.Height.{max_height};
ghost use Rattle.awk_grammar.specs.support.Parser as parser;
ghost use Rattle.awk_syntax.specs.support.Answered.{found_of};
ghost use Rattle.awk_frames.specs.declared.state.ExpressionState.TheVariants as in_expression;
ghost use Rattle.awk_frames.specs.support.FrameView.{operand_of, list_of, frame_of, state_of};
ghost use Rattle.awk_frames.specs.support.FrameView.{expression_state_of, stack_of, next_of};

use crate::expressions::{
    after_bar, after_getline, after_length, after_list, after_name, after_operand,
};
use crate::items::step_item;
use crate::nodes::membership;
use crate::operands::start_operand;
use crate::step::step_statement;
use crate::taken::{begin, operand as after};
use awk_frames::checked_statements::CheckedItems;
use awk_frames::expressions::list_membership;
use awk_frames::frame::Frame;
use awk_frames::operand::{Operand, OperandList};
use awk_frames::stack::{pop, push};
use awk_frames::state::{Behind, ExpressionState, ItemState, NextToken, ParserState};
use awk_grammar::precedence::MEMBERSHIP;
use awk_lex::token::Kind;
use awk_value::Bytes;
use std::alloc::{AllocError, Global};

/// The array behind `in`.
fn after_in(
    alloc: Global,
    next: NextToken,
    in_print_list: bool,
    subscript: Operand,
) -> Result<Option<ParserState>, AllocError>
    ensures { (frames : List Frame) → IfOk result (λ state. next_of state frames
        ≡ parser.name_then next.entry.kind.now
        (λ a. parser.AfterOperand in_print_list (parser.membership_operand max_height (operand_of subscript) a)
        (stack_of frames))) }
{
    let Kind::Name(array) = next.kind else {
        drop(subscript);
        return Ok(None);
    };
    let array = array.clone()?;
    let tree = membership(alloc, subscript.tree, array)?;
    Ok(after(in_print_list, Operand::new(MEMBERSHIP, tree)))
}

/// The array behind a list and `in`.
fn after_list_in(
    alloc: Global,
    next: NextToken,
    in_print_list: bool,
    subscripts: OperandList,
) -> Result<Option<ParserState>, AllocError>
    ensures { (frames : List Frame) → IfOk result (λ state. next_of state frames
        ≡ parser.name_then next.entry.kind.now
        (λ a. parser.AfterOperand in_print_list (parser.list_membership_operand max_height (list_of subscripts) a)
        (stack_of frames))) }
{
    let Kind::Name(array) = next.kind else {
        drop(subscripts);
        return Ok(None);
    };
    let array = array.clone()?;
    let tree = list_membership(alloc, subscripts.exprs, array)?;
    Ok(after(in_print_list, Operand::new(MEMBERSHIP, tree)))
}

/// The `(` that opens a frame.
fn open_frame(
    next: NextToken,
    frame: Frame,
    stack: &mut Vec<Frame>,
) -> Result<Option<ParserState>, AllocError>
    ensures { IfOk result (λ state. next_of state stack.new.items
        ≡ parser.at_parenthesis next.entry.kind.now
        (parser.BeforeOperand false false (frame_of frame ∷ stack_of stack.old.items))) }
{
    if matches!(next.kind, Kind::OpenParenthesis) {
        return begin(frame, false, false, stack);
    }
    drop(frame);
    Ok(None)
}

/// Takes a token behind an operand, and what is read behind that.
fn step_operand(
    alloc: Global,
    next: NextToken,
    in_print_list: bool,
    operand: Operand,
    behind: Behind,
    stack: &mut Vec<Frame>,
) -> Result<Option<ParserState>, AllocError>
    ensures { IfOk result (λ reached. next_of reached stack.new.items
        ≡ parser.step max_height (expression_state_of (in_expression.AfterOperand operand behind) in_print_list
        (stack_of stack.old.items)) next.entry.kind.now) }
{
    match behind {
        Behind::Nothing => after_operand(alloc, next, in_print_list, operand, stack),
        Behind::Bar => after_bar(alloc, next, in_print_list, operand, stack),
        Behind::PipedGetline => after_getline(alloc, next, in_print_list, Some(operand), stack),
        Behind::In => after_in(alloc, next, in_print_list, operand),
    }
}

/// Takes a token in an expression.
fn step_expression(
    alloc: Global,
    state: ExpressionState,
    next: NextToken,
    in_print_list: bool,
    stack: &mut Vec<Frame>,
) -> Result<Option<ParserState>, AllocError>
    ensures { IfOk result (λ reached. next_of reached stack.new.items
        ≡ parser.step max_height (expression_state_of state in_print_list (stack_of stack.old.items)) next.entry.kind.now) }
{
    match state {
        ExpressionState::BeforeOperand { skips_newlines } => {
            start_operand(alloc, next, skips_newlines, in_print_list, stack)
        }
        ExpressionState::AfterOperand(operand, behind) => {
            step_operand(alloc, next, in_print_list, operand, behind, stack)
        }
        ExpressionState::AfterName(name) => after_name(alloc, next, in_print_list, name, stack),
        ExpressionState::AfterLength => after_length(alloc, next, in_print_list, stack),
        ExpressionState::AfterGetline => after_getline(alloc, next, in_print_list, None, stack),
        ExpressionState::BeforeParenthesis(frame) => open_frame(
            next,
            Box::into_inner(frame),
            stack,
        ),
        ExpressionState::AfterList(list) => after_list(alloc, next, in_print_list, list, stack),
        ExpressionState::AfterListIn(list) => {
            after_list_in(alloc, next, in_print_list, Box::into_inner(list))
        }
    }
}

/// Takes a token: where the parser stands then, or none if it can't take it.
pub(crate) fn step(
    alloc: Global,
    state: ParserState,
    next: NextToken,
    stack: &mut Vec<Frame>,
) -> Result<Option<ParserState>, AllocError>
    ensures { IfOk result (λ reached. next_of reached stack.new.items
        ≡ parser.step max_height (state_of state stack.old.items) next.entry.kind.now) }
{
    match state {
        ParserState::Expression {
            in_print_list,
            state,
        } => step_expression(alloc, state, next, in_print_list, stack),
        ParserState::Statement(state) => step_statement(alloc, state, next, stack),
        ParserState::Item(state) => step_item(alloc, state, next, stack),
    }
}

/// The items of a program above which nothing has begun, none of them if it is too high.
fn items(stack: &mut Vec<Frame>) -> Option<Option<CheckedItems>>
    ensures { found_of result ≡ parser.items (stack_of stack.old.items) }
{
    match pop(stack) {
        Some(Frame::Program(items)) if stack.is_empty() => Some(items),
        rest => {
            drop(rest);
            None
        }
    }
}

/// The text ends, which ends a pattern as a newline does.
pub(crate) fn finish(
    alloc: Global,
    state: ParserState,
    stack: &mut Vec<Frame>,
) -> Result<Option<Option<CheckedItems>>, AllocError>
    ensures { IfOk result (λ found. found_of found ≡ parser.finish max_height (state_of state stack.old.items)) }
{
    let next = NextToken {
        kind: &Kind::Newline,
    };
    let state = step(alloc, state, next, stack)?;
    let is_between_items = matches!(state, Some(ParserState::Item(ItemState::BetweenItems)));
    drop(state);
    Ok(if is_between_items { items(stack) } else { None })
}
