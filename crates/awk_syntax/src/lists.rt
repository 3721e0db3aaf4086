// Behind an element of a list: a comma, or its end.

ghost use Rattle.std.specs.Prelude.{◌≡◌, ◌∷◌, List, true, false, IfOk};
ghost use Rattle.awk_grammar.specs.definitions.Height.{max_height};
ghost use Rattle.awk_grammar.specs.support.Parser as parser;
ghost use Rattle.awk_frames.specs.support.FrameView.{operand_of, list_of, list_frame_of, stack_of, next_of};

use crate::ended_nodes::group;
use crate::taken::{begin, operand};
use awk_frames::expressions::{built_in, call, element};
use awk_frames::frame::{Frame, ListHead};
use awk_frames::operand::{Operand, OperandList};
use awk_frames::state::{ExpressionState, NextToken, ParserState};
use awk_grammar::arguments::accepts;
use awk_grammar::precedence::PRIMARY;
use awk_lex::token::{BuiltIn, Kind};
use awk_value::Bytes;
use std::alloc::{AllocError, Global};

/// Behind the comma of a list: what is read of it waits for the next element.
fn begin_next(
    alloc: Global,
    head: ListHead,
    list: OperandList,
    stack: &mut Vec<Frame>,
) -> Result<Option<ParserState>, AllocError>
    ensures { IfOk result (λ state. next_of state stack.new.items
        ≡ parser.BeforeOperand true false (list_frame_of head (list_of list) ∷ stack_of stack.old.items)) }
{
    let frame = Frame::list(alloc, head, list)?;
    begin(frame, true, false, stack)
}

/// What is in parentheses: one operand is a group, and more are a list that `in` or a print takes.
fn close_parentheses(
    alloc: Global,
    in_print_list: bool,
    list: OperandList,
    last: Operand,
) -> Result<Option<ParserState>, AllocError>
    ensures { (frames : List Frame) → IfOk result (λ state. next_of state frames
        ≡ parser.close_group max_height Kind.CloseParenthesis in_print_list (list_of list) (operand_of last)
        (stack_of frames)) }
{
    if list.count == 0 {
        drop(list);
        let tree = group(alloc, last.tree)?;
        return Ok(operand(in_print_list, Operand::new(PRIMARY, tree)));
    }
    let list = Box::new(alloc, list.with(last)?)?;
    Ok(Some(ParserState::Expression {
        in_print_list,
        state: ExpressionState::AfterList(list),
    }))
}

/// Behind an operand in parentheses: another one follows, or they are closed.
pub(crate) fn close_group(
    alloc: Global,
    next: NextToken,
    in_print_list: bool,
    list: OperandList,
    last: Operand,
    stack: &mut Vec<Frame>,
) -> Result<Option<ParserState>, AllocError>
    ensures { IfOk result (λ state. next_of state stack.new.items
        ≡ parser.close_group max_height next.entry.kind.now in_print_list (list_of list) (operand_of last)
        (stack_of stack.old.items)) }
{
    match next.kind {
        Kind::Comma => {
            let head = ListHead::Group { in_print_list };
            begin_next(alloc, head, list.with(last)?, stack)
        }
        Kind::CloseParenthesis => close_parentheses(alloc, in_print_list, list, last),
        _ => {
            drop(list);
            drop(last);
            Ok(None)
        }
    }
}

/// Behind an argument of a function of the program.
pub(crate) fn close_call(
    alloc: Global,
    next: NextToken,
    name: Bytes,
    in_print_list: bool,
    list: OperandList,
    stack: &mut Vec<Frame>,
) -> Result<Option<ParserState>, AllocError>
    ensures { IfOk result (λ state. next_of state stack.new.items
        ≡ parser.close_call max_height next.entry.kind.now name in_print_list (list_of list) (stack_of stack.old.items)) }
{
    match next.kind {
        Kind::Comma => {
            let head = ListHead::Call {
                name,
                in_print_list,
            };
            begin_next(alloc, head, list, stack)
        }
        Kind::CloseParenthesis => {
            let tree = call(alloc, name, list.exprs)?;
            Ok(operand(in_print_list, Operand::new(PRIMARY, tree)))
        }
        _ => {
            drop(list);
            Ok(None)
        }
    }
}

/// Behind an argument of a built-in function.
pub(crate) fn close_built_in(
    alloc: Global,
    next: NextToken,
    function: BuiltIn,
    in_print_list: bool,
    list: OperandList,
    stack: &mut Vec<Frame>,
) -> Result<Option<ParserState>, AllocError>
    ensures { IfOk result (λ state. next_of state stack.new.items
        ≡ parser.close_built_in max_height next.entry.kind.now function in_print_list (list_of list)
        (stack_of stack.old.items)) }
{
    match next.kind {
        Kind::Comma => {
            let head = ListHead::BuiltIn {
                function,
                in_print_list,
            };
            begin_next(alloc, head, list, stack)
        }
        Kind::CloseParenthesis if accepts(function, list.count, list.third_is_place) => {
            let tree = built_in(alloc, function, list.exprs)?;
            Ok(operand(in_print_list, Operand::new(PRIMARY, tree)))
        }
        _ => {
            drop(list);
            Ok(None)
        }
    }
}

/// Behind a subscript.
pub(crate) fn close_element(
    alloc: Global,
    next: NextToken,
    name: Bytes,
    in_print_list: bool,
    list: OperandList,
    stack: &mut Vec<Frame>,
) -> Result<Option<ParserState>, AllocError>
    ensures { IfOk result (λ state. next_of state stack.new.items
        ≡ parser.close_element max_height next.entry.kind.now name in_print_list (list_of list) (stack_of stack.old.items)) }
{
    match next.kind {
        Kind::Comma => {
            let head = ListHead::Element {
                name,
                in_print_list,
            };
            begin_next(alloc, head, list, stack)
        }
        Kind::CloseBracket => {
            let tree = element(alloc, name, list.exprs)?;
            Ok(operand(in_print_list, Operand::place(PRIMARY, tree)))
        }
        _ => {
            drop(list);
            Ok(None)
        }
    }
}
