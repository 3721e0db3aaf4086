// The ends of operands: where the parser stands behind the token that ends one, by what had begun.

ghost use Rattle.std.specs.Prelude.{◌≡◌, ◌∷◌, Bool, List, IfOk};
ghost use Rattle.awk_grammar.specs.definitions.Height.{max_height, height_of_statement};
ghost use Rattle.awk_grammar.specs.definitions.Tree as t;
ghost use Rattle.awk_grammar.specs.support.Nodes.{over_two};
ghost use Rattle.awk_frames.specs.support.CheckedExpressions.{checked_expr};
ghost use Rattle.awk_frames.specs.support.CheckedStatementNodes.{checked_part, checked_statement};
ghost use Rattle.awk_grammar.specs.support.Parser as parser;
ghost use Rattle.awk_frames.specs.support.FrameView.{operand_of, optional_operand_of, list_of, list_frame_of};
ghost use Rattle.awk_frames.specs.support.FrameView.{expression_frame_of, body_frame_of, stack_of, next_of};

use crate::ended_nodes::{do_loop, expression, present, print_to, range};
use crate::items::{after_pattern, after_pattern_expr};
use crate::lists::{close_built_in, close_call, close_element, close_group};
use crate::prints::after_print_expr;
use crate::simple::{after_delete_subscript, end_simple};
use crate::simple_nodes::{exit, return_statement};
use crate::taken::{begin, begin_body};
use awk_frames::checked_statements::{CheckedPart, CheckedStatement};
use awk_frames::frame::{
    BodyFrame, Choice, ExpressionFrame, ForHead, Frame, ListFrame, ListHead, NodeFrame, OutputFrame,
};
use awk_frames::operand::{Operand, OperandList};
use awk_frames::stack::pop;
use awk_frames::state::{NextToken, ParserState, StatementState};
use awk_lex::token::{Kind, Operator};
use std::alloc::{AllocError, Global};

/// Behind the last operand of a list.
fn end_element(
    alloc: Global,
    next: NextToken,
    frame: ListFrame,
    operand: Operand,
    stack: &mut Vec<Frame>,
) -> Result<Option<ParserState>, AllocError>
    ensures { (g : Bool) → IfOk result (λ state. next_of state stack.new.items
        ≡ parser.end_operand max_height next.entry.kind.now g (operand_of operand)
        (list_frame_of frame.head (list_of frame.list) ∷ stack_of stack.old.items)) }
{
    let ListFrame { head, list } = frame;
    match head {
        ListHead::Group { in_print_list } => {
            close_group(alloc, next, in_print_list, list, operand, stack)
        }
        ListHead::Call {
            name,
            in_print_list,
        } => close_call(alloc, next, name, in_print_list, list.with(operand)?, stack),
        ListHead::BuiltIn {
            function,
            in_print_list,
        } => close_built_in(
            alloc,
            next,
            function,
            in_print_list,
            list.with(operand)?,
            stack,
        ),
        ListHead::Element {
            name,
            in_print_list,
        } => close_element(alloc, next, name, in_print_list, list.with(operand)?, stack),
        ListHead::Print(form) => after_print_expr(alloc, next, form, list.with(operand)?, stack),
        ListHead::Delete(name) => {
            after_delete_subscript(alloc, next, name, list.with(operand)?, stack)
        }
    }
}

/// Before the `:` of a conditional.
fn close_first_choice(
    alloc: Global,
    next: NextToken,
    in_print_list: bool,
    condition: Box<Operand>,
    first: Operand,
    stack: &mut Vec<Frame>,
) -> Result<Option<ParserState>, AllocError>
    ensures { IfOk result (λ state. next_of state stack.new.items
        ≡ parser.close_first_choice next.entry.kind.now in_print_list (operand_of condition.value) (operand_of first)
        (stack_of stack.old.items)) }
{
    if matches!(next.kind, Kind::Colon) {
        let choice = Box::new(alloc, Choice { condition, first })?;
        return begin(
            Frame::Node(NodeFrame::SecondChoice(choice)),
            false,
            in_print_list,
            stack,
        );
    }
    drop(condition);
    drop(first);
    Ok(None)
}

/// Behind the place of a getline: its file may follow.
fn after_getline_place(
    alloc: Global,
    next: NextToken,
    in_print_list: bool,
    command: Box<Option<Operand>>,
    place: Operand,
    stack: &mut Vec<Frame>,
) -> Result<Option<ParserState>, AllocError>
    ensures { IfOk result (λ state. next_of state stack.new.items
        ≡ parser.after_getline_place next.entry.kind.now in_print_list (optional_operand_of command.value)
        (operand_of place) (stack_of stack.old.items)) }
{
    let is_file = command.is_none()
        && place.is_place
        && matches!(next.kind, Kind::Operator(Operator::Less));
    drop(command);
    if is_file {
        let frame = NodeFrame::GetlineFile(Box::new(alloc, Some(place))?);
        return begin(Frame::Node(frame), false, in_print_list, stack);
    }
    drop(place);
    Ok(None)
}

/// The `)` behind a condition, before the body.
fn close_condition(
    alloc: Global,
    next: NextToken,
    body: BodyFrame,
    stack: &mut Vec<Frame>,
) -> Result<Option<ParserState>, AllocError>
    ensures { IfOk result (λ state. next_of state stack.new.items
        ≡ parser.close_condition next.entry.kind.now (parser.BeforeStatement (body_frame_of body ∷ stack_of stack.old.items))) }
{
    if matches!(next.kind, Kind::CloseParenthesis) {
        return begin_body(alloc, body, stack);
    }
    drop(body);
    Ok(None)
}

/// Behind the condition of a `do`.
fn end_do(
    alloc: Global,
    next: NextToken,
    body: Option<CheckedStatement>,
    condition: Operand,
) -> Result<Option<ParserState>, AllocError>
    ensures { (frames : List Frame) → IfOk result (λ state. next_of state frames
        ≡ parser.close_condition next.entry.kind.now (parser.AfterDo
        (over_two max_height height_of_statement t.Do (checked_statement body) (checked_expr condition.tree))
        (stack_of frames))) }
{
    if matches!(next.kind, Kind::CloseParenthesis) {
        let statement = Box::new(alloc, do_loop(alloc, body, condition.tree)?)?;
        return Ok(Some(ParserState::Statement(StatementState::AfterDo(statement))));
    }
    drop(body);
    drop(condition);
    Ok(None)
}

/// Behind the condition of a `for`.
fn end_for_condition(
    alloc: Global,
    next: NextToken,
    first: Box<Option<CheckedPart>>,
    condition: Operand,
) -> Result<Option<ParserState>, AllocError>
    ensures { (frames : List Frame) → IfOk result (λ state. next_of state frames
        ≡ parser.close_for_condition next.entry.kind.now (parser.BeforeForLast
        (checked_part first.value) (parser.optional_tree max_height (operand_of condition)) (stack_of frames))) }
{
    if matches!(next.kind, Kind::Semicolon) {
        let condition = present(condition.tree);
        let head = Box::new(alloc, ForHead { first, condition })?;
        return Ok(Some(ParserState::Statement(StatementState::BeforeForLast(head))));
    }
    drop(first);
    drop(condition);
    Ok(None)
}

/// Behind an expression that the next token must end.
fn end_expression(
    alloc: Global,
    next: NextToken,
    in_print_list: bool,
    frame: ExpressionFrame,
    operand: Operand,
    stack: &mut Vec<Frame>,
) -> Result<Option<ParserState>, AllocError>
    ensures { IfOk result (λ state. next_of state stack.new.items
        ≡ parser.end_operand max_height next.entry.kind.now in_print_list (operand_of operand)
        (expression_frame_of frame ∷ stack_of stack.old.items)) }
{
    match frame {
        ExpressionFrame::FirstChoice(condition) => {
            close_first_choice(alloc, next, in_print_list, condition, operand, stack)
        }
        ExpressionFrame::Statement => end_simple(alloc, next, expression(operand.tree), stack),
        ExpressionFrame::Group { in_print_list } => {
            let none = OperandList::new(alloc);
            close_group(alloc, next, in_print_list, none, operand, stack)
        }
        ExpressionFrame::Output(output) => {
            let OutputFrame {
                form,
                list,
                redirection,
            } = Box::into_inner(output);
            let statement = print_to(form, redirection, list, operand.tree);
            end_simple(alloc, next, statement, stack)
        }
        ExpressionFrame::Exit => end_simple(alloc, next, exit(present(operand.tree)), stack),
        ExpressionFrame::Return => {
            end_simple(alloc, next, return_statement(present(operand.tree)), stack)
        }
        ExpressionFrame::IfCondition => close_condition(
            alloc,
            next,
            BodyFrame::If(operand.tree),
            stack,
        ),
        ExpressionFrame::WhileCondition => {
            close_condition(alloc, next, BodyFrame::While(operand.tree), stack)
        }
        ExpressionFrame::DoCondition(body) => end_do(alloc, next, Box::into_inner(body), operand),
        ExpressionFrame::ForCondition(first) => { end_for_condition(alloc, next, first, operand) }
        ExpressionFrame::Pattern => after_pattern_expr(alloc, next, operand, stack),
        ExpressionFrame::RangeEnd(begin) => {
            after_pattern(alloc, next, range(begin, operand.tree), stack)
        }
    }
}

/// Where the parser stands behind the token that ends an operand, by the newest frame, which is taken off: a condition, an
/// element of a list or a whole expression is over, say, or a conditional goes on with its `:`. None where that frame can't be
/// ended by the token; an error is want of memory. (POSIX awk, Grammar)
pub fn end_operand(
    alloc: Global,
    next: NextToken,
    in_print_list: bool,
    operand: Operand,
    stack: &mut Vec<Frame>,
) -> Result<Option<ParserState>, AllocError>
    ensures { IfOk result (λ state. next_of state stack.new.items
        ≡ parser.end_operand max_height next.entry.kind.now in_print_list (operand_of operand) (stack_of stack.old.items)) }
{
    match pop(stack) {
        Some(Frame::List(frame)) => {
            end_element(alloc, next, Box::into_inner(frame), operand, stack)
        }
        Some(Frame::Expression(frame)) => {
            end_expression(alloc, next, in_print_list, frame, operand, stack)
        }
        Some(Frame::Node(NodeFrame::GetlinePlace(command))) => {
            after_getline_place(alloc, next, in_print_list, command, operand, stack)
        }
        rest => {
            drop(rest);
            drop(operand);
            Ok(None)
        }
    }
}
