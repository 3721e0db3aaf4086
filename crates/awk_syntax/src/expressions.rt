// Behind operands: an operator, the rest of the operand, or its end.

ghost use Rattle.std.specs.Prelude.{◌≡◌, IfOk};
ghost use Rattle.awk_grammar.specs.definitions.Height.{max_height};
ghost use Rattle.awk_grammar.specs.support.Parser as parser;
ghost use Rattle.awk_grammar.specs.support.InfixRole as role;
ghost use Rattle.awk_frames.specs.support.FrameView.{role_of, operand_of, optional_operand_of};
ghost use Rattle.awk_frames.specs.support.FrameView.{list_of, stack_of, reduced, next_of};

use crate::endings::end_operand;
use crate::nodes::post_increment;
use crate::operands::start_operand;
use crate::prints::{end_list, redirect_to_pipe};
use crate::taken::{begin, operand as after};
use awk_frames::frame::{ExpressionFrame, Frame, ListHead, NodeFrame};
use awk_frames::infix_role::InfixRole;
use awk_frames::node::getline_operand;
use awk_frames::operand::{Operand, OperandList};
use awk_frames::reduce::reduce;
use awk_frames::stack::{greatest_allowed_on, push};
use awk_frames::state::{Behind, ExpressionState, NextToken, ParserState};
use awk_grammar::precedence::{MEMBERSHIP, POST_INCREMENT};
use awk_grammar::tree::BinaryOperator;
use awk_lex::token::{BuiltIn, IncrementOperator, Keyword, Kind, Operator};
use awk_value::Bytes;
use std::alloc::{AllocError, Global};

/// `++` or `--` behind an operand.
fn after_increment(
    alloc: Global,
    next: NextToken,
    operator: IncrementOperator,
    in_print_list: bool,
    operand: Operand,
    stack: &mut Vec<Frame>,
) -> Result<Option<ParserState>, AllocError>
    ensures { IfOk result (λ state. next_of state stack.new.items
        ≡ parser.shift max_height (role.Increments operator) next.entry.kind.now in_print_list (operand_of operand)
        (stack_of stack.old.items)) }
{
    if operand.is_place {
        let tree = post_increment(alloc, operator, operand.tree)?;
        return Ok(after(in_print_list, Operand::new(POST_INCREMENT, tree)));
    }
    concatenate(alloc, next, in_print_list, operand, stack)
}

/// The first token of the right operand of a concatenation.
fn concatenate(
    alloc: Global,
    next: NextToken,
    in_print_list: bool,
    operand: Operand,
    stack: &mut Vec<Frame>,
) -> Result<Option<ParserState>, AllocError>
    ensures { IfOk result (λ state. next_of state stack.new.items
        ≡ parser.shift max_height role.Starts next.entry.kind.now in_print_list (operand_of operand)
        (stack_of stack.old.items)) }
{
    push(
        stack,
        Frame::Node(NodeFrame::Binary(BinaryOperator::Concatenate, operand)),
    )?;
    start_operand(alloc, next, false, in_print_list, stack)
}

/// Goes on with an operand that is reduced.
fn shift(
    alloc: Global,
    role: InfixRole,
    next: NextToken,
    in_print_list: bool,
    operand: Operand,
    stack: &mut Vec<Frame>,
) -> Result<Option<ParserState>, AllocError>
    ensures { IfOk result (λ state. next_of state stack.new.items
        ≡ parser.shift max_height (role_of role) next.entry.kind.now in_print_list (operand_of operand)
        (stack_of stack.old.items)) }
{
    match role {
        InfixRole::Operates(operator) => {
            let skips_newlines = matches!(operator, Operator::And | Operator::Or);
            let frame = NodeFrame::Binary(BinaryOperator::Infix(operator), operand);
            begin(Frame::Node(frame), skips_newlines, in_print_list, stack)
        }
        InfixRole::Increments(operator) => {
            after_increment(alloc, next, operator, in_print_list, operand, stack)
        }
        InfixRole::Assigns(operator) => {
            let frame = NodeFrame::Assign(operator, operand);
            begin(Frame::Node(frame), false, in_print_list, stack)
        }
        InfixRole::Starts => concatenate(alloc, next, in_print_list, operand, stack),
        InfixRole::TestsMembership => Ok(Some(ParserState::Expression {
            in_print_list,
            state: ExpressionState::AfterOperand(operand, Behind::In),
        })),
        InfixRole::Asks => {
            let frame = ExpressionFrame::FirstChoice(Box::new(alloc, operand)?);
            begin(Frame::Expression(frame), false, in_print_list, stack)
        }
        InfixRole::Pipes | InfixRole::Subscripts | InfixRole::Ends => {
            drop(operand);
            Ok(None)
        }
    }
}

/// The token behind an operand that is reduced.
fn after_reduced(
    alloc: Global,
    role: InfixRole,
    next: NextToken,
    in_print_list: bool,
    operand: Operand,
    stack: &mut Vec<Frame>,
) -> Result<Option<ParserState>, AllocError>
    ensures { IfOk result (λ state. next_of state stack.new.items
        ≡ parser.after_reduced max_height (role_of role) next.entry.kind.now in_print_list (reduced operand stack.old.items)) }
{
    if matches!(role, InfixRole::Pipes) {
        return Ok(Some(ParserState::Expression {
            in_print_list,
            state: ExpressionState::AfterOperand(operand, Behind::Bar),
        }));
    }
    if role.continues(&operand, greatest_allowed_on(stack)) {
        return shift(alloc, role, next, in_print_list, operand, stack);
    }
    end_operand(alloc, next, in_print_list, operand, stack)
}

/// The token behind an operand.
pub(crate) fn after_operand(
    alloc: Global,
    next: NextToken,
    in_print_list: bool,
    operand: Operand,
    stack: &mut Vec<Frame>,
) -> Result<Option<ParserState>, AllocError>
    ensures { IfOk result (λ state. next_of state stack.new.items
        ≡ parser.after_operand max_height in_print_list (operand_of operand) (stack_of stack.old.items) next.entry.kind.now) }
{
    let role = InfixRole::of(next.kind, in_print_list);
    let operand = reduce(alloc, role, operand, stack)?;
    after_reduced(alloc, role, next, in_print_list, operand, stack)
}

/// The token behind a name.
pub(crate) fn after_name(
    alloc: Global,
    next: NextToken,
    in_print_list: bool,
    name: Bytes,
    stack: &mut Vec<Frame>,
) -> Result<Option<ParserState>, AllocError>
    ensures { IfOk result (λ state. next_of state stack.new.items
        ≡ parser.after_name max_height name in_print_list (stack_of stack.old.items) next.entry.kind.now) }
{
    if matches!(next.kind, Kind::OpenBracket) {
        let head = ListHead::Element {
            name,
            in_print_list,
        };
        let frame = Frame::list(alloc, head, OperandList::new(alloc))?;
        return begin(frame, false, false, stack);
    }
    after_operand(
        alloc,
        next,
        in_print_list,
        Operand::name(alloc, name)?,
        stack,
    )
}

/// The token behind the word `length`.
pub(crate) fn after_length(
    alloc: Global,
    next: NextToken,
    in_print_list: bool,
    stack: &mut Vec<Frame>,
) -> Result<Option<ParserState>, AllocError>
    ensures { IfOk result (λ state. next_of state stack.new.items
        ≡ parser.after_length max_height in_print_list (stack_of stack.old.items) next.entry.kind.now) }
{
    if matches!(next.kind, Kind::OpenParenthesis) {
        let head = ListHead::BuiltIn {
            function: BuiltIn::Length,
            in_print_list,
        };
        let frame = Frame::list(alloc, head, OperandList::new(alloc))?;
        return begin(frame, false, false, stack);
    }
    after_operand(alloc, next, in_print_list, Operand::length(alloc)?, stack)
}

/// The token behind the word `getline`.
pub(crate) fn after_getline(
    alloc: Global,
    next: NextToken,
    in_print_list: bool,
    command: Option<Operand>,
    stack: &mut Vec<Frame>,
) -> Result<Option<ParserState>, AllocError>
    ensures { IfOk result (λ state. next_of state stack.new.items
        ≡ parser.after_getline max_height (optional_operand_of command) in_print_list
        (stack_of stack.old.items) next.entry.kind.now) }
{
    match next.kind {
        Kind::Name(name) => {
            let name = name.clone()?;
            let command = Box::new(alloc, command)?;
            push(stack, Frame::Node(NodeFrame::GetlinePlace(command)))?;
            Ok(Some(ParserState::Expression {
                in_print_list,
                state: ExpressionState::AfterName(name),
            }))
        }
        Kind::Dollar => {
            let command = Box::new(alloc, command)?;
            push(stack, Frame::Node(NodeFrame::GetlinePlace(command)))?;
            begin(Frame::Node(NodeFrame::Field), false, in_print_list, stack)
        }
        Kind::Operator(Operator::Less) if command.is_none() => {
            drop(command);
            let frame = NodeFrame::GetlineFile(Box::new(alloc, None)?);
            begin(Frame::Node(frame), false, in_print_list, stack)
        }
        _ => {
            let operand = getline_operand(alloc, command, None, None)?;
            after_operand(alloc, next, in_print_list, operand, stack)
        }
    }
}

/// The token behind a `|`: a getline, or where a print writes to.
pub(crate) fn after_bar(
    alloc: Global,
    next: NextToken,
    in_print_list: bool,
    operand: Operand,
    stack: &mut Vec<Frame>,
) -> Result<Option<ParserState>, AllocError>
    ensures { IfOk result (λ state. next_of state stack.new.items
        ≡ parser.after_bar max_height in_print_list (operand_of operand) (stack_of stack.old.items) next.entry.kind.now) }
{
    if matches!(next.kind, Kind::Keyword(Keyword::Getline)) {
        if InfixRole::Pipes.continues(&operand, greatest_allowed_on(stack)) {
            return Ok(Some(ParserState::Expression {
                in_print_list,
                state: ExpressionState::AfterOperand(operand, Behind::PipedGetline),
            }));
        }
        drop(operand);
        return Ok(None);
    }
    let operand = reduce(alloc, InfixRole::Ends, operand, stack)?;
    redirect_to_pipe(alloc, next, operand, stack)
}

/// The token behind a list in parentheses.
pub(crate) fn after_list(
    alloc: Global,
    next: NextToken,
    in_print_list: bool,
    list: Box<OperandList>,
    stack: &mut Vec<Frame>,
) -> Result<Option<ParserState>, AllocError>
    ensures { IfOk result (λ state. next_of state stack.new.items
        ≡ parser.after_list max_height in_print_list (list_of list.value) (stack_of stack.old.items) next.entry.kind.now) }
{
    if !matches!(next.kind, Kind::Keyword(Keyword::In)) {
        return end_list(alloc, next, Box::into_inner(list), stack);
    }
    if greatest_allowed_on(stack) < MEMBERSHIP {
        drop(list);
        return Ok(None);
    }
    Ok(Some(ParserState::Expression {
        in_print_list,
        state: ExpressionState::AfterListIn(list),
    }))
}
