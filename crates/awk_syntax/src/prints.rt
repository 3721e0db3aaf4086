// The lists of prints and their redirections.

ghost use Rattle.std.specs.Prelude.{◌≡◌, true, false, ◌∷◌, IfOk};
ghost use Rattle.awk_grammar.specs.definitions.Height.{max_height};
ghost use Rattle.awk_grammar.specs.support.Parser as parser;
ghost use Rattle.awk_frames.specs.support.CheckedStatementNodes.{checked_print_list};
ghost use Rattle.awk_syntax.specs.support.Ending.{ends_print};
ghost use Rattle.awk_frames.specs.support.FrameView.{operand_of, list_of, list_frame_of, stack_of, next_of};

use crate::operands::start_operand;
use crate::simple::end_simple;
use crate::simple_nodes::{bare, parenthesized, print};
use crate::taken::begin;
use awk_frames::checked_expressions::CheckedExprs;
use awk_frames::checked_statements::CheckedPrintList;
use awk_frames::frame::{ExpressionFrame, Frame, ListFrame, ListHead, OutputFrame};
use awk_frames::operand::{Operand, OperandList};
use awk_frames::stack::{pop, push};
use awk_frames::state::{NextToken, ParserState};
use awk_grammar::tree::{PrintForm, Redirection};
use awk_lex::token::{Kind, Operator};
use std::alloc::{AllocError, Global};

/// Behind what is printed: a redirection may follow.
fn end_print_list(
    alloc: Global,
    next: NextToken,
    form: PrintForm,
    list: Option<CheckedPrintList>,
    stack: &mut Vec<Frame>,
) -> Result<Option<ParserState>, AllocError>
    ensures { IfOk result (λ state. next_of state stack.new.items
        ≡ parser.end_print_list max_height next.entry.kind.now form (checked_print_list list) (stack_of stack.old.items)) }
{
    let redirection = match next.kind {
        Kind::Operator(Operator::Greater) => Redirection::Truncate,
        Kind::Append => Redirection::Append,
        Kind::Bar => Redirection::Pipe,
        _ => return end_simple(alloc, next, print(form, list), stack),
    };
    let output = OutputFrame {
        form,
        list,
        redirection,
    };
    let frame = ExpressionFrame::Output(Box::new(alloc, output)?);
    begin(Frame::Expression(frame), false, false, stack)
}

/// Behind an expression of a print without parentheses.
pub fn after_print_expr(
    alloc: Global,
    next: NextToken,
    form: PrintForm,
    list: OperandList,
    stack: &mut Vec<Frame>,
) -> Result<Option<ParserState>, AllocError>
    ensures { IfOk result (λ state. next_of state stack.new.items
        ≡ parser.after_print_expr max_height next.entry.kind.now form (list_of list) (stack_of stack.old.items)) }
{
    if matches!(next.kind, Kind::Comma) {
        let frame = Frame::list(alloc, ListHead::Print(form), list)?;
        return begin(frame, true, true, stack);
    }
    end_print_list(alloc, next, form, bare(list.exprs), stack)
}

/// The expression behind a `|` and the list of a print.
fn pipe_list(
    alloc: Global,
    next: NextToken,
    frame: ListFrame,
    operand: Operand,
    stack: &mut Vec<Frame>,
) -> Result<Option<ParserState>, AllocError>
    ensures { IfOk result (λ state. next_of state stack.new.items
        ≡ parser.redirect_to_pipe max_height next.entry.kind.now (operand_of operand)
        (list_frame_of frame.head (list_of frame.list) ∷ stack_of stack.old.items)) }
{
    let ListFrame { head, list } = frame;
    let ListHead::Print(form) = head else {
        drop(list);
        drop(operand);
        return Ok(None);
    };
    let output = OutputFrame {
        form,
        list: bare(list.with(operand)?.exprs),
        redirection: Redirection::Pipe,
    };
    let frame = ExpressionFrame::Output(Box::new(alloc, output)?);
    push(stack, Frame::Expression(frame))?;
    start_operand(alloc, next, false, false, stack)
}

/// Behind a `|` that no `getline` follows.
pub fn redirect_to_pipe(
    alloc: Global,
    next: NextToken,
    operand: Operand,
    stack: &mut Vec<Frame>,
) -> Result<Option<ParserState>, AllocError>
    ensures { IfOk result (λ state. next_of state stack.new.items
        ≡ parser.redirect_to_pipe max_height next.entry.kind.now (operand_of operand) (stack_of stack.old.items)) }
{
    match pop(stack) {
        Some(Frame::List(frame)) => {
            pipe_list(alloc, next, Box::into_inner(frame), operand, stack)
        }
        rest => {
            drop(rest);
            drop(operand);
            Ok(None)
        }
    }
}

/// Behind a list in parentheses that may be the whole list of a print.
fn end_parenthesized(
    alloc: Global,
    next: NextToken,
    frame: ListFrame,
    list: OperandList,
    stack: &mut Vec<Frame>,
) -> Result<Option<ParserState>, AllocError>
    ensures { IfOk result (λ state. next_of state stack.new.items
        ≡ parser.end_list max_height next.entry.kind.now (list_of list)
        (list_frame_of frame.head (list_of frame.list) ∷ stack_of stack.old.items)) }
{
    let ListFrame { head, list: before } = frame;
    match head {
        ListHead::Print(form) if before.count == 0 => {
            drop(before);
            end_print_list(alloc, next, form, parenthesized(list.exprs), stack)
        }
        rest => {
            drop(rest);
            drop(before);
            drop(list);
            Ok(None)
        }
    }
}

/// Behind a list in parentheses that `in` doesn't take.
pub fn end_list(
    alloc: Global,
    next: NextToken,
    list: OperandList,
    stack: &mut Vec<Frame>,
) -> Result<Option<ParserState>, AllocError>
    ensures { IfOk result (λ state. next_of state stack.new.items
        ≡ parser.end_list max_height next.entry.kind.now (list_of list) (stack_of stack.old.items)) }
{
    match pop(stack) {
        Some(Frame::List(frame)) => {
            end_parenthesized(alloc, next, Box::into_inner(frame), list, stack)
        }
        rest => {
            drop(rest);
            drop(list);
            Ok(None)
        }
    }
}

/// Whether a `print` has no list before this token.
fn ends_print(kind: &Kind) -> bool
    ensures { result ≡ ends_print kind.now }
{
    match kind {
        Kind::Operator(operator) => matches!(operator, Operator::Greater),
        Kind::Append
        | Kind::Bar
        | Kind::Semicolon
        | Kind::Newline
        | Kind::CloseBrace
        | Kind::CloseParenthesis => true,
        _ => false,
    }
}

/// The list of a print begins.
fn start_print_list(
    alloc: Global,
    next: NextToken,
    form: PrintForm,
    stack: &mut Vec<Frame>,
) -> Result<Option<ParserState>, AllocError>
    ensures { IfOk result (λ state. next_of state stack.new.items
        ≡ parser.start_operand max_height next.entry.kind.now false true
        (parser.InPrint form (parser.no_operands max_height) ∷ stack_of stack.old.items)) }
{
    let frame = Frame::list(alloc, ListHead::Print(form), OperandList::new(alloc))?;
    push(stack, frame)?;
    start_operand(alloc, next, false, true, stack)
}

/// Behind the word `print` or `printf`.
pub(crate) fn after_print(
    alloc: Global,
    next: NextToken,
    form: PrintForm,
    stack: &mut Vec<Frame>,
) -> Result<Option<ParserState>, AllocError>
    ensures { IfOk result (λ state. next_of state stack.new.items
        ≡ parser.after_print max_height form (stack_of stack.old.items) next.entry.kind.now) }
{
    match form {
        PrintForm::Printf => start_print_list(alloc, next, form, stack),
        PrintForm::Print => {
            if !ends_print(next.kind) {
                return start_print_list(alloc, next, form, stack);
            }
            let none = bare(Some(CheckedExprs::new(alloc)));
            end_print_list(alloc, next, form, none, stack)
        }
    }
}
