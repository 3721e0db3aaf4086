// Where the parts of a `for` end.

ghost use Rattle.std.specs.Prelude.{◌≡◌, true, ◌∷◌, Some, IfOk};
ghost use Rattle.awk_grammar.specs.definitions.Height.{max_height};
ghost use Rattle.awk_grammar.specs.definitions.Tree as t;
ghost use Rattle.awk_grammar.specs.definitions.View.{expr_of};
ghost use Rattle.awk_grammar.specs.support.Parser as parser;
ghost use Rattle.awk_frames.specs.support.CheckedStatementNodes.{checked_simple, checked_part, checked_optional_expr};
ghost use Rattle.awk_frames.specs.support.FrameView.{frame_of, stack_of, next_of};
ghost use Rattle.awk_syntax.specs.support.PartFrames.{is_part, is_part_on};

use crate::statement_nodes::part;
use crate::taken::begin_body;
use awk_frames::checked_statements::{CheckedPart, CheckedSimple};
use awk_frames::frame::{BodyFrame, ForHead, Frame};
use awk_frames::stack::pop;
use awk_frames::state::{NextToken, ParserState, StatementState};
use awk_grammar::tree::{Expr, SimpleStatement};
use awk_lex::token::Kind;
use awk_value::Bytes;
use std::alloc::{AllocError, Global};

/// `for (name in array)`, where the expression before `in` is a name.
fn start_for_in_array(
    alloc: Global,
    subscript: Expr,
    array: Bytes,
    stack: &mut Vec<Frame>,
) -> Result<Option<ParserState>, AllocError>
    ensures { IfOk result (λ state. next_of state stack.new.items
        ≡ parser.start_for_in (Some (t.Expression (t.Membership (expr_of subscript) array))) (stack_of stack.old.items)) }
{
    match subscript {
        Expr::Name(name) => begin_body(alloc, BodyFrame::ForIn(name, array), stack),
        rest => {
            drop(rest);
            Ok(None)
        }
    }
}

/// `for (name in array)`, where an expression stands in the parentheses.
fn start_for_in_expr(
    alloc: Global,
    expr: Expr,
    stack: &mut Vec<Frame>,
) -> Result<Option<ParserState>, AllocError>
    ensures { IfOk result (λ state. next_of state stack.new.items
        ≡ parser.start_for_in (Some (t.Expression (expr_of expr))) (stack_of stack.old.items)) }
{
    match expr {
        Expr::Membership(subscript, array) => {
            start_for_in_array(alloc, Box::into_inner(subscript), array, stack)
        }
        rest => {
            drop(rest);
            Ok(None)
        }
    }
}

/// `for (name in array)`, behind the `)`.
fn start_for_in(
    alloc: Global,
    statement: Option<CheckedSimple>,
    stack: &mut Vec<Frame>,
) -> Result<Option<ParserState>, AllocError>
    ensures { IfOk result (λ state. next_of state stack.new.items
        ≡ parser.start_for_in (checked_simple statement) (stack_of stack.old.items)) }
{
    let Some(statement) = statement else {
        return Ok(None);
    };
    let simple = statement.simple;
    match simple {
        SimpleStatement::Expression(expr) => start_for_in_expr(alloc, Box::into_inner(expr), stack),
        rest => {
            drop(rest);
            Ok(None)
        }
    }
}

/// Behind the first part of a `for`.
fn end_for_first(
    alloc: Global,
    next: NextToken,
    statement: Option<CheckedSimple>,
    stack: &mut Vec<Frame>,
) -> Result<Option<ParserState>, AllocError>
    ensures { IfOk result (λ state. next_of state stack.new.items
        ≡ parser.end_for_first max_height next.entry.kind.now (checked_simple statement) (stack_of stack.old.items)) }
{
    match next.kind {
        Kind::Semicolon => {
            let first = Box::new(alloc, part(statement))?;
            Ok(Some(ParserState::Statement(StatementState::BeforeForCondition(first))))
        }
        Kind::CloseParenthesis => start_for_in(alloc, statement, stack),
        _ => {
            drop(statement);
            Ok(None)
        }
    }
}

/// Behind its last part.
fn end_for_last(
    alloc: Global,
    next: NextToken,
    head: Box<ForHead>,
    last: Option<CheckedPart>,
    stack: &mut Vec<Frame>,
) -> Result<Option<ParserState>, AllocError>
    ensures { IfOk result (λ state. next_of state stack.new.items
        ≡ parser.close_condition next.entry.kind.now (parser.BeforeStatement
        (parser.InForBody (checked_part head.value.first.value) (checked_optional_expr head.value.condition)
        (checked_part last) ∷ stack_of stack.old.items))) }
{
    if matches!(next.kind, Kind::CloseParenthesis) {
        let last = Box::new(alloc, last)?;
        return begin_body(alloc, BodyFrame::For(head, last), stack);
    }
    drop(head);
    drop(last);
    Ok(None)
}

/// Whether a part of a `for` ends in the frame.
fn is_part(frame: &Frame) -> bool
    ensures { result ≡ is_part (frame_of frame.now) }
{
    match frame {
        Frame::ForFirst | Frame::ForLast(..) => true,
        _ => false,
    }
}

/// Whether the frame on top of the stack waits for a part of a `for`, its first or its last.
pub(crate) fn is_part_on(stack: &Vec<Frame>) -> bool
    ensures { result ≡ is_part_on (stack_of stack.now.items) }
{
    match stack.last() {
        Some(frame) => is_part(frame),
        None => false,
    }
}

/// Behind a part of a `for`, by the token that stands there. (POSIX awk, Grammar)
pub(crate) fn end_part(
    alloc: Global,
    next: NextToken,
    statement: Option<CheckedSimple>,
    stack: &mut Vec<Frame>,
) -> Result<Option<ParserState>, AllocError>
    requires { is_part_on (stack_of stack.now.items) ≡ true }
    ensures { IfOk result (λ state. next_of state stack.new.items
        ≡ parser.end_simple max_height next.entry.kind.now (checked_simple statement) (stack_of stack.old.items)) }
{
    let Some(frame) = pop(stack) else {
        drop(statement);
        return Ok(None);
    };
    match frame {
        Frame::ForLast(head) => end_for_last(alloc, next, head, part(statement), stack),
        rest => {
            drop(rest);
            end_for_first(alloc, next, statement, stack)
        }
    }
}
