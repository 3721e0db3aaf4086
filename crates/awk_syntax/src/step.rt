// One token at a time, in a statement.

ghost use Rattle.std.specs.Prelude.{◌≡◌, List, IfOk};
ghost use Rattle.awk_grammar.specs.definitions.Height.{max_height};
ghost use Rattle.awk_grammar.specs.support.Parser as parser;
ghost use Rattle.awk_frames.specs.support.CheckedStatementNodes.{checked_statement};
ghost use Rattle.awk_frames.specs.support.FrameView.{statement_state_of, stack_of, next_of};

use crate::for_part_beginnings::{before_for_condition, before_for_first, before_for_last};
use crate::prints::after_print;
use crate::simple::{after_delete_name, after_exit, end_simple};
use crate::simple_nodes::{exit, return_statement};
use crate::statements::{end_simple_statement, end_statement, start_statement};
use awk_frames::checked_statements::{CheckedOptionalExpr, CheckedStatement};
use awk_frames::frame::{ExpressionFrame, Frame};
use awk_frames::state::{NextToken, ParserState, StatementState};
use awk_lex::token::Kind;
use std::alloc::{AllocError, Global};

/// The token behind a statement.
fn after_statement(
    alloc: Global,
    next: NextToken,
    statement: Option<CheckedStatement>,
    stack: &mut Vec<Frame>,
) -> Result<Option<ParserState>, AllocError>
    ensures { IfOk result (λ state. next_of state stack.new.items
        ≡ parser.after_statement max_height (checked_statement statement) (stack_of stack.old.items) next.entry.kind.now) }
{
    if matches!(next.kind, Kind::Newline) {
        let state = StatementState::AfterStatement(statement);
        return Ok(Some(ParserState::Statement(state)));
    }
    end_statement(alloc, next, statement, stack)
}

/// The name behind the word `delete`.
fn after_delete(next: NextToken) -> Result<Option<ParserState>, AllocError>
    ensures { (frames : List Frame) → IfOk result (λ state. next_of state frames
        ≡ parser.name_then next.entry.kind.now (λ a. parser.AfterDeleteName a (stack_of frames))) }
{
    let Kind::Name(name) = next.kind else {
        return Ok(None);
    };
    let state = StatementState::AfterDeleteName(name.clone()?);
    Ok(Some(ParserState::Statement(state)))
}

/// The `(` behind the word `for`.
fn after_for(next: NextToken) -> Option<ParserState>
    ensures { (frames : List Frame) → next_of result frames
        ≡ parser.at_parenthesis next.entry.kind.now (parser.BeforeForFirst (stack_of frames)) }
{
    match next.kind {
        Kind::OpenParenthesis => Some(ParserState::Statement(StatementState::BeforeForFirst)),
        _ => None,
    }
}

/// Behind the word `exit`.
fn after_exit_word(
    alloc: Global,
    next: NextToken,
    stack: &mut Vec<Frame>,
) -> Result<Option<ParserState>, AllocError>
    ensures { IfOk result (λ reached. next_of reached stack.new.items
        ≡ parser.step max_height (parser.AfterExit (stack_of stack.old.items)) next.entry.kind.now) }
{
    let without_value = exit(Some(CheckedOptionalExpr::absent()));
    after_exit(alloc, next, without_value, ExpressionFrame::Exit, stack)
}

/// Behind the word `return`.
fn after_return_word(
    alloc: Global,
    next: NextToken,
    stack: &mut Vec<Frame>,
) -> Result<Option<ParserState>, AllocError>
    ensures { IfOk result (λ reached. next_of reached stack.new.items
        ≡ parser.step max_height (parser.AfterReturn (stack_of stack.old.items)) next.entry.kind.now) }
{
    let without_value = return_statement(Some(CheckedOptionalExpr::absent()));
    after_exit(alloc, next, without_value, ExpressionFrame::Return, stack)
}

/// Takes a token in a statement.
pub(crate) fn step_statement(
    alloc: Global,
    state: StatementState,
    next: NextToken,
    stack: &mut Vec<Frame>,
) -> Result<Option<ParserState>, AllocError>
    ensures { IfOk result (λ reached. next_of reached stack.new.items
        ≡ parser.step max_height (statement_state_of state (stack_of stack.old.items)) next.entry.kind.now) }
{
    match state {
        StatementState::AfterPrint(form) => after_print(alloc, next, form, stack),
        StatementState::AfterDelete => after_delete(next),
        StatementState::AfterDeleteName(name) => after_delete_name(alloc, next, name, stack),
        StatementState::AfterExit => after_exit_word(alloc, next, stack),
        StatementState::AfterReturn => after_return_word(alloc, next, stack),
        StatementState::AfterSimple(statement) => {
            end_simple(alloc, next, Box::into_inner(statement), stack)
        }
        StatementState::AfterDo(statement) => {
            end_simple_statement(alloc, next, Box::into_inner(statement), stack)
        }
        StatementState::AfterFor => Ok(after_for(next)),
        StatementState::BeforeForFirst => before_for_first(alloc, next, stack),
        StatementState::BeforeForCondition(first) => {
            before_for_condition(alloc, next, first, stack)
        }
        StatementState::BeforeForLast(head) => before_for_last(alloc, next, head, stack),
        StatementState::BeforeStatement => start_statement(alloc, next, stack),
        StatementState::AfterStatement(statement) => after_statement(alloc, next, statement, stack),
    }
}
