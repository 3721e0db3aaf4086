// Where statements begin, and what ends with them.

ghost use Rattle.std.specs.Prelude.{◌≡◌, false, ◌∷◌, List, IfOk};
ghost use Rattle.awk_grammar.specs.definitions.Height.{max_height};
ghost use Rattle.awk_grammar.specs.support.Parser as parser;
ghost use Rattle.awk_lex.specs.declared.token.Kind.TheVariants as token;
ghost use Rattle.awk_frames.specs.support.CheckedStatementNodes.{checked_part, checked_optional_expr, checked_statement};
ghost use Rattle.awk_frames.specs.declared.frame.Frame.TheVariants as frame;
ghost use Rattle.awk_frames.specs.support.FrameView.{frame_of, stack_of, next_of};

use crate::items::{end_item, make_item};
use crate::operands::{before_parenthesis, start_operand};
use crate::statement_nodes::{
    block, break_statement, continue_statement, empty, for_in, for_loop, if_else, if_statement,
    next as next_statement, next_file, one_more_statement, while_loop,
};
use crate::taken::{begin_body, begin_statement};
use awk_frames::checked_statements::{CheckedPart, CheckedStatement, CheckedStatements};
use awk_frames::frame::{BodyFrame, ExpressionFrame, ForHead, Frame, Head};
use awk_frames::stack::{pop, push};
use awk_frames::state::{NextToken, ParserState, StatementState};
use awk_grammar::tree::PrintForm;
use awk_lex::token::{Keyword, Kind};
use std::alloc::{AllocError, Global};

/// `}`
fn close_block(alloc: Global, stack: &mut Vec<Frame>) -> Result<Option<ParserState>, AllocError>
    ensures { IfOk result (λ state. next_of state stack.new.items
        ≡ parser.close_block max_height (stack_of stack.old.items)) }
{
    match pop(stack) {
        Some(Frame::Block(head, statements)) => match head {
            None => {
                let statement = block(alloc, statements)?;
                Ok(Some(ParserState::Statement(StatementState::AfterStatement(statement))))
            }
            Some(head) => end_item(make_item(Box::into_inner(head), statements), stack),
        },
        rest => {
            drop(rest);
            Ok(None)
        }
    }
}

/// An expression begins that is a statement.
fn start_expression(
    alloc: Global,
    next: NextToken,
    stack: &mut Vec<Frame>,
) -> Result<Option<ParserState>, AllocError>
    ensures { IfOk result (λ state. next_of state stack.new.items
        ≡ parser.start_operand max_height next.entry.kind.now false false (parser.InExpression ∷ stack_of stack.old.items)) }
{
    push(stack, Frame::Expression(ExpressionFrame::Statement))?;
    start_operand(alloc, next, false, false, stack)
}

/// A keyword where an expression, a print or a deletion begins.
fn start_part_keyword(
    alloc: Global,
    next: NextToken,
    keyword: Keyword,
    stack: &mut Vec<Frame>,
) -> Result<Option<ParserState>, AllocError>
    requires { next.kind.now ≡ token.Keyword keyword }
    ensures { IfOk result (λ state. next_of state stack.new.items
        ≡ parser.start_part max_height (token.Keyword keyword) (stack_of stack.old.items)) }
{
    let state = match keyword {
        Keyword::Print => StatementState::AfterPrint(PrintForm::Print),
        Keyword::Printf => StatementState::AfterPrint(PrintForm::Printf),
        Keyword::Delete => StatementState::AfterDelete,
        _ => return start_expression(alloc, next, stack),
    };
    Ok(Some(ParserState::Statement(state)))
}

/// An expression, a print or a deletion begins.
pub fn start_part(
    alloc: Global,
    next: NextToken,
    stack: &mut Vec<Frame>,
) -> Result<Option<ParserState>, AllocError>
    ensures { IfOk result (λ state. next_of state stack.new.items
        ≡ parser.start_part max_height next.entry.kind.now (stack_of stack.old.items)) }
{
    match next.kind {
        Kind::Keyword(keyword) => start_part_keyword(alloc, next, *keyword, stack),
        _ => start_expression(alloc, next, stack),
    }
}

/// A statement that begins with a keyword, or a part.
fn start_keyword(
    alloc: Global,
    next: NextToken,
    keyword: Keyword,
    stack: &mut Vec<Frame>,
) -> Result<Option<ParserState>, AllocError>
    requires { next.kind.now ≡ token.Keyword keyword }
    ensures { IfOk result (λ state. next_of state stack.new.items
        ≡ parser.start_statement max_height (token.Keyword keyword) (stack_of stack.old.items)) }
{
    let state = match keyword {
        Keyword::Next => { StatementState::AfterSimple(Box::new(alloc, Some(next_statement()))?) }
        Keyword::NextFile => { StatementState::AfterSimple(Box::new(alloc, Some(next_file()))?) }
        Keyword::Break => { StatementState::AfterSimple(Box::new(alloc, Some(break_statement()))?) }
        Keyword::Continue => {
            StatementState::AfterSimple(Box::new(alloc, Some(continue_statement()))?)
        }
        Keyword::Exit => StatementState::AfterExit,
        Keyword::Return => StatementState::AfterReturn,
        Keyword::For => StatementState::AfterFor,
        Keyword::Do => return begin_body(alloc, BodyFrame::Do, stack),
        Keyword::If => {
            let frame = Frame::Expression(ExpressionFrame::IfCondition);
            return before_parenthesis(alloc, frame, false);
        }
        Keyword::While => {
            let frame = Frame::Expression(ExpressionFrame::WhileCondition);
            return before_parenthesis(alloc, frame, false);
        }
        _ => return start_part_keyword(alloc, next, keyword, stack),
    };
    Ok(Some(ParserState::Statement(state)))
}

/// Where a statement or the end of its block begins.
pub fn start_statement(
    alloc: Global,
    next: NextToken,
    stack: &mut Vec<Frame>,
) -> Result<Option<ParserState>, AllocError>
    ensures { IfOk result (λ state. next_of state stack.new.items
        ≡ parser.start_statement max_height next.entry.kind.now (stack_of stack.old.items)) }
{
    match next.kind {
        Kind::Newline => Ok(Some(ParserState::Statement(StatementState::BeforeStatement))),
        Kind::Semicolon => Ok(Some(ParserState::Statement(StatementState::AfterStatement(empty(
            alloc,
        )?)))),
        Kind::OpenBrace => {
            let statements = Some(CheckedStatements::new(alloc));
            begin_statement(Frame::Block(None, statements), stack)
        }
        Kind::CloseBrace => close_block(alloc, stack),
        Kind::Keyword(keyword) => start_keyword(alloc, next, *keyword, stack),
        _ => start_part(alloc, next, stack),
    }
}

/// Behind the body of a `do`.
fn after_do_body(
    alloc: Global,
    next: NextToken,
    body: Option<CheckedStatement>,
) -> Result<Option<ParserState>, AllocError>
    ensures { (frames : List Frame) → IfOk result (λ state. next_of state frames
        ≡ parser.after_do_body next.entry.kind.now (checked_statement body) (stack_of frames)) }
{
    if matches!(next.kind, Kind::Keyword(Keyword::While)) {
        let body = Box::new(alloc, body)?;
        let frame = Frame::Expression(ExpressionFrame::DoCondition(body));
        return before_parenthesis(alloc, frame, false);
    }
    drop(body);
    Ok(None)
}

/// A block goes on behind a statement, with the next token.
fn continue_block(
    alloc: Global,
    next: NextToken,
    head: Option<Box<Head>>,
    statements: Option<CheckedStatements>,
    statement: Option<CheckedStatement>,
    stack: &mut Vec<Frame>,
) -> Result<Option<ParserState>, AllocError>
    ensures { IfOk result (λ state. next_of state stack.new.items
        ≡ parser.end_statement max_height next.entry.kind.now (checked_statement statement)
        (frame_of (frame.Block head statements) ∷ stack_of stack.old.items)) }
{
    let statements = one_more_statement(statements, statement)?;
    push(stack, Frame::Block(head, statements))?;
    start_statement(alloc, next, stack)
}

/// A `for`, behind its body.
fn end_for(
    alloc: Global,
    head: Box<ForHead>,
    last: Box<Option<CheckedPart>>,
    body: Option<CheckedStatement>,
) -> Result<Option<CheckedStatement>, AllocError>
    ensures { IfOk result (λ s. checked_statement s ≡ parser.for_node max_height (checked_part head.value.first.value)
        (checked_optional_expr head.value.condition) (checked_part last.value) (checked_statement body)) }
{
    let ForHead { first, condition } = Box::into_inner(head);
    for_loop(
        alloc,
        Box::into_inner(first),
        condition,
        Box::into_inner(last),
        body,
    )
}

/// A statement is done, and the next token isn't a newline.
pub fn end_statement(
    alloc: Global,
    next: NextToken,
    statement: Option<CheckedStatement>,
    stack: &mut Vec<Frame>,
) -> Result<Option<ParserState>, AllocError>
    ensures { IfOk result (λ state. next_of state stack.new.items
        ≡ parser.end_statement max_height next.entry.kind.now (checked_statement statement) (stack_of stack.old.items)) }
{
    let is_else = matches!(next.kind, Kind::Keyword(Keyword::Else));
    let mut statement = statement;
    loop {
        let body = match pop(stack) {
            Some(Frame::Body(body)) => Box::into_inner(body),
            Some(Frame::Block(head, statements)) => {
                return continue_block(alloc, next, head, statements, statement, stack);
            }
            rest => {
                drop(rest);
                drop(statement);
                return Ok(None);
            }
        };
        statement = match body {
            BodyFrame::If(condition) if is_else => {
                return begin_body(alloc, BodyFrame::Else(condition, statement), stack);
            }
            BodyFrame::If(condition) => if_statement(alloc, condition, statement)?,
            BodyFrame::Else(condition, first) => if_else(alloc, condition, first, statement)?,
            BodyFrame::While(condition) => while_loop(alloc, condition, statement)?,
            BodyFrame::Do => return after_do_body(alloc, next, statement),
            BodyFrame::ForIn(name, array) => for_in(alloc, name, array, statement)?,
            BodyFrame::For(head, last) => end_for(alloc, head, last, statement)?,
        };
    }
}

/// At the end of a statement that needs one.
pub fn end_simple_statement(
    alloc: Global,
    next: NextToken,
    statement: Option<CheckedStatement>,
    stack: &mut Vec<Frame>,
) -> Result<Option<ParserState>, AllocError>
    ensures { IfOk result (λ state. next_of state stack.new.items
        ≡ parser.end_simple_statement max_height next.entry.kind.now (checked_statement statement) (stack_of stack.old.items)) }
{
    match next.kind {
        Kind::Semicolon | Kind::Newline => Ok(Some(ParserState::Statement(
            StatementState::AfterStatement(statement),
        ))),
        Kind::CloseBrace => end_statement(alloc, next, statement, stack),
        _ => {
            drop(statement);
            Ok(None)
        }
    }
}
