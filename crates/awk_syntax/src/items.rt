// Items: patterns, actions and functions.

ghost use Rattle.std.specs.Prelude.{◌≡◌, true, false, ◌∷◌, [], List, IfOk};
ghost use Rattle.awk_grammar.specs.definitions.Height.{max_height};
ghost use Rattle.awk_grammar.specs.definitions.Tree.{NoMore};
ghost use Rattle.awk_grammar.specs.support.Nodes.{limited};
ghost use Rattle.awk_grammar.specs.support.Parser as parser;
ghost use Rattle.awk_lex.specs.declared.token.Kind.TheVariants as token;
ghost use Rattle.awk_frames.specs.support.CheckedExpressions.{checked_expr};
ghost use Rattle.awk_frames.specs.support.CheckedStatementNodes.{checked_statements, checked_pattern, checked_item};
ghost use Rattle.awk_frames.specs.support.FrameView.{operand_of, head_of, item_state_of, stack_of, next_of};

use crate::item_nodes::{
    action, begin as begin_item, end, function, one_more_item, pattern_action, pattern_only, single,
};
use crate::operands::start_operand;
use crate::taken::{begin, begin_statement};
use awk_frames::checked_statements::{CheckedItem, CheckedPattern, CheckedStatements};
use awk_frames::frame::{ExpressionFrame, Frame, Head};
use awk_frames::operand::Operand;
use awk_frames::stack::{pop, push};
use awk_frames::state::{ItemState, NextToken, ParserState, Signature};
use awk_lex::token::{Keyword, Kind};
use awk_value::Bytes;
use std::alloc::{AllocError, Global};

/// The item of an action and what stands before it.
pub fn make_item(head: Head, statements: Option<CheckedStatements>) -> Option<CheckedItem>
    ensures { checked_item result ≡ parser.make_item max_height (head_of head) (checked_statements statements) }
{
    match head {
        Head::Begin => begin_item(statements),
        Head::End => end(statements),
        Head::NoPattern => action(statements),
        Head::Pattern(pattern) => pattern_action(pattern, statements),
        Head::Function(name, parameters) => function(name, parameters, statements),
    }
}

/// An item is read.
pub fn end_item(
    item: Option<CheckedItem>,
    stack: &mut Vec<Frame>,
) -> Result<Option<ParserState>, AllocError>
    ensures { IfOk result (λ state. next_of state stack.new.items
        ≡ parser.end_item max_height (checked_item item) (stack_of stack.old.items)) }
{
    match pop(stack) {
        Some(Frame::Program(items)) => {
            push(stack, Frame::Program(one_more_item(items, item)?))?;
            Ok(Some(ParserState::Item(ItemState::BetweenItems)))
        }
        rest => {
            drop(rest);
            drop(item);
            Ok(None)
        }
    }
}

/// An action begins.
fn start_action(
    alloc: Global,
    head: Box<Head>,
    stack: &mut Vec<Frame>,
) -> Result<Option<ParserState>, AllocError>
    ensures { IfOk result (λ state. next_of state stack.new.items
        ≡ parser.BeforeStatement
        (parser.InAction (head_of head.value) (limited max_height 0 NoMore) ∷ stack_of stack.old.items)) }
{
    let statements = Some(CheckedStatements::new(alloc));
    begin_statement(Frame::Block(Some(head), statements), stack)
}

/// Behind a pattern: its action, or none.
pub fn after_pattern(
    alloc: Global,
    next: NextToken,
    pattern: Option<CheckedPattern>,
    stack: &mut Vec<Frame>,
) -> Result<Option<ParserState>, AllocError>
    ensures { IfOk result (λ state. next_of state stack.new.items
        ≡ parser.after_pattern max_height next.entry.kind.now (checked_pattern pattern) (stack_of stack.old.items)) }
{
    match next.kind {
        Kind::OpenBrace => {
            let head = Box::new(alloc, Head::Pattern(pattern))?;
            start_action(alloc, head, stack)
        }
        Kind::Semicolon | Kind::Newline => end_item(pattern_only(pattern), stack),
        _ => {
            drop(pattern);
            Ok(None)
        }
    }
}

/// Behind the expression of a pattern: a range may follow.
pub fn after_pattern_expr(
    alloc: Global,
    next: NextToken,
    operand: Operand,
    stack: &mut Vec<Frame>,
) -> Result<Option<ParserState>, AllocError>
    ensures { IfOk result (λ state. next_of state stack.new.items
        ≡ parser.after_pattern_expr max_height next.entry.kind.now (operand_of operand) (stack_of stack.old.items)) }
{
    if matches!(next.kind, Kind::Comma) {
        let frame = Frame::Expression(ExpressionFrame::RangeEnd(operand.tree));
        return begin(frame, true, false, stack);
    }
    after_pattern(alloc, next, single(operand.tree), stack)
}

/// A pattern begins.
fn start_pattern(
    alloc: Global,
    next: NextToken,
    stack: &mut Vec<Frame>,
) -> Result<Option<ParserState>, AllocError>
    ensures { IfOk result (λ state. next_of state stack.new.items
        ≡ parser.start_operand max_height next.entry.kind.now false false (parser.InPattern ∷ stack_of stack.old.items)) }
{
    push(stack, Frame::Expression(ExpressionFrame::Pattern))?;
    start_operand(alloc, next, false, false, stack)
}

/// A keyword where an item begins.
fn start_item_keyword(
    alloc: Global,
    next: NextToken,
    keyword: Keyword,
    stack: &mut Vec<Frame>,
) -> Result<Option<ParserState>, AllocError>
    requires { next.kind.now ≡ token.Keyword keyword }
    ensures { IfOk result (λ state. next_of state stack.new.items
        ≡ parser.start_item max_height (stack_of stack.old.items) (token.Keyword keyword)) }
{
    match keyword {
        Keyword::Begin => Ok(before_action_of(Box::new(alloc, Head::Begin)?, false)),
        Keyword::End => Ok(before_action_of(Box::new(alloc, Head::End)?, false)),
        Keyword::Function => Ok(Some(ParserState::Item(ItemState::AfterFunction))),
        _ => start_pattern(alloc, next, stack),
    }
}

/// Where an item begins.
fn start_item(
    alloc: Global,
    next: NextToken,
    stack: &mut Vec<Frame>,
) -> Result<Option<ParserState>, AllocError>
    ensures { IfOk result (λ state. next_of state stack.new.items
        ≡ parser.start_item max_height (stack_of stack.old.items) next.entry.kind.now) }
{
    match next.kind {
        Kind::Semicolon | Kind::Newline => Ok(Some(ParserState::Item(ItemState::BetweenItems))),
        Kind::OpenBrace => start_action(alloc, Box::new(alloc, Head::NoPattern)?, stack),
        Kind::Keyword(keyword) => start_item_keyword(alloc, next, *keyword, stack),
        _ => start_pattern(alloc, next, stack),
    }
}

/// Before an action.
fn before_action_of(head: Box<Head>, skips_newlines: bool) -> Option<ParserState>
    ensures { (frames : List Frame) →
        next_of result frames ≡ parser.BeforeAction (head_of head.value) skips_newlines (stack_of frames) }
{
    Some(ParserState::Item(ItemState::BeforeAction {
        head,
        skips_newlines,
    }))
}

/// Where an action must begin.
fn before_action(
    alloc: Global,
    next: NextToken,
    head: Box<Head>,
    skips_newlines: bool,
    stack: &mut Vec<Frame>,
) -> Result<Option<ParserState>, AllocError>
    ensures { IfOk result (λ state. next_of state stack.new.items
        ≡ parser.before_action max_height (head_of head.value) skips_newlines (stack_of stack.old.items) next.entry.kind.now) }
{
    match next.kind {
        Kind::Newline if skips_newlines => Ok(before_action_of(head, skips_newlines)),
        Kind::OpenBrace => start_action(alloc, head, stack),
        _ => {
            drop(head);
            Ok(None)
        }
    }
}

/// Behind the word `function`.
fn after_function(next: NextToken) -> Result<Option<ParserState>, AllocError>
    ensures { (frames : List Frame) → IfOk result (λ state. next_of state frames
        ≡ parser.after_function (stack_of frames) next.entry.kind.now) }
{
    match next.kind {
        Kind::Name(name) | Kind::Called(name) => Ok(Some(ParserState::Item(
            ItemState::AfterFunctionName(name.clone()?),
        ))),
        _ => Ok(None),
    }
}

/// The `)` behind a function's parameters.
fn before_function_body(
    alloc: Global,
    signature: Box<Signature>,
) -> Result<Option<ParserState>, AllocError>
    ensures { (frames : List Frame) → IfOk result (λ state. next_of state frames
        ≡ parser.BeforeAction (parser.OfFunction signature.value.name signature.value.parameters.items) true
        (stack_of frames)) }
{
    let Signature { name, parameters } = Box::into_inner(signature);
    let head = Box::new(alloc, Head::Function(name, parameters))?;
    Ok(before_action_of(head, true))
}

/// A parameter, or the `)` of a function without parameters.
fn before_parameter(
    alloc: Global,
    next: NextToken,
    signature: Box<Signature>,
    is_behind_comma: bool,
) -> Result<Option<ParserState>, AllocError>
    ensures { (frames : List Frame) → IfOk result (λ state. next_of state frames
        ≡ parser.before_parameter signature.value.name is_behind_comma signature.value.parameters.items
        (stack_of frames) next.entry.kind.now) }
{
    let mut signature = signature;
    match next.kind {
        Kind::Name(parameter) => {
            signature.parameters.push(parameter.clone()?)?;
            Ok(Some(ParserState::Item(ItemState::AfterParameter(signature))))
        }
        Kind::Newline if is_behind_comma => Ok(Some(ParserState::Item(
            ItemState::BeforeParameter {
                signature,
                is_behind_comma,
            },
        ))),
        Kind::CloseParenthesis if !is_behind_comma => before_function_body(alloc, signature),
        _ => Ok(None),
    }
}

/// Behind a parameter.
fn after_parameter(
    alloc: Global,
    next: NextToken,
    signature: Box<Signature>,
) -> Result<Option<ParserState>, AllocError>
    ensures { (frames : List Frame) → IfOk result (λ state. next_of state frames
        ≡ parser.after_parameter signature.value.name signature.value.parameters.items (stack_of frames) next.entry.kind.now) }
{
    match next.kind {
        Kind::Comma => Ok(Some(ParserState::Item(ItemState::BeforeParameter {
            signature,
            is_behind_comma: true,
        }))),
        Kind::CloseParenthesis => before_function_body(alloc, signature),
        _ => Ok(None),
    }
}

/// The `(` behind the name of a function.
fn after_function_name(
    alloc: Global,
    next: NextToken,
    name: Bytes,
) -> Result<Option<ParserState>, AllocError>
    ensures { (frames : List Frame) → IfOk result (λ state. next_of state frames
        ≡ parser.at_parenthesis next.entry.kind.now (parser.BeforeParameter name false [] (stack_of frames))) }
{
    if !matches!(next.kind, Kind::OpenParenthesis) {
        return Ok(None);
    }
    let parameters = Vec::new(alloc);
    let signature = Box::new(alloc, Signature { name, parameters })?;
    Ok(Some(ParserState::Item(ItemState::BeforeParameter {
        signature,
        is_behind_comma: false,
    })))
}

/// Takes a token in an item.
pub(crate) fn step_item(
    alloc: Global,
    state: ItemState,
    next: NextToken,
    stack: &mut Vec<Frame>,
) -> Result<Option<ParserState>, AllocError>
    ensures { IfOk result (λ reached. next_of reached stack.new.items
        ≡ parser.step max_height (item_state_of state (stack_of stack.old.items)) next.entry.kind.now) }
{
    match state {
        ItemState::BetweenItems => start_item(alloc, next, stack),
        ItemState::BeforeAction {
            head,
            skips_newlines,
        } => before_action(alloc, next, head, skips_newlines, stack),
        ItemState::AfterFunction => after_function(next),
        ItemState::AfterFunctionName(name) => after_function_name(alloc, next, name),
        ItemState::BeforeParameter {
            signature,
            is_behind_comma,
        } => before_parameter(alloc, next, signature, is_behind_comma),
        ItemState::AfterParameter(signature) => after_parameter(alloc, next, signature),
    }
}
