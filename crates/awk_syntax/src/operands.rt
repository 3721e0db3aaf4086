// Where an operand begins.

ghost use Rattle.std.specs.Prelude.{◌≡◌, ◌∷◌, Bool, false, nat_le, List, IfOk};
ghost use Rattle.awk_grammar.specs.definitions.Height.{max_height};
ghost use Rattle.awk_grammar.specs.definitions.Precedence.{pre_increment, post_increment};
ghost use Rattle.awk_grammar.specs.definitions.Tree as t;
ghost use Rattle.awk_lex.specs.declared.token.Kind.TheVariants as token;
ghost use Rattle.awk_grammar.specs.support.Parser as parser;
ghost use Rattle.awk_frames.specs.support.FrameView.{list_of, list_frame_of, frame_of, stack_of, next_of};

use crate::taken::{begin, operand};
use awk_frames::expressions::{built_in, call};
use awk_frames::frame::{ExpressionFrame, Frame, ListFrame, ListHead, NodeFrame};
use awk_frames::operand::{Operand, OperandList};
use awk_frames::stack::{greatest_allowed_on, pop};
use awk_frames::state::{ExpressionState, NextToken, ParserState};
use awk_grammar::arguments::accepts;
use awk_grammar::precedence::{POST_INCREMENT, PRE_INCREMENT, PRIMARY, UNARY};
use awk_grammar::tree::{Ere, UnaryOperator};
use awk_lex::token::{BuiltIn, IncrementOperator, Keyword, Kind, Operator};
use awk_value::Bytes;
use std::alloc::{AllocError, Global};

/// A sign or `!`.
fn start_unary(
    operator: UnaryOperator,
    in_print_list: bool,
    stack: &mut Vec<Frame>,
) -> Result<Option<ParserState>, AllocError>
    ensures { IfOk result (λ state. next_of state stack.new.items
        ≡ parser.start_unary operator in_print_list (stack_of stack.old.items)) }
{
    if greatest_allowed_on(stack) < UNARY {
        return Ok(None);
    }
    let frame = Frame::Node(NodeFrame::Unary(operator));
    begin(frame, false, in_print_list, stack)
}

/// `++` or `--` before a place.
fn start_increment(
    operator: IncrementOperator,
    in_print_list: bool,
    stack: &mut Vec<Frame>,
) -> Result<Option<ParserState>, AllocError>
    ensures { IfOk result (λ state. next_of state stack.new.items
        ≡ parser.when (nat_le pre_increment (parser.greatest_allowed_on (stack_of stack.old.items)))
        (parser.BeforeOperand false in_print_list (parser.InPreIncrement operator ∷ stack_of stack.old.items))) }
{
    if greatest_allowed_on(stack) < PRE_INCREMENT {
        return Ok(None);
    }
    let frame = Frame::Node(NodeFrame::PreIncrement(operator));
    begin(frame, false, in_print_list, stack)
}

/// A string.
fn after_string(
    alloc: Global,
    bytes: &Bytes,
    in_print_list: bool,
) -> Result<Option<ParserState>, AllocError>
    ensures { (frames : List Frame) → IfOk result (λ state. next_of state frames
        ≡ parser.AfterOperand in_print_list (parser.leaf max_height (t.String bytes.now)) (stack_of frames)) }
{
    let bytes = bytes.clone()?;
    Ok(operand(in_print_list, Operand::string(alloc, bytes)?))
}

/// An ERE.
fn after_ere(
    alloc: Global,
    text: &Bytes,
    in_print_list: bool,
) -> Result<Option<ParserState>, AllocError>
    ensures { (frames : List Frame) → IfOk result (λ state. next_of state frames
        ≡ parser.AfterOperand in_print_list (parser.leaf max_height (t.Ere text.now)) (stack_of frames)) }
{
    let text = text.clone()?;
    Ok(operand(in_print_list, Operand::ere(alloc, Ere { text })?))
}

/// A name.
fn after_name(name: &Bytes, in_print_list: bool) -> Result<Option<ParserState>, AllocError>
    ensures { (frames : List Frame) → IfOk result (λ state. next_of state frames
        ≡ parser.AfterName name.now in_print_list (stack_of frames)) }
{
    Ok(Some(ParserState::Expression {
        in_print_list,
        state: ExpressionState::AfterName(name.clone()?),
    }))
}

/// Before the `(` that opens a frame.
pub(crate) fn before_parenthesis(
    alloc: Global,
    frame: Frame,
    in_print_list: bool,
) -> Result<Option<ParserState>, AllocError>
    ensures { (frames : List Frame) → IfOk result (λ state. next_of state frames
        ≡ parser.BeforeParenthesis (frame_of frame) in_print_list (stack_of frames)) }
{
    let frame = Box::new(alloc, frame)?;
    Ok(Some(ParserState::Expression {
        in_print_list,
        state: ExpressionState::BeforeParenthesis(frame),
    }))
}

/// A list before its `(`.
fn before_list(
    alloc: Global,
    head: ListHead,
    in_print_list: bool,
) -> Result<Option<ParserState>, AllocError>
    ensures { (frames : List Frame) → IfOk result (λ state. next_of state frames
        ≡ parser.BeforeParenthesis (list_frame_of head (parser.no_operands max_height)) in_print_list (stack_of frames)) }
{
    let frame = Frame::list(alloc, head, OperandList::new(alloc))?;
    before_parenthesis(alloc, frame, in_print_list)
}

/// The name of a function, before its `(`.
fn before_call(
    alloc: Global,
    name: &Bytes,
    in_print_list: bool,
) -> Result<Option<ParserState>, AllocError>
    ensures { (frames : List Frame) → IfOk result (λ state. next_of state frames
        ≡ parser.BeforeParenthesis
        (parser.InCall name.now in_print_list (parser.no_operands max_height)) in_print_list (stack_of frames)) }
{
    let name = name.clone()?;
    let head = ListHead::Call {
        name,
        in_print_list,
    };
    before_list(alloc, head, in_print_list)
}

/// The name of a built-in function, before its `(`, which `length` may lack.
fn after_built_in(
    alloc: Global,
    function: BuiltIn,
    in_print_list: bool,
) -> Result<Option<ParserState>, AllocError>
    ensures { (skips : Bool) (frames : List Frame) → IfOk result (λ state. next_of state frames
        ≡ parser.start_operand max_height (token.BuiltIn function) skips in_print_list (stack_of frames)) }
{
    if matches!(function, BuiltIn::Length) {
        return Ok(Some(ParserState::Expression {
            in_print_list,
            state: ExpressionState::AfterLength,
        }));
    }
    let head = ListHead::BuiltIn {
        function,
        in_print_list,
    };
    before_list(alloc, head, in_print_list)
}

/// The word `getline`.
fn start_getline(in_print_list: bool, stack: &Vec<Frame>) -> Option<ParserState>
    ensures { next_of result stack.now.items
        ≡ parser.when (nat_le post_increment (parser.greatest_allowed_on (stack_of stack.now.items)))
        (parser.AfterGetline parser.NoOperand in_print_list (stack_of stack.now.items)) }
{
    if greatest_allowed_on(stack) < POST_INCREMENT {
        return None;
    }
    Some(ParserState::Expression {
        in_print_list,
        state: ExpressionState::AfterGetline,
    })
}

/// `)` behind the `(` of a call.
fn close_empty_call(
    alloc: Global,
    name: Bytes,
    in_print_list: bool,
    list: OperandList,
) -> Result<Option<ParserState>, AllocError>
    ensures { (frames : List Frame) → IfOk result (λ state. next_of state frames
        ≡ parser.close_empty_list max_height (parser.InCall name in_print_list (list_of list) ∷ stack_of frames)) }
{
    if list.count != 0 {
        drop(list);
        return Ok(None);
    }
    let tree = call(alloc, name, list.exprs)?;
    Ok(operand(in_print_list, Operand::new(PRIMARY, tree)))
}

/// `)` behind the `(` of a call of a built-in function.
fn close_empty_built_in(
    alloc: Global,
    function: BuiltIn,
    in_print_list: bool,
    list: OperandList,
) -> Result<Option<ParserState>, AllocError>
    ensures { (frames : List Frame) → IfOk result (λ state. next_of state frames
        ≡ parser.close_empty_list max_height (parser.InBuiltIn function in_print_list (list_of list) ∷ stack_of frames)) }
{
    if list.count != 0 || !accepts(function, 0, true) {
        drop(list);
        return Ok(None);
    }
    let tree = built_in(alloc, function, list.exprs)?;
    Ok(operand(in_print_list, Operand::new(PRIMARY, tree)))
}

/// `)` behind the `(` of a list.
fn close_empty(alloc: Global, frame: ListFrame) -> Result<Option<ParserState>, AllocError>
    ensures { (frames : List Frame) → IfOk result (λ state. next_of state frames
        ≡ parser.close_empty_list max_height (list_frame_of frame.head (list_of frame.list) ∷ stack_of frames)) }
{
    let ListFrame { head, list } = frame;
    match head {
        ListHead::Call {
            name,
            in_print_list,
        } => close_empty_call(alloc, name, in_print_list, list),
        ListHead::BuiltIn {
            function,
            in_print_list,
        } => close_empty_built_in(alloc, function, in_print_list, list),
        rest => {
            drop(rest);
            drop(list);
            Ok(None)
        }
    }
}

/// `)` where an argument could begin.
fn close_empty_list(
    alloc: Global,
    stack: &mut Vec<Frame>,
) -> Result<Option<ParserState>, AllocError>
    ensures { IfOk result (λ state. next_of state stack.new.items
        ≡ parser.close_empty_list max_height (stack_of stack.old.items)) }
{
    match pop(stack) {
        Some(Frame::List(frame)) => close_empty(alloc, Box::into_inner(frame)),
        rest => {
            drop(rest);
            Ok(None)
        }
    }
}

/// The token at the beginning of an operand: where the parser stands then, or none if it can't be taken.
pub fn start_operand(
    alloc: Global,
    next: NextToken,
    skips_newlines: bool,
    in_print_list: bool,
    stack: &mut Vec<Frame>,
) -> Result<Option<ParserState>, AllocError>
    ensures { IfOk result (λ state. next_of state stack.new.items
        ≡ parser.start_operand max_height next.entry.kind.now skips_newlines in_print_list (stack_of stack.old.items)) }
{
    match next.kind {
        Kind::Number(n) => Ok(operand(in_print_list, Operand::number(alloc, *n)?)),
        Kind::String(bytes) => after_string(alloc, bytes, in_print_list),
        Kind::Ere(text) => after_ere(alloc, text, in_print_list),
        Kind::Name(name) => after_name(name, in_print_list),
        Kind::Called(name) => before_call(alloc, name, in_print_list),
        Kind::BuiltIn(function) => after_built_in(alloc, *function, in_print_list),
        Kind::OpenParenthesis => {
            let frame = Frame::Expression(ExpressionFrame::Group { in_print_list });
            begin(frame, false, false, stack)
        }
        Kind::Dollar => begin(Frame::Node(NodeFrame::Field), false, in_print_list, stack),
        Kind::Not => start_unary(UnaryOperator::Not, in_print_list, stack),
        Kind::Operator(Operator::Plus) => start_unary(UnaryOperator::Plus, in_print_list, stack),
        Kind::Operator(Operator::Minus) => start_unary(UnaryOperator::Minus, in_print_list, stack),
        Kind::Increment(operator) => start_increment(*operator, in_print_list, stack),
        Kind::Keyword(Keyword::Getline) => Ok(start_getline(in_print_list, stack)),
        Kind::Newline if skips_newlines => Ok(Some(ParserState::Expression {
            in_print_list,
            state: ExpressionState::BeforeOperand { skips_newlines },
        })),
        Kind::CloseParenthesis if !skips_newlines => close_empty_list(alloc, stack),
        _ => Ok(None),
    }
}
