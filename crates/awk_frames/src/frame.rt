// The nodes that have begun, with what is read of them. What is large stands in a box, so that the stack's entries are small:
// each is written and read once for its node, and moved beside that.

ghost use Rattle.std.specs.Prelude.{◌≡◌, IfOk};
ghost use Rattle.awk_frames.specs.support.FrameView.{list_of, list_frame_of, frame_of};

use crate::checked_expressions::CheckedExpr;
use crate::checked_statements::{
    CheckedItems, CheckedOptionalExpr, CheckedPart, CheckedPattern, CheckedPrintList,
    CheckedStatement, CheckedStatements,
};
use crate::operand::{Operand, OperandList};
use awk_grammar::tree::{BinaryOperator, PrintForm, Redirection, UnaryOperator};
use awk_lex::token::{AssignmentOperator, BuiltIn, IncrementOperator};
use awk_value::Bytes;
use std::alloc::{AllocError, Global};

/// A node that has begun. Trees are none where they are too high.
#[derive(Drop)]
pub enum Frame {
    /// The operand that is read next ends it.
    Node(NodeFrame),
    /// A list, and what it belongs to.
    List(Box<ListFrame>),
    /// An expression that a token behind it ends.
    Expression(ExpressionFrame),
    /// The first part of a `for`.
    ForFirst,
    /// The last part of a `for`.
    ForLast(Box<ForHead>),
    /// A statement whose body is read.
    Body(Box<BodyFrame>),
    /// A block, or an action behind its head, and its statements.
    Block(Option<Box<Head>>, Option<CheckedStatements>),
    /// The program, with its items.
    Program(Option<CheckedItems>),
}

/// A list that is read, and what it belongs to.
#[derive(Drop)]
pub struct ListFrame {
    pub head: ListHead,
    pub list: OperandList,
}

impl Frame {
    /// A list, of what is read of it so far.
    pub fn list(alloc: Global, head: ListHead, list: OperandList) -> Result<Frame, AllocError>
        ensures { IfOk result (λ frame. frame_of frame ≡ list_frame_of head (list_of list)) }
    {
        Ok(Frame::List(Box::new(alloc, ListFrame { head, list })?))
    }
}

/// A node that is made of the operand that is read next.
#[derive(Drop)]
pub enum NodeFrame {
    Field,
    PreIncrement(IncrementOperator),
    Unary(UnaryOperator),
    Binary(BinaryOperator, Operand),
    Assign(AssignmentOperator, Operand),
    /// The second choice of a conditional.
    SecondChoice(Box<Choice>),
    /// The place of a getline, with the command before its `|`.
    GetlinePlace(Box<Option<Operand>>),
    /// The file of a getline, with its place.
    GetlineFile(Box<Option<Operand>>),
}

/// A conditional before its second choice.
#[derive(Drop)]
pub struct Choice {
    pub condition: Box<Operand>,
    pub first: Operand,
}

/// A `for` before its last part.
#[derive(Drop)]
pub struct ForHead {
    pub first: Box<Option<CheckedPart>>,
    pub condition: Option<CheckedOptionalExpr>,
}

/// What a list belongs to. `in_print_list`: it stands in the list of a print.
#[derive(Drop)]
pub enum ListHead {
    /// Parentheses alone, behind a comma.
    Group {
        in_print_list: bool,
    },
    Call {
        name: Bytes,
        in_print_list: bool,
    },
    BuiltIn {
        function: BuiltIn,
        in_print_list: bool,
    },
    Element {
        name: Bytes,
        in_print_list: bool,
    },
    Print(PrintForm),
    Delete(Bytes),
}

/// What an expression is for that a token behind it ends.
#[derive(Drop)]
pub enum ExpressionFrame {
    /// The first choice of a conditional, with its condition.
    FirstChoice(Box<Operand>),
    Statement,
    /// The first expression in parentheses alone.
    Group { in_print_list: bool },
    /// Where a print writes to.
    Output(Box<OutputFrame>),
    Exit,
    Return,
    IfCondition,
    WhileCondition,
    /// The condition of a `do`, with its body.
    DoCondition(Box<Option<CheckedStatement>>),
    /// The condition of a `for`, with its first part.
    ForCondition(Box<Option<CheckedPart>>),
    Pattern,
    /// The end of a range, with its begin.
    RangeEnd(Option<CheckedExpr>),
}

/// A print before the expression that tells where it writes to.
#[derive(Drop)]
pub struct OutputFrame {
    pub form: PrintForm,
    pub list: Option<CheckedPrintList>,
    pub redirection: Redirection,
}

/// A statement whose body is read.
#[derive(Drop)]
pub enum BodyFrame {
    If(Option<CheckedExpr>),
    /// With the condition and the first body.
    Else(Option<CheckedExpr>, Option<CheckedStatement>),
    While(Option<CheckedExpr>),
    Do,
    /// With the name and the array.
    ForIn(Bytes, Bytes),
    /// With what stands before its last part, and that part.
    For(Box<ForHead>, Box<Option<CheckedPart>>),
}

/// What stands before an action.
#[derive(Drop)]
pub enum Head {
    Begin,
    End,
    NoPattern,
    Pattern(Option<CheckedPattern>),
    /// A function's name and parameters.
    Function(Bytes, Vec<Bytes>),
}
