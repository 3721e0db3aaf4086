// Where the parser stands, above what it has begun. What is large and rare stands in a box: a state is handed on at each token.

use crate::checked_statements::{CheckedPart, CheckedSimple, CheckedStatement};
use crate::frame::{ForHead, Frame, Head};
use crate::operand::{Operand, OperandList};
use awk_grammar::tree::PrintForm;
use awk_lex::token::Kind;
use awk_value::Bytes;

/// The token that is read next.
#[derive(Clone, Copy)]
pub struct NextToken<'a> {
    pub kind: &'a Kind,
}

/// Where the parser stands.
#[derive(Drop)]
pub enum ParserState {
    /// In an expression; `in_print_list`: in the list of a print, outside parentheses.
    Expression {
        in_print_list: bool,
        state: ExpressionState,
    },
    Statement(StatementState),
    Item(ItemState),
}

/// Where it stands in an expression.
#[derive(Drop)]
pub enum ExpressionState {
    /// Before an operand; newlines may stand first.
    BeforeOperand { skips_newlines: bool },
    /// After an operand, and what stands behind it.
    AfterOperand(Operand, Behind),
    AfterName(Bytes),
    AfterLength,
    /// After the word `getline`.
    AfterGetline,
    /// Before the `(` that opens this frame.
    BeforeParenthesis(Box<Frame>),
    /// After a list in parentheses.
    AfterList(Box<OperandList>),
    /// After a list and `in`.
    AfterListIn(Box<OperandList>),
}

/// What is read behind an operand.
#[derive(Clone, Copy)]
pub enum Behind {
    Nothing,
    /// A `|`.
    Bar,
    /// A `|` and the word `getline`.
    PipedGetline,
    /// `in`
    In,
}

/// Where it stands in a statement.
#[derive(Drop)]
pub enum StatementState {
    AfterPrint(PrintForm),
    AfterDelete,
    AfterDeleteName(Bytes),
    AfterExit,
    AfterReturn,
    /// A simple statement is whole, and must end.
    AfterSimple(Box<Option<CheckedSimple>>),
    /// A `do` is whole, and must end.
    AfterDo(Box<Option<CheckedStatement>>),
    AfterFor,
    BeforeForFirst,
    BeforeForCondition(Box<Option<CheckedPart>>),
    BeforeForLast(Box<ForHead>),
    /// Before a statement or the end of a block.
    BeforeStatement,
    AfterStatement(Option<CheckedStatement>),
}

/// Where it stands in an item.
#[derive(Drop)]
pub enum ItemState {
    BetweenItems,
    /// Before an action; newlines may stand first.
    BeforeAction {
        head: Box<Head>,
        skips_newlines: bool,
    },
    AfterFunction,
    AfterFunctionName(Bytes),
    /// Before a parameter; behind a comma newlines may stand first.
    BeforeParameter {
        signature: Box<Signature>,
        is_behind_comma: bool,
    },
    AfterParameter(Box<Signature>),
}

/// A function's name, and its parameters as far as they are read.
#[derive(Drop)]
pub struct Signature {
    pub name: Bytes,
    pub parameters: Vec<Bytes>,
}
