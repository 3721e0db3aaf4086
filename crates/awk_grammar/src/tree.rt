// The syntax tree of the whole language (POSIX awk, Grammar).

use awk_lex::token::{AssignmentOperator, BuiltIn, IncrementOperator, Operator};
use awk_value::Bytes;

/// What stands before an operand (POSIX awk, unary_expr and `!`).
#[derive(Clone, Copy)]
pub enum UnaryOperator {
    Not,
    Plus,
    Minus,
}

/// What joins two operands (POSIX awk, Expressions in awk).
#[derive(Clone, Copy)]
pub enum BinaryOperator {
    /// No token stands between the operands.
    Concatenate,
    /// An operator stands between them.
    Infix(Operator),
}

/// An extended regular expression as it stands in a program.
#[derive(Drop)]
pub struct Ere {
    /// The text between the slashes.
    pub text: Bytes,
}

/// An expression. A place, what can be assigned, is a `Name`, an `Element` or a `Field`.
#[derive(Drop)]
pub enum Expr {
    /// A number, from 0 to 2^127 - 1.
    Number(i128),
    /// A string: the bytes that it stands for.
    String(Bytes),
    Ere(Ere),
    Name(Bytes),
    /// `name[list]`, of one expression or more.
    Element(Bytes, Vec<Expr>),
    /// `$` and the field's number.
    Field(Box<Expr>),
    /// An expression in parentheses.
    Group(Box<Expr>),
    /// A call of a function of the program, with its arguments.
    Call(Bytes, Vec<Expr>),
    /// A call of a built-in function, with its arguments.
    BuiltIn(BuiltIn, Vec<Expr>),
    /// The word `length` without parentheses.
    Length,
    /// `++ place` and `-- place`.
    PreIncrement(IncrementOperator, Box<Expr>),
    /// `place ++` and `place --`.
    PostIncrement(IncrementOperator, Box<Expr>),
    /// `getline`, with its place and with its file behind `<`.
    Getline(Option<Box<Expr>>, Option<Box<Expr>>),
    /// `expr | getline`, with its place.
    PipedGetline(Box<Expr>, Option<Box<Expr>>),
    Unary(UnaryOperator, Box<Expr>),
    Binary(BinaryOperator, Box<Expr>, Box<Expr>),
    /// `expr in array`.
    Membership(Box<Expr>, Bytes),
    /// `(list) in array`, of two expressions or more.
    ListMembership(Vec<Expr>, Bytes),
    /// `expr ? expr : expr`.
    Conditional(Box<Expr>, Box<Expr>, Box<Expr>),
    /// `place = expr`, `place += expr` and so on.
    Assign(AssignmentOperator, Box<Expr>, Box<Expr>),
}

/// Which of the two print statements it is (POSIX awk, simple_print_statement).
#[derive(Clone, Copy)]
pub enum PrintForm {
    Print,
    Printf,
}

/// How an output is redirected (POSIX awk, output_redirection).
#[derive(Clone, Copy)]
pub enum Redirection {
    /// `>`
    Truncate,
    /// `>>`
    Append,
    /// `|`
    Pipe,
}

/// What a print statement prints.
#[derive(Drop)]
pub enum PrintList {
    /// A list, or none.
    Bare(Vec<Expr>),
    /// A list of two expressions or more, with parentheses around it.
    Parenthesized(Vec<Expr>),
}

/// Where a print statement prints.
#[derive(Drop)]
pub enum Output {
    Standard,
    /// To what the expression names.
    Redirected(Redirection, Box<Expr>),
}

/// What a terminator ends (POSIX awk, terminatable_statement), except `do`.
#[derive(Drop)]
pub enum SimpleStatement {
    /// An expression, whose value is of no use.
    Expression(Box<Expr>),
    Print(PrintForm, PrintList, Output),
    /// `delete name[list]`.
    Delete(Bytes, Vec<Expr>),
    /// `delete name`: all elements of the array.
    DeleteAll(Bytes),
    Next,
    /// `nextfile`.
    NextFile,
    Break,
    Continue,
    Exit(Option<Box<Expr>>),
    Return(Option<Box<Expr>>),
}

/// What stands between the parentheses of a `for`. The outer parts are expressions, prints or deletions.
#[derive(Drop)]
pub struct ForParts {
    pub first: Option<SimpleStatement>,
    pub condition: Option<Box<Expr>>,
    pub last: Option<SimpleStatement>,
}

/// A statement.
#[derive(Drop)]
pub enum Statement {
    /// A `;` alone.
    Empty,
    Simple(SimpleStatement),
    /// A block in braces.
    Block(Vec<Statement>),
    If(Box<Expr>, Box<Statement>),
    IfElse(Box<Expr>, Box<Statement>, Box<Statement>),
    While(Box<Expr>, Box<Statement>),
    Do(Box<Statement>, Box<Expr>),
    /// `for (name in array)`: the name, the array and the body.
    ForIn(Bytes, Bytes, Box<Statement>),
    /// `for (part; expr; part)` and the body. Few statements have such parts, and each would be as large.
    For(Box<ForParts>, Box<Statement>),
}

/// What tells for which records an action is (POSIX awk, normal_pattern).
#[derive(Drop)]
pub enum Pattern {
    Single(Box<Expr>),
    /// The records from one on which the first is true up to one on which the second is.
    Range(Box<Expr>, Box<Expr>),
}

/// An item of a program (POSIX awk, item).
#[derive(Drop)]
pub enum Item {
    /// An action before all records.
    Begin(Vec<Statement>),
    /// An action behind all records.
    End(Vec<Statement>),
    /// An action for every record.
    Action(Vec<Statement>),
    /// An action for the records that the pattern tells.
    PatternAction(Pattern, Vec<Statement>),
    /// The records that the pattern tells are printed.
    PatternOnly(Pattern),
    /// A function: its name, its parameters and its body.
    Function(Bytes, Vec<Bytes>, Vec<Statement>),
}

/// A program.
#[derive(Drop)]
pub struct Tree {
    pub items: Vec<Item>,
}
