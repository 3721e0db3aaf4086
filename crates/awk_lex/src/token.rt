// The tokens of a program text (POSIX awk, Grammar).

use awk_value::Bytes;

/// An operator between two operands. Plus and minus may also stand before one.
#[derive(Clone, Copy)]
pub enum Operator {
    /// `^`
    Power,
    /// `*`
    Times,
    /// `/`
    Divide,
    /// `%`
    Remainder,
    /// `+`
    Plus,
    /// `-`
    Minus,
    /// `<`
    Less,
    /// `<=`
    LessEqual,
    /// `==`
    Equal,
    /// `!=`
    NotEqual,
    /// `>`
    Greater,
    /// `>=`
    GreaterEqual,
    /// `~`
    Matches,
    /// `!~`
    NotMatches,
    /// `&&`
    And,
    /// `||`
    Or,
}

/// How an assignment makes the new value.
#[derive(Clone, Copy)]
pub enum AssignmentOperator {
    /// `=`
    Plain,
    /// `+=`
    Add,
    /// `-=`
    Subtract,
    /// `*=`
    Multiply,
    /// `/=`
    Divide,
    /// `%=`
    Remainder,
    /// `^=`
    Power,
}

/// Adds 1 to a variable or takes 1 from it, before or behind its use.
#[derive(Clone, Copy)]
pub enum IncrementOperator {
    /// `++`
    Increment,
    /// `--`
    Decrement,
}

/// A keyword, which is no name.
#[derive(Clone, Copy)]
pub enum Keyword {
    Begin,
    End,
    Function,
    If,
    Else,
    While,
    For,
    Do,
    Break,
    Continue,
    Next,
    /// `nextfile`, which the standard's grammar doesn't have.
    NextFile,
    Exit,
    Return,
    Delete,
    In,
    Getline,
    Print,
    Printf,
}

/// A built-in function, by its BUILTIN_FUNC_NAME.
#[derive(Clone, Copy)]
pub enum BuiltIn {
    Length,
    Substr,
    Index,
    Split,
    Sub,
    Gsub,
    Match,
    Sprintf,
    ToLower,
    ToUpper,
    Int,
    System,
    Close,
    /// `fflush`, which the standard's grammar doesn't have.
    Fflush,
}

/// What a token is.
#[derive(Drop)]
pub enum Kind {
    /// A number, from 0 to 2^127 - 1.
    Number(i128),
    /// A string: the bytes that it stands for.
    String(Bytes),
    /// An extended regular expression: its text between the slashes, with the backslashes that stand there.
    Ere(Bytes),
    /// A name that is no keyword and no built-in.
    Name(Bytes),
    /// A FUNC_NAME: a name with `(` directly behind it.
    Called(Bytes),
    Keyword(Keyword),
    BuiltIn(BuiltIn),
    Operator(Operator),
    Assign(AssignmentOperator),
    Increment(IncrementOperator),
    /// `!`
    Not,
    Dollar,
    Comma,
    Semicolon,
    Newline,
    /// `?`
    Question,
    Colon,
    /// `|`
    Bar,
    /// `>>`
    Append,
    OpenBrace,
    CloseBrace,
    OpenBracket,
    CloseBracket,
    OpenParenthesis,
    CloseParenthesis,
}

/// A token, the line on which it begins (from 1), and its stretch of the text.
#[derive(Drop)]
pub struct Token {
    pub kind: Kind,
    pub line: u64,
    pub start: usize,
    pub end: usize,
}
