// The table of operators (POSIX awk, Expressions in awk).

ghost use Rattle.std.specs.Prelude.{◌≡◌};
ghost use Rattle.awk_grammar.specs.definitions.Precedence.{operator_precedence, greatest_left, greatest_right};
ghost use Rattle.awk_grammar.specs.declared.tree.BinaryOperator.TheVariants.{Infix};

use crate::tree::BinaryOperator;
use awk_lex::token::Operator;

// The levels, the tightest first: an expression of a level may stand wherever one of a greater level may.

/// What stands alone, and an expression in parentheses.
pub const PRIMARY: u8 = 0;

/// `$ expr`
pub const FIELD_REFERENCE: u8 = 1;

/// `++ place` and `-- place`
pub const PRE_INCREMENT: u8 = 2;

/// `place ++`, `place --` and a getline without a pipe
pub const POST_INCREMENT: u8 = 3;

pub const POWER: u8 = 4;

pub const UNARY: u8 = 5;

pub const PRODUCT: u8 = 6;

pub const SUM: u8 = 7;

pub const CONCATENATION: u8 = 8;

/// `expr | getline`
pub const PIPE: u8 = 9;

pub const COMPARISON: u8 = 10;

pub const MATCH: u8 = 11;

pub const MEMBERSHIP: u8 = 12;

pub const AND: u8 = 13;

pub const OR: u8 = 14;

pub const CONDITIONAL: u8 = 15;

/// Any expression, an assignment and what ends in one too.
pub const EXPR: u8 = 16;

/// An operator's level, and the greatest levels that may stand left and right of it.
#[derive(Clone, Copy)]
struct Row {
    precedence: u8,
    left: u8,
    right: u8,
}

// What the operator joins may stand left of another of its level.
fn left_associative(level: u8, tighter: u8) -> Row
    ensures precedence { result.precedence ≡ level }
    ensures left { result.left ≡ level }
    ensures right { result.right ≡ tighter }
{
    Row {
        precedence: level,
        left: level,
        right: tighter,
    }
}

// The operator joins no others of its level.
fn not_associative(level: u8, tighter: u8) -> Row
    ensures precedence { result.precedence ≡ level }
    ensures left { result.left ≡ tighter }
    ensures right { result.right ≡ tighter }
{
    Row {
        precedence: level,
        left: tighter,
        right: tighter,
    }
}

// The row of an operator that is a token.
fn row_of(operator: Operator) -> Row
    ensures precedence { result.precedence ≡ operator_precedence (Infix operator) }
    ensures left { result.left ≡ greatest_left (Infix operator) }
    ensures right { result.right ≡ greatest_right (Infix operator) }
{
    match operator {
        // A power may stand right of it, with a sign before it too, and none left of it.
        Operator::Power => Row {
            precedence: POWER,
            left: POST_INCREMENT,
            right: UNARY,
        },
        Operator::Times => left_associative(PRODUCT, UNARY),
        Operator::Divide => left_associative(PRODUCT, UNARY),
        Operator::Remainder => left_associative(PRODUCT, UNARY),
        Operator::Plus => left_associative(SUM, PRODUCT),
        Operator::Minus => left_associative(SUM, PRODUCT),
        Operator::Less => not_associative(COMPARISON, PIPE),
        Operator::LessEqual => not_associative(COMPARISON, PIPE),
        Operator::NotEqual => not_associative(COMPARISON, PIPE),
        Operator::Equal => not_associative(COMPARISON, PIPE),
        Operator::Greater => not_associative(COMPARISON, PIPE),
        Operator::GreaterEqual => not_associative(COMPARISON, PIPE),
        Operator::Matches => not_associative(MATCH, COMPARISON),
        Operator::NotMatches => not_associative(MATCH, COMPARISON),
        Operator::And => left_associative(AND, MEMBERSHIP),
        Operator::Or => left_associative(OR, AND),
    }
}

impl BinaryOperator {
    // The operator's row of the table.
    fn row(self) -> Row
        ensures precedence { result.precedence ≡ operator_precedence self }
        ensures left { result.left ≡ greatest_left self }
        ensures right { result.right ≡ greatest_right self }
    {
        match self {
            BinaryOperator::Concatenate => left_associative(CONCATENATION, SUM),
            BinaryOperator::Infix(operator) => row_of(operator),
        }
    }

    /// The level of the operator.
    pub fn precedence(self) -> u8
        ensures { result ≡ operator_precedence self }
    {
        self.row().precedence
    }

    /// The greatest level that may stand left of the operator.
    pub fn greatest_left(self) -> u8
        ensures { result ≡ greatest_left self }
    {
        self.row().left
    }

    /// The greatest level that may stand right of it.
    pub fn greatest_right(self) -> u8
        ensures { result ≡ greatest_right self }
    {
        self.row().right
    }
}
