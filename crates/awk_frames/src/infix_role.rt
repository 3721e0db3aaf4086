// What a token does after an operand.

ghost use Rattle.std.specs.Prelude.{◌≡◌};
ghost use Rattle.awk_grammar.specs.support.Parser as parser;
ghost use Rattle.awk_grammar.specs.support.InfixRole.{role, operate, is_less, greatest_operand, least_allowed};
ghost use Rattle.awk_frames.specs.support.FrameView.{role_of, operand_of};

use crate::operand::Operand;
use awk_grammar::precedence::{
    CONCATENATION, CONDITIONAL, EXPR, MEMBERSHIP, OR, PIPE, POST_INCREMENT, PRIMARY,
};
use awk_grammar::tree::BinaryOperator;
use awk_lex::token::{AssignmentOperator, IncrementOperator, Keyword, Kind, Operator};

/// What a token does after an operand.
#[derive(Clone, Copy)]
pub enum InfixRole {
    /// It stands between two operands.
    Operates(Operator),
    /// It stands behind a place, or before another operand.
    Increments(IncrementOperator),
    /// It assigns to a place.
    Assigns(AssignmentOperator),
    /// It is the first token of another operand.
    Starts,
    /// `in`
    TestsMembership,
    /// `|`
    Pipes,
    /// `?`
    Asks,
    /// `[`
    Subscripts,
    /// It ends the operand.
    Ends,
}

impl InfixRole {
    /// What the token does; `in_print_list`: it stands in the list of a print outside parentheses, where `>` is no comparison.
    pub fn of(kind: &Kind, in_print_list: bool) -> InfixRole
        ensures { role_of result ≡ role in_print_list kind.now }
    {
        match kind {
            Kind::Operator(Operator::Greater) if in_print_list => InfixRole::Ends,
            Kind::Operator(operator) => InfixRole::Operates(*operator),
            Kind::Increment(operator) => InfixRole::Increments(*operator),
            Kind::Assign(operator) => InfixRole::Assigns(*operator),
            Kind::Number(_)
            | Kind::String(_)
            | Kind::Ere(_)
            | Kind::Name(_)
            | Kind::Called(_)
            | Kind::BuiltIn(_)
            | Kind::Not
            | Kind::Dollar
            | Kind::OpenParenthesis
            | Kind::Keyword(Keyword::Getline) => InfixRole::Starts,
            Kind::Keyword(Keyword::In) => InfixRole::TestsMembership,
            Kind::Bar => InfixRole::Pipes,
            Kind::Question => InfixRole::Asks,
            Kind::OpenBracket => InfixRole::Subscripts,
            _ => InfixRole::Ends,
        }
    }

    /// Whether a getline that has its place takes its file at this token.
    pub(crate) fn is_less(self) -> bool
        ensures { result ≡ is_less (role_of self) }
    {
        matches!(self, InfixRole::Operates(Operator::Less))
    }

    /// The greatest precedence of an operand that goes on with the token.
    fn greatest_operand(self) -> u8
        ensures { result ≡ greatest_operand (role_of self) }
    {
        match self {
            InfixRole::Operates(operator) => BinaryOperator::Infix(operator).greatest_left(),
            InfixRole::Increments(_) | InfixRole::Starts => CONCATENATION,
            InfixRole::TestsMembership => MEMBERSHIP,
            InfixRole::Pipes => PIPE,
            InfixRole::Asks => OR,
            InfixRole::Assigns(_) | InfixRole::Subscripts | InfixRole::Ends => PRIMARY,
        }
    }

    /// The precedence of the node that it makes; none is allowed where it makes none.
    fn least_allowed(self) -> u8
        ensures { result ≡ least_allowed (role_of self) }
    {
        match self {
            InfixRole::Operates(operator) => BinaryOperator::Infix(operator).precedence(),
            InfixRole::Increments(_) | InfixRole::Starts => CONCATENATION,
            InfixRole::TestsMembership => MEMBERSHIP,
            InfixRole::Pipes => PIPE,
            InfixRole::Asks => CONDITIONAL,
            InfixRole::Assigns(_) | InfixRole::Subscripts | InfixRole::Ends => EXPR + 1,
        }
    }

    /// Whether an operand is tight enough left of the token, and the node allowed.
    fn fits(self, operand: &Operand, greatest_allowed: u8) -> bool
        ensures { result ≡ parser.fits (role_of self) (operand_of operand.now) greatest_allowed }
    {
        operand.precedence <= self.greatest_operand() && self.least_allowed() <= greatest_allowed
    }

    /// Whether an operand goes on with the token, where `greatest_allowed` is the greatest precedence allowed.
    pub fn continues(self, operand: &Operand, greatest_allowed: u8) -> bool
        ensures { result ≡ parser.continues (role_of self) (operand_of operand.now) greatest_allowed }
    {
        match self {
            InfixRole::Assigns(_) => operand.is_place && MEMBERSHIP <= greatest_allowed,
            InfixRole::Increments(_) if operand.is_place && POST_INCREMENT <= greatest_allowed =>
                true,
            InfixRole::Subscripts | InfixRole::Ends => false,
            _ => self.fits(operand, greatest_allowed),
        }
    }
}
