// The punctuators: the tokens that are spelled with neither letters nor digits nor delimiters.

ghost use Rattle.std.specs.Prelude.{◌≡◌, ℕ, List, ◌∷◌, [], slice_index};
ghost use Rattle.awk_lex.specs.definitions.Tables.{punctuators, divisions, kind_in};
ghost use Rattle.awk_lex.specs.support.Lexeme.{punctuator_at, short_punctuator, token_lexeme};

use crate::lexeme::Lexeme;
use crate::refusal::RefusalCode;
use crate::token::{AssignmentOperator, IncrementOperator, Kind, Operator};

/// The token that one byte spells, which is no slash.
fn short_punctuator(byte: u8) -> Option<Kind>
    ensures { result ≡ kind_in punctuators (byte ∷ []) }
{
    match byte {
        b'\n' => Some(Kind::Newline),
        b'{' => Some(Kind::OpenBrace),
        b'}' => Some(Kind::CloseBrace),
        b'(' => Some(Kind::OpenParenthesis),
        b')' => Some(Kind::CloseParenthesis),
        b'[' => Some(Kind::OpenBracket),
        b']' => Some(Kind::CloseBracket),
        b',' => Some(Kind::Comma),
        b';' => Some(Kind::Semicolon),
        b'$' => Some(Kind::Dollar),
        b'?' => Some(Kind::Question),
        b':' => Some(Kind::Colon),
        b'!' => Some(Kind::Not),
        b'|' => Some(Kind::Bar),
        b'=' => Some(Kind::Assign(AssignmentOperator::Plain)),
        b'^' => Some(Kind::Operator(Operator::Power)),
        b'*' => Some(Kind::Operator(Operator::Times)),
        b'%' => Some(Kind::Operator(Operator::Remainder)),
        b'+' => Some(Kind::Operator(Operator::Plus)),
        b'-' => Some(Kind::Operator(Operator::Minus)),
        b'<' => Some(Kind::Operator(Operator::Less)),
        b'>' => Some(Kind::Operator(Operator::Greater)),
        b'~' => Some(Kind::Operator(Operator::Matches)),
        _ => None,
    }
}

/// The token that two bytes spell, the first of which is no slash.
fn long_punctuator(first: u8, second: u8) -> Option<Kind>
    ensures { result ≡ kind_in punctuators (first ∷ second ∷ []) }
{
    match (first, second) {
        (b'>', b'>') => Some(Kind::Append),
        (b'+', b'+') => Some(Kind::Increment(IncrementOperator::Increment)),
        (b'-', b'-') => Some(Kind::Increment(IncrementOperator::Decrement)),
        (b'+', b'=') => Some(Kind::Assign(AssignmentOperator::Add)),
        (b'-', b'=') => Some(Kind::Assign(AssignmentOperator::Subtract)),
        (b'*', b'=') => Some(Kind::Assign(AssignmentOperator::Multiply)),
        (b'%', b'=') => Some(Kind::Assign(AssignmentOperator::Remainder)),
        (b'^', b'=') => Some(Kind::Assign(AssignmentOperator::Power)),
        (b'<', b'=') => Some(Kind::Operator(Operator::LessEqual)),
        (b'=', b'=') => Some(Kind::Operator(Operator::Equal)),
        (b'!', b'=') => Some(Kind::Operator(Operator::NotEqual)),
        (b'>', b'=') => Some(Kind::Operator(Operator::GreaterEqual)),
        (b'!', b'~') => Some(Kind::Operator(Operator::NotMatches)),
        (b'&', b'&') => Some(Kind::Operator(Operator::And)),
        (b'|', b'|') => Some(Kind::Operator(Operator::Or)),
        _ => None,
    }
}

/// The lexeme in front of a text, by its first byte alone, which is no slash.
fn short_lexeme(byte: u8) -> Lexeme
    ensures { (rest : List ℕ) → result ≡ token_lexeme (byte ∷ rest) (short_punctuator (kind_in punctuators (byte ∷ []))) }
{
    match short_punctuator(byte) {
        Some(kind) => Lexeme::Token(kind, 1),
        None => Lexeme::Fault(RefusalCode::UnexpectedByte),
    }
}

/// The longest punctuator in front of a text that begins with no slash.
pub(crate) fn punctuator_lexeme(text: &[u8]) -> Lexeme
    ensures { result ≡ token_lexeme text.now (punctuator_at punctuators text.now) }
{
    match text {
        [] => Lexeme::Fault(RefusalCode::UnexpectedByte),
        [first] => short_lexeme(*first),
        [first, second, ..] => match long_punctuator(*first, *second) {
            Some(kind) => Lexeme::Token(kind, 2),
            None => short_lexeme(*first),
        },
    }
}

/// The punctuator in front of a text that begins with a slash, where a slash divides.
pub(crate) fn division_lexeme(text: &[u8]) -> Lexeme
    requires { slice_index text.now 0 ≡ 47 }
    ensures { result ≡ token_lexeme text.now (punctuator_at divisions text.now) }
{
    match text {
        [_, b'=', ..] => Lexeme::Token(Kind::Assign(AssignmentOperator::Divide), 2),
        _ => Lexeme::Token(Kind::Operator(Operator::Divide), 1),
    }
}
