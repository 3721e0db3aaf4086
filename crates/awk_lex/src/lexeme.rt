// Lexemes: what a text begins with.

use crate::refusal::RefusalCode;
use crate::token::Kind;

/// What a text begins with, and how many bytes it has.
#[derive(Drop)]
pub enum Lexeme {
    /// One part of a gap.
    Gap(usize),
    Token(Kind, usize),
    Fault(RefusalCode),
}
