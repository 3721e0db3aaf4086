//! Tokens, and reading them from a program text (POSIX awk, Lexical Conventions).
//!
//! - `tokens` reads all tokens of a text, each with its line, or answers a `Refusal` with its code and line.
//! - `token` has the kinds of tokens, `words` says which names have a meaning of their own, and `escapes` what a text with
//!   escapes stands for.
#![tactic(auto)]

mod delimited;
pub mod escapes;
mod lexeme;
pub mod lexer;
mod punctuation;
pub mod refusal;
mod scanner;
pub mod token;
pub mod words;

pub use lexer::tokens;
pub use refusal::{Refusal, RefusalCode};
pub use token::Token;
