// The tokens of a text, read from its front.

mod bracket;
mod escape;
mod interval;
pub mod lexer;
