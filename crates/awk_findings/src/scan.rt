// The bytes of one line, token by token.

use awk_lex::lexer::tokens;
use awk_lex::refusal::RefusalCode;
use awk_lex::token::Kind;
use awk_lex::words::is_word_byte;
use std::alloc::{AllocError, Global};

/// What a place of a line is in.
#[derive(Clone, Copy)]
pub(crate) enum Within {
    Nothing,
    /// A word that begins at this byte.
    Word(usize),
    /// The digits of a number.
    Number(usize),
    /// A string, and whether the byte before is a backslash that takes this one's meaning.
    Text(usize, bool),
    /// An ERE, likewise.
    Pattern(usize, bool),
    Remark,
}

/// A scan of a line.
#[derive(Drop)]
pub(crate) struct LineScan {
    pub(crate) within: Within,
    /// Whether a slash divides here.
    divides: bool,
    /// A plus or a minus directly before, which another one makes an increment.
    half: u8,
}

/// Whether a slash behind a token divides.
pub(crate) fn divides_behind(kind: &Kind) -> bool {
    matches!(
        kind,
        Kind::Number(_)
            | Kind::String(_)
            | Kind::Ere(_)
            | Kind::Name(_)
            | Kind::BuiltIn(_)
            | Kind::Increment(_)
            | Kind::CloseBracket
            | Kind::CloseParenthesis
    )
}

/// Whether a slash behind this text, which is tokens, divides.
pub(crate) fn divides_at_end(alloc: Global, text: &[u8]) -> Result<bool, AllocError> {
    match tokens(alloc, text) {
        Ok(tokens) => Ok(match tokens.last() {
            Some(token) => divides_behind(&token.kind),
            None => false,
        }),
        Err(refusal) if refusal.code == RefusalCode::OutOfMemory => Err(AllocError),
        Err(_) => Ok(false),
    }
}

impl LineScan {
    pub(crate) fn new(divides: bool) -> LineScan {
        LineScan {
            within: Within::Nothing,
            divides,
            half: 0,
        }
    }

    /// Goes over a byte that stands in no token which began before it.
    fn begin(&mut self, at: usize, byte: u8) {
        let is_double = self.half == byte;
        self.half = 0;
        match byte {
            b' ' | b'\t' | b'\\' => {}
            b'#' => self.within = Within::Remark,
            b'"' => self.within = Within::Text(at, false),
            b'/' if !self.divides => self.within = Within::Pattern(at, false),
            b')' | b']' => self.divides = true,
            b'+' | b'-' if is_double => self.divides = true,
            b'+' | b'-' => {
                self.half = byte;
                self.divides = false;
            }
            b'0'..=b'9' => self.within = Within::Number(at),
            _ if is_word_byte(byte) => self.within = Within::Word(at),
            _ => self.divides = false,
        }
    }

    /// Goes over a byte behind the start of a string or an ERE.
    fn go_on(&mut self, byte: u8, start: usize, is_escaped: bool, end: u8) {
        let escapes = byte == b'\\' && !is_escaped;
        let is_end = byte == end && !is_escaped;
        self.within = match end {
            _ if is_end => Within::Nothing,
            b'"' => Within::Text(start, escapes),
            _ => Within::Pattern(start, escapes),
        };
        self.divides = is_end;
    }

    /// Goes over the byte at a place of the line.
    pub(crate) fn step(
        &mut self,
        alloc: Global,
        line: &[u8],
        at: usize,
        byte: u8,
    ) -> Result<(), AllocError> {
        match self.within {
            Within::Nothing => self.begin(at, byte),
            Within::Remark => {}
            Within::Text(start, is_escaped) => self.go_on(byte, start, is_escaped, b'"'),
            Within::Pattern(start, is_escaped) => self.go_on(byte, start, is_escaped, b'/'),
            Within::Word(start) => {
                if !is_word_byte(byte) {
                    self.divides = divides_at_end(alloc, line.get(start..at).unwrap_or(b""))?;
                    self.within = Within::Nothing;
                    self.begin(at, byte);
                }
            }
            Within::Number(_) => {
                if !byte.is_ascii_digit() {
                    self.divides = true;
                    self.within = Within::Nothing;
                    self.begin(at, byte);
                }
            }
        }
        Ok(())
    }
}
