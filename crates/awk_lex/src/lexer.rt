// The tokens of a program text.

ghost use Rattle.std.specs.Prelude.{◌≡◌, ◌≤◌, ◌⊎◌, ◌+◌, ◌<◌, List, ℕ, length, All, IfOk, IfErr, OnOk};
ghost use Rattle.awk_lex.specs.definitions.Words.{divides_after};
ghost use Rattle.awk_lex.specs.definitions.Lexes.{Lexes};
ghost use Rattle.awk_lex.specs.definitions.Refused.{IsOutOfMemory};
ghost use Rattle.awk_lex.specs.support.Lexeme.{is_newline};
ghost use Rattle.awk_lex.specs.definitions.Told.{kinds_of, StandsAt, InTurn};
ghost use Rattle.awk_lex.specs.definitions.Told.{FaultStands, GivesOnly, Refuses, RefusesOnly};
ghost use Rattle.awk_lex.specs.support.Reading.{AreTokens};

use crate::lexeme::Lexeme;
use crate::refusal::{Refusal, RefusalCode};
use crate::scanner::lexeme_at;
use crate::token::{Kind, Token};
use awk_value::Bytes;
use std::alloc::Global;

/// The most bytes of a program text.
pub const LIMIT: usize = 1_048_576;

/// Whether a token is a newline.
fn is_newline(kind: &Kind) -> bool
    ensures { result ≡ is_newline kind.now }
{
    matches!(kind, Kind::Newline)
}

/// Whether a slash behind a token divides. Behind any other it opens an ERE.
fn divides_after(kind: &Kind) -> bool
    ensures { result ≡ divides_after kind.now }
{
    matches!(
        kind,
        Kind::Number(_)
            | Kind::String(_)
            | Kind::Ere(_)
            | Kind::Name(_)
            | Kind::BuiltIn(_)
            | Kind::Increment(_)
            | Kind::CloseBracket
            | Kind::CloseParenthesis
    )
}

/// The tokens of a text that isn't too long.
fn read_tokens(alloc: Global, text: &[u8]) -> Result<Vec<Token>, Refusal>
    requires { length text.now ≤ LIMIT }
    ensures whole { IfOk result (λ tokens. AreTokens text.now tokens.items) }
    ensures fault { IfErr result (λ refusal. IsOutOfMemory refusal ⊎ FaultStands text.now refusal) }
{
    let shared = Bytes::from_slice(alloc, text)?;
    let mut tokens = Vec::new(alloc);
    let mut at = 0;
    let mut line = 1;
    let mut divides = false;
    while at < text.len() {
        match lexeme_at(alloc, &shared, at, divides)? {
            Lexeme::Gap(len) => {
                let hidden = u64::from(text[at] == b'\\');
                line += hidden;
                at += len;
            }
            Lexeme::Token(kind, len) => {
                divides = divides_after(&kind);
                let newlines = u64::from(is_newline(&kind));
                let end = at + len;
                tokens.push(Token {
                    kind,
                    line,
                    start: at,
                    end,
                })?;
                line += newlines;
                at = end;
            }
            Lexeme::Fault(code) => return Err(Refusal { code, line }),
        }
    }
    Ok(tokens)
}

/// The tokens of a program text, each the longest at its place, with gaps between them.
///
/// A slash divides behind a name, a number, a string, an ERE, `)`, `]`, `++`, `--` and a built-in function's name, and
/// opens an ERE behind any other token and at the start (POSIX awk, Lexical Conventions). The refusals are
/// `ProgramTooLong` above `LIMIT` bytes, and else that of the leftmost place where the text goes on as no gap and no
/// token, with its line; or `OutOfMemory` at any time.
pub fn tokens(alloc: Global, text: &[u8]) -> Result<Vec<Token>, Refusal>
    ensures found { IfOk result (λ tokens. Lexes (kinds_of tokens.items) text.now) }
    ensures short { OnOk result (length text.now ≤ LIMIT) }

    // Each token has a stretch of the text, in turn, with nothing but gaps between, and stands there on its line.
    ensures in_turn { IfOk result (λ tokens. InTurn text.now 0 tokens.items (length text.now)) }
    ensures within { IfOk result (λ tokens.
        All (λ token. (token.start ≤ token.end) × (token.end ≤ length text.now)) tokens.items) }
    ensures placed { IfOk result (λ tokens. All (StandsAt text.now) tokens.items) }

    // Tokens that the text has are found, unless memory runs out.
    ensures only { (ts : _) → Lexes ts text.now → length text.now ≤ LIMIT → GivesOnly result ts }

    // What is refused is too long or breaks at its leftmost fault, unless memory runs out, and the other way round.
    ensures refused { IfErr result (λ refusal. IsOutOfMemory refusal ⊎ Refuses refusal.code text.now) }
    ensures broken { (code : _) → Refuses code text.now → RefusesOnly result code }

    // A refusal's line is that of the fault, and the first one where the text is too long.
    ensures fault_line { length text.now ≤ LIMIT →
        IfErr result (λ refusal. IsOutOfMemory refusal ⊎ FaultStands text.now refusal) }
    ensures first_line { LIMIT < length text.now → IfErr result (λ refusal. refusal.line ≡ 1) }
{
    if text.len() > LIMIT {
        return Err(Refusal {
            code: RefusalCode::ProgramTooLong,
            line: 1,
        });
    }
    read_tokens(alloc, text)
}

/// A text has at most one list of tokens.
pub fn one_lexing()
    ensures { (ts us : _) (text : List ℕ) → Lexes ts text → Lexes us text → ts ≡ us }
{}
