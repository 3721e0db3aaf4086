// Reads all tokens of a program.

ghost use Rattle.std.specs.Prelude.{◌≡◌, IfErr};
ghost use Rattle.awk_grammar.specs.definitions.Height.{max_height};
ghost use Rattle.awk_grammar.specs.support.Parser as parser;
ghost use Rattle.awk_lex.specs.Told.{kinds_of};
ghost use Rattle.awk_syntax.specs.support.Answered.{Gives};
ghost use Rattle.awk_syntax.specs.support.Stopped.{Stops, last_line};

use crate::parser::{finish, step};
use awk_frames::checked_statements::CheckedItems;
use awk_frames::frame::Frame;
use awk_frames::stack::push;
use awk_frames::state::{ItemState, NextToken, ParserState};
use awk_grammar::tree::Tree;
use awk_lex::refusal::{Refusal, RefusalCode};
use awk_lex::token::Token;
use std::alloc::Global;

/// The tree that the tokens spell (POSIX awk, Grammar).
///
/// An S1 names the line of the first token that can't stand where it stands, or of the last token
/// where the text ended too early; an S2 names line 1. The time is linear in the number of tokens,
/// and no nesting of the text is a nesting of calls.
pub fn read(alloc: Global, tokens: &[Token]) -> Result<Tree, Refusal>
    ensures answered { Gives result (parser.read max_height (kinds_of tokens.now)) }
    // An S1 stands where the parser over lists stops.
    ensures stopped { IfErr result (λ refusal. Stops refusal.code refusal.line tokens.now) }
{
    let mut stack = Vec::new(alloc);
    push(&mut stack, Frame::Program(Some(CheckedItems::new(alloc))))?;
    let mut state = ParserState::Item(ItemState::BetweenItems);
    for token in tokens {
        let next = NextToken { kind: &token.kind };
        let Some(then) = step(alloc, state, next, &mut stack)? else {
            return Err(Refusal {
                code: RefusalCode::NotAProgram,
                line: token.line,
            });
        };
        state = then;
    }
    match finish(alloc, state, &mut stack)? {
        Some(Some(checked)) => Ok(Tree {
            items: checked.items,
        }),
        Some(None) => Err(Refusal {
            code: RefusalCode::NestedTooDeep,
            line: 1,
        }),
        None => Err(Refusal {
            code: RefusalCode::NotAProgram,
            line: last_line(tokens),
        }),
    }
}

/// The line of the last token, or 1 if there is none.
fn last_line(tokens: &[Token]) -> u64
    ensures { result ≡ last_line tokens.now }
{
    match tokens.last() {
        Some(token) => token.line,
        None => 1,
    }
}
