// The patterns of a program.

ghost use Rattle.std.specs.Prelude.{◌≡◌, ◌⊎◌, OnOk, IfErr};
ghost use Rattle.awk_ere.specs.Tree.{Tree};
ghost use Rattle.awk_ere.specs.Limits.{SpellsWithin};
ghost use Rattle.awk_lex.specs.Told.{kinds_of};
ghost use Rattle.awk_lex.specs.Refused.{IsOutOfMemory};
ghost use Rattle.awk_syntax.specs.definitions.Patterns.{AreReadable, PatternFails, IsLeftmostRefused};

use awk_ere::fault::PatternFault;
use awk_ere::pattern::Pattern;
use awk_lex::refusal::{Refusal, RefusalCode};
use awk_lex::token::{Kind, Token};
use std::alloc::{AllocError, Global};

/// Whether the text of an ERE that begins on this line is a pattern within the limits.
fn check_pattern(alloc: Global, text: &[u8], line: u64) -> Result<(), Refusal>
    ensures readable { OnOk result ((pattern : Tree) × SpellsWithin pattern text.now) }
    ensures refused { IfErr result (λ refusal. IsOutOfMemory refusal
        ⊎ (PatternFails refusal.code text.now × (refusal.line ≡ line))) }
{
    let code = match Pattern::read(alloc, text) {
        Ok(_) => return Ok(()),
        Err(PatternFault::Memory) => return Err(Refusal::from(AllocError)),
        Err(PatternFault::IllFormed) => RefusalCode::PatternIllFormed,
        Err(PatternFault::BadCount) => RefusalCode::PatternCountRefused,
        Err(PatternFault::TooLarge) => RefusalCode::PatternTooLarge,
    };
    Err(Refusal { code, line })
}

/// Whether each ERE is a pattern within the limits. The refusal is that of the leftmost that isn't.
pub(crate) fn check_patterns(alloc: Global, tokens: &[Token]) -> Result<(), Refusal>
    ensures readable { OnOk result (AreReadable (kinds_of tokens.now)) }
    ensures refused { IfErr result (λ refusal. IsOutOfMemory refusal
        ⊎ IsLeftmostRefused refusal.code refusal.line tokens.now) }
{
    for token in tokens {
        if let Kind::Ere(text) = &token.kind {
            check_pattern(alloc, text.as_slice(), token.line)?;
        }
    }
    Ok(())
}
