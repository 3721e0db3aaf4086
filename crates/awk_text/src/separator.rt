// What separates the fields of a text.
ghost use Rattle.std.specs.Prelude.{◌≡◌, ◌≢◌, IfOk, IfErr, Err};
ghost use Rattle.awk_text.specs.definitions.Separators.{separator_of, IsMadeFor};

use crate::TextFault;
use awk_ere::Pattern;
use awk_ere::laws::read_law;
use std::alloc::Global;

/// What separates the fields of a text, the rule on newlines aside.
#[derive(Drop)]
pub enum Separator {
    /// Runs of spaces, tabs and newlines; those in front and behind are ignored.
    Blanks,
    /// Each place of this byte.
    Byte(u8),
    /// Nothing: each byte is a field.
    Each,
    /// The matches of this pattern that have a byte in them.
    Ere(Pattern),
}

impl Separator {
    /// The separator that a value of FS stands for: blanks for a single space, any other single byte for itself, the empty
    /// text for each byte as a field, and a longer text for the ERE that it spells. One that spells none is refused by
    /// `Pattern`. The other error is `Memory`. (POSIX awk, Regular Expressions)
    pub fn of(alloc: Global, text: &[u8]) -> Result<Separator, TextFault>
        ensures separator { IfOk result (IsMadeFor (separator_of text.now)) }
        ensures refused { IfErr result (λ e. e ≢ TextFault.Memory → separator_of text.now ≡ Err e) }
    {
        read_law();
        match text {
            [] => Ok(Separator::Each),
            [b' '] => Ok(Separator::Blanks),
            [byte] => Ok(Separator::Byte(*byte)),
            _ => Ok(Separator::Ere(Pattern::read(alloc, text)?)),
        }
    }
}
