// The bytes of the main input that are at hand: they were read, and not yet taken. Nothing is asked of a world for them.
ghost use Rattle.std.specs.Prelude.{◌≡◌, ◌≤◌, ◌<◌, ℕ, List, [], ◌∷◌, length, take, Some, Ok, is_some, IsTrue, IfSome, IfNone};
ghost use Rattle.std.specs.List.{All};
ghost use Rattle.awk_record.specs.Cut.{longest};
ghost use Rattle.awk_world.specs.definitions.WorldState.{WorldState};
ghost use Rattle.awk_streams.specs.definitions.Streams.{AreOpen, AreSound, IsSameMain};
ghost use Rattle.awk_streams.specs.definitions.MainInput.{AsksMain, IsLineOf, lines_of, TakesEach, main_bytes, skipped_main};

use super::Streams;
use awk_value::Bytes;

impl Streams {
    /// The next record of the main input by a separator of one byte, where it is at hand: what
    /// `next_main` gives. `None` where it isn't, or none is open, and then nothing changes. (POSIX awk,
    /// INPUT FILES; RS)
    #[inline(always)]
    pub fn main_record_at_hand(&mut self, separator: u8) -> Option<Bytes>
        ensures none { IfNone result (self.new ≡ self.old) }
        ensures main { IfSome result (λ first. IsTrue (is_some self.old.main)) }
        ensures same { IsSameMain self.old.main self.new.main }
        ensures open { (world : WorldState) → AreOpen world self.old → AreOpen world self.new }
        ensures sound { (world : WorldState) → AreSound world self.old → AreSound world self.new }
        ensures told { IfSome result (λ first. (world : WorldState) → AreOpen world self.old → AreSound world self.old →
            AsksMain (separator ∷ []) world self.old (Ok (Some first)) world self.new) }
    {
        if let Some(input) = &mut self.main {
            return input.pending.record_at_hand(separator);
        }
        None
    }

    /// The bytes of the main input that are at hand, where it is open, none of them was searched for a
    /// separator in vain, and they are fewer than a record may have.
    #[inline(always)]
    pub fn main_unsearched(&self) -> Option<&[u8]>
        ensures main { IfSome result (λ held. IsTrue (is_some self.now.main)) }
        ensures bytes { IfSome result (λ held. held.now ≡ main_bytes self.now.main) }
        ensures short { IfSome result (λ held. length held.now < longest) }
    {
        match &self.main {
            Some(input) => input.pending.unsearched(),
            None => None,
        }
    }

    /// Takes so many bytes of the main input. Where they are whole records by a separator of one byte,
    /// that is as often `main_record_at_hand` of it. (POSIX awk, INPUT FILES; RS)
    #[inline(always)]
    pub fn skip_main(&mut self, count: usize)
        requires { count ≤ length (main_bytes self.old.main) }
        ensures skipped { self.new ≡ record self.old { main = skipped_main count self.old.main } }
        ensures open { (world : WorldState) → AreOpen world self.old → AreOpen world self.new }
        ensures sound { (world : WorldState) → AreSound world self.old → AreSound world self.new }
        ensures told { (separator : ℕ) (lines : List (List ℕ)) → IsTrue (is_some self.old.main) →
            take count (main_bytes self.old.main) ≡ lines_of separator lines → All (IsLineOf separator) lines →
            (world : WorldState) → AreOpen world self.old → AreSound world self.old →
            TakesEach (separator ∷ []) lines world self.old self.new }
    {
        if let Some(input) = &mut self.main {
            input.pending.skip(count);
        }
    }
}
