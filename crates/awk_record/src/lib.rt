//! Records: how an input is cut into them, and the record at hand with its fields.
//!
//! - `RecordBuffer`: the bytes of an input that aren't taken yet: `feed`, `end` and `broken` hand in what is read, and `next`
//!   answers a record, that it needs more, or the end (`Step`); its faults are `BufferFault`s.
//! - `Record`: a text with its complete fields, which are found as far as they are asked: `set_text`, `text`, `count`,
//!   `field`, `set_field`, `set_count`; its faults are `RecordFault`s.
//! - `decided_law`, `line_law`, `literal_law`, `paragraph_law`: what the cut of an input is, in words.
#![tactic(auto)]

mod assigned;
mod boundary;
mod buffer;
mod buffer_fault;
mod fields;
mod lanes;
mod record;
mod record_fault;
mod separator_search;

ghost use Rattle.std.specs.Prelude.{◌≡◌, ◌≢◌, ◌↔◌, ℕ, ◌+◌, ◌<◌, ◌≤◌, List, [], ◌∷◌, ◌++◌, length};
ghost use Rattle.std.specs.List.{All};
ghost use Rattle.awk_record.specs.definitions.Cut.{Ending, AtEnd, AtBreak, Found, NoMore, BrokenOff, longest, cut_of, IsDecided};
ghost use Rattle.awk_record.specs.definitions.Literal.{StandsAt};
ghost use Rattle.awk_record.specs.definitions.Paragraph.{AreNewline, IsParagraph};

pub use buffer::{RecordBuffer, Step};
pub use buffer_fault::BufferFault;
pub use record::Record;
pub use record_fault::RecordFault;

/// Bytes decide the first record exactly where their cut would find one, or
/// refuse it, even if the input broke behind them.
pub fn decided_law()
    ensures { (separator bytes : List ℕ) →
        IsDecided separator bytes ↔ (cut_of separator bytes AtBreak ≢ BrokenOff) }
{}

/// Where the separator is one byte, a record goes up to its first place. The
/// bytes behind the last separator are a record, unless the input broke.
pub fn line_law()
    ensures line { (c : ℕ) (first rest : List ℕ) (ending : Ending) →
        All (λ b. b ≢ c) first → length first < longest →
        cut_of (c ∷ []) (first ++ c ∷ rest) ending ≡ Found first rest }
    ensures last { (c : ℕ) (bytes : List ℕ) →
        All (λ b. b ≢ c) bytes → bytes ≢ [] → length bytes ≤ longest →
        cut_of (c ∷ []) bytes AtEnd ≡ Found bytes [] }
    ensures broken { (c : ℕ) (bytes : List ℕ) →
        All (λ b. b ≢ c) bytes → length bytes ≤ longest →
        cut_of (c ∷ []) bytes AtBreak ≡ BrokenOff }
{}

/// Where the separator has one or more bytes, a record goes up to the first place where it stands, and the bytes behind it are
/// left. Those behind the last separator are a record, unless the input broke.
pub fn literal_law()
    ensures literal { (separator first rest : List ℕ) (ending : Ending) → separator ≢ [] →
        ((k : ℕ) → k < length first → StandsAt k separator (first ++ (separator ++ rest)) → ⊥) →
        length first + length separator ≤ longest →
        cut_of separator (first ++ (separator ++ rest)) ending ≡ Found first rest }
    ensures last { (separator bytes : List ℕ) → separator ≢ [] → ((k : ℕ) → StandsAt k separator bytes → ⊥) →
        bytes ≢ [] → length bytes ≤ longest →
        cut_of separator bytes AtEnd ≡ Found bytes [] }
    ensures broken { (separator bytes : List ℕ) → separator ≢ [] → ((k : ℕ) → StandsAt k separator bytes → ⊥) →
        length bytes ≤ longest →
        cut_of separator bytes AtBreak ≡ BrokenOff }
{}

/// Where the separator is empty, newlines in front are skipped, and a paragraph goes up to the first two newlines in a row.
/// The bytes behind the last of these are a paragraph, without one newline at their end, unless there are none or the input
/// broke.
pub fn paragraph_law()
    ensures paragraph { (gap first rest : List ℕ) (ending : Ending) →
        AreNewline gap → IsParagraph first → length gap + (length first + 2) ≤ longest →
        cut_of [] (gap ++ (first ++ 10 ∷ 10 ∷ rest)) ending ≡ Found first rest }
    ensures last { (gap first : List ℕ) →
        AreNewline gap → IsParagraph first → length gap + length first ≤ longest →
        cut_of [] (gap ++ first) AtEnd ≡ Found first [] }
    ensures ended { (gap first : List ℕ) →
        AreNewline gap → IsParagraph first → length gap + (length first + 1) ≤ longest →
        cut_of [] (gap ++ (first ++ 10 ∷ [])) AtEnd ≡ Found first [] }
    ensures none { (gap : List ℕ) → AreNewline gap → length gap ≤ longest →
        cut_of [] gap AtEnd ≡ NoMore }
    ensures broken { (gap first : List ℕ) →
        AreNewline gap → IsParagraph first → length gap + length first ≤ longest →
        cut_of [] (gap ++ first) AtBreak ≡ BrokenOff }
{}
