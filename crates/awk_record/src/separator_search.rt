// Where in the bytes at hand a separator stands first. A search is resumed: it goes on where the last one, over fewer
// bytes, found none, so that each byte is looked at once however small the pieces are that come, and at the pieces' seams
// only those once more with which the separator could begin.
ghost use Rattle.std.specs.Prelude.{◌≡◌, ◌↔◌, ◌+◌, ◌<◌, ◌≤◌, ℕ, false, List, ◌∷◌, [], length, drop, IfSome, OnOk, OnErr};
ghost use Rattle.awk_record.specs.definitions.Cut.{first_at, newlines};
ghost use Rattle.awk_record.specs.support.Boundary.{IsKnown, AreNewlines, HasNoWord, nothing_known};

use memchr::{memchr, memmem};
use std::alloc::{AllocError, Global};

/// How far a search that found no separator has come.
#[derive(Clone, Copy)]
pub struct Progress {
    /// How many newlines stand in front, where it was for a blank line behind these.
    pub skipped: usize,
    /// Among how many bytes no separator stands.
    pub searched: usize,
}

impl Progress {
    /// No byte was searched yet.
    const NONE: Progress = Progress {
        skipped: 0,
        searched: 0,
    };
}

/// What is known of the bytes at hand from a search that found no separator.
#[derive(Drop)]
pub struct ResumedSearch {
    /// What was looked for; nothing, where that was a blank line.
    pub separator: Vec<u8>,
    pub progress: Progress,
}

impl ResumedSearch {
    /// No byte was searched yet. Takes no memory.
    pub fn new(alloc: Global) -> ResumedSearch
        ensures { result.progress ≡ nothing_known }
    {
        ResumedSearch {
            separator: Vec::new(alloc),
            progress: Progress::NONE,
        }
    }

    /// Whether a search has come past some bytes.
    #[inline(always)]
    pub(crate) fn is_begun(&self) -> bool
        ensures { (result ≡ false) ↔ (self.now.progress ≡ nothing_known) }
    {
        self.progress.searched > 0 || self.progress.skipped > 0
    }

    /// How far the search for this separator has come: as far as this one, or it has still to begin.
    pub(crate) fn progress_for(&self, separator: &[u8]) -> Progress
        ensures known { (bytes : List ℕ) →
            IsKnown self.now.separator.items self.now.progress bytes → IsKnown separator.now result bytes }
        ensures skipped { result.skipped ≤ self.now.progress.skipped }
        ensures searched { result.searched ≤ self.now.progress.searched }
        ensures resumed { separator.now ≡ self.now.separator.items → result ≡ self.now.progress }
    {
        if self.separator.as_slice() == separator {
            self.progress
        } else {
            Progress::NONE
        }
    }

    /// Keeps how far the search for this separator has come. After an `Err` nothing is known.
    pub fn keep(&mut self, separator: &[u8], progress: Progress) -> Result<(), AllocError>
        ensures separator { OnOk result (self.new.separator.items ≡ separator.now) }
        ensures progress { OnOk result (self.new.progress ≡ progress) }
        ensures err { OnErr result (self.new.progress ≡ nothing_known) }
    {
        if self.separator.as_slice() != separator {
            self.forget();
            self.separator.clear();
            self.separator.extend_from_slice(separator)?;
        }
        self.progress = progress;
        Ok(())
    }

    /// Nothing is known any longer.
    pub fn forget(&mut self)
        ensures progress { self.new.progress ≡ nothing_known }
        ensures separator { self.new.separator ≡ self.old.separator }
    {
        self.progress = Progress::NONE;
    }
}

// The first place of a byte that doesn't stand among the first `searched` bytes.
fn first_byte(byte: u8, bytes: &[u8], searched: usize) -> Option<usize>
    requires within { searched ≤ length bytes.now }
    requires none { HasNoWord (byte ∷ []) 0 searched bytes.now }
    ensures place { result ≡ first_at (byte ∷ []) bytes.now }
    ensures fits { IfSome result (λ i. i + 1 ≤ length bytes.now) }
{
    let i = memchr(byte, &bytes[searched..])?;
    Some(searched + i)
}

/// The first place of a word behind the first `front` bytes, counted from there. It doesn't stand among the first
/// `searched` bytes, of which those are looked at once more with which it could begin.
pub(crate) fn first_word(word: &[u8], bytes: &[u8], front: usize, searched: usize) -> Option<usize>
    requires some { 0 < length word.now }
    requires front { front ≤ length bytes.now }
    requires within { searched ≤ length bytes.now }
    requires none { HasNoWord word.now front searched bytes.now }
    ensures place { result ≡ first_at word.now (drop front bytes.now) }
    ensures fits { IfSome result (λ i. front + i + length word.now ≤ length bytes.now) }
{
    let from = front.max(searched.saturating_sub(word.len() - 1));
    let i = memmem::find(&bytes[from..], word)?;
    Some(from - front + i)
}

/// The first place of a separator of one or more bytes, which doesn't stand among the first `searched` bytes.
pub(crate) fn first_separator(separator: &[u8], bytes: &[u8], searched: usize) -> Option<usize>
    requires some { 0 < length separator.now }
    requires within { searched ≤ length bytes.now }
    requires none { HasNoWord separator.now 0 searched bytes.now }
    ensures place { result ≡ first_at separator.now bytes.now }
    ensures fits { IfSome result (λ i. i + length separator.now ≤ length bytes.now) }
{
    match separator {
        [byte] => first_byte(*byte, bytes, searched),
        _ => first_word(separator, bytes, 0, searched),
    }
}

/// How many newlines stand in front, where so many are known.
pub(crate) fn leading_newlines(bytes: &[u8], known: usize) -> usize
    requires within { known ≤ length bytes.now }
    requires known { AreNewlines known bytes.now }
    ensures value { result ≡ newlines bytes.now }
    ensures within { result ≤ length bytes.now }
    ensures more { known ≤ result }
{
    for i in known..bytes.len() {
        if bytes[i] != b'\n' {
            return i;
        }
    }
    bytes.len()
}
