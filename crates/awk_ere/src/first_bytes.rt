// The bytes with which a match may begin behind the text's start.

ghost use Rattle.std.specs.Prelude.{◌≡◌, ℕ, ◌≤◌, ◌<◌, true, false, length, slice_index, IfSome};
ghost use Rattle.awk_ere.specs.support.Table.{Serves, is_first};

use crate::dfa::table::DEAD;
use crate::pattern::Pattern;
use crate::scratch::Scratch;
use memchr::{memchr, memchr2, memchr3};

// After so many searches of long texts the first bytes are learned.
const LEARNED: u32 = 64;

/// Bytes, where they are few.
#[derive(Clone, Copy)]
pub(crate) enum FirstBytes {
    /// Each byte may be one.
    Any,
    /// No byte is one.
    Never,
    One(u8),
    Two(u8, u8),
    Three(u8, u8, u8),
}

impl FirstBytes {
    // These bytes and one more.
    fn with(self, byte: u8) -> FirstBytes
        ensures same { (x : ℕ) → is_first result x ≡ false → is_first self x ≡ false }
        ensures more { is_first result byte ≡ true }
    {
        match self {
            FirstBytes::Never => FirstBytes::One(byte),
            FirstBytes::One(a) => FirstBytes::Two(a, byte),
            FirstBytes::Two(a, b) => FirstBytes::Three(a, b, byte),
            FirstBytes::Three(..) | FirstBytes::Any => FirstBytes::Any,
        }
    }

    /// The first place of a text where one of them stands, or its end. Nothing is answered where each byte may be one.
    #[inline]
    pub(crate) fn find(self, text: &[u8]) -> Option<usize>
        ensures within { IfSome result (λ place. place ≤ length text.now) }
        ensures none { IfSome result (λ place. (k : ℕ) → k < place → is_first self (slice_index text.now k) ≡ false) }
    {
        let found = match self {
            FirstBytes::Any => return None,
            FirstBytes::Never => None,
            FirstBytes::One(a) => memchr(a, text),
            FirstBytes::Two(a, b) => memchr2(a, b, text),
            FirstBytes::Three(a, b, c) => memchr3(a, b, c, text),
        };
        Some(found.unwrap_or(text.len()))
    }
}

impl Pattern {
    /// Learns the bytes with which a match may begin behind the text's start.
    #[cold]
    #[inline(never)]
    pub(crate) fn learn_first_bytes(&self, scratch: &mut Scratch)
        requires same { Serves scratch.old self.now }
        ensures same { Serves scratch.new self.now }
    {
        let mut first = FirstBytes::Never;
        for byte in 0..=255 {
            if self.entry(scratch, DEAD, true, byte) != DEAD {
                first = first.with(byte);
                if let FirstBytes::Any = first {
                    return;
                }
            }
        }
        scratch.first_bytes = first;
    }

    /// Counts a search of a long text. After some of them it is worth to know the first bytes.
    #[inline]
    pub(crate) fn count_search(&self, scratch: &mut Scratch)
        requires same { Serves scratch.old self.now }
        ensures same { Serves scratch.new self.now }
    {
        if scratch.searches < LEARNED {
            scratch.searches += 1;
            if scratch.searches == LEARNED {
                self.learn_first_bytes(scratch);
            }
        }
    }
}
