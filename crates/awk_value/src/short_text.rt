// Texts that are kept in place, with no block of memory of their own.

ghost use Rattle.std.specs.Prelude.{◌≡◌, ◌+◌, ◌<◌, ◌≤◌, length, take, IfSome, IfNone};
ghost use Rattle.awk_value.specs.support.Texts.{short_text, IsPadded, word_at, half_at};

/// How many bytes a short text has at most.
const ROOM: usize = 23;

/// A text of at most 23 bytes, in three words: its bytes, zeros behind them, and in the last byte how
/// many they are.
#[derive(Clone, Copy, PartialEq, Eq, Hash)]
pub(crate) struct ShortText {
    pub(crate) first: u64,
    pub(crate) second: u64,
    pub(crate) third: u64,
}

/// The eight bytes from a place on, as a word.
#[inline(always)]
fn word(bytes: &[u8], at: usize) -> u64
    requires { at + 8 ≤ length bytes.now }
    ensures { result ≡ word_at bytes.now at }
{
    let mut eight = [0; 8];
    eight.copy_from_slice(&bytes[at..at + 8]);
    u64::from_le_bytes(eight)
}

/// The bytes from a place that a multiple of eight is on, of which there are fewer than eight, as a word: those of the last eight bytes
/// that stand there.
#[inline(always)]
fn rest(bytes: &[u8], at: usize) -> u64
    requires long { 8 ≤ length bytes.now }
    requires within { at ≤ length bytes.now }
    requires few { length bytes.now < at + 8 }
    ensures { result ≡ word_at bytes.now at }
{
    let missing = 7 - (bytes.len() - at);
    word(bytes, bytes.len() - 8) >> (8 * missing) >> 8
}

/// Fewer than eight bytes as a word.
#[inline(always)]
fn few(bytes: &[u8]) -> u64
    requires { length bytes.now < 8 }
    ensures { result ≡ word_at bytes.now 0 }
{
    let len = bytes.len();
    if len >= 4 {
        let front = half(bytes, 0);
        let back = half(bytes, len - 4) >> (8 * (8 - len));
        return front | back << 32;
    }
    match len {
        0 => 0,
        1 => bytes[0] as u64,
        2 => bytes[0] as u64 | (bytes[1] as u64) << 8,
        _ => bytes[0] as u64 | (bytes[1] as u64) << 8 | (bytes[2] as u64) << 16,
    }
}

/// The four bytes from a place on, as a word.
#[inline(always)]
fn half(bytes: &[u8], at: usize) -> u64
    requires { at + 4 ≤ length bytes.now }
    ensures { result ≡ half_at bytes.now at }
{
    let mut four = [0; 4];
    four.copy_from_slice(&bytes[at..at + 4]);
    u32::from_le_bytes(four) as u64
}

impl ShortText {
    /// The text, if it is short.
    #[inline(always)]
    pub(crate) fn new(text: &[u8]) -> Option<ShortText>
        ensures text { IfSome result (λ short. text.now ≡ short_text short) }
        ensures padded { IfSome result IsPadded }
        ensures long { IfNone result (23 < length text.now) }
    {
        if text.len() > ROOM {
            return None;
        }
        let len = (text.len() as u64) << 56;
        if text.len() < 8 {
            return Some(ShortText {
                first: few(text),
                second: 0,
                third: len,
            });
        }
        let first = word(text, 0);
        if text.len() < 16 {
            return Some(ShortText {
                first,
                second: rest(text, 8),
                third: len,
            });
        }
        Some(ShortText {
            first,
            second: word(text, 8),
            third: rest(text, 16) | len,
        })
    }

    /// The bytes, and how many of them are the text's.
    pub(crate) fn bytes(&self) -> ([u8; 24], usize)
        ensures text { take result.1 result.0 ≡ short_text self.now }
        ensures few { result.1 ≤ 23 }
    {
        let mut bytes = [0; 24];
        bytes[..8].copy_from_slice(&self.first.to_le_bytes());
        bytes[8..16].copy_from_slice(&self.second.to_le_bytes());
        bytes[16..].copy_from_slice(&self.third.to_le_bytes());
        let len = ROOM.min(bytes[ROOM] as usize);
        (bytes, len)
    }
}
