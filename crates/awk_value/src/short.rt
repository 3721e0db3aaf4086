// Texts of a few bytes, which take no memory.

ghost use Rattle.std.specs.Prelude.{◌≡◌, ℕ, ◌≤◌, ◌<◌, if◌then◌else◌, List, [], ◌+◌, ◌++◌, length, take, drop, OnOk, OnErr};

use std::alloc::AllocError;
use std::marker::Model;

/// The most bytes of a short text.
pub(crate) const MOST: usize = 16;

/// A text of at most 16 bytes.
#[derive(Debug, Drop)]
pub(crate) struct ShortBytes {
    len: u32,
    bytes: [u8; MOST],
}

impl Model for ShortBytes {
    ghost Value = { List ℕ };

    ghost view = { λ b. take b.len b.bytes };

    ghost invariant = { λ b. b.len ≤ 16 };
}

impl ShortBytes {
    /// The empty text.
    #[inline(always)]
    pub(crate) fn empty() -> ShortBytes
        ensures { result ≡ [] }
    {
        ShortBytes {
            len: 0,
            bytes: [0; MOST],
        }
    }

    /// The text of a copy of these bytes.
    #[inline(always)]
    pub(crate) fn new(bytes: &[u8]) -> ShortBytes
        requires { length bytes.now ≤ MOST }
        ensures { result ≡ bytes.now }
    {
        let mut room = [0; MOST];
        room[..bytes.len()].copy_from_slice(bytes);
        ShortBytes {
            len: bytes.len() as u32,
            bytes: room,
        }
    }

    /// The text of a part of this memory. The copy has a fixed size where there is memory behind.
    #[inline(always)]
    pub(crate) fn cut(memory: &[u8], from: usize, to: usize) -> ShortBytes
        requires ordered { from ≤ to }
        requires within { to ≤ length memory.now }
        requires few { to ≤ from + MOST }
        ensures { result ≡ drop from (take to memory.now) }
    {
        if memory.len() - from < MOST {
            return ShortBytes::new(&memory[from..to]);
        }
        let mut room = [0; MOST];
        room.copy_from_slice(&memory[from..from + MOST]);
        ShortBytes {
            len: (to - from) as u32,
            bytes: room,
        }
    }

    /// Makes it the text of a part of this memory, where it stands.
    #[inline(always)]
    pub(crate) fn take_part(&mut self, memory: &[u8], from: usize, to: usize)
        requires ordered { from ≤ to }
        requires within { to ≤ length memory.now }
        requires few { to ≤ from + MOST }
        ensures { self.new ≡ drop from (take to memory.now) }
    {
        if memory.len() - from < MOST {
            *self = ShortBytes::new(&memory[from..to]);
            return;
        }
        self.bytes.copy_from_slice(&memory[from..from + MOST]);
        self.len = (to - from) as u32;
    }

    /// A copy of the text.
    #[inline(always)]
    pub(crate) fn copy(&self) -> ShortBytes
        ensures { result ≡ self.now }
    {
        ShortBytes {
            len: self.len,
            bytes: self.bytes,
        }
    }

    /// The bytes.
    #[inline(always)]
    pub(crate) fn as_slice(&self) -> &[u8]
        ensures bytes { result.now ≡ self.now }
        ensures few { length self.now ≤ MOST }
    {
        &self.bytes[..self.len as usize]
    }

    /// The number of bytes.
    #[inline(always)]
    pub(crate) fn len(&self) -> usize
        ensures { result ≡ length self.now }
    {
        let _bytes = self.as_slice();
        self.len as usize
    }

    /// Appends the bytes to the buffer, by a copy of a fixed size where it has room for one. Fails
    /// only where memory is refused, and then leaves the buffer's bytes as they were.
    #[inline(always)]
    pub(crate) fn append_to(&self, buffer: &mut Vec<u8>) -> Result<(), AllocError>
        ensures bytes { OnOk result (buffer.new.items ≡ buffer.old.items ++ self.now) }
        ensures unchanged { OnErr result (buffer.new.items ≡ buffer.old.items) }
    {
        let text = self.as_slice();
        if buffer.capacity() - buffer.len() < MOST {
            return buffer.extend_from_slice(text);
        }
        let end = buffer.len() + text.len();
        buffer.extend_from_slice(&self.bytes)?;
        buffer.truncate(end);
        Ok(())
    }

    /// Appends the bytes to a line that may grow up to this length in its memory, by a copy of a fixed
    /// size where it has room for one: whether they have room there.
    #[inline(always)]
    pub(crate) fn put_within(&self, line: &mut Vec<u8>, end: usize) -> bool
        ensures { line.new.items ≡ (if result then line.old.items ++ self.now else line.old.items) }
    {
        let text = self.as_slice();
        let start = line.len();
        let most = end.min(line.capacity());
        if text.len() > most.saturating_sub(start) {
            return false;
        }
        if line.capacity() - start < MOST {
            return line.extend_from_slice(text).is_ok();
        }
        if line.extend_from_slice(&self.bytes).is_err() {
            return false;
        }
        line.truncate(start + text.len());
        true
    }

    /// Appends a copy of these bytes where there is room for them: whether there is.
    #[inline]
    pub(crate) fn try_extend(&mut self, bytes: &[u8]) -> bool
        ensures { self.new ≡ (if result then self.old ++ bytes.now else self.old) }
    {
        let from = self.len as usize;
        if bytes.len() > MOST - from {
            return false;
        }
        let to = from + bytes.len();
        self.bytes[from..to].copy_from_slice(bytes);
        self.len = to as u32;
        true
    }
}
