// Texts of some bytes, in one piece of memory with the count of their owners.

ghost use Rattle.std.specs.Prelude.{◌≡◌, ◌≤◌, if◌then◌else◌, true, false, ◌++◌, length, take, drop, IfOk};

use std::alloc::{AllocError, Global};
use std::marker::Model;
use std::rc::Rc;

/// The most bytes of a packed text.
pub(crate) const ROOM: usize = 40;

/// A text of at most 40 bytes. Its clones and parts share its memory; none of them ever sees another change.
#[derive(Debug, Drop)]
pub(crate) struct PackedBytes {
    memory: Rc<[u8; ROOM]>,
    start: u32,
    end: u32,
}

impl Model for PackedBytes {
    ghost use Rattle.std.specs.Prelude.{◌≡◌, List, ℕ, ◌≤◌, length, take, drop};

    ghost Value = { List ℕ };

    ghost view = { λ p. drop p.start (take p.end p.memory.value) };

    ghost invariant = { λ p. (p.start ≤ p.end) × (p.end ≤ 40) × (length p.memory.value ≡ 40) };
}

impl PackedBytes {
    /// The text of a copy of these bytes. Fails only where memory is refused.
    #[inline]
    pub(crate) fn new(alloc: Global, bytes: &[u8]) -> Result<PackedBytes, AllocError>
        requires { length bytes.now ≤ ROOM }
        ensures { IfOk result (λ text. text ≡ bytes.now) }
    {
        let mut room = [0; ROOM];
        room[..bytes.len()].copy_from_slice(bytes);
        Ok(PackedBytes {
            memory: Rc::new(alloc, room)?,
            start: 0,
            end: bytes.len() as u32,
        })
    }

    /// The bytes.
    #[inline(always)]
    pub(crate) fn as_slice(&self) -> &[u8]
        ensures bytes { result.now ≡ self.now }
        ensures few { length self.now ≤ ROOM }
    {
        &self.memory[self.start as usize..self.end as usize]
    }

    /// The number of bytes.
    #[inline(always)]
    pub(crate) fn len(&self) -> usize
        ensures { result ≡ length self.now }
    {
        (self.end - self.start) as usize
    }

    /// Another text of the same bytes. Fails only where the memory has no room for one more owner.
    #[inline]
    pub(crate) fn share(&self) -> Result<PackedBytes, AllocError>
        ensures { IfOk result (λ text. text ≡ self.now) }
    {
        self.part(0, self.len())
    }

    /// The bytes from `from` up to `to`. Fails only where the memory has no room for one more owner.
    #[inline]
    pub(crate) fn part(&self, from: usize, to: usize) -> Result<PackedBytes, AllocError>
        requires ordered { from ≤ to }
        requires within { to ≤ length self.now }
        ensures { IfOk result (λ text. text ≡ drop from (take to self.now)) }
    {
        Ok(PackedBytes {
            memory: self.memory.clone()?,
            start: self.start + from as u32,
            end: self.start + to as u32,
        })
    }

    /// Drops the first bytes, so many.
    #[inline(always)]
    pub(crate) fn advance(&mut self, count: usize)
        requires { count ≤ length self.old }
        ensures { self.new ≡ drop count self.old }
    {
        let _end = self.end;
        self.start += count as u32;
    }

    /// Makes it a text of a copy of these bytes, where they fit and nothing else shares its memory: whether it did.
    #[inline]
    pub(crate) fn refill(&mut self, bytes: &[u8]) -> bool
        ensures { self.new ≡ (if result then bytes.now else self.old) }
    {
        let Some(room) = Rc::get_mut(&mut self.memory) else {
            return false;
        };
        if bytes.len() > ROOM {
            return false;
        }
        room[0..bytes.len()].copy_from_slice(bytes);
        self.start = 0;
        self.end = bytes.len() as u32;
        true
    }

    /// Appends these bytes, where there is room for them and nothing else shares its memory: whether it did.
    #[inline]
    pub(crate) fn try_extend(&mut self, bytes: &[u8]) -> bool
        ensures { self.new ≡ (if result then self.old ++ bytes.now else self.old) }
    {
        let Some(room) = Rc::get_mut(&mut self.memory) else {
            return false;
        };
        let end = self.end as usize;
        if bytes.len() > ROOM - end {
            return false;
        }
        room[end..end + bytes.len()].copy_from_slice(bytes);
        self.end += bytes.len() as u32;
        true
    }
}
