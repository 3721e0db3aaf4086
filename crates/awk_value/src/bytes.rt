// Texts of bytes. Short ones stand inside the value; others share their memory, which grows in
// place where one text alone holds it.

ghost use Rattle.std.specs.Prelude.{◌≡◌, ℕ, ◌+◌, ◌<◌, ◌≤◌, ◌==◌, if◌then◌else◌, true, false};
ghost use Rattle.std.specs.Prelude.{List, [], ◌++◌, length, take, drop, vec_len, IfOk, OnOk, OnErr, IfSome, IfNone};

mod cuts;

use crate::packed::{self, PackedBytes};
use crate::short::{MOST, ShortBytes};
use std::alloc::{AllocError, Global};
use std::marker::Model;
use std::mem;
use std::rc::Rc;

/// The last place in memory that a text with places of 32 bits reaches.
const LAST_PLACE: usize = u32::MAX as usize;

/// Where the bytes of a text stand.
#[derive(Debug, Drop)]
enum Form {
    /// In the value itself.
    Short(ShortBytes),
    /// In one piece of memory with the count of its owners.
    Packed(PackedBytes),
    /// Those of this memory from a place up to another.
    Shared(Rc<Vec<u8>>, u32, u32),
    /// Those of this memory from a place on, where it is too large for places of 32 bits.
    Large(Rc<Vec<u8>>, usize, Global),
}

/// A text of bytes. One of up to 16 bytes may stand in the value itself, with no memory, and is
/// copied; the clones and cuts of another share its memory, where they don't stand in the value
/// themselves. None of them ever sees another change.
#[derive(Debug, Drop)]
pub struct Bytes {
    form: Form,
}

impl Model for Bytes {
    ghost use Rattle.std.specs.Prelude.{List, ℕ};

    ghost Value = { List ℕ };

    ghost use Rattle.awk_value.specs.support.Forms.{bytes_of, IsWithin};

    ghost view = { λ b. bytes_of b.form };

    ghost invariant = { λ b. IsWithin b.form };
}

impl Bytes {
    /// The empty text, which takes no memory.
    #[inline]
    pub fn empty() -> Bytes
        ensures { result ≡ [] }
    {
        Bytes {
            form: Form::Short(ShortBytes::empty()),
        }
    }

    /// The text of these bytes, which are moved and not copied where they are many. Fails only
    /// where memory is refused.
    pub fn from_vec(alloc: Global, bytes: Vec<u8>) -> Result<Bytes, AllocError>
        ensures { IfOk result (λ text. text ≡ bytes.items) }
    {
        if bytes.len() <= MOST {
            return Ok(short(bytes.as_slice()));
        }
        let end = bytes.len();
        Bytes::from_part(alloc, bytes, end)
    }

    /// The text of the first of these bytes, in this memory, however few they are. Fails only
    /// where memory is refused.
    pub fn from_part(alloc: Global, bytes: Vec<u8>, end: usize) -> Result<Bytes, AllocError>
        requires { end ≤ vec_len bytes }
        ensures { IfOk result (λ text. text ≡ take end bytes.items) }
    {
        if end > LAST_PLACE {
            return large(alloc, bytes, end);
        }
        Ok(Bytes {
            form: Form::Shared(Rc::new(alloc, bytes)?, 0, end as u32),
        })
    }

    /// The memory of the text, whatever it holds, where there is any and nothing else shares it.
    pub fn into_memory(self) -> Option<Vec<u8>> {
        match self.form {
            Form::Short(..) | Form::Packed(..) => None,
            Form::Shared(memory, ..) | Form::Large(memory, ..) => Rc::into_inner(memory),
        }
    }

    /// The text of a copy of these bytes. Fails only where memory is refused.
    #[inline]
    pub fn from_slice(alloc: Global, bytes: &[u8]) -> Result<Bytes, AllocError>
        ensures { IfOk result (λ text. text ≡ bytes.now) }
    {
        if bytes.len() <= MOST {
            return Ok(short(bytes));
        }
        copied(alloc, bytes)
    }

    /// The bytes.
    #[inline]
    pub fn as_slice(&self) -> &[u8]
        ensures { result.now ≡ self.now }
    {
        match &self.form {
            Form::Short(text) => text.as_slice(),
            Form::Packed(text) => text.as_slice(),
            Form::Shared(memory, start, end) => {
                &memory.as_slice()[*start as usize..*end as usize]
            }
            Form::Large(memory, start, _) => &memory.as_slice()[*start..],
        }
    }

    /// Appends the bytes to the buffer. Fails only where memory is refused, and then leaves the
    /// buffer's bytes as they were.
    #[inline]
    pub(crate) fn append_to(&self, buffer: &mut Vec<u8>) -> Result<(), AllocError>
        ensures bytes { OnOk result (buffer.new.items ≡ buffer.old.items ++ self.now) }
        ensures unchanged { OnErr result (buffer.new.items ≡ buffer.old.items) }
    {
        match &self.form {
            Form::Short(text) => text.append_to(buffer),
            _ => append_all(self.as_slice(), buffer),
        }
    }

    /// Appends the bytes to a line that may grow up to this length in its memory: whether they have room
    /// there. Takes no memory; few bytes are written by a copy of a fixed size where it has room for one.
    #[inline(always)]
    pub fn put_within(&self, line: &mut Vec<u8>, end: usize) -> bool
        ensures { line.new.items ≡ (if result then line.old.items ++ self.now else line.old.items) }
    {
        match &self.form {
            Form::Short(text) => text.put_within(line, end),
            _ => put_all(self.as_slice(), line, end),
        }
    }

    /// The number of bytes.
    #[inline]
    pub fn len(&self) -> usize
        ensures { result ≡ length self.now }
    {
        match &self.form {
            Form::Short(text) => text.len(),
            Form::Packed(text) => text.len(),
            Form::Shared(_, start, end) => (*end - *start) as usize,
            Form::Large(memory, start, _) => memory.len() - *start,
        }
    }

    /// Whether there are no bytes.
    #[inline]
    pub fn is_empty(&self) -> bool
        ensures { result ≡ (length self.now == 0) }
    {
        self.len() == 0
    }

    /// Drops the first bytes, so many, in no time.
    #[inline(always)]
    pub fn advance(&mut self, count: usize)
        requires { count ≤ length self.old }
        ensures { self.new ≡ drop count self.old }
    {
        match &mut self.form {
            Form::Shared(_, start, end) => {
                let _end = *end;
                *start += count as u32;
            }
            Form::Large(_, start, _) => *start += count,
            Form::Packed(text) => text.advance(count),
            Form::Short(text) => *self = short(&text.as_slice()[count..]),
        }
    }

    /// Moves the bytes to the front of their memory, where nothing else shares it.
    pub fn compact(&mut self)
        ensures { self.new ≡ self.old }
    {
        match &mut self.form {
            Form::Short(..) | Form::Packed(..) => {}
            Form::Shared(memory, start, end) => {
                if move_to_front(memory, *start as usize, *end as usize) {
                    *end -= *start;
                    *start = 0;
                }
            }
            Form::Large(memory, start, _) => {
                let end = memory.len();
                if move_to_front(memory, *start, end) {
                    *start = 0;
                }
            }
        }
    }

    /// Whether the text holds no memory that is much larger than the text.
    #[inline]
    pub(crate) fn is_settled(&self) -> bool {
        match &self.form {
            Form::Short(..) => true,
            Form::Packed(text) => text.len() > MOST,
            Form::Shared(memory, ..) | Form::Large(memory, ..) => {
                self.len() > MOST && memory.len() / 4 <= self.len() + 64
            }
        }
    }

    /// The same text, without memory that is much larger than the text: so that a text that is
    /// kept holds no input. Fails only where memory is refused.
    #[inline]
    pub fn settled(self, alloc: Global) -> Result<Bytes, AllocError>
        ensures { IfOk result (λ text. text ≡ self) }
    {
        if self.is_settled() {
            return Ok(self);
        }
        self.copied(alloc)
    }

    /// A copy of the text, in memory of its own where it is not short.
    #[inline(never)]
    fn copied(&self, alloc: Global) -> Result<Bytes, AllocError>
        ensures { IfOk result (λ text. text ≡ self.now) }
    {
        Bytes::from_slice(alloc, self.as_slice())
    }

    /// Copies these bytes to the front of the text's memory, where nothing else shares it, and it has room for so many and not for many
    /// more: whether they were copied. Then they are the text, which can grow there. Takes no memory.
    #[inline]
    pub(crate) fn refill(&mut self, bytes: &[u8]) -> bool
        ensures { self.new ≡ (if result then bytes.now else self.old) }
    {
        if let Form::Packed(text) = &mut self.form {
            return text.refill(bytes);
        }
        let Form::Shared(memory, start, end) = &mut self.form else {
            return false;
        };
        let Some(memory) = Rc::get_mut(memory) else {
            return false;
        };
        let room = memory.capacity();
        if room < bytes.len() || room / 4 > bytes.len() + 64 || room > LAST_PLACE {
            return false;
        }
        memory.clear();
        let _copied = memory.extend_from_slice(bytes);
        *start = 0;
        *end = bytes.len() as u32;
        true
    }

    /// The text of these bytes, copied as `refill` does to the text's memory, which is taken from it. Nothing is
    /// answered where they aren't copied, and then the text is as it was.
    #[inline]
    pub(crate) fn refilled(&mut self, bytes: &[u8]) -> Option<Bytes>
        ensures refilled { IfSome result (λ text. text ≡ bytes.now) }
        ensures kept { IfNone result (self.new ≡ self.old) }
    {
        if !self.refill(bytes) {
            return None;
        }
        Some(mem::replace(self, Bytes::empty()))
    }

    /// Whether the text stands in memory, which others may share.
    #[inline]
    pub(crate) fn has_memory(&self) -> bool {
        match &self.form {
            Form::Packed(..) | Form::Shared(..) => true,
            Form::Short(..) | Form::Large(..) => false,
        }
    }

    /// Appends a copy of these bytes. The memory grows in place, in time of the bytes appended on
    /// average, where nothing else shares it and the text ends where it ends; else the text is
    /// copied to memory of its own. Fails only where memory is refused, and then leaves the text
    /// as it was.
    pub fn extend_from_slice(&mut self, alloc: Global, bytes: &[u8]) -> Result<(), AllocError>
        ensures bytes { OnOk result (self.new ≡ self.old ++ bytes.now) }
        ensures unchanged { OnErr result (self.new ≡ self.old) }
    {
        if self.extend_in_place(bytes)? {
            return Ok(());
        }
        let mut copy = Vec::with_capacity(alloc, room_for_growth(self.len(), bytes.len()))?;
        copy.extend_from_slice(self.as_slice())?;
        copy.extend_from_slice(bytes)?;
        *self = Bytes::from_vec(alloc, copy)?;
        Ok(())
    }

    /// Appends a copy of these bytes where the text can grow in place: whether it could.
    #[inline]
    fn extend_in_place(&mut self, bytes: &[u8]) -> Result<bool, AllocError>
        ensures bytes { IfOk result (λ extended.
            self.new ≡ (if extended then self.old ++ bytes.now else self.old)) }
        ensures unchanged { OnErr result (self.new ≡ self.old) }
    {
        match &mut self.form {
            Form::Short(text) => Ok(text.try_extend(bytes)),
            Form::Packed(text) => Ok(text.try_extend(bytes)),
            Form::Shared(memory, _, end) => {
                if bytes.len() > LAST_PLACE - *end as usize {
                    return Ok(false);
                }
                let extended = extend_unshared(memory, *end as usize, bytes)?;
                if extended {
                    *end += bytes.len() as u32;
                }
                Ok(extended)
            }
            Form::Large(memory, ..) => {
                let end = memory.len();
                extend_unshared(memory, end, bytes)
            }
        }
    }
}

/// The text of a few bytes, which stands in the value.
#[inline]
fn short(bytes: &[u8]) -> Bytes
    requires { length bytes.now ≤ MOST }
    ensures { result ≡ bytes.now }
{
    Bytes {
        form: Form::Short(ShortBytes::new(bytes)),
    }
}

/// Appends bytes, of which there may be many.
#[inline(never)]
fn append_all(bytes: &[u8], buffer: &mut Vec<u8>) -> Result<(), AllocError>
    ensures bytes { OnOk result (buffer.new.items ≡ buffer.old.items ++ bytes.now) }
    ensures unchanged { OnErr result (buffer.new.items ≡ buffer.old.items) }
{
    buffer.extend_from_slice(bytes)
}

/// Appends bytes, of which there may be many, to a line that may grow up to this length in its memory.
#[inline(never)]
fn put_all(bytes: &[u8], line: &mut Vec<u8>, end: usize) -> bool
    ensures { line.new.items ≡ (if result then line.old.items ++ bytes.now else line.old.items) }
{
    let room = end.min(line.capacity()).saturating_sub(line.len());
    bytes.len() <= room && line.extend_from_slice(bytes).is_ok()
}

/// The text of a copy of these bytes, in memory of its own.
#[inline(never)]
fn copied(alloc: Global, bytes: &[u8]) -> Result<Bytes, AllocError>
    ensures { IfOk result (λ text. text ≡ bytes.now) }
{
    if bytes.len() <= packed::ROOM {
        return Ok(Bytes {
            form: Form::Packed(PackedBytes::new(alloc, bytes)?),
        });
    }
    Bytes::from_part(alloc, Vec::from_slice(alloc, bytes)?, bytes.len())
}

/// The text of the first of these bytes, which may be too many for places of 32 bits.
#[cold]
#[inline(never)]
fn large(alloc: Global, mut bytes: Vec<u8>, end: usize) -> Result<Bytes, AllocError>
    requires { end ≤ vec_len bytes }
    ensures { IfOk result (λ text. text ≡ take end bytes.items) }
{
    bytes.truncate(end);
    Ok(Bytes {
        form: Form::Large(Rc::new(alloc, bytes)?, 0, alloc),
    })
}

/// The least memory that is taken for a text that grows.
const LEAST_ROOM: usize = 64;

/// Room for so many bytes, those appended, and some more.
fn room_for_growth(len: usize, more: usize) -> usize {
    let room = len
        .saturating_add(len / 2)
        .saturating_add(more)
        .saturating_add(more);
    if room < LEAST_ROOM { LEAST_ROOM } else { room }
}

/// Moves a part to the front of memory that has no other owner, which then ends with it: whether
/// it is such memory.
fn move_to_front(shared: &mut Rc<Vec<u8>>, from: usize, to: usize) -> bool
    requires ordered { from ≤ to }
    requires within { to ≤ length shared.old.value.items }
    ensures { shared.new.value.items ≡ (if result then drop from (take to shared.old.value.items) else shared.old.value.items) }
{
    match Rc::get_mut(shared) {
        Some(memory) => {
            memory.copy_within(from..to, 0);
            memory.truncate(to - from);
            true
        }
        None => false,
    }
}

/// Appends to memory that has no other owner and ends at `end`: whether it is such memory.
fn extend_unshared(shared: &mut Rc<Vec<u8>>, end: usize, bytes: &[u8]) -> Result<bool, AllocError>
    ensures at_end { IfOk result (λ extended. extended ≡ true → length shared.old.value.items ≡ end) }
    ensures bytes { IfOk result (λ extended.
        shared.new.value.items ≡ (if extended then shared.old.value.items ++ bytes.now else shared.old.value.items)) }
    ensures unchanged { OnErr result (shared.new.value.items ≡ shared.old.value.items) }
{
    match Rc::get_mut(shared) {
        Some(memory) => {
            if memory.len() != end {
                return Ok(false);
            }
            memory.extend_from_slice(bytes)?;
            Ok(true)
        }
        None => Ok(false),
    }
}

impl Clone for Bytes {
    ghost is_clone = { λ text copy. copy ≡ text };

    #[inline(always)]
    fn clone(&self) -> Result<Bytes, AllocError> {
        Ok(Bytes {
            form: match &self.form {
                Form::Short(text) => Form::Short(text.copy()),
                Form::Packed(text) => Form::Packed(text.share()?),
                Form::Shared(memory, start, end) => { Form::Shared(memory.clone()?, *start, *end) }
                Form::Large(memory, start, alloc) => Form::Large(memory.clone()?, *start, *alloc),
            },
        })
    }
}
