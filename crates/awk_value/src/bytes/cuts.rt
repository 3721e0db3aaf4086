// Cuts of texts: they share the memory of the text, or stand in the value where they are few.

ghost use Rattle.std.specs.Prelude.{◌≡◌, ◌+◌, ◌≤◌, true, false, length, take, drop, IfOk};

use super::{Bytes, Form, LAST_PLACE, short};
use crate::packed::PackedBytes;
use crate::short::{MOST, ShortBytes};
use std::alloc::AllocError;
use std::rc::Rc;

impl Bytes {
    /// The bytes from `from` up to `to`, which share this text's memory where they are many. Fails
    /// only where the memory has no room for one more owner, or where memory is refused.
    #[inline]
    pub fn cut(&self, from: usize, to: usize) -> Result<Bytes, AllocError>
        requires ordered { from ≤ to }
        requires within { to ≤ length self.now }
        ensures { IfOk result (λ text. text ≡ drop from (take to self.now)) }
    {
        if let Form::Shared(memory, start, end) = &self.form {
            let _end = *end;
            return cut_shared(memory, *start, from, to);
        }
        self.cut_apart(from, to)
    }

    /// Makes a place the bytes from `from` up to `to`, where it stands: whether it could. Else nothing changes: memory was refused,
    /// or the memory has no room for one more owner.
    #[inline(always)]
    pub fn cut_to(&self, from: usize, to: usize, place: &mut Bytes) -> bool
        requires ordered { from ≤ to }
        requires within { to ≤ length self.now }
        ensures cut { result ≡ true → place.new ≡ drop from (take to self.now) }
        ensures kept { result ≡ false → place.new ≡ place.old }
    {
        if let Form::Shared(memory, start, end) = &self.form
            && to - from <= MOST
            && let Form::Short(short) = &mut place.form
        {
            let _end = *end;
            let at = *start as usize + from;
            short.take_part(memory.as_slice(), at, at + (to - from));
            return true;
        }
        self.cut_any_to(from, to, place)
    }

    /// The same of any text and any place.
    #[inline(never)]
    fn cut_any_to(&self, from: usize, to: usize, place: &mut Bytes) -> bool
        requires ordered { from ≤ to }
        requires within { to ≤ length self.now }
        ensures cut { result ≡ true → place.new ≡ drop from (take to self.now) }
        ensures kept { result ≡ false → place.new ≡ place.old }
    {
        match self.cut(from, to) {
            Ok(text) => {
                *place = text;
                true
            }
            Err(_) => false,
        }
    }

    /// The bytes from `from` up to `to`, which share this text's memory also where they are few: so that they are cut from
    /// with no more than a copy of a fixed size.
    #[inline(always)]
    pub fn part(&self, from: usize, to: usize) -> Result<Bytes, AllocError>
        requires ordered { from ≤ to }
        requires within { to ≤ length self.now }
        ensures { IfOk result (λ text. text ≡ drop from (take to self.now)) }
    {
        if let Form::Shared(memory, start, end) = &self.form {
            let _end = *end;
            let start = *start as usize;
            return Ok(Bytes {
                form: Form::Shared(memory.clone()?, (start + from) as u32, (start + to) as u32),
            });
        }
        self.cut_apart(from, to)
    }

    /// The same, by a copy.
    #[inline(never)]
    fn cut_apart(&self, from: usize, to: usize) -> Result<Bytes, AllocError>
        requires ordered { from ≤ to }
        requires within { to ≤ length self.now }
        ensures { IfOk result (λ text. text ≡ drop from (take to self.now)) }
    {
        match &self.form {
            Form::Short(text) => Ok(short(&text.as_slice()[from..to])),
            Form::Packed(text) => cut_packed(text, from, to),
            Form::Shared(memory, start, end) => {
                let _end = *end;
                cut_shared(memory, *start, from, to)
            }
            Form::Large(_, _, alloc) => Bytes::from_slice(*alloc, &self.as_slice()[from..to]),
        }
    }
}

/// The text of a part of this memory behind a place.
#[inline]
fn cut_shared(memory: &Rc<Vec<u8>>, start: u32, from: usize, to: usize) -> Result<Bytes, AllocError>
    requires ordered { from ≤ to }
    requires within { start + to ≤ length memory.now.value.items }
    requires places { start + to ≤ LAST_PLACE }
    ensures { IfOk result (λ text. text ≡ drop (start + from) (take (start + to) memory.now.value.items)) }
{
    let start = start as usize;
    let (from, to) = (start + from, start + to);
    if to - from <= MOST {
        return Ok(Bytes {
            form: Form::Short(ShortBytes::cut(memory.as_slice(), from, to)),
        });
    }
    Ok(Bytes {
        form: Form::Shared(memory.clone()?, from as u32, to as u32),
    })
}

/// The text of a part of a packed text.
fn cut_packed(text: &PackedBytes, from: usize, to: usize) -> Result<Bytes, AllocError>
    requires ordered { from ≤ to }
    requires within { to ≤ length text.now }
    ensures { IfOk result (λ part. part ≡ drop from (take to text.now)) }
{
    if to - from <= MOST {
        return Ok(short(&text.as_slice()[from..to]));
    }
    Ok(Bytes {
        form: Form::Packed(text.part(from, to)?),
    })
}
