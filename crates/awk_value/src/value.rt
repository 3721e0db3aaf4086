// The values of the language.

ghost use Rattle.std.specs.Prelude.{◌≡◌, true, false, IfOk, OnOk, OnErr, IfSome, IfNone};

use crate::bytes::Bytes;
use std::alloc::{AllocError, Global};

/// A value of the language.
#[derive(Drop)]
pub enum Value {
    /// The value of what was never assigned: 0, and the empty text.
    Nothing,
    /// A whole number.
    Number(i128),
    /// A text that the program made.
    Text(Bytes),
    /// A text that came from outside, which counts as a number where it looks like one.
    Input(Bytes),
}

impl Value {
    /// Whether it holds no memory that is much larger than its text (`Bytes::is_settled`).
    #[inline]
    pub fn is_settled(&self) -> bool {
        match self {
            Value::Text(text) | Value::Input(text) => text.is_settled(),
            Value::Nothing | Value::Number(_) => true,
        }
    }

    /// The same value, without memory that is much larger than its text (`Bytes::settled`). Fails
    /// only where memory is refused.
    #[inline]
    pub fn settled(self, alloc: Global) -> Result<Value, AllocError>
        ensures { IfOk result (λ value. value ≡ self) }
    {
        if self.is_settled() {
            return Ok(self);
        }
        self.copied(alloc)
    }

    /// The same value, whose text is copied to memory of its own where it is not short.
    #[inline(never)]
    fn copied(self, alloc: Global) -> Result<Value, AllocError>
        ensures { IfOk result (λ value. value ≡ self) }
    {
        Ok(match self {
            Value::Text(text) => Value::Text(text.settled(alloc)?),
            Value::Input(text) => Value::Input(text.settled(alloc)?),
            value => value,
        })
    }

    /// Gives a place a value, which is kept there as `settled` makes it. Fails only where memory
    /// is refused, and then leaves the place as it was.
    #[inline]
    pub fn receive(&mut self, value: Value, alloc: Global) -> Result<(), AllocError>
        ensures received { OnOk result (self.new ≡ value) }
        ensures unchanged { OnErr result (self.new ≡ self.old) }
    {
        if self.has_memory() && !value.is_moved() && self.refill(&value) {
            return Ok(());
        }
        if value.is_settled() {
            *self = value;
            return Ok(());
        }
        *self = value.copied(alloc)?;
        Ok(())
    }

    /// Whether it is a text that stands in memory.
    #[inline]
    fn has_memory(&self) -> bool {
        match self {
            Value::Text(text) | Value::Input(text) => text.has_memory(),
            Value::Nothing | Value::Number(_) => false,
        }
    }

    /// Whether it is no text, or one whose memory is kept.
    #[inline]
    fn is_moved(&self) -> bool {
        match self {
            Value::Text(text) | Value::Input(text) => text.has_memory() && text.is_settled(),
            Value::Nothing | Value::Number(_) => true,
        }
    }

    /// Gives a place that holds a text a text, which is copied to the memory of the one before, where that has
    /// room: whether it was. Takes no memory.
    #[inline(never)]
    fn refill(&mut self, value: &Value) -> bool
        ensures refilled { result ≡ true → self.new ≡ value.now }
        ensures kept { result ≡ false → self.new ≡ self.old }
    {
        match value {
            Value::Text(text) => match self.refilled(text.as_slice()) {
                Some(text) => {
                    *self = Value::Text(text);
                    true
                }
                None => false,
            },
            Value::Input(text) => match self.refilled(text.as_slice()) {
                Some(text) => {
                    *self = Value::Input(text);
                    true
                }
                None => false,
            },
            Value::Nothing | Value::Number(_) => false,
        }
    }

    /// The text of these bytes in the memory of the text before, which is taken from the place. Nothing is
    /// answered where that has no room, and then the place is as it was.
    #[inline(always)]
    fn refilled(&mut self, bytes: &[u8]) -> Option<Bytes>
        ensures refilled { IfSome result (λ text. text ≡ bytes.now) }
        ensures kept { IfNone result (self.new ≡ self.old) }
    {
        match self {
            Value::Text(place) => place.refilled(bytes),
            Value::Input(place) => place.refilled(bytes),
            Value::Nothing | Value::Number(_) => None,
        }
    }
}

impl Clone for Value {
    ghost is_clone = { λ value copy. copy ≡ value };

    #[inline(always)]
    fn clone(&self) -> Result<Value, AllocError> {
        Ok(match self {
            Value::Nothing => Value::Nothing,
            Value::Number(n) => Value::Number(*n),
            Value::Text(text) => Value::Text(text.clone()?),
            Value::Input(text) => Value::Input(text.clone()?),
        })
    }
}
