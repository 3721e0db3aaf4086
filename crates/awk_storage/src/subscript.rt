// Subscripts: what the key of an element is told by.

ghost use Rattle.std.specs.Prelude.{◌≡◌};
ghost use Rattle.awk_value.specs.Values.{str_of};
ghost use Rattle.awk_storage.specs.support.Subscripts.{key_of};

use awk_value::Value;
use itoa::Buffer;

/// What the key of an element is told by: a number, whose text is the key, or the text itself, where it stands.
/// (POSIX awk, Expressions in awk: arrays)
#[derive(Clone, Copy)]
pub enum Subscript<'a> {
    Number(i128),
    Text(&'a [u8]),
}

impl<'a> Subscript<'a> {
    /// A value, whose text is the key.
    #[inline(always)]
    pub fn of(value: &'a Value) -> Subscript<'a>
        ensures { key_of result ≡ str_of value.now }
    {
        match value {
            Value::Nothing => Subscript::Text(b""),
            Value::Number(number) => Subscript::Number(*number),
            Value::Text(text) | Value::Input(text) => Subscript::Text(text.as_slice()),
        }
    }

    /// The key, with room for the text of a number.
    pub(crate) fn text(self, buffer: &'a mut Buffer) -> &'a [u8]
        ensures { result.now ≡ key_of self.entry }
    {
        match self {
            Subscript::Number(number) => buffer.format(number).as_bytes(),
            Subscript::Text(text) => text,
        }
    }
}
