// Keys of elements, which are read where they stand.

ghost use Rattle.std.specs.Prelude.{◌≡◌, IfSome};
ghost use Rattle.awk_value.specs.Values.{str_of};
ghost use Rattle.awk_storage.specs.Subscripts.{key_of};
ghost use Rattle.awk_runtime.specs.support.Keys.{key_value, StandsIn};

use awk_record::Record;
use awk_storage::Subscript;
use awk_text::Span;
use awk_value::Value;

/// The key of an element, where it stands.
#[derive(Clone, Copy)]
pub enum ElementKey<'a> {
    /// A number, by its text.
    Number(i128),
    /// A stretch of the record's text.
    Stretch(Span),
    /// A text that was made.
    Text(&'a [u8]),
    /// A value, by its text.
    Value(&'a Value),
}

/// The key as a subscript, unless the record's text is still to be made.
#[inline(always)]
pub(crate) fn subscript_of<'a>(current: &'a Record, key: ElementKey<'a>) -> Option<Subscript<'a>>
    requires { StandsIn current.now.text key }
    ensures { IfSome result (λ subscript. key_of subscript ≡ str_of (key_value current.now.text key.entry)) }
{
    match key {
        ElementKey::Number(number) => Some(Subscript::Number(number)),
        ElementKey::Stretch(span) => {
            let text = current.text_at_hand()?;
            Some(Subscript::Text(&text.as_slice()[span.start..span.end]))
        }
        ElementKey::Text(text) => Some(Subscript::Text(text)),
        ElementKey::Value(value) => Some(Subscript::of(value)),
    }
}
