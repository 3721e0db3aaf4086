// The texts of formats with values.

ghost use Rattle.std.specs.Prelude.{◌≡◌, ◌<◌, length, get_or, Ok, IfSome, IfOk, IfErr, OnOk};
ghost use Rattle.awk_text.specs.Formatted.{IsFaultOf, formatted, joined};
ghost use Rattle.awk_text.specs.Reading.{parts_of};
ghost use Rattle.awk_text.specs.declared.format_fault.FormatFault.TheVariants.{Memory};
ghost use Rattle.awk_semantics.specs.BuiltIns.{as_text};
ghost use Rattle.awk_semantics.specs.Primitives.{format_values};
ghost use Rattle.awk_semantics.specs.Results.{IsWantOfMemory, Yields};
ghost use Rattle.awk_functions.specs.support.Written.{Writes};

use awk_semantics::Halt;
use awk_text::{Format, FormatFault};
use awk_value::{Bytes, Value, text_in};
use itoa::Buffer;
use std::alloc::Global;
use std::mem;

// A format that was read, with its text.
#[derive(Drop)]
struct ReadFormat {
    text: Bytes,
    format: Format,
    ghost reads: { format ≡ parts_of text },
}

impl ReadFormat {
    // Reads the format that a text is. The only fault is want of memory.
    fn read(alloc: Global, text: &[u8]) -> Result<ReadFormat, FormatFault>
        ensures text { IfOk result (λ read. read.text ≡ text.now) }
        ensures fault { IfErr result (λ fault. fault ≡ Memory) }
    {
        let format = Format::read(alloc, text)?;
        let text = Bytes::from_slice(alloc, text)?;
        Ok(ReadFormat { text, format })
    }
}

// How many formats are kept.
const KEPT: usize = 8;

// The place of the format that a text is, where it is among these.
#[inline]
fn place_of(formats: &[ReadFormat], text: &[u8]) -> Option<usize>
    ensures place { IfSome result (λ place. place < length formats.now) }
    ensures text { IfSome result (λ place. (other : ReadFormat) → (get_or formats.now place other).text ≡ text.now) }
{
    let length = text.len();
    for place in 0..formats.len() {
        let kept = &formats[place].text;
        if kept.len() == length && kept.as_slice() == text {
            return Some(place);
        }
    }
    None
}

/// The formats of a run, of which those that were read last are kept, so that they aren't read anew where they come again.
#[derive(Drop)]
pub struct Formats {
    alloc: Global,
    // those that were read last, in the order in which they were
    kept: Vec<ReadFormat>,
    // the text that was made last, kept for its room
    made: Vec<u8>,
}

impl Formats {
    /// None is kept at first. The only fault is want of memory.
    pub fn new(alloc: Global) -> Result<Formats, Halt>
        ensures { IfErr result IsWantOfMemory }
    {
        Ok(Formats {
            alloc,
            kept: Vec::new(alloc),
            made: Vec::new(alloc),
        })
    }

    // The format that a text is. The only fault is want of memory.
    fn read(&mut self, text: &[u8]) -> Result<&Format, FormatFault>
        ensures parts { IfOk result (λ format. format.now ≡ parts_of text.now) }
        ensures fault { IfErr result (λ fault. fault ≡ Memory) }
    {
        if let Some(place) = place_of(self.kept.as_slice(), text) {
            return Ok(&self.kept[place].format);
        }
        let read = ReadFormat::read(self.alloc, text)?;
        if self.kept.len() >= KEPT {
            drop(self.kept.remove(0));
        }
        let place = self.kept.len();
        self.kept.push(read)?;
        Ok(&self.kept[place].format)
    }

    // Appends the text that a format gives of the values.
    fn write(
        &mut self,
        format: &[u8],
        values: &[Value],
        text: &mut Vec<u8>,
    ) -> Result<(), FormatFault>
        ensures text { OnOk result (joined (Ok text.old.items) (formatted format.now values.now) ≡ Ok text.new.items) }
        ensures fault { IfErr result (λ fault. IsFaultOf fault (formatted format.now values.now)) }
    {
        let format = self.read(format)?;
        format.write_into(values, text)
    }

    /// Writes the text that a format gives of the values behind it, in place of what was in the buffer. For want of a format
    /// that is the empty text. The faults are F1, F3 and F7. (POSIX awk, Output Statements: printf)
    pub fn format_values(&mut self, values: &[Value], text: &mut Vec<u8>) -> Result<(), Halt>
        ensures { Writes result text.new.items (format_values values.now) }
    {
        text.clear();
        let Some((format, others)) = values.split_first() else {
            return Ok(());
        };
        let mut digits = Buffer::new();
        self.write(text_in(format, &mut digits), others, text)?;
        Ok(())
    }

    /// The text that a format gives of the values behind it, as a text that was made. (POSIX awk, String Functions: sprintf)
    pub(crate) fn format_text(&mut self, values: &[Value]) -> Result<Value, Halt>
        ensures { Yields result (as_text (format_values values.now)) }
    {
        let mut text = mem::replace(&mut self.made, Vec::new(self.alloc));
        let outcome = self.format_values(values, &mut text);
        let made = Bytes::from_slice(self.alloc, text.as_slice());
        self.made = text;
        outcome?;
        Ok(Value::Text(made?))
    }
}
