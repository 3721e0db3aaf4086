// Formats that are read once, and the text that they give of values.

ghost use Rattle.std.specs.Prelude.{◌≡◌, List, Ok, OnOk, OnErr, IfOk, IfErr};
ghost use Rattle.awk_text.specs.definitions.Formatted.{IsFaultOf, joined, written};
ghost use Rattle.awk_text.specs.definitions.Reading.{parts_of};
ghost use Rattle.awk_text.specs.declared.format_fault.FormatFault.TheVariants.{Memory};
ghost use Rattle.awk_text.specs.declared.part.Part.{Part as PartOf};

use crate::format_fault::FormatFault;
use crate::part::Part;
use crate::read::read_part;
use crate::write::add_parts;
use awk_value::Value;
use std::alloc::Global;
use std::marker::Model;

/// A format that has been read: its parts. One that stays the same is read once and written for each line. What is no
/// directive is a fault only where it is written, since a value in front of it may have its own.
#[derive(Drop)]
pub struct Format {
    parts: Vec<Part>,
}

impl Model for Format {
    ghost Value = { List PartOf };

    ghost view = { λ format. format.parts.items };
}

impl Format {
    /// Reads a format, of any bytes. The fault is `Memory`. (POSIX awk, Output Statements; File Format Notation.)
    pub fn read(alloc: Global, text: &[u8]) -> Result<Format, FormatFault>
        ensures parts { IfOk result (λ format. format ≡ parts_of text.now) }
        ensures fault { IfErr result (λ fault. fault ≡ Memory) }
    {
        let mut parts = Vec::new(alloc);
        let mut rest = text;
        while !rest.is_empty() {
            let (part, behind) = read_part(alloc, rest)?;
            parts.push(part)?;
            rest = behind;
        }
        Ok(Format { parts })
    }

    /// Appends the text that the format gives of the values, which its directives take in turn: a missing one is
    /// uninitialized, and one too many is ignored. The faults are `Memory`, and that of the leftmost directive that
    /// has one: `Range` for a value's number out of range, `Format` for what is no directive and for `%c` of a number
    /// that is no byte. A fault leaves the bytes as they were. (POSIX awk, Output Statements.)
    pub fn write_into(&self, values: &[Value], out: &mut Vec<u8>) -> Result<(), FormatFault>
        ensures text { OnOk result (joined (Ok out.old.items) (written self.now values.now) ≡ Ok out.new.items) }
        ensures fault { IfErr result (λ fault. IsFaultOf fault (written self.now values.now)) }
        ensures unchanged { OnErr result (out.new.items ≡ out.old.items) }
    {
        let nothing = Value::Nothing;
        let len = out.len();
        match add_parts(out, self.parts.as_slice(), values, &nothing) {
            Ok(()) => Ok(()),
            Err(fault) => {
                out.truncate(len);
                Err(fault)
            }
        }
    }
}
