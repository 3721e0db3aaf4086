// The text that a format gives of values, in one call.

ghost use Rattle.std.specs.Prelude.{◌≡◌, Ok, OnOk, OnErr, IfOk, IfErr};
ghost use Rattle.awk_text.specs.definitions.Formatted.{IsFaultOf, formatted, joined};

use crate::format_fault::FormatFault;
use crate::prepared;
use awk_value::{Bytes, Value};
use std::alloc::Global;

/// Appends the text that a format gives of the values, as `Format::write_into` does. A fault leaves the bytes as they
/// were. (POSIX awk, Output Statements.)
pub fn format_into(
    alloc: Global,
    text: &[u8],
    values: &[Value],
    out: &mut Vec<u8>,
) -> Result<(), FormatFault>
    ensures text { OnOk result (joined (Ok out.old.items) (formatted text.now values.now) ≡ Ok out.new.items) }
    ensures fault { IfErr result (λ fault. IsFaultOf fault (formatted text.now values.now)) }
    ensures unchanged { OnErr result (out.new.items ≡ out.old.items) }
{
    let format = prepared::Format::read(alloc, text)?;
    format.write_into(values, out)
}

/// The text that a format gives of the values. The faults are those of `Format::write_into`. (POSIX awk, Output
/// Statements.)
#[tactic(auto, using(crate::proofs::WrittenLemmas::joined_nothing))]
pub fn format(alloc: Global, text: &[u8], values: &[Value]) -> Result<Bytes, FormatFault>
    ensures text { IfOk result (λ bytes. formatted text.now values.now ≡ Ok bytes) }
    ensures fault { IfErr result (λ fault. IsFaultOf fault (formatted text.now values.now)) }
{
    let mut out = Vec::new(alloc);
    format_into(alloc, text, values, &mut out)?;
    Ok(Bytes::from_vec(alloc, out)?)
}
