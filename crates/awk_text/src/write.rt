// Writing the parts of a format, each with the value that it takes.

ghost use Rattle.std.specs.Prelude.{◌≡◌, ◌++◌, Ok, Err, take, OnOk, IfErr};
ghost use Rattle.awk_value.specs.Values.{str_of, num_of};
ghost use Rattle.awk_value.specs.declared.value.Value.TheVariants.{Nothing};
ghost use Rattle.awk_text.specs.support.Begun.{IsBegun};
ghost use Rattle.awk_text.specs.definitions.Directives.{number_text, character_text, directive_text, string_text};
ghost use Rattle.awk_text.specs.declared.format_fault.FormatFault.TheVariants.{Memory};
ghost use Rattle.awk_text.specs.definitions.Formatted.{IsFaultOf, joined, next_value, part_text, values_after, written};

use crate::directive::{Conversion, Directive, Notation};
use crate::field::{add_integer, add_text, cut};
use crate::format_fault::FormatFault;
use crate::part::Part;
use awk_value::{Value, number_of};
use itoa::Buffer;

// The bytes of a value's text. A number is written into the buffer, so no memory is taken.
fn text_in<'a>(value: &'a Value, buffer: &'a mut Buffer) -> &'a [u8]
    ensures { result.now ≡ str_of value.now }
{
    match value {
        Value::Nothing => b"",
        Value::Number(n) => buffer.format(*n).as_bytes(),
        Value::Text(text) => text.as_slice(),
        Value::Input(text) => text.as_slice(),
    }
}

#[tactic(auto, using(crate::proofs::FieldLemmas::begun_same))]
fn add_number(
    out: &mut Vec<u8>,
    directive: &Directive,
    notation: Notation,
    value: &Value,
) -> Result<(), FormatFault>
    ensures text { OnOk result (
        joined (Ok out.old.items) (number_text directive.now notation (num_of value.now)) ≡ Ok out.new.items) }
    ensures fault { IfErr result (λ fault. IsFaultOf fault (number_text directive.now notation (num_of value.now))) }
    ensures begun { IsBegun out.old.items out.new.items }
{
    match number_of(value) {
        Ok(number) => {
            add_integer(out, directive, notation, number)?;
            Ok(())
        }
        Err(_) => Err(FormatFault::Range),
    }
}

#[tactic(auto, using(crate::proofs::FieldLemmas::begun_same))]
fn add_character(out: &mut Vec<u8>, directive: &Directive, value: &Value) -> Result<(), FormatFault>
    ensures text { OnOk result (joined (Ok out.old.items) (character_text directive.now value.now) ≡ Ok out.new.items) }
    ensures fault { IfErr result (λ fault. IsFaultOf fault (character_text directive.now value.now)) }
    ensures begun { IsBegun out.old.items out.new.items }
{
    match value {
        Value::Nothing => {
            add_text(out, directive, b"")?;
            Ok(())
        }
        Value::Number(n) => {
            let number = *n;
            if number < 0 || number > 255 {
                return Err(FormatFault::Format);
            }
            add_text(out, directive, &[number as u8])?;
            Ok(())
        }
        Value::Text(text) => {
            add_text(out, directive, cut(Some(1), text.as_slice()))?;
            Ok(())
        }
        Value::Input(text) => {
            add_text(out, directive, cut(Some(1), text.as_slice()))?;
            Ok(())
        }
    }
}

fn add_string(out: &mut Vec<u8>, directive: &Directive, value: &Value) -> Result<(), FormatFault>
    ensures text { OnOk result (out.new.items ≡ out.old.items ++ string_text directive.now (str_of value.now)) }
    ensures fault { IfErr result (λ fault. fault ≡ Memory) }
    ensures begun { IsBegun out.old.items out.new.items }
{
    let mut buffer = Buffer::new();
    let text = text_in(value, &mut buffer);
    add_text(out, directive, cut(directive.precision, text))?;
    Ok(())
}

fn add_directive(out: &mut Vec<u8>, directive: &Directive, value: &Value) -> Result<(), FormatFault>
    ensures text { OnOk result (joined (Ok out.old.items) (directive_text directive.now value.now) ≡ Ok out.new.items) }
    ensures fault { IfErr result (λ fault. IsFaultOf fault (directive_text directive.now value.now)) }
    ensures begun { IsBegun out.old.items out.new.items }
{
    match directive.conversion {
        Conversion::Integer(notation) => add_number(out, directive, notation, value),
        Conversion::Character => add_character(out, directive, value),
        Conversion::Text => {
            add_string(out, directive, value)?;
            Ok(())
        }
    }
}

#[tactic(auto, using(crate::proofs::FieldLemmas::begun_same, crate::proofs::FieldLemmas::begun_by))]
fn add_part(out: &mut Vec<u8>, part: &Part, value: &Value) -> Result<(), FormatFault>
    ensures text { OnOk result (joined (Ok out.old.items) (part_text part.now value.now) ≡ Ok out.new.items) }
    ensures fault { IfErr result (λ fault. IsFaultOf fault (part_text part.now value.now)) }
    ensures begun { IsBegun out.old.items out.new.items }
{
    match part {
        Part::Plain(text) => {
            out.extend_from_slice(text.as_slice())?;
            Ok(())
        }
        Part::Directed(directive) => add_directive(out, directive, value),
        Part::Refused => Err(FormatFault::Format),
    }
}

// The next value, or the one that stands for a missing one.
fn first_or<'a>(values: &'a [Value], nothing: &'a Value) -> &'a Value
    requires { nothing.now ≡ Nothing }
    ensures { result.now ≡ next_value values.now }
{
    match values.split_first() {
        Some((value, _)) => value,
        None => nothing,
    }
}

// The values that are left behind a part.
fn left_after<'a>(part: &Part, values: &'a [Value]) -> &'a [Value]
    ensures { result.now ≡ values_after part.now values.now }
{
    match part {
        Part::Directed(_) => match values.split_first() {
            Some((_, others)) => others,
            None => values,
        },
        _ => values,
    }
}

/// Adds the texts of the parts, with `nothing` for each value that is missing.
#[tactic(auto, using(crate::proofs::WrittenLemmas::parts_done, crate::proofs::FieldLemmas::begun_trans))]
pub(crate) fn add_parts(
    out: &mut Vec<u8>,
    parts: &[Part],
    values: &[Value],
    nothing: &Value,
) -> Result<(), FormatFault>
    requires { nothing.now ≡ Nothing }
    ensures text { OnOk result (joined (Ok out.old.items) (written parts.now values.now) ≡ Ok out.new.items) }
    ensures fault { IfErr result (λ fault. IsFaultOf fault (written parts.now values.now)) }
    ensures begun { IsBegun out.old.items out.new.items }
{
    let mut left = values;
    for part in parts {
        add_part(out, part, first_or(left, nothing))?;
        left = left_after(part, left);
    }
    Ok(())
}
