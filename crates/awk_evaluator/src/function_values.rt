// What built-in functions of values alone make of operands that are read where they stand.

ghost use Rattle.std.specs.Prelude.{◌≡◌, ◌∷◌, [], ◌++◌, pos, length, true, false, Ok, IfSome, OnOk};
ghost use Rattle.awk_value.specs.Values.{str_of};
ghost use Rattle.awk_value.specs.declared.value.Value.TheVariants.{Text, Input, Number};
ghost use Rattle.awk_text.specs.Functions.{substr_of, IsPositionOf};
ghost use Rattle.awk_text.specs.Pieces.{stretch_at, IsSpanOf};
ghost use Rattle.awk_lex.specs.declared.token.BuiltIn.TheVariants.{Length, Substr, Index};
ghost use Rattle.awk_semantics.specs.Texts.{position_of};
ghost use Rattle.awk_record.specs.Record.{field_of};
ghost use Rattle.awk_resolve.specs.Nodes.{first, taken};
ghost use Rattle.awk_resolve.specs.declared.node.ValueNode.TheVariants.{ApplyTo};
ghost use Rattle.awk_evaluator.specs.Moves.{Computes};
ghost use Rattle.awk_evaluator.specs.Quick.{IsAtHand, Puts, Pushed};
ghost use Rattle.awk_evaluator.specs.Applied.{AreAtHand, HasText, PutsApplied, position_values, ReadsAll, items_in};

use crate::machine::Machine;
use awk_lex::token::BuiltIn;
use awk_resolve::node::Operand;
use awk_semantics::{Halt, law_of_positions};
use awk_text::{Span, index, substr};
use awk_value::{Bytes, Value};
use memchr::memchr;
use std::alloc::AllocError;

/// The positions that `substr` takes: a start, and how many from there on.
#[derive(Clone, Copy)]
struct Positions {
    start: i128,
    count: Option<i128>,
}

/// Puts copies of values behind others.
fn push_copies(values: &mut Vec<Value>, others: &[Value]) -> Result<(), AllocError>
    ensures { OnOk result (values.new.items ≡ values.old.items ++ others.now) }
{
    for value in others {
        values.push(value.clone()?)?;
    }
    Ok(())
}

/// The text of a value that is one.
#[inline(always)]
fn text_of(value: &Value) -> Option<&Bytes>
    ensures { IfSome result (λ text. str_of value.now ≡ text.now) }
{
    match value {
        Value::Text(text) | Value::Input(text) => Some(text),
        Value::Nothing | Value::Number(_) => None,
    }
}

/// The first position of a part of two bytes, or 0, where the first of them stands nowhere, or first where the part does.
#[inline(always)]
fn position_of_pair(text: &[u8], part: &[u8]) -> Option<usize>
    ensures { IfSome result (λ n. IsPositionOf part.now text.now n) }
{
    let [first, second] = part else {
        return None;
    };
    let Some(before) = memchr(*first, text) else {
        return Some(0);
    };
    match text.get(before + 1) {
        Some(byte) if byte == second => Some(before + 1),
        _ => None,
    }
}

/// The first position of a part, or 0.
#[inline(never)]
fn position(text: &[u8], part: &[u8]) -> usize
    ensures { IsPositionOf part.now text.now result }
{
    match position_of_pair(text, part) {
        Some(position) => position,
        None => index(text, part),
    }
}

/// The first position of a value's text in these bytes, or 0.
#[inline(always)]
fn position_in(text: &[u8], part: &Value) -> Option<i128>
    ensures { IfSome result (λ n. n ≡ pos (position_of (str_of part.now) text.now)) }
{
    law_of_positions();
    let part = text_of(part)?;
    Some(position(text, part.as_slice()) as i128)
}

/// The part at positions of what stands at a span of a text.
#[inline(always)]
fn part_in(text: &Bytes, span: Span, positions: Positions) -> Option<Value>
    requires { IsSpanOf text.now span }
    ensures { IfSome result (λ part. part ≡ Text (substr_of (stretch_at text.now span) positions.start positions.count)) }
{
    let bytes = &text.as_slice()[span.start..span.end];
    let part = substr(bytes, positions.start, positions.count);
    match text.cut(span.start + part.start, span.start + part.end) {
        Ok(text) => Some(Value::Text(text)),
        Err(_) => None,
    }
}

impl Machine {
    /// Puts what a built-in function makes of operands, and of so many values behind them, in the place of these.
    #[inline(never)]
    pub(crate) fn put_applied(
        &mut self,
        function: BuiltIn,
        operands: &Vec<Operand>,
        count: u32,
    ) -> bool
        ensures puts { result ≡ true → Puts (ApplyTo function operands.now count) self.old self.new }
        ensures kept { result ≡ false → self.new ≡ self.old }
    {
        match function {
            BuiltIn::Substr => self.put_substring(operands, count),
            BuiltIn::Index => self.put_position(operands, count),
            BuiltIn::Length => self.put_text_length(operands, count),
            _ => false,
        }
    }

    /// Where in the record's text the field of a number stands, if it is a stretch of it; field 0 is the whole.
    #[inline(always)]
    fn field_span(&mut self, number: i128) -> Option<Span>
        ensures field { IfSome result (λ span. field_of self.old.runtime.current number ≡ Ok (Input (stretch_at self.old.runtime.current.text span))) }
        ensures within { IfSome result (IsSpanOf self.old.runtime.current.text) }
        ensures same { self.new ≡ self.old }
    {
        if number == 0 {
            let text = self.runtime.current.text_at_hand()?;
            return Some(Span {
                start: 0,
                end: text.len(),
            });
        }
        self.runtime.current.stretch(number)
    }

    /// Where in the record's text an operand stands that is a field.
    #[inline(always)]
    pub(crate) fn span_of(&mut self, operand: &Operand) -> Option<Span>
        ensures stands { IfSome result (λ span. HasText operand.now (λ text. text ≡ stretch_at self.old.runtime.current.text span) self.old) }
        ensures field { IfSome result (λ span. IsAtHand operand.now (Input (stretch_at self.old.runtime.current.text span)) self.old) }
        ensures within { IfSome result (IsSpanOf self.old.runtime.current.text) }
        ensures same { self.new ≡ self.old }
    {
        let number = self.field_number_of(operand)?;
        self.field_span(number)
    }

    /// Puts the length of an operand's text on the stack.
    #[inline(always)]
    fn put_text_length(&mut self, operands: &Vec<Operand>, count: u32) -> bool
        ensures puts { result ≡ true → Puts (ApplyTo Length operands.now count) self.old self.new }
        ensures kept { result ≡ false → self.new ≡ self.old }
    {
        if count != 0 {
            return false;
        }
        let [operand] = operands.as_slice() else {
            return false;
        };
        match self.length_of(operand) {
            Some(length) => self.put(length),
            None => false,
        }
    }

    /// The length of an operand's text.
    #[inline(always)]
    fn length_of(&mut self, operand: &Operand) -> Option<i128>
        ensures some { IfSome result (λ n. HasText operand.now (λ text. n ≡ pos (length text)) self.old) }
        ensures same { self.new ≡ self.old }
    {
        match self.span_of(operand) {
            Some(span) => Some((span.end - span.start) as i128),
            None => {
                let text = text_of(self.value_at(operand)?)?;
                Some(text.len() as i128)
            }
        }
    }

    /// Puts the first position of a value's text in that of an operand in the place of the value, or on the stack where it is an operand
    /// too.
    #[inline(always)]
    fn put_position(&mut self, operands: &Vec<Operand>, count: u32) -> bool
        ensures puts { result ≡ true → Puts (ApplyTo Index operands.now count) self.old self.new }
        ensures kept { result ≡ false → self.new ≡ self.old }
    {
        match operands.as_slice() {
            [text, part] => count == 0 && self.put_position_of(text, part),
            [text] => count == 1 && self.replace_by_position(text),
            _ => false,
        }
    }

    /// As `put_position`, of two operands.
    #[inline(always)]
    fn put_position_of(&mut self, text: &Operand, part: &Operand) -> bool
        ensures puts { result ≡ true → PutsApplied Index (text.now ∷ part.now ∷ []) 0 self.old self.new }
        ensures kept { result ≡ false → self.new ≡ self.old }
    {
        let span = self.span_of(text);
        let Some(part) = self.value_at(part) else {
            return false;
        };
        match self.position_at(text, span, part) {
            Some(position) => self.put(position),
            None => false,
        }
    }

    /// As `put_position`, of an operand and the topmost value.
    #[inline(always)]
    fn replace_by_position(&mut self, text: &Operand) -> bool
        ensures puts { result ≡ true → PutsApplied Index (text.now ∷ []) 1 self.old self.new }
        ensures kept { result ≡ false → self.new ≡ self.old }
    {
        let span = self.span_of(text);
        let Some(part) = self.operands.top() else {
            return false;
        };
        let Some(position) = self.position_at(text, span, part) else {
            return false;
        };
        self.operands.replace(Value::Number(position));
        true
    }

    /// The first position of a value's text in that of an operand, which stands there if it is a field.
    #[inline(always)]
    fn position_at(&self, text: &Operand, span: Option<Span>, part: &Value) -> Option<i128>
        requires stands { IfSome span (λ span. HasText text.now (λ t. t ≡ stretch_at self.now.runtime.current.text span) self.now) }
        requires within { IfSome span (IsSpanOf self.now.runtime.current.text) }
        ensures { IfSome result (λ n. HasText text.now (λ t. n ≡ pos (position_of (str_of part.now) t)) self.now) }
    {
        match span {
            Some(span) => {
                let record = self.runtime.current.text_at_hand()?;
                position_in(&record.as_slice()[span.start..span.end], part)
            }
            None => {
                let text = text_of(self.value_at(text)?)?;
                position_in(text.as_slice(), part)
            }
        }
    }

    /// Puts the part of an operand's text at positions in their place, or on the stack where they are operands too.
    #[inline(always)]
    fn put_substring(&mut self, operands: &Vec<Operand>, count: u32) -> bool
        ensures puts { result ≡ true → Puts (ApplyTo Substr operands.now count) self.old self.new }
        ensures kept { result ≡ false → self.new ≡ self.old }
    {
        let Some((text, others)) = operands.as_slice().split_first() else {
            return false;
        };
        if count == 0 {
            return self.put_part(text, others);
        }
        others.is_empty() && self.replace_by_part(text, count)
    }

    /// As `put_substring`, of positions that are operands.
    #[inline(always)]
    fn put_part(&mut self, text: &Operand, positions: &[Operand]) -> bool
        ensures puts { result ≡ true → PutsApplied Substr (text.now ∷ positions.now) 0 self.old self.new }
        ensures kept { result ≡ false → self.new ≡ self.old }
    {
        let Some(positions) = self.positions_at(positions) else {
            return false;
        };
        match self.part_at(text, positions) {
            Some(part) => self.operands.push(part).is_ok(),
            None => false,
        }
    }

    /// As `put_substring`, of so many values.
    #[inline(always)]
    fn replace_by_part(&mut self, text: &Operand, count: u32) -> bool
        ensures puts { result ≡ true → PutsApplied Substr (text.now ∷ []) count self.old self.new }
        ensures kept { result ≡ false → self.new ≡ self.old }
    {
        let Some(positions) = self.newest_positions(count) else {
            return false;
        };
        let Some(part) = self.part_at(text, positions) else {
            return false;
        };
        if count == 1 {
            self.operands.replace(part);
            return true;
        }
        self.operands.pop();
        self.operands.replace(part);
        true
    }

    /// The positions that operands are, if they are numbers at hand.
    #[inline(always)]
    fn positions_at(&self, operands: &[Operand]) -> Option<Positions>
        ensures { IfSome result (λ positions. AreAtHand operands.now (position_values positions) self.now) }
    {
        match operands {
            [start] => Some(Positions {
                start: self.number_at(start)?,
                count: None,
            }),
            [start, count] => Some(Positions {
                start: self.number_at(start)?,
                count: Some(self.number_at(count)?),
            }),
            _ => None,
        }
    }

    /// The positions that so many of the topmost values are, if they are numbers.
    #[inline(always)]
    fn newest_positions(&self, count: u32) -> Option<Positions>
        ensures are { IfSome result (λ positions. taken count self.now.operands.values ≡ position_values positions) }
        ensures count { IfSome result (λ positions. count ≡ length (position_values positions)) }
    {
        match self.operands.newest(count as usize) {
            [Value::Number(start)] if count == 1 => Some(Positions {
                start: *start,
                count: None,
            }),
            [Value::Number(start), Value::Number(length)] if count == 2 => Some(Positions {
                start: *start,
                count: Some(*length),
            }),
            _ => None,
        }
    }

    /// The part of an operand's text at positions.
    #[inline(always)]
    fn part_at(&mut self, text: &Operand, positions: Positions) -> Option<Value>
        ensures some { IfSome result (λ part. HasText text.now (λ t. part ≡ Text (substr_of t positions.start positions.count)) self.old) }
        ensures same { self.new ≡ self.old }
    {
        match self.span_of(text) {
            Some(span) => {
                let record = self.runtime.current.text_at_hand()?;
                part_in(record, span, positions)
            }
            None => {
                let text = text_of(self.value_at(text)?)?;
                let whole = Span {
                    start: 0,
                    end: text.len(),
                };
                part_in(text, whole, positions)
            }
        }
    }

    /// What a built-in function makes of operands, and of so many values behind them, of any kind.
    #[inline(never)]
    pub(crate) fn apply_to(
        &mut self,
        function: BuiltIn,
        operands: &Vec<Operand>,
        count: u32,
    ) -> Result<Value, Halt>
        ensures { Computes (ApplyTo function operands.now count) self.old result self.new }
    {
        let mut arguments = self.read_operands(operands.as_slice())?;
        push_copies(&mut arguments, self.operands.newest(count as usize))?;
        let value = self.runtime.apply_function(function, arguments.as_slice())?;
        self.operands.drop(count as usize);
        Ok(value)
    }

    /// The values of operands.
    fn read_operands(&mut self, operands: &[Operand]) -> Result<Vec<Value>, Halt>
        ensures { ReadsAll operands.now self.old (items_in result) self.new }
    {
        let mut values = Vec::new(self.runtime.alloc);
        for operand in operands {
            let value = self.read_operand(operand)?;
            values.push(value)?;
        }
        Ok(values)
    }
}
