// A line that is printed of what is read where it stands: the texts are joined in the memory of the line that prints make.

ghost use Rattle.std.specs.Prelude.{◌≡◌, ◌≤◌, ◌++◌, List, [], length, map, slice_range, true, false, Ok};
ghost use Rattle.awk_value.specs.Values.{str_of};
ghost use Rattle.awk_value.specs.declared.value.Value.{Value as ValueView};
ghost use Rattle.awk_kinds.specs.declared.special.Special.TheVariants.{Ofs};
ghost use Rattle.awk_kinds.specs.Variables.{value_of, name_of};
ghost use Rattle.awk_storage.specs.Positions.{read_variable};
ghost use Rattle.awk_semantics.specs.Operators.{join};
ghost use Rattle.awk_semantics.specs.Primitives.{read_field, print_line};
ghost use Rattle.awk_streams.specs.declared.streams.Target.TheVariants.{StandardOutput};
ghost use Rattle.awk_runtime.specs.support.Simulation.{IsReady, SameState};
ghost use Rattle.awk_runtime.specs.support.Printing.{PrintsTo};
ghost use Rattle.awk_runtime.specs.support.Lines.{AppendsText};

use crate::outputs::text_at_hand;
use crate::runtime::Runtime;
use awk_kinds::Special;
use awk_storage::Variable;
use awk_streams::World;
use awk_value::{Value, append_text};
use std::mem;

/// So many bytes are appended by a copy of a fixed size.
const FIXED: usize = 16;

/// Appends a stretch of a text, and few bytes by a copy of a fixed size, where there are so many behind them and room for as many.
/// `false` where memory is refused.
#[inline(always)]
fn append_stretch(line: &mut Vec<u8>, text: &[u8], start: usize, end: usize) -> bool
    requires ordered { start ≤ end }
    requires within { end ≤ length text.now }
    ensures { result ≡ true → line.new.items ≡ line.old.items ++ slice_range text.now start end }
{
    let count = end - start;
    if count > FIXED || text.len() - start < FIXED || line.capacity() - line.len() < FIXED {
        return line.extend_from_slice(&text[start..end]).is_ok();
    }
    let behind = line.len() + count;
    match line.extend_from_slice(&text[start..start + FIXED]) {
        Ok(()) => {
            line.truncate(behind);
            true
        }
        Err(_) => false,
    }
}

/// Appends bytes, which often are but one. `false` where memory is refused.
#[inline(always)]
fn append_bytes(line: &mut Vec<u8>, bytes: &[u8]) -> bool
    ensures { result ≡ true → line.new.items ≡ line.old.items ++ bytes.now }
{
    match bytes {
        [byte] => line.push(*byte).is_ok(),
        bytes => line.extend_from_slice(bytes).is_ok(),
    }
}

/// Appends the text of a value to a line, and few bytes by a copy of a fixed size, for which room is made. `false` where memory is refused.
#[inline(always)]
pub fn append_value(line: &mut Vec<u8>, value: &Value) -> bool
    ensures { result ≡ true → line.new.items ≡ line.old.items ++ str_of value.now }
{
    if line.capacity() - line.len() < FIXED && line.reserve(FIXED).is_err() {
        return false;
    }
    if let Value::Text(text) | Value::Input(text) = value
        && text.put_within(line, usize::MAX)
    {
        return true;
    }
    append_text(value, line).is_ok()
}

impl Runtime {
    /// Lends the memory of the line that prints make, which is empty. `take_line_back` follows.
    #[inline(always)]
    pub fn lend_line(&mut self) -> Vec<u8>
        ensures empty { result.items ≡ [] }
        ensures same { SameState self.old self.new }
    {
        let mut line = mem::replace(&mut self.line, Vec::new(self.alloc));
        line.clear();
        line
    }

    /// Takes the memory of the line back, for its room.
    #[inline(always)]
    pub fn take_line_back(&mut self, line: Vec<u8>)
        ensures { SameState self.old self.new }
    {
        self.line = line;
    }

    /// Appends the text of OFS to a line. `false` where it isn't at hand, or memory is refused.
    #[inline(always)]
    pub fn join_separator(&self, line: &mut Vec<u8>) -> bool
        ensures { result ≡ true → line.new.items ≡ line.old.items ++ str_of (value_of self.now.specials (name_of Ofs)) }
    {
        match text_at_hand(self.specials.special(Special::Ofs)) {
            Some(text) => append_bytes(line, text.as_slice()),
            None => false,
        }
    }

    /// Appends the text of the field of a number to a line. `false` where it isn't at hand, or memory is refused.
    #[inline(always)]
    pub fn join_field(&mut self, line: &mut Vec<u8>, number: i128) -> bool
        ensures appends { result ≡ true → AppendsText (read_field number) self.old line.old.items line.new.items }
        ensures same { self.new ≡ self.old }
    {
        let Some(span) = self.current.stretch(number) else {
            return self.join_other_field(line, number);
        };
        let Some(text) = self.current.text_at_hand() else {
            return false;
        };
        append_stretch(line, text.as_slice(), span.start, span.end)
    }

    /// As `join_field`, of a field that is no stretch of the record.
    #[inline(never)]
    fn join_other_field(&mut self, line: &mut Vec<u8>, number: i128) -> bool
        ensures appends { result ≡ true → AppendsText (read_field number) self.old line.old.items line.new.items }
        ensures same { self.new ≡ self.old }
    {
        match self.field_at_hand(number) {
            Some(value) => append_text(&value, line).is_ok(),
            None => false,
        }
    }

    /// Appends the text of a variable whose number is found to a line. `false` where it isn't at hand, or memory is refused.
    #[inline(never)]
    pub fn join_variable(&mut self, line: &mut Vec<u8>, variable: Variable) -> bool
        ensures appends { result ≡ true → AppendsText (read_variable self.old.names.scalars variable) self.old line.old.items line.new.items }
        ensures same { self.new ≡ self.old }
    {
        match self.number_in(variable) {
            Some(n) => append_text(&Value::Number(n), line).is_ok(),
            None => false,
        }
    }

    /// Prints the joined texts of values as a line to standard output, where the text of ORS is at hand and both can be held back as
    /// they stand: nothing is asked of the world then. `false`, and nothing changes, elsewhere. (POSIX awk, Output Statements)
    #[inline(always)]
    pub fn hold_joined<W: World>(&mut self, world: &W, line: &[u8]) -> bool
        requires ready { IsReady W.is_logged (W.state world.now) self.old.streams }
        ensures ready { IsReady W.is_logged (W.state world.now) self.new.streams }
        ensures kept { result ≡ false → self.new ≡ self.old }
        ensures prints { result ≡ true → (values : List ValueView) → line.now ≡ join (str_of (value_of self.old.specials (name_of Ofs))) (map str_of values) →
            PrintsTo W.is_logged StandardOutput (λ n. print_line n values) self.old (W.state world.now) self.new (W.state world.now) (Ok tt) }
    {
        let Some(end) = text_at_hand(self.specials.special(Special::Ors)) else {
            return false;
        };
        self.streams.hold(line, end.as_slice())
    }
}
