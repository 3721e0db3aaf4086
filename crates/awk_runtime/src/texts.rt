// Functions over texts.

ghost use Rattle.std.specs.Prelude.{◌≡◌, ◌++◌, pos, map, Ok, OnOk};
ghost use Rattle.std.specs.List.{concat};
ghost use Rattle.awk_value.specs.Values.{str_of};
ghost use Rattle.awk_value.specs.declared.value.Value.TheVariants.{Number, Text};
ghost use Rattle.awk_text.specs.Pieces.{stretches_at, AreSpansOf};
ghost use Rattle.awk_semantics.specs.State.{lift};
ghost use Rattle.awk_semantics.specs.Primitives.{record_text};
ghost use Rattle.awk_semantics.specs.Operators.{applied, pattern_in};
ghost use Rattle.awk_semantics.specs.BuiltIns.{applied_all, note_match};
ghost use Rattle.awk_storage.specs.Forms.{match_in, split_with, substitute_at};
ghost use Rattle.awk_storage.specs.Positions.{read_variable, store_at};
ghost use Rattle.awk_functions.specs.support.Matched.{found, exchanged_by};
ghost use Rattle.awk_functions.specs.support.Spelling.{spelling_of, separator_for};
ghost use Rattle.awk_runtime.specs.support.Naming.{ere_at};
ghost use Rattle.awk_runtime.specs.support.Simulation.{Changes};
ghost use Rattle.awk_runtime.specs.support.Spelled.{spelled, separator_spelled, separation, pieces_by, with_pieces};
ghost use Rattle.awk_runtime.specs.support.Spelled.{record_tested, as_truth, exchange_read, substitute_in_variable, substitute_in_record};

use crate::names::ProgramNames;
use crate::runtime::Runtime;
use awk_functions::{
    Exchanged, PatternOperand, append, apply, apply_function, concatenate_all, length_of, start_of,
    truth_value,
};
use awk_kinds::Special;
use awk_lex::token::{BuiltIn, Operator};
use awk_semantics::{Halt, Local};
use awk_storage::{Array, Place, Variable};
use awk_text::Span;
use awk_value::{Bytes, Value, text_of};

/// What spells a pattern: an ERE of the program, by its number, or a value, by its text. (POSIX awk, Regular Expressions)
#[derive(Clone, Copy)]
pub enum PatternSource<'a> {
    Ere(u32),
    Value(&'a Value),
}

// The pattern's text, or the value that has it.
fn operand<'a>(names: &'a ProgramNames, source: PatternSource<'a>) -> PatternOperand<'a>
    ensures spelling { spelling_of result ≡ spelled names.now source.entry }
    ensures separator { separator_for result ≡ separator_spelled names.now source.entry }
{
    match source {
        PatternSource::Ere(number) => PatternOperand::Ere(number as usize, names.ere(number)),
        PatternSource::Value(value) => PatternOperand::Value(value),
    }
}

impl Runtime {
    /// What a built-in function of values alone makes of them. (POSIX awk, Arithmetic Functions; String Functions)
    pub fn apply_function(&mut self, function: BuiltIn, values: &[Value]) -> Result<Value, Halt>
        ensures { Changes (lift (applied_all function values.now)) self.old self.new result }
    {
        apply_function(function, values, &mut self.formats, self.alloc)
    }

    /// The texts of two values, one behind the other. (POSIX awk, Expressions in awk: string concatenation)
    pub fn concatenate(&self, left: Value, right: &Value) -> Result<Value, Halt>
        ensures { Changes (lift (Ok (Text (str_of left ++ str_of right.now)))) self.now self.now result }
    {
        append(self.alloc, left, right)
    }

    /// The texts of values, one behind the other. (POSIX awk, Expressions in awk: string concatenation)
    pub fn concatenate_all(&self, values: &[Value]) -> Result<Value, Halt>
        ensures { Changes (lift (Ok (Text (concat (map str_of values.now))))) self.now self.now result }
    {
        concatenate_all(self.alloc, values)
    }

    /// Whether the record has a match of an ERE of the program, by its number, as a value. (POSIX awk, Expressions in awk; Regular
    /// Expressions)
    pub fn record_matches(&mut self, ere: u32) -> Result<Value, Halt>
        ensures { Changes (record_tested (ere_at self.old.names ere)) self.old self.new result }
    {
        Ok(truth_value(self.record_has_match(ere)?))
    }

    /// Whether the record has a match of an ERE of the program, by its number. (POSIX awk, Expressions in awk; Regular
    /// Expressions)
    #[inline(always)]
    pub fn record_has_match(&mut self, ere: u32) -> Result<bool, Halt>
        ensures { Changes (record_tested (ere_at self.old.names ere)) self.old self.new (as_truth result) }
    {
        if let Some(text) = self.current.text_at_hand() {
            let spelling = self.names.ere(ere);
            if let Some(holds) = self
                .patterns
                .matches_read(ere as usize, spelling, text.as_slice())
            {
                return Ok(holds);
            }
        }
        self.made_record_has_match(ere)
    }

    // As `record_has_match`, of a record whose text may still have to be made of its fields.
    #[inline(never)]
    fn made_record_has_match(&mut self, ere: u32) -> Result<bool, Halt>
        ensures { Changes (record_tested (ere_at self.old.names ere)) self.old self.new (as_truth result) }
    {
        let text = self.current.text()?;
        let pattern = operand(&self.names, PatternSource::Ere(ere));
        self.patterns.matches_text(text.as_slice(), pattern)
    }

    /// What `~` or `!~` makes of a value and an ERE of the program, by its number. (POSIX awk, Expressions in awk; Regular
    /// Expressions)
    pub fn matches_ere(
        &mut self,
        operator: Operator,
        value: &Value,
        ere: u32,
    ) -> Result<Value, Halt>
        ensures { Changes (lift (applied operator value.now (Text (ere_at self.old.names ere))))
            self.old self.new result }
    {
        let pattern = operand(&self.names, PatternSource::Ere(ere));
        match operator {
            Operator::Matches => Ok(truth_value(self.patterns.matches(value, pattern)?)),
            Operator::NotMatches => Ok(truth_value(!self.patterns.matches(value, pattern)?)),
            operator => {
                let text = Value::Text(Bytes::from_slice(self.alloc, self.names.ere(ere))?);
                apply(operator, value, &text, &mut self.patterns)
            }
        }
    }

    // The first match of a pattern in a value's text, and of those that begin there the longest.
    fn find(&mut self, text: &Value, pattern: PatternSource) -> Result<Option<Span>, Halt>
        ensures { Changes (lift (found (pattern_in (spelled self.old.names pattern.entry)) (str_of text.now)))
            self.old self.new result }
    {
        let pattern = operand(&self.names, pattern);
        self.patterns.find(text, pattern)
    }

    // Sets RSTART and RLENGTH by what was found, and gives RSTART.
    fn note_match(&mut self, found: Option<Span>) -> Result<Value, Halt>
        ensures { Changes (note_match found) self.old self.new result }
    {
        let start = start_of(found);
        self.put_special(Special::Rstart, Value::Number(start))?;
        self.put_special(Special::Rlength, Value::Number(length_of(found)))?;
        Ok(Value::Number(start))
    }

    /// The position of the first match of a pattern in a value's text, or 0; RSTART and RLENGTH are set by it. (POSIX awk,
    /// String Functions: match)
    pub fn match_in(&mut self, text: &Value, pattern: PatternSource) -> Result<Value, Halt>
        ensures { Changes (match_in (spelled self.old.names pattern.entry) (str_of text.now)) self.old self.new result }
    {
        let found = self.find(text, pattern)?;
        self.note_match(found)
    }

    // Finds the pieces of a text between the separators that a pattern's source stands for, or for want of one FS.
    fn find_pieces(&mut self, text: &[u8], separator: Option<PatternSource>) -> Result<(), Halt>
        ensures pieces { Changes (pieces_by (separation self.old.names separator.entry) text.now) self.old self.new
            (with_pieces (stretches_at text.now self.new.spans.items) result) }
        ensures within { OnOk result (AreSpansOf text.now self.new.spans.items) }
    {
        match separator {
            Some(source) => {
                let source = operand(&self.names, source);
                self.patterns.split(text, source, &mut self.spans)
            }
            None => {
                let separator = self.specials.field_separator();
                self.patterns
                    .split_by_text(text, separator, &mut self.spans)
            }
        }
    }

    /// Empties an array, and gives it the pieces of a value's text between separators, at the keys from 1 on; gives their
    /// number. The separator is a pattern's source, of which a value is read as FS is, or for want of one what FS stands for.
    /// (POSIX awk, String Functions: split)
    pub fn split(
        &mut self,
        array: Array,
        text: &Value,
        separator: Option<PatternSource>,
    ) -> Result<Value, Halt>
        ensures { Changes (split_with array (str_of text.now) (separation self.old.names separator.entry))
            self.old self.new result }
    {
        let text = text_of(self.alloc, text)?;
        self.find_pieces(text.as_slice(), separator)?;
        let count = self.spans.len();
        self.fill_at(array, &text)?;
        Ok(Value::Number(count as i128))
    }

    // A value's text with its first match exchanged, or with `all` each match, and how many that are.
    #[inline(never)]
    fn exchange(
        &mut self,
        all: bool,
        pattern: PatternSource,
        replacement: &Value,
        text: &Value,
    ) -> Result<Option<Exchanged>, Halt>
        ensures { Changes (lift (exchanged_by all (pattern_in (spelled self.old.names pattern.entry))
            (str_of replacement.now) (str_of text.now))) self.old self.new result }
    {
        let pattern = operand(&self.names, pattern);
        self.patterns.exchange(pattern, replacement, text, all)
    }

    /// Exchanges the first match of a pattern in the old value of a place, or with `all` each match, and gives the place the
    /// text, if there was one; gives how many that were. (POSIX awk, String Functions: sub, gsub)
    pub fn substitute(
        &mut self,
        all: bool,
        pattern: PatternSource,
        replacement: &Value,
        place: Place,
        operand: &Value,
        old: &Value,
    ) -> Result<Value, Halt>
        ensures { Changes (substitute_at self.old.names.scalars all (spelled self.old.names pattern.entry)
            (str_of replacement.now) place operand.now old.now) self.old self.new result }
    {
        match self.exchange(all, pattern, replacement, old)? {
            None => Ok(Value::Number(0)),
            Some(exchanged) => {
                self.store_at(place, operand, Value::Text(exchanged.text))?;
                Ok(Value::Number(exchanged.count as i128))
            }
        }
    }

    /// As `substitute`, in the record. (POSIX awk, String Functions: sub, gsub)
    #[inline(always)]
    pub fn substitute_in_record(
        &mut self,
        all: bool,
        pattern: PatternSource,
        replacement: &Value,
    ) -> Result<Value, Halt>
        ensures { Changes (substitute_in_record self.old.names.scalars all (spelled self.old.names pattern.entry)
            (str_of replacement.now)) self.old self.new result }
    {
        match self.exchange_in_record(all, pattern, replacement)? {
            None => Ok(Value::Number(0)),
            Some(exchanged) => {
                self.store_record(exchanged.text)?;
                Ok(Value::Number(exchanged.count as i128))
            }
        }
    }

    // The record's text with its first match exchanged, or with `all` each match, and how many that are.
    #[inline(always)]
    fn exchange_in_record(
        &mut self,
        all: bool,
        pattern: PatternSource,
        replacement: &Value,
    ) -> Result<Option<Exchanged>, Halt>
        ensures { Changes (exchange_read record_text all (spelled self.old.names pattern.entry) (str_of replacement.now)) self.old self.new result }
    {
        if let Some(text) = self.current.text_at_hand() {
            let pattern = operand(&self.names, pattern);
            return self.patterns.exchange_in(pattern, replacement, text, all);
        }
        let old = self.record_text()?;
        self.exchange(all, pattern, replacement, &old)
    }

    /// As `substitute`, in a variable, by an ERE of the program. A text is searched where the variable holds it. (POSIX awk, String
    /// Functions: sub, gsub)
    #[inline(always)]
    pub fn substitute_in_variable(
        &mut self,
        all: bool,
        ere: u32,
        replacement: &Value,
        variable: Variable,
    ) -> Result<Value, Halt>
        ensures { Changes (substitute_in_variable self.old.names.scalars all (ere_at self.old.names ere) (str_of replacement.now) variable)
            self.old self.new result }
    {
        match self.exchange_in_variable(all, ere, replacement, variable)? {
            None => Ok(Value::Number(0)),
            Some(exchanged) => {
                self.put_variable(variable, Value::Text(exchanged.text))?;
                Ok(Value::Number(exchanged.count as i128))
            }
        }
    }

    // A variable's text with its first match exchanged, or with `all` each match, and how many that are.
    #[inline(always)]
    fn exchange_in_variable(
        &mut self,
        all: bool,
        ere: u32,
        replacement: &Value,
        variable: Variable,
    ) -> Result<Option<Exchanged>, Halt>
        ensures { Changes (exchange_read (read_variable self.old.names.scalars variable) all (ere_at self.old.names ere) (str_of replacement.now))
            self.old self.new result }
    {
        self.names.law_of_slots();
        let pattern = operand(&self.names, PatternSource::Ere(ere));
        match variable {
            Variable::Global(slot) => match self.globals.get(slot as usize) {
                Some(old) => self.patterns.exchange(pattern, replacement, old, all),
                None => self.exchange_in_copy(all, ere, replacement, variable),
            },
            Variable::Local(index) => match self.frames.local(index as usize) {
                Some(Local::Value(old)) => self.patterns.exchange(pattern, replacement, old, all),
                _ => self.exchange_in_copy(all, ere, replacement, variable),
            },
            Variable::Special(_) | Variable::FieldCount => {
                self.exchange_in_copy(all, ere, replacement, variable)
            }
        }
    }

    // As `exchange_in_variable`, in a copy of what the variable holds.
    #[inline(never)]
    fn exchange_in_copy(
        &mut self,
        all: bool,
        ere: u32,
        replacement: &Value,
        variable: Variable,
    ) -> Result<Option<Exchanged>, Halt>
        ensures { Changes (exchange_read (read_variable self.old.names.scalars variable) all (ere_at self.old.names ere) (str_of replacement.now))
            self.old self.new result }
    {
        let old = self.read_variable(variable)?;
        self.exchange(all, PatternSource::Ere(ere), replacement, &old)
    }

    // Gives the record a text that was made, as an assignment to `$0` does.
    #[inline(always)]
    fn store_record(&mut self, text: Bytes) -> Result<(), Halt>
        ensures { Changes (store_at self.old.names.scalars Place.Field (Number (pos 0)) (Text text)) self.old self.new result }
    {
        self.set_record(text)
    }
}
