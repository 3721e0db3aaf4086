// Variables, ranges and the exit status.

ghost use Rattle.std.specs.Prelude.{◌≡◌, ◌<◌, ℕ, false, vec_len, unwrap_or, slice_get, None, OnOk};
ghost use Rattle.awk_runtime.specs.support.Simulation.{Changes};
ghost use Rattle.awk_semantics.specs.Results.{Yields};
ghost use Rattle.awk_semantics.specs.Inputs.{text_or_fault, assign_text};
ghost use Rattle.awk_runtime.specs.support.Naming.{is_unassignable_among};
ghost use Rattle.awk_semantics.specs.Primitives.{put_outside, put_special, count_in, is_inside, set_inside, set_status};
ghost use Rattle.awk_semantics.specs.Streams.{begin_input, note_input};
ghost use Rattle.awk_storage.specs.Positions.{read_variable, put_variable, read_local, put_local, read_slot, put_slot};
ghost use Rattle.awk_lex.specs.Escapes.{unescaped};
ghost use Rattle.awk_storage.specs.Positions.{assign_by_at};
ghost use Rattle.awk_storage.specs.declared.position.Place.TheVariants.{Variable as VariablePlace};
ghost use Rattle.awk_storage.specs.declared.position.Variable.TheVariants.{Global as GlobalVariable};
ghost use Rattle.awk_value.specs.declared.value.Value.TheVariants.{Nothing};
ghost use Rattle.awk_runtime.specs.support.Updates.{Gives};

use crate::names::is_field_count;
use crate::runtime::Runtime;
use awk_functions::{exit_status, raise};
use awk_kinds::Special;
use awk_lex::escapes::{EscapeFault, unescape};
use awk_lex::words::{is_left_out, is_reserved};
use awk_semantics::{Fault, Halt, Local};
use awk_storage::Variable;
use awk_value::{Bytes, Value, number_of};
use std::alloc::{AllocFailed, Global};

/// Adds ranges that aren't inside, until there is one of this number.
fn reserve_range(inside: &mut Vec<bool>, number: usize) -> Result<(), AllocFailed<bool>>
    ensures room { OnOk result (number < vec_len inside.new) }
    ensures same { (n : ℕ) → unwrap_or (slice_get inside.new.items n) false ≡ unwrap_or (slice_get inside.old.items n) false }
{
    while inside.len() <= number {
        inside.push(false)?;
    }
    Ok(())
}

/// The bytes that the text of an assignment stands for.
fn unescaped_text(alloc: Global, text: &[u8]) -> Result<Bytes, Halt>
    ensures { Yields result (text_or_fault (unescaped text.now)) }
{
    let mut bytes = Vec::new(alloc);
    match unescape(text, &mut bytes) {
        Ok(()) => Ok(Bytes::from_vec(alloc, bytes)?),
        Err(EscapeFault::Memory) => Err(Halt::Fault(Fault::OutOfMemory)),
        Err(EscapeFault::BadEscape) => Err(Halt::Fault(Fault::AssignmentRefused)),
    }
}

impl Runtime {
    /// The value of a variable, by its position; a slot or a parameter that isn't there has none. The fault is F1. (POSIX awk,
    /// Variables and Special Variables)
    #[inline(always)]
    pub fn read_variable(&mut self, variable: Variable) -> Result<Value, Halt>
        ensures { Changes (read_variable self.old.names.scalars variable) self.old self.new result }
    {
        match variable {
            Variable::Special(special) => Ok(self.specials.special(special).clone()?),
            Variable::FieldCount => self.field_count(),
            Variable::Global(slot) => self.read_global(slot),
            Variable::Local(index) => self.read_local(index),
        }
    }

    /// The value of a variable of the program, by its slot.
    #[inline(always)]
    fn read_global(&mut self, slot: u32) -> Result<Value, Halt>
        ensures { Changes (read_slot (slice_get self.old.names.scalars slot)) self.old self.new result }
    {
        self.names.law_of_slots();
        match self.globals.get(slot as usize) {
            Some(value) => Ok(value.clone()?),
            None => Ok(Value::Nothing),
        }
    }

    /// The value of a parameter of the newest call; an array has none.
    #[inline(always)]
    fn read_local(&mut self, index: u32) -> Result<Value, Halt>
        ensures { Changes (read_local index) self.old self.new result }
    {
        match self.frames.local(index as usize) {
            Some(Local::Value(value)) => Ok(value.clone()?),
            Some(Local::Array(_)) => Ok(Value::Nothing),
            None => Ok(Value::Nothing),
        }
    }

    /// Gives a variable a value. NF makes the record anew (F3, F8), a value of FS must separate (F6), and a parameter that is an
    /// array stays one. The other fault is F1. (POSIX awk, Variables and Special Variables)
    #[inline(always)]
    pub fn put_variable(&mut self, variable: Variable, value: Value) -> Result<(), Halt>
        ensures { Changes (put_variable self.old.names.scalars variable value) self.old self.new result }
    {
        match variable {
            Variable::Special(special) => self.put_special(special, value),
            Variable::FieldCount => self.set_field_count(&value),
            Variable::Global(slot) => self.put_global(slot as usize, value),
            Variable::Local(index) => self.put_local(index, value),
        }
    }

    /// Gives a variable a value, of which no copy is made. The faults are those of `put_variable`.
    #[inline(never)]
    pub fn assign_variable(&mut self, variable: Variable, value: Value) -> Result<(), Halt>
        ensures { Gives (assign_by_at self.old.names.scalars None (VariablePlace variable) Nothing value) self.old result self.new }
    {
        self.put_variable(variable, value)?;
        if let Some(_) = self.value_in(variable) {
            return Ok(());
        }
        self.read_variable(variable)?;
        Ok(())
    }

    /// The same of a variable of the program, by its slot.
    #[inline(always)]
    pub fn assign_global(&mut self, slot: u32, value: Value) -> Result<(), Halt>
        ensures { Gives (assign_by_at self.old.names.scalars None (VariablePlace (GlobalVariable slot)) Nothing value) self.old result self.new }
    {
        self.put_global(slot as usize, value)?;
        if let Some(_) = self.value_in(Variable::Global(slot)) {
            return Ok(());
        }
        self.read_variable(Variable::Global(slot))?;
        Ok(())
    }

    /// Gives a variable of the program a value, by its slot.
    #[inline(always)]
    fn put_global(&mut self, slot: usize, value: Value) -> Result<(), Halt>
        ensures { Changes (put_slot (slice_get self.old.names.scalars slot) value) self.old self.new result }
    {
        self.names.law_of_slots();
        if slot < self.globals.len() {
            self.globals[slot].receive(value, self.alloc)?;
        }
        Ok(())
    }

    /// Gives a parameter of the newest call a value, where it is no array.
    #[inline(always)]
    fn put_local(&mut self, index: u32, value: Value) -> Result<(), Halt>
        ensures { Changes (put_local index value) self.old self.new result }
    {
        if value.is_settled() {
            self.frames.set_value(index as usize, value);
            return Ok(());
        }
        let value = value.settled(self.alloc)?;
        self.frames.set_value(index as usize, value);
        Ok(())
    }

    /// Gives a special variable a value. Only FS is refused one: F6, of a text that separates nothing, or F1. (POSIX awk,
    /// Variables and Special Variables)
    pub(crate) fn put_special(&mut self, special: Special, value: Value) -> Result<(), Halt>
        ensures { Changes (put_special special value) self.old self.new result }
    {
        self.names.law_of_slots();
        let value = value.settled(self.alloc)?;
        Ok(self.specials.set_special(special, value)?)
    }

    /// Raises a special variable's number by 1. The faults are F1 and F3. (POSIX awk, Variables and Special Variables: NR, FNR)
    pub(crate) fn count_in(&mut self, special: Special) -> Result<(), Halt>
        ensures { Changes (count_in special) self.old self.new result }
    {
        let count = raise(self.specials.special(special))?;
        self.put_special(special, count)
    }

    /// Gives a name a text from the command line, in which the escapes of a string stand for their bytes. F14 is the fault of a
    /// keyword, a built-in, an array, a function, and of a bad escape; the others are those of the variable. (POSIX awk, OPTIONS:
    /// -v; OPERANDS)
    pub fn assign_text(&mut self, name: &[u8], text: &[u8]) -> Result<(), Halt>
        ensures { Changes (assign_text name.now text.now) self.old self.new result }
    {
        if self.is_unassignable(name) {
            return Err(Halt::Fault(Fault::AssignmentRefused));
        }
        let text = unescaped_text(self.alloc, text)?;
        self.put_outside(name, Value::Input(text))
    }

    /// Whether no command line assigns the name: a keyword, a built-in, one that is left out, an array or a function.
    fn is_unassignable(&self, name: &[u8]) -> bool
        ensures { result ≡ is_unassignable_among self.now.names name.now }
    {
        is_reserved(name)
            || is_left_out(name)
            || self.names.is_array(name)
            || self.names.is_function(name)
    }

    /// Gives a name of the whole program a value. One that is no variable of the program has no effect that it sees.
    fn put_outside(&mut self, name: &[u8], value: Value) -> Result<(), Halt>
        ensures { Changes (put_outside name.now value) self.old self.new result }
    {
        if is_field_count(name) {
            return self.set_field_count(&value);
        }
        if let Some(special) = Special::named(name) {
            return self.put_special(special, value);
        }
        match self.names.slot_of(name) {
            Some(slot) => self.put_global(slot, value),
            None => Ok(()),
        }
    }

    /// Begins a main input: FILENAME is its name, and FNR 0; standard input is no longer wanted. (POSIX awk, Variables and Special
    /// Variables)
    pub(crate) fn begin_input(&mut self, name: Bytes) -> Result<(), Halt>
        ensures { Changes (begin_input name) self.old self.new result }
    {
        self.put_special(Special::Filename, Value::Input(name))?;
        self.put_special(Special::Fnr, Value::Number(0))?;
        self.note_input()
    }

    /// Notes that a main input was found.
    fn note_input(&mut self) -> Result<(), Halt>
        ensures { Changes note_input self.old self.new result }
    {
        self.input_seen = true;
        Ok(())
    }

    /// Whether a range is inside, by the number of its item.
    pub fn is_inside(&self, number: usize) -> bool
        ensures { Changes (is_inside number) self.now self.now (Ok result) }
    {
        match self.inside.get(number) {
            Some(is_inside) => *is_inside,
            None => false,
        }
    }

    /// Notes whether a range is inside, by the number of its item. The fault is F1.
    pub fn set_inside(&mut self, number: usize, is_inside: bool) -> Result<(), Halt>
        ensures { Changes (set_inside number is_inside) self.old self.new result }
    {
        reserve_range(&mut self.inside, number)?;
        self.inside[number] = is_inside;
        Ok(())
    }

    /// Sets the exit status to that of a value's number. The fault is F3. (POSIX awk, Actions: exit)
    pub fn set_status(&mut self, value: &Value) -> Result<(), Halt>
        ensures { Changes (set_status value.now) self.old self.new result }
    {
        self.status = exit_status(number_of(value)?);
        Ok(())
    }
}
