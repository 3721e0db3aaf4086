// Texts that are appended to variables.

ghost use Rattle.std.specs.Prelude.{◌≡◌, ◌++◌, map, true, false, Ok, Err, OnOk, IfErr};
ghost use Rattle.std.specs.List.{concat};
ghost use Rattle.awk_value.specs.Values.{str_of};
ghost use Rattle.awk_value.specs.declared.value.Value.{Value as AnyValue};
ghost use Rattle.awk_semantics.specs.State.{Run};
ghost use Rattle.awk_storage.specs.declared.position.Place.TheVariants.{Variable as VariablePlace, Element};
ghost use Rattle.awk_runtime.specs.support.Appends.{LetsGo, AppendsText, AppendsAt, appended};
ghost use Rattle.awk_runtime.specs.support.Simulation.{Changes};
ghost use Rattle.awk_runtime.specs.support.Keys.{key_value, StandsIn};

use crate::keys::{ElementKey, subscript_of};
use crate::runtime::Runtime;
use awk_functions::{append, append_each};
use awk_semantics::Halt;
use awk_storage::{Array, Variable};
use awk_value::{Value, ValueFault, text_of};
use std::alloc::Global;

// Appends bytes to the text of a value, which so becomes a text that was made. The fault is `Memory`.
#[inline(always)]
fn append_bytes(alloc: Global, value: &mut Value, bytes: &[u8]) -> Result<(), ValueFault>
    ensures text { OnOk result (value.new ≡ AnyValue.Text (str_of value.old ++ bytes.now)) }
    ensures fault { IfErr result (λ fault. fault ≡ ValueFault.Memory) }
{
    if let Value::Text(text) = value {
        text.extend_from_slice(alloc, bytes)?;
        return Ok(());
    }
    let mut text = text_of(alloc, value)?;
    text.extend_from_slice(alloc, bytes)?;
    *value = Value::Text(text);
    Ok(())
}

impl Runtime {
    /// Gives a variable the text of a value that it held, with that of another one behind it; gives what it then holds. The text
    /// grows in its own memory, in time of what is appended on the mean, where nothing but a variable of the program or a parameter
    /// shares it. The faults are those of the variable. (POSIX awk, Expressions in awk: string concatenation)
    pub fn append_to(
        &mut self,
        variable: Variable,
        left: Value,
        right: &Value,
    ) -> Result<Value, Halt>
        ensures { Changes (appended self.old.names.scalars variable left right.now) self.old self.new result }
    {
        self.let_go(variable);
        let text = append(self.alloc, left, right)?;
        self.put_variable(variable, text)?;
        self.read_variable(variable)
    }

    /// Appends the texts of values, one behind the other, to that of what a variable of the program holds, where it stands: whether it
    /// is such a variable, and else nothing changes. A text that was made grows in its own memory, where nothing shares it. The fault
    /// is F1, and may leave some of them appended. (POSIX awk, Expressions in awk: string concatenation)
    #[inline(always)]
    pub fn append_in_place(&mut self, variable: &Variable, parts: &[Value]) -> Result<bool, Halt>
        ensures appends { result ≡ Ok true → AppendsText variable.now (AnyValue.Text (concat (map str_of parts.now))) self.old self.new }
        ensures kept { result ≡ Ok false → self.new ≡ self.old }
        ensures refused { IfErr result (λ halt. (run : Run AnyValue) → Changes run self.old self.new (Err halt)) }
    {
        let Variable::Global(slot) = variable else {
            return Ok(false);
        };
        self.names.law_of_slots();
        let slot = *slot as usize;
        if slot >= self.globals.len() {
            return Ok(false);
        }
        append_each(self.alloc, &mut self.globals[slot], parts)?;
        Ok(true)
    }

    /// Appends bytes to the text of what a variable of the program holds, where it stands: whether it is such a variable, and else
    /// nothing changes. A text that was made grows in its own memory, where nothing shares it. The fault is F1. (POSIX awk,
    /// Expressions in awk: string concatenation)
    #[inline(always)]
    pub fn append_bytes_to(&mut self, variable: &Variable, bytes: &[u8]) -> Result<bool, Halt>
        ensures appends { result ≡ Ok true → (operand : AnyValue) → AppendsAt (VariablePlace variable.now) operand bytes.now self.old self.new }
        ensures kept { result ≡ Ok false → self.new ≡ self.old }
        ensures refused { IfErr result (λ halt. (run : Run AnyValue) → Changes run self.old self.new (Err halt)) }
    {
        let Variable::Global(slot) = variable else {
            return Ok(false);
        };
        self.names.law_of_slots();
        let slot = *slot as usize;
        if slot >= self.globals.len() {
            return Ok(false);
        }
        append_bytes(self.alloc, &mut self.globals[slot], bytes)?;
        Ok(true)
    }

    /// As `append_bytes_to`, of the element at a key, if it is there and the key is at hand.
    #[inline(always)]
    pub fn append_bytes_in(
        &mut self,
        array: Array,
        key: ElementKey,
        bytes: &[u8],
    ) -> Result<bool, Halt>
        requires { StandsIn self.old.current.text key }
        ensures appends { result ≡ Ok true → AppendsAt (Element array) (key_value self.old.current.text key.entry) bytes.now self.old self.new }
        ensures kept { result ≡ Ok false → self.new ≡ self.old }
        ensures refused { IfErr result (λ halt. (run : Run AnyValue) → Changes run self.old self.new (Err halt)) }
    {
        let number = self.number_at(array);
        let Some(key) = subscript_of(&self.current, key) else {
            return Ok(false);
        };
        let Some(text) = self.arrays.value_mut(number as usize, key) else {
            return Ok(false);
        };
        append_bytes(self.alloc, text, bytes)?;
        Ok(true)
    }

    /// Lets go of what a variable of the program or a parameter holds, before it is given a value.
    fn let_go(&mut self, variable: Variable)
        ensures { LetsGo variable self.old self.new }
    {
        self.names.law_of_slots();
        match variable {
            Variable::Global(slot) => {
                if (slot as usize) < self.globals.len() {
                    self.globals[slot as usize] = Value::Nothing;
                }
            }
            Variable::Local(index) => self.frames.set_value(index as usize, Value::Nothing),
            Variable::Special(_) | Variable::FieldCount => {}
        }
    }
}
