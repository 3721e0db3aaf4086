// Places: what can be assigned.

ghost use Rattle.std.specs.Prelude.{◌≡◌, Ok, IfSome, IfNone};
ghost use Rattle.awk_runtime.specs.support.Simulation.{Changes};
ghost use Rattle.awk_runtime.specs.support.Updates.{Updates, UpdatesVariable};
ghost use Rattle.awk_semantics.specs.Operators.{applied, by_one, one};
ghost use Rattle.awk_value.specs.declared.value.Value.TheVariants.{Number};
ghost use Rattle.awk_storage.specs.declared.position.Place.TheVariants.{Element};
ghost use Rattle.awk_storage.specs.Positions.{read_at, store_at, assign_at, assign_by_at, post_increment_at};

use crate::at_hand::set_number;
use crate::runtime::Runtime;
use awk_functions::{apply_in_short, by_one};
use awk_kinds::Special;
use awk_lex::token::{IncrementOperator, Operator};
use awk_semantics::{Halt, Local};
use awk_storage::{Array, Place, Subscript, Variable};
use awk_value::{Value, number_of};

/// A number that was changed where it stands.
#[derive(Clone, Copy)]
pub(crate) struct Updated {
    pub(crate) before: i128,
    pub(crate) after: i128,
}

/// A value's number, and what an operator makes of it and of another one. `None` where the value is none, or that isn't found in a
/// few steps.
#[inline(always)]
pub(crate) fn update_of(operator: Operator, old: &Value, n: i128) -> Option<Updated>
    ensures before { IfSome result (λ u. old.now ≡ Number u.before) }
    ensures after { IfSome result (λ u. applied operator (Number u.before) (Number n) ≡ Ok (Number u.after)) }
{
    let Value::Number(before) = old else {
        return None;
    };
    let before = *before;
    let after = apply_in_short(operator, before, n)?;
    Some(Updated { before, after })
}

impl Runtime {
    /// What a place holds. The operand is the subscript, or the field's number, that was evaluated before. The faults are F1, and
    /// of a field F3 and F8. (POSIX awk, Expressions in awk: lvalue)
    #[inline(always)]
    pub fn read_at(&mut self, place: Place, operand: &Value) -> Result<Value, Halt>
        ensures { Changes (read_at self.old.names.scalars place operand.now) self.old self.new result }
    {
        match place {
            Place::Variable(variable) => self.read_variable(variable),
            Place::Element(array) => self.read_element_of(array, operand),
            Place::Field => self.read_field(number_of(operand)?),
        }
    }

    /// Gives a place a value. The faults are those of the variable, the array or the field. (POSIX awk, Expressions in awk: lvalue)
    #[inline(always)]
    pub(crate) fn store_at(
        &mut self,
        place: Place,
        operand: &Value,
        value: Value,
    ) -> Result<(), Halt>
        ensures { Changes (store_at self.old.names.scalars place operand.now value) self.old self.new result }
    {
        match place {
            Place::Variable(variable) => self.put_variable(variable, value),
            Place::Element(array) => self.store_element_of(array, operand, value),
            Place::Field => self.set_field(number_of(operand)?, value),
        }
    }

    /// Gives a place a value; gives what it then holds.
    fn assign_at(&mut self, place: Place, operand: &Value, value: Value) -> Result<Value, Halt>
        ensures { Changes (assign_at self.old.names.scalars place operand.now value) self.old self.new result }
    {
        self.store_at(place, operand, value)?;
        self.read_at(place, operand)
    }

    /// Gives a place a value, or what an operator makes of its old value and of this one; gives what it then holds. The number of a
    /// variable or an element changes where it stands. (POSIX awk, Expressions in awk)
    #[inline(always)]
    pub fn assign_by_at(
        &mut self,
        operator: Option<Operator>,
        place: Place,
        operand: &Value,
        value: Value,
    ) -> Result<Value, Halt>
        ensures { Changes (assign_by_at self.old.names.scalars operator place operand.now value) self.old self.new result }
    {
        let Some(operator) = operator else {
            return self.assign_at(place, operand, value);
        };
        if let Some(updated) = self.update_by(operator, place, operand, &value) {
            return Ok(Value::Number(updated.after));
        }
        self.assign_applied(operator, place, operand, &value)
    }

    /// Gives a place what an operator makes of its old value and of this one; gives what it then holds.
    #[inline(never)]
    fn assign_applied(
        &mut self,
        operator: Operator,
        place: Place,
        operand: &Value,
        value: &Value,
    ) -> Result<Value, Halt>
        ensures { Changes (assign_by_at self.old.names.scalars (Some operator) place operand.now value.now) self.old self.new result }
    {
        let old = self.read_at(place, operand)?;
        let value = self.apply(operator, &old, value)?;
        self.assign_at(place, operand, value)
    }

    /// Gives a place its number raised or lowered by 1; gives what it then holds. (POSIX awk, Expressions in awk: `++x`, `--x`)
    #[inline(always)]
    pub fn pre_increment_at(
        &mut self,
        operator: IncrementOperator,
        place: Place,
        operand: &Value,
    ) -> Result<Value, Halt>
        ensures { Changes (assign_by_at self.old.names.scalars (Some (by_one operator)) place operand.now one) self.old self.new result }
    {
        self.assign_by_at(Some(by_one(operator)), place, operand, Value::Number(1))
    }

    /// Gives a place its number raised or lowered by 1; gives the number that it had. (POSIX awk, Expressions in awk: `x++`, `x--`)
    #[inline(always)]
    pub fn post_increment_at(
        &mut self,
        operator: IncrementOperator,
        place: Place,
        operand: &Value,
    ) -> Result<Value, Halt>
        ensures { Changes (post_increment_at self.old.names.scalars operator place operand.now) self.old self.new result }
    {
        if let Some(updated) = self.update_by(by_one(operator), place, operand, &Value::Number(1)) {
            return Ok(Value::Number(updated.before));
        }
        self.post_increment_any(operator, place, operand)
    }

    /// As `post_increment_at`, of a place that holds no number, or that is a field.
    #[inline(never)]
    fn post_increment_any(
        &mut self,
        operator: IncrementOperator,
        place: Place,
        operand: &Value,
    ) -> Result<Value, Halt>
        ensures { Changes (post_increment_at self.old.names.scalars operator place operand.now) self.old self.new result }
    {
        let old = self.read_at(place, operand)?;
        let number = number_of(&old)?;
        let value = self.apply(by_one(operator), &Value::Number(number), &Value::Number(1))?;
        self.store_at(place, operand, value)?;
        Ok(Value::Number(number))
    }

    /// Changes the number of a variable or an element where it stands. `None`, and nothing changes, where the place is a field, or
    /// one of the values no number.
    #[inline(always)]
    fn update_by(
        &mut self,
        operator: Operator,
        place: Place,
        operand: &Value,
        value: &Value,
    ) -> Option<Updated>
        ensures updated { IfSome result (λ u. Updates operator place operand.now value.now self.old self.new u) }
        ensures kept { IfNone result (self.new ≡ self.old) }
    {
        let Value::Number(n) = value else {
            return None;
        };
        match place {
            Place::Variable(variable) => self.update_number(operator, variable, *n),
            Place::Element(array) => self.update_element(operator, array, operand, *n),
            Place::Field => None,
        }
    }

    /// As `update_by`, of an element and a number.
    #[inline(never)]
    fn update_element(
        &mut self,
        operator: Operator,
        array: Array,
        key: &Value,
        n: i128,
    ) -> Option<Updated>
        ensures updated { IfSome result (λ u. Updates operator (Element array) key.now (Number n) self.old self.new u) }
        ensures kept { IfNone result (self.new ≡ self.old) }
    {
        let number = self.number_at(array);
        let Some(place) = self.arrays.value_mut(number as usize, Subscript::of(key)) else {
            return None;
        };
        let Some(updated) = update_of(operator, place, n) else {
            return None;
        };
        set_number(place, updated.after);
        Some(updated)
    }

    /// As `update_by`, of a variable and a number.
    #[inline(always)]
    pub(crate) fn update_number(
        &mut self,
        operator: Operator,
        variable: Variable,
        n: i128,
    ) -> Option<Updated>
        ensures updated { IfSome result (λ u. UpdatesVariable operator variable n self.old self.new u) }
        ensures kept { IfNone result (self.new ≡ self.old) }
    {
        match variable {
            Variable::Global(slot) => self.update_global(operator, slot, n),
            Variable::Local(index) => self.update_local(operator, index, n),
            Variable::Special(special) => self.update_special(operator, special, n),
            Variable::FieldCount => None,
        }
    }

    /// Changes the number in a slot.
    #[inline(always)]
    fn update_global(&mut self, operator: Operator, slot: u32, n: i128) -> Option<Updated>
        ensures updated { IfSome result (λ u. UpdatesVariable operator (Variable.Global slot) n self.old self.new u) }
        ensures kept { IfNone result (self.new ≡ self.old) }
    {
        self.names.law_of_slots();
        let Some(Value::Number(before)) = self.globals.get(slot as usize) else {
            return None;
        };
        let before = *before;
        let after = apply_in_short(operator, before, n)?;
        self.globals[slot as usize] = Value::Number(after);
        Some(Updated { before, after })
    }

    /// Changes a parameter's number.
    #[inline(always)]
    fn update_local(&mut self, operator: Operator, index: u32, n: i128) -> Option<Updated>
        ensures updated { IfSome result (λ u. UpdatesVariable operator (Variable.Local index) n self.old self.new u) }
        ensures kept { IfNone result (self.new ≡ self.old) }
    {
        let Some(Local::Value(Value::Number(before))) = self.frames.local(index as usize) else {
            return None;
        };
        let before = *before;
        let after = apply_in_short(operator, before, n)?;
        self.frames.set_value(index as usize, Value::Number(after));
        Some(Updated { before, after })
    }

    /// Changes a special variable's number.
    fn update_special(&mut self, operator: Operator, special: Special, n: i128) -> Option<Updated>
        ensures updated { IfSome result (λ u. UpdatesVariable operator (Variable.Special special) n self.old self.new u) }
        ensures kept { IfNone result (self.new ≡ self.old) }
    {
        self.names.law_of_slots();
        let Value::Number(before) = self.specials.special(special) else {
            return None;
        };
        let before = *before;
        let after = apply_in_short(operator, before, n)?;
        let Ok(()) = self.specials.set_special(special, Value::Number(after)) else {
            return None;
        };
        Some(Updated { before, after })
    }
}
