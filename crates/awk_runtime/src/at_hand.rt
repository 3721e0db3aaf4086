// Values that are at hand: variables and fields that are read where they stand, and numbers that are put and changed there.

ghost use Rattle.std.specs.Prelude.{◌≡◌, ◌<◌, ◌-◌, pos, Ok, Some, IfSome, IfNone, slice_get, true, false};
ghost use Rattle.awk_value.specs.declared.value.Value.TheVariants.{Number, Input, Nothing};
ghost use Rattle.awk_runtime.specs.support.Simulation.{Changes, Spends};
ghost use Rattle.awk_storage.specs.declared.position.Place.TheVariants.{Variable as VariablePlace};
ghost use Rattle.awk_semantics.specs.Primitives.{read_field, set_inside};
ghost use Rattle.awk_storage.specs.Positions.{read_variable, read_slot, read_local, assign_by_at, post_increment_at};
ghost use Rattle.awk_semantics.specs.Operators.{operator_of as assigned_by, by_one as raised_by};
ghost use Rattle.awk_runtime.specs.support.Updates.{PutsNumber, GivesNumber, ChangesValue};

use crate::runtime::Runtime;
use awk_functions::{apply_in_short, by_one, operator_of};
use awk_kinds::Special;
use awk_lex::token::{AssignmentOperator, IncrementOperator, Operator};
use awk_semantics::Local;
use awk_storage::Variable;
use awk_value::Value;
use std::mem;

impl Runtime {
    /// The value that a variable holds, where one is kept: NF is counted, and an array has none.
    #[inline(always)]
    pub fn value_in(&self, variable: Variable) -> Option<&Value>
        ensures { IfSome result (λ value. Changes (read_variable self.now.names.scalars variable) self.now self.now (Ok value.now)) }
    {
        match variable {
            Variable::Global(slot) => self.value_in_slot(slot),
            Variable::Local(index) => self.value_of_parameter(index),
            Variable::Special(special) => Some(self.specials.special(special)),
            Variable::FieldCount => None,
        }
    }

    /// The value in a slot that is there.
    #[inline(always)]
    fn value_in_slot(&self, slot: u32) -> Option<&Value>
        ensures { IfSome result (λ value. Changes (read_slot (slice_get self.now.names.scalars slot)) self.now self.now (Ok value.now)) }
    {
        self.names.law_of_slots();
        match self.globals.get(slot as usize) {
            Some(value) => Some(value),
            None => None,
        }
    }

    /// The value of a parameter that is one.
    #[inline(always)]
    fn value_of_parameter(&self, index: u32) -> Option<&Value>
        ensures { IfSome result (λ value. Changes (read_local index) self.now self.now (Ok value.now)) }
    {
        match self.frames.local(index as usize) {
            Some(Local::Value(value)) => Some(value),
            _ => None,
        }
    }

    /// The number that a variable holds, if it is one; NF is counted.
    #[inline(always)]
    pub fn number_in(&mut self, variable: Variable) -> Option<i128>
        ensures some { IfSome result (λ n. Changes (read_variable self.old.names.scalars variable) self.old self.new (Ok (Number n))) }
        ensures same { self.new ≡ self.old }
    {
        if let Variable::FieldCount = variable {
            return self.count_at_hand();
        }
        match self.value_in(variable) {
            Some(Value::Number(n)) => Some(*n),
            _ => None,
        }
    }

    /// The number of fields; `None` where memory is refused.
    #[inline(never)]
    fn count_at_hand(&mut self) -> Option<i128>
        ensures some { IfSome result (λ n. Changes (read_variable self.old.names.scalars Variable.FieldCount) self.old self.new (Ok (Number n))) }
        ensures same { self.new ≡ self.old }
    {
        match self.current.count() {
            Ok(count) => Some(count as i128),
            Err(_) => None,
        }
    }

    /// The field of a number; `None` where that is a fault.
    #[inline(never)]
    pub fn field_at_hand(&mut self, number: i128) -> Option<Value>
        ensures some { IfSome result (λ value. Changes (read_field number) self.old self.new (Ok value)) }
        ensures same { self.new ≡ self.old }
    {
        if let Some(text) = self.current.cut_field(number) {
            return Some(Value::Input(text));
        }
        self.any_field(number)
    }

    /// As `field_at_hand`, however the record stands.
    #[inline(never)]
    fn any_field(&mut self, number: i128) -> Option<Value>
        ensures some { IfSome result (λ value. Changes (read_field number) self.old self.new (Ok value)) }
        ensures same { self.new ≡ self.old }
    {
        match self.current.field(number) {
            Ok(value) => Some(value),
            Err(_) => None,
        }
    }

    /// Notes whether a range is inside, by the number of its item, where there is room for that: whether there is, and else nothing
    /// changes.
    #[inline(always)]
    pub fn put_inside(&mut self, number: usize, is_inside: bool) -> bool
        ensures puts { result ≡ true → Changes (set_inside number is_inside) self.old self.new (Ok tt) }
        ensures kept { result ≡ false → self.new ≡ self.old }
    {
        if number >= self.inside.len() {
            return false;
        }
        self.inside[number] = is_inside;
        true
    }

    /// Gives a variable of the program or a parameter a number. `false`, and nothing changes, where it is another one, isn't
    /// there or is an array.
    #[inline(always)]
    fn put_number(&mut self, variable: Variable, n: i128) -> bool
        ensures puts { result ≡ true → PutsNumber variable n self.old self.new }
        ensures kept { result ≡ false → self.new ≡ self.old }
    {
        match variable {
            Variable::Global(slot) => self.put_in_slot(slot as usize, n),
            Variable::Local(index) => self.put_in_parameter(index as usize, n),
            Variable::Special(_) | Variable::FieldCount => false,
        }
    }

    /// Gives a slot that is there a number.
    #[inline(always)]
    fn put_in_slot(&mut self, slot: usize, n: i128) -> bool
        ensures puts { result ≡ true → PutsNumber (Variable.Global slot) n self.old self.new }
        ensures kept { result ≡ false → self.new ≡ self.old }
    {
        self.names.law_of_slots();
        if slot >= self.globals.len() {
            return false;
        }
        self.globals[slot] = Value::Number(n);
        true
    }

    /// Gives a parameter that is a value a number.
    #[inline(always)]
    fn put_in_parameter(&mut self, index: usize, n: i128) -> bool
        ensures puts { result ≡ true → PutsNumber (Variable.Local index) n self.old self.new }
        ensures kept { result ≡ false → self.new ≡ self.old }
    {
        let Some(Local::Value(_)) = self.frames.local(index) else {
            return false;
        };
        self.frames.set_value(index, Value::Number(n));
        true
    }

    /// Gives a variable a number, or what an operator makes of its number and of this one; gives what it then holds. `None`, and
    /// nothing changes, where that isn't done where it stands.
    #[inline(always)]
    pub fn assign_number(
        &mut self,
        operator: Option<Operator>,
        variable: Variable,
        n: i128,
    ) -> Option<i128>
        ensures some { IfSome result (λ z. Changes (assign_by_at self.old.names.scalars operator (VariablePlace variable) Nothing (Number n)) self.old self.new (Ok (Number z))) }
        ensures none { IfNone result (self.new ≡ self.old) }
    {
        let Some(operator) = operator else {
            if self.put_number(variable, n) {
                return Some(n);
            }
            return None;
        };
        let updated = self.update_number(operator, variable, n)?;
        Some(updated.after)
    }

    /// Raises or lowers a variable's number by 1; gives the number that it had. `None`, and nothing changes, where that isn't done
    /// where it stands.
    #[inline(always)]
    pub fn raise_number(&mut self, operator: IncrementOperator, variable: Variable) -> Option<i128>
        ensures some { IfSome result (λ z. Changes (post_increment_at self.old.names.scalars operator (VariablePlace variable) Nothing) self.old self.new (Ok (Number z))) }
        ensures none { IfNone result (self.new ≡ self.old) }
    {
        let updated = self.update_number(by_one(operator), variable, 1)?;
        Some(updated.before)
    }

    /// The number in a slot, if it holds one.
    #[inline(always)]
    pub fn number_in_slot(&self, slot: u32) -> Option<i128>
        ensures { IfSome result (λ n. Changes (read_variable self.now.names.scalars (Variable.Global slot)) self.now self.now (Ok (Number n))) }
    {
        match self.value_in_slot(slot) {
            Some(Value::Number(n)) => Some(*n),
            _ => None,
        }
    }

    /// The number that a parameter is, if it is one.
    #[inline(always)]
    pub fn number_of_parameter(&self, index: u32) -> Option<i128>
        ensures { IfSome result (λ n. Changes (read_variable self.now.names.scalars (Variable.Local index)) self.now self.now (Ok (Number n))) }
    {
        match self.value_of_parameter(index) {
            Some(Value::Number(n)) => Some(*n),
            _ => None,
        }
    }

    /// The number that a special variable is, if it is one.
    #[inline(always)]
    pub fn number_of_special(&self, special: Special) -> Option<i128>
        ensures { IfSome result (λ n. Changes (read_variable self.now.names.scalars (Variable.Special special)) self.now self.now (Ok (Number n))) }
    {
        match self.specials.special(special) {
            Value::Number(n) => Some(*n),
            _ => None,
        }
    }

    /// The number of fields, where it is known without a search.
    #[inline(always)]
    pub fn known_count(&self) -> Option<i128>
        ensures { IfSome result (λ n. Changes (read_variable self.now.names.scalars Variable.FieldCount) self.now self.now (Ok (Number n))) }
    {
        match self.current.known_count() {
            Some(count) => Some(count as i128),
            None => None,
        }
    }

    /// Gives a variable a number, or what an operator makes of its number and of this one. `false`, and nothing changes, where
    /// that isn't done where it stands.
    #[inline(always)]
    pub fn change_number(
        &mut self,
        operator: AssignmentOperator,
        variable: &Variable,
        n: i128,
    ) -> bool
        ensures changes { result ≡ true → GivesNumber (assign_by_at self.old.names.scalars (assigned_by operator) (VariablePlace variable.now) Nothing (Number n)) self.old self.new }
        ensures kept { result ≡ false → self.new ≡ self.old }
    {
        if let Variable::Global(slot) = variable {
            return self.change_slot(operator, *slot, n);
        }
        self.change_other(operator, variable, n)
    }

    /// As `change_number`, of a slot.
    #[inline(always)]
    fn change_slot(&mut self, operator: AssignmentOperator, slot: u32, n: i128) -> bool
        ensures changes { result ≡ true → GivesNumber (assign_by_at self.old.names.scalars (assigned_by operator) (VariablePlace (Variable.Global slot)) Nothing (Number n)) self.old self.new }
        ensures kept { result ≡ false → self.new ≡ self.old }
    {
        self.names.law_of_slots();
        let Some(old) = self.globals.get(slot as usize) else {
            return false;
        };
        let Some(new) = number_assigned(operator, old, n) else {
            return false;
        };
        set_number(&mut self.globals[slot as usize], new);
        true
    }

    /// As `change_number`, of a variable that has no slot.
    #[inline(never)]
    fn change_other(&mut self, operator: AssignmentOperator, variable: &Variable, n: i128) -> bool
        ensures changes { result ≡ true → GivesNumber (assign_by_at self.old.names.scalars (assigned_by operator) (VariablePlace variable.now) Nothing (Number n)) self.old self.new }
        ensures kept { result ≡ false → self.new ≡ self.old }
    {
        match self.assign_number(operator_of(operator), *variable, n) {
            Some(_) => true,
            None => false,
        }
    }

    /// Raises or lowers a variable's number by 1. `false`, and nothing changes, where that isn't done where it stands.
    #[inline(always)]
    pub fn raise_in_place(&mut self, operator: IncrementOperator, variable: &Variable) -> bool
        ensures raises { result ≡ true → GivesNumber (post_increment_at self.old.names.scalars operator (VariablePlace variable.now) Nothing) self.old self.new }
        ensures kept { result ≡ false → self.new ≡ self.old }
    {
        if let Variable::Global(slot) = variable {
            return self.raise_slot(operator, *slot);
        }
        self.raise_other(operator, variable)
    }

    /// As `raise_in_place`, of a slot.
    #[inline(always)]
    fn raise_slot(&mut self, operator: IncrementOperator, slot: u32) -> bool
        ensures raises { result ≡ true → GivesNumber (post_increment_at self.old.names.scalars operator (VariablePlace (Variable.Global slot)) Nothing) self.old self.new }
        ensures kept { result ≡ false → self.new ≡ self.old }
    {
        self.names.law_of_slots();
        let Some(old) = self.globals.get(slot as usize) else {
            return false;
        };
        let Some(new) = number_raised(operator, old) else {
            return false;
        };
        set_number(&mut self.globals[slot as usize], new);
        true
    }

    /// As `raise_in_place`, of a variable that has no slot.
    #[inline(never)]
    fn raise_other(&mut self, operator: IncrementOperator, variable: &Variable) -> bool
        ensures raises { result ≡ true → GivesNumber (post_increment_at self.old.names.scalars operator (VariablePlace variable.now) Nothing) self.old self.new }
        ensures kept { result ≡ false → self.new ≡ self.old }
    {
        match self.raise_number(operator, *variable) {
            Some(_) => true,
            None => false,
        }
    }
}

/// Makes a value a number. One that is a number is no more than overwritten.
#[inline(always)]
pub(crate) fn set_number(place: &mut Value, n: i128)
    ensures { place.new ≡ Number n }
{
    if let Value::Number(old) = place {
        *old = n;
        return;
    }
    replace_by_number(place, n);
}

/// Puts a number in the place of any value.
#[inline(never)]
fn replace_by_number(place: &mut Value, n: i128)
    ensures { place.new ≡ Number n }
{
    drop(mem::replace(place, Value::Number(n)));
}

/// A number raised or lowered by 1. `None` where the value is none, or the next one is too far.
#[inline(always)]
pub(crate) fn number_raised(operator: IncrementOperator, old: &Value) -> Option<i128>
    ensures { IfSome result (λ new. ChangesValue (Some (raised_by operator)) (pos 1) old.now (Number new)) }
{
    let Value::Number(old) = old else {
        return None;
    };
    apply_in_short(by_one(operator), *old, 1)
}

/// The number that is assigned to what holds this value: another one, or what an operator makes of its number and of the other
/// one. `None` where it has none, or that isn't found in a few steps.
#[inline(always)]
pub(crate) fn number_assigned(operator: AssignmentOperator, old: &Value, n: i128) -> Option<i128>
    ensures { IfSome result (λ new. ChangesValue (assigned_by operator) n old.now (Number new)) }
{
    if let Value::Number(old) = old {
        return number_by(operator, *old, n);
    }
    match operator {
        AssignmentOperator::Plain => Some(n),
        _ => None,
    }
}

/// The number that is assigned where there is an old one.
#[inline(always)]
pub(crate) fn number_by(operator: AssignmentOperator, old: i128, n: i128) -> Option<i128>
    ensures { IfSome result (λ new. ChangesValue (assigned_by operator) n (Number old) (Number new)) }
{
    match operator_of(operator) {
        Some(operator) => apply_in_short(operator, old, n),
        None => Some(n),
    }
}
