// Elements that are at hand: their keys are read where they stand, and they are found once, read, tested and changed where they stand.

ghost use Rattle.std.specs.Prelude.{◌≡◌, pos, None, Ok, IfSome, IfNone, true, false};
ghost use Rattle.awk_value.specs.Values.{str_of};
ghost use Rattle.awk_value.specs.declared.value.Value.TheVariants.{Number};
ghost use Rattle.awk_runtime.specs.support.Simulation.{Changes};
ghost use Rattle.awk_storage.specs.declared.position.Place.TheVariants.{Element};
ghost use Rattle.awk_storage.specs.Positions.{read_element_of, assign_by_at, post_increment_at};
ghost use Rattle.awk_storage.specs.Forms.{contains_at};
ghost use Rattle.awk_semantics.specs.Operators.{operator_of as assigned_by};
ghost use Rattle.awk_runtime.specs.support.Updates.{Gives};
ghost use Rattle.awk_runtime.specs.support.Keys.{key_value, StandsIn};
ghost use Rattle.awk_runtime.specs.support.Calling.{kept_number};
ghost use Rattle.awk_value.specs.Arrays.{value_at};
ghost use Rattle.awk_storage.specs.support.Tables.{array_of};

use crate::at_hand::{number_assigned, number_by, number_raised, set_number};
use crate::keys::{ElementKey, subscript_of};
use crate::places::update_of;
use crate::runtime::Runtime;
use awk_functions::by_one;
use awk_lex::token::{AssignmentOperator, IncrementOperator};
use awk_semantics::Halt;
use awk_storage::{Array, Subscript};
use awk_value::Value;

impl Runtime {
    /// The element at a key, if it is there and the key is at hand.
    #[inline(always)]
    pub fn element_in(&self, array: Array, key: ElementKey) -> Option<&Value>
        requires { StandsIn self.now.current.text key }
        ensures { IfSome result (λ value. Changes (read_element_of array (str_of (key_value self.now.current.text key.entry))) self.now self.now (Ok value.now)) }
    {
        let number = self.number_at(array);
        let key = subscript_of(&self.current, key)?;
        match self.arrays.get(number as usize, key) {
            Some(value) => Some(value),
            None => None,
        }
    }

    /// Whether there is an element at a key, where that is at hand.
    #[inline(always)]
    pub fn has_element(&self, array: Array, key: ElementKey) -> Option<bool>
        requires { StandsIn self.now.current.text key }
        ensures { IfSome result (λ found. Changes (contains_at array (str_of (key_value self.now.current.text key.entry))) self.now self.now (Ok found)) }
    {
        let number = self.number_at(array);
        let key = subscript_of(&self.current, key)?;
        Some(self.arrays.has(number as usize, key))
    }

    /// Gives an element a number, or what an operator makes of its number and of this one. `false`, and nothing changes, where that
    /// isn't done where it stands.
    #[inline(always)]
    pub fn change_element(
        &mut self,
        operator: AssignmentOperator,
        array: Array,
        key: ElementKey,
        n: i128,
    ) -> bool
        requires stands { StandsIn self.old.current.text key }
        ensures changes { result ≡ true → Gives (assign_by_at self.old.names.scalars (assigned_by operator) (Element array) (key_value self.old.current.text key.entry) (Number n)) self.old (Ok tt) self.new }
        ensures kept { result ≡ false → self.new ≡ self.old }
    {
        match operator {
            AssignmentOperator::Plain => self.put_number_in(array, key, n),
            _ => self.change_number_in(operator, array, key, n),
        }
    }

    /// Gives an element a number.
    #[inline(never)]
    fn put_number_in(&mut self, array: Array, key: ElementKey, n: i128) -> bool
        requires stands { StandsIn self.old.current.text key }
        ensures changes { result ≡ true → Gives (assign_by_at self.old.names.scalars (assigned_by AssignmentOperator.Plain) (Element array) (key_value self.old.current.text key.entry) (Number n)) self.old (Ok tt) self.new }
        ensures kept { result ≡ false → self.new ≡ self.old }
    {
        let number = self.number_at(array);
        let Some(key) = subscript_of(&self.current, key) else {
            return false;
        };
        self.arrays
            .put(number as usize, key, Value::Number(n))
            .is_ok()
    }

    /// Gives an element that is there a number, or what an operator makes of its number and of this one.
    #[inline(never)]
    fn change_number_in(
        &mut self,
        operator: AssignmentOperator,
        array: Array,
        key: ElementKey,
        n: i128,
    ) -> bool
        requires stands { StandsIn self.old.current.text key }
        ensures changes { result ≡ true → Gives (assign_by_at self.old.names.scalars (assigned_by operator) (Element array) (key_value self.old.current.text key.entry) (Number n)) self.old (Ok tt) self.new }
        ensures kept { result ≡ false → self.new ≡ self.old }
    {
        let number = self.number_at(array);
        let Some(subscript) = subscript_of(&self.current, key) else {
            return false;
        };
        let Some(place) = self.arrays.value_mut(number as usize, subscript) else {
            return self.begin_number(operator, array, key, n);
        };
        let Some(new) = number_assigned(operator, place, n) else {
            return false;
        };
        set_number(place, new);
        true
    }

    /// Makes an element, which gets what an operator makes of no value and a number.
    #[inline(never)]
    fn begin_number(
        &mut self,
        operator: AssignmentOperator,
        array: Array,
        key: ElementKey,
        n: i128,
    ) -> bool
        requires stands { StandsIn self.old.current.text key }
        requires absent { value_at (array_of self.old.arrays (kept_number array self.old.frames)) (str_of (key_value self.old.current.text key)) ≡ None }
        ensures changes { result ≡ true → Gives (assign_by_at self.old.names.scalars (assigned_by operator) (Element array) (key_value self.old.current.text key.entry) (Number n)) self.old (Ok tt) self.new }
        ensures kept { result ≡ false → self.new ≡ self.old }
    {
        let Some(new) = number_by(operator, 0, n) else {
            return false;
        };
        let number = self.number_at(array);
        let Some(key) = subscript_of(&self.current, key) else {
            return false;
        };
        self.arrays
            .put(number as usize, key, Value::Number(new))
            .is_ok()
    }

    /// Raises or lowers an element's number by 1; gives the number that it had. `None`, and nothing changes, where that isn't done
    /// where it stands.
    #[inline(always)]
    pub fn raise_element(
        &mut self,
        operator: IncrementOperator,
        array: Array,
        key: ElementKey,
    ) -> Option<i128>
        requires stands { StandsIn self.old.current.text key }
        ensures some { IfSome result (λ n. Changes (post_increment_at self.old.names.scalars operator (Element array) (key_value self.old.current.text key.entry)) self.old self.new (Ok (Number n))) }
        ensures none { IfNone result (self.new ≡ self.old) }
    {
        let number = self.number_at(array);
        let subscript = subscript_of(&self.current, key)?;
        let Some(place) = self.arrays.value_mut(number as usize, subscript) else {
            if self.begin_raised(operator, array, key) {
                return Some(0);
            }
            return None;
        };
        let Some(updated) = update_of(by_one(operator), place, 1) else {
            return None;
        };
        set_number(place, updated.after);
        Some(updated.before)
    }

    /// Makes an element, which gets the number that follows 0, or that stands before it.
    #[inline(never)]
    fn begin_raised(&mut self, operator: IncrementOperator, array: Array, key: ElementKey) -> bool
        requires stands { StandsIn self.old.current.text key }
        requires absent { value_at (array_of self.old.arrays (kept_number array self.old.frames)) (str_of (key_value self.old.current.text key)) ≡ None }
        ensures raises { result ≡ true → Changes (post_increment_at self.old.names.scalars operator (Element array) (key_value self.old.current.text key.entry)) self.old self.new (Ok (Number (pos 0))) }
        ensures kept { result ≡ false → self.new ≡ self.old }
    {
        let Some(new) = number_raised(operator, &Value::Number(0)) else {
            return false;
        };
        let number = self.number_at(array);
        let Some(key) = subscript_of(&self.current, key) else {
            return false;
        };
        self.arrays
            .put(number as usize, key, Value::Number(new))
            .is_ok()
    }

    /// Gives an element a value. `false`, and nothing changes, where that isn't done where it stands.
    #[inline(always)]
    pub fn put_value_in(&mut self, array: Array, key: ElementKey, value: Value) -> bool
        requires stands { StandsIn self.old.current.text key }
        ensures changes { result ≡ true → Gives (assign_by_at self.old.names.scalars (assigned_by AssignmentOperator.Plain) (Element array) (key_value self.old.current.text key.entry) value) self.old (Ok tt) self.new }
        ensures kept { result ≡ false → self.new ≡ self.old }
    {
        let number = self.number_at(array);
        let Some(key) = subscript_of(&self.current, key) else {
            return false;
        };
        let Ok(value) = value.settled(self.alloc) else {
            return false;
        };
        self.arrays.put(number as usize, key, value).is_ok()
    }

    /// Gives an element a value, which isn't read again.
    pub fn assign_element(&mut self, array: Array, key: &Value, value: Value) -> Result<(), Halt>
        ensures { Gives (assign_by_at self.old.names.scalars (assigned_by AssignmentOperator.Plain) (Element array) key.now value) self.old result self.new }
    {
        let number = self.number_at(array);
        let value = value.settled(self.alloc)?;
        self.arrays.put(number as usize, Subscript::of(key), value)?;
        Ok(())
    }
}
