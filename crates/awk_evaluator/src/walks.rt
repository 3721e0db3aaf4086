// Walks over the keys of an array.

ghost use Rattle.std.specs.Prelude.{◌≡◌, ◌==◌, suc, drop, OnOk};
ghost use Rattle.awk_resolve.specs.Nodes.{first, keys_left};
ghost use Rattle.awk_evaluator.specs.Moves.{came};
ghost use Rattle.awk_evaluator.specs.Walks.{PutsKeys, TakesKey};

use crate::machine::Machine;
use awk_semantics::Halt;
use awk_storage::{Array, Variable};
use awk_value::Value;

/// How many keys are left, by their count.
fn keys_left(count: &Value) -> u128
    ensures { result ≡ keys_left count.now }
{
    match count {
        Value::Number(number) => u128::try_from(*number).unwrap_or(0),
        Value::Nothing | Value::Text(_) | Value::Input(_) => 0,
    }
}

impl Machine {
    /// Puts the keys of an array on the stack, the first one on top, and their count.
    #[inline(never)]
    pub(crate) fn begin_walk(&mut self, array: Array) -> bool
        ensures { PutsKeys array self.old (came result self.new) self.new }
    {
        let laid = self.lay_keys(array);
        self.is_done(laid)
    }

    /// As `begin_walk`; an `Err` is what it came to.
    fn lay_keys(&mut self, array: Array) -> Result<(), Halt>
        ensures { PutsKeys array self.old result self.new }
    {
        let mut keys = self.runtime.keys_of_array(array)?;
        let count = keys.len();
        while let Some(key) = keys.pop() {
            self.operands.push(Value::Text(key))?;
        }
        self.operands.push(Value::Number(count as i128))?;
        Ok(())
    }

    /// Whether no key is left.
    #[inline(always)]
    pub(crate) fn has_no_key(&self) -> bool
        ensures { result ≡ (keys_left (first self.now.operands.values) == 0) }
    {
        match self.operands.top() {
            Some(count) => keys_left(count) == 0,
            None => true,
        }
    }

    /// Gives the next key to the variable of a walk.
    pub(crate) fn take_key(&mut self, variable: Variable) -> bool
        ensures { TakesKey variable self.old (came result self.new) self.new }
    {
        let given = self.give_key(variable);
        self.is_done(given)
    }

    /// As `take_key`; an `Err` is what it came to.
    fn give_key(&mut self, variable: Variable) -> Result<(), Halt>
        ensures { TakesKey variable self.old result self.new }
    {
        let count = self.operands.pop();
        let key = self.operands.pop();
        self.runtime.put_variable(variable, key)?;
        let left = keys_left(&count).saturating_sub(1);
        self.operands.push(Value::Number(left as i128))?;
        Ok(())
    }

    /// Takes the keys that are left, and their count, off the stack.
    #[inline(never)]
    pub(crate) fn leave_walk(&mut self)
        ensures operands { self.new.operands ≡ record self.old.operands { values = drop (suc (keys_left (first self.old.operands.values))) self.old.operands.values } }
        ensures runtime { self.new.runtime ≡ self.old.runtime }
    {
        let count = self.operands.pop();
        let left = keys_left(&count);
        self.operands.drop_many(left);
    }
}
