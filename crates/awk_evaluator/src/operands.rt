// The operands: one stack of values for all active calls, of which the newest call sees its own alone.

ghost use Rattle.std.specs.Prelude.{◌≡◌, ◌≤◌, ◌<◌, ◌-◌, IfSome, true, false, max, [], ◌∷◌, length, drop, take, reverse, get_or, unwrap_or, IfOk, OnOk, OnErr};
ghost use Rattle.std.specs.Option.{option_map};
ghost use Rattle.awk_value.specs.declared.value.Value.TheVariants.{Nothing, Number};
ghost use Rattle.awk_resolve.specs.Nodes.{first, second, taken};
ghost use Rattle.awk_evaluator.specs.support.Operands.{all_of};

use awk_storage::room;
use awk_value::Value;
use std::alloc::{AllocError, Global};
use std::marker::Model;

/// The operands of the active calls. A call takes none of its callers'.
#[derive(Drop)]
pub struct Operands {
    values: Vec<Value>,
    base: usize,
}

impl Model for Operands {
    ghost use Rattle.std.specs.Prelude.{◌≤◌, drop, take, reverse, length};
    ghost use Rattle.awk_evaluator.specs.support.Operands.{OperandsView};

    ghost Value = { OperandsView };

    ghost view = { λ o. record { values = reverse (drop o.base o.values.items); below = take o.base o.values.items } };

    ghost invariant = { λ o. o.base ≤ length o.values.items };
}

/// Where the topmost of so many values begin, which are `count` or as many as there are from `base` on.
#[inline(always)]
fn start_of(length: usize, base: usize, count: usize) -> usize
    requires { base ≤ length }
    ensures { result ≡ max base (length - count) }
{
    if count > length - base {
        return base;
    }
    length - count
}

impl Operands {
    /// There are none. Takes no memory.
    pub fn new(alloc: Global) -> Operands
        ensures { result ≡ record { values = []; below = [] } }
    {
        Operands {
            values: Vec::new(alloc),
            base: 0,
        }
    }

    /// Puts a value on top. An `Err`, which is want of memory, changes nothing.
    #[inline(always)]
    pub fn push(&mut self, value: Value) -> Result<(), AllocError>
        ensures pushed { OnOk result (self.new ≡ record self.old { values = value ∷ self.old.values }) }
        ensures unchanged { OnErr result (self.new ≡ self.old) }
    {
        room::push(&mut self.values, value)
    }

    /// Puts a copy of a value on top. `false`, and nothing changes, where memory is refused.
    #[inline(never)]
    pub(crate) fn push_copy(&mut self, value: &Value) -> bool
        ensures pushed { result ≡ true → self.new ≡ record self.old { values = value.now ∷ self.old.values } }
        ensures unchanged { result ≡ false → self.new ≡ self.old }
    {
        let Ok(copy) = value.clone() else {
            return false;
        };
        self.push(copy).is_ok()
    }

    /// Takes the topmost value off; nothing, where there is none.
    #[inline(always)]
    pub fn pop(&mut self) -> Value
        ensures top { result ≡ first self.old.values }
        ensures rest { self.new ≡ record self.old { values = drop 1 self.old.values } }
    {
        if self.values.len() <= self.base {
            return Value::Nothing;
        }
        match self.values.pop() {
            Some(value) => value,
            None => Value::Nothing,
        }
    }

    /// Takes the two topmost values off, of which the topmost was evaluated last; nothing for one that isn't there.
    #[inline(always)]
    pub(crate) fn pop_two(&mut self) -> (Value, Value)
        ensures left { result.0 ≡ second self.old.values }
        ensures right { result.1 ≡ first self.old.values }
        ensures rest { self.new ≡ record self.old { values = drop 2 self.old.values } }
    {
        let right = self.pop();
        let left = self.pop();
        (left, right)
    }

    /// The topmost value, if there is one.
    #[inline(always)]
    pub fn top(&self) -> Option<&Value>
        ensures top { unwrap_or (option_map (λ value. value.now) result) Nothing ≡ first self.now.values }
        ensures there { IfSome result (λ value. 0 < length self.now.values) }
    {
        if self.values.len() <= self.base {
            return None;
        }
        self.values.last()
    }

    /// The topmost value, or this one in place of nothing.
    #[inline(always)]
    pub(crate) fn top_or<'a>(&'a self, nothing: &'a Value) -> &'a Value
        requires { nothing.now ≡ Nothing }
        ensures { result.now ≡ first self.now.values }
    {
        match self.top() {
            Some(value) => value,
            None => nothing,
        }
    }

    /// So many of the topmost values, in the order in which they were evaluated.
    #[inline(always)]
    pub fn newest(&self, count: usize) -> &[Value]
        ensures { result.now ≡ taken count self.now.values }
    {
        let start = start_of(self.values.len(), self.base, count);
        &self.values[start..]
    }

    /// A copy of one of so many topmost values, by its place in the order in which they were evaluated.
    pub fn copy_of(&self, count: usize, index: usize) -> Result<Value, AllocError>
        ensures { IfOk result (λ value. value ≡ get_or (taken count self.now.values) index Nothing) }
    {
        match self.newest(count).get(index) {
            Some(value) => value.clone(),
            None => Ok(Value::Nothing),
        }
    }

    /// Takes so many values off.
    #[inline(always)]
    pub fn drop(&mut self, count: usize)
        ensures { self.new ≡ record self.old { values = drop count self.old.values } }
    {
        let start = start_of(self.values.len(), self.base, count);
        self.values.truncate(start);
    }

    /// The topmost value, where it is a number.
    #[inline(always)]
    pub fn number(&self) -> Option<i128>
        ensures { IfSome result (λ n. first self.now.values ≡ Number n) }
    {
        match self.top() {
            Some(Value::Number(n)) => Some(*n),
            _ => None,
        }
    }

    /// The value below the topmost one, where it is a number.
    #[inline(always)]
    pub(crate) fn number_below(&self) -> Option<i128>
        ensures { IfSome result (λ n. second self.now.values ≡ Number n) }
    {
        let length = self.values.len();
        if length - self.base < 2 {
            return None;
        }
        match &self.values[length - 2] {
            Value::Number(n) => Some(*n),
            _ => None,
        }
    }

    /// The value below the topmost one, if there is one.
    #[inline(always)]
    pub fn below(&self) -> Option<&Value>
        ensures { IfSome result (λ value. second self.now.values ≡ value.now) }
    {
        let length = self.values.len();
        if length - self.base < 2 {
            return None;
        }
        Some(&self.values[length - 2])
    }

    /// Puts a value in the place of the topmost one.
    #[inline(always)]
    pub fn replace(&mut self, value: Value)
        requires { 0 < length self.old.values }
        ensures { self.new ≡ record self.old { values = value ∷ drop 1 self.old.values } }
    {
        let last = self.values.len() - 1;
        self.values[last] = value;
    }

    /// Puts a copy of a value in the place of the topmost one. `false`, and nothing changes, where memory is refused.
    #[inline(never)]
    pub(crate) fn replace_by_copy(&mut self, value: &Value) -> bool
        requires { 0 < length self.old.values }
        ensures replaced { result ≡ true → self.new ≡ record self.old { values = value.now ∷ drop 1 self.old.values } }
        ensures unchanged { result ≡ false → self.new ≡ self.old }
    {
        let Ok(copy) = value.clone() else {
            return false;
        };
        self.replace(copy);
        true
    }

    /// Puts a number in the place of the topmost value. One that is a number is no more than overwritten.
    #[inline(always)]
    pub(crate) fn replace_by(&mut self, n: i128)
        requires { 0 < length self.old.values }
        ensures { self.new ≡ record self.old { values = Number n ∷ drop 1 self.old.values } }
    {
        let last = self.values.len() - 1;
        if let Value::Number(old) = &mut self.values[last] {
            *old = n;
            return;
        }
        self.values[last] = Value::Number(n);
    }

    /// Takes so many values off, however many that are.
    pub(crate) fn drop_many(&mut self, count: u128)
        ensures { self.new ≡ record self.old { values = drop count self.old.values } }
    {
        let length = self.values.len();
        if count > length as u128 {
            self.values.truncate(self.base);
            return;
        }
        self.drop(count as usize);
    }

    /// Takes the newest call's values off.
    #[inline(always)]
    pub(crate) fn drop_all(&mut self)
        ensures { self.new ≡ record self.old { values = [] } }
    {
        self.values.truncate(self.base);
    }

    /// How many operands the newest call's callers have.
    #[inline(always)]
    pub fn base(&self) -> usize
        ensures { result ≡ length self.now.below }
    {
        self.base
    }

    /// A call begins, which has no operands yet.
    #[inline(always)]
    pub fn enter(&mut self)
        ensures { self.new ≡ record { values = []; below = all_of self.old } }
    {
        self.base = self.values.len();
    }

    /// The newest call is over: its caller's operands are those behind so many.
    pub fn leave(&mut self, base: usize)
        ensures { self.new ≡ record { values = reverse (drop base self.old.below); below = take base self.old.below } }
    {
        self.values.truncate(self.base);
        self.base = base.min(self.values.len());
    }

    /// The newest call is over, and its topmost value, or nothing, is that of its caller. An `Err` is want of memory.
    #[inline(always)]
    pub(crate) fn hand_over(&mut self, base: usize) -> Result<(), AllocError>
        ensures { OnOk result (self.new ≡ record { values = first self.old.values ∷ reverse (drop base self.old.below); below = take base self.old.below }) }
    {
        if self.values.len() - self.base == 1 {
            self.base = base.min(self.base);
            return Ok(());
        }
        self.hand_over_any(base)
    }

    /// As `hand_over`, of any number of values.
    #[inline(never)]
    fn hand_over_any(&mut self, base: usize) -> Result<(), AllocError>
        ensures { OnOk result (self.new ≡ record { values = first self.old.values ∷ reverse (drop base self.old.below); below = take base self.old.below }) }
    {
        let value = self.pop();
        self.leave(base);
        self.push(value)?;
        Ok(())
    }

    /// Whether no call has any.
    #[inline(always)]
    pub(crate) fn are_none(&self) -> bool
        ensures { result ≡ true → self.now ≡ record { values = []; below = [] } }
    {
        self.values.is_empty()
    }

    /// There are none any more.
    pub fn clear(&mut self)
        ensures { self.new ≡ record { values = []; below = [] } }
    {
        self.values.clear();
        self.base = 0;
    }
}
