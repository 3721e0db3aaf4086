// Elements at keys that are read where they stand: what is at hand is read, found and changed there, and all else by the general way.

ghost use Rattle.std.specs.Prelude.{◌≡◌, Ok, Some as SomeOf, IfSome, IfNone, true, false};
ghost use Rattle.awk_resolve.specs.declared.node.ValueNode.TheVariants.{ReadElement, Contains, PostIncrementAt};
ghost use Rattle.awk_resolve.specs.declared.node.Target.TheVariants.{Element as ElementTarget};
ghost use Rattle.awk_resolve.specs.declared.node.Tested.TheVariants.{Raised, Element as ElementTest};
ghost use Rattle.awk_evaluator.specs.Moves.{Computes, Done, came, told};
ghost use Rattle.awk_evaluator.specs.Reading.{Asks, AssignsElement, AssignsTarget, PutsAt, Raises};
ghost use Rattle.awk_evaluator.specs.Quick.{Puts};
ghost use Rattle.awk_evaluator.specs.Elements.{RaisesAtKey};

use crate::machine::Machine;
use crate::words::{Change, HasElement, PutContains, PutElement, PutValue, Raise};
use awk_functions::{operator_of, truth_value};
use awk_lex::token::{AssignmentOperator, IncrementOperator};
use awk_resolve::node::{Key, Operand, Target};
use awk_semantics::Halt;
use awk_storage::{Array, Place};
use awk_value::Value;

impl Machine {
    /// Puts the element at a key on the stack.
    #[inline(never)]
    pub(crate) fn put_element_at(&mut self, array: Array, key: &Key) -> bool
        ensures puts { result ≡ true → Puts (ReadElement array (SomeOf key.now)) self.old self.new }
        ensures kept { result ≡ false → self.new ≡ self.old }
    {
        match self.at_key(key, PutElement { array }) {
            Some(is_done) => is_done,
            None => false,
        }
    }

    /// Puts whether there is an element at a key on the stack.
    #[inline(never)]
    pub(crate) fn put_contains_at(&mut self, array: Array, key: &Key) -> bool
        ensures puts { result ≡ true → Puts (Contains array (SomeOf key.now)) self.old self.new }
        ensures kept { result ≡ false → self.new ≡ self.old }
    {
        match self.at_key(key, PutContains { array }) {
            Some(is_done) => is_done,
            None => false,
        }
    }

    /// Raises or lowers the number of the element at a key by 1, and puts the number that it had on the stack.
    #[inline(never)]
    pub(crate) fn put_raised_at(
        &mut self,
        operator: IncrementOperator,
        array: Array,
        key: &Key,
    ) -> bool
        ensures puts { result ≡ true → Puts (PostIncrementAt operator (ElementTarget array key.now)) self.old self.new }
        ensures kept { result ≡ false → self.new ≡ self.old }
    {
        let Ok(()) = self.operands.push(Value::Nothing) else {
            return false;
        };
        let Some(n) = self.raise_at_key(operator, array, key) else {
            self.operands.pop();
            return false;
        };
        self.operands.replace(Value::Number(n));
        true
    }

    /// Raises or lowers the number of the element at a key by 1; gives the number that it had. `None`, and nothing changes, where the
    /// key isn't at hand, or that isn't done where the element stands.
    #[inline(always)]
    fn raise_at_key(&mut self, operator: IncrementOperator, array: Array, key: &Key) -> Option<i128>
        ensures some { IfSome result (λ n. RaisesAtKey operator array key.now self.old n self.new) }
        ensures none { IfNone result (self.new ≡ self.old) }
    {
        match self.at_key(key, Raise { operator, array }) {
            Some(raised) => raised,
            None => None,
        }
    }

    /// Raises or lowers a target's number by 1: whether that which it had is true; else the run ends by what that came to.
    #[inline(never)]
    pub(crate) fn test_raised(
        &mut self,
        operator: IncrementOperator,
        target: &Target,
    ) -> Option<bool>
        ensures { Asks (Raised operator target.now) self.old (told result self.new) self.new }
    {
        let Target::Element(array, key) = target else {
            return self.test_any_raised(operator, target);
        };
        match self.raise_at_key(operator, *array, key) {
            Some(n) => Some(n != 0),
            None => self.test_any_raised(operator, target),
        }
    }

    /// The same of any target.
    #[inline(never)]
    fn test_any_raised(&mut self, operator: IncrementOperator, target: &Target) -> Option<bool>
        ensures { Asks (Raised operator target.now) self.old (told result self.new) self.new }
    {
        let number = self.post_increment_at(operator, target);
        self.truth_of(number)
    }

    /// Whether there is an element at a key; else the run ends by what that came to.
    #[inline(never)]
    pub(crate) fn test_element(&mut self, array: Array, key: &Key) -> Option<bool>
        ensures { Asks (ElementTest array key.now) self.old (told result self.new) self.new }
    {
        if let Some(Some(is_there)) = self.at_key(key, HasElement { array }) {
            return Some(is_there);
        }
        match self.contains_at(array, key) {
            Ok(is_there) => Some(is_there),
            Err(halt) => {
                self.halt = halt;
                None
            }
        }
    }

    /// The element at a key, or at the one that an operand is.
    #[inline(always)]
    pub(crate) fn element(&mut self, array: Array, key: &Option<Key>) -> Result<Value, Halt>
        ensures { Computes (ReadElement array key.now) self.old result self.new }
    {
        match key {
            Some(key) => self.element_at(array, key),
            None => self.element_on_top(array),
        }
    }

    /// Whether there is an element at a key, or at the one that an operand is.
    #[inline(always)]
    pub(crate) fn contains(&mut self, array: Array, key: &Option<Key>) -> Result<Value, Halt>
        ensures { Computes (Contains array key.now) self.old result self.new }
    {
        match key {
            Some(key) => {
                let is_there = self.contains_at(array, key)?;
                Ok(truth_value(is_there))
            }
            None => self.contains_on_top(array),
        }
    }

    /// The element at a key.
    #[inline(never)]
    fn element_at(&mut self, array: Array, key: &Key) -> Result<Value, Halt>
        ensures { Computes (ReadElement array (SomeOf key.now)) self.old result self.new }
    {
        let key = self.read_key(key)?;
        self.runtime.read_element_of(array, &key)
    }

    /// Whether there is an element at a key.
    fn contains_at(&mut self, array: Array, key: &Key) -> Result<bool, Halt>
        ensures { Asks (ElementTest array key.now) self.old result self.new }
    {
        let key = self.read_key(key)?;
        self.runtime.contains_at(array, &key)
    }

    /// Assigns an operand to the element at a key.
    #[inline(never)]
    pub(crate) fn update_element(
        &mut self,
        operator: AssignmentOperator,
        array: Array,
        key: &Key,
        operand: &Operand,
    ) -> bool
        ensures { Done (λ r. AssignsTarget operator (ElementTarget array key.now) operand.now self.old r self.new) (came result self.new) }
    {
        if self.change_at_hand(operator, array, key, operand) {
            return true;
        }
        self.update_behind(operator, array, key, operand)
    }

    /// As `update_element`, however the key and the operand stand.
    #[inline(never)]
    fn update_behind(
        &mut self,
        operator: AssignmentOperator,
        array: Array,
        key: &Key,
        operand: &Operand,
    ) -> bool
        ensures { Done (λ r. AssignsTarget operator (ElementTarget array key.now) operand.now self.old r self.new) (came result self.new) }
    {
        match self.read_key(key) {
            Ok(key) => self.assign_at(operator, array, &key, operand),
            Err(halt) => {
                self.halt = halt;
                false
            }
        }
    }

    /// As `update_element`, where the key and the operand are at hand, and the element changes where it stands.
    #[inline(always)]
    fn change_at_hand(
        &mut self,
        operator: AssignmentOperator,
        array: Array,
        key: &Key,
        operand: &Operand,
    ) -> bool
        ensures changed { result ≡ true → Done (λ r. AssignsTarget operator (ElementTarget array key.now) operand.now self.old r self.new) (Ok tt) }
        ensures kept { result ≡ false → self.new ≡ self.old }
    {
        let Some(n) = self.number_to_assign(operator, operand) else {
            return self.put_at_hand(operator, array, key, operand);
        };
        match self.at_key(key, Change { operator, array, n }) {
            Some(is_done) => is_done,
            None => false,
        }
    }

    /// As `change_at_hand`, of an operand of any value, where no operator is applied.
    #[inline(never)]
    fn put_at_hand(
        &mut self,
        operator: AssignmentOperator,
        array: Array,
        key: &Key,
        operand: &Operand,
    ) -> bool
        ensures changed { result ≡ true → Done (λ r. AssignsTarget operator (ElementTarget array key.now) operand.now self.old r self.new) (Ok tt) }
        ensures kept { result ≡ false → self.new ≡ self.old }
    {
        let AssignmentOperator::Plain = operator else {
            return false;
        };
        let Some(value) = self.value_at_hand(operand) else {
            return false;
        };
        match self.at_key(key, PutValue { array, value }) {
            Some(is_done) => is_done,
            None => false,
        }
    }

    /// Assigns an operand to the element at the text of a value.
    #[inline(never)]
    fn assign_at(
        &mut self,
        operator: AssignmentOperator,
        array: Array,
        key: &Value,
        operand: &Operand,
    ) -> bool
        ensures { Done (λ r. AssignsElement operator array key.now operand.now self.old r self.new) (came result self.new) }
    {
        match self.read_operand(operand) {
            Ok(value) => self.put_at(operator, array, key, value),
            Err(halt) => {
                self.halt = halt;
                false
            }
        }
    }

    /// Gives the element at the text of a value another one, or what an operator makes of its own and that one.
    fn put_at(
        &mut self,
        operator: AssignmentOperator,
        array: Array,
        key: &Value,
        value: Value,
    ) -> bool
        ensures { Done (λ r. PutsAt operator array key.now value self.old r self.new) (came result self.new) }
    {
        if let AssignmentOperator::Plain = operator {
            let assigned = self.runtime.assign_element(array, key, value);
            return self.is_done(assigned);
        }
        let place = Place::Element(array);
        let assigned = self
            .runtime
            .assign_by_at(operator_of(operator), place, key, value);
        self.is_done(assigned)
    }

    /// Raises or lowers the number of the element at a key by 1.
    #[inline(never)]
    pub(crate) fn increment_element(
        &mut self,
        operator: IncrementOperator,
        array: Array,
        key: &Key,
        target: &Target,
    ) -> bool
        requires { target.now ≡ ElementTarget array key.now }
        ensures { Done (λ r. Raises operator target.now self.old r self.new) (came result self.new) }
    {
        if self.raise_at_hand(operator, array, key) {
            return true;
        }
        self.increment_value(operator, target)
    }

    /// As `increment_element`, where the key is at hand, and that changes where it stands.
    #[inline(always)]
    fn raise_at_hand(&mut self, operator: IncrementOperator, array: Array, key: &Key) -> bool
        ensures raised { result ≡ true → Done (λ r. Raises operator (ElementTarget array key.now) self.old r self.new) (Ok tt) }
        ensures kept { result ≡ false → self.new ≡ self.old }
    {
        self.raise_at_key(operator, array, key).is_some()
    }

    /// Raises or lowers what a target holds, of any kind, by 1; gives the number that it had.
    pub(crate) fn post_increment_at(
        &mut self,
        operator: IncrementOperator,
        target: &Target,
    ) -> Result<Value, Halt>
        ensures { Raises operator target.now self.old result self.new }
    {
        match target {
            Target::Variable(variable) => {
                let place = Place::Variable(*variable);
                self.runtime
                    .post_increment_at(operator, place, &Value::Nothing)
            }
            Target::Element(array, key) => {
                let key = self.read_key(key)?;
                self.runtime
                    .post_increment_at(operator, Place::Element(*array), &key)
            }
        }
    }
}
