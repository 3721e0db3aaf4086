// What is done with an element whose key is at hand.

ghost use Rattle.std.specs.Prelude.{None as NoOperator};
ghost use Rattle.awk_value.specs.declared.value.Value.TheVariants.{Number};
ghost use Rattle.awk_semantics.specs.Operators.{operator_of};
ghost use Rattle.awk_evaluator.specs.Elements.{DoesOrKeeps, AnswersContains, PutsElement, PutsContains, GivesElement, RaisesElement, AppendsElement};

use crate::at_key::AtKey;
use crate::machine::Machine;
use awk_functions::truth_value;
use awk_lex::token::{AssignmentOperator, IncrementOperator};
use awk_runtime::ElementKey;
use awk_semantics::Halt;
use awk_storage::Array;
use awk_value::Value;

/// Puts the element, if it is there, on the stack.
#[derive(Clone, Copy)]
pub(crate) struct PutElement {
    pub(crate) array: Array,
}

impl AtKey for PutElement {
    type Answer = bool;

    ghost does = { λ w key old answer new. DoesOrKeeps (PutsElement w.array key old new) old answer new };

    #[inline(always)]
    fn act(self, machine: &mut Machine, key: ElementKey) -> bool {
        let Some(value) = machine.runtime.element_in(self.array, key) else {
            return false;
        };
        if let Value::Number(n) = value {
            let n = *n;
            return machine.put(n);
        }
        machine.operands.push_copy(value)
    }
}

/// Answers whether there is an element, where that is at hand.
#[derive(Clone, Copy)]
pub(crate) struct HasElement {
    pub(crate) array: Array,
}

impl AtKey for HasElement {
    type Answer = Option<bool>;

    ghost does = { λ w key old answer new. AnswersContains w.array key old answer new };

    #[inline(always)]
    fn act(self, machine: &mut Machine, key: ElementKey) -> Option<bool> {
        machine.runtime.has_element(self.array, key)
    }
}

/// Puts whether there is an element on the stack.
#[derive(Clone, Copy)]
pub(crate) struct PutContains {
    pub(crate) array: Array,
}

impl AtKey for PutContains {
    type Answer = bool;

    ghost does = { λ w key old answer new. DoesOrKeeps (PutsContains w.array key old new) old answer new };

    #[inline(always)]
    fn act(self, machine: &mut Machine, key: ElementKey) -> bool {
        let Some(is_there) = machine.runtime.has_element(self.array, key) else {
            return false;
        };
        machine.operands.push(truth_value(is_there)).is_ok()
    }
}

/// Raises or lowers the element's number by 1, where that changes where it stands; answers the number that it had.
#[derive(Clone, Copy)]
pub(crate) struct Raise {
    pub(crate) operator: IncrementOperator,
    pub(crate) array: Array,
}

impl AtKey for Raise {
    type Answer = Option<i128>;

    ghost does = { λ w key old answer new. RaisesElement w.operator w.array key old answer new };

    #[inline(always)]
    fn act(self, machine: &mut Machine, key: ElementKey) -> Option<i128> {
        machine
            .runtime
            .raise_element(self.operator, self.array, key)
    }
}

/// Gives the element a number, or what an operator makes of its number and of this one, where that changes where it stands.
#[derive(Clone, Copy)]
pub(crate) struct Change {
    pub(crate) operator: AssignmentOperator,
    pub(crate) array: Array,
    pub(crate) n: i128,
}

impl AtKey for Change {
    type Answer = bool;

    ghost does = { λ w key old answer new. DoesOrKeeps (GivesElement (operator_of w.operator) w.array key (Number w.n) old new) old answer new };

    #[inline(always)]
    fn act(self, machine: &mut Machine, key: ElementKey) -> bool {
        machine
            .runtime
            .change_element(self.operator, self.array, key, self.n)
    }
}

/// Gives the element a value.
#[derive(Drop)]
pub(crate) struct PutValue {
    pub(crate) array: Array,
    pub(crate) value: Value,
}

impl AtKey for PutValue {
    type Answer = bool;

    ghost does = { λ w key old answer new. DoesOrKeeps (GivesElement NoOperator w.array key w.value old new) old answer new };

    #[inline(always)]
    fn act(self, machine: &mut Machine, key: ElementKey) -> bool {
        machine.runtime.put_value_in(self.array, key, self.value)
    }
}

/// Appends bytes to the text of the element, if it is there.
#[derive(Clone, Copy)]
pub(crate) struct Append<'a> {
    pub(crate) array: Array,
    pub(crate) text: &'a [u8],
}

impl<'a> AtKey for Append<'a> {
    type Answer = Result<bool, Halt>;

    ghost does = { λ w key old answer new. AppendsElement w.array key w.text.now old answer new };

    #[inline(always)]
    fn act(self, machine: &mut Machine, key: ElementKey) -> Result<bool, Halt> {
        machine.runtime.append_bytes_in(self.array, key, self.text)
    }
}
