// The moves of nodes that change places: numbers at hand are changed where they stand, and all else by functions that aren't
// inlined.

ghost use Rattle.std.specs.Prelude.{◌≡◌, Ok, IfSome, true, false};
ghost use Rattle.awk_value.specs.declared.value.Value.TheVariants.{Number};
ghost use Rattle.awk_storage.specs.declared.position.Place.TheVariants.{Element};
ghost use Rattle.awk_runtime.specs.Simulation.{Spends};
ghost use Rattle.awk_resolve.specs.declared.node.ValueNode.TheVariants.{Assign, PostIncrement};
ghost use Rattle.awk_resolve.specs.Nodes.{first};
ghost use Rattle.awk_evaluator.specs.Moves.{Computes, Done, came};
ghost use Rattle.awk_evaluator.specs.Reading.{Updates, Increments, AssignsOperand, Raises};
ghost use Rattle.awk_evaluator.specs.Quick.{AssignsAlike, IsAsGood};

use crate::machine::Machine;
use awk_lex::token::{AssignmentOperator, IncrementOperator};
use awk_resolve::node::{Operand, Target};
use awk_runtime::ElementKey;
use awk_storage::{Array, Place, Variable};
use awk_value::{Value, number_of};

/// The number that is as good to assign as a value, where an operator is applied.
#[inline(always)]
fn number_alike(operator: AssignmentOperator, value: &Value) -> Option<i128>
    ensures { IfSome result (λ n. AssignsAlike operator value.now (Number n)) }
{
    match operator {
        AssignmentOperator::Plain => None,
        _ => number_of(value).ok(),
    }
}

impl Machine {
    /// Spends a step.
    #[inline(always)]
    pub(crate) fn spend(&mut self) -> bool
        ensures spends { Spends self.old.runtime self.new.runtime (came result self.new) }
        ensures operands { self.new.operands ≡ self.old.operands }
    {
        let spent = self.runtime.spend();
        self.is_done(spent)
    }

    /// Spends a step, and assigns an operand to a target.
    #[inline(always)]
    pub(crate) fn update(
        &mut self,
        operator: AssignmentOperator,
        target: &Target,
        operand: &Operand,
    ) -> bool
        ensures { Done (λ r. Updates operator target.now operand.now self.old r self.new) (came result self.new) }
    {
        if !self.spend() {
            return false;
        }
        match target {
            Target::Variable(variable) => self.update_variable(operator, variable, operand),
            Target::Element(array, key) => self.update_element(operator, *array, key, operand),
        }
    }

    /// Assigns an operand to a variable.
    #[inline(always)]
    fn update_variable(
        &mut self,
        operator: AssignmentOperator,
        variable: &Variable,
        operand: &Operand,
    ) -> bool
        ensures { Done (λ r. AssignsOperand operator variable.now operand.now self.old r self.new) (came result self.new) }
    {
        if self.assign_number_at(operator, variable, operand) {
            return true;
        }
        self.assign_operand(operator, variable, operand)
    }

    /// Assigns an operand that is a number at hand to a variable, where that changes where it stands.
    #[inline(always)]
    fn assign_number_at(
        &mut self,
        operator: AssignmentOperator,
        variable: &Variable,
        operand: &Operand,
    ) -> bool
        ensures assigned { result ≡ true → Done (λ r. AssignsOperand operator variable.now operand.now self.old r self.new) (Ok tt) }
        ensures kept { result ≡ false → self.new ≡ self.old }
    {
        let Some(n) = self.number_at(operand) else {
            return false;
        };
        self.runtime.change_number(operator, variable, n)
    }

    /// Assigns an operand of any kind to a variable.
    #[inline(never)]
    fn assign_operand(
        &mut self,
        operator: AssignmentOperator,
        variable: &Variable,
        operand: &Operand,
    ) -> bool
        ensures { Done (λ r. AssignsOperand operator variable.now operand.now self.old r self.new) (came result self.new) }
    {
        if self.assign_from_field(operator, variable, operand) {
            return true;
        }
        if let AssignmentOperator::Plain = operator {
            let assigned = self.give_operand(*variable, operand);
            return self.is_done(assigned);
        }
        let assigned = self.assign_read(operator, *variable, operand);
        self.is_done(assigned)
    }

    /// Assigns a field that is at hand to a variable, where an operator is applied, and that changes where it stands.
    #[inline(always)]
    fn assign_from_field(
        &mut self,
        operator: AssignmentOperator,
        variable: &Variable,
        operand: &Operand,
    ) -> bool
        ensures assigned { result ≡ true → Done (λ r. AssignsOperand operator variable.now operand.now self.old r self.new) (Ok tt) }
        ensures kept { result ≡ false → self.new ≡ self.old }
    {
        let Some(n) = self.number_of_field(operator, operand) else {
            return false;
        };
        self.runtime.change_number(operator, variable, n)
    }

    /// The number of a field that is at hand, where an operator is applied.
    #[inline(always)]
    fn number_of_field(&mut self, operator: AssignmentOperator, operand: &Operand) -> Option<i128>
        ensures some { IfSome result (λ n. IsAsGood operator operand.now n self.old) }
        ensures same { self.new ≡ self.old }
    {
        if let AssignmentOperator::Plain = operator {
            return None;
        }
        self.number_at_field(operand)
    }

    /// The number that is as good to assign as an operand that is at hand.
    #[inline(always)]
    pub(crate) fn number_to_assign(
        &mut self,
        operator: AssignmentOperator,
        operand: &Operand,
    ) -> Option<i128>
        ensures some { IfSome result (λ n. IsAsGood operator operand.now n self.old) }
        ensures same { self.new ≡ self.old }
    {
        match self.number_at(operand) {
            Some(n) => Some(n),
            None => self.number_of_field(operator, operand),
        }
    }

    /// Spends a step, and raises or lowers a target's number by 1.
    #[inline(always)]
    pub(crate) fn increment(&mut self, operator: IncrementOperator, target: &Target) -> bool
        ensures { Done (λ r. Increments operator target.now self.old r self.new) (came result self.new) }
    {
        if !self.spend() {
            return false;
        }
        match target {
            Target::Variable(variable) => {
                if self.runtime.raise_in_place(operator, variable) {
                    return true;
                }
                self.increment_value(operator, target)
            }
            Target::Element(array, key) => self.increment_element(operator, *array, key, target),
        }
    }

    /// Raises or lowers what a target holds, of any kind, by 1.
    #[inline(never)]
    pub(crate) fn increment_value(&mut self, operator: IncrementOperator, target: &Target) -> bool
        ensures { Done (λ r. Raises operator target.now self.old r self.new) (came result self.new) }
    {
        let raised = self.post_increment_at(operator, target);
        self.is_done(raised)
    }

    /// Gives a place the topmost value, or what an operator makes of its own and this one; both operands are taken off.
    #[inline(always)]
    pub(crate) fn assign_to(&mut self, operator: AssignmentOperator, place: &Place) -> bool
        ensures { Done (λ r. Computes (Assign operator place.now) self.old r self.new) (came result self.new) }
    {
        if self.assign_number(operator, place) {
            return true;
        }
        if self.assign_number_in(operator, place) {
            return true;
        }
        self.assign_value(operator, place)
    }

    /// Assigns the topmost number to an element, where that changes where it stands.
    #[inline(always)]
    fn assign_number_in(&mut self, operator: AssignmentOperator, place: &Place) -> bool
        ensures assigned { result ≡ true → Done (λ r. Computes (Assign operator place.now) self.old r self.new) (Ok tt) }
        ensures kept { result ≡ false → self.new ≡ self.old }
    {
        let Place::Element(array) = place else {
            return false;
        };
        let Some(n) = self.operands.number() else {
            return false;
        };
        let Some(key) = self.operands.below() else {
            return false;
        };
        let key = ElementKey::Value(key);
        if !self.runtime.change_element(operator, *array, key, n) {
            return false;
        }
        self.operands.drop(2);
        true
    }

    /// Assigns the topmost number to a variable, where that changes where it stands.
    #[inline(always)]
    fn assign_number(&mut self, operator: AssignmentOperator, place: &Place) -> bool
        ensures assigned { result ≡ true → Done (λ r. Computes (Assign operator place.now) self.old r self.new) (Ok tt) }
        ensures kept { result ≡ false → self.new ≡ self.old }
    {
        let Place::Variable(variable) = place else {
            return false;
        };
        let Some(n) = self.operands.number() else {
            return false;
        };
        if !self.runtime.change_number(operator, variable, n) {
            return false;
        }
        self.operands.pop();
        true
    }

    /// As `assign_to`, of values of any kind.
    #[inline(never)]
    fn assign_value(&mut self, operator: AssignmentOperator, place: &Place) -> bool
        ensures { Done (λ r. Computes (Assign operator place.now) self.old r self.new) (came result self.new) }
    {
        let AssignmentOperator::Plain = operator else {
            return self.assign_by(operator, place);
        };
        match place {
            Place::Variable(Variable::Global(slot)) => self.assign_slot(*slot),
            Place::Variable(variable) => self.assign_any(*variable),
            Place::Element(array) => self.assign_in(*array),
            Place::Field => self.assign_field(),
        }
    }

    /// Gives a place what an operator makes of its own value and the topmost one.
    #[inline(never)]
    fn assign_by(&mut self, operator: AssignmentOperator, place: &Place) -> bool
        ensures { Done (λ r. Computes (Assign operator place.now) self.old r self.new) (came result self.new) }
    {
        if self.assign_as_number(operator, place) {
            return true;
        }
        if self.assign_as_number_in(operator, place) {
            return true;
        }
        let assigned = self.assign(operator, *place);
        self.is_done(assigned)
    }

    /// Assigns the topmost value to an element, which isn't read again.
    #[inline(never)]
    fn assign_in(&mut self, array: Array) -> bool
        ensures { Done (λ r. Computes (Assign AssignmentOperator.Plain (Element array)) self.old r self.new) (came result self.new) }
    {
        let value = self.operands.pop();
        let nothing = Value::Nothing;
        let key = self.operands.top_or(&nothing);
        let assigned = self.runtime.assign_element(array, key, value);
        drop(nothing);
        self.operands.drop(1);
        self.is_done(assigned)
    }

    /// Assigns the topmost value to a field, which isn't read again.
    #[inline(never)]
    fn assign_field(&mut self) -> bool
        ensures { Done (λ r. Computes (Assign AssignmentOperator.Plain Place.Field) self.old r self.new) (came result self.new) }
    {
        let value = self.operands.pop();
        let nothing = Value::Nothing;
        let number = self.operands.top_or(&nothing);
        let assigned = self.runtime.assign_field(number, value);
        drop(nothing);
        self.operands.drop(1);
        self.is_done(assigned)
    }

    /// Assigns the topmost value to a variable of the program, which isn't read again.
    #[inline(never)]
    fn assign_slot(&mut self, slot: u32) -> bool
        ensures { Done (λ r. Computes (Assign AssignmentOperator.Plain (Place.Variable (Variable.Global slot))) self.old r self.new) (came result self.new) }
    {
        let value = self.operands.pop();
        let assigned = self.runtime.assign_global(slot, value);
        self.is_done(assigned)
    }

    /// As `assign_slot`, of any variable.
    #[inline(never)]
    fn assign_any(&mut self, variable: Variable) -> bool
        ensures { Done (λ r. Computes (Assign AssignmentOperator.Plain (Place.Variable variable)) self.old r self.new) (came result self.new) }
    {
        let value = self.operands.pop();
        let assigned = self.runtime.assign_variable(variable, value);
        self.is_done(assigned)
    }

    /// Assigns the number of the topmost value to an element, where an operator is applied, and that changes where it stands.
    fn assign_as_number_in(&mut self, operator: AssignmentOperator, place: &Place) -> bool
        ensures assigned { result ≡ true → Done (λ r. Computes (Assign operator place.now) self.old r self.new) (Ok tt) }
        ensures kept { result ≡ false → self.new ≡ self.old }
    {
        let Place::Element(array) = place else {
            return false;
        };
        let Some(n) = self.number_for(operator) else {
            return false;
        };
        let Some(key) = self.operands.below() else {
            return false;
        };
        let key = ElementKey::Value(key);
        if !self.runtime.change_element(operator, *array, key, n) {
            return false;
        }
        self.operands.drop(2);
        true
    }

    /// Assigns the number of the topmost value to a variable, where an operator is applied, and that changes where it stands.
    fn assign_as_number(&mut self, operator: AssignmentOperator, place: &Place) -> bool
        ensures assigned { result ≡ true → Done (λ r. Computes (Assign operator place.now) self.old r self.new) (Ok tt) }
        ensures kept { result ≡ false → self.new ≡ self.old }
    {
        let Place::Variable(variable) = place else {
            return false;
        };
        let Some(n) = self.number_for(operator) else {
            return false;
        };
        if !self.runtime.change_number(operator, variable, n) {
            return false;
        }
        self.operands.pop();
        true
    }

    /// The number that is as good to assign as the topmost value, where an operator is applied.
    fn number_for(&self, operator: AssignmentOperator) -> Option<i128>
        ensures { IfSome result (λ n. AssignsAlike operator (first self.now.operands.values) (Number n)) }
    {
        number_alike(operator, self.operands.top()?)
    }

    /// Raises or lowers the number of a place by 1, and takes the operand of the place off.
    #[inline(always)]
    pub(crate) fn raise(&mut self, operator: IncrementOperator, place: &Place) -> bool
        ensures { Done (λ r. Computes (PostIncrement operator place.now) self.old r self.new) (came result self.new) }
    {
        if self.raise_in(operator, place) {
            return true;
        }
        self.raise_value(operator, place)
    }

    /// Raises or lowers an element's number by 1, where that changes where it stands.
    #[inline(never)]
    fn raise_in(&mut self, operator: IncrementOperator, place: &Place) -> bool
        ensures raised { result ≡ true → Done (λ r. Computes (PostIncrement operator place.now) self.old r self.new) (Ok tt) }
        ensures kept { result ≡ false → self.new ≡ self.old }
    {
        let Place::Element(array) = place else {
            return false;
        };
        let Some(key) = self.operands.top() else {
            return false;
        };
        let key = ElementKey::Value(key);
        let Some(_) = self.runtime.raise_element(operator, *array, key) else {
            return false;
        };
        self.operands.pop();
        true
    }

    /// As `raise`, of what a place holds of any kind.
    #[inline(never)]
    fn raise_value(&mut self, operator: IncrementOperator, place: &Place) -> bool
        ensures { Done (λ r. Computes (PostIncrement operator place.now) self.old r self.new) (came result self.new) }
    {
        let raised = self.post_increment(operator, *place);
        self.is_done(raised)
    }
}
