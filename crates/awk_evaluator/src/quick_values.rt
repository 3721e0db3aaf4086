// Values that are at hand, put on the stack. Where one can't be put there so, nothing changes.

ghost use Rattle.std.specs.Prelude.{◌≡◌, pos, length, None as NoneOf, Ok, IfSome, true, false};
ghost use Rattle.awk_value.specs.Values.{str_of};
ghost use Rattle.awk_value.specs.declared.value.Value.TheVariants.{Number};
ghost use Rattle.awk_lex.specs.declared.token.BuiltIn.TheVariants.{Length};
ghost use Rattle.awk_grammar.specs.declared.tree.BinaryOperator.TheVariants.{Concatenate, Infix};
ghost use Rattle.awk_grammar.specs.declared.tree.UnaryOperator.TheVariants.{Minus as Negative};
ghost use Rattle.awk_resolve.specs.declared.node.ValueNode.TheVariants.{Put, Operate, OperateWith, OperateOn, Change, ReadField, ReadElement, Contains, Load, Apply, Assign, PreIncrement, PostIncrement, PostIncrementAt};
ghost use Rattle.awk_storage.specs.Positions.{read_variable};
ghost use Rattle.awk_runtime.specs.Simulation.{Changes};
ghost use Rattle.awk_evaluator.specs.Quick.{IsAtHand, Puts, Pushed};

use crate::machine::Machine;
use awk_functions::{apply_in_short, by_one, concatenate, operator_of, truth_value};
use awk_grammar::tree::{BinaryOperator, UnaryOperator};
use awk_lex::token::{AssignmentOperator, BuiltIn, IncrementOperator, Operator};
use awk_resolve::node::{Operand, Target, ValueNode};
use awk_runtime::ElementKey;
use awk_storage::{Array, Place, Variable};
use awk_value::Value;

/// The length of a value that is a text.
#[inline(always)]
fn length_at_hand(value: &Value) -> Option<i128>
    ensures { IfSome result (λ n. n ≡ pos (length (str_of value.now))) }
{
    match value {
        Value::Text(text) => Some(text.len() as i128),
        Value::Input(text) => Some(text.len() as i128),
        Value::Nothing | Value::Number(_) => None,
    }
}

impl Machine {
    /// Puts the value of a node on the stack.
    #[inline(always)]
    pub(crate) fn put_quickly(&mut self, node: &ValueNode) -> bool
        ensures puts { result ≡ true → Puts (node.now) self.old self.new }
        ensures kept { result ≡ false → self.new ≡ self.old }
    {
        match node {
            ValueNode::Put(operand) => self.put_operand(operand),
            ValueNode::Operate(BinaryOperator::Infix(operator)) => self.put_operated(*operator),
            ValueNode::OperateWith(BinaryOperator::Infix(operator), right) => {
                self.put_operated_with(*operator, right)
            }
            ValueNode::OperateOn(BinaryOperator::Infix(operator), left, right) => {
                self.put_operated_on(*operator, left, right)
            }
            ValueNode::OperateOn(BinaryOperator::Concatenate, left, right) => {
                self.put_joined(left, right)
            }
            ValueNode::Change(UnaryOperator::Minus) => self.put_negated(),
            ValueNode::ReadField => self.put_field(),
            ValueNode::ReadElement(array, None) => self.put_element(*array),
            ValueNode::ReadElement(array, Some(key)) => self.put_element_at(*array, key),
            ValueNode::Contains(array, None) => self.put_contains(*array),
            ValueNode::Contains(array, Some(key)) => self.put_contains_at(*array, key),
            ValueNode::Apply(BuiltIn::Length, count) => self.put_length(*count),
            ValueNode::ApplyTo(function, operands, count) => {
                self.put_applied(*function, operands, *count)
            }
            ValueNode::PostIncrementAt(operator, Target::Variable(variable)) => {
                self.put_raised(*operator, variable)
            }
            ValueNode::PostIncrementAt(operator, Target::Element(array, key)) => {
                self.put_raised_at(*operator, *array, key)
            }
            ValueNode::PostIncrement(operator, Place::Element(array)) => {
                self.put_raised_in(*operator, *array)
            }
            ValueNode::PreIncrement(operator, Place::Variable(variable)) => {
                self.put_raised_first(*operator, variable)
            }
            ValueNode::Assign(operator, Place::Variable(variable)) => {
                self.put_assigned(*operator, variable)
            }
            ValueNode::Assign(AssignmentOperator::Plain, Place::Field) => self.put_in_field(),
            _ => false,
        }
    }

    /// The number that an operand is, if it is one.
    #[inline(always)]
    pub(crate) fn number_at(&self, operand: &Operand) -> Option<i128>
        ensures { IfSome result (λ n. IsAtHand operand.now (Number n) self.now) }
    {
        if let Operand::Variable(Variable::Global(slot)) = operand {
            return self.runtime.number_in_slot(*slot);
        }
        if let Operand::Constant(Value::Number(n)) = operand {
            return Some(*n);
        }
        if let Operand::Variable(Variable::Local(index)) = operand {
            return self.runtime.number_of_parameter(*index);
        }
        if let Operand::Variable(Variable::FieldCount) = operand {
            return self.runtime.known_count();
        }
        if let Operand::Variable(Variable::Special(special)) = operand {
            return self.runtime.number_of_special(*special);
        }
        None
    }

    /// The value that an operand is, where one is kept.
    #[inline(always)]
    pub(crate) fn value_at<'a>(&'a self, operand: &'a Operand) -> Option<&'a Value>
        ensures { IfSome result (λ value. IsAtHand operand.now value.now self.now) }
    {
        match operand {
            Operand::Constant(value) => Some(value),
            Operand::Variable(variable) => self.runtime.value_in(*variable),
            Operand::Field(_) | Operand::FieldAt(_) => None,
        }
    }

    /// Puts a number on the stack.
    #[inline(always)]
    pub(crate) fn put(&mut self, n: i128) -> bool
        ensures pushed { result ≡ true → Pushed (Number n) self.old self.new }
        ensures kept { result ≡ false → self.new ≡ self.old }
    {
        self.operands.push(Value::Number(n)).is_ok()
    }

    /// Puts an operand on the stack.
    #[inline(always)]
    fn put_operand(&mut self, operand: &Operand) -> bool
        ensures puts { result ≡ true → Puts (Put operand.now) self.old self.new }
        ensures kept { result ≡ false → self.new ≡ self.old }
    {
        match operand {
            Operand::Constant(value) => self.put_constant(value),
            Operand::Variable(variable) => self.put_variable(variable),
            Operand::Field(_) | Operand::FieldAt(_) => self.put_field_of(operand),
        }
    }

    /// Puts a value of the program on the stack.
    #[inline(always)]
    fn put_constant(&mut self, value: &Value) -> bool
        ensures puts { result ≡ true → Puts (Put (Operand.Constant value.now)) self.old self.new }
        ensures kept { result ≡ false → self.new ≡ self.old }
    {
        if let Value::Number(n) = value {
            return self.put(*n);
        }
        self.operands.push_copy(value)
    }

    /// Puts the value of a variable on the stack.
    #[inline(always)]
    fn put_variable(&mut self, variable: &Variable) -> bool
        ensures puts { result ≡ true → Puts (Put (Operand.Variable variable.now)) self.old self.new }
        ensures kept { result ≡ false → self.new ≡ self.old }
    {
        if let Some(n) = self.number_of_variable(variable) {
            return self.put(n);
        }
        self.put_copy_of(variable)
    }

    /// Puts the value of a variable that is a place on the stack.
    #[inline(always)]
    pub(crate) fn put_loaded(&mut self, variable: &Variable) -> bool
        ensures puts { result ≡ true → Puts (Load (Place.Variable variable.now)) self.old self.new }
        ensures kept { result ≡ false → self.new ≡ self.old }
    {
        self.put_copy_of(variable)
    }

    /// The number that a variable is, if it is one that is known.
    #[inline(always)]
    pub(crate) fn number_of_variable(&self, variable: &Variable) -> Option<i128>
        ensures { IfSome result (λ n. Changes (read_variable self.now.runtime.names.scalars variable.now) self.now.runtime self.now.runtime (Ok (Number n))) }
    {
        match variable {
            Variable::Global(slot) => self.runtime.number_in_slot(*slot),
            Variable::Local(index) => self.runtime.number_of_parameter(*index),
            Variable::FieldCount => self.runtime.known_count(),
            Variable::Special(special) => self.runtime.number_of_special(*special),
        }
    }

    /// Puts a copy of the value of a variable on the stack.
    #[inline(never)]
    fn put_copy_of(&mut self, variable: &Variable) -> bool
        ensures puts { result ≡ true → Puts (Put (Operand.Variable variable.now)) self.old self.new }
        ensures kept { result ≡ false → self.new ≡ self.old }
    {
        if let Some(value) = self.runtime.value_in(*variable) {
            return self.operands.push_copy(value);
        }
        let Some(n) = self.runtime.number_in(*variable) else {
            return false;
        };
        self.put(n)
    }

    /// Puts what an operator makes of two values that are numbers in their place.
    #[inline(always)]
    fn put_operated(&mut self, operator: Operator) -> bool
        ensures puts { result ≡ true → Puts (Operate (Infix operator)) self.old self.new }
        ensures kept { result ≡ false → self.new ≡ self.old }
    {
        let Some(m) = self.operands.number_below() else {
            return false;
        };
        let Some(n) = self.operands.number() else {
            return false;
        };
        let Some(z) = apply_in_short(operator, m, n) else {
            return false;
        };
        self.operands.pop();
        self.operands.replace_by(z);
        true
    }

    /// As `put_operated`, of a value and an operand.
    #[inline(always)]
    fn put_operated_with(&mut self, operator: Operator, right: &Operand) -> bool
        ensures puts { result ≡ true → Puts (OperateWith (Infix operator) right.now) self.old self.new }
        ensures kept { result ≡ false → self.new ≡ self.old }
    {
        let Some(m) = self.operands.number() else {
            return false;
        };
        let Some(n) = self.number_at(right) else {
            return false;
        };
        let Some(z) = apply_in_short(operator, m, n) else {
            return false;
        };
        self.operands.replace_by(z);
        true
    }

    /// As `put_operated`, of two operands.
    #[inline(always)]
    fn put_operated_on(&mut self, operator: Operator, left: &Operand, right: &Operand) -> bool
        ensures puts { result ≡ true → Puts (OperateOn (Infix operator) left.now right.now) self.old self.new }
        ensures kept { result ≡ false → self.new ≡ self.old }
    {
        let Some(m) = self.number_at(left) else {
            return self.put_operated_on_fields(operator, left, right);
        };
        let Some(n) = self.number_at(right) else {
            return self.put_operated_on_fields(operator, left, right);
        };
        let Some(z) = apply_in_short(operator, m, n) else {
            return false;
        };
        self.put(z)
    }

    /// Puts the texts of two operands, one behind the other, on the stack.
    #[inline(never)]
    fn put_joined(&mut self, left: &Operand, right: &Operand) -> bool
        ensures puts { result ≡ true → Puts (OperateOn Concatenate left.now right.now) self.old self.new }
        ensures kept { result ≡ false → self.new ≡ self.old }
    {
        let Some(front) = self.value_at(left) else {
            return false;
        };
        let Some(behind) = self.value_at(right) else {
            return false;
        };
        let Ok(text) = concatenate(self.runtime.alloc, front, behind) else {
            return false;
        };
        self.operands.push(text).is_ok()
    }

    /// Puts the number with the other sign in the place of a number.
    #[inline(always)]
    fn put_negated(&mut self) -> bool
        ensures puts { result ≡ true → Puts (Change Negative) self.old self.new }
        ensures kept { result ≡ false → self.new ≡ self.old }
    {
        let Some(n) = self.operands.number() else {
            return false;
        };
        let Some(z) = n.checked_neg() else {
            return false;
        };
        self.operands.replace_by(z);
        true
    }

    /// Puts the field whose number lies on top in its place.
    #[inline(always)]
    fn put_field(&mut self) -> bool
        ensures puts { result ≡ true → Puts ReadField self.old self.new }
        ensures kept { result ≡ false → self.new ≡ self.old }
    {
        let Some(n) = self.operands.number() else {
            return false;
        };
        let Some(value) = self.runtime.field_at_hand(n) else {
            return false;
        };
        self.operands.replace(value);
        true
    }

    /// Puts an operand that is a field on the stack.
    #[inline(always)]
    fn put_field_of(&mut self, operand: &Operand) -> bool
        ensures puts { result ≡ true → Puts (Put operand.now) self.old self.new }
        ensures kept { result ≡ false → self.new ≡ self.old }
    {
        let Some(value) = self.field_of(operand) else {
            return false;
        };
        self.operands.push(value).is_ok()
    }

    /// Puts the element whose key lies on top in its place.
    #[inline(always)]
    fn put_element(&mut self, array: Array) -> bool
        ensures puts { result ≡ true → Puts (ReadElement array NoneOf) self.old self.new }
        ensures kept { result ≡ false → self.new ≡ self.old }
    {
        let Some(key) = self.operands.top() else {
            return false;
        };
        let Some(value) = self.runtime.element_in(array, ElementKey::Value(key)) else {
            return false;
        };
        if let Value::Number(n) = value {
            self.operands.replace_by(*n);
            return true;
        }
        self.operands.replace_by_copy(value)
    }

    /// Puts whether there is an element at the key on top in its place.
    #[inline(always)]
    fn put_contains(&mut self, array: Array) -> bool
        ensures puts { result ≡ true → Puts (Contains array NoneOf) self.old self.new }
        ensures kept { result ≡ false → self.new ≡ self.old }
    {
        let Some(key) = self.operands.top() else {
            return false;
        };
        let Some(is_there) = self.runtime.has_element(array, ElementKey::Value(key)) else {
            return false;
        };
        self.operands.replace(truth_value(is_there));
        true
    }

    /// Raises or lowers a variable's number by 1, and puts the number that it had on the stack.
    #[inline(never)]
    fn put_raised(&mut self, operator: IncrementOperator, variable: &Variable) -> bool
        ensures puts { result ≡ true → Puts (PostIncrementAt operator (Target.Variable variable.now)) self.old self.new }
        ensures kept { result ≡ false → self.new ≡ self.old }
    {
        let Ok(()) = self.operands.push(Value::Nothing) else {
            return false;
        };
        let Some(n) = self.runtime.raise_number(operator, *variable) else {
            self.operands.pop();
            return false;
        };
        self.operands.replace(Value::Number(n));
        true
    }

    /// Raises or lowers the number of the element whose key lies on top by 1, and puts the number that it had in the key's place.
    #[inline(never)]
    fn put_raised_in(&mut self, operator: IncrementOperator, array: Array) -> bool
        ensures puts { result ≡ true → Puts (PostIncrement operator (Place.Element array)) self.old self.new }
        ensures kept { result ≡ false → self.new ≡ self.old }
    {
        let Some(key) = self.operands.top() else {
            return false;
        };
        let key = ElementKey::Value(key);
        let Some(n) = self.runtime.raise_element(operator, array, key) else {
            return false;
        };
        self.operands.replace_by(n);
        true
    }

    /// Raises or lowers a variable's number by 1, and puts it on the stack.
    #[inline(never)]
    fn put_raised_first(&mut self, operator: IncrementOperator, variable: &Variable) -> bool
        ensures puts { result ≡ true → Puts (PreIncrement operator (Place.Variable variable.now)) self.old self.new }
        ensures kept { result ≡ false → self.new ≡ self.old }
    {
        let Ok(()) = self.operands.push(Value::Nothing) else {
            return false;
        };
        let operator = by_one(operator);
        let Some(n) = self.runtime.assign_number(Some(operator), *variable, 1) else {
            self.operands.pop();
            return false;
        };
        self.operands.replace(Value::Number(n));
        true
    }

    /// Assigns the topmost number to a variable, and puts what that then holds in its place.
    #[inline(never)]
    fn put_assigned(&mut self, operator: AssignmentOperator, variable: &Variable) -> bool
        ensures puts { result ≡ true → Puts (Assign operator (Place.Variable variable.now)) self.old self.new }
        ensures kept { result ≡ false → self.new ≡ self.old }
    {
        let Some(n) = self.operands.number() else {
            return false;
        };
        let Some(z) = self
            .runtime
            .assign_number(operator_of(operator), *variable, n)
        else {
            return false;
        };
        self.operands.replace_by(z);
        true
    }

    /// Assigns the topmost number to the field whose number lies below it, and puts it in the place of both.
    #[inline(never)]
    fn put_in_field(&mut self) -> bool
        ensures puts { result ≡ true → Puts (Assign AssignmentOperator.Plain Place.Field) self.old self.new }
        ensures kept { result ≡ false → self.new ≡ self.old }
    {
        let Some(number) = self.operands.number_below() else {
            return false;
        };
        let Some(n) = self.operands.number() else {
            return false;
        };
        if !self.runtime.put_number_in_field(number, n) {
            return false;
        }
        self.operands.pop();
        self.operands.replace_by(n);
        true
    }

    /// Puts the length of a value that is a text in its place.
    #[inline(always)]
    fn put_length(&mut self, count: u32) -> bool
        ensures puts { result ≡ true → Puts (Apply Length count) self.old self.new }
        ensures kept { result ≡ false → self.new ≡ self.old }
    {
        if count != 1 {
            return false;
        }
        let Some(value) = self.operands.top() else {
            return false;
        };
        let Some(length) = length_at_hand(value) else {
            return false;
        };
        self.operands.replace(Value::Number(length));
        true
    }
}
