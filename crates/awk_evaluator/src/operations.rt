// What nodes do with operands that are read where they stand.

ghost use Rattle.std.specs.Prelude.{◌≡◌, IfSome};
ghost use Rattle.awk_semantics.specs.State.{lift};
ghost use Rattle.awk_semantics.specs.Primitives.{read_field};
ghost use Rattle.awk_resolve.specs.Nodes.{operated};
ghost use Rattle.awk_resolve.specs.declared.node.ValueNode.TheVariants.{Put, Matches, OperateWith, OperateOn};
ghost use Rattle.awk_runtime.specs.Simulation.{Changes};
ghost use Rattle.awk_evaluator.specs.Moves.{Computes, Done};
ghost use Rattle.awk_evaluator.specs.Reading.{Runs, ReadsOperand, AssignsOperand};
ghost use Rattle.awk_evaluator.specs.Quick.{IsAtHand, IsFieldOf};

use crate::machine::Machine;
use awk_functions::operator_of;
use awk_grammar::tree::BinaryOperator;
use awk_lex::token::{AssignmentOperator, Operator};
use awk_resolve::node::Operand;
use awk_semantics::Halt;
use awk_storage::{Place, Variable};
use awk_value::Value;

impl Machine {
    /// The value of an operand.
    pub(crate) fn read_operand(&mut self, operand: &Operand) -> Result<Value, Halt>
        ensures { ReadsOperand operand.now self.old result self.new }
    {
        match operand {
            Operand::Constant(value) => Ok(value.clone()?),
            Operand::Variable(variable) => self.runtime.read_variable(*variable),
            Operand::Field(number) => self.read_field(i128::from(*number)),
            Operand::FieldAt(variable) => self.read_field_at(*variable),
        }
    }

    /// The field of a number.
    fn read_field(&mut self, number: i128) -> Result<Value, Halt>
        ensures { Runs (read_field number) self.old result self.new }
    {
        match self.runtime.field_at_hand(number) {
            Some(field) => Ok(field),
            None => self.runtime.read_field(number),
        }
    }

    /// The field whose number a variable holds.
    fn read_field_at(&mut self, variable: Variable) -> Result<Value, Halt>
        ensures { ReadsOperand (Operand.FieldAt variable) self.old result self.new }
    {
        let number = self.runtime.read_variable(variable)?;
        self.runtime.read_at(Place::Field, &number)
    }

    /// The field that an operand is, where it is one that is at hand.
    #[inline(always)]
    pub(crate) fn field_of(&mut self, operand: &Operand) -> Option<Value>
        ensures some { IfSome result (λ value. IsAtHand operand.now value self.old) }
        ensures same { self.new ≡ self.old }
    {
        let number = self.field_number_of(operand)?;
        self.runtime.field_at_hand(number)
    }

    /// The number of the field that an operand is, if it is one and the number is at hand.
    #[inline(always)]
    pub(crate) fn field_number_of(&self, operand: &Operand) -> Option<i128>
        ensures { IfSome result (λ n. IsFieldOf operand.now n self.now) }
    {
        match operand {
            Operand::Field(number) => Some(i128::from(*number)),
            Operand::FieldAt(variable) => self.number_of_variable(variable),
            Operand::Constant(_) | Operand::Variable(_) => None,
        }
    }

    /// What an operator makes of two values.
    fn join(&mut self, operator: BinaryOperator, left: Value, right: &Value) -> Result<Value, Halt>
        ensures operands { self.new.operands ≡ self.old.operands }
        ensures changes { Changes (lift (operated operator left right.now)) self.old.runtime self.new.runtime result }
    {
        match operator {
            BinaryOperator::Concatenate => self.runtime.concatenate(left, right),
            BinaryOperator::Infix(operator) => self.runtime.apply(operator, &left, right),
        }
    }

    /// What an operator makes of the topmost value and an operand.
    #[inline(never)]
    pub(crate) fn operate_with(
        &mut self,
        operator: BinaryOperator,
        right: &Operand,
    ) -> Result<Value, Halt>
        ensures { Computes (OperateWith operator right.now) self.old result self.new }
    {
        let right = self.read_operand(right)?;
        let left = self.operands.pop();
        self.join(operator, left, &right)
    }

    /// What an operator makes of two operands.
    #[inline(never)]
    pub(crate) fn operate_on(
        &mut self,
        operator: BinaryOperator,
        left: &Operand,
        right: &Operand,
    ) -> Result<Value, Halt>
        ensures { Computes (OperateOn operator left.now right.now) self.old result self.new }
    {
        let left = self.read_operand(left)?;
        let right = self.read_operand(right)?;
        self.join(operator, left, &right)
    }

    /// The value of an operand, as that of a node.
    #[inline(never)]
    pub(crate) fn operand(&mut self, operand: &Operand) -> Result<Value, Halt>
        ensures { Computes (Put operand.now) self.old result self.new }
    {
        self.read_operand(operand)
    }

    /// Whether an operand has a match of an ERE of the program.
    #[inline(never)]
    pub(crate) fn matches(&mut self, operand: &Operand, ere: u32) -> Result<Value, Halt>
        ensures { Computes (Matches operand.now ere) self.old result self.new }
    {
        if let Operand::Field(0) = operand {
            return self.runtime.record_matches(ere);
        }
        let text = self.read_operand(operand)?;
        self.runtime.matches_ere(Operator::Matches, &text, ere)
    }

    /// Gives a variable the value of an operand, which isn't read again.
    pub(crate) fn give_operand(&mut self, variable: Variable, operand: &Operand) -> Result<(), Halt>
        ensures { Done (λ r. AssignsOperand AssignmentOperator.Plain variable operand.now self.old r self.new) result }
    {
        let value = self.read_operand(operand)?;
        self.runtime.assign_variable(variable, value)
    }

    /// Assigns an operand to a variable.
    pub(crate) fn assign_read(
        &mut self,
        operator: AssignmentOperator,
        variable: Variable,
        operand: &Operand,
    ) -> Result<Value, Halt>
        ensures { AssignsOperand operator variable operand.now self.old result self.new }
    {
        let value = self.read_operand(operand)?;
        let place = Place::Variable(variable);
        self.runtime
            .assign_by_at(operator_of(operator), place, &Value::Nothing, value)
    }
}
