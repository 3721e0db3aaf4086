// The values of nodes over the state alone: what a node takes is taken off the operands, and its value is given.

ghost use Rattle.std.specs.Prelude.{◌≡◌, true, false, None as NoneOf, Ok, Err, IfErr};
ghost use Rattle.awk_resolve.specs.Nodes.{operands};
ghost use Rattle.awk_resolve.specs.declared.node.ValueNode.TheVariants.{Operate, ConcatenateAll, MatchesEre, Change, ReadField, ReadElement, Contains, Key, FieldNumber, Assign, Append, PreIncrement, PostIncrement, Load, RecordLength, CountElements, Apply};
ghost use Rattle.awk_evaluator.specs.Moves.{Computes, Done, came};
ghost use Rattle.awk_evaluator.specs.Reading.{Appends};
ghost use Rattle.awk_evaluator.specs.Quick.{Puts};
ghost use Rattle.awk_grammar.specs.declared.tree.BinaryOperator.TheVariants.{Infix};
ghost use Rattle.awk_lex.specs.declared.token.Operator.TheVariants.{Matches};

use crate::machine::Machine;
use awk_functions::{operator_of, truth_value};
use awk_grammar::tree::{BinaryOperator, UnaryOperator};
use awk_lex::token::{AssignmentOperator, BuiltIn, IncrementOperator, Operator};
use awk_semantics::Halt;
use awk_storage::{Array, Place, Variable};
use awk_value::Value;

/// How many values lie on the stack for a place.
#[inline(always)]
pub(crate) fn operand_count(place: Place) -> usize
    ensures { result ≡ operands place }
{
    match place {
        Place::Variable(_) => 0,
        Place::Element(_) | Place::Field => 1,
    }
}

impl Machine {
    /// What an operator makes of two operands.
    #[inline(never)]
    pub(crate) fn operate(&mut self, operator: BinaryOperator) -> Result<Value, Halt>
        ensures { Computes (Operate operator) self.old result self.new }
    {
        let (left, right) = self.operands.pop_two();
        match operator {
            BinaryOperator::Concatenate => self.runtime.concatenate(left, &right),
            BinaryOperator::Infix(operator) => self.runtime.apply(operator, &left, &right),
        }
    }

    /// Puts whether an operand matches the pattern that the one above it spells in the place of both. They are read where they stand.
    /// `false`, and nothing changes, where there aren't two.
    #[inline(always)]
    pub(crate) fn match_operands(&mut self) -> Result<bool, Halt>
        ensures puts { result ≡ Ok true → Puts (Operate (Infix Matches)) self.old self.new }
        ensures kept { result ≡ Ok false → self.new ≡ self.old }
        ensures ended { IfErr result (λ halt. Computes (Operate (Infix Matches)) self.old (Err halt) self.new) }
    {
        let [text, pattern] = self.operands.newest(2) else {
            return Ok(false);
        };
        let holds = self.runtime.matches(text, pattern)?;
        drop(self.operands.pop());
        self.operands.replace(truth_value(holds));
        Ok(true)
    }

    /// Whether an operand matches an ERE of the program, or doesn't.
    pub(crate) fn matches_ere(&mut self, operator: Operator, ere: u32) -> Result<Value, Halt>
        ensures { Computes (MatchesEre operator ere) self.old result self.new }
    {
        let text = self.operands.pop();
        self.runtime.matches_ere(operator, &text, ere)
    }

    /// What an operator makes of an operand.
    pub(crate) fn change(&mut self, operator: UnaryOperator) -> Result<Value, Halt>
        ensures { Computes (Change operator) self.old result self.new }
    {
        let operand = self.operands.pop();
        self.runtime.change(operator, &operand)
    }

    /// The field whose number an operand is.
    #[inline(never)]
    pub(crate) fn field(&mut self) -> Result<Value, Halt>
        ensures { Computes ReadField self.old result self.new }
    {
        let number = self.operands.pop();
        self.runtime.read_at(Place::Field, &number)
    }

    /// The element at the key that an operand is.
    #[inline(never)]
    pub(crate) fn element_on_top(&mut self, array: Array) -> Result<Value, Halt>
        ensures { Computes (ReadElement array NoneOf) self.old result self.new }
    {
        let key = self.operands.pop();
        self.runtime.read_element_of(array, &key)
    }

    /// Whether there is an element at the key that an operand is.
    pub(crate) fn contains_on_top(&mut self, array: Array) -> Result<Value, Halt>
        ensures { Computes (Contains array NoneOf) self.old result self.new }
    {
        let key = self.operands.pop();
        let is_there = self.runtime.contains_at(array, &key)?;
        Ok(truth_value(is_there))
    }

    /// So many subscripts as one text.
    pub(crate) fn key(&mut self, count: u32) -> Result<Value, Halt>
        ensures { Computes (Key count) self.old result self.new }
    {
        let subscripts = self.operands.newest(count as usize);
        let key = self.runtime.joined_key(subscripts)?;
        self.operands.drop(count as usize);
        Ok(Value::Text(key))
    }

    /// So many texts, one behind the other.
    #[inline(never)]
    pub(crate) fn concatenate_all(&mut self, count: u32) -> Result<Value, Halt>
        ensures { Computes (ConcatenateAll count) self.old result self.new }
    {
        let parts = self.operands.newest(count as usize);
        let text = self.runtime.concatenate_all(parts)?;
        self.operands.drop(count as usize);
        Ok(text)
    }

    /// The number of a field that is a place.
    pub(crate) fn field_number(&mut self) -> Result<Value, Halt>
        ensures { Computes FieldNumber self.old result self.new }
    {
        let operand = self.operands.pop();
        self.runtime.change(UnaryOperator::Plus, &operand)
    }

    /// Assigns an operand to a place; gives what the place then holds.
    #[inline(never)]
    pub(crate) fn assign(
        &mut self,
        operator: AssignmentOperator,
        place: Place,
    ) -> Result<Value, Halt>
        ensures { Computes (Assign operator place) self.old result self.new }
    {
        let value = self.operands.pop();
        let nothing = Value::Nothing;
        let operand = self.operands.top_or(&nothing);
        let assigned = self
            .runtime
            .assign_by_at(operator_of(operator), place, operand, value);
        drop(nothing);
        let assigned = assigned?;
        self.operands.drop(operand_count(place));
        Ok(assigned)
    }

    /// Gives a variable the text of an operand, which it held, with that of the operand above it; gives what it then holds.
    pub(crate) fn append(&mut self, variable: Variable) -> Result<Value, Halt>
        ensures { Computes (Append variable) self.old result self.new }
    {
        let (text, behind) = self.operands.pop_two();
        self.runtime.append_to(variable, text, &behind)
    }

    /// Gives a variable its text with those of so many operands behind it.
    pub(crate) fn append_texts(&mut self, variable: &Variable, count: u32) -> bool
        ensures { Done (λ r. Appends variable.now count self.old r self.new) (came result self.new) }
    {
        match self.append_each(variable, count as usize) {
            Ok(true) => true,
            Ok(false) => self.append_any(variable, count),
            Err(halt) => {
                self.halt = halt;
                false
            }
        }
    }

    /// As `append_texts`, where the variable's text grows where it stands: whether it does, and else nothing changes.
    #[inline(always)]
    fn append_each(&mut self, variable: &Variable, count: usize) -> Result<bool, Halt>
        ensures appended { result ≡ Ok true → Done (λ r. Appends variable.now count self.old r self.new) (Ok tt) }
        ensures kept { result ≡ Ok false → self.new ≡ self.old }
        ensures refused { IfErr result (λ halt. Appends variable.now count self.old (Err halt) self.new) }
    {
        let parts = self.operands.newest(count);
        if !self.runtime.append_in_place(variable, parts)? {
            return Ok(false);
        }
        self.operands.drop(count);
        Ok(true)
    }

    /// As `append_texts`, of any variable.
    #[inline(never)]
    fn append_any(&mut self, variable: &Variable, count: u32) -> bool
        ensures { Done (λ r. Appends variable.now count self.old r self.new) (came result self.new) }
    {
        let appended = self.append_all(*variable, count as usize);
        self.is_done(appended)
    }

    /// As `append_texts`; gives what the variable then holds.
    fn append_all(&mut self, variable: Variable, count: usize) -> Result<Value, Halt>
        ensures { Appends variable count self.old result self.new }
    {
        let text = self.runtime.read_variable(variable)?;
        let parts = self.operands.newest(count);
        let behind = self.runtime.concatenate_all(parts)?;
        let appended = self.runtime.append_to(variable, text, &behind)?;
        self.operands.drop(count);
        Ok(appended)
    }

    /// Raises or lowers what a place holds by 1; gives what it then holds.
    #[inline(never)]
    pub(crate) fn pre_increment(
        &mut self,
        operator: IncrementOperator,
        place: Place,
    ) -> Result<Value, Halt>
        ensures { Computes (PreIncrement operator place) self.old result self.new }
    {
        let nothing = Value::Nothing;
        let operand = self.operands.top_or(&nothing);
        let raised = self.runtime.pre_increment_at(operator, place, operand);
        drop(nothing);
        let raised = raised?;
        self.operands.drop(operand_count(place));
        Ok(raised)
    }

    /// Raises or lowers what a place holds by 1; gives the number that it had.
    #[inline(never)]
    pub(crate) fn post_increment(
        &mut self,
        operator: IncrementOperator,
        place: Place,
    ) -> Result<Value, Halt>
        ensures { Computes (PostIncrement operator place) self.old result self.new }
    {
        let nothing = Value::Nothing;
        let operand = self.operands.top_or(&nothing);
        let old = self.runtime.post_increment_at(operator, place, operand);
        drop(nothing);
        let old = old?;
        self.operands.drop(operand_count(place));
        Ok(old)
    }

    /// What a place holds, whose operand stays.
    pub(crate) fn load(&mut self, place: Place) -> Result<Value, Halt>
        ensures { Computes (Load place) self.old result self.new }
    {
        let nothing = Value::Nothing;
        let operand = self.operands.top_or(&nothing);
        let value = self.runtime.read_at(place, operand);
        drop(nothing);
        value
    }

    /// The length of the record's text.
    pub(crate) fn record_length(&mut self) -> Result<Value, Halt>
        ensures { Computes RecordLength self.old result self.new }
    {
        self.runtime.record_length()
    }

    /// How many elements an array has.
    pub(crate) fn count_elements(&mut self, array: Array) -> Result<Value, Halt>
        ensures { Computes (CountElements array) self.old result self.new }
    {
        Ok(self.runtime.count_elements_at(array))
    }

    /// What a built-in function makes of so many operands.
    pub(crate) fn apply_function(&mut self, function: BuiltIn, count: u32) -> Result<Value, Halt>
        ensures { Computes (Apply function count) self.old result self.new }
    {
        let arguments = self.operands.newest(count as usize);
        let value = self.runtime.apply_function(function, arguments)?;
        self.operands.drop(count as usize);
        Ok(value)
    }
}
