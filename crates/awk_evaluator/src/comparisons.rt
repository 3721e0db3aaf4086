// The moves of nodes that test: numbers at hand are compared where they stand, and all else by functions that aren't inlined.

ghost use Rattle.std.specs.Prelude.{◌≡◌, Ok, IfSome, IfNone};
ghost use Rattle.awk_value.specs.Values.{truth_of};
ghost use Rattle.awk_text.specs.Pieces.{stretch_at, IsSpanOf};
ghost use Rattle.awk_semantics.specs.Operators.{pattern_in};
ghost use Rattle.awk_functions.specs.Matched.{matched};
ghost use Rattle.awk_runtime.specs.Naming.{ere_at};
ghost use Rattle.awk_runtime.specs.Simulation.{SameState};
ghost use Rattle.awk_resolve.specs.declared.node.ValueNode.TheVariants.{OperateWith, OperateOn, Matches};
ghost use Rattle.awk_resolve.specs.Nodes.{first};
ghost use Rattle.awk_evaluator.specs.Moves.{told};
ghost use Rattle.awk_evaluator.specs.Reading.{Asks, Compares, Decides};
ghost use Rattle.awk_evaluator.specs.Applied.{HasNumber, StaysAlike};
ghost use Rattle.awk_evaluator.specs.Quick.{IsAtHand, Popped, Relates, RelatesWith};

use crate::machine::{Machine, Move};
use crate::moves::{chosen, toward};
use awk_functions::{relate, relate_numbers};
use awk_grammar::tree::BinaryOperator;
use awk_resolve::node::{Operand, Tested};
use awk_runtime::Runtime;
use awk_storage::Variable;
use awk_text::Span;
use awk_value::{Bytes, Value, is_true, number_of, numeric_of};

/// Whether a stretch of the record has a match of an ERE of the program, by its number, where that was read before.
#[inline(always)]
fn stretch_has_match(runtime: &mut Runtime, span: Span, ere: u32) -> Option<bool>
    requires { IsSpanOf runtime.old.current.text span }
    ensures matched { IfSome result (λ holds. matched (pattern_in (ere_at runtime.old.names ere)) (stretch_at runtime.old.current.text span) ≡ Ok holds) }
    ensures alike { SameState runtime.old runtime.new }
{
    let text = runtime.current.text_at_hand()?;
    let part = &text.as_slice()[span.start..span.end];
    let spelling = runtime.names.ere(ere);
    runtime.patterns.matches_read(ere as usize, spelling, part)
}

impl Machine {
    /// What a test asks, or that the run ends by what that came to.
    #[inline(always)]
    pub(crate) fn ask(&mut self, tested: &Tested) -> Option<bool>
        ensures { Asks tested.now self.old (told result self.new) self.new }
    {
        match tested {
            Tested::Top => Some(self.test()),
            Tested::Raised(operator, target) => self.test_raised(*operator, target),
            Tested::Element(array, key) => self.test_element(*array, key),
            Tested::Inside(number) => Some(self.runtime.is_inside(*number as usize)),
        }
    }

    /// Whether the topmost operand is true, which is taken off.
    #[inline(always)]
    fn test(&mut self) -> bool
        ensures truth { truth_of (first self.old.operands.values) ≡ result }
        ensures popped { Popped self.old self.new }
    {
        if let Some(n) = self.operands.number() {
            self.operands.pop();
            return n != 0;
        }
        self.test_value()
    }

    /// As `test`, of a value of any kind.
    #[inline(never)]
    fn test_value(&mut self) -> bool
        ensures truth { truth_of (first self.old.operands.values) ≡ result }
        ensures popped { Popped self.old self.new }
    {
        let nothing = Value::Nothing;
        let holds = is_true(self.operands.top_or(&nothing));
        self.operands.drop(1);
        holds
    }

    /// The move to the place that what an operator makes of two operands leads to.
    #[inline(always)]
    pub(crate) fn compare(
        &mut self,
        operator: BinaryOperator,
        left: &Operand,
        right: &Operand,
        here: u32,
        other: u32,
    ) -> Move
        ensures { Decides (OperateOn operator left.now right.now) here other self.old result self.new }
    {
        if let Some(holds) = self.relate_numbers(operator, left, right) {
            return Move::On(chosen(holds, here, other));
        }
        toward(self.compare_others(operator, left, right), here, other)
    }

    /// Whether what an operator makes of two operands of any kind is true.
    #[inline(never)]
    fn compare_others(
        &mut self,
        operator: BinaryOperator,
        left: &Operand,
        right: &Operand,
    ) -> Option<bool>
        ensures { Compares (OperateOn operator left.now right.now) self.old (told result self.new) self.new }
    {
        match left {
            Operand::Field(_) | Operand::FieldAt(_) => self.compare_field(operator, left, right),
            _ => self.compare_values(operator, left, right),
        }
    }

    /// Whether two numbers at hand are so related.
    #[inline(always)]
    fn relate_numbers(
        &self,
        operator: BinaryOperator,
        left: &Operand,
        right: &Operand,
    ) -> Option<bool>
        ensures { IfSome result (λ holds. Relates operator left.now right.now holds self.now) }
    {
        let BinaryOperator::Infix(infix) = operator else {
            return None;
        };
        let m = self.number_at(left)?;
        let n = self.number_at(right)?;
        relate_numbers(infix, m, n)
    }

    /// As `compare_others`, of values that are no fields.
    #[inline(never)]
    fn compare_values(
        &mut self,
        operator: BinaryOperator,
        left: &Operand,
        right: &Operand,
    ) -> Option<bool>
        ensures { Compares (OperateOn operator left.now right.now) self.old (told result self.new) self.new }
    {
        if let Some(holds) = self.relate_values(operator, left, right) {
            return Some(holds);
        }
        self.compare_read(operator, left, right)
    }

    /// As `compare_others`, of a field and a value of any kind.
    #[inline(never)]
    fn compare_field(
        &mut self,
        operator: BinaryOperator,
        left: &Operand,
        right: &Operand,
    ) -> Option<bool>
        ensures { Compares (OperateOn operator left.now right.now) self.old (told result self.new) self.new }
    {
        if let Some(holds) = self.relate_field(operator, left, right) {
            return Some(holds);
        }
        self.compare_read(operator, left, right)
    }

    /// As `compare_others`, of values that are read first.
    #[inline(never)]
    fn compare_read(
        &mut self,
        operator: BinaryOperator,
        left: &Operand,
        right: &Operand,
    ) -> Option<bool>
        ensures { Compares (OperateOn operator left.now right.now) self.old (told result self.new) self.new }
    {
        let value = self.operate_on(operator, left, right);
        self.truth_of(value)
    }

    /// Whether two values at hand are so related.
    #[inline(always)]
    fn relate_values(
        &self,
        operator: BinaryOperator,
        left: &Operand,
        right: &Operand,
    ) -> Option<bool>
        ensures { IfSome result (λ holds. Relates operator left.now right.now holds self.now) }
    {
        let BinaryOperator::Infix(infix) = operator else {
            return None;
        };
        relate(infix, self.value_at(left)?, self.value_at(right)?)
    }

    /// Whether a field that stands in the record and a value at hand are so related.
    #[inline(always)]
    fn relate_field(
        &mut self,
        operator: BinaryOperator,
        left: &Operand,
        right: &Operand,
    ) -> Option<bool>
        ensures some { IfSome result (λ holds. Relates operator left.now right.now holds self.old) }
        ensures same { self.new ≡ self.old }
    {
        let BinaryOperator::Infix(infix) = operator else {
            return None;
        };
        let field = self.text_of_field(left)?;
        let value = self.value_at(right)?;
        if let Value::Number(n) = value
            && let Some(m) = numeric_of(&field)
        {
            return relate_numbers(infix, m, *n);
        }
        relate(infix, &field, value)
    }

    /// The move to the place that what an operator makes of the topmost value, which is taken off, and an operand leads to.
    #[inline(always)]
    pub(crate) fn compare_with(
        &mut self,
        operator: BinaryOperator,
        right: &Operand,
        here: u32,
        other: u32,
    ) -> Move
        ensures { Decides (OperateWith operator right.now) here other self.old result self.new }
    {
        if let Some(holds) = self.relate_number_with(operator, right) {
            self.operands.pop();
            return Move::On(chosen(holds, here, other));
        }
        toward(self.compare_value_with(operator, right), here, other)
    }

    /// Whether the topmost number and a number at hand are so related.
    #[inline(always)]
    fn relate_number_with(&self, operator: BinaryOperator, right: &Operand) -> Option<bool>
        ensures { IfSome result (λ holds. RelatesWith operator right.now holds self.now) }
    {
        let BinaryOperator::Infix(infix) = operator else {
            return None;
        };
        let m = self.operands.number()?;
        let n = self.number_at(right)?;
        relate_numbers(infix, m, n)
    }

    /// Whether what an operator makes of the topmost value of any kind, which is taken off, and an operand is true.
    #[inline(never)]
    fn compare_value_with(&mut self, operator: BinaryOperator, right: &Operand) -> Option<bool>
        ensures { Compares (OperateWith operator right.now) self.old (told result self.new) self.new }
    {
        if let Some(holds) = self.relate_value_with(operator, right) {
            self.operands.drop(1);
            return Some(holds);
        }
        let value = self.operate_with(operator, right);
        self.truth_of(value)
    }

    /// Whether the topmost value and a value at hand are so related.
    #[inline(always)]
    fn relate_value_with(&self, operator: BinaryOperator, right: &Operand) -> Option<bool>
        ensures { IfSome result (λ holds. RelatesWith operator right.now holds self.now) }
    {
        let BinaryOperator::Infix(infix) = operator else {
            return None;
        };
        relate(infix, self.operands.top()?, self.value_at(right)?)
    }

    /// Whether an operand has a match of an ERE of the program.
    #[inline(never)]
    pub(crate) fn match_operand(&mut self, operand: &Operand, ere: u32) -> Option<bool>
        ensures { Compares (Matches operand.now ere) self.old (told result self.new) self.new }
    {
        if let Operand::Field(0) = operand {
            return self.match_record(ere);
        }
        self.match_other(operand, ere)
    }

    /// As `match_operand`, of an operand that isn't the record.
    #[inline(never)]
    fn match_other(&mut self, operand: &Operand, ere: u32) -> Option<bool>
        ensures { Compares (Matches operand.now ere) self.old (told result self.new) self.new }
    {
        if let Some(holds) = self.match_field(operand, ere) {
            return Some(holds);
        }
        let value = self.matches(operand, ere);
        self.truth_of(value)
    }

    /// Whether the record has a match of an ERE of the program.
    #[inline(always)]
    fn match_record(&mut self, ere: u32) -> Option<bool>
        ensures { Compares (Matches (Operand.Field 0) ere) self.old (told result self.new) self.new }
    {
        match self.runtime.record_has_match(ere) {
            Ok(holds) => Some(holds),
            Err(halt) => {
                self.halt = halt;
                None
            }
        }
    }

    /// Whether a field that stands in the record has a match of an ERE of the program that was read before.
    #[inline(always)]
    fn match_field(&mut self, operand: &Operand, ere: u32) -> Option<bool>
        ensures some { IfSome result (λ holds. Compares (Matches operand.now ere) self.old (Ok holds) self.new) }
        ensures none { IfNone result (StaysAlike self.old self.new) }
    {
        let span = self.span_of(operand)?;
        stretch_has_match(&mut self.runtime, span, ere)
    }

    /// Counts the fields where an operand is the last of them.
    #[inline(always)]
    fn count_for(&mut self, operand: &Operand)
        ensures same { self.new ≡ self.old }
    {
        if let Operand::FieldAt(Variable::FieldCount) = operand {
            let _count = self.runtime.number_in(Variable::FieldCount);
        }
    }

    /// The text of a field that stands in the record.
    #[inline(always)]
    fn text_of_field(&mut self, operand: &Operand) -> Option<Value>
        ensures some { IfSome result (λ value. IsAtHand operand.now value self.old) }
        ensures same { self.new ≡ self.old }
    {
        self.count_for(operand);
        let span = self.span_of(operand)?;
        let record = self.runtime.current.text_at_hand()?;
        let mut field = Bytes::empty();
        if !record.cut_to(span.start, span.end, &mut field) {
            return None;
        }
        Some(Value::Input(field))
    }

    /// The number of a field that stands in the record.
    #[inline(always)]
    pub(crate) fn number_at_field(&mut self, operand: &Operand) -> Option<i128>
        ensures some { IfSome result (λ n. HasNumber operand.now n self.old) }
        ensures same { self.new ≡ self.old }
    {
        let field = self.text_of_field(operand)?;
        match number_of(&field) {
            Ok(n) => Some(n),
            Err(_) => None,
        }
    }
}
