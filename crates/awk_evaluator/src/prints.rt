// A print of operands that are read where they stand: no value is made of them.

ghost use Rattle.std.specs.Prelude.{◌≡◌, ◌++◌, [], Ok, true, false};
ghost use Rattle.awk_runtime.specs.Simulation.{IsReady};
ghost use Rattle.awk_runtime.specs.Lines.{AppendsText};
ghost use Rattle.awk_resolve.specs.Nodes.{operand_value};
ghost use Rattle.awk_evaluator.specs.Reading.{PrintsOperands};
ghost use Rattle.awk_evaluator.specs.Lines.{AppendsTexts, AppendsBehind, SameMachine};

use crate::machine::Machine;
use awk_resolve::node::Operand;
use awk_runtime::append_value;
use awk_streams::World;

impl Machine {
    /// Prints operands as a line to standard output, where all are at hand and the line can be held back: nothing is asked of the
    /// world then. `false`, and nothing changes but the room of a line, elsewhere.
    #[inline(always)]
    pub(crate) fn hold_at_hand<W: World>(&mut self, world: &W, operands: &[Operand]) -> bool
        requires ready { IsReady W.is_logged (W.state world.now) self.old.runtime.streams }
        ensures ready { IsReady W.is_logged (W.state world.now) self.new.runtime.streams }
        ensures kept { result ≡ false → SameMachine self.old self.new }
        ensures prints { result ≡ true → PrintsOperands W.is_logged operands.now self.old (W.state world.now) (Ok tt) self.new (W.state world.now) }
    {
        let [operand] = operands else {
            return self.hold_operands(world, operands);
        };
        if self.hold_field(world, operand) {
            return true;
        }
        self.hold_operands(world, operands)
    }

    /// As `hold_at_hand`, of operands of any kind, whose texts are joined in the memory of a line.
    #[inline]
    fn hold_operands<W: World>(&mut self, world: &W, operands: &[Operand]) -> bool
        requires ready { IsReady W.is_logged (W.state world.now) self.old.runtime.streams }
        ensures ready { IsReady W.is_logged (W.state world.now) self.new.runtime.streams }
        ensures kept { result ≡ false → SameMachine self.old self.new }
        ensures prints { result ≡ true → PrintsOperands W.is_logged operands.now self.old (W.state world.now) (Ok tt) self.new (W.state world.now) }
    {
        let mut line = self.runtime.lend_line();
        let holds = self.hold_line(world, operands, &mut line);
        self.runtime.take_line_back(line);
        holds
    }

    /// As `hold_operands`, in this memory, where nothing changes where the line isn't held back.
    #[inline(always)]
    fn hold_line<W: World>(&mut self, world: &W, operands: &[Operand], line: &mut Vec<u8>) -> bool
        requires empty { line.old.items ≡ [] }
        requires ready { IsReady W.is_logged (W.state world.now) self.old.runtime.streams }
        ensures ready { IsReady W.is_logged (W.state world.now) self.new.runtime.streams }
        ensures kept { result ≡ false → self.new ≡ self.old }
        ensures prints { result ≡ true → PrintsOperands W.is_logged operands.now self.old (W.state world.now) (Ok tt) self.new (W.state world.now) }
    {
        if !self.join_operands(line, operands) {
            return false;
        }
        self.runtime.hold_joined(world, line.as_slice())
    }

    /// Appends the texts of operands to a line, with that of OFS between them. `false` where one isn't at hand, there is none, or
    /// memory is refused.
    #[inline(always)]
    fn join_operands(&mut self, line: &mut Vec<u8>, operands: &[Operand]) -> bool
        ensures appends { result ≡ true → AppendsTexts operands.now self.old.runtime line.old.items line.new.items }
        ensures same { self.new ≡ self.old }
    {
        let [first, others @ ..] = operands else {
            return false;
        };
        if !self.join_operand(line, first) {
            return false;
        }
        self.join_others(line, others)
    }

    /// As `join_operands`, with that of OFS before each.
    #[inline(always)]
    fn join_others(&mut self, line: &mut Vec<u8>, operands: &[Operand]) -> bool
        ensures appends { result ≡ true → AppendsBehind operands.now self.old.runtime line.old.items line.new.items }
        ensures same { self.new ≡ self.old }
    {
        for operand in operands {
            if !self.runtime.join_separator(line) {
                return false;
            }
            if !self.join_operand(line, operand) {
                return false;
            }
        }
        true
    }

    /// Appends the text of an operand to a line. `false` where it isn't at hand, or memory is refused.
    #[inline(always)]
    pub(crate) fn join_operand(&mut self, line: &mut Vec<u8>, operand: &Operand) -> bool
        ensures appends { result ≡ true → AppendsText (operand_value self.old.runtime.names.scalars operand.now) self.old.runtime line.old.items line.new.items }
        ensures same { self.new ≡ self.old }
    {
        if let Some(number) = self.field_number_of(operand) {
            return self.runtime.join_field(line, number);
        }
        if let Some(value) = self.value_at(operand) {
            return append_value(line, value);
        }
        match operand {
            Operand::Variable(variable) => self.runtime.join_variable(line, *variable),
            Operand::Constant(_) | Operand::Field(_) | Operand::FieldAt(_) => false,
        }
    }
}
