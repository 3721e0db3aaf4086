// What nodes do that give no value: what a node takes is taken off the operands.

ghost use Rattle.std.specs.Prelude.{◌≡◌, None as NoneOf, Some as SomeOf, Ok, true, false, [], ◌∷◌};
ghost use Rattle.awk_runtime.specs.Simulation.{IsReady};
ghost use Rattle.awk_resolve.specs.declared.node.EffectNode.TheVariants.{Delete, Print, SetInside, SetStatus};
ghost use Rattle.awk_evaluator.specs.Moves.{Acts, Performs, came};
ghost use Rattle.awk_evaluator.specs.Reading.{PutsOperands, PrintsOperands, SpendsAndPrints};

use crate::machine::Machine;
use awk_grammar::tree::{PrintForm, Redirection};
use awk_resolve::node::{EffectNode, Operand};
use awk_semantics::Halt;
use awk_storage::Array;
use awk_streams::World;
use awk_value::Value;

impl Machine {
    /// Does what a node does.
    #[inline(always)]
    pub(crate) fn perform<W: World>(&mut self, world: &mut W, node: &EffectNode) -> bool
        requires ready { IsReady W.is_logged (W.state world.old) self.old.runtime.streams }
        ensures ready { IsReady W.is_logged (W.state world.new) self.new.runtime.streams }
        ensures performs { Performs W.is_logged node.now self.old (W.state world.old) (came result self.new) self.new (W.state world.new) }
    {
        match node {
            EffectNode::Exchange(exchange) => self.make_exchange(exchange),
            EffectNode::Drop(1) => {
                self.operands.pop();
                true
            }
            EffectNode::Print(PrintForm::Print, 0, None) => self.print_record(world, node),
            EffectNode::Print(PrintForm::Print, count, None) => {
                self.print_values(world, node, *count)
            }
            EffectNode::SetInside(number, is_inside) => {
                self.set_inside(world, node, *number, *is_inside)
            }
            _ => self.perform_other(world, node),
        }
    }

    // Prints the record to standard output.
    #[inline(always)]
    fn print_record<W: World>(&mut self, world: &mut W, node: &EffectNode) -> bool
        requires print { node.now ≡ Print PrintForm.Print 0 NoneOf }
        requires ready { IsReady W.is_logged (W.state world.old) self.old.runtime.streams }
        ensures ready { IsReady W.is_logged (W.state world.new) self.new.runtime.streams }
        ensures performs { Performs W.is_logged node.now self.old (W.state world.old) (came result self.new) self.new (W.state world.new) }
    {
        if self.runtime.hold_record(world) {
            return true;
        }
        self.perform_other(world, node)
    }

    // Prints so many operands as a line to standard output.
    #[inline(never)]
    fn print_values<W: World>(&mut self, world: &mut W, node: &EffectNode, count: u32) -> bool
        requires print { node.now ≡ Print PrintForm.Print count NoneOf }
        requires ready { IsReady W.is_logged (W.state world.old) self.old.runtime.streams }
        ensures ready { IsReady W.is_logged (W.state world.new) self.new.runtime.streams }
        ensures performs { Performs W.is_logged node.now self.old (W.state world.old) (came result self.new) self.new (W.state world.new) }
    {
        let values = self.operands.newest(count as usize);
        if !self.runtime.hold_values(world, values) {
            return self.perform_other(world, node);
        }
        self.operands.drop(count as usize);
        true
    }

    // Notes whether a range is inside.
    #[inline(always)]
    fn set_inside<W: World>(
        &mut self,
        world: &mut W,
        node: &EffectNode,
        number: u32,
        is_inside: bool,
    ) -> bool
        requires range { node.now ≡ SetInside number is_inside }
        requires ready { IsReady W.is_logged (W.state world.old) self.old.runtime.streams }
        ensures ready { IsReady W.is_logged (W.state world.new) self.new.runtime.streams }
        ensures performs { Performs W.is_logged node.now self.old (W.state world.old) (came result self.new) self.new (W.state world.new) }
    {
        if self.runtime.put_inside(number as usize, is_inside) {
            return true;
        }
        self.perform_other(world, node)
    }

    /// As `perform`, of what isn't done in line.
    #[inline(never)]
    fn perform_other<W: World>(&mut self, world: &mut W, node: &EffectNode) -> bool
        requires ready { IsReady W.is_logged (W.state world.old) self.old.runtime.streams }
        ensures ready { IsReady W.is_logged (W.state world.new) self.new.runtime.streams }
        ensures performs { Performs W.is_logged node.now self.old (W.state world.old) (came result self.new) self.new (W.state world.new) }
    {
        let performed = self.act(world, node);
        self.is_done(performed)
    }

    /// Does what a node does; an `Err` is what it came to.
    fn act<W: World>(&mut self, world: &mut W, node: &EffectNode) -> Result<(), Halt>
        requires ready { IsReady W.is_logged (W.state world.old) self.old.runtime.streams }
        ensures ready { IsReady W.is_logged (W.state world.new) self.new.runtime.streams }
        ensures performs { Performs W.is_logged node.now self.old (W.state world.old) result self.new (W.state world.new) }
    {
        match node {
            EffectNode::Exchange(exchange) => {
                if self.make_exchange(exchange) {
                    Ok(())
                } else {
                    Err(self.halt)
                }
            }
            EffectNode::Drop(count) => {
                self.operands.drop(*count as usize);
                Ok(())
            }
            EffectNode::Delete(array) => self.delete(*array),
            EffectNode::Clear(array) => {
                self.runtime.clear_at(*array);
                Ok(())
            }
            EffectNode::EndInput => {
                self.runtime.close_main_input(world);
                Ok(())
            }
            EffectNode::Print(form, count, None) => self.print(world, *form, *count),
            EffectNode::Print(form, count, Some(way)) => self.print_to(world, *form, *count, *way),
            EffectNode::SetStatus => self.set_status(),
            EffectNode::SetInside(number, is_inside) => {
                self.runtime.set_inside(*number as usize, *is_inside)
            }
        }
    }

    // Removes the element at the key that an operand is.
    fn delete(&mut self, array: Array) -> Result<(), Halt>
        ensures { Acts (Delete array) self.old result self.new }
    {
        let key = self.operands.pop();
        self.runtime.delete_at(array, &key)
    }

    // Sets the exit status to an operand's number.
    fn set_status(&mut self) -> Result<(), Halt>
        ensures { Acts SetStatus self.old result self.new }
    {
        let status = self.operands.pop();
        self.runtime.set_status(&status)
    }

    // Prints so many operands to standard output.
    fn print<W: World>(&mut self, world: &mut W, form: PrintForm, count: u32) -> Result<(), Halt>
        requires ready { IsReady W.is_logged (W.state world.old) self.old.runtime.streams }
        ensures ready { IsReady W.is_logged (W.state world.new) self.new.runtime.streams }
        ensures performs { Performs W.is_logged (Print form count NoneOf) self.old (W.state world.old) result self.new (W.state world.new) }
    {
        let values = self.operands.newest(count as usize);
        self.runtime.print(world, form, values)?;
        self.operands.drop(count as usize);
        Ok(())
    }

    /// Spends a step, and prints operands as a line to standard output.
    #[inline(never)]
    pub(crate) fn print_by_step<W: World>(&mut self, world: &mut W, operands: &[Operand]) -> bool
        requires ready { IsReady W.is_logged (W.state world.old) self.old.runtime.streams }
        ensures ready { IsReady W.is_logged (W.state world.new) self.new.runtime.streams }
        ensures prints { SpendsAndPrints W.is_logged operands.now self.old (W.state world.old) (came result self.new) self.new (W.state world.new) }
    {
        if !self.spend() {
            return false;
        }
        self.print_operands(world, operands)
    }

    /// Prints operands as a line to standard output.
    #[inline(always)]
    fn print_operands<W: World>(&mut self, world: &mut W, operands: &[Operand]) -> bool
        requires ready { IsReady W.is_logged (W.state world.old) self.old.runtime.streams }
        ensures ready { IsReady W.is_logged (W.state world.new) self.new.runtime.streams }
        ensures prints { PrintsOperands W.is_logged operands.now self.old (W.state world.old) (came result self.new) self.new (W.state world.new) }
    {
        if self.hold_at_hand(world, operands) {
            return true;
        }
        let printed = self.print_each(world, operands);
        self.is_done(printed)
    }

    /// As `print_operands`, of one operand, where it is a field that can be held back as it stands; elsewhere nothing changes.
    #[inline(always)]
    pub(crate) fn hold_field<W: World>(&mut self, world: &W, operand: &Operand) -> bool
        requires ready { IsReady W.is_logged (W.state world.now) self.old.runtime.streams }
        ensures ready { IsReady W.is_logged (W.state world.now) self.new.runtime.streams }
        ensures kept { result ≡ false → self.new ≡ self.old }
        ensures prints { result ≡ true → PrintsOperands W.is_logged (operand.now ∷ []) self.old (W.state world.now) (Ok tt) self.new (W.state world.now) }
    {
        let Some(n) = self.field_number_of(operand) else {
            return false;
        };
        self.runtime.hold_field(world, n)
    }

    /// As `print_operands`, of any operands; an `Err` is what it came to.
    #[inline(never)]
    fn print_each<W: World>(&mut self, world: &mut W, operands: &[Operand]) -> Result<(), Halt>
        requires ready { IsReady W.is_logged (W.state world.old) self.old.runtime.streams }
        ensures ready { IsReady W.is_logged (W.state world.new) self.new.runtime.streams }
        ensures prints { PrintsOperands W.is_logged operands.now self.old (W.state world.old) result self.new (W.state world.new) }
    {
        if operands.is_empty() {
            return self
                .runtime
                .print(world, PrintForm::Print, &[Value::Nothing]);
        }
        self.put_operands(operands)?;
        let values = self.operands.newest(operands.len());
        if self.runtime.hold_values(world, values) {
            self.operands.drop(operands.len());
            return Ok(());
        }
        self.runtime.print(world, PrintForm::Print, values)?;
        self.operands.drop(operands.len());
        Ok(())
    }

    /// Puts operands on the stack, in their order.
    pub(crate) fn put_operands(&mut self, operands: &[Operand]) -> Result<(), Halt>
        ensures { PutsOperands operands.now self.old result self.new }
    {
        for operand in operands {
            let value = self.read_operand(operand)?;
            self.operands.push(value)?;
        }
        Ok(())
    }

    // Prints so many operands to the target whose name is the topmost one.
    #[inline(never)]
    fn print_to<W: World>(
        &mut self,
        world: &mut W,
        form: PrintForm,
        count: u32,
        way: Redirection,
    ) -> Result<(), Halt>
        requires ready { IsReady W.is_logged (W.state world.old) self.old.runtime.streams }
        ensures ready { IsReady W.is_logged (W.state world.new) self.new.runtime.streams }
        ensures performs { Performs W.is_logged (Print form count (SomeOf way)) self.old (W.state world.old) result self.new (W.state world.new) }
    {
        let name = self.operands.pop();
        let values = self.operands.newest(count as usize);
        self.runtime.print_to(world, form, values, way, &name)?;
        self.operands.drop(count as usize);
        Ok(())
    }
}
