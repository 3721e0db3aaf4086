// The moves that append operands to the text of a target: what is at hand is appended where it stands.

ghost use Rattle.std.specs.Prelude.{◌≡◌, [], Ok, Err, IfErr, true, false};
ghost use Rattle.awk_semantics.specs.State.{Run};
ghost use Rattle.awk_value.specs.declared.value.Value.{Value as AnyValue};
ghost use Rattle.awk_runtime.specs.Simulation.{Changes};
ghost use Rattle.awk_evaluator.specs.Moves.{Done, Keeps, came};
ghost use Rattle.awk_evaluator.specs.Appending.{SpendsAndAppends, AppendsOperands, AppendsAt, AppendsBehind, AppendsBytes, Joins};

use crate::machine::Machine;
use crate::words::Append;
use awk_resolve::node::{Key, Operand, Target};
use awk_semantics::Halt;
use awk_storage::{Array, Place};
use awk_value::Value;

impl Machine {
    /// Spends a step, and gives a target its text with those of operands behind it.
    #[inline(never)]
    pub(crate) fn append_operands(&mut self, target: &Target, parts: &[Operand]) -> bool
        ensures { Done (λ r. SpendsAndAppends target.now parts.now self.old r self.new) (came result self.new) }
    {
        if !self.spend() {
            return false;
        }
        match self.append_at_hand(target, parts) {
            Ok(true) => true,
            Ok(false) => self.append_any_operands(target, parts),
            Err(halt) => {
                self.halt = halt;
                false
            }
        }
    }

    /// Appends operands that are at hand to the text of a target, where it stands: whether all is at hand, and else nothing changes.
    #[inline(always)]
    fn append_at_hand(&mut self, target: &Target, parts: &[Operand]) -> Result<bool, Halt>
        ensures appended { result ≡ Ok true → Done (λ r. AppendsOperands target.now parts.now self.old r self.new) (Ok tt) }
        ensures kept { result ≡ Ok false → Keeps self.old self.new }
        ensures refused { IfErr result (λ halt. AppendsOperands target.now parts.now self.old (Err halt) self.new) }
    {
        let mut text = self.lend_text();
        let appended = self.append_joined(&mut text, target, parts);
        self.take_text_back(text);
        appended
    }

    /// As `append_at_hand`, by an empty text in which they are joined.
    #[inline(always)]
    fn append_joined(
        &mut self,
        text: &mut Vec<u8>,
        target: &Target,
        parts: &[Operand],
    ) -> Result<bool, Halt>
        requires { text.old.items ≡ [] }
        ensures appended { result ≡ Ok true → Done (λ r. AppendsOperands target.now parts.now self.old r self.new) (Ok tt) }
        ensures kept { result ≡ Ok false → self.new ≡ self.old }
        ensures refused { IfErr result (λ halt. AppendsOperands target.now parts.now self.old (Err halt) self.new) }
    {
        if !self.join_at_hand(text, parts) {
            return Ok(false);
        }
        match target {
            Target::Variable(variable) => self.runtime.append_bytes_to(variable, text),
            Target::Element(array, key) => self.append_in(*array, key, text),
        }
    }

    /// Appends the texts of operands that are at hand, one behind the other: whether all are.
    #[inline(always)]
    pub(crate) fn join_at_hand(&mut self, text: &mut Vec<u8>, parts: &[Operand]) -> bool
        ensures joined { result ≡ true → Joins parts.now self.old text.old.items text.new.items }
        ensures same { self.new ≡ self.old }
    {
        for part in parts {
            if !self.join_operand(text, part) {
                return false;
            }
        }
        true
    }

    /// Appends bytes to the text of the element at a key, where both are at hand: whether they are, and else nothing changes.
    #[inline(always)]
    fn append_in(&mut self, array: Array, key: &Key, text: &[u8]) -> Result<bool, Halt>
        ensures appended { result ≡ Ok true → AppendsBytes array key.now text.now self.old self.new }
        ensures kept { result ≡ Ok false → self.new ≡ self.old }
        ensures refused { IfErr result (λ halt. (run : Run AnyValue) → Changes run self.old.runtime self.new.runtime (Err halt)) }
    {
        match self.at_key(key, Append { array, text }) {
            Some(appended) => appended,
            None => Ok(false),
        }
    }

    /// Gives a target its text with those of operands of any kind behind it.
    #[inline(never)]
    fn append_any_operands(&mut self, target: &Target, parts: &[Operand]) -> bool
        ensures { Done (λ r. AppendsOperands target.now parts.now self.old r self.new) (came result self.new) }
    {
        let appended = self.append_read(target, parts);
        self.is_done(appended)
    }

    /// As `append_any_operands`; gives what the target then holds.
    fn append_read(&mut self, target: &Target, parts: &[Operand]) -> Result<Value, Halt>
        ensures { AppendsOperands target.now parts.now self.old result self.new }
    {
        match target {
            Target::Variable(variable) => {
                self.append_at(Place::Variable(*variable), &Value::Nothing, parts)
            }
            Target::Element(array, key) => {
                let key = self.read_key(key)?;
                self.append_at(Place::Element(*array), &key, parts)
            }
        }
    }

    /// As `append_read`, of a place with its operand.
    fn append_at(&mut self, place: Place, operand: &Value, parts: &[Operand]) -> Result<Value, Halt>
        ensures { AppendsAt place operand.now parts.now self.old result self.new }
    {
        let old = self.runtime.read_at(place, operand)?;
        let behind = self.read_joined(parts)?;
        self.assign_appended(place, operand, old, &behind)
    }

    /// Gives a place the text that it held, with that of a value behind it.
    fn assign_appended(
        &mut self,
        place: Place,
        operand: &Value,
        old: Value,
        behind: &Value,
    ) -> Result<Value, Halt>
        ensures { AppendsBehind place operand.now old behind.now self.old result self.new }
    {
        if let Place::Variable(variable) = place {
            return self.runtime.append_to(variable, old, behind);
        }
        let text = self.runtime.concatenate(old, behind)?;
        self.runtime.assign_by_at(None, place, operand, text)
    }
}
