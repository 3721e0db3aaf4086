// Keys of elements: at those that are at hand something is done where they stand, and all others are read by the general way.

ghost use Rattle.std.specs.Prelude.{◌≡◌, [], true, IfSome, IfNone};
ghost use Rattle.awk_value.specs.declared.value.Value.{Value as AnyValue};
ghost use Rattle.awk_runtime.specs.Keys.{key_value, StandsIn};
ghost use Rattle.awk_evaluator.specs.declared.machine.Machine.{Machine as AnyMachine};
ghost use Rattle.awk_evaluator.specs.Reading.{ReadsKey, ReadsJoined};
ghost use Rattle.awk_evaluator.specs.Quick.{IsAtHand, IsKeyAtHand};
ghost use Rattle.awk_evaluator.specs.Appending.{Joins};
ghost use Rattle.awk_evaluator.specs.Elements.{Acts, IsJoinedAtHand};

use crate::machine::Machine;
use awk_resolve::node::{Key, Operand};
use awk_runtime::ElementKey;
use awk_semantics::Halt;
use awk_value::Value;

/// What is done with the element at a key.
pub(crate) trait AtKey {
    type Answer;

    /// What it makes of a machine, and answers, where this value is the key.
    ghost does: { Self → AnyValue → AnyMachine → Self.Answer → AnyMachine → Type 0 };

    /// Does it with the element at this key.
    fn act(self, machine: &mut Machine, key: ElementKey) -> Self::Answer
        requires { StandsIn machine.old.runtime.current.text key }
        ensures { does self (key_value machine.old.runtime.current.text key.entry) machine.old result machine.new };
}

impl Machine {
    /// Does something with the element at a key that is at hand. `None`, and nothing changes, where it isn't.
    #[inline(always)]
    pub(crate) fn at_key<W: AtKey + Drop>(&mut self, key: &Key, word: W) -> Option<W::Answer>
        ensures some { IfSome result (λ answer. Acts (λ value. IsKeyAtHand key.now value self.old) (W.does word) self.old answer self.new) }
        ensures none { IfNone result (self.new ≡ self.old) }
    {
        match key {
            Key::At(operand) => self.at_operand(operand, word),
            Key::Joined(parts) => self.at_joined(parts, word),
        }
    }

    /// As `at_key`, where the key is an operand.
    #[inline(always)]
    fn at_operand<W: AtKey + Drop>(&mut self, operand: &Operand, word: W) -> Option<W::Answer>
        ensures some { IfSome result (λ answer. Acts (λ value. IsAtHand operand.now value self.old) (W.does word) self.old answer self.new) }
        ensures none { IfNone result (self.new ≡ self.old) }
    {
        if let Some(number) = self.number_at(operand) {
            return Some(word.act(self, ElementKey::Number(number)));
        }
        if let Some(span) = self.span_of(operand) {
            return Some(word.act(self, ElementKey::Stretch(span)));
        }
        let value = self.value_at_hand(operand)?;
        Some(word.act(self, ElementKey::Value(&value)))
    }

    /// The value that an operand is, where it is at hand.
    #[inline(always)]
    pub(crate) fn value_at_hand(&mut self, operand: &Operand) -> Option<Value>
        ensures some { IfSome result (λ value. IsAtHand operand.now value self.old) }
        ensures same { self.new ≡ self.old }
    {
        if let Some(value) = self.value_at(operand) {
            return value.clone().ok();
        }
        self.field_of(operand)
    }

    /// As `at_key`, where the key is the texts of operands, one behind the other.
    #[inline(always)]
    fn at_joined<W: AtKey + Drop>(&mut self, parts: &[Operand], word: W) -> Option<W::Answer>
        ensures some { IfSome result (λ answer. Acts (λ value. IsJoinedAtHand parts.now value self.old) (W.does word) self.old answer self.new) }
        ensures none { IfNone result (self.new ≡ self.old) }
    {
        let mut text = self.lend_text();
        let answer = self.at_text(&mut text, parts, word);
        self.take_text_back(text);
        answer
    }

    /// As `at_joined`, by an empty text in which they are joined.
    #[inline(always)]
    fn at_text<W: AtKey + Drop>(
        &mut self,
        text: &mut Vec<u8>,
        parts: &[Operand],
        word: W,
    ) -> Option<W::Answer>
        requires { text.old.items ≡ [] }
        ensures some { IfSome result (λ answer. Acts (λ value. IsJoinedAtHand parts.now value self.old) (W.does word) self.old answer self.new) }
        ensures none { IfNone result (self.new ≡ self.old) }
    {
        if !self.join_parts(text, parts) {
            return None;
        }
        Some(word.act(self, ElementKey::Text(text.as_slice())))
    }

    /// Appends the texts of operands that are at hand, one behind the other: whether all are.
    #[inline(never)]
    fn join_parts(&mut self, text: &mut Vec<u8>, parts: &[Operand]) -> bool
        ensures joined { result ≡ true → Joins parts.now self.old text.old.items text.new.items }
        ensures same { self.new ≡ self.old }
    {
        self.join_at_hand(text, parts)
    }

    /// The value of a key.
    pub(crate) fn read_key(&mut self, key: &Key) -> Result<Value, Halt>
        ensures { ReadsKey key.now self.old result self.new }
    {
        match key {
            Key::At(operand) => self.read_operand(operand),
            Key::Joined(parts) => self.read_joined(parts),
        }
    }

    /// The texts of operands, one behind the other.
    pub(crate) fn read_joined(&mut self, parts: &[Operand]) -> Result<Value, Halt>
        ensures { ReadsJoined parts.now self.old result self.new }
    {
        self.put_operands(parts)?;
        let values = self.operands.newest(parts.len());
        let text = self.runtime.concatenate_all(values)?;
        self.operands.drop(parts.len());
        Ok(text)
    }
}
