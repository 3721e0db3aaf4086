// The values of functions that search in texts.

ghost use Rattle.std.specs.Prelude.{◌≡◌, ◌∷◌, drop, true, false, None as NoneOf, Some as SomeOf, Ok, Err, IfErr};
ghost use Rattle.awk_runtime.specs.Simulation.{Changes};
ghost use Rattle.awk_resolve.specs.Nodes.{Tables, pattern_operands, substitute_by};
ghost use Rattle.awk_resolve.specs.declared.node.ValueNode.TheVariants.{Match, Split, Substitute, SubstituteIn};
ghost use Rattle.awk_resolve.specs.declared.node.EffectNode.TheVariants.{Exchange as ExchangeEffect};
ghost use Rattle.awk_evaluator.specs.Quick.{Puts};
ghost use Rattle.awk_evaluator.specs.Rest.{tables_in};
ghost use Rattle.awk_evaluator.specs.Moves.{Acts, Computes, came};

use crate::machine::Machine;
use crate::values::operand_count;
use awk_resolve::node::{Exchange, SplitBy};
use awk_runtime::PatternSource;
use awk_semantics::Halt;
use awk_storage::{Array, Place, Variable};
use awk_value::Value;

impl Machine {
    /// Where a pattern matches in an operand; sets RSTART and RLENGTH. (POSIX awk, String Functions: match)
    #[inline(always)]
    pub(crate) fn match_in(&mut self, ere: Option<u32>) -> Result<Value, Halt>
        ensures { Computes (Match ere) self.old result self.new }
    {
        match ere {
            Some(ere) => self.match_ere(ere),
            None => self.match_pattern(),
        }
    }

    // As `match_in`, of an ERE of the program. The operand is read where it stands.
    #[inline(never)]
    fn match_ere(&mut self, ere: u32) -> Result<Value, Halt>
        ensures { Computes (Match (SomeOf ere)) self.old result self.new }
    {
        let nothing = Value::Nothing;
        let text = self.operands.top_or(&nothing);
        let position = self.runtime.match_in(text, PatternSource::Ere(ere));
        drop(nothing);
        let position = position?;
        self.operands.pop();
        Ok(position)
    }

    // As `match_in`, of the pattern that the topmost operand spells.
    #[inline(never)]
    fn match_pattern(&mut self) -> Result<Value, Halt>
        ensures { Computes (Match NoneOf) self.old result self.new }
    {
        let (text, pattern) = self.operands.pop_two();
        self.runtime.match_in(&text, PatternSource::Value(&pattern))
    }

    /// Splits an operand into the elements of an array. (POSIX awk, String Functions: split)
    #[inline(never)]
    pub(crate) fn split(&mut self, array: Array, by: SplitBy) -> Result<Value, Halt>
        ensures { Computes (Split array by) self.old result self.new }
    {
        match by {
            SplitBy::FieldSeparator => {
                let text = self.operands.pop();
                self.runtime.split(array, &text, None)
            }
            SplitBy::Value => {
                let (text, separator) = self.operands.pop_two();
                let separator = PatternSource::Value(&separator);
                self.runtime.split(array, &text, Some(separator))
            }
            SplitBy::Ere(ere) => {
                let text = self.operands.pop();
                self.runtime
                    .split(array, &text, Some(PatternSource::Ere(ere)))
            }
        }
    }

    // Exchanges matches in the record.
    fn substitute_in_record(&mut self, all: bool, ere: Option<u32>) -> Result<Value, Halt>
        ensures { Computes (Substitute all ere NoneOf) self.old result self.new }
    {
        match ere {
            Some(ere) => {
                let replacement = self.operands.pop();
                self.runtime
                    .substitute_in_record(all, PatternSource::Ere(ere), &replacement)
            }
            None => {
                let (pattern, replacement) = self.operands.pop_two();
                let pattern = PatternSource::Value(&pattern);
                self.runtime
                    .substitute_in_record(all, pattern, &replacement)
            }
        }
    }

    // Exchanges matches in an old value, and assigns what was made to a place. A pattern that is a value is the topmost operand.
    fn exchange(
        &mut self,
        all: bool,
        ere: Option<u32>,
        place: Place,
        operand: &Value,
        replacement: &Value,
        old: &Value,
    ) -> Result<Value, Halt>
        ensures rest { self.new.operands
            ≡ record self.old.operands { values = drop (pattern_operands ere) self.old.operands.values } }
        ensures changes { (tables : Tables) → Changes (substitute_by (tables_in self.old.runtime.names tables) all ere place
            operand.now old.now (replacement.now ∷ self.old.operands.values)) self.old.runtime self.new.runtime result }
    {
        match ere {
            Some(ere) => {
                let pattern = PatternSource::Ere(ere);
                self.runtime
                    .substitute(all, pattern, replacement, place, operand, old)
            }
            None => {
                let pattern = self.operands.pop();
                let pattern = PatternSource::Value(&pattern);
                self.runtime
                    .substitute(all, pattern, replacement, place, operand, old)
            }
        }
    }

    // Exchanges matches in the old value of a place, which is the topmost operand; the place's own operand lies below it.
    fn substitute_in_place(
        &mut self,
        all: bool,
        ere: Option<u32>,
        place: Place,
    ) -> Result<Value, Halt>
        ensures { Computes (Substitute all ere (SomeOf place)) self.old result self.new }
    {
        let old = self.operands.pop();
        let below = self.operands.pop();
        if operand_count(place) == 0 {
            return self.exchange(all, ere, place, &below, &below, &old);
        }
        let replacement = self.operands.pop();
        self.exchange(all, ere, place, &below, &replacement, &old)
    }

    /// Exchanges matches of an ERE in the value of a variable, which is the topmost operand, and puts how many that were in the place of
    /// both operands. They are read where they stand. `false`, and nothing changes, where there aren't two.
    #[inline(always)]
    pub(crate) fn substitute_operands(
        &mut self,
        all: bool,
        ere: u32,
        variable: Variable,
    ) -> Result<bool, Halt>
        ensures puts { result ≡ Ok true → Puts (Substitute all (SomeOf ere) (SomeOf (Place.Variable variable))) self.old self.new }
        ensures kept { result ≡ Ok false → self.new ≡ self.old }
        ensures ended { IfErr result (λ halt. Computes (Substitute all (SomeOf ere) (SomeOf (Place.Variable variable))) self.old (Err halt) self.new) }
    {
        let [replacement, old] = self.operands.newest(2) else {
            return Ok(false);
        };
        let pattern = PatternSource::Ere(ere);
        let place = Place::Variable(variable);
        let count = self
            .runtime
            .substitute(all, pattern, replacement, place, replacement, old)?;
        drop(self.operands.pop());
        self.operands.replace(count);
        Ok(true)
    }

    /// Exchanges matches of an ERE of the program in a variable or in the record. (POSIX awk, String Functions: sub, gsub)
    #[inline(always)]
    pub(crate) fn substitute_in(&mut self, exchange: &Exchange) -> Result<Value, Halt>
        ensures { Computes (SubstituteIn exchange.now) self.old result self.new }
    {
        let all = exchange.all;
        let replacement = &exchange.replacement;
        match exchange.variable {
            Some(variable) => {
                self.runtime
                    .substitute_in_variable(all, exchange.ere, replacement, variable)
            }
            None => {
                let pattern = PatternSource::Ere(exchange.ere);
                self.runtime.substitute_in_record(all, pattern, replacement)
            }
        }
    }

    /// Spends a step, and exchanges matches of an ERE of the program in a variable or in the record.
    #[inline(never)]
    pub(crate) fn make_exchange(&mut self, exchange: &Exchange) -> bool
        ensures { Acts (ExchangeEffect exchange.now) self.old (came result self.new) self.new }
    {
        if !self.spend() {
            return false;
        }
        let count = self.substitute_in(exchange);
        self.is_done(count)
    }

    /// Exchanges matches in a place or in the record. (POSIX awk, String Functions: sub, gsub)
    #[inline(never)]
    pub(crate) fn substitute(
        &mut self,
        all: bool,
        ere: Option<u32>,
        place: Option<Place>,
    ) -> Result<Value, Halt>
        ensures { Computes (Substitute all ere place) self.old result self.new }
    {
        match place {
            Some(place) => self.substitute_in_place(all, ere, place),
            None => self.substitute_in_record(all, ere),
        }
    }
}
