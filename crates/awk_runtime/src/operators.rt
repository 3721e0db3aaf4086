// Operators over values.

ghost use Rattle.std.specs.Prelude.{Ok, Err, IfOk, IfErr};
ghost use Rattle.awk_runtime.specs.support.Simulation.{Changes};
ghost use Rattle.awk_semantics.specs.State.{lift};
ghost use Rattle.awk_semantics.specs.Operators.{applied, changed, truth_value};

use crate::runtime::Runtime;
use awk_functions::PatternOperand;
use awk_grammar::tree::UnaryOperator;
use awk_lex::token::Operator;
use awk_semantics::Halt;
use awk_value::Value;

impl Runtime {
    /// What an operator makes of two values: a number, or 1 or 0. The text right of `~` and `!~` is read as a pattern. The faults
    /// are F1, F3, F4, F5 and F6. (POSIX awk, Expressions in awk)
    #[inline(always)]
    pub fn apply(&mut self, operator: Operator, left: &Value, right: &Value) -> Result<Value, Halt>
        ensures { Changes (lift (applied operator left.now right.now)) self.old self.new result }
    {
        awk_functions::apply(operator, left, right, &mut self.patterns)
    }

    /// Whether `~` gives 1 of two values: whether the text of the one has a match of the pattern that the text of the other spells. The
    /// faults are F1 and F6. (POSIX awk, Expressions in awk; Regular Expressions)
    #[inline(always)]
    pub fn matches(&mut self, text: &Value, pattern: &Value) -> Result<bool, Halt>
        ensures holds { IfOk result (λ holds. Changes (lift (applied Operator.Matches text.now pattern.now)) self.old self.new (Ok (truth_value holds))) }
        ensures refused { IfErr result (λ halt. Changes (lift (applied Operator.Matches text.now pattern.now)) self.old self.new (Err halt)) }
    {
        self.patterns.matches(text, PatternOperand::Value(pattern))
    }

    /// What an operator makes of a value. The fault is F3. (POSIX awk, Expressions in awk)
    #[inline(always)]
    pub fn change(&mut self, operator: UnaryOperator, value: &Value) -> Result<Value, Halt>
        ensures { Changes (lift (changed operator value.now)) self.old self.new result }
    {
        awk_functions::change(operator, value)
    }
}
