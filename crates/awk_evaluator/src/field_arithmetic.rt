// What an operator makes of the numbers of fields, put on the stack. Where that can't be put there so, nothing changes.

ghost use Rattle.std.specs.Prelude.{◌≡◌, Ok, IfSome, true, false};
ghost use Rattle.awk_value.specs.declared.value.Value.TheVariants.{Number};
ghost use Rattle.awk_grammar.specs.declared.tree.BinaryOperator.TheVariants.{Infix};
ghost use Rattle.awk_semantics.specs.Operators.{applied};
ghost use Rattle.awk_resolve.specs.declared.node.ValueNode.TheVariants.{OperateOn};
ghost use Rattle.awk_functions.specs.Numbers.{IsOfNumbers};
ghost use Rattle.awk_evaluator.specs.Applied.{HasNumber};
ghost use Rattle.awk_evaluator.specs.Quick.{Puts};

use crate::machine::Machine;
use awk_functions::compute_in_short;
use awk_lex::token::Operator;
use awk_resolve::node::Operand;

/// What an operator of arithmetic makes of two numbers, where that is found in a few steps.
#[inline(never)]
fn compute(operator: Operator, m: i128, n: i128) -> Option<i128>
    ensures some { IfSome result (λ z. applied operator (Number m) (Number n) ≡ Ok (Number z)) }
    ensures of_numbers { IfSome result (λ z. IsOfNumbers operator) }
{
    compute_in_short(operator, m, n)
}

impl Machine {
    /// Puts what an operator makes of two operands, of which one is a field, on the stack.
    #[inline(never)]
    pub(crate) fn put_operated_on_fields(
        &mut self,
        operator: Operator,
        left: &Operand,
        right: &Operand,
    ) -> bool
        ensures puts { result ≡ true → Puts (OperateOn (Infix operator) left.now right.now) self.old self.new }
        ensures kept { result ≡ false → self.new ≡ self.old }
    {
        let Some(m) = self.number_read(left) else {
            return false;
        };
        let Some(n) = self.number_read(right) else {
            return false;
        };
        let Some(z) = compute(operator, m, n) else {
            return false;
        };
        self.put(z)
    }

    /// The number of an operand that is a number, or a field that stands in the record.
    #[inline(always)]
    fn number_read(&mut self, operand: &Operand) -> Option<i128>
        ensures some { IfSome result (λ n. HasNumber operand.now n self.old) }
        ensures same { self.new ≡ self.old }
    {
        match self.number_at(operand) {
            Some(n) => Some(n),
            None => self.number_at_field(operand),
        }
    }
}
