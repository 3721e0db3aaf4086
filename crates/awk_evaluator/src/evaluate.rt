// The value of a node that calls no function of the program.

ghost use Rattle.std.specs.Prelude.{◌≡◌, true, false, Ok, Err, IfErr};
ghost use Rattle.awk_lex.specs.declared.token.Operator.TheVariants.{Matches};
ghost use Rattle.awk_grammar.specs.declared.tree.BinaryOperator.TheVariants.{Infix};
ghost use Rattle.awk_runtime.specs.Simulation.{IsReady};
ghost use Rattle.awk_resolve.specs.declared.node.Node.TheVariants.{Value as ValueAt};
ghost use Rattle.awk_resolve.specs.declared.node.ValueNode.TheVariants.{Operate, SubstituteIn, Call};
ghost use Rattle.awk_resolve.specs.Nodes.{CallsFit};
ghost use Rattle.awk_resolve.specs.Plans.{array_parameters};
ghost use Rattle.awk_evaluator.specs.Rest.{IsSound, AtNode};
ghost use Rattle.awk_evaluator.specs.Moves.{IsStrict, Computes, Evaluates, Moves, PutsFound};
ghost use Rattle.awk_evaluator.specs.Quick.{Puts};

use crate::machine::{Machine, Move};
use crate::moves::function_of;
use awk_grammar::tree::BinaryOperator;
use awk_lex::token::Operator;
use awk_resolve::Plan;
use awk_resolve::node::{ArgumentForm, Exchange, ValueNode};
use awk_semantics::Halt;
use awk_storage::Place;
use awk_streams::World;
use awk_value::Value;

impl Machine {
    /// Puts the value of a node on the stack, and goes on; or begins a call.
    #[inline(always)]
    pub(crate) fn put_value<W: World>(
        &mut self,
        world: &mut W,
        plan: &Plan,
        node: &ValueNode,
        next: u32,
    ) -> Move
        requires sound { IsSound plan.now }
        requires calls { CallsFit (array_parameters plan.now.functions.items) (ValueAt node.now next) }
        requires ready { IsReady W.is_logged (W.state world.old) self.old.runtime.streams }
        ensures ready { IsReady W.is_logged (W.state world.new) self.new.runtime.streams }
        ensures moves { Moves W.is_logged plan.now (AtNode (ValueAt node.now next)) self.old (W.state world.old) result self.new (W.state world.new) }
    {
        if let ValueNode::Call(function, forms) = node {
            return self.put_call(world, plan, *function, forms, next);
        }
        if self.put_quickly(node) {
            return Move::On(next);
        }
        if let ValueNode::Operate(BinaryOperator::Infix(Operator::Matches)) = node {
            return self.put_match(world, plan, node, next);
        }
        if let ValueNode::SubstituteIn(exchange) = node {
            return self.put_substituted(world, plan, exchange, next);
        }
        self.put_any_value(world, plan, node, next)
    }

    /// As `put_value`, of matches that are exchanged by operands that are read where they stand.
    #[inline(never)]
    fn put_substituted<W: World>(
        &mut self,
        world: &mut W,
        plan: &Plan,
        exchange: &Exchange,
        next: u32,
    ) -> Move
        requires ready { IsReady W.is_logged (W.state world.old) self.old.runtime.streams }
        ensures ready { IsReady W.is_logged (W.state world.new) self.new.runtime.streams }
        ensures moves { Moves W.is_logged plan.now (AtNode (ValueAt (SubstituteIn exchange.now) next)) self.old (W.state world.old) result self.new (W.state world.new) }
    {
        match self.substitute_in(exchange) {
            Ok(count) => self.put_found(count, next),
            Err(halt) => self.halt_by(halt),
        }
    }

    /// As `put_value`, of whether an operand matches a pattern.
    #[inline(never)]
    fn put_match<W: World>(
        &mut self,
        world: &mut W,
        plan: &Plan,
        node: &ValueNode,
        next: u32,
    ) -> Move
        requires is_match { node.now ≡ Operate (Infix Matches) }
        requires sound { IsSound plan.now }
        requires calls { CallsFit (array_parameters plan.now.functions.items) (ValueAt node.now next) }
        requires ready { IsReady W.is_logged (W.state world.old) self.old.runtime.streams }
        ensures ready { IsReady W.is_logged (W.state world.new) self.new.runtime.streams }
        ensures moves { Moves W.is_logged plan.now (AtNode (ValueAt node.now next)) self.old (W.state world.old) result self.new (W.state world.new) }
    {
        match self.match_operands() {
            Ok(true) => Move::On(next),
            Ok(false) => self.put_any_value(world, plan, node, next),
            Err(halt) => self.halt_by(halt),
        }
    }

    /// Begins a call, and goes on in the body of its function.
    #[inline(always)]
    fn put_call<W: World>(
        &mut self,
        world: &mut W,
        plan: &Plan,
        function: u32,
        forms: &Vec<ArgumentForm>,
        next: u32,
    ) -> Move
        requires sound { IsSound plan.now }
        requires calls { CallsFit (array_parameters plan.now.functions.items) (ValueAt (Call function forms.now) next) }
        requires ready { IsReady W.is_logged (W.state world.old) self.old.runtime.streams }
        ensures ready { IsReady W.is_logged (W.state world.new) self.new.runtime.streams }
        ensures moves { Moves W.is_logged plan.now (AtNode (ValueAt (Call function forms.now) next)) self.old (W.state world.old) result self.new (W.state world.new) }
    {
        match self.call(function_of(plan, function), forms.as_slice(), next) {
            Ok(body) => Move::Up(body),
            Err(halt) => self.halt_by(halt),
        }
    }

    /// As `put_value`, of a value that isn't at hand.
    #[inline(never)]
    fn put_any_value<W: World>(
        &mut self,
        world: &mut W,
        plan: &Plan,
        node: &ValueNode,
        next: u32,
    ) -> Move
        requires sound { IsSound plan.now }
        requires strict { IsStrict node.now }
        requires ready { IsReady W.is_logged (W.state world.old) self.old.runtime.streams }
        ensures ready { IsReady W.is_logged (W.state world.new) self.new.runtime.streams }
        ensures moves { Moves W.is_logged plan.now (AtNode (ValueAt node.now next)) self.old (W.state world.old) result self.new (W.state world.new) }
    {
        match self.put_by_reading(node) {
            Ok(true) => Move::On(next),
            Ok(false) => self.put_evaluated(world, plan, node, next),
            Err(halt) => self.halt_by(halt),
        }
    }

    /// Puts what is made of operands that are read where they stand in their place. `false`, and nothing changes, where that isn't
    /// done so.
    #[inline(always)]
    fn put_by_reading(&mut self, node: &ValueNode) -> Result<bool, Halt>
        ensures puts { result ≡ Ok true → Puts node.now self.old self.new }
        ensures kept { result ≡ Ok false → self.new ≡ self.old }
        ensures ended { IfErr result (λ halt. Computes node.now self.old (Err halt) self.new) }
    {
        match node {
            ValueNode::Load(Place::Variable(variable)) => Ok(self.put_loaded(variable)),
            ValueNode::Substitute(all, Some(ere), Some(Place::Variable(variable))) => {
                self.substitute_operands(*all, *ere, *variable)
            }
            _ => Ok(false),
        }
    }

    /// As `put_any_value`, of any value.
    #[inline(always)]
    fn put_evaluated<W: World>(
        &mut self,
        world: &mut W,
        plan: &Plan,
        node: &ValueNode,
        next: u32,
    ) -> Move
        requires sound { IsSound plan.now }
        requires strict { IsStrict node.now }
        requires ready { IsReady W.is_logged (W.state world.old) self.old.runtime.streams }
        ensures ready { IsReady W.is_logged (W.state world.new) self.new.runtime.streams }
        ensures moves { Moves W.is_logged plan.now (AtNode (ValueAt node.now next)) self.old (W.state world.old) result self.new (W.state world.new) }
    {
        match self.evaluate(world, node) {
            Ok(value) => self.put_found(value, next),
            Err(halt) => self.halt_by(halt),
        }
    }

    /// Puts a value that was found on the stack, and goes on.
    fn put_found(&mut self, value: Value, next: u32) -> Move
        ensures { PutsFound value next self.old result self.new }
    {
        match self.operands.push(value) {
            Ok(()) => Move::On(next),
            Err(refused) => self.halt_by(Halt::from(refused)),
        }
    }

    /// The value of a node, whose operands are taken off the stack.
    #[inline(always)]
    pub(crate) fn evaluate<W: World>(
        &mut self,
        world: &mut W,
        node: &ValueNode,
    ) -> Result<Value, Halt>
        requires strict { IsStrict node.now }
        requires ready { IsReady W.is_logged (W.state world.old) self.old.runtime.streams }
        ensures ready { IsReady W.is_logged (W.state world.new) self.new.runtime.streams }
        ensures evaluates { Evaluates W.is_logged node.now self.old (W.state world.old) result self.new (W.state world.new) }
    {
        match node {
            ValueNode::Put(operand) => self.operand(operand),
            ValueNode::Operate(operator) => self.operate(*operator),
            ValueNode::OperateWith(operator, right) => self.operate_with(*operator, right),
            ValueNode::OperateOn(operator, left, right) => self.operate_on(*operator, left, right),
            ValueNode::Change(operator) => self.change(*operator),
            ValueNode::ReadField => self.field(),
            ValueNode::ConcatenateAll(count) => self.concatenate_all(*count),
            ValueNode::ReadElement(array, key) => self.element(*array, key),
            ValueNode::Assign(operator, place) => self.assign(*operator, *place),
            ValueNode::Append(variable) => self.append(*variable),
            ValueNode::PreIncrement(operator, place) => self.pre_increment(*operator, *place),
            ValueNode::PostIncrement(operator, place) => self.post_increment(*operator, *place),
            ValueNode::PostIncrementAt(operator, target) => {
                self.post_increment_at(*operator, target)
            }
            ValueNode::Matches(operand, ere) => self.matches(operand, *ere),
            ValueNode::MatchesEre(operator, ere) => self.matches_ere(*operator, *ere),
            ValueNode::Contains(array, key) => self.contains(*array, key),
            ValueNode::Key(count) => self.key(*count),
            ValueNode::FieldNumber => self.field_number(),
            ValueNode::Load(place) => self.load(*place),
            ValueNode::RecordLength => self.record_length(),
            ValueNode::CountElements(array) => self.count_elements(*array),
            ValueNode::Apply(function, count) => self.apply_function(*function, *count),
            ValueNode::ApplyTo(function, operands, count) => {
                self.apply_to(*function, operands, *count)
            }
            ValueNode::Match(ere) => self.match_in(*ere),
            ValueNode::Split(array, by) => self.split(*array, *by),
            ValueNode::Substitute(all, ere, place) => self.substitute(*all, *ere, *place),
            ValueNode::Getline(source, place) => self.getline(world, *source, *place),
            ValueNode::Outside(call) => self.call_outside(world, *call),
            ValueNode::SubstituteIn(_) => unreachable!(),
            ValueNode::Call(_, _) => unreachable!(),
        }
    }
}
