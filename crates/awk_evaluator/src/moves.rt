// The moves: one for each node.

ghost use Rattle.std.specs.Prelude.{◌≡◌, ◌<◌, if◌then◌else◌, Some, slice_get, get_or, length};
ghost use Rattle.std.specs.Option.{option_map};
ghost use Rattle.awk_runtime.specs.Simulation.{IsReady};
ghost use Rattle.awk_value.specs.declared.value.Value.TheVariants.{Nothing};
ghost use Rattle.awk_resolve.specs.Nodes.{CallsFit, first, halt_by};
ghost use Rattle.awk_resolve.specs.Plans.{array_parameters};
ghost use Rattle.awk_evaluator.specs.Rest.{IsSound, AtNode};
ghost use Rattle.awk_evaluator.specs.Moves.{IsRare, Moves, GivesBack, onward, upward, toward};

use crate::machine::{Machine, Move};
use awk_resolve::node::{Ending, Node};
use awk_resolve::{Function, Plan};
use awk_semantics::Halt;
use awk_streams::World;

/// The node at a place, if there is one.
#[inline(always)]
pub(crate) fn node_at(plan: &Plan, at: u32) -> Option<&Node>
    ensures { option_map (λ node. node.now) result ≡ slice_get plan.now.nodes.items at }
{
    plan.nodes.get(at as usize)
}

/// The node at a place that is known to be one of the plan.
#[inline(always)]
pub(crate) fn node_within(plan: &Plan, at: u32) -> &Node
    requires { at < length plan.now.nodes.items }
    ensures { slice_get plan.now.nodes.items at ≡ Some result.now }
{
    &plan.nodes[at as usize]
}

/// A function of the plan.
#[inline(always)]
pub(crate) fn function_of(plan: &Plan, number: u32) -> &Function
    requires { number < length plan.now.functions.items }
    ensures { slice_get plan.now.functions.items number ≡ Some result.now }
{
    &plan.functions[number as usize]
}

/// The place of a loop's body.
#[inline(always)]
fn head_of(plan: &Plan, number: u32) -> u32
    ensures { result ≡ get_or plan.now.heads.items number 0 }
{
    match plan.heads.get(number as usize) {
        Some(place) => *place,
        None => 0,
    }
}

/// The place that a test leads to.
#[inline(always)]
pub(crate) fn chosen(holds: bool, here: u32, other: u32) -> u32
    ensures { result ≡ (if holds then here else other) }
{
    if holds { here } else { other }
}

/// The move behind a part of it that was done, or that a run ends.
#[inline(always)]
fn onward(done: bool, next: u32) -> Move
    ensures { result ≡ onward done next }
{
    if done { Move::On(next) } else { Move::Halted }
}

/// The move to a place behind a step that was spent, or that a run ends.
#[inline(always)]
fn upward(spent: bool, next: u32) -> Move
    ensures { result ≡ upward spent next }
{
    if spent { Move::Up(next) } else { Move::Halted }
}

/// The move to the place that a test leads to, or that a run ends.
#[inline(always)]
pub(crate) fn toward(holds: Option<bool>, here: u32, other: u32) -> Move
    ensures { result ≡ toward holds here other }
{
    match holds {
        Some(holds) => Move::On(chosen(holds, here, other)),
        None => Move::Halted,
    }
}

/// What ends a run of the rules, as a statement does.
fn halt_of(ending: Ending) -> Halt
    ensures { result ≡ halt_by ending }
{
    match ending {
        Ending::Next => Halt::Next,
        Ending::Exit => Halt::Exit,
    }
}

impl Machine {
    /// One move. Each sort of node has a function here. Those of values, effects and walks match the kinds that loops are full of, and
    /// do in line what is at hand; what falls through is matched again, by `evaluate`, `act` and `make_rare_move`, which have all kinds.
    #[inline(always)]
    pub(crate) fn make_move<W: World>(&mut self, world: &mut W, plan: &Plan, node: &Node) -> Move
        requires sound { IsSound plan.now }
        requires calls { CallsFit (array_parameters plan.now.functions.items) node.now }
        requires ready { IsReady W.is_logged (W.state world.old) self.old.runtime.streams }
        ensures ready { IsReady W.is_logged (W.state world.new) self.new.runtime.streams }
        ensures moves { Moves W.is_logged plan.now (AtNode node.now) self.old (W.state world.old) result self.new (W.state world.new) }
    {
        match node {
            Node::Value(value, next) => self.put_value(world, plan, value, *next),
            Node::Effect(effect, next) => onward(self.perform(world, effect), *next),
            Node::Spend(next) => onward(self.spend(), *next),
            Node::Test(tested, here, other) => toward(self.ask(tested), *here, *other),
            Node::CompareWith(operator, right, here, other) => {
                self.compare_with(*operator, right, *here, *other)
            }
            Node::Compare(operator, left, right, here, other) => {
                self.compare(*operator, left, right, *here, *other)
            }
            Node::Match(operand, ere, here, other) => {
                toward(self.match_operand(operand, *ere), *here, *other)
            }
            Node::Assign(operator, place, next) => {
                onward(self.assign_to(*operator, place), *next)
            }
            Node::Update(operator, target, operand, next) => {
                onward(self.update(*operator, target, operand), *next)
            }
            Node::Increment(operator, target, next) => {
                onward(self.increment(*operator, target), *next)
            }
            Node::AppendOperands(target, parts, next) => {
                onward(self.append_operands(target, parts), *next)
            }
            Node::Print(operands, next) => onward(self.print_by_step(world, operands), *next),
            Node::Again(number) => {
                let head = head_of(plan, *number);
                upward(self.spend(), head)
            }
            Node::Return => self.give_back(),
            Node::End => self.give_nothing(),
            _ => self.make_rare_move(world, plan, node),
        }
    }

    /// The move of a node that appends texts, raises a place, walks over keys or ends all calls.
    #[inline(never)]
    fn make_rare_move<W: World>(&mut self, world: &mut W, plan: &Plan, node: &Node) -> Move
        requires rare { IsRare node.now }
        requires ready { IsReady W.is_logged (W.state world.old) self.old.runtime.streams }
        ensures ready { IsReady W.is_logged (W.state world.new) self.new.runtime.streams }
        ensures moves { Moves W.is_logged plan.now (AtNode node.now) self.old (W.state world.old) result self.new (W.state world.new) }
    {
        match node {
            Node::AppendTo(variable, count, next) => {
                onward(self.append_texts(variable, *count), *next)
            }
            Node::Raise(operator, place, next) => onward(self.raise(*operator, place), *next),
            Node::Walk(array, next) => onward(self.begin_walk(*array), *next),
            Node::NextKey(number, exit) => {
                if self.has_no_key() {
                    self.operands.drop(1);
                    return Move::On(*exit);
                }
                let head = head_of(plan, *number);
                upward(self.spend(), head)
            }
            Node::TakeKey(variable, next) => onward(self.take_key(*variable), *next),
            Node::LeaveWalk(next) => {
                self.leave_walk();
                Move::On(*next)
            }
            Node::Stop(ending) => self.halt_by(halt_of(*ending)),
            Node::Value(_, _) | Node::Effect(_, _) => unreachable!(),
            Node::Spend(_) | Node::Test(_, _, _) => unreachable!(),
            Node::CompareWith(_, _, _, _) | Node::Compare(_, _, _, _, _) => unreachable!(),
            Node::Match(_, _, _, _) | Node::Update(_, _, _, _) => unreachable!(),
            Node::Assign(_, _, _) => unreachable!(),
            Node::Increment(_, _, _) | Node::Again(_) => unreachable!(),
            Node::AppendOperands(_, _, _) | Node::Print(_, _) => unreachable!(),
            Node::Return | Node::End => unreachable!(),
        }
    }

    /// Gives the newest caller the topmost operand, which stays where no call is active.
    #[inline(always)]
    fn give_back(&mut self) -> Move
        ensures { GivesBack (first self.old.operands.values) self.old result self.new }
    {
        let Some(caller) = self.runtime.leave_call() else {
            return Move::Over;
        };
        match self.operands.hand_over(caller.base) {
            Ok(()) => Move::Back(caller.next),
            Err(refused) => self.halt_by(Halt::from(refused)),
        }
    }

    /// Gives back that there is no value.
    #[inline(always)]
    pub(crate) fn give_nothing(&mut self) -> Move
        ensures { GivesBack Nothing self.old result self.new }
    {
        if self.operands.are_none() && self.runtime.calls_are_over() {
            return Move::Over;
        }
        self.give_nothing_to_caller()
    }

    /// As `give_nothing`, where a call is active, or its operands aren't dropped yet.
    #[inline(never)]
    fn give_nothing_to_caller(&mut self) -> Move
        ensures { GivesBack Nothing self.old result self.new }
    {
        self.operands.drop_all();
        self.give_back()
    }
}
