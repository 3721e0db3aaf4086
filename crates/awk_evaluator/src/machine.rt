// The machine: it moves from place to place, until nothing is left. No function of it calls itself.

ghost use Rattle.std.specs.Prelude.{◌≡◌, [], OnOk};
ghost use Rattle.awk_runtime.specs.Simulation.{IsReady};
ghost use Rattle.awk_runtime.specs.Calling.{EndsCalls};
ghost use Rattle.awk_evaluator.specs.Rest.{IsSound, AtPlace};
ghost use Rattle.awk_evaluator.specs.Moves.{IsIdle, Turns, Steps, Ends, Done, Executes, Keeps, came, told, without_value, truth_in};

use crate::moves::{node_at, node_within};
use crate::operands::Operands;
use crate::room::Room;
use crate::watch::Watch;
use awk_resolve::Plan;
use awk_runtime::Runtime;
use awk_semantics::Halt;
use awk_streams::World;
use awk_value::{Value, is_true};
use std::mem;

/// A run: its state, and the operands of the active calls.
#[derive(Drop)]
pub struct Machine {
    pub runtime: Runtime,
    pub operands: Operands,
    /// The memory in which texts are joined.
    pub text: Room,
    /// Why the run ended, where a move says that it is halted.
    pub halt: Halt,
}

/// Where a move leads.
#[derive(Clone, Copy)]
pub enum Move {
    /// To a place that stands before.
    On(u32),
    /// To any place, behind a step that was spent.
    Up(u32),
    /// To any place, behind a call.
    Back(u32),
    /// Nowhere: the topmost operand is the last value.
    Over,
    /// Nowhere: the machine keeps why.
    Halted,
}

impl Machine {
    /// A machine in which nothing is active but the calls of this state. Takes no memory.
    pub fn new(runtime: Runtime) -> Machine
        ensures runtime { result.runtime ≡ runtime }
        ensures idle { runtime.frames.callers ≡ [] → IsIdle result }
    {
        let alloc = runtime.alloc;
        Machine {
            runtime,
            operands: Operands::new(alloc),
            text: Room {
                bytes: Vec::new(alloc),
            },
            halt: Halt::Exit,
        }
    }

    /// Runs what stands at a place of the plan, whose value is of no use. Behind an `Err` calls may be active still.
    pub fn execute<W: World, T: Watch>(
        &mut self,
        world: &mut W,
        plan: &Plan,
        place: u32,
        watch: &mut T,
    ) -> Result<(), Halt>
        requires sound { IsSound plan.now }
        requires idle { IsIdle self.old }
        requires ready { IsReady W.is_logged (W.state world.old) self.old.runtime.streams }
        ensures ready { IsReady W.is_logged (W.state world.new) self.new.runtime.streams }
        ensures idle { OnOk result (IsIdle self.new) }
        ensures executes { Done (λ r. Executes W.is_logged plan.now place self.old (W.state world.old) r self.new (W.state world.new)) result }
    {
        self.run(world, plan, place, watch)
    }

    /// Behind a `next` or an `exit`: no call is active any more.
    #[inline(always)]
    pub fn end_calls(&mut self)
        ensures idle { IsIdle self.new }
        ensures ends { EndsCalls self.old.runtime self.new.runtime }
    {
        self.operands.clear();
        if !self.runtime.frames.are_over() {
            self.runtime.end_calls();
        }
    }

    /// Goes on from a place to the end.
    fn run<W: World, T: Watch>(
        &mut self,
        world: &mut W,
        plan: &Plan,
        start: u32,
        watch: &mut T,
    ) -> Result<(), Halt>
        requires sound { IsSound plan.now }
        requires ready { IsReady W.is_logged (W.state world.old) self.old.runtime.streams }
        ensures ready { IsReady W.is_logged (W.state world.new) self.new.runtime.streams }
        ensures ends { Done (λ r. Ends W.is_logged plan.now (AtPlace start) self.old (W.state world.old) r self.new (W.state world.new)) result }
    {
        let mut at = start;
        'steps: loop {
            match self.to_step(world, plan, at, watch) {
                Move::Up(next) => at = next,
                Move::Over => {
                    self.operands.clear();
                    return Ok(());
                }
                Move::Halted => {
                    watch.halt(self);
                    return Err(self.halt);
                }
                Move::On(_) | Move::Back(_) => unreachable!(),
            }
        }
    }

    /// Goes on to the next step or the end.
    #[inline(always)]
    fn to_step<W: World, T: Watch>(
        &mut self,
        world: &mut W,
        plan: &Plan,
        start: u32,
        watch: &mut T,
    ) -> Move
        requires sound { IsSound plan.now }
        requires ready { IsReady W.is_logged (W.state world.old) self.old.runtime.streams }
        ensures ready { IsReady W.is_logged (W.state world.new) self.new.runtime.streams }
        ensures steps { Steps W.is_logged plan.now (AtPlace start) self.old (W.state world.old) result self.new (W.state world.new) }
    {
        let mut at = start;
        'returns: loop {
            match self.to_turn(world, plan, at, watch) {
                Move::Back(next) => at = next,
                other => return other,
            }
        }
    }

    /// Goes on to the next step, return or end.
    #[inline(always)]
    fn to_turn<W: World, T: Watch>(
        &mut self,
        world: &mut W,
        plan: &Plan,
        start: u32,
        watch: &mut T,
    ) -> Move
        requires sound { IsSound plan.now }
        requires ready { IsReady W.is_logged (W.state world.old) self.old.runtime.streams }
        ensures ready { IsReady W.is_logged (W.state world.new) self.new.runtime.streams }
        ensures turns { Turns W.is_logged plan.now (AtPlace start) self.old (W.state world.old) result self.new (W.state world.new) }
    {
        let mut at = start;
        let Some(mut node) = node_at(plan, at) else {
            return self.give_nothing();
        };
        'moves: loop {
            watch.visit(at);
            match self.make_move(world, plan, node) {
                Move::On(next) => {
                    at = next;
                    node = node_within(plan, at);
                }
                other => return other,
            }
        }
    }

    /// Lends the memory in which texts are joined; nothing lies in it.
    #[inline(always)]
    pub(crate) fn lend_text(&mut self) -> Vec<u8>
        ensures empty { result.items ≡ [] }
        ensures same { self.new ≡ self.old }
    {
        let alloc = self.runtime.alloc;
        let mut text = mem::replace(&mut self.text.bytes, Vec::new(alloc));
        text.clear();
        text
    }

    /// Takes back the memory that was lent.
    #[inline(always)]
    pub(crate) fn take_text_back(&mut self, text: Vec<u8>)
        ensures { self.new ≡ self.old }
    {
        self.text.bytes = text;
    }

    /// The run ends by this.
    #[inline(never)]
    pub(crate) fn halt_by(&mut self, halt: Halt) -> Move
        ensures halted { result ≡ Move.Halted }
        ensures kept { self.new ≡ record self.old { halt = halt } }
    {
        self.halt = halt;
        Move::Halted
    }

    /// Whether a part was done; else the run ends by what it came to.
    #[inline(always)]
    pub(crate) fn is_done<T: Drop>(&mut self, part: Result<T, Halt>) -> bool
        ensures came { came result self.new ≡ without_value part }
        ensures kept { Keeps self.old self.new }
    {
        match part {
            Ok(_) => true,
            Err(halt) => {
                self.halt = halt;
                false
            }
        }
    }

    /// Whether the value of a part is true; else the run ends by what it came to.
    pub(crate) fn truth_of(&mut self, part: Result<Value, Halt>) -> Option<bool>
        ensures told { told result self.new ≡ truth_in part }
        ensures kept { Keeps self.old self.new }
    {
        match part {
            Ok(value) => Some(is_true(&value)),
            Err(halt) => {
                self.halt = halt;
                None
            }
        }
    }
}
