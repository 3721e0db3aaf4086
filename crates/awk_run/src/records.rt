// The main records.

ghost use Rattle.std.specs.Prelude.{◌≡◌, true, Some, IfSome};
ghost use Rattle.awk_semantics.specs.Items.{until_next, run_records};
ghost use Rattle.awk_run.specs.support.Planned.{part_at};
ghost use Rattle.awk_run.specs.support.Follows.{FollowsPlan, IsSet, ReadsNext};
ghost use Rattle.awk_run.specs.support.Passing.{IsEnd, RulesIgnore, PassesFor};
ghost use Rattle.awk_runtime.specs.Simulation.{IsReady};
ghost use Rattle.awk_evaluator.specs.Moves.{IsIdle};

use crate::items::try_until_next;
use awk_evaluator::{Machine, Watch};
use awk_resolve::Plan;
use awk_resolve::node::{Node, Operand};
use awk_runtime::Unwanted;
use awk_semantics::Halt;
use awk_streams::World;

/// The records that no rule wants, where the rules are none, or one whose pattern is an ERE.
fn unwanted_by(plan: &Plan) -> Option<Unwanted>
    ensures { IfSome result (RulesIgnore plan.now) }
{
    match plan.nodes.get(plan.rules as usize)? {
        Node::End => Some(Unwanted::All),
        Node::Match(Operand::Field(0), ere, _, other) if is_end(plan, *other) => {
            Some(Unwanted::Unmatched(*ere))
        }
        _ => None,
    }
}

/// Whether nothing is done at a place.
fn is_end(plan: &Plan, place: u32) -> bool
    ensures { result ≡ true → IsEnd plan.now place }
{
    matches!(plan.nodes.get(place as usize), Some(Node::End))
}

/// Passes over records at hand that no rule wants; gives what may be passed over behind them.
fn pass_over<W: World>(
    unwanted: Option<Unwanted>,
    machine: &mut Machine,
    world: &W,
) -> Option<Unwanted>
    ensures passes { PassesFor W.is_logged unwanted machine.old.runtime (W.state world.now) machine.new.runtime }
    ensures idle { IsIdle machine.old → IsIdle machine.new }
    ensures goes_on { IfSome result (λ u. unwanted ≡ Some u) }
{
    let unwanted = unwanted?;
    if machine.runtime.pass_over::<W>(unwanted) {
        return Some(unwanted);
    }
    None
}

/// Reads the next main record, and makes it the record at hand: whether there is one.
#[inline(always)]
fn begin_next<W: World>(machine: &mut Machine, world: &mut W) -> Result<bool, Halt>
    requires ready { IsReady W.is_logged (W.state world.old) machine.old.runtime.streams }
    ensures next { ReadsNext W.is_logged machine.old.runtime (W.state world.old) machine.new.runtime (W.state world.new) result }
    ensures idle { IsIdle machine.old → IsIdle machine.new }
{
    if machine.runtime.begin_at_hand::<W>()? {
        return Ok(true);
    }
    search_next(machine, world)
}

/// As `begin_next`, where the record may have to be looked for.
#[inline(never)]
fn search_next<W: World>(machine: &mut Machine, world: &mut W) -> Result<bool, Halt>
    requires ready { IsReady W.is_logged (W.state world.old) machine.old.runtime.streams }
    ensures next { ReadsNext W.is_logged machine.old.runtime (W.state world.old) machine.new.runtime (W.state world.new) result }
    ensures idle { IsIdle machine.old → IsIdle machine.new }
{
    let Some(text) = machine.runtime.next_record(world)? else {
        return Ok(false);
    };
    machine.runtime.spend()?;
    machine.runtime.begin_record(text)?;
    Ok(true)
}

/// Reads the main records to their end, and tries the rules on each (POSIX awk, Overall Program
/// Structure).
pub(crate) fn run_records<W: World, T: Watch>(
    plan: &Plan,
    machine: &mut Machine,
    world: &mut W,
    watch: &mut T,
) -> Result<(), Halt>
    requires set { IsSet W.is_logged plan.now machine.old.runtime (W.state world.old) }
    requires idle { IsIdle machine.old }
    ensures set { IsSet W.is_logged plan.now machine.new.runtime (W.state world.new) }
    ensures follows { FollowsPlan W.is_logged plan.now (λ at. run_records (until_next (part_at at plan.now.rules)))
        machine.old.runtime (W.state world.old) machine.new.runtime (W.state world.new) result }
{
    let mut unwanted = unwanted_by(plan);
    loop {
        unwanted = pass_over(unwanted, machine, world);
        if !begin_next(machine, world)? {
            return Ok(());
        }
        try_until_next(plan, machine, world, watch)?;
    }
}
