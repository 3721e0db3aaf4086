// The items of a program: the actions before all records, the rules on each record, and the actions behind them.

ghost use Rattle.std.specs.Prelude.{◌≡◌, OnOk};
ghost use Rattle.awk_semantics.specs.Items.{unless_next, unless_exit, until_next, until_exit};
ghost use Rattle.awk_run.specs.support.Planned.{part_at, run_before_end_at, run_items_at};
ghost use Rattle.awk_run.specs.support.Follows.{FollowsPlan, IsSet};
ghost use Rattle.awk_evaluator.specs.Moves.{IsIdle};

use crate::records::run_records;
use awk_evaluator::{Machine, Watch};
use awk_resolve::Plan;
use awk_semantics::Halt;
use awk_streams::World;

/// Runs a part of the program, from its place in the plan. Behind an `Err` calls may be active still.
#[inline(always)]
pub(crate) fn run_part<W: World, T: Watch>(
    plan: &Plan,
    place: u32,
    machine: &mut Machine,
    world: &mut W,
    watch: &mut T,
) -> Result<(), Halt>
    requires set { IsSet W.is_logged plan.now machine.old.runtime (W.state world.old) }
    requires idle { IsIdle machine.old }
    ensures set { IsSet W.is_logged plan.now machine.new.runtime (W.state world.new) }
    ensures idle { OnOk result (IsIdle machine.new) }
    ensures follows { FollowsPlan W.is_logged plan.now (λ at. part_at at place) machine.old.runtime (W.state world.old)
        machine.new.runtime (W.state world.new) result }
{
    machine.execute(world, plan, place, watch)
}

/// What the rules on a record came to; `next` ends them, and the run goes on.
#[inline(always)]
fn unless_next(tried: Result<(), Halt>) -> Result<(), Halt>
    ensures { result ≡ unless_next tried }
{
    match tried {
        Ok(()) | Err(Halt::Next) => Ok(()),
        Err(halt) => Err(halt),
    }
}

/// Tries the rules on the record at hand, until `next`, which ends the calls that are active, too (POSIX awk, Patterns;
/// Actions).
#[inline(always)]
pub(crate) fn try_until_next<W: World, T: Watch>(
    plan: &Plan,
    machine: &mut Machine,
    world: &mut W,
    watch: &mut T,
) -> Result<(), Halt>
    requires set { IsSet W.is_logged plan.now machine.old.runtime (W.state world.old) }
    requires idle { IsIdle machine.old }
    ensures set { IsSet W.is_logged plan.now machine.new.runtime (W.state world.new) }
    ensures idle { IsIdle machine.new }
    ensures follows { FollowsPlan W.is_logged plan.now (λ at. until_next (part_at at plan.now.rules)) machine.old.runtime
        (W.state world.old) machine.new.runtime (W.state world.new) result }
{
    let tried = run_part(plan, plan.rules, machine, world, watch);
    machine.end_calls();
    unless_next(tried)
}

/// Runs the actions before all records, and then the rules on the main records; where only BEGIN stands, none is read.
/// (POSIX awk, Overall Program Structure; Patterns: BEGIN)
fn run_before_end<W: World, T: Watch>(
    plan: &Plan,
    machine: &mut Machine,
    world: &mut W,
    watch: &mut T,
) -> Result<(), Halt>
    requires set { IsSet W.is_logged plan.now machine.old.runtime (W.state world.old) }
    requires idle { IsIdle machine.old }
    ensures set { IsSet W.is_logged plan.now machine.new.runtime (W.state world.new) }
    ensures follows { FollowsPlan W.is_logged plan.now (λ at. run_before_end_at at plan.now) machine.old.runtime
        (W.state world.old) machine.new.runtime (W.state world.new) result }
{
    run_part(plan, plan.begin, machine, world, watch)?;
    if plan.reads_records {
        run_records(plan, machine, world, watch)?;
    }
    Ok(())
}

/// What the part before the END actions came to; `exit` ends it, and the run goes on.
fn unless_exit(ended: Result<(), Halt>) -> Result<(), Halt>
    ensures { result ≡ unless_exit ended }
{
    match ended {
        Ok(()) | Err(Halt::Exit) => Ok(()),
        Err(halt) => Err(halt),
    }
}

/// Runs what comes before the END actions, until `exit`, which ends the calls that are active, too.
fn run_until_exit<W: World, T: Watch>(
    plan: &Plan,
    machine: &mut Machine,
    world: &mut W,
    watch: &mut T,
) -> Result<(), Halt>
    requires set { IsSet W.is_logged plan.now machine.old.runtime (W.state world.old) }
    requires idle { IsIdle machine.old }
    ensures set { IsSet W.is_logged plan.now machine.new.runtime (W.state world.new) }
    ensures idle { IsIdle machine.new }
    ensures follows { FollowsPlan W.is_logged plan.now (λ at. until_exit (run_before_end_at at plan.now)) machine.old.runtime
        (W.state world.old) machine.new.runtime (W.state world.new) result }
{
    let before = run_before_end(plan, machine, world, watch);
    machine.end_calls();
    unless_exit(before)
}

/// Runs the items: those before the END actions until `exit`, and then these. (POSIX awk, Overall
/// Program Structure; Patterns: END; Actions)
pub(crate) fn run_items<W: World, T: Watch>(
    plan: &Plan,
    machine: &mut Machine,
    world: &mut W,
    watch: &mut T,
) -> Result<(), Halt>
    requires set { IsSet W.is_logged plan.now machine.old.runtime (W.state world.old) }
    requires idle { IsIdle machine.old }
    ensures set { IsSet W.is_logged plan.now machine.new.runtime (W.state world.new) }
    ensures follows { FollowsPlan W.is_logged plan.now (λ at. run_items_at at plan.now) machine.old.runtime (W.state world.old)
        machine.new.runtime (W.state world.new) result }
{
    run_until_exit(plan, machine, world, watch)?;
    run_part(plan, plan.end, machine, world, watch)
}
