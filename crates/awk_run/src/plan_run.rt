// A whole run of a plan.

ghost use Rattle.std.specs.Prelude.{◌≡◌, List, map, IfOk, IfErr, OnOk};
ghost use Rattle.awk_streams.specs.Orderly.{IsOrderly};
ghost use Rattle.awk_streams.specs.Outputs.{IsOutputFault};
ghost use Rattle.awk_streams.specs.Streams.{AreSound};
ghost use Rattle.awk_grammar.specs.Tree.{Item};
ghost use Rattle.awk_semantics.specs.Meaning.{outcome_of};
ghost use Rattle.awk_runtime.specs.Beginning.{pair_of};
ghost use Rattle.awk_run.specs.definitions.Start.{start_values};
ghost use Rattle.awk_run.specs.definitions.Runs.{RunsFrom};
ghost use Rattle.awk_run.specs.support.Assigned.{Assigns, IsFirst};
ghost use Rattle.awk_run.specs.support.Follows.{FollowsPlan, IsSet};
ghost use Rattle.awk_evaluator.specs.Moves.{IsIdle};
ghost use Rattle.awk_run.specs.support.Planned.{IsProgramOf, AreOfAProgram, naming_of, assign_and_run_at};
ghost use Rattle.awk_run.specs.support.Verdict.{outcome_after, no_streams, EndsWithoutStreams};

use crate::items::run_items;
use crate::names::program_names;
use crate::start::{Assignment, Start};
use awk_evaluator::{Machine, Watch};
use awk_kinds::Kinds;
use awk_resolve::Plan;
use awk_runtime::Runtime;
use awk_semantics::{Fault, Halt, Outcome, law_of_ends};
use awk_streams::{StreamFault, Streams, World, some_oracle_is_consistent};
use std::alloc::Global;

/// How a run ended before its end, with the exit status that stands then. A `next` for which no
/// record was at hand is a fault.
fn outcome_of(ended: Result<(), Halt>, status: u8) -> Outcome
    ensures { result ≡ outcome_of ended status }
{
    match ended {
        Ok(()) | Err(Halt::Exit) => Outcome::Ended(status),
        Err(Halt::Next) => Outcome::Fault(Fault::NextWithoutRecord),
        Err(Halt::Fault(fault)) => Outcome::Fault(fault),
        Err(Halt::OutOfSteps) => Outcome::Stopped,
    }
}

/// How a run ended: a failure of its end counts unless a fault came before it.
fn outcome_after(outcome: Outcome, finished: Result<(), StreamFault>) -> Outcome
    ensures { result ≡ outcome_after outcome finished }
{
    match finished {
        Ok(()) => outcome,
        Err(fault) => match outcome {
            Outcome::Fault(settled) => Outcome::Fault(settled),
            Outcome::Ended(_) | Outcome::Stopped => Outcome::Fault(Fault::from(fault)),
        },
    }
}

/// Makes the assignments in turn.
fn assign_all(assignments: &[Assignment], runtime: &mut Runtime) -> Result<(), Halt>
    ensures { Assigns (map pair_of assignments.now) runtime.old runtime.new result }
{
    for assignment in assignments {
        runtime.assign_text(&assignment.name, &assignment.text)?;
    }
    Ok(())
}

/// Makes the assignments before a run, and runs the items.
fn assign_and_run<W: World, T: Watch>(
    plan: &Plan,
    assignments: &[Assignment],
    machine: &mut Machine,
    world: &mut W,
    watch: &mut T,
) -> Result<(), Halt>
    requires set { IsSet W.is_logged plan.now machine.old.runtime (W.state world.old) }
    requires idle { IsIdle machine.old }
    ensures set { IsSet W.is_logged plan.now machine.new.runtime (W.state world.new) }
    ensures follows { FollowsPlan W.is_logged plan.now (λ at. assign_and_run_at at plan.now (map pair_of assignments.now))
        machine.old.runtime (W.state world.old) machine.new.runtime (W.state world.new) result }
{
    assign_all(assignments, &mut machine.runtime)?;
    run_items(plan, machine, world, watch)
}

/// The machine before a run of a plan.
fn first_machine(
    alloc: Global,
    plan: &Plan,
    kinds: &Kinds,
    start: &Start,
    limit: u64,
) -> Result<Machine, Halt>
    requires program { AreOfAProgram plan.now kinds.now }
    ensures { IfOk result (IsFirst (naming_of plan.now kinds.now) start.now.operands.items start.now.environ.items limit) }
{
    let names = program_names(alloc, plan, kinds)?;
    let runtime = Runtime::new(alloc, names, &start.operands, &start.environ, limit)?;
    Ok(Machine::new(runtime))
}

/// The end of a run that found no memory to begin.
fn end_without_streams<W: World>(alloc: Global, world: &mut W) -> Result<(), StreamFault>
    requires sound { W.is_logged → AreSound (W.state world.old) no_streams }
    ensures fault { IfErr result IsOutputFault }
    ensures orderly { W.is_logged → IsOrderly (W.state world.new).log }
    ensures told { W.is_logged → EndsWithoutStreams (W.state world.old) result (W.state world.new) }
{
    Streams::new(alloc).finish(world)
}

/// Runs a plan from the start values, with at most so many steps, where these are the kinds of its
/// program's names: what it leaves in the world, and its outcome, are those of the program. Behind the
/// outcome stands how often the texts of records were split and made anew. (POSIX awk, Overall
/// Program Structure)
pub(crate) fn run_plan<W: World, T: Watch>(
    alloc: Global,
    plan: &Plan,
    kinds: &Kinds,
    start: &Start,
    limit: u64,
    world: &mut W,
    watch: &mut T,
) -> (Outcome, u64, u64)
    requires program { AreOfAProgram plan.now kinds.now }
    requires sound { W.is_logged → AreSound (W.state world.old) no_streams }
    ensures { (items : List Item) → IsProgramOf items plan.now kinds.now →
        RunsFrom W.is_logged items (start_values start.now) limit (W.state world.old) (W.state world.new) result.0 }
{
    some_oracle_is_consistent();
    law_of_ends();
    let Ok(mut machine) = first_machine(alloc, plan, kinds, start, limit) else {
        let _ = end_without_streams(alloc, world);
        return (Outcome::Fault(Fault::OutOfMemory), 0, 0);
    };
    let ended = assign_and_run(plan, &start.pre, &mut machine, world, watch);
    let finished = machine.runtime.streams.finish(world);
    let outcome = outcome_after(outcome_of(ended, machine.runtime.status), finished);
    watch.end(&machine, &outcome);
    let record = &machine.runtime.current;
    (outcome, record.splits(), record.joins())
}
