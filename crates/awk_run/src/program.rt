// The program of a text, and its runs.

ghost use Rattle.std.specs.Prelude.{◌≡◌, ℕ, List, [], IfOk, IfErr, OnErr};
ghost use Rattle.awk_journal.specs.Adds.{Adds};
ghost use Rattle.awk_lex.specs.Refused.{IsOutOfMemory};
ghost use Rattle.awk_grammar.specs.Tree.{Item};
ghost use Rattle.awk_streams.specs.Log.{Event};
ghost use Rattle.awk_streams.specs.Lost.{AreBroughtBut};
ghost use Rattle.awk_streams.specs.Openings.{Opening, AreBrought};
ghost use Rattle.awk_streams.specs.Streams.{AreSound};
ghost use Rattle.awk_streams.specs.WorldState.{WorldState};
ghost use Rattle.awk_semantics.specs.Meaning.{StartValues};
ghost use Rattle.awk_semantics.specs.declared.fault.Fault.TheVariants.{WriteFailed};
ghost use Rattle.awk_semantics.specs.declared.outcome.Outcome.TheVariants.{Fault as ByFault};
ghost use Rattle.awk_run.specs.definitions.Accepted.{Accepted, RefusedFor};
ghost use Rattle.awk_run.specs.definitions.Headline.{Executed};
ghost use Rattle.awk_run.specs.definitions.Runs.{IsUntouched, RunsFrom, RunsSince};
ghost use Rattle.awk_run.specs.definitions.Start.{start_values};
ghost use Rattle.awk_run.specs.support.Programs.{Holds, IsRead};
ghost use Rattle.awk_run.specs.support.Verdict.{no_streams};

use crate::plan_run::run_plan;
use crate::start::Start;
use awk_evaluator::{Unwatched, Watch};
use awk_journal::{Beginning, Logged};
use awk_kinds::law_of_refusals;
use awk_lex::lexer::tokens;
use awk_lex::refusal::Refusal;
use awk_resolve::{Plan, resolve};
use awk_semantics::Outcome;
use awk_streams::{World, some_oracle_is_consistent};
use awk_syntax::parse;
use std::alloc::Global;
use std::marker::Brand;

/// A program that was read from a text, and can be run any number of times.
#[derive(Drop)]
pub struct Program {
    plan: Plan,
}

/// The program that a text spells. (POSIX awk, the awk utility)
///
/// # Errors
///
/// A text that is no program is refused, with the first cause that holds and its line: as `execute`
/// refuses it, which asks here. So is any text where memory is refused.
pub fn read_program(alloc: Global, text: &[u8]) -> Result<Program, Refusal>
    ensures cause { IfErr result (λ refusal. RefusedFor refusal.code text.now) }
    ensures refused { IfErr result (λ refusal. (IsOutOfMemory refusal → ⊥) →
        (items : List Item) → Accepted text.now items → ⊥) }
    ensures program { IfOk result (λ program. (items : List Item) × Accepted text.now items × Holds items program) }
{
    law_of_refusals();
    let tokens = tokens(alloc, text)?;
    let tree = parse(alloc, &tokens)?;
    let plan = resolve(alloc, &tree)?;
    Ok(Program { plan })
}

/// Runs a program in a world, over a log of its own: what the run does is all that this log holds.
fn run_logged<W: World, B: Beginning, T: Watch>(
    alloc: Global,
    program: &Program,
    start: &Start,
    limit: u64,
    world: W,
    watch: &mut T,
) -> (W, (Outcome, u64, u64))
    requires program { IsRead program.now }
    requires placed { W.place world ≡ B.place }
    requires tied { W.is_logged → Adds B.state [] [] (W.state world) }
    ensures placed { W.place result.0 ≡ B.place }
    ensures since { (items : List Item) → Holds items program.now →
        RunsSince W.is_logged items (start_values start.now) limit B.state (W.state result.0) result.1.0 }
    ensures runs { (items : List Item) → Holds items program.now →
        RunsFrom W.is_logged items (start_values start.now) limit B.state (W.state result.0) result.1.0 }
{
    law_of_untouched();
    let mut logged = Logged::<W, B>::new(world);
    let counted = run_plan(
        alloc,
        &program.plan,
        &program.plan.kinds,
        start,
        limit,
        &mut logged,
        watch,
    );
    (logged.into_world(), counted)
}

/// Runs a program that was read, from the start values, with at most `limit` steps, in any world,
/// whatever was done there before. What it adds to what the world received, and its outcome, are what
/// the program's items mean. (POSIX awk, Overall Program Structure)
pub fn run<W: World>(
    alloc: Global,
    program: &Program,
    start: &Start,
    limit: u64,
    world: &mut W,
) -> Outcome
    requires program { IsRead program.now }
    ensures since { (items : List Item) → Holds items program.now →
        RunsSince W.is_logged items (start_values start.now) limit (W.state world.old) (W.state world.new) result }
    ensures runs { (items : List Item) → Holds items program.now →
        RunsFrom W.is_logged items (start_values start.now) limit (W.state world.old) (W.state world.new) result }
{
    run_counted(alloc, program, start, limit, world).0
}

/// Does what `run` does. Behind the outcome stand how often the text of a record was begun to be split
/// into fields, once for each whose fields or their count were asked, and how often one was made of
/// the fields.
///
/// No clause speaks of the counts. (POSIX awk, Overall Program Structure)
pub fn run_counted<W: World>(
    alloc: Global,
    program: &Program,
    start: &Start,
    limit: u64,
    world: &mut W,
) -> (Outcome, u64, u64)
    requires program { IsRead program.now }
    ensures since { (items : List Item) → Holds items program.now →
        RunsSince W.is_logged items (start_values start.now) limit (W.state world.old) (W.state world.new) result.0 }
    ensures runs { (items : List Item) → Holds items program.now →
        RunsFrom W.is_logged items (start_values start.now) limit (W.state world.old) (W.state world.new) result.0 }
{
    run_over_log(alloc, program, start, limit, world, &mut Unwatched)
}

/// Does what `run_counted` does, over a log of its own.
fn run_over_log<W: World, T: Watch>(
    alloc: Global,
    program: &Program,
    start: &Start,
    limit: u64,
    world: &mut W,
    watch: &mut T,
) -> (Outcome, u64, u64)
    requires program { IsRead program.now }
    ensures since { (items : List Item) → Holds items program.now →
        RunsSince W.is_logged items (start_values start.now) limit (W.state world.old) (W.state world.new) result.0 }
    ensures runs { (items : List Item) → Holds items program.now →
        RunsFrom W.is_logged items (start_values start.now) limit (W.state world.old) (W.state world.new) result.0 }
{
    let (_, counted) = run_logged::<&mut W, Brand, T>(alloc, program, start, limit, world, watch);
    counted
}

/// Reads a program text and runs it from the start values, with at most `limit` steps, in any world,
/// whatever was done there before.
///
/// A text that is no program is refused, with the first cause that holds and its line, and nothing
/// is done in the world. (POSIX awk, the awk utility)
pub fn execute<W: World>(
    alloc: Global,
    text: &[u8],
    start: &Start,
    limit: u64,
    world: &mut W,
) -> Result<Outcome, Refusal>
    ensures executed { Executed W.is_logged text.now (start_values start.now) limit (W.state world.old)
        (W.state world.new) result }
    ensures untouched { OnErr result (world.new ≡ world.old) }
{
    execute_watched(alloc, text, start, limit, world, &mut Unwatched)
}

/// Does what `execute` does, and tells of the run while it goes on.
pub fn execute_watched<W: World, T: Watch>(
    alloc: Global,
    text: &[u8],
    start: &Start,
    limit: u64,
    world: &mut W,
    watch: &mut T,
) -> Result<Outcome, Refusal>
    ensures executed { Executed W.is_logged text.now (start_values start.now) limit (W.state world.old)
        (W.state world.new) result }
    ensures untouched { OnErr result (world.new ≡ world.old) }
{
    let program = read_program(alloc, text)?;
    Ok(run_over_log(alloc, &program, start, limit, world, watch).0)
}

/// A text is at most one program.
pub fn one_program()
    ensures { (text : List ℕ) (xs ys : List Item) → Accepted text xs → Accepted text ys → xs ≡ ys }
{
    awk_lex::lexer::one_lexing();
    awk_syntax::one_tree();
}

/// In a world in which nothing was done a run may begin.
pub fn law_of_untouched()
    ensures { (world : WorldState) → IsUntouched world → AreSound world no_streams }
{
    some_oracle_is_consistent();
}

/// A run that met no failure of its own doesn't end with fault 2, whatever failed in its world before.
pub fn law_of_failed_writes()
    ensures { (items : List Item) (start : StartValues) (limit : ℕ) (world : WorldState) →
        RunsSince (Unit {0}) items start limit world world (ByFault WriteFailed) → ⊥ }
{}

/// Where no write and no flush failed, no output is left out of what the end of a run brings.
pub fn law_of_brought_outputs()
    ensures { (outputs : List Opening) (log : List Event) → AreBroughtBut [] outputs log → AreBrought outputs log }
{}
