// The premises of the theorem on `execute` can be met: a run over a fresh world in memory leaves what its one
// program means, with no premise.
ghost use Rattle.std.specs.Prelude.{List, IfOk, IfErr};
ghost use Rattle.awk_lex.specs.Refused.{IsOutOfMemory};
ghost use Rattle.awk_grammar.specs.Tree.{Item};
ghost use Rattle.awk_run.specs.Accepted.{Accepted};
ghost use Rattle.awk_run.specs.Start.{start_values};
ghost use Rattle.awk_run.specs.Runs.{Runs};

use crate::worlds::answer;
use awk_lex::refusal::Refusal;
use awk_run::{Outcome, Start, execute, read_program, run_counted};
use awk_streams::{Answer, InputKind, ScriptWorld, World};
use std::alloc::{AllocError, Global};
use std::process::Abort;
use std::test::Fail;

/// What a run over a fresh world leaves.
#[derive(Drop)]
pub struct Run {
    pub world: ScriptWorld,
    pub outcome: Result<Outcome, Refusal>,
}

/// Runs a text over a fresh world with these answers. A text that is refused for another cause than memory is no
/// program; any other leaves what its program means.
pub fn run_in_memory(
    alloc: Global,
    answers: Vec<Answer>,
    text: &[u8],
    start: &Start,
    limit: u64,
) -> Run
    ensures refused { IfErr result.outcome (λ refusal. (IsOutOfMemory refusal → ⊥) →
        (items : List Item) → Accepted text.now items → ⊥) }
    ensures run { IfOk result.outcome (λ outcome. (items : List Item) × Accepted text.now items ×
        Runs items (start_values start.now) limit (⟦<ScriptWorld as World>⟧.state result.world) outcome) }
{
    let mut world = ScriptWorld::new(alloc, answers);
    let outcome = execute(alloc, text, start, limit, &mut world);
    Run { world, outcome }
}

#[test]
fn a_run_in_memory(rt: HostRuntime) -> Result<(), Fail> {
    let alloc = rt.alloc();
    let run = run_in_memory(
        alloc,
        Vec::new(alloc),
        b"BEGIN { print 1 }",
        &Start::new(alloc),
        1,
    );
    assert!(rt; run.outcome == Ok(Outcome::Ended(0)));
    assert!(rt; run.world.received(0)?.as_slice() == b"1\n".as_slice());
    Ok(())
}

#[test]
fn one_run_behind_another(rt: HostRuntime) -> Result<(), Fail> {
    let alloc = rt.alloc();
    let mut world = ScriptWorld::new(alloc, Vec::new(alloc));
    let start = Start::new(alloc);
    for text in [b"BEGIN { print 1 }".as_slice(), b"BEGIN { print 2 }"] {
        let outcome = execute(alloc, text, &start, 1, &mut world);
        assert!(rt; outcome == Ok(Outcome::Ended(0)));
    }
    assert!(rt; world.received(0)?.as_slice() == b"1\n2\n".as_slice());
    Ok(())
}

// How often the texts of ten records `a b c` are split, and made anew, by a program.
fn counts(alloc: Global, text: &[u8]) -> Result<Option<(u64, u64)>, AllocError> {
    let mut bytes = Vec::new(alloc);
    for _ in 0..10 {
        bytes.extend_from_slice(b"a b c\n")?;
    }
    let input = answer(alloc, InputKind::Standard, b"", bytes, false)?;
    let answers = vec![in alloc; Answer::Input(input)]?;
    let mut world = ScriptWorld::new(alloc, answers);
    let Ok(program) = read_program(alloc, text) else {
        return Ok(None);
    };
    let (_, splits, joins) = run_counted(alloc, &program, &Start::new(alloc), 99, &mut world);
    Ok(Some((splits, joins)))
}

#[test]
fn records_are_split_and_made_anew_where_that_is_asked(rt: HostRuntime) -> Result<(), Fail> {
    let alloc = rt.alloc();
    assert!(rt; counts(alloc, b"/b/")? == Some((0, 0)));
    assert!(rt; counts(alloc, b"{ print $1 }")? == Some((10, 0)));
    assert!(rt; counts(alloc, b"{ $1 = \"x\"; $2 = \"y\" }")? == Some((10, 0)));
    assert!(rt; counts(alloc, b"{ $1 = \"x\"; print; print }")? == Some((10, 10)));
    Ok(())
}
