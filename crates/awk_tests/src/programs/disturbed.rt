// Runs in which a call of the world fails, an input breaks or comes in pieces, writes are short or steps are few: what
// they leave, beside what the same programs leave undisturbed.
ghost use Rattle.std.specs.Prelude.{◌≤◌};

use crate::rows::{Row, expect_rows, rows_of};
use crate::worlds::{all_closed, break_off, copy_of, cut_up, len_of, outputs_of};
use awk_command::{CommandLine, ProgramSource, read_command_line};
use awk_run::{Fault, Outcome, Start, execute};
use awk_streams::{Answer, Entry, OUTPUT_BUFFER_SIZE, ScriptWorld};
use std::alloc::{AllocError, Global};
use std::process::Abort;
use std::test::Fail;

const FAILED: &str = r#"
$ BEGIN{print 1}
*
! awk: fault 2: write failed
= 2
$ BEGIN{print 1; print 1/0}
*
! awk: fault 4: division by zero
= 2
$ BEGIN{print 1; system("c"); print 2}
*
! awk: fault 2: write failed
= 2
$ {print}
|
! awk: fault 9: input not readable
= 2
$ {print}
| a
! awk: fault 9: input not readable
= 2
$ {print}
< a
|
> a
! awk: fault 9: input not readable
= 2
$ {print}
< a
| b
> a
! awk: fault 9: input not readable
= 2
$ {print}
< a
< b
|
> a
> b
! awk: fault 9: input not readable
= 2
"#;

// Programs of which each failure, break, piece and limit is tried.
const PROGRAMS: &str = r#"
$ $1 > 9 { print $2, $1 * 2 }
< 10 a
< 9 b
= 0
$ -L
$ 30
$ BEGIN { x = 3; while (x) { print x; x = x - 1 } }
= 0
$ -L
$ 7
$ BEGIN { while (1) print "y" }
= 3
$ /b/, /c/ { print NR ":" $0 } END { print NR, NF }
< a
< b
< c
- b
= 0
$ BEGIN { print 1; x = 170141183460469231731687303715884105727; print x + 1 }
= 2
$ -v
$ RS=
$ -F
$ :
$ { print NF; for (i = NF; i > 0; i--) print $i }
<
< a b
< c:d
<
<
< e
= 0
$ { print FILENAME, x, $0 }
$ x=1
$ f
$ x=2
$ g
[f] a
[g] b
[g] c
= 0
$ -v
$ RS=aab
$ { print NR ":" $0 }
< xaaab
- aabya
= 0
$ FNR == 2 { nextfile } { print FILENAME, $0 }
$ f
$ g
[f] a
[f] b
[f] c
[g] d
= 0
$ BEGIN { print 1; fflush(); print 2; print fflush("/dev/stdout"); print 3 }
= 0
"#;

// Programs that read and print by name, and what they leave. Of a break of what they read they go on.
const NAMED: &str = r#"
$ BEGIN { while ((getline l < "f") > 0) n++; print n, NR, (getline l < "none") }
[f] 1
[f] 2
> 2 0 -1
= 0
$ BEGIN { "c" | getline; print $2, NR; "c" | getline x; print x, NR, NF; print close("c"), close("c") }
(c) p q
(c) r
> q 1
> r 2 2
> 0 -1
= 0
$ BEGIN { while ((getline l) > 0) n++; print n, NR; print system("c"); getline < "f"; print }
< a
< b
[f] c
> 2 2
> 0
> c
= 0
$ BEGIN { print 1 > "/dev/stderr"; print 2 > "/dev/stdout"; print close("/dev/stderr") }
> 2
> -1
! 1
= 0
$ BEGIN { print 1; print 2 > "x"; print 3 }
> 1
! awk: fault 10: output not opened
= 2
$ BEGIN { print 1; printf "2" | "c" }
> 1
! awk: fault 10: output not opened
= 2
$ BEGIN { print 1; print 2 > "x"; print 3 | "c"; print close("x"), close("c"), system("c"); print 4 | "c"; print 5 }
+[x]
+(c)
+(c)
? 7
% 6
> 1
> 0 7 6
> 5
= 0
"#;

// A program with all that its run depends on, and where its row ends.
#[derive(Drop)]
struct Program {
    text: Vec<u8>,
    start: Start,
    limit: u64,
    answers: Vec<Answer>,
    // The size of an output's buffer.
    buffer: usize,
    line: usize,
}

// What a run left.
#[derive(Drop)]
struct Left {
    outcome: Outcome,
    // What each opening of an output received, of which standard output is the first.
    outputs: Vec<Vec<u8>>,
    world: ScriptWorld,
}

fn text_of(source: ProgramSource) -> Result<Vec<u8>, Fail> {
    match source {
        ProgramSource::Text(text) => Ok(text),
        ProgramSource::Files(_) => Err(Fail::new("a program file")),
    }
}

fn program_of(alloc: Global, row: Row, buffer: usize) -> Result<Program, Fail> {
    let Ok(command) = read_command_line(alloc, &row.words) else {
        return Err(Fail::new("no command line"));
    };
    let CommandLine {
        pre,
        limit,
        source,
        operands,
    } = command;
    Ok(Program {
        text: text_of(source)?,
        start: Start {
            pre,
            operands,
            environ: Vec::new(alloc),
        },
        limit,
        answers: row.answers,
        buffer,
        line: row.line,
    })
}

impl Program {
    // Its answers, of which the one at a place breaks behind so many bytes.
    fn answers_that_break(
        &self,
        alloc: Global,
        place: usize,
        bytes: usize,
    ) -> Result<Vec<Answer>, AllocError> {
        let mut answers = Vec::new(alloc);
        for (i, given) in self.answers.iter().enumerate() {
            let mut copy = copy_of(alloc, given)?;
            if i == place {
                break_off(&mut copy, bytes);
            }
            answers.push(copy)?;
        }
        Ok(answers)
    }

    // A fresh world of its answers, in which each input is given in single bytes.
    fn world_in_pieces(&self, alloc: Global) -> Result<ScriptWorld, AllocError> {
        let mut answers = self.answers_that_break(alloc, self.answers.len(), 0)?;
        for answer in &mut answers {
            cut_up(answer)?;
        }
        let mut world = ScriptWorld::new(alloc, answers);
        world.buffer_outputs(self.buffer);
        Ok(world)
    }

    // A fresh world of its answers.
    fn world(&self, alloc: Global) -> Result<ScriptWorld, AllocError> {
        self.world_that_breaks(alloc, self.answers.len(), 0)
    }

    // As `world`, where the input at a place breaks behind so many bytes.
    fn world_that_breaks(
        &self,
        alloc: Global,
        place: usize,
        bytes: usize,
    ) -> Result<ScriptWorld, AllocError> {
        let answers = self.answers_that_break(alloc, place, bytes)?;
        let mut world = ScriptWorld::new(alloc, answers);
        world.buffer_outputs(self.buffer);
        Ok(world)
    }

    // Runs it with at most so many steps.
    fn run(&self, alloc: Global, limit: u64, mut world: ScriptWorld) -> Result<Left, Fail> {
        let Ok(outcome) = execute(alloc, &self.text, &self.start, limit, &mut world) else {
            return Err(Fail::new("no program"));
        };
        let outputs = outputs_of(alloc, &world)?;
        Ok(Left {
            outcome,
            outputs,
            world,
        })
    }
}

impl Left {
    fn is_same(&self, whole: &Left) -> bool {
        self.outcome == whole.outcome && self.outputs == whole.outputs
    }

    // Whether it ended so, and printed a beginning of what the undisturbed run prints.
    fn broke_off(&self, outcome: Outcome, whole: &Left) -> bool {
        self.outcome == outcome
            && self.outputs.len() <= whole.outputs.len()
            && self
                .outputs
                .iter()
                .zip(&whole.outputs)
                .all(|(part, all)| all.starts_with(part))
    }
}

// A call of the world that fails.
#[derive(Clone, Copy)]
enum Failure {
    Write,
    Flush,
    Memory,
}

impl Failure {
    // Whether the call of this entry can fail so.
    fn can_meet(self, entry: &Entry) -> bool {
        match self {
            Failure::Write => matches!(entry, Entry::Wrote(_, _)),
            Failure::Flush => matches!(entry, Entry::Flushed(_)),
            Failure::Memory => !matches!(entry, Entry::Closed(_, _)),
        }
    }

    // The k-th such call of the world is to fail.
    fn plan(self, k: u64, world: &mut ScriptWorld)
        requires { 1 ≤ k }
    {
        match self {
            Failure::Write => world.fail_write(k),
            Failure::Flush => world.fail_flush(k),
            Failure::Memory => world.refuse_memory(k),
        }
    }

    fn outcome(self) -> Outcome {
        Outcome::Fault(match self {
            Failure::Write | Failure::Flush => Fault::WriteFailed,
            Failure::Memory => Fault::OutOfMemory,
        })
    }
}

// That a run which meets a failure ends with its fault, or with the one that the undisturbed run ends with.
fn expect_failures(
    rt: &impl Abort,
    alloc: Global,
    program: &Program,
    whole: &Left,
    failure: Failure,
) -> Result<(), Fail> {
    let calls = whole
        .world
        .entries()
        .iter()
        .filter(|entry| failure.can_meet(entry))
        .count();
    let is_fault = matches!(whole.outcome, Outcome::Fault(_));
    for k in 1..=calls as u64 {
        let mut world = program.world(alloc)?;
        failure.plan(k, &mut world);
        let left = program.run(alloc, program.limit, world)?;
        let line = program.line;
        assert!(rt;
            left.broke_off(failure.outcome(), whole)
                || is_fault && left.broke_off(whole.outcome, whole),
            "call {k} fails in the row that ends on line {line}"
        );
        assert!(rt;
            all_closed(&left.world),
            "what stands open where call {k} fails in the row that ends on line {line}"
        );
    }
    Ok(())
}

// That a run whose input breaks ends with fault 9, unless it doesn't come to the break.
fn expect_breaks(
    rt: &impl Abort,
    alloc: Global,
    program: &Program,
    whole: &Left,
) -> Result<(), Fail> {
    let broken = Outcome::Fault(Fault::InputNotReadable);
    for (place, answer) in program.answers.iter().enumerate() {
        for bytes in 0..=len_of(answer) {
            let world = program.world_that_breaks(alloc, place, bytes)?;
            let left = program.run(alloc, program.limit, world)?;
            let line = program.line;
            assert!(rt;
                left.broke_off(broken, whole) || left.is_same(whole),
                "input {place} breaks behind {bytes} bytes in the row that ends on line {line}"
            );
        }
    }
    Ok(())
}

// That single bytes, of inputs and of writes, change nothing.
fn expect_pieces(
    rt: &impl Abort,
    alloc: Global,
    program: &Program,
    whole: &Left,
) -> Result<(), Fail> {
    let mut world = program.world_in_pieces(alloc)?;
    world.short_writes(1);
    let left = program.run(alloc, program.limit, world)?;
    let line = program.line;
    assert!(rt;
        left.is_same(whole),
        "pieces in the row that ends on line {line}"
    );
    Ok(())
}

// That fewer steps stop a run, until they are enough.
fn expect_limits(
    rt: &impl Abort,
    alloc: Global,
    program: &Program,
    whole: &Left,
) -> Result<(), Fail> {
    for limit in 0..=program.limit {
        let left = program.run(alloc, limit, program.world(alloc)?)?;
        let line = program.line;
        assert!(rt;
            left.broke_off(Outcome::Stopped, whole) || left.is_same(whole),
            "{limit} steps in the row that ends on line {line}"
        );
        if left.outcome != Outcome::Stopped {
            break;
        }
    }
    Ok(())
}

// That failures, pieces and limits leave of a run what they may. Gives what it leaves undisturbed.
fn expect_disturbances(rt: &impl Abort, alloc: Global, program: &Program) -> Result<Left, Fail> {
    let whole = program.run(alloc, program.limit, program.world(alloc)?)?;
    for failure in [Failure::Write, Failure::Flush, Failure::Memory] {
        expect_failures(rt, alloc, program, &whole, failure)?;
    }
    expect_pieces(rt, alloc, program, &whole)?;
    expect_limits(rt, alloc, program, &whole)?;
    Ok(whole)
}

// As `expect_disturbances`, of the rows of a table, with buffers of this size; and of those that end where an input breaks, breaks.
fn expect_disturbed_rows(
    rt: &impl Abort,
    alloc: Global,
    table: &str,
    buffer: usize,
    ends_at_breaks: bool,
) -> Result<(), Fail> {
    for row in rows_of(alloc, table)? {
        let program = program_of(alloc, row, buffer)?;
        let whole = expect_disturbances(rt, alloc, &program)?;
        if ends_at_breaks {
            expect_breaks(rt, alloc, &program, &whole)?;
        }
    }
    Ok(())
}

#[test]
fn disturbed_programs(rt: HostRuntime) -> Result<(), Fail> {
    let alloc = rt.alloc();
    expect_rows(&rt, alloc, FAILED)?;
    expect_disturbed_rows(&rt, alloc, PROGRAMS, 3, true)?;
    expect_disturbed_rows(&rt, alloc, PROGRAMS, OUTPUT_BUFFER_SIZE, true)
}

#[test]
fn disturbed_names(rt: HostRuntime) -> Result<(), Fail> {
    let alloc = rt.alloc();
    expect_rows(&rt, alloc, NAMED)?;
    expect_disturbed_rows(&rt, alloc, NAMED, 3, false)?;
    expect_disturbed_rows(&rt, alloc, NAMED, OUTPUT_BUFFER_SIZE, false)
}
