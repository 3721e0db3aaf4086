// Runs by `execute` itself, which the program is made of.

use crate::programs::witness::{Run, run_in_memory};
use crate::worlds::{answer, was_given};
use awk_lex::refusal::{Refusal, RefusalCode};
use awk_run::{
    Assignment, Fault, Outcome, Start, fault_line, law_of_limits, law_of_outcomes, law_of_turns,
    one_program, status,
};
use awk_streams::{Answer, InputKind};
use std::alloc::{AllocError, Global};
use std::process::Abort;
use std::test::Fail;

// Runs a text over a world whose standard input holds these bytes, or is refused.
fn run(
    alloc: Global,
    input: &[u8],
    refused: bool,
    text: &[u8],
    start: &Start,
) -> Result<Run, AllocError> {
    let bytes = input.to_vec(alloc)?;
    let mut input = answer(alloc, InputKind::Standard, b"", bytes, false)?;
    input.refused = refused;
    let answers = vec![in alloc; Answer::Input(input)]?;
    Ok(run_in_memory(alloc, answers, text, start, 9))
}

// The assignment of a text with an escape.
fn assignment_of_x(alloc: Global) -> Result<Assignment, AllocError> {
    Ok(Assignment {
        name: b"x".to_vec(alloc)?,
        text: b"a\\tb".to_vec(alloc)?,
    })
}

#[test]
fn a_run(rt: HostRuntime) -> Result<(), Fail> {
    let alloc = rt.alloc();
    let mut start = Start::new(alloc);
    start.pre.push(assignment_of_x(alloc)?)?;
    let text = b"$1 > 9 { print $2, $1 * 2, x }";
    let left = run(alloc, b"10 a\n9 b\n", false, text, &start)?;
    assert!(rt; left.outcome == Ok(Outcome::Ended(0)));
    assert!(rt; was_given(&left.world, 0, b"a 20 a\tb\n")?);
    law_of_limits();
    law_of_outcomes();
    law_of_turns();
    one_program();
    Ok(())
}

#[test]
fn a_refused_input(rt: HostRuntime) -> Result<(), Fail> {
    let alloc = rt.alloc();
    let text = b"BEGIN { print 1 } { print }";
    let left = run(alloc, b"a\n", true, text, &Start::new(alloc))?;
    assert!(rt; left.outcome == Ok(Outcome::Fault(Fault::InputNotReadable)));
    assert!(rt; was_given(&left.world, 0, b"1\n")?);
    Ok(())
}

#[test]
fn outcomes(rt: HostRuntime) -> Result<(), Fail> {
    assert!(rt; status(&Outcome::Ended(7)) == 7);
    assert!(rt; status(&Outcome::Stopped) == 3);
    assert!(rt; status(&Outcome::Fault(Fault::NumberOutOfRange)) == 2);
    assert!(rt; fault_line(Fault::NumberOutOfRange) == "awk: fault 3: number out of range");
    Ok(())
}

// Whether a text is refused so, and nothing is done in the world.
fn is_refused(
    alloc: Global,
    text: &[u8],
    code: RefusalCode,
    line: u64,
) -> Result<bool, AllocError> {
    let left = run(alloc, b"a\n", false, text, &Start::new(alloc))?;
    Ok(left.outcome == Err(Refusal { code, line }) && left.world.entries().is_empty())
}

// Whether a text of one byte so often is refused so, on its first line.
fn is_refused_long(
    alloc: Global,
    byte: u8,
    count: usize,
    code: RefusalCode,
) -> Result<bool, AllocError> {
    let text = vec![in alloc; byte; count]?;
    is_refused(alloc, &text, code, 1)
}

#[test]
fn refusals(rt: HostRuntime) -> Result<(), Fail> {
    let alloc = rt.alloc();
    assert!(rt; is_refused(alloc, b"{print}\n\0", RefusalCode::UnexpectedByte, 2)?);
    assert!(rt; is_refused_long(alloc, b' ', 1_048_577, RefusalCode::ProgramTooLong)?);
    assert!(rt; is_refused_long(alloc, b'{', 500_000, RefusalCode::NotAProgram)?);
    assert!(rt; is_refused_long(alloc, b'(', 500_000, RefusalCode::NotAProgram)?);
    Ok(())
}
