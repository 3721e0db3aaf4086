// The entries of the environment.

use crate::worlds::{answer, was_given};
use awk_command::main_words;
use awk_run::Assignment;
use awk_streams::{Answer, InputKind, ScriptWorld};
use std::alloc::{AllocError, Global};
use std::test::Fail;

fn entry(alloc: Global, name: &[u8], text: &[u8]) -> Result<Assignment, AllocError> {
    Ok(Assignment {
        name: name.to_vec(alloc)?,
        text: text.to_vec(alloc)?,
    })
}

// An entry that is no text, and another.
fn environ(alloc: Global) -> Result<Vec<Assignment>, AllocError> {
    let mut environ = Vec::new(alloc);
    environ.push(entry(alloc, b"A", b"\xff")?)?;
    environ.push(entry(alloc, b"B", b"1")?)?;
    Ok(environ)
}

// The status of `awk {print}` over one line, and whether the line is printed.
fn copy_line(alloc: Global) -> Result<(u8, bool), AllocError> {
    let line = answer(
        alloc,
        InputKind::Standard,
        b"",
        b"a\n".to_vec(alloc)?,
        false,
    )?;
    let words = vec![in alloc; b"{print}".to_vec(alloc)?]?;
    let environ = environ(alloc)?;
    let mut world = ScriptWorld::new(alloc, vec![in alloc; Answer::Input(line)]?);
    let status = main_words(alloc, &words, environ, &mut world);
    Ok((status, was_given(&world, 0, b"a\n")?))
}

#[test]
fn entries_that_are_no_text_are_skipped(rt: HostRuntime) -> Result<(), Fail> {
    assert_eq!(rt; copy_line(rt.alloc())?, (0, true));
    Ok(())
}
