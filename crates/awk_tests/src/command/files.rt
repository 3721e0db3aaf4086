// What no row of text can say of program files: that one breaks, or is long.

use crate::worlds::{answer, was_given};
use awk_command::main_words;
use awk_streams::{Answer, Entry, InputKind, ScriptWorld};
use std::alloc::{AllocError, Global};
use std::test::Fail;

// The status of `awk -f p`, where the file `p` breaks behind these bytes, and the world that it leaves.
fn run_file(alloc: Global, bytes: Vec<u8>) -> Result<(u8, ScriptWorld), AllocError> {
    let file = answer(alloc, InputKind::File, b"p", bytes, true)?;
    let words = vec![in alloc; b"-f".to_vec(alloc)?, b"p".to_vec(alloc)?]?;
    let mut world = ScriptWorld::new(alloc, vec![in alloc; Answer::Input(file)]?);
    let status = main_words(alloc, &words, Vec::new(alloc), &mut world);
    Ok((status, world))
}

// Whether the file was read until it broke, and nothing happened but a message.
fn is_all_there_was(entries: &[Entry]) -> bool {
    match entries {
        [
            Entry::OpenedInput(InputKind::File, name, Some(2)),
            Entry::Read(2, bytes),
            Entry::Broke(2),
            Entry::Closed(2, 0),
            Entry::Wrote(1, message),
            Entry::Wrote(1, newline),
        ] => {
            name.as_slice() == b"p".as_slice()
                && bytes.as_slice() == b"{print}\n".as_slice()
                && message.as_slice() == b"awk: program file not readable".as_slice()
                && newline.as_slice() == b"\n".as_slice()
        }
        _ => false,
    }
}

#[test]
fn a_broken_program_file(rt: HostRuntime) -> Result<(), Fail> {
    let bytes = b"{print}\n".to_vec(rt.alloc())?;
    let (status, world) = run_file(rt.alloc(), bytes)?;
    assert_eq!(rt; status, 2);
    assert!(rt; is_all_there_was(world.entries()));
    Ok(())
}

#[test]
fn a_long_program_file(rt: HostRuntime) -> Result<(), Fail> {
    let bytes = vec![in rt.alloc(); b' '; 1_100_000]?;
    let (status, world) = run_file(rt.alloc(), bytes)?;
    assert_eq!(rt; status, 2);
    assert!(rt; was_given(&world, 1, b"awk: line 1: refusal L6: program too long\n")?);
    Ok(())
}
