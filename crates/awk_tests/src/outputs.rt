// Runs that write to files and to commands, in a world in memory that grants them and gives numbers for commands.

use crate::worlds::{all_closed, grant, was_given};
use awk_command::main_words;
use awk_streams::{Answer, Entry, OUTPUT_BUFFER_SIZE, OutputKind, ScriptWorld};
use std::alloc::{AllocError, Global};
use std::process::Abort;
use std::test::Fail;

// Grants the files x, f0 and f1 once, and the command c twice.
fn answers(alloc: Global) -> Result<Vec<Answer>, AllocError> {
    let mut answers = vec![in alloc;
        Answer::Closing(3),
        Answer::Run(256),
        Answer::Closing(4),
        Answer::Run(5),
    ]?;
    for name in ["x", "f0", "f1"] {
        answers.push(grant(alloc, OutputKind::File, name.as_bytes())?)?;
    }
    for _ in 0..2 {
        answers.push(grant(alloc, OutputKind::Command, b"c")?)?;
    }
    Ok(answers)
}

// The names of all openings of outputs that were granted, with what each received, one behind the other.
fn written(alloc: Global, world: &ScriptWorld) -> Result<Vec<u8>, AllocError> {
    let mut written = Vec::new(alloc);
    for entry in world.entries() {
        if let Entry::OpenedOutput(_, name, _, Some(id)) = entry {
            written.extend_from_slice(name)?;
            written.push(b':')?;
            written.extend_from_slice(&world.received(*id)?)?;
        }
    }
    Ok(written)
}

// Whether a program ends with this status, and leaves this on standard output, and this on the named ones.
fn leaves(
    alloc: Global,
    program: &str,
    status: u8,
    output: &str,
    named: &str,
) -> Result<bool, AllocError> {
    let words = vec![in alloc; program.as_bytes().to_vec(alloc)?]?;
    let mut world = ScriptWorld::new(alloc, answers(alloc)?);
    let ended = main_words(alloc, &words, Vec::new(alloc), &mut world);
    Ok(
        ended == status
            && was_given(&world, 0, output.as_bytes())?
            && written(alloc, &world)?.as_slice() == named.as_bytes(),
    )
}

#[test]
fn named_outputs(rt: HostRuntime) -> Result<(), Fail> {
    let alloc = rt.alloc();
    for (program, status, output, named) in [
        (
            r#"BEGIN { print "a" > "x"; print close("x"), close("x") }"#,
            0,
            "0 -1\n",
            "x:a\n",
        ),
        (
            r#"BEGIN { print 1 >> "x"; print 2 > "x" }"#,
            0,
            "",
            "x:1\n2\n",
        ),
        (
            r#"BEGIN { print 1 > "x"; close("x"); print 2 > "x" }"#,
            2,
            "",
            "x:1\n",
        ),
        (
            r#"BEGIN { print "a" | "c"; print close("c"); print | "c"; print close("c"), close("c") }"#,
            0,
            "3\n4 -1\n",
            "c:a\nc:\n",
        ),
        (
            r#"BEGIN { print 1; print system("a"), system("c"), system("c") }"#,
            0,
            "1\n256 5 0\n",
            "",
        ),
        (
            r#"BEGIN { for (i = 1; i < 4; i++) print i > ("f" i % 2) }"#,
            0,
            "",
            "f1:1\n3\nf0:2\n",
        ),
    ] {
        assert!(rt; leaves(alloc, program, status, output, named)?, "{program}");
    }
    Ok(())
}

#[test]
fn behind_a_failed_write(rt: HostRuntime) -> Result<(), Fail> {
    let alloc = rt.alloc();
    let program = r#"BEGIN { print 1 | "c"; print 2 > "x"; print 3 > "f0"; print 4 }"#;
    let words = vec![in alloc; program.as_bytes().to_vec(alloc)?]?;
    let mut world = ScriptWorld::new(alloc, answers(alloc)?);
    world.buffer_outputs(OUTPUT_BUFFER_SIZE);
    // Standard output and the command are written to before the file of which the write fails.
    world.fail_write(3);
    let status = main_words(alloc, &words, Vec::new(alloc), &mut world);
    assert!(rt; status == 2);
    assert!(rt; was_given(&world, 0, b"4\n")?);
    assert!(rt; was_given(&world, 1, b"awk: fault 2: write failed\n")?);
    assert!(rt; written(alloc, &world)?.as_slice() == "c:1\nx:f0:3\n".as_bytes());
    assert!(rt; all_closed(&world));
    Ok(())
}

// Grants the files of the numbers from 1 on.
fn numbered_files(alloc: Global, count: u64) -> Result<Vec<Answer>, AllocError> {
    let mut answers = Vec::new(alloc);
    for number in 1..=count {
        let name = number.to_string(alloc)?;
        answers.push(grant(alloc, OutputKind::File, name.as_bytes())?)?;
    }
    Ok(answers)
}

#[test]
fn too_many_outputs(rt: HostRuntime) -> Result<(), Fail> {
    let alloc = rt.alloc();
    let program = "BEGIN { for (i = 1; i < 202; i++) print i > i }";
    let words = vec![in alloc; program.as_bytes().to_vec(alloc)?]?;
    let mut world = ScriptWorld::new(alloc, numbered_files(alloc, 201)?);
    let status = main_words(alloc, &words, Vec::new(alloc), &mut world);
    assert!(rt; status == 2);
    assert!(rt; was_given(&world, 1, b"awk: fault 13: too many streams\n")?);
    assert!(rt; was_given(&world, 201, b"200\n")?);
    Ok(())
}
