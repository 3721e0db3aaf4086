// An input that comes in pieces: what is cut from it, and how often it is read.

use crate::worlds::answer;
use awk_command::main_words;
use awk_streams::{Answer, Entry, InputKind, ScriptWorld};
use awk_world::{Ending, InputAnswer};
use std::alloc::{AllocError, Global};
use std::process::Abort;
use std::test::Fail;

// Standard input in pieces, between which bars stand.
fn in_pieces(alloc: Global, pieces: &str) -> Result<InputAnswer, AllocError> {
    let mut input = answer(alloc, InputKind::Standard, b"", Vec::new(alloc), false)?;
    for byte in pieces.as_bytes() {
        if *byte == b'|' {
            input.piece_ends.push(input.bytes.len())?;
        } else {
            input.bytes.push(*byte)?;
        }
    }
    Ok(input)
}

// What a program leaves on standard output, and how often it reads.
fn run(alloc: Global, program: &str, input: InputAnswer) -> Result<(Vec<u8>, usize), AllocError> {
    let words = vec![in alloc; program.as_bytes().to_vec(alloc)?]?;
    let mut world = ScriptWorld::new(alloc, vec![in alloc; Answer::Input(input)]?);
    main_words(alloc, &words, Vec::new(alloc), &mut world);
    let readings = world
        .entries()
        .iter()
        .filter(|entry| matches!(entry, Entry::Read(_, _) | Entry::Ended(_)))
        .count();
    Ok((world.received(0)?, readings))
}

#[test]
fn an_input_is_read_on_demand(rt: HostRuntime) -> Result<(), Fail> {
    let alloc = rt.alloc();
    for (program, pieces, count, output) in [
        ("BEGIN { exit }", "a", 0, ""),
        ("{ print; exit }", "a\n|b\n", 1, "a\n"),
        ("{ print; exit }", "a|\n|b\n", 2, "a\n"),
        ("NR == 3 { exit }", "a\nb\nc\n", 1, ""),
        (r#"BEGIN { RS = "" } { print; exit }"#, "a\n|\n|b", 2, "a\n"),
        (
            r#"NR == 1 { RS = ";" } { print }"#,
            "a\nb;c\n",
            2,
            "a\nb\nc\n\n",
        ),
        ("{ print $2 }", "a b|c\nd| e\n", 4, "bc\ne\n"),
    ] {
        let (left, readings) = run(alloc, program, in_pieces(alloc, pieces)?)?;
        assert!(rt; left.as_slice() == output.as_bytes(), "{program}");
        assert!(rt; readings == count, "{program}");
    }
    Ok(())
}

#[test]
fn an_endless_input(rt: HostRuntime) -> Result<(), Fail> {
    let alloc = rt.alloc();
    let mut input = in_pieces(alloc, "a\n|y\nz")?;
    input.ending = Ending::Again(2);
    let (left, readings) = run(alloc, "{ print } NR == 4 { exit }", input)?;
    assert!(rt; left.as_slice() == b"a\ny\nzy\nzy\n".as_slice());
    assert!(rt; readings == 4);
    Ok(())
}
