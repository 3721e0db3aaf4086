// The answers of worlds in memory, and what these received.

use awk_streams::{Answer, Entry, InputKind, OutputKind, ScriptWorld};
use awk_world::{Ending, InputAnswer, OutputAnswer};
use std::alloc::{AllocError, Global};

/// The answer of an input that is granted, and ends or breaks behind these bytes.
pub fn answer(
    alloc: Global,
    kind: InputKind,
    name: &[u8],
    bytes: Vec<u8>,
    breaks: bool,
) -> Result<InputAnswer, AllocError> {
    Ok(InputAnswer {
        kind,
        name: name.to_vec(alloc)?,
        refused: false,
        bytes,
        piece_ends: Vec::new(alloc),
        ending: if breaks { Ending::Break } else { Ending::End },
    })
}

/// The answer of an output that is granted.
pub fn grant(alloc: Global, kind: OutputKind, name: &[u8]) -> Result<Answer, AllocError> {
    Ok(Answer::Output(OutputAnswer {
        kind,
        name: name.to_vec(alloc)?,
        refused: false,
    }))
}

/// The same answer once more.
pub fn copy_of(alloc: Global, given: &Answer) -> Result<Answer, AllocError> {
    Ok(match given {
        Answer::Input(input) => {
            let bytes = input.bytes.to_vec(alloc)?;
            let breaks = input.ending == Ending::Break;
            Answer::Input(answer(alloc, input.kind, &input.name, bytes, breaks)?)
        }
        Answer::Output(output) => grant(alloc, output.kind, &output.name)?,
        Answer::Closing(number) => Answer::Closing(*number),
        Answer::Run(number) => Answer::Run(*number),
    })
}

/// An input breaks behind so many bytes.
pub(crate) fn break_off(answer: &mut Answer, bytes: usize) {
    if let Answer::Input(input) = answer {
        input.bytes.truncate(bytes);
        input.ending = Ending::Break;
    }
}

/// An input is given in single bytes.
pub(crate) fn cut_up(answer: &mut Answer) -> Result<(), AllocError> {
    if let Answer::Input(input) = answer {
        for end in 1..input.bytes.len() {
            input.piece_ends.push(end)?;
        }
    }
    Ok(())
}

/// How many bytes an input gives; other answers give none.
pub(crate) fn len_of(answer: &Answer) -> usize {
    match answer {
        Answer::Input(input) => input.bytes.len(),
        Answer::Output(_) | Answer::Closing(_) | Answer::Run(_) => 0,
    }
}

/// What each opening of an output received, of which standard output is the first.
pub fn outputs_of(alloc: Global, world: &ScriptWorld) -> Result<Vec<Vec<u8>>, AllocError> {
    let mut outputs = vec![in alloc; world.received(0)?]?;
    for entry in world.entries() {
        if let Entry::OpenedOutput(_, _, _, Some(id)) = entry {
            outputs.push(world.received(*id)?)?;
        }
    }
    Ok(outputs)
}

/// Whether an output was given this.
pub(crate) fn was_given(world: &ScriptWorld, id: u64, bytes: &[u8]) -> Result<bool, AllocError> {
    Ok(world.received(id)?.as_slice() == bytes)
}

fn is_opening(entry: &Entry) -> bool {
    matches!(
        entry,
        Entry::OpenedInput(_, _, Some(_)) | Entry::OpenedOutput(_, _, _, Some(_))
    )
}

fn is_closing(entry: &Entry) -> bool {
    matches!(entry, Entry::Closed(_, _))
}

/// Whether all that was opened was closed: each closing is of what stands open, so as many are enough.
pub fn all_closed(world: &ScriptWorld) -> bool {
    let entries = world.entries();
    let openings = entries.iter().filter(|entry| is_opening(entry)).count();
    let closings = entries.iter().filter(|entry| is_closing(entry)).count();
    openings == closings
}
