// What a world in memory stores of each call.
ghost use Rattle.std.specs.Prelude.{◌≡◌, ◌≤◌, ◌<◌, ◌+◌, ◌∷◌, ◌++◌, [], vec_len, vec_capacity, OnOk, OnErr};
ghost use Rattle.awk_world.specs.definitions.Writes.{received_after};
ghost use Rattle.awk_world.specs.definitions.Script.{event_of};

use crate::world::{InputKind, Mode, OutputKind};
use std::alloc::AllocError;

/// What was done, and what came of it. Numbers are those of the streams; a refused opening has
/// none.
#[derive(Debug, Drop, PartialEq, Eq)]
pub enum Entry {
    OpenedInput(InputKind, Vec<u8>, Option<u64>),
    OpenedOutput(OutputKind, Vec<u8>, Mode, Option<u64>),
    Read(u64, Vec<u8>),
    Ended(u64),
    Broke(u64),
    Wrote(u64, Vec<u8>),
    Flushed(u64),
    Closed(u64, i128),
    Ran(Vec<u8>, i128),
}

// Adds an entry for which there is room.
pub(crate) fn push_entry(log: &mut Vec<Entry>, entry: Entry)
    requires { vec_len log.old < vec_capacity log.old }
    ensures items { log.new.items ≡ log.old.items ++ entry ∷ [] }
    ensures room { vec_capacity log.old ≤ vec_capacity log.new }
{
    let _pushed = log.push(entry);
}

// Makes room for one more entry, and for so many closings.
pub(crate) fn reserve_entry(log: &mut Vec<Entry>, closings: usize) -> Result<(), AllocError>
    ensures items { log.new.items ≡ log.old.items }
    ensures room { OnOk result (vec_len log.new + (closings + 1) ≤ vec_capacity log.new) }
    ensures kept { vec_capacity log.old ≤ vec_capacity log.new }
{
    let room = closings.checked_add(1).ok_or(AllocError)?;
    log.reserve(room)?;
    Ok(())
}

// Adds an entry, and keeps room for so many closings.
pub fn add_entry(log: &mut Vec<Entry>, closings: usize, entry: Entry) -> Result<(), AllocError>
    requires { vec_len log.old + closings ≤ vec_capacity log.old }
    ensures ok { OnOk result (log.new.items ≡ log.old.items ++ entry ∷ []) }
    ensures err { OnErr result (log.new.items ≡ log.old.items) }
    ensures room { vec_len log.new + closings ≤ vec_capacity log.new }
{
    reserve_entry(log, closings)?;
    push_entry(log, entry);
    Ok(())
}

// What an output has received after one more entry.
pub fn receive(bytes: &mut Vec<u8>, entry: &Entry, output: u64) -> Result<(), AllocError>
    ensures { OnOk result (bytes.new.items ≡ received_after output (event_of entry.now) bytes.old.items) }
{
    match entry {
        Entry::Wrote(id, part) => {
            if *id == output {
                bytes.extend_from_slice(part)?;
            }
        }
        Entry::OpenedOutput(_, _, _, Some(id)) => {
            if *id == output {
                bytes.clear();
            }
        }
        Entry::OpenedOutput(_, _, _, None)
        | Entry::OpenedInput(_, _, _)
        | Entry::Read(_, _)
        | Entry::Ended(_)
        | Entry::Broke(_)
        | Entry::Flushed(_)
        | Entry::Closed(_, _)
        | Entry::Ran(_, _) => {}
    }
    Ok(())
}
