// What a process is started with: the words after its name and its environment, as bytes (XBD 8.1).

ghost use Rattle.std.specs.Prelude.{◌≡◌, ◌≤◌, length, IfOk, IfSome};
ghost use Rattle.std.specs.Option.{option_map};
ghost use Rattle.std.specs.Io.{WritesAtMost};
ghost use Rattle.awk_run.specs.Start.{pair_of};
ghost use Rattle.awk_command.specs.Invocation.{entry_of};

use crate::options::first_equals_sign;
use awk_run::Assignment;
use std::alloc::{AllocError, Global};
use std::env::{Env, FillError};

/// The room for an entry at first.
const ROOM: usize = 1_024;

/// The lists that a process is started with.
#[derive(Clone, Copy)]
enum Given {
    Words,
    Environment,
}

/// Copies an entry to the front of the buffer, and answers its length.
fn fill<R: Env>(rt: &R, given: Given, at: usize, buffer: &mut [u8]) -> Result<usize, FillError>
    ensures { WritesAtMost result buffer.new }
{
    match given {
        Given::Words => rt.arg(at, buffer),
        Given::Environment => rt.var_at(at, buffer),
    }
}

/// Copies an entry to the front of the buffer, which grows until the entry fits, and answers its length, or none behind
/// the last.
fn read_entry<R: Env>(
    rt: &R,
    given: Given,
    at: usize,
    buffer: &mut Vec<u8>,
) -> Result<Option<usize>, AllocError>
    ensures { IfOk result (λ read. IfSome read (λ count. count ≤ length buffer.new.items)) }
{
    for _ in 0..u64::BITS {
        match fill(rt, given, at, buffer) {
            Ok(count) => return Ok(Some(count)),
            Err(FillError::NotPresent) => return Ok(None),
            Err(FillError::TooLong) => {
                let room = buffer.len().saturating_mul(2);
                buffer.resize(room, 0)?;
            }
        }
    }
    Ok(None)
}

/// The words after the program's name. Fails for want of memory.
pub fn given_words<R: Env>(rt: &R, alloc: Global) -> Result<Vec<Vec<u8>>, AllocError> {
    let mut buffer = vec![in alloc; 0u8; ROOM]?;
    let mut words = Vec::new(alloc);
    for at in 1..usize::MAX {
        match read_entry(rt, Given::Words, at, &mut buffer)? {
            Some(count) => words.push(buffer[..count].to_vec(alloc)?)?,
            None => break,
        }
    }
    Ok(words)
}

/// The name and the text of an entry `name=text`.
fn named_text(alloc: Global, entry: &[u8]) -> Result<Option<Assignment>, AllocError>
    ensures { IfOk result (λ read. option_map pair_of read ≡ entry_of entry.now) }
{
    let Some(at) = first_equals_sign(entry) else {
        return Ok(None);
    };
    Ok(Some(Assignment {
        name: entry[..at].to_vec(alloc)?,
        text: entry[at + 1..].to_vec(alloc)?,
    }))
}

/// The entries of the environment that have a name and a text. Fails for want of memory.
pub fn given_environment<R: Env>(rt: &R, alloc: Global) -> Result<Vec<Assignment>, AllocError> {
    let mut buffer = vec![in alloc; 0u8; ROOM]?;
    let mut environ = Vec::new(alloc);
    for at in 0..usize::MAX {
        let Some(count) = read_entry(rt, Given::Environment, at, &mut buffer)? else {
            break;
        };
        if let Some(assignment) = named_text(alloc, &buffer[..count])? {
            environ.push(assignment)?;
        }
    }
    Ok(environ)
}
