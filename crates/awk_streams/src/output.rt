// Outputs: bytes reach the world in order, all of them or a beginning. What is printed is held back as long as a
// buffer of the size that the world asks for has room.
ghost use Rattle.std.specs.Prelude.{◌≡◌, ◌++◌, [], IsTrue, IfErr, if◌then◌else◌};
ghost use Rattle.awk_world.specs.definitions.WorldState.{SameOpen};
ghost use Rattle.awk_streams.specs.definitions.Outputs.{output_fault_of, IsOutputFault, WritesAll, Flushes, WritesAndFlushes};
ghost use Rattle.awk_streams.specs.support.Buffered.{PrintsOrHolds};
ghost use Rattle.awk_streams.specs.support.Closes.{run_answer_of};

use crate::fault::StreamFault;
use awk_world::{OUTPUT_BUFFER_SIZE, World, WorldFault};
use std::alloc::{AllocError, Global};
use std::marker::Model;
use std::mem;

/// The number of standard output, which is always open.
pub const STANDARD_OUTPUT: u64 = 0;

/// The number of standard error, which is always open.
pub const STANDARD_ERROR: u64 = 1;

// The fault of a write or a flush.
fn output_fault(fault: WorldFault) -> StreamFault
    ensures { result ≡ output_fault_of fault }
{
    match fault {
        WorldFault::Memory => StreamFault::Memory,
        WorldFault::Failed => StreamFault::WriteFailed,
    }
}

// What a run of a command answers, in the words of the streams.
pub(crate) fn run_answer(answer: Result<i128, WorldFault>) -> Result<i128, StreamFault>
    ensures { result ≡ run_answer_of answer }
{
    match answer {
        Ok(number) => Ok(number),
        Err(fault) => Err(output_fault(fault)),
    }
}

// Writes all the bytes. After an `Err` a beginning of them is written.
pub(crate) fn write_all<W: World>(world: &mut W, id: u64, bytes: &[u8]) -> Result<(), StreamFault>
    requires { IsTrue ((W.state world.old).is_open id) }
    ensures open { SameOpen (W.state world.old) (W.state world.new) }
    ensures fault { IfErr result IsOutputFault }
    ensures told { W.is_logged → WritesAll id bytes.now (W.state world.old) result (W.state world.new) }
{
    let mut done = 0;
    while done < bytes.len() {
        match world.write(id, &bytes[done..]) {
            Ok(0) => return Err(StreamFault::WriteFailed),
            Ok(n) => done += n,
            Err(fault) => return Err(output_fault(fault)),
        }
    }
    Ok(())
}

/// Writes all the bytes to standard error, where a run's own messages go, and
/// flushes nothing. Fails with `Memory` (F1) or `WriteFailed` (F2); then a
/// beginning of them was written. (POSIX awk, STDERR)
pub fn print_error<W: World>(world: &mut W, bytes: &[u8]) -> Result<(), StreamFault>
    ensures open { SameOpen (W.state world.old) (W.state world.new) }
    ensures fault { IfErr result IsOutputFault }
    ensures told { W.is_logged → WritesAll 1 bytes.now (W.state world.old) result (W.state world.new) }
{
    write_all(world, STANDARD_ERROR, bytes)
}

// Flushes an output.
pub(crate) fn flush<W: World>(world: &mut W, id: u64) -> Result<(), StreamFault>
    requires { IsTrue ((W.state world.old).is_open id) }
    ensures open { SameOpen (W.state world.old) (W.state world.new) }
    ensures fault { IfErr result IsOutputFault }
    ensures told { W.is_logged → Flushes id (W.state world.old) result (W.state world.new) }
{
    match world.flush(id) {
        Ok(()) => Ok(()),
        Err(fault) => Err(output_fault(fault)),
    }
}

// Holds the bytes back behind what is held, where a buffer of this size has room for them and no
// memory is needed.
fn hold(held: &mut Vec<u8>, size: usize, bytes: &[u8]) -> bool
    ensures { held.new.items ≡ (if result then held.old.items ++ bytes.now else held.old.items) }
{
    let room = size.min(held.capacity()).saturating_sub(held.len());
    bytes.len() <= room && held.extend_from_slice(bytes).is_ok()
}

// Holds two texts back behind what is held, where a buffer of this size has room for both and no memory
// is needed.
#[inline]
fn hold_both(held: &mut Vec<u8>, size: usize, front: &[u8], behind: &[u8]) -> bool
    ensures { held.new.items ≡ (if result then held.old.items ++ (front.now ++ behind.now) else held.old.items) }
{
    let room = size.min(held.capacity()).saturating_sub(held.len());
    if front.len() > room || behind.len() > room - front.len() {
        return false;
    }
    if held.extend_from_slice(front).is_err() {
        return false;
    }
    match behind {
        [byte] => held.push_reserved(*byte),
        behind => return held.extend_from_slice(behind).is_ok(),
    }
    true
}

// Writes what is held back. Then nothing is, also after an `Err`: an output whose write failed gets no
// more bytes.
fn write_held<W: World>(world: &mut W, id: u64, held: &mut Vec<u8>) -> Result<(), StreamFault>
    requires { IsTrue ((W.state world.old).is_open id) }
    ensures empty { held.new.items ≡ [] }
    ensures open { SameOpen (W.state world.old) (W.state world.new) }
    ensures fault { IfErr result IsOutputFault }
    ensures told { W.is_logged → WritesAll id held.old.items (W.state world.old) result (W.state world.new) }
{
    let written = write_all(world, id, held);
    held.clear();
    written
}

// Writes what is held back, and flushes the output.
fn flush_held<W: World>(world: &mut W, id: u64, held: &mut Vec<u8>) -> Result<(), StreamFault>
    requires { IsTrue ((W.state world.old).is_open id) }
    ensures empty { held.new.items ≡ [] }
    ensures open { SameOpen (W.state world.old) (W.state world.new) }
    ensures fault { IfErr result IsOutputFault }
    ensures told { W.is_logged → WritesAndFlushes id held.old.items (W.state world.old) result (W.state world.new) }
{
    write_held(world, id, held)?;
    flush(world, id)
}

// What was printed to an output and is not yet written.
#[derive(Drop)]
pub struct OutputBuffer {
    bytes: Vec<u8>,
    // How many bytes it may hold back, as the world answered when it was asked last.
    size: usize,
}

impl Model for OutputBuffer {
    ghost use Rattle.std.specs.Prelude.{ℕ, List};

    ghost Value = { List ℕ };

    ghost view = { λ buffer. buffer.bytes.items };
}

impl OutputBuffer {
    // Holds nothing back: before `make_room` each print is written at once. Takes no memory.
    pub(crate) fn new(alloc: Global) -> Self
        ensures { result ≡ [] }
    {
        OutputBuffer {
            bytes: Vec::new(alloc),
            size: 0,
        }
    }

    // Makes the room in which the output is held back, so that no print takes memory.
    pub(crate) fn make_room(&mut self) -> Result<(), AllocError>
        ensures same { self.new ≡ self.old }
    {
        self.bytes.reserve(OUTPUT_BUFFER_SIZE)
    }

    // Prints the bytes: holds them back, or writes what is held and then holds back or writes them.
    // The world is asked how much is to be held back only where there is no room.
    pub(crate) fn print<W: World>(
        &mut self,
        world: &mut W,
        id: u64,
        bytes: &[u8],
    ) -> Result<(), StreamFault>
        requires { IsTrue ((W.state world.old).is_open id) }
        ensures open { SameOpen (W.state world.old) (W.state world.new) }
        ensures fault { IfErr result IsOutputFault }
        ensures told { W.is_logged →
            PrintsOrHolds id self.old bytes.now (W.state world.old) result self.new (W.state world.new) }
    {
        if hold(&mut self.bytes, self.size, bytes) {
            return Ok(());
        }
        write_held(world, id, &mut self.bytes)?;
        self.size = world.output_buffer_size(id);
        if hold(&mut self.bytes, self.size, bytes) {
            return Ok(());
        }
        write_all(world, id, bytes)
    }

    // Holds two texts back, where there is room for both.
    #[inline]
    pub(crate) fn hold_both(&mut self, front: &[u8], behind: &[u8]) -> bool
        ensures { self.new ≡ (if result then self.old ++ (front.now ++ behind.now) else self.old) }
    {
        hold_both(&mut self.bytes, self.size, front, behind)
    }

    // Gives away what is held back, and how many bytes more there is room for.
    #[inline]
    pub(crate) fn lend(&mut self, alloc: Global) -> (Vec<u8>, usize)
        ensures lent { result.0.items ≡ self.old }
        ensures empty { self.new ≡ [] }
    {
        let bytes = mem::replace(&mut self.bytes, Vec::new(alloc));
        let room = self.size.min(bytes.capacity()).saturating_sub(bytes.len());
        (bytes, room)
    }

    // Takes back what is held back.
    #[inline]
    pub(crate) fn take_back(&mut self, bytes: Vec<u8>)
        ensures { self.new ≡ bytes.items }
    {
        self.bytes = bytes;
    }

    pub(crate) fn flush<W: World>(&mut self, world: &mut W, id: u64) -> Result<(), StreamFault>
        requires { IsTrue ((W.state world.old).is_open id) }
        ensures empty { self.new ≡ [] }
        ensures open { SameOpen (W.state world.old) (W.state world.new) }
        ensures fault { IfErr result IsOutputFault }
        ensures told { W.is_logged → WritesAndFlushes id self.old (W.state world.old) result (W.state world.new) }
    {
        flush_held(world, id, &mut self.bytes)
    }
}

/// An output that is open: its number in the world, and what was printed to it and not yet written.
#[derive(Drop)]
pub struct Output {
    pub id: u64,
    pub held: OutputBuffer,
}
