// Inputs: records out of the bytes that a world hands over.
ghost use Rattle.std.specs.Prelude.{◌≡◌, ◌≢◌, ◌≤◌, ◌<◌, ◌+◌, ◌⊎◌, ℕ, List, ◌∷◌, length, take, vec_len};
ghost use Rattle.std.specs.Prelude.{IsTrue, ◌↔◌, OnOk, OnErr, IfErr, IfSome, IfNone, None, Err, Ok};
ghost use Rattle.awk_record.specs.Cut.{longest};
ghost use Rattle.awk_record.specs.Buffer.{Steps};
ghost use Rattle.awk_world.specs.definitions.WorldState.{SameOpen, MayFailInside};
ghost use Rattle.awk_world.specs.definitions.Grows.{Grows};
ghost use Rattle.awk_world.specs.definitions.Log.{Event, Read};
ghost use Rattle.std.specs.Prelude.{ℤ};
ghost use Rattle.awk_streams.specs.definitions.Inputs.{IsInputFault};
ghost use Rattle.awk_streams.specs.definitions.Streams.{IsOpenMain, ClosesMain};
ghost use Rattle.awk_streams.specs.definitions.MainInput.{closed_main};
ghost use Rattle.awk_streams.specs.support.Pulls.{Brings, Pulls, room_of, IsToldAs};
ghost use Rattle.awk_streams.specs.support.Asks.{Takes, IsNamedAs};

use crate::fault::StreamFault;
use awk_record::{BufferFault, RecordBuffer, Step};
use awk_value::Bytes;
use awk_world::{World, WorldFault};
use std::alloc::AllocError;

/// The most bytes of one reading.
const CHUNK: usize = 65_536;

/// An input that is open: its number in the world, and what was read of it and not yet taken.
#[derive(Drop)]
pub struct Input {
    pub id: u64,
    pub pending: RecordBuffer,
}

/// What a named input answers.
#[derive(Drop)]
pub enum NextNamed {
    /// Its next record.
    Record(Bytes),
    /// It has ended.
    End,
    /// It is refused, or broken.
    NotReadable,
}

// The slice of a reading has its length from the first one on.
fn prepare(chunk: &mut Vec<u8>) -> Result<(), AllocError>
    ensures { OnOk result (1 ≤ length chunk.new.items) }
{
    if chunk.is_empty() {
        return chunk.resize(CHUNK, 0);
    }
    Ok(())
}

// One reading through a slice, into the buffer. `Memory` is the only error; it leaves the buffer as it
// was, and may lose what was read.
fn read_into<W: World>(
    world: &mut W,
    id: u64,
    buffer: &mut RecordBuffer,
    chunk: &mut [u8],
) -> Result<(), BufferFault>
    requires open { IsTrue ((W.state world.old).is_open id) }
    requires slice { 1 ≤ length chunk.old }
    requires unended { buffer.old.ending ≡ None }
    requires short { length buffer.old.bytes ≤ longest }
    ensures open { SameOpen (W.state world.old) (W.state world.new) }
    ensures read { OnOk result
        (W.is_logged → ((e : Event) × ((W.state world.new).log ≡ e ∷ (W.state world.old).log) ×
        Brings id e buffer.old buffer.new)) }
    ensures lost { OnErr result
        (W.is_logged → ((W.state world.new).log ≡ (W.state world.old).log) ⊎
        ((bytes : List ℕ) × ((W.state world.new).log ≡ Read id bytes ∷ (W.state world.old).log))) }
    ensures err { OnErr result (buffer.new ≡ buffer.old) }
    ensures memory { IfErr result (λ e. e ≡ BufferFault.Memory) }
    ensures less { OnOk result
        (room_of buffer.new.ending (length buffer.new.bytes) < room_of buffer.old.ending (length buffer.old.bytes)) }
    ensures no_failure { OnOk result (W.is_logged → (W.state world.new).failures ≡ (W.state world.old).failures) }
    ensures failure { OnErr result (W.is_logged → MayFailInside (W.state world.old) (W.state world.new)) }
    ensures grows { W.is_logged → Grows (W.state world.old) (W.state world.new) }
{
    match world.read(id, chunk) {
        Ok(0) => buffer.end(),
        Ok(n) => buffer.feed(&chunk[..n])?,
        Err(WorldFault::Failed) => buffer.broken(),
        Err(WorldFault::Memory) => return Err(BufferFault::Memory),
    }
    Ok(())
}

// One reading behind the bytes at hand, into memory that the buffer lent with so many of them in front. `Memory` is the only
// error; it leaves the buffer as it was, and may lose what was read.
fn read_behind<W: World>(
    world: &mut W,
    id: u64,
    buffer: &mut RecordBuffer,
    mut memory: Vec<u8>,
    front: usize,
) -> Result<(), BufferFault>
    requires open { IsTrue ((W.state world.old).is_open id) }
    requires unended { buffer.old.ending ≡ None }
    requires short { length buffer.old.bytes ≤ longest }
    requires held { take front memory.items ≡ buffer.old.bytes }
    requires place { front ≡ length buffer.old.bytes }
    requires room { front + 65536 ≤ vec_len memory }
    ensures open { SameOpen (W.state world.old) (W.state world.new) }
    ensures read { OnOk result
        (W.is_logged → ((e : Event) × ((W.state world.new).log ≡ e ∷ (W.state world.old).log) ×
        Brings id e buffer.old buffer.new)) }
    ensures lost { OnErr result
        (W.is_logged → ((W.state world.new).log ≡ (W.state world.old).log) ⊎
        ((bytes : List ℕ) × ((W.state world.new).log ≡ Read id bytes ∷ (W.state world.old).log))) }
    ensures err { OnErr result (buffer.new ≡ buffer.old) }
    ensures memory { IfErr result (λ e. e ≡ BufferFault.Memory) }
    ensures less { OnOk result
        (room_of buffer.new.ending (length buffer.new.bytes) < room_of buffer.old.ending (length buffer.old.bytes)) }
    ensures no_failure { OnOk result (W.is_logged → (W.state world.new).failures ≡ (W.state world.old).failures) }
    ensures failure { OnErr result (W.is_logged → MayFailInside (W.state world.old) (W.state world.new)) }
    ensures grows { W.is_logged → Grows (W.state world.old) (W.state world.new) }
{
    match world.read(id, &mut memory[front..front + CHUNK]) {
        Ok(0) => buffer.end(),
        Ok(n) => buffer.take_memory(memory, front + n)?,
        Err(WorldFault::Failed) => buffer.broken(),
        Err(WorldFault::Memory) => return Err(BufferFault::Memory),
    }
    Ok(())
}

// One reading, into the buffer. What takes memory comes first.
fn read_more<W: World>(
    world: &mut W,
    id: u64,
    buffer: &mut RecordBuffer,
    chunk: &mut Vec<u8>,
) -> Result<(), BufferFault>
    requires open { IsTrue ((W.state world.old).is_open id) }
    requires unended { buffer.old.ending ≡ None }
    requires short { length buffer.old.bytes ≤ longest }
    ensures open { SameOpen (W.state world.old) (W.state world.new) }
    ensures read { OnOk result
        (W.is_logged → ((e : Event) × ((W.state world.new).log ≡ e ∷ (W.state world.old).log) ×
        Brings id e buffer.old buffer.new)) }
    ensures lost { OnErr result
        (W.is_logged → ((W.state world.new).log ≡ (W.state world.old).log) ⊎
        ((bytes : List ℕ) × ((W.state world.new).log ≡ Read id bytes ∷ (W.state world.old).log))) }
    ensures err { OnErr result (buffer.new ≡ buffer.old) }
    ensures memory { IfErr result (λ e. e ≡ BufferFault.Memory) }
    ensures less { OnOk result
        (room_of buffer.new.ending (length buffer.new.bytes) < room_of buffer.old.ending (length buffer.old.bytes)) }
    ensures no_failure { OnOk result (W.is_logged → (W.state world.new).failures ≡ (W.state world.old).failures) }
    ensures failure { OnErr result (W.is_logged → MayFailInside (W.state world.old) (W.state world.new)) }
    ensures grows { W.is_logged → Grows (W.state world.old) (W.state world.new) }
{
    if let Some((memory, front)) = buffer.lend_memory(CHUNK)? {
        return read_behind(world, id, buffer, memory, front);
    }
    prepare(chunk)?;
    read_into(world, id, buffer, chunk)
}

fn is_need_more(step: &Step) -> bool
    ensures { IsTrue result ↔ (step.now ≡ Step.NeedMore) }
{
    match step {
        Step::NeedMore => true,
        Step::Record(_) | Step::End | Step::Broken => false,
    }
}

// The next record of an input, read only as far as it is needed.
#[inline(never)]
fn read_next<W: World>(
    world: &mut W,
    id: u64,
    buffer: &mut RecordBuffer,
    chunk: &mut Vec<u8>,
    separator: &[u8],
) -> Result<Step, BufferFault>
    requires open { IsTrue ((W.state world.old).is_open id) }
    ensures open { SameOpen (W.state world.old) (W.state world.new) }
    ensures step { result ≢ Ok Step.NeedMore }
    ensures pulls { W.is_logged →
        Pulls id separator.now buffer.old (W.state world.old).log result buffer.new (W.state world.new).log }
    ensures no_failure { W.is_logged → result ≢ Err BufferFault.Memory →
        (W.state world.new).failures ≡ (W.state world.old).failures }
    ensures failure { W.is_logged → result ≡ Err BufferFault.Memory → MayFailInside (W.state world.old) (W.state world.new) }
    ensures grows { W.is_logged → Grows (W.state world.old) (W.state world.new) }
{
    loop {
        let step = buffer.next(separator)?;
        if !is_need_more(&step) {
            return Ok(step);
        }
        read_more(world, id, buffer, chunk)?;
    }
}

// The next record, where it is at hand by a separator of one byte.
#[inline(always)]
fn take_at_hand(buffer: &mut RecordBuffer, separator: &[u8]) -> Option<Bytes>
    ensures some { IfSome result (λ first. Steps separator.now buffer.old (Ok (Step.Record first)) buffer.new) }
    ensures none { IfNone result (buffer.new ≡ buffer.old) }
    ensures ending { buffer.new.ending ≡ buffer.old.ending }
{
    match separator {
        [byte] => buffer.record_at_hand(*byte),
        _ => None,
    }
}

// The next record of an input: one that is at hand is taken at once, and else it is read as far as it is needed.
pub(crate) fn next_from<W: World>(
    world: &mut W,
    id: u64,
    buffer: &mut RecordBuffer,
    chunk: &mut Vec<u8>,
    separator: &[u8],
) -> Result<Step, BufferFault>
    requires open { IsTrue ((W.state world.old).is_open id) }
    ensures open { SameOpen (W.state world.old) (W.state world.new) }
    ensures step { result ≢ Ok Step.NeedMore }
    ensures pulls { W.is_logged →
        Pulls id separator.now buffer.old (W.state world.old).log result buffer.new (W.state world.new).log }
    ensures no_failure { W.is_logged → result ≢ Err BufferFault.Memory →
        (W.state world.new).failures ≡ (W.state world.old).failures }
    ensures failure { W.is_logged → result ≡ Err BufferFault.Memory → MayFailInside (W.state world.old) (W.state world.new) }
    ensures grows { W.is_logged → Grows (W.state world.old) (W.state world.new) }
{
    if let Some(record) = take_at_hand(buffer, separator) {
        return Ok(Step::Record(record));
    }
    read_next(world, id, buffer, chunk, separator)
}

// One asking of an input for its next record.
pub(crate) fn next_step<W: World>(
    input: &mut Input,
    chunk: &mut Vec<u8>,
    world: &mut W,
    separator: &[u8],
) -> Result<Step, BufferFault>
    requires { IsTrue ((W.state world.old).is_open input.old.id) }
    ensures same { input.new.id ≡ input.old.id }
    ensures open { SameOpen (W.state world.old) (W.state world.new) }
    ensures step { result ≢ Ok Step.NeedMore }
    ensures told { W.is_logged → Takes separator.now (W.state world.old) input.old result (W.state world.new) input.new }
{
    next_from(world, input.id, &mut input.pending, chunk, separator)
}

// Closes the input, if there is one.
pub(crate) fn close<W: World>(world: &mut W, input: Option<Input>)
    requires { IsOpenMain (W.state world.old) input }
    ensures open { ClosesMain (W.state world.old) (W.state world.new) input }
    ensures log { W.is_logged →
        (answer : ℤ) × ((W.state world.new).log ≡ closed_main input answer (W.state world.old).log) }
    ensures no_failure { W.is_logged → (W.state world.new).failures ≡ (W.state world.old).failures }
{
    if let Some(input) = input {
        world.close(input.id);
    }
}

// What the buffer answers, in the words of the main input.
pub(crate) fn told(step: Result<Step, BufferFault>) -> Result<Option<Bytes>, StreamFault>
    requires { step ≢ Ok Step.NeedMore }
    ensures told { IsToldAs step result }
    ensures fault { IfErr result IsInputFault }
{
    match step? {
        Step::Record(record) => Ok(Some(record)),
        Step::End => Ok(None),
        Step::Broken => Err(StreamFault::InputNotReadable),
        Step::NeedMore => unreachable!(),
    }
}

// What the buffer answers, in the words of a named input.
pub(crate) fn named_told(step: Result<Step, BufferFault>) -> Result<NextNamed, StreamFault>
    requires { step ≢ Ok Step.NeedMore }
    ensures { IsNamedAs step result }
{
    match step? {
        Step::Record(record) => Ok(NextNamed::Record(record)),
        Step::End => Ok(NextNamed::End),
        Step::Broken => Ok(NextNamed::NotReadable),
        Step::NeedMore => unreachable!(),
    }
}
