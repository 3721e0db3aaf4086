// Named streams that are open.
ghost use Rattle.std.specs.Prelude.{◌≡◌};
ghost use Rattle.awk_streams.specs.definitions.Streams.{number_of, name_of, is_called as is_called_so};
ghost use Rattle.awk_streams.specs.definitions.Named.{is_command};
ghost use Rattle.awk_streams.specs.definitions.Named.{is_input_command as is_input_command_so};
ghost use Rattle.awk_streams.specs.definitions.Named.{is_output_command as is_output_command_so};
ghost use Rattle.std.specs.Prelude.{List, ℕ, [], false, ◌≢◌, Ok, IsTrue, IfErr, OnOk, OnErr, Some, None, length, ◌<◌, vec_len, vec_capacity, ◌++◌, ◌∷◌};
ghost use Rattle.std.specs.List.{position, list_any};
ghost use Rattle.awk_world.specs.definitions.WorldState.{SameOpen, FailsNow};
ghost use Rattle.awk_streams.specs.definitions.Outputs.{IsOutputFault, FailsWith};
ghost use Rattle.awk_streams.specs.definitions.Streams.{AreOpenNamed, AreApart, AreSoundNamed, held_in};
ghost use Rattle.awk_streams.specs.definitions.Commands.{BringsEach};
ghost use Rattle.awk_streams.specs.definitions.Flushes.{is_output_called as is_output_called_so};
ghost use Rattle.awk_streams.specs.support.Places.{is_named_input, is_named_output};
ghost use Rattle.awk_streams.specs.support.Buffered.{PrintsOrHolds};
ghost use Rattle.awk_streams.specs.definitions.Streams.{unheld, all_unheld};
ghost use Rattle.awk_streams.specs.support.Held.{held_by, is_an_output, AreEmpty};
ghost use Rattle.awk_streams.specs.support.Asks.{TakesNamed};
ghost use Rattle.awk_streams.specs.support.Brings.{FlushesNamed, BringsHeld, AreFlushedBut};

use crate::fault::StreamFault;
use crate::input::{Input, next_step};
use crate::output::Output;
use awk_record::{BufferFault, Step};
use awk_value::Bytes;
use awk_world::{InputKind, OutputKind, World};

/// A named stream that is open, of a kind and a name.
#[derive(Drop)]
pub enum NamedStream {
    Input {
        kind: InputKind,
        name: Bytes,
        input: Input,
    },
    Output {
        kind: OutputKind,
        name: Bytes,
        output: Output,
    },
}

impl NamedStream {
    // Its number in the world.
    pub(crate) fn id(&self) -> u64
        ensures { result ≡ number_of self.now }
    {
        match self {
            NamedStream::Input { input, .. } => input.id,
            NamedStream::Output { output, .. } => output.id,
        }
    }

    pub(crate) fn is_called(&self, text: &[u8]) -> bool
        ensures { result ≡ is_called_so text.now self.now }
    {
        match self {
            NamedStream::Input { name, .. } | NamedStream::Output { name, .. } => {
                name.as_slice() == text
            }
        }
    }

    pub(crate) fn is_input(&self, wanted: InputKind, text: &[u8]) -> bool
        ensures { result ≡ is_named_input wanted text.now self.now }
    {
        match self {
            NamedStream::Input { kind, name, .. } => *kind == wanted && name.as_slice() == text,
            NamedStream::Output { .. } => false,
        }
    }

    pub(crate) fn is_output(&self, wanted: OutputKind, text: &[u8]) -> bool
        ensures { result ≡ is_named_output wanted text.now self.now }
    {
        match self {
            NamedStream::Input { .. } => false,
            NamedStream::Output { kind, name, .. } => *kind == wanted && name.as_slice() == text,
        }
    }

    pub(crate) fn is_output_called(&self, text: &[u8]) -> bool
        ensures { result ≡ is_output_called_so text.now self.now }
    {
        match self {
            NamedStream::Input { .. } => false,
            NamedStream::Output { name, .. } => name.as_slice() == text,
        }
    }

    // Whether its closing is a command's.
    pub(crate) fn is_command(&self) -> bool
        ensures { result ≡ is_command (name_of self.now) }
    {
        match self {
            NamedStream::Input { kind, .. } => is_input_command(*kind),
            NamedStream::Output { kind, .. } => is_output_command(*kind),
        }
    }

    // Prints to the output that this is.
    pub(crate) fn print<W: World>(&mut self, world: &mut W, bytes: &[u8]) -> Result<(), StreamFault>
        requires output { IsTrue (is_an_output self.old) }
        requires open { IsTrue ((W.state world.old).is_open (number_of self.old)) }
        ensures open { SameOpen (W.state world.old) (W.state world.new) }
        ensures same { unheld self.new ≡ unheld self.old }
        ensures fault { IfErr result IsOutputFault }
        ensures told { W.is_logged → PrintsOrHolds (number_of self.old) (held_by self.old) bytes.now
            (W.state world.old) result (held_by self.new) (W.state world.new) }
    {
        match self {
            NamedStream::Input { .. } => unreachable!(),
            NamedStream::Output { output, .. } => output.held.print(world, output.id, bytes),
        }
    }

    // The next record of the input that this is.
    pub(crate) fn next<W: World>(
        &mut self,
        world: &mut W,
        chunk: &mut Vec<u8>,
        separator: &[u8],
    ) -> Result<Step, BufferFault>
        requires input { is_an_output self.old ≡ false }
        requires open { IsTrue ((W.state world.old).is_open (number_of self.old)) }
        ensures open { SameOpen (W.state world.old) (W.state world.new) }
        ensures same { name_of self.new ≡ name_of self.old }
        ensures number { number_of self.new ≡ number_of self.old }
        ensures step { result ≢ Ok Step.NeedMore }
        ensures told { W.is_logged → TakesNamed separator.now (W.state world.old) self.old result (W.state world.new) self.new }
    {
        match self {
            NamedStream::Input { input, .. } => next_step(input, chunk, world, separator),
            NamedStream::Output { .. } => unreachable!(),
        }
    }

    // Writes what is held back, and flushes it, if this is an output.
    pub(crate) fn flush<W: World>(&mut self, world: &mut W) -> Result<(), StreamFault>
        requires { IsTrue ((W.state world.old).is_open (number_of self.old)) }
        ensures open { SameOpen (W.state world.old) (W.state world.new) }
        ensures same { unheld self.new ≡ unheld self.old }
        ensures empty { held_by self.new ≡ [] }
        ensures fault { IfErr result IsOutputFault }
        ensures told { W.is_logged → FlushesNamed self.old (W.state world.old) result (W.state world.new) }
    {
        match self {
            NamedStream::Input { .. } => Ok(()),
            NamedStream::Output { output, .. } => output.held.flush(world, output.id),
        }
    }
}

pub(crate) fn is_input_command(kind: InputKind) -> bool
    ensures { result ≡ is_input_command_so kind }
{
    kind == InputKind::Command
}

pub(crate) fn is_output_command(kind: OutputKind) -> bool
    ensures { result ≡ is_output_command_so kind }
{
    kind == OutputKind::Command
}

// The place of an input among these streams.
pub(crate) fn find_input(named: &[NamedStream], kind: InputKind, text: &[u8]) -> Option<usize>
    ensures { result ≡ position (is_named_input kind text.now) named.now }
{
    named.iter().position(|stream| stream.is_input(kind, text))
}

// The place of an output among these streams.
pub(crate) fn find_output(named: &[NamedStream], kind: OutputKind, text: &[u8]) -> Option<usize>
    ensures { result ≡ position (is_named_output kind text.now) named.now }
{
    named.iter().position(|stream| stream.is_output(kind, text))
}

// The place of the first stream of this text.
pub(crate) fn find_called(named: &[NamedStream], text: &[u8]) -> Option<usize>
    ensures { result ≡ position (is_called_so text.now) named.now }
{
    named.iter().position(|stream| stream.is_called(text))
}

// Whether an output of this text is among these streams.
pub(crate) fn has_output_called(named: &[NamedStream], text: &[u8]) -> bool
    ensures { result ≡ list_any (is_output_called_so text.now) named.now }
{
    named.iter().any(|stream| stream.is_output_called(text))
}

// Adds a stream for which there is room.
pub(crate) fn add(named: &mut Vec<NamedStream>, stream: NamedStream)
    requires { vec_len named.old < vec_capacity named.old }
    ensures { named.new.items ≡ named.old.items ++ stream ∷ [] }
{
    let _pushed = named.push(stream);
}

// Writes what these streams hold back and flushes the outputs, up to the first failure.
pub(crate) fn bring<W: World>(named: &mut [NamedStream], world: &mut W) -> Result<(), StreamFault>
    requires { AreOpenNamed (W.state world.old) named.old }
    ensures open { SameOpen (W.state world.old) (W.state world.new) }
    ensures same { all_unheld named.new ≡ all_unheld named.old }
    ensures empty { OnOk result (AreEmpty named.new) }
    ensures fault { IfErr result IsOutputFault }
    ensures told { W.is_logged → AreApart named.old → AreSoundNamed (W.state world.old).log named.old →
        BringsHeld (W.state world.old) (held_in named.old) result (W.state world.new) (held_in named.new) }
    ensures flushed { OnOk result (W.is_logged → AreFlushedBut (held_in named.old) (W.state world.old).log →
        AreFlushedBut [] (W.state world.new).log) }
    ensures fails { IfErr result (λ fault. W.is_logged → FailsWith fault (W.state world.old) (W.state world.new)) }
{
    for stream in named.iter_mut() {
        stream.flush(world)?;
    }
    Ok(())
}

// Writes what these streams hold back and flushes the outputs, going on behind a failure; the first one
// is answered.
pub(crate) fn bring_each<W: World>(
    named: &mut [NamedStream],
    world: &mut W,
) -> Result<(), StreamFault>
    requires { AreOpenNamed (W.state world.old) named.old }
    ensures open { SameOpen (W.state world.old) (W.state world.new) }
    ensures same { all_unheld named.new ≡ all_unheld named.old }
    ensures empty { AreEmpty named.new }
    ensures fault { IfErr result IsOutputFault }
    ensures told { W.is_logged → AreApart named.old → AreSoundNamed (W.state world.old).log named.old →
        BringsHeld (W.state world.old) (held_in named.old) result (W.state world.new) (held_in named.new) }
    ensures flushed { OnOk result (W.is_logged → AreFlushedBut (held_in named.old) (W.state world.old).log →
        AreFlushedBut [] (W.state world.new).log) }
    ensures each { W.is_logged → BringsEach (held_in named.old) (W.state world.old) result (W.state world.new) }
{
    let mut brought = Ok(());
    for stream in named.iter_mut() {
        let flushed = stream.flush(world);
        brought = brought.and(flushed);
    }
    brought
}
