// The streams of a run: its main input, its standard outputs, and named files and commands.
ghost use Rattle.std.specs.Prelude.{◌≡◌, ◌≢◌, ◌⊎◌, ℕ, ℤ, [], Some, None, is_some, IsTrue, OnOk, OnErr, IfErr, Ok, Err, List};
ghost use Rattle.std.specs.Prelude.{◌<◌, ◌≤◌, length};
ghost use Rattle.awk_world.specs.definitions.WorldState.{SameOpen, FailsNow};
ghost use Rattle.awk_streams.specs.definitions.Inputs.{IsInputFault};
ghost use Rattle.awk_streams.specs.definitions.Outputs.{IsOutputFault, FailsWith};
ghost use Rattle.awk_streams.specs.definitions.Streams.{AreOpen, AreSound, IsFreshMain, IsSameMain, ClosesMain, held_of};
ghost use Rattle.awk_streams.specs.definitions.MainInput.{OpensMain, AsksMain, EndsMain};
ghost use Rattle.awk_streams.specs.definitions.Streams.{all_unheld};
ghost use Rattle.awk_streams.specs.support.Held.{HoldsNothing};
ghost use Rattle.awk_streams.specs.support.Brings.{BringsHeld, AreFlushedBut};
ghost use Rattle.awk_streams.specs.support.Asks.{Prepares};

use crate::fault::StreamFault;
use crate::input::{Input, close, next_step, told};
use crate::named::{NamedStream, bring};
use crate::output::{OutputBuffer, STANDARD_ERROR, STANDARD_OUTPUT};
use awk_record::RecordBuffer;
use awk_value::Bytes;
use awk_world::{InputKind, World, WorldFault};
use std::alloc::Global;
use std::marker::Model;

mod at_hand;
mod closings;
mod commands;
mod flushes;
mod inputs;
mod outputs;

/// The most named streams that are open at once.
const MOST_STREAMS: usize = 200;

/// What is printed to.
#[derive(Clone, Copy, Debug, PartialEq, Eq)]
pub enum Target {
    StandardOutput,
    StandardError,
    /// The named output in this place among the named streams that are open.
    Named(usize),
}

/// The streams of a run: its main input, of which there is one at a time, its standard outputs, and
/// its named files and commands. Each call is given the world that the streams lie in.
#[derive(Drop)]
pub struct Streams {
    alloc: Global,
    main: Option<Input>,
    output: OutputBuffer,
    error: OutputBuffer,
    named: Vec<NamedStream>,
    // The slice of each reading.
    chunk: Vec<u8>,
}

impl Model for Streams {
    ghost use Rattle.awk_streams.specs.definitions.Streams.{StreamsView};

    ghost Value = { StreamsView };

    ghost view = { λ s. record { main = s.main; output = s.output; error = s.error; named = s.named.items } };
}

impl Streams {
    /// No input is open, no named stream, and nothing is held back. Takes no memory: before
    /// `make_room` each print to a standard output is written at once.
    pub fn new(alloc: Global) -> Self
        ensures { result ≡ record { main = None; output = []; error = []; named = [] } }
    {
        Streams {
            alloc,
            main: None,
            output: OutputBuffer::new(alloc),
            error: OutputBuffer::new(alloc),
            named: Vec::new(alloc),
            chunk: Vec::new(alloc),
        }
    }

    /// Makes the room in which the standard outputs are held back, so that no print to them takes
    /// memory. Fails with `Memory` (F1).
    pub fn make_room(&mut self) -> Result<(), StreamFault>
        ensures same { self.new ≡ self.old }
        ensures memory { IfErr result (λ e. e ≡ StreamFault.Memory) }
    {
        self.output.make_room()?;
        Ok(self.error.make_room()?)
    }

    /// Whether a main input is open.
    pub fn has_main(&self) -> bool
        ensures { result ≡ is_some self.now.main }
    {
        self.main.is_some()
    }

    /// Opens the main input: standard input, or the file of a name. Fails with `Memory` (F1), or
    /// with `InputNotReadable` (F9) where the world refuses; an `Err` changes nothing here. Takes no
    /// memory of its own. (POSIX awk, INPUT FILES)
    pub fn open_main<W: World>(
        &mut self,
        world: &mut W,
        kind: InputKind,
        name: &[u8],
    ) -> Result<(), StreamFault>
        requires none { self.old.main ≡ None }
        requires plain { kind ≢ InputKind.Command }
        requires unnamed { kind ≡ InputKind.Standard → name.now ≡ [] }
        requires open { AreOpen (W.state world.old) self.old }
        requires sound { W.is_logged → AreSound (W.state world.old) self.old }
        ensures opened { OnOk result (IsFreshMain self.new.main) }
        ensures err { OnErr result (self.new ≡ self.old) }
        ensures fault { IfErr result (λ e. (e ≡ StreamFault.Memory) ⊎ (e ≡ StreamFault.InputNotReadable)) }
        ensures open { AreOpen (W.state world.new) self.new }
        ensures sound { W.is_logged → AreSound (W.state world.new) self.new }
        ensures told { W.is_logged → OpensMain kind name.now (W.state world.old) self.old result (W.state world.new) self.new }
        ensures memory { W.is_logged → result ≡ Err StreamFault.Memory → FailsNow WorldFault.Memory (W.state world.old) (W.state world.new) }
    {
        match world.open_input(kind, name) {
            Ok(id) => {
                let pending = RecordBuffer::new(self.alloc);
                self.main = Some(Input { id, pending });
                Ok(())
            }
            Err(WorldFault::Failed) => Err(StreamFault::InputNotReadable),
            Err(WorldFault::Memory) => Err(StreamFault::Memory),
        }
    }

    /// The next record of the main input by this separator, read only as far as it is needed;
    /// `None` at the input's end. Fails with `Memory` (F1), `InputNotReadable` (F9) where the input
    /// broke before the record was whole, or `RecordTooLong` (F16). (POSIX awk, INPUT FILES; RS)
    pub fn next_main<W: World>(
        &mut self,
        world: &mut W,
        separator: &[u8],
    ) -> Result<Option<Bytes>, StreamFault>
        requires main { IsTrue (is_some self.old.main) }
        requires open { AreOpen (W.state world.old) self.old }
        requires sound { W.is_logged → AreSound (W.state world.old) self.old }
        ensures main { IsTrue (is_some self.new.main) }
        ensures same { IsSameMain self.old.main self.new.main }
        ensures fault { IfErr result IsInputFault }
        ensures open { AreOpen (W.state world.new) self.new }
        ensures sound { W.is_logged → AreSound (W.state world.new) self.new }
        ensures told { W.is_logged → AsksMain separator.now (W.state world.old) self.old result (W.state world.new) self.new }
    {
        match &mut self.main {
            Some(input) => told(next_step(input, &mut self.chunk, world, separator)),
            None => unreachable!(),
        }
    }

    /// Ends the main input: closes it, if one is open. Takes no memory. (POSIX awk, INPUT FILES)
    pub fn close_main<W: World>(&mut self, world: &mut W)
        requires open { AreOpen (W.state world.old) self.old }
        requires sound { W.is_logged → AreSound (W.state world.old) self.old }
        ensures none { self.new ≡ record self.old { main = None } }
        ensures open { AreOpen (W.state world.new) self.new }
        ensures closes { ClosesMain (W.state world.old) (W.state world.new) self.old.main }
        ensures sound { W.is_logged → AreSound (W.state world.new) self.new }
        ensures told { W.is_logged → EndsMain (W.state world.old) self.old (W.state world.new) self.new }
    {
        let input = self.main.take();
        close(world, input);
    }

    // Whether one more named stream may be opened.
    fn check_count(&self) -> Result<(), StreamFault>
        ensures few { OnOk result (length self.now.named < 200) }
        ensures full { OnErr result (200 ≤ length self.now.named) }
        ensures fault { IfErr result (λ e. e ≡ StreamFault.TooManyStreams) }
    {
        if self.named.len() < MOST_STREAMS {
            Ok(())
        } else {
            Err(StreamFault::TooManyStreams)
        }
    }

    // Writes what is held back and flushes all outputs, up to the first failure.
    fn bring<W: World>(&mut self, world: &mut W) -> Result<(), StreamFault>
        requires open { AreOpen (W.state world.old) self.old }
        requires sound { W.is_logged → AreSound (W.state world.old) self.old }
        ensures main { self.new.main ≡ self.old.main }
        ensures same { all_unheld self.new.named ≡ all_unheld self.old.named }
        ensures empty { OnOk result (HoldsNothing self.new) }
        ensures fault { IfErr result IsOutputFault }
        ensures kept { SameOpen (W.state world.old) (W.state world.new) }
        ensures open { AreOpen (W.state world.new) self.new }
        ensures sound { W.is_logged → AreSound (W.state world.new) self.new }
        ensures told { W.is_logged → BringsHeld (W.state world.old) (held_of self.old) result (W.state world.new) (held_of self.new) }
        ensures flushed { OnOk result (W.is_logged → AreFlushedBut [] (W.state world.new).log) }
        ensures fails { IfErr result (λ fault. W.is_logged → FailsWith fault (W.state world.old) (W.state world.new)) }
    {
        self.output.flush(world, STANDARD_OUTPUT)?;
        self.error.flush(world, STANDARD_ERROR)?;
        bring(&mut self.named, world)
    }

    // Flushes all outputs where a command is to be opened.
    fn bring_before<W: World>(&mut self, world: &mut W, is_command: bool) -> Result<(), StreamFault>
        requires open { AreOpen (W.state world.old) self.old }
        requires sound { W.is_logged → AreSound (W.state world.old) self.old }
        ensures main { self.new.main ≡ self.old.main }
        ensures same { all_unheld self.new.named ≡ all_unheld self.old.named }
        ensures fault { IfErr result IsOutputFault }
        ensures open { AreOpen (W.state world.new) self.new }
        ensures sound { W.is_logged → AreSound (W.state world.new) self.new }
        ensures told { W.is_logged → Prepares is_command (W.state world.old) self.old result (W.state world.new) self.new }
    {
        if is_command {
            self.bring(world)
        } else {
            Ok(())
        }
    }
}
