// Named inputs.
ghost use Rattle.std.specs.Prelude.{◌≡◌, ◌≢◌, ◌<◌, List, ℕ, length, true, false, None, IsTrue, IfOk, IfErr};
ghost use Rattle.awk_streams.specs.definitions.Streams.{AreOpen, AreSound};
ghost use Rattle.awk_streams.specs.definitions.NamedInputs.{OpensInput, AsksNamed, AsksInput};
ghost use Rattle.awk_streams.specs.support.Asks.{AsksForNamed, is_input_open};

use super::Streams;
use crate::fault::StreamFault;
use crate::input::{Input, NextNamed, named_told};
use crate::named::{NamedStream, add, find_input, is_input_command};
use awk_record::RecordBuffer;
use awk_value::Bytes;
use awk_world::{InputKind, World, WorldFault};

impl Streams {
    /// The next record of an input of this kind and name by this separator, read only as far as it is
    /// needed. The input is opened, unless it is open; before a command is opened, all outputs are
    /// flushed. One that the world refuses, or that broke, is `NotReadable`, and one that ended or broke
    /// stays open and answers the same again. Fails with `TooManyStreams` (F13) where 200 named streams
    /// are open, `RecordTooLong` (F16), `Memory` (F1), or `WriteFailed` (F2). (POSIX awk, Input/Output
    /// and General Functions: getline)
    pub fn next_named<W: World>(
        &mut self,
        world: &mut W,
        kind: InputKind,
        name: &Bytes,
        separator: &[u8],
    ) -> Result<NextNamed, StreamFault>
        requires named { kind ≢ InputKind.Standard }
        requires open { AreOpen (W.state world.old) self.old }
        requires sound { W.is_logged → AreSound (W.state world.old) self.old }
        ensures main { self.new.main ≡ self.old.main }
        ensures open { AreOpen (W.state world.new) self.new }
        ensures sound { W.is_logged → AreSound (W.state world.new) self.new }
        ensures told { W.is_logged → AsksInput kind name.now separator.now (W.state world.old) self.old result (W.state world.new) self.new }
    {
        if self.open_input(world, kind, name)? {
            self.next_of(world, kind, name, separator)
        } else {
            Ok(NextNamed::NotReadable)
        }
    }

    // Opens an input of this kind and name, unless it is open: whether it stands open then, which it
    // doesn't where the world refuses it.
    fn open_input<W: World>(
        &mut self,
        world: &mut W,
        kind: InputKind,
        name: &Bytes,
    ) -> Result<bool, StreamFault>
        requires named { kind ≢ InputKind.Standard }
        requires open { AreOpen (W.state world.old) self.old }
        requires sound { W.is_logged → AreSound (W.state world.old) self.old }
        ensures is_open { IfOk result (λ is_open. is_open ≡ true → is_input_open kind name.now self.new.named ≡ true) }
        ensures main { self.new.main ≡ self.old.main }
        ensures open { AreOpen (W.state world.new) self.new }
        ensures sound { W.is_logged → AreSound (W.state world.new) self.new }
        ensures told { W.is_logged → OpensInput kind name.now (W.state world.old) self.old result (W.state world.new) self.new }
    {
        match find_input(&self.named, kind, name.as_slice()) {
            Some(_) => Ok(true),
            None => {
                self.check_count()?;
                self.bring_before(world, is_input_command(kind))?;
                self.ask_input(world, kind, name)
            }
        }
    }

    // Asks the world for an input. What takes memory comes first, so that no stream is lost that was
    // granted.
    fn ask_input<W: World>(
        &mut self,
        world: &mut W,
        kind: InputKind,
        name: &Bytes,
    ) -> Result<bool, StreamFault>
        requires named { kind ≢ InputKind.Standard }
        requires lacks { is_input_open kind name.now self.old.named ≡ false }
        requires few { length self.old.named < 200 }
        requires open { AreOpen (W.state world.old) self.old }
        requires sound { W.is_logged → AreSound (W.state world.old) self.old }
        ensures is_open { IfOk result (λ is_open. is_open ≡ true → is_input_open kind name.now self.new.named ≡ true) }
        ensures main { self.new.main ≡ self.old.main }
        ensures open { AreOpen (W.state world.new) self.new }
        ensures sound { W.is_logged → AreSound (W.state world.new) self.new }
        ensures told { W.is_logged → AsksForNamed kind name.now (W.state world.old) self.old result (W.state world.new) self.new }
    {
        self.named.reserve(1)?;
        let name_copy = name.clone()?;
        match world.open_input(kind, name.as_slice()) {
            Ok(id) => {
                let pending = RecordBuffer::new(self.alloc);
                add(
                    &mut self.named,
                    NamedStream::Input {
                        kind,
                        name: name_copy,
                        input: Input { id, pending },
                    },
                );
                Ok(true)
            }
            Err(WorldFault::Failed) => Ok(false),
            Err(WorldFault::Memory) => Err(StreamFault::Memory),
        }
    }

    // The next record of an input that stands open.
    fn next_of<W: World>(
        &mut self,
        world: &mut W,
        kind: InputKind,
        name: &Bytes,
        separator: &[u8],
    ) -> Result<NextNamed, StreamFault>
        requires is_open { is_input_open kind name.now self.old.named ≡ true }
        requires open { AreOpen (W.state world.old) self.old }
        requires sound { W.is_logged → AreSound (W.state world.old) self.old }
        ensures main { self.new.main ≡ self.old.main }
        ensures open { AreOpen (W.state world.new) self.new }
        ensures sound { W.is_logged → AreSound (W.state world.new) self.new }
        ensures told { W.is_logged → AsksNamed kind name.now separator.now (W.state world.old) self.old result (W.state world.new) self.new }
    {
        match find_input(&self.named, kind, name.as_slice()) {
            Some(place) => named_told(self.named[place].next(world, &mut self.chunk, separator)),
            None => unreachable!(),
        }
    }
}
