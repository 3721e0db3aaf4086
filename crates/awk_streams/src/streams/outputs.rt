// Named outputs, and printing.
ghost use Rattle.std.specs.Prelude.{◌≡◌, ◌<◌, List, [], ◌++◌, ℕ, length, None, Ok, IsTrue, IfOk, IfErr, OnErr, if◌then◌else◌};
ghost use Rattle.std.specs.List.{position};
ghost use Rattle.awk_world.specs.declared.world.OutputKind.TheVariants.{Command as OutputCommand};
ghost use Rattle.awk_world.specs.declared.world.Mode.TheVariants.{Truncate};
ghost use Rattle.awk_world.specs.definitions.WorldState.{WorldState, FailsNow};
ghost use Rattle.awk_streams.specs.definitions.Outputs.{IsOutputFault, FailsWith};
ghost use Rattle.awk_streams.specs.definitions.Streams.{AreOpen, AreSound, IsTarget};
ghost use Rattle.awk_streams.specs.definitions.NamedOutputs.{OpensOutput, Prints};
ghost use Rattle.awk_streams.specs.support.Places.{is_named_output};
ghost use Rattle.awk_streams.specs.support.Asks.{AsksOutput};

use super::{Streams, Target};
use crate::fault::StreamFault;
use crate::named::{NamedStream, add, find_output, is_output_command};
use crate::output::{Output, OutputBuffer, STANDARD_ERROR, STANDARD_OUTPUT};
use awk_value::Bytes;
use awk_world::{Mode, OutputKind, World, WorldFault};

impl Streams {
    /// Opens an output of this kind and name, unless it is open: where it stands then. `>` and `>>`
    /// print to one stream as long as it is open. Before a command is opened, all outputs are
    /// flushed. Fails with `TooManyStreams` (F13) where 200 named streams are open, `OutputNotOpened`
    /// (F10) where the world refuses, `Memory` (F1), or `WriteFailed` (F2). The target is one until a
    /// stream is closed. (POSIX awk, Output Statements)
    pub fn open_output<W: World>(
        &mut self,
        world: &mut W,
        kind: OutputKind,
        name: &Bytes,
        mode: Mode,
    ) -> Result<Target, StreamFault>
        requires command { kind ≡ OutputCommand → mode ≡ Truncate }
        requires open { AreOpen (W.state world.old) self.old }
        requires sound { W.is_logged → AreSound (W.state world.old) self.old }
        ensures target { IfOk result (λ target. IsTarget target self.new) }
        ensures main { self.new.main ≡ self.old.main }
        ensures open { AreOpen (W.state world.new) self.new }
        ensures sound { W.is_logged → AreSound (W.state world.new) self.new }
        ensures told { W.is_logged → OpensOutput kind name.now mode (W.state world.old) self.old result (W.state world.new) self.new }
    {
        match find_output(&self.named, kind, name.as_slice()) {
            Some(place) => Ok(Target::Named(place)),
            None => {
                self.check_count()?;
                self.bring_before(world, is_output_command(kind))?;
                self.ask_output(world, kind, name, mode)
            }
        }
    }

    /// Prints the bytes to a target: holds them back while there is room for them, and else writes what
    /// is held. Fails with `Memory` (F1) or `WriteFailed` (F2); then a beginning of what was held and
    /// of the bytes was written, and nothing is held. Takes no memory of its own. (POSIX awk, STDOUT;
    /// STDERR; OUTPUT FILES)
    pub fn print<W: World>(
        &mut self,
        world: &mut W,
        target: Target,
        bytes: &[u8],
    ) -> Result<(), StreamFault>
        requires target { IsTarget target self.old }
        requires open { AreOpen (W.state world.old) self.old }
        requires sound { W.is_logged → AreSound (W.state world.old) self.old }
        ensures target { IsTarget target self.new }
        ensures main { self.new.main ≡ self.old.main }
        ensures fault { IfErr result IsOutputFault }
        ensures open { AreOpen (W.state world.new) self.new }
        ensures sound { W.is_logged → AreSound (W.state world.new) self.new }
        ensures told { W.is_logged → Prints target bytes.now (W.state world.old) self.old result (W.state world.new) self.new }
        ensures fails { W.is_logged → IfErr result (λ fault. FailsWith fault (W.state world.old) (W.state world.new)) }
    {
        match target {
            Target::StandardOutput => self.output.print(world, STANDARD_OUTPUT, bytes),
            Target::StandardError => self.error.print(world, STANDARD_ERROR, bytes),
            Target::Named(place) => self.named[place].print(world, bytes),
        }
    }

    /// Prints two texts to standard output, one behind the other, where there is room to hold both back:
    /// what `print` does then, and nothing is asked of a world. `false` where there isn't, as before the
    /// first `print` to it, and then nothing changes. (POSIX awk, STDOUT)
    #[inline]
    pub fn hold(&mut self, front: &[u8], behind: &[u8]) -> bool
        ensures held { self.new ≡ (if result then record self.old { output = self.old.output ++ (front.now ++ behind.now) } else self.old) }
        ensures open { (world : WorldState) → AreOpen world self.old → AreOpen world self.new }
        ensures sound { (world : WorldState) → AreSound world self.old → AreSound world self.new }
        ensures told { IsTrue result → (world : WorldState) → AreOpen world self.old → AreSound world self.old →
            Prints Target.StandardOutput (front.now ++ behind.now) world self.old (Ok tt) world self.new }
    {
        self.output.hold_both(front, behind)
    }

    /// Lends what standard output holds back, to be printed on behind it, and how many bytes more there is
    /// room for: none before the first `print` to it. `take_output_back` follows.
    #[inline]
    pub fn lend_output(&mut self) -> (Vec<u8>, usize)
        ensures lent { result.0.items ≡ self.old.output }
        ensures rest { self.new ≡ record self.old { output = [] } }
    {
        self.output.lend(self.alloc)
    }

    /// Takes back what standard output holds back. The bytes that were put behind it are printed, and
    /// nothing is asked of a world. (POSIX awk, STDOUT)
    #[inline]
    pub fn take_output_back(&mut self, held: Vec<u8>)
        ensures back { self.new ≡ record self.old { output = held.items } }
        ensures open { (world : WorldState) → AreOpen world self.old → AreOpen world self.new }
        ensures sound { (world : WorldState) → AreSound world self.old → AreSound world self.new }
        ensures told { (front bytes : List ℕ) → held.items ≡ front ++ bytes → (world : WorldState) →
            AreOpen world (record self.old { output = front }) → AreSound world (record self.old { output = front }) →
            Prints Target.StandardOutput bytes world (record self.old { output = front }) (Ok tt) world self.new }
    {
        self.output.take_back(held);
    }

    // Asks the world for an output. What takes memory comes first, so that no stream is lost that was
    // granted.
    fn ask_output<W: World>(
        &mut self,
        world: &mut W,
        kind: OutputKind,
        name: &Bytes,
        mode: Mode,
    ) -> Result<Target, StreamFault>
        requires command { kind ≡ OutputCommand → mode ≡ Truncate }
        requires lacks { position (is_named_output kind name.now) self.old.named ≡ None }
        requires few { length self.old.named < 200 }
        requires open { AreOpen (W.state world.old) self.old }
        requires sound { W.is_logged → AreSound (W.state world.old) self.old }
        ensures target { IfOk result (λ target. IsTarget target self.new) }
        ensures main { self.new.main ≡ self.old.main }
        ensures open { AreOpen (W.state world.new) self.new }
        ensures sound { W.is_logged → AreSound (W.state world.new) self.new }
        ensures told { W.is_logged → AsksOutput kind name.now mode (W.state world.old) self.old result (W.state world.new) self.new }
    {
        self.named.reserve(1)?;
        let name_copy = name.clone()?;
        let mut held = OutputBuffer::new(self.alloc);
        held.make_room()?;
        match world.open_output(kind, name.as_slice(), mode) {
            Ok(id) => {
                let place = self.named.len();
                add(
                    &mut self.named,
                    NamedStream::Output {
                        kind,
                        name: name_copy,
                        output: Output { id, held },
                    },
                );
                Ok(Target::Named(place))
            }
            Err(WorldFault::Failed) => Err(StreamFault::OutputNotOpened),
            Err(WorldFault::Memory) => Err(StreamFault::Memory),
        }
    }
}
