// Flushes that a program asks for: of all outputs, and of those of a text.
ghost use Rattle.std.specs.Prelude.{◌≡◌, ◌<◌, [], length, IfOk, IfErr, OnOk, OnErr, slice_get};
ghost use Rattle.awk_world.specs.definitions.WorldState.{FailsNow};
ghost use Rattle.awk_streams.specs.definitions.Outputs.{IsOutputFault, FailsWith};
ghost use Rattle.awk_streams.specs.definitions.Streams.{AreOpen, AreSound};
ghost use Rattle.awk_streams.specs.definitions.Flushes.{FlushesAll, FlushesText, has_output_called as has_output_called_so, is_standard_number};
ghost use Rattle.awk_streams.specs.definitions.Flushes.{is_number_among, all_emptied, without_held};
ghost use Rattle.awk_streams.specs.definitions.Streams.{all_unheld};
ghost use Rattle.awk_streams.specs.support.Flushing.{BringsSome, is_number_at, emptied_at, standard_emptied};

use super::Streams;
use crate::fault::StreamFault;
use crate::named::has_output_called;
use crate::output::{STANDARD_ERROR, STANDARD_OUTPUT};
use awk_world::World;

// The texts that name the standard outputs.
const STANDARD_OUTPUT_TEXT: &[u8] = b"/dev/stdout";

const STANDARD_ERROR_TEXT: &[u8] = b"/dev/stderr";

impl Streams {
    /// Flushes all outputs, writing first what is held back: standard output, standard error, and the
    /// others in the order of their openings. Fails with `Memory` (F1) or `WriteFailed` (F2) where one
    /// can't be flushed; then nothing more is. Takes no memory of its own. (POSIX awk, STDOUT; STDERR;
    /// OUTPUT FILES)
    pub fn flush_all<W: World>(&mut self, world: &mut W) -> Result<(), StreamFault>
        requires open { AreOpen (W.state world.old) self.old }
        requires sound { W.is_logged → AreSound (W.state world.old) self.old }
        ensures main { self.new.main ≡ self.old.main }
        ensures same { OnOk result (self.new
            ≡ record { main = self.old.main; output = []; error = []; named = all_unheld self.old.named }) }
        ensures fault { IfErr result IsOutputFault }
        ensures open { AreOpen (W.state world.new) self.new }
        ensures sound { W.is_logged → AreSound (W.state world.new) self.new }
        ensures told { W.is_logged → FlushesAll (W.state world.old) self.old result (W.state world.new) self.new }
        ensures fails { W.is_logged → IfErr result (λ fault. FailsWith fault (W.state world.old) (W.state world.new)) }
    {
        self.bring(world)
    }

    /// Flushes each output of this text that is open, writing first what it holds back, in the order
    /// of their openings: the files and commands of this name, and for `/dev/stdout` and `/dev/stderr`
    /// the standard outputs, which are always open. Answers whether there is one. Fails with `Memory`
    /// (F1) or `WriteFailed` (F2) where one can't be flushed; then nothing more is. Takes no memory of
    /// its own. (POSIX awk, STDOUT; STDERR; OUTPUT FILES)
    pub fn flush<W: World>(&mut self, world: &mut W, text: &[u8]) -> Result<bool, StreamFault>
        requires open { AreOpen (W.state world.old) self.old }
        requires sound { W.is_logged → AreSound (W.state world.old) self.old }
        ensures is_open { IfOk result (λ is_open. is_open ≡ has_output_called_so text.now self.old) }
        ensures main { self.new.main ≡ self.old.main }
        ensures same { OnOk result (self.new ≡ without_held text.now self.old) }
        ensures fault { IfErr result IsOutputFault }
        ensures open { AreOpen (W.state world.new) self.new }
        ensures sound { W.is_logged → AreSound (W.state world.new) self.new }
        ensures told { W.is_logged → FlushesText text.now (W.state world.old) self.old result (W.state world.new) self.new }
        ensures fails { W.is_logged → IfErr result (λ fault. FailsWith fault (W.state world.old) (W.state world.new)) }
    {
        let is_open = self.has_output_called(text);
        self.bring_standard(world, text)?;
        self.bring_called(world, text)?;
        Ok(is_open)
    }

    // Whether an output of this text is open.
    fn has_output_called(&self, text: &[u8]) -> bool
        ensures { result ≡ has_output_called_so text.now self.now }
    {
        text == STANDARD_OUTPUT_TEXT
            || text == STANDARD_ERROR_TEXT
            || has_output_called(&self.named, text)
    }

    // Writes what is held back and flushes, if this is the text of a standard output.
    fn bring_standard<W: World>(&mut self, world: &mut W, text: &[u8]) -> Result<(), StreamFault>
        requires open { AreOpen (W.state world.old) self.old }
        requires sound { W.is_logged → AreSound (W.state world.old) self.old }
        ensures same { self.new ≡ standard_emptied text.now self.old }
        ensures fault { IfErr result IsOutputFault }
        ensures open { AreOpen (W.state world.new) self.new }
        ensures sound { W.is_logged → AreSound (W.state world.new) self.new }
        ensures told { W.is_logged →
            BringsSome (is_standard_number text.now) (W.state world.old) self.old result (W.state world.new) self.new }
    {
        if text == STANDARD_OUTPUT_TEXT {
            self.output.flush(world, STANDARD_OUTPUT)
        } else if text == STANDARD_ERROR_TEXT {
            self.error.flush(world, STANDARD_ERROR)
        } else {
            Ok(())
        }
    }

    // Writes what the named outputs of this text hold back and flushes them, up to the first failure.
    fn bring_called<W: World>(&mut self, world: &mut W, text: &[u8]) -> Result<(), StreamFault>
        requires open { AreOpen (W.state world.old) self.old }
        requires sound { W.is_logged → AreSound (W.state world.old) self.old }
        ensures main { self.new.main ≡ self.old.main }
        ensures same { OnOk result (self.new ≡ record self.old { named = all_emptied text.now self.old.named }) }
        ensures fault { IfErr result IsOutputFault }
        ensures open { AreOpen (W.state world.new) self.new }
        ensures sound { W.is_logged → AreSound (W.state world.new) self.new }
        ensures told { W.is_logged → BringsSome (is_number_among text.now self.old.named) (W.state world.old) self.old result
            (W.state world.new) self.new }
    {
        for place in 0..self.named.len() {
            self.bring_at(world, place, text)?;
        }
        Ok(())
    }

    // Writes what the stream in this place holds back and flushes it, if it is an output of this text.
    fn bring_at<W: World>(
        &mut self,
        world: &mut W,
        place: usize,
        text: &[u8],
    ) -> Result<(), StreamFault>
        requires place { place < length self.old.named }
        requires open { AreOpen (W.state world.old) self.old }
        requires sound { W.is_logged → AreSound (W.state world.old) self.old }
        ensures same { self.new ≡ record self.old { named = emptied_at place text.now self.old.named } }
        ensures fault { IfErr result IsOutputFault }
        ensures open { AreOpen (W.state world.new) self.new }
        ensures sound { W.is_logged → AreSound (W.state world.new) self.new }
        ensures told { W.is_logged → BringsSome (is_number_at text.now (slice_get self.old.named place)) (W.state world.old)
            self.old result (W.state world.new) self.new }
    {
        if self.named[place].is_output_called(text) {
            self.named[place].flush(world)
        } else {
            Ok(())
        }
    }
}
