// Closings, and the end of a run.
ghost use Rattle.std.specs.Prelude.{◌≡◌, ◌<◌, ◌≤◌, List, ℕ, ℤ, [], length, None, IsTrue, IfErr, OnOk, OnErr, pos, negsuc, if◌then◌else◌};
ghost use Rattle.awk_world.specs.definitions.WorldState.{FailsNow};
ghost use Rattle.awk_streams.specs.definitions.Outputs.{IsOutputFault, FailsWith};
ghost use Rattle.awk_streams.specs.definitions.Streams.{AreOpen, AreSound, held_of, name_of};
ghost use Rattle.awk_streams.specs.definitions.Commands.{ClosesStream, ClosesEach, ClosesText, BringsEach, Finishes, names_called, all_names};
ghost use Rattle.awk_streams.specs.definitions.Streams.{all_unheld};
ghost use Rattle.awk_streams.specs.support.Held.{HoldsNothing};
ghost use Rattle.awk_streams.specs.support.Brings.{BringsHeld, AreFlushedBut};
ghost use Rattle.awk_streams.specs.support.Closes.{ClosesAt, without_place};

use super::Streams;
use crate::fault::StreamFault;
use crate::named::{bring_each, find_called};
use crate::output::{STANDARD_ERROR, STANDARD_OUTPUT};
use awk_world::World;

// A command's closing gives the world's number, and a file's 0.
fn closing_answer(is_command: bool, answer: i128) -> i128
    ensures { result ≡ (if is_command then answer else pos 0) }
{
    if is_command { answer } else { 0 }
}

impl Streams {
    /// Closes each named stream of this text, in the order of their openings, once all outputs are
    /// flushed. Answers for the last one: 0 for a file, the world's number for a command; -1 where none
    /// is open. Fails with `Memory` (F1) or `WriteFailed` (F2) where a flush fails; then nothing is
    /// closed. Takes no memory of its own. (POSIX awk, Input/Output and General Functions: close)
    pub fn close<W: World>(&mut self, world: &mut W, text: &[u8]) -> Result<i128, StreamFault>
        requires open { AreOpen (W.state world.old) self.old }
        requires sound { W.is_logged → AreSound (W.state world.old) self.old }
        ensures main { self.new.main ≡ self.old.main }
        ensures fault { IfErr result IsOutputFault }
        ensures open { AreOpen (W.state world.new) self.new }
        ensures sound { W.is_logged → AreSound (W.state world.new) self.new }
        ensures told { W.is_logged → ClosesText text.now (W.state world.old) self.old result (W.state world.new) self.new }
        ensures fails { W.is_logged → IfErr result (λ fault. FailsWith fault (W.state world.old) (W.state world.new)) }
    {
        if find_called(&self.named, text).is_none() {
            return Ok(-1);
        }
        self.bring(world)?;
        Ok(self.close_called(world, text))
    }

    /// Ends a run: flushes all outputs, standard output, standard error and the named ones in the order
    /// of their openings, going on behind a failure, though an output whose write failed gets no more
    /// bytes; then closes the main input and the named streams, in the order of their openings, also
    /// behind a failure. The first failure is answered, `Memory` (F1) or `WriteFailed` (F2). Takes no
    /// memory of its own.
    pub fn finish<W: World>(&mut self, world: &mut W) -> Result<(), StreamFault>
        requires open { AreOpen (W.state world.old) self.old }
        requires sound { W.is_logged → AreSound (W.state world.old) self.old }
        ensures none { self.new ≡ record { main = None; output = []; error = []; named = [] } }
        ensures fault { IfErr result IsOutputFault }
        ensures open { AreOpen (W.state world.new) self.new }
        ensures sound { W.is_logged → AreSound (W.state world.new) self.new }
        ensures told { W.is_logged → Finishes (W.state world.old) self.old result (W.state world.new) self.new }
    {
        let brought = self.bring_each(world);
        self.close_main(world);
        self.close_all(world);
        brought
    }

    // Writes what is held back and flushes all outputs, going on behind a failure; the first one is
    // answered.
    fn bring_each<W: World>(&mut self, world: &mut W) -> Result<(), StreamFault>
        requires open { AreOpen (W.state world.old) self.old }
        requires sound { W.is_logged → AreSound (W.state world.old) self.old }
        ensures main { self.new.main ≡ self.old.main }
        ensures same { all_unheld self.new.named ≡ all_unheld self.old.named }
        ensures empty { HoldsNothing self.new }
        ensures fault { IfErr result IsOutputFault }
        ensures open { AreOpen (W.state world.new) self.new }
        ensures sound { W.is_logged → AreSound (W.state world.new) self.new }
        ensures told { W.is_logged → BringsHeld (W.state world.old) (held_of self.old) result (W.state world.new) (held_of self.new) }
        ensures flushed { OnOk result (W.is_logged → AreFlushedBut [] (W.state world.new).log) }
        ensures each { W.is_logged → BringsEach (held_of self.old) (W.state world.old) result (W.state world.new) }
    {
        let output = self.output.flush(world, STANDARD_OUTPUT);
        let error = self.error.flush(world, STANDARD_ERROR);
        let named = bring_each(&mut self.named, world);
        output.and(error).and(named)
    }

    // Closes the stream in a place, which holds nothing back. Answers 0 for a file, the world's number
    // for a command.
    fn close_at<W: World>(&mut self, world: &mut W, place: usize) -> i128
        requires place { place < length self.old.named }
        requires empty { HoldsNothing self.old }
        requires open { AreOpen (W.state world.old) self.old }
        requires sound { W.is_logged → AreSound (W.state world.old) self.old }
        ensures same { self.new ≡ without_place place self.old }
        ensures empty { HoldsNothing self.new }
        ensures open { AreOpen (W.state world.new) self.new }
        ensures sound { W.is_logged → AreSound (W.state world.new) self.new }
        ensures told { W.is_logged → ClosesAt place (W.state world.old) self.old result (W.state world.new) self.new }
    {
        let stream = self.named.remove(place);
        let answer = world.close(stream.id());
        closing_answer(stream.is_command(), answer)
    }

    // Closes each stream of this text, of which none holds anything back, and answers for the last one;
    // -1 where there is none.
    fn close_called<W: World>(&mut self, world: &mut W, text: &[u8]) -> i128
        requires empty { HoldsNothing self.old }
        requires open { AreOpen (W.state world.old) self.old }
        requires sound { W.is_logged → AreSound (W.state world.old) self.old }
        ensures main { self.new.main ≡ self.old.main }
        ensures open { AreOpen (W.state world.new) self.new }
        ensures sound { W.is_logged → AreSound (W.state world.new) self.new }
        ensures told { W.is_logged → ClosesEach (names_called text.now self.old.named) (negsuc 0) (W.state world.old) self.old result (W.state world.new) self.new }
    {
        let mut answer = -1;
        while let Some(place) = find_called(&self.named, text) {
            answer = self.close_at(world, place);
        }
        answer
    }

    // Closes all named streams, of which none holds anything back, in the order of their openings.
    fn close_all<W: World>(&mut self, world: &mut W)
        requires empty { HoldsNothing self.old }
        requires open { AreOpen (W.state world.old) self.old }
        requires sound { W.is_logged → AreSound (W.state world.old) self.old }
        ensures none { self.new ≡ record self.old { named = [] } }
        ensures open { AreOpen (W.state world.new) self.new }
        ensures sound { W.is_logged → AreSound (W.state world.new) self.new }
        ensures told { W.is_logged → (answer : ℤ) × ClosesEach (all_names self.old.named) (pos 0) (W.state world.old) self.old answer (W.state world.new) self.new }
    {
        while !self.named.is_empty() {
            self.close_at(world, 0);
        }
    }
}
