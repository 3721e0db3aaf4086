// Runs of commands.
ghost use Rattle.std.specs.Prelude.{◌≡◌, IfErr, OnErr};
ghost use Rattle.awk_world.specs.definitions.WorldState.{FailsNow};
ghost use Rattle.awk_streams.specs.definitions.Outputs.{IsOutputFault, FailsWith};
ghost use Rattle.awk_streams.specs.definitions.Streams.{AreOpen, AreSound};
ghost use Rattle.awk_streams.specs.definitions.Commands.{RunsCommand};

use super::Streams;
use crate::fault::StreamFault;
use crate::output::run_answer;
use awk_world::World;

impl Streams {
    /// Runs a command to its end, once all outputs are flushed, and answers the world's number. Fails
    /// with `Memory` (F1), or `WriteFailed` (F2) where a flush fails; then nothing is run. Takes no
    /// memory of its own. (POSIX awk, Input/Output and General Functions: system)
    pub fn run<W: World>(&mut self, world: &mut W, command: &[u8]) -> Result<i128, StreamFault>
        requires open { AreOpen (W.state world.old) self.old }
        requires sound { W.is_logged → AreSound (W.state world.old) self.old }
        ensures main { self.new.main ≡ self.old.main }
        ensures fault { IfErr result IsOutputFault }
        ensures open { AreOpen (W.state world.new) self.new }
        ensures sound { W.is_logged → AreSound (W.state world.new) self.new }
        ensures told { W.is_logged → RunsCommand command.now (W.state world.old) self.old result (W.state world.new) self.new }
        ensures fails { W.is_logged → IfErr result (λ fault. FailsWith fault (W.state world.old) (W.state world.new)) }
    {
        self.bring(world)?;
        run_answer(world.run(command))
    }
}
