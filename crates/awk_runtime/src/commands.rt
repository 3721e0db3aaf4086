// Closings, flushes and runs of commands.

ghost use Rattle.std.specs.Prelude.{Bool, OnOk};
ghost use Rattle.awk_value.specs.Values.{str_of};
ghost use Rattle.awk_streams.specs.Commands.{BringsAll};
ghost use Rattle.awk_streams.specs.Flushes.{FlushesCalled};
ghost use Rattle.awk_semantics.specs.Streams.{close_named, flush_all, flush_named, run_command};
ghost use Rattle.awk_runtime.specs.support.Simulation.{IsReady, Follows};

use crate::runtime::Runtime;
use awk_semantics::Halt;
use awk_streams::World;
use awk_value::{Value, text_of};

impl Runtime {
    /// Closes the files and commands of a name, once all outputs are flushed. Gives 0 for a file, the world's number for a
    /// command, and -1 where none is open. The faults are F1 and F2. (POSIX awk, Input/Output and General Functions: close)
    pub fn close_named<W: World>(&mut self, world: &mut W, name: &Value) -> Result<i128, Halt>
        requires ready { IsReady W.is_logged (W.state world.old) self.old.streams }
        ensures ready { IsReady W.is_logged (W.state world.new) self.new.streams }
        ensures follows { Follows W.is_logged (close_named (str_of name.now)) self.old (W.state world.old) self.new
            (W.state world.new) result }
    {
        let name = text_of(self.alloc, name)?;
        Ok(self.streams.close(world, name.as_slice())?)
    }

    /// Flushes all outputs: each has then received what was printed to it. The faults are F1 and F2. (POSIX awk, STDOUT; STDERR;
    /// OUTPUT FILES)
    pub fn flush_all<W: World>(&mut self, world: &mut W) -> Result<(), Halt>
        requires ready { IsReady W.is_logged (W.state world.old) self.old.streams }
        ensures ready { IsReady W.is_logged (W.state world.new) self.new.streams }
        ensures follows { Follows W.is_logged flush_all self.old (W.state world.old) self.new (W.state world.new) result }
        ensures brings { OnOk result (W.is_logged → BringsAll (W.state world.old) self.old.streams (W.state world.new) self.new.streams) }
    {
        Ok(self.streams.flush_all(world)?)
    }

    /// Flushes each open output of a name, where `/dev/stdout` and `/dev/stderr` are the standard outputs: it has then received
    /// what was printed to it. Gives 0, and -1 where none is open. The faults are F1 and F2. (POSIX awk, STDOUT; STDERR; OUTPUT
    /// FILES)
    pub fn flush_named<W: World>(&mut self, world: &mut W, name: &Value) -> Result<i128, Halt>
        requires ready { IsReady W.is_logged (W.state world.old) self.old.streams }
        ensures ready { IsReady W.is_logged (W.state world.new) self.new.streams }
        ensures follows { Follows W.is_logged (flush_named (str_of name.now)) self.old (W.state world.old) self.new
            (W.state world.new) result }
        ensures flushes { OnOk result (W.is_logged → (is_open : Bool) × FlushesCalled (str_of name.now) (W.state world.old)
            self.old.streams is_open (W.state world.new) self.new.streams) }
    {
        let name = text_of(self.alloc, name)?;
        if self.streams.flush(world, name.as_slice())? {
            Ok(0)
        } else {
            Ok(-1)
        }
    }

    /// Runs a command to its end, once all outputs are flushed, and gives the world's number. The faults are F1 and F2. (POSIX
    /// awk, Input/Output and General Functions: system)
    pub fn run_command<W: World>(&mut self, world: &mut W, command: &Value) -> Result<i128, Halt>
        requires ready { IsReady W.is_logged (W.state world.old) self.old.streams }
        ensures ready { IsReady W.is_logged (W.state world.new) self.new.streams }
        ensures follows { Follows W.is_logged (run_command (str_of command.now)) self.old (W.state world.old) self.new
            (W.state world.new) result }
    {
        let command = text_of(self.alloc, command)?;
        Ok(self.streams.run(world, command.as_slice())?)
    }
}
