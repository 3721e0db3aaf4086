// The calls by which a run reaches the outside, and what they leave in the log.
ghost use Rattle.std.specs.Prelude.{◌≡◌, ◌≤◌, ◌<◌, ℕ, true, [], Some, IfOk, OnErr, length, IsTrue};
ghost use Rattle.awk_world.specs.declared.world.InputKind.TheVariants.{Standard};
ghost use Rattle.awk_world.specs.declared.world.OutputKind.TheVariants.{Command as OutputCommand};
ghost use Rattle.awk_world.specs.declared.world.Mode.TheVariants.{Truncate};
ghost use Rattle.awk_world.specs.definitions.Log.{input_opening, output_opening, reading, writing, flushing, Did, Closed, running};
ghost use Rattle.awk_world.specs.definitions.WorldState.{WorldState, Logs, IsFresh, Opens, Closes, SameOpen};

use std::alloc::AllocError;

/// What an input reads: standard input, the file of a name, or what a command writes.
#[derive(Clone, Copy, Debug, PartialEq, Eq)]
pub enum InputKind {
    Standard,
    File,
    Command,
}

/// What an output writes to: the file of a name, or a command's standard input.
#[derive(Clone, Copy, Debug, PartialEq, Eq)]
pub enum OutputKind {
    File,
    Command,
}

/// The size of the buffer that a run keeps for an output, unless the world asks for less.
pub const OUTPUT_BUFFER_SIZE: usize = 65_536;

/// Whether an output file starts empty or goes on behind what it holds.
#[derive(Clone, Copy, Debug, PartialEq, Eq)]
pub enum Mode {
    Truncate,
    Append,
}

/// Why a call gave nothing: memory was refused, or the outside failed.
#[derive(Clone, Copy, Debug, PartialEq, Eq)]
pub enum WorldFault {
    Memory,
    Failed,
}

impl From<AllocError> for WorldFault {
    ghost use Rattle.awk_world.specs.declared.world.WorldFault.TheVariants.{Memory};

    ghost from_gives = { λ _ e. e ≡ Memory };

    fn from(_: AllocError) -> Self {
        WorldFault::Memory
    }
}

/// The outside of a run. Streams have numbers; 0 and 1 are standard output and standard error,
/// which are always open.
///
/// What is known of a world is which of its streams are open, the log of its openings, readings,
/// writings, flushes, closings and runs, and its failures: each call that answered `Memory`, and each
/// write or flush that failed, with how long the log was then. Such calls are not in the log. A world
/// that is not logged says only which streams are open.
pub trait World {
    /// Whether the log and the failures are those of the calls.
    ghost is_logged: { Type 0 };

    /// What is known of the world.
    ghost state: { Self → WorldState };

    /// Which reference leads to the world, where it is lent. No call changes it.
    ghost place: { Self → ℕ } = { λ _. 0 };

    /// Opens an input and answers its number; standard input has no name. `Failed`: refused.
    fn open_input(&mut self, kind: InputKind, name: &[u8]) -> Result<u64, WorldFault>
        requires { kind ≡ Standard → name.now ≡ [] }
        ensures place { place self.new ≡ place self.old }
        ensures fresh { IfOk result (IsFresh (state self.old)) }
        ensures opens { IfOk result (Opens (state self.old) (state self.new)) }
        ensures err { OnErr result (SameOpen (state self.old) (state self.new)) }
        ensures logs { is_logged → Logs (input_opening kind name.now result) (state self.old) (state self.new) };

    /// Reads the next bytes to the front of the slice, and answers how many; 0 bytes into a slice
    /// with room are the end. `Failed`: the input broke.
    fn read(&mut self, id: u64, into: &mut [u8]) -> Result<usize, WorldFault>
        requires { IsTrue ((state self.old).is_open id) }
        ensures place { place self.new ≡ place self.old }
        ensures count { IfOk result (λ n. n ≤ length into.old) }
        ensures open { SameOpen (state self.old) (state self.new) }
        ensures logs { is_logged → Logs (reading id result into.new) (state self.old) (state self.new) };

    /// Opens an output and answers its number; a command's is truncated. `Failed`: refused.
    fn open_output(&mut self, kind: OutputKind, name: &[u8], mode: Mode) -> Result<u64, WorldFault>
        requires { kind ≡ OutputCommand → mode ≡ Truncate }
        ensures place { place self.new ≡ place self.old }
        ensures fresh { IfOk result (IsFresh (state self.old)) }
        ensures opens { IfOk result (Opens (state self.old) (state self.new)) }
        ensures err { OnErr result (SameOpen (state self.old) (state self.new)) }
        ensures logs { is_logged → Logs (output_opening kind name.now mode result) (state self.old) (state self.new) };

    /// Writes a beginning of the bytes, and answers how many; none of some bytes is a failure too.
    fn write(&mut self, id: u64, bytes: &[u8]) -> Result<usize, WorldFault>
        requires { IsTrue ((state self.old).is_open id) }
        ensures place { place self.new ≡ place self.old }
        ensures count { IfOk result (λ n. n ≤ length bytes.now) }
        ensures open { SameOpen (state self.old) (state self.new) }
        ensures logs { is_logged → Logs (writing id result bytes.now) (state self.old) (state self.new) };

    /// How many bytes of this output a run may hold back before it writes them: less than
    /// `OUTPUT_BUFFER_SIZE` where what is printed is to be seen sooner, as on a terminal. It is a wish,
    /// on which no clause rests. A run asks for it where it prints to an output that holds nothing back
    /// and has no room, and not at each print.
    fn output_buffer_size(&self, _id: u64) -> usize {
        OUTPUT_BUFFER_SIZE
    }

    /// Sees that what was written reaches its receiver.
    fn flush(&mut self, id: u64) -> Result<(), WorldFault>
        requires { IsTrue ((state self.old).is_open id) }
        ensures place { place self.new ≡ place self.old }
        ensures open { SameOpen (state self.old) (state self.new) }
        ensures logs { is_logged → Logs (flushing id result) (state self.old) (state self.new) };

    /// Closes a stream that was opened, and answers the number of a command.
    fn close(&mut self, id: u64) -> i128
        requires open { IsTrue ((state self.old).is_open id) }
        requires opened { 2 ≤ id }
        ensures place { place self.new ≡ place self.old }
        ensures closes { Closes (state self.old) (state self.new) id }
        ensures logs { is_logged → Logs (Did (Closed id result)) (state self.old) (state self.new) };

    /// Runs a command to its end, and answers its number. Never `Failed`: a command that can't be
    /// started has a number too.
    fn run(&mut self, command: &[u8]) -> Result<i128, WorldFault>
        ensures place { place self.new ≡ place self.old }
        ensures open { SameOpen (state self.old) (state self.new) }
        ensures never_failed { result ≡ Err WorldFault.Failed → ⊥ }
        ensures logs { is_logged → Logs (running command.now result) (state self.old) (state self.new) };

    /// The two standard outputs are always open.
    ghost standard_open: { (w : Self) (id : ℕ) → id < 2 → (state w).is_open id ≡ true };
}
