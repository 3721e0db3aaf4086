// The system as the outside of a run.
ghost use Rattle.std.specs.Prelude.{◌≡◌, ◌≢◌, ◌≤◌, ◌⊎◌, ℕ, Ok, Err, [], Some, IfOk, OnErr};
ghost use Rattle.std.specs.Prelude.{IsTrue, IsSome, IfSome, option_and_then, true, false, is_some, length, nat_lt, pos, if◌then◌else◌};
ghost use Rattle.std.specs.Str.{IsUtf8};
ghost use Rattle.std.specs.Ordering.{nat_cmp};
ghost use Rattle.std.specs.BTreeMap.{get};
ghost use Rattle.std.specs.Io.KnownBytes.{Keeps, ReadConsumes, WriteAppends};
ghost use Rattle.awk_world.specs.WorldState.{IsFresh, Opens, Closes, SameOpen};
ghost use Rattle.awk_system.specs.definitions.Opened.{is_open_in, is_command, is_command_at, number_at_close};
ghost use Rattle.awk_system.specs.definitions.Commands.{IsCommandNumber};
ghost use Rattle.awk_system.specs.support.StandardOutputs.{standard_outputs_open};

use crate::calls::{fault_of, flush_of, text_of, write_to};
use crate::commands::{start, wait_for};
use crate::files::options_for;
use crate::opened::Opened;
use awk_world::{InputKind, Mode, OUTPUT_BUFFER_SIZE, OutputKind, World, WorldFault};
use std::alloc::Global;
use std::collections::BTreeMap;
use std::fs::{File, Files};
use std::io::{IsTerminal, Read, Write};
use std::process::{Processes, Stdio};

const STANDARD_OUTPUT: u64 = 0;

const STANDARD_ERROR: u64 = 1;

/// The number that the first opening is granted.
const FIRST_OPENED: u64 = 2;

/// The number of a command that can't be started.
const NOT_STARTED: i128 = 127;

/// The name of a file that is standard input.
const STANDARD_INPUT_NAME: &str = "/dev/stdin";

/// The system as the outside of a run: its standard streams, its files, and its commands, which
/// `sh -c` runs (POSIX awk, Input/Output and General Functions). Each call is one of the system's,
/// begun again where a signal interrupts it: nothing is held back here, and nothing read ahead. The
/// world asks that what is printed to standard error or to a terminal be written at once. It is not
/// logged.
///
/// A name or a command to be opened is refused (`Failed`) where it is not UTF-8 or holds a NUL, and
/// where the system refuses it. A command has the standard streams of this process, but for the one
/// that a pipe takes the place of. A closing closes the pipe, waits for the command's end and answers
/// its exit status from 0 to 255, or 256 where it ended without one, as by a signal; the closing of a
/// file answers 0. A run answers in the same way, and 127 where its command can't be started.
#[derive(Drop)]
pub struct SysWorld<
    R: Files<File = File> + Processes + Drop,
    I: Read + Drop,
    O: Write + Drop,
    E: Write + Drop,
> {
    alloc: Global,
    runtime: R,
    stdin: I,
    stdout: O,
    stderr: E,
    /// Whether standard output is a terminal.
    is_terminal: bool,
    opened: BTreeMap<u64, Opened<R::Started>>,
    /// The number of the next opening: above those of all that was opened.
    next: u64,
    ghost named: { 2 ≤ next },
    ghost unused: { (id : ℕ) → next ≤ id → is_some (get nat_cmp opened id) ≡ false },
}

impl<
    R: Files<File = File> + Processes + Drop,
    I: Read + Drop,
    O: Write + Drop,
    E: Write + Drop,
> SysWorld<R, I, O, E> {
    /// The system as it stands before a run: of its streams the two standard outputs are open.
    /// Takes no memory.
    pub fn new(alloc: Global, runtime: R, stdin: I, stdout: O, stderr: E) -> Self
    where
        O: IsTerminal,
        ensures open { (id : ℕ) → is_open_in result.opened id ≡ nat_lt id 2 }
        ensures input { result.stdin ≡ stdin }
        ensures output { result.stdout ≡ stdout }
        ensures error { result.stderr ≡ stderr }
    {
        SysWorld {
            alloc,
            runtime,
            stdin,
            is_terminal: stdout.is_terminal(),
            stdout,
            stderr,
            opened: BTreeMap::new(alloc),
            next: FIRST_OPENED,
        }
    }

    /// Keeps what was opened, and answers its number. `Failed`: no number is left.
    fn keep(&mut self, opened: Opened<R::Started>) -> Result<u64, WorldFault>
        ensures fresh { IfOk result (IsFresh (⟦<SysWorld<R, I, O, E> as World>⟧.state self.old)) }
        ensures opens { IfOk result
            (Opens (⟦<SysWorld<R, I, O, E> as World>⟧.state self.old) (⟦<SysWorld<R, I, O, E> as World>⟧.state self.new)) }
        ensures kept { IfOk result (λ id. get nat_cmp self.new.opened id ≡ Some opened) }
        ensures err { OnErr result
            (SameOpen (⟦<SysWorld<R, I, O, E> as World>⟧.state self.old) (⟦<SysWorld<R, I, O, E> as World>⟧.state self.new)) }
        ensures failed { result ≡ Err WorldFault.Failed → self.old.next ≡ u64.MAX }
    {
        let id = self.next;
        let next = id.checked_add(1).ok_or(WorldFault::Failed)?;
        self.opened
            .insert(id, opened)
            .map_err(|_| WorldFault::Memory)?;
        self.next = next;
        Ok(id)
    }

    /// Puts what was opened in the place that was kept for it.
    fn settle(&mut self, id: u64, opened: Opened<R::Started>)
        requires { IsSome (get nat_cmp self.old.opened id) }
        ensures kept { get nat_cmp self.new.opened id ≡ Some opened }
        ensures open { SameOpen (⟦<SysWorld<R, I, O, E> as World>⟧.state self.old)
            (⟦<SysWorld<R, I, O, E> as World>⟧.state self.new) }
    {
        if let Some(place) = self.opened.get_mut(&id) {
            *place = opened;
        }
    }

    /// Opens a command. Its number is kept before it is started, so that no command runs for which
    /// there is no memory.
    fn open_command(
        &mut self,
        command: &[u8],
        stdin: Stdio,
        stdout: Stdio,
    ) -> Result<u64, WorldFault>
        ensures fresh { IfOk result (IsFresh (⟦<SysWorld<R, I, O, E> as World>⟧.state self.old)) }
        ensures opens { IfOk result
            (Opens (⟦<SysWorld<R, I, O, E> as World>⟧.state self.old) (⟦<SysWorld<R, I, O, E> as World>⟧.state self.new)) }
        ensures err { OnErr result
            (SameOpen (⟦<SysWorld<R, I, O, E> as World>⟧.state self.old) (⟦<SysWorld<R, I, O, E> as World>⟧.state self.new)) }
        ensures command { IfOk result (λ id. is_command_at id self.new.opened ≡ true) }
        ensures no_text { ¬ (IsUtf8 command.now) → result ≡ Err WorldFault.Failed }
    {
        let command = text_of(command)?;
        let id = self.keep(Opened::Unstarted)?;
        match start(&self.runtime, self.alloc, command, stdin, stdout) {
            Ok(child) => {
                self.settle(id, Opened::Command(child));
                Ok(id)
            }
            Err(fault) => {
                let _ = self.opened.remove(&id);
                Err(fault)
            }
        }
    }

    /// Opens a file to be read.
    fn open_reader(&self, name: &[u8]) -> Result<Opened<R::Started>, WorldFault>
        ensures file { IfOk result (λ opened. is_command opened ≡ false) }
        ensures no_text { ¬ (IsUtf8 name.now) → result ≡ Err WorldFault.Failed }
    {
        let path = text_of(name)?;
        if path == STANDARD_INPUT_NAME {
            return Ok(Opened::StandardInput);
        }
        let file = File::open(&self.runtime, path).map_err(fault_of)?;
        Ok(Opened::Input(file))
    }

    /// Whether what is printed to an output is to be seen at once: standard error, and what is a terminal.
    fn is_seen_at_once(&self, id: u64) -> bool
        ensures output { id ≡ 0 → result ≡ self.now.is_terminal }
        ensures error { id ≡ 1 → result ≡ true }
        ensures command { 2 ≤ id → is_command_at id self.now.opened ≡ true → result ≡ false }
    {
        match id {
            STANDARD_OUTPUT => self.is_terminal,
            STANDARD_ERROR => true,
            _ => match self.opened.get(&id) {
                Some(opened) => opened.is_terminal(),
                None => false,
            },
        }
    }

    /// Opens a file to be written.
    fn open_writer(&self, name: &[u8], mode: Mode) -> Result<File, WorldFault>
        ensures { ¬ (IsUtf8 name.now) → result ≡ Err WorldFault.Failed }
    {
        let path = text_of(name)?;
        options_for(mode)
            .open(&self.runtime, path)
            .map_err(fault_of)
    }
}

impl<
    R: Files<File = File> + Processes + Drop,
    I: Read + Drop,
    O: Write + Drop,
    E: Write + Drop,
> World for SysWorld<R, I, O, E> {
    ghost is_logged = { ⊥ };

    ghost state = { λ world. record { is_open = is_open_in world.opened; log = []; failures = [] } };

    ghost standard_open = { λ world id small. standard_outputs_open world.opened id small };

    fn open_input(&mut self, kind: InputKind, name: &[u8]) -> Result<u64, WorldFault>
        ensures fresh { IfOk result (IsFresh (⟦<SysWorld<R, I, O, E> as World>⟧.state self.old)) }
        ensures opens { IfOk result
            (Opens (⟦<SysWorld<R, I, O, E> as World>⟧.state self.old) (⟦<SysWorld<R, I, O, E> as World>⟧.state self.new)) }
        ensures err { OnErr result
            (SameOpen (⟦<SysWorld<R, I, O, E> as World>⟧.state self.old) (⟦<SysWorld<R, I, O, E> as World>⟧.state self.new)) }
        ensures standard { kind ≡ InputKind.Standard →
            IfOk result (λ id. get nat_cmp self.new.opened id ≡ Some Opened.StandardInput) }
        ensures file { kind ≡ InputKind.File → IfOk result (λ id. is_command_at id self.new.opened ≡ false) }
        ensures command { kind ≡ InputKind.Command → IfOk result (λ id. is_command_at id self.new.opened ≡ true) }
        ensures no_text { kind ≢ InputKind.Standard → ¬ (IsUtf8 name.now) → result ≡ Err WorldFault.Failed }
    {
        match kind {
            InputKind::Standard => self.keep(Opened::StandardInput),
            InputKind::File => {
                let opened = self.open_reader(name)?;
                self.keep(opened)
            }
            InputKind::Command => self.open_command(name, Stdio::inherit(), Stdio::piped()),
        }
    }

    fn read(&mut self, id: u64, into: &mut [u8]) -> Result<usize, WorldFault>
        ensures count { IfOk result (λ n. n ≤ length into.old) }
        ensures open { SameOpen (⟦<SysWorld<R, I, O, E> as World>⟧.state self.old)
            (⟦<SysWorld<R, I, O, E> as World>⟧.state self.new) }
        ensures standard { get nat_cmp self.old.opened id ≡ Some Opened.StandardInput →
            ReadConsumes (I.remaining self.old.stdin) (I.remaining self.new.stdin) result into.new }
    {
        match self.opened.get_mut(&id) {
            Some(opened) => opened.read(&mut self.stdin, into),
            None => Err(WorldFault::Failed),
        }
    }

    fn open_output(&mut self, kind: OutputKind, name: &[u8], mode: Mode) -> Result<u64, WorldFault>
        ensures fresh { IfOk result (IsFresh (⟦<SysWorld<R, I, O, E> as World>⟧.state self.old)) }
        ensures opens { IfOk result
            (Opens (⟦<SysWorld<R, I, O, E> as World>⟧.state self.old) (⟦<SysWorld<R, I, O, E> as World>⟧.state self.new)) }
        ensures err { OnErr result
            (SameOpen (⟦<SysWorld<R, I, O, E> as World>⟧.state self.old) (⟦<SysWorld<R, I, O, E> as World>⟧.state self.new)) }
        ensures file { kind ≡ OutputKind.File → IfOk result (λ id. is_command_at id self.new.opened ≡ false) }
        ensures command { kind ≡ OutputKind.Command → IfOk result (λ id. is_command_at id self.new.opened ≡ true) }
        ensures no_text { ¬ (IsUtf8 name.now) → result ≡ Err WorldFault.Failed }
    {
        match kind {
            OutputKind::File => {
                let file = self.open_writer(name, mode)?;
                self.keep(Opened::Output(file))
            }
            OutputKind::Command => self.open_command(name, Stdio::piped(), Stdio::inherit()),
        }
    }

    fn write(&mut self, id: u64, bytes: &[u8]) -> Result<usize, WorldFault>
        ensures count { IfOk result (λ n. n ≤ length bytes.now) }
        ensures open { SameOpen (⟦<SysWorld<R, I, O, E> as World>⟧.state self.old)
            (⟦<SysWorld<R, I, O, E> as World>⟧.state self.new) }
        ensures output { id ≡ 0 → WriteAppends (O.contents self.old.stdout) (O.contents self.new.stdout) result bytes.now }
        ensures error { id ≡ 1 → WriteAppends (E.contents self.old.stderr) (E.contents self.new.stderr) result bytes.now }
    {
        match id {
            STANDARD_OUTPUT => write_to(&mut self.stdout, bytes),
            STANDARD_ERROR => write_to(&mut self.stderr, bytes),
            _ => match self.opened.get_mut(&id) {
                Some(opened) => opened.write(bytes),
                None => Err(WorldFault::Failed),
            },
        }
    }

    fn output_buffer_size(&self, id: u64) -> usize
        ensures output { id ≡ 0 → result ≡ (if self.now.is_terminal then 0 else 65536) }
        ensures error { id ≡ 1 → result ≡ 0 }
        ensures command { 2 ≤ id → is_command_at id self.now.opened ≡ true → result ≡ 65536 }
    {
        if self.is_seen_at_once(id) {
            0
        } else {
            OUTPUT_BUFFER_SIZE
        }
    }

    fn flush(&mut self, id: u64) -> Result<(), WorldFault>
        ensures open { SameOpen (⟦<SysWorld<R, I, O, E> as World>⟧.state self.old)
            (⟦<SysWorld<R, I, O, E> as World>⟧.state self.new) }
        ensures output { Keeps (O.contents self.old.stdout) (O.contents self.new.stdout) }
        ensures error { Keeps (E.contents self.old.stderr) (E.contents self.new.stderr) }
    {
        match id {
            STANDARD_OUTPUT => flush_of(&mut self.stdout),
            STANDARD_ERROR => flush_of(&mut self.stderr),
            _ => Ok(()),
        }
    }

    fn close(&mut self, id: u64) -> i128
        requires open { IsTrue ((⟦<SysWorld<R, I, O, E> as World>⟧.state self.old).is_open id) }
        requires opened { 2 ≤ id }
        ensures closes { Closes (⟦<SysWorld<R, I, O, E> as World>⟧.state self.old)
            (⟦<SysWorld<R, I, O, E> as World>⟧.state self.new) id }
        ensures number { IfSome (option_and_then number_at_close (get nat_cmp self.old.opened id)) (λ number. result ≡ number) }
        ensures command { IsCommandNumber result }
    {
        match self.opened.remove(&id) {
            Some(opened) => opened.close(),
            None => 0,
        }
    }

    fn run(&mut self, command: &[u8]) -> Result<i128, WorldFault>
        ensures open { SameOpen (⟦<SysWorld<R, I, O, E> as World>⟧.state self.old)
            (⟦<SysWorld<R, I, O, E> as World>⟧.state self.new) }
        ensures never_failed { result ≡ Err WorldFault.Failed → ⊥ }
        ensures number { IfOk result IsCommandNumber }
        ensures no_text { ¬ (IsUtf8 command.now) → result ≡ Ok (pos 127) }
    {
        let Ok(command) = text_of(command) else {
            return Ok(NOT_STARTED);
        };
        let (stdin, stdout) = (Stdio::inherit(), Stdio::inherit());
        match start(&self.runtime, self.alloc, command, stdin, stdout) {
            Ok(child) => Ok(wait_for(child)),
            Err(WorldFault::Failed) => Ok(NOT_STARTED),
            Err(WorldFault::Memory) => Err(WorldFault::Memory),
        }
    }
}
