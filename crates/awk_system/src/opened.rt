// What stands open under a number.
ghost use Rattle.std.specs.Prelude.{◌≡◌, ◌≤◌, IfOk, IfSome, true, false, length};
ghost use Rattle.std.specs.Io.KnownBytes.{ReadConsumes};
ghost use Rattle.awk_system.specs.definitions.Commands.{IsCommandNumber};
ghost use Rattle.awk_system.specs.definitions.Opened.{is_command, number_at_close};

use crate::calls::{read_from, write_to};
use crate::commands::{read_output, wait_for, write_input};
use awk_world::WorldFault;
use std::fs::File;
use std::io::{IsTerminal, Read};
use std::process::{Child, OpenProcess};

/// What stands open under a number.
#[derive(Drop)]
pub enum Opened<P: OpenProcess> {
    StandardInput,
    Input(File),
    Output(File),
    /// A command that is to be started.
    Unstarted,
    Command(Child<P>),
}

impl<P: OpenProcess + Drop> Opened<P> {
    /// One read. `Failed`: it is no input.
    pub(crate) fn read<I: Read>(
        &mut self,
        stdin: &mut I,
        into: &mut [u8],
    ) -> Result<usize, WorldFault>
        ensures count { IfOk result (λ n. n ≤ length into.old) }
        ensures standard { self.old ≡ Opened.StandardInput →
            ReadConsumes (I.remaining stdin.old) (I.remaining stdin.new) result into.new }
    {
        match self {
            Opened::StandardInput => read_from(stdin, into),
            Opened::Input(file) => read_from(file, into),
            Opened::Command(child) => read_output(child, into),
            Opened::Output(_) | Opened::Unstarted => Err(WorldFault::Failed),
        }
    }

    /// One write. `Failed`: it is no output.
    pub(crate) fn write(&mut self, bytes: &[u8]) -> Result<usize, WorldFault>
        ensures { IfOk result (λ n. n ≤ length bytes.now) }
    {
        match self {
            Opened::Output(file) => write_to(file, bytes),
            Opened::Command(child) => write_input(child, bytes),
            Opened::StandardInput | Opened::Input(_) | Opened::Unstarted => Err(WorldFault::Failed),
        }
    }

    /// Whether it is an output on a terminal.
    pub(crate) fn is_terminal(&self) -> bool
        ensures { is_command self.now ≡ true → result ≡ false }
    {
        match self {
            Opened::Output(file) => file.is_terminal(),
            Opened::StandardInput | Opened::Input(_) | Opened::Unstarted | Opened::Command(_) =>
                false,
        }
    }

    /// Closes it, and answers the number of a command, once that has ended, and else 0.
    pub(crate) fn close(self) -> i128
        ensures number { IfSome (number_at_close self) (λ number. result ≡ number) }
        ensures command { IsCommandNumber result }
    {
        match self {
            Opened::Command(child) => wait_for(child),
            Opened::StandardInput | Opened::Input(_) | Opened::Output(_) | Opened::Unstarted => 0,
        }
    }
}
