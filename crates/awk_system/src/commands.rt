// Commands, as the shell runs them, and the numbers that tell how they ended.

ghost use Rattle.std.specs.Prelude.{◌≡◌, ◌∷◌, ◌≤◌, ℕ, List, [], None, Some, IfOk, IfSome, codes, false, length};
ghost use Rattle.std.specs.Process.{command_program, command_args, command_arg0, command_var, command_dir, clears_env};
ghost use Rattle.awk_system.specs.definitions.Commands.{IsCommandNumber, number_of_status, number_told};

use crate::calls::{fault_of, read_from, write_to};
use awk_world::WorldFault;
use std::alloc::{AllocError, Global};
use std::os::unix::process::CommandExt;
use std::process::{Child, Command, ExitStatus, OpenProcess, Processes, Stdio};

const SHELL: &str = "/bin/sh";

/// The name by which the shell is called.
const SHELL_NAME: &str = "sh";

/// The number of a command that ended without an exit status, as by a signal.
const NO_STATUS: i128 = 256;

/// The shell that is to run a command, with the environment and in the directory of this process.
fn shell(alloc: Global, command: &str) -> Result<Command, AllocError>
    ensures program { IfOk result (λ shell. command_program shell ≡ codes "/bin/sh") }
    ensures name { IfOk result (λ shell. command_arg0 shell ≡ Some (codes "sh")) }
    ensures args { IfOk result (λ shell. command_args shell ≡ codes "-c" ∷ command.now ∷ []) }
    ensures inherits { IfOk result (λ shell. clears_env shell ≡ false) }
    ensures environment { IfOk result (λ shell. (name : List ℕ) → command_var shell name ≡ None) }
    ensures directory { IfOk result (λ shell. command_dir shell ≡ None) }
{
    let mut shell = Command::new(alloc, SHELL)?;
    shell.arg("-c")?.arg(command)?.arg0(SHELL_NAME)?;
    Ok(shell)
}

/// Starts a command. `Failed`: it can't be started, as where it holds a NUL.
pub(crate) fn start<R: Processes>(
    processes: &R,
    alloc: Global,
    command: &str,
    stdin: Stdio,
    stdout: Stdio,
) -> Result<Child<R::Started>, WorldFault> {
    let mut shell = shell(alloc, command)?;
    shell
        .stdin(stdin)
        .stdout(stdout)
        .spawn(processes)
        .map_err(fault_of)
}

/// One read of what a command writes.
pub(crate) fn read_output<P: OpenProcess>(
    child: &mut Child<P>,
    into: &mut [u8],
) -> Result<usize, WorldFault>
    ensures { IfOk result (λ n. n ≤ length into.old) }
{
    match &mut child.stdout {
        Some(stdout) => read_from(stdout, into),
        None => Err(WorldFault::Failed),
    }
}

/// One write to what a command reads.
pub(crate) fn write_input<P: OpenProcess>(
    child: &mut Child<P>,
    bytes: &[u8],
) -> Result<usize, WorldFault>
    ensures { IfOk result (λ n. n ≤ length bytes.now) }
{
    match &mut child.stdin {
        Some(stdin) => write_to(stdin, bytes),
        None => Err(WorldFault::Failed),
    }
}

/// The number that tells how a command ended: its exit status, or 256 where it has none.
fn number_of(status: ExitStatus) -> i128
    ensures { result ≡ number_of_status status }
{
    status.code().map_or(NO_STATUS, i128::from)
}

/// Waits for the end of a command, and answers its number. Its pipes are closed first, so that one
/// that reads to the end of its input, or that writes more than is read, comes to its end.
pub(crate) fn wait_for<P: OpenProcess + Drop>(mut child: Child<P>) -> i128
    ensures number { IsCommandNumber result }
    ensures told { IfSome (number_told child) (λ number. result ≡ number) }
{
    drop(child.stdout.take());
    match child.wait() {
        Ok(status) => number_of(status),
        Err(_) => NO_STATUS,
    }
}
