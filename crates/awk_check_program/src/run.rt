// A run of the awk over the system, with what is told of it.

ghost use Rattle.awk_command.specs.CommandLine.{texts};
ghost use Rattle.awk_check.specs.definitions.Runs.{RunsAndTells};

use crate::failure::Failure;
use awk_check::run_and_tell;
use awk_command::given_environment;
use awk_journal::{AtStart, Logged};
use awk_run::Assignment;
use awk_system::{HeldDescriptors, SysWorld};
use awk_world::World;
use std::alloc::Global;
use std::env::Env;
use std::fs::{File, Files};
use std::io::{Read, Stderr, Stdin, Stdout, Write};
use std::process::Processes;

/// The standard streams of the process.
#[derive(Drop)]
pub(crate) struct StandardStreams {
    pub(crate) stdin: Stdin,
    pub(crate) stdout: Stdout,
    pub(crate) stderr: Stderr,
}

/// The run over the system: does what `run_and_tell` does, and answers its exit status. Whatever the system answers, the calls
/// that are made of it are those of the awk, and behind them none but writes to standard error.
pub fn run_in_system<
    R: Files<File = File> + Processes + Drop,
    I: Read + Drop,
    O: Write + Drop,
    E: Write + Drop,
>(
    alloc: Global,
    words: &[Vec<u8>],
    environ: Vec<Assignment>,
    is_counting: bool,
    system: &mut Logged<SysWorld<R, I, O, E>, AtStart>,
) -> u8
    ensures { RunsAndTells (Unit {0}) (texts words.now) environ.items
        (⟦<Logged<SysWorld<R, I, O, E>, AtStart> as World>⟧.state system.old) result
        (⟦<Logged<SysWorld<R, I, O, E>, AtStart> as World>⟧.state system.new) }
{
    run_and_tell(alloc, words, environ, is_counting, system)
}

/// Runs what words of awk ask for, and tells of the run.
pub(crate) fn run_words<R: Env + Files<File = File> + Processes + AllocGlobal>(
    rt: &R,
    words: &[Vec<u8>],
    is_counting: bool,
    streams: StandardStreams,
) -> Result<u8, Failure> {
    let alloc = rt.alloc();
    let held = HeldDescriptors::new(rt);
    let environ = given_environment(rt, alloc)?;
    let world = SysWorld::new(alloc, rt, streams.stdin, streams.stdout, streams.stderr);
    let mut system = Logged::<_, AtStart>::new(world);
    let status = run_in_system(alloc, words, environ, is_counting, &mut system);
    drop(held);
    drop(system.into_world());
    Ok(status)
}
