//! awk of POSIX.1-2017 over whole numbers and byte texts: the program.
#![tactic(auto)]

ghost use Rattle.awk_command.specs.CommandLine.{texts};
ghost use Rattle.awk_command.specs.Invocation.{RunsUtility};

pub use awk_command::main_words;
use awk_command::{given_environment, given_words};
use awk_journal::{AtStart, Logged};
use awk_run::{Assignment, Fault, fault_line};
use awk_system::{HeldDescriptors, SysWorld};
use awk_world::World;
use std::alloc::Global;
use std::env::Env;
use std::fs::{File, Files};
use std::io::{self, Read, Stderr, Stdin, Stdout, Write};
use std::process::{ExitCode, Processes};

/// The status where there is no memory to begin.
const NOT_RUN: u8 = 2;

/// The program over the system: does what `main_words` does, and answers its exit status. Whatever the
/// system answers, the calls that are made of it are, in their order, those that the words and the
/// program mean. (POSIX awk, the awk utility)
pub fn main_words_in_system<
    R: Files<File = File> + Processes + Drop,
    I: Read + Drop,
    O: Write + Drop,
    E: Write + Drop,
>(
    alloc: Global,
    words: &[Vec<u8>],
    environ: Vec<Assignment>,
    system: &mut Logged<SysWorld<R, I, O, E>, AtStart>,
) -> u8
    ensures { RunsUtility (Unit {0}) (texts words.now) environ.items
        (⟦<Logged<SysWorld<R, I, O, E>, AtStart> as World>⟧.state system.old) result
        (⟦<Logged<SysWorld<R, I, O, E>, AtStart> as World>⟧.state system.new) }
{
    main_words(alloc, words, environ, system)
}

/// The status of the program with what the process was started with. Fails only for want of memory.
fn serve<R: Env + Files<File = File> + Processes + AllocGlobal>(
    rt: &R,
    stdin: Stdin,
    stdout: Stdout,
    stderr: Stderr,
) -> io::Result<u8> {
    let alloc = rt.alloc();
    let held = HeldDescriptors::new(rt);
    let words = given_words(rt, alloc)?;
    let environ = given_environment(rt, alloc)?;
    let world = SysWorld::new(alloc, rt, stdin, stdout, stderr);
    let mut system = Logged::<_, AtStart>::new(world);
    let status = main_words_in_system(alloc, &words, environ, &mut system);
    drop(held);
    drop(system.into_world());
    Ok(status)
}

fn main(rt: HostRuntime) -> ExitCode {
    match serve(&rt, rt.stdin(), rt.stdout(), rt.stderr()) {
        Ok(status) => ExitCode::from(status),
        Err(_) => {
            let line = fault_line(Fault::OutOfMemory);
            let _ = eprintln!(rt; "{line}");
            ExitCode::from(NOT_RUN)
        }
    }
}
