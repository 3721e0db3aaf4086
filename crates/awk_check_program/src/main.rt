//! awk-check: whether a program of awk is refused, where and why, and what it may not mean; and where a run of it ends.
#![tactic(auto)]

mod asked;
mod checks;
mod failure;
mod files;
mod operands;
mod run;
mod usage;
mod version;

use crate::asked::{Asked, Mode, read_asked};
use crate::checks::{Checks, program_text};
use crate::failure::Failure;
use crate::files::ProgramText;
pub use crate::run::run_in_system;
use crate::run::{StandardStreams, run_words};
use crate::usage::usage_fault;
use crate::version::{VERSION, origin};
use awk_check::{Stage, add_visible, write_findings};
use awk_command::{CommandFault, CommandLine, ProgramSource, given_words, read_command_line};
use awk_sarif::sarif_of;
use std::alloc::{AllocError, Global};
use std::env::Env;
use std::fs::{File, Files};
use std::io::{self, Write};
use std::process::{ExitCode, Processes};

/// The status where nothing was checked.
const NOT_CHECKED: u8 = 2;

const USAGE: &str =
    "usage: awk-check [--format lines|sarif] [--pieces|--each|--all] [-F sep] [-v name=text].. [-f file.. | program] [operand..]
       awk-check [--format lines|sarif] --files file.. | --shell file..
       awk-check --run|--count [-F sep] [-v name=text].. [-L n] [-f file.. | program] [operand..]
       awk-check --help | --version";

const HELP: &str =
    "Tells where and why a program of awk is refused, and what it may not mean; runs nothing but with --run and --count.
  -F sep          the separator of fields, as for awk
  -v name=text    an assignment, as for awk
  -f file         a file of the program; - is standard input
  --pieces        asks whether the program may run on pieces of its input
  --each          prints the program for each piece of an input, of one that sums up
  --all           prints the program for what those print, joined in order
  --files file..  files, each of which is a program of its own
  --shell file..  shell scripts and makefiles with programs in them
  --run           runs it as awk does, and tells where in it a fault ends the run
  --count         does so, and tells how often each statement ran
  --format sarif  tells it as a log of SARIF, which is JSON
  --version       prints the version, and of what it was built
  --help          prints this
The status is 0 where nothing is told, 1 where something is, and 2 of a program that is refused;
of several the greatest. With --pieces, --each and --all 0 is yes and 1 no, and with --run and
--count it is that of awk.";

/// Tells which word makes words no command line.
fn tell_fault<R: Eprint + AllocGlobal>(
    rt: &R,
    message: &str,
    word: &[u8],
) -> Result<(), AllocError> {
    let mut shown = Vec::new(rt.alloc());
    add_visible(&mut shown, word)?;
    let word = std::str::from_utf8(&shown).unwrap_or("");
    let _ = eprintln!(rt; "awk-check: {message}{word}");
    Ok(())
}

/// Tells what makes words no command line of awk, and how this program is called.
fn tell_usage<R: Eprint + AllocGlobal>(rt: &R, words: &[Vec<u8>]) -> Result<(), AllocError> {
    if let Some(fault) = usage_fault(words) {
        tell_fault(rt, fault.message, fault.word)?;
    }
    let _ = eprintln!(rt; "{USAGE}");
    Ok(())
}

/// Tells what is wrong with the words before those of awk, and how this program is called.
fn refuse<R: Eprint + AllocGlobal>(rt: &R, message: &str, word: &[u8]) -> Result<u8, Failure> {
    tell_fault(rt, message, word)?;
    let _ = eprintln!(rt; "{USAGE}");
    Err(Failure::Told)
}

/// The command line that words of awk are.
fn command_line<R: Eprint + AllocGlobal>(
    rt: &R,
    words: &[Vec<u8>],
) -> Result<CommandLine, Failure> {
    match read_command_line(rt.alloc(), words) {
        Ok(line) => Ok(line),
        Err(CommandFault::Usage) => {
            tell_usage(rt, words)?;
            Err(Failure::Told)
        }
        Err(CommandFault::Memory) => Err(Failure::from(AllocError)),
    }
}

/// What is told, as lines or as a log.
fn told_text(alloc: Global, checks: &Checks, is_sarif: bool) -> Result<Vec<u8>, AllocError> {
    let mut out = Vec::new(alloc);
    if is_sarif {
        let log = sarif_of(alloc, VERSION, &checks.all)?;
        out.extend_from_slice(log.as_bytes())?;
        out.push(b'\n')?;
    } else {
        for checked in checks.all.as_slice() {
            write_findings(
                alloc,
                &mut out,
                &checked.sources,
                &checked.text,
                &checked.findings,
            )?;
        }
    }
    Ok(out)
}

/// Prints a text.
fn print_text<R: Print>(rt: &R, text: &[u8]) -> io::Result<()> {
    let mut writer = io::writer(rt);
    writer.write_all(text)?;
    writer.flush()
}

/// The command line that words of awk are, and its program's text.
fn line_and_program<R: Files + Input + Eprint + AllocGlobal>(
    rt: &R,
    words: &[Vec<u8>],
) -> Result<(CommandLine, ProgramText), Failure> {
    let mut line = command_line(rt, words)?;
    let nothing = ProgramSource::Files(Vec::new(rt.alloc()));
    let source = std::mem::replace(&mut line.source, nothing);
    let program = program_text(rt, source)?;
    Ok((line, program))
}

/// Checks the program of words of awk.
fn check_words<R: Files + Input + Eprint + AllocGlobal>(
    rt: &R,
    words: &[Vec<u8>],
    mode: Mode,
    checks: &mut Checks,
) -> Result<(), Failure> {
    let (line, program) = line_and_program(rt, words)?;
    match mode {
        Mode::Pieces => checks.check_pieces(rt.alloc(), &line, program),
        _ => checks.check_line(rt, &line, program),
    }
}

/// Prints the program of a stage, of that of words of awk, or on standard error why there is none.
fn serve_stage<R: Files + Input + Print + Eprint + AllocGlobal>(
    rt: &R,
    asked: Asked,
    stage: Stage,
    words: &[Vec<u8>],
) -> Result<u8, Failure> {
    let alloc = rt.alloc();
    let mut checks = Checks::new(alloc);
    let (line, program) = line_and_program(rt, words)?;
    let text = checks.derive(alloc, &line, program, stage)?;
    if checks.status == 0 {
        print_text(rt, &text)?;
    } else {
        let told = told_text(alloc, &checks, asked.is_sarif)?;
        let told = String::from_utf8_lossy(alloc, &told)?;
        eprint!(rt; "{told}")?;
    }
    Ok(checks.status)
}

/// Checks what is asked for, with the words behind that, and prints what is told.
fn serve_asked<R: Files + Input + Print + Eprint + AllocGlobal>(
    rt: &R,
    asked: Asked,
    words: &[Vec<u8>],
) -> Result<u8, Failure> {
    let alloc = rt.alloc();
    let mut checks = Checks::new(alloc);
    match asked.mode {
        Mode::Files | Mode::Shell if words.is_empty() => {
            return refuse(rt, "no file is named", b"");
        }
        Mode::Files => checks.check_files(rt, words)?,
        Mode::Shell => checks.check_scripts(rt, words)?,
        Mode::Stage(stage) => return serve_stage(rt, asked, stage, words),
        mode => check_words(rt, words, mode, &mut checks)?,
    }
    print_text(rt, &told_text(alloc, &checks, asked.is_sarif)?)?;
    Ok(checks.status)
}

/// Prints the version, and of what it was built.
fn serve_version<R: Files + Input + Print + AllocGlobal>(rt: &R) -> Result<u8, Failure> {
    println!(rt; "awk-check (awk-proved) {VERSION}")?;
    print_text(rt, &origin(rt)?)?;
    Ok(0)
}

/// Does what the words after the program's name ask for.
fn serve<R: Env + Files<File = File> + Input + Print + Eprint + Processes + AllocGlobal>(
    rt: &R,
    streams: StandardStreams,
) -> Result<u8, Failure> {
    let words = given_words(rt, rt.alloc())?;
    let asked = match read_asked(&words) {
        Ok(asked) => asked,
        Err(name) => return refuse(rt, "unknown format: ", name),
    };
    let behind = words.get(asked.count..).unwrap_or(&[]);
    match asked.mode {
        Mode::Help => {
            println!(rt; "{USAGE}\n{HELP}")?;
            Ok(0)
        }
        Mode::Version => serve_version(rt),
        Mode::Run | Mode::Count if asked.is_sarif => {
            refuse(rt, "no log of SARIF is made of a run", b"")
        }
        Mode::Run => run_words(rt, behind, false, streams),
        Mode::Count => run_words(rt, behind, true, streams),
        _ => serve_asked(rt, asked, behind),
    }
}

fn main(rt: HostRuntime) -> ExitCode {
    let streams = StandardStreams {
        stdin: rt.stdin(),
        stdout: rt.stdout(),
        stderr: rt.stderr(),
    };
    match serve(&rt, streams) {
        Ok(status) => ExitCode::from(status),
        Err(Failure::Told) => ExitCode::from(NOT_CHECKED),
        Err(Failure::Failed(error)) => {
            let _ = eprintln!(rt; "awk-check: {error}");
            ExitCode::from(NOT_CHECKED)
        }
    }
}
