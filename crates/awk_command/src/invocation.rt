// The run of the whole program, from the words after its name to its status (POSIX awk, the awk utility).

ghost use Rattle.std.specs.Prelude.{◌≡◌, ◌&&◌, IfOk, map, filter};
ghost use Rattle.std.specs.Str.{is_utf8};
ghost use Rattle.awk_run.specs.Start.{pair_of};
ghost use Rattle.awk_command.specs.CommandLine.{texts, view_of};
ghost use Rattle.awk_command.specs.Invocation.{environ_of, RunsCommandLine, Invokes, RunsUtility};

use crate::command_line::{CommandLine, is_utf8, read_command_line};
use crate::options::CommandFault;
use crate::program_text::program_text;
use crate::report::{NotRun, report_not_run, report_outcome};
use awk_run::{Assignment, Outcome, Start, Unwatched, Watch, execute_watched, status};
use awk_streams::World;
use std::alloc::{AllocError, Global};

/// The status where nothing was run.
const NOT_RUN: u8 = 2;

fn is_text_entry(entry: &Assignment) -> bool
    ensures { result ≡ (is_utf8 entry.now.name.items && is_utf8 entry.now.text.items) }
{
    is_utf8(&entry.name) && is_utf8(&entry.text)
}

/// The entries that are UTF-8.
fn text_entries(alloc: Global, environ: Vec<Assignment>) -> Result<Vec<Assignment>, AllocError>
    ensures { IfOk result
        (λ kept. kept.items ≡ filter (λ entry. is_utf8 entry.name.items && is_utf8 entry.text.items) environ.items) }
{
    environ
        .into_iter()
        .filter(|entry| is_text_entry(entry))
        .collect(alloc)
}

/// Reads the program's text and runs it.
fn run_command_line<W: World, T: Watch>(
    alloc: Global,
    line: CommandLine,
    environ: Vec<Assignment>,
    world: &mut W,
    watch: &mut T,
) -> Result<Outcome, NotRun>
    ensures { RunsCommandLine W.is_logged (view_of line) environ.items (W.state world.old) result (W.state world.new) }
{
    let CommandLine {
        pre,
        limit,
        source,
        operands,
    } = line;
    let text = program_text(alloc, world, source, watch)?;
    let environ = text_entries(alloc, environ)?;
    let start = Start {
        pre,
        operands,
        environ,
    };
    Ok(execute_watched(alloc, &text, &start, limit, world, watch)?)
}

/// Reads the command line and runs it.
fn invoke<W: World, T: Watch>(
    alloc: Global,
    words: &[Vec<u8>],
    environ: Vec<Assignment>,
    world: &mut W,
    watch: &mut T,
) -> Result<Outcome, NotRun>
    ensures { Invokes W.is_logged (texts words.now) environ.items (W.state world.old) result (W.state world.new) }
{
    match read_command_line(alloc, words) {
        Ok(line) => run_command_line(alloc, line, environ, world, watch),
        Err(CommandFault::Usage) => Err(NotRun::Usage),
        Err(CommandFault::Memory) => Err(NotRun::Memory),
    }
}

/// The program: runs what the words after its name ask for, in any world and with the entries of an
/// environment, reports on standard error what there is to report, and answers the exit status.
///
/// The words are `[-F sep] [-v name=text].. [-L n] [-f file.. | program] [operand..]`. The status is
/// the program's own from 0 to 255, 2 for a usage fault, a program file that isn't readable, a
/// refusal or a fault of the run, and 3 where the step limit stopped it. A failure to report changes
/// no status. (POSIX awk, the awk utility)
pub fn main_words<W: World>(
    alloc: Global,
    words: &[Vec<u8>],
    environ: Vec<Assignment>,
    world: &mut W,
) -> u8
    ensures { RunsUtility W.is_logged (texts words.now) environ.items (W.state world.old) result (W.state world.new) }
{
    main_words_watched(alloc, words, environ, world, &mut Unwatched)
}

/// Does what `main_words` does, and tells of the run while it goes on.
pub fn main_words_watched<W: World, T: Watch>(
    alloc: Global,
    words: &[Vec<u8>],
    environ: Vec<Assignment>,
    world: &mut W,
    watch: &mut T,
) -> u8
    ensures { RunsUtility W.is_logged (texts words.now) environ.items (W.state world.old) result (W.state world.new) }
{
    match invoke(alloc, words, environ, world, watch) {
        Ok(outcome) => {
            report_outcome(world, &outcome);
            status(&outcome)
        }
        Err(why) => {
            report_not_run(alloc, world, why);
            NOT_RUN
        }
    }
}
