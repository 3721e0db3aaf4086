// The lines that the program writes of itself to standard error (POSIX awk, STDERR).

ghost use Rattle.std.specs.Prelude.{◌≡◌};
ghost use Rattle.std.specs.Option.{option_map};
ghost use Rattle.awk_command.specs.declared.report.NotRun.TheVariants.{Memory, Refused as RefusedFor};
ghost use Rattle.awk_command.specs.Report.{line_of, ReportsLine, ReportsOutcome, ReportsNotRun};

use awk_lex::refusal::Refusal;
use awk_run::{Fault, Outcome, fault_line};
use awk_streams::{World, print_error};
use std::alloc::{AllocError, AllocFailed, Global};

const USAGE: &str =
    "awk: usage: awk [-F sep] [-v name=text].. [-L n] [-f file.. | program] [operand..]";

const NOT_READABLE: &str = "awk: program file not readable";

const STOPPED: &str = "awk: stopped: step limit reached";

/// Why nothing was run.
#[derive(Clone, Copy)]
pub enum NotRun {
    Usage,
    /// A program file can't be opened, or it broke.
    NotReadable,
    Memory,
    /// The text is no program.
    Refused(Refusal),
}

impl From<AllocError> for NotRun {
    ghost from_gives = { λ _ why. why ≡ Memory };

    fn from(_error: AllocError) -> NotRun {
        NotRun::Memory
    }
}

impl<T: Drop> From<AllocFailed<T>> for NotRun {
    ghost from_gives = { λ _ why. why ≡ Memory };

    fn from(_error: AllocFailed<T>) -> NotRun {
        NotRun::Memory
    }
}

impl From<Refusal> for NotRun {
    ghost from_gives = { λ refusal why. why ≡ RefusedFor refusal };

    fn from(refusal: Refusal) -> NotRun {
        NotRun::Refused(refusal)
    }
}

/// Writes a line to standard error; what fails there changes nothing.
fn report_line<W: World>(world: &mut W, line: &str)
    ensures { W.is_logged → ReportsLine line.now (W.state world.old) (W.state world.new) }
{
    if print_error(world, line.as_bytes()).is_err() {
        return;
    }
    let _ = print_error(world, b"\n");
}

/// The line that reports an outcome, if one does.
fn outcome_line(outcome: &Outcome) -> Option<&'static str>
    ensures { option_map (λ line. line.now) result ≡ line_of outcome.now }
{
    match outcome {
        Outcome::Ended(_) => None,
        Outcome::Fault(fault) => Some(fault_line(*fault)),
        Outcome::Stopped => Some(STOPPED),
    }
}

/// Reports an outcome that isn't a run's end by itself.
pub(crate) fn report_outcome<W: World>(world: &mut W, outcome: &Outcome)
    ensures { W.is_logged → ReportsOutcome outcome.now (W.state world.old) (W.state world.new) }
{
    let Some(line) = outcome_line(outcome) else {
        return;
    };
    report_line(world, line);
}

/// Reports why nothing was run; where there is no memory to report a refusal, that.
pub(crate) fn report_not_run<W: World>(alloc: Global, world: &mut W, why: NotRun)
    ensures { W.is_logged → ReportsNotRun why (W.state world.old) (W.state world.new) }
{
    match why {
        NotRun::Usage => report_line(world, USAGE),
        NotRun::NotReadable => report_line(world, NOT_READABLE),
        NotRun::Memory => report_line(world, fault_line(Fault::OutOfMemory)),
        NotRun::Refused(refusal) => match format!(in alloc; "awk: {refusal}") {
            Ok(line) => report_line(world, line.as_str()),
            Err(_) => report_line(world, fault_line(Fault::OutOfMemory)),
        },
    }
}
