// A run of the awk, with what is told of it behind it.

ghost use Rattle.awk_command.specs.CommandLine.{texts};
ghost use Rattle.awk_check.specs.definitions.Runs.{RunsAndTells};

use crate::reading::{listed, refusal_of};
use crate::run_counts::add_counts;
use crate::run_places::{Outline, place_findings};
use crate::trace::Trace;
use awk_command::{ProgramSource, main_words_watched, read_command_line};
use awk_findings::{Finding, Source, write_findings};
use awk_run::Assignment;
use awk_streams::{World, print_error};
use std::alloc::{AllocError, Global};

/// The files that a program was joined of; none where the words are no command line, or not all of it was read.
fn sources_of(
    alloc: Global,
    words: &[Vec<u8>],
    trace: &mut Trace,
) -> Result<Option<Vec<Source>>, AllocError> {
    let mut sources = Vec::new(alloc);
    let Ok(line) = read_command_line(alloc, words) else {
        return Ok(None);
    };
    let names = match &line.source {
        ProgramSource::Files(names) => {
            trace.end_line()?;
            names.clone()?
        }
        ProgramSource::Text(_) => vec![in alloc; b"program".to_vec(alloc)?]?,
    };
    if names.len() != trace.starts.len() {
        return Ok(None);
    }
    for (name, start) in names.into_iter().zip(trace.starts.iter()) {
        sources.push(Source {
            name,
            start: *start,
        })?;
    }
    Ok(Some(sources))
}

/// What is told of a run that ended, or of a program that was refused.
fn findings_of(
    alloc: Global,
    trace: &Trace,
    outline: Option<&Outline>,
) -> Result<Vec<Finding>, AllocError> {
    match (&trace.ended, outline) {
        (Some(ended), Some(outline)) => place_findings(alloc, outline, trace, ended),
        (Some(_), None) => Ok(Vec::new(alloc)),
        (None, _) => match refusal_of(alloc, &trace.text)? {
            Some(finding) => listed(alloc, finding),
            None => Ok(Vec::new(alloc)),
        },
    }
}

/// The lines that are told of a run.
fn told(
    alloc: Global,
    words: &[Vec<u8>],
    trace: &mut Trace,
    is_counting: bool,
) -> Result<Vec<u8>, AllocError> {
    let mut out = Vec::new(alloc);
    let Some(sources) = sources_of(alloc, words, trace)? else {
        return Ok(out);
    };
    if trace.is_short {
        return Err(AllocError);
    }
    let outline = Outline::of(alloc, &trace.text)?;
    let findings = findings_of(alloc, trace, outline.as_ref())?;
    write_findings(alloc, &mut out, &sources, &trace.text, &findings)?;
    if let Some(outline) = outline {
        if is_counting && trace.ended.is_some() {
            add_counts(alloc, &mut out, &sources, &outline, trace)?;
        }
    }
    Ok(out)
}

/// Does what the awk does for the words after its name, in any world and with the entries of an environment, and answers its
/// exit status. Behind what the awk says on standard error it tells there where the program is refused, or where in it a run
/// ended that didn't end by itself, which calls were active, and what FILENAME, FNR and NR were; and, where that is asked for,
/// how often each statement ran. Where there is no memory for it, nothing is told.
pub fn run_and_tell<W: World>(
    alloc: Global,
    words: &[Vec<u8>],
    environ: Vec<Assignment>,
    is_counting: bool,
    world: &mut W,
) -> u8
    ensures { RunsAndTells W.is_logged (texts words.now) environ.items (W.state world.old) result (W.state world.new) }
{
    let mut trace = Trace::new(alloc);
    let status = main_words_watched(alloc, words, environ, world, &mut trace);
    let lines = told(alloc, words, &mut trace, is_counting).unwrap_or(Vec::new(alloc));
    let _ = print_error(world, &lines);
    status
}
