// What a world in memory is to answer.
ghost use Rattle.std.specs.Prelude.{◌≡◌, IfSome, IsTrue};
ghost use Rattle.std.specs.Option.{option_map};
ghost use Rattle.awk_world.specs.definitions.Script.{stream_of};
ghost use Rattle.awk_world.specs.definitions.ScriptAnswers.{is_for_input as is_listed_for_input, input_place};
ghost use Rattle.awk_world.specs.definitions.ScriptAnswers.{is_for_output as is_listed_for_output, output_place};
ghost use Rattle.awk_world.specs.definitions.ScriptAnswers.{is_for_closing as is_listed_for_closing, closing_place};
ghost use Rattle.awk_world.specs.definitions.ScriptAnswers.{is_for_run as is_listed_for_run, run_place};
ghost use Rattle.awk_world.specs.definitions.ScriptAnswers.{granted_input, granted_output, closing_number, run_number};
ghost use Rattle.awk_world.specs.definitions.ScriptAnswers.{given_by, without};

use crate::script_stream::ScriptStream;
use crate::world::{InputKind, OutputKind};
use std::alloc::Global;

/// What a world in memory answers to one call. Each call takes the first answer that is listed for it.
#[derive(Drop)]
pub enum Answer {
    /// To the opening of an input.
    Input(InputAnswer),
    /// To the opening of an output.
    Output(OutputAnswer),
    /// To the closing of a command, by its number.
    Closing(i128),
    /// To the run of a command, by its number.
    Run(i128),
}

/// Whether the opening of an input of this kind and name is refused, or the bytes that it gives and
/// what comes behind them.
#[derive(Drop)]
pub struct InputAnswer {
    pub kind: InputKind,
    pub name: Vec<u8>,
    pub refused: bool,
    pub bytes: Vec<u8>,
    /// Where the pieces end in which the bytes are handed over: no reading goes on behind one of
    /// these numbers of bytes.
    pub piece_ends: Vec<usize>,
    pub ending: Ending,
}

/// What comes behind the bytes of an input.
#[derive(Clone, Copy, Debug, PartialEq, Eq)]
pub enum Ending {
    End,
    Break,
    /// The bytes behind so many of them come again, without end. Where these are all, the input
    /// ends.
    Again(usize),
}

/// Whether the opening of an output of this kind and name is refused.
#[derive(Drop)]
pub struct OutputAnswer {
    pub kind: OutputKind,
    pub name: Vec<u8>,
    pub refused: bool,
}

fn is_for_input(answer: &Answer, kind: InputKind, name: &[u8]) -> bool
    ensures { result ≡ is_listed_for_input kind name.now answer.now }
{
    match answer {
        Answer::Input(input) => input.kind == kind && input.name.as_slice() == name,
        Answer::Output(_) | Answer::Closing(_) | Answer::Run(_) => false,
    }
}

fn is_for_output(answer: &Answer, kind: OutputKind, name: &[u8]) -> bool
    ensures { result ≡ is_listed_for_output kind name.now answer.now }
{
    match answer {
        Answer::Output(output) => output.kind == kind && output.name.as_slice() == name,
        Answer::Input(_) | Answer::Closing(_) | Answer::Run(_) => false,
    }
}

fn is_for_closing(answer: &Answer) -> bool
    ensures { result ≡ is_listed_for_closing answer.now }
{
    matches!(answer, Answer::Closing(_))
}

fn is_for_run(answer: &Answer) -> bool
    ensures { result ≡ is_listed_for_run answer.now }
{
    matches!(answer, Answer::Run(_))
}

// The place of the first answer that is listed for an input.
fn place_of_input(answers: &[Answer], kind: InputKind, name: &[u8]) -> Option<usize>
    ensures { result ≡ input_place kind name.now answers.now }
{
    answers
        .iter()
        .position(|answer| is_for_input(answer, kind, name))
}

// The place of the first answer that is listed for an output.
fn place_of_output(answers: &[Answer], kind: OutputKind, name: &[u8]) -> Option<usize>
    ensures { result ≡ output_place kind name.now answers.now }
{
    answers
        .iter()
        .position(|answer| is_for_output(answer, kind, name))
}

// The place of the first number that is listed for a closing.
fn place_of_closing(answers: &[Answer]) -> Option<usize>
    ensures { result ≡ closing_place answers.now }
{
    answers.iter().position(is_for_closing)
}

// The place of the first number that is listed for a run.
fn place_of_run(answers: &[Answer]) -> Option<usize>
    ensures { result ≡ run_place answers.now }
{
    answers.iter().position(is_for_run)
}

// Takes the first answer that is listed for an input, and gives what it grants; `None` where the
// input is refused.
pub(crate) fn take_input(
    alloc: Global,
    answers: &mut Vec<Answer>,
    kind: InputKind,
    name: &[u8],
) -> Option<ScriptStream>
    ensures granted { option_map stream_of result ≡ granted_input kind name.now answers.old.items }
    ensures answers { answers.new.items ≡ without (input_place kind name.now answers.old.items) answers.old.items }
    ensures open { IfSome result (λ stream. IsTrue stream.open) }
{
    let Some(place) = place_of_input(answers, kind, name) else {
        return match kind {
            InputKind::Standard => Some(ScriptStream::empty(alloc, false, Ending::End)),
            InputKind::File | InputKind::Command => None,
        };
    };
    match answers.remove(place) {
        Answer::Input(answer) => grant(answer, kind == InputKind::Command),
        Answer::Output(_) | Answer::Closing(_) | Answer::Run(_) => None,
    }
}

// What an answer grants.
fn grant(answer: InputAnswer, is_command: bool) -> Option<ScriptStream>
    ensures granted { option_map stream_of result ≡ given_by is_command answer }
    ensures open { IfSome result (λ stream. IsTrue stream.open) }
{
    if answer.refused {
        return None;
    }
    Some(ScriptStream {
        open: true,
        is_command,
        bytes: answer.bytes,
        piece_ends: answer.piece_ends,
        ending: answer.ending,
        at: 0,
    })
}

// Takes the first answer that is listed for an output, and gives what it grants; `None` where the
// output is refused.
pub(crate) fn take_output(
    alloc: Global,
    answers: &mut Vec<Answer>,
    kind: OutputKind,
    name: &[u8],
) -> Option<ScriptStream>
    ensures granted { option_map stream_of result ≡ granted_output kind name.now answers.old.items }
    ensures answers { answers.new.items ≡ without (output_place kind name.now answers.old.items) answers.old.items }
    ensures open { IfSome result (λ stream. IsTrue stream.open) }
{
    let place = place_of_output(answers, kind, name)?;
    match answers.remove(place) {
        Answer::Output(answer) if !answer.refused => {
            let is_command = kind == OutputKind::Command;
            Some(ScriptStream::empty(alloc, is_command, Ending::Break))
        }
        Answer::Output(_) | Answer::Input(_) | Answer::Closing(_) | Answer::Run(_) => None,
    }
}

// Takes the first number that is listed for a closing; where none is, it is 0.
pub(crate) fn take_closing(answers: &mut Vec<Answer>) -> i128
    ensures number { result ≡ closing_number answers.old.items }
    ensures answers { answers.new.items ≡ without (closing_place answers.old.items) answers.old.items }
{
    let Some(place) = place_of_closing(answers) else {
        return 0;
    };
    match answers.remove(place) {
        Answer::Closing(number) => number,
        Answer::Input(_) | Answer::Output(_) | Answer::Run(_) => 0,
    }
}

// Takes the first number that is listed for a run; where none is, it is 0.
pub(crate) fn take_run(answers: &mut Vec<Answer>) -> i128
    ensures number { result ≡ run_number answers.old.items }
    ensures answers { answers.new.items ≡ without (run_place answers.old.items) answers.old.items }
{
    let Some(place) = place_of_run(answers) else {
        return 0;
    };
    match answers.remove(place) {
        Answer::Run(number) => number,
        Answer::Input(_) | Answer::Output(_) | Answer::Closing(_) => 0,
    }
}
