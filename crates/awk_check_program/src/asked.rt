// What the first words ask for.

use awk_check::Stage;

/// What is checked, or printed.
#[derive(Clone, Copy)]
pub(crate) enum Mode {
    /// The program of a command line of awk.
    Command,
    /// Whether it may run on pieces of its input.
    Pieces,
    /// The program of a stage, where it may run in two.
    Stage(Stage),
    /// Files, each of which is a program.
    Files,
    /// The programs in shell scripts and makefiles.
    Shell,
    /// A run of the awk, of which is told where it ended.
    Run,
    /// As `Run`, with how often each statement ran.
    Count,
    Version,
    Help,
}

/// What the first words ask for.
#[derive(Clone, Copy)]
pub(crate) struct Asked {
    pub(crate) mode: Mode,
    /// Whether findings are told as a log of SARIF.
    pub(crate) is_sarif: bool,
    /// How many words ask for it.
    pub(crate) count: usize,
}

/// What a word asks for, where it is no option of awk.
fn mode_of(word: &[u8]) -> Option<Mode> {
    match word {
        b"--pieces" => Some(Mode::Pieces),
        b"--each" => Some(Mode::Stage(Stage::Each)),
        b"--all" => Some(Mode::Stage(Stage::All)),
        b"--files" => Some(Mode::Files),
        b"--shell" => Some(Mode::Shell),
        b"--run" => Some(Mode::Run),
        b"--count" => Some(Mode::Count),
        b"--version" => Some(Mode::Version),
        b"--help" => Some(Mode::Help),
        _ => None,
    }
}

/// Whether a name of a form is that of SARIF; nothing of a form that there isn't.
fn form_of(name: &[u8]) -> Option<bool> {
    match name {
        b"sarif" => Some(true),
        b"lines" => Some(false),
        _ => None,
    }
}

/// What words ask for, or the name of a form that there isn't.
pub(crate) fn read_asked(words: &[Vec<u8>]) -> Result<Asked, &[u8]> {
    let mut asked = Asked {
        mode: Mode::Command,
        is_sarif: false,
        count: 0,
    };
    if let Some(word) = words.first() {
        if word.as_slice() == b"--format".as_slice() {
            let name = words.get(1).map_or(b"".as_slice(), |word| word.as_slice());
            match form_of(name) {
                Some(is_sarif) => asked.is_sarif = is_sarif,
                None => return Err(name),
            }
            asked.count = 2;
        }
    }
    if let Some(word) = words.get(asked.count) {
        if let Some(mode) = mode_of(word) {
            asked.mode = mode;
            asked.count = asked.count.saturating_add(1);
        }
    }
    Ok(asked)
}
