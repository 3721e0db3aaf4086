// The words of a command, and which of them is a program of awk.

use crate::embedded::Embedded;
use awk_findings::Place;
use std::alloc::{AllocError, Global};

/// A word of a command, as far as it is read.
#[derive(Drop)]
pub(crate) struct Word {
    /// Where it begins in the script, if it has begun.
    pub(crate) start: Option<usize>,
    /// What the command is given, of what is known.
    pub(crate) text: Vec<u8>,
    pub(crate) places: Vec<usize>,
    /// Whether it begins with a quotation mark.
    pub(crate) is_quoted: bool,
    /// Whether the shell puts something of its own into it.
    pub(crate) is_open: bool,
}

/// What the next word of a command is.
#[derive(Clone, Copy)]
pub(crate) enum Next {
    /// The name of a command, perhaps behind words like `if`.
    Name,
    /// Nothing that is known.
    Any,
    /// A word of a command that takes words as they are, as `echo`.
    Plain,
    /// An option of awk or its program.
    Option,
    /// The value of an option.
    Value(u8),
    /// The program.
    Program,
    /// An operand of the program with this number.
    Operand(usize),
}

/// A command, as far as it is read.
#[derive(Drop)]
pub(crate) struct Command {
    pub(crate) word: Word,
    pub(crate) next: Next,
    /// Whether the word is a file that a stream is led to.
    pub(crate) is_led: bool,
    /// The names that options assign to.
    given: Vec<Vec<u8>>,
}

impl Word {
    pub(crate) fn new(alloc: Global) -> Word {
        Word {
            start: None,
            text: Vec::new(alloc),
            places: Vec::new(alloc),
            is_quoted: false,
            is_open: false,
        }
    }

    /// Begins at a place, where it hasn't begun.
    pub(crate) fn begin(&mut self, at: usize, byte: u8) {
        if self.start.is_none() {
            self.start = Some(at);
            self.is_quoted = matches!(byte, b'\'' | b'"');
        }
    }

    pub(crate) fn push(&mut self, at: usize, byte: u8) -> Result<(), AllocError> {
        self.text.push(byte)?;
        self.places.push(at)?;
        Ok(())
    }
}

/// Whether a word of a command is the name of an awk.
fn is_awk(name: &[u8]) -> bool {
    let last = match name.iter().rposition(|byte| *byte == b'/') {
        Some(slash) => name.get(slash.saturating_add(1)..).unwrap_or(b""),
        None => name,
    };
    matches!(
        last,
        b"awk" | b"gawk" | b"mawk" | b"nawk" | b"original-awk" | b"@AWK@"
    )
}

/// Whether the name of a command stands behind a word, as at the beginning.
fn leads_to_name(word: &[u8]) -> bool {
    matches!(
        word,
        b"if" | b"then" | b"else" | b"elif" | b"while" | b"until" | b"do" | b"!" | b"{"
    )
}

/// Whether a command of this name runs none of its words.
fn takes_words(name: &[u8]) -> bool {
    matches!(
        name,
        b"echo"
            | b"printf"
            | b"print"
            | b"for"
            | b"case"
            | b"which"
            | b"type"
            | b"test"
            | b"["
            | b"[["
            | b"grep"
            | b"egrep"
            | b"fgrep"
            | b"sed"
            | b"cat"
            | b"cp"
            | b"ln"
            | b"ls"
            | b"mv"
            | b"rm"
    )
}

/// Whether a word as it stands in the script is the variable AWK.
fn is_variable(source: &[u8]) -> bool {
    matches!(source, b"$AWK" | b"${AWK}" | b"\"$AWK\"" | b"\"${AWK}\"")
}

/// An operand of a program, which may be an assignment.
fn add_operand(
    alloc: Global,
    found: &mut Vec<Embedded>,
    program: usize,
    value: &[u8],
) -> Result<(), AllocError> {
    match (assigned(value), found.get_mut(program)) {
        (Some(name), Some(program)) => program.given.push(name.to_vec(alloc)?)?,
        _ => {}
    }
    Ok(())
}

/// The name before the `=` of an assignment.
fn assigned(value: &[u8]) -> Option<&[u8]> {
    let end = value.iter().position(|byte| *byte == b'=')?;
    value.get(..end)
}

impl Command {
    pub(crate) fn new(alloc: Global) -> Command {
        Command {
            word: Word::new(alloc),
            next: Next::Name,
            is_led: false,
            given: Vec::new(alloc),
        }
    }

    /// An option's value, which may be an assignment.
    fn give(&mut self, alloc: Global, option: u8, value: &[u8]) -> Result<(), AllocError> {
        match assigned(value) {
            Some(name) if option == b'v' => self.given.push(name.to_vec(alloc)?)?,
            _ => {}
        }
        Ok(())
    }

    /// What stands behind a word that may be an option.
    fn option(&mut self, alloc: Global, text: &[u8]) -> Result<Next, AllocError> {
        Ok(match text {
            b"--" => Next::Program,
            [b'-', b'f', ..] => Next::Any,
            [b'-', option] if matches!(*option, b'F' | b'v' | b'L') => Next::Value(*option),
            [b'-', option, value @ ..] => {
                self.give(alloc, *option, value)?;
                Next::Option
            }
            _ => Next::Any,
        })
    }

    /// A word that is the program, where it stands in quotes.
    fn take_program(
        &mut self,
        alloc: Global,
        word: Word,
        place: Place,
        found: &mut Vec<Embedded>,
    ) -> Result<(), AllocError> {
        if !word.is_quoted {
            return Ok(());
        }
        let given = std::mem::replace(&mut self.given, Vec::new(alloc));
        let Word {
            text,
            places,
            is_open,
            ..
        } = word;
        self.next = Next::Operand(found.len());
        found.push(Embedded {
            text,
            places,
            word: place,
            given,
            is_whole: !is_open,
        })?;
        Ok(())
    }

    /// Goes over a word that stands at a place.
    fn take(
        &mut self,
        alloc: Global,
        script: &[u8],
        word: Word,
        place: Place,
        found: &mut Vec<Embedded>,
    ) -> Result<(), AllocError> {
        let next = self.next;
        self.next = Next::Any;
        match next {
            Next::Plain => self.next = next,
            Next::Name if leads_to_name(&word.text) => self.next = next,
            Next::Name if takes_words(&word.text) => self.next = Next::Plain,
            Next::Name | Next::Any => {
                let source = script.get(place.start..place.end).unwrap_or(b"");
                if is_variable(source) || (!word.is_open && is_awk(&word.text)) {
                    self.given = Vec::new(alloc);
                    self.next = Next::Option;
                }
            }
            Next::Value(option) => {
                self.give(alloc, option, &word.text)?;
                self.next = Next::Option;
            }
            Next::Option if word.text.starts_with(b"-") && word.text.len() > 1 => {
                self.next = self.option(alloc, &word.text)?;
            }
            // (a variable that stands for options, or for none)
            Next::Option if word.is_open && !word.is_quoted && word.text.is_empty() => {
                self.next = Next::Option;
            }
            Next::Option | Next::Program => self.take_program(alloc, word, place, found)?,
            Next::Operand(program) => {
                add_operand(alloc, found, program, &word.text)?;
                self.next = next;
            }
        }
        Ok(())
    }

    /// Ends the word that is read, before a place, and adds the program that it is.
    pub(crate) fn end_word(
        &mut self,
        alloc: Global,
        script: &[u8],
        end: usize,
        found: &mut Vec<Embedded>,
    ) -> Result<(), AllocError> {
        let word = std::mem::replace(&mut self.word, Word::new(alloc));
        let Some(start) = word.start else {
            return Ok(());
        };
        if self.is_led {
            self.is_led = false;
            return Ok(());
        }
        self.take(alloc, script, word, Place { start, end }, found)
    }
}
