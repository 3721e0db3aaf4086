// Rows of text, each a call of the program. A line of a row is one of
//   $ WORD      a word after `awk`; nothing behind the mark: an empty word
//   . TEXT      a further line of that word
//   < TEXT      a line of standard input
//   - TEXT      the same, with no newline behind it
//   | TEXT      the same, and then standard input breaks
//   [f] TEXT    a line of the file f; the lines of one opening stand together
//   (c) TEXT    a line that the command c gives; the lines of one opening stand together
//   +[f]        an opening of the file f as an output is granted
//   +(c)        the same of the command c
//   ? N         a closing of a command gives this digit
//   % N         a run of a command gives this digit
//   *           the first write fails
//   > TEXT      a line that is left on standard output
//   ! TEXT      a line that is left on standard error
//   = N         the status, and the end of the row

use crate::worlds::{answer, grant, was_given};
use awk_command::main_words;
use awk_streams::{Answer, InputKind, OutputKind, ScriptWorld};
use awk_world::Ending;
use std::alloc::{AllocError, Global};
use std::mem;
use std::process::Abort;

/// A call of the program, and what it leaves.
#[derive(Drop)]
pub struct Row {
    pub words: Vec<Vec<u8>>,
    pub answers: Vec<Answer>,
    is_full: bool,
    output: Vec<u8>,
    errors: Vec<u8>,
    status: Vec<u8>,
    pub line: usize,
}

impl Row {
    fn new(alloc: Global) -> Row {
        Row {
            words: Vec::new(alloc),
            answers: Vec::new(alloc),
            is_full: false,
            output: Vec::new(alloc),
            errors: Vec::new(alloc),
            status: Vec::new(alloc),
            line: 0,
        }
    }

    fn go_on(&mut self, text: &[u8]) -> Result<(), AllocError> {
        if let Some(word) = self.words.last_mut() {
            word.push(b'\n')?;
            word.extend_from_slice(text)?;
        }
        Ok(())
    }

    // One line of the row, but the last.
    fn take_in(&mut self, alloc: Global, line: &[u8]) -> Result<(), AllocError> {
        let (mark, text) = match line {
            [b'[', name, b']', b' ', text @ ..] => {
                return self.give(alloc, InputKind::File, &[*name], text, b"\n");
            }
            [b'(', name, b')', b' ', text @ ..] => {
                return self.give(alloc, InputKind::Command, &[*name], text, b"\n");
            }
            [b'+', b'[', name, b']'] => {
                return self.list(grant(alloc, OutputKind::File, &[*name])?);
            }
            [b'+', b'(', name, b')'] => {
                return self.list(grant(alloc, OutputKind::Command, &[*name])?);
            }
            [mark, b' ', text @ ..] => (*mark, text),
            [mark] => (*mark, b"".as_slice()),
            _ => return Ok(()),
        };
        match mark {
            b'$' => self.words.push(text.to_vec(alloc)?)?,
            b'.' => self.go_on(text)?,
            b'<' => self.give(alloc, InputKind::Standard, b"", text, b"\n")?,
            b'-' => self.give(alloc, InputKind::Standard, b"", text, b"")?,
            b'|' => {
                self.give(alloc, InputKind::Standard, b"", text, b"")?;
                self.break_off();
            }
            b'?' => self.list(Answer::Closing(number_of(text)))?,
            b'%' => self.list(Answer::Run(number_of(text)))?,
            b'*' => self.is_full = true,
            b'>' => add_line(&mut self.output, text)?,
            b'!' => add_line(&mut self.errors, text)?,
            _ => {}
        }
        Ok(())
    }

    fn list(&mut self, answer: Answer) -> Result<(), AllocError> {
        self.answers.push(answer)?;
        Ok(())
    }

    // The input that stands last breaks behind its bytes.
    fn break_off(&mut self) {
        if let Some(Answer::Input(input)) = self.answers.last_mut() {
            input.ending = Ending::Break;
        }
    }

    // More bytes of an input that stands last, or a new one.
    fn give(
        &mut self,
        alloc: Global,
        kind: InputKind,
        name: &[u8],
        text: &[u8],
        end: &[u8],
    ) -> Result<(), AllocError> {
        let is_same = match self.answers.last() {
            Some(Answer::Input(input)) => input.kind == kind && input.name.as_slice() == name,
            Some(_) | None => false,
        };
        if !is_same {
            let input = answer(alloc, kind, name, Vec::new(alloc), false)?;
            self.list(Answer::Input(input))?;
        }
        if let Some(Answer::Input(input)) = self.answers.last_mut() {
            input.bytes.extend_from_slice(text)?;
            input.bytes.extend_from_slice(end)?;
        }
        Ok(())
    }
}

// The number of a digit.
fn number_of(text: &[u8]) -> i128 {
    match text {
        [digit] => i128::from(digit.saturating_sub(b'0')),
        _ => 0,
    }
}

fn add_line(lines: &mut Vec<u8>, text: &[u8]) -> Result<(), AllocError> {
    lines.extend_from_slice(text)?;
    lines.push(b'\n')?;
    Ok(())
}

// One line more, at this place: of the row that has begun, or its last.
fn take_line(
    alloc: Global,
    place: usize,
    line: &[u8],
    row: &mut Row,
    rows: &mut Vec<Row>,
) -> Result<(), AllocError> {
    let [b'=', b' ', status @ ..] = line else {
        return row.take_in(alloc, line);
    };
    row.status.extend_from_slice(status)?;
    row.line = place;
    rows.push(mem::replace(row, Row::new(alloc)))?;
    Ok(())
}

/// The rows of a text.
pub fn rows_of(alloc: Global, text: &str) -> Result<Vec<Row>, AllocError> {
    let mut rows = Vec::new(alloc);
    let mut row = Row::new(alloc);
    for (i, line) in text.lines().enumerate() {
        take_line(alloc, i, line.as_bytes(), &mut row, &mut rows)?;
    }
    Ok(rows)
}

fn is_written(alloc: Global, status: u8, digits: &[u8]) -> Result<bool, AllocError> {
    Ok(status.to_string(alloc)?.as_bytes() == digits)
}

// A world in which the first write fails, or none.
fn make_world(alloc: Global, answers: Vec<Answer>, is_full: bool) -> ScriptWorld {
    let mut world = ScriptWorld::new(alloc, answers);
    if is_full {
        world.fail_write(1);
    }
    world
}

// Whether the row leaves what it says.
fn leaves(alloc: Global, row: &mut Row) -> Result<bool, AllocError> {
    let answers = mem::replace(&mut row.answers, Vec::new(alloc));
    let mut world = make_world(alloc, answers, row.is_full);
    let status = main_words(alloc, &row.words, Vec::new(alloc), &mut world);
    Ok(
        was_given(&world, 0, &row.output)?
            && was_given(&world, 1, &row.errors)?
            && is_written(alloc, status, &row.status)?,
    )
}

fn expect(rt: &impl Abort, alloc: Global, mut row: Row) -> Result<(), AllocError> {
    let is_left = leaves(alloc, &mut row)?;
    let line = row.line;
    assert!(rt; is_left, "row that ends on line {line}");
    Ok(())
}

/// That each row of the text leaves what it says.
pub fn expect_rows(rt: &impl Abort, alloc: Global, rows: &str) -> Result<(), AllocError> {
    for row in rows_of(alloc, rows)? {
        expect(rt, alloc, row)?;
    }
    Ok(())
}
