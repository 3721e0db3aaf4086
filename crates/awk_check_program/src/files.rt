// The files that are checked.

use crate::failure::Failure;
use awk_check::{Source, add_visible};
use std::fs::{Files, OpenOptions};
use std::io::{self, Read};

/// The most bytes that are read of a program file: one more than a program has.
const MOST_READ: u64 = 1_048_577;

/// The most bytes that are read of a script.
const MOST_OF_SCRIPT: u64 = 16_777_216;

/// A program's text and the files that it is joined of.
#[derive(Drop)]
pub(crate) struct ProgramText {
    pub(crate) text: Vec<u8>,
    pub(crate) sources: Vec<Source>,
}

/// The bytes of a file, so many of them at most; `-` is standard input.
fn read_some<R: Files + Input + AllocGlobal>(
    rt: &R,
    name: &[u8],
    most: u64,
) -> io::Result<Vec<u8>> {
    let alloc = rt.alloc();
    let mut bytes = Vec::new(alloc);
    if name == b"-".as_slice() {
        rt.reader().take(most).read_to_end(&mut bytes)?;
        return Ok(bytes);
    }
    let Ok(path) = std::str::from_utf8(name) else {
        return Err(io::Error::from(io::ErrorKind::InvalidInput));
    };
    let file = OpenOptions::new().read(true).open(rt, path)?;
    file.take(most).read_to_end(&mut bytes)?;
    Ok(bytes)
}

/// The bytes of a program file, of a long one no more than tell that it is too long; `-` is standard input.
pub(crate) fn read_file<R: Files + Input + AllocGlobal>(
    rt: &R,
    name: &[u8],
) -> io::Result<Vec<u8>> {
    read_some(rt, name, MOST_READ)
}

/// What was read; a file that can't be is named on standard error, with the cause.
fn told<R: Eprint + AllocGlobal>(
    rt: &R,
    name: &[u8],
    read: io::Result<Vec<u8>>,
) -> Result<Vec<u8>, Failure> {
    match read {
        Ok(bytes) => Ok(bytes),
        Err(error) if error.kind() == io::ErrorKind::OutOfMemory => Err(Failure::Failed(error)),
        Err(error) => {
            let mut shown = Vec::new(rt.alloc());
            add_visible(&mut shown, name)?;
            let name = std::str::from_utf8(&shown).unwrap_or("a program file");
            let _ = eprintln!(rt; "awk-check: {name} can't be read: {error}");
            Err(Failure::Told)
        }
    }
}

/// The bytes of a script; one that can't be read is named on standard error.
pub(crate) fn read_script<R: Files + Input + Eprint + AllocGlobal>(
    rt: &R,
    name: &[u8],
) -> Result<Vec<u8>, Failure> {
    told(rt, name, read_some(rt, name, MOST_OF_SCRIPT))
}

/// The text of program files that are joined, and where each of them begins.
pub(crate) fn joined_files<R: Files + Input + Eprint + AllocGlobal>(
    rt: &R,
    names: &[Vec<u8>],
) -> Result<ProgramText, Failure> {
    let alloc = rt.alloc();
    let mut sources = Vec::new(alloc);
    let mut text = Vec::new(alloc);
    for name in names {
        sources.push(Source {
            name: name.as_slice().to_vec(alloc)?,
            start: text.len(),
        })?;
        let bytes = told(rt, name, read_file(rt, name))?;
        text.extend_from_slice(&bytes)?;
        if !bytes.ends_with(b"\n") {
            text.push(b'\n')?;
        }
    }
    Ok(ProgramText { text, sources })
}

/// A text that isn't joined, under a name.
pub(crate) fn named_text<R: AllocGlobal>(
    rt: &R,
    name: &[u8],
    text: Vec<u8>,
) -> Result<ProgramText, Failure> {
    let alloc = rt.alloc();
    let mut sources = Vec::new(alloc);
    sources.push(Source {
        name: name.to_vec(alloc)?,
        start: 0,
    })?;
    Ok(ProgramText { text, sources })
}
