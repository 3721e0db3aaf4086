// A script, byte by byte, as the shell reads its quotes.

use crate::embedded::Embedded;
use crate::makefile::{PUT_IN, Script};
use crate::words::{Command, Next};
use std::alloc::{AllocError, Global};

/// What a byte stands in.
#[derive(Clone, Copy, PartialEq, Eq)]
enum Quote {
    None,
    Single,
    Double,
    Remark,
}

/// How many here-documents without an end are looked for.
const MOST_ENDLESS: usize = 16;

/// What ends a list of commands.
#[derive(Clone, Copy, PartialEq, Eq)]
enum End {
    Script,
    Parenthesis,
    Backtick,
    /// A backtick behind a backslash, between backticks.
    InnerBacktick,
}

/// A list of commands within a script, or within a word of an outer one.
#[derive(Drop)]
struct Commands {
    command: Command,
    quote: Quote,
    end: End,
    /// The parentheses that are open in it.
    open: usize,
    /// Whether it is arithmetic, `$((`, which has no here-documents.
    computes: bool,
}

/// A here-document that begins behind the line.
#[derive(Drop)]
struct HereDocument {
    delimiter: Vec<u8>,
    /// Whether tabs before the delimiter don't count.
    strips: bool,
}

/// A scan of a script.
#[derive(Drop)]
struct Reader<'a> {
    alloc: Global,
    script: &'a [u8],
    here: Commands,
    outer: Vec<Commands>,
    documents: Vec<HereDocument>,
    /// How many here-documents had no end.
    endless: usize,
    /// Whether a backslash stands before, which takes this byte's meaning.
    is_escaped: bool,
    /// How many lists between backticks it stands in, one in the other.
    backticks: usize,
    /// Whether the outermost of those stands between double quotes.
    is_doubled: bool,
    /// Whether a backslash before this byte was taken away, as between backticks.
    is_stripped: bool,
    /// The first byte that isn't gone over yet.
    behind: usize,
    found: Vec<Embedded>,
}

impl Commands {
    fn new(alloc: Global, end: End, computes: bool) -> Commands {
        Commands {
            command: Command::new(alloc),
            quote: Quote::None,
            end,
            open: 0,
            computes,
        }
    }
}

/// The first byte behind a here-document that begins at a place, or nothing where its delimiter isn't found.
fn end_of_document(script: &[u8], from: usize, document: &HereDocument) -> Option<usize> {
    let mut start = from;
    for (count, byte) in script.get(from..)?.iter().enumerate() {
        if *byte != b'\n' {
            continue;
        }
        let end = from.checked_add(count)?;
        let line = script.get(start..end)?;
        let tabs = line.iter().position(|byte| *byte != b'\t').unwrap_or(0);
        let line = if document.strips {
            line.get(tabs..)?
        } else {
            line
        };
        start = end.checked_add(1)?;
        if line == document.delimiter.as_slice() {
            return Some(start);
        }
    }
    None
}

/// Whether a list stands between backticks.
fn is_backtick(end: End) -> bool {
    matches!(end, End::Backtick | End::InnerBacktick)
}

/// Whether a byte ends the delimiter of a here-document.
fn ends_delimiter(byte: u8) -> bool {
    matches!(
        byte,
        b' ' | b'\t' | b'\n' | b';' | b'|' | b'&' | b'<' | b'>' | b'(' | b')'
    )
}

impl<'a> Reader<'a> {
    /// Ends the word that is read.
    fn end_word(&mut self, at: usize) -> Result<(), AllocError> {
        let (alloc, script) = (self.alloc, self.script);
        self.here
            .command
            .end_word(alloc, script, at, &mut self.found)
    }

    /// Ends the command that is read.
    fn end_command(&mut self, at: usize) -> Result<(), AllocError> {
        self.end_word(at)?;
        self.here.command.next = Next::Name;
        self.here.command.is_led = false;
        Ok(())
    }

    /// Goes into commands whose output is put into a word.
    fn enter(&mut self, end: End, computes: bool) -> Result<(), AllocError> {
        if is_backtick(end) {
            self.backticks = self.backticks.saturating_add(1);
        }
        let inner = Commands::new(self.alloc, end, computes);
        let outer = std::mem::replace(&mut self.here, inner);
        self.outer.push(outer)?;
        Ok(())
    }

    /// Comes back from them.
    fn leave(&mut self, at: usize) -> Result<(), AllocError> {
        self.end_command(at)?;
        if is_backtick(self.here.end) {
            self.backticks = self.backticks.saturating_sub(1);
        }
        if let Some(outer) = self.outer.pop() {
            self.here = outer;
        }
        Ok(())
    }

    /// A dollar sign, which puts something into the word.
    fn dollar(&mut self, at: usize) -> Result<(), AllocError> {
        self.here.command.word.is_open = true;
        let behind = self.script.get(at.saturating_add(1)..).unwrap_or(b"");
        if behind.starts_with(b"(") {
            self.behind = at.saturating_add(2);
            return self.enter(End::Parenthesis, behind.starts_with(b"(("));
        }
        Ok(())
    }

    /// What a backtick here closes.
    fn closed_by_backtick(&self) -> End {
        if self.is_stripped {
            End::InnerBacktick
        } else {
            End::Backtick
        }
    }

    fn backtick(&mut self, at: usize) -> Result<(), AllocError> {
        let end = self.closed_by_backtick();
        if self.here.end == end {
            return self.leave(at);
        }
        if self.backticks == 0 {
            self.is_doubled = self.here.quote == Quote::Double;
        }
        self.here.command.word.is_open = true;
        self.enter(end, false)
    }

    /// Whether the backslash at a place is taken away before what stands between backticks is read.
    fn strips(&self, at: usize) -> bool {
        match self.script.get(at.saturating_add(1)) {
            Some(b'$' | b'`' | b'\\') => self.backticks > 0,
            Some(b'"') => self.backticks > 0 && self.is_doubled,
            _ => false,
        }
    }

    /// A byte between double quotes.
    fn double(&mut self, at: usize, byte: u8) -> Result<(), AllocError> {
        match byte {
            b'"' => self.here.quote = Quote::None,
            b'\\' => {
                let next = self.script.get(at.saturating_add(1));
                match next {
                    Some(b'$' | b'`' | b'"' | b'\\' | b'\n') => self.is_escaped = true,
                    _ => self.here.command.word.push(at, byte)?,
                }
            }
            b'$' => self.dollar(at)?,
            b'`' => self.backtick(at)?,
            PUT_IN => self.here.command.word.is_open = true,
            _ => self.here.command.word.push(at, byte)?,
        }
        Ok(())
    }

    /// A byte between single quotes.
    fn single(&mut self, at: usize, byte: u8) -> Result<(), AllocError> {
        match byte {
            b'\'' => self.here.quote = Quote::None,
            PUT_IN => self.here.command.word.is_open = true,
            _ => self.here.command.word.push(at, byte)?,
        }
        Ok(())
    }

    /// A byte behind a backslash.
    fn escaped(&mut self, at: usize, byte: u8) -> Result<(), AllocError> {
        self.is_escaped = false;
        if byte == b'\n' {
            return Ok(());
        }
        // (a quotation mark quotes nothing here)
        self.here.command.word.begin(at, b'\\');
        self.here.command.word.push(at, byte)
    }

    /// The end of a line, behind which here-documents stand.
    fn newline(&mut self, at: usize) -> Result<(), AllocError> {
        self.end_command(at)?;
        let documents = std::mem::replace(&mut self.documents, Vec::new(self.alloc));
        let mut behind = at.saturating_add(1);
        for document in documents.as_slice() {
            if self.endless >= MOST_ENDLESS {
                continue;
            }
            match end_of_document(self.script, behind, document) {
                Some(end) => behind = end,
                None => self.endless = self.endless.saturating_add(1),
            }
        }
        self.behind = behind;
        Ok(())
    }

    fn close(&mut self, at: usize) -> Result<(), AllocError> {
        if self.here.open == 0 && self.here.end == End::Parenthesis {
            return self.leave(at);
        }
        self.here.open = self.here.open.saturating_sub(1);
        self.end_command(at)
    }

    /// The sign behind which the delimiter of a here-document stands.
    fn begin_document(&mut self, at: usize) -> Result<(), AllocError> {
        let mut delimiter = Vec::new(self.alloc);
        let behind = self.script.get(at.saturating_add(2)..).unwrap_or(b"");
        let strips = behind.starts_with(b"-");
        let mut end = at.saturating_add(2);
        for (count, byte) in behind.iter().enumerate() {
            let is_before = delimiter.is_empty()
                && (matches!(*byte, b' ' | b'\t') || (count == 0 && *byte == b'-'));
            if !is_before && ends_delimiter(*byte) {
                break;
            }
            end = end.saturating_add(1);
            if !is_before && !matches!(*byte, b'\'' | b'"' | b'\\') {
                delimiter.push(*byte)?;
            }
        }
        self.behind = end;
        self.documents.push(HereDocument { delimiter, strips })?;
        Ok(())
    }

    /// A sign that leads a stream from or to a file, or from a here-document.
    fn lead(&mut self, at: usize, byte: u8) -> Result<(), AllocError> {
        self.end_word(at)?;
        let behind = self.script.get(at..).unwrap_or(b"");
        if byte == b'<' && behind.starts_with(b"<<<") {
            self.behind = at.saturating_add(3);
        } else if behind.starts_with(b"<<") && !self.here.computes {
            return self.begin_document(at);
        }
        self.here.command.is_led = true;
        Ok(())
    }

    /// A byte outside of quotes.
    fn plain(&mut self, at: usize, byte: u8) -> Result<(), AllocError> {
        match byte {
            b'#' if self.here.command.word.start.is_none() => self.here.quote = Quote::Remark,
            b' ' | b'\t' => return self.end_word(at),
            b'\n' => return self.newline(at),
            b'&' if self.here.command.is_led => {}
            b';' | b'|' | b'&' => return self.end_command(at),
            b'(' => {
                self.here.open = self.here.open.saturating_add(1);
                return self.end_command(at);
            }
            b')' => return self.close(at),
            b'<' | b'>' => return self.lead(at, byte),
            b'\\' => self.is_escaped = true,
            b'`' if self.here.end == self.closed_by_backtick() => return self.leave(at),
            _ => return self.begin_or_go_on(at, byte),
        }
        Ok(())
    }

    /// A byte that begins a word or stands in one.
    fn begin_or_go_on(&mut self, at: usize, byte: u8) -> Result<(), AllocError> {
        self.here.command.word.begin(at, byte);
        match byte {
            b'\'' => self.here.quote = Quote::Single,
            b'"' => self.here.quote = Quote::Double,
            b'$' => return self.dollar(at),
            b'`' => return self.backtick(at),
            PUT_IN => self.here.command.word.is_open = true,
            _ => return self.here.command.word.push(at, byte),
        }
        Ok(())
    }

    fn step(&mut self, at: usize, byte: u8) -> Result<(), AllocError> {
        if at < self.behind {
            return Ok(());
        }
        if byte == b'\\' && !self.is_stripped && self.strips(at) {
            self.is_stripped = true;
            return Ok(());
        }
        self.read(at, byte)?;
        self.is_stripped = false;
        Ok(())
    }

    /// A byte as the shell reads it where it stands.
    fn read(&mut self, at: usize, byte: u8) -> Result<(), AllocError> {
        // (between backticks in backticks more of them are taken away)
        if byte == b'\\' && self.backticks > 1 {
            self.here.command.word.is_open = true;
        }
        if self.is_escaped {
            return self.escaped(at, byte);
        }
        match self.here.quote {
            Quote::None => self.plain(at, byte),
            Quote::Single => self.single(at, byte),
            Quote::Double => self.double(at, byte),
            Quote::Remark if byte == b'\n' => {
                self.here.quote = Quote::None;
                self.newline(at)
            }
            Quote::Remark => Ok(()),
        }
    }
}

/// The programs of what the shell reads, by its places.
fn programs_of(alloc: Global, script: &[u8]) -> Result<Vec<Embedded>, AllocError> {
    let mut reader = Reader {
        alloc,
        script,
        here: Commands::new(alloc, End::Script, false),
        outer: Vec::new(alloc),
        documents: Vec::new(alloc),
        endless: 0,
        is_escaped: false,
        backticks: 0,
        is_doubled: false,
        is_stripped: false,
        behind: 0,
        found: Vec::new(alloc),
    };
    for (at, byte) in script.iter().enumerate() {
        reader.step(at, *byte)?;
    }
    // (a quotation mark that is open was misread, or is a mistake of the script)
    if matches!(reader.here.quote, Quote::None | Quote::Remark) {
        reader.end_command(script.len())?;
    }
    let Reader { found, .. } = reader;
    Ok(found)
}

/// The programs of awk in a shell script or, where that is told, in the recipes of a makefile, with their places there.
pub fn programs_in(
    alloc: Global,
    text: &[u8],
    is_makefile: bool,
) -> Result<Vec<Embedded>, AllocError> {
    let script = if is_makefile {
        Script::of_makefile(alloc, text)?
    } else {
        Script::of_shell(alloc, text)?
    };
    let mut found = programs_of(alloc, &script.text)?;
    for program in found.iter_mut() {
        program.lead_back(&script);
    }
    Ok(found)
}
