// The program's text: a word, or files that are joined.

ghost use Rattle.std.specs.Prelude.{◌≡◌, ◌<◌, ◌++◌, true, IsTrue, IfErr, IfOk, OnOk, Ok, Err, length};
ghost use Rattle.awk_streams.specs.WorldState.{IsFresh, Opens, SameOpen};
ghost use Rattle.awk_streams.specs.Log.{logged, input_opening};
ghost use Rattle.awk_command.specs.CommandLine.{texts, source_of};
ghost use Rattle.awk_command.specs.ProgramText.{kind_of, opened_name, with_newline, ReadsInput, ReadsFile};
ghost use Rattle.awk_command.specs.ProgramText.{ReadsFiles, LeavesFile, ReadsUntil, IsNotRead, ProvidesText};
ghost use Rattle.awk_command.specs.Parts.{ReadsChunk, LeavesChunk, LeavesInput, reason_of};

use crate::command_line::ProgramSource;
use crate::report::NotRun;
use awk_lex::lexer::LIMIT;
use awk_run::Watch;
use awk_streams::{InputKind, World, WorldFault};
use std::alloc::{AllocError, Global};

/// The most bytes of one reading.
const CHUNK: usize = 1_024;

fn not_read(fault: WorldFault) -> NotRun
    ensures { result ≡ reason_of fault }
{
    match fault {
        WorldFault::Memory => NotRun::Memory,
        WorldFault::Failed => NotRun::NotReadable,
    }
}

/// Opens a program file; `-` is standard input.
fn open<W: World>(world: &mut W, name: &[u8]) -> Result<u64, WorldFault>
    ensures fresh { IfOk result (IsFresh (W.state world.old)) }
    ensures opens { IfOk result (Opens (W.state world.old) (W.state world.new)) }
    ensures log { W.is_logged →
        (W.state world.new).log
        ≡ logged (input_opening (kind_of name.now) (opened_name name.now) result) (W.state world.old).log }
{
    if name == b"-".as_slice() {
        world.open_input(InputKind::Standard, b"")
    } else {
        world.open_input(InputKind::File, name)
    }
}

/// One reading, behind the bytes; `false` at the end.
fn read_chunk<W: World>(
    world: &mut W,
    id: u64,
    bytes: &mut Vec<u8>,
    chunk: &mut [u8],
) -> Result<bool, NotRun>
    requires open { IsTrue ((W.state world.old).is_open id) }
    requires room { 0 < length chunk.old }
    ensures open { SameOpen (W.state world.old) (W.state world.new) }
    ensures read { IfOk result
        (λ more. W.is_logged →
        ReadsChunk id more bytes.old.items bytes.new.items (W.state world.old).log (W.state world.new).log) }
    ensures more { result ≡ Ok true → length bytes.old.items < length bytes.new.items }
    ensures err { IfErr result IsNotRead }
    ensures left { IfErr result
        (λ why. W.is_logged → LeavesChunk why id (W.state world.old).log (W.state world.new).log) }
{
    match world.read(id, chunk) {
        Ok(0) => Ok(false),
        Ok(n) => {
            bytes.extend_from_slice(&chunk[..n])?;
            Ok(true)
        }
        Err(fault) => Err(not_read(fault)),
    }
}

/// Reads an input to its end, or until its bytes are too many for a program.
fn read_input<W: World>(alloc: Global, world: &mut W, id: u64) -> Result<Vec<u8>, NotRun>
    requires open { IsTrue ((W.state world.old).is_open id) }
    ensures open { SameOpen (W.state world.old) (W.state world.new) }
    ensures read { IfOk result
        (λ bytes. W.is_logged → ReadsInput id bytes.items (W.state world.old).log (W.state world.new).log) }
    ensures err { IfErr result IsNotRead }
    ensures left { IfErr result
        (λ why. W.is_logged → LeavesInput why id (W.state world.old).log (W.state world.new).log) }
{
    let mut bytes = Vec::new(alloc);
    let mut chunk = [0u8; CHUNK];
    // (a longer text is refused, so a file is read no further)
    while bytes.len() <= LIMIT {
        if !read_chunk(world, id, &mut bytes, &mut chunk)? {
            return Ok(bytes);
        }
    }
    Ok(bytes)
}

/// Opens a file, reads it and closes it.
fn read_file<W: World>(alloc: Global, world: &mut W, name: &[u8]) -> Result<Vec<u8>, NotRun>
    ensures read { IfOk result
        (λ bytes. W.is_logged → ReadsFile name.now bytes.items (W.state world.old).log (W.state world.new).log) }
    ensures err { IfErr result IsNotRead }
    ensures left { IfErr result
        (λ why. W.is_logged → LeavesFile why name.now (W.state world.old).log (W.state world.new).log) }
{
    let id = open(world, name).map_err(not_read)?;
    let bytes = read_input(alloc, world, id);
    world.close(id);
    bytes
}

/// Adds a file's bytes to the text, and a newline if they end with none.
fn append_file(text: &mut Vec<u8>, bytes: &[u8]) -> Result<(), AllocError>
    ensures { OnOk result (text.new.items ≡ text.old.items ++ with_newline bytes.now) }
{
    text.extend_from_slice(bytes)?;
    if !bytes.ends_with(b"\n") {
        text.push(b'\n')?;
    }
    Ok(())
}

/// The joined texts of files.
fn read_files<W: World, T: Watch>(
    alloc: Global,
    world: &mut W,
    names: &[Vec<u8>],
    watch: &mut T,
) -> Result<Vec<u8>, NotRun>
    ensures read { IfOk result
        (λ text. W.is_logged → ReadsFiles (texts names.now) text.items (W.state world.old).log (W.state world.new).log) }
    ensures err { IfErr result IsNotRead }
    ensures left { IfErr result
        (λ why. W.is_logged → ReadsUntil why (texts names.now) (W.state world.old).log (W.state world.new).log) }
{
    let mut text = Vec::new(alloc);
    for name in names {
        let bytes = read_file(alloc, world, name)?;
        append_file(&mut text, &bytes)?;
        watch.read(&bytes);
    }
    Ok(text)
}

/// The text of a program. (POSIX awk, OPTIONS)
pub(crate) fn program_text<W: World, T: Watch>(
    alloc: Global,
    world: &mut W,
    source: ProgramSource,
    watch: &mut T,
) -> Result<Vec<u8>, NotRun>
    ensures text { ProvidesText W.is_logged (source_of source) (W.state world.old) result (W.state world.new) }
{
    match source {
        ProgramSource::Text(text) => {
            watch.read(&text);
            Ok(text)
        }
        ProgramSource::Files(names) => read_files(alloc, world, &names, watch),
    }
}
