// The state before a run.

ghost use Rattle.std.specs.Prelude.{◌≡◌, ℕ, List, ◌<◌, ◌∷◌, ◌++◌, [], map, suc, length, None, IfOk, IfErr, OnOk, codes, bytes_eq, get_or, slice_set};
ghost use Rattle.awk_value.specs.declared.value.Value.TheVariants.{Nothing};
ghost use Rattle.awk_kinds.specs.Variables.{value_of, initial_value};
ghost use Rattle.awk_semantics.specs.Results.{IsWantOfMemory};
ghost use Rattle.awk_semantics.specs.Meaning.{environ_from, first_array, first_arrays};
ghost use Rattle.awk_storage.specs.support.Tables.{array_of};
ghost use Rattle.awk_runtime.specs.support.Beginning.{pair_of, texts_of, start_of, IsPutTogether, IsStart};

use crate::names::ProgramNames;
use crate::runtime::Runtime;
use awk_functions::{Formats, Patterns};
use awk_record::Record;
use awk_semantics::{Fault, Halt};
use awk_storage::{Arrays, Frames, Subscript, Variables};
use awk_streams::Streams;
use awk_value::{Bytes, Value};
use std::alloc::{AllocError, Global};

/// A name with its text: of the environment, or of an assignment before a run.
#[derive(Drop)]
pub struct Assignment {
    pub name: Vec<u8>,
    pub text: Vec<u8>,
}

/// Whether a name is that of the operands' array.
fn is_argv(name: &[u8]) -> bool
    ensures { result ≡ bytes_eq name.now (codes "ARGV") }
{
    name == b"ARGV".as_slice()
}

/// Whether a name is that of the environment's array.
fn is_environ(name: &[u8]) -> bool
    ensures { result ≡ bytes_eq name.now (codes "ENVIRON") }
{
    name == b"ENVIRON".as_slice()
}

/// The elements of ARGV: `awk`, and the operands.
fn argument_texts(alloc: Global, operands: &[Vec<u8>]) -> Result<Vec<Bytes>, AllocError>
    ensures { IfOk result (λ texts. texts.items ≡ codes "awk" ∷ texts_of operands.now) }
{
    let mut texts = Vec::new(alloc);
    texts.push(Bytes::from_slice(alloc, b"awk")?)?;
    for operand in operands {
        texts.push(Bytes::from_slice(alloc, operand)?)?;
    }
    Ok(texts)
}

/// Gives the array of a number the environment, by name. The only fault is want of memory. (POSIX awk, Variables and Special
/// Variables: ENVIRON)
fn put_environ(
    alloc: Global,
    arrays: &mut Arrays,
    number: usize,
    environ: &[Assignment],
) -> Result<(), Halt>
    requires { number < length arrays.old }
    ensures put { OnOk result (arrays.new ≡ slice_set arrays.old number (environ_from (array_of arrays.old number) (map pair_of environ.now))) }
    ensures memory { IfErr result IsWantOfMemory }
{
    for entry in environ {
        let text = Bytes::from_slice(alloc, &entry.text)?;
        arrays.put(number, Subscript::Text(&entry.name), Value::Input(text))?;
    }
    Ok(())
}

/// Adds the array of a name as it is before a run. The only fault is want of memory. (POSIX awk, Variables and Special
/// Variables: ARGV, ENVIRON)
fn add_array(
    alloc: Global,
    arrays: &mut Arrays,
    name: &[u8],
    operands: &[Vec<u8>],
    environ: &[Assignment],
) -> Result<(), Halt>
    ensures added { OnOk result (arrays.new ≡ arrays.old ++ first_array (start_of operands.now environ.now) name.now ∷ []) }
    ensures memory { IfErr result IsWantOfMemory }
{
    let number = arrays.len();
    arrays.add()?;
    if is_argv(name) {
        arrays.fill(number, 0, argument_texts(alloc, operands)?)?;
        return Ok(());
    }
    if is_environ(name) {
        return put_environ(alloc, arrays, number, environ);
    }
    Ok(())
}

/// The arrays of a program before a run. The only fault is want of memory.
fn first_arrays(
    alloc: Global,
    names: &ProgramNames,
    operands: &[Vec<u8>],
    environ: &[Assignment],
) -> Result<Arrays, Halt>
    ensures arrays { IfOk result (λ arrays. arrays ≡ first_arrays (start_of operands.now environ.now) names.now.arrays) }
    ensures memory { IfErr result IsWantOfMemory }
{
    let mut arrays = Arrays::new(alloc);
    for number in 0..names.array_count() {
        if let Some(name) = names.array_name(number) {
            add_array(alloc, &mut arrays, name, operands, environ)?;
        }
    }
    Ok(arrays)
}

/// So many variables, of which none was ever assigned.
fn unassigned(alloc: Global, count: usize) -> Result<Vec<Value>, AllocError>
    ensures count { IfOk result (λ values. length values.items ≡ count) }
    ensures nothing { IfOk result (λ values. (i : ℕ) → get_or values.items i Nothing ≡ Nothing) }
{
    let mut values = Vec::with_capacity(alloc, count)?;
    while values.len() < count {
        values.push(Value::Nothing)?;
    }
    Ok(values)
}

/// The streams before a run, with the room in which they hold back what is printed. The only fault is want of memory.
fn streams_with_room(alloc: Global) -> Result<Streams, Halt>
    ensures fresh { IfOk result (λ s. s ≡ record { main = None; output = []; error = []; named = [] }) }
    ensures memory { IfErr result IsWantOfMemory }
{
    let mut streams = Streams::new(alloc);
    streams.make_room()?;
    Ok(streams)
}

/// The special variables before a run of so many operands. The only fault is want of memory.
fn first_specials(alloc: Global, operands: usize) -> Result<Variables, Halt>
    ensures start { IfOk result (λ v. (x : List ℕ) → value_of v x ≡ initial_value (suc operands) x) }
    ensures memory { IfErr result IsWantOfMemory }
{
    let Some(arguments) = operands.checked_add(1) else {
        return Err(Halt::Fault(Fault::OutOfMemory));
    };
    let specials = Variables::new(alloc, arguments)?;
    Ok(specials)
}

/// The record at hand before a run. The only fault is want of memory.
fn first_record(alloc: Global) -> Result<Record, Halt>
    ensures text { IfOk result (λ r. r.text ≡ []) }
    ensures fields { IfOk result (λ r. r.fields ≡ []) }
    ensures memory { IfErr result IsWantOfMemory }
{
    let record = Record::new(alloc)?;
    Ok(record)
}

/// What is read and printed by, before a run.
#[derive(Drop)]
struct Readers {
    current: Record,
    patterns: Patterns,
    formats: Formats,
    streams: Streams,
}

/// What is read and printed by, before a run. The only fault is want of memory.
fn first_readers(alloc: Global) -> Result<Readers, Halt>
    ensures text { IfOk result (λ r. r.current.text ≡ []) }
    ensures fields { IfOk result (λ r. r.current.fields ≡ []) }
    ensures streams { IfOk result (λ r. r.streams ≡ record { main = None; output = []; error = []; named = [] }) }
    ensures memory { IfErr result IsWantOfMemory }
{
    let current = first_record(alloc)?;
    let streams = streams_with_room(alloc)?;
    let patterns = Patterns::new(alloc)?;
    Ok(Readers {
        current,
        patterns,
        formats: Formats::new(alloc)?,
        streams,
    })
}

/// What a state is made of before a run.
#[derive(Drop)]
struct Parts {
    readers: Readers,
    globals: Vec<Value>,
    arrays: Arrays,
    specials: Variables,
}

/// What a state is made of before a run. The only fault is want of memory.
fn first_parts(
    alloc: Global,
    names: &ProgramNames,
    operands: &[Vec<u8>],
    environ: &[Assignment],
) -> Result<Parts, Halt>
    ensures text { IfOk result (λ v. v.readers.current.text ≡ []) }
    ensures fields { IfOk result (λ v. v.readers.current.fields ≡ []) }
    ensures streams { IfOk result (λ v. v.readers.streams ≡ record { main = None; output = []; error = []; named = [] }) }
    ensures specials { IfOk result (λ v. (x : List ℕ) → value_of v.specials x ≡ initial_value (suc (length operands.now)) x) }
    ensures slots { IfOk result (λ v. length v.globals.items ≡ length names.now.scalars) }
    ensures nothing { IfOk result (λ v. (i : ℕ) → get_or v.globals.items i Nothing ≡ Nothing) }
    ensures arrays { IfOk result (λ v. v.arrays ≡ first_arrays (start_of operands.now environ.now) names.now.arrays) }
    ensures memory { IfErr result IsWantOfMemory }
{
    let readers = first_readers(alloc)?;
    let globals = unassigned(alloc, names.scalar_count())?;
    let arrays = first_arrays(alloc, names, operands, environ)?;
    let specials = first_specials(alloc, operands.len())?;
    Ok(Parts {
        readers,
        globals,
        arrays,
        specials,
    })
}

/// A state of these parts, in which nothing was done.
fn put_together(alloc: Global, names: ProgramNames, parts: Parts, limit: u64) -> Runtime
    ensures { IsPutTogether names parts limit result }
{
    let readers = parts.readers;
    Runtime {
        alloc,
        names,
        current: readers.current,
        specials: parts.specials,
        globals: parts.globals,
        arrays: parts.arrays,
        frames: Frames::new(alloc),
        streams: readers.streams,
        patterns: readers.patterns,
        formats: readers.formats,
        next: 1,
        input_seen: false,
        inside: Vec::new(alloc),
        status: 0,
        steps: limit,
        line: Vec::new(alloc),
        spans: Vec::new(alloc),
    }
}

impl Runtime {
    /// The state before a run of a program with these names, of these operands, in this environment, with so many steps. The
    /// only fault is want of memory.
    pub fn new(
        alloc: Global,
        names: ProgramNames,
        operands: &[Vec<u8>],
        environ: &[Assignment],
        limit: u64,
    ) -> Result<Runtime, Halt>
        ensures start { IfOk result (λ m. IsStart names (start_of operands.now environ.now) limit m) }
        ensures memory { IfErr result IsWantOfMemory }
    {
        let _own = names.scalar_count();
        let parts = first_parts(alloc, &names, operands, environ)?;
        Ok(put_together(alloc, names, parts, limit))
    }
}
