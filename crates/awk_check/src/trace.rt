// What is kept of a run while it goes on.

use awk_evaluator::{Machine, Watch};
use awk_kinds::Special;
use awk_semantics::{Halt, Outcome};
use awk_storage::Subscript;
use awk_value::{Bytes, ValueFault, text_of};
use std::alloc::{AllocError, Global};

/// The most callers that are kept, those of the newest calls.
const CALLERS_KEPT: usize = 16;

/// Where the machine halted.
#[derive(Drop)]
pub(crate) struct Halted {
    pub(crate) halt: Halt,
    /// The node that it came to last.
    pub(crate) at: u32,
    /// The nodes at which callers go on, that of the newest call first.
    pub(crate) callers: Vec<u32>,
    /// How many calls were active.
    pub(crate) depth: usize,
}

/// How a run ended, and what stood in awk's own variables.
#[derive(Drop)]
pub(crate) struct Ended {
    pub(crate) outcome: Outcome,
    pub(crate) filename: Bytes,
    pub(crate) fnr: Bytes,
    pub(crate) nr: Bytes,
    /// The operand that was looked at last; empty where none was.
    pub(crate) operand: Bytes,
}

/// What is kept of a run.
#[derive(Drop)]
pub(crate) struct Trace {
    alloc: Global,
    /// The text of the program, so far as it was read.
    pub(crate) text: Vec<u8>,
    /// Where in it each of its files begins.
    pub(crate) starts: Vec<usize>,
    /// The node that the machine came to last.
    last: u32,
    /// How often it came to each node.
    counts: Vec<u64>,
    pub(crate) halted: Option<Halted>,
    pub(crate) ended: Option<Ended>,
    /// Whether there was no memory for some of this.
    pub(crate) is_short: bool,
}

/// The text of a value.
fn text(alloc: Global, machine: &Machine, special: Special) -> Result<Bytes, ValueFault> {
    text_of(alloc, machine.runtime.specials.special(special))
}

/// The number of the array ARGV.
fn argv_number(machine: &Machine) -> Option<usize> {
    let names = &machine.runtime.names;
    for number in 0..names.array_count() {
        match names.array_name(number) {
            Some(b"ARGV") => return Some(number),
            _ => {}
        }
    }
    None
}

/// The element of ARGV that was looked at last; empty where none was, and where it is absent.
fn last_operand(alloc: Global, machine: &Machine) -> Result<Bytes, ValueFault> {
    let last = machine.runtime.next.saturating_sub(1);
    let found = match argv_number(machine) {
        Some(number) if last > 0 => machine.runtime.arrays.get(number, Subscript::Number(last)),
        _ => None,
    };
    match found {
        Some(value) => text_of(alloc, value),
        None => Ok(Bytes::from_slice(alloc, b"")?),
    }
}

impl Trace {
    /// Nothing has run.
    pub(crate) fn new(alloc: Global) -> Trace {
        Trace {
            alloc,
            text: Vec::new(alloc),
            starts: Vec::new(alloc),
            last: 0,
            counts: Vec::new(alloc),
            halted: None,
            ended: None,
            is_short: false,
        }
    }

    /// How often the machine came to a node.
    pub(crate) fn count_at(&self, node: usize) -> u64 {
        self.counts.get(node).copied().unwrap_or(0)
    }

    /// Ends the text with a newline, where it is one of files.
    pub(crate) fn end_line(&mut self) -> Result<(), AllocError> {
        if !self.text.is_empty() && !self.text.ends_with(b"\n") {
            self.text.push(b'\n')?;
        }
        Ok(())
    }

    fn add_text(&mut self, bytes: &[u8]) -> Result<(), AllocError> {
        self.end_line()?;
        self.starts.push(self.text.len())?;
        self.text.extend_from_slice(bytes)?;
        Ok(())
    }

    /// Counts the first coming to a node above those that were counted.
    fn count_first(&mut self, at: usize) -> Result<(), AllocError> {
        self.counts.resize(at, 0)?;
        self.counts.push(1)?;
        Ok(())
    }

    fn keep_halt(&mut self, machine: &Machine) -> Result<(), AllocError> {
        let mut callers = Vec::new(self.alloc);
        let entries = machine.runtime.frames.entries();
        for entry in entries.iter().rev().take(CALLERS_KEPT) {
            callers.push(entry.caller.next)?;
        }
        self.halted = Some(Halted {
            halt: machine.halt,
            at: self.last,
            callers,
            depth: entries.len(),
        });
        Ok(())
    }

    fn keep_end(&mut self, machine: &Machine, outcome: &Outcome) -> Result<(), ValueFault> {
        self.ended = Some(Ended {
            outcome: *outcome,
            filename: text(self.alloc, machine, Special::Filename)?,
            fnr: text(self.alloc, machine, Special::Fnr)?,
            nr: text(self.alloc, machine, Special::Nr)?,
            operand: last_operand(self.alloc, machine)?,
        });
        Ok(())
    }
}

impl Watch for Trace {
    fn read(&mut self, bytes: &[u8]) {
        if self.add_text(bytes).is_err() {
            self.is_short = true;
        }
    }

    fn visit(&mut self, at: u32) {
        self.last = at;
        if let Some(count) = self.counts.get_mut(at as usize) {
            *count = count.saturating_add(1);
        } else if self.count_first(at as usize).is_err() {
            self.is_short = true;
        }
    }

    fn halt(&mut self, machine: &Machine) {
        if self.keep_halt(machine).is_err() {
            self.is_short = true;
        }
    }

    fn end(&mut self, machine: &Machine, outcome: &Outcome) {
        if self.keep_end(machine, outcome).is_err() {
            self.is_short = true;
        }
    }
}
