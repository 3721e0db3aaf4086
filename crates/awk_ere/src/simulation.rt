// One step of the simulation: for one byte, the program of a pattern is run from its first to its last instruction. A signal
// flows through it, which tells of each point of the program whether a match has come there. Forks keep the signal for their
// second branch on a stack.

ghost use Rattle.std.specs.Prelude.{◌≡◌, ℕ, ◌+◌, ◌<◌, ◌≤◌, ◌&&◌, ◌||◌, false, true, [], ◌∷◌, length};
ghost use Rattle.std.specs.Prelude.{drop, replicate, slice_set, slice_index_or, MatchResult};
ghost use Rattle.awk_ere.specs.definitions.Tree.{has};
ghost use Rattle.awk_ere.specs.definitions.Program.{resolve};
ghost use Rattle.awk_ere.specs.support.Simulation.{swapped, joined, act, read_off};
ghost use Rattle.awk_ere.specs.support.SimulationStep.{AreFor, leaves, behind};

use crate::fault::PatternFault;
use crate::pattern::Pattern;
use crate::program::Instruction;
use crate::token::BYTE_COUNT;
use std::alloc::Global;

/// Whether a match has come to a point of the program: before the byte that is read, and after it.
#[derive(Clone, Copy)]
pub(crate) struct Signal {
    pub(crate) before: bool,
    pub(crate) after: bool,
}

/// What flows, and the top of the stack of signals that forks keep. The stack grows towards the front of its slice.
#[derive(Clone, Copy)]
pub(crate) struct Flow {
    pub(crate) now: Signal,
    pub(crate) kept: usize,
}

/// A place of the text: the byte behind it, and whether the text starts and ends there.
#[derive(Clone, Copy)]
pub(crate) struct Input {
    pub(crate) byte: u8,
    pub(crate) start: bool,
    pub(crate) end: bool,
}

/// The positions that are reached, a flag for each instruction, and room for the signals that forks keep.
#[derive(Drop)]
pub(crate) struct PositionSet {
    pub(crate) positions: Vec<bool>,
    pub(crate) kept: Vec<Signal>,
}

// Whether the byte is in the class with this number. A number out of range is an empty class.
fn is_in(classes: &[[bool; BYTE_COUNT]], number: u32, byte: u8) -> bool
    ensures { result ≡ has (slice_index_or classes.now number []) byte }
{
    match classes.get(number as usize) {
        Some(class) => class[byte as usize],
        None => false,
    }
}

// Reads a byte that passes or doesn't. A match that has read the byte before here goes on, and one that comes here before
// this byte reaches the position where the byte passes.
fn read(positions: &mut [bool], i: usize, at: Flow, passes: bool) -> Flow
    requires { i < length positions.old }
    ensures flow { result
        ≡ record {
          now = record {
            before = slice_index_or positions.old i false;
            after = at.now.before && passes;
          };
          kept = at.kept;
        } }
    ensures positions { positions.new ≡ slice_set positions.old i (at.now.before && passes) }
{
    let before = positions[i];
    let after = at.now.before && passes;
    positions[i] = after;
    Flow {
        now: Signal { before, after },
        kept: at.kept,
    }
}

// An anchor: only what flows before the byte goes on, and only where the test holds.
fn guard(at: Flow, holds: bool) -> Flow
    ensures { result
        ≡ record { now = record { before = at.now.before && holds; after = at.now.after && false }; kept = at.kept } }
{
    Flow {
        now: Signal {
            before: at.now.before && holds,
            after: false,
        },
        kept: at.kept,
    }
}

// The signal is kept for the second branch, and goes on into the first.
fn fork(kept: &mut [Signal], at: Flow) -> Flow
    requires room { 0 < at.kept }
    requires stacked { at.kept ≤ length kept.old }
    ensures flow { read_off result kept.new ≡ record { now = at.now; kept = at.now ∷ drop at.kept kept.old } }
    ensures kept { result.kept + 1 ≡ at.kept }
{
    kept[at.kept - 1] = at.now;
    Flow {
        now: at.now,
        kept: at.kept - 1,
    }
}

// The signal that was kept goes on, and that behind the first branch is kept.
fn swap(kept: &mut [Signal], at: Flow) -> Flow
    ensures flow { read_off result kept.new ≡ swapped at.now (drop at.kept kept.old) }
    ensures kept { result.kept ≡ at.kept }
{
    if at.kept < kept.len() {
        let now = kept[at.kept];
        kept[at.kept] = at.now;
        Flow { now, kept: at.kept }
    } else {
        at
    }
}

// The signals behind both branches go on as one.
fn join(kept: &[Signal], at: Flow) -> Flow
    requires { at.kept ≤ length kept.now }
    ensures flow { read_off result kept.now ≡ joined at.now (drop at.kept kept.now) }
    ensures room { at.kept ≤ result.kept }
    ensures stacked { result.kept ≤ length kept.now }
{
    match kept.get(at.kept) {
        Some(first) => Flow {
            now: Signal {
                before: first.before || at.now.before,
                after: first.after || at.now.after,
            },
            kept: at.kept + 1,
        },
        None => at,
    }
}

// Where the body is complete, what flows behind it flows before it too.
fn enter(positions: &[bool], i: usize, far: u32, at: Flow) -> Flow
    requires { i < length positions.now }
    ensures { result
        ≡ record {
          now = record {
            before = at.now.before || slice_index_or (drop i positions.now) far false;
            after = at.now.after;
          };
          kept = at.kept;
        } }
{
    let complete = match positions[i..].get(far as usize) {
        Some(complete) => *complete,
        None => false,
    };
    Flow {
        now: Signal {
            before: at.now.before || complete,
            after: at.now.after,
        },
        kept: at.kept,
    }
}

// One instruction, at the place i.
fn step_instruction(
    classes: &[[bool; BYTE_COUNT]],
    instruction: Instruction,
    i: usize,
    positions: &mut [bool],
    kept: &mut [Signal],
    at: Flow,
    input: Input,
) -> Flow
    requires within { i < length positions.old }
    requires room { 0 < at.kept }
    requires stacked { at.kept ≤ length kept.old }
    ensures flow { read_off result kept.new
        ≡ (act input.start input.end input.byte (resolve classes.now instruction) (drop i positions.old)
        (read_off at kept.old)).0 }
    ensures positions { positions.new
        ≡ slice_set positions.old i
        (act input.start input.end input.byte (resolve classes.now instruction) (drop i positions.old)
        (read_off at kept.old)).1 }
    ensures room { at.kept ≤ result.kept + 1 }
    ensures stacked { result.kept ≤ length kept.old }
{
    match instruction {
        Instruction::Byte(byte) => read(positions, i, at, input.byte == byte),
        Instruction::Any => read(positions, i, at, true),
        Instruction::Class(number) => read(positions, i, at, is_in(classes, number, input.byte)),
        Instruction::Start => guard(at, input.start),
        Instruction::End => guard(at, input.end),
        Instruction::Fork => fork(kept, at),
        Instruction::Swap => swap(kept, at),
        Instruction::Join => join(kept, at),
        Instruction::Enter(far) => enter(positions, i, far, at),
        Instruction::Leave => {
            positions[i] = at.now.after;
            at
        }
    }
}

impl PositionSet {
    /// A set for a program of this length, where no match has begun.
    pub(crate) fn for_count(alloc: Global, count: usize) -> Result<PositionSet, PatternFault>
        ensures { MatchResult result
            (λ set. (length set.positions.items ≡ count) × (length set.kept.items ≡ count))
            (λ fault. fault ≡ PatternFault.Memory) }
    {
        let none = Signal {
            before: false,
            after: false,
        };
        let positions = vec![in alloc; false; count]?;
        let kept = vec![in alloc; none; count]?;
        Ok(PositionSet { positions, kept })
    }

    /// No match has begun.
    pub(crate) fn clear(&mut self)
        ensures positions { self.new.positions.items ≡ replicate (length self.old.positions.items) false }
        ensures same { (p : Pattern) → AreFor self.old p → AreFor self.new p }
    {
        self.positions.as_mut_slice().fill(false);
    }

    /// Whether no match that has begun goes on.
    pub(crate) fn is_dead(&self) -> bool
        ensures { result ≡ true → self.now.positions.items ≡ replicate (length self.now.positions.items) false }
    {
        !self.positions.as_slice().contains(&true)
    }
}

impl Pattern {
    /// One step: whether the flow leaves the program before the byte. The positions become those behind it.
    pub(crate) fn step(&self, position_set: &mut PositionSet, before: bool, input: Input) -> bool
        requires { AreFor position_set.old self.now }
        ensures leaves { result ≡ leaves self.now position_set.old.positions.items input.start before input.end input.byte }
        ensures positions { position_set.new.positions.items
            ≡ behind self.now position_set.old.positions.items input.start before input.end input.byte }
        ensures same { AreFor position_set.new self.now }
    {
        let classes = self.program.classes.as_slice();
        let positions = position_set.positions.as_mut_slice();
        let kept = position_set.kept.as_mut_slice();
        let mut at = Flow {
            now: Signal {
                before,
                after: false,
            },
            kept: kept.len(),
        };
        for (i, instruction) in self.program.instructions.as_slice().iter().enumerate() {
            at = step_instruction(classes, *instruction, i, positions, kept, at, input);
        }
        at.now.before
    }
}
