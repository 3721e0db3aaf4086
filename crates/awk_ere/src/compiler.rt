// A program that is being made, token by token.

ghost use Rattle.std.specs.Prelude.{◌≡◌, suc, ◌≤◌, ◌+◌, ◌-◌, ◌*◌, ◌++◌, ◌∷◌, [], replicate};
ghost use Rattle.std.specs.Prelude.{reverse, length, nat_le, OnOk, IfOk, Some, if◌then◌else◌};
ghost use Rattle.awk_ere.specs.definitions.Limits.{greatest_size};
ghost use Rattle.awk_ere.specs.support.CompilerState as compiler;
ghost use Rattle.awk_ere.specs.support.CompilerState.{IsSound, IsWithin, taken, limited};
ghost use Rattle.awk_ere.specs.support.CompilerState.{is_small, most_instructions, state_of};
ghost use Rattle.awk_ere.specs.support.CompilerResult.{Finishes};

pub mod checkpoint;

use crate::compiler::checkpoint::{Checkpoint, Group, Last};
use crate::fault::PatternFault;
use crate::program::{Instruction, Program};
use crate::repeat::repeat_from;
use crate::token::{BYTE_COUNT, Repeat, Token};
use std::alloc::{AllocError, Global};

/// The greatest size of a pattern.
const GREATEST_SIZE: usize = 10_000;

/// A program that is being made. A size above the greatest counts as one more than that, and what leads there has no
/// instructions: either the pattern is too large, or a repeat that allows no round takes it away.
#[derive(Drop)]
pub struct Compiler {
    pub instructions: Vec<Instruction>,
    pub classes: Vec<[bool; BYTE_COUNT]>,
    /// The groups around the present one, the outermost first.
    pub outer: Vec<Group>,
    pub group: Group,
    pub last: Last,
    pub size: usize,
}

/// The size of a repeat whose body has this size.
fn repeated_size(repeat: Repeat, size: usize) -> usize
    requires { size ≤ suc greatest_size }
    ensures { result ≡ compiler.seen_size repeat size }
{
    match repeat {
        Repeat::Star | Repeat::Plus | Repeat::Option => size + 1,
        Repeat::Exactly(count) | Repeat::Between(_, count) => count as usize * size + 1,
        Repeat::AtLeast(count) => (count as usize + 1) * size + 1,
    }
}

/// Whether a repeat allows no round.
fn is_never(repeat: Repeat) -> bool
    ensures { result ≡ compiler.is_never repeat }
{
    matches!(repeat, Repeat::Exactly(0) | Repeat::Between(_, 0))
}

impl Compiler {
    /// The program of no tokens.
    pub fn new(alloc: Global) -> Compiler
        ensures { state_of result ≡ compiler.begun }
    {
        Compiler {
            instructions: Vec::new(alloc),
            classes: Vec::new(alloc),
            outer: Vec::new(alloc),
            group: Group {
                begin: Checkpoint {
                    size: 0,
                    instructions: 0,
                    classes: 0,
                },
                branch: 0,
                bars: 0,
            },
            last: Last::Nothing,
            size: 0,
        }
    }

    fn checkpoint(&self) -> Checkpoint
        ensures { result ≡ compiler.checkpoint_of (state_of self.now) }
    {
        Checkpoint {
            size: self.size,
            instructions: self.instructions.len(),
            classes: self.classes.len(),
        }
    }

    /// Sets the size, and tells whether what is read is still small enough.
    fn resize(&mut self, size: usize) -> bool
        ensures size { self.new.size ≡ limited size }
        ensures small { result ≡ is_small (limited size) }
        ensures rest { state_of self.new ≡ record (state_of self.old) { size = limited size } }
    {
        self.size = size.min(GREATEST_SIZE + 1);
        self.size <= GREATEST_SIZE
    }

    /// A piece of one instruction.
    fn push(&mut self, last: Last, instruction: Instruction) -> Result<(), AllocError>
        requires { self.old.size ≤ suc greatest_size }
        ensures { OnOk result (state_of self.new ≡ compiler.push last instruction (state_of self.old)) }
    {
        self.last = last;
        if self.resize(self.size + 1) {
            self.instructions.push(instruction)?;
        }
        Ok(())
    }

    /// A bracket of this class.
    fn push_class(&mut self, class: &[bool; BYTE_COUNT]) -> Result<(), AllocError>
        requires size { self.old.size ≤ suc greatest_size }
        requires few { length self.old.classes.items ≤ greatest_size }
        ensures { OnOk result (state_of self.new ≡ compiler.push_class class.now (state_of self.old)) }
    {
        self.last = Last::Part(self.checkpoint());
        if self.resize(self.size + 1) {
            self.instructions
                .push(Instruction::Class(self.classes.len() as u32))?;
            self.classes.push(*class)?;
        }
        Ok(())
    }

    fn open(&mut self) -> Result<(), AllocError>
        ensures { OnOk result (state_of self.new ≡ compiler.open_group (state_of self.old)) }
    {
        self.outer.push(self.group)?;
        self.group = Group {
            begin: self.checkpoint(),
            branch: self.instructions.len(),
            bars: 0,
        };
        self.last = Last::Nothing;
        Ok(())
    }

    /// Ends the branches of the present group.
    fn end(&mut self) -> Result<(), AllocError>
        requires short { length self.old.instructions.items ≤ most_instructions }
        requires bars { self.old.group.bars ≤ greatest_size }
        ensures { OnOk result
            (state_of self.new
            ≡ record (state_of self.old) { instructions = compiler.ended_instructions (state_of self.old) }) }
    {
        if self.size <= GREATEST_SIZE {
            self.instructions.resize(self.instructions.len() + self.group.bars, Instruction::Join)?;
        }
        Ok(())
    }

    fn close(&mut self) -> Result<bool, AllocError>
        requires { IsSound (state_of self.old) }
        ensures { IfOk result (λ ok. taken ok (state_of self.new)
            ≡ compiler.close_into (reverse self.old.outer.items) (state_of self.old)) }
    {
        self.end()?;
        let Some(outer) = self.outer.pop() else {
            return Ok(false);
        };
        self.last = Last::Part(self.group.begin);
        self.group = outer;
        Ok(true)
    }

    fn next_branch(&mut self) -> Result<(), AllocError>
        requires size { self.old.size ≤ suc greatest_size }
        requires branch { self.old.group.branch ≤ length self.old.instructions.items }
        requires bars { self.old.group.bars ≤ greatest_size }
        requires short { length self.old.instructions.items ≤ most_instructions }
        ensures { OnOk result (state_of self.new ≡ compiler.next_branch (state_of self.old)) }
    {
        self.last = Last::Nothing;
        if self.resize(self.size + 1) {
            self.instructions
                .insert(self.group.branch, Instruction::Fork)?;
            self.instructions.push(Instruction::Swap)?;
            self.group.branch = self.instructions.len();
            self.group.bars += 1;
        }
        Ok(())
    }

    fn repeat_from(&mut self, repeat: Repeat, place: Checkpoint) -> Result<(), AllocError>
        requires sizes { place.size ≤ self.old.size }
        requires size { self.old.size ≤ suc greatest_size }
        requires within { place.instructions ≤ length self.old.instructions.items }
        requires short { length self.old.instructions.items ≤ most_instructions }
        ensures { OnOk result (state_of self.new ≡ compiler.repeat_from repeat place (state_of self.old)) }
    {
        let body = self.size - place.size;
        if self.resize(place.size + repeated_size(repeat, body)) {
            if is_never(repeat) {
                self.classes.truncate(place.classes);
            }
            repeat_from(&mut self.instructions, place.instructions, repeat)?;
        }
        Ok(())
    }

    fn repeat(&mut self, repeat: Repeat) -> Result<bool, AllocError>
        requires { IsSound (state_of self.old) }
        ensures { IfOk result (λ ok. taken ok (state_of self.new)
            ≡ compiler.repeat_last repeat self.old.last (state_of self.old)) }
    {
        let Last::Part(place) = self.last else {
            return Ok(false);
        };
        self.repeat_from(repeat, place)?;
        Ok(true)
    }

    /// Takes in one token more, and tells whether it may stand there. The class is that of a bracket.
    pub fn take_in(&mut self, token: Token, class: &[bool; BYTE_COUNT]) -> Result<bool, AllocError>
        requires { IsSound (state_of self.old) }
        ensures { IfOk result (λ ok. taken ok (state_of self.new)
            ≡ compiler.take_in token class.now (state_of self.old)) }
    {
        let part = Last::Part(self.checkpoint());
        match token {
            Token::Byte(byte) => self.push(part, Instruction::Byte(byte))?,
            Token::Any => self.push(part, Instruction::Any)?,
            Token::Bracket(_) => self.push_class(class)?,
            Token::Start => self.push(Last::Anchor, Instruction::Start)?,
            Token::End => self.push(Last::Anchor, Instruction::End)?,
            Token::Open => self.open()?,
            Token::Bar => self.next_branch()?,
            Token::Close => return self.close(),
            Token::Again(repeat) => return self.repeat(repeat),
        }
        Ok(true)
    }

    /// The program of all tokens, unless they are too large.
    pub fn finish(mut self) -> Result<Program, PatternFault>
        requires { IsSound (state_of self) }
        ensures { Finishes (state_of self) result }
    {
        self.end()?;
        if self.size > GREATEST_SIZE {
            return Err(PatternFault::TooLarge);
        }
        let Compiler {
            instructions,
            classes,
            ..
        } = self;
        Ok(Program {
            instructions,
            classes,
        })
    }
}
