// The straight program of a pattern.

use crate::token::BYTE_COUNT;

/// One instruction. A program is run from its first to its last instruction once for each byte of a text.
#[derive(Clone, Copy, PartialEq, Eq)]
pub enum Instruction {
    /// Reads this byte.
    Byte(u8),
    /// Reads any byte.
    Any,
    /// Reads a byte of the class with this number.
    Class(u32),
    /// The start of the text.
    Start,
    /// The end of the text.
    End,
    /// Begins the first of two branches.
    Fork,
    /// Begins the second of two branches.
    Swap,
    /// Ends the second of two branches.
    Join,
    /// Begins a body that may come again, and that ends so many instructions further on.
    Enter(u32),
    /// Ends a body that may come again.
    Leave,
}

/// The program of an extended regular expression.
#[derive(Drop)]
pub struct Program {
    pub instructions: Vec<Instruction>,
    /// The classes that instructions name by their number: for each byte whether it is in the class.
    pub classes: Vec<[bool; BYTE_COUNT]>,
}
