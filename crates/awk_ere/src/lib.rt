//! Extended regular expressions over bytes (XBD 9): reading a pattern, and the leftmost, then longest match.
//!
//! - `Pattern::read` reads the text of an ERE, or says why it is none (`PatternFault`); `or_newline` adds a newline as one
//!   more branch.
//! - `Scratch::for_pattern` makes the memory that the searches of a pattern share.
//! - `Pattern::is_match` tells whether a text has a match, `find_from` where the first one from a place on begins and ends,
//!   `skippable` how far no match can stand. A search takes no memory that it can't do without.
//! - `laws`: at most one tree for a text, and what reading and searching decide.
//!
//! How it works:
//!
//! - A token is read from the front of a text, in the order in which its bytes stand (`reading`). The check of a text
//!   (`check`) keeps no tree and takes no memory that grows with the text.
//! - Each token is compiled as it is read (Thompson, "Regular expression search algorithm", 1968), but to no automaton with
//!   jumps (`compile`): the program is run from its first to its last instruction once for each byte, and its positions are
//!   those of Glushkov ("The abstract theory of automata", 1961): a set of them tells which matches that have begun may go
//!   on. A repeat copies the program of its body.
//! - One step of the simulation runs the program once for a byte, and makes the next set of positions, as in Thompson.
//! - Sets that were met are the states of a deterministic automaton, which is made while it runs and kept in a table of
//!   bounded room (Cox, "Regular expression matching in the wild", 2010).
//! - A pattern that is a text and nothing else is searched for as that text, and a run of bytes of one class by the class.
//! - The leftmost match is looked for at the first place where one may begin. Where none does there, one pass finds the
//!   first end of a match and the stretch in which the leftmost one begins.
#![tactic(auto)]

mod check;
mod class_name;
mod compile;
mod compiler;
mod dfa;
mod failures;
pub mod fault;
mod first_bytes;
pub mod laws;
mod learning;
mod newline;
pub mod pattern;
mod prefilter;
mod program;
mod reading;
mod repeat;
mod required;
mod run;
mod scratch;
mod search;
mod simulation;
mod spelling_laws;
mod token;

pub use class_name::ClassName;
pub use failures::Failures;
pub use fault::PatternFault;
pub use pattern::Pattern;
pub use program::{Instruction, Program};
pub use scratch::Scratch;
