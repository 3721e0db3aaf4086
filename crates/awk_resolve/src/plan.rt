// What a program is lowered to.

use crate::node::Node;
use awk_kinds::{Kinds, Names};
use awk_value::Bytes;

/// A function of a program.
#[derive(Drop)]
pub struct Function {
    /// The place of its body.
    pub body: u32,
    /// The height of its body.
    pub height: u64,
    /// Whether each of its parameters is an array.
    pub arrays: Vec<bool>,
}

/// A program as nodes that name what follows them.
#[derive(Drop)]
pub struct Plan {
    pub nodes: Vec<Node>,
    /// The place of each loop's body, by the loop's number.
    pub heads: Vec<u32>,
    /// The place of each loop's condition, or behind the keys of a walk, likewise.
    pub conditions: Vec<u32>,
    /// The scalars of the whole program that a run keeps by name, by their slots.
    pub names: Names,
    /// The texts of the program's EREs, by their numbers.
    pub eres: Vec<Bytes>,
    /// The functions, in the order of their definitions.
    pub functions: Vec<Function>,
    /// The place of the actions that come before all records.
    pub begin: u32,
    /// The place of the rules, which are tried on a record.
    pub rules: u32,
    /// The place of the actions that come behind all records.
    pub end: u32,
    /// The places of the items as rules, from the last item on.
    pub rule_places: Vec<u32>,
    /// The kinds of the program's names.
    pub kinds: Kinds,
    /// Whether records are read at all: not where only BEGIN and functions stand.
    pub reads_records: bool,
}
