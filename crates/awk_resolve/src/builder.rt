// What is built of a program: nodes, and the places of loops' bodies; and the names and EREs that nodes tell by numbers.

ghost use Rattle.std.specs.Prelude.{◌≡◌, suc, ◌<◌, length, IfOk};
ghost use Rattle.awk_resolve.specs.support.Nodes.{CallsFit};
ghost use Rattle.awk_resolve.specs.support.Builds.{array_parameters_in, Pushes, Opens, Closes, AddsName, AddsEre};

use crate::node::Node;
use awk_kinds::Names;
use awk_value::Bytes;
use std::alloc::{AllocError, Global};

/// What is built of a program.
#[derive(Drop)]
pub struct Builder {
    pub alloc: Global,
    pub nodes: Vec<Node>,
    /// The place of each loop's body, by the loop's number; 0 for one that isn't known yet.
    pub heads: Vec<u32>,
    /// The place of each loop's condition, likewise.
    pub conditions: Vec<u32>,
    /// The scalars of the whole program that a run keeps by name, by their slots.
    pub names: Names,
    /// The texts of the program's EREs.
    pub eres: Vec<Bytes>,
    /// Whether each parameter is an array, of each function of the program.
    pub array_parameters: Vec<Vec<bool>>,
}

/// Where a statement goes on.
#[derive(Clone, Copy)]
pub struct Exits {
    pub next: u32,
    pub breaks: u32,
    pub continues: u32,
}

/// The number of what comes behind so many.
pub(crate) fn next_number(length: usize) -> Result<u32, AllocError>
    ensures { IfOk result (λ number. number ≡ length) }
{
    u32::try_from(length).map_err(|_| AllocError)
}

/// The number behind this one.
pub(crate) fn one_more(number: u32) -> Result<u32, AllocError>
    ensures { IfOk result (λ more. more ≡ suc number) }
{
    number.checked_add(1).ok_or(AllocError)
}

impl Builder {
    /// Puts a node behind the others, and gives its place. What it calls is a function that is there, with arguments that fit it.
    ///
    /// # Errors
    ///
    /// Where memory is refused, or 2^32 nodes are there.
    pub fn push(&mut self, node: Node) -> Result<u32, AllocError>
        requires { CallsFit (array_parameters_in self.old) node }
        ensures { IfOk result (λ place. Pushes self.old self.new node place) }
    {
        let place = next_number(self.nodes.len())?;
        self.nodes.push(node)?;
        Ok(place)
    }

    /// The number of a new loop, whose body isn't known yet.
    ///
    /// # Errors
    ///
    /// Where memory is refused, or 2^32 loops are there.
    pub fn open(&mut self) -> Result<u32, AllocError>
        ensures { IfOk result (λ number. Opens self.old self.new number) }
    {
        let number = next_number(self.heads.len())?;
        self.heads.push(0)?;
        self.conditions.push(0)?;
        Ok(number)
    }

    /// Notes the places of a loop's body and of its condition.
    pub fn close(&mut self, number: u32, body: u32, condition: u32)
        requires { number < length self.old.heads.items }
        ensures { Closes self.old self.new number body }
    {
        self.heads[number as usize] = body;
        if let Some(place) = self.conditions.get_mut(number as usize) {
            *place = condition;
        }
    }

    /// The slot of a scalar of the whole program.
    ///
    /// # Errors
    ///
    /// Where memory is refused, or 2^32 scalars are there.
    pub(crate) fn slot_of(&mut self, name: &[u8]) -> Result<u32, AllocError>
        ensures { IfOk result (λ slot. AddsName self.old self.new slot name.now) }
    {
        self.names.add(self.alloc, name)
    }

    /// The number of an ERE.
    ///
    /// # Errors
    ///
    /// Where memory is refused, or 2^32 EREs are there.
    pub(crate) fn ere_of(&mut self, text: &Bytes) -> Result<u32, AllocError>
        ensures { IfOk result (λ number. AddsEre self.old self.new number text.now) }
    {
        let number = next_number(self.eres.len())?;
        self.eres.push(text.clone()?)?;
        Ok(number)
    }
}
