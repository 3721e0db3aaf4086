// Names with numbers.

ghost use Rattle.std.specs.Prelude.{◌≡◌, [], length, slice_get, IfOk, OnOk};
ghost use Rattle.std.specs.Option.{option_map};
ghost use Rattle.awk_kinds.specs.definitions.Names.{has_name, with_name, AreDistinct, Numbers};
ghost use Rattle.awk_kinds.specs.definitions.Kinds.{with_global};
ghost use Rattle.awk_kinds.specs.definitions.Signatures.{place_of};

use crate::variable::Variable;
use indexmap::IndexSet;
use std::alloc::{AllocError, Global};
use std::marker::Model;

/// Names, each once and at its number: arrays, functions, parameters and scalars of a program.
#[derive(Drop)]
pub struct Names {
    names: IndexSet<Vec<u8>>,
}

impl Model for Names {
    ghost use Rattle.std.specs.Prelude.{ℕ, ◌≤◌, ◌^◌, List, map, bytes_eq, length};
    ghost use Rattle.indexmap.specs.IndexSet.{IsUnique};

    ghost Value = { List (List ℕ) };

    ghost view = { λ n. map (λ k. k.items) n.names.keys };

    ghost invariant = { λ n. IsUnique (λ k l. bytes_eq k.items l.items) n.names × (length n.names.keys ≤ 2 ^ 32) };
}

impl Names {
    /// No names.
    pub fn new(alloc: Global) -> Names
        ensures { result ≡ [] }
    {
        Names {
            names: IndexSet::new(alloc),
        }
    }

    /// The number of a name, the next one where it has none yet.
    ///
    /// # Errors
    ///
    /// Where memory is refused, or 2^32 names are there.
    pub fn add(&mut self, alloc: Global, name: &[u8]) -> Result<u32, AllocError>
        ensures number { IfOk result (λ number. Numbers self.old self.new number name.now) }
        ensures names { OnOk result (self.new ≡ with_name self.old name.now) }
    {
        if let Some(number) = self.names.get_index_of(name) {
            return Ok(number as u32);
        }
        let Ok(number) = u32::try_from(self.names.len()) else {
            return Err(AllocError);
        };
        self.names.insert(Vec::from_slice(alloc, name)?)?;
        Ok(number)
    }

    /// Gives a variable's name a number if it is new and of the whole program.
    pub(crate) fn add_global(&mut self, alloc: Global, v: &Variable) -> Result<(), AllocError>
        ensures { OnOk result (self.new ≡ with_global self.old v.now) }
    {
        match v {
            Variable::Global(x) => {
                self.add(alloc, x.as_slice())?;
                Ok(())
            }
            Variable::Parameter(_, _) => Ok(()),
        }
    }

    /// The number of a name.
    pub fn find(&self, name: &[u8]) -> Option<u32>
        ensures { result ≡ place_of self.now name.now }
    {
        let index = self.names.get_index_of(name)?;
        Some(index as u32)
    }

    /// Whether a name has a number.
    pub fn has(&self, name: &[u8]) -> bool
        ensures { result ≡ has_name self.now name.now }
    {
        self.names.contains(name)
    }

    /// How many names there are. No name has two numbers.
    pub fn len(&self) -> usize
        ensures len { result ≡ length self.now }
        ensures distinct { AreDistinct self.now }
    {
        self.names.len()
    }

    /// The name of a number.
    pub fn get(&self, number: usize) -> Option<&[u8]>
        ensures { option_map (λ name. name.now) result ≡ slice_get self.now number }
    {
        let name = self.names.get_index(number)?;
        Some(name.as_slice())
    }

    /// The same names at the same numbers. Fails where memory is refused.
    pub fn copy(&self, alloc: Global) -> Result<Names, AllocError>
        ensures { IfOk result (λ names. names ≡ self.now) }
    {
        let mut names = Names::new(alloc);
        for number in 0..self.len() {
            let Some(name) = self.get(number) else {
                unreachable!();
            };
            names.add(alloc, name)?;
        }
        Ok(names)
    }
}
