// The functions of a program.

ghost use Rattle.std.specs.Prelude.{◌≡◌, [], IfOk, OnOk, is_some};
ghost use Rattle.std.specs.Option.{option_map};
ghost use Rattle.awk_grammar.specs.View.{items_of};
ghost use Rattle.awk_kinds.specs.definitions.Fits.{has_repeat};
ghost use Rattle.awk_kinds.specs.support.Functions.{found, parameter_at, AddsFunction, HoldsFunctions};

use awk_grammar::tree::Item;
use awk_value::Bytes;
use indexmap::{IndexMap, IndexSet};
use std::alloc::{AllocError, Global};

/// The functions of a program: the name of each definition, and by name the parameters of the first one.
#[derive(Drop)]
pub(crate) struct Functions {
    pub(crate) names: Vec<Bytes>,
    pub(crate) first: IndexMap<Vec<u8>, Vec<Bytes>>,
}

/// The names, in a list of their own.
fn copied(alloc: Global, names: &[Bytes]) -> Result<Vec<Bytes>, AllocError>
    ensures { IfOk result (λ copy. copy.items ≡ names.now) }
{
    let mut copy = Vec::new(alloc);
    for name in names {
        copy.push(name.clone()?)?;
    }
    Ok(copy)
}

/// Whether a name stands twice in the list.
pub(crate) fn has_repeat(alloc: Global, names: &[Bytes]) -> Result<bool, AllocError>
    ensures { IfOk result (λ answer. answer ≡ has_repeat names.now) }
{
    let mut known = IndexSet::new(alloc);
    for name in names {
        if known.contains(name.as_slice()) {
            return Ok(true);
        }
        known.insert(Vec::from_slice(alloc, name.as_slice())?)?;
    }
    Ok(false)
}

impl Functions {
    /// The functions of these items.
    pub(crate) fn of_items(alloc: Global, items: &[Item]) -> Result<Functions, AllocError>
        ensures { IfOk result (HoldsFunctions (items_of items.now)) }
    {
        let mut functions = Functions {
            names: Vec::new(alloc),
            first: IndexMap::new(alloc),
        };
        for item in items {
            if let Item::Function(name, parameters, _) = item {
                functions.add(alloc, name, parameters)?;
            }
        }
        Ok(functions)
    }

    /// One more definition.
    fn add(&mut self, alloc: Global, name: &Bytes, parameters: &[Bytes]) -> Result<(), AllocError>
        ensures { OnOk result (AddsFunction self.old self.new name.now parameters.now) }
    {
        self.names.push(name.clone()?)?;
        if !self.is_function(name) {
            let key = Vec::from_slice(alloc, name.as_slice())?;
            self.first.insert(key, copied(alloc, parameters)?)?;
        }
        Ok(())
    }

    /// Whether a function has this name.
    pub(crate) fn is_function(&self, name: &Bytes) -> bool
        ensures { result ≡ is_some (found self.now name.now) }
    {
        self.first.contains_key(name.as_slice())
    }

    /// The parameters of the function of this name.
    pub(crate) fn parameters(&self, name: &Bytes) -> Option<&[Bytes]>
        ensures { option_map (λ all. all.now) result ≡ found self.now name.now }
    {
        let all = self.first.get(name.as_slice())?;
        Some(all.as_slice())
    }

    /// The parameter at a place of the function of this name.
    pub(crate) fn parameter(&self, name: &Bytes, place: usize) -> Option<&Bytes>
        ensures { option_map (λ x. x.now) result ≡ parameter_at (found self.now name.now) place }
    {
        let all = self.parameters(name)?;
        all.get(place)
    }
}
