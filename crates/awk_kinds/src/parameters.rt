// The parameters of a function.

ghost use Rattle.std.specs.Prelude.{◌≡◌, false, map, length, slice_get, IfOk};
ghost use Rattle.std.specs.Option.{option_map};
ghost use Rattle.awk_kinds.specs.definitions.Kinds.{FormalParameter};
ghost use Rattle.awk_kinds.specs.definitions.Fits.{has_repeat};
ghost use Rattle.awk_kinds.specs.definitions.Signatures.{place_of, parameter_names};
ghost use Rattle.awk_kinds.specs.support.Marked.{marked_formal};

use crate::arrays::Arrays;
use crate::names::Names;
use crate::variable::Variable;
use awk_value::Bytes;
use std::alloc::{AllocError, Global};
use std::marker::Model;

/// The parameters of a function, each at its place, and which of them are arrays.
#[derive(Drop)]
pub struct Parameters {
    names: Names,
    arrays: Vec<bool>,
}

impl Model for Parameters {
    ghost use Rattle.std.specs.Prelude.{◌≡◌, List, length};
    ghost use Rattle.awk_kinds.specs.definitions.Kinds.{FormalParameter};
    ghost use Rattle.awk_kinds.specs.support.Tables.{formals};

    ghost Value = { List FormalParameter };

    ghost view = { λ p. formals p.names p.arrays.items };

    ghost invariant = { λ p. length p.names ≡ length p.arrays.items };
}

impl Parameters {
    /// The parameters of this function, no two of which have one name.
    pub(crate) fn of(
        alloc: Global,
        function: &Bytes,
        parameters: &[Bytes],
        arrays: &Arrays,
    ) -> Result<Parameters, AllocError>
        requires { has_repeat parameters.now ≡ false }
        ensures { IfOk result (λ p. p ≡ map (marked_formal arrays.now function.now) parameters.now) }
    {
        let mut names = Names::new(alloc);
        let mut kinds = Vec::new(alloc);
        for x in parameters {
            let parameter = Variable::Parameter(function.clone()?, x.clone()?);
            names.add(alloc, x.as_slice())?;
            kinds.push(arrays.has(&parameter))?;
        }
        Ok(Parameters {
            names,
            arrays: kinds,
        })
    }

    /// How many parameters there are.
    pub fn len(&self) -> usize
        ensures { result ≡ length self.now }
    {
        self.names.len()
    }

    /// The place of the parameter of this name.
    pub fn find(&self, name: &[u8]) -> Option<u32>
        ensures { result ≡ place_of (parameter_names self.now) name.now }
    {
        self.names.find(name)
    }

    /// Whether the parameter at a place is an array.
    pub fn is_array(&self, place: u32) -> Option<bool>
        ensures { result ≡ option_map (λ (p : FormalParameter). p.is_array) (slice_get self.now place) }
    {
        self.arrays.get(place as usize).copied()
    }
}
