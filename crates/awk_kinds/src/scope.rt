// Where a form of a program stands, as far as its names go.

ghost use Rattle.std.specs.Prelude.{◌≡◌, IfOk};
ghost use Rattle.awk_kinds.specs.definitions.Kinds.{variable_in, outside_functions};

use crate::variable::Variable;
use awk_value::Bytes;
use indexmap::IndexSet;
use std::alloc::{AllocError, Global};
use std::marker::Model;

/// A function with its parameters, in whose body a form stands; or no function, with none.
#[derive(Drop)]
pub(crate) struct Scope {
    function: Bytes,
    parameters: Vec<Bytes>,
    /// The parameters, each once.
    known: IndexSet<Vec<u8>>,
}

impl Model for Scope {
    ghost use Rattle.std.specs.Prelude.{◌≡◌, ℕ, List, bytes_eq};
    ghost use Rattle.std.specs.List.{list_any};
    ghost use Rattle.awk_kinds.specs.definitions.Names.{has_name};
    ghost use Rattle.awk_kinds.specs.definitions.Kinds as kinds;

    ghost Value = { kinds.Scope };

    ghost view = { λ s. record { function = s.function; parameters = s.parameters.items } };

    ghost invariant = { λ s. (x : List ℕ) → list_any (λ k. bytes_eq x k.items) s.known.keys ≡ has_name s.parameters.items x };
}

impl Scope {
    /// The body of a function.
    pub(crate) fn new(
        alloc: Global,
        function: &Bytes,
        parameters: &[Bytes],
    ) -> Result<Scope, AllocError>
        ensures { IfOk result (λ s. s ≡ record { function = function.now; parameters = parameters.now }) }
    {
        let mut names = Vec::new(alloc);
        let mut known = IndexSet::new(alloc);
        for parameter in parameters {
            known.insert(Vec::from_slice(alloc, parameter.as_slice())?)?;
            names.push(parameter.clone()?)?;
        }
        Ok(Scope {
            function: function.clone()?,
            parameters: names,
            known,
        })
    }

    /// What stands in no function.
    pub(crate) fn outside_functions(alloc: Global) -> Result<Scope, AllocError>
        ensures { IfOk result (λ s. s ≡ outside_functions) }
    {
        let nothing = Bytes::from_vec(alloc, Vec::new(alloc))?;
        Scope::new(alloc, &nothing, &[])
    }

    /// What a name stands for.
    pub(crate) fn variable(&self, name: &Bytes) -> Result<Variable, AllocError>
        ensures { IfOk result (λ v. v ≡ variable_in self.now name.now) }
    {
        if self.known.contains(name.as_slice()) {
            return Ok(Variable::Parameter(self.function.clone()?, name.clone()?));
        }
        Ok(Variable::Global(name.clone()?))
    }
}
