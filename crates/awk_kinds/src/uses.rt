// What a program does with its names.

ghost use Rattle.std.specs.Prelude.{◌≡◌, [], ◌∷◌, IfOk, OnOk};
ghost use Rattle.awk_kinds.specs.declared.uses.ArrayUse.TheVariants.{Passed};
ghost use Rattle.awk_kinds.specs.declared.uses.NameUse.TheVariants.{AsScalar, Measured};
ghost use Rattle.awk_kinds.specs.definitions.Kinds.{variable_in, used};
ghost use Rattle.awk_kinds.specs.support.Adds.{Adds};

use crate::scope::Scope;
use crate::variable::Variable;
use awk_value::Bytes;
use std::alloc::{AllocError, Global};

/// What tells that a variable is an array.
#[derive(Drop)]
pub enum ArrayUse {
    /// It is used as one.
    Used(Variable),
    /// It is this argument of a call of this function.
    Passed(Variable, Bytes, usize),
}

/// What a program does with its names besides using them as arrays.
#[derive(Drop)]
pub enum NameUse {
    /// A bare name, but for one that is an argument of a call, that `split` makes an array or that `length` measures.
    AsScalar(Variable),
    /// A bare name that `length` measures, be it an array or a scalar.
    Measured(Variable),
    /// A call of this function with so many arguments.
    Called(Bytes, usize),
    /// This argument of a call of this function is no bare name.
    Computed(Bytes, usize),
    /// What `split` makes an array is no bare name.
    NoArray,
}

/// What a program does with its names, in its order.
#[derive(Drop)]
pub(crate) struct Uses {
    pub(crate) arrays: Vec<ArrayUse>,
    pub(crate) names: Vec<NameUse>,
}

impl Uses {
    /// Nothing.
    pub(crate) fn new(alloc: Global) -> Uses
        ensures arrays { result.arrays.items ≡ [] }
        ensures names { result.names.items ≡ [] }
    {
        Uses {
            arrays: Vec::new(alloc),
            names: Vec::new(alloc),
        }
    }

    pub(crate) fn add_array_use(&mut self, array: ArrayUse) -> Result<(), AllocError>
        ensures { OnOk result (Adds self.old self.new (array ∷ []) []) }
    {
        self.arrays.push(array)?;
        Ok(())
    }

    pub(crate) fn add_name_use(&mut self, name: NameUse) -> Result<(), AllocError>
        ensures { OnOk result (Adds self.old self.new [] (name ∷ [])) }
    {
        self.names.push(name)?;
        Ok(())
    }

    /// A name is used as an array.
    pub(crate) fn add_array(&mut self, scope: &Scope, name: &Bytes) -> Result<(), AllocError>
        ensures { OnOk result (Adds self.old self.new (used scope.now name.now) []) }
    {
        let variable = scope.variable(name)?;
        self.add_array_use(ArrayUse::Used(variable))
    }

    /// A name stands for a value.
    pub(crate) fn add_scalar(&mut self, scope: &Scope, name: &Bytes) -> Result<(), AllocError>
        ensures { OnOk result (Adds self.old self.new [] (AsScalar (variable_in scope.now name.now) ∷ [])) }
    {
        let variable = scope.variable(name)?;
        self.add_name_use(NameUse::AsScalar(variable))
    }

    /// A name stands for an array or a value.
    pub(crate) fn add_measured(&mut self, scope: &Scope, name: &Bytes) -> Result<(), AllocError>
        ensures { OnOk result (Adds self.old self.new [] (Measured (variable_in scope.now name.now) ∷ [])) }
    {
        let variable = scope.variable(name)?;
        self.add_name_use(NameUse::Measured(variable))
    }

    /// A bare name is an argument of a call.
    pub(crate) fn add_passed(
        &mut self,
        scope: &Scope,
        name: &Bytes,
        function: &Bytes,
        place: usize,
    ) -> Result<(), AllocError>
        ensures { OnOk result (Adds self.old self.new (Passed (variable_in scope.now name.now) function.now place ∷ []) []) }
    {
        let variable = scope.variable(name)?;
        let function = function.clone()?;
        self.add_array_use(ArrayUse::Passed(variable, function, place))
    }
}
