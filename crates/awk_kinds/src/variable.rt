// The variables of a program.

use awk_value::Bytes;
use std::alloc::AllocError;
use std::hash::{Hash, Hasher};

/// A name of the whole program, or a parameter of a function.
#[derive(Drop)]
pub enum Variable {
    /// A name of the whole program.
    Global(Bytes),
    /// The function's name and the parameter's.
    Parameter(Bytes, Bytes),
}

impl PartialEq for Variable {
    ghost use Rattle.std.specs.Cmp.{partial_equiv_from_equiv};
    ghost use Rattle.awk_kinds.specs.definitions.Kinds.{same_variable};
    ghost use Rattle.awk_kinds.specs.support.SameVariable.{same_variable_equiv};

    ghost eq = { same_variable };

    ghost laws = { partial_equiv_from_equiv same_variable_equiv };

    fn eq(&self, other: &Variable) -> bool {
        match (self, other) {
            (Variable::Global(x), Variable::Global(y)) => x.as_slice() == y.as_slice(),
            (Variable::Parameter(f, x), Variable::Parameter(g, y)) => {
                f.as_slice() == g.as_slice() && x.as_slice() == y.as_slice()
            }
            _ => false,
        }
    }
}

impl Eq for Variable {
    ghost use Rattle.awk_kinds.specs.support.SameVariable.{same_variable_equiv};

    ghost laws = { same_variable_equiv };
}

impl Hash for Variable {
    ghost use Rattle.awk_kinds.specs.support.Hashed.{hashed};
    ghost use Rattle.awk_kinds.specs.support.SameVariable.{same_hash};

    ghost hash_input = { hashed };

    ghost respects_eq = { same_hash };

    fn hash<H: Hasher>(&self, state: &mut H) {
        match self {
            Variable::Global(x) => x.as_slice().hash(state),
            Variable::Parameter(f, x) => {
                f.as_slice().hash(state);
                x.as_slice().hash(state);
            }
        }
    }
}

impl Clone for Variable {
    ghost use Rattle.std.specs.Prelude.{◌≡◌};

    ghost is_clone = { λ v copy. copy ≡ v };

    fn clone(&self) -> Result<Variable, AllocError> {
        match self {
            Variable::Global(x) => Ok(Variable::Global(x.clone()?)),
            Variable::Parameter(f, x) => Ok(Variable::Parameter(f.clone()?, x.clone()?)),
        }
    }
}
