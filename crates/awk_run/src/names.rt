// The names of a plan, as a run has them.

ghost use Rattle.std.specs.Prelude.{◌≡◌, IfOk};
ghost use Rattle.awk_kinds.specs.Signatures.{signature_names};
ghost use Rattle.awk_resolve.specs.States.{AreScalars};

use awk_kinds::Kinds;
use awk_resolve::Plan;
use awk_runtime::ProgramNames;
use awk_value::Bytes;
use std::alloc::{AllocError, Global};

/// The texts of the EREs of a plan, by their numbers.
fn ere_texts(alloc: Global, plan: &Plan) -> Result<Vec<Bytes>, AllocError>
    ensures { IfOk result (λ texts. texts.items ≡ plan.now.eres.items) }
{
    let mut texts = Vec::new(alloc);
    for text in plan.eres.as_slice() {
        texts.push(text.clone()?)?;
    }
    Ok(texts)
}

/// The names of a plan's program, where these are their kinds.
pub(crate) fn program_names(
    alloc: Global,
    plan: &Plan,
    kinds: &Kinds,
) -> Result<ProgramNames, AllocError>
    requires { AreScalars plan.now.names }
    ensures { IfOk result (λ names. names ≡ record {
      scalars = plan.now.names;
      arrays = kinds.now.arrays;
      functions = signature_names kinds.now.functions;
      eres = plan.now.eres.items;
    }) }
{
    let eres = ere_texts(alloc, plan)?;
    let arrays = kinds.arrays().copy(alloc)?;
    let functions = kinds.functions().copy(alloc)?;
    let scalars = plan.names.copy(alloc)?;
    Ok(ProgramNames::new(scalars, arrays, functions, eres))
}
