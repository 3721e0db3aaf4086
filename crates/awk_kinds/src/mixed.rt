// Whether a variable is both an array and a scalar.

ghost use Rattle.std.specs.Prelude.{◌≡◌, IfOk};
ghost use Rattle.std.specs.List.{list_any};
ghost use Rattle.awk_kinds.specs.definitions.SpecialNames.{special_scalars};
ghost use Rattle.awk_kinds.specs.support.Arrays.{is_marked};
ghost use Rattle.awk_kinds.specs.support.Misuses.{as_scalar, any_scalar};
ghost use Rattle.awk_kinds.specs.support.Mixed.{is_marked_global, is_marked_parameter, passes_marked, lacks_array, mixes};

use crate::arrays::Arrays;
use crate::functions::Functions;
use crate::special::{ARRAY_COUNT, OWN_VARIABLES, OwnVariable};
use crate::uses::{ArrayUse, NameUse, Uses};
use crate::variable::Variable;
use awk_value::Bytes;
use std::alloc::{AllocError, Global};

/// Whether one of the variables of the whole program that have these rows is an array.
fn any_global_array(
    alloc: Global,
    rows: &[(&[u8], OwnVariable)],
    arrays: &Arrays,
) -> Result<bool, AllocError>
    ensures { IfOk result (λ answer. answer ≡ list_any (λ row. is_marked_global arrays.now row.0.now) rows.now) }
{
    for row in rows {
        let v = Variable::Global(Bytes::from_slice(alloc, row.0)?);
        if arrays.has(&v) {
            return Ok(true);
        }
    }
    Ok(false)
}

/// Whether one of awk's own scalars is an array.
fn any_special_array(alloc: Global, arrays: &Arrays) -> Result<bool, AllocError>
    ensures { IfOk result (λ answer. answer ≡ list_any (is_marked_global arrays.now) special_scalars) }
{
    any_global_array(alloc, &OWN_VARIABLES[ARRAY_COUNT..], arrays)
}

fn is_scalar_array(name: &NameUse, arrays: &Arrays) -> bool
    ensures { result ≡ as_scalar (is_marked arrays.now) name.now }
{
    match name {
        NameUse::AsScalar(v) => arrays.has(v),
        _ => false,
    }
}

/// Whether a variable that is used as a scalar is an array.
fn any_scalar_array(names: &[NameUse], arrays: &Arrays) -> bool
    ensures { result ≡ any_scalar (is_marked arrays.now) names.now }
{
    names.iter().any(|name| is_scalar_array(name, arrays))
}

/// Whether an array stands at this place of a call.
fn is_array_wanted(
    function: &Bytes,
    place: usize,
    functions: &Functions,
    arrays: &Arrays,
) -> Result<bool, AllocError>
    ensures { IfOk result (λ answer. answer ≡ is_marked_parameter functions.now arrays.now function.now place) }
{
    let Some(x) = functions.parameter(function, place) else {
        return Ok(false);
    };
    let parameter = Variable::Parameter(function.clone()?, x.clone()?);
    Ok(arrays.has(&parameter))
}

fn passes_array(
    array: &ArrayUse,
    functions: &Functions,
    arrays: &Arrays,
) -> Result<bool, AllocError>
    ensures { IfOk result (λ answer. answer ≡ passes_marked functions.now arrays.now array.now) }
{
    match array {
        ArrayUse::Used(_) => Ok(false),
        ArrayUse::Passed(v, function, place) => {
            if !arrays.has(v) {
                return Ok(false);
            }
            let is_wanted = is_array_wanted(function, *place, functions, arrays)?;
            Ok(!is_wanted)
        }
    }
}

/// Whether an array is passed where none is wanted.
fn any_array_passed(
    uses: &[ArrayUse],
    functions: &Functions,
    arrays: &Arrays,
) -> Result<bool, AllocError>
    ensures { IfOk result (λ answer. answer ≡ list_any (passes_marked functions.now arrays.now) uses.now) }
{
    for array in uses {
        if passes_array(array, functions, arrays)? {
            return Ok(true);
        }
    }
    Ok(false)
}

fn lacks_array(name: &NameUse, functions: &Functions, arrays: &Arrays) -> Result<bool, AllocError>
    ensures { IfOk result (λ answer. answer ≡ lacks_array functions.now arrays.now name.now) }
{
    match name {
        NameUse::Computed(function, place) => is_array_wanted(function, *place, functions, arrays),
        NameUse::NoArray => Ok(true),
        _ => Ok(false),
    }
}

/// Whether an array is wanted where no bare name is given.
fn any_array_lacking(
    names: &[NameUse],
    functions: &Functions,
    arrays: &Arrays,
) -> Result<bool, AllocError>
    ensures { IfOk result (λ answer. answer ≡ list_any (lacks_array functions.now arrays.now) names.now) }
{
    for name in names {
        if lacks_array(name, functions, arrays)? {
            return Ok(true);
        }
    }
    Ok(false)
}

/// Whether a variable is used as a scalar that is an array, or an array is wanted where no bare name is given.
pub(crate) fn mixes_kinds(
    alloc: Global,
    uses: &Uses,
    functions: &Functions,
    arrays: &Arrays,
) -> Result<bool, AllocError>
    ensures { IfOk result (λ answer. answer ≡ mixes functions.now arrays.now uses.now.arrays.items uses.now.names.items) }
{
    if any_special_array(alloc, arrays)? {
        return Ok(true);
    }
    if any_scalar_array(&uses.names, arrays) {
        return Ok(true);
    }
    if any_array_passed(&uses.arrays, functions, arrays)? {
        return Ok(true);
    }
    any_array_lacking(&uses.names, functions, arrays)
}
