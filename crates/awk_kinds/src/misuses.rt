// What is told against the names of a program, each cause but the last by itself.

ghost use Rattle.std.specs.Prelude.{◌≡◌, ◌||◌, IfOk};
ghost use Rattle.std.specs.List.{list_any};
ghost use Rattle.awk_lex.specs.Words.{is_left_out};
ghost use Rattle.awk_grammar.specs.View.{item_of, items_of};
ghost use Rattle.awk_kinds.specs.definitions.Kinds.{in_array_use};
ghost use Rattle.awk_kinds.specs.definitions.Fits.{is_special, is_variable_left_out, calls_left_out, item_names_left_out};
ghost use Rattle.awk_kinds.specs.support.Misuses.{unknown_call, overfull_call, is_taken, refused_parameters, refused_item, function_variable, as_variable, any_array, any_named, any_variable};

use crate::functions::{Functions, has_repeat};
use crate::special::is_special;
use crate::uses::{ArrayUse, NameUse, Uses};
use crate::variable::Variable;
use awk_grammar::tree::Item;
use awk_lex::words::is_left_out;
use awk_value::Bytes;
use std::alloc::{AllocError, Global};

fn is_unknown_call(name: &NameUse, functions: &Functions) -> bool
    ensures { result ≡ unknown_call functions.now name.now }
{
    match name {
        NameUse::Called(function, _) => {
            !functions.is_function(function) && !is_left_out(function.as_slice())
        }
        _ => false,
    }
}

/// Whether a name is called that is no function and isn't left out.
pub(crate) fn has_unknown_call(names: &[NameUse], functions: &Functions) -> bool
    ensures { result ≡ list_any (unknown_call functions.now) names.now }
{
    names.iter().any(|name| is_unknown_call(name, functions))
}

fn is_overfull_call(name: &NameUse, functions: &Functions) -> bool
    ensures { result ≡ overfull_call functions.now name.now }
{
    match name {
        NameUse::Called(function, count) => match functions.parameters(function) {
            Some(parameters) => parameters.len() < *count,
            None => false,
        },
        _ => false,
    }
}

/// Whether a call has more arguments than its function has parameters.
pub(crate) fn has_overfull_call(names: &[NameUse], functions: &Functions) -> bool
    ensures { result ≡ list_any (overfull_call functions.now) names.now }
{
    names.iter().any(|name| is_overfull_call(name, functions))
}

fn is_name_taken(name: &Bytes, functions: &Functions) -> bool
    ensures { result ≡ is_taken functions.now name.now }
{
    functions.is_function(name) || is_special(name.as_slice())
}

fn any_name_taken(names: &[Bytes], functions: &Functions) -> bool
    ensures { result ≡ list_any (is_taken functions.now) names.now }
{
    names.iter().any(|name| is_name_taken(name, functions))
}

fn are_parameters_refused(
    alloc: Global,
    parameters: &[Bytes],
    functions: &Functions,
) -> Result<bool, AllocError>
    ensures { IfOk result (λ answer. answer ≡ refused_parameters functions.now parameters.now) }
{
    if has_repeat(alloc, parameters)? {
        return Ok(true);
    }
    Ok(any_name_taken(parameters, functions))
}

/// Whether a parameter is repeated, or named as a function or a special variable.
pub(crate) fn has_refused_parameter(
    alloc: Global,
    items: &[Item],
    functions: &Functions,
) -> Result<bool, AllocError>
    ensures { IfOk result (λ answer. answer ≡ list_any (refused_item functions.now) (items_of items.now)) }
{
    for item in items {
        if let Item::Function(_, parameters, _) = item {
            if are_parameters_refused(alloc, parameters, functions)? {
                return Ok(true);
            }
        }
    }
    Ok(false)
}

fn any_name_left_out(names: &[Bytes]) -> bool
    ensures { result ≡ list_any is_left_out names.now }
{
    names.iter().any(|name| is_left_out(name.as_slice()))
}

fn item_names_left_out(item: &Item) -> bool
    ensures { result ≡ item_names_left_out (item_of item.now) }
{
    match item {
        Item::Function(name, parameters, _) => {
            is_left_out(name.as_slice()) || any_name_left_out(parameters)
        }
        _ => false,
    }
}

fn any_item_left_out(items: &[Item]) -> bool
    ensures { result ≡ list_any item_names_left_out (items_of items.now) }
{
    for item in items {
        if item_names_left_out(item) {
            return true;
        }
    }
    false
}

fn calls_left_out(name: &NameUse) -> bool
    ensures { result ≡ calls_left_out name.now }
{
    match name {
        NameUse::Called(function, _) => is_left_out(function.as_slice()),
        _ => false,
    }
}

fn any_call_left_out(names: &[NameUse]) -> bool
    ensures { result ≡ list_any calls_left_out names.now }
{
    names.iter().any(|name| calls_left_out(name))
}

impl ArrayUse {
    /// The variable that is used.
    pub(crate) fn variable(&self) -> &Variable
        ensures { result.now ≡ in_array_use self.now }
    {
        match self {
            ArrayUse::Used(v) => v,
            ArrayUse::Passed(v, _, _) => v,
        }
    }
}

fn is_variable_left_out(v: &Variable) -> bool
    ensures { result ≡ is_variable_left_out v.now }
{
    match v {
        Variable::Global(x) => is_left_out(x.as_slice()),
        Variable::Parameter(_, x) => is_left_out(x.as_slice()),
    }
}

/// Whether a variable that is used otherwise than as an array is left out.
fn is_named_left_out(name: &NameUse) -> bool
    ensures { result ≡ as_variable is_variable_left_out name.now }
{
    match name {
        NameUse::AsScalar(v) | NameUse::Measured(v) => is_variable_left_out(v),
        _ => false,
    }
}

fn any_array_left_out(arrays: &[ArrayUse]) -> bool
    ensures { result ≡ any_array is_variable_left_out arrays.now }
{
    arrays
        .iter()
        .any(|array| is_variable_left_out(array.variable()))
}

fn any_named_left_out(names: &[NameUse]) -> bool
    ensures { result ≡ any_named is_variable_left_out names.now }
{
    names.iter().any(|name| is_named_left_out(name))
}

/// Whether a name that is left out stands anywhere.
pub(crate) fn names_left_out(items: &[Item], uses: &Uses) -> bool
    ensures { result ≡ (list_any item_names_left_out (items_of items.now) || (list_any calls_left_out uses.now.names.items || any_variable is_variable_left_out uses.now.arrays.items uses.now.names.items)) }
{
    any_item_left_out(items)
        || any_call_left_out(&uses.names)
        || any_array_left_out(&uses.arrays)
        || any_named_left_out(&uses.names)
}

fn is_function_variable(v: &Variable, functions: &Functions) -> bool
    ensures { result ≡ function_variable functions.now v.now }
{
    match v {
        Variable::Global(x) => functions.is_function(x),
        Variable::Parameter(_, _) => false,
    }
}

/// Whether a variable that is used otherwise than as an array is named as a function.
fn is_named_function(name: &NameUse, functions: &Functions) -> bool
    ensures { result ≡ as_variable (function_variable functions.now) name.now }
{
    match name {
        NameUse::AsScalar(v) | NameUse::Measured(v) => is_function_variable(v, functions),
        _ => false,
    }
}

fn any_special(names: &[Bytes]) -> bool
    ensures { result ≡ list_any is_special names.now }
{
    names.iter().any(|name| is_special(name.as_slice()))
}

fn any_function_array(arrays: &[ArrayUse], functions: &Functions) -> bool
    ensures { result ≡ any_array (function_variable functions.now) arrays.now }
{
    arrays
        .iter()
        .any(|array| is_function_variable(array.variable(), functions))
}

fn any_named_function(names: &[NameUse], functions: &Functions) -> bool
    ensures { result ≡ any_named (function_variable functions.now) names.now }
{
    names.iter().any(|name| is_named_function(name, functions))
}

/// Whether a function is named as a special variable, or a variable of the whole program as a function.
pub(crate) fn has_function_variable(uses: &Uses, functions: &Functions) -> bool
    ensures { result ≡ (list_any is_special functions.now.names.items || any_variable (function_variable functions.now) uses.now.arrays.items uses.now.names.items) }
{
    any_special(&functions.names)
        || any_function_array(&uses.arrays, functions)
        || any_named_function(&uses.names, functions)
}
