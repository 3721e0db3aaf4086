// Why a program is refused for its names and for where its statements stand.

ghost use Rattle.std.specs.Prelude.{◌≡◌, IfOk};
ghost use Rattle.awk_grammar.specs.View.{items_of};
ghost use Rattle.awk_kinds.specs.definitions.Fits.{holds, first_of};
ghost use Rattle.awk_kinds.specs.definitions.Signatures.{Resolves};
ghost use Rattle.awk_kinds.specs.support.KnownNames.{IsKnown};

use crate::arrays::Arrays;
use crate::functions::{Functions, has_repeat};
use crate::kinds::Kinds;
use crate::misuses::{
    has_function_variable, has_overfull_call, has_refused_parameter, has_unknown_call,
    names_left_out,
};
use crate::mixed::mixes_kinds;
use crate::placed::are_in_place;
use crate::uses::Uses;
use awk_grammar::tree::Item;
use awk_lex::refusal::{Refusal, RefusalCode};
use std::alloc::{AllocError, Global};

/// The causes, in the order in which they are told.
const IN_ORDER: [RefusalCode; 8] = [
    RefusalCode::UnknownFunction,
    RefusalCode::DefinedTwice,
    RefusalCode::TooManyArguments,
    RefusalCode::ParameterRefused,
    RefusalCode::StatementOutOfPlace,
    RefusalCode::NameLeftOut,
    RefusalCode::FunctionAsVariable,
    RefusalCode::ArrayAndScalar,
];

/// What is known of a program's names.
#[derive(Drop)]
pub(crate) struct Known {
    pub(crate) uses: Uses,
    pub(crate) functions: Functions,
    pub(crate) arrays: Arrays,
}

impl Known {
    fn of_items(alloc: Global, items: &[Item]) -> Result<Known, AllocError>
        ensures { IfOk result (IsKnown (items_of items.now)) }
    {
        let uses = Uses::of_items(alloc, items)?;
        let functions = Functions::of_items(alloc, items)?;
        let arrays = Arrays::of_uses(alloc, &uses.arrays, &functions)?;
        Ok(Known {
            uses,
            functions,
            arrays,
        })
    }

    /// Whether a cause holds of these items.
    fn holds(&self, alloc: Global, code: RefusalCode, items: &[Item]) -> Result<bool, AllocError>
        requires { IsKnown (items_of items.now) self.now }
        ensures { IfOk result (λ answer. answer ≡ holds code (items_of items.now)) }
    {
        match code {
            RefusalCode::UnknownFunction => {
                Ok(has_unknown_call(&self.uses.names, &self.functions))
            }
            RefusalCode::DefinedTwice => has_repeat(alloc, &self.functions.names),
            RefusalCode::TooManyArguments => {
                Ok(has_overfull_call(&self.uses.names, &self.functions))
            }
            RefusalCode::ParameterRefused => has_refused_parameter(alloc, items, &self.functions),
            RefusalCode::StatementOutOfPlace => Ok(!are_in_place(items)),
            RefusalCode::NameLeftOut => Ok(names_left_out(items, &self.uses)),
            RefusalCode::FunctionAsVariable => {
                Ok(has_function_variable(&self.uses, &self.functions))
            }
            RefusalCode::ArrayAndScalar => {
                mixes_kinds(alloc, &self.uses, &self.functions, &self.arrays)
            }
            _ => Ok(false),
        }
    }

    /// The first of these causes that holds.
    fn first_of(
        &self,
        alloc: Global,
        codes: &[RefusalCode],
        items: &[Item],
    ) -> Result<Option<RefusalCode>, AllocError>
        requires { IsKnown (items_of items.now) self.now }
        ensures { IfOk result (λ code. code ≡ first_of codes.now (items_of items.now)) }
    {
        for code in codes {
            if self.holds(alloc, *code, items)? {
                return Ok(Some(*code));
            }
        }
        Ok(None)
    }
}

/// The kinds of a program's names, or why it is refused: the first of K2 to K8 and K1 that holds, told of
/// line 1 (POSIX awk, Variables and Special Variables; User-Defined Functions; Actions). The time grows as
/// n log n with the program.
///
/// # Errors
///
/// Where a cause holds, or memory is refused.
pub fn resolve(alloc: Global, items: &[Item]) -> Result<Kinds, Refusal>
    ensures { Resolves (items_of items.now) result }
{
    let known = Known::of_items(alloc, items)?;
    if let Some(code) = known.first_of(alloc, &IN_ORDER, items)? {
        return Err(Refusal { code, line: 1 });
    }
    Ok(Kinds::of_items(alloc, items, &known.uses.arrays, &known.arrays)?)
}
