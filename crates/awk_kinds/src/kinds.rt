// The arrays and the functions of a program.

ghost use Rattle.std.specs.Prelude.{◌≡◌, ◌++◌, [], map, filter, length, slice_get, IfOk};
ghost use Rattle.std.specs.Option.{option_map};
ghost use Rattle.awk_grammar.specs.View.{items_of};
ghost use Rattle.awk_kinds.specs.definitions.SpecialNames.{special_arrays};
ghost use Rattle.awk_kinds.specs.definitions.Kinds.{in_array_use, globals_among, uses_in};
ghost use Rattle.awk_kinds.specs.definitions.Fits.{Fits};
ghost use Rattle.awk_kinds.specs.definitions.Signatures.{Signature, signature_names, place_of, kinds_of};
ghost use Rattle.awk_kinds.specs.support.Arrays.{is_marked};
ghost use Rattle.awk_kinds.specs.support.Known.{HoldsArrays};
ghost use Rattle.awk_kinds.specs.support.Tables.{globals};

use crate::arrays::Arrays;
use crate::names::Names;
use crate::parameters::Parameters;
use crate::special::{ARRAY_COUNT, OWN_VARIABLES, OwnVariable};
use crate::uses::ArrayUse;
use awk_grammar::tree::Item;
use std::alloc::{AllocError, Global};
use std::marker::Model;

/// The arrays of the whole program and the functions of a program, each at its number. ARGV is array 0 and ENVIRON array 1;
/// the others follow in the order in which the program first uses them. Functions stand in the order of their definitions.
#[derive(Drop)]
pub struct Kinds {
    arrays: Names,
    functions: Names,
    parameters: Vec<Parameters>,
}

impl Model for Kinds {
    ghost use Rattle.std.specs.Prelude.{◌≡◌, length};
    ghost use Rattle.awk_kinds.specs.definitions.Signatures.{ProgramKinds};
    ghost use Rattle.awk_kinds.specs.support.Tables.{signatures};

    ghost Value = { ProgramKinds };

    ghost view = { λ k. record { arrays = k.arrays; functions = signatures k.functions k.parameters.items } };

    ghost invariant = { λ k. length k.functions ≡ length k.parameters.items };
}

/// The names of special variables.
fn special_names(alloc: Global, rows: &[(&[u8], OwnVariable)]) -> Result<Names, AllocError>
    ensures { IfOk result (λ names. names ≡ globals_among [] (globals (map (λ row. row.0.now) rows.now))) }
{
    let mut names = Names::new(alloc);
    for row in rows {
        names.add(alloc, row.0)?;
    }
    Ok(names)
}

/// The names of the arrays of the whole program.
fn array_names(alloc: Global, uses: &[ArrayUse], arrays: &Arrays) -> Result<Names, AllocError>
    ensures { IfOk result (λ names. names ≡ globals_among special_arrays (filter (is_marked arrays.now) (map in_array_use uses.now))) }
{
    let mut names = special_names(alloc, &OWN_VARIABLES[..ARRAY_COUNT])?;
    for array in uses {
        let v = array.variable();
        if arrays.has(v) {
            names.add_global(alloc, v)?;
        }
    }
    Ok(names)
}

impl Kinds {
    /// The kinds of a program that nothing is told against.
    pub(crate) fn of_items(
        alloc: Global,
        items: &[Item],
        uses: &[ArrayUse],
        arrays: &Arrays,
    ) -> Result<Kinds, AllocError>
        requires fits { Fits (items_of items.now) }
        requires uses { uses.now ≡ uses_in (items_of items.now) }
        requires arrays { HoldsArrays (items_of items.now) arrays.now }
        ensures { IfOk result (λ kinds. kinds ≡ kinds_of (items_of items.now)) }
    {
        let names = array_names(alloc, uses, arrays)?;
        let mut functions = Names::new(alloc);
        let mut parameters = Vec::new(alloc);
        for item in items {
            if let Item::Function(name, all, _) = item {
                functions.add(alloc, name.as_slice())?;
                parameters.push(Parameters::of(alloc, name, all, arrays)?)?;
            }
        }
        Ok(Kinds {
            arrays: names,
            functions,
            parameters,
        })
    }

    /// The number of the array of the whole program of this name.
    pub fn array(&self, name: &[u8]) -> Option<u32>
        ensures { result ≡ place_of self.now.arrays name.now }
    {
        self.arrays.find(name)
    }

    /// How many arrays the whole program has.
    pub fn array_count(&self) -> usize
        ensures { result ≡ length self.now.arrays }
    {
        self.arrays.len()
    }

    /// The arrays of the whole program, each at its number.
    pub fn arrays(&self) -> &Names
        ensures { result.now ≡ self.now.arrays }
    {
        &self.arrays
    }

    /// The number of the function of this name.
    pub fn function(&self, name: &[u8]) -> Option<u32>
        ensures { result ≡ place_of (signature_names self.now.functions) name.now }
    {
        self.functions.find(name)
    }

    /// How many functions there are.
    pub fn function_count(&self) -> usize
        ensures { result ≡ length self.now.functions }
    {
        self.functions.len()
    }

    /// The functions, each at its number.
    pub fn functions(&self) -> &Names
        ensures { result.now ≡ signature_names self.now.functions }
    {
        &self.functions
    }

    /// The parameters of the function of a number.
    pub fn parameters(&self, number: u32) -> Option<&Parameters>
        ensures { option_map (λ all. all.now) result ≡ option_map (λ (f : Signature). f.parameters) (slice_get self.now.functions number) }
    {
        self.parameters.get(number as usize)
    }
}
