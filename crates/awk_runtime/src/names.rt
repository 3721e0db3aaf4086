// The names of a program and the texts of its EREs, by their places.

ghost use Rattle.std.specs.Prelude.{◌≡◌, slice_get, Some, IfSome, IfNone, false, codes, bytes_eq};
ghost use Rattle.awk_kinds.specs.Names.{has_name, AreDistinct};
ghost use Rattle.awk_semantics.specs.Inputs.{is_among};
ghost use Rattle.awk_runtime.specs.support.Naming.{AreOwn, ere_at};

use awk_kinds::Names;
use awk_value::Bytes;
use std::marker::Model;

mod numbers;

/// Whether a name is NF, which is counted in the record.
pub(crate) fn is_field_count(name: &[u8]) -> bool
    ensures { result ≡ bytes_eq name.now (codes "NF") }
{
    matches!(name, b"NF")
}

/// The names of a program: its variables by their slots, each once and none of them a special one; the arrays of the whole
/// program by their numbers, the functions, and the texts between the slashes of its EREs by their numbers.
#[derive(Drop)]
pub struct ProgramNames {
    scalars: Names,
    arrays: Names,
    functions: Names,
    eres: Vec<Bytes>,
}

impl Model for ProgramNames {
    ghost use Rattle.awk_runtime.specs.support.Naming.{Naming, AreOwn};
    ghost use Rattle.awk_kinds.specs.Names.{AreDistinct};

    ghost Value = { Naming };

    ghost view = { λ n. record {
      scalars = n.scalars;
      arrays = n.arrays;
      functions = n.functions;
      eres = n.eres.items;
    } };

    ghost invariant = { λ n. AreDistinct n.scalars × AreOwn n.scalars };
}

impl ProgramNames {
    ghost use Rattle.awk_runtime.specs.support.Naming.{Naming};

    /// The names of a program: of its variables none is a special one, or NF.
    pub fn new(scalars: Names, arrays: Names, functions: Names, eres: Vec<Bytes>) -> ProgramNames
        requires distinct { AreDistinct scalars }
        requires own { AreOwn scalars }
        ensures { result ≡ record {
          scalars = scalars;
          arrays = arrays;
          functions = functions;
          eres = eres.items;
        } }
    {
        ProgramNames {
            scalars,
            arrays,
            functions,
            eres,
        }
    }

    /// No variable of the program has two slots, and none is a special one, or NF.
    #[inline(always)]
    pub(crate) fn law_of_slots(&self)
        ensures distinct { AreDistinct self.now.scalars }
        ensures own { AreOwn self.now.scalars }
    {
        let _ = &self.scalars;
    }

    /// The slot of a variable's name, if it has one.
    pub fn slot_of(&self, name: &[u8]) -> Option<usize>
        ensures some { IfSome result (λ slot. slice_get self.now.scalars slot ≡ Some name.now) }
        ensures none { IfNone result (has_name self.now.scalars name.now ≡ false) }
    {
        let slot = self.scalars.find(name)?;
        Some(slot as usize)
    }

    /// The text between the slashes of an ERE, by its number. One that isn't there is empty.
    #[inline]
    pub fn ere(&self, number: u32) -> &[u8]
        ensures { result.now ≡ ere_at self.now number }
    {
        match self.eres.get(number as usize) {
            Some(text) => text.as_slice(),
            None => b"",
        }
    }

    /// Whether a name is an array's.
    pub fn is_array(&self, name: &[u8]) -> bool
        ensures { result ≡ is_among name.now self.now.arrays }
    {
        self.arrays.has(name)
    }

    /// Whether a name is a function's.
    pub fn is_function(&self, name: &[u8]) -> bool
        ensures { result ≡ is_among name.now self.now.functions }
    {
        self.functions.has(name)
    }
}
