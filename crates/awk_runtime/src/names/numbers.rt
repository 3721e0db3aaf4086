// How many names there are, and the names of arrays by their numbers.

ghost use Rattle.std.specs.Prelude.{◌≡◌, length, slice_get};
ghost use Rattle.std.specs.Option.{option_map};
ghost use Rattle.awk_semantics.specs.Primitives.{number_in};
ghost use Rattle.awk_runtime.specs.support.Naming.{AreOwn};

use crate::names::ProgramNames;

impl ProgramNames {
    /// How many variables have a slot. None of them is a special one.
    pub(crate) fn scalar_count(&self) -> usize
        ensures count { result ≡ length self.now.scalars }
        ensures own { AreOwn self.now.scalars }
    {
        self.scalars.len()
    }

    /// How many arrays there are.
    pub fn array_count(&self) -> usize
        ensures { result ≡ length self.now.arrays }
    {
        self.arrays.len()
    }

    /// The name of an array, by its number.
    pub fn array_name(&self, number: usize) -> Option<&[u8]>
        ensures { option_map (λ name. name.now) result ≡ slice_get self.now.arrays number }
    {
        self.arrays.get(number)
    }

    /// The number of an array; of a name that is none, how many arrays there are.
    pub(crate) fn array_number(&self, name: &[u8]) -> usize
        ensures { result ≡ number_in self.now.arrays name.now }
    {
        match self.arrays.find(name) {
            Some(number) => number as usize,
            None => self.arrays.len(),
        }
    }
}
