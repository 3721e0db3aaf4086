// Arrays and their elements.

ghost use Rattle.std.specs.Prelude.{◌≡◌, Ok, IfOk, IfErr, codes};
ghost use Rattle.awk_runtime.specs.support.Simulation.{Changes};
ghost use Rattle.awk_runtime.specs.support.Calling.{kept_number, listed, argument_text};
ghost use Rattle.awk_value.specs.Values.{str_of};
ghost use Rattle.awk_text.specs.Pieces.{stretches_at, AreSpansOf};
ghost use Rattle.awk_semantics.specs.Primitives.{number_in, joined_key, take_argument};
ghost use Rattle.awk_semantics.specs.Results.{IsWantOfMemory};
ghost use Rattle.awk_storage.specs.Positions.{read_element_of, store_element_of};
ghost use Rattle.awk_storage.specs.Forms.{contains_at, delete_at, clear_at, count_elements_at, keys_of_array, fill_at};

use crate::fields::count_value;
use crate::runtime::Runtime;
use awk_functions::joined_key;
use awk_kinds::Special;
use awk_semantics::{Halt, Local};
use awk_storage::{Array, Subscript};
use awk_value::{Bytes, Value, number_of, text_of};

impl Runtime {
    /// The number of an array; 0 of a parameter that is none.
    #[inline(always)]
    pub(crate) fn number_at(&self, array: Array) -> u32
        ensures { result ≡ kept_number array self.now.frames }
    {
        match array {
            Array::Global(number) => number,
            Array::Local(index) => match self.frames.local(index as usize) {
                Some(Local::Array(number)) => *number,
                Some(Local::Value(_)) | None => 0,
            },
        }
    }

    /// The element at the text of a key, which is made where it isn't there. (POSIX awk, Expressions in awk: arrays)
    pub fn read_element_of(&mut self, array: Array, key: &Value) -> Result<Value, Halt>
        ensures { Changes (read_element_of array (str_of key.now)) self.old self.new result }
    {
        let number = self.number_at(array);
        let value = self
            .arrays
            .get_or_make(number as usize, Subscript::of(key))?;
        Ok(value)
    }

    /// Gives the element at the text of a key a value.
    pub(crate) fn store_element_of(
        &mut self,
        array: Array,
        key: &Value,
        value: Value,
    ) -> Result<(), Halt>
        ensures { Changes (store_element_of array (str_of key.now) value) self.old self.new result }
    {
        let number = self.number_at(array);
        let value = value.settled(self.alloc)?;
        self.arrays.put(number as usize, Subscript::of(key), value)?;
        Ok(())
    }

    /// Whether there is an element at the text of a key.
    pub fn contains_at(&mut self, array: Array, key: &Value) -> Result<bool, Halt>
        ensures { Changes (contains_at array (str_of key.now)) self.old self.new result }
    {
        let number = self.number_at(array);
        Ok(self.arrays.has(number as usize, Subscript::of(key)))
    }

    /// Removes the element at the text of a key.
    pub fn delete_at(&mut self, array: Array, key: &Value) -> Result<(), Halt>
        ensures { Changes (delete_at array (str_of key.now)) self.old self.new result }
    {
        let number = self.number_at(array);
        self.arrays.remove(number as usize, Subscript::of(key));
        Ok(())
    }

    /// Removes all elements of an array. Takes no memory. (POSIX awk, Actions: delete)
    pub fn clear_at(&mut self, array: Array)
        ensures { Changes (clear_at array) self.old self.new (Ok tt) }
    {
        let number = self.number_at(array);
        self.arrays.clear(number as usize);
    }

    /// How many elements an array has, as a value. Takes no memory. (POSIX awk, String Functions: length)
    pub fn count_elements_at(&self, array: Array) -> Value
        ensures { Changes (count_elements_at array) self.now self.now (Ok result) }
    {
        let number = self.number_at(array);
        count_value(self.arrays.count(number as usize))
    }

    /// The keys of an array, in the order in which they were made.
    pub fn keys_of_array(&mut self, array: Array) -> Result<Vec<Bytes>, Halt>
        ensures { Changes (keys_of_array array) self.old self.new (listed result) }
    {
        let number = self.number_at(array);
        let keys = self.arrays.keys(number as usize)?;
        Ok(keys)
    }

    /// Empties an array, and gives it the stretches of a text that were found last, at the keys from 1 on.
    pub(crate) fn fill_at(&mut self, array: Array, text: &Bytes) -> Result<(), Halt>
        requires { AreSpansOf text.now self.old.spans.items }
        ensures { Changes (fill_at array (stretches_at text.now self.old.spans.items)) self.old self.new result }
    {
        let number = self.number_at(array);
        self.arrays
            .fill_stretches(number as usize, text, self.spans.as_slice())?;
        Ok(())
    }

    /// The texts of subscripts as one, with the SUBSEP of this moment between them.
    pub fn joined_key(&mut self, values: &[Value]) -> Result<Bytes, Halt>
        ensures { Changes (joined_key values.now) self.old self.new result }
    {
        joined_key(self.alloc, values, self.specials.special(Special::Subsep))
    }

    /// The text of the element of ARGV that is looked at next; an absent one is empty.
    fn next_argument(&self) -> Result<Bytes, Halt>
        ensures text { IfOk result (λ word. word ≡ argument_text self.now.arrays (number_in self.now.names.arrays (codes "ARGV")) self.now.next) }
        ensures memory { IfErr result IsWantOfMemory }
    {
        let number = self.names.array_number(b"ARGV");
        match self.arrays.get(number, Subscript::Number(self.next)) {
            Some(value) => Ok(text_of(self.alloc, value)?),
            None => Ok(Bytes::from_slice(self.alloc, b"")?),
        }
    }

    /// The next element of ARGV, if it is below the number of ARGC; one that is absent is empty, and isn't made. (POSIX awk, OPERANDS)
    pub(crate) fn take_argument(&mut self) -> Result<Option<Bytes>, Halt>
        ensures { Changes (take_argument) self.old self.new result }
    {
        let count = number_of(self.specials.special(Special::Argc))?;
        if self.next >= count {
            return Ok(None);
        }
        let argument = self.next_argument()?;
        self.next += 1;
        Ok(Some(argument))
    }
}
