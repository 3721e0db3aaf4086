// The variables and the arrays that an expression may read, and those of the record.

ghost use Rattle.std.specs.Prelude.{◌≡◌, ◌++◌, ℕ, Bool, true, false, List, [], OnOk, take, length};
ghost use Rattle.std.specs.Option.{option_map};
ghost use Rattle.awk_pieces.specs.definitions.Pieceable.{listed, no_own, is_own, is_own_variable, is_own_array};
ghost use Rattle.awk_pieces.specs.support.Known.{own_of, arrays_of, mine_of, set_of, known_of};

use crate::names::{add_name, has_name, is_own_array, is_own_variable, tells_apart};
use awk_value::Bytes;
use std::alloc::{AllocError, Global};

/// The variables and the arrays that an expression may read, and those of the record, which it may change as well.
pub trait Readable {
    ghost own: { Self → List ℕ → Bool };

    ghost arrays: { Self → List ℕ → Bool };

    ghost known: { Self → List ℕ → Bool };

    /// Whether the variable of this name is one of the record.
    fn is_own(&self, name: &[u8]) -> bool
        ensures { result ≡ own self.now name.now };

    /// Whether the array of this name is one of the record.
    fn is_own_array(&self, name: &[u8]) -> bool
        ensures { result ≡ arrays self.now name.now };

    /// Whether the variable or the array of the record of this name may be read.
    fn has(&self, name: &[u8]) -> bool
        ensures { result ≡ known self.now name.now };
}

/// All variables: before the records each has the same value in any piece.
#[derive(Clone, Copy)]
pub(crate) struct Every;

impl Readable for Every {
    ghost own = { λ _. no_own };

    ghost arrays = { λ _. no_own };

    ghost known = { λ _ _. true };

    fn is_own(&self, _: &[u8]) -> bool {
        false
    }

    fn is_own_array(&self, _: &[u8]) -> bool {
        false
    }

    fn has(&self, _: &[u8]) -> bool {
        true
    }
}

/// Those that a rule may read: what is the same on each piece, but of the variables and the arrays of the record those alone
/// that were set or filled before.
#[derive(Drop)]
pub struct Known<'a> {
    // the names that rules set, and the arrays that they fill
    names: &'a [Bytes],
    arrays: &'a [Bytes],
    // those that were set before, in turn
    set: Vec<Bytes>,
}

impl<'a> Known<'a> {
    /// What is known as a rule begins, where rules set these names.
    pub fn new(alloc: Global, names: &'a [Bytes]) -> Known<'a>
        ensures own { own_of result ≡ is_own names.now }
        ensures set { set_of result ≡ [] }
    {
        Known::with_arrays(alloc, names, &[])
    }

    /// The same, where they fill these arrays too.
    pub fn with_arrays(alloc: Global, names: &'a [Bytes], arrays: &'a [Bytes]) -> Known<'a>
        ensures own { own_of result ≡ is_own_variable names.now arrays.now }
        ensures arrays { arrays_of result ≡ is_own_array names.now arrays.now }
        ensures set { set_of result ≡ [] }
    {
        Known {
            names,
            arrays,
            set: Vec::new(alloc),
        }
    }

    /// How many were set.
    pub fn len(&self) -> usize
        ensures { result ≡ length (set_of self.now) }
    {
        self.set.len()
    }

    /// One more is set, where there is a name.
    ///
    /// # Errors
    ///
    /// Where memory is refused.
    pub fn add(&mut self, name: Option<&Bytes>) -> Result<(), AllocError>
        ensures own { OnOk result (own_of self.new ≡ own_of self.old) }
        ensures arrays { OnOk result (arrays_of self.new ≡ arrays_of self.old) }
        ensures set { OnOk result (set_of self.new ≡ set_of self.old ++ listed (option_map (λ name. name.now) name.entry)) }
    {
        add_name(&mut self.set, name)
    }

    /// Whether it is a variable or an array of the record.
    fn is_mine(&self, name: &[u8]) -> bool
        ensures { result ≡ mine_of self.now name.now }
    {
        is_own_array(self.names, self.arrays, name)
            || is_own_variable(self.names, self.arrays, name)
    }

    /// So many are known to be set, and no others.
    pub fn truncate(&mut self, count: usize)
        ensures own { own_of self.new ≡ own_of self.old }
        ensures arrays { arrays_of self.new ≡ arrays_of self.old }
        ensures set { set_of self.new ≡ take count (set_of self.old) }
    {
        self.set.truncate(count);
    }
}

impl Readable for Known<'_> {
    ghost own = { own_of };

    ghost arrays = { arrays_of };

    ghost known = { known_of };

    fn is_own(&self, name: &[u8]) -> bool {
        is_own_variable(self.names, self.arrays, name)
    }

    fn is_own_array(&self, name: &[u8]) -> bool {
        is_own_array(self.names, self.arrays, name)
    }

    fn has(&self, name: &[u8]) -> bool {
        if self.is_mine(name) {
            return has_name(&self.set, name);
        }
        !tells_apart(name)
    }
}
