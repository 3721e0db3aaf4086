// The variables that a rule and END may read at a place.

ghost use Rattle.std.specs.Prelude.{◌≡◌, ℕ, Bool, List};
ghost use Rattle.awk_pieces.specs.definitions.Pieceable.{no_own};
ghost use Rattle.awk_pieces.specs.support.Known.{own_of};
ghost use Rattle.awk_merging.specs.definitions.Mergeable.{is_derived, is_other, is_shown};
ghost use Rattle.awk_merging.specs.support.Others.{known_in, shown_in};
ghost use Rattle.awk_merging.specs.support.SumsOf.{sums_of};

use crate::sums::{Sum, is_sum};
use awk_pieces::{Known, Readable, tells_apart};

/// The variables that may be read where these are the sums, and so many variables of the record were set.
#[derive(Clone, Copy)]
pub(crate) struct Others<'a, 'b> {
    pub(crate) sums: &'a [Sum],
    pub(crate) known: &'a Known<'b>,
}

impl Readable for Others<'_, '_> {
    ghost own = { λ others. own_of others.known.now };

    ghost arrays = { λ _. no_own };

    ghost known = { λ others. known_in (sums_of others.sums.now) others.known.now };

    fn is_own(&self, name: &[u8]) -> bool {
        self.known.is_own(name)
    }

    fn is_own_array(&self, _: &[u8]) -> bool {
        false
    }

    fn has(&self, name: &[u8]) -> bool {
        if self.known.is_own(name) {
            return self.known.has(name);
        }
        is_other(self.sums, name)
    }
}

/// Whether the variable is one of the derived programs.
pub(crate) fn is_derived(name: &[u8]) -> bool
    ensures { result ≡ is_derived name.now }
{
    name == b"merge_what".as_slice() || name == b"merge_key".as_slice()
}

/// Whether the variable is neither a sum nor another one on each piece, nor a derived program's.
pub(crate) fn is_other(sums: &[Sum], name: &[u8]) -> bool
    ensures { result ≡ is_other (sums_of sums.now) name.now }
{
    !(tells_apart(name) || is_derived(name) || is_sum(sums, name))
}

/// Whether the variable neither tells the pieces of an input or its last record apart, nor is a derived program's.
fn may_be_shown(name: &[u8]) -> bool
    ensures { result ≡ is_shown name.now }
{
    !(tells_apart(name) || is_derived(name) || name == b"NF".as_slice())
}

/// Whether END may read the variable: it is a sum, is set by BEGIN alone, or gets the keys of a loop.
pub(crate) fn is_shown(known: &Known, name: &[u8]) -> bool
    ensures { result ≡ shown_in known.now name.now }
{
    if known.is_own(name) {
        return known.has(name);
    }
    may_be_shown(name)
}
