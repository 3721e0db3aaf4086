// The calls that have begun and not ended: an entry for each, within a bound that the heights of their bodies give.

ghost use Rattle.std.specs.Prelude.{◌≡◌, ◌+◌, ◌-◌, ◌≤◌, ◌<◌, [], ◌∷◌, ◌++◌, length, slice_get, true, false, OnOk, OnErr, IfSome, OnSome, IfNone};
ghost use Rattle.std.specs.List.{sum};
ghost use Rattle.std.specs.Option.{option_copied};
ghost use Rattle.awk_storage.specs.declared.control.TheConstants.{FIRST_BOUND};
ghost use Rattle.awk_storage.specs.support.Control.{Controlled, highest_sum, but_last, bound_of, HasRoom};

use crate::entry::Entry;
use crate::room;
use awk_grammar::height::MAX_HEIGHT;
use std::alloc::{AllocError, Global};
use std::marker::Model;

/// The most entries where no body is entered, which is the most levels that a tree has.
pub const FIRST_BOUND: usize = MAX_HEIGHT as usize;

/// The heights of all bodies that are entered at a time are no more together.
pub const HIGHEST_SUM: usize = 1_000_000;

/// The entries of the calls that have begun and not ended, and the heights of the bodies that were entered and not left, the
/// newest last. The entries are never more than `bound`.
#[derive(Drop)]
pub struct Control {
    entries: Vec<Entry>,
    heights: Vec<u64>,
    bound: usize,
}

impl Model for Control {
    ghost use Rattle.std.specs.Prelude.{◌≡◌, ◌+◌, ◌≤◌, length};
    ghost use Rattle.std.specs.List.{sum};
    ghost use Rattle.awk_storage.specs.declared.control.TheConstants.{FIRST_BOUND};
    ghost use Rattle.awk_storage.specs.support.Control.{Controlled, highest_sum};

    ghost Value = { Controlled };

    ghost view = { λ c. record { entries = c.entries.items; heights = c.heights.items } };

    ghost invariant = { λ c. (c.bound ≡ FIRST_BOUND + sum c.heights.items) × (sum c.heights.items ≤ highest_sum)
        × (length c.entries.items ≤ c.bound) };
}

impl Control {
    /// No call has begun, and no body is entered.
    pub fn new(alloc: Global) -> Control
        ensures { result ≡ record { entries = []; heights = [] } }
    {
        Control {
            entries: Vec::new(alloc),
            heights: Vec::new(alloc),
            bound: FIRST_BOUND,
        }
    }

    /// Enters a body of this height, by which the bound rises. An `Err`, which is want of memory, changes nothing.
    #[inline(always)]
    pub fn enter(&mut self, height: u64) -> Result<(), AllocError>
        requires { sum self.old.heights + height ≤ highest_sum }
        ensures entered { OnOk result (self.new ≡ record self.old { heights = self.old.heights ++ height ∷ [] }) }
        ensures err { OnErr result (self.new ≡ self.old) }
    {
        room::push(&mut self.heights, height)?;
        self.bound += height as usize;
        Ok(())
    }

    /// Leaves the body that was entered last. There is one, and the entries fit the bound without it.
    #[inline(always)]
    pub fn leave(&mut self)
        requires entered { 0 < length self.old.heights }
        requires fits { length self.old.entries ≤ FIRST_BOUND + sum (but_last self.old.heights) }
        ensures { self.new ≡ record self.old { heights = but_last self.old.heights } }
    {
        if let Some(height) = self.heights.pop() {
            self.bound -= height as usize;
        }
    }

    /// Puts an entry on top. An `Err`, which is want of memory, changes nothing.
    #[inline(always)]
    pub fn push(&mut self, entry: Entry) -> Result<(), AllocError>
        requires room { HasRoom self.old }
        ensures entries { OnOk result (self.new.entries ≡ self.old.entries ++ entry ∷ []) }
        ensures heights { OnOk result (self.new.heights ≡ self.old.heights) }
        ensures err { OnErr result (self.new ≡ self.old) }
    {
        room::push(&mut self.entries, entry)?;
        Ok(())
    }

    /// Takes the topmost entry off. There is room for another one then.
    #[inline(always)]
    pub fn pop(&mut self) -> Option<Entry>
        ensures some { IfSome result (λ entry. self.old.entries ≡ self.new.entries ++ entry ∷ []) }
        ensures room { OnSome result (HasRoom self.new) }
        ensures none { IfNone result (self.old.entries ≡ []) }
        ensures kept { IfNone result (self.new ≡ self.old) }
        ensures heights { self.new.heights ≡ self.old.heights }
    {
        self.entries.pop()
    }

    /// The entries, the newest last.
    pub fn entries(&self) -> &[Entry]
        ensures { result.now ≡ self.now.entries }
    {
        self.entries.as_slice()
    }

    /// The topmost entry, if there is one.
    #[inline(always)]
    pub fn newest(&self) -> Option<&Entry>
        ensures { option_copied result ≡ slice_get self.now.entries (length self.now.entries - 1) }
    {
        self.entries.last()
    }

    /// Whether a body of this height may be entered: whether the heights of all are then no more than they may be together.
    #[inline(always)]
    pub fn may_enter(&self, height: u64) -> bool
        ensures may { result ≡ true → sum self.now.heights + height ≤ highest_sum }
        ensures may_not { result ≡ false → highest_sum < sum self.now.heights + height }
    {
        height <= (FIRST_BOUND + HIGHEST_SUM - self.bound) as u64
    }

    /// How many entries stand, which are never more than the bound.
    pub fn len(&self) -> usize
        ensures count { result ≡ length self.now.entries }
        ensures within { length self.now.entries ≤ bound_of self.now }
    {
        self.entries.len()
    }

    /// How many entries stand at most: the first bound, and the heights of the bodies that were entered and not left.
    pub fn bound(&self) -> usize
        ensures bound { result ≡ bound_of self.now }
        ensures low { sum self.now.heights ≤ highest_sum }
    {
        self.bound
    }

    /// Takes all entries off and leaves all bodies.
    pub fn clear(&mut self)
        ensures { self.new ≡ record { entries = []; heights = [] } }
    {
        self.entries.clear();
        self.heights.clear();
        self.bound = FIRST_BOUND;
    }
}
