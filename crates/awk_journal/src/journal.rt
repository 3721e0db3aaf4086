// A log of calls that exists in proofs alone.
ghost use Rattle.std.specs.Prelude.{◌≡◌, List, []};
ghost use Rattle.std.specs.Borrow.{ftrue};
ghost use Rattle.awk_world.specs.declared.failure.Failure.{Failure};
ghost use Rattle.awk_world.specs.Log.{Event, logged, failures_after};
ghost use Rattle.awk_journal.specs.Calls.{noted};

use crate::call::Call;
use std::marker::Model;

/// What the noted calls leave in a log, and the failures among them. It has no bytes, and nothing is
/// done at run time where a call is noted.
#[derive(Drop)]
pub(crate) struct Journal {
    pub(crate) ghost log: { List Event },
    pub(crate) ghost failures: { List Failure },
}

impl Model for Journal {
    ghost also_owns = { λ _. ftrue };
}

impl Journal {
    /// A journal in which nothing is noted.
    pub(crate) fn new() -> Journal
        ensures { (result.log ≡ []) × (result.failures ≡ []) }
    {
        Journal {}
    }

    /// Notes a call that was made.
    #[inline(always)]
    pub(crate) fn note(&mut self, _call: &Call<'_>)
        ensures { (self.new.log ≡ logged (noted _call.now) self.old.log)
            × (self.new.failures ≡ failures_after (noted _call.now) self.old.log self.old.failures) }
    {}
}
