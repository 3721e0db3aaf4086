// The calls of a world that failed, as proofs know them.
ghost use Rattle.std.specs.Prelude.{◌≡◌, List, [], ◌∷◌};
ghost use Rattle.std.specs.Borrow.{ftrue};
ghost use Rattle.awk_world.specs.declared.failure.Failure.{Failure};

use crate::world::WorldFault;
use std::marker::Model;

/// A call that failed and is not in the log: how long the log was then, the output that was to be
/// written to or flushed, if it was one, and why.
#[derive(Clone, Copy, Drop)]
pub struct Failure {
    pub at: usize,
    pub output: Option<u64>,
    pub what: WorldFault,
}

/// The failures among the calls, the newest first. It has no bytes, and nothing is done at run time
/// where one is noted.
#[derive(Drop)]
pub(crate) struct Failures {
    pub(crate) ghost list: { List Failure },
}

impl Model for Failures {
    ghost also_owns = { λ _. ftrue };
}

impl Failures {
    /// No failures.
    pub(crate) fn new() -> Failures
        ensures { result.list ≡ [] }
    {
        Failures {}
    }

    /// Notes a failure.
    #[inline(always)]
    pub(crate) fn note(&mut self, _failure: &Failure)
        ensures { self.new.list ≡ _failure.now ∷ self.old.list }
    {}
}
