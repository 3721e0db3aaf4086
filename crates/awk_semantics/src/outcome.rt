// How a run ends.

ghost use Rattle.std.specs.Prelude.{◌≡◌};
ghost use Rattle.awk_semantics.specs.definitions.Outcome.{status_of};

use crate::fault::Fault;

/// How a run ended: by itself with a status, by a fault, or for want of steps.
#[derive(Clone, Copy, Debug, PartialEq, Eq)]
pub enum Outcome {
    Ended(u8),
    Fault(Fault),
    Stopped,
}

/// The exit status of an outcome: its own, 2 for a fault, 3 for a stop.
pub fn status(outcome: &Outcome) -> u8
    ensures { result ≡ status_of outcome.now }
{
    match outcome {
        Outcome::Ended(status) => *status,
        Outcome::Fault(_) => 2,
        Outcome::Stopped => 3,
    }
}
