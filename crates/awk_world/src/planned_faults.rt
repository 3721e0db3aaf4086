// The failures that are planned of a world in memory.
ghost use Rattle.std.specs.Prelude.{◌≡◌, ◌≤◌, IfOk};
ghost use Rattle.awk_world.specs.definitions.ScriptAnswers.{is_due, one_less, no_faults, after_call, after_write};
ghost use Rattle.awk_world.specs.definitions.ScriptAnswers.{after_flush, write_answer, flush_answer};

use crate::world::WorldFault;

// How many calls come before the one that fails, and how much a write takes at most.
#[derive(Drop)]
pub struct PlannedFaults {
    pub calls_before_refusal: Option<u64>,
    pub writes_before_failure: Option<u64>,
    pub flushes_before_failure: Option<u64>,
    pub longest_write: Option<usize>,
}

// Whether this is the call that fails; it is counted.
fn take_turn(before: &mut Option<u64>) -> bool
    ensures due { result ≡ is_due before.old }
    ensures counted { before.new ≡ one_less before.old }
{
    match *before {
        None => false,
        Some(0) => {
            *before = None;
            true
        }
        Some(n) => {
            *before = Some(n - 1);
            false
        }
    }
}

impl PlannedFaults {
    pub const fn none() -> Self
        ensures { result ≡ no_faults }
    {
        PlannedFaults {
            calls_before_refusal: None,
            writes_before_failure: None,
            flushes_before_failure: None,
            longest_write: None,
        }
    }

    // Whether this call, which can answer `Memory`, is to answer it.
    pub(crate) fn refuses_call(&mut self) -> bool
        ensures due { result ≡ is_due self.old.calls_before_refusal }
        ensures counted { self.new ≡ after_call self.old }
    {
        take_turn(&mut self.calls_before_refusal)
    }

    // What this write of so many bytes is to answer.
    pub fn write(&mut self, len: usize) -> Result<usize, WorldFault>
        ensures answer { result ≡ write_answer len self.old }
        ensures within { IfOk result (λ n. n ≤ len) }
        ensures counted { self.new ≡ after_write self.old }
    {
        let is_refused = self.refuses_call();
        let fails = take_turn(&mut self.writes_before_failure);
        if is_refused {
            return Err(WorldFault::Memory);
        }
        if fails {
            return Err(WorldFault::Failed);
        }
        match self.longest_write {
            Some(most) => Ok(len.min(most)),
            None => Ok(len),
        }
    }

    // What this flush is to answer.
    pub fn flush(&mut self) -> Result<(), WorldFault>
        ensures answer { result ≡ flush_answer self.old }
        ensures counted { self.new ≡ after_flush self.old }
    {
        let is_refused = self.refuses_call();
        let fails = take_turn(&mut self.flushes_before_failure);
        if is_refused {
            return Err(WorldFault::Memory);
        }
        if fails {
            return Err(WorldFault::Failed);
        }
        Ok(())
    }
}
