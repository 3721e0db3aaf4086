// Calls of functions.

ghost use Rattle.std.specs.Prelude.{◌≡◌, ◌+◌, ◌<◌, ◌≤◌, ◌∷◌, [], true, Ok, OnOk, OnErr, IfErr};
ghost use Rattle.awk_semantics.specs.Primitives.{check_height};
ghost use Rattle.awk_semantics.specs.declared.local.Local.{Local as Given};
ghost use Rattle.awk_semantics.specs.declared.local.Local.TheVariants.{Value as GivenValue, Array as GivenArray};
ghost use Rattle.awk_semantics.specs.Results.{IsWantOfMemory};
ghost use Rattle.awk_storage.specs.Control.{highest_sum};
ghost use Rattle.awk_storage.specs.support.Frames.{heights_of};
ghost use Rattle.awk_runtime.specs.support.Simulation.{Changes};
ghost use Rattle.awk_runtime.specs.support.Calling.{kept_number, Gives, Refused, with_missing, completed, EntersCall, LeavesCall, EndsCalls};

use crate::runtime::Runtime;
use awk_semantics::{Fault, Halt, Local};
use awk_storage::{Array, Caller};
use awk_value::Value;

impl Runtime {
    /// Whether a call of a body of this height may be made; else the fault is F11. (POSIX awk, User-Defined Functions)
    #[inline(always)]
    pub fn check_height(&mut self, height: u64) -> Result<(), Halt>
        ensures changes { Changes (check_height height) self.old self.new result }
        ensures same { self.new ≡ self.old }
        ensures low { OnOk result (heights_of self.old.frames.frames + height ≤ highest_sum) }
    {
        if self.frames.may_enter(height) {
            return Ok(());
        }
        Err(Halt::Fault(Fault::CallsTooDeep))
    }

    /// Gives the call that is about to be made a value for its next parameter.
    #[inline(always)]
    pub fn give_value(&mut self, value: Value) -> Result<(), Halt>
        ensures { Gives (GivenValue value) self.old self.new result }
    {
        self.frames.stage(Local::Value(value))?;
        Ok(())
    }

    /// Gives the call that is about to be made an array for its next parameter.
    pub fn give_array(&mut self, array: Array) -> Result<(), Halt>
        ensures { Gives (GivenArray (kept_number array self.old.frames)) self.old self.new result }
    {
        let number = self.number_at(array);
        self.frames.stage(Local::Array(number))?;
        Ok(())
    }

    /// Gives the call that is about to be made a new array, which is empty. The only fault is want of memory.
    fn give_new_array(&mut self) -> Result<(), Halt>
        ensures given { OnOk result (self.new ≡ with_missing (true ∷ []) self.old) }
        ensures refused { OnErr result (Refused self.old self.new) }
        ensures memory { IfErr result IsWantOfMemory }
    {
        let Ok(number) = u32::try_from(self.arrays.len()) else {
            return Err(Halt::Fault(Fault::OutOfMemory));
        };
        self.arrays.add()?;
        self.frames.stage(Local::Array(number))?;
        Ok(())
    }

    /// Gives the call that is about to be made what parameters of these kinds have for want of arguments. The only fault is
    /// want of memory.
    fn give_missing(&mut self, kinds: &[bool]) -> Result<(), Halt>
        ensures given { OnOk result (self.new ≡ with_missing kinds.now self.old) }
        ensures refused { OnErr result (Refused self.old self.new) }
        ensures memory { IfErr result IsWantOfMemory }
    {
        for is_array in kinds {
            if *is_array {
                self.give_new_array()?;
            } else {
                self.give_value(Value::Nothing)?;
            }
        }
        Ok(())
    }

    /// As many are given as there are parameters. The only fault is want of memory.
    #[inline(always)]
    fn complete_given(&mut self, kinds: &[bool]) -> Result<(), Halt>
        ensures given { OnOk result (self.new ≡ completed kinds.now self.old) }
        ensures refused { OnErr result (Refused self.old self.new) }
        ensures memory { IfErr result IsWantOfMemory }
    {
        if self.frames.staged_count() == kinds.len() {
            return Ok(());
        }
        self.complete_any(kinds)
    }

    /// As `complete_given`, however many are given.
    #[inline(never)]
    fn complete_any(&mut self, kinds: &[bool]) -> Result<(), Halt>
        ensures given { OnOk result (self.new ≡ completed kinds.now self.old) }
        ensures refused { OnErr result (Refused self.old self.new) }
        ensures memory { IfErr result IsWantOfMemory }
    {
        let given = self.frames.staged_count();
        if given > kinds.len() {
            self.frames.truncate_staged(kinds.len());
            return Ok(());
        }
        self.give_missing(&kinds[given..])
    }

    /// A call of a body of this height is active, with all that it was given; a parameter without an argument was never
    /// assigned, or is a new empty array. `kinds` tells of each parameter whether it is an array. (POSIX awk, User-Defined
    /// Functions)
    #[inline(always)]
    pub fn enter_call(&mut self, kinds: &[bool], height: u64, caller: Caller) -> Result<(), Halt>
        requires high { 0 < height }
        requires low { heights_of self.old.frames.frames + height ≤ highest_sum }
        ensures { EntersCall kinds.now height caller self.old self.new result }
    {
        let arrays_before = self.arrays.len();
        self.complete_given(kinds)?;
        self.frames.enter(height, arrays_before, caller)?;
        Ok(())
    }

    /// The newest call is over, and the arrays that it made are no more. Gives its caller, if there is one. (POSIX awk,
    /// User-Defined Functions)
    #[inline(always)]
    pub fn leave_call(&mut self) -> Option<Caller>
        ensures { LeavesCall self.old result self.new }
    {
        let left = self.frames.leave()?;
        self.arrays.truncate(left.arrays_before);
        Some(left.caller)
    }

    /// Whether no call is active.
    #[inline(always)]
    pub fn calls_are_over(&self) -> bool
        ensures { result ≡ true → self.now.frames.callers ≡ [] }
    {
        self.frames.are_over()
    }

    /// No call is active any more, and the arrays that calls made are no more.
    pub fn end_calls(&mut self)
        ensures { EndsCalls self.old self.new }
    {
        while let Some(left) = self.frames.leave() {
            self.arrays.truncate(left.arrays_before);
        }
    }
}
