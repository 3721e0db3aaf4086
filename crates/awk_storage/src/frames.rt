// The parameters of the active calls.

ghost use Rattle.std.specs.Prelude.{◌≡◌, ℕ, ◌+◌, ◌<◌, ◌≤◌, true, false, [], ◌∷◌, ◌++◌, length, take, drop, slice_get, OnOk, OnErr, OnSome, IfNone};
ghost use Rattle.std.specs.Option.{option_copied, option_map};
ghost use Rattle.awk_storage.specs.Control.{highest_sum};
ghost use Rattle.awk_storage.specs.support.Entered.{AreEntered};
ghost use Rattle.awk_storage.specs.support.Frames.{saved_of, newest_count, given};

use crate::control::Control;
use crate::entry::{Caller, Entry};
use crate::room;
use awk_semantics::Local;
use awk_value::Value;
use std::alloc::{AllocError, Global};
use std::marker::Model;

/// The parameters of the active calls, the newest call first; and what a call that is about to be made is given, in order. A call
/// takes memory only where there were never so many parameters before. (POSIX awk, User-Defined Functions)
#[derive(Drop)]
pub struct Frames {
    locals: Vec<Local>,
    control: Control,
    /// Where the parameters of the newest call begin.
    base: usize,
    /// Where they end.
    top: usize,
}

impl Model for Frames {
    ghost use Rattle.std.specs.Prelude.{[]};
    ghost use Rattle.awk_storage.specs.support.Entered.{AreEntered};
    ghost use Rattle.awk_storage.specs.support.Frames.{FramesView, saved_of, frames_from, callers_in, with_callers, AreKept};

    ghost Value = { FramesView };

    ghost view = { λ f. with_callers (callers_in f.control.entries) (frames_from [] f.locals.items (saved_of f.control.entries f.control.heights)) };

    ghost invariant = { λ f. AreKept (saved_of f.control.entries f.control.heights) f.locals.items f.base f.top × AreEntered f.control };
}

/// Gives a parameter that is no array a value.
#[inline(always)]
fn give(local: &mut Local, value: Value)
    ensures { local.new ≡ given local.old value }
{
    if let Local::Value(place) = local {
        *place = value;
    }
}

/// How many parameters the newest call has.
#[inline(always)]
fn newest_count(control: &Control) -> usize
    requires { AreEntered control.now }
    ensures { result ≡ newest_count (saved_of control.now.entries control.now.heights) }
{
    match control.newest() {
        Some(newest) => newest.count,
        None => 0,
    }
}

/// Keeps no more than so many of the parameters.
#[inline(always)]
fn cut(locals: &mut Vec<Local>, count: usize)
    requires { count ≤ length locals.old.items }
    ensures { locals.new.items ≡ take count locals.old.items }
{
    if locals.len() - count == 1 {
        locals.pop();
        return;
    }
    locals.truncate(count);
}

impl Frames {
    ghost use Rattle.awk_storage.specs.support.Frames.{FrameView, callers_in, newest_of, older_of, heights_of, arrays_before_of, with_value_at};

    /// No call is active. Takes no memory.
    pub fn new(alloc: Global) -> Frames
        ensures { result ≡ record { frames = []; staged = []; callers = [] } }
    {
        Frames {
            locals: Vec::new(alloc),
            control: Control::new(alloc),
            base: 0,
            top: 0,
        }
    }

    /// Adds what the call that is about to be made is given for its next parameter.
    #[inline(always)]
    pub fn stage(&mut self, local: Local) -> Result<(), AllocError>
        ensures staged { OnOk result (self.new ≡ record self.old { staged = self.old.staged ++ local ∷ [] }) }
        ensures unchanged { OnErr result (self.new ≡ self.old) }
    {
        room::push(&mut self.locals, local)?;
        Ok(())
    }

    /// How many parameters the call that is about to be made is given.
    pub fn staged_count(&self) -> usize
        ensures { result ≡ length self.now.staged }
    {
        self.locals.as_slice().len() - self.top
    }

    /// No more than so many are left of what the call that is about to be made is given.
    pub fn truncate_staged(&mut self, count: usize)
        ensures { self.new ≡ record self.old { staged = take count self.old.staged } }
    {
        let given = self.staged_count();
        if count < given {
            let end = self.locals.as_slice().len() - (given - count);
            self.locals.truncate(end);
        }
    }

    /// Whether a call of a body of this height may be active too: whether the bodies are then no higher together than they may be.
    #[inline(always)]
    pub fn may_enter(&self, height: u64) -> bool
        ensures may { result ≡ true → heights_of self.now.frames + height ≤ highest_sum }
        ensures may_not { result ≡ false → highest_sum < heights_of self.now.frames + height }
    {
        self.control.may_enter(height)
    }

    /// A call of a body of this height is active: its parameters are what it was given. An `Err` changes nothing.
    #[inline(always)]
    pub fn enter(
        &mut self,
        height: u64,
        arrays_before: usize,
        caller: Caller,
    ) -> Result<(), AllocError>
        requires high { 0 < height }
        requires low { heights_of self.old.frames + height ≤ highest_sum }
        ensures entered { OnOk result (self.new ≡ record {
          frames = record { locals = self.old.staged; height = height; arrays_before = arrays_before } ∷ self.old.frames;
          staged = [];
          callers = caller ∷ self.old.callers;
        }) }
        ensures unchanged { OnErr result (self.new ≡ self.old) }
    {
        let end = self.locals.as_slice().len();
        let entry = Entry {
            count: end - self.top,
            arrays_before,
            caller,
        };
        self.control.enter(height)?;
        match self.control.push(entry) {
            Ok(()) => {
                self.base = self.top;
                self.top = end;
                Ok(())
            }
            Err(refused) => {
                self.control.leave();
                Err(refused)
            }
        }
    }

    /// The newest call is over, and what was given to one that was not made. Gives what was kept of the call. Nothing changes
    /// where no call is active.
    #[inline(always)]
    pub fn leave(&mut self) -> Option<Entry>
        ensures left { OnSome result (self.new ≡ record { frames = older_of self.old.frames; staged = []; callers = drop 1 self.old.callers }) }
        ensures kept { IfNone result (self.new ≡ self.old) }
        ensures arrays { option_map (λ entry. entry.arrays_before) result ≡ arrays_before_of self.old.frames }
        ensures caller { option_map (λ entry. entry.caller) result ≡ slice_get self.old.callers 0 }
    {
        let entry = self.control.pop()?;
        self.control.leave();
        self.top = self.base;
        self.base -= newest_count(&self.control);
        cut(&mut self.locals, self.top);
        Some(entry)
    }

    /// All calls are over.
    pub fn clear(&mut self)
        ensures { self.new ≡ record { frames = []; staged = []; callers = [] } }
    {
        self.locals.clear();
        self.control.clear();
        self.base = 0;
        self.top = 0;
    }

    /// What is kept of the active calls, the newest last.
    pub fn entries(&self) -> &[Entry]
        ensures { callers_in result.now ≡ self.now.callers }
    {
        self.control.entries()
    }

    /// Whether no call is active.
    #[inline(always)]
    pub fn are_over(&self) -> bool
        ensures frames { result ≡ true → self.now.frames ≡ [] }
        ensures callers { result ≡ true → self.now.callers ≡ [] }
    {
        self.control.len() == 0
    }

    /// A parameter of the newest call.
    #[inline(always)]
    pub fn local(&self, index: usize) -> Option<&Local>
        ensures { option_copied result ≡ slice_get (newest_of self.now.frames) index }
    {
        if index < self.top - self.base {
            return Some(&self.locals[self.base + index]);
        }
        None
    }

    /// Gives a parameter of the newest call a value. Nothing changes where it is an array, or isn't there.
    #[inline(always)]
    pub fn set_value(&mut self, index: usize, value: Value)
        ensures { self.new ≡ record self.old {
          frames = with_value_at (slice_get (newest_of self.old.frames) index) index value self.old.frames;
        } }
    {
        if index >= self.top - self.base {
            return;
        }
        give(&mut self.locals[self.base + index], value);
    }
}
