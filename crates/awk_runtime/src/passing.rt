// Records that no rule of a program wants. Where they are at hand they are passed over: nothing is asked of a world then.

ghost use Rattle.std.specs.Prelude.{◌≡◌, ◌≤◌, ◌<◌, suc, length, drop, IfSome};
ghost use Rattle.std.specs.List.{count_by};
ghost use Rattle.memchr.specs.Find.{is_byte};
ghost use Rattle.awk_record.specs.Cut.{longest};
ghost use Rattle.awk_streams.specs.WorldState.{WorldState};
ghost use Rattle.awk_runtime.specs.support.Simulation.{IsReady};
ghost use Rattle.awk_runtime.specs.support.Passing.{IsUnwanted, AreUnwantedUpTo, IsPassed, IsEndOfLine, BeginsWithLine, MayPass, PassesOver};

use crate::runtime::Runtime;
use awk_streams::World;
use memchr::{memchr, memchr_iter, memrchr};
use std::simd::prelude::*;

/// The records that no rule of a program wants: each, or each in which an ERE of the program, by its number, has no match.
#[derive(Clone, Copy)]
pub enum Unwanted {
    All,
    Unmatched(u32),
}

/// So many records, of so many bytes with their separators.
#[derive(Clone, Copy)]
pub struct Passed {
    pub records: usize,
    pub bytes: usize,
}

// So many bytes are looked at together where there are many, and where there are some.
const MANY: usize = 64;

const SOME: usize = 16;

/// How often a byte stands among many.
#[inline(always)]
fn count_among_many(bytes: u8x64, byte: u8) -> usize
    ensures { result ≡ count_by (is_byte byte) bytes }
{
    let marks = bytes.simd_eq(u8x64::splat(byte)).to_bitmask();
    marks.count_ones() as usize
}

/// How often a byte stands among some.
#[inline(always)]
fn count_among_some(bytes: u8x16, byte: u8) -> usize
    ensures { result ≡ count_by (is_byte byte) bytes }
{
    let marks = bytes.simd_eq(u8x16::splat(byte)).to_bitmask();
    marks.count_ones() as usize
}

/// How often a byte stands in a text.
fn count_of(text: &[u8], byte: u8) -> usize
    ensures { result ≡ count_by (is_byte byte) text.now }
{
    let mut count = 0;
    let mut rest = text;
    while rest.len() >= MANY {
        count += count_among_many(u8x64::from_slice(rest), byte);
        rest = &rest[MANY..];
    }
    count + count_in_few(rest, byte)
}

/// As `count_of`, of a text of few bytes.
fn count_in_few(text: &[u8], byte: u8) -> usize
    ensures { result ≡ count_by (is_byte byte) text.now }
{
    let mut count = 0;
    let mut rest = text;
    while rest.len() >= SOME {
        count += count_among_some(u8x16::from_slice(rest), byte);
        rest = &rest[SOME..];
    }
    count + memchr_iter(byte, rest).count()
}

/// Where the last record ends that ends at or before a place, by a separator of one byte, and isn't the last whole one.
fn last_end(bytes: &[u8], place: usize, separator: u8) -> Option<usize>
    requires place { place ≤ length bytes.now }
    ensures end { IfSome result (IsEndOfLine separator bytes.now) }
    ensures before { IfSome result (λ end. end ≤ suc place) }
    ensures whole { IfSome result (λ end. BeginsWithLine separator (drop end bytes.now)) }
{
    let front = bytes.len().min(place.saturating_add(1));
    let last = memrchr(separator, &bytes[..front])?;
    if memchr(separator, &bytes[last + 1..]).is_some() {
        return Some(last + 1);
    }
    match memrchr(separator, &bytes[..last]) {
        Some(before) => Some(before + 1),
        None => Some(0),
    }
}

/// The records in front of these bytes, by a separator of one byte, that end at or before a place and have one more that is whole
/// behind them, where they are no more than so many.
fn passed_in(bytes: &[u8], place: usize, separator: u8, most: u64) -> Option<Passed>
    requires short { length bytes.now < longest }
    requires place { place ≤ length bytes.now }
    ensures passed { IfSome result (IsPassed separator bytes.now place) }
    ensures most { IfSome result (λ passed. passed.records ≤ most) }
{
    let end = last_end(bytes, place, separator)?;
    let records = count_of(&bytes[..end], separator);
    if records as u64 > most {
        return None;
    }
    Some(Passed {
        records,
        bytes: end,
    })
}

impl Runtime {
    /// Passes over records of the main input that no rule wants, where they are at hand, no call is active and the steps suffice
    /// for them and for one record more, which is at hand too: they are counted in NR and FNR, and each spends a step. Nothing
    /// is asked of a world, and nobody sees their texts. Takes no memory. `false` where none ever will be passed over: of the
    /// ERE no text is known that stands in each match. (POSIX awk, Overall Program Structure; Patterns)
    pub fn pass_over<W: World>(&mut self, unwanted: Unwanted) -> bool
        ensures callers { self.new.frames.callers ≡ self.old.frames.callers }
        ensures ready { (k : WorldState) → IsReady W.is_logged k self.old.streams → IsReady W.is_logged k self.new.streams }
        ensures passes { (k : WorldState) → IsReady W.is_logged k self.old.streams →
            PassesOver W.is_logged (IsUnwanted self.old.names unwanted) self.old k self.new }
    {
        let Some(passed) = self.unwanted_at_hand(unwanted) else {
            return self.may_be_known(unwanted);
        };
        self.names.law_of_slots();
        if passed.records == 0 || !self.specials.count_records(passed.records) {
            return true;
        }
        self.steps -= passed.records as u64;
        self.streams.skip_main(passed.bytes);
        true
    }

    // Whether a record that no rule wants may be known without looking for a match.
    fn may_be_known(&self, unwanted: Unwanted) -> bool {
        match unwanted {
            Unwanted::All => true,
            Unwanted::Unmatched(ere) => self.patterns.may_skip(ere as usize),
        }
    }

    // The records at hand that no rule wants, with one more behind them.
    fn unwanted_at_hand(&self, unwanted: Unwanted) -> Option<Passed>
        ensures { IfSome result (MayPass unwanted self.now) }
    {
        if self.steps == 0 || !self.frames.are_over() {
            return None;
        }
        let separator = self.specials.record_separator_byte()?;
        let held = self.streams.main_unsearched()?;
        let place = self.unwanted_up_to(unwanted, held)?;
        passed_in(held, place, separator, self.steps - 1)
    }

    // A place of a text: no rule wants a record that stands in the text before it.
    fn unwanted_up_to(&self, unwanted: Unwanted, text: &[u8]) -> Option<usize>
        ensures within { IfSome result (λ place. place ≤ length text.now) }
        ensures none { IfSome result (AreUnwantedUpTo self.now.names unwanted text.now) }
    {
        match unwanted {
            Unwanted::All => Some(text.len()),
            Unwanted::Unmatched(ere) => {
                self.patterns
                    .skippable(ere as usize, self.names.ere(ere), text)
            }
        }
    }
}
