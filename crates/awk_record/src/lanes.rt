// The first place of a byte, by many bytes that are looked at together.
ghost use Rattle.std.specs.Prelude.{◌≡◌, false, ◌+◌, ◌≤◌, length, slice_index};
ghost use Rattle.std.specs.Slice.Scan.{HoldsNowhere, Marks};
ghost use Rattle.memchr.specs.Find.{IsFirstByte, is_byte};

use memchr::memchr;
use std::simd::prelude::*;

// How many bytes are looked at together.
const LANES: usize = 64;

// Which of the bytes from a place on are this one, a bit for each.
#[inline(always)]
fn marks_at(byte: u8, bytes: &[u8], at: usize) -> u64
    requires { at + LANES ≤ length bytes.now }
    ensures { Marks (λ k. is_byte byte (slice_index bytes.now k)) at LANES result }
{
    u8x64::from_slice(&bytes[at..])
        .simd_eq(u8x64::splat(byte))
        .to_bitmask()
}

/// The first place where a byte stands. It is quick where that is near, and more bytes stand behind it.
#[inline(always)]
pub fn first_place(byte: u8, bytes: &[u8]) -> Option<usize>
    ensures { IsFirstByte (is_byte byte) bytes.now result }
{
    if bytes.len() < LANES {
        return first_behind(byte, bytes, 0);
    }
    let marks = marks_at(byte, bytes, 0);
    if marks == 0 {
        return first_behind(byte, bytes, LANES);
    }
    Some(marks.trailing_zeros() as usize)
}

// The same, where none stands among the first ones, so many.
#[inline(never)]
fn first_behind(byte: u8, bytes: &[u8], passed: usize) -> Option<usize>
    requires within { passed ≤ length bytes.now }
    requires none { HoldsNowhere (λ k. is_byte byte (slice_index bytes.now k)) 0 passed }
    ensures { IsFirstByte (is_byte byte) bytes.now result }
{
    let mut at = passed;
    'lanes: while bytes.len() - at >= LANES {
        let marks = marks_at(byte, bytes, at);
        if marks != 0 {
            return Some(at + marks.trailing_zeros() as usize);
        }
        at += LANES;
    }
    let len = memchr(byte, &bytes[at..])?;
    Some(at + len)
}
