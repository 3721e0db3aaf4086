// The functions of texts: a part by its positions, the position of a part, and the cases of letters.
ghost use Rattle.std.specs.Prelude.{◌≡◌, ◌+ℤ◌, ◌<◌, ◌≤◌, Some, min, length, IfOk, IfErr};
ghost use Rattle.std.specs.Cow.{cow_slice_items, IsBorrowedSlice};
ghost use Rattle.memchr.specs.Find.{FindsNeedle};
ghost use Rattle.awk_text.specs.definitions.Functions.{positions_before, substr_of, IsPositionOf, lower_of, upper_of};
ghost use Rattle.awk_text.specs.definitions.Pieces.{stretch_at, IsSpanOf};

use crate::fault::TextFault;
use crate::span::Span;
use memchr::{memchr, memmem};
use std::alloc::Global;
use std::borrow::CowSlice;

// How many bytes of a text of this length lie before a position.
fn bytes_before(position: i128, len: usize) -> usize
    ensures within { result ≤ len }
    ensures value { result ≡ min (positions_before position) len }
{
    if position <= 1 {
        0
    } else if position - 1 >= len as i128 {
        len
    } else {
        (position - 1) as usize
    }
}

// The same of the position that lies so many behind another, also where that one is past every number.
fn bytes_before_end(start: i128, count: i128, len: usize) -> usize
    ensures { result ≡ min (positions_before (start +ℤ count)) len }
{
    match start.checked_add(count) {
        Some(end) => bytes_before(end, len),
        None if start < 0 => 0,
        None => len,
    }
}

// The part at `count` positions from `start` on.
fn counted_part(text: &[u8], start: i128, count: i128) -> Span
    ensures bytes { stretch_at text.now result ≡ substr_of text.now start (Some count) }
    ensures within { IsSpanOf text.now result }
{
    let first = bytes_before(start, text.len());
    let end = bytes_before_end(start, count, text.len());
    Span {
        start: first,
        end: end.max(first),
    }
}

/// The part of the text at `count` positions from `start` on, or without a count at all from there: those
/// that exist, counted from 1. So positions below 1 use up the count too, and any number will do: no sum
/// wraps. The part is named and not copied. (POSIX awk, String Functions: substr)
pub fn substr(text: &[u8], start: i128, count: Option<i128>) -> Span
    ensures bytes { stretch_at text.now result ≡ substr_of text.now start count }
    ensures within { IsSpanOf text.now result }
{
    match count {
        Some(count) => counted_part(text, start, count),
        None => Span {
            start: bytes_before(start, text.len()),
            end: text.len(),
        },
    }
}

// How many bytes stand before the first place of the part.
#[inline]
fn find_part(text: &[u8], part: &[u8]) -> Option<usize>
    requires { 0 < length part.now }
    ensures { FindsNeedle text.now part.now 0 result }
{
    match part {
        [byte] => memchr(*byte, text),
        _ => memmem::find(text, part),
    }
}

/// The first position, counted from 1, where the part stands in the text; 0 if it doesn't, or is empty.
/// Takes no memory, and time that grows with the text. (POSIX awk, String Functions: index)
pub fn index(text: &[u8], part: &[u8]) -> usize
    ensures { IsPositionOf part.now text.now result }
{
    if part.is_empty() {
        return 0;
    }
    match find_part(text, part) {
        Some(before) => before + 1,
        None => 0,
    }
}

/// The text with its ASCII capital letters made small. A text without any is answered itself, not copied.
/// The only error is `Memory`. (POSIX awk, String Functions: tolower)
pub fn lower<'a>(alloc: Global, text: &'a [u8]) -> Result<CowSlice<'a, u8>, TextFault>
    ensures bytes { IfOk result (λ small. cow_slice_items small ≡ lower_of text.now) }
    ensures itself { IfOk result (λ small. IsBorrowedSlice small → lower_of text.now ≡ text.now) }
    ensures memory { IfErr result (λ e. e ≡ TextFault.Memory) }
{
    if !text.iter().any(|byte| byte.is_ascii_uppercase()) {
        return Ok(CowSlice::Borrowed(text));
    }
    Ok(CowSlice::Owned(text.to_ascii_lowercase(alloc)?))
}

/// The text with its ASCII small letters made capital. A text without any is answered itself, not copied.
/// The only error is `Memory`. (POSIX awk, String Functions: toupper)
pub fn upper<'a>(alloc: Global, text: &'a [u8]) -> Result<CowSlice<'a, u8>, TextFault>
    ensures bytes { IfOk result (λ capital. cow_slice_items capital ≡ upper_of text.now) }
    ensures itself { IfOk result (λ capital. IsBorrowedSlice capital → upper_of text.now ≡ text.now) }
    ensures memory { IfErr result (λ e. e ≡ TextFault.Memory) }
{
    if !text.iter().any(|byte| byte.is_ascii_lowercase()) {
        return Ok(CowSlice::Borrowed(text));
    }
    Ok(CowSlice::Owned(text.to_ascii_uppercase(alloc)?))
}
