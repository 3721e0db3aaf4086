// Finding the lexeme at a place in a text, by its first byte.

ghost use Rattle.std.specs.Prelude.{◌≡◌, ◌+◌, ◌<◌, ◌≤◌, ◌^◌, true, false, length, pos, drop};
ghost use Rattle.std.specs.Prelude.{take_while, slice_index, MatchOption, IfOk};
ghost use Rattle.std.specs.List.{list_all, prefix_len};
ghost use Rattle.std.specs.Char.{is_ascii_digit};
ghost use Rattle.std.specs.Str.Parse.{digits_value};
ghost use Rattle.awk_lex.specs.definitions.Words.{is_word_byte, goes_on};
ghost use Rattle.awk_lex.specs.definitions.Lexes.{is_no_newline};
ghost use Rattle.awk_lex.specs.support.Lexeme.{gap_len, body_len, found_word, found_number, found_string};
ghost use Rattle.awk_lex.specs.support.Lexeme.{slash_at, found_ere, named, token_lexeme, lexeme_of};

use crate::delimited::{body_len, string_value};
use crate::lexeme::Lexeme;
use crate::punctuation::{division_lexeme, punctuator_lexeme};
use crate::refusal::RefusalCode;
use crate::token::Kind;
use crate::words::{is_name_start, is_word_byte, reserved_kind};
use awk_value::Bytes;
use std::alloc::{AllocError, Global};

/// The largest number that may be followed by one more digit.
const TENTH: u128 = 17_014_118_346_046_923_173_168_730_371_588_410_572;

/// The text from a place on.
fn rest(text: &Bytes, at: usize) -> &[u8]
    requires { at ≤ length text.now }
    ensures is { result.now ≡ drop at text.now }
    ensures fits { at + length result.now < 2 ^ 64 }
{
    &text.as_slice()[at..]
}

fn word_len(text: &[u8]) -> usize
    ensures is { result ≡ prefix_len is_word_byte text.now }
    ensures within { result ≤ length text.now }
{
    text.iter().take_while(|byte| is_word_byte(**byte)).count()
}

fn digits_len(text: &[u8]) -> usize
    ensures { result ≡ prefix_len is_ascii_digit text.now }
{
    text.iter().take_while(|byte| byte.is_ascii_digit()).count()
}

fn line_len(text: &[u8]) -> usize
    ensures { result ≡ prefix_len is_no_newline text.now }
{
    text.iter().take_while(|byte| **byte != b'\n').count()
}

/// How many bytes in front are one part of a gap: 0 where none begins.
fn gap_len(text: &[u8]) -> usize
    ensures { result ≡ gap_len text.now }
{
    match text {
        [b' ' | b'\t', ..] => 1,
        [b'\\', b'\n', ..] => 2,
        [b'#', ..] => line_len(text),
        _ => 0,
    }
}

/// What a name is, by what stands directly behind it.
fn named(name: Bytes, behind: &[u8]) -> Kind
    ensures { result ≡ named name behind.now }
{
    match behind {
        [b'(', ..] => Kind::Called(name),
        _ => Kind::Name(name),
    }
}

fn word_lexeme(text: &Bytes, at: usize) -> Result<Lexeme, AllocError>
    requires { at ≤ length text.now }
    ensures { IfOk result (λ lexeme. let rest = drop at text.now in
        lexeme ≡ token_lexeme rest
        (found_word (take_while is_word_byte rest) (drop (prefix_len is_word_byte rest) rest))) }
{
    let rest = rest(text, at);
    let len = word_len(rest);
    if let Some(kind) = reserved_kind(&rest[..len]) {
        return Ok(Lexeme::Token(kind, len));
    }
    let name = text.cut(at, at + len)?;
    Ok(Lexeme::Token(named(name, &rest[len..]), len))
}

/// The number that digits spell, where it is at most 2^127 - 1.
fn number_value(digits: &[u8]) -> Option<i128>
    requires { list_all is_ascii_digit digits.now ≡ true }
    ensures { MatchOption result (2 ^ 127 ≤ digits_value 10 digits.now)
        (λ value. value ≡ pos (digits_value 10 digits.now)) }
{
    let mut value: u128 = 0;
    for digit in digits {
        if value > TENTH {
            return None;
        }
        value = value * 10 + u128::from(*digit - b'0');
    }
    i128::try_from(value).ok()
}

fn goes_on(text: &[u8]) -> bool
    ensures { result ≡ goes_on text.now }
{
    match text.first() {
        Some(byte) => is_name_start(*byte) || *byte == b'.',
        None => false,
    }
}

fn number_lexeme(text: &[u8]) -> Lexeme
    ensures { result ≡ token_lexeme text.now (found_number (take_while is_ascii_digit text.now)) }
{
    let len = digits_len(text);
    match number_value(&text[..len]) {
        Some(value) if !goes_on(&text[len..]) => Lexeme::Token(Kind::Number(value), len),
        _ => Lexeme::Fault(RefusalCode::NumberRefused),
    }
}

/// The string whose first quote stands at a place.
fn string_lexeme(alloc: Global, text: &Bytes, at: usize) -> Result<Lexeme, AllocError>
    requires { at < length text.now }
    ensures { IfOk result (λ lexeme. let rest = drop at text.now in
        lexeme ≡ token_lexeme rest (found_string (drop 1 rest) (body_len 34 false (drop 1 rest)))) }
{
    let Some(len) = body_len(&rest(text, at)[1..], b'"') else {
        return Ok(Lexeme::Fault(RefusalCode::OpenString));
    };
    let start = at + 1;
    match string_value(alloc, text.cut(start, start + len)?)? {
        Some(bytes) => Ok(Lexeme::Token(Kind::String(bytes), len + 2)),
        None => Ok(Lexeme::Fault(RefusalCode::EscapeRefused)),
    }
}

/// The ERE whose first slash stands at a place.
fn ere_lexeme(text: &Bytes, at: usize) -> Result<Lexeme, AllocError>
    requires { at < length text.now }
    ensures { IfOk result (λ lexeme. let rest = drop at text.now in
        lexeme ≡ token_lexeme rest (found_ere (drop 1 rest) (body_len 47 false (drop 1 rest)))) }
{
    let Some(len) = body_len(&rest(text, at)[1..], b'/') else {
        return Ok(Lexeme::Fault(RefusalCode::OpenPattern));
    };
    let start = at + 1;
    let body = text.cut(start, start + len)?;
    Ok(Lexeme::Token(Kind::Ere(body), len + 2))
}

/// What the slash at a place begins: a punctuator where it divides, and else an ERE.
fn slash_lexeme(text: &Bytes, at: usize, divides: bool) -> Result<Lexeme, AllocError>
    requires within { at < length text.now }
    requires slash { slice_index (drop at text.now) 0 ≡ 47 }
    ensures { IfOk result (λ lexeme.
        lexeme ≡ token_lexeme (drop at text.now) (slash_at divides (drop at text.now))) }
{
    if divides {
        Ok(division_lexeme(rest(text, at)))
    } else {
        ere_lexeme(text, at)
    }
}

/// The lexeme at a place in a text, which isn't its end. A slash there divides or else opens an ERE.
pub(crate) fn lexeme_at(
    alloc: Global,
    text: &Bytes,
    at: usize,
    divides: bool,
) -> Result<Lexeme, AllocError>
    requires { at < length text.now }
    ensures { IfOk result (λ lexeme. lexeme ≡ lexeme_of divides (drop at text.now)) }
{
    let rest = rest(text, at);
    let gap = gap_len(rest);
    if gap > 0 {
        return Ok(Lexeme::Gap(gap));
    }
    let first = rest[0];
    if is_name_start(first) {
        word_lexeme(text, at)
    } else if first.is_ascii_digit() {
        Ok(number_lexeme(rest))
    } else if first == b'"' {
        string_lexeme(alloc, text, at)
    } else if first == b'/' {
        slash_lexeme(text, at, divides)
    } else {
        Ok(punctuator_lexeme(rest))
    }
}
