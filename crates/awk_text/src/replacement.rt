// The text that stands in the place of a match.
ghost use Rattle.std.specs.Prelude.{◌≡◌, ◌+◌, ◌<◌, ◌++◌, ℕ, List, true, length, drop, OnOk, IfErr};
ghost use Rattle.awk_text.specs.definitions.Replacement.{bytes_for, replacement_for};
ghost use Rattle.awk_text.specs.support.Escapes.{escapes, IsPlain, IsOfShape};

use crate::TextFault;
use memchr::memchr2;

/// What a replacement is made of.
#[derive(Clone, Copy)]
pub(crate) enum Shape {
    /// It stands for itself, whatever was matched.
    Plain,
    /// The matched text stands for the byte at this place, and each other byte for itself.
    Around(usize),
    /// It has escapes, or the matched text stands in more places than one.
    Written,
}

// Whether the replacement stands for itself, whatever was matched.
fn is_plain(replacement: &[u8]) -> bool
    ensures { result ≡ true → IsPlain replacement.now }
{
    memchr2(b'&', b'\\', replacement).is_none()
}

// What the replacement is made of.
pub(crate) fn shape_of(replacement: &[u8]) -> Shape
    ensures { IsOfShape replacement.now result }
{
    let Some(place) = memchr2(b'&', b'\\', replacement) else {
        return Shape::Plain;
    };
    if replacement[place] == b'&' && is_plain(&replacement[place + 1..]) {
        Shape::Around(place)
    } else {
        Shape::Written
    }
}

// Whether a backslash before an ampersand or a backslash stands at `i`.
fn is_escaped(replacement: &[u8], i: usize) -> bool
    requires { i < length replacement.now }
    ensures value { result ≡ escapes (drop i replacement.now) }
    ensures within { result ≡ true → i + 1 < length replacement.now }
{
    if i + 1 < replacement.len() {
        replacement[i] == b'\\' && (replacement[i + 1] == b'&' || replacement[i + 1] == b'\\')
    } else {
        false
    }
}

// So many bytes are added one by one.
const FEW: usize = 8;

// Adds a piece of text. Most are short.
#[inline(always)]
pub(crate) fn add_piece(out: &mut Vec<u8>, piece: &[u8]) -> Result<(), TextFault>
    ensures added { OnOk result (out.new.items ≡ out.old.items ++ piece.now) }
    ensures memory { IfErr result (λ e. e ≡ TextFault.Memory) }
{
    if piece.len() > FEW {
        out.extend_from_slice(piece)?;
        return Ok(());
    }
    for i in 0..piece.len() {
        out.push(piece[i])?;
    }
    Ok(())
}

// Adds what a byte stands for that isn't escaped.
fn add_byte(out: &mut Vec<u8>, byte: u8, matched: &[u8]) -> Result<(), TextFault>
    ensures added { OnOk result (out.new.items ≡ out.old.items ++ bytes_for byte matched.now) }
    ensures memory { IfErr result (λ e. e ≡ TextFault.Memory) }
{
    if byte == b'&' {
        return add_piece(out, matched);
    }
    out.push(byte)?;
    Ok(())
}

// Adds the replacement of a matched text.
pub(crate) fn add_replacement(
    out: &mut Vec<u8>,
    replacement: &[u8],
    matched: &[u8],
) -> Result<(), TextFault>
    ensures added { OnOk result (out.new.items ≡ out.old.items ++ replacement_for replacement.now matched.now) }
    ensures memory { IfErr result (λ e. e ≡ TextFault.Memory) }
{
    let mut i = 0;
    while i < replacement.len() {
        if is_escaped(replacement, i) {
            out.push(replacement[i + 1])?;
            i += 2;
            continue;
        }
        add_byte(out, replacement[i], matched)?;
        i += 1;
    }
    Ok(())
}
