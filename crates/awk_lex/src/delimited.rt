// What stands between two delimiters: the quotes of a string, or the slashes of an ERE.

ghost use Rattle.std.specs.Prelude.{◌≡◌, false, ◌+◌, ◌≤◌, length, IfOk, IfSome};
ghost use Rattle.awk_lex.specs.definitions.Escapes.{unescaped};
ghost use Rattle.awk_lex.specs.support.Lexeme.{body_len};

use crate::escapes::{EscapeFault, unescape};
use awk_value::Bytes;
use std::alloc::{AllocError, Global};

/// How many bytes stand before the next delimiter that no backslash escapes, where one stands on the same line.
pub(crate) fn body_len(text: &[u8], delimiter: u8) -> Option<usize>
    ensures is { result ≡ body_len delimiter false text.now }
    ensures within { IfSome result (λ len. len + 1 ≤ length text.now) }
{
    let mut behind_backslash = false;
    for (len, byte) in text.iter().enumerate() {
        if *byte == b'\n' {
            return None;
        }
        if *byte == delimiter && !behind_backslash {
            return Some(len);
        }
        behind_backslash = *byte == b'\\' && !behind_backslash;
    }
    None
}

/// The bytes that the text between two quotes stands for, where its escapes are all of the table.
pub(crate) fn string_value(alloc: Global, body: Bytes) -> Result<Option<Bytes>, AllocError>
    ensures { IfOk result (λ value. value ≡ unescaped body) }
{
    if !body.as_slice().contains(&b'\\') {
        return Ok(Some(body));
    }
    let mut bytes = Vec::new(alloc);
    match unescape(body.as_slice(), &mut bytes) {
        Ok(()) => Ok(Some(Bytes::from_vec(alloc, bytes)?)),
        Err(EscapeFault::BadEscape) => Ok(None),
        Err(EscapeFault::Memory) => Err(AllocError),
    }
}
