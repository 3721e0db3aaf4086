// The escapes of a pattern.

ghost use Rattle.std.specs.Prelude.{◌≡◌, ◌≤◌};
ghost use Rattle.std.specs.Option.{option_map};
ghost use Rattle.awk_ere.specs.definitions.Escapes.{octal};
ghost use Rattle.awk_ere.specs.support.Lexer.{escape_at, octal_at, octal_more};
ghost use Rattle.awk_ere.specs.support.TokenValues.{named_byte, seen_escape};

/// The value of three octal digits.
fn octal(a: u8, b: u8, c: u8) -> u16
    requires a_low { 48 ≤ a }
    requires a_high { a ≤ 55 }
    requires b_low { 48 ≤ b }
    requires b_high { b ≤ 55 }
    requires c_low { 48 ≤ c }
    requires c_high { c ≤ 55 }
    ensures { result ≡ octal a b c }
{
    64 * u16::from(a - b'0') + (8 * u16::from(b - b'0') + u16::from(c - b'0'))
}

/// An escape behind its second octal digit.
fn octal_more(a: u8, b: u8, bytes: &[u8]) -> Option<(u8, &[u8])>
    requires a_low { 48 ≤ a }
    requires a_high { a ≤ 55 }
    requires b_low { 48 ≤ b }
    requires b_high { b ≤ 55 }
    ensures { option_map (λ r. (r.0, r.1.now)) result ≡ option_map seen_escape (octal_more a b bytes.now) }
{
    match bytes {
        [c @ b'0'..=b'7', rest @ ..] => Some((u8::try_from(octal(a, b, *c)).ok()?, rest)),
        _ => Some((8 * (a - b'0') + (b - b'0'), bytes)),
    }
}

/// An escape behind its first octal digit.
fn octal_at(a: u8, bytes: &[u8]) -> Option<(u8, &[u8])>
    requires low { 48 ≤ a }
    requires high { a ≤ 55 }
    ensures { option_map (λ r. (r.0, r.1.now)) result ≡ option_map seen_escape (octal_at a bytes.now) }
{
    match bytes {
        [b @ b'0'..=b'7', rest @ ..] => octal_more(a, *b, rest),
        _ => Some((a - b'0', bytes)),
    }
}

/// The byte that a backslash and a byte that is no octal digit stand for.
fn named(byte: u8) -> Option<u8>
    ensures { result ≡ named_byte byte }
{
    match byte {
        b'a' => Some(7),
        b'b' => Some(8),
        b'f' => Some(12),
        b'n' => Some(b'\n'),
        b'r' => Some(b'\r'),
        b't' => Some(b'\t'),
        b'v' => Some(11),
        b'a'..=b'z' | b'A'..=b'Z' | b'0'..=b'9' => None,
        _ => Some(byte),
    }
}

/// The byte that an escape stands for, and what follows it: behind a backslash stand a letter that names a byte, one to
/// three octal digits, the most that stand there, or a byte that is no letter and no digit and stands for itself
/// (XBD 9.4 and awk, "Lexical Conventions"). `None` where anything else does.
pub(crate) fn escape_at(bytes: &[u8]) -> Option<(u8, &[u8])>
    ensures { option_map (λ r. (r.0, r.1.now)) result ≡ option_map seen_escape (escape_at bytes.now) }
{
    match bytes {
        [] => None,
        [digit @ b'0'..=b'7', rest @ ..] => octal_at(*digit, rest),
        [byte, rest @ ..] => Some((named(*byte)?, rest)),
    }
}
