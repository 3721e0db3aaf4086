// The classes of bytes that have a name (XBD 9.3.5).

ghost use Rattle.std.specs.Prelude.{◌≡◌};
ghost use Rattle.std.specs.Option.{option_map};
ghost use Rattle.awk_ere.specs.definitions.Brackets.{name_bytes, named_class};
ghost use Rattle.awk_ere.specs.support.Lexer.{name_at};

/// A class of bytes that has a name. None holds a byte above 127.
#[derive(Clone, Copy)]
pub enum ClassName {
    Alnum,
    Alpha,
    Blank,
    Cntrl,
    Digit,
    Graph,
    Lower,
    Print,
    Punct,
    Space,
    Upper,
    Xdigit,
}

static NAMES: [ClassName; 12] = [
    ClassName::Alnum,
    ClassName::Alpha,
    ClassName::Blank,
    ClassName::Cntrl,
    ClassName::Digit,
    ClassName::Graph,
    ClassName::Lower,
    ClassName::Print,
    ClassName::Punct,
    ClassName::Space,
    ClassName::Upper,
    ClassName::Xdigit,
];

impl ClassName {
    /// The name as it is written, with the `:]` behind it.
    fn text(self) -> &'static [u8]
        ensures { result.now ≡ name_bytes self }
    {
        match self {
            ClassName::Alnum => b"alnum:]",
            ClassName::Alpha => b"alpha:]",
            ClassName::Blank => b"blank:]",
            ClassName::Cntrl => b"cntrl:]",
            ClassName::Digit => b"digit:]",
            ClassName::Graph => b"graph:]",
            ClassName::Lower => b"lower:]",
            ClassName::Print => b"print:]",
            ClassName::Punct => b"punct:]",
            ClassName::Space => b"space:]",
            ClassName::Upper => b"upper:]",
            ClassName::Xdigit => b"xdigit:]",
        }
    }

    /// Whether the byte is in the class.
    pub fn has(self, byte: u8) -> bool
        ensures { result ≡ named_class self byte }
    {
        match self {
            ClassName::Alnum => byte.is_ascii_alphanumeric(),
            ClassName::Alpha => byte.is_ascii_alphabetic(),
            ClassName::Blank => matches!(byte, b' ' | b'\t'),
            ClassName::Cntrl => byte.is_ascii_control(),
            ClassName::Digit => byte.is_ascii_digit(),
            ClassName::Graph => byte.is_ascii_graphic(),
            ClassName::Lower => byte.is_ascii_lowercase(),
            ClassName::Print => matches!(byte, b' '..=b'~'),
            ClassName::Punct => byte.is_ascii_punctuation(),
            ClassName::Space => matches!(byte, b'\t'..=b'\r' | b' '),
            ClassName::Upper => byte.is_ascii_uppercase(),
            ClassName::Xdigit => byte.is_ascii_hexdigit(),
        }
    }
}

/// The class whose name stands in front, and what follows the `:]` behind it.
pub fn name_at(bytes: &[u8]) -> Option<(ClassName, &[u8])>
    ensures { option_map (λ r. (r.0, r.1.now)) result ≡ name_at bytes.now }
{
    for name in &NAMES {
        if let Some(rest) = bytes.strip_prefix(name.text()) {
            return Some((*name, rest));
        }
    }
    None
}
