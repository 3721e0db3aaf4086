// What a directive of a format asks for.

/// How a number is written. (POSIX File Format Notation.)
#[derive(Clone, Copy)]
pub(crate) enum Notation {
    /// `d` and `i`.
    Decimal,
    /// `u`.
    Unsigned,
    /// `o`.
    Octal,
    /// `x`.
    LowerHexadecimal,
    /// `X`.
    UpperHexadecimal,
}

/// What is written of a value. (POSIX File Format Notation: the conversion specifier.)
#[derive(Clone, Copy)]
pub(crate) enum Conversion {
    Integer(Notation),
    /// `c`.
    Character,
    /// `s`.
    Text,
}

/// The flags of a directive. (POSIX File Format Notation.)
#[derive(Clone, Copy)]
pub(crate) struct Flags {
    /// `-`: the text stands at the left of its width.
    pub minus: bool,
    /// `+`: a plus before a number that isn't negative.
    pub plus: bool,
    /// A space: a space before a number that isn't negative.
    pub space: bool,
    /// `#`: the form that tells the base.
    pub sharp: bool,
    /// `0`: zeros fill the width.
    pub zero: bool,
}

/// A directive. (POSIX File Format Notation: a conversion specification.)
#[derive(Clone, Copy)]
pub(crate) struct Directive {
    pub flags: Flags,
    /// The least number of bytes; 0 where none is given.
    pub width: u16,
    /// The least number of digits, or the greatest number of bytes of a text.
    pub precision: Option<u16>,
    pub conversion: Conversion,
}
