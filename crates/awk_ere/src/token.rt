// The tokens of a pattern.

/// How many bytes there are. A class of bytes has a flag for each.
pub const BYTE_COUNT: usize = 256;

/// The greatest count of a repeat, `RE_DUP_MAX` in XBD 9.4.6.
pub const GREATEST_COUNT: u16 = 255;

/// A repeat. A count above the greatest stands as one more than that.
#[derive(Clone, Copy)]
pub enum Repeat {
    Star,
    Plus,
    Option,
    Exactly(u16),
    AtLeast(u16),
    Between(u16, u16),
}

/// A token of a pattern.
#[derive(Clone, Copy)]
pub enum Token {
    /// This byte, plain or by an escape.
    Byte(u8),
    /// `.`
    Any,
    /// A bracket, and whether none of its ranges descends.
    Bracket(bool),
    Start,
    End,
    Open,
    Close,
    Bar,
    Again(Repeat),
}
