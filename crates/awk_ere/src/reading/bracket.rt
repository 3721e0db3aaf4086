// Bracket expressions (XBD 9.3.5).

ghost use Rattle.std.specs.Prelude.{◌≡◌, ◌||◌, ◌<◌, ℕ, List, not, true, false, length, Some, slice_index_or};
ghost use Rattle.std.specs.Option.{option_map};
ghost use Rattle.awk_ere.specs.definitions.Tree.{byte_count, class_of};
ghost use Rattle.awk_ere.specs.definitions.Brackets.{BracketItem as ItemForm, any_has, begins_range};
ghost use Rattle.awk_ere.specs.definitions.Brackets.{is_barred, Bracket, bracket_has};
ghost use Rattle.awk_ere.specs.definitions.Tokens.{atom, bracket};
ghost use Rattle.awk_ere.specs.support.Lexer.{mark_at, name_at, items_at, bracket_token};
ghost use Rattle.awk_ere.specs.support.TokenValues.{seen_mark, descends, holds, range_seen, class_seen};
ghost use Rattle.awk_ere.specs.support.TokenValues.{mark_seen, item_seen, end_at, seen_items, seen_front};

use crate::class_name::{ClassName, name_at};
use crate::reading::escape::escape_at;
use crate::token::{BYTE_COUNT, Token};

/// An item of a bracket.
#[derive(Clone, Copy)]
enum BracketItem {
    Single(u8),
    Range(u8, u8),
    Class(ClassName),
}

impl BracketItem {
    /// Whether the byte is one of its bytes.
    fn has(self, byte: u8) -> bool
        ensures { result ≡ holds self byte }
    {
        match self {
            BracketItem::Single(single) => single == byte,
            BracketItem::Range(low, high) => low <= byte && byte <= high,
            BracketItem::Class(name) => name.has(byte),
        }
    }

    /// Whether it is a range that descends.
    fn descends(self) -> bool
        ensures { result ≡ descends self }
    {
        matches!(self, BracketItem::Range(low, high) if low > high)
    }

    /// Sets the flags of its bytes, and leaves the others.
    fn add_to(self, set: &mut [bool; BYTE_COUNT])
        ensures { (b : ℕ) → b < byte_count → slice_index_or set.new b false ≡ (slice_index_or set.old b false || holds self b) }
    {
        if let BracketItem::Single(byte) = self {
            set[usize::from(byte)] = true;
            return;
        }
        for byte in 0..=255 {
            if self.has(byte) {
                set[usize::from(byte)] = true;
            }
        }
    }
}

/// A byte in a bracket, plain or escaped.
fn mark_at(bytes: &[u8]) -> Option<(u8, &[u8])>
    ensures { option_map (λ r. (r.0, r.1.now)) result ≡ option_map seen_mark (mark_at bytes.now) }
{
    match bytes {
        [] => None,
        [b'\\', rest @ ..] => escape_at(rest),
        [b'[', b':' | b'.' | b'=', ..] => None,
        [byte, rest @ ..] => Some((*byte, rest)),
    }
}

/// Whether a range goes on here: a `-` that isn't the last of the bracket.
fn begins_range(rest: &[u8]) -> bool
    ensures { result ≡ begins_range rest.now }
{
    matches!(rest, [b'-', end, ..] if *end != b']')
}

/// What goes on from a byte: a range, or nothing more.
fn range_at(low: u8, rest: &[u8]) -> Option<(BracketItem, &[u8])>
    ensures { option_map (λ r. (r.0, r.1.now)) result ≡ range_seen low rest.now }
{
    match rest {
        [_, end @ ..] if begins_range(rest) => {
            let (high, rest) = mark_at(end)?;
            Some((BracketItem::Range(low, high), rest))
        }
        _ => Some((BracketItem::Single(low), rest)),
    }
}

/// A byte, or a range that it begins, and what follows.
fn single_or_range_at(bytes: &[u8]) -> Option<(BracketItem, &[u8])>
    ensures { option_map (λ r. (r.0, r.1.now)) result ≡ mark_seen (option_map seen_mark (mark_at bytes.now)) }
{
    let (byte, rest) = mark_at(bytes)?;
    range_at(byte, rest)
}

/// The class whose name stands behind a `[:`, and what follows.
fn class_at(bytes: &[u8]) -> Option<(BracketItem, &[u8])>
    ensures { option_map (λ r. (r.0, r.1.now)) result ≡ class_seen (name_at bytes.now) }
{
    let (name, rest) = name_at(bytes)?;
    Some((BracketItem::Class(name), rest))
}

/// Whether the byte closes the bracket, or is a `-` that is neither first nor last.
fn is_barred(first: bool, byte: u8, rest: &[u8]) -> bool
    ensures { result ≡ is_barred first byte rest.now }
{
    !first && (byte == b']' || byte == b'-' && !matches!(rest, [b']', ..]))
}

/// The item in front, which is the first or not, and what follows it.
fn item_at(first: bool, bytes: &[u8]) -> Option<(BracketItem, &[u8])>
    ensures { option_map (λ r. (r.0, r.1.now)) result ≡ item_seen first bytes.now }
{
    match bytes {
        [] => None,
        [b'[', b':', rest @ ..] => class_at(rest),
        [byte, rest @ ..] if is_barred(first, *byte, rest) => None,
        _ => single_or_range_at(bytes),
    }
}

/// What follows the `]` in front, where it closes the bracket.
fn end_at(first: bool, bytes: &[u8]) -> Option<&[u8]>
    ensures { option_map (λ rest. rest.now) result ≡ end_at first bytes.now }
{
    match bytes {
        [b']', rest @ ..] if !first => Some(rest),
        _ => None,
    }
}

/// The items of a bracket and the `]` behind them, and what follows. Their bytes are left in `set`.
fn items_at<'a>(bytes: &'a [u8], set: &mut [bool; BYTE_COUNT]) -> Option<(Token, &'a [u8])>
    requires { (b : ℕ) → b < byte_count → slice_index_or set.old b false ≡ false }
    ensures found { option_map (λ r. (r.0, r.1.now)) result
        ≡ option_map seen_items (items_at (length bytes.now) true bytes.now) }
    ensures set { (r : List ItemForm × List ℕ) → items_at (length bytes.now) true bytes.now ≡ Some r → (b : ℕ) →
        b < byte_count → slice_index_or set.new b false ≡ any_has r.0 b }
{
    let mut rest = bytes;
    let mut first = true;
    let mut descends = false;
    loop {
        if let Some(behind) = end_at(first, rest) {
            return Some((Token::Bracket(!descends), behind));
        }
        let (item, behind) = item_at(first, rest)?;
        item.add_to(set);
        descends |= item.descends();
        rest = behind;
        first = false;
    }
}

/// Turns each flag round.
fn flip(set: &mut [bool; BYTE_COUNT])
    ensures { (b : ℕ) → b < byte_count → slice_index_or set.new b false ≡ not (slice_index_or set.old b false) }
{
    for byte in 0..BYTE_COUNT {
        set[byte] = !set[byte];
    }
}

/// A bracket behind its `[`, and what follows it. Its class is left in `set`.
pub(crate) fn bracket_at<'a>(
    bytes: &'a [u8],
    set: &mut [bool; BYTE_COUNT],
) -> Option<(Token, &'a [u8])>
    ensures found { option_map (λ r. (r.0, r.1.now)) result ≡ option_map seen_front (bracket_token bytes.now) }
    ensures set { (k : Bracket) (rest : List ℕ) → bracket_token bytes.now ≡ Some (atom (bracket k), rest) →
        set.new ≡ class_of (bracket_has k) }
{
    *set = [false; BYTE_COUNT];
    if let Some(rest) = bytes.strip_prefix(b"^") {
        let found = items_at(rest, set);
        flip(set);
        found
    } else {
        items_at(bytes, set)
    }
}
