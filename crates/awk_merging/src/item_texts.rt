// Where the BEGIN and END items of a program stand in its text, with their comments.

use awk_lex::token::{Keyword, Kind, Token};
use std::alloc::{AllocError, Global};

/// What an item begins with.
#[derive(Clone, Copy)]
pub(crate) enum Head {
    Begin,
    End,
}

/// A BEGIN or END item in a program's text.
#[derive(Clone, Copy)]
pub(crate) struct ItemText {
    pub(crate) head: Head,
    /// Where it begins: with the comment lines directly above, if it begins its line.
    pub(crate) start: usize,
    /// Behind its brace, or behind a comment that follows on the line.
    pub(crate) end: usize,
    /// Where the text goes on that is left without the item.
    pub(crate) rest: usize,
}

/// A scan of the tokens for such items.
#[derive(Clone, Copy)]
struct ItemScan {
    /// How many braces are open.
    braces: usize,
    /// The item that is open, and where its text begins.
    open: Option<(Head, usize)>,
    /// The end of the last token that is no newline.
    behind: usize,
}

fn is_blank(byte: u8) -> bool {
    byte == b' ' || byte == b'\t'
}

/// The text from a place on.
fn rest(text: &[u8], at: usize) -> &[u8] {
    text.get(at..).unwrap_or(b"")
}

/// Where the blanks end that begin at a place.
pub(crate) fn behind_blanks(text: &[u8], at: usize) -> usize {
    let blanks = rest(text, at).iter().take_while(|byte| is_blank(**byte));
    at.saturating_add(blanks.count())
}

/// Where the blanks and semicolons end that begin at a place.
fn behind_semicolons(text: &[u8], at: usize) -> usize {
    let gap = rest(text, at)
        .iter()
        .take_while(|byte| is_blank(**byte) || **byte == b';');
    at.saturating_add(gap.count())
}

/// Where the line ends that a place stands in: before its newline.
fn line_end(text: &[u8], at: usize) -> usize {
    let line = rest(text, at).iter().take_while(|byte| **byte != b'\n');
    at.saturating_add(line.count())
}

/// Where the blanks begin that end at a place, of those behind another place.
fn before_blanks(text: &[u8], from: usize, at: usize) -> usize {
    let gap = text.get(from..at).unwrap_or(b"");
    match gap.iter().rposition(|byte| !is_blank(*byte)) {
        Some(last) => from.saturating_add(last).saturating_add(1),
        None => from,
    }
}

/// Whether the byte at a place is the first of its line.
fn begins_line(text: &[u8], at: usize) -> bool {
    match at.checked_sub(1) {
        Some(before) => matches!(text.get(before), Some(b'\n')),
        None => true,
    }
}

/// Where an item's text begins: with the comment lines directly above it where it begins its line, and
/// else behind the token before it.
fn item_start(text: &[u8], behind: usize, at: usize) -> usize {
    let mut start = if behind == 0 { Some(0) } else { None };
    let mut is_comment = false;
    for (count, byte) in text.get(behind..at).unwrap_or(b"").iter().enumerate() {
        match byte {
            b'\n' => {
                if !is_comment || start.is_none() {
                    start = Some(behind.saturating_add(count).saturating_add(1));
                }
                is_comment = false;
            }
            b'#' => is_comment = true,
            _ => {}
        }
    }
    match start {
        Some(start) => start,
        None => before_blanks(text, behind, at),
    }
}

/// Where an item's text ends whose brace stands before a place: behind a comment that follows on the line.
fn item_end(text: &[u8], at: usize) -> usize {
    let next = behind_blanks(text, at);
    match text.get(next) {
        Some(b'#') => line_end(text, next),
        _ => at,
    }
}

/// Where the text goes on without an item whose brace stands before a place: behind the semicolons that
/// end it, behind its comment, and behind the newline of its last line, if the item began a line.
fn item_rest(text: &[u8], start: usize, at: usize) -> usize {
    let end = item_end(text, behind_semicolons(text, at));
    let ends_line = matches!(text.get(end), Some(b'\n'));
    match begins_line(text, start) {
        true if ends_line => end.saturating_add(1),
        false if !ends_line => before_blanks(text, at, end),
        _ => end,
    }
}

impl ItemScan {
    /// Goes over a token; an item that ends with it is given.
    fn step(&mut self, text: &[u8], token: &Token) -> Option<ItemText> {
        match token.kind {
            Kind::Newline => return None,
            Kind::Keyword(Keyword::Begin) => {
                self.open = Some((Head::Begin, item_start(text, self.behind, token.start)));
            }
            Kind::Keyword(Keyword::End) => {
                self.open = Some((Head::End, item_start(text, self.behind, token.start)));
            }
            Kind::OpenBrace => self.braces = self.braces.saturating_add(1),
            Kind::CloseBrace => self.braces = self.braces.saturating_sub(1),
            _ => {}
        }
        self.behind = token.end;
        match (&token.kind, self.open) {
            (Kind::CloseBrace, Some((head, start))) if self.braces == 0 => {
                self.open = None;
                Some(ItemText {
                    head,
                    start,
                    end: item_end(text, token.end),
                    rest: item_rest(text, start, token.end),
                })
            }
            _ => None,
        }
    }
}

/// The BEGIN and END items of a program, in the order of its text.
pub(crate) fn item_texts(
    alloc: Global,
    text: &[u8],
    tokens: &[Token],
) -> Result<Vec<ItemText>, AllocError> {
    let mut found = Vec::new(alloc);
    let mut scan = ItemScan {
        braces: 0,
        open: None,
        behind: 0,
    };
    for token in tokens {
        if let Some(item) = scan.step(text, token) {
            found.push(item)?;
        }
    }
    Ok(found)
}
