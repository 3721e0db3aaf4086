// What is wrong in the text of an ERE.

use crate::finding::Place;

/// What is wrong in an ERE, and where in its text.
#[derive(Clone, Copy)]
pub(crate) struct EreFault {
    pub(crate) place: Place,
    pub(crate) advice: &'static [u8],
}

/// What an ERE's byte stands behind.
#[derive(Clone, Copy)]
enum Before {
    /// Nothing: the start, a bar or an open parenthesis.
    Nothing,
    /// An anchor, which can't be repeated.
    Anchor,
    /// Something that can.
    Atom,
}

/// What a byte in a bracket stands behind.
#[derive(Clone, Copy)]
enum Inside {
    /// Nothing that begins a range.
    Nothing,
    /// A byte, which may begin one.
    Mark,
    /// A byte and the minus of a range.
    Range,
    /// The start of a class, at this byte.
    Class(usize),
}

/// A bracket that is open.
#[derive(Clone, Copy)]
struct Bracket {
    start: usize,
    inside: Inside,
}

/// A scan of an ERE.
#[derive(Drop)]
struct EreScan {
    before: Before,
    open: usize,
    is_escaped: bool,
    /// The bracket that the byte is in.
    bracket: Option<Bracket>,
    /// Where the last open parenthesis stands.
    last_open: usize,
}

fn fault(start: usize, end: usize, advice: &'static [u8]) -> Option<EreFault> {
    Some(EreFault {
        place: Place { start, end },
        advice,
    })
}

/// Whether an octal escape whose first digit stands at a place is above 255.
fn is_high_octal(text: &[u8], at: usize) -> bool {
    matches!(
        text.get(at..),
        Some([b'4'..=b'7', b'0'..=b'7', b'0'..=b'7', ..])
    )
}

/// What to write instead of an escape that EREs don't have.
fn escape_fault(text: &[u8], at: usize, byte: u8) -> Option<EreFault> {
    let advice = match byte {
        _ if is_high_octal(text, at) => b"an octal escape is at most \\377".as_slice(),
        b's' => b"write [[:space:]]",
        b'S' => b"write [^[:space:]]",
        b'w' => b"write [[:alnum:]_]",
        b'W' => b"write [^[:alnum:]_]",
        b'd' => b"write [0-9]",
        b'D' => b"write [^0-9]",
        b'y' | b'B' | b'<' | b'>' => b"there is no edge of a word: write (^|[^[:alnum:]_])",
        b'x' => b"write the byte in octal, as \\101 for A",
        b'a' | b'b' | b'f' | b'n' | b'r' | b't' | b'v' => return None,
        b'8' | b'9' => b"there are no references to groups",
        b'0'..=b'7' => return None,
        _ if byte.is_ascii_alphabetic() => b"leave the backslash out",
        _ => return None,
    };
    fault(at.saturating_sub(1), at.saturating_add(1), advice)
}

/// What to write instead of an escape in a bracket.
fn bracket_escape_fault(text: &[u8], at: usize, byte: u8) -> Option<EreFault> {
    let advice = match byte {
        b's' => b"in a bracket write [:space:] for \\s".as_slice(),
        b'w' => b"in a bracket write [:alnum:]_ for \\w",
        b'd' => b"in a bracket write 0-9 for \\d",
        b'S' | b'W' | b'D' =>
            b"a bracket takes classes in, none out: write ([^[:space:]]|[x]) for [\\Sx]",
        _ => return escape_fault(text, at, byte),
    };
    fault(at.saturating_sub(1), at.saturating_add(1), advice)
}

const LONE_BRACE: &[u8] = b"a brace that is itself is \\{";

const LONE_PARENTHESIS: &[u8] = b"a parenthesis that is itself is \\) or [)]";

const EMPTY_BRANCH: &[u8] = b"no branch and no group is empty: write (x)? for (x|)";

const NOTHING_TO_REPEAT: &[u8] = b"there is nothing to repeat: a byte that is itself is \\* or [*]";

const LONE_MINUS: &[u8] = b"a minus that is itself stands first or last in a bracket";

const NO_COLLATION: &[u8] = b"no collating symbols and no classes [= =] here";

const CLASS_NAMES: &[u8] =
    b"the classes are alnum alpha blank cntrl digit graph lower print punct space upper xdigit";

/// Whether a byte is the first in a bracket, perhaps behind a circumflex.
fn is_first_in(text: &[u8], start: usize, at: usize) -> bool {
    let inside = at.saturating_sub(start);
    inside == 1 || (inside == 2 && text.get(at.saturating_sub(1)) == Some(&b'^'))
}

fn is_class(name: &[u8]) -> bool {
    matches!(
        name,
        b"alnum"
            | b"alpha"
            | b"blank"
            | b"cntrl"
            | b"digit"
            | b"graph"
            | b"lower"
            | b"print"
            | b"punct"
            | b"space"
            | b"upper"
            | b"xdigit"
    )
}

/// What is wrong with a class that begins at one byte and ends with another.
fn class_fault(text: &[u8], from: usize, at: usize) -> Option<EreFault> {
    let name = text
        .get(from.saturating_add(2)..at.saturating_sub(1))
        .unwrap_or(b"");
    if is_class(name) {
        return None;
    }
    fault(from, at.saturating_add(1), CLASS_NAMES)
}

/// What stands behind a byte, or the escape of one, that is itself.
fn behind_mark(inside: Inside) -> Inside {
    match inside {
        Inside::Range => Inside::Nothing,
        _ => Inside::Mark,
    }
}

/// Whether what stands behind an open brace makes an interval of it.
fn is_interval(behind: &[u8]) -> bool {
    let mut has_comma = false;
    for (at, byte) in behind.iter().enumerate() {
        match byte {
            b'0'..=b'9' => {}
            b',' if !has_comma && at > 0 => has_comma = true,
            b'}' => return at > 0,
            _ => return false,
        }
    }
    false
}

impl EreScan {
    /// Goes over a byte in the name of a class.
    fn class_step(
        &mut self,
        text: &[u8],
        at: usize,
        bracket: Bracket,
        from: usize,
    ) -> Option<EreFault> {
        let ends = at > from.saturating_add(2)
            && text.get(at) == Some(&b']')
            && text.get(at.saturating_sub(1)) == Some(&b':');
        if !ends {
            return None;
        }
        self.bracket = Some(Bracket {
            inside: Inside::Nothing,
            ..bracket
        });
        class_fault(text, from, at)
    }

    /// Goes over a byte in a bracket.
    fn bracket_step(
        &mut self,
        text: &[u8],
        at: usize,
        byte: u8,
        bracket: Bracket,
    ) -> Option<EreFault> {
        let next = text.get(at.saturating_add(1)).copied().unwrap_or(b' ');
        let is_first = is_first_in(text, bracket.start, at);
        if byte == b']' && !is_first {
            self.bracket = None;
            self.before = Before::Atom;
            return None;
        }
        let inside = match (bracket.inside, byte) {
            (inside, b'\\') => {
                self.is_escaped = true;
                inside
            }
            (_, b'[') if matches!(next, b'.' | b'=') => {
                return fault(at, at.saturating_add(2), NO_COLLATION);
            }
            (_, b'[') if next == b':' => Inside::Class(at),
            (inside, b'^') if at.saturating_sub(bracket.start) == 1 => inside,
            (Inside::Mark, b'-') if next != b']' => Inside::Range,
            (Inside::Nothing, b'-') if !is_first && next != b']' => {
                return fault(at, at.saturating_add(1), LONE_MINUS);
            }
            (inside, _) => behind_mark(inside),
        };
        self.bracket = Some(Bracket { inside, ..bracket });
        None
    }

    /// Goes over a bar or the end of a group or of the text.
    fn end_branch(&mut self, at: usize) -> Option<EreFault> {
        match self.before {
            Before::Nothing => fault(at, at.saturating_add(1), EMPTY_BRANCH),
            Before::Anchor | Before::Atom => None,
        }
    }

    /// Goes over what repeats.
    fn repeat(&mut self, at: usize, advice: &'static [u8]) -> Option<EreFault> {
        match self.before {
            Before::Nothing | Before::Anchor => fault(at, at.saturating_add(1), advice),
            Before::Atom => None,
        }
    }

    /// Goes over a byte that stands by itself.
    fn plain_step(&mut self, text: &[u8], at: usize, byte: u8) -> Option<EreFault> {
        let behind = text.get(at.saturating_add(1)..).unwrap_or(b"");
        match byte {
            b'\\' => self.is_escaped = true,
            b'[' => {
                self.bracket = Some(Bracket {
                    start: at,
                    inside: Inside::Nothing,
                });
            }
            b'(' => {
                self.open = self.open.saturating_add(1);
                self.last_open = at;
                self.before = Before::Nothing;
            }
            b')' if self.open == 0 => return fault(at, at.saturating_add(1), LONE_PARENTHESIS),
            b')' => {
                let empty = self.end_branch(at);
                self.open = self.open.saturating_sub(1);
                self.before = Before::Atom;
                return empty;
            }
            b'|' => {
                let empty = self.end_branch(at);
                self.before = Before::Nothing;
                return empty;
            }
            b'^' | b'$' => self.before = Before::Anchor,
            b'*' | b'+' | b'?' => return self.repeat(at, NOTHING_TO_REPEAT),
            b'{' if !is_interval(behind) => return fault(at, at.saturating_add(1), LONE_BRACE),
            b'{' => return self.repeat(at, LONE_BRACE),
            _ => self.before = Before::Atom,
        }
        None
    }

    fn step(&mut self, text: &[u8], at: usize, byte: u8) -> Option<EreFault> {
        if self.is_escaped {
            self.is_escaped = false;
            return self.escaped_step(text, at, byte);
        }
        match self.bracket {
            Some(bracket) => match bracket.inside {
                Inside::Class(from) => self.class_step(text, at, bracket, from),
                _ => self.bracket_step(text, at, byte, bracket),
            },
            None => self.plain_step(text, at, byte),
        }
    }

    /// Goes over a byte behind a backslash.
    fn escaped_step(&mut self, text: &[u8], at: usize, byte: u8) -> Option<EreFault> {
        match self.bracket {
            Some(bracket) => {
                let inside = behind_mark(bracket.inside);
                self.bracket = Some(Bracket { inside, ..bracket });
                bracket_escape_fault(text, at, byte)
            }
            None => {
                self.before = Before::Atom;
                escape_fault(text, at, byte)
            }
        }
    }

    /// What is wrong at the end of the text.
    fn end(&self, text: &[u8]) -> Option<EreFault> {
        let end = text.len();
        if let Some(bracket) = self.bracket {
            return fault(
                bracket.start,
                end,
                b"close the bracket with ], or write \\[",
            );
        }
        if self.is_escaped {
            return fault(
                end.saturating_sub(1),
                end,
                b"a backslash that is itself is \\\\",
            );
        }
        if self.open > 0 {
            let start = self.last_open;
            return fault(start, end, b"close the group with ), or write \\(");
        }
        match self.before {
            Before::Nothing if end > 0 => fault(end.saturating_sub(1), end, EMPTY_BRANCH),
            _ => None,
        }
    }
}

/// What is wrong in the text of an ERE that is no pattern, where it is found.
pub(crate) fn ere_fault(text: &[u8]) -> Option<EreFault> {
    let mut scan = EreScan {
        before: Before::Nothing,
        open: 0,
        is_escaped: false,
        bracket: None,
        last_open: 0,
    };
    for (at, byte) in text.iter().enumerate() {
        if let Some(found) = scan.step(text, at, *byte) {
            return Some(found);
        }
    }
    scan.end(text)
}
