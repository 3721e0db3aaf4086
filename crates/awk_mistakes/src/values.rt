// Formats, and the values that they are given.

use crate::mistakes::Mistakes;
use crate::statements::closing;
use awk_findings::calls::{Stretch, arguments, is_target_sign, kind_behind, string_of};
use awk_findings::format_fault;
use awk_lex::token::{Kind, Token};
use std::alloc::AllocError;

/// A list of values, the first of which is a format.
#[derive(Clone, Copy)]
struct Printed {
    format: Stretch,
    /// How many values stand behind the format.
    values: usize,
}

/// How many values the directives of a format take, each of which is one.
fn values_of(format: &[u8]) -> usize {
    let mut count = 0usize;
    let mut is_percent = false;
    for byte in format {
        if is_percent && *byte != b'%' {
            count = count.saturating_add(1);
        }
        is_percent = *byte == b'%' && !is_percent;
    }
    count
}

/// How many brackets are open behind a token.
fn depth_behind(kind: &Kind, depth: usize) -> usize {
    match kind {
        Kind::OpenParenthesis | Kind::OpenBracket => depth.saturating_add(1),
        Kind::CloseParenthesis | Kind::CloseBracket => depth.saturating_sub(1),
        _ => depth,
    }
}

/// A list, from its first token up to where it ends or its target begins.
fn listed(tokens: &[Token], list: Stretch) -> Printed {
    let mut format = list;
    let mut values = 0usize;
    let mut depth = 0usize;
    for at in list.from..list.to {
        let Some(kind) = kind_behind(tokens, at, 0) else {
            continue;
        };
        depth = depth_behind(kind, depth);
        let ends = is_target_sign(tokens, at);
        if depth == 0 && (ends || matches!(kind, Kind::Comma)) {
            if values == 0 {
                format.to = at;
            }
            if ends {
                break;
            }
            values = values.saturating_add(1);
        }
    }
    Printed { format, values }
}

/// What a statement that begins with `printf` prints.
fn printed_by(tokens: &[Token], statement: Stretch) -> Printed {
    let first = statement.from.saturating_add(1);
    let whole = Stretch {
        from: first,
        to: statement.to,
    };
    if !matches!(kind_behind(tokens, first, 0), Some(Kind::OpenParenthesis)) {
        return listed(tokens, whole);
    }
    let Some(close) = closing(tokens, first) else {
        return listed(tokens, whole);
    };
    let behind = close.saturating_add(1);
    if behind < statement.to && !is_target_sign(tokens, behind) {
        return listed(tokens, whole);
    }
    listed(
        tokens,
        Stretch {
            from: first.saturating_add(1),
            to: close,
        },
    )
}

impl<'a> Mistakes<'a> {
    /// A constant format that is given another number of values than it takes.
    fn add_values(&mut self, printed: Printed) -> Result<(), AllocError> {
        let Some(format) = string_of(self.tokens, printed.format) else {
            return Ok(());
        };
        let given = printed.values;
        let taken = values_of(format);
        if given == taken || format_fault(format).is_some() {
            return Ok(());
        }
        let noun = if taken == 1 { "value" } else { "values" };
        let message = format!(in self.alloc;
            "the format takes {taken} {noun}, and is given {given}"
        )?;
        let advice = if given < taken {
            b"one that is missing is empty, and 0 as a number".as_slice()
        } else {
            b"those behind are left out: there is one turn of the format"
        };
        let Stretch { from, to } = printed.format;
        self.add_stretch(from, to, message.as_bytes(), advice)
    }

    /// A `printf`.
    pub(crate) fn add_printf(&mut self, statement: Stretch) -> Result<(), AllocError> {
        let printed = printed_by(self.tokens, statement);
        let from = printed.format.from;
        let is_field = matches!(kind_behind(self.tokens, from, 0), Some(Kind::Dollar));
        if is_field && printed.values == 0 {
            return self.add_stretch(
                from,
                printed.format.to,
                b"what is read is the format: a % in it is a directive, or fault 7",
                b"print it as a value: printf \"%s\", $0",
            );
        }
        self.add_values(printed)
    }

    /// A call of `sprintf`.
    pub(crate) fn add_sprintf(&mut self, at: usize) -> Result<(), AllocError> {
        let all = arguments(self.alloc, self.tokens, at)?;
        match all.first() {
            Some(format) => self.add_values(Printed {
                format: *format,
                values: all.len().saturating_sub(1),
            }),
            None => Ok(()),
        }
    }
}
