// What a program that is accepted may not mean, call by call.

use crate::calls::{
    arguments, constant_of, ends_printed, ends_value, finding_at, kind_before, kind_behind,
    only_token, place_in_string, place_of_stretch, stands_alone, string_of, text_of,
};
use crate::finding::{Finding, joined, shown};
use crate::formats::format_fault;
use crate::patterns::ere_fault;
use crate::syntax::REMARKS;
use awk_ere::{Pattern, PatternFault};
use awk_lex::token::{AssignmentOperator, BuiltIn, Keyword, Kind, Operator, Token};
use std::alloc::{AllocError, Global};

/// What is told of a program that is accepted.
#[derive(Drop)]
pub(crate) struct Warnings<'a> {
    pub(crate) alloc: Global,
    pub(crate) text: &'a [u8],
    pub(crate) tokens: &'a [Token],
    pub(crate) found: Vec<Finding>,
}

impl<'a> Warnings<'a> {
    pub(crate) fn add(
        &mut self,
        token: &Token,
        message: &[&[u8]],
        advice: &[u8],
    ) -> Result<(), AllocError> {
        let finding = finding_at(self.alloc, token, message, advice)?;
        self.found.push(finding)?;
        Ok(())
    }

    /// A text that is read as a pattern when it is met.
    fn add_dynamic(&mut self, token: &Token) -> Result<(), AllocError> {
        let Kind::String(bytes) = &token.kind else {
            return Ok(());
        };
        let fault = match Pattern::read(self.alloc, bytes.as_slice()) {
            Ok(_) => return self.add_lost_backslash(token),
            Err(PatternFault::Memory) => return Err(AllocError),
            Err(fault) => fault,
        };
        let advice = match (fault, ere_fault(bytes.as_slice())) {
            (PatternFault::IllFormed, Some(found)) if found.advice.contains(&b'\\') => {
                joined(
                    self.alloc,
                    &[found.advice, b"; in a string each backslash stands twice"],
                )?
            }
            (PatternFault::IllFormed, Some(found)) => found.advice.to_vec(self.alloc)?,
            _ => b"write it as /re/, to have it looked at before the run".to_vec(self.alloc)?,
        };
        let shown = shown(text_of(self.text, token));
        let message = [b"no pattern, fault 6 when it is met: ".as_slice(), shown];
        self.add(token, &message, &advice)
    }

    /// A backslash that a string takes before a pattern sees it.
    fn add_lost_backslash(&mut self, token: &Token) -> Result<(), AllocError> {
        let source = text_of(self.text, token);
        let mut is_escaped = false;
        for byte in source {
            if is_escaped && *byte == b'b' {
                let message = [
                    b"\\b in a string is a backspace: ".as_slice(),
                    shown(source),
                ];
                return self.add(token, &message, b"there is no edge of a word in patterns");
            }
            is_escaped = *byte == b'\\' && !is_escaped;
        }
        Ok(())
    }

    /// `\<` and `\>` in an ERE.
    fn add_edge(&mut self, token: &Token) -> Result<(), AllocError> {
        let source = text_of(self.text, token);
        let mut is_escaped = false;
        for byte in source {
            if is_escaped && (*byte == b'<' || *byte == b'>') {
                return self.add(
                    token,
                    &[b"\\< and \\> are the bytes < and >: in gawk they are the edges of a word"],
                    b"write (^|[^[:alnum:]_]) and ([^[:alnum:]_]|$)",
                );
            }
            is_escaped = *byte == b'\\' && !is_escaped;
        }
        Ok(())
    }

    /// An empty ERE before a word.
    fn add_remark(&mut self, at: usize, token: &Token) -> Result<(), AllocError> {
        match kind_behind(self.tokens, at, 1) {
            Some(Kind::Name(_) | Kind::Called(_)) => {
                self.add(token, &[b"an empty pattern, joined to a word"], REMARKS)
            }
            _ => Ok(()),
        }
    }

    /// `substr` from a constant below 1.
    fn add_substr(&mut self, at: usize) -> Result<(), AllocError> {
        let arguments = arguments(self.alloc, self.tokens, at)?;
        let (Some(start), Some(_)) = (arguments.get(1), arguments.get(2)) else {
            return Ok(());
        };
        let Some(value) = constant_of(self.tokens, *start) else {
            return Ok(());
        };
        if value >= 1 {
            return Ok(());
        }
        let finding = Finding::new(
            self.alloc,
            place_of_stretch(self.tokens, *start),
            &[
                b"substr from a position before 1: positions before 1 use up the count, in other awks they don't",
            ],
            b"count from 1: substr(s, 1, n)",
        )?;
        self.found.push(finding)?;
        Ok(())
    }

    /// `index(s, "")`.
    fn add_index(&mut self, at: usize) -> Result<(), AllocError> {
        let arguments = arguments(self.alloc, self.tokens, at)?;
        let Some(stretch) = arguments.get(1) else {
            return Ok(());
        };
        match (
            string_of(self.tokens, *stretch),
            self.tokens.get(stretch.from),
        ) {
            (Some([]), Some(token)) => self.add(
                token,
                &[b"index of an empty text is 0: in most other awks it is 1"],
                b"test the text before",
            ),
            _ => Ok(()),
        }
    }

    /// A separator of `split`.
    fn add_split(&mut self, at: usize) -> Result<(), AllocError> {
        let arguments = arguments(self.alloc, self.tokens, at)?;
        let Some(stretch) = arguments.get(2) else {
            return Ok(());
        };
        let Some(token) = only_token(self.tokens, *stretch) else {
            return Ok(());
        };
        match &token.kind {
            Kind::Ere(ere) if ere.as_slice().is_empty() => self.add(
                token,
                &[b"split by // gives one piece: in most other awks a piece for each byte"],
                b"split(s, a, \"\") gives a piece for each byte",
            ),
            Kind::String(bytes) if bytes.as_slice().len() > 1 => self.add_dynamic(token),
            _ => Ok(()),
        }
    }

    /// The pattern and the replacement of `sub` and `gsub`.
    fn add_substitution(&mut self, at: usize) -> Result<(), AllocError> {
        let arguments = arguments(self.alloc, self.tokens, at)?;
        if let Some(token) = arguments
            .first()
            .and_then(|it| only_token(self.tokens, *it))
        {
            self.add_dynamic(token)?;
        }
        let Some(stretch) = arguments.get(1) else {
            return Ok(());
        };
        let Some(bytes) = string_of(self.tokens, *stretch) else {
            return Ok(());
        };
        match (bytes, self.tokens.get(stretch.from)) {
            (b"\\\\", Some(token)) => self.add(
                token,
                &[b"two backslashes in a replacement are one: in some other awks they are two"],
                b"for two backslashes write \"\\\\\\\\\\\\\\\\\", eight in the program",
            ),
            _ => Ok(()),
        }
    }

    /// The pattern of `match`.
    fn add_match(&mut self, at: usize) -> Result<(), AllocError> {
        let arguments = arguments(self.alloc, self.tokens, at)?;
        match arguments.get(1).and_then(|it| only_token(self.tokens, *it)) {
            Some(token) => self.add_dynamic(token),
            None => Ok(()),
        }
    }

    /// A string that is a format.
    fn add_format(&mut self, at: usize) -> Result<(), AllocError> {
        let Some(token) = self.tokens.get(at) else {
            return Ok(());
        };
        let Kind::String(bytes) = &token.kind else {
            return Ok(());
        };
        let Some(fault) = format_fault(bytes.as_slice()) else {
            return Ok(());
        };
        let directive = bytes.as_slice().get(fault.start..fault.end).unwrap_or(b"");
        let message = [
            b"no directive, fault 7 when it is met: ".as_slice(),
            shown(directive),
        ];
        let place = place_in_string(self.text, token, fault.start, fault.end);
        let finding = Finding::new(self.alloc, Some(place), &message, fault.advice)?;
        self.found.push(finding)?;
        Ok(())
    }

    /// The format of `printf`, perhaps behind a parenthesis.
    fn add_printf(&mut self, at: usize) -> Result<(), AllocError> {
        let first = at.saturating_add(1);
        let second = first.saturating_add(1);
        let (format, last) = match (
            kind_behind(self.tokens, first, 0),
            kind_behind(self.tokens, first, 2),
        ) {
            (Some(Kind::OpenParenthesis), Some(Kind::CloseParenthesis)) => {
                (second, second.saturating_add(1))
            }
            (Some(Kind::OpenParenthesis), Some(Kind::Comma)) => (second, second),
            (Some(Kind::OpenParenthesis), _) => return Ok(()),
            _ => (first, first),
        };
        if ends_printed(self.tokens, last) {
            self.add_format(format)
        } else {
            Ok(())
        }
    }

    /// The format of `sprintf`.
    fn add_sprintf(&mut self, at: usize) -> Result<(), AllocError> {
        let format = at.saturating_add(2);
        if ends_value(self.tokens, format) {
            self.add_format(format)
        } else {
            Ok(())
        }
    }

    /// What a call of a built-in function may not mean.
    fn add_built_in(&mut self, at: usize, function: BuiltIn) -> Result<(), AllocError> {
        match function {
            BuiltIn::Substr => self.add_substr(at),
            BuiltIn::Index => self.add_index(at),
            BuiltIn::Split => self.add_split(at),
            BuiltIn::Sub | BuiltIn::Gsub => self.add_substitution(at),
            BuiltIn::Match => self.add_match(at),
            BuiltIn::Sprintf => self.add_sprintf(at),
            _ => Ok(()),
        }
    }

    /// A string behind `getline <` or `getline place <`.
    fn add_input(&mut self, at: usize) -> Result<(), AllocError> {
        let is_getline = |count| {
            matches!(
                kind_before(self.tokens, at, count),
                Some(Kind::Keyword(Keyword::Getline))
            )
        };
        if !is_getline(1) && !is_getline(2) && !is_getline(3) {
            return Ok(());
        }
        match self.tokens.get(at.saturating_add(1)) {
            Some(token) => match &token.kind {
                Kind::String(bytes) if bytes.as_slice() == b"-".as_slice() => self.add(
                    token,
                    &[b"getline < \"-\" reads a file -: in other awks standard input"],
                    b"write getline < \"/dev/stdin\"",
                ),
                _ => Ok(()),
            },
            None => Ok(()),
        }
    }

    /// A string that is assigned to RS or FS.
    fn add_separator(&mut self, at: usize) -> Result<(), AllocError> {
        let Some(Kind::Name(name)) = kind_before(self.tokens, at, 1) else {
            return Ok(());
        };
        let behind = at.saturating_add(1);
        if !ends_value(self.tokens, behind) {
            return Ok(());
        }
        let Some(token) = self.tokens.get(behind) else {
            return Ok(());
        };
        let Kind::String(bytes) = &token.kind else {
            return Ok(());
        };
        match (name.as_slice(), bytes.as_slice()) {
            (b"RS", [_, _, ..]) if bytes.as_slice().iter().any(|byte| is_ere_byte(*byte)) =>
                self.add(
                    token,
                    &[b"RS stands for its bytes: in other awks it is a pattern"],
                    b"one byte, or an empty RS for paragraphs, and sub for the rest",
                ),
            (b"FS", [_, _, ..]) => self.add_dynamic(token),
            _ => Ok(()),
        }
    }

    /// What a token may not mean.
    pub(crate) fn add_token(&mut self, at: usize, token: &Token) -> Result<(), AllocError> {
        match &token.kind {
            Kind::BuiltIn(function) => self.add_built_in(at, *function),
            Kind::Keyword(Keyword::Printf) => self.add_printf(at),
            Kind::Operator(Operator::Less) => self.add_input(at),
            Kind::Operator(Operator::Matches | Operator::NotMatches) => {
                let behind = at.saturating_add(1);
                match self.tokens.get(behind) {
                    Some(token) if stands_alone(self.tokens, behind) => self.add_dynamic(token),
                    _ => Ok(()),
                }
            }
            Kind::Assign(AssignmentOperator::Plain) => self.add_separator(at),
            Kind::Ere(ere) if ere.as_slice().is_empty() => self.add_remark(at, token),
            Kind::Ere(_) => self.add_edge(token),
            _ => Ok(()),
        }
    }
}

/// Whether a byte has a meaning in an ERE.
pub(crate) fn is_ere_byte(byte: u8) -> bool {
    matches!(
        byte,
        b'\\' | b'^' | b'$' | b'.' | b'[' | b'(' | b')' | b'|' | b'*' | b'+' | b'?' | b'{'
    )
}
