// What is told of a program: the cause of a refusal at its place, and what an accepted program may not mean.

use crate::calls::{finding_at, text_of};
use crate::conditions::add_conditions;
use crate::finding::{Finding, Note, Place, Severity, joined, shown};
use crate::names::Names;
use crate::patterns::ere_fault;
use crate::statements::misplaced;
use crate::syntax::{REMARKS, is_remark};
use crate::unused::add_unused;
use crate::variables::mixed;
use crate::warnings::Warnings;
use awk_grammar::tree::Item;
use awk_lex::refusal::RefusalCode;
use awk_lex::token::{Kind, Token};
use std::alloc::{AllocError, Global};

/// `refusal CODE: text` before a message.
fn with_label(
    alloc: Global,
    code: RefusalCode,
    finding: Option<Finding>,
) -> Result<Finding, AllocError> {
    let label = format!(in alloc; "refusal {code}")?;
    match finding {
        Some(found) => {
            let Finding {
                place,
                message,
                other,
                expected,
                advice,
                ..
            } = found;
            Ok(Finding {
                severity: Severity::Error,
                place,
                message: joined(alloc, &[label.as_bytes(), &message])?,
                other,
                expected,
                advice,
            })
        }
        None => {
            let mut finding = Finding::new(alloc, None, &[label.as_bytes()], b"")?;
            finding.severity = Severity::Error;
            Ok(finding)
        }
    }
}

/// What is told of a program that is refused for its names, or for where its statements stand. Where no place is
/// found, none is told.
pub fn name_finding(
    alloc: Global,
    text: &[u8],
    tokens: &[Token],
    items: &[Item],
    code: RefusalCode,
) -> Result<Finding, AllocError> {
    let names = Names::of(alloc, tokens)?;
    let found = match code {
        RefusalCode::StatementOutOfPlace => misplaced(alloc, text, tokens, items)?,
        RefusalCode::ArrayAndScalar => mixed(alloc, &names)?,
        _ => names.first(alloc, code)?,
    };
    with_label(alloc, code, found)
}

/// What to write instead of a pattern that is refused as a whole.
fn pattern_advice(code: RefusalCode) -> &'static [u8] {
    match code {
        RefusalCode::PatternCountRefused => {
            b"counts go up to 255, the least of two first, and a range rises"
        }
        RefusalCode::PatternTooLarge => {
            b"a pattern has a size of at most 10,000, and 200 groups open at once"
        }
        _ => b"",
    }
}

/// What is told of the ERE at a token, which is refused.
pub fn pattern_finding(
    alloc: Global,
    text: &[u8],
    token: &Token,
    code: RefusalCode,
) -> Result<Finding, AllocError> {
    let shown = shown(text_of(text, token));
    let Kind::Ere(ere) = &token.kind else {
        return with_label(alloc, code, None);
    };
    let fault = match code {
        RefusalCode::PatternIllFormed => ere_fault(ere.as_slice()),
        _ => None,
    };
    let finding = match fault {
        Some(found) => {
            let body = token.start.saturating_add(1);
            let place = Place {
                start: body.saturating_add(found.place.start),
                end: body.saturating_add(found.place.end),
            };
            let advice = if is_remark(ere.as_slice()) {
                REMARKS
            } else {
                found.advice
            };
            Finding::new(alloc, Some(place), &[b": ", shown], advice)?
        }
        None => finding_at(alloc, token, &[b": ", shown], pattern_advice(code))?,
    };
    with_label(alloc, code, Some(finding))
}

/// What is told of a token that can't stand where it stands, or of the last where the text ends too early. The other
/// stretch is one that is open.
pub fn syntax_finding(
    alloc: Global,
    place: Option<Place>,
    message: &[&[u8]],
    other: Option<Note>,
    expected: Vec<u8>,
    advice: &[u8],
) -> Result<Finding, AllocError> {
    let found = Finding::new(alloc, place, message, advice)?;
    let mut finding = with_label(alloc, RefusalCode::NotAProgram, Some(found))?;
    finding.other = other;
    finding.expected = expected;
    Ok(finding)
}

/// What is told of a program that is refused, where no more is known.
pub fn plain_finding(alloc: Global, code: RefusalCode) -> Result<Finding, AllocError> {
    let mut finding = with_label(alloc, code, None)?;
    if code == RefusalCode::NestedTooDeep {
        let advice = b"a tree is at most 200 high: take parts out into variables or functions";
        finding.advice.extend_from_slice(advice)?;
    }
    Ok(finding)
}

/// What an accepted program may not mean: what other awks answer otherwise, and likely mistakes. The names given
/// are those that something else assigns to.
pub fn find_warnings(
    alloc: Global,
    text: &[u8],
    tokens: &[Token],
    given: &[Vec<u8>],
) -> Result<Vec<Finding>, AllocError> {
    let mut warnings = Warnings {
        alloc,
        text,
        tokens,
        found: Vec::new(alloc),
    };
    for (at, token) in tokens.iter().enumerate() {
        warnings.add_token(at, token)?;
    }
    add_conditions(alloc, &mut warnings)?;
    let names = Names::of(alloc, tokens)?;
    let Warnings { found, .. } = warnings;
    let mut all = found;
    add_unused(alloc, &names, given, &mut all)?;
    Ok(all)
}
