// Names that a program never assigns or never uses.

use crate::calls::{finding_at, kind_before, kind_behind, name_of};
use crate::definitions::{Definition, definition_at, is_defining, name_at};
use crate::finding::{Finding, joined};
use crate::names::Names;
use crate::near::NearNames;
use crate::special::{
    CALLED_WORDS, LEADING_WORDS, foreign_variable_advice, is_among, is_foreign, word_advice,
};
use awk_kinds::is_special;
use awk_lex::token::{BuiltIn, Keyword, Kind, Token};
use indexmap::{IndexMap, IndexSet};
use std::alloc::{AllocError, Global};

const NEVER_ASSIGNED: &[u8] = b"the variable is never assigned: ";

/// The most names that one finding tells.
const MOST_NAMES: usize = 8;

/// What an open bracket belongs to.
#[derive(Clone, Copy)]
enum Owner {
    /// A call that may assign to a name alone that is its argument.
    Assigning,
    Other,
}

/// A scan for variables of the whole program.
#[derive(Drop)]
struct GlobalScan {
    alloc: Global,
    /// The first token of each that isn't assigned yet.
    unassigned: IndexMap<Vec<u8>, usize>,
    assigned: IndexSet<Vec<u8>>,
    owners: Vec<Owner>,
}

/// Whether an open parenthesis is that of a call which may assign to its arguments.
fn owner_of(tokens: &[Token], open: usize) -> Owner {
    match kind_before(tokens, open, 1) {
        Some(Kind::Called(_)) => Owner::Assigning,
        Some(Kind::BuiltIn(BuiltIn::Sub | BuiltIn::Gsub | BuiltIn::Split | BuiltIn::Length)) => {
            Owner::Assigning
        }
        _ => Owner::Other,
    }
}

/// Whether a name stands alone between commas and parentheses.
fn is_alone(tokens: &[Token], at: usize) -> bool {
    let opens = matches!(
        kind_before(tokens, at, 1),
        Some(Kind::OpenParenthesis | Kind::Comma)
    );
    let closes = matches!(
        kind_behind(tokens, at, 1),
        Some(Kind::CloseParenthesis | Kind::Comma)
    );
    opens && closes
}

/// Whether what stands around a name assigns to it, or makes an array of it.
fn is_assigned(tokens: &[Token], at: usize) -> bool {
    let behind = matches!(
        kind_behind(tokens, at, 1),
        Some(Kind::Assign(_) | Kind::Increment(_) | Kind::OpenBracket)
    );
    let before = matches!(
        kind_before(tokens, at, 1),
        Some(Kind::Increment(_) | Kind::Keyword(Keyword::Getline | Keyword::In | Keyword::Delete))
    );
    let walks = matches!(kind_behind(tokens, at, 1), Some(Kind::Keyword(Keyword::In)))
        && matches!(
            kind_before(tokens, at, 2),
            Some(Kind::Keyword(Keyword::For))
        );
    behind || before || walks
}

impl GlobalScan {
    fn add_name(&mut self, tokens: &[Token], at: usize, name: &[u8]) -> Result<(), AllocError> {
        let is_argument = matches!(self.owners.last(), Some(Owner::Assigning));
        if is_assigned(tokens, at) || (is_argument && is_alone(tokens, at)) {
            self.assigned.insert(name.to_vec(self.alloc)?)?;
        } else if !self.unassigned.contains_key(name) {
            self.unassigned.insert(name.to_vec(self.alloc)?, at)?;
        }
        Ok(())
    }

    fn step(&mut self, names: &Names, at: usize, token: &Token) -> Result<(), AllocError> {
        match &token.kind {
            Kind::OpenParenthesis => self.owners.push(owner_of(names.tokens, at))?,
            Kind::OpenBracket => self.owners.push(Owner::Other)?,
            Kind::CloseParenthesis | Kind::CloseBracket => {
                let _ = self.owners.pop();
            }
            Kind::Name(name) if !is_local(names, at, name.as_slice()) => {
                self.add_name(names.tokens, at, name.as_slice())?;
            }
            _ => {}
        }
        Ok(())
    }
}

/// Whether a name at a token is one of its function's parameters, or the function's own.
fn is_local(names: &Names, at: usize, name: &[u8]) -> bool {
    match definition_at(&names.all, at) {
        Some(definition) => definition.name == at || definition.names.contains(name),
        None => false,
    }
}

/// Whether a name is assigned somewhere, or has a meaning of its own.
fn is_known(scan: &GlobalScan, name: &[u8]) -> bool {
    is_special(name) || is_foreign(name) || scan.assigned.contains(name)
}

/// What is assigned in a program, and what isn't.
fn scan_globals(alloc: Global, names: &Names, given: &[Vec<u8>]) -> Result<GlobalScan, AllocError> {
    let mut scan = GlobalScan {
        alloc,
        unassigned: IndexMap::new(alloc),
        assigned: IndexSet::new(alloc),
        owners: Vec::new(alloc),
    };
    for name in given {
        scan.assigned.insert(name.as_slice().to_vec(alloc)?)?;
    }
    for (at, token) in names.tokens.iter().enumerate() {
        scan.step(names, at, token)?;
    }
    Ok(scan)
}

/// The names that an unassigned one may be meant for.
fn near_names(alloc: Global, names: &Names, scan: &GlobalScan) -> Result<NearNames, AllocError> {
    let mut near = NearNames::new(alloc);
    near.add_reserved()?;
    for (function, _) in &names.functions {
        near.add(function.as_slice())?;
    }
    for name in &scan.assigned {
        near.add(name.as_slice())?;
    }
    Ok(near)
}

/// Whether a statement or an item may begin at a token.
fn begins(tokens: &[Token], at: usize) -> bool {
    match kind_before(tokens, at, 1) {
        None => true,
        Some(kind) => matches!(
            kind,
            Kind::OpenBrace
                | Kind::CloseBrace
                | Kind::CloseParenthesis
                | Kind::Semicolon
                | Kind::Newline
                | Kind::Keyword(Keyword::Else | Keyword::Do)
        ),
    }
}

/// Whether a word can stand at a token: a keyword begins a statement or an item, and a list stands behind a function.
fn can_stand(names: &Names, at: usize, word: &[u8]) -> bool {
    if is_among(&LEADING_WORDS, word) {
        return begins(names.tokens, at);
    }
    let is_called = is_among(&CALLED_WORDS, word) || names.functions.contains_key(word);
    !is_called
        || matches!(
            kind_behind(names.tokens, at, 1),
            Some(Kind::OpenParenthesis)
        )
}

/// What to write instead of a variable at a token that is never assigned, where that is likely.
fn meant(
    alloc: Global,
    names: &Names,
    near: &NearNames,
    at: usize,
) -> Result<Option<Vec<u8>>, AllocError> {
    let name = name_at(names.tokens, at);
    match word_advice(name) {
        [] => match near.find(name)? {
            Some(found) if can_stand(names, at, found) => Ok(Some(joined(
                alloc,
                &[b"did you mean ", found, b"?"],
            )?)),
            _ => Ok(None),
        },
        advice => Ok(Some(advice.to_vec(alloc)?)),
    }
}

/// What is told of variables that nothing assigns to and that are like no other, by their first tokens.
fn given_finding(
    alloc: Global,
    tokens: &[Token],
    rest: &[usize],
) -> Result<Option<Finding>, AllocError> {
    let Some(token) = rest.first().and_then(|at| tokens.get(*at)) else {
        return Ok(None);
    };
    if rest.len() == 1 {
        let message = [NEVER_ASSIGNED, name_of(token).unwrap_or(b"")];
        return Ok(Some(finding_at(alloc, token, &message, b"it is 0 and the empty text")?));
    }
    let advice = b"each is 0 and the empty text, but where it is given, as by -v name=text";
    let message = [b"nothing here assigns to these variables:".as_slice()];
    let mut finding = finding_at(alloc, token, &message, advice)?;
    for (count, at) in rest.iter().enumerate().take(MOST_NAMES) {
        let comma = if count == 0 { b" ".as_slice() } else { b", " };
        finding.message.extend_from_slice(comma)?;
        finding.message.extend_from_slice(name_at(tokens, *at))?;
    }
    let others = rest.len().saturating_sub(MOST_NAMES);
    if others > 0 {
        let others = format!(in alloc; " and {others} more")?;
        finding.message.extend_from_slice(others.as_bytes())?;
    }
    Ok(Some(finding))
}

/// The first use of each variable of the whole program that is never assigned, where another name is likely meant;
/// the others in one finding.
fn never_assigned(
    alloc: Global,
    names: &Names,
    given: &[Vec<u8>],
    found: &mut Vec<Finding>,
) -> Result<(), AllocError> {
    let scan = scan_globals(alloc, names, given)?;
    let mut unknown = Vec::new(alloc);
    for (name, at) in &scan.unassigned {
        if !is_known(&scan, name.as_slice()) {
            unknown.push(*at)?;
        }
    }
    if unknown.is_empty() {
        return Ok(());
    }
    let near = near_names(alloc, names, &scan)?;
    let mut rest = Vec::new(alloc);
    for at in unknown.as_slice() {
        let Some(token) = names.tokens.get(*at) else {
            continue;
        };
        let name = name_at(names.tokens, *at);
        match meant(alloc, names, &near, *at)? {
            Some(advice) => {
                found.push(finding_at(alloc, token, &[NEVER_ASSIGNED, name], &advice)?)?;
            }
            None => rest.push(*at)?,
        }
    }
    if let Some(finding) = given_finding(alloc, names.tokens, &rest)? {
        found.push(finding)?;
    }
    Ok(())
}

/// The first use of each variable that is gawk's own.
fn foreign(alloc: Global, names: &Names, found: &mut Vec<Finding>) -> Result<(), AllocError> {
    let mut told: IndexSet<Vec<u8>> = IndexSet::new(alloc);
    for (at, token) in names.tokens.iter().enumerate() {
        let Kind::Name(name) = &token.kind else {
            continue;
        };
        let name = name.as_slice();
        if !is_foreign(name) || told.contains(name) || is_local(names, at, name) {
            continue;
        }
        told.insert(name.to_vec(alloc)?)?;
        let message = [
            b"a variable like any other, in gawk it has a meaning: ".as_slice(),
            name,
        ];
        found.push(finding_at(alloc, token, &message, foreign_variable_advice(name))?)?;
    }
    Ok(())
}

/// Whether a program has an item that is no function.
fn has_rules(names: &Names) -> bool {
    let mut behind = 0usize;
    for definition in names.all.as_slice() {
        let between = names
            .tokens
            .get(behind..definition.name.saturating_sub(1))
            .unwrap_or(&[]);
        if has_item(between) {
            return true;
        }
        behind = definition.end.saturating_add(1);
    }
    has_item(names.tokens.get(behind..).unwrap_or(&[]))
}

/// Whether anything stands between two functions.
fn has_item(tokens: &[Token]) -> bool {
    for token in tokens {
        if !matches!(token.kind, Kind::Newline | Kind::Semicolon) {
            return true;
        }
    }
    false
}

/// The names that are called.
fn called_names(alloc: Global, tokens: &[Token]) -> Result<IndexSet<Vec<u8>>, AllocError> {
    let mut called = IndexSet::new(alloc);
    for (at, token) in tokens.iter().enumerate() {
        if let Kind::Called(name) = &token.kind {
            if !is_defining(tokens, at) {
                called.insert(name.as_slice().to_vec(alloc)?)?;
            }
        }
    }
    Ok(called)
}

/// The names that stand in a function's body.
fn body_names(
    alloc: Global,
    tokens: &[Token],
    definition: &Definition,
) -> Result<IndexSet<Vec<u8>>, AllocError> {
    let mut used = IndexSet::new(alloc);
    let last = definition
        .parameters
        .last()
        .copied()
        .unwrap_or(definition.name);
    let body = tokens
        .get(last.saturating_add(1)..definition.end)
        .unwrap_or(&[]);
    for token in body {
        if let Some(name) = name_of(token) {
            used.insert(name.to_vec(alloc)?)?;
        }
    }
    Ok(used)
}

/// The parameters of a function that are never used.
fn unused_parameters(
    alloc: Global,
    tokens: &[Token],
    definition: &Definition,
    found: &mut Vec<Finding>,
) -> Result<(), AllocError> {
    if definition.parameters.is_empty() {
        return Ok(());
    }
    let used = body_names(alloc, tokens, definition)?;
    for parameter in definition.parameters.as_slice() {
        let Some(token) = tokens.get(*parameter) else {
            continue;
        };
        let name = name_at(tokens, *parameter);
        if !used.contains(name) {
            let finding = finding_at(alloc, token, &[b"the parameter is never used: ", name], b"")?;
            found.push(finding)?;
        }
    }
    Ok(())
}

/// What a program never assigns or uses; of the names given, another assigns to them.
pub(crate) fn add_unused(
    alloc: Global,
    names: &Names,
    given: &[Vec<u8>],
    found: &mut Vec<Finding>,
) -> Result<(), AllocError> {
    never_assigned(alloc, names, given, found)?;
    foreign(alloc, names, found)?;
    let is_library = !has_rules(names);
    let called = called_names(alloc, names.tokens)?;
    for definition in names.all.as_slice() {
        let name = name_at(names.tokens, definition.name);
        let is_called = is_library || called.contains(name);
        if let (false, Some(token)) = (is_called, names.tokens.get(definition.name)) {
            let finding = finding_at(
                alloc,
                token,
                &[b"the function is never called: ", name],
                b"",
            )?;
            found.push(finding)?;
        }
        unused_parameters(alloc, names.tokens, definition, found)?;
    }
    Ok(())
}
