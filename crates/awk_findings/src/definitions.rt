// The functions of a program, by their tokens.

use crate::calls::name_of;
use awk_lex::token::{Keyword, Kind, Token};
use indexmap::{IndexMap, IndexSet};
use std::alloc::{AllocError, Global};

/// A function, by its tokens.
#[derive(Drop)]
pub(crate) struct Definition {
    /// The token of its name.
    pub(crate) name: usize,
    /// Those of its parameters.
    pub(crate) parameters: Vec<usize>,
    /// What its parameters are called.
    pub(crate) names: IndexSet<Vec<u8>>,
    /// The last of its body, or of the text.
    pub(crate) end: usize,
}

/// Where a scan for functions is.
#[derive(Clone, Copy)]
enum Part {
    Outside,
    Name,
    Parameters,
    /// In a body, and so many braces are open.
    Body(usize),
}

/// A scan for functions.
#[derive(Drop)]
struct DefinitionScan {
    alloc: Global,
    found: Vec<Definition>,
    part: Part,
}

impl DefinitionScan {
    /// A token in the list of parameters.
    fn add_parameter(&mut self, at: usize, kind: &Kind) -> Result<(), AllocError> {
        match kind {
            Kind::Name(name) => {
                if let Some(last) = self.found.last_mut() {
                    last.parameters.push(at)?;
                    last.names.insert(name.as_slice().to_vec(self.alloc)?)?;
                }
            }
            Kind::OpenBrace => self.part = Part::Body(1),
            _ => {}
        }
        Ok(())
    }

    /// A token of a body in which so many braces are open.
    fn go_on(&mut self, at: usize, kind: &Kind, open: usize) {
        if let Some(last) = self.found.last_mut() {
            last.end = at;
        }
        self.part = match kind {
            Kind::OpenBrace => Part::Body(open.saturating_add(1)),
            Kind::CloseBrace if open <= 1 => Part::Outside,
            Kind::CloseBrace => Part::Body(open - 1),
            _ => Part::Body(open),
        };
    }

    fn step(&mut self, at: usize, token: &Token) -> Result<(), AllocError> {
        match self.part {
            Part::Outside => {
                if matches!(token.kind, Kind::Keyword(Keyword::Function)) {
                    self.part = Part::Name;
                }
            }
            Part::Name => {
                self.found.push(Definition {
                    name: at,
                    parameters: Vec::new(self.alloc),
                    names: IndexSet::new(self.alloc),
                    end: at,
                })?;
                self.part = Part::Parameters;
            }
            Part::Parameters => self.add_parameter(at, &token.kind)?,
            Part::Body(open) => self.go_on(at, &token.kind, open),
        }
        Ok(())
    }
}

/// The functions of a program, in their order.
pub(crate) fn definitions(alloc: Global, tokens: &[Token]) -> Result<Vec<Definition>, AllocError> {
    let mut scan = DefinitionScan {
        alloc,
        found: Vec::new(alloc),
        part: Part::Outside,
    };
    for (at, token) in tokens.iter().enumerate() {
        scan.step(at, token)?;
    }
    let DefinitionScan { found, .. } = scan;
    Ok(found)
}

/// The name at a token, or nothing.
pub(crate) fn name_at(tokens: &[Token], at: usize) -> &[u8] {
    match tokens.get(at) {
        Some(token) => name_of(token).unwrap_or(b""),
        None => b"",
    }
}

/// The names of functions, each with its first definition among them all.
pub(crate) fn first_definitions(
    alloc: Global,
    tokens: &[Token],
    all: &[Definition],
) -> Result<IndexMap<Vec<u8>, usize>, AllocError> {
    let mut names = IndexMap::new(alloc);
    for (number, definition) in all.iter().enumerate() {
        let name = name_at(tokens, definition.name);
        if !names.contains_key(name) {
            names.insert(name.to_vec(alloc)?, number)?;
        }
    }
    Ok(names)
}

/// The function in which a token stands.
pub(crate) fn definition_at(all: &[Definition], at: usize) -> Option<&Definition> {
    let count = all.partition_point(|definition| definition.name <= at);
    let definition = all.get(count.checked_sub(1)?)?;
    if at <= definition.end {
        Some(definition)
    } else {
        None
    }
}

/// Whether a token is the name in a definition.
pub(crate) fn is_defining(tokens: &[Token], at: usize) -> bool {
    match at.checked_sub(1) {
        Some(before) => match tokens.get(before) {
            Some(token) => matches!(token.kind, Kind::Keyword(Keyword::Function)),
            None => false,
        },
        None => false,
    }
}
