// Which name a program is refused for.

use crate::calls::{arguments, finding_at, kind_before, kind_behind, name_of, place_of};
use crate::definitions::{Definition, definitions, first_definitions, is_defining, name_at};
use crate::finding::{Finding, Note, joined};
use crate::near::NearNames;
use crate::special::{foreign_advice, left_out_advice};
use awk_kinds::is_special;
use awk_lex::refusal::RefusalCode;
use awk_lex::token::{Kind, Token};
use awk_lex::words::is_left_out;
use indexmap::{IndexMap, IndexSet};
use std::alloc::{AllocError, Global};

/// What is told of a name at its token.
fn named_finding(
    alloc: Global,
    token: &Token,
    name: &[u8],
    fault: &[u8],
) -> Result<Option<Finding>, AllocError> {
    let finding = finding_at(alloc, token, &[b": ", name, fault], b"rename it")?;
    Ok(Some(finding))
}

/// A program's tokens and its functions.
#[derive(Drop)]
pub(crate) struct Names<'a> {
    pub(crate) tokens: &'a [Token],
    pub(crate) all: Vec<Definition>,
    /// The first definition of each name.
    pub(crate) functions: IndexMap<Vec<u8>, usize>,
}

impl<'a> Names<'a> {
    pub(crate) fn of(alloc: Global, tokens: &'a [Token]) -> Result<Names<'a>, AllocError> {
        let all = definitions(alloc, tokens)?;
        let functions = first_definitions(alloc, tokens, &all)?;
        Ok(Names {
            tokens,
            all,
            functions,
        })
    }

    /// The function with a name.
    pub(crate) fn definition_of(&self, name: &[u8]) -> Option<&Definition> {
        self.all.get(*self.functions.get(name)?)
    }

    /// K2: a call of a name that is no function.
    fn unknown(
        &self,
        alloc: Global,
        at: usize,
        token: &Token,
    ) -> Result<Option<Finding>, AllocError> {
        let Kind::Called(name) = &token.kind else {
            return Ok(None);
        };
        let name = name.as_slice();
        if self.functions.contains_key(name) || is_left_out(name) {
            return Ok(None);
        }
        let advice = match kind_before(self.tokens, at, 1) {
            Some(Kind::Name(word)) if word.as_slice() == b"func".as_slice() => {
                left_out_advice(b"func")
            }
            _ => foreign_advice(name),
        };
        let mut finding = finding_at(alloc, token, &[b": ", name], advice)?;
        if advice.is_empty() {
            finding.advice = self.meant_function(alloc, name)?;
        }
        Ok(Some(finding))
    }

    /// What to write instead of a call of a name that nothing is known of.
    fn meant_function(&self, alloc: Global, name: &[u8]) -> Result<Vec<u8>, AllocError> {
        let mut near = NearNames::new(alloc);
        near.add_reserved()?;
        for (function, _) in &self.functions {
            near.add(function.as_slice())?;
        }
        match near.find(name)? {
            Some(meant) => joined(alloc, &[b"did you mean ", meant, b"?"]),
            None => {
                let advice =
                    b"define it, or mend the name; two values that are joined need a blank between them";
                advice.to_vec(alloc)
            }
        }
    }

    /// K3: the second definition of a function.
    fn twice(
        &self,
        alloc: Global,
        at: usize,
        token: &Token,
    ) -> Result<Option<Finding>, AllocError> {
        if !is_defining(self.tokens, at) {
            return Ok(None);
        }
        let Some(name) = name_of(token) else {
            return Ok(None);
        };
        match self.definition_of(name) {
            Some(first) if first.name < at => {
                let mut finding = finding_at(alloc, token, &[b": ", name], b"rename one of them")?;
                finding.other = self.tokens.get(first.name).map(|first| Note {
                    place: place_of(first),
                    message: b"it is defined here first",
                });
                Ok(Some(finding))
            }
            _ => Ok(None),
        }
    }

    /// K4: a call with too many arguments.
    fn overfull(
        &self,
        alloc: Global,
        at: usize,
        token: &Token,
    ) -> Result<Option<Finding>, AllocError> {
        let Kind::Called(name) = &token.kind else {
            return Ok(None);
        };
        let name = name.as_slice();
        let Some(definition) = self.definition_of(name) else {
            return Ok(None);
        };
        let most = definition.parameters.len();
        let given = arguments(alloc, self.tokens, at)?.len();
        if given <= most || is_defining(self.tokens, at) {
            return Ok(None);
        }
        let counts = format!(in alloc; " takes at most {most}, and is given {given}")?;
        let message = [b": ".as_slice(), name, counts.as_bytes()];
        let advice = b"leave the others out, or give the function another parameter";
        let mut finding = finding_at(alloc, token, &message, advice)?;
        finding.other = self.tokens.get(definition.name).map(|defined| Note {
            place: place_of(defined),
            message: b"it is defined here",
        });
        Ok(Some(finding))
    }

    /// Why a parameter is refused, whatever the others are.
    fn parameter_fault(&self, name: &[u8]) -> Option<&'static [u8]> {
        if self.functions.contains_key(name) {
            return Some(b" is a function's name too");
        }
        if is_special(name) {
            return Some(b" is a variable of awk's own");
        }
        None
    }

    /// K5: the parameter of a function that is refused.
    fn refused_parameter(
        &self,
        alloc: Global,
        definition: &Definition,
    ) -> Result<Option<Finding>, AllocError> {
        let mut before = IndexSet::new(alloc);
        for parameter in definition.parameters.as_slice() {
            let name = name_at(self.tokens, *parameter);
            let Some(token) = self.tokens.get(*parameter) else {
                continue;
            };
            if let Some(fault) = self.parameter_fault(name) {
                return named_finding(alloc, token, name, fault);
            }
            if before.contains(name) {
                return named_finding(alloc, token, name, b" is a parameter twice");
            }
            before.insert(name.to_vec(alloc)?)?;
        }
        Ok(None)
    }

    fn any_refused_parameter(&self, alloc: Global) -> Result<Option<Finding>, AllocError> {
        for definition in self.all.as_slice() {
            if let Some(finding) = self.refused_parameter(alloc, definition)? {
                return Ok(Some(finding));
            }
        }
        Ok(None)
    }

    /// K7: a name that is left out.
    fn left_out(&self, alloc: Global, token: &Token) -> Result<Option<Finding>, AllocError> {
        let Some(name) = name_of(token) else {
            return Ok(None);
        };
        if !is_left_out(name) {
            return Ok(None);
        }
        let advice = left_out_advice(name);
        Ok(Some(finding_at(alloc, token, &[b": ", name], advice)?))
    }

    /// K8: a function's name that isn't called, or a function with the name of one of awk's own variables.
    fn as_variable(
        &self,
        alloc: Global,
        at: usize,
        token: &Token,
    ) -> Result<Option<Finding>, AllocError> {
        let Some(name) = name_of(token) else {
            return Ok(None);
        };
        let is_defining = is_defining(self.tokens, at);
        if is_defining && is_special(name) {
            return named_finding(alloc, token, name, b" is a variable of awk's own");
        }
        let is_name = matches!(token.kind, Kind::Name(_));
        if is_defining || !is_name || !self.functions.contains_key(name) {
            return Ok(None);
        }
        let advice = match kind_behind(self.tokens, at, 1) {
            Some(Kind::OpenParenthesis) => {
                b"in a call the parenthesis stands directly behind the name".as_slice()
            }
            _ => b"a call needs its parentheses, and a variable another name",
        };
        Ok(Some(finding_at(alloc, token, &[b": ", name], advice)?))
    }

    /// What a code tells of a token.
    fn told_of(
        &self,
        alloc: Global,
        code: RefusalCode,
        at: usize,
        token: &Token,
    ) -> Result<Option<Finding>, AllocError> {
        match code {
            RefusalCode::UnknownFunction => self.unknown(alloc, at, token),
            RefusalCode::DefinedTwice => self.twice(alloc, at, token),
            RefusalCode::TooManyArguments => self.overfull(alloc, at, token),
            RefusalCode::NameLeftOut => self.left_out(alloc, token),
            RefusalCode::FunctionAsVariable => self.as_variable(alloc, at, token),
            _ => Ok(None),
        }
    }

    /// The first place that a code is told of, where one is found.
    pub(crate) fn first(
        &self,
        alloc: Global,
        code: RefusalCode,
    ) -> Result<Option<Finding>, AllocError> {
        if code == RefusalCode::ParameterRefused {
            return self.any_refused_parameter(alloc);
        }
        for (at, token) in self.tokens.iter().enumerate() {
            if let Some(finding) = self.told_of(alloc, code, at, token)? {
                return Ok(Some(finding));
            }
        }
        Ok(None)
    }
}
