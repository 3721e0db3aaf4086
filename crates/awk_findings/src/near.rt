// Names that are nearly others.

use crate::special::{CALLED_WORDS, LEADING_WORDS, VALUE_WORDS};
use awk_kinds::OWN_VARIABLES;
use indexmap::IndexMap;
use std::alloc::{AllocError, Global};

/// The most bytes of a name that is compared.
const LONGEST: usize = 40;

/// The fewest bytes of a name of which another letter makes no name of its own.
const SHORTEST: usize = 4;

/// Names, found by others that differ in case or, with the case of the first letter, in one letter that is missing, added,
/// another or exchanged with the one behind it.
#[derive(Drop)]
pub(crate) struct NearNames {
    alloc: Global,
    names: Vec<Vec<u8>>,
    /// The number of a name by what is left of it in small letters, whole or without one letter.
    by_form: IndexMap<Vec<u8>, usize>,
}

/// A name in small letters without the one at a place, or whole.
fn form_of(alloc: Global, name: &[u8], left_out: Option<usize>) -> Result<Vec<u8>, AllocError> {
    let mut form = Vec::new(alloc);
    for (at, byte) in name.iter().enumerate() {
        if left_out != Some(at) {
            form.push(byte.to_ascii_lowercase())?;
        }
    }
    Ok(form)
}

/// Whether a name begins with a capital letter.
fn is_capital(name: &[u8]) -> bool {
    match name.first() {
        Some(byte) => byte.is_ascii_uppercase(),
        None => false,
    }
}

/// Whether two names begin both with a capital letter, or both with none.
fn has_case_of(name: &[u8], other: &[u8]) -> bool {
    is_capital(name) == is_capital(other)
}

impl NearNames {
    pub(crate) fn new(alloc: Global) -> NearNames {
        NearNames {
            alloc,
            names: Vec::new(alloc),
            by_form: IndexMap::new(alloc),
        }
    }

    fn add_form(&mut self, form: Vec<u8>, number: usize) -> Result<(), AllocError> {
        if !self.by_form.contains_key(form.as_slice()) {
            self.by_form.insert(form, number)?;
        }
        Ok(())
    }

    /// Adds a name; of those that are alike the first is found.
    pub(crate) fn add(&mut self, name: &[u8]) -> Result<(), AllocError> {
        if name.len() > LONGEST {
            return Ok(());
        }
        let number = self.names.len();
        self.names.push(name.to_vec(self.alloc)?)?;
        self.add_form(form_of(self.alloc, name, None)?, number)?;
        if name.len() >= SHORTEST {
            for at in 0..name.len() {
                self.add_form(form_of(self.alloc, name, Some(at))?, number)?;
            }
        }
        Ok(())
    }

    /// Adds all of these.
    pub(crate) fn add_all(&mut self, words: &[&[u8]]) -> Result<(), AllocError> {
        for word in words {
            self.add(word)?;
        }
        Ok(())
    }

    /// Adds the words that are reserved, and awk's own variables.
    pub(crate) fn add_reserved(&mut self) -> Result<(), AllocError> {
        for (name, _) in &OWN_VARIABLES {
            self.add(name)?;
        }
        self.add_all(&VALUE_WORDS)?;
        self.add_all(&LEADING_WORDS)?;
        self.add_all(&CALLED_WORDS)
    }

    fn found(&self, form: &[u8]) -> Option<&[u8]> {
        let name = self.names.get(*self.by_form.get(form)?)?;
        Some(name.as_slice())
    }

    /// A name that is nearly this one.
    pub(crate) fn find(&self, name: &[u8]) -> Result<Option<&[u8]>, AllocError> {
        if name.len() < 2 || name.len() > LONGEST {
            return Ok(None);
        }
        let whole = form_of(self.alloc, name, None)?;
        let is_short = name.len() < SHORTEST;
        match self.found(&whole) {
            Some(found) if found.len() == name.len() => return Ok(Some(found)),
            Some(found) if !is_short && has_case_of(name, found) => return Ok(Some(found)),
            _ => {}
        }
        if is_short {
            return Ok(None);
        }
        for at in 0..name.len() {
            let form = form_of(self.alloc, name, Some(at))?;
            match self.found(&form) {
                Some(found) if has_case_of(name, found) => return Ok(Some(found)),
                _ => {}
            }
        }
        Ok(None)
    }
}
