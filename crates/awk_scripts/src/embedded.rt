// A program in a script.

use crate::makefile::Script;
use awk_findings::{Finding, Note, Place};
use std::alloc::{AllocError, Global};

/// A program in a script.
#[derive(Drop)]
pub struct Embedded {
    /// The program as awk is given it.
    pub text: Vec<u8>,
    /// Where each byte of it stands in the script.
    pub(crate) places: Vec<usize>,
    /// The word that it is.
    pub word: Place,
    /// The names that options before it assign to.
    pub given: Vec<Vec<u8>>,
    /// Whether all of it stands there: nothing is put into it.
    pub is_whole: bool,
}

impl Embedded {
    /// Takes the places of the file that a script was made of.
    pub(crate) fn lead_back(&mut self, script: &Script) {
        for place in self.places.iter_mut() {
            *place = script.place_of(*place);
        }
        let last = script.place_of(self.word.end.saturating_sub(1));
        self.word = Place {
            start: script.place_of(self.word.start),
            end: last.saturating_add(1),
        };
    }

    /// Where a byte of the program stands in the script.
    fn place_of(&self, at: usize) -> usize {
        match self.places.get(at) {
            Some(place) => *place,
            None => self.word.end.saturating_sub(1),
        }
    }

    fn stretch_of(&self, place: Place) -> Place {
        let last = self.place_of(place.end.saturating_sub(1));
        let start = self.place_of(place.start);
        Place {
            start,
            end: last.saturating_add(1).max(start),
        }
    }

    /// What is told of the program, at its places in the script.
    pub fn placed(
        &self,
        alloc: Global,
        findings: Vec<Finding>,
    ) -> Result<Vec<Finding>, AllocError> {
        let mut placed = Vec::new(alloc);
        for finding in findings {
            let mut finding = finding;
            finding.place = Some(match finding.place {
                Some(place) => self.stretch_of(place),
                None => self.word,
            });
            if let Some(other) = finding.other {
                finding.other = Some(Note {
                    place: self.stretch_of(other.place),
                    message: other.message,
                });
            }
            placed.push(finding)?;
        }
        Ok(placed)
    }
}
