// Lines and bytes of a program's text.

use crate::finding::Place;
use std::alloc::{AllocError, Global};

/// Where a byte stands: its line from 1, and the stretch of the text that this line is.
#[derive(Clone, Copy)]
pub struct Line {
    pub number: usize,
    pub stretch: Place,
}

/// The lines of a text.
#[derive(Drop)]
pub struct Lines {
    /// Where they begin, in order.
    starts: Vec<usize>,
    /// Where the text ends.
    end: usize,
}

impl Lines {
    pub fn of(alloc: Global, text: &[u8]) -> Result<Lines, AllocError> {
        let mut starts = Vec::new(alloc);
        starts.push(0usize)?;
        for (place, byte) in text.iter().enumerate() {
            if *byte == b'\n' {
                starts.push(place.saturating_add(1))?;
            }
        }
        Ok(Lines {
            starts,
            end: text.len(),
        })
    }

    /// How many lines begin at a place or before it.
    fn count_to(&self, at: usize) -> usize {
        match self.starts.binary_search(&at) {
            Ok(found) => found.saturating_add(1),
            Err(found) => found,
        }
    }

    /// The line that the byte at a place is on; lines are counted from a place on.
    pub fn line_of(&self, from: usize, at: usize) -> Line {
        let count = self.count_to(at);
        let start = self
            .starts
            .get(count.saturating_sub(1))
            .copied()
            .unwrap_or(0);
        let end = match self.starts.get(count) {
            Some(next) => next.saturating_sub(1),
            None => self.end,
        };
        Line {
            number: count.saturating_sub(self.count_to(from)).saturating_add(1),
            stretch: Place { start, end },
        }
    }
}

/// The stretch of the line with this number, from 1.
pub(crate) fn numbered_line(text: &[u8], number: u64) -> Place {
    let mut left = number;
    let mut start = 0;
    for (place, byte) in text.iter().enumerate() {
        if *byte == b'\n' {
            if left <= 1 {
                return Place { start, end: place };
            }
            left -= 1;
            start = place.saturating_add(1);
        }
    }
    Place {
        start,
        end: text.len(),
    }
}

/// The bytes of a stretch.
pub(crate) fn bytes_of(text: &[u8], place: Place) -> &[u8] {
    text.get(place.start..place.end).unwrap_or(b"")
}
