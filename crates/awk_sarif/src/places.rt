// Where findings stand, as a log tells it.

use crate::model::{ArtifactLocation, Location, Message, PhysicalLocation, Region};
use awk_findings::{Lines, Place, Source, source_at};
use percent_encoding::{AsciiSet, NON_ALPHANUMERIC, percent_encode};
use std::alloc::{AllocError, Global};

/// A program's text with the files that it is joined of.
#[derive(Drop)]
pub(crate) struct Listing<'a> {
    pub(crate) sources: &'a [Source],
    pub(crate) text: &'a [u8],
    pub(crate) lines: Lines,
}

/// What of a file's name isn't put into an address as it is.
fn escaped() -> AsciiSet {
    NON_ALPHANUMERIC
        .remove(b'/')
        .remove(b'.')
        .remove(b'-')
        .remove(b'_')
        .remove(b'~')
}

/// The address of a file.
fn address(alloc: Global, name: &[u8]) -> Result<ArtifactLocation, AllocError> {
    let mut uri = String::new(alloc);
    percent_encode(name, escaped()).append_to(&mut uri)?;
    Ok(ArtifactLocation { uri })
}

/// How many letters bytes are, of which those that go on with a letter of UTF-8 are none.
fn letters(bytes: &[u8]) -> u64 {
    let mut count = 0u64;
    for byte in bytes {
        if !matches!(*byte, 0x80..=0xbf) {
            count = count.saturating_add(1);
        }
    }
    count
}

impl<'a> Listing<'a> {
    /// The line and the column of a byte, both from 1; lines are counted from a place on.
    fn position(&self, from: usize, at: usize) -> (u64, u64) {
        let line = self.lines.line_of(from, at);
        let before = self.text.get(line.stretch.start..at).unwrap_or(b"");
        (line.number as u64, letters(before).saturating_add(1))
    }

    fn region(&self, source: &Source, place: Place) -> Region {
        let (start_line, start_column) = self.position(source.start, place.start);
        let (end_line, end_column) = self.position(source.start, place.end);
        Region {
            start_line,
            start_column,
            end_line,
            end_column,
        }
    }

    /// Where something stands: in the file of its place, or in the first where it has none.
    pub(crate) fn location(
        &self,
        alloc: Global,
        place: Option<Place>,
        message: Option<Message>,
    ) -> Result<Location, AllocError> {
        let source = match place {
            Some(place) => source_at(self.sources, place.start),
            None => self.sources.first(),
        };
        let (artifact_location, region) = match (source, place) {
            (Some(source), Some(place)) => {
                (
                    address(alloc, &source.name)?,
                    Some(self.region(source, place)),
                )
            }
            (Some(source), None) => (address(alloc, &source.name)?, None),
            (None, _) => (address(alloc, b"program")?, None),
        };
        Ok(Location {
            physical_location: PhysicalLocation {
                artifact_location,
                region,
            },
            message,
        })
    }
}
