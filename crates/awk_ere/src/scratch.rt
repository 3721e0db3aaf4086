// The cache of a search: a position set, the transition table, and what is known of the pattern.

ghost use Rattle.std.specs.Prelude.{◌≡◌, true, MatchResult, is_some};
ghost use Rattle.awk_ere.specs.support.SimulationStep.{IsStill, AreFor};
ghost use Rattle.awk_ere.specs.support.Table.{BeginsAtStart, IsFor};

use crate::dfa::table::Table;
use crate::fault::PatternFault;
use crate::first_bytes::FirstBytes;
use crate::pattern::Pattern;
use crate::program::Instruction;
use crate::simulation::{Input, PositionSet};
use memchr::memmem::Finder;
use std::alloc::Global;

/// The memory that searches for one pattern use, and use again.
#[derive(Drop)]
pub struct Scratch {
    /// Empty where the pattern is a text, as the table.
    pub(crate) position_set: PositionSet,
    pub(crate) table: Table,
    /// Whether it is known that no match begins behind the text's start.
    pub(crate) anchored_at_start: bool,
    /// A search for the text that the pattern is, where it is one.
    pub(crate) literal: Option<Finder<'static>>,
    /// The bytes with which a match may begin behind the text's start, as far as they are known.
    pub(crate) first_bytes: FirstBytes,
    /// How many long texts were searched, up to as many as are searched before the first bytes are learned.
    pub(crate) searches: u32,
    /// A search for a text that stands in each match, where one is known.
    pub(crate) required: Option<Finder<'static>>,
}

impl Scratch {
    /// The memory for searches for this pattern: some kilobytes for a small pattern, and much less for one that is a text. It
    /// grows with the texts that it meets, to at most some megabyte.
    pub fn for_pattern(alloc: Global, pattern: &Pattern) -> Result<Scratch, PatternFault>
        ensures { MatchResult result (λ scratch. IsFor scratch pattern.now) (λ fault. fault ≡ PatternFault.Memory) }
    {
        let literal = pattern.literal_finder(alloc)?;
        let required = pattern.required_finder(alloc)?;
        if literal.is_some() {
            return Ok(Scratch {
                position_set: PositionSet::for_count(alloc, 0)?,
                table: Table::empty(alloc),
                anchored_at_start: false,
                literal,
                first_bytes: FirstBytes::Any,
                searches: 0,
                required,
            });
        }
        let count = pattern.program.instructions.len();
        let mut position_set = PositionSet::for_count(alloc, count)?;
        let table = Table::for_count(alloc, count)?;
        let anchored_at_start = pattern.is_anchored_at_start(&mut position_set);
        Ok(Scratch {
            position_set,
            table,
            anchored_at_start,
            literal,
            first_bytes: FirstBytes::Any,
            searches: 0,
            required,
        })
    }

    /// Whether a text is known that stands in each match, so that other texts can be passed over.
    #[inline]
    pub fn has_required(&self) -> bool
        ensures { result ≡ is_some self.now.required }
    {
        self.required.is_some()
    }
}

// How long a program may be for each byte to be tried on it.
const SHORT: usize = 256;

impl Pattern {
    // Whether it is known that no match begins behind the text's start: the program is short, it begins
    // with the text's start, and no byte leads on.
    fn is_anchored_at_start(&self, position_set: &mut PositionSet) -> bool
        requires { AreFor position_set.old self.now }
        ensures still { result ≡ true → IsStill self.now true }
        ensures begins { result ≡ true → BeginsAtStart self.now }
        ensures same { AreFor position_set.new self.now }
    {
        let Some(Instruction::Start) = self.program.instructions.first() else {
            return false;
        };
        if self.program.instructions.len() > SHORT {
            return false;
        }
        for byte in 0..=255 {
            position_set.clear();
            let input = Input {
                byte,
                start: false,
                end: false,
            };
            if self.step(position_set, true, input) || !position_set.is_dead() {
                return false;
            }
        }
        true
    }
}
