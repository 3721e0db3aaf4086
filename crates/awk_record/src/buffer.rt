// The bytes of an input that were read and not yet taken, cut into records.
ghost use Rattle.std.specs.Prelude.{◌≡◌, ◌≢◌, ◌+◌, ◌<◌, ◌≤◌, [], ◌∷◌, ◌++◌, length, take, drop, slice_range, vec_len};
ghost use Rattle.std.specs.Prelude.{Some, None, IfSome, IfNone, OnOk, OnErr, IfOk, IfErr, Err, Ok};
ghost use Rattle.awk_record.specs.definitions.Cut.{AtEnd, AtBreak, longest};
ghost use Rattle.awk_record.specs.support.Boundary.{end_if, ending_or_break};

use crate::boundary::{Boundary, LONGEST, first_boundary};
use crate::buffer_fault::BufferFault;
use crate::lanes::first_place;
use crate::separator_search::{Progress, ResumedSearch};
use awk_value::Bytes;
use std::alloc::Global;
use std::marker::Model;
use std::mem;

// No more bytes than these are moved to memory that is read into.
const MOST_MOVED: usize = 8192;

/// What an asking for the next record answers.
#[derive(Drop)]
pub enum Step {
    Record(Bytes),
    /// The bytes at hand don't decide the record, and no ending was met.
    NeedMore,
    /// The input has ended, and no record is left.
    End,
    /// The input broke, and no whole record is left.
    Broken,
}

// What is known of the bytes that follow those at hand.
#[derive(Clone, Copy)]
enum Supply {
    Open,
    Ended,
    Broke,
}

fn at_end(supply: Supply) -> bool
    ensures { end_if result ≡ ending_or_break supply }
{
    match supply {
        Supply::Ended => true,
        Supply::Open | Supply::Broke => false,
    }
}

// Writes these bytes over the first ones of memory that has so many.
fn write_front(memory: &mut [u8], bytes: &[u8])
    requires { length bytes.now ≤ length memory.old }
    ensures { memory.new ≡ bytes.now ++ drop (length bytes.now) memory.old }
{
    memory[..bytes.len()].copy_from_slice(bytes);
}

/// The bytes of an input that were read and not yet taken.
#[derive(Drop)]
pub struct RecordBuffer {
    alloc: Global,
    // what was read and not yet taken: records are cut from it, and share its memory
    held: Bytes,
    // how many bytes were held since they were last moved, those that were taken counted in
    reached: usize,
    // how many bytes came last
    came: usize,
    supply: Supply,
    search: ResumedSearch,
    // memory that was read into before, and can be anew once nothing shares it
    spare: Option<Bytes>,
}

impl Model for RecordBuffer {
    ghost use Rattle.awk_record.specs.definitions.Buffer.{Pending};
    ghost use Rattle.awk_record.specs.support.Boundary.{ending_of, IsSearched};

    ghost Value = { Pending };

    ghost view = { λ b. record { bytes = b.held; ending = ending_of b.supply } };

    ghost invariant = { λ b. IsSearched b.held b.search };
}

impl RecordBuffer {
    ghost use Rattle.awk_record.specs.definitions.Buffer.{Steps};

    /// An empty buffer of an input that is still open.
    pub fn new(alloc: Global) -> Self
        ensures bytes { result.bytes ≡ [] }
        ensures ending { result.ending ≡ None }
    {
        RecordBuffer {
            alloc,
            held: Bytes::empty(),
            reached: 0,
            came: 0,
            supply: Supply::Open,
            search: ResumedSearch::new(alloc),
            spare: None,
        }
    }

    // Moves the bytes at hand to the front of their memory, once fewer are left than were taken since the last move: so a
    // byte is moved no oftener than bytes are taken.
    fn drop_taken(&mut self)
        ensures { self.new ≡ self.old }
    {
        let left = self.held.len();
        if left < self.reached.saturating_sub(left) {
            self.held.compact();
            self.reached = left;
        }
    }

    // Takes all bytes.
    fn take_all(&mut self)
        ensures bytes { self.new.bytes ≡ [] }
        ensures ending { self.new.ending ≡ self.old.ending }
    {
        self.held = Bytes::empty();
        self.search.forget();
    }

    /// Adds the next bytes of the input. The only error is `Memory`, and it
    /// changes nothing.
    pub fn feed(&mut self, piece: &[u8]) -> Result<(), BufferFault>
        requires { self.old.ending ≡ None }
        ensures ok { OnOk result (self.new.bytes ≡ self.old.bytes ++ piece.now) }
        ensures ending { self.new.ending ≡ None }
        ensures err { OnErr result (self.new ≡ self.old) }
        ensures memory { IfErr result (λ e. e ≡ BufferFault.Memory) }
    {
        self.came = piece.len();
        if self.held.is_empty() {
            self.held = Bytes::from_slice(self.alloc, piece)?;
            self.reached = piece.len();
            return Ok(());
        }
        self.drop_taken();
        self.held.extend_from_slice(self.alloc, piece)?;
        self.reached = self.reached.saturating_add(piece.len());
        Ok(())
    }

    /// The input has ended. After an ending this changes nothing.
    pub fn end(&mut self)
        ensures bytes { self.new.bytes ≡ self.old.bytes }
        ensures ending { self.old.ending ≡ None → self.new.ending ≡ Some AtEnd }
        ensures again { self.old.ending ≢ None → self.new ≡ self.old }
    {
        if let Supply::Open = self.supply {
            self.supply = Supply::Ended;
        }
    }

    /// The input broke. After an ending this changes nothing.
    pub fn broken(&mut self)
        ensures bytes { self.new.bytes ≡ self.old.bytes }
        ensures ending { self.old.ending ≡ None → self.new.ending ≡ Some AtBreak }
        ensures again { self.old.ending ≢ None → self.new ≡ self.old }
    {
        if let Supply::Open = self.supply {
            self.supply = Supply::Broke;
        }
    }

    /// Memory to read the next bytes into, and how many bytes stand in front of it: those at hand. Behind them is room for
    /// at least so many. Nothing where more bytes are at hand than are worth moving, or where few bytes or none came last:
    /// the next ones are fed. The only error is `Memory`.
    pub fn lend_memory(&mut self, room: usize) -> Result<Option<(Vec<u8>, usize)>, BufferFault>
        requires { room ≤ longest }
        ensures front { IfOk result (λ lent. IfSome lent (λ m. take m.1 m.0.items ≡ self.old.bytes)) }
        ensures behind { IfOk result (λ lent. IfSome lent (λ m. m.1 + room ≤ vec_len m.0)) }
        ensures count { IfOk result (λ lent. IfSome lent (λ m. m.1 ≡ length self.old.bytes)) }
        ensures same { self.new ≡ self.old }
        ensures memory { IfErr result (λ e. e ≡ BufferFault.Memory) }
    {
        let left = self.held.len();
        if left > MOST_MOVED || self.came < room / 2 {
            return Ok(None);
        }
        let mut memory = self.reading_memory(MOST_MOVED + room)?;
        write_front(&mut memory, self.held.as_slice());
        Ok(Some((memory, left)))
    }

    // Memory of this size: that which was read into before, where nothing else shares it.
    fn reading_memory(&mut self, size: usize) -> Result<Vec<u8>, BufferFault>
        ensures size { IfOk result (λ memory. vec_len memory ≡ size) }
        ensures same { self.new ≡ self.old }
        ensures memory { IfErr result (λ e. e ≡ BufferFault.Memory) }
    {
        if let Some(spare) = self.spare.take()
            && let Some(memory) = spare.into_memory()
            && memory.len() == size
        {
            return Ok(memory);
        }
        Ok(vec![in self.alloc; 0; size]?)
    }

    /// Takes memory back that was lent: behind the bytes at hand, up to `end`, it holds the next bytes of the input. The
    /// only error is `Memory`, and it changes nothing.
    pub fn take_memory(&mut self, memory: Vec<u8>, end: usize) -> Result<(), BufferFault>
        requires open { self.old.ending ≡ None }
        requires front { take (length self.old.bytes) memory.items ≡ self.old.bytes }
        requires order { length self.old.bytes ≤ end }
        requires within { end ≤ vec_len memory }
        ensures ok { OnOk result (self.new.bytes
            ≡ self.old.bytes ++ slice_range memory.items (length self.old.bytes) end) }
        ensures ending { self.new.ending ≡ None }
        ensures err { OnErr result (self.new ≡ self.old) }
        ensures memory { IfErr result (λ e. e ≡ BufferFault.Memory) }
    {
        let held = Bytes::from_part(self.alloc, memory, end)?;
        self.came = end - self.held.len();
        self.spare = Some(mem::replace(&mut self.held, held));
        self.reached = end;
        Ok(())
    }

    /// The bytes at hand, where none of them was searched in vain and they are fewer than a record may have.
    #[inline(always)]
    pub fn unsearched(&self) -> Option<&[u8]>
        ensures bytes { IfSome result (λ held. held.now ≡ self.now.bytes) }
        ensures short { IfSome result (λ held. length held.now < longest) }
    {
        if self.search.is_begun() || self.held.len() >= LONGEST {
            return None;
        }
        Some(self.held.as_slice())
    }

    /// Takes so many of the bytes at hand.
    #[inline(always)]
    pub fn skip(&mut self, count: usize)
        requires { count ≤ length self.old.bytes }
        ensures bytes { self.new.bytes ≡ drop count self.old.bytes }
        ensures ending { self.new.ending ≡ self.old.ending }
    {
        self.held.advance(count);
        self.search.forget();
    }

    /// The next record by a separator of this one byte, where it is at hand and was not searched for in vain. Nothing is
    /// no answer: `next` has it, and so far nothing has changed. Takes no time but for the search.
    #[inline(always)]
    pub fn record_at_hand(&mut self, separator: u8) -> Option<Bytes>
        ensures some { IfSome result (λ first. Steps (separator ∷ []) self.old (Ok (Step.Record first)) self.new) }
        ensures none { IfNone result (self.new ≡ self.old) }
        ensures ending { self.new.ending ≡ self.old.ending }
    {
        if self.search.is_begun() {
            return None;
        }
        let to = first_place(separator, self.held.as_slice())?;
        if to >= LONGEST {
            return None;
        }
        let Ok(record) = self.held.part(0, to) else {
            return None;
        };
        self.held.advance(to + 1);
        Some(record)
    }

    /// The next record by this separator: some bytes, at the first place where
    /// they stand, or none, where blank lines separate. After `End` or `Broken`
    /// no bytes are left. Fails with `Memory` (F1) or `RecordTooLong` (F16), and
    /// an `Err` changes nothing. (POSIX awk, Variables and Special Variables: RS)
    pub fn next(&mut self, separator: &[u8]) -> Result<Step, BufferFault>
        ensures steps { result ≢ Err BufferFault.Memory → Steps separator.now self.old result self.new }
        ensures memory { result ≡ Err BufferFault.Memory → self.new ≡ self.old }
        ensures ending { self.new.ending ≡ self.old.ending }
        ensures short { result ≡ Ok Step.NeedMore → length self.old.bytes ≤ longest }
    {
        let held = self.held.as_slice();
        let progress = self.search.progress_for(separator);
        match first_boundary(separator, held, progress, at_end(self.supply)) {
            Boundary::Stretch { from, to, next } => {
                let record = self.held.part(from, to)?;
                self.held.advance(next);
                self.search.forget();
                Ok(Step::Record(record))
            }
            Boundary::Empty => {
                self.take_all();
                Ok(Step::End)
            }
            Boundary::Unfinished { skipped } => match self.supply {
                Supply::Open => {
                    let searched = held.len();
                    self.search.keep(separator, Progress { skipped, searched })?;
                    Ok(Step::NeedMore)
                }
                Supply::Ended | Supply::Broke => {
                    self.take_all();
                    Ok(Step::Broken)
                }
            },
            Boundary::Over => Err(BufferFault::RecordTooLong),
        }
    }
}
