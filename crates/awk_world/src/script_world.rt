// A world in memory that follows a script and stores its log.
ghost use Rattle.std.specs.Prelude.{◌≡◌, ◌≤◌, ◌<◌, ◌+◌, [], ◌∷◌, vec_len, vec_capacity, OnOk, OnErr, IfErr};
ghost use Rattle.std.specs.Prelude.{Some, None, IsTrue, IfOk, Ok, Err, length, take, slice_get};
ghost use Rattle.awk_world.specs.definitions.WorldState.{Logs, IsFresh, Opens, Closes, SameOpen};
ghost use Rattle.awk_world.specs.definitions.Log.{Event, Closed, Did, DidNot, failures_after, logged, input_opening};
ghost use Rattle.awk_world.specs.definitions.Log.{output_opening, reading, writing, flushing, running};
ghost use Rattle.awk_world.specs.definitions.Writes.{received};
ghost use Rattle.awk_world.specs.definitions.Script.{event_of, events};
ghost use Rattle.awk_world.specs.definitions.ScriptAnswers.{IsAnswer, no_faults, refusing_memory, failing_write};
ghost use Rattle.awk_world.specs.definitions.ScriptAnswers.{failing_flush, writing_at_most, with_plan, buffering};
ghost use Rattle.awk_world.specs.definitions.ScriptAnswers.{after_write, after_flush, write_answer, flush_answer};
ghost use Rattle.awk_world.specs.definitions.ScriptAnswers.{input_answer, after_input, output_answer, after_output};
ghost use Rattle.awk_world.specs.definitions.ScriptAnswers.{reading_answer, after_reading, stream_under, unread};
ghost use Rattle.awk_world.specs.definitions.ScriptAnswers.{closing_answer, after_closing, run_answer, after_run};
ghost use Rattle.awk_world.specs.support.ScriptStreams.{is_open_in, open_at, open_count, standard_outputs_open};

use crate::answer::{Answer, take_closing, take_input, take_output, take_run};
use crate::entry::{Entry, add_entry, push_entry, receive, reserve_entry};
use crate::failure::{Failure, Failures};
use crate::planned_faults::PlannedFaults;
use crate::script_stream::{Portion, ScriptStream, add, advance, is_of_command, read_next, shut};
use crate::world::{InputKind, Mode, OUTPUT_BUFFER_SIZE, OutputKind, World, WorldFault};
use std::alloc::{AllocError, Global};

/// A world in memory. Each opening, each closing of a command and each run takes the first answer that
/// is listed for it. Where none is listed, standard input is empty, any other opening is refused, and
/// a closing and a run give 0, as does the closing of a file. Calls fail where that was planned, and a
/// reading gives all the bytes of a piece that it has room for.
#[derive(Drop)]
pub struct ScriptWorld {
    alloc: Global,
    answers: Vec<Answer>,
    streams: Vec<ScriptStream>,
    buffer_size: usize,
    still_open: usize,
    faults: PlannedFaults,
    log: Vec<Entry>,
    failures: Failures,
    // Room for the closing of each open stream.
    ghost room: { vec_len log + still_open ≤ vec_capacity log },
    ghost counted: { still_open ≡ open_count streams.items },
}

// Makes room for one more stream, and in the log for its opening and for the closing of each that is
// open then. Answers the stream's number.
fn make_room(
    streams: &mut Vec<ScriptStream>,
    log: &mut Vec<Entry>,
    still_open: usize,
) -> Result<u64, AllocError>
    ensures number { IfOk result (λ id. id ≡ vec_len streams.old + 2) }
    ensures streams { streams.new.items ≡ streams.old.items }
    ensures log { log.new.items ≡ log.old.items }
    ensures for_stream { IfOk result (λ _. vec_len streams.new < vec_capacity streams.new) }
    ensures for_entries { IfOk result (λ _. vec_len log.new + (still_open + 2) ≤ vec_capacity log.new) }
    ensures room { vec_capacity log.old ≤ vec_capacity log.new }
{
    let number = streams.len().checked_add(2).ok_or(AllocError)?;
    let entries = still_open.checked_add(2).ok_or(AllocError)?;
    streams.reserve(1)?;
    log.reserve(entries)?;
    Ok(number as u64)
}

impl ScriptWorld {
    ghost use Rattle.awk_world.specs.definitions.ScriptOf.{script_of};

    /// A world of these answers, in which nothing was done and no failure is planned. Takes no
    /// memory.
    pub fn new(alloc: Global, answers: Vec<Answer>) -> Self
        ensures log { (⟦<ScriptWorld as World>⟧.state result).log ≡ [] }
        ensures failures { (⟦<ScriptWorld as World>⟧.state result).failures ≡ [] }
        ensures script { script_of result
            ≡ record { answers = answers.items; streams = []; buffer_size = 65536; faults = no_faults } }
    {
        ScriptWorld {
            alloc,
            answers,
            streams: Vec::new(alloc),
            buffer_size: OUTPUT_BUFFER_SIZE,
            still_open: 0,
            faults: PlannedFaults::none(),
            log: Vec::new(alloc),
            failures: Failures::new(),
        }
    }

    /// What was done, the oldest first.
    pub fn entries(&self) -> &[Entry]
        ensures { (⟦<ScriptWorld as World>⟧.state self.now).log ≡ events result.now }
    {
        self.log.as_slice()
    }

    /// The bytes that an output has received since it was opened. Fails only where memory is
    /// refused.
    pub fn received(&self, output: u64) -> Result<Vec<u8>, AllocError>
        ensures { IfOk result (λ bytes. bytes.items ≡ received output (⟦<ScriptWorld as World>⟧.state self.now).log) }
    {
        let mut bytes = Vec::new(self.alloc);
        for entry in &self.log {
            receive(&mut bytes, entry, output)?;
        }
        Ok(bytes)
    }

    /// A run may hold back so many bytes of an output from now on.
    pub fn buffer_outputs(&mut self, size: usize)
        ensures script { script_of self.new ≡ buffering size (script_of self.old) }
        ensures state { ⟦<ScriptWorld as World>⟧.state self.new ≡ ⟦<ScriptWorld as World>⟧.state self.old }
    {
        self.buffer_size = size;
    }

    /// The k-th of the calls from now on that can answer `Memory`, from 1, answers it.
    pub fn refuse_memory(&mut self, k: u64)
        requires { 1 ≤ k }
        ensures script { let script = script_of self.old in
            script_of self.new ≡ with_plan (refusing_memory k script.faults) script }
        ensures state { ⟦<ScriptWorld as World>⟧.state self.new ≡ ⟦<ScriptWorld as World>⟧.state self.old }
    {
        self.faults.calls_before_refusal = Some(k - 1);
    }

    /// The k-th write from now on, from 1, fails.
    pub fn fail_write(&mut self, k: u64)
        requires { 1 ≤ k }
        ensures script { let script = script_of self.old in
            script_of self.new ≡ with_plan (failing_write k script.faults) script }
        ensures state { ⟦<ScriptWorld as World>⟧.state self.new ≡ ⟦<ScriptWorld as World>⟧.state self.old }
    {
        self.faults.writes_before_failure = Some(k - 1);
    }

    /// The k-th flush from now on, from 1, fails.
    pub fn fail_flush(&mut self, k: u64)
        requires { 1 ≤ k }
        ensures script { let script = script_of self.old in
            script_of self.new ≡ with_plan (failing_flush k script.faults) script }
        ensures state { ⟦<ScriptWorld as World>⟧.state self.new ≡ ⟦<ScriptWorld as World>⟧.state self.old }
    {
        self.faults.flushes_before_failure = Some(k - 1);
    }

    /// Each write takes at most n bytes. Where n is 0 it takes none, which is a failure if there
    /// are some.
    pub fn short_writes(&mut self, n: usize)
        ensures script { let script = script_of self.old in
            script_of self.new ≡ with_plan (writing_at_most n script.faults) script }
        ensures state { ⟦<ScriptWorld as World>⟧.state self.new ≡ ⟦<ScriptWorld as World>⟧.state self.old }
    {
        self.faults.longest_write = Some(n);
    }

    // Notes that a call failed, and the output that it was to write to or flush.
    fn note_failure(&mut self, output: Option<u64>, what: WorldFault)
        ensures failures { self.new.failures.list
            ≡ failures_after (DidNot output what) (events self.old.log.items) self.old.failures.list }
        ensures log { self.new.log.items ≡ self.old.log.items }
        ensures streams { self.new.streams.items ≡ self.old.streams.items }
        ensures script { script_of self.new ≡ script_of self.old }
    {
        self.failures.note(&Failure {
            at: self.log.len(),
            output,
            what,
        });
    }

    // Logs what was done, and keeps room for the closings. The only error is `Memory`.
    fn note_entry(&mut self, entry: Entry) -> Result<(), WorldFault>
        ensures ok { OnOk result (events self.new.log.items ≡ event_of entry ∷ events self.old.log.items) }
        ensures err { OnErr result (events self.new.log.items ≡ events self.old.log.items) }
        ensures memory { IfErr result (λ fault. fault ≡ WorldFault.Memory) }
        ensures streams { self.new.streams.items ≡ self.old.streams.items }
        ensures script { script_of self.new ≡ script_of self.old }
        ensures failures { self.new.failures ≡ self.old.failures }
    {
        add_entry(&mut self.log, self.still_open, entry)?;
        Ok(())
    }

    // Once an answer is taken there is room for all that follows.
    fn try_open_input(&mut self, kind: InputKind, name: &[u8]) -> Result<u64, WorldFault>
        ensures log { events self.new.log.items ≡ logged (input_opening kind name.now result) (events self.old.log.items) }
        ensures fresh { IfOk result (IsFresh (⟦<ScriptWorld as World>⟧.state self.old)) }
        ensures opens { IfOk result
            (Opens (⟦<ScriptWorld as World>⟧.state self.old) (⟦<ScriptWorld as World>⟧.state self.new)) }
        ensures refused { OnErr result (self.new.streams.items ≡ self.old.streams.items) }
        ensures answer { IsAnswer (input_answer kind name.now (script_of self.old)) result }
        ensures script { script_of self.new ≡ after_input kind name.now result (script_of self.old) }
        ensures failures { self.new.failures ≡ self.old.failures }
    {
        if self.faults.refuses_call() {
            return Err(WorldFault::Memory);
        }
        let name_copy = name.to_vec(self.alloc)?;
        let id = make_room(&mut self.streams, &mut self.log, self.still_open)?;
        let Some(stream) = take_input(self.alloc, &mut self.answers, kind, name) else {
            push_entry(&mut self.log, Entry::OpenedInput(kind, name_copy, None));
            return Err(WorldFault::Failed);
        };
        push_entry(&mut self.log, Entry::OpenedInput(kind, name_copy, Some(id)));
        self.still_open += 1;
        add(&mut self.streams, stream);
        Ok(id)
    }

    // Of a number that is no input a reading breaks.
    fn try_read(&mut self, id: u64, into: &mut [u8]) -> Result<usize, WorldFault>
        ensures log { events self.new.log.items ≡ logged (reading id result into.new) (events self.old.log.items) }
        ensures count { IfOk result (λ n. n ≤ length into.old) }
        ensures open { SameOpen (⟦<ScriptWorld as World>⟧.state self.old) (⟦<ScriptWorld as World>⟧.state self.new) }
        ensures answer { IsAnswer (reading_answer id (length into.old) (script_of self.old)) result }
        ensures bytes { IfOk result (λ n. take n into.new ≡ take n (unread (stream_under id (script_of self.old).streams))) }
        ensures script { script_of self.new ≡ after_reading id (length into.old) result (script_of self.old) }
        ensures failures { self.new.failures ≡ self.old.failures }
    {
        if self.faults.refuses_call() {
            return Err(WorldFault::Memory);
        }
        match read_next(&self.streams, id, into) {
            Portion::Bytes(count) => {
                let copy = into[..count].to_vec(self.alloc)?;
                self.note_entry(Entry::Read(id, copy))?;
                advance(&mut self.streams, id, count);
                Ok(count)
            }
            Portion::End => {
                self.note_entry(Entry::Ended(id))?;
                Ok(0)
            }
            Portion::Break => {
                self.note_entry(Entry::Broke(id))?;
                Err(WorldFault::Failed)
            }
        }
    }

    fn try_open_output(
        &mut self,
        kind: OutputKind,
        name: &[u8],
        mode: Mode,
    ) -> Result<u64, WorldFault>
        ensures log { events self.new.log.items
            ≡ logged (output_opening kind name.now mode result) (events self.old.log.items) }
        ensures fresh { IfOk result (IsFresh (⟦<ScriptWorld as World>⟧.state self.old)) }
        ensures opens { IfOk result
            (Opens (⟦<ScriptWorld as World>⟧.state self.old) (⟦<ScriptWorld as World>⟧.state self.new)) }
        ensures refused { OnErr result (self.new.streams.items ≡ self.old.streams.items) }
        ensures answer { IsAnswer (output_answer kind name.now (script_of self.old)) result }
        ensures script { script_of self.new ≡ after_output kind name.now result (script_of self.old) }
        ensures failures { self.new.failures ≡ self.old.failures }
    {
        if self.faults.refuses_call() {
            return Err(WorldFault::Memory);
        }
        let name_copy = name.to_vec(self.alloc)?;
        let id = make_room(&mut self.streams, &mut self.log, self.still_open)?;
        let Some(stream) = take_output(self.alloc, &mut self.answers, kind, name) else {
            push_entry(
                &mut self.log,
                Entry::OpenedOutput(kind, name_copy, mode, None),
            );
            return Err(WorldFault::Failed);
        };
        push_entry(
            &mut self.log,
            Entry::OpenedOutput(kind, name_copy, mode, Some(id)),
        );
        self.still_open += 1;
        add(&mut self.streams, stream);
        Ok(id)
    }

    fn try_write(&mut self, id: u64, bytes: &[u8]) -> Result<usize, WorldFault>
        ensures log { events self.new.log.items ≡ logged (writing id result bytes.now) (events self.old.log.items) }
        ensures count { IfOk result (λ n. n ≤ length bytes.now) }
        ensures answer { IsAnswer (write_answer (length bytes.now) self.old.faults) result }
        ensures script { script_of self.new ≡ with_plan (after_write self.old.faults) (script_of self.old) }
        ensures streams { self.new.streams.items ≡ self.old.streams.items }
        ensures failures { self.new.failures ≡ self.old.failures }
    {
        let count = self.faults.write(bytes.len())?;
        if count == 0 && !bytes.is_empty() {
            return Ok(0);
        }
        let copy = bytes[..count].to_vec(self.alloc)?;
        self.note_entry(Entry::Wrote(id, copy))?;
        Ok(count)
    }

    fn try_flush(&mut self, id: u64) -> Result<(), WorldFault>
        ensures log { events self.new.log.items ≡ logged (flushing id result) (events self.old.log.items) }
        ensures answer { IsAnswer (flush_answer self.old.faults) result }
        ensures script { script_of self.new ≡ with_plan (after_flush self.old.faults) (script_of self.old) }
        ensures streams { self.new.streams.items ≡ self.old.streams.items }
        ensures failures { self.new.failures ≡ self.old.failures }
    {
        self.faults.flush()?;
        self.note_entry(Entry::Flushed(id))
    }

    fn try_run(&mut self, command: &[u8]) -> Result<i128, WorldFault>
        ensures log { events self.new.log.items ≡ logged (running command.now result) (events self.old.log.items) }
        ensures never_failed { result ≡ Err WorldFault.Failed → ⊥ }
        ensures answer { IsAnswer (run_answer (script_of self.old)) result }
        ensures script { script_of self.new ≡ after_run result (script_of self.old) }
        ensures streams { self.new.streams.items ≡ self.old.streams.items }
        ensures failures { self.new.failures ≡ self.old.failures }
    {
        if self.faults.refuses_call() {
            return Err(WorldFault::Memory);
        }
        let copy = command.to_vec(self.alloc)?;
        reserve_entry(&mut self.log, self.still_open)?;
        let number = take_run(&mut self.answers);
        push_entry(&mut self.log, Entry::Ran(copy, number));
        Ok(number)
    }

    // The number that the closing of a stream gives.
    fn closing_number(&mut self, id: u64) -> i128
        ensures answer { result ≡ closing_answer id (script_of self.old) }
        ensures script { script_of self.new ≡ after_closing id (script_of self.old) }
        ensures log { self.new.log.items ≡ self.old.log.items }
        ensures streams { self.new.streams.items ≡ self.old.streams.items }
        ensures failures { self.new.failures ≡ self.old.failures }
    {
        if is_of_command(&self.streams, id) {
            take_closing(&mut self.answers)
        } else {
            0
        }
    }

    // The stream's opening made the room for this entry.
    fn note_closing(&mut self, place: usize) -> i128
        requires { IsTrue (open_at (slice_get self.old.streams.items place)) }
        ensures log { events self.new.log.items ≡ Event.Closed (place + 2) result ∷ events self.old.log.items }
        ensures closes { Closes (⟦<ScriptWorld as World>⟧.state self.old) (⟦<ScriptWorld as World>⟧.state self.new)
            (place + 2) }
        ensures answer { result ≡ closing_answer (place + 2) (script_of self.old) }
        ensures script { script_of self.new ≡ after_closing (place + 2) (script_of self.old) }
        ensures failures { self.new.failures ≡ self.old.failures }
    {
        let id = place as u64 + 2;
        let number = self.closing_number(id);
        shut(&mut self.streams, place);
        push_entry(&mut self.log, Entry::Closed(id, number));
        self.still_open -= 1;
        number
    }
}

impl World for ScriptWorld {
    ghost use Rattle.awk_world.specs.definitions.ScriptOf.{script_of};

    ghost is_logged = { Unit {0} };

    ghost state = { λ w.
        record { is_open = is_open_in w.streams.items; log = events w.log.items; failures = w.failures.list } };

    ghost standard_open = { λ w id h. standard_outputs_open w.streams.items id h };

    fn open_input(&mut self, kind: InputKind, name: &[u8]) -> Result<u64, WorldFault>
        ensures fresh { IfOk result (IsFresh (⟦<ScriptWorld as World>⟧.state self.old)) }
        ensures opens { IfOk result
            (Opens (⟦<ScriptWorld as World>⟧.state self.old) (⟦<ScriptWorld as World>⟧.state self.new)) }
        ensures err { OnErr result
            (SameOpen (⟦<ScriptWorld as World>⟧.state self.old) (⟦<ScriptWorld as World>⟧.state self.new)) }
        ensures logs { Logs (input_opening kind name.now result) (⟦<ScriptWorld as World>⟧.state self.old)
            (⟦<ScriptWorld as World>⟧.state self.new) }
        ensures answer { IsAnswer (input_answer kind name.now (script_of self.old)) result }
        ensures script { script_of self.new ≡ after_input kind name.now result (script_of self.old) }
    {
        match self.try_open_input(kind, name) {
            Ok(id) => Ok(id),
            Err(WorldFault::Failed) => Err(WorldFault::Failed),
            Err(WorldFault::Memory) => {
                self.note_failure(None, WorldFault::Memory);
                Err(WorldFault::Memory)
            }
        }
    }

    fn read(&mut self, id: u64, into: &mut [u8]) -> Result<usize, WorldFault>
        ensures count { IfOk result (λ n. n ≤ length into.old) }
        ensures open { SameOpen (⟦<ScriptWorld as World>⟧.state self.old) (⟦<ScriptWorld as World>⟧.state self.new) }
        ensures logs { Logs (reading id result into.new) (⟦<ScriptWorld as World>⟧.state self.old)
            (⟦<ScriptWorld as World>⟧.state self.new) }
        ensures answer { IsAnswer (reading_answer id (length into.old) (script_of self.old)) result }
        ensures bytes { IfOk result (λ n. take n into.new ≡ take n (unread (stream_under id (script_of self.old).streams))) }
        ensures script { script_of self.new ≡ after_reading id (length into.old) result (script_of self.old) }
    {
        match self.try_read(id, into) {
            Ok(count) => Ok(count),
            Err(WorldFault::Failed) => Err(WorldFault::Failed),
            Err(WorldFault::Memory) => {
                self.note_failure(None, WorldFault::Memory);
                Err(WorldFault::Memory)
            }
        }
    }

    fn open_output(&mut self, kind: OutputKind, name: &[u8], mode: Mode) -> Result<u64, WorldFault>
        ensures fresh { IfOk result (IsFresh (⟦<ScriptWorld as World>⟧.state self.old)) }
        ensures opens { IfOk result
            (Opens (⟦<ScriptWorld as World>⟧.state self.old) (⟦<ScriptWorld as World>⟧.state self.new)) }
        ensures err { OnErr result
            (SameOpen (⟦<ScriptWorld as World>⟧.state self.old) (⟦<ScriptWorld as World>⟧.state self.new)) }
        ensures logs { Logs (output_opening kind name.now mode result) (⟦<ScriptWorld as World>⟧.state self.old)
            (⟦<ScriptWorld as World>⟧.state self.new) }
        ensures answer { IsAnswer (output_answer kind name.now (script_of self.old)) result }
        ensures script { script_of self.new ≡ after_output kind name.now result (script_of self.old) }
    {
        match self.try_open_output(kind, name, mode) {
            Ok(id) => Ok(id),
            Err(WorldFault::Failed) => Err(WorldFault::Failed),
            Err(WorldFault::Memory) => {
                self.note_failure(None, WorldFault::Memory);
                Err(WorldFault::Memory)
            }
        }
    }

    fn write(&mut self, id: u64, bytes: &[u8]) -> Result<usize, WorldFault>
        ensures count { IfOk result (λ n. n ≤ length bytes.now) }
        ensures open { SameOpen (⟦<ScriptWorld as World>⟧.state self.old) (⟦<ScriptWorld as World>⟧.state self.new) }
        ensures logs { Logs (writing id result bytes.now) (⟦<ScriptWorld as World>⟧.state self.old)
            (⟦<ScriptWorld as World>⟧.state self.new) }
        ensures answer { IsAnswer (write_answer (length bytes.now) (script_of self.old).faults) result }
        ensures script { script_of self.new ≡ with_plan (after_write (script_of self.old).faults) (script_of self.old) }
    {
        match self.try_write(id, bytes) {
            Ok(0) if !bytes.is_empty() => {
                self.note_failure(Some(id), WorldFault::Failed);
                Ok(0)
            }
            Ok(count) => Ok(count),
            Err(fault) => {
                self.note_failure(Some(id), fault);
                Err(fault)
            }
        }
    }

    fn output_buffer_size(&self, _id: u64) -> usize
        ensures { result ≡ (script_of self.now).buffer_size }
    {
        self.buffer_size
    }

    fn flush(&mut self, id: u64) -> Result<(), WorldFault>
        ensures open { SameOpen (⟦<ScriptWorld as World>⟧.state self.old) (⟦<ScriptWorld as World>⟧.state self.new) }
        ensures logs { Logs (flushing id result) (⟦<ScriptWorld as World>⟧.state self.old)
            (⟦<ScriptWorld as World>⟧.state self.new) }
        ensures answer { IsAnswer (flush_answer (script_of self.old).faults) result }
        ensures script { script_of self.new ≡ with_plan (after_flush (script_of self.old).faults) (script_of self.old) }
    {
        match self.try_flush(id) {
            Ok(()) => Ok(()),
            Err(fault) => {
                self.note_failure(Some(id), fault);
                Err(fault)
            }
        }
    }

    fn close(&mut self, id: u64) -> i128
        requires open { IsTrue ((⟦<ScriptWorld as World>⟧.state self.old).is_open id) }
        requires opened { 2 ≤ id }
        ensures closes { Closes (⟦<ScriptWorld as World>⟧.state self.old) (⟦<ScriptWorld as World>⟧.state self.new) id }
        ensures logs { Logs (Did (Closed id result)) (⟦<ScriptWorld as World>⟧.state self.old)
            (⟦<ScriptWorld as World>⟧.state self.new) }
        ensures answer { result ≡ closing_answer id (script_of self.old) }
        ensures script { script_of self.new ≡ after_closing id (script_of self.old) }
    {
        self.note_closing(id as usize - 2)
    }

    fn run(&mut self, command: &[u8]) -> Result<i128, WorldFault>
        ensures open { SameOpen (⟦<ScriptWorld as World>⟧.state self.old) (⟦<ScriptWorld as World>⟧.state self.new) }
        ensures never_failed { result ≡ Err WorldFault.Failed → ⊥ }
        ensures logs { Logs (running command.now result) (⟦<ScriptWorld as World>⟧.state self.old)
            (⟦<ScriptWorld as World>⟧.state self.new) }
        ensures answer { IsAnswer (run_answer (script_of self.old)) result }
        ensures script { script_of self.new ≡ after_run result (script_of self.old) }
    {
        match self.try_run(command) {
            Ok(answer) => Ok(answer),
            Err(fault) => {
                self.note_failure(None, fault);
                Err(fault)
            }
        }
    }
}
