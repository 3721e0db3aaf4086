// The streams of a world in memory. A stream's number is its place plus two, behind the standard
// outputs; a closed one keeps its place, so that no number is granted twice.
ghost use Rattle.std.specs.Prelude.{◌≡◌, ◌≤◌, ◌<◌, ◌+◌, ◌∷◌, ◌++◌, ◌^◌, ◌==◌, ◌-◌, [], if◌then◌else◌, true, false};
ghost use Rattle.std.specs.Prelude.{ℕ, take, drop, vec_len, vec_capacity, IsTrue, IfSome, length, slice_get};
ghost use Rattle.std.specs.List.{fold};
ghost use Rattle.awk_world.specs.definitions.Script.{stream_of, streams_of};
ghost use Rattle.awk_world.specs.definitions.ScriptAnswers.{nearer, read_count, portion_of, empty_stream, is_command_of};
ghost use Rattle.awk_world.specs.definitions.ScriptAnswers.{stream_under, stream_at, unread, advanced, place_after};
ghost use Rattle.awk_world.specs.support.ScriptStreams.{is_open_in, open_at, open_count, CanAdvance};

use crate::answer::Ending;
use std::alloc::Global;

// A stream that was granted: whether it is a command's, the bytes of an input, where its pieces end
// and what comes behind its bytes, and the place up to which it was read. An output is one that
// breaks when it is read.
#[derive(Drop)]
pub struct ScriptStream {
    pub open: bool,
    pub is_command: bool,
    pub bytes: Vec<u8>,
    pub piece_ends: Vec<usize>,
    pub ending: Ending,
    pub at: usize,
}

impl ScriptStream {
    // An open stream without bytes.
    pub fn empty(alloc: Global, is_command: bool, ending: Ending) -> Self
        ensures stream { stream_of result ≡ empty_stream is_command ending }
        ensures open { IsTrue result.open }
    {
        ScriptStream {
            open: true,
            is_command,
            bytes: Vec::new(alloc),
            piece_ends: Vec::new(alloc),
            ending,
            at: 0,
        }
    }
}

// What a reading gives: so many bytes, or the end, or a break.
#[derive(Drop)]
pub enum Portion {
    Bytes(usize),
    End,
    Break,
}

// The nearer of two ends, where the other one counts only behind this place.
fn nearer_end(at: usize, end: usize, other: usize) -> usize
    ensures end { result ≡ nearer at end other }
    ensures within { result ≤ end }
{
    if at < other && other < end {
        other
    } else {
        end
    }
}

// The end of the piece that a place is in, of an input of so many bytes.
#[tactic(auto, using(std::proofs::lemmas::List::Sums::fold_more))]
fn piece_end(at: usize, piece_ends: &[usize], len: usize) -> usize
    ensures end { result ≡ fold (nearer at) len piece_ends.now }
    ensures within { result ≤ len }
{
    let mut end = len;
    for other in piece_ends {
        end = nearer_end(at, end, *other);
    }
    end
}

// Fills the slice with the next bytes of the stream, and answers how many.
fn give(stream: &ScriptStream, into: &mut [u8]) -> usize
    ensures count { result ≡ read_count (stream_of stream.now) (length into.old) }
    ensures within { result ≤ length into.old }
    ensures fits { stream.now.at + result < 2 ^ 64 }
    ensures bytes { take result into.new ≡ take result (drop stream.now.at stream.now.bytes.items) }
{
    let end = piece_end(stream.at, &stream.piece_ends, stream.bytes.len());
    let left = stream.bytes.get(stream.at..).unwrap_or(&[]);
    let count = end.saturating_sub(stream.at).min(into.len());
    into[..count].copy_from_slice(&left[..count]);
    count
}

// The place of the stream of this number, if it is one.
fn place_of(streams: &[ScriptStream], id: u64) -> Option<usize>
    ensures place { IfSome result (λ place. (place < length streams.now) × (place + 2 ≡ id)) }
    ensures stream { stream_under id (streams_of streams.now) ≡ stream_at result (streams_of streams.now) }
{
    let place = id.checked_sub(2)? as usize;
    if place < streams.len() {
        Some(place)
    } else {
        None
    }
}

// Whether the stream of this number is a command's.
#[tactic(auto, using(crate::proofs::ScriptLemmas::stream_at_place))]
pub(crate) fn is_of_command(streams: &[ScriptStream], id: u64) -> bool
    ensures { result ≡ is_command_of (stream_under id (streams_of streams.now)) }
{
    match place_of(streams, id) {
        Some(place) => streams[place].is_command,
        None => false,
    }
}

// One reading of the stream of this number; of a number that is no input it breaks. The stream
// itself is left as it was.
#[tactic(auto, using(crate::proofs::ScriptLemmas::stream_at_place))]
pub fn read_next(streams: &[ScriptStream], id: u64, into: &mut [u8]) -> Portion
    ensures portion { result ≡ portion_of (stream_under id (streams_of streams.now)) (length into.old) }
    ensures bytes { (n : ℕ) → result ≡ Portion.Bytes n →
        take n into.new ≡ take n (unread (stream_under id (streams_of streams.now))) }
    ensures within { (n : ℕ) → result ≡ Portion.Bytes n → n ≤ length into.old }
    ensures fits { (n : ℕ) → result ≡ Portion.Bytes n → CanAdvance streams.now id n }
{
    let Some(place) = place_of(streams, id) else {
        return Portion::Break;
    };
    let stream = &streams[place];
    let count = give(stream, into);
    if count > 0 || into.is_empty() {
        return Portion::Bytes(count);
    }
    match stream.ending {
        Ending::Break => Portion::Break,
        Ending::End | Ending::Again(_) => Portion::End,
    }
}

// Where a reading goes on that came to this place of so many bytes.
fn next_place(ending: Ending, len: usize, place: usize) -> usize
    ensures { result ≡ place_after ending len place }
{
    match ending {
        Ending::Again(start) if place == len && start < len => start,
        Ending::Again(_) | Ending::End | Ending::Break => place,
    }
}

// So many more bytes of the stream were read.
pub fn advance(streams: &mut Vec<ScriptStream>, id: u64, count: usize)
    requires { CanAdvance streams.old.items id count }
    ensures streams { streams_of streams.new.items ≡ advanced (id - 2) count (streams_of streams.old.items) }
    ensures open { (j : ℕ) → is_open_in streams.new.items j ≡ is_open_in streams.old.items j }
    ensures count { open_count streams.new.items ≡ open_count streams.old.items }
{
    let stream = &mut streams[id as usize - 2];
    stream.at = next_place(stream.ending, stream.bytes.len(), stream.at + count);
}

// Closes a stream, which keeps its place.
pub fn shut(streams: &mut Vec<ScriptStream>, place: usize)
    requires { IsTrue (open_at (slice_get streams.old.items place)) }
    ensures closes { (j : ℕ) →
        is_open_in streams.new.items j ≡ (if j == place + 2 then false else is_open_in streams.old.items j) }
    ensures count { open_count streams.new.items + 1 ≡ open_count streams.old.items }
    ensures streams { streams_of streams.new.items ≡ streams_of streams.old.items }
{
    let stream = &mut streams[place];
    stream.open = false;
}

// Adds a stream for which there is room.
pub fn add(streams: &mut Vec<ScriptStream>, stream: ScriptStream)
    requires open { IsTrue stream.open }
    requires room { vec_len streams.old < vec_capacity streams.old }
    ensures opens { (j : ℕ) →
        is_open_in streams.new.items j ≡ (if j == vec_len streams.old + 2 then true else is_open_in streams.old.items j) }
    ensures fresh { is_open_in streams.old.items (vec_len streams.old + 2) ≡ false }
    ensures count { open_count streams.new.items ≡ open_count streams.old.items + 1 }
    ensures streams { streams_of streams.new.items ≡ streams_of streams.old.items ++ stream_of stream ∷ [] }
{
    let _pushed = streams.push(stream);
}
