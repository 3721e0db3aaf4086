// A world whose calls are noted in a journal.
ghost use Rattle.std.specs.Prelude.{◌≡◌, ℕ, false, []};
ghost use Rattle.awk_world.specs.WorldState.{WorldState};
ghost use Rattle.awk_journal.specs.Adds.{Adds, with_log};

use crate::call::Call;
use crate::journal::Journal;
use awk_world::{InputKind, Mode, OutputKind, World, WorldFault};
use std::marker::{Brand, PhantomData};

/// What a world was when a log of it was begun.
pub trait Beginning {
    ghost state: { WorldState };

    /// Which reference leads to the world, where it is lent.
    ghost place: { ℕ };
}

impl Beginning for Brand {
    ghost state = { with_log (λ _. false) [] [] };

    ghost place = { 0 };
}

/// A world that is not lent, before the first call of it.
pub struct AtStart;

impl Beginning for AtStart {
    ghost state = { with_log (λ _. false) [] [] };

    ghost place = { 0 };
}

/// A world, and the log of the calls that were made of it since the log was begun. Each call is made of
/// the world once and with these arguments, and what the world answers is the answer; the log exists in
/// proofs alone, and takes neither bytes nor time.
///
/// A world that keeps a log of its own has added to it just what this one holds.
pub struct Logged<W: World, B: Beginning> {
    world: W,
    journal: Journal,
    since: PhantomData<B>,
    ghost placed: { W.place world ≡ B.place },
    ghost tied: { W.is_logged → Adds B.state journal.log journal.failures (W.state world) },
}

impl<W: World, B: Beginning> Logged<W, B> {
    /// Begins a log of a world.
    pub fn new(world: W) -> Self
        requires placed { W.place world ≡ B.place }
        requires tied { W.is_logged → Adds B.state [] [] (W.state world) }
        ensures world { result.world ≡ world }
        ensures log { result.journal.log ≡ [] }
        ensures failures { result.journal.failures ≡ [] }
    {
        Logged {
            world,
            journal: Journal::new(),
            since: PhantomData,
        }
    }

    /// Ends the log, and gives the world back.
    pub fn into_world(self) -> W
        ensures { result ≡ self.world }
    {
        let Logged {
            world,
            journal: _,
            since: _,
        } = self;
        world
    }
}

impl<W: World, B: Beginning> World for Logged<W, B> {
    ghost is_logged = { Unit {0} };

    ghost state = { λ logged. with_log (W.state logged.world).is_open logged.journal.log logged.journal.failures };

    ghost place = { λ logged. W.place logged.world };

    ghost standard_open = { λ logged id small. W.standard_open logged.world id small };

    fn open_input(&mut self, kind: InputKind, name: &[u8]) -> Result<u64, WorldFault> {
        let answer = self.world.open_input(kind, name);
        self.journal.note(&Call::OpenInput(kind, name, answer));
        answer
    }

    fn read(&mut self, id: u64, into: &mut [u8]) -> Result<usize, WorldFault> {
        let answer = self.world.read(id, into);
        self.journal.note(&Call::Read(id, into, answer));
        answer
    }

    fn open_output(
        &mut self,
        kind: OutputKind,
        name: &[u8],
        mode: Mode,
    ) -> Result<u64, WorldFault> {
        let answer = self.world.open_output(kind, name, mode);
        self.journal
            .note(&Call::OpenOutput(kind, name, mode, answer));
        answer
    }

    fn write(&mut self, id: u64, bytes: &[u8]) -> Result<usize, WorldFault> {
        let answer = self.world.write(id, bytes);
        self.journal.note(&Call::Write(id, bytes, answer));
        answer
    }

    fn output_buffer_size(&self, id: u64) -> usize {
        self.world.output_buffer_size(id)
    }

    fn flush(&mut self, id: u64) -> Result<(), WorldFault> {
        let answer = self.world.flush(id);
        self.journal.note(&Call::Flush(id, answer));
        answer
    }

    fn close(&mut self, id: u64) -> i128 {
        let answer = self.world.close(id);
        self.journal.note(&Call::Close(id, answer));
        answer
    }

    fn run(&mut self, command: &[u8]) -> Result<i128, WorldFault> {
        let answer = self.world.run(command);
        self.journal.note(&Call::Run(command, answer));
        answer
    }
}
