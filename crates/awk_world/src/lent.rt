// A world that is lent: each call goes to the world behind the reference.

use crate::world::{InputKind, Mode, OutputKind, World, WorldFault};

impl<W: World> World for &mut W {
    ghost is_logged = { W.is_logged };

    ghost state = { λ lent. W.state lent.now };

    ghost place = { λ lent. lent.ghost_name };

    ghost standard_open = { λ lent id small. W.standard_open lent.now id small };

    fn open_input(&mut self, kind: InputKind, name: &[u8]) -> Result<u64, WorldFault> {
        (**self).open_input(kind, name)
    }

    fn read(&mut self, id: u64, into: &mut [u8]) -> Result<usize, WorldFault> {
        (**self).read(id, into)
    }

    fn open_output(
        &mut self,
        kind: OutputKind,
        name: &[u8],
        mode: Mode,
    ) -> Result<u64, WorldFault> {
        (**self).open_output(kind, name, mode)
    }

    fn write(&mut self, id: u64, bytes: &[u8]) -> Result<usize, WorldFault> {
        (**self).write(id, bytes)
    }

    fn output_buffer_size(&self, id: u64) -> usize {
        (**self).output_buffer_size(id)
    }

    fn flush(&mut self, id: u64) -> Result<(), WorldFault> {
        (**self).flush(id)
    }

    fn close(&mut self, id: u64) -> i128 {
        (**self).close(id)
    }

    fn run(&mut self, command: &[u8]) -> Result<i128, WorldFault> {
        (**self).run(command)
    }
}
