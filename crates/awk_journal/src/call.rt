// What is noted of a call.

use awk_world::{InputKind, Mode, OutputKind, WorldFault};

/// A call of a world: its arguments, and last what it answered. The slice of a reading is as the call
/// left it.
#[derive(Clone, Copy, Drop)]
pub(crate) enum Call<'a> {
    OpenInput(InputKind, &'a [u8], Result<u64, WorldFault>),
    Read(u64, &'a [u8], Result<usize, WorldFault>),
    OpenOutput(OutputKind, &'a [u8], Mode, Result<u64, WorldFault>),
    Write(u64, &'a [u8], Result<usize, WorldFault>),
    Flush(u64, Result<(), WorldFault>),
    Close(u64, i128),
    Run(&'a [u8], Result<i128, WorldFault>),
}
