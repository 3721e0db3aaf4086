// Calls of the system, begun again where a signal interrupts them, and what their errors are to a world.

ghost use Rattle.std.specs.Prelude.{◌≡◌, ◌≤◌, ◌↔◌, IfOk, MatchResult, length};
ghost use Rattle.std.specs.IoError.{error_kind};
ghost use Rattle.std.specs.Io.KnownBytes.{Keeps, ReadConsumes, WriteAppends};
ghost use Rattle.std.specs.Str.{IsUtf8};

use awk_world::WorldFault;
use std::io::{self, ErrorKind, Read, Write};

/// Refused memory is told from every other failure.
pub(crate) fn fault_of(error: io::Error) -> WorldFault
    ensures { result ≡ WorldFault.Memory ↔ (error_kind error ≡ ErrorKind.OutOfMemory) }
{
    match error.kind() {
        ErrorKind::OutOfMemory => WorldFault::Memory,
        _ => WorldFault::Failed,
    }
}

/// A name or a command as a text. `Failed`: it is not UTF-8.
pub(crate) fn text_of(bytes: &[u8]) -> Result<&str, WorldFault>
    ensures { MatchResult result (λ text. (text.now ≡ bytes.now) × IsUtf8 bytes.now)
        (λ fault. (fault ≡ WorldFault.Failed) × ¬ (IsUtf8 bytes.now)) }
{
    std::str::from_utf8(bytes).map_err(|_| WorldFault::Failed)
}

/// One read, begun again where a signal interrupts it.
pub(crate) fn read_from<R: Read>(reader: &mut R, into: &mut [u8]) -> Result<usize, WorldFault>
    ensures count { IfOk result (λ n. n ≤ length into.old) }
    ensures bytes { ReadConsumes (R.remaining reader.old) (R.remaining reader.new) result into.new }
{
    for _ in 0..u64::MAX {
        match reader.read(into) {
            Ok(count) => return Ok(count),
            Err(error) => {
                if error.kind() != ErrorKind::Interrupted {
                    return Err(fault_of(error));
                }
            }
        }
    }
    Err(WorldFault::Failed)
}

/// One write, begun again where a signal interrupts it.
pub(crate) fn write_to<W: Write>(writer: &mut W, bytes: &[u8]) -> Result<usize, WorldFault>
    ensures count { IfOk result (λ n. n ≤ length bytes.now) }
    ensures bytes { WriteAppends (W.contents writer.old) (W.contents writer.new) result bytes.now }
{
    for _ in 0..u64::MAX {
        match writer.write(bytes) {
            Ok(count) => return Ok(count),
            Err(error) => {
                if error.kind() != ErrorKind::Interrupted {
                    return Err(fault_of(error));
                }
            }
        }
    }
    Err(WorldFault::Failed)
}

/// One flush, begun again where a signal interrupts it.
pub(crate) fn flush_of<W: Write>(writer: &mut W) -> Result<(), WorldFault>
    ensures bytes { Keeps (W.contents writer.old) (W.contents writer.new) }
{
    for _ in 0..u64::MAX {
        match writer.flush() {
            Ok(()) => return Ok(()),
            Err(error) => {
                if error.kind() != ErrorKind::Interrupted {
                    return Err(fault_of(error));
                }
            }
        }
    }
    Err(WorldFault::Failed)
}
