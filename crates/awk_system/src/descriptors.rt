// The descriptors 0 to 2 where the process was started without them.

ghost use Rattle.std.specs.Prelude.{◌≤ℤ◌, IfSome, pos};
ghost use Rattle.std.specs.Fd.{owned_raw_fd};

use std::fs::{File, Files};
use std::io::pipe;
use std::os::fd::{AsRawFd, OwnedFd};

/// What can be opened nearly anywhere, and neither read nor written: a directory.
const NO_STREAM: &str = "/";

/// The greatest descriptor of a standard stream.
const STANDARD_ERROR: i32 = 2;

/// Descriptors of standard streams that this process was started without. As long as they are held, no file and no pipe is
/// given one of them: a write to such a standard output fails, and so does a read of such a standard input, which is empty only
/// where the directory can't be opened. Commands don't have them.
#[derive(Drop)]
pub struct HeldDescriptors {
    first: Option<OwnedFd>,
    second: Option<OwnedFd>,
    third: Option<OwnedFd>,
}

/// A descriptor that can't be written: of a directory, or, where that can't be opened, the reading end of a pipe without a
/// writer.
fn open_no_stream<R: Files<File = File>>(runtime: &R) -> Option<OwnedFd> {
    match File::open(runtime, NO_STREAM) {
        Ok(file) => Some(OwnedFd::from(file)),
        Err(_) => {
            let (reader, _writer) = pipe(runtime).ok()?;
            Some(OwnedFd::from(reader))
        }
    }
}

/// Takes the least descriptor that is free, where it is one of a standard stream.
fn hold_one<R: Files<File = File>>(runtime: &R) -> Option<OwnedFd>
    ensures { IfSome result (λ descriptor. owned_raw_fd descriptor ≤ℤ pos 2) }
{
    let descriptor = open_no_stream(runtime)?;
    if descriptor.as_raw_fd() > STANDARD_ERROR {
        return None;
    }
    Some(descriptor)
}

impl HeldDescriptors {
    /// Holds those of the descriptors 0 to 2 that are free.
    pub fn new<R: Files<File = File>>(runtime: &R) -> HeldDescriptors {
        let first = hold_one(runtime);
        let second = first.as_ref().and_then(|_| hold_one(runtime));
        let third = second.as_ref().and_then(|_| hold_one(runtime));
        HeldDescriptors {
            first,
            second,
            third,
        }
    }
}
