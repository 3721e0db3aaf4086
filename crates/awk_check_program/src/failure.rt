// Why nothing was checked.

use std::alloc::{AllocError, AllocFailed};
use std::io;

/// Why nothing was checked.
#[derive(Drop)]
pub(crate) enum Failure {
    /// It is told already.
    Told,
    Failed(io::Error),
}

impl From<io::Error> for Failure {
    fn from(error: io::Error) -> Failure {
        Failure::Failed(error)
    }
}

impl From<AllocError> for Failure {
    fn from(_error: AllocError) -> Failure {
        Failure::Failed(io::Error::from(io::ErrorKind::OutOfMemory))
    }
}

impl<T: Drop> From<AllocFailed<T>> for Failure {
    fn from(_error: AllocFailed<T>) -> Failure {
        Failure::Failed(io::Error::from(io::ErrorKind::OutOfMemory))
    }
}
