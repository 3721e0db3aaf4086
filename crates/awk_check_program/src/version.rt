// Which version this is, and of what it was built.

use crate::files::read_file;
use std::alloc::{AllocError, Global};
use std::env::current_exe;
use std::fs::Files;
use std::io;

/// The version of the awk and of its checker. Manual pages take it from here.
pub(crate) const VERSION: &str = "0";

/// Where the file that tells of the build stands, from the folder above that of the program on: in a pack, and installed.
const ORIGINS: [&str; 2] = ["/ORIGIN", "/share/doc/awk-proved/ORIGIN"];

/// The folder above that of a file.
fn folder_above(path: &str) -> &[u8] {
    let mut folder = path.as_bytes();
    for _ in 0..2 {
        let end = folder.iter().rposition(|byte| *byte == b'/').unwrap_or(0);
        folder = folder.get(..end).unwrap_or(b"");
    }
    folder
}

/// The lines that tell the commit, the kit and the logic of the build, where a file with them stands.
pub(crate) fn origin<R: Files + Input + AllocGlobal>(rt: &R) -> Result<Vec<u8>, AllocError> {
    let alloc = rt.alloc();
    let Ok(program) = current_exe(rt) else {
        return Ok(Vec::new(alloc));
    };
    for place in ORIGINS {
        let mut name = folder_above(program.as_str()).to_vec(alloc)?;
        name.extend_from_slice(place.as_bytes())?;
        match read_file(rt, &name) {
            Ok(lines) => return Ok(lines),
            Err(error) if error.kind() == io::ErrorKind::OutOfMemory => return Err(AllocError),
            Err(_) => {}
        }
    }
    Ok(Vec::new(alloc))
}
