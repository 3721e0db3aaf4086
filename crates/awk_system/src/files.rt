// How files are opened.

ghost use Rattle.std.specs.Prelude.{◌≡◌};
ghost use Rattle.awk_system.specs.definitions.Files.{options_for as options_as_told};

use awk_world::Mode;
use std::fs::OpenOptions;

/// How a file is opened to be written: it is made where it isn't there, and else emptied, or written to
/// behind what it holds.
pub(crate) fn options_for(mode: Mode) -> OpenOptions
    ensures { result ≡ options_as_told mode }
{
    let mut options = OpenOptions::new();
    match mode {
        Mode::Truncate => options.write(true).truncate(true),
        Mode::Append => options.append(true),
    };
    options.create(true);
    options
}
