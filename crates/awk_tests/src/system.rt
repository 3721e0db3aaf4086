// The system as the outside of a run, with a screen and an input of the tests' own.

use awk_streams::{InputKind, Mode, OutputKind, World, WorldFault};
use awk_system::SysWorld;
use std::alloc::Global;
use std::io::{self, IsTerminal, Write};
use std::process::Abort;
use std::test::Fail;

/// A terminal that takes every byte.
#[derive(Drop)]
struct Screen {
    bytes: Vec<u8>,
}

impl Write for Screen {
    fn write(&mut self, bytes: &[u8]) -> io::Result<usize> {
        self.bytes.extend_from_slice(bytes)?;
        Ok(bytes.len())
    }

    fn flush(&mut self) -> io::Result<()> {
        Ok(())
    }
}

impl IsTerminal for Screen {
    fn is_terminal(&self) -> bool {
        true
    }
}

fn make_screen(alloc: Global) -> Screen {
    Screen {
        bytes: Vec::new(alloc),
    }
}

// Standard input, which holds `abc`, is read on under each of its names.
fn expect_two_names<W: World>(rt: &impl Abort, world: &mut W) -> Result<(), WorldFault> {
    let mut into = [0u8; 2];
    let named = world.open_input(InputKind::File, b"/dev/stdin")?;
    assert!(rt; world.read(named, &mut into) == Ok(2));
    assert!(rt; into.as_slice() == b"ab".as_slice());
    let standard = world.open_input(InputKind::Standard, b"")?;
    assert!(rt; world.read(standard, &mut into) == Ok(1));
    assert!(rt; world.read(named, &mut into) == Ok(0));
    assert!(rt; world.close(standard) == 0);
    Ok(())
}

#[test]
fn standard_input_has_two_names(rt: HostRuntime) -> Result<(), Fail> {
    let alloc = rt.alloc();
    let mut world = SysWorld::new(
        alloc,
        &rt,
        b"abc".as_slice(),
        make_screen(alloc),
        rt.stderr(),
    );
    expect_two_names(&rt, &mut world)?;
    Ok(())
}

// What is not there and what is no text can't be opened, and no command is started for it; bytes are taken.
fn expect_refusals<W: World>(rt: &impl Abort, world: &mut W) {
    for name in [b"/no/such/file".as_slice(), b"\xff".as_slice()] {
        assert!(rt; world.open_input(InputKind::File, name) == Err(WorldFault::Failed));
        let opened = world.open_output(OutputKind::File, name, Mode::Append);
        assert!(rt; opened == Err(WorldFault::Failed));
    }
    assert!(rt; world.open_input(InputKind::Command, b"\xff") == Err(WorldFault::Failed));
    let opened = world.open_output(OutputKind::Command, b"\xff", Mode::Truncate);
    assert!(rt; opened == Err(WorldFault::Failed));
    assert!(rt; world.run(b"\xff") == Ok(127));
    assert!(rt; world.write(0, b"ab") == Ok(2));
    assert!(rt; world.flush(0) == Ok(()));
}

#[test]
fn what_the_system_refuses(rt: HostRuntime) -> Result<(), Fail> {
    let alloc = rt.alloc();
    let mut world = SysWorld::new(alloc, &rt, b"".as_slice(), make_screen(alloc), rt.stderr());
    expect_refusals(&rt, &mut world);
    Ok(())
}
