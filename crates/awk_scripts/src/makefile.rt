// The recipes of a makefile, as the shell is given them.

use std::alloc::{AllocError, Global};

/// A script as the shell reads it.
#[derive(Drop)]
pub(crate) struct Script {
    pub(crate) text: Vec<u8>,
    /// Where each byte stands in the file, where it is another place.
    places: Vec<usize>,
    /// Whether places are those of the file themselves.
    is_plain: bool,
}

/// What stands for something that make puts in.
pub(crate) const PUT_IN: u8 = 0;

/// Whether a file with this name is read as a makefile.
pub fn is_makefile(name: &[u8]) -> bool {
    let last = match name.iter().rposition(|byte| *byte == b'/') {
        Some(slash) => name.get(slash.saturating_add(1)..).unwrap_or(b""),
        None => name,
    };
    last.starts_with(b"Makefile")
        || last.starts_with(b"makefile")
        || last.starts_with(b"GNUmakefile")
        || last.ends_with(b".mk")
}

impl Script {
    /// A script of the shell.
    pub(crate) fn of_shell(alloc: Global, text: &[u8]) -> Result<Script, AllocError> {
        Ok(Script {
            text: text.to_vec(alloc)?,
            places: Vec::new(alloc),
            is_plain: true,
        })
    }

    /// The recipes of a makefile.
    pub(crate) fn of_makefile(alloc: Global, text: &[u8]) -> Result<Script, AllocError> {
        let mut scan = RecipeScan {
            script: Script {
                text: Vec::new(alloc),
                places: Vec::new(alloc),
                is_plain: false,
            },
            part: Part::Start,
            goes_on: false,
            in_recipe: false,
            left: 0,
        };
        for (at, byte) in text.iter().enumerate() {
            scan.step(text, at, *byte)?;
        }
        let RecipeScan { script, .. } = scan;
        Ok(script)
    }

    /// Where a byte stands in the file.
    pub(crate) fn place_of(&self, at: usize) -> usize {
        if self.is_plain {
            return at;
        }
        self.places.get(at).copied().unwrap_or(at)
    }

    fn push(&mut self, at: usize, byte: u8) -> Result<(), AllocError> {
        self.text.push(byte)?;
        self.places.push(at)?;
        Ok(())
    }
}

/// Where a scan of a makefile is on its line.
#[derive(Clone, Copy, PartialEq, Eq)]
enum Part {
    Start,
    /// Before the command of a recipe.
    Before,
    Recipe,
    Other,
}

/// A scan for recipes.
#[derive(Drop)]
struct RecipeScan {
    script: Script,
    part: Part,
    /// Whether a backslash stands directly before.
    goes_on: bool,
    /// Whether the line before is of a recipe, and goes on.
    in_recipe: bool,
    /// How many bytes are gone over already.
    left: usize,
}

/// How many bytes a variable of make takes behind its dollar sign.
fn variable_length(behind: &[u8]) -> usize {
    let close = match behind.first() {
        Some(b'(') => b')',
        Some(b'{') => b'}',
        Some(_) => return 1,
        None => return 0,
    };
    match behind.iter().position(|byte| *byte == close) {
        Some(end) => end.saturating_add(1),
        None => behind.len(),
    }
}

impl RecipeScan {
    /// A dollar sign of a recipe.
    fn dollar(&mut self, text: &[u8], at: usize) -> Result<(), AllocError> {
        let behind = text.get(at.saturating_add(1)..).unwrap_or(b"");
        if behind.starts_with(b"$") {
            self.left = 1;
            return self.script.push(at, b'$');
        }
        self.left = variable_length(behind);
        match behind {
            [b'(' | b'{', b'A', b'W', b'K', b')' | b'}', ..] => {
                self.script.push(at, b'a')?;
                self.script.push(at, b'w')?;
                self.script.push(at, b'k')
            }
            _ => self.script.push(at, PUT_IN),
        }
    }

    /// The end of a line.
    fn newline(&mut self, at: usize) -> Result<(), AllocError> {
        self.in_recipe = self.goes_on && self.part == Part::Recipe;
        self.part = Part::Start;
        self.goes_on = false;
        self.script.push(at, b'\n')
    }

    /// The first byte of a line.
    fn start(&mut self, text: &[u8], at: usize, byte: u8) -> Result<(), AllocError> {
        match byte {
            b'\t' if self.in_recipe => {
                self.part = Part::Recipe;
                Ok(())
            }
            b'\t' => {
                self.part = Part::Before;
                Ok(())
            }
            _ if self.in_recipe => self.recipe(text, at, byte),
            _ => {
                self.part = Part::Other;
                Ok(())
            }
        }
    }

    /// A byte of a recipe.
    fn recipe(&mut self, text: &[u8], at: usize, byte: u8) -> Result<(), AllocError> {
        self.part = Part::Recipe;
        self.goes_on = byte == b'\\' && !self.goes_on;
        match byte {
            b'$' => self.dollar(text, at),
            PUT_IN => Ok(()),
            _ => self.script.push(at, byte),
        }
    }

    fn step(&mut self, text: &[u8], at: usize, byte: u8) -> Result<(), AllocError> {
        if self.left > 0 {
            self.left -= 1;
            return Ok(());
        }
        match (self.part, byte) {
            (_, b'\n') => self.newline(at),
            (Part::Start, _) => self.start(text, at, byte),
            (Part::Before, b'@' | b'-' | b'+' | b' ' | b'\t') | (Part::Other, _) => Ok(()),
            (Part::Before | Part::Recipe, _) => self.recipe(text, at, byte),
        }
    }
}
