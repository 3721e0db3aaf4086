// Operands that can't be read now, and files that can't be written.

use crate::usage::assigns;
use awk_check::Report;
use awk_command::CommandLine;
use awk_mistakes::{operand_finding, output_finding, outputs_of, reads_operands};
use std::alloc::AllocError;
use std::fs::{Files, metadata};
use std::io;

/// Why a file can't be read, where that shows without reading it.
fn cause<R: Files + AllocGlobal>(rt: &R, name: &str) -> Result<Option<String>, AllocError> {
    let alloc = rt.alloc();
    match metadata(rt, name) {
        Ok(found) if found.is_dir() => Ok(Some(String::from_str(alloc, "it is a directory")?)),
        Ok(_) => Ok(None),
        Err(error) if error.kind() == io::ErrorKind::OutOfMemory => Err(AllocError),
        Err(error) => Ok(Some(format!(in alloc; "{error}")?)),
    }
}

/// Adds the operands that can't be read now, of a program that reads them.
pub(crate) fn add_operands<R: Files + AllocGlobal>(
    rt: &R,
    line: &CommandLine,
    text: &[u8],
    report: &mut Report,
) -> Result<(), AllocError> {
    let alloc = rt.alloc();
    if line.operands.is_empty() || !reads_operands(alloc, text)? {
        return Ok(());
    }
    for operand in line.operands.as_slice() {
        let name = operand.as_slice();
        if name.is_empty() || name == b"-".as_slice() || assigns(name) {
            continue;
        }
        let found = match std::str::from_utf8(name) {
            Ok(path) => cause(rt, path)?,
            Err(_) => None,
        };
        if let Some(cause) = found {
            report
                .findings
                .push(operand_finding(alloc, name, cause.as_bytes())?)?;
        }
    }
    Ok(())
}

/// Why no file can be made under a name, where its folder shows that.
fn folder_cause<R: Files + AllocGlobal>(rt: &R, name: &str) -> Result<Option<String>, AllocError> {
    let alloc = rt.alloc();
    let folder = match name.as_bytes().iter().rposition(|byte| *byte == b'/') {
        Some(end) if end > 0 => name.as_bytes().get(..end).unwrap_or(b"/"),
        _ => return Ok(None),
    };
    let Ok(folder) = std::str::from_utf8(folder) else {
        return Ok(None);
    };
    match metadata(rt, folder) {
        Ok(found) if found.is_dir() => Ok(None),
        Ok(_) => Ok(Some(String::from_str(alloc, "its folder is none")?)),
        Err(error) if error.kind() == io::ErrorKind::OutOfMemory => Err(AllocError),
        Err(error) => Ok(Some(format!(in alloc; "{error}")?)),
    }
}

/// Adds the files in the program that can't be written now.
pub(crate) fn add_outputs<R: Files + AllocGlobal>(
    rt: &R,
    text: &[u8],
    report: &mut Report,
) -> Result<(), AllocError> {
    let alloc = rt.alloc();
    let outputs = outputs_of(alloc, text)?;
    for output in outputs.as_slice() {
        let Ok(name) = std::str::from_utf8(&output.name) else {
            continue;
        };
        if let Some(cause) = folder_cause(rt, name)? {
            report
                .findings
                .push(output_finding(alloc, output, cause.as_bytes())?)?;
        }
    }
    Ok(())
}
