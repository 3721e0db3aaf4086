// Programs that are checked, one after the other.

use crate::failure::Failure;
use crate::files::{ProgramText, joined_files, named_text, read_script};
use crate::operands::{add_operands, add_outputs};
use awk_check::{
    Finding, Report, Severity, Stage, assignment_finding, check, check_pieces, derive, status,
};
use awk_command::{CommandLine, ProgramSource};
use awk_run::Assignment;
use awk_sarif::Checked;
use awk_scripts::{Embedded, is_makefile, programs_in};
use std::alloc::{AllocError, Global};
use std::fs::Files;

/// The status where a program is refused or can't be read.
const REFUSED: u8 = 2;

/// What was checked, and the status so far: the greatest of all.
#[derive(Drop)]
pub(crate) struct Checks {
    pub(crate) all: Vec<Checked>,
    pub(crate) status: u8,
}

/// The names that the command line assigns to.
fn assigned_names(alloc: Global, line: &CommandLine) -> Result<Vec<Vec<u8>>, AllocError> {
    let mut names = Vec::new(alloc);
    for assignment in line.pre.as_slice() {
        names.push(assignment.name.as_slice().to_vec(alloc)?)?;
    }
    for operand in line.operands.as_slice() {
        if let Some(at) = operand.iter().position(|byte| *byte == b'=') {
            names.push(operand.get(..at).unwrap_or(b"").to_vec(alloc)?)?;
        }
    }
    Ok(names)
}

/// What is told of a program that is accepted and of the assignments before it.
fn add_assignments(
    alloc: Global,
    line: &[Assignment],
    report: &mut Report,
) -> Result<(), AllocError> {
    for assignment in line {
        if let Some(finding) = assignment_finding(alloc, &assignment.name, &assignment.text)? {
            report.findings.push(finding)?;
        }
    }
    Ok(())
}

/// The text of the program of a command line.
pub(crate) fn program_text<R: Files + Input + Eprint + AllocGlobal>(
    rt: &R,
    source: ProgramSource,
) -> Result<ProgramText, Failure> {
    match source {
        ProgramSource::Text(text) => named_text(rt, b"program", text),
        ProgramSource::Files(names) => joined_files(rt, &names),
    }
}

/// What is told where the shell puts something into a program.
fn unknown_finding(alloc: Global, program: &Embedded) -> Result<Finding, AllocError> {
    let told = b"not checked: the shell puts something of its own into this program".as_slice();
    let mut finding = Finding::new(
        alloc,
        Some(program.word),
        &[told],
        b"give it by -v name=text",
    )?;
    finding.severity = Severity::Note;
    Ok(finding)
}

impl Checks {
    pub(crate) fn new(alloc: Global) -> Checks {
        Checks {
            all: Vec::new(alloc),
            status: 0,
        }
    }

    fn add(&mut self, program: ProgramText, findings: Vec<Finding>) -> Result<(), AllocError> {
        let ProgramText { text, sources } = program;
        Ok(
            self.all.push(Checked {
                sources,
                text,
                findings,
            })?,
        )
    }

    /// The program of a command line.
    pub(crate) fn check_line<R: Files + AllocGlobal>(
        &mut self,
        rt: &R,
        line: &CommandLine,
        program: ProgramText,
    ) -> Result<(), Failure> {
        let alloc = rt.alloc();
        let given = assigned_names(alloc, line)?;
        let mut report = check(alloc, &program.text, &given)?;
        if report.refusal.is_none() {
            add_assignments(alloc, &line.pre, &mut report)?;
            add_operands(rt, line, &program.text, &mut report)?;
            add_outputs(rt, &program.text, &mut report)?;
        }
        self.status = status(&report);
        Ok(self.add(program, report.findings)?)
    }

    /// Whether that program may run on pieces of its input.
    pub(crate) fn check_pieces(
        &mut self,
        alloc: Global,
        line: &CommandLine,
        program: ProgramText,
    ) -> Result<(), Failure> {
        let report = check_pieces(alloc, &program.text, &line.pre, &line.operands, line.limit)?;
        self.status = report.status;
        Ok(self.add(program, report.findings)?)
    }

    /// The program of a stage, of that program, or an empty text where there is none.
    pub(crate) fn derive(
        &mut self,
        alloc: Global,
        line: &CommandLine,
        program: ProgramText,
        stage: Stage,
    ) -> Result<Vec<u8>, Failure> {
        let report = derive(
            alloc,
            &program.text,
            &line.pre,
            &line.operands,
            line.limit,
            stage,
        )?;
        self.status = report.status;
        self.add(program, report.findings)?;
        Ok(report.text)
    }

    /// Something can't be read, which is told; what is behind it is checked.
    fn pass_over(&mut self, failure: Failure) -> Result<(), Failure> {
        match failure {
            Failure::Told => {
                self.status = REFUSED;
                Ok(())
            }
            Failure::Failed(error) => Err(Failure::Failed(error)),
        }
    }

    /// A program in a script, and what is told of it there.
    fn check_embedded(
        &mut self,
        alloc: Global,
        program: &Embedded,
        findings: &mut Vec<Finding>,
    ) -> Result<(), AllocError> {
        if !program.is_whole {
            return Ok(findings.push(unknown_finding(alloc, program)?)?);
        }
        let report = check(alloc, &program.text, &program.given)?;
        self.status = self.status.max(status(&report));
        let mut placed = program.placed(alloc, report.findings)?;
        Ok(findings.append(&mut placed)?)
    }

    /// The programs in a script.
    fn check_script(
        &mut self,
        alloc: Global,
        name: &[u8],
        script: ProgramText,
    ) -> Result<(), AllocError> {
        let mut findings = Vec::new(alloc);
        let programs = programs_in(alloc, &script.text, is_makefile(name))?;
        for program in programs.as_slice() {
            self.check_embedded(alloc, program, &mut findings)?;
        }
        self.add(script, findings)
    }

    /// Scripts, one after the other.
    pub(crate) fn check_scripts<R: Files + Input + Eprint + AllocGlobal>(
        &mut self,
        rt: &R,
        names: &[Vec<u8>],
    ) -> Result<(), Failure> {
        for name in names {
            match read_script(rt, name) {
                Ok(text) => {
                    let script = named_text(rt, name, text)?;
                    self.check_script(rt.alloc(), name, script)?;
                }
                Err(failure) => self.pass_over(failure)?,
            }
        }
        Ok(())
    }

    /// Files, each of which is a program.
    pub(crate) fn check_files<R: Files + Input + Eprint + AllocGlobal>(
        &mut self,
        rt: &R,
        names: &[Vec<u8>],
    ) -> Result<(), Failure> {
        let alloc = rt.alloc();
        for at in 0..names.len() {
            let file = names.get(at..at.saturating_add(1)).unwrap_or(&[]);
            match joined_files(rt, file) {
                Ok(program) => {
                    let report = check(alloc, &program.text, &[])?;
                    self.status = self.status.max(status(&report));
                    self.add(program, report.findings)?;
                }
                Err(failure) => self.pass_over(failure)?,
            }
        }
        Ok(())
    }
}
