// Where in its program a run ended, and which calls were active.

use crate::part_nodes::{PartNodes, part_nodes};
use crate::parts::{Part, parts_of};
use crate::trace::{Ended, Halted, Trace};
use awk_findings::calls::name_of;
use awk_findings::{Finding, Severity};
use awk_lex::lexer::tokens;
use awk_lex::refusal::{Refusal, RefusalCode};
use awk_lex::token::Token;
use awk_lex::words::is_name;
use awk_resolve::resolve;
use awk_run::{Fault, Outcome, fault_line};
use awk_semantics::Halt;
use awk_syntax::parse;
use std::alloc::{AllocError, Global};

/// What the awk's own lines begin with.
const AWK: &str = "awk: ";

/// A program with the places of its parts, and with its nodes by them.
#[derive(Drop)]
pub(crate) struct Outline {
    tokens: Vec<Token>,
    pub(crate) parts: Vec<Part>,
    nodes: PartNodes,
}

/// The outline of a program; none where its nodes can't be told.
fn read_outline(alloc: Global, text: &[u8]) -> Result<Option<Outline>, Refusal> {
    let tokens = tokens(alloc, text)?;
    let tree = parse(alloc, &tokens)?;
    let plan = resolve(alloc, &tree)?;
    let parts = parts_of(alloc, &tokens)?;
    let Some(nodes) = part_nodes(alloc, &tree.items, &plan, parts.len())? else {
        return Ok(None);
    };
    Ok(Some(Outline {
        tokens,
        parts,
        nodes,
    }))
}

impl Outline {
    /// The outline of a program; none where its nodes can't be told.
    pub(crate) fn of(alloc: Global, text: &[u8]) -> Result<Option<Outline>, AllocError> {
        match read_outline(alloc, text) {
            Ok(outline) => Ok(outline),
            Err(refusal) if refusal.code == RefusalCode::OutOfMemory => Err(AllocError),
            Err(_) => Ok(None),
        }
    }

    /// The node at which a part begins, where it is a statement or prints.
    pub(crate) fn head_of(&self, part: usize) -> Option<usize> {
        self.nodes.heads.get(part).copied().flatten()
    }

    /// The part that a node is of.
    fn part_at(&self, node: u32) -> Option<&Part> {
        let number = self.nodes.parts.get(node as usize).copied().flatten()?;
        self.parts.get(number)
    }

    /// The name of the function that a node is of.
    fn function_at(&self, node: u32) -> Option<&[u8]> {
        let at = self.part_at(node)?.function?;
        name_of(self.tokens.get(at)?)
    }
}

/// Where the machine halted, if that ended the run.
fn halted_for<'a>(trace: &'a Trace, outcome: &Outcome) -> Option<&'a Halted> {
    let halted = trace.halted.as_ref()?;
    match (halted.halt, outcome) {
        (Halt::Fault(_), Outcome::Fault(_))
        | (Halt::OutOfSteps, Outcome::Stopped)
        | (Halt::Next, Outcome::Fault(Fault::NextWithoutRecord)) => Some(halted),
        _ => None,
    }
}

/// Why a run ended, if not by itself.
fn cause_of(outcome: &Outcome) -> Option<&'static str> {
    match outcome {
        Outcome::Ended(_) => None,
        Outcome::Fault(fault) => fault_line(*fault).strip_prefix(AWK),
        Outcome::Stopped => Some("stopped: step limit reached"),
    }
}

/// What is told of a node.
fn finding_at(
    alloc: Global,
    outline: &Outline,
    node: u32,
    severity: Severity,
    message: &[&[u8]],
) -> Result<Finding, AllocError> {
    let place = outline.part_at(node).map(|part| part.place);
    let mut finding = Finding::new(alloc, place, message, b"")?;
    finding.severity = severity;
    Ok(finding)
}

/// What is told without a place.
fn plain_note(alloc: Global, message: &[&[u8]]) -> Result<Finding, AllocError> {
    let mut finding = Finding::new(alloc, None, message, b"")?;
    finding.severity = Severity::Note;
    Ok(finding)
}

/// Adds where the machine halted, and in which function.
fn add_place(
    alloc: Global,
    findings: &mut Vec<Finding>,
    outline: &Outline,
    node: u32,
    cause: &[u8],
) -> Result<(), AllocError> {
    let finding = match outline.function_at(node) {
        Some(name) => {
            let message = [cause, b", in ".as_slice(), name];
            finding_at(alloc, outline, node, Severity::Error, &message)?
        }
        None => finding_at(alloc, outline, node, Severity::Error, &[cause])?,
    };
    Ok(findings.push(finding)?)
}

/// Adds the calls that were active, the newest first.
fn add_callers(
    alloc: Global,
    findings: &mut Vec<Finding>,
    outline: &Outline,
    halted: &Halted,
) -> Result<(), AllocError> {
    let mut callee = halted.at;
    for caller in halted.callers.as_slice() {
        let name = outline.function_at(callee).unwrap_or(b"a function");
        let message = [name, b" is called here".as_slice()];
        findings.push(finding_at(alloc, outline, *caller, Severity::Note, &message)?)?;
        callee = *caller;
    }
    let others = halted.depth.saturating_sub(halted.callers.len());
    if others > 0 {
        let message = format!(in alloc; "{others} more calls were active")?;
        findings.push(plain_note(alloc, &[message.as_bytes()])?)?;
    }
    Ok(())
}

/// Adds what stood in awk's own variables.
fn add_variables(
    alloc: Global,
    findings: &mut Vec<Finding>,
    ended: &Ended,
) -> Result<(), AllocError> {
    let message = [
        b"FILENAME \"".as_slice(),
        ended.filename.as_slice(),
        b"\", FNR ",
        ended.fnr.as_slice(),
        b", NR ",
        ended.nr.as_slice(),
    ];
    Ok(findings.push(plain_note(alloc, &message)?)?)
}

/// Whether an operand assigns to a name.
fn assigns(operand: &[u8]) -> bool {
    match operand.iter().position(|byte| *byte == b'=') {
        Some(end) => is_name(operand.get(..end).unwrap_or(b"")),
        None => false,
    }
}

/// Adds the operand that couldn't be read or assigned, where that ended the run.
fn add_operand(
    alloc: Global,
    findings: &mut Vec<Finding>,
    ended: &Ended,
) -> Result<(), AllocError> {
    let operand = ended.operand.as_slice();
    let told = match ended.outcome {
        _ if operand.is_empty() => return Ok(()),
        Outcome::Fault(Fault::InputNotReadable) if !assigns(operand) => {
            b"the operand that couldn't be read is ".as_slice()
        }
        Outcome::Fault(Fault::AssignmentRefused) if assigns(operand) => {
            b"the operand that couldn't be assigned is "
        }
        _ => return Ok(()),
    };
    Ok(findings.push(plain_note(alloc, &[told, operand])?)?)
}

/// What is told of a run that didn't end by itself: where that was, which calls were active, and what stood in FILENAME,
/// FNR and NR.
pub(crate) fn place_findings(
    alloc: Global,
    outline: &Outline,
    trace: &Trace,
    ended: &Ended,
) -> Result<Vec<Finding>, AllocError> {
    let mut findings = Vec::new(alloc);
    let Some(cause) = cause_of(&ended.outcome) else {
        return Ok(findings);
    };
    match halted_for(trace, &ended.outcome) {
        Some(halted) => {
            add_place(alloc, &mut findings, outline, halted.at, cause.as_bytes())?;
            add_callers(alloc, &mut findings, outline, halted)?;
        }
        None => {
            let message = [cause.as_bytes(), b", while no statement ran".as_slice()];
            let mut finding = plain_note(alloc, &message)?;
            finding.severity = Severity::Error;
            findings.push(finding)?;
        }
    }
    add_operand(alloc, &mut findings, ended)?;
    add_variables(alloc, &mut findings, ended)?;
    Ok(findings)
}
