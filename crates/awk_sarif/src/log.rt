// A log of what was found.

use crate::model::{Driver, Log, Message, Rule, Run, Told, Tool};
use crate::places::Listing;
use awk_findings::{Finding, Lines, Severity, Source};
use indexmap::IndexSet;
use std::alloc::{AllocError, Global};

const SCHEMA: &str = "https://json.schemastore.org/sarif-2.1.0.json";

/// A program that was checked.
#[derive(Drop)]
pub struct Checked {
    /// The files that its text is joined of.
    pub sources: Vec<Source>,
    pub text: Vec<u8>,
    pub findings: Vec<Finding>,
}

/// A log that is made.
#[derive(Drop)]
struct Making {
    alloc: Global,
    rules: Vec<Rule>,
    /// The names of the rules.
    known: IndexSet<Vec<u8>>,
    told: Vec<Told>,
}

/// The front of a message, up to its first colon: what is told alike of each program.
fn kind_of(message: &[u8]) -> &[u8] {
    match message.iter().position(|byte| *byte == b':') {
        Some(end) => message.get(..end).unwrap_or(message),
        None => message,
    }
}

/// The name of a rule: the words of a kind in small letters, with hyphens between them.
fn rule_name(alloc: Global, kind: &[u8]) -> Result<Vec<u8>, AllocError> {
    let mut name = Vec::new(alloc);
    let mut is_apart = false;
    for byte in kind {
        if !byte.is_ascii_alphanumeric() {
            is_apart = !name.is_empty();
            continue;
        }
        if is_apart {
            name.push(b'-')?;
            is_apart = false;
        }
        name.push(byte.to_ascii_lowercase())?;
    }
    Ok(name)
}

fn level_of(severity: Severity) -> &'static str {
    match severity {
        Severity::Error => "error",
        Severity::Warning => "warning",
        Severity::Note => "note",
    }
}

fn add_line(text: &mut Vec<u8>, label: &[u8], line: &[u8]) -> Result<(), AllocError> {
    if line.is_empty() {
        return Ok(());
    }
    text.extend_from_slice(label)?;
    text.extend_from_slice(line)
}

/// What is told, with what could stand there and what to write instead.
fn message_of(alloc: Global, finding: &Finding) -> Result<Message, AllocError> {
    let mut text = finding.message.as_slice().to_vec(alloc)?;
    add_line(&mut text, b"\nexpected: ", &finding.expected)?;
    add_line(&mut text, b"\ninstead: ", &finding.advice)?;
    Ok(Message {
        text: String::from_utf8_lossy(alloc, &text)?,
    })
}

impl Making {
    /// The name of the kind of a message, which is told among the rules.
    fn rule(&mut self, message: &[u8]) -> Result<String, AllocError> {
        let kind = kind_of(message);
        let name = rule_name(self.alloc, kind)?;
        let id = String::from_utf8_lossy(self.alloc, &name)?;
        if !self.known.contains(name.as_slice()) {
            self.rules.push(Rule {
                id: String::from_utf8_lossy(self.alloc, &name)?,
                short_description: Message {
                    text: String::from_utf8_lossy(self.alloc, kind)?,
                },
            })?;
            self.known.insert(name)?;
        }
        Ok(id)
    }

    fn add(&mut self, listing: &Listing, finding: &Finding) -> Result<(), AllocError> {
        let mut locations = Vec::new(self.alloc);
        locations.push(listing.location(self.alloc, finding.place, None)?)?;
        let mut related_locations = Vec::new(self.alloc);
        if let Some(other) = finding.other {
            let message = Message {
                text: String::from_utf8_lossy(self.alloc, other.message)?,
            };
            let place = Some(other.place);
            related_locations.push(listing.location(self.alloc, place, Some(message))?)?;
        }
        let rule_id = self.rule(&finding.message)?;
        self.told.push(Told {
            rule_id,
            level: level_of(finding.severity),
            message: message_of(self.alloc, finding)?,
            locations,
            related_locations,
        })?;
        Ok(())
    }

    fn add_program(&mut self, checked: &Checked) -> Result<(), AllocError> {
        let listing = Listing {
            sources: &checked.sources,
            text: &checked.text,
            lines: Lines::of(self.alloc, &checked.text)?,
        };
        for finding in checked.findings.as_slice() {
            self.add(&listing, finding)?;
        }
        Ok(())
    }
}

/// The log of a run of the checker in this version over these programs, as JSON.
///
/// # Errors
///
/// Where memory is refused.
pub fn sarif_of(
    alloc: Global,
    version: &'static str,
    all: &[Checked],
) -> Result<String, AllocError> {
    let mut making = Making {
        alloc,
        rules: Vec::new(alloc),
        known: IndexSet::new(alloc),
        told: Vec::new(alloc),
    };
    for checked in all {
        making.add_program(checked)?;
    }
    let Making { rules, told, .. } = making;
    let driver = Driver {
        name: "awk-check",
        version,
        rules,
    };
    let mut runs = Vec::new(alloc);
    runs.push(Run {
        tool: Tool { driver },
        column_kind: "unicodeCodePoints",
        results: told,
    })?;
    let log = Log {
        schema: SCHEMA,
        version: "2.1.0",
        runs,
    };
    match serde_json::to_string(alloc, &log) {
        Ok(text) => Ok(text),
        Err(_) => Err(AllocError),
    }
}
