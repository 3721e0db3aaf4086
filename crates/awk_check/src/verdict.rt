// The verdict on a program, and what is told of it.

ghost use Rattle.std.specs.Prelude.{◌≡◌, List, [], IfOk, IfSome, IfNone, IsSome, IsNone};
ghost use Rattle.awk_lex.specs.Refused.{IsOutOfMemory};
ghost use Rattle.awk_grammar.specs.Tree.{Item};
ghost use Rattle.awk_run.specs.Accepted.{Accepted, RefusedFor};

use crate::refused::refused_finding;
use awk_findings::{Finding, find_warnings};
use awk_lex::lexer::tokens;
use awk_lex::refusal::Refusal;
use awk_mistakes::find_mistakes;
use awk_run::read_program;
use std::alloc::{AllocError, Global};

/// What is told of a program.
#[derive(Drop)]
pub struct Report {
    /// Why and on which line the awk refuses it, if it does.
    pub refusal: Option<Refusal>,
    /// Of a program that is refused, the cause at its place; else what it may not mean.
    pub findings: Vec<Finding>,
}

/// What an accepted program may not mean.
fn accepted_findings(
    alloc: Global,
    text: &[u8],
    given: &[Vec<u8>],
) -> Result<Vec<Finding>, AllocError> {
    match tokens(alloc, text) {
        Ok(found) => {
            let mut all = find_warnings(alloc, text, &found, given)?;
            let mut mistakes = find_mistakes(alloc, &found)?;
            all.append(&mut mistakes)?;
            Ok(all)
        }
        Err(_) => Err(AllocError),
    }
}

/// Checks a program: whether it is refused, as `execute` refuses it, and what else is told of it. The
/// names given are those that the command line assigns to.
///
/// # Errors
///
/// Where memory is refused.
pub fn check(alloc: Global, text: &[u8], given: &[Vec<u8>]) -> Result<Report, AllocError>
    ensures cause { IfOk result (λ report.
        IfSome report.refusal (λ refusal. RefusedFor refusal.code text.now)) }
    ensures refused { IfOk result (λ report. IfSome report.refusal (λ refusal.
        (IsOutOfMemory refusal → ⊥) → (items : List Item) → Accepted text.now items → ⊥)) }
    ensures accepted { IfOk result (λ report.
        IfNone report.refusal ((items : List Item) × Accepted text.now items)) }
{
    match read_program(alloc, text) {
        Ok(_) => Ok(Report {
            refusal: None,
            findings: accepted_findings(alloc, text, given)?,
        }),
        Err(refusal) => {
            let mut findings = Vec::new(alloc);
            findings.push(refused_finding(alloc, text, refusal)?)?;
            Ok(Report {
                refusal: Some(refusal),
                findings,
            })
        }
    }
}

/// The exit status of a check: 2 of a program that is refused, 1 where something is told of one that is
/// accepted, and else 0.
pub fn status(report: &Report) -> u8
    ensures refused { IsSome report.now.refusal → result ≡ 2 }
    ensures told { IsNone report.now.refusal → (report.now.findings.items ≡ [] → ⊥) → result ≡ 1 }
    ensures clean { IsNone report.now.refusal → report.now.findings.items ≡ [] → result ≡ 0 }
{
    match report.refusal {
        Some(_) => 2,
        None if report.findings.is_empty() => 0,
        None => 1,
    }
}
