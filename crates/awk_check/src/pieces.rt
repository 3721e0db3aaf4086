// Whether a program may run on pieces of its input.

ghost use Rattle.std.specs.Prelude.{◌≡◌, ◌≤◌, ◌↔◌, true, List, [], map, IfOk};
ghost use Rattle.awk_grammar.specs.Tree.{Item};
ghost use Rattle.awk_pieces.specs.definitions.Pieceable.{IsPieceable};
ghost use Rattle.awk_pieces.specs.definitions.LawOfPieces.{all_leave_records};
ghost use Rattle.awk_run.specs.Accepted.{Accepted};
ghost use Rattle.awk_run.specs.Start.{pair_of};

use crate::pieces_reasons::pieces_finding;
use crate::reading::{all_leave_records, listed, read_tree, reason_of_words, refusal_of};
use awk_findings::Finding;
use awk_lex::lexer::tokens;
use awk_lex::refusal::Refusal;
use awk_pieces::is_pieceable;
use awk_run::Assignment;
use std::alloc::{AllocError, Global};

/// Whether a program, with these assignments before it and without operands, may run on pieces of its
/// input side by side, cut behind any newline: what it prints on the pieces, one behind the other, is
/// what it prints on the whole, as `law_of_pieces` says. `true` is answered of each program that the
/// law speaks of, and of no other.
///
/// # Errors
///
/// Where the awk refuses the program, or memory is refused.
pub fn may_run_on_pieces(
    alloc: Global,
    text: &[u8],
    assigned: &[Assignment],
) -> Result<bool, Refusal>
    ensures { IfOk result (λ may. (items : List Item) × Accepted text.now items ×
        ((may ≡ true) ↔ (IsPieceable items × (all_leave_records (map pair_of assigned.now) ≡ true)))) }
{
    let tree = read_tree(alloc, text)?;
    Ok(is_pieceable(alloc, &tree)? && all_leave_records(assigned))
}

/// What is answered where it is asked whether a program may run on pieces of its input.
#[derive(Drop)]
pub struct PiecesReport {
    /// The exit status: 0 is yes, 1 no, and 2 of a program that is refused.
    pub status: u8,
    /// Why it isn't yes: of a program that is refused the cause at its place, else the first reason that is found.
    pub findings: Vec<Finding>,
}

/// The first reason that is found why a program, with these words beside it, isn't known to run on pieces.
fn reason(
    alloc: Global,
    text: &[u8],
    assigned: &[Assignment],
    operands: &[Vec<u8>],
    limit: u64,
) -> Result<Finding, AllocError> {
    let Ok(tokens) = tokens(alloc, text) else {
        return Err(AllocError);
    };
    let other = b"it does more than treat each record for itself".as_slice();
    let plain = reason_of_words(assigned, operands, limit).unwrap_or(other);
    pieces_finding(alloc, text, &tokens, plain)
}

/// Whether a program may run on pieces of its input, with the words that stand beside it: the
/// assignments before the run, the operands, and the most steps, of which `u64::MAX` is no limit.
///
/// # Errors
///
/// Where memory is refused.
pub fn check_pieces(
    alloc: Global,
    text: &[u8],
    assigned: &[Assignment],
    operands: &[Vec<u8>],
    limit: u64,
) -> Result<PiecesReport, AllocError>
    ensures yes { IfOk result (λ report. report.status ≡ 0 → (items : List Item) × Accepted text.now items ×
        IsPieceable items × (all_leave_records (map pair_of assigned.now) ≡ true) ×
        (operands.now ≡ []) × (limit ≡ u64.MAX)) }
    ensures no { IfOk result (λ report. report.status ≡ 1 → (items : List Item) × Accepted text.now items ×
        (IsPieceable items → all_leave_records (map pair_of assigned.now) ≡ true → operands.now ≡ [] →
        limit ≡ u64.MAX → ⊥)) }
    ensures refused { IfOk result (λ report. report.status ≡ 2 → (items : List Item) → Accepted text.now items → ⊥) }
    ensures known { IfOk result (λ report. report.status ≤ 2) }
{
    if let Some(finding) = refusal_of(alloc, text)? {
        return Ok(PiecesReport {
            status: 2,
            findings: listed(alloc, finding)?,
        });
    }
    let Ok(may) = may_run_on_pieces(alloc, text, assigned) else {
        return Err(AllocError);
    };
    if may && operands.is_empty() && limit == u64::MAX {
        return Ok(PiecesReport {
            status: 0,
            findings: Vec::new(alloc),
        });
    }
    Ok(PiecesReport {
        status: 1,
        findings: listed(alloc, reason(alloc, text, assigned, operands, limit)?)?,
    })
}
