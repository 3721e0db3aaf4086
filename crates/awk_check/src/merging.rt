// The two programs that a program which sums up is taken apart into.

ghost use Rattle.std.specs.Prelude.{◌≡◌, ◌≤◌, true, List, [], map, Ok, IfOk};
ghost use Rattle.awk_grammar.specs.Tree.{Item};
ghost use Rattle.awk_grammar.specs.View.{tree_of};
ghost use Rattle.awk_semantics.specs.definitions.Items.{has_rule};
ghost use Rattle.awk_pieces.specs.definitions.LawOfPieces.{all_leave_records};
ghost use Rattle.awk_merging.specs.definitions.Mergeable.{IsMergeable, sums_of_program};
ghost use Rattle.awk_merging.specs.definitions.LawOfMerging.{HasLineNames, all_leave_sums};
ghost use Rattle.awk_merging.specs.support.SumsOf.{sums_of};
ghost use Rattle.awk_run.specs.Accepted.{Accepted};
ghost use Rattle.awk_run.specs.Start.{pair_of};
ghost use Rattle.awk_check.specs.definitions.Stages.{program_of};

use crate::merging_reasons::{merging_finding, plain_merging_finding};
use crate::reading::{all_leave_records, listed, read_tree, reason_of_words, refusal_of};
use crate::stage::Stage;
use awk_findings::Finding;
use awk_grammar::tree::Tree;
use awk_lex::lexer::tokens;
use awk_lex::refusal::RefusalCode;
use awk_lex::token::Token;
use awk_merging::{
    Sum, all_text, each_text, has_rule, have_line_names, is_all_of, is_each_of, is_mergeable,
    leave_sums, sums_of,
};
use awk_run::Assignment;
use std::alloc::{AllocError, Global};

/// What is answered where a program of two stages is asked for.
#[derive(Drop)]
pub struct DerivedReport {
    /// The exit status: 0 where there is one, 1 where the program isn't known to run in two stages, and 2 where
    /// it is refused.
    pub status: u8,
    /// The text of the program of that stage, or nothing.
    pub text: Vec<u8>,
    /// Why there is none: of a program that is refused the cause at its place, else the first reason that is found.
    pub findings: Vec<Finding>,
}

/// Whether none of the assignments is to what is summed up.
fn all_leave_sums(sums: &[Sum], assigned: &[Assignment]) -> bool
    ensures { result ≡ all_leave_sums (sums_of sums.now) (map pair_of assigned.now) }
{
    for assignment in assigned {
        if !leave_sums(sums, &assignment.name) {
            return false;
        }
    }
    true
}

/// Whether a program with these sums and with these words beside it may run in two stages.
fn may_merge(
    alloc: Global,
    tree: &Tree,
    sums: &[Sum],
    assigned: &[Assignment],
    operands: &[Vec<u8>],
    limit: u64,
) -> Result<bool, AllocError>
    requires { sums_of sums.now ≡ sums_of_program (tree_of tree.now) }
    ensures mergeable { result ≡ Ok true → IsMergeable (tree_of tree.now) }
    ensures names { result ≡ Ok true → HasLineNames (tree_of tree.now) }
    ensures rule { result ≡ Ok true → has_rule (tree_of tree.now) ≡ true }
    ensures records { result ≡ Ok true → all_leave_records (map pair_of assigned.now) ≡ true }
    ensures sums { result ≡ Ok true →
        all_leave_sums (sums_of_program (tree_of tree.now)) (map pair_of assigned.now) ≡ true }
    ensures words { result ≡ Ok true → (operands.now ≡ []) × (limit ≡ u64.MAX) }
{
    Ok(
        !sums.is_empty()
            && have_line_names(sums)
            && has_rule(tree)
            && all_leave_records(assigned)
            && all_leave_sums(sums, assigned)
            && operands.is_empty()
            && limit == u64::MAX
            && is_mergeable(alloc, tree, sums)?,
    )
}

/// Whether a text is accepted, and its program the one of a stage.
fn is_stage(
    alloc: Global,
    stage: Stage,
    sums: &[Sum],
    tree: &Tree,
    text: &[u8],
) -> Result<bool, AllocError>
    requires { sums_of sums.now ≡ sums_of_program (tree_of tree.now) }
    ensures { IfOk result (λ is. is ≡ true → Accepted text.now (program_of stage (tree_of tree.now))) }
{
    match read_tree(alloc, text) {
        Ok(derived) => Ok(match stage {
            Stage::Each => is_each_of(sums, tree, &derived),
            Stage::All => is_all_of(sums, tree, &derived),
        }),
        Err(refusal) => match refusal.code {
            RefusalCode::OutOfMemory => Err(AllocError),
            _ => Ok(false),
        },
    }
}

/// The text of the program of a stage, of a program whose text, tokens and sums these are.
fn stage_text(
    alloc: Global,
    stage: Stage,
    text: &[u8],
    tokens: &[Token],
    sums: &[Sum],
) -> Result<Vec<u8>, AllocError> {
    match stage {
        Stage::Each => each_text(alloc, text, tokens, sums),
        Stage::All => all_text(alloc, text, tokens, sums),
    }
}

/// The reason that the words beside a program are, where its text has none.
fn plain_reason(
    sums: &[Sum],
    assigned: &[Assignment],
    operands: &[Vec<u8>],
    limit: u64,
) -> &'static [u8] {
    if sums.is_empty() {
        return b"nothing is summed up";
    }
    if !all_leave_sums(sums, assigned) {
        return b"an assignment before the run sets what is summed up";
    }
    let other = b"it does more than sum up records and print the sums".as_slice();
    reason_of_words(assigned, operands, limit).unwrap_or(other)
}

/// The program of a stage, of a program that sums up: `awk` with that of `Stage::Each` over each piece
/// of an input, cut behind any newline, and with that of `Stage::All` over what these print, joined in
/// order, come to what one run comes to over the whole, as `law_of_merging` says. Beside it stand the
/// assignments before the run, the operands, and the most steps, of which `u64::MAX` is no limit.
///
/// # Errors
///
/// Where memory is refused.
pub fn derive(
    alloc: Global,
    text: &[u8],
    assigned: &[Assignment],
    operands: &[Vec<u8>],
    limit: u64,
    stage: Stage,
) -> Result<DerivedReport, AllocError>
    ensures yes { IfOk result (λ report. report.status ≡ 0 → (items : List Item) × Accepted text.now items ×
        IsMergeable items × HasLineNames items × (has_rule items ≡ true) ×
        (all_leave_records (map pair_of assigned.now) ≡ true) ×
        (all_leave_sums (sums_of_program items) (map pair_of assigned.now) ≡ true) ×
        (operands.now ≡ []) × (limit ≡ u64.MAX) × Accepted report.text.items (program_of stage items)) }
    ensures refused { IfOk result (λ report. report.status ≡ 2 → (items : List Item) → Accepted text.now items → ⊥) }
    ensures known { IfOk result (λ report. report.status ≤ 2) }
{
    if let Some(finding) = refusal_of(alloc, text)? {
        return Ok(DerivedReport {
            status: 2,
            text: Vec::new(alloc),
            findings: listed(alloc, finding)?,
        });
    }
    let Ok(tree) = read_tree(alloc, text) else {
        return Err(AllocError);
    };
    let Ok(tokens) = tokens(alloc, text) else {
        return Err(AllocError);
    };
    let sums = sums_of(alloc, &tree)?;
    let finding = if may_merge(alloc, &tree, &sums, assigned, operands, limit)? {
        let derived = stage_text(alloc, stage, text, &tokens, &sums)?;
        if is_stage(alloc, stage, &sums, &tree, &derived)? {
            return Ok(DerivedReport {
                status: 0,
                text: derived,
                findings: Vec::new(alloc),
            });
        }
        plain_merging_finding(alloc, b"the new text isn't read as that program")?
    } else {
        let plain = plain_reason(&sums, assigned, operands, limit);
        merging_finding(alloc, text, &tokens, &sums, plain)?
    };
    Ok(DerivedReport {
        status: 1,
        text: Vec::new(alloc),
        findings: listed(alloc, finding)?,
    })
}
