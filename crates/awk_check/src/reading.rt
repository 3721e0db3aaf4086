// What is read of a program and of the words beside it, before it is answered how it may run.

ghost use Rattle.std.specs.Prelude.{◌≡◌, List, map, IfOk, IfSome};
ghost use Rattle.awk_grammar.specs.Tree.{Item};
ghost use Rattle.awk_grammar.specs.View.{tree_of};
ghost use Rattle.awk_pieces.specs.definitions.LawOfPieces.{all_leave_records};
ghost use Rattle.awk_run.specs.Accepted.{Accepted};
ghost use Rattle.awk_run.specs.Start.{pair_of};

use crate::refused::refused_finding;
use awk_findings::Finding;
use awk_grammar::tree::Tree;
use awk_kinds::law_of_refusals;
use awk_lex::lexer::tokens;
use awk_lex::refusal::{Refusal, RefusalCode};
use awk_pieces::leaves_records;
use awk_resolve::resolve;
use awk_run::{Assignment, read_program};
use awk_syntax::parse;
use std::alloc::{AllocError, Global};

/// The tree of a text.
pub(crate) fn read_tree(alloc: Global, text: &[u8]) -> Result<Tree, Refusal>
    ensures { IfOk result (λ tree. Accepted text.now (tree_of tree)) }
{
    law_of_refusals();
    let tokens = tokens(alloc, text)?;
    let tree = parse(alloc, &tokens)?;
    let _plan = resolve(alloc, &tree)?;
    Ok(tree)
}

/// Why a text is refused, if it is.
pub(crate) fn refusal_of(alloc: Global, text: &[u8]) -> Result<Option<Finding>, AllocError>
    ensures { IfOk result (λ found. IfSome found (λ _. (items : List Item) → Accepted text.now items → ⊥)) }
{
    if let Err(refusal) = read_program(alloc, text) {
        return match refusal.code {
            RefusalCode::OutOfMemory => Err(AllocError),
            _ => Ok(Some(refused_finding(alloc, text, refusal)?)),
        };
    }
    Ok(None)
}

/// Whether each of the assignments leaves the records and their count as they are.
pub(crate) fn all_leave_records(assigned: &[Assignment]) -> bool
    ensures { result ≡ all_leave_records (map pair_of assigned.now) }
{
    for assignment in assigned {
        if !leaves_records(&assignment.name) {
            return false;
        }
    }
    true
}

/// Why a program may not run on pieces of its input, where that is for the words beside it.
pub(crate) fn reason_of_words(
    assigned: &[Assignment],
    operands: &[Vec<u8>],
    limit: u64,
) -> Option<&'static [u8]> {
    if !operands.is_empty() {
        return Some(b"operands name other inputs than the pieces");
    }
    if !all_leave_records(assigned) {
        return Some(b"an assignment before the run changes how records are found or counted");
    }
    if limit < u64::MAX {
        return Some(b"the limit of -L counts the steps of one run");
    }
    None
}

/// A finding alone.
pub(crate) fn listed(alloc: Global, finding: Finding) -> Result<Vec<Finding>, AllocError> {
    let mut findings = Vec::new(alloc);
    findings.push(finding)?;
    Ok(findings)
}
