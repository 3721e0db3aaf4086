// Whether a program is one of the two that are derived of one that sums up.

ghost use Rattle.std.specs.Prelude.{◌≡◌, true, [], ◌∷◌, ◌++◌, IfSome};
ghost use Rattle.awk_grammar.specs.Tree.{End};
ghost use Rattle.awk_grammar.specs.View.{statements_of, item_of, items_of, tree_of};
ghost use Rattle.awk_merging.specs.definitions.Derived.{without_ends, begins_of, ends_of};
ghost use Rattle.awk_merging.specs.definitions.Sums.{print_sums, read_sums, reading_rules};
ghost use Rattle.awk_merging.specs.support.SumsOf.{sums_of};
ghost use Rattle.awk_merging.specs.support.Kept.{is_kept, kept_of};

mod cells;
mod nodes;
mod rules;

use crate::same::same_item;
use crate::sums::Sum;
use awk_grammar::tree::{Item, Statement, Tree};
use cells::is_print_sum;
use nodes::{MERGE_KEY, MERGE_WHAT};
use rules::{is_keep_line, is_read_sum};

/// Which items of a program a derived one has.
#[derive(Clone, Copy)]
enum Kept {
    Begins,
    Ends,
    AllButEnds,
}

fn is_kept(kept: Kept, item: &Item) -> bool
    ensures { result ≡ is_kept kept (item_of item.now) }
{
    match (kept, item) {
        (Kept::Begins, Item::Begin(_)) => true,
        (Kept::Begins, _) => false,
        (Kept::Ends, Item::End(_)) => true,
        (Kept::Ends, _) => false,
        (Kept::AllButEnds, Item::End(_)) => false,
        (Kept::AllButEnds, _) => true,
    }
}

/// What stands behind an item that is the same as this one, if one stands there.
fn behind_item<'a>(item: &Item, derived: &'a [Item]) -> Option<&'a [Item]>
    ensures { IfSome result (λ rest. items_of derived.now ≡ item_of item.now ∷ items_of rest.now) }
{
    match derived {
        [first, rest @ ..] if same_item(item, first) => Some(rest),
        _ => None,
    }
}

/// What stands behind such items of a program, if they all stand there.
fn behind_kept<'a>(kept: Kept, items: &[Item], derived: &'a [Item]) -> Option<&'a [Item]>
    ensures { IfSome result (λ rest. items_of derived.now ≡ kept_of kept (items_of items.now) ++ items_of rest.now) }
{
    let mut rest = derived;
    for item in items {
        if is_kept(kept, item) {
            rest = behind_item(item, rest)?;
        }
    }
    Some(rest)
}

/// Whether the statements print these sums.
fn are_sum_prints(sums: &[Sum], block: &[Statement]) -> bool
    ensures { result ≡ true → statements_of block.now ≡ print_sums (sums_of sums.now) }
{
    let mut rest = block;
    for sum in sums {
        match rest {
            [first, others @ ..] if is_print_sum(sum, first) => rest = others,
            _ => return false,
        }
    }
    rest.is_empty()
}

/// What stands behind the rules that add to these sums, if they stand there.
fn behind_read_sums<'a>(sums: &[Sum], derived: &'a [Item]) -> Option<&'a [Item]>
    ensures { IfSome result (λ rest. items_of derived.now ≡ read_sums (sums_of sums.now) ++ items_of rest.now) }
{
    let mut rest = derived;
    for sum in sums {
        match rest {
            [first, others @ ..] if is_read_sum(sum, first) => rest = others,
            _ => return None,
        }
    }
    Some(rest)
}

/// What stands behind the rules that read these sums, if they stand there.
fn behind_reading_rules<'a>(sums: &[Sum], derived: &'a [Item]) -> Option<&'a [Item]>
    ensures { IfSome result (λ rest. items_of derived.now ≡ reading_rules (sums_of sums.now) ++ items_of rest.now) }
{
    match derived {
        [what, key, rest @ ..]
            if is_keep_line(1, MERGE_WHAT, what) && is_keep_line(2, MERGE_KEY, key) => {
            behind_read_sums(sums, rest)
        }
        _ => None,
    }
}

/// Whether a program is the one that another has for each piece of an input, where these are the
/// other's sums: its own BEGIN and rules, and an END that prints the sums.
pub fn is_each_of(sums: &[Sum], tree: &Tree, derived: &Tree) -> bool
    ensures { result ≡ true → tree_of derived.now ≡ without_ends (tree_of tree.now) ++ End (print_sums (sums_of sums.now)) ∷ [] }
{
    match behind_kept(Kept::AllButEnds, &tree.items, &derived.items) {
        Some([Item::End(block)]) => are_sum_prints(sums, block),
        _ => false,
    }
}

/// Whether a program is the one that another has for what the pieces print, where these are the
/// other's sums: its own BEGIN, rules that add the sums, and its own END.
pub fn is_all_of(sums: &[Sum], tree: &Tree, derived: &Tree) -> bool
    ensures { result ≡ true → tree_of derived.now ≡ begins_of (tree_of tree.now) ++ (reading_rules (sums_of sums.now) ++ ends_of (tree_of tree.now)) }
{
    let Some(rest) = behind_kept(Kept::Begins, &tree.items, &derived.items) else {
        return false;
    };
    let Some(rest) = behind_reading_rules(sums, rest) else {
        return false;
    };
    matches!(behind_kept(Kept::Ends, &tree.items, rest), Some([]))
}
