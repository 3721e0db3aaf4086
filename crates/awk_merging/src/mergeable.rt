// Whether the sums of a program can be gathered from pieces of its input.

ghost use Rattle.std.specs.Prelude.{◌≡◌, not, true, [], Ok, IfOk, OnOk};
ghost use Rattle.awk_lex.specs.declared.token.AssignmentOperator.{AssignmentOperator};
ghost use Rattle.awk_grammar.specs.Tree as t;
ghost use Rattle.awk_grammar.specs.View as g;
ghost use Rattle.awk_semantics.specs.Items.{is_rule, has_rule};
ghost use Rattle.awk_pieces.specs.support.Known.{own_of, set_of};
ghost use Rattle.awk_merging.specs.definitions.Sums as s;
ghost use Rattle.awk_merging.specs.definitions.LawOfCells.{IsLine};
ghost use Rattle.awk_merging.specs.definitions.LawOfDerived.{IsOneOf};
ghost use Rattle.awk_merging.specs.definitions.Mergeable.{own_in, is_sum, sets_no_sum, only_sets_others, all_only_set_others, is_mergeable_item, are_mergeable};
ghost use Rattle.awk_merging.specs.support.Lines.{is_line};
ghost use Rattle.awk_merging.specs.support.SumsOf.{sums_of};

use crate::end_actions::all_only_print;
use crate::others::{Others, is_other};
use crate::record_rules::all_only_sum;
use crate::sums::{Sum, is_sum};
use awk_grammar::tree::{Expr, Item, SimpleStatement, Statement, Tree};
use awk_pieces::{Known, all_only_set, names_set_in_rules, pattern_keeps_to_record};
use std::alloc::{AllocError, Global};

/// Whether the place is a variable that BEGIN may set: no sum, and no other one on each piece.
fn is_other_place(sums: &[Sum], place: &Expr) -> bool
    ensures { (o : AssignmentOperator) (e : t.Expr) →
        result ≡ sets_no_sum (sums_of sums.now) (t.Assign o (g.expr_of place.now) e) }
{
    match place {
        Expr::Name(name) => is_other(sums, name.as_slice()),
        _ => false,
    }
}

fn sets_no_sum(sums: &[Sum], e: &Expr) -> bool
    ensures { result ≡ sets_no_sum (sums_of sums.now) (g.expr_of e.now) }
{
    match e {
        Expr::Assign(_, place, _) => is_other_place(sums, place),
        _ => false,
    }
}

fn only_sets_others(sums: &[Sum], s: &Statement) -> bool
    ensures { result ≡ only_sets_others (sums_of sums.now) (g.statement_of s.now) }
{
    match s {
        Statement::Empty => true,
        Statement::Simple(SimpleStatement::Expression(e)) => sets_no_sum(sums, e),
        _ => false,
    }
}

fn all_only_set_others(sums: &[Sum], all: &[Statement]) -> bool
    ensures { result ≡ all_only_set_others (sums_of sums.now) (g.statements_of all.now) }
{
    for s in all {
        if !only_sets_others(sums, s) {
            return false;
        }
    }
    true
}

/// Whether an item may do what it does. The same is known behind the call, where it may.
fn is_mergeable_item(sums: &[Sum], known: &mut Known, item: &Item) -> Result<bool, AllocError>
    requires { set_of known.now ≡ [] }
    ensures is { IfOk result (λ is. is ≡ is_mergeable_item (own_of known.old) (sums_of sums.now) (g.item_of item.now)) }
    ensures own { OnOk result (own_of known.new ≡ own_of known.old) }
    ensures set { result ≡ Ok true → set_of known.new ≡ [] }
{
    match item {
        Item::Begin(block) => Ok(all_only_set(block) && all_only_set_others(sums, block)),
        Item::Action(block) => all_only_sum(sums, known, block),
        Item::PatternAction(pattern, block) => {
            Ok(
                pattern_keeps_to_record(&Others { sums, known }, pattern)
                    && all_only_sum(sums, known, block)?,
            )
        }
        Item::End(block) => all_only_print(sums, known, block),
        Item::PatternOnly(_) | Item::Function(_, _, _) => Ok(false),
    }
}

/// Whether the program does no more than sum up, where these are its sums as `sums_of` gives them: BEGIN sets
/// variables, the rules add to sums what the record gives and show nothing, and END prints what it reads of the sums.
/// Then they can be gathered from pieces of its input: `law_of_merging` says so.
///
/// # Errors
///
/// Where memory is refused.
pub fn is_mergeable(alloc: Global, tree: &Tree, sums: &[Sum]) -> Result<bool, AllocError>
    ensures { IfOk result (λ is. is ≡ are_mergeable (own_in (g.tree_of tree.now)) (sums_of sums.now) (g.tree_of tree.now)) }
{
    let names = names_set_in_rules(alloc, &tree.items)?;
    let mut known = Known::new(alloc, &names);
    for item in tree.items.as_slice() {
        if !is_mergeable_item(sums, &mut known, item)? {
            return Ok(false);
        }
    }
    Ok(true)
}

fn is_line(text: &[u8]) -> bool
    ensures { result ≡ is_line text.now }
{
    !text.contains(&b'\n')
}

/// Whether no name of a sum has a newline, as no name of a program's text has.
pub fn have_line_names(sums: &[Sum]) -> bool
    ensures { result ≡ true → (x : s.Sum) → IsOneOf x (sums_of sums.now) → IsLine (s.name_of_sum x) }
{
    sums.iter().all(|sum| is_line(sum.name()))
}

/// Whether an assignment to the variable before the run leaves the sums as they are: it is none of them.
pub fn leave_sums(sums: &[Sum], name: &[u8]) -> bool
    ensures { result ≡ not (is_sum (sums_of sums.now) name.now) }
{
    !is_sum(sums, name)
}

/// Whether records are read for the item.
fn is_rule(item: &Item) -> bool
    ensures { result ≡ is_rule (g.item_of item.now) }
{
    match item {
        Item::Begin(_) | Item::Function(_, _, _) => false,
        _ => true,
    }
}

/// Whether the program reads records: it has more than BEGIN and functions.
pub fn has_rule(tree: &Tree) -> bool
    ensures { result ≡ has_rule (g.tree_of tree.now) }
{
    tree.items.as_slice().iter().any(|item| is_rule(item))
}
