// Whether a program treats each record for itself.

ghost use Rattle.std.specs.Prelude.{◌≡◌, ◌↔◌, true, Ok, IfOk, OnOk};
ghost use Rattle.awk_grammar.specs.View as g;
ghost use Rattle.awk_grammar.specs.Tree.{For};
ghost use Rattle.awk_pieces.specs.definitions.Pieceable.{is_standard, is_simple_for_itself, is_part_for_itself, is_for_itself, are_for_themselves, is_rule_for_itself, are_rules_for_themselves, IsPieceable};
ghost use Rattle.awk_pieces.specs.support.Known.{own_of, arrays_of, known_of};

use crate::expressions::{
    all_keep_to_record, is_filled, keeps_to_record, list_keeps_to_record, may_keep_to_record,
    pattern_keeps_to_record, sets_own,
};
use crate::names::{
    array_behind, array_filled_first, arrays_filled_in_rules, name_behind, name_set_first,
    names_set_in_rules,
};
use crate::readable::{Known, Readable};
use crate::settings::all_only_set;
use awk_grammar::tree::{ForParts, Item, Output, SimpleStatement, Statement, Tree};
use std::alloc::{AllocError, Global};

fn is_standard(output: &Output) -> bool
    ensures { result ≡ is_standard (g.output_of output.now) }
{
    matches!(output, Output::Standard)
}

fn is_simple_for_itself(known: &Known, simple: &SimpleStatement) -> bool
    ensures { result ≡ is_simple_for_itself (own_of known.now) (arrays_of known.now) (known_of known.now) (g.simple_of simple.now) }
{
    match simple {
        SimpleStatement::Expression(e) => sets_own(known, e) || keeps_to_record(known, e),
        SimpleStatement::Print(_, list, output) => {
            list_keeps_to_record(known, list) && is_standard(output)
        }
        SimpleStatement::Delete(array, subscripts) => {
            is_filled(known, array.as_slice()) && all_keep_to_record(known, subscripts)
        }
        SimpleStatement::DeleteAll(array) => known.is_own_array(array.as_slice()),
        SimpleStatement::Next | SimpleStatement::Break | SimpleStatement::Continue => true,
        _ => false,
    }
}

fn is_part_for_itself(known: &Known, part: &Option<SimpleStatement>) -> bool
    ensures { result ≡ is_part_for_itself (own_of known.now) (arrays_of known.now) (known_of known.now) (g.optional_simple_of part.now) }
{
    match part {
        Some(simple) => is_simple_for_itself(known, simple),
        None => true,
    }
}

/// Whether a statement treats its record for itself, where so much is known before it. Where it does, the same is known
/// behind the call.
#[cycle(statements)]
fn is_for_itself(known: &mut Known, s: &Statement) -> Result<bool, AllocError>
    ensures is { IfOk result (λ is. is ≡ is_for_itself (own_of known.old) (arrays_of known.old) (known_of known.old) (g.statement_of s.now)) }
    ensures own { OnOk result (own_of known.new ≡ own_of known.old) }
    ensures arrays { OnOk result (arrays_of known.new ≡ arrays_of known.old) }
    ensures set { result ≡ Ok true → known.new.set.items ≡ known.old.set.items }
{
    match s {
        Statement::Empty => Ok(true),
        Statement::Simple(simple) => Ok(is_simple_for_itself(known, simple)),
        Statement::Block(all) => are_for_themselves(known, all),
        Statement::If(c, s) => Ok(keeps_to_record(known, c) && is_for_itself(known, s)?),
        Statement::While(c, s) => Ok(keeps_to_record(known, c) && is_for_itself(known, s)?),
        Statement::Do(s, c) => Ok(keeps_to_record(known, c) && is_for_itself(known, s)?),
        Statement::IfElse(c, s, other) => {
            if !keeps_to_record(known, c) {
                return Ok(false);
            }
            if !is_for_itself(known, s)? {
                return Ok(false);
            }
            is_for_itself(known, other)
        }
        Statement::For(parts, s) => is_loop_for_itself(known, parts, s),
        Statement::ForIn(_, _, _) => Ok(false),
    }
}

/// The same of a `for`, with these parts and this body: its first part is done before the others.
#[cycle(statements)]
fn is_loop_for_itself(
    known: &mut Known,
    parts: &ForParts,
    body: &Statement,
) -> Result<bool, AllocError>
    ensures is { IfOk result (λ is. is ≡ is_for_itself (own_of known.old) (arrays_of known.old) (known_of known.old)
        (For (g.optional_simple_of parts.now.first) (g.optional_expr_of parts.now.condition) (g.optional_simple_of parts.now.last) (g.statement_of body.now))) }
    ensures own { OnOk result (own_of known.new ≡ own_of known.old) }
    ensures arrays { OnOk result (arrays_of known.new ≡ arrays_of known.old) }
    ensures set { result ≡ Ok true → known.new.set.items ≡ known.old.set.items }
{
    if !is_part_for_itself(known, &parts.first) {
        return Ok(false);
    }
    let count = known.len();
    known.add(array_filled_first(&parts.first))?;
    known.add(name_set_first(&parts.first))?;
    if !may_keep_to_record(known, &parts.condition) {
        return Ok(false);
    }
    if !is_part_for_itself(known, &parts.last) {
        return Ok(false);
    }
    if !is_for_itself(known, body)? {
        return Ok(false);
    }
    known.truncate(count);
    Ok(true)
}

#[cycle(statements)]
fn are_for_themselves(known: &mut Known, all: &[Statement]) -> Result<bool, AllocError>
    ensures is { IfOk result (λ is. is ≡ are_for_themselves (own_of known.old) (arrays_of known.old) (known_of known.old) (g.statements_of all.now)) }
    ensures own { OnOk result (own_of known.new ≡ own_of known.old) }
    ensures arrays { OnOk result (arrays_of known.new ≡ arrays_of known.old) }
    ensures set { result ≡ Ok true → known.new.set.items ≡ known.old.set.items }
{
    let count = known.len();
    for s in all {
        if !is_for_itself(known, s)? {
            return Ok(false);
        }
        known.add(array_behind(s))?;
        known.add(name_behind(s))?;
    }
    known.truncate(count);
    Ok(true)
}

fn is_rule_for_itself(known: &mut Known, item: &Item) -> Result<bool, AllocError>
    ensures is { IfOk result (λ is. is ≡ is_rule_for_itself (own_of known.old) (arrays_of known.old) (known_of known.old) (g.item_of item.now)) }
    ensures own { OnOk result (own_of known.new ≡ own_of known.old) }
    ensures arrays { OnOk result (arrays_of known.new ≡ arrays_of known.old) }
    ensures set { result ≡ Ok true → known.new.set.items ≡ known.old.set.items }
{
    match item {
        Item::Begin(block) => Ok(all_only_set(block)),
        Item::Action(block) => are_for_themselves(known, block),
        Item::PatternAction(pattern, block) => {
            Ok(pattern_keeps_to_record(known, pattern) && are_for_themselves(known, block)?)
        }
        Item::PatternOnly(pattern) => Ok(pattern_keeps_to_record(known, pattern)),
        Item::End(_) | Item::Function(_, _, _) => Ok(false),
    }
}

fn are_rules_for_themselves(known: &mut Known, items: &[Item]) -> Result<bool, AllocError>
    ensures { IfOk result (λ is. is ≡ are_rules_for_themselves (own_of known.old) (arrays_of known.old) (known_of known.old) (g.items_of items.now)) }
{
    for item in items {
        if !is_rule_for_itself(known, item)? {
            return Ok(false);
        }
    }
    Ok(true)
}

/// Whether a program treats each record for itself, so that it may run on pieces of its input side by
/// side, cut behind any newline, and its outputs be joined in order: `law_of_pieces` says so.
///
/// # Errors
///
/// Where memory is refused.
pub fn is_pieceable(alloc: Global, tree: &Tree) -> Result<bool, AllocError>
    ensures { IfOk result (λ is. (is ≡ true) ↔ IsPieceable (g.tree_of tree.now)) }
{
    let names = names_set_in_rules(alloc, &tree.items)?;
    let arrays = arrays_filled_in_rules(alloc, &tree.items)?;
    let mut known = Known::with_arrays(alloc, &names, &arrays);
    are_rules_for_themselves(&mut known, &tree.items)
}
