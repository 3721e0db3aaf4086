// What a rule of a program with these sums may do: it adds to sums what the record gives, and shows nothing.

ghost use Rattle.std.specs.Prelude.{◌≡◌, true, Ok, IfOk, OnOk};
ghost use Rattle.awk_grammar.specs.Tree.{For};
ghost use Rattle.awk_grammar.specs.View as g;
ghost use Rattle.awk_pieces.specs.support.Known.{own_of, set_of};
ghost use Rattle.awk_merging.specs.definitions.Mergeable.{is_sum_place, is_addition, is_simple_summing, is_part_summing, only_sums, all_only_sum};
ghost use Rattle.awk_merging.specs.support.Others.{known_in};
ghost use Rattle.awk_merging.specs.support.SumsOf.{sums_of};

use crate::others::Others;
use crate::sums::{Sum, is_array_sum, is_variable_sum};
use awk_grammar::tree::{Expr, ForParts, SimpleStatement, Statement};
use awk_lex::token::{AssignmentOperator, IncrementOperator};
use awk_pieces::{
    Known, all_keep_to_record, keeps_to_record, may_keep_to_record, name_behind, name_set_first,
    sets_own,
};
use std::alloc::AllocError;

/// Whether the place is a sum's, and its subscripts are of what the record gives.
fn is_sum_place(others: &Others, place: &Expr) -> bool
    ensures { result ≡ is_sum_place (own_of others.now.known.now) (sums_of others.now.sums.now) (known_in (sums_of others.now.sums.now) others.now.known.now) (g.expr_of place.now) }
{
    match place {
        Expr::Element(array, subscripts) => {
            is_array_sum(others.sums, array.as_slice()) && all_keep_to_record(others, subscripts)
        }
        Expr::Name(variable) => is_variable_sum(others.sums, variable.as_slice()),
        _ => false,
    }
}

/// Whether the expression adds to a sum what the record gives.
fn is_addition(others: &Others, e: &Expr) -> bool
    ensures { result ≡ is_addition (own_of others.now.known.now) (sums_of others.now.sums.now) (known_in (sums_of others.now.sums.now) others.now.known.now) (g.expr_of e.now) }
{
    match e {
        Expr::Assign(AssignmentOperator::Add, place, e) => {
            is_sum_place(others, place) && keeps_to_record(others, e)
        }
        Expr::PreIncrement(IncrementOperator::Increment, place)
        | Expr::PostIncrement(IncrementOperator::Increment, place) => is_sum_place(others, place),
        _ => false,
    }
}

fn is_simple_summing(others: &Others, simple: &SimpleStatement) -> bool
    ensures { result ≡ is_simple_summing (own_of others.now.known.now) (sums_of others.now.sums.now) (known_in (sums_of others.now.sums.now) others.now.known.now) (g.simple_of simple.now) }
{
    match simple {
        SimpleStatement::Expression(e) => {
            is_addition(others, e) || sets_own(others, e) || keeps_to_record(others, e)
        }
        SimpleStatement::Next | SimpleStatement::Break | SimpleStatement::Continue => true,
        _ => false,
    }
}

fn is_part_summing(others: &Others, part: &Option<SimpleStatement>) -> bool
    ensures { result ≡ is_part_summing (own_of others.now.known.now) (sums_of others.now.sums.now) (known_in (sums_of others.now.sums.now) others.now.known.now) (g.optional_simple_of part.now) }
{
    match part {
        Some(simple) => is_simple_summing(others, simple),
        None => true,
    }
}

/// Whether a statement of a rule does no more than that, where so much is known before it. Where it does, the same is
/// known behind the call.
#[cycle(statements)]
fn only_sums(sums: &[Sum], known: &mut Known, s: &Statement) -> Result<bool, AllocError>
    ensures is { IfOk result (λ is. is ≡ only_sums (own_of known.old) (sums_of sums.now) (known_in (sums_of sums.now) known.old) (g.statement_of s.now)) }
    ensures own { OnOk result (own_of known.new ≡ own_of known.old) }
    ensures set { result ≡ Ok true → set_of known.new ≡ set_of known.old }
{
    match s {
        Statement::Empty => Ok(true),
        Statement::Simple(simple) => Ok(is_simple_summing(&Others { sums, known }, simple)),
        Statement::Block(all) => all_only_sum(sums, known, all),
        Statement::If(c, s) | Statement::While(c, s) | Statement::Do(s, c) => {
            Ok(keeps_to_record(&Others { sums, known }, c) && only_sums(sums, known, s)?)
        }
        Statement::IfElse(c, s, other) => {
            if !keeps_to_record(&Others { sums, known }, c) {
                return Ok(false);
            }
            if !only_sums(sums, known, s)? {
                return Ok(false);
            }
            only_sums(sums, known, other)
        }
        Statement::For(parts, s) => is_loop_summing(sums, known, parts, s),
        Statement::ForIn(_, _, _) => Ok(false),
    }
}

/// The same of a `for`, with these parts and this body: its first part is done before the others.
#[cycle(statements)]
fn is_loop_summing(
    sums: &[Sum],
    known: &mut Known,
    parts: &ForParts,
    body: &Statement,
) -> Result<bool, AllocError>
    ensures is { IfOk result (λ is. is ≡ only_sums (own_of known.old) (sums_of sums.now) (known_in (sums_of sums.now) known.old)
        (For (g.optional_simple_of parts.now.first) (g.optional_expr_of parts.now.condition) (g.optional_simple_of parts.now.last) (g.statement_of body.now))) }
    ensures own { OnOk result (own_of known.new ≡ own_of known.old) }
    ensures set { result ≡ Ok true → set_of known.new ≡ set_of known.old }
{
    if !is_part_summing(&Others { sums, known }, &parts.first) {
        return Ok(false);
    }
    let count = known.len();
    known.add(name_set_first(&parts.first))?;
    if !may_keep_to_record(&Others { sums, known }, &parts.condition) {
        return Ok(false);
    }
    if !is_part_summing(&Others { sums, known }, &parts.last) {
        return Ok(false);
    }
    if !only_sums(sums, known, body)? {
        return Ok(false);
    }
    known.truncate(count);
    Ok(true)
}

/// Whether the statements of a rule do no more than add to sums what the record gives, and change the record and its
/// variables.
#[cycle(statements)]
pub(crate) fn all_only_sum(
    sums: &[Sum],
    known: &mut Known,
    all: &[Statement],
) -> Result<bool, AllocError>
    ensures is { IfOk result (λ is. is ≡ all_only_sum (own_of known.old) (sums_of sums.now) (known_in (sums_of sums.now) known.old) (g.statements_of all.now)) }
    ensures own { OnOk result (own_of known.new ≡ own_of known.old) }
    ensures set { result ≡ Ok true → set_of known.new ≡ set_of known.old }
{
    let count = known.len();
    for s in all {
        if !only_sums(sums, known, s)? {
            return Ok(false);
        }
        known.add(name_behind(s))?;
    }
    known.truncate(count);
    Ok(true)
}
