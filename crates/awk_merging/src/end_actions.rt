// What END of a program with these sums may do: it prints what it makes of them, to standard output.

ghost use Rattle.std.specs.Prelude.{◌≡◌, ◌||◌, not, true, Ok, IfOk, OnOk};
ghost use Rattle.awk_grammar.specs.Tree.{For, ForIn};
ghost use Rattle.awk_grammar.specs.View as g;
ghost use Rattle.awk_semantics.specs.definitions.Operators.{takes_pattern};
ghost use Rattle.awk_merging.specs.definitions.Sums.{is_taken};
ghost use Rattle.awk_merging.specs.definitions.Mergeable.{is_sum, makes_value, is_standard, is_free, is_changeable, is_pattern, reads_sums, all_read_sums, may_read_sums, are_printed, is_printed, sets_free, is_simple_of_end, is_part_of_end, only_prints, all_only_print};
ghost use Rattle.awk_pieces.specs.support.Known.{own_of, set_of};
ghost use Rattle.awk_merging.specs.support.Others.{shown_in};
ghost use Rattle.awk_merging.specs.support.SumsOf.{sums_of};

use crate::others::{Others, is_shown};
use crate::sums::{Sum, is_array_sum, is_sum, is_taken};
use awk_grammar::tree::{
    BinaryOperator, Expr, ForParts, Output, PrintList, SimpleStatement, Statement,
};
use awk_kinds::is_of_values;
use awk_lex::token::{AssignmentOperator, BuiltIn, Operator};
use awk_pieces::{Known, name_behind, name_set_first};
use awk_value::Bytes;
use std::alloc::AllocError;

/// Whether the built-in function does no more than make a value of its arguments.
fn makes_value(function: BuiltIn, arguments: &[Expr]) -> bool
    ensures { result ≡ makes_value function (g.exprs_of arguments.now) }
{
    match function {
        BuiltIn::Length => !arguments.is_empty(),
        _ => is_of_values(function),
    }
}

/// Whether the place is a variable that is none of awk's own.
fn is_free(place: &Expr) -> bool
    ensures { result ≡ is_free (g.expr_of place.now) }
{
    match place {
        Expr::Name(name) => !is_taken(name.as_slice()),
        _ => false,
    }
}

/// Whether the place is one that END may change: an element, or such a variable.
fn is_changeable(place: &Expr) -> bool
    ensures { result ≡ is_changeable (g.expr_of place.now) }
{
    match place {
        Expr::Name(name) => !is_taken(name.as_slice()),
        Expr::Element(_, _) => true,
        _ => false,
    }
}

/// Whether an operand right of the operator may be an ERE, which is that pattern then.
fn takes_pattern(operator: BinaryOperator) -> bool
    ensures { result ≡ takes_pattern operator }
{
    matches!(
        operator,
        BinaryOperator::Infix(Operator::Matches | Operator::NotMatches)
    )
}

/// Whether it is an ERE right of `~` and `!~`: alone it would be whether the record has a match.
fn is_pattern(operator: BinaryOperator, e: &Expr) -> bool
    ensures { result ≡ is_pattern operator (g.expr_of e.now) }
{
    match e {
        Expr::Ere(_) => takes_pattern(operator),
        _ => false,
    }
}

#[cycle(expressions)]
fn reads_sums(others: &Others, e: &Expr) -> bool
    ensures { result ≡ reads_sums (sums_of others.now.sums.now) (shown_in others.now.known.now) (g.expr_of e.now) }
{
    match e {
        Expr::Number(_) | Expr::String(_) => true,
        Expr::Name(name) => is_shown(others.known, name.as_slice()),
        Expr::Group(e) | Expr::Unary(_, e) => reads_sums(others, e),
        Expr::Binary(operator, a, b) => {
            reads_sums(others, a) && (is_pattern(*operator, b) || reads_sums(others, b))
        }
        Expr::Conditional(c, a, b) => {
            reads_sums(others, c) && reads_sums(others, a) && reads_sums(others, b)
        }
        Expr::Element(array, subscripts) => {
            is_array_sum(others.sums, array.as_slice()) && all_read_sums(others, subscripts)
        }
        Expr::ListMembership(list, array) => {
            is_array_sum(others.sums, array.as_slice()) && all_read_sums(others, list)
        }
        Expr::Membership(e, array) => is_array_sum(others.sums, array.as_slice())
            && reads_sums(others, e),
        Expr::BuiltIn(function, arguments) => {
            makes_value(*function, arguments) && all_read_sums(others, arguments)
        }
        Expr::PreIncrement(_, place) | Expr::PostIncrement(_, place) => {
            is_changeable(place) && reads_sums(others, place)
        }
        Expr::Assign(_, place, e) => {
            is_changeable(place) && reads_sums(others, place) && reads_sums(others, e)
        }
        Expr::Ere(_)
        | Expr::Field(_)
        | Expr::Call(_, _)
        | Expr::Length
        | Expr::Getline(_, _)
        | Expr::PipedGetline(_, _) => false,
    }
}

#[cycle(expressions)]
fn all_read_sums(others: &Others, list: &[Expr]) -> bool
    ensures { result ≡ all_read_sums (sums_of others.now.sums.now) (shown_in others.now.known.now) (g.exprs_of list.now) }
{
    for e in list {
        if !reads_sums(others, e) {
            return false;
        }
    }
    true
}

/// Whether the expression reads no more than sums, where it isn't left out.
fn may_read_sums(others: &Others, e: &Option<Box<Expr>>) -> bool
    ensures { result ≡ may_read_sums (sums_of others.now.sums.now) (shown_in others.now.known.now) (g.optional_expr_of e.now) }
{
    match e {
        Some(e) => reads_sums(others, e),
        None => true,
    }
}

/// Whether there is a list, and it reads no more than sums: without one the record would be printed.
fn are_printed(others: &Others, list: &[Expr]) -> bool
    ensures { result ≡ are_printed (sums_of others.now.sums.now) (shown_in others.now.known.now) (g.exprs_of list.now) }
{
    !list.is_empty() && all_read_sums(others, list)
}

fn is_printed(others: &Others, list: &PrintList) -> bool
    ensures { result ≡ is_printed (sums_of others.now.sums.now) (shown_in others.now.known.now) (g.print_list_of list.now) }
{
    match list {
        PrintList::Bare(list) | PrintList::Parenthesized(list) => are_printed(others, list),
    }
}

fn is_standard(output: &Output) -> bool
    ensures { result ≡ is_standard (g.output_of output.now) }
{
    matches!(output, Output::Standard)
}

/// Whether the expression sets a variable that is none of awk's own, by `=`. It needn't be one that may be read.
fn sets_free(others: &Others, e: &Expr) -> bool
    ensures { result ≡ sets_free (sums_of others.now.sums.now) (shown_in others.now.known.now) (g.expr_of e.now) }
{
    match e {
        Expr::Assign(AssignmentOperator::Plain, place, e) => is_free(place)
            && reads_sums(others, e),
        _ => false,
    }
}

fn is_simple_of_end(others: &Others, simple: &SimpleStatement) -> bool
    ensures { result ≡ is_simple_of_end (sums_of others.now.sums.now) (shown_in others.now.known.now) (g.simple_of simple.now) }
{
    match simple {
        SimpleStatement::Expression(e) => sets_free(others, e) || reads_sums(others, e),
        SimpleStatement::Print(_, list, output) => is_printed(others, list) && is_standard(output),
        SimpleStatement::Delete(array, subscripts) => {
            is_array_sum(others.sums, array.as_slice()) && all_read_sums(others, subscripts)
        }
        SimpleStatement::DeleteAll(array) => is_array_sum(others.sums, array.as_slice()),
        SimpleStatement::Exit(e) => may_read_sums(others, e),
        SimpleStatement::Break | SimpleStatement::Continue => true,
        _ => false,
    }
}

fn is_part_of_end(others: &Others, part: &Option<SimpleStatement>) -> bool
    ensures { result ≡ is_part_of_end (sums_of others.now.sums.now) (shown_in others.now.known.now) (g.optional_simple_of part.now) }
{
    match part {
        Some(simple) => is_simple_of_end(others, simple),
        None => true,
    }
}

/// Whether a loop over the keys of a sum may set the variable.
fn may_be_set(sums: &[Sum], name: &[u8]) -> bool
    ensures { result ≡ not (is_taken name.now || is_sum (sums_of sums.now) name.now) }
{
    !(is_taken(name) || is_sum(sums, name))
}

/// Whether a statement of END does no more than print what it makes of sums, where these variables may be read before
/// it. Where it does, the same may be read behind the call.
#[cycle(statements)]
fn only_prints(sums: &[Sum], known: &mut Known, s: &Statement) -> Result<bool, AllocError>
    ensures is { IfOk result (λ is. is ≡ only_prints (own_of known.old) (sums_of sums.now) (shown_in known.old) (g.statement_of s.now)) }
    ensures own { OnOk result (own_of known.new ≡ own_of known.old) }
    ensures set { result ≡ Ok true → set_of known.new ≡ set_of known.old }
{
    match s {
        Statement::Empty => Ok(true),
        Statement::Simple(simple) => Ok(is_simple_of_end(&Others { sums, known }, simple)),
        Statement::Block(all) => all_only_print(sums, known, all),
        Statement::If(c, s) | Statement::While(c, s) | Statement::Do(s, c) => {
            Ok(reads_sums(&Others { sums, known }, c) && only_prints(sums, known, s)?)
        }
        Statement::IfElse(c, s, other) => {
            if !reads_sums(&Others { sums, known }, c) {
                return Ok(false);
            }
            if !only_prints(sums, known, s)? {
                return Ok(false);
            }
            only_prints(sums, known, other)
        }
        Statement::ForIn(variable, array, s) => is_walk(sums, known, variable, array, s),
        Statement::For(parts, s) => is_loop_of_end(sums, known, parts, s),
    }
}

/// The same of a `for`, with these parts and this body: its first part is done before the others.
#[cycle(statements)]
fn is_loop_of_end(
    sums: &[Sum],
    known: &mut Known,
    parts: &ForParts,
    body: &Statement,
) -> Result<bool, AllocError>
    ensures is { IfOk result (λ is. is ≡ only_prints (own_of known.old) (sums_of sums.now) (shown_in known.old)
        (For (g.optional_simple_of parts.now.first) (g.optional_expr_of parts.now.condition) (g.optional_simple_of parts.now.last) (g.statement_of body.now))) }
    ensures own { OnOk result (own_of known.new ≡ own_of known.old) }
    ensures set { result ≡ Ok true → set_of known.new ≡ set_of known.old }
{
    if !is_part_of_end(&Others { sums, known }, &parts.first) {
        return Ok(false);
    }
    let count = known.len();
    known.add(name_set_first(&parts.first))?;
    if !may_read_sums(&Others { sums, known }, &parts.condition) {
        return Ok(false);
    }
    if !is_part_of_end(&Others { sums, known }, &parts.last) {
        return Ok(false);
    }
    if !only_prints(sums, known, body)? {
        return Ok(false);
    }
    known.truncate(count);
    Ok(true)
}

/// The same of a loop over keys, which may read the variable that gets them.
#[cycle(statements)]
fn is_walk(
    sums: &[Sum],
    known: &mut Known,
    variable: &Bytes,
    array: &Bytes,
    body: &Statement,
) -> Result<bool, AllocError>
    ensures is { IfOk result (λ is. is ≡ only_prints (own_of known.old) (sums_of sums.now) (shown_in known.old) (ForIn variable.now array.now (g.statement_of body.now))) }
    ensures own { OnOk result (own_of known.new ≡ own_of known.old) }
    ensures set { result ≡ Ok true → set_of known.new ≡ set_of known.old }
{
    if !may_be_set(sums, variable.as_slice()) {
        return Ok(false);
    }
    if !is_array_sum(sums, array.as_slice()) {
        return Ok(false);
    }
    let count = known.len();
    known.add(Some(variable))?;
    if !only_prints(sums, known, body)? {
        return Ok(false);
    }
    known.truncate(count);
    Ok(true)
}

/// Whether the statements of END do no more than print what they make of sums to standard output.
#[cycle(statements)]
pub(crate) fn all_only_print(
    sums: &[Sum],
    known: &mut Known,
    all: &[Statement],
) -> Result<bool, AllocError>
    ensures is { IfOk result (λ is. is ≡ all_only_print (own_of known.old) (sums_of sums.now) (shown_in known.old) (g.statements_of all.now)) }
    ensures own { OnOk result (own_of known.new ≡ own_of known.old) }
    ensures set { result ≡ Ok true → set_of known.new ≡ set_of known.old }
{
    let count = known.len();
    for s in all {
        if !only_prints(sums, known, s)? {
            return Ok(false);
        }
        known.add(name_behind(s))?;
    }
    known.truncate(count);
    Ok(true)
}
