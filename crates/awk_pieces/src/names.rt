// The names of variables: awk's own, and those that the rules of a program set.

ghost use Rattle.std.specs.Prelude.{◌≡◌, ◌++◌, bytes_eq, IfOk, OnOk};
ghost use Rattle.std.specs.Option.{option_map};
ghost use Rattle.std.specs.List.{list_any};
ghost use Rattle.awk_grammar.specs.View as g;
ghost use Rattle.awk_kinds.specs.Names.{has_name};
ghost use Rattle.awk_pieces.specs.definitions.Pieceable.{is_counter, is_of_start, tells_apart, is_setting_of_awk, leaves_records, name_of, name_set, name_set_by, name_set_first, name_behind, listed, array_split, array_filled_alone, array_filled, array_filled_by, array_filled_first, array_behind, name_by, name_first, names_in, all_names_in, names_in_rules, names_set_in_rules, arrays_filled_in_rules, is_own, is_own_variable, is_own_array};

use awk_grammar::tree::{Expr, Item, SimpleStatement, Statement};
use awk_lex::token::{AssignmentOperator, BuiltIn};
use awk_value::Bytes;
use std::alloc::{AllocError, Global};

/// What rules set, or fill.
#[derive(Clone, Copy)]
pub(crate) enum Sort {
    Variable,
    Array,
}

/// Whether the variable tells where in the input a record stands.
fn is_counter(name: &[u8]) -> bool
    ensures { result ≡ is_counter name.now }
{
    name == b"NR".as_slice() || name == b"FNR".as_slice() || name == b"FILENAME".as_slice()
}

/// Whether the variable tells what the run was started with.
fn is_of_start(name: &[u8]) -> bool
    ensures { result ≡ is_of_start name.now }
{
    name == b"ARGC".as_slice() || name == b"ARGV".as_slice() || name == b"ENVIRON".as_slice()
}

/// Whether the variable may be another on each piece of an input: it tells where a record stands, or what the
/// run was started with.
pub fn tells_apart(name: &[u8]) -> bool
    ensures { result ≡ tells_apart name.now }
{
    is_counter(name) || is_of_start(name)
}

/// Whether an assignment to the variable before the run changes neither how records are found nor
/// their count (POSIX awk, Variables and Special Variables).
pub fn leaves_records(name: &[u8]) -> bool
    ensures { result ≡ leaves_records name.now }
{
    let finds = name == b"RS".as_slice() || name == b"NF".as_slice();
    !(tells_apart(name) || finds)
}

/// Whether it is another of awk's own variables.
fn is_setting_of_awk(name: &[u8]) -> bool
    ensures { result ≡ is_setting_of_awk name.now }
{
    name == b"CONVFMT".as_slice()
        || name == b"FS".as_slice()
        || name == b"NF".as_slice()
        || name == b"OFMT".as_slice()
        || name == b"OFS".as_slice()
        || name == b"ORS".as_slice()
        || name == b"RLENGTH".as_slice()
        || name == b"RS".as_slice()
        || name == b"RSTART".as_slice()
        || name == b"SUBSEP".as_slice()
}

/// The name that an expression is.
fn name_of(e: &Expr) -> Option<&Bytes>
    ensures { option_map (λ name. name.now) result ≡ name_of (g.expr_of e.now) }
{
    match e {
        Expr::Name(name) => Some(name),
        _ => None,
    }
}

/// The variable that an expression sets by `=`.
fn name_set(e: &Expr) -> Option<&Bytes>
    ensures { option_map (λ name. name.now) result ≡ name_set (g.expr_of e.now) }
{
    match e {
        Expr::Assign(AssignmentOperator::Plain, place, _) => name_of(place),
        _ => None,
    }
}

/// The variable that a statement sets by `=`.
fn name_set_by(simple: &SimpleStatement) -> Option<&Bytes>
    ensures { option_map (λ name. name.now) result ≡ name_set_by (g.simple_of simple.now) }
{
    match simple {
        SimpleStatement::Expression(e) => name_set(e),
        _ => None,
    }
}

/// The variable that the first part of a `for` sets by `=`.
pub fn name_set_first(first: &Option<SimpleStatement>) -> Option<&Bytes>
    ensures { option_map (λ name. name.now) result ≡ name_set_first (g.optional_simple_of first.now) }
{
    match first {
        Some(simple) => name_set_by(simple),
        None => None,
    }
}

/// The variable that is set so behind a statement.
pub fn name_behind(s: &Statement) -> Option<&Bytes>
    ensures { option_map (λ name. name.now) result ≡ name_behind (g.statement_of s.now) }
{
    match s {
        Statement::Simple(simple) => name_set_by(simple),
        Statement::For(parts, _) => name_set_first(&parts.first),
        _ => None,
    }
}

/// The array that a call of `split` fills.
fn array_split(arguments: &[Expr]) -> Option<&Bytes>
    ensures { option_map (λ name. name.now) result ≡ array_split (g.exprs_of arguments.now) }
{
    match arguments.get(1) {
        Some(place) => name_of(place),
        None => None,
    }
}

/// The array that an expression fills, where it is a call of `split`.
fn array_filled_alone(e: &Expr) -> Option<&Bytes>
    ensures { option_map (λ name. name.now) result ≡ array_filled_alone (g.expr_of e.now) }
{
    match e {
        Expr::BuiltIn(BuiltIn::Split, arguments) => array_split(arguments),
        _ => None,
    }
}

/// The array that an expression fills, where it is a call of `split`, or assigns what that gives.
fn array_filled(e: &Expr) -> Option<&Bytes>
    ensures { option_map (λ name. name.now) result ≡ array_filled (g.expr_of e.now) }
{
    match e {
        Expr::Assign(_, _, e) => array_filled_alone(e),
        _ => array_filled_alone(e),
    }
}

/// The array that a statement fills so, or empties.
fn array_filled_by(simple: &SimpleStatement) -> Option<&Bytes>
    ensures { option_map (λ name. name.now) result ≡ array_filled_by (g.simple_of simple.now) }
{
    match simple {
        SimpleStatement::Expression(e) => array_filled(e),
        SimpleStatement::DeleteAll(array) => Some(array),
        _ => None,
    }
}

/// The array that the first part of a `for` fills so, or empties.
pub(crate) fn array_filled_first(first: &Option<SimpleStatement>) -> Option<&Bytes>
    ensures { option_map (λ name. name.now) result ≡ array_filled_first (g.optional_simple_of first.now) }
{
    match first {
        Some(simple) => array_filled_by(simple),
        None => None,
    }
}

/// The array that is filled so, or empty, behind a statement.
pub(crate) fn array_behind(s: &Statement) -> Option<&Bytes>
    ensures { option_map (λ name. name.now) result ≡ array_behind (g.statement_of s.now) }
{
    match s {
        Statement::Simple(simple) => array_filled_by(simple),
        Statement::For(parts, _) => array_filled_first(&parts.first),
        _ => None,
    }
}

fn name_by(by: Sort, simple: &SimpleStatement) -> Option<&Bytes>
    ensures { option_map (λ name. name.now) result ≡ name_by by (g.simple_of simple.now) }
{
    match by {
        Sort::Variable => name_set_by(simple),
        Sort::Array => array_filled_by(simple),
    }
}

fn name_first(by: Sort, first: &Option<SimpleStatement>) -> Option<&Bytes>
    ensures { option_map (λ name. name.now) result ≡ name_first by (g.optional_simple_of first.now) }
{
    match first {
        Some(simple) => name_by(by, simple),
        None => None,
    }
}

/// Adds a name, where there is one.
pub(crate) fn add_name(names: &mut Vec<Bytes>, name: Option<&Bytes>) -> Result<(), AllocError>
    ensures { OnOk result (names.new.items ≡ names.old.items ++ listed (option_map (λ name. name.now) name.entry)) }
{
    if let Some(name) = name {
        names.push(name.clone()?)?;
    }
    Ok(())
}

/// Adds the names that a statement and those in it set or fill.
#[cycle(names)]
fn add_names(names: &mut Vec<Bytes>, by: Sort, s: &Statement) -> Result<(), AllocError>
    ensures { OnOk result (names.new.items ≡ names.old.items ++ names_in by (g.statement_of s.now)) }
{
    match s {
        Statement::Simple(simple) => add_name(names, name_by(by, simple)),
        Statement::Block(all) => add_all_names(names, by, all),
        Statement::If(_, s) | Statement::While(_, s) | Statement::Do(s, _) => {
            add_names(names, by, s)
        }
        Statement::IfElse(_, s, other) => {
            add_names(names, by, s)?;
            add_names(names, by, other)
        }
        Statement::For(parts, s) => {
            add_name(names, name_first(by, &parts.first))?;
            add_names(names, by, s)
        }
        Statement::Empty | Statement::ForIn(_, _, _) => Ok(()),
    }
}

#[cycle(names)]
fn add_all_names(names: &mut Vec<Bytes>, by: Sort, all: &[Statement]) -> Result<(), AllocError>
    ensures { OnOk result (names.new.items ≡ names.old.items ++ all_names_in by (g.statements_of all.now)) }
{
    for s in all {
        add_names(names, by, s)?;
    }
    Ok(())
}

fn names_in_rules(alloc: Global, by: Sort, items: &[Item]) -> Result<Vec<Bytes>, AllocError>
    ensures { IfOk result (λ names. names.items ≡ names_in_rules by (g.items_of items.now)) }
{
    let mut names = Vec::new(alloc);
    for item in items {
        if let Item::Action(block) | Item::PatternAction(_, block) = item {
            add_all_names(&mut names, by, block)?;
        }
    }
    Ok(names)
}

/// The variables that the rules of a program set by statements of their own, or as a loop begins.
///
/// # Errors
///
/// Where memory is refused.
pub fn names_set_in_rules(alloc: Global, items: &[Item]) -> Result<Vec<Bytes>, AllocError>
    ensures { IfOk result (λ names. names.items ≡ names_set_in_rules (g.items_of items.now)) }
{
    names_in_rules(alloc, Sort::Variable, items)
}

/// The arrays that the rules of a program fill by `split`, or empty, by statements of their own or as a loop begins.
///
/// # Errors
///
/// Where memory is refused.
pub fn arrays_filled_in_rules(alloc: Global, items: &[Item]) -> Result<Vec<Bytes>, AllocError>
    ensures { IfOk result (λ names. names.items ≡ arrays_filled_in_rules (g.items_of items.now)) }
{
    names_in_rules(alloc, Sort::Array, items)
}

/// Whether one of the names is this one.
pub(crate) fn has_name(names: &[Bytes], name: &[u8]) -> bool
    ensures { result ≡ has_name names.now name.now }
{
    names.iter().any(|other| name == other.as_slice())
}

/// Whether the variable is one of the record, where rules set these names: not one of awk's own.
pub fn is_own(names: &[Bytes], name: &[u8]) -> bool
    ensures { result ≡ is_own names.now name.now }
{
    has_name(names, name) && !(tells_apart(name) || is_setting_of_awk(name))
}

/// Whether the variable is one of the record, where rules set these names and fill these arrays.
pub(crate) fn is_own_variable(names: &[Bytes], arrays: &[Bytes], name: &[u8]) -> bool
    ensures { result ≡ is_own_variable names.now arrays.now name.now }
{
    !has_name(arrays, name) && is_own(names, name)
}

/// Whether the array is one of the record, where rules set these names and fill these arrays.
pub(crate) fn is_own_array(names: &[Bytes], arrays: &[Bytes], name: &[u8]) -> bool
    ensures { result ≡ is_own_array names.now arrays.now name.now }
{
    has_name(arrays, name)
        && !(has_name(names, name) || tells_apart(name) || is_setting_of_awk(name))
}
