// The sums of a program: where its rules add to.

ghost use Rattle.std.specs.Prelude.{◌≡◌, ◌||◌, IfOk, OnOk};
ghost use Rattle.awk_grammar.specs.Tree.{For};
ghost use Rattle.awk_grammar.specs.View as g;
ghost use Rattle.awk_pieces.specs.definitions.Pieceable.{is_own};
ghost use Rattle.awk_merging.specs.definitions.Sums.{name_of_sum, is_taken};
ghost use Rattle.awk_merging.specs.definitions.Mergeable.{sum_of_place, sum_added_to, sum_in_simple, sum_in_part, sums_in, sums_in_all, sums_in_item, sums_of_program, is_sum, is_array_sum, is_variable_sum};
ghost use Rattle.awk_merging.specs.support.SumsOf.{sum_of, sums_of, is_array, is_variable};
ghost use Rattle.awk_merging.specs.support.WithSums.{with_sum, with_sums};

use awk_grammar::tree::{Expr, ForParts, Item, SimpleStatement, Statement, Tree};
use awk_kinds::is_special;
use awk_lex::token::{AssignmentOperator, IncrementOperator};
use awk_pieces::{is_own, names_set_in_rules};
use awk_value::Bytes;
use std::alloc::{AllocError, Global};

/// Where a program sums up.
#[derive(Drop)]
pub enum Sum {
    /// In an array, by its keys.
    ByKey(Bytes),
    /// In a variable.
    Alone(Bytes),
}

impl Sum {
    /// The name of the array or the variable.
    pub fn name(&self) -> &[u8]
        ensures { result.now ≡ name_of_sum (sum_of self.now) }
    {
        match self {
            Sum::ByKey(name) | Sum::Alone(name) => name.as_slice(),
        }
    }

    fn is_array(&self, name: &[u8]) -> bool
        ensures { result ≡ is_array (sum_of self.now) name.now }
    {
        match self {
            Sum::ByKey(array) => array.as_slice() == name,
            Sum::Alone(_) => false,
        }
    }

    fn is_variable(&self, name: &[u8]) -> bool
        ensures { result ≡ is_variable (sum_of self.now) name.now }
    {
        match self {
            Sum::ByKey(_) => false,
            Sum::Alone(variable) => variable.as_slice() == name,
        }
    }
}

/// Whether the name is one that no sum has: of the derived programs, or of awk itself.
pub(crate) fn is_taken(name: &[u8]) -> bool
    ensures { result ≡ is_taken name.now }
{
    name == b"merge_what".as_slice() || name == b"merge_key".as_slice() || is_special(name)
}

/// Whether one of the sums has this name.
pub(crate) fn is_sum(sums: &[Sum], name: &[u8]) -> bool
    ensures { result ≡ is_sum (sums_of sums.now) name.now }
{
    sums.iter().any(|sum| sum.name() == name)
}

/// Whether one of the sums is this array's.
pub(crate) fn is_array_sum(sums: &[Sum], name: &[u8]) -> bool
    ensures { result ≡ is_array_sum (sums_of sums.now) name.now }
{
    sums.iter().any(|sum| sum.is_array(name))
}

/// Whether one of the sums is this variable's.
pub(crate) fn is_variable_sum(sums: &[Sum], name: &[u8]) -> bool
    ensures { result ≡ is_variable_sum (sums_of sums.now) name.now }
{
    sums.iter().any(|sum| sum.is_variable(name))
}

/// Adds a sum, unless its name is there already.
fn add_sum(sums: &mut Vec<Sum>, sum: Sum) -> Result<(), AllocError>
    ensures { OnOk result (sums_of sums.new.items ≡ with_sum (sums_of sums.old.items) (sum_of sum)) }
{
    if !is_sum(sums, sum.name()) {
        sums.push(sum)?;
    }
    Ok(())
}

/// Whether no sum has the name: it is taken, or a variable of the record's.
fn is_left_out(names: &[Bytes], name: &[u8]) -> bool
    ensures { result ≡ (is_taken name.now || is_own names.now name.now) }
{
    is_taken(name) || is_own(names, name)
}

/// Adds the sum of a place, where it is an element or a variable that is neither awk's own nor of the record. The rules
/// set these names.
fn add_place(sums: &mut Vec<Sum>, names: &[Bytes], place: &Expr) -> Result<(), AllocError>
    ensures { OnOk result (sums_of sums.new.items ≡
        with_sums (sums_of sums.old.items) (sum_of_place (is_own names.now) (g.expr_of place.now))) }
{
    match place {
        Expr::Element(array, _) => {
            if is_left_out(names, array.as_slice()) {
                return Ok(());
            }
            add_sum(sums, Sum::ByKey(array.clone()?))
        }
        Expr::Name(variable) => {
            if is_left_out(names, variable.as_slice()) {
                return Ok(());
            }
            add_sum(sums, Sum::Alone(variable.clone()?))
        }
        _ => Ok(()),
    }
}

/// Adds the sum that an expression adds to, where it does.
fn add_of_expression(sums: &mut Vec<Sum>, names: &[Bytes], e: &Expr) -> Result<(), AllocError>
    ensures { OnOk result (sums_of sums.new.items ≡
        with_sums (sums_of sums.old.items) (sum_added_to (is_own names.now) (g.expr_of e.now))) }
{
    match e {
        Expr::Assign(AssignmentOperator::Add, place, _) => add_place(sums, names, place),
        Expr::PreIncrement(IncrementOperator::Increment, place)
        | Expr::PostIncrement(IncrementOperator::Increment, place) => {
            add_place(sums, names, place)
        }
        _ => Ok(()),
    }
}

fn add_of_simple(
    sums: &mut Vec<Sum>,
    names: &[Bytes],
    simple: &SimpleStatement,
) -> Result<(), AllocError>
    ensures { OnOk result (sums_of sums.new.items ≡
        with_sums (sums_of sums.old.items) (sum_in_simple (is_own names.now) (g.simple_of simple.now))) }
{
    match simple {
        SimpleStatement::Expression(e) => add_of_expression(sums, names, e),
        _ => Ok(()),
    }
}

fn add_of_part(
    sums: &mut Vec<Sum>,
    names: &[Bytes],
    part: &Option<SimpleStatement>,
) -> Result<(), AllocError>
    ensures { OnOk result (sums_of sums.new.items ≡
        with_sums (sums_of sums.old.items) (sum_in_part (is_own names.now) (g.optional_simple_of part.now))) }
{
    match part {
        Some(simple) => add_of_simple(sums, names, simple),
        None => Ok(()),
    }
}

#[cycle(statements)]
fn add_of_statement(sums: &mut Vec<Sum>, names: &[Bytes], s: &Statement) -> Result<(), AllocError>
    ensures { OnOk result (sums_of sums.new.items ≡
        with_sums (sums_of sums.old.items) (sums_in (is_own names.now) (g.statement_of s.now))) }
{
    match s {
        Statement::Simple(simple) => add_of_simple(sums, names, simple),
        Statement::Block(all) => add_of_all(sums, names, all),
        Statement::If(_, s) | Statement::While(_, s) | Statement::Do(s, _) => {
            add_of_statement(sums, names, s)
        }
        Statement::IfElse(_, s, other) => {
            add_of_statement(sums, names, s)?;
            add_of_statement(sums, names, other)
        }
        Statement::For(parts, s) => add_of_loop(sums, names, parts, s),
        Statement::Empty | Statement::ForIn(_, _, _) => Ok(()),
    }
}

/// The same of a `for`, with these parts and this body.
#[cycle(statements)]
fn add_of_loop(
    sums: &mut Vec<Sum>,
    names: &[Bytes],
    parts: &ForParts,
    body: &Statement,
) -> Result<(), AllocError>
    ensures { OnOk result (sums_of sums.new.items ≡ with_sums (sums_of sums.old.items) (sums_in (is_own names.now)
        (For (g.optional_simple_of parts.now.first) (g.optional_expr_of parts.now.condition) (g.optional_simple_of parts.now.last) (g.statement_of body.now)))) }
{
    add_of_part(sums, names, &parts.first)?;
    add_of_part(sums, names, &parts.last)?;
    add_of_statement(sums, names, body)
}

#[cycle(statements)]
fn add_of_all(sums: &mut Vec<Sum>, names: &[Bytes], all: &[Statement]) -> Result<(), AllocError>
    ensures { OnOk result (sums_of sums.new.items ≡
        with_sums (sums_of sums.old.items) (sums_in_all (is_own names.now) (g.statements_of all.now))) }
{
    for s in all {
        add_of_statement(sums, names, s)?;
    }
    Ok(())
}

fn add_of_item(sums: &mut Vec<Sum>, names: &[Bytes], item: &Item) -> Result<(), AllocError>
    ensures { OnOk result (sums_of sums.new.items ≡
        with_sums (sums_of sums.old.items) (sums_in_item (is_own names.now) (g.item_of item.now))) }
{
    match item {
        Item::Action(block) | Item::PatternAction(_, block) => add_of_all(sums, names, block),
        _ => Ok(()),
    }
}

/// The sums of a program, each once, in the order of its text: the arrays and variables that its rules add to by
/// `+=` and `++`, without those that are awk's own or a derived program's, and without the variables of the record. Of an
/// array and a variable of one name the one that comes first is a sum. Fails only where memory is refused.
pub fn sums_of(alloc: Global, tree: &Tree) -> Result<Vec<Sum>, AllocError>
    ensures { IfOk result (λ sums. sums_of sums.items ≡ sums_of_program (g.tree_of tree.now)) }
{
    let names = names_set_in_rules(alloc, &tree.items)?;
    let mut sums = Vec::new(alloc);
    for item in tree.items.as_slice() {
        add_of_item(&mut sums, &names, item)?;
    }
    Ok(sums)
}
