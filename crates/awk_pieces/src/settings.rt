// Statements of BEGIN that set variables before the records.

ghost use Rattle.std.specs.Prelude.{◌≡◌};
ghost use Rattle.awk_grammar.specs.View as g;
ghost use Rattle.awk_pieces.specs.definitions.Pieceable.{is_plain, may_be_set, is_setting, is_simple_setting, only_sets, all_only_set};

use crate::expressions::keeps_to_record;
use crate::names::leaves_records;
use crate::readable::Every;
use awk_grammar::tree::{Expr, SimpleStatement, Statement};
use awk_lex::token::AssignmentOperator;

fn may_be_set(place: &Expr) -> bool
    ensures { result ≡ may_be_set (g.expr_of place.now) }
{
    match place {
        Expr::Name(name) => leaves_records(name.as_slice()),
        _ => false,
    }
}

fn is_setting(e: &Expr) -> bool
    ensures { result ≡ is_setting (g.expr_of e.now) }
{
    match e {
        Expr::Assign(AssignmentOperator::Plain, place, e) => {
            may_be_set(place) && keeps_to_record(&Every, e)
        }
        _ => false,
    }
}

fn only_sets(s: &Statement) -> bool
    ensures { result ≡ only_sets (g.statement_of s.now) }
{
    match s {
        Statement::Empty => true,
        Statement::Simple(SimpleStatement::Expression(e)) => is_setting(e),
        _ => false,
    }
}

/// Whether the statements of BEGIN do no more than set variables that leave the records as they are, to what may
/// be known before the records.
pub fn all_only_set(all: &[Statement]) -> bool
    ensures { result ≡ all_only_set (g.statements_of all.now) }
{
    for s in all {
        if !only_sets(s) {
            return false;
        }
    }
    true
}
