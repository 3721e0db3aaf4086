// What the grammar excludes, and no tree that was parsed has. There is no answer for it but want of memory, which the
// functions below give for nothing else.

ghost use Rattle.std.specs.Prelude.{◌≡◌, true, not, is_some};
ghost use Rattle.awk_grammar.specs.Arguments.{accepts, is_place};
ghost use Rattle.awk_grammar.specs.View.{expr_of};

use awk_grammar::arguments::accepts;
use awk_grammar::tree::Expr;
use awk_lex::token::BuiltIn;
use std::alloc::AllocError;

/// Want of memory, for a number of arguments that the grammar has not at this function. None for one that it has.
pub(crate) fn no_such_call(function: BuiltIn, count: usize) -> Option<AllocError>
    ensures { is_some result ≡ not (accepts function count true) }
{
    if accepts(function, count, true) {
        return None;
    }
    Some(AllocError)
}

/// Want of memory, for an expression that is no place. None for a place.
pub(crate) fn no_place(e: &Expr) -> Option<AllocError>
    ensures { is_some result ≡ not (is_place (expr_of e.now)) }
{
    match e {
        Expr::Name(_) => None,
        Expr::Element(_, _) => None,
        Expr::Field(_) => None,
        _ => Some(AllocError),
    }
}
