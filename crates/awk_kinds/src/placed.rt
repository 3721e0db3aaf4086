// Whether each statement that ends something stands where it may.

ghost use Rattle.std.specs.Prelude.{◌≡◌};
ghost use Rattle.awk_grammar.specs.View as g;
ghost use Rattle.awk_kinds.specs.definitions.Placed.{in_a_loop, simple_fits, statement_fits};
ghost use Rattle.awk_kinds.specs.definitions.Placed.{block_fits, item_fits, are_in_place};
ghost use Rattle.awk_kinds.specs.support.Place.{place_of};

use awk_grammar::tree as grammar;

/// What a statement that stands there may end.
#[derive(Clone, Copy)]
struct Place {
    a_loop: bool,
    a_function: bool,
    a_record: bool,
}

const IN_BEGIN_OR_END: Place = Place {
    a_loop: false,
    a_function: false,
    a_record: false,
};

const IN_A_RULE: Place = Place {
    a_loop: false,
    a_function: false,
    a_record: true,
};

/// A function may be called from a rule.
const IN_A_FUNCTION: Place = Place {
    a_loop: false,
    a_function: true,
    a_record: true,
};

/// The body of a loop that stands there.
fn in_a_loop(place: Place) -> Place
    ensures { place_of result ≡ in_a_loop (place_of place) }
{
    Place {
        a_loop: true,
        ..place
    }
}

fn simple_fits(place: Place, simple: &grammar::SimpleStatement) -> bool
    ensures { result ≡ simple_fits (place_of place) (g.simple_of simple.now) }
{
    match simple {
        grammar::SimpleStatement::Next | grammar::SimpleStatement::NextFile => place.a_record,
        grammar::SimpleStatement::Break | grammar::SimpleStatement::Continue => place.a_loop,
        grammar::SimpleStatement::Return(_) => place.a_function,
        _ => true,
    }
}

#[cycle(statements)]
fn statement_fits(place: Place, s: &grammar::Statement) -> bool
    ensures { result ≡ statement_fits (place_of place) (g.statement_of s.now) }
{
    match s {
        grammar::Statement::Empty => true,
        grammar::Statement::Simple(simple) => simple_fits(place, simple),
        grammar::Statement::Block(all) => block_fits(place, all),
        grammar::Statement::If(_, s) => statement_fits(place, s),
        grammar::Statement::IfElse(_, s, other) => {
            statement_fits(place, s) && statement_fits(place, other)
        }
        grammar::Statement::While(_, s)
        | grammar::Statement::Do(s, _)
        | grammar::Statement::ForIn(_, _, s)
        | grammar::Statement::For(_, s) => statement_fits(in_a_loop(place), s),
    }
}

#[cycle(statements)]
fn block_fits(place: Place, all: &[grammar::Statement]) -> bool
    ensures { result ≡ block_fits (place_of place) (g.statements_of all.now) }
{
    for s in all {
        if !statement_fits(place, s) {
            return false;
        }
    }
    true
}

fn item_fits(item: &grammar::Item) -> bool
    ensures { result ≡ item_fits (g.item_of item.now) }
{
    match item {
        grammar::Item::Begin(block) | grammar::Item::End(block) => {
            block_fits(IN_BEGIN_OR_END, block)
        }
        grammar::Item::Action(block) | grammar::Item::PatternAction(_, block) => {
            block_fits(IN_A_RULE, block)
        }
        grammar::Item::PatternOnly(_) => true,
        grammar::Item::Function(_, _, block) => block_fits(IN_A_FUNCTION, block),
    }
}

/// Whether each `next`, `nextfile`, `break`, `continue` and `return` stands where it may (POSIX awk, Actions;
/// User-Defined Functions).
pub(crate) fn are_in_place(items: &[grammar::Item]) -> bool
    ensures { result ≡ are_in_place (g.items_of items.now) }
{
    for item in items {
        if !item_fits(item) {
            return false;
        }
    }
    true
}
