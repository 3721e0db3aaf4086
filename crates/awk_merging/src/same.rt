// Whether two trees are the same.

ghost use Rattle.std.specs.Prelude.{◌≡◌, true};
ghost use Rattle.awk_grammar.specs.View.{pattern_of, item_of};

mod expressions;
mod operators;
mod statements;

use awk_grammar::tree::{Item, Pattern};
use awk_value::Bytes;
use expressions::{same_bytes, same_expr};
use statements::same_statements;

fn same_pattern(a: &Pattern, b: &Pattern) -> bool
    ensures { result ≡ true → pattern_of a.now ≡ pattern_of b.now }
{
    match (a, b) {
        (Pattern::Single(a), Pattern::Single(b)) => same_expr(a, b),
        (Pattern::Range(a, c), Pattern::Range(b, d)) => same_expr(a, b) && same_expr(c, d),
        _ => false,
    }
}

fn same_names(list: &[Bytes], others: &[Bytes]) -> bool
    ensures { result ≡ true → list.now ≡ others.now }
{
    if list.len() != others.len() {
        return false;
    }
    for (i, x) in list.iter().enumerate() {
        if !same_bytes(x, &others[i]) {
            return false;
        }
    }
    true
}

/// Whether two items are the same.
pub(crate) fn same_item(a: &Item, b: &Item) -> bool
    ensures { result ≡ true → item_of a.now ≡ item_of b.now }
{
    match (a, b) {
        (Item::Begin(all), Item::Begin(others)) => same_statements(all, others),
        (Item::End(all), Item::End(others)) => same_statements(all, others),
        (Item::Action(all), Item::Action(others)) => same_statements(all, others),
        (Item::PatternAction(p, all), Item::PatternAction(q, others)) => {
            same_pattern(p, q) && same_statements(all, others)
        }
        (Item::PatternOnly(p), Item::PatternOnly(q)) => same_pattern(p, q),
        (Item::Function(f, xs, all), Item::Function(g, ys, others)) => {
            same_bytes(f, g) && same_names(xs, ys) && same_statements(all, others)
        }
        _ => false,
    }
}
