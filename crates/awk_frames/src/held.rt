// A child as a node holds it.

ghost use Rattle.std.specs.Prelude.{◌≡◌, ◌≤◌};
ghost use Rattle.awk_grammar.specs.definitions.Height.{max_height, optional_height};
ghost use Rattle.awk_frames.specs.support.CheckedExpressions.{optional_of};

use awk_grammar::tree::Expr;

/// A child that may be left out, and its height.
#[derive(Drop)]
pub(crate) struct HeldChild {
    pub expr: Option<Box<Expr>>,
    pub height: u32,
    ghost counted: { height ≡ optional_height (optional_of expr) },
    ghost low: { height ≤ max_height },
}
