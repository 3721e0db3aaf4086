// A child that a node may have or lack.

use crate::checked_expressions::CheckedExpr;

/// A child that may be left out.
#[derive(Drop)]
pub enum OptionalChild {
    /// It is left out.
    Absent,
    /// It stands there, none if it is too high.
    Present(Option<CheckedExpr>),
}
