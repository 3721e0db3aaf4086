// The stages in which a program that sums up may run.

/// A stage of a run that sums up pieces of an input.
#[derive(Clone, Copy)]
pub enum Stage {
    /// A run over each piece, which prints its sums.
    Each,
    /// The run over what those print, joined in order.
    All,
}
