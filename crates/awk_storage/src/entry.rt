// What is kept of an active call besides its parameters and the height of its body.

/// The caller of a call: where it goes on, and where its operands begin.
#[derive(Clone, Copy)]
pub struct Caller {
    pub next: u32,
    pub base: usize,
}

/// A call that is active.
#[derive(Clone, Copy)]
pub struct Entry {
    /// How many parameters it has.
    pub count: usize,
    /// How many arrays there were before it.
    pub arrays_before: usize,
    /// What goes on behind it.
    pub caller: Caller,
}
