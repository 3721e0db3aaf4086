// Places in a program that is being made, and what is kept of the groups that are open.

/// How far a program had come at a place.
#[derive(Clone, Copy)]
pub struct Checkpoint {
    /// The size of all that stands before it.
    pub size: usize,
    /// How many instructions do.
    pub instructions: usize,
    /// How many classes do.
    pub classes: usize,
}

/// A group that is open, or the whole pattern.
#[derive(Clone, Copy)]
pub struct Group {
    pub begin: Checkpoint,
    /// Where the instructions of its present branch begin.
    pub branch: usize,
    /// How many branches are complete.
    pub bars: usize,
}

/// The last piece of the present branch.
#[derive(Clone, Copy)]
pub enum Last {
    Nothing,
    Anchor,
    /// An atom or a group with its repeats, and where it begins.
    Part(Checkpoint),
}
