// Whole programs over a world in memory.

mod disturbed;
mod execute;
mod witness;
