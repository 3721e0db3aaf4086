// How high a tree may be.

/// No program is higher.
pub const MAX_HEIGHT: u32 = 200;
