// Memory that is kept for its room.

use std::marker::Model;

/// Memory that is kept for its room: what it holds is of no matter.
#[derive(Drop)]
pub struct Room {
    pub(crate) bytes: Vec<u8>,
}

impl Model for Room {
    ghost Value = { Unit {0} };

    ghost view = { λ r. tt };
}
