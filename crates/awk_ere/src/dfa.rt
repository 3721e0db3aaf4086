// A lazy DFA: its states are the position sets that were met, and its transitions are computed as they are needed and kept
// in a table of bounded room.

pub(crate) mod cursor;
pub(crate) mod table;
pub(crate) mod transition;
