//! Programs that may run on pieces of their input side by side, and the law that says so.
#![tactic(auto)]

mod expressions;
mod laws;
mod names;
mod pieceable;
mod readable;
mod settings;

pub use expressions::{
    all_keep_to_record, keeps_to_record, may_keep_to_record, pattern_keeps_to_record, sets_own,
};
pub use laws::law_of_pieces;
pub use names::{
    arrays_filled_in_rules, is_own, leaves_records, name_behind, name_set_first,
    names_set_in_rules, tells_apart,
};
pub use pieceable::is_pieceable;
pub use readable::{Known, Readable};
pub use settings::all_only_set;
