//! What is gathered of an input in parts, and the laws by which it is what is gathered of the whole; which programs sum up
//! so, and the two programs that are derived of one: for each part, and for what these print.
#![tactic(auto)]

mod derived;
mod end_actions;
mod item_texts;
mod laws;
mod mergeable;
mod others;
mod record_rules;
mod same;
mod sums;
mod texts;

pub use derived::{is_all_of, is_each_of};
pub use laws::{
    examples, law_of_additions, law_of_all, law_of_cells, law_of_derived, law_of_each, law_of_end,
    law_of_gathering, law_of_merging, law_of_newlines, law_of_reading, law_of_rules, law_of_states,
    law_of_sums, law_of_ways,
};
pub use mergeable::{has_rule, have_line_names, is_mergeable, leave_sums};
pub use sums::{Sum, sums_of};
pub use texts::{all_text, each_text};
