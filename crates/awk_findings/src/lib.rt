//! What can be told of a program by its text and its tokens: where and why it is refused, and what it may not mean.
#![tactic(auto)]

mod assignments;
pub mod calls;
mod conditions;
mod definitions;
mod finding;
mod formats;
mod hints;
mod letters;
mod lexical;
mod names;
mod near;
mod patterns;
mod report;
mod scan;
mod special;
mod statements;
mod syntax;
mod text;
mod unused;
mod variables;
mod warnings;

pub use assignments::assignment_finding;
pub use finding::{Finding, Note, Place, Severity};
pub use formats::{FormatFault, format_fault};
pub use hints::{find_warnings, name_finding, pattern_finding, plain_finding, syntax_finding};
pub use letters::add_visible;
pub use lexical::lexical_finding;
pub use report::{Source, source_at, write_findings};
pub use syntax::{last_open, open_list, syntax_advice};
pub use text::{Line, Lines};
