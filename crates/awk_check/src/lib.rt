//! The check of a program: whether it is refused, where and why, and what it may not mean; and a run of it, with what is
//! told of that.
#![tactic(auto)]

mod expected;
mod merging;
mod merging_reasons;
mod part_nodes;
mod parts;
mod pieces;
mod pieces_reasons;
mod reading;
mod reasons;
mod refused;
mod run_counts;
mod run_places;
mod run_told;
mod stage;
mod statements;
mod trace;
mod verdict;

pub use awk_findings::{
    Finding, Note, Place, Severity, Source, add_visible, assignment_finding, write_findings,
};
pub use merging::{DerivedReport, derive};
pub use pieces::{PiecesReport, check_pieces, may_run_on_pieces};
pub use run_told::run_and_tell;
pub use stage::Stage;
pub use verdict::{Report, check, status};
