//! Findings as a log of SARIF 2.1.0, the form of JSON in which builds and code hosts take what checkers tell.
#![tactic(auto)]

mod log;
mod model;
mod places;

pub use log::{Checked, sarif_of};
