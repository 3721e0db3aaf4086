//! A log for a world that keeps none: proofs read it, and it takes neither bytes nor time.
//!
//! `Logged` is a world with such a log of the calls that are made of it; `Beginning` is what that world was when the log was
//! begun, and `AtStart` the one before its first call.
#![tactic(auto)]

mod call;
mod journal;
mod logged;

pub use logged::{AtStart, Beginning, Logged};
