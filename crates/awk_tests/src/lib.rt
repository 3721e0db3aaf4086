//! Tests over worlds in memory: each public call of a run once, and runs in which something fails.
#![tactic(auto)]

#[cfg(test)]
mod command;
#[cfg(test)]
mod inputs;
#[cfg(test)]
mod outputs;
#[cfg(test)]
mod programs;
#[cfg(test)]
mod rows;
#[cfg(test)]
mod system;
#[cfg(test)]
mod worlds;
