//! A worker thread for each processor of a machine, round one lock.
#![tactic(auto)]

mod locked;
mod pausing;
mod runs;
mod working;

pub use locked::Run;
pub use runs::run_workers;
