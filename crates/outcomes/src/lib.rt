//! The outcomes of a script over many runs: what its processes were answered, in how many of the runs, and where the
//! accounts differ that the runs left.
#![tactic(auto)]

mod lines;
mod reporting;
mod table;
mod texts;

pub use no_memory::NoMemory;
pub use reporting::report;
pub use table::Table;
