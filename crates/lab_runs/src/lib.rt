//! Runs of a script whose processors make their steps in a chosen order: as a schedule says, or as numbers are drawn;
//! and the outcomes of many such runs.
#![tactic(auto)]

mod answers;
mod counting;
mod drawing;
mod ends;
mod following;
mod running;
mod steps;
mod tracing;

pub use counting::outcomes_text;
pub use following::Astray;
pub use no_memory::NoMemory;
pub use running::{Ran, run};
pub use steps::Step;
pub use tracing::trace;
