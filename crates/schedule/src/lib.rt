//! The schedule of a machine: in which order its processors make their steps. It stands below a script, after a line
//! `schedule`, a line for each thing to do.
#![tactic(auto)]

mod fields;
mod inputs;
mod lines;
mod orders;
mod reader;
mod reading;
mod refusals;

pub use orders::{Line, Opening, Order};
pub use reader::{ScheduleFault, Scheduled, read_scheduled};
pub use refusals::{Cause, Refused};
