//! Runs scripts on the machine, with a worker thread for each of its processors: the program's top call.
#![tactic(auto)]

mod checking;
mod drives;
mod ending;
mod finished;
mod printing;
mod reading;
mod running;
mod summing;
mod top;
mod words;

pub use checking::LISTING_BYTES;
pub use drives::{drive_of, drives_of};
pub use ending::{end_machine, shut_down_machine};
pub use finished::{Finished, Status};
pub use no_memory::NoMemory;
pub use reading::SCRIPT_BYTES;
pub use running::boot_machine;
pub use summing::{listing_of_machine, summary_of_machine};
pub use top::multics;
pub use words::{Form, Words};
