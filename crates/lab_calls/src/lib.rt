//! What the program `lab` does by its words: it reads a script, has its processors make their steps in a chosen order,
//! and writes the listing, each step, or the outcomes of many orders; or it judges a listing, and says why a line of it
//! is refused.
#![tactic(auto)]

mod counting;
mod judging;
mod printing;
mod status;
mod top;
mod words;

pub use lab_runs::NoMemory;
pub use status::{Finished, Status};
pub use top::{SCHEDULE_BYTES, lab};
pub use words::{Form, Words};
