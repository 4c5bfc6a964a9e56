//! The drill: threads that touch pages behind doors, without a lock.
//!
//! Each processor adds to the first words of frames' pages, on a thread of its own, while a keeper on another closes
//! the doors of the frames and binds them to new pages. The sum of all that was added is then found again in the pages
//! that were handed out, those that are left, and the adds that no touch made, whatever the schedule was.
#![tactic(auto)]

mod errors;
mod finish;
mod kept;
mod roles;
mod run;
mod text;
mod waits;
mod work;
mod worker;

pub use errors::NoMemory;
pub use run::{Drilled, drill};
pub use text::drilled_text;
