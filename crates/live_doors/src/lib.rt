//! Revocation on atomic words, without a lock.
//!
//! Processors on threads of their own hold entries of frames, each by its [`Pass`]. A [`Keeper`] closes the doors of
//! frames, raises a stamp, and asks whether every processor has forgotten its entries since. What TLB shootdown does
//! by an interrupt and a wait is done here by words that each side only reads and stores, so no call waits.
#![tactic(auto)]

mod doors;
mod entries;
mod errors;
mod keeper;
mod opening;
mod pass;
mod rows;
mod rule;
mod theorems;
mod views;
mod words;

pub use doors::{Ended, LiveDoors};
pub use entries::Entries;
pub use errors::{Behind, Closed, NoMemory};
pub use keeper::Keeper;
pub use pass::Pass;
pub use rows::Rows;
pub use rule::{MOST_CPUS, Revocation, Size};
pub use theorems::{may_bind_has_no_holder, never_bound_has_no_holder, noted_is_clear};
pub use views::{View, Walk, Watch};
pub use words::{REQUEST, acknowledgement_word, door_word};
