//! Pages behind doors, without a lock.
//!
//! The doors of [`live_doors`], and behind each the page of a frame. A touch reads or writes a word of the page of an
//! entry that its pass holds, and a bind gives a frame a new page once no pass holds an entry of it. Each page is in
//! its slot or with whoever has the frame's turn, which is taken by one compare and exchange and never waited for.
//!
//! Each touch draws a ticket. At the close all is as one thread would have it that made the touches in order of their
//! tickets: each was answered the word of its binding's page, and each page that was handed out or is left is its
//! binding's page after that binding's touches.
#![tactic(auto)]

mod closing;
mod errors;
mod keeper;
mod opening;
mod pages;
mod pass;
mod rule;
mod theorems;
mod touch;
mod views;

pub use closing::{Ended, Shown};
pub use errors::{Busy, NoMemory};
pub use keeper::Keeper;
pub use live_doors::{Behind, Closed};
pub use pages::LivePages;
pub use pass::Pass;
pub use rule::{Frames, Held, Size};
pub use theorems::{all_in_is_legal, entry_is_current, may_bind_has_no_holder};
pub use touch::{Bound, Made, Touch, Touched};
pub use views::{Hand, Holder, Part, View, Walker};
