//! The book of a run: each event that the storage system makes, in order, the text of each, and what is read of a text.
#![tactic(auto)]

mod entries;
mod reading;
mod replies;
mod runs;
mod texts;

pub use entries::Entry;
pub use reading::{bare_reply, read_entry};
pub use replies::{Reply, is_same_reply};
pub use runs::{Book, NoMemory};
pub use texts::entry_text;
