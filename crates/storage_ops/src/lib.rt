//! Storage operations: the directory tree with its accounts over segment control, as every command looks at them and
//! changes them (Bensoussan, Clingen and Daley 1972; Organick 1972).
//!
//! A `Store` has the tree, the active segments with their pages and descriptors, and the principals of the processes.
//! It shows flat stores (`Shows`): those of its tree, its numbers and its stored pages, with the words of its picture.
//! What a command is refused, and what it changes, is said of each flat store that is shown.
//!
//! A segment may move to another volume, a page in each call (`move_begin`, `move_next`, `move_commit`). Its volumes
//! are seen at rest meanwhile: without the home that the move has taken. Calls that change homes, file maps or the
//! words of page tables, and those that look at what is stored or how full a volume is, ask that no segment moves
//! (`still`).
//!
//! Costs: a path is walked by a look-up for each name, and a uid is found in a table. No call walks all branches,
//! records, descriptors or active segments. None but `new` takes memory.
#![tactic(auto)]

mod chains;
mod commands;
mod connecting;
mod cutting;
mod deleting;
mod finding;
mod making;
mod moving;
mod naming;
mod pages;
mod references;
mod replies;
mod rights;
mod sizes;
mod starting;
mod store;
mod storing;
mod testing;

pub use no_memory::NoMemory;
pub use replies::is_refusal;
pub use store::Store;
