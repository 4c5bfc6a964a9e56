//! The bulk store: a fast store that stands between core and a volume's disk.
//!
//! It is a drive over two drives. Pages that are written go to the fast store; when it is full, its oldest page goes to
//! the disk first. A page is read from where it is.
//!
//! Costs: a read is one read of one drive. A write is one write of the fast store, and where a page must give way, a
//! read of the fast store and a write of the disk before it. No call walks the records or the places. Only the `new`s
//! take memory.
#![tactic(auto)]

mod any_drive;
mod core_bulk;
mod index;
mod parts;
mod store;

pub use any_drive::AnyDrive;
pub use core_bulk::CoreBulk;
pub use index::Held;
pub use no_memory::NoMemory;
pub use store::BulkStore;
