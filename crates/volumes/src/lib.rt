//! The volumes of the machine, each with a drive, a map of its records and a VTOC.
//!
//! A drive is a list of pages. `CoreDrive` keeps them in core, and fails at the calls that it is told.
//!
//! Costs: a drive's read or write in core copies one page, and looks at the lines that name failing calls, of which a
//! script has at most 100. A drive in core takes room for all its pages, and holds those up to the highest written: the
//! first write past these sets the pages between to zeros, each at most once. A call on a volume finds its parts by one
//! index, and costs what the same call of its drive, record map or VTOC costs. Only the `new`s take memory.
#![tactic(auto)]

mod core_drive;
mod core_pages;
mod drive;
mod volumes;

pub use core_drive::{CoreDrive, zero_pages};
pub use drive::{Drive, FailLine};
pub use no_memory::NoMemory;
pub use volumes::Volumes;

/// What a volume is made of: its drive, and how many entries its VTOC has. (Source: own.)
#[derive(Drop)]
pub struct Part<D> {
    /// The drive, which may hold pages already.
    pub drive: D,
    /// The entries of the VTOC.
    pub entries: u32,
}
