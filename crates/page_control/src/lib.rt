//! Page control: pages move between the frames of core and the records of volumes.
//!
//! A page of a segment is in a frame, or on a record of its volume, or nowhere where all its words are 0 (Bensoussan,
//! Clingen and Daley 1972). `Pages` has the core map, the words in the frames, and the volumes with their file maps.
//! Page tables are the callers': a call takes the table that it concerns, and asks that it agree with the frames and
//! with the file map.
//!
//! Costs: a call finds frames, words, records and places of file maps by their numbers, and walks over none of them
//! but in `choose`, in `erase`, which reads one file map, several places at once where it names no record, and in
//! `rehome`, which reads a page table and as much of a file map. `end_in` costs one read of a drive, `evict` one write
//! at most. None but `new` takes memory.
//!
//! The words of a page, and whether it is stored, go by the segment and its home: while a segment moves between
//! volumes it has two homes, and a call that concerns one of them says nothing of the other. What a call asks of a
//! segment, and keeps of all, is one record, `IsTied`.
#![tactic(auto)]

mod pages;

pub use no_memory::NoMemory;
pub use pages::Pages;

/// All records of the volume are in use. (Source: Organick 1972.)
#[derive(Clone, Copy, Debug, PartialEq, Eq)]
pub struct NoRecord;

/// Where a segment is kept: its volume, and its entry in the VTOC of that volume (Organick 1972).
#[derive(Clone, Copy, Default, PartialEq, Eq)]
pub struct Home {
    /// The number of the volume.
    pub volume: u32,
    /// The place of the entry.
    pub entry: u32,
}

/// What became of a page that left its frame (Organick 1972).
#[derive(Clone, Copy, PartialEq, Eq)]
pub enum Left {
    /// It was all zeros: its record is given back, and it is stored no more.
    Released,
    /// It is on its record.
    Kept,
}
