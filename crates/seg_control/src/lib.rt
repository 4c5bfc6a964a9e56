//! Segment control: the active segments over page control, and what leads to them.
//!
//! An active segment has a page table in a place of the active segment table, which agrees with the frames of core and
//! with the file map of its home. Descriptors of processes lead to that place, and a trailer for each leads back, so
//! that all can be cut before the segment changes or goes (Bensoussan, Clingen and Daley 1972; Organick 1972).
//!
//! One segment at a time may move to another volume: it takes a second home there, its pages are copied one by one,
//! and it has the new home alone once the move is committed, or the old one where it is undone.
//!
//! Costs: a segment is found among the active ones by halving; pages, frames, words, descriptors and numbers by their
//! places. Page tables are lent, and none is copied. What costs more stands at its call. None but `new` takes memory.
#![tactic(auto)]

mod activating;
mod linking;
mod links;
mod moving;
mod segs;

pub use no_memory::NoMemory;
use page_control::Home;
pub use segs::Segs;

/// A segment or directory of a chain of superiors, which goes from the root down (Bensoussan, Clingen and Daley 1972).
#[derive(Clone, Copy, Default, PartialEq, Eq)]
pub struct Link {
    /// Its uid.
    pub uid: u32,
    /// The pool of the active segment table that it takes a place in.
    pub pool: u32,
    /// Its home.
    pub home: Home,
}

/// What became of the next segment of a chain (own).
#[derive(Clone, Copy, PartialEq, Eq)]
pub enum Next {
    /// It is active now, in this place.
    Activated(u32),
    /// Its pool is full. What is active in this place has to become inactive first.
    Victim(u32),
    /// All segments of the chain are active.
    Whole,
}
