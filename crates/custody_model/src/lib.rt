//! Custody, as definitions: who holds which entry while a book goes on, which entries of a book that allows, and which
//! books are clean. They stand in `specs/`, and the laws of them in `proofs/`; there is no code here but the types that
//! they speak of.
#![tactic(auto)]

/// What a frame of core is used for (Bensoussan, Clingen and Daley 1972). A page is one of the segment with this unique
/// identifier.
#[derive(Clone, Copy)]
pub enum FrameUse {
    /// For nothing.
    Free,
    /// The page is being read into it.
    Started { uid: u32, page: u32 },
    /// The page is in it.
    Current { uid: u32, page: u32 },
    /// The page is in it, and on its way out.
    Going { uid: u32, page: u32 },
}

/// What a descriptor of a process leads to (Bensoussan, Clingen and Daley 1972).
#[derive(Clone, Copy)]
pub enum DescriptorUse {
    /// Nothing: its use gives a missing-segment fault.
    Free,
    /// The page table of the segment.
    Current { uid: u32 },
    /// The same, and it is on its way out.
    Going { uid: u32 },
}
