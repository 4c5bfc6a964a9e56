//! Answers that are not Ok.

pub use no_memory::NoMemory;

/// The frame's turn was taken, by the word that this call found there.
#[derive(Clone, Copy, Debug, PartialEq, Eq)]
pub struct Busy {
    pub word: u64,
}
