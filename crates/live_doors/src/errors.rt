//! Answers that are not Ok.

pub use no_memory::NoMemory;

/// The door was closed, by the word that this call read there. Twice the binding and one more.
#[derive(Clone, Copy, Debug, PartialEq, Eq)]
pub struct Closed {
    pub word: u64,
}

/// A processor has not acknowledged the stamp, by the word that this call read from it.
#[derive(Clone, Copy, Debug, PartialEq, Eq)]
pub struct Behind {
    pub cpu: u32,
    pub seen: u64,
}
