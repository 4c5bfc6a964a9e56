//! What the seats of the table know. No value of these types is made: they stand in contracts and proofs alone,
//! where an array of length 0 is read as a list of any length.
use crate::touch::{Bound, Made};
use live_doors::{Walk, Watch};

/// Whether a seat has a frame's turn, and then with which page.
pub enum Hand {
    Free,
    Has(u32, [u64; 0]),
}

/// What a pass knows: its entries and stamps, its touches, the last one first, and its turn.
pub struct Walker {
    /// How many processors there are.
    pub cpus: u32,
    pub walk: Walk,
    pub made: [Made; 0],
    pub hand: Hand,
}

/// Whether the touches of a processor were taken in, and then which they are.
pub enum Part {
    Out,
    In([Made; 0]),
}

/// What the keeper knows: doors and stamps, its turn, the bindings that have ended, and the touches that were taken in.
pub struct Holder {
    pub watch: Watch,
    pub hand: Hand,
    pub ended: [Bound; 0],
    pub parts: [Part; 0],
}

/// What a seat knows: a pass, the keeper, or one that steps no more. That is a pass that was taken in, and at the end
/// the seat that shows what the keeper knew.
pub enum View {
    Passing(Walker),
    Keeping(Holder),
    Spent(Holder),
}
