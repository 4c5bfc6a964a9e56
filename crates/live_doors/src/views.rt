//! What the seats of the table know. No value of these types is made: they stand in contracts and proofs alone,
//! where an array of length 0 is read as a list of any length.

/// What a pass knows.
pub struct Walk {
    /// The number of its processor.
    pub cpu: u32,
    /// For each frame the binding of the entry that the pass holds.
    pub held: [Option<u64>; 0],
    /// The stamp that the last `forget` read.
    pub stamp: u64,
    /// The stamp in the processor's own word.
    pub acked: u64,
    /// How many words were read.
    pub looks: u64,
    /// Which word of the table was read last.
    pub looked_at: u64,
    /// The word that was read last.
    pub last: u64,
}

/// What the keeper knows.
pub struct Watch {
    /// How many passes were made.
    pub made: u32,
    /// The stamp that was raised last.
    pub request: u64,
    /// The door word of each frame.
    pub doors: [u64; 0],
    /// For each frame the stamp that was the last one when its door was closed last.
    pub since: [u64; 0],
    /// For each processor the acknowledgement that was read last.
    pub noted: [u64; 0],
    /// How many words were read.
    pub looks: u64,
    /// Which word of the table was read last.
    pub looked_at: u64,
    /// The word that was read last.
    pub last: u64,
}

/// What a seat knows: a pass, the keeper, or one that was taken in at the close.
pub enum View {
    Walking(Walk),
    Keeping(Watch),
    Spent,
}
