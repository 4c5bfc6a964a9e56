//! Sources of bytes and sinks for them: over memory, and over standard input and output; and the
//! gate that a program calls between two steps.
//!
//! Each source and sink has a count of its faults, and a call fails only where that count rose.
#![tactic(auto)]

mod gate;
mod hold_gate;
mod memory;
mod standard;
mod stream;
mod whole;

pub use gate::{Gate, NoGate, Point};
pub use hold_gate::HoldGate;
pub use memory::{MemorySink, MemorySource};
pub use no_memory::NoMemory;
pub use standard::{StdSink, StdSource};
pub use stream::{Failed, Sink, Source};
pub use whole::{Unread, read_all, write_all};
