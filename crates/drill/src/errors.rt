//! Want of memory.

pub use no_memory::NoMemory;
