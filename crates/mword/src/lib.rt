//! Words of 36 bits and pages of 1024 of them, and the octal text of a word.
//!
//! Multics ran on a machine with words of 36 bits and pages of 1024 words (Bensoussan, Clingen and
//! Daley 1972). Arithmetic on words is modulo 2^36.
#![tactic(auto)]

mod page;
mod text;
mod word;

pub use no_memory::NoMemory;
pub use page::{Block, Page};
pub use text::{octal, read_octal};
pub use word::Word;
