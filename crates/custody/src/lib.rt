//! Custody: who holds which entry while a book goes on, as a program that judges each entry (Bensoussan, Clingen and
//! Daley 1972). The definitions stand in `custody_model`; what the program keeps besides are counts by which no row of
//! them walks over all segments or descriptors, and only few over all frames.
//!
//! `Custody` is what holds before the first entry, judges an entry by a look at the flat store before it, and goes on
//! after one that is allowed. What it holds can be looked at, table by table.
#![tactic(auto)]

mod active;
mod boot;
mod commands;
mod counts;
mod descriptors;
mod following;
mod frames;
mod judging;
mod looks;
mod naming;
mod rows;
mod seats;
mod store_rows;
mod tables;
mod uses;

pub use commands::{is_effective, kept_pages};
pub use no_memory::NoMemory;
pub use tables::Custody;
