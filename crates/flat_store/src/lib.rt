//! The flat store: a plain machine without frames, page tables or descriptors, which says what each command of a script
//! is answered and what it changes. The definitions are those of `flat_model`; `FlatStore` is the program of them.
#![tactic(auto)]

mod boot;
mod gauges;
mod holdings;
mod judging;
mod looks;
mod making;
mod moving;
mod numbers;
mod pages;
mod progress;
mod references;
mod releases;
mod replies;
mod rights;
mod sizes;
mod store;

pub use no_memory::NoMemory;
pub use replies::may_fail;
pub use store::{FlatStore, command_at};
