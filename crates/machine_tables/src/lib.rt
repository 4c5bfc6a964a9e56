//! What a machine of several processors has, side by side: the book, the store, the processors, the processes, the
//! ready list and the owner of the supervisor. Each call makes one change of them, exactly that of the machine's model,
//! and asks no more than the tables that it changes; what the whole machine keeps is said above (Bensoussan, Clingen
//! and Daley 1972; Corbató 1968).
//!
//! Costs: a call changes a processor, the book and at most one table. Only `new`, `boot` and `reserve` take memory.
#![tactic(auto)]

mod about;
mod action;
mod activating;
mod answering;
mod chains;
mod choosing;
mod claiming;
mod commands;
mod commit;
mod committing;
mod connecting;
mod creating;
mod emptying;
mod ending;
mod finishing;
mod frames;
mod looking;
mod looks;
mod moving;
mod next_looks;
mod owner;
mod owning;
mod paging;
mod reading;
mod signals;
mod starting;
mod tables;
mod taking;
mod transfers;
mod tree_looks;
mod turns;
mod visiting;

pub use action::{Action, Why};
pub use owner::{Holder, Job};
pub use tables::{NoMemory, Tables};
