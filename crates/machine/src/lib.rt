//! The machine of several processors: its tables under the promise that they keep between any two steps (Bensoussan,
//! Clingen and Daley 1972; Corbató 1968).
#![tactic(auto)]

mod alone;
mod finishing;
mod joining;
mod looking;
mod looping;
mod machine;
mod making;
mod moving;
mod owning;
mod schedule;
mod shutdown;
mod starting;
mod stepping;
mod turn;
mod unstuck;

pub use machine::Machine;
pub use machine_tables::{NoMemory, Why};
pub use turn::Turn;
