//! Judges a listing of all entries against its script, whoever made it: with the flat store, which says what each
//! command is answered, and with custody, which says who may hold what. `check_book` judges a whole input; `Judge` goes
//! over a listing line by line.
#![tactic(auto)]

mod check;
mod closing;
mod entries;
mod inputs;
mod judge;
mod lines;
mod offences;

pub use check::check_book;
pub use inputs::{Input, split_input};
pub use judge::{Judge, LineFault};
pub use lines::{is_book, is_summary};
pub use no_memory::NoMemory;
pub use offences::{CheckFault, Offence, Rule};
