//! Why a line of a listing can't stand where it is, by the line alone: a line that is no entry's text, and a line of
//! the summary that isn't the one that is due.
#![tactic(auto)]

mod due_lines;
mod entry_reasons;
mod fields;
mod grammar;
mod parting;
mod states;
mod sum_reasons;
mod sums;

pub use entry_reasons::{EntryReason, why_no_entry};
pub use grammar::FixedWord;
pub use no_memory::NoMemory;
pub use states::{has_since, is_still_so_sum};
pub use sum_reasons::{SumReason, SumWord, push_sum_reason};
pub use sums::why_wrong_sum;
