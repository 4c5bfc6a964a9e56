//! Why a line of a listing is refused, and since which line that has been so: the condition of the rule that doesn't
//! hold there, in words, for someone who looks for a fault in a machine of their own.
#![tactic(auto)]

mod asking;
mod passing;
mod since;
mod telling;

pub use asking::Reason;
pub use no_memory::NoMemory;
pub use telling::why_text;
