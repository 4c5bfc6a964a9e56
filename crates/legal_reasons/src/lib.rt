//! Why the flat store doesn't allow an entry of a listing, why a book isn't complete, and which page of zeros is
//! stored: each as a reason with its text, and whether its sentence is true in another state.
#![tactic(auto)]

mod answers;
mod ends;
mod going;
mod moves;
mod pages;
mod reasons;
mod refusals;
mod still;

pub use ends::{first_unended, why_incomplete, why_zeros};
pub use reasons::{CommandAt, Reason};
pub use refusals::why_not;
pub use still::is_still_so;
