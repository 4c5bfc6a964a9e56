//! What holds of all booleans, numbers, options and lists, where several crates cite it: laws in `proofs/` that the
//! standard library hasn't. There is no code here.
#![tactic(auto)]
