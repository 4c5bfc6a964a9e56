//! Definitions that several crates cite: the lines of a text, and the fields of a line. They stand in `specs/`, and
//! their laws in `proofs/`; there is no code here.
#![tactic(auto)]
