//! Definitions that several crates cite: the nodes of the directory tree, what holds of every tree, accounts and their
//! counts, quota that moves, and what an access control list allows. They stand in `specs/`, and the laws of trees in
//! `proofs/`; there is no code here.
#![tactic(auto)]
