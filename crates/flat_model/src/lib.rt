//! The flat store, as definitions: a plain machine without frames, page tables or descriptors, which says what each
//! command of a script is answered and what it changes; which books are lawful, complete and settled. They stand in
//! `specs/`, and the laws of books, words and stored pages in `proofs/`; there is no code here.
#![tactic(auto)]
