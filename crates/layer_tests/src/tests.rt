//! A file for each thing that is tested.

mod clock;
mod fast_stores;
mod moves;
mod numbers;
mod rehoming;
mod streams;
mod words;
