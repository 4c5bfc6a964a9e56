//! Tests of lower crates that take code, over their public calls, so that none of these is proved a second time with
//! its tests: words and their size, streams and a gate that holds, the clock, drives of which calls fail, moves of a
//! segment over them, and a segment that gets another home. What a text can say stands in `cases`.
#![tactic(auto)]

#[cfg(test)]
mod tests;
