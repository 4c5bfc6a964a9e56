//! Tests of the doors, the pages behind them and the drill, over their public calls.
#![tactic(auto)]

#[cfg(test)]
mod doors;
#[cfg(test)]
mod drilling;
#[cfg(test)]
mod pages;
