ghost use Rattle.std.specs.Prelude.{◌≡◌, OnOk, OnErr, [], None};
ghost use Rattle.std.specs.Bool.{Decides};
ghost use Rattle.custody.specs.Counts.{AreFew, HasPlace, Keeps, Shifts, count_at};

use crate::NoMemory;
use std::alloc::Global;
use std::marker::Model;

/// How many there are of what a number names, as a table by the numbers. A contract sees the list of the counts.
///
/// The table grows to the greatest number that anything was counted under. No call but one that lets it grow looks at
/// more than one place.
#[derive(Drop)]
pub(crate) struct Counts {
    counts: Vec<u64>,
}

impl Model for Counts {
    ghost use Rattle.custody.specs.Counts.{Counted};

    ghost Value = { Counted };

    ghost view = { λ c. c.counts.items };
}

/// Whether two keys are one.
fn is_same(one: Option<u32>, other: Option<u32>) -> bool
    ensures { Decides result (one ≡ other) }
{
    match (one, other) {
        (None, None) => true,
        (Some(one), Some(other)) => one == other,
        _ => false,
    }
}

impl Counts {
    /// None of anything.
    pub(crate) fn new(alloc: Global) -> Counts
        ensures { result ≡ [] }
    {
        Counts {
            counts: Vec::new(alloc),
        }
    }

    /// How many there are of it.
    pub(crate) fn at(&self, key: u32) -> u64
        ensures { result ≡ count_at self.now key }
    {
        match self.counts.get(key as usize) {
            Some(count) => *count,
            None => 0,
        }
    }

    /// Takes memory for the count of a key.
    ///
    /// # Errors
    /// `NoMemory` is want of memory; then nothing is changed.
    #[tactic(auto, using(crate::proofs::CountLaws::counts_grow))]
    pub(crate) fn reserve(&mut self, key: Option<u32>) -> Result<(), NoMemory>
        ensures keeps { Keeps self.old self.new }
        ensures ok { OnOk result (HasPlace self.new key) }
        ensures err { OnErr result (self.new ≡ self.old) }
    {
        let Some(key) = key else {
            return Ok(());
        };
        let places = key as usize + 1;
        if self.counts.len() >= places {
            return Ok(());
        }
        Ok(self.counts.resize(places, 0)?)
    }

    /// Something is counted under a key.
    #[tactic(auto, using(crate::proofs::CountLaws::counts_change))]
    fn enter(&mut self, key: Option<u32>)
        requires place { HasPlace self.old key }
        requires few { AreFew self.old }
        ensures { Shifts self.old self.new None key }
    {
        if let Some(key) = key {
            let count = self.at(key);
            self.counts[key as usize] = count + 1;
        }
    }

    /// Something that was counted under a key is no more; nothing changes where there is none of it.
    #[tactic(auto, using(crate::proofs::CountLaws::counts_change))]
    fn leave(&mut self, key: Option<u32>)
        ensures { Shifts self.old self.new key None }
    {
        let Some(key) = key else {
            return;
        };
        if (key as usize) < self.counts.len() {
            let count = self.at(key);
            self.counts[key as usize] = count.saturating_sub(1);
        }
    }

    /// Something that was counted under one key is counted under another.
    #[tactic(auto, using(crate::proofs::CountLaws::counts_change))]
    pub(crate) fn shift(&mut self, from: Option<u32>, to: Option<u32>)
        requires place { HasPlace self.old to }
        requires few { AreFew self.old }
        ensures { Shifts self.old self.new from to }
    {
        if is_same(from, to) {
            return;
        }
        self.enter(to);
        self.leave(from);
    }
}
