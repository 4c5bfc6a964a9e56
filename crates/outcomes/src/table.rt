ghost use Rattle.std.specs.Prelude.{◌≡◌, ◌<◌, IfOk, IfSome, OnOk, length};
ghost use Rattle.outcomes.specs.Reports.{first_seed};
ghost use Rattle.outcomes.specs.Tables.{added, has_seen, joined, new_outcome, no_runs, outcome_in, place_in};
ghost use Rattle.outcomes.specs.Tables.{place_or_next, placed, put};

use crate::NoMemory;
use crate::texts::{Text, place_in};
use std::alloc::Global;
use std::marker::Model;

/// Accounts that a run left (own).
#[derive(Clone, Copy)]
pub(crate) struct Seen {
    /// The place of their text among those of the table.
    pub(crate) accounts: usize,
    /// The seed of the first run that left them after these replies.
    pub(crate) seed: u32,
}

/// The runs with the same replies (own).
#[derive(Drop)]
pub(crate) struct Outcome {
    /// What the processes were answered, as the listing prints it.
    replies: Vec<u8>,
    /// The seeds of the runs, in the order in which they were added.
    seeds: Vec<u32>,
    /// The accounts that these runs left, each once, in the order of the first runs.
    seen: Vec<Seen>,
}

impl Model for Outcome {
    ghost use Rattle.outcomes.specs.Tables.{Outcome as Grouped};

    ghost Value = { Grouped };

    ghost view = { λ o. record { replies = o.replies.items; seeds = o.seeds.items; seen = o.seen.items } };
}

impl Outcome {
    /// The outcome of a run alone.
    fn new(alloc: Global, replies: Vec<u8>, run: Seen) -> Result<Outcome, NoMemory>
        ensures { IfOk result (λ o. o ≡ new_outcome replies.items run) }
    {
        let mut seeds = Vec::new(alloc);
        seeds.push(run.seed)?;
        let mut seen = Vec::new(alloc);
        seen.push(run)?;
        Ok(Outcome {
            replies,
            seeds,
            seen,
        })
    }

    /// Adds a run with these replies.
    fn join(&mut self, run: Seen) -> Result<(), NoMemory>
        ensures { OnOk result (self.new ≡ joined self.old run) }
    {
        self.seeds.push(run.seed)?;
        if !has_seen(&self.seen, run.accounts) {
            self.seen.push(run)?;
        }
        Ok(())
    }

    /// What the processes were answered.
    pub(crate) fn replies(&self) -> &[u8]
        ensures { result.now ≡ self.now.replies }
    {
        &self.replies
    }

    /// How many runs there are.
    pub(crate) fn count(&self) -> usize
        ensures { result ≡ length self.now.seeds }
    {
        self.seeds.len()
    }

    /// The seed of the first of them.
    pub(crate) fn first_seed(&self) -> u32
        ensures { result ≡ first_seed self.now.seeds }
    {
        match self.seeds.first() {
            Some(seed) => *seed,
            None => 0,
        }
    }

    /// The accounts that these runs left.
    pub(crate) fn seen(&self) -> &[Seen]
        ensures { result.now ≡ self.now.seen }
    {
        &self.seen
    }
}

/// Whether accounts stand among those that were seen.
fn has_seen(seen: &[Seen], accounts: usize) -> bool
    ensures { result ≡ has_seen seen.now accounts }
{
    seen.iter().any(|other| other.accounts == accounts)
}

/// The place of the outcome with these replies.
fn outcome_in(outcomes: &[Outcome], replies: &[u8]) -> Option<usize>
    ensures place { result ≡ outcome_in outcomes.now replies.now }
    ensures within { IfSome result (λ place. place < length outcomes.now) }
{
    outcomes.iter().position(|other| other.replies() == replies)
}

/// The outcomes of the runs that were added, in the order of the first runs, and the accounts that these left (own). A
/// contract sees them all.
#[derive(Drop)]
pub struct Table {
    outcomes: Vec<Outcome>,
    accounts: Vec<Text>,
}

impl Model for Table {
    ghost use Rattle.outcomes.specs.Tables.{Table as Tabled};

    ghost Value = { Tabled };

    ghost view = { λ t. record { outcomes = t.outcomes.items; accounts = t.accounts.items } };
}

impl Table {
    /// The table of no runs.
    pub fn new(alloc: Global) -> Table
        ensures { result ≡ no_runs }
    {
        Table {
            outcomes: Vec::new(alloc),
            accounts: Vec::new(alloc),
        }
    }

    /// The place of some accounts among those of the table, to which they are added if need be.
    fn place(&mut self, accounts: Vec<u8>) -> Result<usize, NoMemory>
        ensures place { IfOk result (λ place. place
            ≡ place_or_next (place_in self.old.accounts accounts.items) self.old.accounts) }
        ensures placed { OnOk result (self.new ≡ placed self.old accounts.items) }
    {
        match place_in(&self.accounts, &accounts) {
            Some(place) => Ok(place),
            None => {
                let place = self.accounts.len();
                self.accounts.push(Text::new(accounts))?;
                Ok(place)
            }
        }
    }

    /// Adds a run to the outcome with its replies, or as an outcome of its own.
    fn put(&mut self, alloc: Global, replies: Vec<u8>, run: Seen) -> Result<(), NoMemory>
        ensures { OnOk result (self.new ≡ put self.old replies.items run) }
    {
        match outcome_in(&self.outcomes, &replies) {
            Some(place) => self.outcomes[place].join(run),
            None => {
                self.outcomes.push(Outcome::new(alloc, replies, run)?)?;
                Ok(())
            }
        }
    }

    /// Adds the run of a seed, with what its processes were answered and the accounts that it left, a line for each. It
    /// looks once at each of the outcomes.
    ///
    /// # Errors
    /// `NoMemory` is want of memory. The run may be added in part then.
    #[tactic(auto, unfolding(crate::specs::Tables::added))]
    pub fn add(
        &mut self,
        alloc: Global,
        replies: Vec<u8>,
        accounts: Vec<u8>,
        seed: u32,
    ) -> Result<(), NoMemory>
        ensures { OnOk result (self.new ≡ added self.old replies.items accounts.items seed) }
    {
        let accounts = self.place(accounts)?;
        self.put(alloc, replies, Seen { accounts, seed })
    }

    /// The outcomes, in the order of their first runs.
    pub(crate) fn outcomes(&self) -> &[Outcome]
        ensures { result.now ≡ self.now.outcomes }
    {
        &self.outcomes
    }

    /// The accounts that the runs left, each once.
    pub(crate) fn accounts(&self) -> &[Text]
        ensures { result.now ≡ self.now.accounts }
    {
        &self.accounts
    }
}
