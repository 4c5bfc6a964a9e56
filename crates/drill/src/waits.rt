//! How threads of the drill wait for one another: by giving way to others, for so many turns at most.
use std::sync::atomic::{AtomicBool, Ordering};
use std::thread;

/// How many turns a thread gives way before it looks again: each time twice as many, up to a bound.
#[derive(Drop)]
pub(crate) struct Pause {
    turns: u32,
    most: u32,
}

impl Pause {
    /// One turn at first, and later up to so many.
    pub(crate) fn up_to(most: u32) -> Pause {
        Pause { turns: 1, most }
    }

    /// How many turns to give way now.
    pub(crate) fn turns(&mut self) -> u32 {
        let turns = self.turns;
        self.turns = turns.saturating_mul(2).min(self.most);
        turns
    }
}

/// Lets other threads go first, so many times.
pub(crate) fn give_way(turns: u32) {
    for _ in 0..turns {
        thread::yield_now();
    }
}

/// Whether the keeper's rounds are over: it has made them, or a processor has ended. Who has ended rests no more, and
/// so nothing is cleared any more.
#[derive(Drop)]
pub(crate) struct Rounds {
    over: AtomicBool,
}

impl Rounds {
    pub(crate) fn new() -> Rounds {
        Rounds {
            over: AtomicBool::new(false),
        }
    }

    pub(crate) fn end(&self) {
        self.over.store(true, Ordering::SeqCst);
    }

    pub(crate) fn are_over(&self) -> bool {
        self.over.load(Ordering::SeqCst)
    }
}
