//! How a worker gives way to others, and what ends its rest.

use std::sync::atomic::{AtomicU32, Ordering};
use std::thread;

/// What ends the rest of the workers that hear it.
#[derive(Drop)]
pub(crate) struct Bell {
    rings: AtomicU32,
}

impl Bell {
    /// A bell that wasn't rung yet.
    pub(crate) fn new() -> Bell {
        Bell {
            rings: AtomicU32::new(0),
        }
    }

    /// Ends the rest of all that heard it less often.
    pub(crate) fn ring(&self) {
        self.rings.fetch_add(1, Ordering::Relaxed);
    }

    /// How often it was rung, modulo 2^32.
    pub(crate) fn rings(&self) -> u32 {
        self.rings.load(Ordering::Relaxed)
    }
}

/// The bells of a machine's workers.
#[derive(Drop)]
pub(crate) struct Bells {
    /// Rung where each processor has something to drop.
    pub(crate) signals: Bell,
    /// Rung where a processor goes on after such a signal, so that who signalled looks whether all have dropped it.
    pub(crate) drops: Bell,
}

impl Bells {
    /// Bells that weren't rung yet.
    pub(crate) fn new() -> Bells {
        Bells {
            signals: Bell::new(),
            drops: Bell::new(),
        }
    }
}

/// How many turns a worker gives way before it looks again: one at first, each time twice as many, up to a bound.
#[derive(Drop)]
pub(crate) struct Pause {
    turns: u32,
}

impl Pause {
    /// One turn.
    pub(crate) fn new() -> Pause {
        Pause { turns: 1 }
    }

    /// Lets other threads go first, so many times, and the next time twice as often, up to `most`. Once a bell is rung
    /// that was heard so often the rest is over, and the next one has one turn. Whether a bell ended it.
    fn rest(&mut self, bell: &Bell, heard: u32, most: u32) -> bool {
        for _ in 0..self.turns {
            thread::yield_now();
            if bell.rings() != heard {
                self.turns = 1;
                return true;
            }
        }
        self.turns = self.turns.saturating_mul(2).min(most);
        false
    }

    /// Rests until there was another signal, and then tells who signalled that this worker goes on.
    #[inline(never)]
    pub(crate) fn rest_until_signal(&mut self, bells: &Bells, heard: u32, most: u32) {
        if self.rest(&bells.signals, heard, most) {
            bells.drops.ring();
        }
    }

    /// Rests until another worker goes on after a signal.
    #[inline(never)]
    pub(crate) fn rest_until_drop(&mut self, bells: &Bells, most: u32) {
        let heard = bells.drops.rings();
        self.rest(&bells.drops, heard, most);
    }
}
