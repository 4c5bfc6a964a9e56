//! The pass of a processor.
ghost use Rattle.std.specs.Prelude.{◌≡◌, ◌<◌, ◌↔◌, length, IsTrue};
ghost use Rattle.live_doors.specs.Doors.{HoldsEntry};

use crate::rule::Place;
use live_doors::Entries;
use std::marker::Model;

/// What one processor steps with. It holds entries of frames, each of the binding that its door admitted, and knows the
/// touches that it made.
#[derive(Drop)]
pub struct Pass {
    pub(crate) seat: Place,
    pub(crate) entries: Entries,
    pub(crate) touches: u64,
}

impl Model for Pass {
    ghost use Rattle.live_pages.specs.Models.{PassModel, PassFits};
    ghost use Rattle.live_pages.specs.Turns.{walker_of};

    ghost Value = { PassModel };

    ghost view = { λ p. record { table = p.seat.table_id; walker = walker_of p.seat.me.0 } };

    ghost invariant = { λ p. PassFits p.seat.me p.entries p.touches };
}

impl Pass {
    /// How many touches the pass has made. Takes no memory and constant time. Source: own.
    pub fn touches(&self) -> u64
        ensures { result ≡ length self.now.walker.made }
    {
        self.touches
    }

    /// Whether the pass holds an entry of frame `f`. Takes no memory and constant time. Source: own.
    pub fn holds(&self, f: u32) -> bool
        requires { f < length self.now.walker.walk.held }
        ensures { IsTrue result ↔ HoldsEntry self.now.walker.walk f }
    {
        self.entries.holds(f)
    }
}
