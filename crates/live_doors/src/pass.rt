//! The pass of a processor.
ghost use Rattle.std.specs.Prelude.{◌≡◌, ◌<◌, ◌↔◌, length, IsTrue};
ghost use Rattle.live_doors.specs.Doors.{HoldsEntry};

use crate::entries::Entries;
use crate::rule::Place;
use std::marker::Model;

/// What one processor steps with. It holds entries of frames, each of the binding that its door admitted.
///
/// The associative memory of a processor (Bensoussan, Clingen and Daley 1972), kept to what revocation needs.
#[derive(Drop)]
pub struct Pass {
    pub(crate) seat: Place,
    pub(crate) entries: Entries,
}

impl Model for Pass {
    ghost use Rattle.live_doors.specs.Doors.{PassModel};
    ghost use Rattle.live_doors.specs.Steps.{walk_of, PassFits};

    ghost Value = { PassModel };

    ghost view = { λ p. record { table = p.seat.table_id; walk = walk_of p.seat.me.0 } };

    ghost invariant = { λ p. PassFits p.seat.me p.entries };
}

impl Pass {
    /// Whether the pass holds an entry of frame `f`. Takes no memory and constant time. Source: own.
    pub fn holds(&self, f: u32) -> bool
        requires { f < length self.now.walk.held }
        ensures { IsTrue result ↔ HoldsEntry self.now.walk f }
    {
        self.entries.holds(f)
    }
}
