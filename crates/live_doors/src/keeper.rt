//! The keeper of the doors.
ghost use Rattle.std.specs.Prelude.{◌≡◌, ◌<◌, ◌↔◌, length, max, IsTrue};
ghost use Rattle.live_doors.specs.Doors.{HasNoted, IsAdmitted, MayBind, KeeperModel};
ghost use Rattle.live_doors.specs.Kept.{HasNoHolder};
ghost use Rattle.live_doors.specs.Steps.{watch_of, KeeperFits};

use crate::rows::Rows;
use crate::rule::Place;
use std::marker::Model;

/// Who closes doors, raises stamps and asks for acknowledgements.
///
/// The supervisor's side of clearing associative memories (Bensoussan, Clingen and Daley 1972).
#[derive(Drop)]
pub struct Keeper {
    pub(crate) seat: Place,
    pub(crate) rows: Rows,
    cleared: u64,
}

impl Model for Keeper {
    ghost Value = { KeeperModel };

    ghost view = { λ k. record { table = k.seat.table_id; watch = watch_of k.seat.me.0; cleared = k.cleared } };

    ghost invariant = { λ k. KeeperFits k.seat.me k.rows k.cleared };
}

impl Keeper {
    // The keeper of this seat, which has cleared nothing.
    pub(crate) fn new(seat: Place, rows: Rows) -> Keeper
        requires { KeeperFits seat.me rows 0 }
        ensures { result ≡ record { table = seat.table_id; watch = watch_of seat.me.0; cleared = 0 } }
    {
        Keeper {
            seat,
            rows,
            cleared: 0,
        }
    }

    /// The stamp that was raised last. Takes no memory and constant time. Source: own.
    pub fn last_stamp(&self) -> u64
        ensures { result ≡ self.now.watch.request }
    {
        self.rows.last_stamp()
    }

    /// Whether the door of frame `f` admits a binding. Takes no memory and constant time. Source: own.
    pub fn is_admitted(&self, f: u32) -> bool
        requires { f < length self.now.watch.doors }
        ensures { IsTrue result ↔ IsAdmitted self.now.watch f }
    {
        self.rows.is_admitted(f)
    }

    /// Whether frame `f` may be bound anew: it was never bound, or it is closed and `all_clear` answered Ok for a
    /// stamp that was raised since. No pass then holds an entry of it. Takes no memory and constant time. Source: own.
    pub fn may_bind(&self, f: u32) -> bool
        requires { f < length self.now.watch.doors }
        ensures may_bind { IsTrue result ↔ MayBind self.now.watch self.now.cleared f }
        ensures no_holder { IsTrue result → HasNoHolder self.now.watch f }
    {
        self.rows.may_bind(f, self.cleared)
    }

    // Every processor has acknowledged the stamp.
    pub(crate) fn clear(&mut self, stamp: u64)
        requires { HasNoted self.old.watch stamp }
        ensures { self.new ≡ record self.old { cleared = max self.old.cleared stamp } }
    {
        self.cleared = self.cleared.max(stamp);
    }
}
