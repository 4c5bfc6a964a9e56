//! The keeper of the pages.
ghost use Rattle.std.specs.Prelude.{◌≡◌, ◌<◌, ◌↔◌, length, max, IsTrue};
ghost use Rattle.live_doors.specs.Doors.{HasNoted, IsAdmitted, MayBind};
ghost use Rattle.live_pages.specs.Kept.{HasNoHolder};
ghost use Rattle.live_pages.specs.Models.{KeeperModel, KeeperFits};
ghost use Rattle.live_pages.specs.Turns.{current, holder_of};

use crate::rule::Place;
use live_doors::Rows;
use std::marker::Model;

/// Who closes doors, raises stamps, asks for acknowledgements and binds frames.
#[derive(Drop)]
pub struct Keeper {
    pub(crate) seat: Place,
    pub(crate) rows: Rows,
    cleared: u64,
}

impl Model for Keeper {
    ghost Value = { KeeperModel };

    ghost view = { λ k. record { table = k.seat.table_id; holder = holder_of k.seat.me.0; cleared = k.cleared } };

    ghost invariant = { λ k. KeeperFits k.seat.me k.rows k.cleared };
}

impl Keeper {
    // The keeper of this seat, which has cleared nothing.
    pub(crate) fn new(seat: Place, rows: Rows) -> Keeper
        requires { KeeperFits seat.me rows 0 }
        ensures { result ≡ record { table = seat.table_id; holder = holder_of seat.me.0; cleared = 0 } }
    {
        Keeper {
            seat,
            rows,
            cleared: 0,
        }
    }

    /// The stamp that was raised last. Takes no memory and constant time. Source: own.
    pub fn last_stamp(&self) -> u64
        ensures { result ≡ self.now.holder.watch.request }
    {
        self.rows.last_stamp()
    }

    /// The binding that the door of frame `f` admits, or was closed on; 0 where the frame was never bound. Takes no
    /// memory and constant time. Source: own.
    pub fn binding(&self, f: u32) -> u64
        requires { f < length self.now.holder.watch.doors }
        ensures { result ≡ current self.now.holder.watch f }
    {
        self.rows.binding(f)
    }

    /// Whether the door of frame `f` admits a binding. Takes no memory and constant time. Source: own.
    pub fn is_admitted(&self, f: u32) -> bool
        requires { f < length self.now.holder.watch.doors }
        ensures { IsTrue result ↔ IsAdmitted self.now.holder.watch f }
    {
        self.rows.is_admitted(f)
    }

    /// Whether frame `f` may be bound anew: it was never bound, or it is closed and `all_clear` answered Ok for a
    /// stamp that was raised since. No pass then holds an entry of it. Takes no memory and constant time. Source: own.
    pub fn may_bind(&self, f: u32) -> bool
        requires { f < length self.now.holder.watch.doors }
        ensures may_bind { IsTrue result ↔ MayBind self.now.holder.watch self.now.cleared f }
        ensures no_holder { IsTrue result → HasNoHolder self.now.holder f }
    {
        self.rows.may_bind(f, self.cleared)
    }

    // Every processor has acknowledged the stamp.
    pub(crate) fn clear(&mut self, stamp: u64)
        requires { HasNoted self.old.holder.watch stamp }
        ensures { self.new ≡ record self.old { cleared = max self.old.cleared stamp } }
    {
        self.cleared = self.cleared.max(stamp);
    }
}
