ghost use Rattle.std.specs.Prelude.{◌≡◌, ◌≤◌, ◌^◌, ℕ, count_by, false, IfNone, IfSome, []};
ghost use Rattle.custody_model.specs.Allowed.{IsFront};
ghost use Rattle.custody.specs.Tables.{custody_of, is_in_pool, seat_at};

use crate::tables::Custody;
use custody_model::FrameUse;

impl Custody {
    /// What a frame is used for; nothing, where there is no such frame.
    pub fn frame(&self, frame: u32) -> FrameUse
        ensures { result ≡ (custody_of self.now).frame frame }
    {
        self.frames.at(frame)
    }

    /// A uid past every one that was active: from it on, none is.
    pub fn active_end(&self) -> u64
        ensures few { result ≤ 2 ^ 32 }
        ensures past { (uid : ℕ) → result ≤ uid → (custody_of self.now).active uid ≡ false }
    {
        self.active.end()
    }

    /// How many places of a pool are taken.
    pub fn in_pool(&self, pool: u32) -> u64
        ensures { result ≡ count_by (is_in_pool pool) self.now.active }
    {
        self.active.in_pool(pool)
    }

    /// The first process that is ready.
    pub fn front(&self) -> Option<u32>
        ensures some { IfSome result (IsFront self.now.ready) }
        ensures none { IfNone result (self.now.ready ≡ []) }
    {
        self.ready.first().copied()
    }

    /// How many command entries the process of a processor has had since its load.
    pub fn turn(&self, cpu: u32) -> u64
        ensures { result ≡ (seat_at self.now.seats cpu).count }
    {
        match self.seats.get(cpu as usize) {
            Some(seat) => seat.count(),
            None => 0,
        }
    }

    /// Whether the last command entry of a processor was a try that didn't end its `await`.
    pub fn tried(&self, cpu: u32) -> bool
        ensures { result ≡ (seat_at self.now.seats cpu).tried }
    {
        match self.seats.get(cpu as usize) {
            Some(seat) => seat.tried(),
            None => false,
        }
    }
}
