//! What the keeper has beside its seat. That of `live_pages` has the same.
ghost use Rattle.std.specs.Prelude.{◌≡◌, ◌+◌, ◌*◌, ◌/◌, ◌%◌, ◌^◌, ◌<◌, ◌↔◌, length, slice_index};
ghost use Rattle.std.specs.Prelude.{slice_set, IsTrue, IfOk};
ghost use Rattle.live_doors.specs.Beside.{KeeperRows, MayBindBy, first_rows, shut_rows};

use std::alloc::{AllocError, Global};
use std::marker::Model;

/// The stamp that was raised last, and the door of each frame with the stamp as of which it was closed.
#[derive(Drop)]
pub struct Rows {
    request: u64,
    pub(crate) doors: Vec<u64>,
    since: Vec<u64>,
}

impl Model for Rows {
    ghost Value = { KeeperRows };

    ghost view = { λ r. record { request = r.request; doors = r.doors.items; since = r.since.items } };
}

impl Rows {
    /// Doors of so many frames that all have this word. Takes memory for two words a frame.
    pub fn new(alloc: Global, frames: u32, door: u64) -> Result<Rows, AllocError>
        ensures { IfOk result (λ rows. rows ≡ first_rows frames door) }
    {
        let doors = vec![in alloc; door; frames as usize]?;
        let since = vec![in alloc; 0; frames as usize]?;
        Ok(Rows {
            request: 0,
            doors,
            since,
        })
    }

    /// Closes the door of frame `f`, which admits a binding, as of the last stamp, and answers its word.
    pub fn shut(&mut self, f: u32) -> u64
        requires door { f < length self.old.doors }
        requires since { f < length self.old.since }
        requires admitted { slice_index self.old.doors f % 2 ≡ 0 }
        ensures word { result ≡ slice_index self.old.doors f + 1 }
        ensures rows { self.new ≡ shut_rows f self.old }
    {
        let door = self.doors[f as usize] + 1;
        self.doors[f as usize] = door;
        self.since[f as usize] = self.request;
        door
    }

    /// Has the door of frame `f` admit the next binding, and answers its word.
    pub fn admit(&mut self, f: u32) -> u64
        requires door { f < length self.old.doors }
        requires room { slice_index self.old.doors f / 2 < 2 ^ 62 }
        ensures word { result ≡ 2 * (slice_index self.old.doors f / 2 + 1) }
        ensures rows { self.new ≡ record self.old { doors = slice_set self.old.doors f result } }
    {
        let door = 2 * (self.doors[f as usize] / 2 + 1);
        self.doors[f as usize] = door;
        door
    }

    /// Raises the next stamp, and answers it.
    pub fn raise(&mut self) -> u64
        requires { self.old.request < 2 ^ 63 }
        ensures stamp { result ≡ self.old.request + 1 }
        ensures rows { self.new ≡ record self.old { request = self.old.request + 1 } }
    {
        self.request += 1;
        self.request
    }

    /// The stamp that was raised last.
    pub fn last_stamp(&self) -> u64
        ensures { result ≡ self.now.request }
    {
        self.request
    }

    /// The binding that the door of frame `f` admits, or was closed on.
    pub fn binding(&self, f: u32) -> u64
        requires { f < length self.now.doors }
        ensures { result ≡ slice_index self.now.doors f / 2 }
    {
        self.doors[f as usize] / 2
    }

    /// Whether the door of frame `f` admits a binding.
    pub fn is_admitted(&self, f: u32) -> bool
        requires { f < length self.now.doors }
        ensures { IsTrue result ↔ (slice_index self.now.doors f % 2 ≡ 0) }
    {
        self.doors[f as usize] % 2 == 0
    }

    /// Whether frame `f` was never bound, or is closed, and a stamp up to this one was raised since.
    pub fn may_bind(&self, f: u32, cleared: u64) -> bool
        requires door { f < length self.now.doors }
        requires since { f < length self.now.since }
        ensures { IsTrue result ↔ MayBindBy self.now.doors self.now.since cleared f }
    {
        let door = self.doors[f as usize];
        door == 1 || (door % 2 == 1 && self.since[f as usize] < cleared)
    }
}
