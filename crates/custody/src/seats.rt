ghost use Rattle.std.specs.Prelude.{◌≡◌, ◌&&◌, ◌+◌, ◌<◌, ◌^◌, is_some, true, false, [], Some, None};
ghost use Rattle.std.specs.Bool.{Decides};
ghost use Rattle.custody_model.specs.Custody.{filled, has, is_uid, offline};
ghost use Rattle.custody.specs.Changes.{dropped, warned};
ghost use Rattle.custody_model.specs.Allowed.{HasHadItsTurn};

use crate::descriptors::Descriptors;
use crate::frames::Frames;
use crate::naming::{drop_pages, drop_segs};
use arrayvec::ArrayVec;
use assoc_mem::What;
use std::marker::Model;

/// A processor: whether it takes part, its process, its turn, what it is to drop, and what it holds.
#[derive(Drop)]
pub(crate) struct SeatRow {
    online: bool,
    process: Option<u32>,
    count: u64,
    tried: bool,
    due: Option<What>,
    segs: ArrayVec<u32, 16>,
    pages: ArrayVec<u32, 16>,
}

impl Model for SeatRow {
    ghost use Rattle.custody_model.specs.Custody.{Seat};

    ghost Value = { Seat };

    ghost view = { λ s. record {
      online = s.online;
      process = s.process;
      count = s.count;
      tried = s.tried;
      due = s.due;
      segs = s.segs.items;
      pages = s.pages.items;
    } };
}

impl SeatRow {
    /// A processor that doesn't take part yet.
    pub(crate) fn offline() -> SeatRow
        ensures { result ≡ offline }
    {
        SeatRow {
            online: false,
            process: None,
            count: 0,
            tried: false,
            due: None,
            segs: ArrayVec::new(),
            pages: ArrayVec::new(),
        }
    }

    /// Whether it takes part.
    pub(crate) fn online(&self) -> bool
        ensures { result ≡ self.now.online }
    {
        self.online
    }

    /// Its process.
    pub(crate) fn process(&self) -> Option<u32>
        ensures { result ≡ self.now.process }
    {
        self.process
    }

    /// What it is to drop.
    pub(crate) fn due(&self) -> Option<What>
        ensures { result ≡ self.now.due }
    {
        self.due
    }

    /// How many command entries its process has had since its load.
    pub(crate) fn count(&self) -> u64
        ensures { result ≡ self.now.count }
    {
        self.count
    }

    /// Whether the last of them was a try that didn't end its `await`.
    pub(crate) fn tried(&self) -> bool
        ensures { result ≡ self.now.tried }
    {
        self.tried
    }

    /// Whether its process has had its turn.
    pub(crate) fn has_had_its_turn(&self) -> bool
        ensures { Decides result (HasHadItsTurn self.now) }
    {
        self.count >= 16 || self.tried
    }

    /// Whether it holds the page table word of a frame.
    pub(crate) fn holds_page(&self, frame: u32) -> bool
        ensures { result ≡ has self.now.pages frame }
    {
        self.pages.iter().any(|held| *held == frame)
    }

    /// Whether it holds the descriptor of a number.
    pub(crate) fn holds_seg(&self, number: u32) -> bool
        ensures { result ≡ has self.now.segs number }
    {
        self.segs.iter().any(|held| *held == number)
    }

    /// Whether it is to drop something.
    pub(crate) fn is_due(&self) -> bool
        ensures { result ≡ is_some self.now.due }
    {
        self.due.is_some()
    }

    /// Whether it runs a process, and holds the descriptor of a number.
    pub(crate) fn holds_of(&self, process: u32, number: u32) -> bool
        ensures { result ≡ (is_uid process self.now.process && has self.now.segs number) }
    {
        match self.process {
            Some(runs) => runs == process && self.holds_seg(number),
            None => false,
        }
    }

    /// It takes part from now on.
    pub(crate) fn come_online(&mut self)
        ensures { self.new ≡ record self.old { online = true } }
    {
        self.online = true;
    }

    /// It loads a process, and holds nothing.
    pub(crate) fn load(&mut self, process: u32)
        ensures { self.new ≡ record self.old {
          process = Some process;
          count = 0;
          tried = false;
          segs = [];
          pages =
              [];
        } }
    {
        self.process = Some(process);
        self.count = 0;
        self.tried = false;
        self.segs.clear();
        self.pages.clear();
    }

    /// It leaves its process, and holds nothing.
    pub(crate) fn leave(&mut self)
        ensures { self.new ≡ record self.old { process = None; segs = []; pages = [] } }
    {
        self.process = None;
        self.segs.clear();
        self.pages.clear();
    }

    /// Its process's next command was answered, which may be a try that didn't end an `await`.
    pub(crate) fn answer(&mut self, tried: bool)
        requires { self.old.count + 1 < 2 ^ 64 }
        ensures { self.new ≡ record self.old { count = self.old.count + 1; tried = tried } }
    {
        self.count += 1;
        self.tried = tried;
    }

    /// It holds the descriptor of a number, as the newest; of sixteen the oldest goes.
    pub(crate) fn fill_seg(&mut self, number: u32)
        ensures { self.new ≡ record self.old { segs = filled self.old.segs number } }
    {
        fill(&mut self.segs, number);
    }

    /// It holds the page table word of a frame, as the newest; of sixteen the oldest goes.
    pub(crate) fn fill_page(&mut self, frame: u32)
        ensures { self.new ≡ record self.old { pages = filled self.old.pages frame } }
    {
        fill(&mut self.pages, frame);
    }

    /// It is to drop this, where it takes part.
    pub(crate) fn warn(&mut self, what: What)
        ensures { self.new ≡ warned what self.old }
    {
        if self.online {
            self.due = Some(what);
        }
    }

    /// It drops what is named.
    pub(crate) fn drop_named(&mut self, frames: &Frames, rows: &Vec<Descriptors>, what: What)
        ensures { self.new ≡ dropped frames.now rows.now.items what self.old }
    {
        drop_pages(&mut self.pages, frames, what);
        if let Some(process) = self.process {
            drop_segs(&mut self.segs, rows, process, what);
        }
    }

    /// It isn't to drop anything any more.
    pub(crate) fn settle(&mut self)
        ensures { self.new ≡ record self.old { due = None } }
    {
        self.due = None;
    }
}

/// Puts a number after those that are held; of sixteen the oldest goes.
fn fill(held: &mut ArrayVec<u32, 16>, number: u32)
    ensures { held.new.items ≡ filled held.old.items number }
{
    if held.len() >= 16 {
        held.remove(0);
    }
    held.push(number);
}
