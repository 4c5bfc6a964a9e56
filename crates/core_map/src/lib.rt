//! The core map, which says what each frame of core is used for, and the clock that chooses the frame to be emptied.
//!
//! A frame is free, or started, which is that a page is being read into it, or bound to a page. A bound frame has a
//! used mark, which a reference through it turns on, and a modified mark, which a reference that writes turns on.
//! The clock gives a frame a second chance where its used mark is on (Corbató 1968, "A paging experiment with the
//! Multics system").
//!
//! Costs: `new` takes memory twice, for the frames and for a bit map of those that are taken. `take_free` reads one
//! upper word of the bit map for 4096 frames, and one lower word if a frame is free. `bind`, `start`, `lose` and
//! `release` write one frame and at most two words, and the other calls read or write one frame. `choose` goes over the
//! frames from the hand to its choice and turns their marks off as it goes; where every mark was on it goes round once,
//! and on to the first bound frame. None but `new` takes memory.
#![tactic(auto)]

mod clock;

ghost use Rattle.std.specs.Prelude.{◌≡◌, ◌<◌, ◌≢◌, ℕ, Bool, true, false, List, Option, None, Some, length, replicate};
ghost use Rattle.std.specs.Prelude.{slice_set, All, IfOk, IfSome, IfNone};
ghost use Rattle.std.specs.List.{list_any};
ghost use Rattle.core_map.specs.declared.Frame.{Frame};
ghost use Rattle.core_map.specs.declared.Frame.TheVariants.{Free, Started, Bound};
ghost use Rattle.core_map.specs.CoreMap.{Core, frame_at, with_frame, is_free, is_started, is_bound, bound_page};
ghost use Rattle.core_map.specs.CoreMap.{started_page, reads_of, is_modified, after_reference, with_modified, CanBind};
ghost use Rattle.core_map.specs.CoreMap.{least_free_frame, IsLeastFreeFrame};
ghost use Rattle.core_map.specs.Clock.{IsClockChoice, clock_choice, after_choice};

use bitmap::Bitmap;
pub use no_memory::NoMemory;
use std::alloc::Global;
use std::marker::Model;

/// What a frame of core is used for (Bensoussan, Clingen and Daley 1972; that a page is being read in is own).
#[derive(Clone, Copy, Debug, PartialEq, Eq)]
pub enum Frame {
    /// Nothing.
    Free,
    /// Page `page` of segment `uid` is being read into it.
    Started {
        uid: u32,
        page: u32,
    },
    /// It has page `page` of segment `uid`.
    Bound {
        uid: u32,
        page: u32,
        /// Whether the page was referred to since the clock passed.
        used: bool,
        /// Whether the page was written since it was last the same as its record.
        modified: bool,
    },
}

/// The core map, seen as the list of its frames and the hand of the clock, which is a frame's number.
#[derive(Debug, Drop)]
pub struct CoreMap {
    taken: Bitmap,
    frames: Vec<Frame>,
    hand: usize,
}

impl Model for CoreMap {
    ghost use Rattle.core_map.specs.CoreMap.{Core};

    ghost Value = { Core };

    ghost use Rattle.core_map.specs.Taken.{IsTied};

    ghost view = { λ core. record { frames = core.frames.items; hand = core.hand } };

    ghost invariant = { λ core. IsTied core.taken core.frames.items core.hand };
}

impl CoreMap {
    /// A core of `frames` frames, all free, with the hand at frame 0. `NoMemory` is want of memory. (Source:
    /// Corbató 1968.)
    pub fn new(alloc: Global, frames: u32) -> Result<CoreMap, NoMemory>
        ensures { IfOk result (λ core. core ≡ record { frames = replicate frames Free; hand = 0 }) }
    {
        let taken = Bitmap::new(alloc, frames)?;
        let frames = vec![in alloc; Frame::Free; frames as usize]?;
        Ok(CoreMap {
            taken,
            frames,
            hand: 0,
        })
    }

    /// The least free frame, None exactly where none is free. It reads a few words. (Source: own.)
    pub fn take_free(&self) -> Option<u32>
        ensures least { result ≡ least_free_frame self.now }
        ensures some { IfSome result (λ f. IsLeastFreeFrame self.now f) }
        ensures none { IfNone result (All (λ frame. is_free frame ≡ false) self.now.frames) }
    {
        self.taken.first_free()
    }

    /// The frame that the clock chooses among the bound ones, of which there is one. Marks of the frames that it
    /// passed over are off then, and the hand stands after the choice.
    ///
    /// It goes over the frames from the hand to the choice, round once and on to the first bound one where every bound
    /// frame has its mark on. Which pages are being read in stays. (Source: Corbató 1968.)
    pub fn choose(&mut self) -> u32
        requires { list_any is_bound self.old.frames ≡ true }
        ensures choice { IsClockChoice self.old self.new result }
        ensures chosen { clock_choice self.old ≡ Some result }
        ensures core { self.new ≡ after_choice self.old result }
        ensures bound { is_bound (frame_at self.new result) ≡ true }
        ensures reads { (f uid p : ℕ) → frame_at self.new f ≡ Started uid p → frame_at self.old f ≡ Started uid p }
        ensures started { reads_of self.new ≡ reads_of self.old }
    {
        let f = clock::turn(&mut self.frames, self.hand);
        self.hand = clock::next(f, self.frames.len());
        f as u32
    }

    /// Binds frame `f`, which is free or started for that very page, to page `page` of segment `uid`, with both
    /// marks off. It writes one frame. (Source: Bensoussan, Clingen and Daley 1972.)
    pub fn bind(&mut self, f: u32, uid: u32, page: u32)
        requires within { f < length self.old.frames }
        requires can { CanBind (frame_at self.old f) uid page }
        ensures frame { self.new ≡ with_frame self.old f (Bound uid page false false) }
        ensures started { reads_of self.new ≡ slice_set (reads_of self.old) f None }
    {
        occupy(&mut self.taken, f);
        self.frames[f as usize] = Frame::Bound {
            uid,
            page,
            used: false,
            modified: false,
        };
    }

    /// Notes that a page is being read into the free frame `f`: page `page` of segment `uid`. It writes one frame.
    /// (Source: own.)
    pub fn start(&mut self, f: u32, uid: u32, page: u32)
        requires within { f < length self.old.frames }
        requires free { frame_at self.old f ≡ Free }
        ensures frame { self.new ≡ with_frame self.old f (Started uid page) }
        ensures started { reads_of self.new ≡ slice_set (reads_of self.old) f (Some (uid, page)) }
    {
        self.taken.take(f);
        self.frames[f as usize] = Frame::Started { uid, page };
    }

    /// Frees the started frame `f`. It writes one frame. (Source: own.)
    pub fn lose(&mut self, f: u32)
        requires { is_started (frame_at self.old f) ≡ true }
        ensures frame { self.new ≡ with_frame self.old f Free }
        ensures started { reads_of self.new ≡ slice_set (reads_of self.old) f None }
    {
        self.taken.give_back(f);
        self.frames[f as usize] = Frame::Free;
    }

    /// Frees the bound frame `f`. It writes one frame. (Source: Bensoussan, Clingen and Daley 1972.)
    pub fn release(&mut self, f: u32)
        requires { is_bound (frame_at self.old f) ≡ true }
        ensures frame { self.new ≡ with_frame self.old f Free }
        ensures started { reads_of self.new ≡ reads_of self.old }
    {
        self.taken.give_back(f);
        self.frames[f as usize] = Frame::Free;
    }

    /// Turns the used mark of the bound frame `f` on, and where `wrote` its modified mark too. It writes one frame.
    /// (Source: Corbató 1968.)
    pub fn mark(&mut self, f: u32, wrote: bool)
        requires { is_bound (frame_at self.old f) ≡ true }
        ensures frame { self.new ≡ with_frame self.old f (after_reference (frame_at self.old f) wrote) }
        ensures started { reads_of self.new ≡ reads_of self.old }
    {
        self.frames[f as usize] = referred(self.frames[f as usize], wrote);
    }

    /// Turns the modified mark of the bound frame `f` off, and no other. It writes one frame. (Source: Corbató
    /// 1968.)
    pub fn cleaned(&mut self, f: u32)
        requires { is_bound (frame_at self.old f) ≡ true }
        ensures frame { self.new ≡ with_frame self.old f (with_modified (frame_at self.old f) false) }
        ensures started { reads_of self.new ≡ reads_of self.old }
    {
        self.set_modified(f, false);
    }

    /// Turns the modified mark of the bound frame `f` on, and no other. It writes one frame. (Source: own.)
    pub fn changed(&mut self, f: u32)
        requires { is_bound (frame_at self.old f) ≡ true }
        ensures frame { self.new ≡ with_frame self.old f (with_modified (frame_at self.old f) true) }
        ensures started { reads_of self.new ≡ reads_of self.old }
    {
        self.set_modified(f, true);
    }

    /// Sets the modified mark of the bound frame `f`, and no other.
    fn set_modified(&mut self, f: u32, modified: bool)
        requires { is_bound (frame_at self.old f) ≡ true }
        ensures frame { self.new ≡ with_frame self.old f (with_modified (frame_at self.old f) modified) }
        ensures started { reads_of self.new ≡ reads_of self.old }
    {
        self.frames[f as usize] = modified_as(self.frames[f as usize], modified);
    }

    /// The modified mark of the bound frame `f`. It reads one frame. (Source: Corbató 1968.)
    pub fn modified(&self, f: u32) -> bool
        requires { is_bound (frame_at self.now f) ≡ true }
        ensures { result ≡ is_modified (frame_at self.now f) }
    {
        matches!(self.frames[f as usize], Frame::Bound { modified: true, .. })
    }

    /// The uid and the page that frame `f` is bound to, None exactly where it isn't bound. It reads one frame.
    /// (Source: Bensoussan, Clingen and Daley 1972.)
    pub fn page_of(&self, f: u32) -> Option<(u32, u32)>
        requires { f < length self.now.frames }
        ensures { result ≡ bound_page (frame_at self.now f) }
    {
        match self.frames[f as usize] {
            Frame::Bound { uid, page, .. } => Some((uid, page)),
            Frame::Free | Frame::Started { .. } => None,
        }
    }

    /// The uid and the page that is being read into frame `f`, None exactly where it isn't started. It reads one
    /// frame. (Source: own.)
    pub fn started(&self, f: u32) -> Option<(u32, u32)>
        requires { f < length self.now.frames }
        ensures { result ≡ started_page (frame_at self.now f) }
    {
        match self.frames[f as usize] {
            Frame::Started { uid, page } => Some((uid, page)),
            Frame::Free | Frame::Bound { .. } => None,
        }
    }
}

/// Notes that frame `f` is taken, as it may be already.
fn occupy(taken: &mut Bitmap, f: u32)
    requires { f < length taken.old }
    ensures { taken.new ≡ slice_set taken.old f true }
{
    if !taken.is_used(f) {
        taken.take(f);
    }
}

/// The frame after a reference through it.
fn referred(mut frame: Frame, wrote: bool) -> Frame
    ensures { result ≡ after_reference frame wrote }
{
    if let Frame::Bound { used, modified, .. } = &mut frame {
        *used = true;
        *modified = *modified || wrote;
    }
    frame
}

/// The frame with this modified mark.
fn modified_as(mut frame: Frame, now: bool) -> Frame
    ensures { result ≡ with_modified frame now }
{
    if let Frame::Bound { modified, .. } = &mut frame {
        *modified = now;
    }
    frame
}
