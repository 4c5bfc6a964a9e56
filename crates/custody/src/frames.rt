ghost use Rattle.std.specs.Prelude.{◌≡◌, ◌≢◌, ◌==◌, ◌<◌, ℕ, true, slice_set, replicate, ◌≤◌, IfOk, OnOk, OnErr, Some};
ghost use Rattle.custody_model.specs.declared.FrameUse.TheVariants as frame;
ghost use Rattle.std.specs.Bool.{Decides};
ghost use Rattle.custody_model.specs.Custody.{bound_page, is_going_frame, is_uid, page_of, uid_of_page};
ghost use Rattle.custody.specs.Counts.{key_bit};
ghost use Rattle.std.specs.List.{list_any};
ghost use Rattle.custody.specs.Uses.{frame_at, frame_mark, is_page, is_page_from, kind_key};

use crate::NoMemory;
use crate::counts::Counts;
use crate::uses::{UseCounts, frame_mark, page_key, page_number, page_of, started_key};
use custody_model::FrameUse;
use std::alloc::Global;
use std::marker::Model;

/// What the frames of core are used for. A contract sees the list of their uses.
///
/// Beside it stand counts of them, by which little is looked for among all frames: a page only where another is counted
/// under its number, and the pages that a truncation takes of a segment that has one in a frame.
#[derive(Drop)]
pub(crate) struct Frames {
    uses: Vec<FrameUse>,
    counts: UseCounts,
    pages: Counts,
    started: Counts,
}

impl Model for Frames {
    ghost use Rattle.std.specs.Prelude.{List};
    ghost use Rattle.custody.specs.Uses.{AreFrames};
    ghost use Rattle.custody_model.specs.declared.FrameUse.{FrameUse as Use};

    ghost Value = { List Use };

    ghost view = { λ f. f.uses.items };

    ghost invariant = { λ f. AreFrames f.uses.items f.counts f.pages f.started };
}

impl Frames {
    /// So many frames, used for nothing.
    ///
    /// # Errors
    /// `NoMemory` is want of memory.
    #[tactic(auto, using(crate::proofs::BootLaws::frames_free))]
    pub(crate) fn new(alloc: Global, frames: u32) -> Result<Frames, NoMemory>
        requires { frames ≤ 1024 }
        ensures { IfOk result (λ f. f ≡ replicate frames frame.Free) }
    {
        let uses = vec![in alloc; FrameUse::Free; frames as usize]?;
        Ok(Frames {
            uses,
            counts: UseCounts::new(alloc),
            pages: Counts::new(alloc),
            started: Counts::new(alloc),
        })
    }

    /// What a frame is used for; nothing, where there is no such frame.
    pub(crate) fn at(&self, f: u32) -> FrameUse
        ensures { result ≡ frame_at self.now f }
    {
        match self.uses.get(f as usize) {
            Some(of) => *of,
            None => FrameUse::Free,
        }
    }

    /// A frame is used for this from now on; nothing changes where there is no such frame.
    ///
    /// # Errors
    /// `NoMemory` is want of memory; then nothing is changed.
    #[tactic(auto, using(crate::proofs::TallyLaws::frames_counted))]
    pub(crate) fn put(&mut self, f: u32, to: FrameUse) -> Result<(), NoMemory>
        ensures ok { OnOk result (self.new ≡ slice_set self.old f to) }
        ensures err { OnErr result (self.new ≡ self.old) }
    {
        let at = f as usize;
        if at >= self.uses.len() {
            return Ok(());
        }
        let from = self.uses[at];
        self.counts.reserve(frame_mark(to))?;
        self.started.reserve(started_key(to))?;
        self.pages.reserve(page_key(to))?;
        self.counts.shift(frame_mark(from), frame_mark(to));
        self.pages.shift(page_key(from), page_key(to));
        self.started.shift(started_key(from), started_key(to));
        self.uses[at] = to;
        Ok(())
    }

    /// Whether a page is in no frame, and being read into none.
    pub(crate) fn is_in_none(&self, uid: u32, page: u32) -> bool
        ensures { Decides result ((f : ℕ) → page_of (frame_at self.now f) ≢ Some (uid, page)) }
    {
        let count = self.pages.at(page_number(uid, page));
        if count == 0 {
            return true;
        }
        let some = self.is_in_some(uid, page);
        !some
    }

    /// Whether a page is in a frame, or being read into one. All frames are looked at.
    fn is_in_some(&self, uid: u32, page: u32) -> bool
        ensures { result ≡ list_any (λ x. is_page uid page (page_of x)) self.now }
    {
        self.uses.iter().any(|of| is_page(page_of(*of), uid, page))
    }

    /// Whether no page of a segment is in a frame, or being read into one.
    pub(crate) fn has_none_of(&self, uid: u32) -> bool
        ensures { Decides result ((f : ℕ) → uid_of_page (page_of (frame_at self.now f)) ≢ Some uid) }
    {
        let count = self.counts.of(uid);
        count == 0
    }

    /// Whether no page of a segment is being read into a frame.
    pub(crate) fn has_none_started(&self, uid: u32) -> bool
        ensures { Decides result ((f q : ℕ) → frame_at self.now f ≢ frame.Started uid q) }
    {
        let count = self.started.at(uid);
        count == 0
    }

    /// Whether a page is on its way out.
    pub(crate) fn some_goes(&self) -> bool
        ensures { Decides result ((f : ℕ) × (is_going_frame (frame_at self.now f) ≡ true)) }
    {
        let count = self.counts.going();
        count > 0
    }

    /// Whether the pages that are on their way out are all of this segment.
    pub(crate) fn all_go_of(&self, uid: u32) -> bool
        ensures { Decides result ((f : ℕ) → is_going_frame (frame_at self.now f) ≡ true
            → is_uid uid (uid_of_page (bound_page (frame_at self.now f))) ≡ true) }
    {
        let count = self.counts.going_of(uid);
        let all = self.counts.going();
        count == all
    }

    /// Whether no page is on its way out but the one in this frame.
    pub(crate) fn all_go_in(&self, frame: u32) -> bool
        ensures { Decides result ((f : ℕ) → is_going_frame (frame_at self.now f) ≡ true → (f == frame) ≡ true) }
    {
        let all = self.counts.going();
        let here = going_count(self.at(frame));
        all == here
    }

    /// Whether the pages of a segment that are in frames, or being read into them, are all below a number.
    pub(crate) fn all_are_below(&self, uid: u32, pages: u32) -> bool
        ensures { Decides result ((f q : ℕ) → page_of (frame_at self.now f) ≡ Some (uid, q) → q < pages) }
    {
        if self.has_none_of(uid) {
            return true;
        }
        let some = self.has_from(uid, pages);
        !some
    }

    /// Whether a page of a segment from a number on is in a frame, or being read into one. All frames are looked at.
    fn has_from(&self, uid: u32, from: u32) -> bool
        ensures { result ≡ list_any (λ x. is_page_from uid from (page_of x)) self.now }
    {
        self.uses
            .iter()
            .any(|of| is_page_from(page_of(*of), uid, from))
    }
}

/// How many pages are on their way out of a frame with this use, 1 or 0.
fn going_count(of: FrameUse) -> u64
    ensures { result ≡ key_bit (kind_key (frame_mark of)) 1 }
{
    match of {
        FrameUse::Going { .. } => 1,
        _ => 0,
    }
}

/// Whether a page is this one.
fn is_page(of: Option<(u32, u32)>, uid: u32, page: u32) -> bool
    ensures { result ≡ is_page uid page of }
{
    match of {
        Some((of, at)) => of == uid && at == page,
        None => false,
    }
}

/// Whether a page is one of a segment from a number on.
fn is_page_from(of: Option<(u32, u32)>, uid: u32, from: u32) -> bool
    ensures { result ≡ is_page_from uid from of }
{
    match of {
        Some((of, at)) => of == uid && from <= at,
        None => false,
    }
}
