//! Which frame a page gets, or what is done before it gets one.

ghost use Rattle.std.specs.Prelude.{◌≡◌, ℕ, All, false, length};
ghost use Rattle.std.specs.List.{list_any};
ghost use Rattle.core_map.specs.CoreMap.{is_bound, is_free, least_free_frame};
ghost use Rattle.core_map.specs.Clock.{clock_choice};
ghost use Rattle.machine_model.specs.Actions.{Action as Rule, Create, Start, evict_or_wait, into_frame, room_for};
ghost use Rattle.machine_model.specs.Actions.{unless_read};
ghost use Rattle.machine_model.specs.Reads.{frame_reading};
ghost use Rattle.machine_tables.specs.Meant.{meant, unless_first};
ghost use Rattle.machine_tables.specs.Reading.{AreRead, test_of};

use crate::action::{Action, Why};
use crate::reading::Pages;
use crate::tables::Tables;
use core_map::CoreMap;
use script::Reference;
use volumes::Drive;

/// Whether one of so many frames has a page. It looks at them up to the first that has one.
fn has_bound(core: &CoreMap, count: u32) -> bool
    requires { length core.now.frames ≡ count }
    ensures { result ≡ list_any is_bound core.now.frames }
{
    for frame in 0..count {
        if core.page_of(frame).is_some() {
            return true;
        }
    }
    false
}

impl<D: Drive> Tables<D> {
    /// Frames and the pages in them.
    fn core(&self) -> &CoreMap
        ensures { result.now ≡ self.now.state.store.pages.core }
    {
        self.segs().pages().frames()
    }

    /// Whether a page is in a frame. Where none is free it looks at no more frames than processors read pages into, and
    /// one.
    fn has_bound(&self) -> bool
        requires { length self.now.state.store.pages.core.frames ≡ self.now.state.plan.frames }
        ensures { result ≡ list_any is_bound self.now.state.store.pages.core.frames }
    {
        has_bound(self.core(), self.book.script().frames())
    }

    /// What is done where no frame is free: the clock's choice goes; where a page is being read into every frame, the
    /// first of them is waited for.
    #[tactic(auto, using(crate::proofs::FrameLaws::bound_goes, crate::proofs::FrameLaws::first_waits))]
    fn evict_or_wait(&self) -> Action
        requires frames { length self.now.state.store.pages.core.frames ≡ self.now.state.plan.frames }
        requires full { All (λ frame. is_free frame ≡ false) self.now.state.store.pages.core.frames }
        ensures { (k : ℕ) → meant self.now.state k result ≡ evict_or_wait self.now.state.store.pages.core
            (clock_choice self.now.state.store.pages.core) }
    {
        let _some = self.book.script().processes();
        if self.has_bound() {
            Action::Evict
        } else {
            Action::Waits(Why::ForTransfer(0))
        }
    }

    /// That a page of a segment is waited for, where one of them is being read into a frame.
    pub(crate) fn first_read(&self, uid: u32, pages: Pages) -> Option<Action>
        requires { AreRead self.now.state.store.pages.core self.now.state.processors }
        ensures { (k : ℕ) (otherwise : Rule) → unless_first self.now.state k result otherwise ≡ unless_read
            (frame_reading self.now.state.store.pages.core uid (test_of pages)) otherwise }
    {
        let frame = self.frame_reading(uid, pages)?;
        Some(Action::Waits(Why::ForTransfer(frame)))
    }

    /// A page of a segment is being read into the least free frame from now on, or what is done where none is free.
    fn start_in_free(&self, uid: u32, page: u32) -> Action
        requires { length self.now.state.store.pages.core.frames ≡ self.now.state.plan.frames }
        ensures { (k : ℕ) → meant self.now.state k result ≡ into_frame self.now.state.store.pages.core
            (least_free_frame self.now.state.store.pages.core) (λ f. Start f uid page) }
    {
        match self.core().take_free() {
            Some(frame) => Action::Start { frame, uid, page },
            None => self.evict_or_wait(),
        }
    }

    /// A page is made in the least free frame for a reference, or what is done where none is free.
    fn make_in_free(&self, reference: Reference, uid: u32, page: u32) -> Action
        requires { length self.now.state.store.pages.core.frames ≡ self.now.state.plan.frames }
        ensures { (k : ℕ) → meant self.now.state k result ≡ into_frame self.now.state.store.pages.core
            (least_free_frame self.now.state.store.pages.core) (λ f. Create f uid page reference) }
    {
        match self.core().take_free() {
            Some(frame) => Action::Create {
                frame,
                uid,
                page,
                reference,
            },
            None => self.evict_or_wait(),
        }
    }

    /// A page is being read into a frame from now on, or what is done first.
    pub(crate) fn begin_reading(&self, uid: u32, page: u32) -> Action
        requires frames { length self.now.state.store.pages.core.frames ≡ self.now.state.plan.frames }
        requires reads { AreRead self.now.state.store.pages.core self.now.state.processors }
        ensures { (k : ℕ) → meant self.now.state k result
            ≡ room_for self.now.state.store.pages.core uid page (λ f. Start f uid page) }
    {
        match self.first_read(uid, Pages::Only(page)) {
            Some(first) => first,
            None => self.start_in_free(uid, page),
        }
    }

    /// A page is made in a frame for a reference, or what is done first.
    pub(crate) fn make_page(&self, reference: Reference, uid: u32, page: u32) -> Action
        requires frames { length self.now.state.store.pages.core.frames ≡ self.now.state.plan.frames }
        requires reads { AreRead self.now.state.store.pages.core self.now.state.processors }
        ensures { (k : ℕ) → meant self.now.state k result
            ≡ room_for self.now.state.store.pages.core uid page (λ f. Create f uid page reference) }
    {
        match self.first_read(uid, Pages::Only(page)) {
            Some(first) => first,
            None => self.make_in_free(reference, uid, page),
        }
    }
}
