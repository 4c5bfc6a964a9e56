ghost use Rattle.std.specs.Prelude.{◌≡◌, ◌<◌, ◌≤◌, ◌+◌, ℕ, [], length, Some, None, true, IfSome, IfNone, IsSome};
ghost use Rattle.std.specs.List.{list_any};
ghost use Rattle.accounts.specs.Maps.{HasColumns};
ghost use Rattle.tree_model.specs.Trees.{IsTree};
ghost use Rattle.core_map.specs.CoreMap.{bound_page, frame_at, is_bound};
ghost use Rattle.core_map.specs.Clock.{clock_choice};
ghost use Rattle.page_table.specs.declared.Ptw.TheVariants.{Here};
ghost use Rattle.active_segs.specs.Active.{IsActive};
ghost use Rattle.page_control.specs.Plain.{bindings, plain};
ghost use Rattle.seg_control.specs.Kept.{IsKept};
ghost use Rattle.seg_control.specs.Control.{leads_at, place_of, table_of, word_of};
ghost use Rattle.machine_model.specs.Jobs.{cut_all, cut_one, eviction_begun, note_of, page_in, take_all};
ghost use Rattle.machine_model.specs.Jobs.{take_one, with_choice, with_leaving};
ghost use Rattle.machine_model.specs.Reads.{cut_of_owner, descriptor_of, frames_from, frames_of_owner, here_in};
ghost use Rattle.machine_model.specs.Reads.{trailers_in};
ghost use Rattle.machine_model.specs.Steps.{with_store};
ghost use Rattle.machine_tables.specs.Owned.{HasOwner};
ghost use Rattle.machine_tables.specs.Parts.{with_state};
ghost use Rattle.machine_tables.specs.Taken.{AreHere, IsOldest, LeavesPast};

use crate::tables::Tables;
use accounts::Accounts;
use assoc_mem::What;
use book::Entry;
use descriptor_seg::Sdw;
use machine_model::{Aim, CutDescriptor};
use mnames::Mode;
use page_table::Ptw;
use seg_control::Segs;
use volumes::Drive;

impl<D: Drive> Tables<D> {
    /// Segment control, with what is true of it between calls.
    pub(crate) fn segs(&self) -> &Segs<D>
        ensures pages { plain D.pages result.now.pages ≡ self.now.state.store.pages }
        ensures ast { result.now.ast ≡ self.now.state.store.ast }
        ensures links { result.now.links ≡ self.now.state.store.links }
        ensures kept { IsKept self.now.state.store.pages self.now.state.store.ast self.now.state.store.links }
    {
        let segs = self.store.segs();
        segs.pages();
        segs
    }

    /// The accounts, with what is true of them between calls.
    pub(crate) fn accounts(&self) -> &Accounts
        ensures accounts { result.now ≡ self.now.state.store.accounts }
        ensures columns { HasColumns self.now.state.store.accounts }
        ensures tree { IsTree self.now.state.store.accounts.nodes }
    {
        let accounts = self.store.accounts();
        accounts.promise();
        accounts
    }

    /// The place in which an active segment is.
    #[tactic(auto, using(crate::proofs::LinkLaws::place_found))]
    pub(crate) fn place(&self, uid: u32) -> u32
        requires { IsActive self.now.state.store.ast.entries uid }
        ensures place { result ≡ place_of self.now.state.store.ast.entries uid }
        ensures within { result < length self.now.state.store.ast.entries }
    {
        let Some(place) = self.store.segs().ast().search(uid) else {
            unreachable!();
        };
        place
    }

    /// The page in a bound frame, as its segment, which is active, and its number.
    pub(crate) fn page_in(&self, f: u32) -> (u32, u32)
        requires { is_bound (frame_at self.now.state.store.pages.core f) ≡ true }
        ensures page { bound_page (frame_at self.now.state.store.pages.core f) ≡ Some result }
        ensures active { IsActive self.now.state.store.ast.entries result.0 }
    {
        let segs = self.segs();
        let Some(page) = segs.pages().frames().page_of(f) else {
            unreachable!();
        };
        page
    }

    /// The page in a frame is on its way out.
    pub(crate) fn send_off(&mut self, f: u32)
        requires still { self.old.state.store.moving ≡ None }
        requires bound { is_bound (frame_at self.old.state.store.pages.core f) ≡ true }
        requires here { word_of self.old.state.store.ast (page_in self.old.state.store f).0
            (page_in self.old.state.store f).1 ≡ Here f }
        ensures { self.new ≡ with_state self.old
            (with_store self.old.state (with_leaving self.old.state.store f)) }
    {
        let (uid, _number) = self.page_in(f);
        self.store.take(uid, f);
    }

    /// The owner takes the page in a frame, which is on its way out then.
    pub(crate) fn take_one(&mut self, c: u32, aim: Aim, what: What, f: u32)
        requires still { self.old.state.store.moving ≡ None }
        requires bound { is_bound (frame_at self.old.state.store.pages.core f) ≡ true }
        requires here { word_of self.old.state.store.ast (page_in self.old.state.store f).0
            (page_in self.old.state.store f).1 ≡ Here f }
        requires owner { HasOwner self.old.state.owner }
        requires few { length (frames_of_owner self.old.state.owner) < 256 }
        requires room { 0 < self.old.state.spare }
        ensures { self.new ≡ with_state self.old (take_one self.old.state c aim what f) }
    {
        self.send_off(f);
        self.job.add_frame(c, aim, what, f);
        self.note(Entry::Take { frame: f });
    }
}

impl<D: Drive> Tables<D> {
    /// The word of a page of an active segment; where the page is here, its frame is bound to it.
    #[tactic(auto, using(crate::proofs::LinkLaws::bound_in))]
    pub(crate) fn word_of(&self, uid: u32, p: u32) -> Ptw
        requires active { IsActive self.now.state.store.ast.entries uid }
        requires page { p < length (table_of self.now.state.store.ast uid) }
        ensures word { result ≡ word_of self.now.state.store.ast uid p }
        ensures bound { (f : ℕ) → result ≡ Here f
            → bound_page (frame_at self.now.state.store.pages.core f) ≡ Some (uid, p) }
    {
        let place = self.place(uid);
        let segs = self.segs();
        segs.ast().table(place).get(p)
    }

    /// The owner takes a page of an active segment, if it is here.
    fn take_page(&mut self, c: u32, aim: Aim, what: What, uid: u32, p: u32)
        requires still { self.old.state.store.moving ≡ None }
        requires active { IsActive self.old.state.store.ast.entries uid }
        requires page { p < length (table_of self.old.state.store.ast uid) }
        requires owner { HasOwner self.old.state.owner }
        requires few { length (frames_of_owner self.old.state.owner)
            + length (here_in (word_of self.old.state.store.ast uid p)) ≤ 256 }
        requires room { length (here_in (word_of self.old.state.store.ast uid p)) ≤ self.old.state.spare }
        ensures effect { self.new ≡ with_state self.old
            (take_all self.old.state c aim what (here_in (word_of self.old.state.store.ast uid p))) }
        ensures rest { LeavesPast self.old.state.store.ast self.new.state.store.ast uid p }
    {
        if let Ptw::Here(f) = self.word_of(uid, p) {
            self.take_one(c, aim, what, f);
        }
    }

    /// How many words the page table of an active segment has.
    pub(crate) fn table_size(&self, uid: u32) -> u32
        requires { IsActive self.now.state.store.ast.entries uid }
        ensures { result ≡ length (table_of self.now.state.store.ast uid) }
    {
        self.store.segs().ast().table(self.place(uid)).size()
    }

    /// The owner takes the pages of an active segment that are here, from a number on, in their order.
    pub(crate) fn take_pages(&mut self, c: u32, aim: Aim, what: What, uid: u32, low: u32)
        requires still { self.old.state.store.moving ≡ None }
        requires active { IsActive self.old.state.store.ast.entries uid }
        requires owner { HasOwner self.old.state.owner }
        requires few { length (frames_of_owner self.old.state.owner)
            + length (frames_from self.old.state.store.ast uid low) ≤ 256 }
        requires room { length (frames_from self.old.state.store.ast uid low) ≤ self.old.state.spare }
        ensures { self.new ≡ with_state self.old
            (take_all self.old.state c aim what (frames_from self.old.state.store.ast uid low)) }
    {
        for p in low..self.table_size(uid) {
            self.take_page(c, aim, what, uid, p);
        }
    }
}

impl<D: Drive> Tables<D> {
    /// What is remembered of a descriptor that is cut.
    fn note_of(&self, process: u32, number: u32) -> CutDescriptor
        requires process { process < length self.now.state.store.links.known }
        requires number { number < 256 }
        ensures { result ≡ note_of self.now.state.store process number
            (descriptor_of self.now.state.store.links process number) }
    {
        let segs = self.store.segs();
        match segs.descriptors(process).get(number) {
            Sdw::Present { aste, mode, pages } => CutDescriptor {
                process,
                number,
                uid: segs.ast().uid_at(aste).unwrap_or(0),
                mode,
                pages,
            },
            Sdw::Fault => CutDescriptor {
                process,
                number,
                uid: 0,
                mode: Mode::Null,
                pages: 0,
            },
        }
    }

    /// The owner cuts a connected descriptor.
    pub(crate) fn cut_one(&mut self, c: u32, aim: Aim, what: What, process: u32, number: u32)
        requires process { process < length self.old.state.store.links.known }
        requires number { number < 256 }
        requires connected { IsSome (leads_at self.old.state.store.links.descriptors process number) }
        requires owner { HasOwner self.old.state.owner }
        requires few { length (cut_of_owner self.old.state.owner) < 256 }
        requires room { 0 < self.old.state.spare }
        ensures { self.new ≡ with_state self.old (cut_one self.old.state c aim what (process, number)) }
    {
        let cut = self.note_of(process, number);
        self.store.cut_one(process, number);
        self.job.add_cut(c, aim, what, cut);
        self.note(Entry::Cut { process, number });
    }

    /// The oldest of the descriptors that lead to an active segment.
    #[tactic(auto, using(crate::proofs::CutLaws::no_trailers, crate::proofs::CutLaws::oldest_is))]
    pub(crate) fn first_trailer(&self, uid: u32) -> Option<(u32, u32)>
        requires { IsActive self.now.state.store.ast.entries uid }
        ensures first { IfSome result (IsOldest self.now.state.store uid) }
        ensures none { IfNone result (trailers_in self.now.state.store uid ≡ []) }
    {
        let place = self.place(uid);
        let segs = self.segs();
        let trailers = segs.trailers();
        if trailers.count(place) == 0 {
            return None;
        }
        Some(trailers.at(place, 0))
    }

    /// The owner cuts the descriptors that lead to an active segment, the oldest first.
    pub(crate) fn cut_trailers(&mut self, c: u32, aim: Aim, what: What, uid: u32)
        requires active { IsActive self.old.state.store.ast.entries uid }
        requires owner { HasOwner self.old.state.owner }
        requires few { length (cut_of_owner self.old.state.owner)
            + length (trailers_in self.old.state.store uid) ≤ 256 }
        requires room { length (trailers_in self.old.state.store uid) ≤ self.old.state.spare }
        ensures { self.new ≡ with_state self.old
            (cut_all self.old.state c aim what (trailers_in self.old.state.store uid)) }
    {
        while let Some((process, number)) = self.first_trailer(uid) {
            self.cut_one(c, aim, what, process, number);
        }
    }
}

impl<D: Drive> Tables<D> {
    /// The frame that the clock chooses, with its marks and its hand as they are then.
    fn choose(&mut self) -> u32
        requires { list_any is_bound self.old.state.store.pages.core.frames ≡ true }
        ensures choice { clock_choice self.old.state.store.pages.core ≡ Some result }
        ensures effect { self.new ≡ with_state self.old
            (with_store self.old.state (with_choice self.old.state.store result)) }
        ensures bound { is_bound (frame_at self.new.state.store.pages.core result) ≡ true }
        ensures bindings { bindings self.new.state.store.pages.core ≡ bindings self.old.state.store.pages.core }
    {
        self.store.choose()
    }

    /// Processor `c` takes the page in the frame that the clock chooses, and gives the frame's number. No page is on
    /// its way out yet. (Source: Corbató 1968.)
    #[inline(never)]
    pub fn evict(&mut self, c: u32) -> u32
        requires still { self.old.state.store.moving ≡ None }
        requires bound { list_any is_bound self.old.state.store.pages.core.frames ≡ true }
        requires here { AreHere self.old.state.store }
        requires owner { HasOwner self.old.state.owner }
        requires few { length (frames_of_owner self.old.state.owner) < 256 }
        requires room { 0 < self.old.state.spare }
        ensures choice { clock_choice self.old.state.store.pages.core ≡ Some result }
        ensures effect { self.new ≡ with_state self.old (eviction_begun self.old.state c result) }
    {
        let f = self.choose();
        self.take_one(c, Aim::Evicting, What::Page(f), f);
        f
    }
}
