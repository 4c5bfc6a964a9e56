ghost use Rattle.std.specs.Prelude.{◌≡◌, ◌<◌, ◌≤◌, ◌+◌, length, slice_get, Some, None, true, false, IfOk, OnErr};
ghost use Rattle.core_map.specs.CoreMap.{frame_at, is_bound};
ghost use Rattle.page_table.specs.declared.Ptw.TheVariants.{Leaving};
ghost use Rattle.page_control.specs.Drives.{CallsDrive};
ghost use Rattle.page_control.specs.Plain.{words_in};
ghost use Rattle.page_control.specs.declared.Left.TheVariants.{Released};
ghost use Rattle.seg_control.specs.Control.{word_of};
ghost use Rattle.script.specs.Plans.{Plan};
ghost use Rattle.flat_model.specs.Store.{Store as Flat};
ghost use Rattle.storage_ops.specs.Paged.{IsSettled};
ghost use Rattle.machine_model.specs.After.{by_outcome};
ghost use Rattle.machine_model.specs.Jobs.{are_zeros, eviction_done, left_of, page_done, page_in, pages_back};
ghost use Rattle.machine_model.specs.Jobs.{segs_back};
ghost use Rattle.machine_model.specs.Jobs.{entries_left, with_here, with_left, with_relink};
ghost use Rattle.machine_model.specs.Jobs.{without_first_frame, write_failed};
ghost use Rattle.machine_model.specs.Keeps.{IsFaithful};
ghost use Rattle.machine_model.specs.Reads.{cut_of_owner, frames_of_owner, home_in};
ghost use Rattle.machine_model.specs.Said.{without_left};
ghost use Rattle.machine_model.specs.Steps.{booked, with_faults, with_owner, with_store};
ghost use Rattle.machine_tables.specs.Owned.{HasOwner};
ghost use Rattle.machine_tables.specs.Parts.{KeepsSeats, SparesCall, outcome_of, with_accounts};
ghost use Rattle.machine_tables.specs.Parts.{with_drives, with_state};
ghost use Rattle.machine_model.specs.Returned.{IsLeaving, IsRelinkable, MayComeBack, MayRelink};
ghost use Rattle.machine_tables.specs.Returned.{MayFail};

use crate::tables::Tables;
use book::{Entry, Reply};
use machine_model::CutDescriptor;
use page_control::Left;
use site_io::Failed;
use volumes::Drive;

impl<D: Drive> Tables<D> {
    /// The page in a frame, which was on its way out, is here again.
    pub(crate) fn bring_back(&mut self, f: u32)
        requires still { self.old.state.store.moving ≡ None }
        requires leaving { IsLeaving self.old.state.store f }
        ensures { self.new ≡ with_state self.old
            (with_store self.old.state (with_here self.old.state.store f)) }
    {
        let (uid, _number) = self.page_in(f);
        self.store.back(uid, f);
    }

    /// The first frame that the owner took, which it hasn't taken any more then; `None` exactly where there is none.
    pub(crate) fn next_frame(&mut self) -> Option<u32>
        requires { HasOwner self.old.state.owner }
        ensures first { result ≡ slice_get (frames_of_owner self.old.state.owner) 0 }
        ensures rest { self.new ≡ with_state self.old
            (with_owner self.old.state (without_first_frame self.old.state.owner)) }
    {
        self.job.next_frame()
    }

    /// The owner hasn't taken its first frame any more.
    fn pass_frame(&mut self)
        requires { HasOwner self.old.state.owner }
        ensures { self.new ≡ with_state self.old
            (with_owner self.old.state (without_first_frame self.old.state.owner)) }
    {
        let _first = self.next_frame();
    }

    /// The pages that the owner took are here again, in the order in which it took them.
    fn return_pages(&mut self)
        requires still { self.old.state.store.moving ≡ None }
        requires owner { HasOwner self.old.state.owner }
        requires back { MayComeBack self.old.state.store (frames_of_owner self.old.state.owner) }
        requires room { length (frames_of_owner self.old.state.owner) ≤ self.old.state.spare }
        ensures effect { self.new ≡ with_state self.old
            (pages_back self.old.state (frames_of_owner self.old.state.owner)) }
        ensures seats { KeepsSeats self.old.state self.new.state }
        ensures owner { HasOwner self.new.state.owner }
        ensures cut { cut_of_owner self.new.state.owner ≡ cut_of_owner self.old.state.owner }
        ensures spent { self.new.state.spare + length (frames_of_owner self.old.state.owner)
            ≡ self.old.state.spare }
    {
        while let Some(frame) = self.next_frame() {
            self.bring_back(frame);
            self.note(Entry::BackPage { frame });
        }
    }

    /// A descriptor that was cut leads to its segment again.
    fn relink(&mut self, cut: CutDescriptor)
        requires { IsRelinkable self.old.state.store cut }
        ensures { self.new ≡ with_state self.old
            (with_store self.old.state (with_relink self.old.state.store cut)) }
    {
        self.store
            .connect(cut.process, cut.number, cut.uid, cut.mode, cut.pages);
    }

    /// The descriptors that the owner cut lead to their segments again, in the order in which it cut them.
    fn return_descriptors(&mut self)
        requires owner { HasOwner self.old.state.owner }
        requires back { MayRelink self.old.state.store (cut_of_owner self.old.state.owner) }
        requires room { length (cut_of_owner self.old.state.owner) ≤ self.old.state.spare }
        ensures effect { self.new ≡ with_state self.old
            (segs_back self.old.state (cut_of_owner self.old.state.owner)) }
        ensures seats { KeepsSeats self.old.state self.new.state }
        ensures spent { self.new.state.spare + length (cut_of_owner self.old.state.owner)
            ≡ self.old.state.spare }
    {
        while let Some(cut) = self.next_cut() {
            self.relink(cut);
            self.note(Entry::BackSeg {
                process: cut.process,
                number: cut.number,
            });
        }
    }
}

impl<D: Drive> Tables<D> {
    /// The page in a frame, which is on its way out, leaves it, unless the drive fails. What its accounts are then is
    /// told by `settled`.
    fn empty_frame(&mut self, f: u32) -> Result<Left, Failed>
        requires still { self.old.state.store.moving ≡ None }
        requires leaving { IsLeaving self.old.state.store f }
        ensures how { IfOk result (λ left. left ≡ left_of (words_in self.old.state.store.pages f)) }
        ensures ok { IfOk result (λ left. self.new ≡ with_drives (with_state self.old (with_store self.old.state
            (with_accounts (with_left self.old.state.store f left (page_in self.old.state.store f))
            self.new.state.store.accounts))) self.new.drives self.new.state.faults) }
        ensures err { OnErr result (self.new ≡ with_drives self.old self.new.drives self.new.state.faults) }
        ensures zeros { OnErr result (are_zeros (words_in self.old.state.store.pages f) ≡ false) }
        ensures settled { IsSettled self.old.state.store.accounts self.new.state.store.accounts
            (page_in self.old.state.store f).0 result }
        ensures shown { IfOk result (λ left. (p : Plan) (t : Flat) → IsFaithful p t self.old.state.store
            → IsFaithful p (without_left left (page_in self.old.state.store f) t) self.new.state.store) }
        ensures no_call { SparesCall self.old.state.store.pages f self.old.drives self.new.drives result }
        ensures drives { CallsDrive D.plan D.places D.faults self.old.drives self.new.drives
            (home_in self.old.state.store (page_in self.old.state.store f).0).volume result }
    {
        let (uid, _number) = self.page_in(f);
        let home = self.home(uid);
        self.store.evict(uid, home, f)
    }

    /// The page in a frame, which is on its way out, leaves it, unless the drive fails.
    pub(crate) fn let_go(&mut self, f: u32) -> Result<Left, Failed>
        requires still { self.old.state.store.moving ≡ None }
        requires leaving { IsLeaving self.old.state.store f }
        ensures how { IfOk result (λ left. left ≡ left_of (words_in self.old.state.store.pages f)) }
        ensures ok { IfOk result (λ left. self.new ≡ with_drives (with_state self.old (with_store self.old.state
            (with_left self.old.state.store f left (page_in self.old.state.store f))))
            self.new.drives self.new.state.faults) }
        ensures zeros { OnErr result (are_zeros (words_in self.old.state.store.pages f) ≡ false) }
        ensures err { OnErr result (self.new ≡ with_drives self.old self.new.drives self.new.state.faults) }
        ensures shown { IfOk result (λ left. (p : Plan) (t : Flat) → IsFaithful p t self.old.state.store
            → IsFaithful p (without_left left (page_in self.old.state.store f) t) self.new.state.store) }
        ensures no_call { SparesCall self.old.state.store.pages f self.old.drives self.new.drives result }
        ensures drives { CallsDrive D.plan D.places D.faults self.old.drives self.new.drives
            (home_in self.old.state.store (page_in self.old.state.store f).0).volume result }
    {
        self.accounts();
        let left = self.empty_frame(f);
        self.accounts();
        left
    }

    /// What was taken comes back, and the process is answered; the drives have counted the failure.
    fn return_all(&mut self, c: u32, process: u32)
        requires still { self.old.state.store.moving ≡ None }
        requires failing { MayFail self.old c process }
        ensures { self.new ≡ with_state self.old (write_failed self.old.state c self.old.state.faults) }
    {
        self.tell_fault(Some(process));
        self.return_pages();
        self.return_descriptors();
        self.tell(c, process, None, Reply::Device);
        self.give_up();
    }
}

impl<D: Drive> Tables<D> {
    /// Books that a page has left its frame and is stored no more.
    fn book_release(&mut self, f: u32, uid: u32, page: u32)
        requires { 2 ≤ self.old.state.spare }
        ensures { self.new ≡ with_state self.old (booked self.old.state (entries_left f Released (uid, page))) }
    {
        self.note(Entry::GonePage { frame: f });
        self.note(Entry::Release { uid, page });
    }

    /// Books that a page has left its frame, and that it is stored no more, where it was released.
    pub(crate) fn book_gone(&mut self, f: u32, uid: u32, page: u32, left: Left)
        requires { 2 ≤ self.old.state.spare }
        ensures { self.new ≡ with_state self.old (booked self.old.state (entries_left f left (uid, page))) }
    {
        match left {
            Left::Kept => self.note(Entry::GonePage { frame: f }),
            Left::Released => self.book_release(f, uid, page),
        }
    }
}

impl<D: Drive> Tables<D> {
    /// The page in a frame, which the owner took first, leaves it; a job that makes a segment inactive goes on with the
    /// next. Where the drive fails all that was taken comes back, and the process is answered. (Source: Bensoussan,
    /// Clingen and Daley 1972.)
    ///
    /// # Errors
    /// `Failed` exactly where the drive failed.
    #[inline(never)]
    pub fn finish_page(&mut self, c: u32, process: u32, f: u32) -> Result<Left, Failed>
        requires still { self.old.state.store.moving ≡ None }
        requires leaving { IsLeaving self.old.state.store f }
        requires failing { MayFail self.old c process }
        ensures state { self.new.state ≡ by_outcome (outcome_of result self.new.state.faults)
            (page_done (with_faults self.old.state self.new.state.faults) f)
            (write_failed self.old.state c self.new.state.faults) }
        ensures room { self.new.room ≡ self.old.room }
        ensures how { IfOk result (λ left. left ≡ left_of (words_in self.old.state.store.pages f)) }
        ensures shown { IfOk result (λ left. (p : Plan) (t : Flat) → IsFaithful p t self.old.state.store
            → IsFaithful p (without_left left (page_in self.old.state.store f) t) self.new.state.store) }
        ensures no_call { SparesCall self.old.state.store.pages f self.old.drives self.new.drives result }
        ensures drives { CallsDrive D.plan D.places D.faults self.old.drives self.new.drives
            (home_in self.old.state.store (page_in self.old.state.store f).0).volume result }
    {
        let (uid, page) = self.page_in(f);
        let gone = self.let_go(f);
        match gone {
            Ok(left) => {
                self.pass_frame();
                self.book_gone(f, uid, page, left);
            }
            Err(_) => self.return_all(c, process),
        }
        gone
    }

    /// The page in a frame, which the owner took to evict it, leaves it, and the owner looks again. Where the drive
    /// fails the page comes back, and the process is answered. (Source: Bensoussan, Clingen and Daley 1972.)
    ///
    /// # Errors
    /// `Failed` exactly where the drive failed.
    #[inline(never)]
    pub fn finish_eviction(&mut self, c: u32, process: u32, f: u32) -> Result<Left, Failed>
        requires still { self.old.state.store.moving ≡ None }
        requires leaving { IsLeaving self.old.state.store f }
        requires failing { MayFail self.old c process }
        ensures state { self.new.state ≡ by_outcome (outcome_of result self.new.state.faults)
            (eviction_done (with_faults self.old.state self.new.state.faults) c f)
            (write_failed self.old.state c self.new.state.faults) }
        ensures room { self.new.room ≡ self.old.room }
        ensures how { IfOk result (λ left. left ≡ left_of (words_in self.old.state.store.pages f)) }
        ensures shown { IfOk result (λ left. (p : Plan) (t : Flat) → IsFaithful p t self.old.state.store
            → IsFaithful p (without_left left (page_in self.old.state.store f) t) self.new.state.store) }
        ensures no_call { SparesCall self.old.state.store.pages f self.old.drives self.new.drives result }
        ensures drives { CallsDrive D.plan D.places D.faults self.old.drives self.new.drives
            (home_in self.old.state.store (page_in self.old.state.store f).0).volume result }
    {
        let (uid, page) = self.page_in(f);
        let gone = self.let_go(f);
        match gone {
            Ok(left) => {
                self.take_supervisor(c);
                self.book_gone(f, uid, page, left);
            }
            Err(_) => self.return_all(c, process),
        }
        gone
    }
}
