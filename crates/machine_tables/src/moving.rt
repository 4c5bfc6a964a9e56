//! A segment whose volume has no free record moves to another volume, a step at a time.

ghost use Rattle.std.specs.Prelude.{◌≡◌, ◌<◌, ◌≤◌, ◌+◌, ◌^◌, ◌-◌, ℕ, true, length, None, Some, OnOk, OnErr};
ghost use Rattle.script.specs.Plans.{Plan};
ghost use Rattle.flat_model.specs.Moves.{moved};
ghost use Rattle.flat_model.specs.Store.{Store as Flat};
ghost use Rattle.accounts.specs.Maps.{count_of};
ghost use Rattle.tree_model.specs.Trees.{has_segment};
ghost use Rattle.custody_model.specs.Next.{released_by};
ghost use Rattle.active_segs.specs.Active.{IsActive};
ghost use Rattle.seg_mover.specs.Copies.{CallsDrives};
ghost use Rattle.page_control.specs.Tied.{is_out};
ghost use Rattle.seg_control.specs.Control.{table_of};
ghost use Rattle.seg_control.specs.Moving.{IsUnread, next_out, volumes_of};
ghost use Rattle.storage_ops.specs.Rooms.{is_roomy};
ghost use Rattle.machine_model.specs.Actions.{move_on};
ghost use Rattle.machine_model.specs.After.{by_outcome};
ghost use Rattle.machine_model.specs.Keeps.{IsFaithful};
ghost use Rattle.machine_model.specs.Moves.{copy_failed, move_begun, move_committed, page_copied, with_copy};
ghost use Rattle.machine_model.specs.Moves.{with_move, with_moved, without_move};
ghost use Rattle.machine_model.specs.Reads.{cpu_at, home_in, next_command, process_at, processor_at, run_at};
ghost use Rattle.machine_model.specs.Steps.{with_faults, with_owner, with_store};
ghost use Rattle.machine_tables.specs.Meant.{meant};
ghost use Rattle.machine_tables.specs.Moved.{MayCopy};
ghost use Rattle.machine_tables.specs.Parts.{outcome_of, with_drives, with_state};

use crate::action::Action;
use crate::tables::Tables;
use book::{Entry, Reply};
use page_table::Ptw;
use seg_mover::Mover;
use site_io::Failed;
use volumes::Drive;

/// Whether a page is on its record alone, by its word.
fn is_out(word: Ptw) -> bool
    ensures { result ≡ is_out word }
{
    matches!(word, Ptw::Out(_))
}

impl<D: Drive> Tables<D> {
    /// The least page of an active segment, from a number on, that is on its record alone. It looks at the words of the
    /// segment's page table up to that one.
    #[inline(never)]
    fn next_out(&self, uid: u32, from: u32) -> Option<u32>
        requires active { IsActive self.now.state.store.ast.entries uid }
        requires short { length (table_of self.now.state.store.ast uid) ≤ 256 }
        ensures { result ≡ next_out (table_of self.now.state.store.ast uid) from }
    {
        for page in from..self.table_size(uid) {
            if is_out(self.word_of(uid, page)) {
                return Some(page);
            }
        }
        None
    }

    /// What the owner does next that moves a segment: the next page is copied, and after the last one the segment has
    /// its home on the other volume.
    pub(crate) fn move_on(&self, mover: Mover) -> Action
        requires active { IsActive self.now.state.store.ast.entries mover.uid }
        requires short { length (table_of self.now.state.store.ast mover.uid) ≤ 256 }
        ensures { (k : ℕ) → meant self.now.state k result ≡ move_on self.now.state.store mover }
    {
        match self.next_out(mover.uid, mover.next) {
            Some(page) => Action::CopyPage { mover, page },
            None => Action::CommitMove(mover),
        }
    }
}

impl<D: Drive> Tables<D> {
    /// Processor `c`, which owns the supervisor, begins to move an active segment to a volume that has room for it:
    /// more free records than the segment has stored pages, and a free VTOC entry. It takes them there, and calls no
    /// drive. No page of the segment is being read into a frame. (Source: own.)
    #[inline(never)]
    pub fn begin_move(&mut self, c: u32, uid: u32, volume: u32)
        requires still { self.old.state.store.moving ≡ None }
        requires active { IsActive self.old.state.store.ast.entries uid }
        requires volume { volume < length self.old.state.store.pages.disks }
        requires room { is_roomy (volumes_of self.old.state.store.pages) (home_in self.old.state.store uid).volume
            (count_of self.old.state.store.accounts uid) volume ≡ true }
        requires unread { IsUnread self.old.state.store.pages.core uid }
        ensures effect { self.new ≡ with_state self.old (move_begun self.old.state c uid volume) }
        ensures shown { (p : Plan) (t : Flat) → IsFaithful p t self.old.state.store
            → IsFaithful p t self.new.state.store }
    {
        let home = self.home(uid);
        let mover = self
            .store
            .move_begin(uid, (home.volume, home.entry), volume);
        self.job.move_on(c, mover);
    }

    /// The next page of the segment that moves is copied, unless one of the two drives fails.
    fn copy(&mut self, mover: &mut Mover, page: u32) -> Result<(), Failed>
        requires moving { self.old.state.store.moving ≡ Some mover.old }
        requires page { next_out (table_of self.old.state.store.ast mover.old.uid) mover.old.next ≡ Some page }
        ensures ok { OnOk result (self.new ≡ with_drives (with_state self.old (with_store self.old.state
            (with_copy self.old.state.store mover.old page))) self.new.drives self.new.state.faults) }
        ensures err { OnErr result (self.new ≡ with_drives self.old self.new.drives self.new.state.faults) }
        ensures mover { OnOk result (self.new.state.store.moving ≡ Some mover.new) }
        ensures same { OnErr result (mover.new ≡ mover.old) }
        ensures shown { (p : Plan) (t : Flat) → IsFaithful p t self.old.state.store
            → IsFaithful p t self.new.state.store }
        ensures drives { CallsDrives D.plan D.places D.faults self.old.drives self.new.drives mover.old.from.0
            mover.old.to.0 result }
    {
        match self.store.move_next(mover) {
            Ok(true) => Ok(()),
            Ok(false) => unreachable!(),
            Err(failed) => Err(failed),
        }
    }

    /// What the move has taken is given back, and the process is answered; the drives have counted the failure.
    fn give_move_up(&mut self, c: u32, process: u32, mover: Mover)
        requires moving { self.old.state.store.moving ≡ Some mover }
        requires may { MayCopy self.old c process }
        ensures effect { self.new ≡ with_state self.old (copy_failed self.old.state c self.old.state.faults) }
        ensures shown { (p : Plan) (t : Flat) → IsFaithful p t self.old.state.store
            → IsFaithful p t self.new.state.store }
    {
        self.store.move_undo(mover);
        self.tell_fault(Some(process));
        self.tell(c, process, None, Reply::Device);
        self.give_up();
    }

    /// Processor `c`, which owns the supervisor, copies the next page of the segment that it moves; or, where one of
    /// the two drives fails, what the move has taken is given back, and the process is told of the failure and
    /// answered. It costs a read of the one drive and a write of the other. (Source: own.)
    ///
    /// # Errors
    /// `Failed` exactly where one of the drives failed.
    #[inline(never)]
    pub fn copy_page(&mut self, c: u32, process: u32, mover: Mover, page: u32) -> Result<(), Failed>
        requires moving { self.old.state.store.moving ≡ Some mover }
        requires page { next_out (table_of self.old.state.store.ast mover.uid) mover.next ≡ Some page }
        requires may { MayCopy self.old c process }
        ensures state { self.new.state ≡ by_outcome (outcome_of result self.new.state.faults)
            (page_copied (with_faults self.old.state self.new.state.faults) c mover page)
            (copy_failed self.old.state c self.new.state.faults) }
        ensures room { self.new.room ≡ self.old.room }
        ensures shown { (p : Plan) (t : Flat) → IsFaithful p t self.old.state.store
            → IsFaithful p t self.new.state.store }
        ensures drives { CallsDrives D.plan D.places D.faults self.old.drives self.new.drives mover.from.0 mover.to.0
            result }
    {
        let mut next = mover;
        let copied = self.copy(&mut next, page);
        match copied {
            Ok(()) => self.job.move_on(c, next),
            Err(_) => self.give_move_up(c, process, next),
        }
        copied
    }

    /// Processor `c`, which owns the supervisor, ends the move of a segment of which no page is left to copy: its home
    /// is on the other volume, which is booked, and the owner looks again. It calls no drive. (Source: own.)
    #[inline(never)]
    pub fn commit_move(&mut self, c: u32, process: u32, mover: Mover)
        requires moving { self.old.state.store.moving ≡ Some mover }
        requires done { next_out (table_of self.old.state.store.ast mover.uid) mover.next ≡ None }
        requires segment { has_segment self.old.state.store.accounts.nodes mover.uid ≡ true }
        requires process { (cpu_at self.old.state.processors c).process ≡ Some process }
        requires room { 0 < self.old.state.spare }
        ensures effect { self.new ≡ with_state self.old (move_committed self.old.state c mover) }
        ensures shown { (p : Plan) (t : Flat) → IsFaithful p t self.old.state.store
            → IsFaithful p (moved t mover.uid mover.to.0) self.new.state.store }
    {
        let _home = self.store.move_commit(mover);
        self.job.begin(c);
        self.note(Entry::Moved {
            process,
            uid: mover.uid,
            volume: mover.to.0,
        });
    }
}
