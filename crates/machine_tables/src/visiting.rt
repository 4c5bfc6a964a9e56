//! The shutdown visits the frames one after the other, and empties them.

ghost use Rattle.std.specs.Prelude.{◌≡◌, ◌<◌, ◌≤◌, length, None, true, false, IfOk, OnErr};
ghost use Rattle.script.specs.Plans.{Plan};
ghost use Rattle.flat_model.specs.Store.{Store as Flat};
ghost use Rattle.core_map.specs.CoreMap.{bound_page, frame_at, is_bound};
ghost use Rattle.page_control.specs.Drives.{CallsDrive};
ghost use Rattle.machine_model.specs.After.{by_outcome};
ghost use Rattle.page_control.specs.Plain.{words_in};
ghost use Rattle.machine_model.specs.Jobs.{are_zeros, left_of, page_back, page_gone, page_in};
ghost use Rattle.machine_model.specs.Keeps.{IsFaithful};
ghost use Rattle.machine_model.specs.Reads.{home_in};
ghost use Rattle.machine_model.specs.Shutdown.{after_visit, page_taken, visited_if};
ghost use Rattle.machine_model.specs.Steps.{fault_told, with_faults};
ghost use Rattle.machine_tables.specs.Parts.{SparesCall, outcome_of, with_state};
ghost use Rattle.machine_model.specs.Returned.{IsLeaving};
ghost use Rattle.machine_tables.specs.Taken.{AreHere};
ghost use Rattle.machine_tables.specs.Visited.{shown_left, shown_visited};

use crate::tables::Tables;
use book::Entry;
use page_control::Left;
use site_io::Failed;
use volumes::Drive;

impl<D: Drive> Tables<D> {
    /// The page in a bound frame, which is here, is on its way out.
    fn take_out(&mut self, f: u32)
        requires still { self.old.state.store.moving ≡ None }
        requires bound { is_bound (frame_at self.old.state.store.pages.core f) ≡ true }
        requires here { AreHere self.old.state.store }
        requires room { 0 < self.old.state.spare }
        ensures effect { self.new ≡ with_state self.old (page_taken self.old.state f) }
        ensures leaving { IsLeaving self.new.state.store f }
    {
        let _page = self.page_in(f);
        self.send_off(f);
        self.note(Entry::Take { frame: f });
    }

    /// The page in a frame, which is on its way out, is here again: the drive failed.
    fn take_back(&mut self, f: u32)
        requires still { self.old.state.store.moving ≡ None }
        requires leaving { IsLeaving self.old.state.store f }
        requires owner { self.old.state.owner ≡ None }
        requires room { 2 ≤ self.old.state.spare }
        ensures { self.new ≡ with_state self.old
            (page_back (fault_told self.old.state None self.old.state.faults) f) }
    {
        self.tell_fault(None);
        self.bring_back(f);
        self.note(Entry::BackPage { frame: f });
    }
}

impl<D: Drive> Tables<D> {
    /// The page in a bound frame, which is here, leaves it; where the drive fails it is here again.
    fn empty_bound(&mut self, f: u32) -> Result<Left, Failed>
        requires still { self.old.state.store.moving ≡ None }
        requires bound { is_bound (frame_at self.old.state.store.pages.core f) ≡ true }
        requires here { AreHere self.old.state.store }
        requires owner { self.old.state.owner ≡ None }
        requires room { 3 ≤ self.old.state.spare }
        ensures state { self.new.state ≡ by_outcome (outcome_of result self.new.state.faults)
            (page_gone (with_faults (page_taken self.old.state f) self.new.state.faults) f)
            (page_back (fault_told (page_taken self.old.state f) None self.new.state.faults) f) }
        ensures how { IfOk result (λ left. left ≡ left_of (words_in self.old.state.store.pages f)) }
        ensures zeros { OnErr result (are_zeros (words_in self.old.state.store.pages f) ≡ false) }
        ensures shown { (p : Plan) (t : Flat) → IsFaithful p t self.old.state.store
            → IsFaithful p (shown_left result (page_in self.old.state.store f) t) self.new.state.store }
        ensures room { self.new.room ≡ self.old.room }
        ensures no_call { SparesCall self.old.state.store.pages f self.old.drives self.new.drives result }
        ensures drives { CallsDrive D.plan D.places D.faults self.old.drives self.new.drives
            (home_in self.old.state.store (page_in self.old.state.store f).0).volume result }
    {
        self.take_out(f);
        let (uid, page) = self.page_in(f);
        let gone = self.let_go(f);
        match gone {
            Ok(left) => self.book_gone(f, uid, page, left),
            Err(_) => self.take_back(f),
        }
        gone
    }

    /// The page in a frame, if there is one, leaves it; where the drive fails it is here again.
    fn visit_frame(&mut self, f: u32) -> Result<(), Failed>
        requires still { self.old.state.store.moving ≡ None }
        requires frame { f < length self.old.state.store.pages.core.frames }
        requires here { AreHere self.old.state.store }
        requires owner { self.old.state.owner ≡ None }
        requires room { 3 ≤ self.old.state.spare }
        ensures state { self.new.state ≡ visited_if self.old.state f (outcome_of result self.new.state.faults)
            (bound_page (frame_at self.old.state.store.pages.core f)) }
        ensures shown { (p : Plan) (t : Flat) → IsFaithful p t self.old.state.store
            → IsFaithful p (shown_visited self.old.state f (outcome_of result self.new.state.faults)
            (bound_page (frame_at self.old.state.store.pages.core f)) t) self.new.state.store }
        ensures zeros { OnErr result (are_zeros (words_in self.old.state.store.pages f) ≡ false) }
        ensures room { self.new.room ≡ self.old.room }
        ensures no_call { SparesCall self.old.state.store.pages f self.old.drives self.new.drives result }
        ensures drives { CallsDrive D.plan D.places D.faults self.old.drives self.new.drives
            (home_in self.old.state.store (page_in self.old.state.store f).0).volume result }
    {
        match self.segs().pages().frames().page_of(f) {
            Some(_) => match self.empty_bound(f) {
                Ok(_) => Ok(()),
                Err(failed) => Err(failed),
            },
            None => Ok(()),
        }
    }

    /// The shutdown visits the next frame, of so many as the script says: a page that is in it leaves it, and is here
    /// again where the drive fails, which is told. (Source: own.)
    ///
    /// # Errors
    /// `Failed` exactly where the drive failed.
    pub fn visit(&mut self) -> Result<(), Failed>
        requires still { self.old.state.store.moving ≡ None }
        requires count { length self.old.state.store.pages.core.frames ≡ self.old.state.plan.frames }
        requires frame { self.old.state.visited < length self.old.state.store.pages.core.frames }
        requires here { AreHere self.old.state.store }
        requires owner { self.old.state.owner ≡ None }
        requires room { 3 ≤ self.old.state.spare }
        ensures state { self.new.state ≡ after_visit self.old.state (outcome_of result self.new.state.faults) }
        ensures shown { (p : Plan) (t : Flat) → IsFaithful p t self.old.state.store
            → IsFaithful p (shown_visited self.old.state self.old.state.visited
            (outcome_of result self.new.state.faults)
            (bound_page (frame_at self.old.state.store.pages.core self.old.state.visited)) t)
            self.new.state.store }
        ensures zeros { OnErr result
            (are_zeros (words_in self.old.state.store.pages self.old.state.visited) ≡ false) }
        ensures room { self.new.room ≡ self.old.room }
        ensures no_call { SparesCall self.old.state.store.pages self.old.state.visited self.old.drives self.new.drives
            result }
        ensures drives { CallsDrive D.plan D.places D.faults self.old.drives self.new.drives
            (home_in self.old.state.store (page_in self.old.state.store self.old.state.visited).0).volume result }
    {
        let _most = self.book.script().frames();
        let visited = self.visit_frame(self.visited);
        self.visited += 1;
        visited
    }
}
