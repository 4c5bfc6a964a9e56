ghost use Rattle.std.specs.Prelude.{◌≡◌, ◌<◌, ◌≤◌, ◌+◌, length, slice_get};
ghost use Rattle.machine_model.specs.Jobs.{deactivated_one, emptied, segs_gone, without_first_cut};
ghost use Rattle.machine_model.specs.Reads.{cut_of_owner};
ghost use Rattle.machine_model.specs.Steps.{with_owner};
ghost use Rattle.machine_tables.specs.Owned.{HasOwner};
ghost use Rattle.machine_tables.specs.Parts.{with_state};
ghost use Rattle.machine_tables.specs.Taken.{IsEmptied};

use crate::tables::Tables;
use book::Entry;
use machine_model::CutDescriptor;
use volumes::Drive;

impl<D: Drive> Tables<D> {
    /// The first descriptor that the owner cut, which it hasn't cut any more then; `None` exactly where there is none.
    pub(crate) fn next_cut(&mut self) -> Option<CutDescriptor>
        requires { HasOwner self.old.state.owner }
        ensures first { result ≡ slice_get (cut_of_owner self.old.state.owner) 0 }
        ensures rest { self.new ≡ with_state self.old
            (with_owner self.old.state (without_first_cut self.old.state.owner)) }
    {
        self.job.next_cut()
    }

    /// The descriptors that the owner cut are gone, in their order.
    pub(crate) fn let_descriptors_go(&mut self)
        requires owner { HasOwner self.old.state.owner }
        requires room { length (cut_of_owner self.old.state.owner) ≤ self.old.state.spare }
        ensures effect { self.new ≡ with_state self.old
            (segs_gone self.old.state (cut_of_owner self.old.state.owner)) }
        ensures store { self.new.state.store ≡ self.old.state.store }
        ensures spent { self.new.state.spare + length (cut_of_owner self.old.state.owner)
            ≡ self.old.state.spare }
    {
        while let Some(cut) = self.next_cut() {
            self.note(Entry::GoneSeg {
                process: cut.process,
                number: cut.number,
            });
        }
    }

    /// A segment that is empty isn't active any more.
    fn make_inactive(&mut self, uid: u32)
        requires still { self.old.state.store.moving ≡ None }
        requires empty { IsEmptied self.old.state.store uid }
        requires room { 0 < self.old.state.spare }
        ensures { self.new ≡ with_state self.old (deactivated_one self.old.state uid) }
    {
        let place = self.place(uid);
        self.store.deactivate(place);
        self.note(Entry::Deactivate { uid });
    }

    /// Processor `c` makes a segment inactive of which everything was taken, and looks again: the descriptors that it
    /// cut are gone. (Source: Bensoussan, Clingen and Daley 1972; Organick 1972.)
    #[inline(never)]
    pub fn deactivate(&mut self, c: u32, uid: u32)
        requires still { self.old.state.store.moving ≡ None }
        requires owner { HasOwner self.old.state.owner }
        requires empty { IsEmptied self.old.state.store uid }
        requires room { length (cut_of_owner self.old.state.owner) + 1 ≤ self.old.state.spare }
        ensures { self.new ≡ with_state self.old (emptied self.old.state c uid) }
    {
        self.let_descriptors_go();
        self.make_inactive(uid);
        self.take_supervisor(c);
    }
}
