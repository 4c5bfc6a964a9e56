ghost use Rattle.std.specs.Prelude.{◌≡◌, ◌<◌, ◌≤◌, ◌+◌, drop, length, Some, not, true};
ghost use Rattle.page_table.specs.declared.Ptw.TheVariants.{Here};
ghost use Rattle.active_segs.specs.Active.{IsActive};
ghost use Rattle.machine_model.specs.Actions.{first_taken, is_empty, what_taken};
ghost use Rattle.assoc_mem.specs.declared.What.TheVariants.{Seg};
ghost use Rattle.machine_model.specs.declared.Aim.TheVariants.{Deactivating};
ghost use Rattle.machine_model.specs.Jobs.{cut_all, deactivation_begun, took};
ghost use Rattle.machine_model.specs.Reads.{cut_of_owner, descriptor_of, frames_from, frames_in, frames_of_owner};
ghost use Rattle.machine_model.specs.Reads.{here_in, is_connected, trailers_in};
ghost use Rattle.machine_tables.specs.Claimed.{number_in};
ghost use Rattle.machine_tables.specs.Owned.{CanTake, HasOwner};
ghost use Rattle.machine_tables.specs.Parts.{with_state};
ghost use Rattle.machine_tables.specs.Taken.{IsEmptied, is_bare};

use crate::tables::Tables;
use assoc_mem::What;
use descriptor_seg::Sdw;
use machine_model::Aim;
use page_table::{PageTable, Ptw};
use script::Command;
use volumes::Drive;

/// The pages of its segment that a tree command must have out of use: those from a number on, if any.
pub(crate) fn first_taken(command: &Command) -> Option<u32>
    ensures { result ≡ first_taken command.now }
{
    match command {
        Command::Delete { .. } => Some(0),
        Command::Truncate { words, .. } => Some(*words / 1024),
        _ => None,
    }
}

/// What is signalled for a tree command of this segment.
pub(crate) fn what_taken(uid: u32, command: &Command) -> What
    ensures { result ≡ what_taken uid command.now }
{
    match command {
        Command::End => What::All,
        _ => What::Seg(uid),
    }
}

/// Whether references go through a word to a frame.
fn is_here(word: Ptw) -> bool
    ensures { result ≡ not (is_empty (here_in word)) }
{
    matches!(word, Ptw::Here(_))
}

/// Whether a page is here, of those of a page table from a number on.
#[tactic(auto, using(crate::proofs::TookLaws::taken_here))]
fn has_here(table: &PageTable, low: u32) -> bool
    ensures { result ≡ not (is_empty (frames_in (drop low table.now))) }
{
    for p in low..table.size() {
        if is_here(table.get(p)) {
            return true;
        }
    }
    false
}

impl<D: Drive> Tables<D> {
    /// Whether a page of an active segment is here, of those from a number on.
    pub(crate) fn has_pages(&self, uid: u32, low: u32) -> bool
        requires { IsActive self.now.state.store.ast.entries uid }
        ensures { result ≡ not (is_empty (frames_from self.now.state.store.ast uid low)) }
    {
        let place = self.place(uid);
        has_here(self.segs().ast().table(place), low)
    }

    /// Whether an active segment has no page here, and no descriptor leads to it.
    #[tactic(auto, using(crate::proofs::TookLaws::bare_taken))]
    fn is_bare(&self, uid: u32) -> bool
        requires { IsActive self.now.state.store.ast.entries uid }
        ensures { result ≡ is_bare (frames_from self.now.state.store.ast uid 0)
            (trailers_in self.now.state.store uid) }
    {
        let here = self.has_pages(uid, 0);
        if here {
            return false;
        }
        match self.first_trailer(uid) {
            Some(_) => false,
            None => true,
        }
    }

    /// The owner takes the pages of an active segment that are here, and cuts the descriptors that lead to it.
    fn take_segment(&mut self, c: u32, uid: u32)
        requires still { self.old.state.store.moving ≡ None }
        requires active { IsActive self.old.state.store.ast.entries uid }
        requires takes { CanTake self.old.state (frames_from self.old.state.store.ast uid 0)
            (trailers_in self.old.state.store uid) }
        ensures { self.new ≡ with_state self.old (took self.old.state c (Deactivating uid) (Seg uid)
            (frames_from self.old.state.store.ast uid 0) (trailers_in self.old.state.store uid)) }
    {
        let aim = Aim::Deactivating { uid };
        self.take_pages(c, aim, What::Seg(uid), uid, 0);
        self.cut_trailers(c, aim, What::Seg(uid), uid);
    }

    /// Processor `c` takes the pages of an active segment that are here, and cuts the descriptors that lead to it, so
    /// that it becomes inactive; where there are none it is inactive at once. (Source: Bensoussan, Clingen and Daley
    /// 1972; Organick 1972.)
    #[inline(never)]
    pub fn empty(&mut self, c: u32, uid: u32)
        requires still { self.old.state.store.moving ≡ None }
        requires active { IsActive self.old.state.store.ast.entries uid }
        requires owner { HasOwner self.old.state.owner }
        requires pages { length (frames_of_owner self.old.state.owner)
            + length (frames_from self.old.state.store.ast uid 0) ≤ 256 }
        requires descriptors { length (cut_of_owner self.old.state.owner)
            + length (trailers_in self.old.state.store uid) ≤ 256 }
        requires bare { is_bare (frames_from self.old.state.store.ast uid 0)
            (trailers_in self.old.state.store uid) ≡ true → IsEmptied self.old.state.store uid }
        requires room { length (frames_from self.old.state.store.ast uid 0)
            + (length (trailers_in self.old.state.store uid) + (length (cut_of_owner self.old.state.owner) + 1))
            ≤ self.old.state.spare }
        ensures { self.new ≡ with_state self.old (deactivation_begun self.old.state c uid) }
    {
        if self.is_bare(uid) {
            self.deactivate(c, uid);
        } else {
            self.take_segment(c, uid);
        }
    }
}

impl<D: Drive> Tables<D> {
    /// Whether a number of a process leads to a segment.
    pub(crate) fn is_connected(&self, process: u32, number: u32) -> bool
        requires process { process < length self.now.state.store.links.known }
        requires number { number < 256 }
        ensures { result ≡ is_connected (descriptor_of self.now.state.store.links process number) }
    {
        matches!(
            self.store.segs().descriptors(process).get(number),
            Sdw::Present { .. }
        )
    }

    /// The owner cuts a number of a process, if it leads to a segment.
    pub(crate) fn cut_number(&mut self, c: u32, aim: Aim, what: What, process: u32, number: u32)
        requires process { process < length self.old.state.store.links.known }
        requires number { number < 256 }
        requires owner { HasOwner self.old.state.owner }
        requires few { length (cut_of_owner self.old.state.owner)
            + length (number_in self.old.state.store.links process number) ≤ 256 }
        requires room { length (number_in self.old.state.store.links process number) ≤ self.old.state.spare }
        ensures { self.new ≡ with_state self.old (cut_all self.old.state c aim what
            (number_in self.old.state.store.links process number)) }
    {
        if self.is_connected(process, number) {
            self.cut_one(c, aim, what, process, number);
        }
    }
}
