//! Segments become active, along the chain of superiors of a node; or the pool's hand moves, and its victim is emptied.

ghost use Rattle.std.specs.Prelude.{◌≡◌, ◌≢◌, ◌<◌, ◌≤◌, ◌+◌, ℕ, [], length, map, IsSome, Some, None, true};
ghost use Rattle.dir_tree.specs.Nodes.{chain_of};
ghost use Rattle.tree_model.specs.Tree.{node_in};
ghost use Rattle.active_segs.specs.Active.{IsActive};
ghost use Rattle.active_segs.specs.Victim.{HasOneOffChain};
ghost use Rattle.storage_ops.specs.Connecting.{HasOneToGo};
ghost use Rattle.storage_ops.specs.Shown.{is_there};
ghost use Rattle.machine_model.specs.Actions.{pool_of_node};
ghost use Rattle.machine_model.specs.Jobs.{victim_taken, with_hand_moved};
ghost use Rattle.machine_model.specs.Reads.{cut_of_owner, first_inactive, frames_from, frames_of_owner, free_place};
ghost use Rattle.machine_model.specs.Reads.{trailers_in};
ghost use Rattle.machine_model.specs.Steps.{activated_at, with_active, with_store};
ghost use Rattle.machine_tables.specs.Activated.{Joins, NeedsVictim, links_of, wanted_pool};
ghost use Rattle.machine_tables.specs.Owned.{HasOwner};
ghost use Rattle.machine_tables.specs.Parts.{with_state};
ghost use Rattle.machine_tables.specs.Taken.{IsEmptied, is_bare};

use crate::tables::Tables;
use arrayvec::ArrayVec;
use book::Entry;
use seg_control::{Link, Next};
use volumes::Drive;

impl<D: Drive> Tables<D> {
    /// Adds the links of the chain of a node, from the root down, to none.
    fn add_links(&self, of: u32, links: &mut ArrayVec<Link, 10>)
        requires there { is_there self.now.state.store.accounts.nodes of ≡ true }
        requires empty { links.old.items ≡ [] }
        ensures { links.new.items ≡ links_of self.now.state.store of }
    {
        let chain = self.accounts().chain(of);
        for uid in chain.as_slice() {
            links.push(self.store.link(*uid));
        }
    }

    /// What becomes of the next segment of the chain of a node that isn't active.
    fn join_next(&mut self, of: u32) -> Next
        requires still { self.old.state.store.moving ≡ None }
        requires there { is_there self.old.state.store.accounts.nodes of ≡ true }
        requires off { HasOneToGo self.old.state.store.ast (links_of self.old.state.store of) }
        ensures next { Joins self.old.state.store self.new.state.store (links_of self.old.state.store of) result }
        ensures rest { self.new ≡ with_state self.old (with_store self.old.state self.new.state.store) }
    {
        let mut chain = ArrayVec::new();
        self.add_links(of, &mut chain);
        self.store.activate_next(&chain)
    }

    /// The first segment of the chain of a node that isn't active becomes so, in the least free place of its pool,
    /// which is given.
    fn join(&mut self, of: u32) -> u32
        requires still { self.old.state.store.moving ≡ None }
        requires there { is_there self.old.state.store.accounts.nodes of ≡ true }
        requires first { IsSome (first_inactive self.old.state.store.ast
            (chain_of self.old.state.store.accounts.nodes of)) }
        requires free { IsSome (free_place self.old.state.store.ast (wanted_pool self.old.state.store of)) }
        ensures place { free_place self.old.state.store.ast (wanted_pool self.old.state.store of) ≡ Some result }
        ensures effect { (uid : ℕ) → first_inactive self.old.state.store.ast
            (chain_of self.old.state.store.accounts.nodes of) ≡ Some uid
            → self.new ≡ with_state self.old (with_store self.old.state
            (with_active self.old.state.store uid result)) }
    {
        self.promise();
        match self.join_next(of) {
            Next::Activated(place) => place,
            Next::Victim(_) | Next::Whole => unreachable!(),
        }
    }

    /// Makes a segment active: it is the first of the chain of a node that isn't, and its pool has a free place. It
    /// gets the least such place, which is given, and the page table that its file map tells. It costs a write for each
    /// word of the page table. (Source: Bensoussan, Clingen and Daley 1972; Organick 1972.)
    #[inline(never)]
    pub fn activate(&mut self, of: u32, uid: u32) -> u32
        requires still { self.old.state.store.moving ≡ None }
        requires there { is_there self.old.state.store.accounts.nodes of ≡ true }
        requires first { first_inactive self.old.state.store.ast (chain_of self.old.state.store.accounts.nodes of)
            ≡ Some uid }
        requires free { IsSome (free_place self.old.state.store.ast
            (pool_of_node (node_in self.old.state.store.accounts.nodes uid))) }
        requires room { 0 < self.old.state.spare }
        ensures place { free_place self.old.state.store.ast
            (pool_of_node (node_in self.old.state.store.accounts.nodes uid)) ≡ Some result }
        ensures effect { self.new ≡ with_state self.old (activated_at self.old.state uid result) }
    {
        let place = self.join(of);
        self.note(Entry::Activate { uid });
        place
    }

    /// The hand of the pool moves on that has no place for the first segment of the chain of a node that isn't active.
    fn pass_hand(&mut self, of: u32)
        requires still { self.old.state.store.moving ≡ None }
        requires victim { NeedsVictim self.old.state.store of }
        ensures { self.new ≡ with_state self.old (with_store self.old.state (with_hand_moved self.old.state.store
            (wanted_pool self.old.state.store of) (chain_of self.old.state.store.accounts.nodes of))) }
    {
        self.promise();
        match self.join_next(of) {
            Next::Victim(_) => {}
            Next::Activated(_) | Next::Whole => unreachable!(),
        }
    }

    /// Processor `c` takes what the victim of a full pool has in use, so that it becomes inactive: the pool has no
    /// place for the first segment of the chain of a node that isn't active. The pool's hand moves on. (Source:
    /// Bensoussan, Clingen and Daley 1972; Organick 1972.)
    #[inline(never)]
    pub fn take_victim(&mut self, c: u32, of: u32, uid: u32)
        requires still { self.old.state.store.moving ≡ None }
        requires there { is_there self.old.state.store.accounts.nodes of ≡ true }
        requires first { IsSome (first_inactive self.old.state.store.ast
            (chain_of self.old.state.store.accounts.nodes of)) }
        requires full { free_place self.old.state.store.ast (wanted_pool self.old.state.store of) ≡ None }
        requires off { HasOneOffChain self.old.state.store.ast (wanted_pool self.old.state.store of)
            (chain_of self.old.state.store.accounts.nodes of) }
        requires active { IsActive self.old.state.store.ast.entries uid }
        requires owner { HasOwner self.old.state.owner }
        requires pages { length (frames_of_owner self.old.state.owner)
            + length (frames_from self.old.state.store.ast uid 0) ≤ 256 }
        requires descriptors { length (cut_of_owner self.old.state.owner)
            + length (trailers_in self.old.state.store uid) ≤ 256 }
        requires bare { is_bare (frames_from self.old.state.store.ast uid 0)
            (trailers_in self.old.state.store uid) ≡ true → IsEmptied self.old.state.store uid }
        requires room { length (frames_from self.old.state.store.ast uid 0)
            + (length (trailers_in self.old.state.store uid) + (length (cut_of_owner self.old.state.owner) + 1))
            ≤ self.old.state.spare }
        ensures { self.new ≡ with_state self.old (victim_taken self.old.state c (wanted_pool self.old.state.store of)
            (chain_of self.old.state.store.accounts.nodes of) uid) }
    {
        self.pass_hand(of);
        self.empty(c, uid);
    }
}
