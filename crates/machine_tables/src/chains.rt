//! Which segments of a chain of superiors are active, and which segment has to go where a pool is full.

ghost use Rattle.std.specs.Prelude.{◌≡◌, ◌<◌, ℕ, Some, true, false, length, if◌then◌else◌, IfNone};
ghost use Rattle.tree_model.specs.Tree.{node_in};
ghost use Rattle.dir_tree.specs.Nodes.{chain_of};
ghost use Rattle.active_segs.specs.Victim.{HasItsSuperiors, HasOneOffChain, victim_of};
ghost use Rattle.active_segs.specs.Active.{IsActive, IsFull, uid_at};
ghost use Rattle.storage_ops.specs.Shown.{is_there};
ghost use Rattle.machine_model.specs.Actions.{Action as Rule, Commit, Empty, activate_in, empty_victim};
ghost use Rattle.machine_model.specs.Actions.{empty_when_read, pool_of_node, with_chain};
ghost use Rattle.machine_model.specs.Reads.{first_inactive, free_place, is_active, or_zero, superior_of_node};
ghost use Rattle.machine_tables.specs.Activated.{HasVictim};
ghost use Rattle.machine_tables.specs.Held.{MayLook};
ghost use Rattle.machine_tables.specs.Meant.{meant, unless_first};
ghost use Rattle.machine_tables.specs.Reading.{AreRead};

use crate::action::Action;
use crate::reading::Pages;
use crate::tables::Tables;
use active_segs::Ast;
use volumes::Drive;

/// Whether a segment is active. It is one search.
fn is_active(ast: &Ast, uid: u32) -> bool
    ensures { result ≡ is_active ast.now uid }
{
    ast.search(uid).is_some()
}

/// The first segment of a chain that isn't active.
fn first_inactive(ast: &Ast, chain: &[u32]) -> Option<u32>
    ensures { result ≡ first_inactive ast.now chain.now }
{
    chain.iter().copied().find(|uid| !is_active(ast, *uid))
}

impl<D: Drive> Tables<D> {
    /// Whether a segment is active.
    pub(crate) fn is_active(&self, uid: u32) -> bool
        ensures tells { result ≡ is_active self.now.state.store.ast uid }
        ensures active { result ≡ true → IsActive self.now.state.store.ast.entries uid }
    {
        is_active(self.segs().ast(), uid)
    }

    /// The directory that a node lies in, if it is there and isn't the root.
    fn superior(&self, uid: u32) -> Option<u32>
        ensures { result ≡ superior_of_node (node_in self.now.state.store.accounts.nodes uid) }
    {
        match self.accounts().node(uid) {
            Some(node) => node.superior,
            None => None,
        }
    }

    /// Whether a node, which isn't active, lies in an active directory: then each other link of its chain is active.
    #[tactic(auto, using(crate::proofs::WholeLaws::next_first))]
    fn is_next(&self, of: u32) -> bool
        requires looks { MayLook self.now.state }
        requires there { is_there self.now.state.store.accounts.nodes of ≡ true }
        requires idle { is_active self.now.state.store.ast of ≡ false }
        ensures { result ≡ true → first_inactive self.now.state.store.ast
            (chain_of self.now.state.store.accounts.nodes of) ≡ Some of }
    {
        match self.superior(of) {
            Some(above) => self.is_active(above),
            None => false,
        }
    }

    /// The first segment that isn't active, of the chain of superiors of a node that isn't.
    fn first_inactive(&self, of: u32) -> Option<u32>
        requires looks { MayLook self.now.state }
        requires there { is_there self.now.state.store.accounts.nodes of ≡ true }
        requires idle { is_active self.now.state.store.ast of ≡ false }
        ensures { result ≡ first_inactive self.now.state.store.ast
            (chain_of self.now.state.store.accounts.nodes of) }
    {
        if self.is_next(of) {
            return Some(of);
        }
        let chain = self.store.accounts().chain(of);
        first_inactive(self.segs().ast(), &chain)
    }

    /// The place of the segment that has to go where a pool is full, for the chain of a node.
    fn victim(&self, of: u32, pool: u32) -> u32
        requires { HasVictim self.now.state.store of pool }
        ensures victim { victim_of self.now.state.store.ast pool
            (chain_of self.now.state.store.accounts.nodes of) ≡ Some result }
        ensures within { result < length self.now.state.store.ast.entries }
    {
        let chain = self.store.accounts().chain(of);
        self.segs().ast().next_victim(pool, &chain)
    }

    /// The segment of a place, and 0 where there is none.
    fn uid_in(&self, place: u32) -> u32
        requires { place < length self.now.state.store.ast.entries }
        ensures { result ≡ or_zero (uid_at self.now.state.store.ast.entries place) }
    {
        self.segs().ast().uid_at(place).unwrap_or(0)
    }

    /// What is done where a pool is full: its victim is emptied, or a page of it that is being read in is waited for.
    pub(crate) fn empty_victim(&self, of: u32, pool: u32) -> Action
        requires victim { HasVictim self.now.state.store of pool }
        requires reads { AreRead self.now.state.store.pages.core self.now.state.processors }
        ensures { (k : ℕ) → meant self.now.state k result
            ≡ empty_victim self.now.state.store pool (chain_of self.now.state.store.accounts.nodes of)
            (victim_of self.now.state.store.ast pool (chain_of self.now.state.store.accounts.nodes of)) }
    {
        let uid = self.uid_in(self.victim(of, pool));
        match self.first_read(uid, Pages::Any) {
            Some(first) => first,
            None => Action::EmptyVictim { pool, of, uid },
        }
    }

    /// The pool of the active segment table that has the page table of a node.
    fn pool(&self, uid: u32) -> u32
        requires { is_there self.now.state.store.accounts.nodes uid ≡ true }
        ensures pool { result ≡ pool_of_node (node_in self.now.state.store.accounts.nodes uid) }
        ensures few { result < 4 }
    {
        self.store.link(uid).pool
    }

    /// The least free place of a pool. It reads a few words.
    #[tactic(auto, using(crate::proofs::PoolLaws::free_told))]
    fn free_place(&self, pool: u32) -> Option<u32>
        requires { pool < 4 }
        ensures place { result ≡ free_place self.now.state.store.ast pool }
        ensures full { IfNone result (IsFull self.now.state.store.ast pool) }
    {
        self.segs().ast().free_in(pool)
    }

    /// What is done for the first segment that isn't active of a node's chain: it becomes active in a free place of its
    /// pool, or the pool's victim is emptied first.
    #[tactic(auto, using(crate::proofs::LookLaws::link_there))]
    fn activate_link(&self, of: u32, uid: u32) -> Action
        requires looks { MayLook self.now.state }
        requires there { is_there self.now.state.store.accounts.nodes of ≡ true }
        requires first { first_inactive self.now.state.store.ast
            (chain_of self.now.state.store.accounts.nodes of) ≡ Some uid }
        ensures { (k : ℕ) → meant self.now.state k result ≡ activate_in self.now.state.store
            (pool_of_node (node_in self.now.state.store.accounts.nodes uid))
            (chain_of self.now.state.store.accounts.nodes of) uid
            (free_place self.now.state.store.ast (pool_of_node (node_in self.now.state.store.accounts.nodes uid))) }
    {
        let pool = self.pool(uid);
        match self.free_place(pool) {
            Some(place) => Action::Activate { uid, place },
            None => self.empty_victim(of, pool),
        }
    }

    /// What is done for the chain of a node, where a segment of it isn't active. The chain has ten links at the most.
    #[tactic(auto, using(crate::proofs::WholeLaws::links_whole))]
    pub(crate) fn first_link(&self, of: u32) -> Option<Action>
        requires looks { MayLook self.now.state }
        requires there { is_there self.now.state.store.accounts.nodes of ≡ true }
        ensures first { (k : ℕ) (otherwise : Rule) → unless_first self.now.state k result otherwise
            ≡ with_chain self.now.state.store of otherwise }
        ensures whole { IfNone result (is_active self.now.state.store.ast of ≡ true) }
    {
        if self.is_active(of) {
            return None;
        }
        let uid = self.first_inactive(of)?;
        Some(self.activate_link(of, uid))
    }

    /// What is done for a segment that must not be active: it is emptied, or a page of it that is being read in is
    /// waited for.
    fn empty_read(&self, uid: u32) -> Action
        requires { AreRead self.now.state.store.pages.core self.now.state.processors }
        ensures { (k : ℕ) → meant self.now.state k result
            ≡ empty_when_read self.now.state.store.pages.core uid (Empty uid) }
    {
        match self.first_read(uid, Pages::Any) {
            Some(first) => first,
            None => Action::Empty(uid),
        }
    }

    /// What the owner does for a `length` of a segment: where it is active it is emptied first.
    pub(crate) fn look_at_length(&self, uid: u32) -> Action
        requires { AreRead self.now.state.store.pages.core self.now.state.processors }
        ensures { (k : ℕ) → meant self.now.state k result ≡ (if is_active self.now.state.store.ast uid
            then empty_when_read self.now.state.store.pages.core uid (Empty uid) else Commit) }
    {
        if self.is_active(uid) {
            self.empty_read(uid)
        } else {
            Action::Commit
        }
    }
}
