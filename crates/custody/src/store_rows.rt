ghost use Rattle.std.specs.Prelude.{◌≡◌, ◌≢◌, is_some, []};
ghost use Rattle.std.specs.Bool.{Decides};
ghost use Rattle.custody_model.specs.Allowed.{HasHadItsTurn, MayActivate, MayConnect, MayGo, MayLeave, pool_size};
ghost use Rattle.custody_model.specs.declared.DescriptorUse.TheVariants as descriptor;
ghost use Rattle.flat_model.specs.Store.{Store, progress_of};
ghost use Rattle.script.specs.Plans.{Plan};
ghost use Rattle.tree_model.specs.Tree.{node_in};
ghost use Rattle.custody.specs.Tables.{AreNodes, CanJoin, active_at, custody_of, seat_at, use_in};
ghost use Rattle.flat_store.specs.Shown.{Shows};

use crate::active::ActiveUse;
use crate::tables::Custody;
use custody_model::DescriptorUse;
use flat_store::FlatStore;
use script::Script;

/// The superior and the pool of a segment or directory; `None` exactly where it isn't there.
pub(crate) fn node(store: &FlatStore, uid: u32) -> Option<ActiveUse>
    ensures { (p : Plan) (s : Store) → Shows p store.now s → result ≡ use_in (node_in s.nodes uid) }
{
    let superior = store.superior(uid);
    match store.pool(uid) {
        Some(pool) => Some(ActiveUse { superior, pool }),
        None => None,
    }
}

/// How many places a pool has; none, where there is no such pool.
fn pool_size(script: &Script, pool: u32) -> u32
    ensures { result ≡ pool_size script.now pool }
{
    let pools = script.pools();
    match pools.get(pool as usize) {
        Some(size) => *size,
        None => 0,
    }
}

/// Whether a descriptor leads to nothing.
pub(crate) fn leads_nowhere(of: DescriptorUse) -> bool
    ensures { Decides result (of ≡ descriptor.Free) }
{
    matches!(of, DescriptorUse::Free)
}

impl Custody {
    /// Whether a process is ready.
    fn another_is_ready(&self) -> bool
        ensures { Decides result (self.now.ready ≢ []) }
    {
        !self.ready.is_empty()
    }

    /// Whether the process of a processor has had its turn: 16 command entries since its load, or a try as the last of
    /// them that didn't end its `await`.
    pub fn has_had_its_turn(&self, cpu: u32) -> bool
        ensures { Decides result (HasHadItsTurn (seat_at self.now.seats cpu)) }
    {
        match self.seats.get(cpu as usize) {
            Some(seat) => seat.has_had_its_turn(),
            None => false,
        }
    }

    /// Whether a processor may run its process no more.
    pub(crate) fn may_leave(&self, store: &FlatStore, cpu: u32) -> bool
        ensures { (p : Plan) (s : Store) → Shows p store.now s → Decides result (MayLeave s (custody_of self.now) cpu) }
    {
        match self.process_of(cpu) {
            Some(process) => {
                store.has_ended(process) || (self.another_is_ready() && self.has_had_its_turn(cpu))
            }
            None => false,
        }
    }

    /// Whether the superior of a segment or directory is active, and its pool has room.
    fn can_join(&self, script: &Script, of: ActiveUse) -> bool
        ensures { Decides result (CanJoin script.now self.now of) }
    {
        let above = match of.superior {
            Some(superior) => self.active.has(superior),
            None => true,
        };
        above && self.active.in_pool(of.pool) < pool_size(script, of.pool) as u64
    }

    /// Whether a segment or directory is active.
    pub fn is_active(&self, uid: u32) -> bool
        ensures { result ≡ is_some (active_at self.now.active uid) }
    {
        self.active.has(uid)
    }

    /// Whether a segment or directory may become active.
    pub(crate) fn may_activate(&self, script: &Script, store: &FlatStore, uid: u32) -> bool
        ensures { (s : Store) → Shows script.now store.now s → AreNodes s.nodes self.now.active
            → Decides result (MayActivate script.now s (custody_of self.now) uid) }
    {
        if self.is_active(uid) {
            return false;
        }
        match node(store, uid) {
            Some(of) => self.can_join(script, of),
            None => false,
        }
    }

    /// Whether a descriptor may lead to the page table of a segment from now on.
    pub(crate) fn may_connect(&self, store: &FlatStore, process: u32, number: u32, uid: u32) -> bool
        ensures { (p : Plan) (s : Store) → Shows p store.now s
            → Decides result (MayConnect s (custody_of self.now) process number uid) }
    {
        match store.known(process, number) {
            Some(known) => {
                known == uid
                    && self.active.has(uid)
                    && leads_nowhere(self.descriptor(process, number))
            }
            None => false,
        }
    }
}
