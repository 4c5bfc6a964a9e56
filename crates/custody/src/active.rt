ghost use Rattle.std.specs.Prelude.{◌≡◌, ◌≢◌, ◌≤◌, ◌^◌, ℕ, false, is_some, count_by, OnOk, OnErr, [], Some};
ghost use Rattle.std.specs.Bool.{Decides};
ghost use Rattle.custody.specs.Changes.{put_active, with_place};
ghost use Rattle.custody.specs.Tables.{active_at, is_in_pool, pool_key, superior_of};

use crate::NoMemory;
use crate::counts::Counts;
use std::alloc::Global;
use std::marker::Model;

/// An active segment or directory: its superior, and the pool of its place in the active segment table.
#[derive(Clone, Copy)]
pub struct ActiveUse {
    pub superior: Option<u32>,
    pub pool: u32,
}

/// Which segments and directories are active, by uid. A contract sees the list of their uses.
///
/// Beside it stand counts of them by pool and by superior, so that nothing is looked for among all that are active.
#[derive(Drop)]
pub(crate) struct Active {
    uses: Vec<Option<ActiveUse>>,
    pools: Counts,
    inferiors: Counts,
}

impl Model for Active {
    ghost use Rattle.std.specs.Prelude.{List, Option};
    ghost use Rattle.custody.specs.Tables.{AreActive};
    ghost use Rattle.custody.specs.declared.active.ActiveUse.{ActiveUse as Use};

    ghost Value = { List (Option Use) };

    ghost view = { λ a. a.uses.items };

    ghost invariant = { λ a. AreActive a.uses.items a.pools a.inferiors };
}

impl Active {
    /// Nothing is active.
    pub(crate) fn new(alloc: Global) -> Active
        ensures { result ≡ [] }
    {
        Active {
            uses: Vec::new(alloc),
            pools: Counts::new(alloc),
            inferiors: Counts::new(alloc),
        }
    }

    /// Whether a segment or directory is active.
    pub(crate) fn has(&self, uid: u32) -> bool
        ensures { result ≡ is_some (active_at self.now uid) }
    {
        self.at(uid).is_some()
    }

    /// How a segment or directory is active, where it is.
    fn at(&self, uid: u32) -> Option<ActiveUse>
        ensures { result ≡ active_at self.now uid }
    {
        match self.uses.get(uid as usize) {
            Some(of) => *of,
            None => None,
        }
    }

    /// A uid past every one that was active.
    pub(crate) fn end(&self) -> u64
        ensures few { result ≤ 2 ^ 32 }
        ensures past { (uid : ℕ) → result ≤ uid → is_some (active_at self.now uid) ≡ false }
    {
        self.uses.len() as u64
    }

    /// How many places of a pool are taken.
    pub(crate) fn in_pool(&self, pool: u32) -> u64
        ensures { result ≡ count_by (is_in_pool pool) self.now }
    {
        let count = self.pools.at(pool);
        count
    }

    /// Whether nothing that is active lies in a directory.
    pub(crate) fn has_none_below(&self, uid: u32) -> bool
        ensures { Decides result ((v : ℕ) → superior_of (active_at self.now v) ≢ Some uid) }
    {
        let count = self.inferiors.at(uid);
        count == 0
    }

    /// A segment or directory is active so from now on, or it isn't.
    ///
    /// # Errors
    /// `NoMemory` is want of memory; then nothing is changed.
    #[tactic(auto, using(crate::proofs::PutLaws::active_counted))]
    pub(crate) fn put(&mut self, uid: u32, to: Option<ActiveUse>) -> Result<(), NoMemory>
        ensures ok { OnOk result (self.new ≡ put_active self.old uid to) }
        ensures err { OnErr result (self.new ≡ self.old) }
    {
        let from = self.at(uid);
        self.pools.reserve(pool_key(to))?;
        self.inferiors.reserve(superior_of(to))?;
        make_place(&mut self.uses, uid)?;
        self.pools.shift(pool_key(from), pool_key(to));
        self.inferiors.shift(superior_of(from), superior_of(to));
        self.uses[uid as usize] = to;
        Ok(())
    }
}

/// The key of its pool.
fn pool_key(of: Option<ActiveUse>) -> Option<u32>
    ensures { result ≡ pool_key of }
{
    of.map(|of| of.pool)
}

/// Its superior, under which it is counted.
fn superior_of(of: Option<ActiveUse>) -> Option<u32>
    ensures { result ≡ superior_of of }
{
    of?.superior
}

/// The list has a place for a uid from now on.
fn make_place(uses: &mut Vec<Option<ActiveUse>>, uid: u32) -> Result<(), NoMemory>
    ensures ok { OnOk result (uses.new.items ≡ with_place uses.old.items uid) }
    ensures err { OnErr result (uses.new.items ≡ uses.old.items) }
{
    let places = uid as usize + 1;
    if uses.len() >= places {
        return Ok(());
    }
    Ok(uses.resize(places, None)?)
}
