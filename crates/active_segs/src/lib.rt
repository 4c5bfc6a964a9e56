//! The active segment table: an entry for each segment whose page table is in core, and the page tables themselves,
//! in four pools by size.
//!
//! The superior directories of an active segment are active too, and stay so as long as it is. So a segment can only
//! be made active from the root down, and only a leaf can be made inactive (Bensoussan, Clingen and Daley 1972;
//! Organick 1972). The four pools, the order of search and the choice of a victim are own.
//!
//! Costs: `new` takes all memory, once; beside the page tables the most of it is a bit for each two places, and 256
//! lists of uids, each with room for every place. `search` halves the list of the uid's remainder by 256: two or three
//! looks as a rule where 1024 segments are active, and at most 11. `free_in` reads two words of a map of bits.
//! `activate` and `deactivate` search, change a bit in two maps and move a part of one list of uids by one place, and
//! `deactivate` writes each word of one page table. `victim` and `next_victim` look at the places of one pool from its
//! hand on, each uid against the chain; then each step down to the leaf reads two words of a map of bits. All others
//! cost one look.
#![tactic(auto)]

ghost use Rattle.std.specs.Prelude.{◌≡◌, ◌≢◌, ◌<◌, ◌≤◌, ◌↔◌, ℕ, Some, None, length, sum, All, IsNone, IfOk, IfSome};
ghost use Rattle.std.specs.Option.{ForSome};
ghost use Rattle.std.specs.Borrow.{sem};
ghost use Rattle.active_segs.specs.Active.{entry_at, uid_at, table_at, used_in, no_segments, activated, deactivated};
ghost use Rattle.active_segs.specs.Active.{HasShape, IsActive, HasNoInferior, IsAway, IsTree, IsLeastFree, IsFull};
ghost use Rattle.active_segs.specs.Active.{AreNullTables};
ghost use Rattle.active_segs.specs.Kept.{IsActiveAt};
ghost use Rattle.active_segs.specs.Pool.{size_of, IsInPool};
ghost use Rattle.active_segs.specs.Victim.{first_off_chain, hand_moved, victim_of, IsVictim, IsOffChain};
ghost use Rattle.active_segs.specs.Victim.{HasOneOffChain, HasItsSuperiors};

mod index;
mod inferiors;
mod pools;
mod victim;

use bitmap::Bitmap;
use index::Index;
pub use no_memory::NoMemory;
use page_table::PageTable;
use std::alloc::Global;
use std::marker::Model;

/// What is active in a place of the table.
#[derive(Clone, Copy, PartialEq, Eq)]
pub struct Entry {
    /// The segment or directory.
    pub uid: u32,
    /// Its superior directory; none for the root.
    pub superior: Option<u32>,
}

/// The active segment table (Bensoussan, Clingen and Daley 1972; Organick 1972).
///
/// Its places are numbered over the pools in order. Contracts see the sizes of the pools, where their hands stand,
/// what is active in each place, and the page table of each place. No segment is active in two places, the superior
/// of each active segment is active, and superiors don't go round (`IsTree`). A call changes a page table only where
/// it says so, and nothing that always holds of the table reads a word of one.
#[derive(Drop)]
pub struct Ast {
    sizes: [u32; 4],
    hands: [u32; 4],
    used: Vec<Bitmap>,
    entries: Vec<Option<Entry>>,
    tables: Vec<PageTable>,
    inferiors: Vec<Bitmap>,
    index: Index,
}

impl Model for Ast {
    ghost use Rattle.active_segs.specs.Active.{ActiveSegs};
    ghost use Rattle.active_segs.specs.Kept.{IsKept};

    ghost Value = { ActiveSegs };

    ghost view = { λ a.
        record { sizes = a.sizes; hands = a.hands; entries = a.entries.items; tables = a.tables.items } };

    ghost invariant = { λ a.
        IsKept a.sizes a.hands a.used.items a.entries.items a.tables.items a.inferiors.items a.index };
}

impl Ast {
    ghost use Rattle.active_segs.specs.Lending.{LendsTable};

    /// A table with pools of these numbers of places, whose page tables have 4, 16, 64 and 256 words. Nothing is
    /// active, each hand is at the first place of its pool, and each word is `Null`.
    ///
    /// Answers `NoMemory` where the memory for all of it can't be had.
    pub fn new(alloc: Global, pools: [u32; 4]) -> Result<Ast, NoMemory>
        requires { sum pools ≤ 1024 }
        ensures empty { IfOk result (λ ast. ast ≡ no_segments pools) }
        ensures tables { IfOk result (λ ast. AreNullTables pools ast.tables) }
    {
        let total = pools::total(&pools);
        let used = pools::no_marks(alloc, &pools)?;
        let entries = vec![in alloc; None; total as usize]?;
        let tables = pools::null_tables(alloc, &pools)?;
        let inferiors = inferiors::no_inferiors(alloc, total)?;
        let index = Index::new(alloc, total as usize)?;
        Ok(Ast {
            sizes: pools,
            hands: [0; 4],
            used,
            entries,
            tables,
            inferiors,
            index,
        })
    }

    /// The place in which `uid` is active. `None` exactly where it isn't active.
    pub fn search(&self, uid: u32) -> Option<u32>
        ensures only { (place : ℕ) → (result ≡ Some place) ↔ (uid_at self.now.entries place ≡ Some uid) }
        ensures within { IfSome result (λ place. place < length self.now.entries) }
        ensures tree { IsTree self.now.entries }
        ensures shape { HasShape self.now }
    {
        self.index.find(uid)
    }

    /// The least place of the pool in which nothing is active. `None` exactly where the pool is full.
    pub fn free_in(&self, pool: u32) -> Option<u32>
        requires { pool < 4 }
        ensures least { IfSome result (λ place. IsLeastFree self.now pool place) }
        ensures within { IfSome result (λ place. place < length self.now.entries) }
        ensures room { IfSome result (λ _. used_in self.now pool < size_of self.now.sizes pool) }
        ensures full { IsNone result ↔ IsFull self.now pool }
        ensures tree { IsTree self.now.entries }
        ensures shape { HasShape self.now }
    {
        let offset = self.used[pool as usize].first_free()?;
        Some(pools::first_of(&self.sizes, pool) + offset)
    }

    /// What has to be made inactive so that the pool has a free place, as `next_victim` says it; and the pool's hand
    /// then stands after the place from which the way went down.
    pub fn victim(&mut self, pool: u32, chain: &[u32]) -> u32
        requires pool { pool < 4 }
        requires some { HasOneOffChain self.old pool chain.now }
        requires superiors { HasItsSuperiors self.old.entries chain.now }
        ensures is { victim_of self.old pool chain.now ≡ Some result }
        ensures victim { IsVictim self.old pool chain.now result }
        ensures only { (place : ℕ) → IsVictim self.old pool chain.now place → place ≡ result }
        ensures within { result < length self.old.entries }
        ensures leaf { HasNoInferior self.old.entries result }
        ensures off { IsOffChain self.old.entries chain.now result }
        ensures hand { self.new ≡ hand_moved self.old pool chain.now }
    {
        let (found, leaf) = self.way_down(pool, chain);
        let offset = found - pools::first_of(&self.sizes, pool);
        self.hands[pool as usize] = victim::offset_after(self.sizes[pool as usize], offset);
        leaf
    }

    /// What has to be made inactive so that the pool has a free place.
    ///
    /// From the pool's hand on, round the pool, the first used place whose segment isn't in the chain is found. While
    /// its segment has an active inferior, the one with the least place, all pools counted in order, takes its stead.
    /// The leaf that is come to is never in the chain, and may be of another pool.
    pub fn next_victim(&self, pool: u32, chain: &[u32]) -> u32
        requires pool { pool < 4 }
        requires some { HasOneOffChain self.now pool chain.now }
        requires superiors { HasItsSuperiors self.now.entries chain.now }
        ensures is { victim_of self.now pool chain.now ≡ Some result }
        ensures victim { IsVictim self.now pool chain.now result }
        ensures only { (place : ℕ) → IsVictim self.now pool chain.now place → place ≡ result }
        ensures within { result < length self.now.entries }
        ensures leaf { HasNoInferior self.now.entries result }
        ensures off { IsOffChain self.now.entries chain.now result }
    {
        self.way_down(pool, chain).1
    }

    /// The place from which the way goes down to the victim, and the victim's.
    fn way_down(&self, pool: u32, chain: &[u32]) -> (u32, u32)
        requires pool { pool < 4 }
        requires some { HasOneOffChain self.now pool chain.now }
        requires superiors { HasItsSuperiors self.now.entries chain.now }
        ensures first { first_off_chain self.now pool chain.now ≡ Some result.0 }
        ensures in_pool { IsInPool self.now.sizes pool result.0 }
        ensures is { victim_of self.now pool chain.now ≡ Some result.1 }
        ensures victim { IsVictim self.now pool chain.now result.1 }
        ensures only { (place : ℕ) → IsVictim self.now pool chain.now place → place ≡ result.1 }
        ensures within { result.1 < length self.now.entries }
        ensures leaf { HasNoInferior self.now.entries result.1 }
        ensures off { IsOffChain self.now.entries chain.now result.1 }
    {
        let found = self.found(pool, chain);
        (
            found,
            victim::leaf_below(&self.entries, &self.inferiors, found),
        )
    }

    /// The place from which the way goes down to the victim.
    fn found(&self, pool: u32, chain: &[u32]) -> u32
        requires pool { pool < 4 }
        requires some { HasOneOffChain self.now pool chain.now }
        ensures first { first_off_chain self.now pool chain.now ≡ Some result }
        ensures in_pool { IsInPool self.now.sizes pool result }
        ensures active { IsActiveAt self.now.entries result }
    {
        let first = pools::first_of(&self.sizes, pool);
        let hand = first + self.hands[pool as usize];
        let end = first + self.sizes[pool as usize];
        victim::find_from_hand(&self.entries, chain, first, hand, end)
    }

    /// Makes `uid` active in a free place. Its page table is the one that the place has.
    pub fn activate(&mut self, place: u32, uid: u32, superior: Option<u32>)
        requires place { place < length self.old.entries }
        requires free { entry_at self.old.entries place ≡ None }
        requires inactive { (q : ℕ) → uid_at self.old.entries q ≢ Some uid }
        requires superior { ForSome superior (IsActive self.old.entries) }
        ensures active { self.new ≡ activated self.old place uid superior }
        ensures tree { IsTree self.new.entries }
        ensures shape { HasShape self.new }
    {
        let above = inferiors::place_of_superior(&self.index, superior);
        inferiors::note(&mut self.inferiors, above, place);
        let (pool, offset) = pools::pool_of(&self.sizes, place);
        pools::mark(&mut self.used, pool, offset);
        self.index.insert(uid, place);
        self.entries[place as usize] = Some(Entry { uid, superior });
    }

    /// Makes what is active in the place inactive, and each word of the place's page table `Null`. No more words are
    /// written than the table has.
    pub fn deactivate(&mut self, place: u32)
        requires place { place < length self.old.entries }
        requires leaf { HasNoInferior self.old.entries place }
        requires away { All IsAway (table_at self.old.tables place) }
        ensures inactive { self.new ≡ deactivated self.old place }
        ensures tree { IsTree self.new.entries }
        ensures shape { HasShape self.new }
    {
        self.tables[place as usize].clear();
        let Some(entry) = self.entries[place as usize] else {
            return;
        };
        let above = inferiors::place_of_superior(&self.index, entry.superior);
        inferiors::forget(&mut self.inferiors, above, place);
        let (pool, offset) = pools::pool_of(&self.sizes, place);
        pools::unmark(&mut self.used, pool, offset);
        self.index.remove(entry.uid);
        self.entries[place as usize] = None;
    }

    /// The page table of the place.
    pub fn table(&self, place: u32) -> &PageTable
        requires { place < length self.now.entries }
        ensures words { result.now ≡ table_at self.now.tables place }
        ensures tree { IsTree self.now.entries }
        ensures shape { HasShape self.now }
    {
        &self.tables[place as usize]
    }

    /// The page table of the place, to be changed. Nothing else changes by it.
    pub fn table_mut(&mut self, place: u32) -> &mut PageTable
        requires { place < length self.old.entries }
        ensures* writes_back { sem 𝓛 (LendsTable self.entry place result) }
        ensures value { result.now ≡ table_at self.old.tables place }
    {
        &mut self.tables[place as usize]
    }

    /// The uid of what is active in the place. `None` exactly where nothing is.
    pub fn uid_at(&self, place: u32) -> Option<u32>
        requires { place < length self.now.entries }
        ensures uid { result ≡ uid_at self.now.entries place }
        ensures tree { IsTree self.now.entries }
        ensures shape { HasShape self.now }
    {
        match self.entries[place as usize] {
            Some(entry) => Some(entry.uid),
            None => None,
        }
    }
}
