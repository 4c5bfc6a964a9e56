//! The places of the four pools, and the maps of which are used.

ghost use Rattle.std.specs.Prelude.{◌≡◌, ◌<◌, ◌≤◌, ◌+◌, true, false, length, sum, vec_len, vec_capacity, map};
ghost use Rattle.std.specs.Prelude.{replicate, IfOk, OnOk, ◌++◌};
ghost use Rattle.page_table.specs.declared.Ptw.TheVariants.{Null};
ghost use Rattle.active_segs.specs.Active.{null_tables};
ghost use Rattle.bitmap.specs.Bitmap.{in_use};
ghost use Rattle.active_segs.specs.Kept.{map_of, map_set};
ghost use Rattle.active_segs.specs.Pool.{first_of, IsPlaced};

use crate::{Entry, NoMemory};
use bitmap::Bitmap;
use page_table::PageTable;
use std::alloc::Global;

/// All together.
pub(crate) fn total(sizes: &[u32]) -> u32
    requires { sum sizes.now ≤ 1024 }
    ensures { result ≡ sum sizes.now }
{
    sizes.iter().sum()
}

/// A map of no used place for each pool.
pub(crate) fn no_marks(alloc: Global, sizes: &[u32]) -> Result<Vec<Bitmap>, NoMemory>
    ensures { IfOk result (λ used. used.items ≡ map (λ size. replicate size false) sizes.now) }
{
    let mut used = Vec::with_capacity(alloc, sizes.len())?;
    for size in sizes {
        used.push_reserved(Bitmap::new(alloc, *size)?);
    }
    Ok(used)
}

/// A page table for each place, of as many words as its pool says, each of them `Null`.
pub(crate) fn null_tables(alloc: Global, sizes: &[u32]) -> Result<Vec<PageTable>, NoMemory>
    requires four { length sizes.now ≡ 4 }
    requires few { sum sizes.now ≤ 1024 }
    ensures { IfOk result (λ tables. tables.items ≡ null_tables sizes.now) }
{
    let mut tables = Vec::with_capacity(alloc, total(sizes) as usize)?;
    add_tables(alloc, &mut tables, sizes[0], 4)?;
    add_tables(alloc, &mut tables, sizes[1], 16)?;
    add_tables(alloc, &mut tables, sizes[2], 64)?;
    add_tables(alloc, &mut tables, sizes[3], 256)?;
    Ok(tables)
}

/// So many more page tables of so many words.
fn add_tables(
    alloc: Global,
    tables: &mut Vec<PageTable>,
    count: u32,
    pages: u32,
) -> Result<(), NoMemory>
    requires { vec_len tables.old + count ≤ vec_capacity tables.old }
    ensures items { OnOk result (tables.new.items ≡ tables.old.items ++ replicate count (replicate pages Null)) }
    ensures len { OnOk result (vec_len tables.new ≡ vec_len tables.old + count) }
    ensures capacity { OnOk result (vec_capacity tables.new ≡ vec_capacity tables.old) }
{
    for _table in 0..count {
        tables.push_reserved(PageTable::new(alloc, pages)?);
    }
    Ok(())
}

/// The first place of a pool.
#[tactic(auto, using(crate::proofs::PlaceLemmas::sum_take_le, std::proofs::lemmas::Grind::common_steps))]
pub(crate) fn first_of(sizes: &[u32], pool: u32) -> u32
    requires pool { pool < length sizes.now }
    requires few { sum sizes.now ≤ 1024 }
    ensures first { result ≡ first_of sizes.now pool }
    ensures few { result ≤ 1024 }
{
    total(&sizes[..pool as usize])
}

/// The pool of a place, and how far the place is from the pool's first.
pub(crate) fn pool_of(sizes: &[u32], place: u32) -> (u32, u32)
    requires four { length sizes.now ≡ 4 }
    requires place { place < sum sizes.now }
    ensures { IsPlaced sizes.now place result.0 result.1 }
{
    let mut offset = place;
    for (pool, size) in sizes.iter().enumerate() {
        if offset < *size {
            return (pool as u32, offset);
        }
        offset -= *size;
    }
    unreachable!()
}

/// Marks the place as used.
pub(crate) fn mark(used: &mut Vec<Bitmap>, pool: u32, offset: u32)
    requires pool { pool < vec_len used.old }
    requires within { offset < length (map_of used.old.items pool) }
    requires free { in_use (map_of used.old.items pool) offset ≡ false }
    ensures { used.new.items ≡ map_set used.old.items pool offset true }
{
    used[pool as usize].take(offset);
}

/// Marks the place as free.
pub(crate) fn unmark(used: &mut Vec<Bitmap>, pool: u32, offset: u32)
    requires pool { pool < vec_len used.old }
    requires used { in_use (map_of used.old.items pool) offset ≡ true }
    ensures { used.new.items ≡ map_set used.old.items pool offset false }
{
    used[pool as usize].give_back(offset);
}
