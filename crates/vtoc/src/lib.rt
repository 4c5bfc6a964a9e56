//! The VTOC of a volume, its table of contents: an entry for each segment and directory on it.
//!
//! An entry has the uid of what it describes and its file map, which names for each of the 256 pages of a segment
//! the record of the volume that the page is on, or none (Organick 1972).
//!
//! Costs: `new` takes room for all entries, 520 bytes each at most, and memory for a bit map of them. `allocate` reads
//! a few words of the bit map, writes one or two, and one uid; where the entry was never used, its empty map besides.
//! `free` writes two words and one uid. `used` and `size` read a number, `uid_at` one uid, and `file_map` and
//! `put_file_map` touch one place of one map. `names_none` looks at the 512 bytes of one map, several places at once.
//! No call walks over entries, since a free entry's map is always empty, and none but `new` takes memory.
#![tactic(auto)]

mod file_map;
mod slots;

ghost use Rattle.std.specs.Prelude.{◌≡◌, ◌<◌, ◌^◌, ◌+◌, ◌-◌, List, Option, None, Some, length, replicate, slice_set};
ghost use Rattle.std.specs.Prelude.{◌↔◌, count_by, is_some, All, IsSome, IsTrue, IfOk, IfSome, IfNone};
ghost use Rattle.std.specs.Option.{ForSome};
ghost use Rattle.vtoc.specs.Vtoc.{Entry, entry_at, uid_of, record_at, fresh_entry, with_record, least_free_entry};
ghost use Rattle.vtoc.specs.Vtoc.{IsLeastFreeEntry, HasFullMaps, NamesNoRecord};

use bitmap::Bitmap;
pub use no_memory::NoMemory;
use slots::Slots;
use std::alloc::Global;
use std::marker::Model;

/// The table of contents of a volume, seen as the list of its entries, each free or used with a uid and a file map
/// of 256 places.
#[derive(Drop)]
pub struct Vtoc {
    in_use: Bitmap,
    slots: Slots,
}

impl Model for Vtoc {
    ghost use Rattle.std.specs.Prelude.{List, Option};
    ghost use Rattle.vtoc.specs.Vtoc.{Entry};

    ghost Value = { List (Option Entry) };

    ghost use Rattle.vtoc.specs.Slots.{table_of, IsMarked};

    ghost view = { λ vtoc. table_of vtoc.slots };

    ghost invariant = { λ vtoc. IsMarked vtoc.in_use vtoc.slots };
}

impl Vtoc {
    /// A table of `entries` entries, all free. `NoMemory` is want of memory. (Source: Organick 1972.)
    pub fn new(alloc: Global, entries: u32) -> Result<Vtoc, NoMemory>
        ensures { IfOk result (λ vtoc. vtoc ≡ replicate entries None) }
    {
        let in_use = Bitmap::new(alloc, entries)?;
        let slots = Slots::new(alloc, entries)?;
        Ok(Vtoc { in_use, slots })
    }

    /// Takes the least free entry for `uid`, with an empty file map. None exactly where all entries are used; the
    /// table is then as before.
    ///
    /// It reads a few words of the bit map, writes one or two, and one uid. (Source: Organick 1972; that it is the
    /// least is own.)
    pub fn allocate(&mut self, uid: u32) -> Option<u32>
        ensures least { result ≡ least_free_entry self.old }
        ensures some { IfSome result (λ e. IsLeastFreeEntry self.old e) }
        ensures none { IfNone result (All (λ entry. IsSome entry) self.old) }

        // What becomes of the table.
        ensures taken { IfSome result (λ e. self.new ≡ slice_set self.old e (fresh_entry uid)) }
        ensures empty { IfSome result (λ e. NamesNoRecord self.new e) }
        ensures count { IfSome result (λ _. count_by is_some self.new ≡ count_by is_some self.old + 1) }
        ensures same { IfNone result (self.new ≡ self.old) }
    {
        let e = self.in_use.first_free()?;
        self.in_use.take(e);
        self.slots.give(e, uid);
        Some(e)
    }

    /// The uid of entry `e`, None where it is free. It reads one entry. (Source: Organick 1972.)
    pub fn uid_at(&self, e: u32) -> Option<u32>
        requires { e < length self.now }
        ensures { result ≡ uid_of (entry_at self.now e) }
    {
        self.slots.uid(e)
    }

    /// The record of page `p` by the file map of the used entry `e`, None where the page has no record. It reads one
    /// place. (Source: Organick 1972.)
    pub fn file_map(&self, e: u32, p: u32) -> Option<u32>
        requires used { IsSome (entry_at self.now e) }
        requires page { p < 256 }
        ensures { result ≡ record_at self.now e p }
    {
        self.slots.used(e).map.get(p)
    }

    /// Whether the file map of the used entry `e` names no record. It looks at all places of the map, several at once.
    /// (Source: own.)
    pub fn names_none(&self, e: u32) -> bool
        requires { IsSome (entry_at self.now e) }
        ensures { IsTrue result ↔ NamesNoRecord self.now e }
    {
        self.slots.used(e).map.names_none()
    }

    /// Names `r` as the record of page `p` in the file map of the used entry `e`, or no record. A record is below
    /// 65,535, since a place has 16 bits; a volume has at most 16,384 records. It writes one place. (Source:
    /// Organick 1972.)
    pub fn put_file_map(&mut self, e: u32, p: u32, r: Option<u32>)
        requires used { IsSome (entry_at self.old e) }
        requires page { p < 256 }
        requires record { ForSome r (λ r. r < 2 ^ 16 - 1) }
        ensures map { self.new ≡ slice_set self.old e (with_record (entry_at self.old e) p r) }
        ensures placed { record_at self.new e p ≡ r }
    {
        self.slots.put(e, p, r);
    }

    /// Frees the used entry `e`, whose file map names no record. It writes one uid and two words of the bit map.
    /// (Source: Organick 1972.)
    pub fn free(&mut self, e: u32)
        requires used { IsSome (entry_at self.old e) }
        requires empty { NamesNoRecord self.old e }
        ensures entries { self.new ≡ slice_set self.old e None }
        ensures count { count_by is_some self.new + 1 ≡ count_by is_some self.old }
    {
        self.in_use.give_back(e);
        self.slots.clear(e);
    }

    /// How many entries are used. It reads a count. (Source: own.)
    pub fn used(&self) -> u32
        ensures { result ≡ count_by is_some self.now }
    {
        self.in_use.used()
    }

    /// How many entries there are. It reads a number. (Source: own.)
    pub fn size(&self) -> u32
        ensures entries { result ≡ length self.now }
        ensures places { HasFullMaps self.now }
    {
        self.slots.size()
    }
}
