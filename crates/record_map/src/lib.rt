//! The records of a volume: which of them are in use.
//!
//! A record is the place of one page of 1024 words on a volume. A page that is stored for the first time takes a
//! record, and a page that is given up puts its record back (Organick 1972; the free records are a bit map in
//! Multics too).
//!
//! Costs: `new` takes memory for two levels of bits, 1 bit for each record and 1 for each 64 of them. `withdraw`
//! reads the upper words up to the first that is not all ones (at most 4 for 16,384 records) and one lower word,
//! and writes one word of each level at most. `deposit` writes one word of each level. `taken` reads a count. So
//! no call walks over the records, and none but `new` takes memory.
#![tactic(auto)]

ghost use Rattle.std.specs.Prelude.{◌≡◌, ◌<◌, ◌+◌, Bool, true, false, List, length, replicate, slice_set, count_by};
ghost use Rattle.std.specs.Prelude.{All, IfOk, IfSome, IfNone};
ghost use Rattle.bitmap.specs.Bitmap.{in_use, least_free, IsLeastFree};

use bitmap::Bitmap;
pub use no_memory::NoMemory;
use std::alloc::Global;
use std::marker::Model;

/// Which records of a volume are in use, seen as one flag for each record, true where it is in use. The size of
/// the volume is the length of that list.
#[derive(Drop)]
pub struct RecordMap {
    records: Bitmap,
}

impl Model for RecordMap {
    ghost Value = { List Bool };

    ghost view = { λ map. map.records };
}

impl RecordMap {
    /// The map of a volume of `records` records, none in use.
    ///
    /// `NoMemory` is want of memory. It takes memory for 65 bits for each 64 records. (Source: Organick 1972.)
    pub fn new(alloc: Global, records: u32) -> Result<RecordMap, NoMemory>
        ensures { IfOk result (λ map. map ≡ replicate records false) }
    {
        let records = Bitmap::new(alloc, records)?;
        Ok(RecordMap { records })
    }

    /// Takes the least record that is not in use into use. None exactly where all are in use; the map is then as
    /// before.
    ///
    /// It reads a few words and writes one or two. (Source: Organick 1972; that it is the least is own.)
    pub fn withdraw(&mut self) -> Option<u32>
        ensures least { result ≡ least_free self.old }
        ensures some { IfSome result (λ r. IsLeastFree self.old r) }
        ensures none { IfNone result (All (λ flag. flag ≡ true) self.old) }

        // What becomes of the map.
        ensures taken { IfSome result (λ r. self.new ≡ slice_set self.old r true) }
        ensures count { IfSome result (λ _. count_by (λ flag. flag) self.new ≡ count_by (λ flag. flag) self.old + 1) }
        ensures same { IfNone result (self.new ≡ self.old) }
    {
        let r = self.records.first_free()?;
        self.records.take(r);
        Some(r)
    }

    /// Puts back the record `r`, which is in use. It writes two words. (Source: Organick 1972.)
    pub fn deposit(&mut self, r: u32)
        requires { in_use self.old r ≡ true }
        ensures flags { self.new ≡ slice_set self.old r false }
        ensures count { count_by (λ flag. flag) self.new + 1 ≡ count_by (λ flag. flag) self.old }
    {
        self.records.give_back(r);
    }

    /// How many records are in use. It reads a count. (Source: own.)
    pub fn taken(&self) -> u32
        ensures { result ≡ count_by (λ flag. flag) self.now }
    {
        self.records.used()
    }
}
