//! The known segment table of a process: its segment numbers, and the segments of the directory tree that they
//! stand for.
#![tactic(auto)]

ghost use Rattle.std.specs.Prelude.{◌≡◌, ◌<◌, ◌↔◌, ℕ, Some, None, length, replicate, IsTrue, IsNone, IsSome, IfOk};
ghost use Rattle.std.specs.Prelude.{IfSome};
ghost use Rattle.known_segs.specs.Known.{uid_of, number_of, least_free, number_for, with_number, without_number};
ghost use Rattle.known_segs.specs.Known.{known_count, IsUnknown, HasOneNumberEach};

mod places;

pub use no_memory::NoMemory;
use places::Places;
use std::alloc::Global;
use std::marker::Model;

/// The number of segment numbers that a process has.
pub const NUMBERS: usize = 256;

/// The segments that are known to a process, each under one segment number from 0 to 255 (Bensoussan, Clingen and
/// Daley 1972).
///
/// Contracts see it as the list of what the 256 numbers stand for: a finite map from numbers to uids. No uid has two
/// numbers.
#[derive(Drop)]
pub struct Kst {
    places: Places,
}

impl Model for Kst {
    ghost use Rattle.std.specs.Prelude.{◌≡◌, ℕ, List, Option, length};
    ghost use Rattle.known_segs.specs.Known.{HasOneNumberEach};

    ghost Value = { List (Option ℕ) };

    ghost view = { λ k. k.places };

    ghost invariant = { λ k. (length k.places ≡ 256) × HasOneNumberEach k.places };
}

impl Kst {
    /// A table in which nothing is known. Answers `NoMemory` where its 256 places can't be had.
    pub fn new(alloc: Global) -> Result<Kst, NoMemory>
        ensures { IfOk result (λ kst. kst ≡ replicate 256 None) }
    {
        let places = Places::new(alloc)?;
        Ok(Kst { places })
    }

    /// Makes the segment `uid` known and gives its number: the one that it has, else the least free one. `None`
    /// exactly where it isn't known and all 256 numbers are, and then nothing changes.
    ///
    /// Costs two passes over at most as many places as numbers were known at one time.
    pub fn make_known(&mut self, uid: u32) -> Option<u32>
        ensures number { result ≡ number_for self.old uid }
        ensures places { self.new ≡ with_number self.old uid result }
        ensures full { IsNone result ↔ ((known_count self.old ≡ 256) × IsUnknown self.old uid) }
        ensures within { IfSome result (λ n. n < 256) }
        ensures once { HasOneNumberEach self.new }
        ensures size { length self.new ≡ length self.old }
        ensures kept { (n v : ℕ) → uid_of self.old n ≡ Some v → uid_of self.new n ≡ Some v }
    {
        if let Some(number) = self.places.number_of(uid) {
            return Some(number);
        }
        let number = self.places.least_free()?;
        self.places.set(number, uid);
        Some(number)
    }

    /// The uid of the segment that number `n` stands for. `None` exactly where it stands for none, as from 256 on.
    ///
    /// Costs one look, since every reference of the process makes it.
    pub fn uid_of(&self, n: u32) -> Option<u32>
        ensures uid { result ≡ uid_of self.now n }
        ensures within { IsSome result → n < 256 }
        ensures size { length self.now ≡ 256 }
        ensures once { HasOneNumberEach self.now }
    {
        self.places.at(n)
    }

    /// What holds of the table between calls: it has 256 numbers, and no uid has two of them. It does nothing.
    pub fn promise(&self)
        ensures size { length self.now ≡ 256 }
        ensures once { HasOneNumberEach self.now }
    {
        let _ = &self.places;
    }

    /// Number `n` stands for nothing from now on. Costs one write.
    pub fn forget(&mut self, n: u32)
        requires known { IsSome (uid_of self.old n) }
        ensures places { self.new ≡ without_number self.old n }
        ensures once { HasOneNumberEach self.new }
    {
        self.places.clear(n);
    }

    /// The number of `uid`; `None` exactly where it isn't known. Costs a pass over at most as many
    /// places as numbers were known at one time.
    pub fn number_of(&self, uid: u32) -> Option<u32>
        ensures number { result ≡ number_of self.now uid }
        ensures only { (n : ℕ) → (result ≡ Some n) ↔ (uid_of self.now n ≡ Some uid) }
        ensures unknown { IsNone result ↔ IsUnknown self.now uid }
        ensures once { HasOneNumberEach self.now }
    {
        self.places.number_of(uid)
    }

    /// Whether fewer than 256 numbers are known. Costs a pass over at most as many
    /// places as numbers were known at one time.
    pub fn has_room(&self) -> bool
        ensures { IsTrue result ↔ (known_count self.now < 256) }
    {
        self.places.least_free().is_some()
    }
}
