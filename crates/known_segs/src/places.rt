//! The places of a known segment table.

ghost use Rattle.std.specs.Prelude.{◌≡◌, ◌<◌, ◌≤◌, Some, None, length, replicate, slice_set, vec_len, vec_capacity, IsSome};
ghost use Rattle.std.specs.Prelude.{IfOk, IfSome};
ghost use Rattle.known_segs.specs.Known.{uid_of, number_of, least_free, padded};

use crate::{NUMBERS, NoMemory};
use std::alloc::Global;
use std::marker::Model;

/// What the 256 numbers of a process stand for. Only the first places are kept, at most as many as numbers stood for a
/// segment at one time, so that a search looks at no more.
#[derive(Drop)]
pub(crate) struct Places {
    kept: Vec<Option<u32>>,
}

impl Model for Places {
    ghost use Rattle.std.specs.Prelude.{ℕ, ◌≤◌, List, Option, vec_len, vec_capacity};
    ghost use Rattle.known_segs.specs.Known.{padded};

    ghost Value = { List (Option ℕ) };

    ghost view = { λ p. padded p.kept.items };

    ghost invariant = { λ p. (vec_len p.kept ≤ 256) × (256 ≤ vec_capacity p.kept) };
}

/// The number whose place stands for `uid`.
fn place_of(places: &[Option<u32>], uid: u32) -> Option<usize>
    ensures number { result ≡ number_of places.now uid }
    ensures within { IfSome result (λ n. n < length places.now) }
{
    places.iter().position(|place| *place == Some(uid))
}

/// The least number whose place is empty.
fn first_empty(places: &[Option<u32>]) -> Option<usize>
    ensures number { result ≡ least_free places.now }
    ensures within { IfSome result (λ n. n < length places.now) }
{
    places.iter().position(|place| place.is_none())
}

impl Places {
    /// Places of which none stands for anything.
    #[tactic(auto, using(crate::proofs::PlaceLaws::none_kept))]
    pub(crate) fn new(alloc: Global) -> Result<Places, NoMemory>
        ensures { IfOk result (λ places. places ≡ replicate 256 None) }
    {
        let kept = Vec::with_capacity(alloc, NUMBERS)?;
        Ok(Places { kept })
    }

    /// What number `n` stands for.
    #[tactic(auto, using(crate::proofs::PlaceLaws::place_seen))]
    pub(crate) fn at(&self, n: u32) -> Option<u32>
        ensures uid { result ≡ uid_of self.now n }
        ensures size { length self.now ≡ 256 }
    {
        let n = n as usize;
        if n < self.kept.len() {
            self.kept[n]
        } else {
            None
        }
    }

    /// The number of `uid`.
    pub(crate) fn number_of(&self, uid: u32) -> Option<u32>
        ensures number { result ≡ number_of self.now uid }
        ensures within { IfSome result (λ n. n < 256) }
        ensures size { length self.now ≡ 256 }
    {
        let number = place_of(&self.kept, uid)?;
        Some(number as u32)
    }

    /// The least number that stands for nothing.
    pub(crate) fn least_free(&self) -> Option<u32>
        ensures number { result ≡ least_free self.now }
        ensures within { IfSome result (λ n. n < 256) }
        ensures size { length self.now ≡ 256 }
    {
        match first_empty(&self.kept) {
            Some(number) => Some(number as u32),
            None if self.kept.len() < NUMBERS => Some(self.kept.len() as u32),
            None => None,
        }
    }

    /// The least free number stands for `uid` from now on.
    pub(crate) fn set(&mut self, number: u32, uid: u32)
        requires { least_free self.old ≡ Some number }
        ensures { self.new ≡ slice_set self.old number (Some uid) }
    {
        let number = number as usize;
        if number < self.kept.len() {
            self.kept[number] = Some(uid);
        } else {
            self.kept.push_reserved(Some(uid));
        }
    }

    /// Number `n` stands for nothing from now on.
    pub(crate) fn clear(&mut self, n: u32)
        requires { IsSome (uid_of self.old n) }
        ensures { self.new ≡ slice_set self.old n None }
    {
        let n = n as usize;
        if n + 1 == self.kept.len() {
            self.kept.pop();
        } else {
            self.kept[n] = None;
        }
    }
}
