//! A number beside each of some uids, in tables by uid.

ghost use Rattle.std.specs.Prelude.{◌≡◌, ◌<◌, true, false, IfOk};
ghost use Rattle.quota_cells.specs.Accounts.{has, look, with_value};
ghost use Rattle.quota_cells.specs.Cells.{IsRising};
ghost use Rattle.quota_cells.specs.Columns.{no_numbers, with_uid, without_uid};

use crate::by_uid::{ByUid, reach};
use dir_tree::UIDS;
use std::alloc::{AllocError, Global};
use std::marker::Model;

/// Some of the uids that a tree can have, and a number beside each.
#[derive(Drop)]
pub(crate) struct Numbers {
    /// Whether a uid is one of them, for those up to the last that ever was.
    there: Vec<bool>,
    /// The number of each; what stands beside any other uid means nothing.
    values: ByUid,
}

impl Model for Numbers {
    ghost use Rattle.std.specs.Prelude.{◌≤◌, vec_capacity, vec_len};
    ghost use Rattle.quota_cells.specs.Columns.{NumberMap, numbers_of};

    ghost Value = { NumberMap };

    ghost view = { λ n. numbers_of n.there.items n.values };

    ghost invariant = { λ n. (vec_len n.there ≤ 100003) × (100003 ≤ vec_capacity n.there) };
}

impl Numbers {
    /// No numbers.
    pub(crate) fn new(alloc: Global) -> Result<Numbers, AllocError>
        ensures { IfOk result (λ n. n ≡ no_numbers) }
    {
        let there = Vec::with_capacity(alloc, UIDS as usize)?;
        let values = ByUid::new(alloc)?;
        Ok(Numbers { there, values })
    }

    /// Whether a uid has a number.
    pub(crate) fn has(&self, uid: u32) -> bool
        ensures { result ≡ has self.now.uids uid }
    {
        match self.there.get(uid as usize) {
            Some(there) => *there,
            None => false,
        }
    }

    /// Where what is kept of a uid stands in a table by uid.
    pub(crate) fn place(&self, uid: u32) -> usize
        requires { has self.now.uids uid ≡ true }
        ensures is { result ≡ uid }
        ensures within { result < 100003 }
        ensures rising { IsRising self.now.uids }
    {
        let _ = &self.there;
        uid as usize
    }

    /// The number of a uid that has one.
    pub(crate) fn at(&self, uid: u32) -> u32
        requires { has self.now.uids uid ≡ true }
        ensures { result ≡ look self.now.uids self.now.values uid }
    {
        let place = self.place(uid);
        self.values.number(place)
    }

    /// The number of a uid; 0 where it has none.
    pub(crate) fn look(&self, uid: u32) -> u32
        ensures { result ≡ look self.now.uids self.now.values uid }
    {
        if !self.has(uid) {
            return 0;
        }
        self.at(uid)
    }

    /// Sets the number of a uid that has one.
    pub(crate) fn set(&mut self, uid: u32, value: u32)
        requires { has self.old.uids uid ≡ true }
        ensures { self.new ≡ record self.old { values = with_value self.old.uids self.old.values uid value } }
    {
        let place = self.place(uid);
        self.values.put(place, value);
    }

    /// Adds a uid with the number 0.
    pub(crate) fn enter(&mut self, uid: u32)
        requires bound { uid < 100003 }
        requires absent { has self.old.uids uid ≡ false }
        ensures numbers { self.new ≡ with_uid self.old uid }
        ensures rising { IsRising self.old.uids }
    {
        let place = uid as usize;
        self.values.put(place, 0);
        if place < self.there.len() {
            self.there[place] = true;
        } else {
            reach(&mut self.there, place, false);
            self.there.push_reserved(true);
        }
    }

    /// Drops a uid and its number.
    pub(crate) fn leave(&mut self, uid: u32)
        requires { has self.old.uids uid ≡ true }
        ensures { self.new ≡ without_uid self.old uid }
    {
        let place = self.place(uid);
        self.there[place] = false;
    }
}
