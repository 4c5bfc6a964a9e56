//! A number for each uid that a tree can have.

ghost use Rattle.std.specs.Prelude.{◌≡◌, ◌<◌, ◌≤◌, ◌-◌, ◌++◌, [], IfOk, length, replicate, slice_index, slice_set};
ghost use Rattle.std.specs.Prelude.{vec_capacity, vec_len};
ghost use Rattle.quota_cells.specs.Tables.{padded};

use dir_tree::UIDS;
use std::alloc::{AllocError, Global};
use std::marker::Model;

/// A number for each uid, 0 at first, with room for all of them, of which those up to the last uid whose number was set
/// are held.
#[derive(Drop)]
pub(crate) struct ByUid {
    held: Vec<u32>,
}

impl Model for ByUid {
    ghost use Rattle.std.specs.Prelude.{◌≤◌, List, vec_capacity, vec_len, ℕ};
    ghost use Rattle.quota_cells.specs.Tables.{padded};

    ghost Value = { List ℕ };

    ghost view = { λ n. padded n.held.items };

    ghost invariant = { λ n. (vec_len n.held ≤ 100003) × (100003 ≤ vec_capacity n.held) };
}

impl ByUid {
    /// Each number is 0, and none is held.
    pub(crate) fn new(alloc: Global) -> Result<ByUid, AllocError>
        ensures { IfOk result (λ n. n ≡ padded []) }
    {
        let held = Vec::with_capacity(alloc, UIDS as usize)?;
        Ok(ByUid { held })
    }

    /// The number of a uid.
    pub(crate) fn number(&self, uid: usize) -> u32
        ensures { result ≡ slice_index self.now uid }
    {
        match self.held.get(uid) {
            Some(number) => *number,
            None => 0,
        }
    }

    /// Sets the number of a uid. Those before it are held from then on.
    pub(crate) fn put(&mut self, uid: usize, number: u32)
        requires { uid < 100003 }
        ensures number { self.new ≡ slice_set self.old uid number }
        ensures size { length self.old ≡ 100003 }
    {
        if uid < self.held.len() {
            self.held[uid] = number;
        } else {
            reach(&mut self.held, uid, 0);
            self.held.push_reserved(number);
        }
    }
}

/// Holds what stands before a uid: each that wasn't held is blank.
pub(crate) fn reach<T: Copy>(held: &mut Vec<T>, uid: usize, blank: T)
    requires few { length held.old.items ≤ uid }
    requires room { uid < vec_capacity held.old }
    ensures items { held.new.items ≡ held.old.items ++ replicate (uid - length held.old.items) blank }
    ensures size { vec_len held.new ≡ uid }
    ensures capacity { vec_capacity held.new ≡ vec_capacity held.old }
{
    for _ in held.len()..uid {
        held.push_reserved(blank);
    }
}
