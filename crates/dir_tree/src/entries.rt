//! The nodes by uid: a table of their places, and an entry for each in the slot of its place.

ghost use Rattle.std.specs.Prelude.{◌≡◌, ◌≢◌, ℕ, ◌<◌, ◌≤◌, ◌+◌, ◌-◌, ◌++◌, [], ◌∷◌, length, replicate, IsTrue, ◌↔◌, take};
ghost use Rattle.std.specs.Prelude.{if◌then◌else◌, ◌==◌, Option, IfOk, IfSome, IfNone, Some, slice_index};
ghost use Rattle.std.specs.Prelude.{vec_len, vec_capacity, ◌^◌};
ghost use Rattle.dir_tree.specs.Index.{node_at};
ghost use Rattle.dir_tree.specs.Nodes.{node_of_new, as_node};
ghost use Rattle.dir_tree.specs.Kept.{entry_at, place_for, recounted, HasEntry, IsAscending, IsCounted};
ghost use Rattle.dir_tree.specs.Uids.{IsRemoved};

use crate::node::{NewBranch, Node};
use crate::{NODES, UIDS};
use std::alloc::{AllocError, Global};
use std::marker::Model;

/// What is looked up by uid.
#[derive(Clone, Copy)]
pub(crate) struct Entry {
    /// The uid of the node.
    pub uid: u32,
    /// The directory that it lies in; none for the root.
    pub superior: Option<u32>,
    /// The node's place.
    pub place: u16,
    /// How many nodes lie in it.
    pub inferiors: u32,
}

/// What stands in a slot that no node has.
const NO_ENTRY: Entry = Entry {
    uid: 0,
    superior: None,
    place: 0,
    inferiors: 0,
};

/// What stands in the table for a uid that no node has.
const NOWHERE: u16 = u16::MAX;

/// Entries in the order of uids: one for each of at most 4097 nodes. An entry stays in the slot of its node's place,
/// and a table has the place of each uid up to the last that a node ever had.
#[derive(Drop)]
pub(crate) struct Entries {
    slots: Vec<Entry>,
    places: Vec<u16>,
    count: usize,
}

impl Model for Entries {
    ghost use Rattle.std.specs.Prelude.{◌≡◌, ◌≤◌, List, length, vec_capacity, vec_len};
    ghost use Rattle.dir_tree.specs.declared.entries.Entry.{Entry};
    ghost use Rattle.dir_tree.specs.Kept.{listed, IsListed};
    ghost use Rattle.dir_tree.specs.Uids.{taken, IsTabled};

    ghost Value = { List Entry };

    ghost view = { λ e. listed e.slots.items (taken e.places.items) };

    ghost invariant = { λ e. IsListed e.slots.items (taken e.places.items) × IsTabled e.slots.items e.places.items
        × (vec_len e.places ≤ 100003) × (e.count ≡ length (taken e.places.items))
        × (100003 ≤ vec_capacity e.places) };
}

/// Slots that no node has yet, one for each place.
fn blank_slots(alloc: Global) -> Result<Vec<Entry>, AllocError>
    ensures { IfOk result (λ slots. length slots.items ≡ 4097) }
{
    let mut slots = Vec::with_capacity(alloc, NODES)?;
    for _ in 0..NODES {
        slots.push_reserved(NO_ENTRY);
    }
    Ok(slots)
}

/// Holds a place for each uid up to this one: a uid that had none is nowhere.
fn reach(places: &mut Vec<u16>, uid: usize)
    requires { uid < vec_capacity places.old }
    ensures places { places.new.items ≡ places.old.items ++ replicate (uid + 1 - length places.old.items) 65535 }
    ensures capacity { vec_capacity places.new ≡ vec_capacity places.old }
{
    for _ in places.len()..uid + 1 {
        places.push_reserved(NOWHERE);
    }
}

impl Entries {
    /// No entries, with room for all.
    pub(crate) fn new(alloc: Global) -> Result<Entries, AllocError>
        ensures { IfOk result (λ entries. entries ≡ []) }
    {
        let slots = blank_slots(alloc)?;
        let places = Vec::with_capacity(alloc, UIDS as usize)?;
        Ok(Entries {
            slots,
            places,
            count: 0,
        })
    }

    /// How many there are.
    pub(crate) fn len(&self) -> usize
        ensures { result ≡ length self.now }
    {
        self.count
    }

    /// The place of the node of `uid`.
    fn place(&self, uid: u32) -> Option<u16>
        ensures some { IfSome result (λ p. (i : ℕ) × (i < length self.now) × ((entry_at self.now i).uid ≡ uid)
            × ((entry_at self.now i).place ≡ p)) }
        ensures none { IfNone result ((i : ℕ) → i < length self.now → (entry_at self.now i).uid ≢ uid) }
    {
        match self.places.get(uid as usize) {
            Some(place) if *place != NOWHERE => Some(*place),
            _ => None,
        }
    }

    /// The entry of `uid`.
    pub(crate) fn entry_of(&self, uid: u32) -> Option<Entry>
        ensures some { IfSome result (HasEntry self.now uid) }
        ensures none { IfNone result ((i : ℕ) → i < length self.now → (entry_at self.now i).uid ≢ uid) }
    {
        match self.place(uid) {
            Some(place) => Some(self.slots[place as usize]),
            None => None,
        }
    }

    /// The place of the node of `uid`, which is there.
    pub(crate) fn place_of(&self, uid: u32) -> u16
        requires { (i : ℕ) × (i < length self.now) × ((entry_at self.now i).uid ≡ uid) }
        ensures { (i : ℕ) × (i < length self.now) × ((entry_at self.now i).uid ≡ uid)
            × ((entry_at self.now i).place ≡ result) }
    {
        match self.place(uid) {
            Some(place) => place,
            None => unreachable!(),
        }
    }

    /// Whether some entry has this superior.
    pub(crate) fn has_inferior(&self, uid: u32) -> bool
        requires there { (i : ℕ) × (i < length self.now) × ((entry_at self.now i).uid ≡ uid) }
        requires counted { IsCounted self.now }
        ensures { IsTrue result ↔ ((i : ℕ) × (i < length self.now) × ((entry_at self.now i).superior ≡ Some uid)) }
    {
        let place = self.place_of(uid);
        self.slots[place as usize].inferiors > 0
    }

    /// Adds an entry of a place that no other has, and of a uid above all others.
    pub(crate) fn push(&mut self, entry: Entry)
        requires few { length self.old < 4097 }
        requires place { entry.place < 4097 }
        requires new { (i : ℕ) → i < length self.old → (entry_at self.old i).place ≢ entry.place }
        requires uid { entry.uid < 100003 }
        requires later { (i : ℕ) → i < length self.old → (entry_at self.old i).uid < entry.uid }
        ensures { self.new ≡ self.old ++ entry ∷ [] }
    {
        self.slots[entry.place as usize] = entry;
        reach(&mut self.places, entry.uid as usize);
        self.places[entry.uid as usize] = entry.place;
        self.count += 1;
    }

    /// Takes the entry of `uid` out. No other moves.
    pub(crate) fn remove(&mut self, uid: u32) -> Entry
        requires { (i : ℕ) × (i < length self.old) × ((entry_at self.old i).uid ≡ uid) }
        ensures { IsRemoved self.old uid result self.new }
    {
        let place = self.place_of(uid);
        self.places[uid as usize] = NOWHERE;
        self.count -= 1;
        self.slots[place as usize]
    }

    /// Counts one more inferior of `uid`.
    pub(crate) fn gain(&mut self, uid: u32)
        requires rising { IsAscending self.old }
        requires there { (i : ℕ) × (i < length self.old) × ((entry_at self.old i).uid ≡ uid) }
        requires room { (i : ℕ) → i < length self.old → (entry_at self.old i).inferiors + 1 < 2 ^ 32 }
        ensures { self.new ≡ recounted uid (λ n. n + 1) self.old }
    {
        let place = self.place_of(uid);
        self.slots[place as usize].inferiors += 1;
    }

    /// Counts one inferior of `uid` less.
    pub(crate) fn lose(&mut self, uid: u32)
        requires rising { IsAscending self.old }
        requires there { (i : ℕ) × (i < length self.old) × ((entry_at self.old i).uid ≡ uid) }
        requires some { (i : ℕ) → i < length self.old → (entry_at self.old i).uid ≡ uid
            → 0 < (entry_at self.old i).inferiors }
        ensures { self.new ≡ recounted uid (λ n. n - 1) self.old }
    {
        let place = self.place_of(uid);
        self.slots[place as usize].inferiors -= 1;
    }
}

/// Puts the node of a new branch into a free place, or after all others. It is written in its place.
pub(crate) fn store(
    nodes: &mut Vec<Node>,
    free: &mut Vec<u16>,
    uid: u32,
    superior: u32,
    new: NewBranch,
) -> u16
    requires free { (i : ℕ) → i < length free.old.items → slice_index free.old.items i < length nodes.old.items }
    requires room { length free.old.items ≡ 0 → vec_len nodes.old < vec_capacity nodes.old }
    requires count { length nodes.old.items < 2 ^ 16 }
    ensures place { result ≡ place_for nodes.old.items free.old.items }
    ensures here { node_at nodes.new.items result ≡ node_of_new uid superior (as_node new) }
    ensures others { (p : ℕ) → p ≢ result → node_at nodes.new.items p ≡ node_at nodes.old.items p }
    ensures rest { free.new.items ≡ take (length free.old.items - 1) free.old.items }
    ensures count { length nodes.new.items ≡ (if length free.old.items == 0 then length nodes.old.items + 1
        else length nodes.old.items) }
    ensures nodes_room { vec_capacity nodes.new ≡ vec_capacity nodes.old }
    ensures free_room { vec_capacity free.new ≡ vec_capacity free.old }
{
    match free.pop() {
        Some(place) => {
            nodes[place as usize].become_branch(uid, superior, new);
            place
        }
        None => {
            let place = nodes.len() as u16;
            nodes.push_reserved(Node::blank());
            nodes[place as usize].become_branch(uid, superior, new);
            place
        }
    }
}
