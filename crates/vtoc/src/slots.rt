ghost use Rattle.std.specs.Prelude.{◌≡◌, ◌<◌, ◌^◌, ◌-◌, ℕ, true, None, Some, length, replicate, slice_set, is_some, IfOk};
ghost use Rattle.std.specs.Option.{ForSome};
ghost use Rattle.vtoc.specs.Slots.{free_slot, slot_at};

use crate::NoMemory;
use crate::file_map::FileMap;
use std::alloc::Global;
use std::marker::Model;

/// The place of one entry. It is free where it has no uid, and its map is empty then.
#[derive(Drop)]
pub(crate) struct Slot {
    pub(crate) uid: Option<u32>,
    pub(crate) map: FileMap,
}

/// A list of slots, with room for all, of which those that were ever used are held. The others are free.
#[derive(Drop)]
pub(crate) struct Slots {
    held: Vec<Slot>,
    size: u32,
}

impl Model for Slots {
    ghost use Rattle.std.specs.Prelude.{List, vec_capacity};
    ghost use Rattle.vtoc.specs.declared.slots.Slot.{Slot};
    ghost use Rattle.vtoc.specs.Slots.{slots_of, AreRoomy};

    ghost Value = { List Slot };

    ghost view = { λ slots. slots_of slots.held.items slots.size };

    ghost invariant = { λ slots. AreRoomy slots.held.items slots.size (vec_capacity slots.held) };
}

impl Slots {
    /// As many free slots. `NoMemory` is want of memory.
    pub(crate) fn new(alloc: Global, size: u32) -> Result<Slots, NoMemory>
        ensures { IfOk result (λ slots. slots ≡ replicate size free_slot) }
    {
        let held = Vec::with_capacity(alloc, size as usize)?;
        Ok(Slots { held, size })
    }

    /// How many slots there are.
    pub(crate) fn size(&self) -> u32
        ensures { result ≡ length self.now }
    {
        self.size
    }

    /// The uid of slot `e`.
    pub(crate) fn uid(&self, e: u32) -> Option<u32>
        requires { e < length self.now }
        ensures { result ≡ (slot_at self.now e).uid }
    {
        match self.held.get(e as usize) {
            Some(slot) => slot.uid,
            None => None,
        }
    }

    /// The slot `e`, which has a uid.
    pub(crate) fn used(&self, e: u32) -> &Slot
        requires { is_some (slot_at self.now e).uid ≡ true }
        ensures { result.now ≡ slot_at self.now e }
    {
        &self.held[e as usize]
    }

    /// Gives slot `e` a uid, where each before it has one.
    pub(crate) fn give(&mut self, e: u32, uid: u32)
        requires within { e < length self.old }
        requires before { (k : ℕ) → k < e → is_some (slot_at self.old k).uid ≡ true }
        ensures { self.new ≡ slice_set self.old e (record { uid = Some uid; map = (slot_at self.old e).map }) }
    {
        if (e as usize) < self.held.len() {
            self.held[e as usize].uid = Some(uid);
        } else {
            self.held.push_reserved(Slot {
                uid: Some(uid),
                map: FileMap::new(),
            });
        }
    }

    /// Takes the uid of slot `e`, which has one, from it.
    pub(crate) fn clear(&mut self, e: u32)
        requires { is_some (slot_at self.old e).uid ≡ true }
        ensures { self.new ≡ slice_set self.old e (record { uid = None; map = (slot_at self.old e).map }) }
    {
        self.held[e as usize].uid = None;
    }

    /// Names `r` as the record of page `p` in the map of slot `e`, which has a uid.
    pub(crate) fn put(&mut self, e: u32, p: u32, r: Option<u32>)
        requires used { is_some (slot_at self.old e).uid ≡ true }
        requires page { p < 256 }
        requires record { ForSome r (λ r. r < 2 ^ 16 - 1) }
        ensures { self.new ≡ slice_set self.old e (record {
          uid = (slot_at self.old e).uid;
          map = slice_set (slot_at self.old e).map p r;
        }) }
    {
        self.held[e as usize].map.put(p, r);
    }
}
