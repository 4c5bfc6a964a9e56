ghost use Rattle.std.specs.Prelude.{◌≡◌, ◌<◌, ◌^◌, ◌+◌, length, None, replicate, nat_lt, slice_index_or, IfOk};
ghost use Rattle.bulk_store.specs.Held.{oldest_of};
ghost use Rattle.bulk_store.specs.Index.{empty_index, with_record, without_oldest};

use crate::NoMemory;
use circular_buffer::HeapCircularBuffer;
use std::alloc::Global;
use std::marker::Model;

/// A record whose page the fast store holds, and the place of the page there. (Source: own.)
#[derive(Clone, Copy)]
pub struct Held {
    /// The number of the record.
    pub number: u32,
    /// The number of the fast store's page that has it.
    pub place: u32,
}

/// The records that a fast store holds, the oldest first, with an index by record. (Source: own.)
#[derive(Drop)]
pub(crate) struct Index {
    held: HeapCircularBuffer<Held>,
    places: Vec<Option<u32>>,
    free: u32,
    used: u32,
}

impl Model for Index {
    ghost use Rattle.bulk_store.specs.Index.{Holdings};

    ghost Value = { Holdings };

    ghost view = { λ t. record {
      held = t.held.items;
      room = t.held.capacity;
      places = t.places.items;
      free = t.free;
      used = t.used;
    } };
}

impl Index {
    /// Nothing is held, with so many places for so many records. `NoMemory` is want of memory.
    pub(crate) fn new(alloc: Global, room: u32, records: u32) -> Result<Index, NoMemory>
        ensures { IfOk result (λ t. t ≡ empty_index room records) }
    {
        Ok(Index {
            held: HeapCircularBuffer::with_capacity(alloc, room as usize)?,
            places: vec![in alloc; None; records as usize]?,
            free: 0,
            used: 0,
        })
    }

    /// The place of record `r`, if it is held. It reads the index.
    pub(crate) fn place(&self, r: u32) -> Option<u32>
        ensures { result ≡ slice_index_or self.now.places r None }
    {
        match self.places.get(r as usize) {
            Some(place) => *place,
            None => None,
        }
    }

    /// Whether a place is free. It compares two numbers.
    pub(crate) fn has_free_place(&self) -> bool
        ensures { result ≡ nat_lt (length self.now.held) self.now.room }
    {
        self.held.len() < self.held.capacity()
    }

    /// The least free place, or the number of places where none is free. It reads a number.
    pub(crate) fn free_place(&self) -> u32
        ensures { result ≡ self.now.free }
    {
        self.free
    }

    /// The record that came in first, with its place. It reads the front of the list.
    pub(crate) fn oldest(&self) -> Held
        requires { 0 < length self.now.held }
        ensures { result ≡ oldest_of self.now.held }
    {
        match self.held.front() {
            Some(oldest) => *oldest,
            None => unreachable!(),
        }
    }

    /// Puts record `r` into the least free place, as the newest. It changes the list's end and one entry of the index.
    pub(crate) fn add(&mut self, r: u32)
        requires record { r < length self.old.places }
        requires room { length self.old.held < self.old.room }
        requires place { self.old.free + 1 < 2 ^ 32 }
        ensures { self.new ≡ with_record self.old r }
    {
        let place = self.free;
        match self.held.try_push_back(Held { number: r, place }) {
            Ok(()) => {}
            Err(_) => unreachable!(),
        }
        self.places[r as usize] = Some(place);
        self.used = self.used.max(place + 1);
        self.free = self.used;
    }

    /// Takes the oldest out, so that its place is free. It changes the list's front and one entry of the index.
    pub(crate) fn give_up_oldest(&mut self)
        requires some { 0 < length self.old.held }
        requires record { (oldest_of self.old.held).number < length self.old.places }
        ensures { self.new ≡ without_oldest self.old }
    {
        match self.held.pop_front() {
            Some(oldest) => {
                self.places[oldest.number as usize] = None;
                self.free = oldest.place;
            }
            None => unreachable!(),
        }
    }
}
