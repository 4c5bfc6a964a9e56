//! The traffic controller's ready list: the processes that want a processor, first come, first served.
#![tactic(auto)]

ghost use Rattle.std.specs.Prelude.{◌≡◌, ◌<◌, ◌↔◌, [], ◌∷◌, drop, length, IsTrue, IsNone, IfOk, IfSome, IfNone};
ghost use Rattle.traffic.specs.Queue.{empty_queue, with_last, without_front};

use circular_buffer::HeapCircularBuffer;
pub use no_memory::NoMemory;
use std::alloc::Global;
use std::marker::Model;

/// The processes that are ready to run, in the order in which they came (Corbató 1968).
///
/// Contracts see it as the list of process numbers, the front first, and the number of processes for which there is
/// room. The room is taken once, so no later call takes memory.
#[derive(Drop)]
pub struct Ready {
    queue: HeapCircularBuffer<u32>,
}

impl Model for Ready {
    ghost use Rattle.traffic.specs.Queue.{Queue};

    ghost Value = { Queue };

    ghost view = { λ r. record { waiting = r.queue.items; room = r.queue.capacity } };
}

impl Ready {
    /// An empty ready list with room for `processes` processes, each of which is in it at most once at a time.
    ///
    /// Answers `NoMemory` where the room can't be had.
    pub fn new(alloc: Global, processes: u32) -> Result<Ready, NoMemory>
        ensures { IfOk result (λ ready. ready ≡ empty_queue processes) }
    {
        let queue = HeapCircularBuffer::with_capacity(alloc, processes as usize)?;
        Ok(Ready { queue })
    }

    /// The process at the front of the list, which stays there; `None` exactly where nobody is ready.
    ///
    /// Costs the same however long the list is.
    pub fn front(&self) -> Option<u32>
        ensures front { IfSome result (λ k. self.now.waiting ≡ k ∷ drop 1 self.now.waiting) }
        ensures empty { IfNone result (self.now.waiting ≡ []) }
    {
        self.queue.front().copied()
    }

    /// Takes the process at the front out of the list and gives its number; `None` where nobody is ready.
    ///
    /// Costs the same however long the list is.
    pub fn next(&mut self) -> Option<u32>
        ensures empty { IsNone result ↔ (self.old.waiting ≡ []) }
        ensures front { IfSome result (λ k. self.old.waiting ≡ k ∷ self.new.waiting) }
        ensures rest { self.new ≡ without_front self.old }
    {
        self.queue.pop_front()
    }

    /// Puts process `k` at the end of the list. Costs the same however long the list is.
    pub fn enter(&mut self, k: u32)
        requires room { length self.old.waiting < self.old.room }
        ensures last { self.new ≡ with_last self.old k }
    {
        match self.queue.try_push_back(k) {
            Ok(()) => {}
            Err(_) => unreachable!(),
        }
    }

    /// Whether nobody is ready.
    pub fn is_empty(&self) -> bool
        ensures { IsTrue result ↔ (self.now.waiting ≡ []) }
    {
        self.queue.is_empty()
    }
}
