//! What a pass has beside its seat. The passes of `live_pages` have the same.
ghost use Rattle.std.specs.Prelude.{◌≡◌, ◌*◌, ◌%◌, ◌<◌, ◌↔◌, length, replicate, slice_index_or, IsTrue, IfOk, IfErr};
ghost use Rattle.std.specs.Prelude.{ℕ, Some, None};
ghost use Rattle.live_doors.specs.Beside.{no_entries, entered};
ghost use Rattle.live_doors.specs.Steps.{ack_at};

use crate::errors::Closed;
use crate::words::acknowledgement_word;
use std::alloc::{AllocError, Global};
use std::marker::Model;

/// The entries of a processor, each of the binding that its frame's door admitted, and the stamp that was read last.
#[derive(Drop)]
pub struct Entries {
    cpu: u32,
    held: Vec<Option<u64>>,
    stamp: u64,
}

impl Model for Entries {
    ghost use Rattle.live_doors.specs.Beside.{EntryRows};

    ghost Value = { EntryRows };

    ghost view = { λ e. record { cpu = e.cpu; held = e.held.items; stamp = e.stamp } };
}

impl Entries {
    /// No entry of so many frames, and stamp 0. Takes memory for an entry a frame.
    pub fn none(alloc: Global, frames: u32, cpu: u32) -> Result<Entries, AllocError>
        ensures { IfOk result (λ entries. entries ≡ no_entries frames cpu) }
    {
        let held = vec![in alloc; None; frames as usize]?;
        Ok(Entries {
            cpu,
            held,
            stamp: 0,
        })
    }

    /// The word of the processor's acknowledgement, where there are so many frames, and the stamp that was read last.
    pub fn acknowledgement(&self, frames: u32) -> (usize, u64)
        ensures { result ≡ (ack_at frames self.now.cpu, self.now.stamp) }
    {
        (acknowledgement_word(frames, self.cpu), self.stamp)
    }

    /// Whether there is an entry of frame `f`.
    pub fn holds(&self, f: u32) -> bool
        requires { f < length self.now.held }
        ensures { IsTrue result ↔ ((b : ℕ) × (slice_index_or self.now.held f None ≡ Some b)) }
    {
        self.held[f as usize].is_some()
    }

    /// Enters frame `f` by its door's word, if that is even, and answers the binding, which is half of it.
    pub fn enter(&mut self, f: u32, word: u64) -> Result<u64, Closed>
        requires { f < length self.old.held }
        ensures entries { self.new ≡ entered f word self.old }
        ensures bound { IfOk result (λ b. word ≡ 2 * b) }
        ensures closed { IfErr result (λ e. (e.word ≡ word) × (word % 2 ≡ 1)) }
    {
        if word % 2 == 1 {
            return Err(Closed { word });
        }
        let binding = word / 2;
        self.held[f as usize] = Some(binding);
        Ok(binding)
    }

    /// Drops every entry, keeps the stamp, and answers it.
    pub fn forget(&mut self, stamp: u64) -> u64
        ensures stamp { result ≡ stamp }
        ensures entries { self.new
            ≡ record self.old { held = replicate (length self.old.held) None; stamp = stamp } }
    {
        self.stamp = stamp;
        self.held.fill(None);
        stamp
    }
}
