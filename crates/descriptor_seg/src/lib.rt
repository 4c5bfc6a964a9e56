//! The descriptor segment of a process: one segment descriptor word for each segment number, which leads a processor
//! to the page table of the segment, or makes it fault.
//!
//! Costs: `new` takes memory once, for all 256 words. `get` reads one word, and `connect` and `cut` write one.
#![tactic(auto)]

ghost use Rattle.std.specs.Prelude.{◌≡◌, ◌≢◌, ◌<◌, ℕ, length, IfOk};
ghost use Rattle.descriptor_seg.specs.declared.Sdw.TheVariants.{Fault, Present};
ghost use Rattle.descriptor_seg.specs.Descriptors.{sdw_at, all_faults, connected, cut_off};

use mnames::Mode;
pub use no_memory::NoMemory;
use std::alloc::Global;
use std::marker::Model;

/// How many segment numbers a process has.
const NUMBERS: usize = 256;

/// A segment descriptor word (Bensoussan, Clingen and Daley 1972).
#[derive(Clone, Copy, PartialEq, Eq)]
pub enum Sdw {
    /// A reference by this number takes a missing-segment fault.
    Fault,
    /// The segment's page table is that of a place of the active segment table.
    Present {
        /// The place.
        aste: u32,
        /// What the process may do to the segment.
        mode: Mode,
        /// The segment's length in pages.
        pages: u32,
    },
}

/// The descriptor segment of a process, seen as the list of its 256 words by segment number (Bensoussan, Clingen and
/// Daley 1972).
#[derive(Drop)]
pub struct DescSeg {
    words: Vec<Sdw>,
}

impl Model for DescSeg {
    ghost use Rattle.std.specs.Prelude.{◌≡◌, List, length};
    ghost use Rattle.descriptor_seg.specs.declared.Sdw.{Sdw};

    ghost Value = { List Sdw };

    ghost view = { λ d. d.words.items };

    ghost invariant = { λ d. length d.words.items ≡ 256 };
}

impl DescSeg {
    /// A descriptor segment in which every number faults. Answers `NoMemory` where its words can't be had.
    pub fn new(alloc: Global) -> Result<DescSeg, NoMemory>
        ensures { IfOk result (λ d. d ≡ all_faults) }
    {
        let words = vec![in alloc; Sdw::Fault; NUMBERS]?;
        Ok(DescSeg { words })
    }

    /// The word of segment number `n`.
    pub fn get(&self, n: u32) -> Sdw
        requires { n < 256 }
        ensures word { result ≡ sdw_at self.now n }
        ensures size { length self.now ≡ 256 }
    {
        self.words[n as usize]
    }

    /// Segment number `n` leads to the page table of place `aste` from now on, with access `mode` and a length of
    /// `pages` pages.
    pub fn connect(&mut self, n: u32, aste: u32, mode: Mode, pages: u32)
        requires { n < 256 }
        ensures words { self.new ≡ connected self.old n aste mode pages }
        ensures word { sdw_at self.new n ≡ Present aste mode pages }
        ensures others { (m : ℕ) → m ≢ n → sdw_at self.new m ≡ sdw_at self.old m }
    {
        self.words[n as usize] = Sdw::Present { aste, mode, pages };
    }

    /// Segment number `n` faults from now on.
    pub fn cut(&mut self, n: u32)
        requires { n < 256 }
        ensures words { self.new ≡ cut_off self.old n }
        ensures word { sdw_at self.new n ≡ Fault }
        ensures others { (m : ℕ) → m ≢ n → sdw_at self.new m ≡ sdw_at self.old m }
    {
        self.words[n as usize] = Sdw::Fault;
    }
}
