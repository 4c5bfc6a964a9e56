//! The machine of several processors, as definitions: what it has between two steps, what a step of a processor does,
//! and the machine after it. They stand in `specs/`, and the laws of them in `proofs/`; there is no code here but the
//! types that they speak of.
#![tactic(auto)]

use assoc_mem::What;
use mnames::Mode;
use processor::Cpu;
use seg_mover::Mover;

/// A processor, and the turn of its process: how many commands it answered since it loaded it, and whether the last of
/// them was a try that didn't end its `await` (Corbató 1968).
#[derive(Drop)]
pub struct Processor {
    pub cpu: Cpu,
    pub count: u64,
    pub tried: bool,
}

/// How far a process has come: the place of its next command; how often it has tried it, where that is an `await`;
/// whether the process has ended (own).
#[derive(Clone, Copy)]
pub struct Run {
    pub place: u32,
    pub tries: u32,
    pub ended: bool,
}

/// A descriptor that the owner's job has cut: its process and number, the segment that it led to, and the mode and
/// length in pages that it had (own).
#[derive(Clone, Copy)]
pub struct CutDescriptor {
    pub process: u32,
    pub number: u32,
    pub uid: u32,
    pub mode: Mode,
    pub pages: u32,
}

impl Default for CutDescriptor {
    fn default() -> Self {
        CutDescriptor {
            process: 0,
            number: 0,
            uid: 0,
            mode: Mode::Null,
            pages: 0,
        }
    }
}

/// What the owner of the supervisor is after with the pages and descriptors that it takes (own).
#[derive(Clone, Copy)]
pub enum Aim {
    /// A page leaves its frame.
    Evicting,
    /// A segment becomes inactive.
    Deactivating { uid: u32 },
    /// A tree command takes effect.
    Committing,
}

/// How far the owner of the supervisor has come (own).
#[derive(Clone, Copy)]
pub enum Phase {
    /// It looks for what its process's next command wants.
    Looking,
    /// It took pages and descriptors, and is to signal this.
    Taken { aim: Aim, what: What },
    /// It signalled this, and waits until every processor has cleared.
    Waiting { aim: Aim, what: What },
    /// It moves a segment to another volume, a page in each step.
    Moving { mover: Mover },
}
