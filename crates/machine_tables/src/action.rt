//! What a processor does in a step.

use assoc_mem::What;
use book::Reply;
use processor::Transfer;
use script::Reference;
use seg_mover::Mover;

/// What a step of a processor waits for (own).
#[derive(Clone, Copy, PartialEq, Eq)]
pub enum Why {
    /// This processor owns the supervisor.
    ForOwner(u32),
    /// This processor is to drop something first.
    ForClear(u32),
    /// A page is being read into this frame.
    ForTransfer(u32),
    /// No process is ready, and so many processors have one.
    WhileIdle(u32),
}

/// What a processor does in its next step (Bensoussan, Clingen and Daley 1972; Corbató 1968; the steps are own).
///
/// It names no list: what a job takes is told by the command that it is for, or by the segment.
#[derive(Clone, Copy)]
pub enum Action {
    /// Nothing: the machine was stopped.
    IsStopped,
    /// Nothing: no process is ready or running.
    HasEnded,
    /// Nothing: something must come first.
    Waits(Why),
    /// It takes part from now on.
    Online,
    /// It drops what it is to drop.
    Clear(What),
    /// Its transfer ends.
    EndTransfer(Transfer),
    /// It loads this process, which is at the front of the ready list.
    Load(u32),
    /// It gives its process up.
    Leave,
    /// It takes in the descriptor of a number.
    FillSeg(u32),
    /// It takes in the page table word of a reference's page, which is in this frame.
    FillPage(u32, Reference),
    /// It reads or writes the word of a reference in this frame.
    Through(u32, Reference),
    /// Its process is answered, and no frame is looked at.
    Plain(Reply),
    /// It owns the supervisor from now on.
    TakeSupervisor,
    /// Its process is answered, and the supervisor given up.
    Answer(Reply),
    /// The supervisor is given up.
    GiveUp,
    /// A segment becomes active in a place.
    Activate {
        /// The segment.
        uid: u32,
        /// The place.
        place: u32,
    },
    /// A number of its process leads to an active segment.
    Connect {
        /// The number.
        number: u32,
        /// The segment.
        uid: u32,
    },
    /// A page is made in a free frame for a reference that writes.
    Create {
        /// The frame.
        frame: u32,
        /// The segment.
        uid: u32,
        /// The page.
        page: u32,
        /// The reference.
        reference: Reference,
    },
    /// A page is being read into a free frame from now on.
    Start {
        /// The frame.
        frame: u32,
        /// The segment.
        uid: u32,
        /// The page.
        page: u32,
    },
    /// The page in the clock's choice of a frame is taken.
    Evict,
    /// What a segment has in use is taken, so that it becomes inactive.
    Empty(u32),
    /// The same of the victim of a full pool, for the chain of superiors of a segment.
    EmptyVictim {
        /// The pool.
        pool: u32,
        /// The segment whose chain is to become active.
        of: u32,
        /// The victim.
        uid: u32,
    },
    /// What a tree command must have out of use is taken.
    TakeAway,
    /// A segment begins to move to a volume that has room for it.
    BeginMove {
        /// The segment.
        uid: u32,
        /// The volume.
        volume: u32,
    },
    /// A page of a segment that moves is copied.
    CopyPage {
        /// The move.
        mover: Mover,
        /// The page.
        page: u32,
    },
    /// A segment of which each page is copied has its home on the other volume.
    CommitMove(Mover),
    /// The other processors are told what to drop.
    Signal(What),
    /// The page in a frame leaves it, and the look is made again.
    FinishEviction(u32),
    /// The page in a frame leaves it.
    FinishPage(u32),
    /// A segment becomes inactive of which everything was taken.
    Deactivate(u32),
    /// A tree command takes effect.
    Commit,
}
