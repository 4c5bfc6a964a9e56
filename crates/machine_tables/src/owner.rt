ghost use Rattle.std.specs.Prelude.{◌≡◌, ◌<◌, ◌∷◌, [], drop, length, Some, None, IfOk, IfSome, IfNone, slice_get};
ghost use Rattle.machine_model.specs.Jobs.{owner_signalled, without_first_cut, without_first_frame};
ghost use Rattle.machine_model.specs.Moves.{moving};
ghost use Rattle.machine_model.specs.Reads.{cut_of_owner, frames_of_owner};
ghost use Rattle.machine_model.specs.Steps.{looking};
ghost use Rattle.machine_tables.specs.Owned.{HasOwner, owner_of, took_cut, took_frame};

use crate::tables::NoMemory;
use assoc_mem::What;
use circular_buffer::HeapCircularBuffer;
use machine_model::{Aim, CutDescriptor, Phase};
use seg_mover::Mover;
use std::alloc::Global;
use std::marker::Model;

/// How many frames a job takes at the most, and how many descriptors it cuts: the pages of a segment, and the numbers
/// of a process.
const MOST: usize = 256;

/// The owner of the supervisor, if there is one, and its job: the processor, how far it has come, and the frames that
/// it took and the descriptors that it cut, in the order in which it came to them (own).
#[derive(Drop)]
pub struct Job {
    holder: Option<Holder>,
    frames: HeapCircularBuffer<u32>,
    cut: HeapCircularBuffer<CutDescriptor>,
}

/// The processor that owns the supervisor, and how far its job has come (own).
#[derive(Clone, Copy)]
pub struct Holder {
    /// The processor.
    pub cpu: u32,
    /// How far its job has come.
    pub phase: Phase,
}

impl Model for Job {
    ghost use Rattle.std.specs.Prelude.{Option, ◌≡◌};
    ghost use Rattle.machine_model.specs.State.{Owner};
    ghost use Rattle.machine_tables.specs.Owned.{owner_of};

    ghost Value = { Option Owner };

    ghost view = { λ j. owner_of j.holder j.frames.items j.cut.items };

    ghost invariant = { λ j. (j.frames.capacity ≡ 256) × (j.cut.capacity ≡ 256) };
}

impl Job {
    /// Nobody owns the supervisor. It takes all the memory that a job ever has.
    ///
    /// # Errors
    /// `NoMemory` is want of memory.
    pub(crate) fn none(alloc: Global) -> Result<Job, NoMemory>
        ensures { IfOk result (λ j. j ≡ None) }
    {
        let frames = HeapCircularBuffer::with_capacity(alloc, MOST)?;
        let cut = HeapCircularBuffer::with_capacity(alloc, MOST)?;
        Ok(Job {
            holder: None,
            frames,
            cut,
        })
    }

    /// The processor that owns the supervisor, and how far its job has come.
    pub(crate) fn holder(&self) -> Option<Holder>
        ensures some { IfSome result (λ h. self.now
            ≡ owner_of (Some h) (frames_of_owner self.now) (cut_of_owner self.now)) }
        ensures none { IfNone result (self.now ≡ None) }
    {
        self.holder
    }

    /// The first frame that the owner took; `None` exactly where there is none.
    pub(crate) fn first_frame(&self) -> Option<u32>
        requires { HasOwner self.now }
        ensures front { IfSome result (λ f. frames_of_owner self.now ≡ f ∷ drop 1 (frames_of_owner self.now)) }
        ensures empty { IfNone result (frames_of_owner self.now ≡ []) }
    {
        self.frames.front().copied()
    }

    /// A processor owns the supervisor from now on, and looks.
    pub(crate) fn begin(&mut self, cpu: u32)
        ensures { self.new ≡ Some (looking cpu) }
    {
        self.frames.clear();
        self.cut.clear();
        self.holder = Some(Holder {
            cpu,
            phase: Phase::Looking,
        });
    }

    /// A processor owns the supervisor from now on, and moves a segment.
    pub(crate) fn move_on(&mut self, cpu: u32, mover: Mover)
        ensures { self.new ≡ Some (moving cpu mover) }
    {
        self.frames.clear();
        self.cut.clear();
        self.holder = Some(Holder {
            cpu,
            phase: Phase::Moving { mover },
        });
    }

    /// Nobody owns the supervisor from now on.
    pub(crate) fn end(&mut self)
        ensures { self.new ≡ None }
    {
        self.holder = None;
    }

    /// The other processors were told what to drop.
    pub(crate) fn signal(&mut self)
        ensures { self.new ≡ owner_signalled self.old }
    {
        if let Some(
            Holder {
                cpu,
                phase: Phase::Taken { aim, what },
            },
        ) = self.holder
        {
            self.holder = Some(Holder {
                cpu,
                phase: Phase::Waiting { aim, what },
            });
        }
    }

    /// The owner took a frame more.
    pub(crate) fn add_frame(&mut self, cpu: u32, aim: Aim, what: What, frame: u32)
        requires owner { HasOwner self.old }
        requires few { length (frames_of_owner self.old) < 256 }
        ensures { self.new ≡ took_frame self.old cpu aim what frame }
    {
        self.holder = Some(Holder {
            cpu,
            phase: Phase::Taken { aim, what },
        });
        let _full = self.frames.push_back(frame);
    }

    /// The owner cut a descriptor more.
    pub(crate) fn add_cut(&mut self, cpu: u32, aim: Aim, what: What, cut: CutDescriptor)
        requires owner { HasOwner self.old }
        requires few { length (cut_of_owner self.old) < 256 }
        ensures { self.new ≡ took_cut self.old cpu aim what cut }
    {
        self.holder = Some(Holder {
            cpu,
            phase: Phase::Taken { aim, what },
        });
        let _full = self.cut.push_back(cut);
    }

    /// The first frame that the owner took, which it hasn't taken any more then; `None` exactly where there is none.
    pub(crate) fn next_frame(&mut self) -> Option<u32>
        requires { HasOwner self.old }
        ensures first { result ≡ slice_get (frames_of_owner self.old) 0 }
        ensures rest { self.new ≡ without_first_frame self.old }
    {
        self.frames.pop_front()
    }

    /// The first descriptor that the owner cut, which it hasn't cut any more then; `None` exactly where there is none.
    pub(crate) fn next_cut(&mut self) -> Option<CutDescriptor>
        requires { HasOwner self.old }
        ensures first { result ≡ slice_get (cut_of_owner self.old) 0 }
        ensures rest { self.new ≡ without_first_cut self.old }
    {
        self.cut.pop_front()
    }
}
