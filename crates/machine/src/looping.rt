//! The loops that make a machine end: over the steps of a job, over those of a command, and over all commands.

ghost use Rattle.std.specs.Prelude.{◌≡◌, ◌<◌, ℕ, true, false, position, is_some, IfNone, IfOk, IfSome, List, None};
ghost use Rattle.std.specs.Prelude.{OnErr, OnOk};
ghost use Rattle.machine_model.specs.Actions.{has_process, is_over};
ghost use Rattle.machine_model.specs.Looping.{CommandDone, IsReader, JobDone, JobFell, RoundDone};
ghost use Rattle.machine_model.specs.Outlined.{outline_of};
ghost use Rattle.machine_model.specs.Promise.{KeepsAll};
ghost use Rattle.machine_model.specs.Reads.{cpu_at, processor_at};
ghost use Rattle.machine_model.specs.Rounds.{IsOwnedBy};
ghost use Rattle.machine.specs.declared.turn.Turn.TheVariants.{Waits};
ghost use Rattle.machine.specs.Schedules.{Grows, HasRun, HasStood};
ghost use Rattle.machine.specs.Turns.{KeepsParts};
ghost use Rattle.machine.specs.Looped.{HasGone, HasMoved, HasStalled, HasTurned, MayWait, WaitsFor, is_still_at};
ghost use Rattle.machine.specs.Looped.{reads_into};

use crate::machine::Machine;
use crate::turn::Turn;
use machine_model::Processor;
use machine_tables::{NoMemory, Why};
use volumes::Drive;

/// Whether a processor reads a page into a frame.
fn reads_into(processor: &Processor, frame: u32) -> bool
    ensures { result ≡ reads_into frame processor.now }
{
    match processor.cpu.transfer {
        Some(transfer) => transfer.frame == frame,
        None => false,
    }
}

/// The first processor that reads a page into a frame.
fn first_reader(processors: &[Processor], frame: u32) -> Option<usize>
    ensures { result ≡ position (reads_into frame) processors.now }
{
    processors
        .iter()
        .position(|processor| reads_into(processor, frame))
}

/// The first processor that has a process.
fn first_busy(processors: &[Processor]) -> Option<usize>
    ensures { result ≡ position has_process processors.now }
{
    processors
        .iter()
        .position(|processor| processor.cpu.process.is_some())
}

impl<D: Drive> Machine<D> {
    /// What the machine promises between any two steps. It does nothing.
    pub(crate) fn promise(&self)
        ensures { KeepsAll self.now.state }
    {
        let _ = &self.tables;
    }

    /// The processor that owns the supervisor.
    fn owner(&self) -> Option<u32>
        ensures some { IfSome result (λ c. IsOwnedBy self.now.state c) }
        ensures none { IfNone result (self.now.state.owner ≡ None) }
    {
        self.tables.owner()
    }

    /// The processor that reads a page into a frame.
    fn reader_of(&self, frame: u32) -> u32
        requires { (d : ℕ) × IsReader (outline_of self.now.state) frame d }
        ensures { IsReader (outline_of self.now.state) frame result }
    {
        match first_reader(self.tables.processors(), frame) {
            Some(reader) => reader as u32,
            None => unreachable!(),
        }
    }

    /// The first processor that has a process.
    fn first_running(&self) -> Option<u32>
        ensures { result ≡ position has_process self.now.state.processors }
    {
        let _most = self.tables.book().script().processors();
        Some(first_busy(self.tables.processors())? as u32)
    }

    /// How many commands processor `c` has answered since it loaded its process.
    fn count(&self, c: u32) -> u64
        requires { c < self.now.state.plan.processors }
        ensures { result ≡ (processor_at self.now.state.processors c).count }
    {
        self.tables.processors()[c as usize].count
    }

    /// Whether processor `c` has its process still, and has answered so many commands since it loaded it.
    fn is_still_at(&self, c: u32, since: u64) -> bool
        requires { c < self.now.state.plan.processors }
        ensures is { result ≡ is_still_at since (processor_at self.now.state.processors c) }
        ensures kept { KeepsAll self.now.state }
    {
        let processor = &self.tables.processors()[c as usize];
        processor.cpu.process.is_some() && processor.count == since
    }
}

impl<D: Drive> Machine<D> {
    /// Processor `c` makes its step, with room for its entries.
    fn turn(&mut self, c: u32) -> Result<Turn, NoMemory>
        requires { c < self.old.state.plan.processors }
        ensures gone { OnOk result (HasGone D.plan D.places D.faults self.old self.new) }
        ensures stalled { OnErr result (HasStalled D.plan D.places D.faults self.old self.new) }
        ensures turned { IfOk result (λ answer. HasTurned self.old.state self.new.state c answer) }
    {
        self.promise();
        self.reserve()?;
        let answer = self.step(c);
        self.promise();
        Ok(answer)
    }

    /// The processor for which the owner of the supervisor waits, processor `c`: one that is to clear, or that reads.
    fn awaited_by(&self, c: u32, why: Why) -> u32
        requires { MayWait self.now.state c (Waits why) }
        ensures { WaitsFor self.now.state c (Waits why) result }
    {
        self.promise();
        match why {
            Why::ForClear(late) => late,
            Why::ForTransfer(frame) => self.reader_of(frame),
            Why::ForOwner(_) | Why::WhileIdle(_) => unreachable!(),
        }
    }

    /// The processor for which the owner of the supervisor waits, processor `c`, where its step didn't move.
    fn awaited(&self, c: u32, answer: Turn) -> Option<u32>
        requires { MayWait self.now.state c answer }
        ensures some { IfSome result (λ d. WaitsFor self.now.state c answer d) }
        ensures none { IfNone result (HasMoved answer) }
    {
        match answer {
            Turn::Waits(why) => Some(self.awaited_by(c, why)),
            _ => None,
        }
    }
}

impl<D: Drive> Machine<D> {
    /// The owner of the supervisor, processor `c`, makes its step; the processor for which it waits makes its own.
    fn job_turn(&mut self, c: u32) -> Result<(), NoMemory>
        requires on { self.old.state.stopped ≡ false }
        requires owner { IsOwnedBy self.old.state c }
        ensures gone { OnOk result (HasGone D.plan D.places D.faults self.old self.new) }
        ensures stalled { OnErr result (HasStalled D.plan D.places D.faults self.old self.new) }
        ensures fell { OnOk result (JobFell (outline_of self.old.state) (outline_of self.new.state) c) }
    {
        self.promise();
        let answer = self.turn(c)?;
        match self.awaited(c, answer) {
            Some(late) => {
                self.turn(late)?;
                Ok(())
            }
            None => Ok(()),
        }
    }

    /// Steps the owner of the supervisor, processor `c`, until its job is over.
    fn finish_job(&mut self, c: u32) -> Result<(), NoMemory>
        requires on { self.old.state.stopped ≡ false }
        requires owner { IsOwnedBy self.old.state c }
        ensures gone { OnOk result (HasGone D.plan D.places D.faults self.old self.new) }
        ensures stalled { OnErr result (HasStalled D.plan D.places D.faults self.old self.new) }
        ensures done { OnOk result (JobDone (outline_of self.old.state) (outline_of self.new.state) c) }
    {
        while let Some(owner) = self.owner() {
            self.job_turn(owner)?;
        }
        Ok(())
    }
}

impl<D: Drive> Machine<D> {
    /// Processor `c`, which has a process, makes its step while nobody owns the supervisor, and steps on until nobody
    /// does.
    fn command_turn(&mut self, c: u32) -> Result<(), NoMemory>
        requires on { self.old.state.stopped ≡ false }
        requires free { self.old.state.owner ≡ None }
        requires runs { is_some (cpu_at self.old.state.processors c).process ≡ true }
        ensures gone { OnOk result (HasGone D.plan D.places D.faults self.old self.new) }
        ensures stalled { OnErr result (HasStalled D.plan D.places D.faults self.old self.new) }
        ensures done { OnOk result (CommandDone (outline_of self.old.state) (outline_of self.new.state) c) }
    {
        self.promise();
        self.turn(c)?;
        match self.owner() {
            Some(owner) => self.finish_job(owner),
            None => Ok(()),
        }
    }

    /// Steps processor `c` until its next command is answered, or it has left its process.
    fn finish_command(&mut self, c: u32) -> Result<(), NoMemory>
        requires on { self.old.state.stopped ≡ false }
        requires free { self.old.state.owner ≡ None }
        requires runs { is_some (cpu_at self.old.state.processors c).process ≡ true }
        ensures gone { OnOk result (HasGone D.plan D.places D.faults self.old self.new) }
        ensures stalled { OnErr result (HasStalled D.plan D.places D.faults self.old self.new) }
        ensures done { OnOk result (RoundDone (outline_of self.old.state) (outline_of self.new.state)) }
    {
        self.promise();
        let since = self.count(c);
        while self.is_still_at(c, since) {
            self.command_turn(c)?;
        }
        Ok(())
    }
}

impl<D: Drive> Machine<D> {
    /// A command of the least processor that has a process; where none has, processor 0 makes its step.
    fn finish_round(&mut self) -> Result<(), NoMemory>
        requires on { self.old.state.stopped ≡ false }
        requires free { self.old.state.owner ≡ None }
        requires more { is_over self.old.state ≡ false }
        ensures gone { OnOk result (HasGone D.plan D.places D.faults self.old self.new) }
        ensures stalled { OnErr result (HasStalled D.plan D.places D.faults self.old self.new) }
        ensures done { OnOk result (RoundDone (outline_of self.old.state) (outline_of self.new.state)) }
    {
        self.promise();
        match self.first_running() {
            Some(c) => self.finish_command(c),
            None => {
                self.turn(0)?;
                Ok(())
            }
        }
    }

    /// Steps the owner of the supervisor, if there is one, until its job is over.
    fn settle(&mut self) -> Result<(), NoMemory>
        requires { self.old.state.stopped ≡ false }
        ensures gone { OnOk result (HasGone D.plan D.places D.faults self.old self.new) }
        ensures stalled { OnErr result (HasStalled D.plan D.places D.faults self.old self.new) }
        ensures free { OnOk result (self.new.state.owner ≡ None) }
    {
        match self.owner() {
            Some(owner) => self.finish_job(owner),
            None => Ok(()),
        }
    }

    /// Steps processors until no process is ready or running.
    fn finish_all(&mut self) -> Result<(), NoMemory>
        requires { self.old.state.stopped ≡ false }
        ensures gone { OnOk result (HasGone D.plan D.places D.faults self.old self.new) }
        ensures stalled { OnErr result (HasStalled D.plan D.places D.faults self.old self.new) }
        ensures ended { OnOk result (is_over self.new.state ≡ true) }
    {
        self.settle()?;
        while !self.ended() {
            self.finish_round()?;
        }
        Ok(())
    }

    /// Steps processors until no process is ready or running, and makes room for the entries of each step: the owner of
    /// the supervisor, else the least processor that has a process, else processor 0; and one for which the owner
    /// waits. It ends for every machine that wasn't stopped. (Source: own.)
    ///
    /// # Errors
    /// `NoMemory` is want of memory. The steps that were made stand, and once `reserve` answers Ok they can go on.
    pub fn finish(&mut self) -> Result<(), NoMemory>
        requires { self.old.state.stopped ≡ false }
        ensures ended { OnOk result (is_over self.new.state ≡ true) }
        ensures run { OnOk result ((cpus : List ℕ) × (moved : ℕ)
            × HasRun D.plan D.places D.faults self.old self.new cpus moved) }
        ensures stood { OnErr result ((cpus : List ℕ) × HasStood D.plan D.places D.faults self.old self.new cpus) }
        ensures entries { Grows self.old.state.entries self.new.state.entries }
        ensures kept { KeepsParts D.plan D.places D.faults self.old self.new }
        ensures on { self.new.state.stopped ≡ false }
    {
        self.finish_all()
    }
}
