//! What a processor does in its next step, by the rules in their order.

ghost use Rattle.std.specs.Prelude.{◌≡◌, ◌<◌, ℕ, length, IsSome, Some, count_by};
ghost use Rattle.std.specs.List.{list_any};
ghost use Rattle.machine_model.specs.Actions.{action_of, by_move, come_to, go_on_with, has_had_its_turn, has_process};
ghost use Rattle.machine_model.specs.Actions.{is_over, load_or_idle, look_of, move_of, own_or_run, run_process};
ghost use Rattle.machine_model.specs.Actions.{take_or_wait};
ghost use Rattle.machine_model.specs.Reads.{cpu_at, cut_of_owner, frames_of_owner, next_command, process_at};
ghost use Rattle.machine_model.specs.Reads.{processor_at};
ghost use Rattle.machine_tables.specs.Held.{AreLong, MayChoose, MayLook};
ghost use Rattle.machine_tables.specs.Meant.{meant, rule_of};
ghost use Rattle.machine_tables.specs.Owned.{owner_by, owner_of};

use crate::action::{Action, Why};
use crate::owner::Holder;
use crate::tables::Tables;
use machine_model::Processor;
use processor::{Cpu, Move, next_move};
use script::Reference;
use volumes::Drive;

/// Whether a process has had its turn: 16 commands, or a try that didn't end its `await`.
fn has_had_its_turn(processor: &Processor) -> bool
    ensures { result ≡ has_had_its_turn processor.now }
{
    16 <= processor.count || processor.tried
}

/// Whether a processor has a process.
fn has_process(processor: &Processor) -> bool
    ensures { result ≡ has_process processor.now }
{
    processor.cpu.process.is_some()
}

/// How many processors have a process.
fn count_busy(processors: &[Processor]) -> usize
    ensures { result ≡ count_by has_process processors.now }
{
    processors
        .iter()
        .filter(|processor| has_process(processor))
        .count()
}

/// Whether a processor has a process.
fn some_busy(processors: &[Processor]) -> bool
    ensures { result ≡ list_any has_process processors.now }
{
    processors.iter().any(|processor| has_process(processor))
}

impl<D: Drive> Tables<D> {
    /// How many processors have a process.
    fn busy(&self) -> u32
        requires { length self.now.state.processors ≡ self.now.state.plan.processors }
        ensures { result ≡ count_by has_process self.now.state.processors }
    {
        let _most = self.book.script().processors();
        count_busy(&self.processors) as u32
    }

    /// Whether no process is ready or running. It goes round the processors. (Source: own.)
    pub fn is_over(&self) -> bool
        ensures { result ≡ is_over self.now.state }
    {
        self.ready.front().is_none() && !some_busy(&self.processors)
    }

    /// Whether no process is ready or running. Where processor `c` has one it looks at no other.
    fn is_over_at(&self, c: u32) -> bool
        requires { c < length self.now.state.processors }
        ensures { result ≡ is_over self.now.state }
    {
        if has_process(self.processor(c)) {
            return false;
        }
        self.is_over()
    }

    /// The front of the ready list is loaded, or there is nothing to do.
    fn load_or_idle(&self) -> Action
        requires { length self.now.state.processors ≡ self.now.state.plan.processors }
        ensures { (k : ℕ) → meant self.now.state k result ≡ load_or_idle self.now.state self.now.state.ready }
    {
        match self.ready.front() {
            Some(process) => Action::Load(process),
            None => Action::Waits(Why::WhileIdle(self.busy())),
        }
    }

    /// The supervisor is taken where nobody owns it.
    fn take_or_wait(&self) -> Action
        ensures { (k : ℕ) → meant self.now.state k result ≡ take_or_wait self.now.state.owner }
    {
        match self.job.holder() {
            Some(holder) => Action::Waits(Why::ForOwner(holder.cpu)),
            None => Action::TakeSupervisor,
        }
    }

    /// A processor.
    pub(crate) fn processor(&self, c: u32) -> &Processor
        requires { c < length self.now.state.processors }
        ensures { result.now ≡ processor_at self.now.state.processors c }
    {
        &self.processors[c as usize]
    }

    /// What a processor holds, and what it has to do.
    fn cpu(&self, c: u32) -> &Cpu
        requires { c < length self.now.state.processors }
        ensures { result.now ≡ cpu_at self.now.state.processors c }
    {
        &self.processor(c).cpu
    }

    /// What a processor does by itself with a reference of its process.
    fn move_by(&self, c: u32, process: u32, reference: &Reference) -> Move
        requires processor { c < length self.now.state.processors }
        requires known { process < length self.now.state.store.links.known }
        requires number { reference.now.number < 256 }
        requires held { AreLong self.now.state.store.ast (cpu_at self.now.state.processors c).assoc }
        ensures { result ≡ move_of self.now.state (cpu_at self.now.state.processors c) process reference.now }
    {
        let segs = self.segs();
        let cpu = self.cpu(c);
        next_move(cpu, segs.descriptors(process), segs.ast(), *reference)
    }

    /// What a processor does with a reference of its process: it may need no supervisor.
    fn refer(&self, c: u32, process: u32, reference: Reference) -> Action
        requires processor { c < length self.now.state.processors }
        requires known { process < length self.now.state.store.links.known }
        requires number { reference.number < 256 }
        requires held { AreLong self.now.state.store.ast (cpu_at self.now.state.processors c).assoc }
        ensures { (k : ℕ) → meant self.now.state k result ≡ by_move self.now.state.owner reference
            (move_of self.now.state (cpu_at self.now.state.processors c) process reference) }
    {
        match self.move_by(c, process, &reference) {
            Move::FillSeg => Action::FillSeg(reference.number),
            Move::FillPage(frame) => Action::FillPage(frame, reference),
            Move::Through(frame) => Action::Through(frame, reference),
            Move::Plain(reply) => Action::Plain(reply),
            Move::Fault => self.take_or_wait(),
        }
    }

    /// What a processor does with the next command of its process.
    fn come_to(&self, c: u32, process: u32) -> Action
        requires processor { c < length self.now.state.processors }
        requires run { process < length self.now.state.runs }
        requires known { process < length self.now.state.store.links.known }
        requires held { AreLong self.now.state.store.ast (cpu_at self.now.state.processors c).assoc }
        ensures { (k : ℕ) → meant self.now.state k result ≡ come_to self.now.state
            (cpu_at self.now.state.processors c) process (next_command self.now.state process) }
    {
        match self.next_reference(process) {
            Some(reference) => self.refer(c, process, reference),
            None => self.take_or_wait(),
        }
    }

    /// What a processor does that doesn't own the supervisor.
    fn run(&self, c: u32) -> Action
        requires may { MayChoose self.now.state c }
        ensures { (k : ℕ) → meant self.now.state k result ≡ run_process self.now.state
            (processor_at self.now.state.processors c) (cpu_at self.now.state.processors c).process }
    {
        let processor = self.processor(c);
        let Some(process) = processor.cpu.process else {
            return self.load_or_idle();
        };
        if has_had_its_turn(processor) && !self.ready.is_empty() {
            Action::Leave
        } else {
            self.come_to(c, process)
        }
    }

    /// What processor `c` does, which owns the supervisor and looks for what the next command of its process wants.
    fn look(&self, c: u32) -> Action
        requires looks { MayLook self.now.state }
        requires may { MayChoose self.now.state c }
        requires busy { IsSome (cpu_at self.now.state.processors c).process }
        ensures { meant self.now.state (process_at self.now.state c) result ≡ look_of self.now.state
            (process_at self.now.state c) (next_command self.now.state (process_at self.now.state c)) }
    {
        let Some(process) = self.processor(c).cpu.process else {
            unreachable!();
        };
        self.look_for_next(process)
    }

    /// What processor `c` does, which owns the supervisor: it goes on with its job, or looks for what the next command
    /// of its process wants.
    fn own(&self, c: u32, holder: Holder) -> Action
        requires may { MayChoose self.now.state c }
        requires owner { self.now.state.owner ≡ owner_of (Some holder) (frames_of_owner self.now.state.owner)
            (cut_of_owner self.now.state.owner) }
        requires here { holder.cpu ≡ c }
        ensures { meant self.now.state (process_at self.now.state c) result ≡ go_on_with self.now.state
            (process_at self.now.state c) (owner_by holder (frames_of_owner self.now.state.owner)
            (cut_of_owner self.now.state.owner)) holder.phase }
    {
        if let Some(action) = self.go_on(holder) {
            return action;
        }
        self.look(c)
    }

    /// What a processor does that takes part and has nothing of its own to end.
    fn own_or_run(&self, c: u32) -> Action
        requires may { MayChoose self.now.state c }
        ensures { meant self.now.state (process_at self.now.state c) result ≡ own_or_run self.now.state c
            (processor_at self.now.state.processors c) self.now.state.owner }
    {
        match self.job.holder() {
            Some(holder) if holder.cpu == c => self.own(c, holder),
            _ => self.run(c),
        }
    }

    /// What a processor does while there is work: it takes part, drops what it is to drop, ends its transfer, or goes
    /// on with its process or its job.
    fn work(&self, c: u32) -> Action
        requires may { MayChoose self.now.state c }
        ensures { meant self.now.state (process_at self.now.state c) result ≡ rule_of self.now.state c
            (processor_at self.now.state.processors c) }
    {
        let cpu = self.cpu(c);
        if !cpu.online {
            return Action::Online;
        }
        match (cpu.due, cpu.transfer) {
            (Some(what), _) => Action::Clear(what),
            (None, Some(transfer)) => Action::EndTransfer(transfer),
            (None, None) => self.own_or_run(c),
        }
    }

    /// What processor `c` does in its next step, by the rules in their order and by the job of the supervisor's owner.
    /// It goes round the processors, and up the chain of a segment's superiors. A look for a `delete` or a `truncate`
    /// goes over the segment's pages, and one for an `end` over the numbers of the process. (Source: Bensoussan,
    /// Clingen and Daley 1972; Corbató 1968; the steps are own.)
    pub fn action(&self, c: u32) -> Action
        requires may { MayChoose self.now.state c }
        ensures { meant self.now.state (process_at self.now.state c) result ≡ action_of self.now.state c }
    {
        if self.stopped {
            Action::IsStopped
        } else if self.is_over_at(c) {
            Action::HasEnded
        } else {
            self.work(c)
        }
    }
}
