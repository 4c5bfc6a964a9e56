//! What a processor does in a step, by the rules.

ghost use Rattle.std.specs.Prelude.{◌≡◌, ◌<◌, ◌≤◌, length};
ghost use Rattle.machine_model.specs.Actions.{action_of};
ghost use Rattle.machine_model.specs.Reads.{process_at};
ghost use Rattle.machine_tables.specs.Meant.{meant};
ghost use Rattle.machine.specs.Turns.{Appends, Changes, IfMoved, IfStill, IsTurn, KeepsParts, MayDo, TellsFaults};

use crate::machine::Machine;
use crate::turn::Turn;
use machine_tables::Action;
use volumes::Drive;

impl<D: Drive> Machine<D> {
    /// What processor `c` does in its next step.
    pub(crate) fn action(&self, c: u32) -> Action
        requires { c < length self.now.state.processors }
        ensures { meant self.now.state (process_at self.now.state c) result ≡ action_of self.now.state c }
    {
        self.tables.action(c)
    }

    /// Processor `c` does what it does in its next step.
    pub(crate) fn act(&mut self, c: u32, action: Action) -> Turn
        requires { MayDo self.old.state c (meant self.old.state (process_at self.old.state c) action) }
        ensures { IsTurn D.plan D.places D.faults self.old self.new c result }
    {
        match action {
            Action::IsStopped => Turn::Stopped,
            Action::HasEnded => Turn::Ended,
            Action::Waits(why) => Turn::Waits(why),
            Action::Online => self.come_online(c),
            Action::Clear(what) => self.clear(c, what),
            Action::EndTransfer(transfer) => self.end_transfer(c, transfer),
            Action::Load(process) => self.load(c, process),
            Action::Leave => self.leave(c),
            Action::FillSeg(number) => self.fill_seg(c, number),
            Action::FillPage(frame, reference) => self.fill_page(c, frame, reference),
            Action::Through(frame, reference) => self.through(c, frame, reference),
            Action::Plain(reply) => self.answer(c, reply),
            Action::TakeSupervisor => self.take_supervisor(c),
            Action::Answer(reply) => self.refuse(c, reply),
            Action::GiveUp => self.give_up(c),
            Action::Activate { uid, place } => self.activate(c, uid, place),
            Action::Connect { number, uid } => self.connect(c, number, uid),
            Action::Create {
                frame,
                uid,
                page,
                reference,
            } => self.create(c, frame, uid, page, reference),
            Action::Start { frame, uid, page } => self.start(c, frame, uid, page),
            Action::Evict => self.evict(c),
            Action::Empty(uid) => self.empty(c, uid),
            Action::EmptyVictim { pool, of, uid } => self.empty_victim(c, pool, of, uid),
            Action::TakeAway => self.take_away(c),
            Action::BeginMove { uid, volume } => self.begin_move(c, uid, volume),
            Action::CopyPage { mover, page } => self.copy_page(c, mover, page),
            Action::CommitMove(mover) => self.commit_move(c, mover),
            Action::Signal(what) => self.signal(c, what),
            Action::FinishEviction(frame) => self.finish_eviction(c, frame),
            Action::FinishPage(frame) => self.finish_page(c, frame),
            Action::Deactivate(uid) => self.deactivate(c, uid),
            Action::Commit => self.commit(c),
        }
    }
}

impl<D: Drive> Machine<D> {
    /// Processor `c` makes its next step: it does the one action that the rules give it in the machine as it is, and
    /// nothing else. It comes online, drops what another processor's signal named, ends its transfer, loads a process
    /// or gives one up, or runs its process: a word that it holds the way to is read or written at once; for anything
    /// else it takes the supervisor, whose owner looks for what the next command wants, brings it or takes out of use
    /// what stands in its way, has the others drop what they hold of that, and lets the command take effect.
    ///
    /// The answer tells where it stands then; or that it waits, and for what; or that no process is left to run; or
    /// that the machine was stopped. Where it moved the book is longer, or the supervisor's owner or the phase of its
    /// job is another one, and else nothing changes. The book has at most 320 entries more, and those that stood are as
    /// they were. A failure of a drive is told there only where the drives counted one more, at most once, and of the
    /// process of this processor; and it is answered `device` only after that. It goes round the processors, and costs
    /// one call of a drive at the most. (Source: Bensoussan, Clingen and Daley 1972; Corbató 1968; Organick 1972; the
    /// steps are own.)
    pub fn step(&mut self, c: u32) -> Turn
        requires processor { c < self.old.state.plan.processors }
        requires room { 320 ≤ self.old.state.spare }
        ensures turn { IsTurn D.plan D.places D.faults self.old self.new c result }
        ensures entries { Appends self.old.state.entries self.new.state.entries 320 }
        ensures kept { KeepsParts D.plan D.places D.faults self.old self.new }
        ensures moved { IfMoved result (Changes self.old.state self.new.state) }
        ensures still { IfStill result (self.new ≡ self.old) }
        ensures faults { TellsFaults D.faults self.old self.new (process_at self.old.state c) }
    {
        self.tables.promise();
        let action = self.action(c);
        let turn = self.act(c, action);
        self.tables.promise();
        turn
    }
}
