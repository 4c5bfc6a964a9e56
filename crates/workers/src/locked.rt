//! What the lock round a machine holds.

ghost use Rattle.std.specs.Prelude.{◌≡◌, ◌<◌, ◌≤◌, map, IfNone, IfSome};
ghost use Rattle.machine.specs.Turns.{HaveCounted, IsTurn};
ghost use Rattle.workers.specs.Answers.{most_unanswered, unanswered_after};
ghost use Rattle.workers.specs.Holds.{IsHold};

use machine::{Machine, Turn};
use std::marker::PhantomData;
use volumes::Drive;

/// How many steps in a row of a machine answer no command at the most: then its workers leave it. (Source: own.)
const MOST_UNANSWERED: u32 = 1_000_000;

/// Which run a machine belongs to: the script of its book, how many processors it has, and what is told of each drive
/// from its boot on: the lines that name its failing calls, and how many pages the fast store before it holds; and how
/// many failures the drives had counted when the book told of so many. No value of such a type is made. (Source: own.)
pub trait Run {
    ghost use Rattle.std.specs.Prelude.{ℕ, List, Option};
    ghost use Rattle.script.specs.Plans.{Plan};
    ghost use Rattle.volumes.specs.declared.drive.FailLine.{FailLine};

    ghost script: { Plan };

    ghost cpus: { ℕ };

    ghost plans: { List (Option (List FailLine)) };

    ghost places: { List ℕ };

    ghost counted: { ℕ };

    ghost told: { ℕ };
}

/// A machine that stays that of one run, whichever worker had it.
#[derive(Drop)]
pub(crate) struct Locked<N: Run, D: Drive> {
    machine: Machine<D>,
    unanswered: u32,
    of: PhantomData<N>,
    ghost script: { machine.state.plan ≡ N.script },
    ghost cpus: { machine.state.plan.processors ≡ N.cpus },
    ghost plans: { map D.plan machine.drives ≡ N.plans },
    ghost places: { map D.places machine.drives ≡ N.places },
    ghost alike: { HaveCounted D.faults N.counted N.told machine },
}

impl<N: Run, D: Drive> Locked<N, D> {
    /// A machine of the run.
    pub(crate) fn of(machine: Machine<D>) -> Locked<N, D>
        requires script { machine.state.plan ≡ N.script }
        requires cpus { machine.state.plan.processors ≡ N.cpus }
        requires plans { map D.plan machine.drives ≡ N.plans }
        requires places { map D.places machine.drives ≡ N.places }
        requires alike { HaveCounted D.faults N.counted N.told machine }
    {
        Locked {
            machine,
            unanswered: 0,
            of: PhantomData,
        }
    }

    /// The machine.
    pub(crate) fn into_machine(self) -> Machine<D>
        ensures script { result.state.plan ≡ N.script }
        ensures plans { map D.plan result.drives ≡ N.plans }
        ensures places { map D.places result.drives ≡ N.places }
        ensures alike { HaveCounted D.faults N.counted N.told result }
    {
        let Locked {
            machine,
            unanswered: _,
            of: _,
        } = self;
        machine
    }

    /// Processor `cpu` makes its step, for which there is room.
    fn step(&mut self, cpu: u32) -> Turn
        requires processor { cpu < N.cpus }
        requires room { 320 ≤ self.old.machine.state.spare }
        requires few { self.old.unanswered < most_unanswered }
        ensures turn { IsTurn D.plan D.places D.faults self.old.machine self.new.machine cpu result }
        ensures counted { self.new.unanswered
            ≡ unanswered_after self.old.machine.state.entries self.new.machine.state.entries self.old.unanswered }
    {
        let before = self.machine.book().len();
        let turn = self.machine.step(cpu);
        if self.machine.book().answers_from(before) {
            self.unanswered = 0;
        } else {
            self.unanswered += 1;
        }
        turn
    }

    /// One hold of the lock: room for what a step may append to the book, and one step of processor `cpu`, which is
    /// answered so. A machine that is refused the room is stopped, and nothing else is done then. Where too many steps
    /// in a row answered no command, nothing is done, and there is no answer.
    pub(crate) fn turn(&mut self, cpu: u32) -> Option<Turn>
        requires { cpu < N.cpus }
        ensures some { IfSome result (λ answer.
            IsHold D.plan D.places D.faults self.old.machine self.new.machine cpu answer) }
        ensures none { IfNone result ((self.new.machine ≡ self.old.machine)
            × (most_unanswered ≤ self.old.unanswered)) }
    {
        if self.unanswered >= MOST_UNANSWERED {
            return None;
        }
        match self.machine.reserve() {
            Ok(()) => Some(self.step(cpu)),
            Err(_) => {
                self.machine.stop();
                Some(Turn::Stopped)
            }
        }
    }
}
