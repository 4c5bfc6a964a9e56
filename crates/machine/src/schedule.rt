//! Processors make their steps one after the other.

ghost use Rattle.std.specs.Prelude.{◌≡◌, ◌<◌, ◌^◌, ◌↔◌, false, length, All, IfOk, OnErr};
ghost use Rattle.std.specs.List.{list_any};
ghost use Rattle.machine.specs.Schedules.{Grows, HasRun, HasStood, IsRound, is_moved, tally, with_room, would_move};
ghost use Rattle.machine.specs.Turns.{KeepsParts};
ghost use Rattle.machine.specs.Unstuck.{IsDone, NamesAll};

use crate::machine::Machine;
use crate::turn::Turn;
use machine_tables::NoMemory;
use volumes::Drive;

/// How many moves an answer tells of.
fn moves_in(turn: Turn) -> u32
    ensures { result ≡ tally (is_moved turn) }
{
    match turn {
        Turn::Moved(_) => 1,
        Turn::Waits(_) | Turn::Ended | Turn::Stopped => 0,
    }
}

impl<D: Drive> Machine<D> {
    /// Makes room, and lets processor `c` make its next step. It gives how many moved.
    fn round(&mut self, c: u32) -> Result<u32, NoMemory>
        requires { c < self.old.state.plan.processors }
        ensures made { IfOk result (λ moved. IsRound D.plan D.places D.faults self.old self.new c moved) }
        ensures refused { OnErr result (self.new ≡ with_room self.old self.new.state.spare) }
    {
        self.reserve()?;
        Ok(moves_in(self.step(c)))
    }

    /// Lets the processors of a list make their steps in order.
    fn rounds(&mut self, cpus: &[u32]) -> Result<u32, NoMemory>
        requires processors { All (λ c. c < self.old.state.plan.processors) cpus.now }
        requires few { length cpus.now < 2 ^ 32 }
        ensures run { IfOk result (λ moved. HasRun D.plan D.places D.faults self.old self.new cpus.now moved) }
        ensures stood { OnErr result (HasStood D.plan D.places D.faults self.old self.new cpus.now) }
    {
        let mut moved = 0;
        for c in cpus {
            moved += self.round(*c)?;
        }
        Ok(moved)
    }

    /// Makes room and a step for each processor of a list in order, and gives how many of them moved. It gives 0 just
    /// where none of them would move in the machine as it is. (Source: own.)
    ///
    /// # Errors
    /// `NoMemory` is want of memory. The steps before it stand, and once `reserve` answers Ok they can go on.
    pub fn run_schedule(&mut self, cpus: &[u32]) -> Result<u32, NoMemory>
        requires processors { All (λ c. c < self.old.state.plan.processors) cpus.now }
        requires few { length cpus.now < 2 ^ 32 }
        ensures run { IfOk result (λ moved. HasRun D.plan D.places D.faults self.old self.new cpus.now moved) }
        ensures stood { OnErr result (HasStood D.plan D.places D.faults self.old self.new cpus.now) }
        ensures zero { IfOk result (λ moved. (moved ≡ 0) ↔ (list_any (would_move self.old.state) cpus.now ≡ false)) }
        ensures done { IfOk result (λ moved. moved ≡ 0 → NamesAll self.old.state cpus.now → IsDone self.old.state) }
        ensures entries { Grows self.old.state.entries self.new.state.entries }
        ensures kept { KeepsParts D.plan D.places D.faults self.old self.new }
    {
        self.promise();
        self.rounds(cpus)
    }
}
