//! A machine of a script follows its schedule, and is finished and shut down.

ghost use Rattle.std.specs.Prelude.{IfErr, IfOk};
ghost use Rattle.machine.specs.Turns.{HaveCounted};
ghost use Rattle.runner.specs.Drives.{AreTold, faults_in};
ghost use Rattle.runner.specs.Runs.{IsBooted, IsRun};
ghost use Rattle.schedule.specs.Orders.{AreWithin};
ghost use Rattle.lab_runs.specs.Runs.{EndsBy, EndsRan, HasRunBy, RunsAstray};

use crate::NoMemory;
use crate::following::{Astray, follow};
use crate::steps::Step;
use bulk_store::AnyDrive;
use machine::Machine;
use runner::{boot_machine, shut_down_machine};
use schedule::{Line, Scheduled};
use std::alloc::Global;

/// A machine that followed a schedule, and was finished and shut down (own).
#[derive(Drop)]
pub struct Ran {
    /// The machine.
    pub machine: Machine<AnyDrive>,
    /// The steps of the schedule.
    pub steps: Vec<Step>,
    /// How many entries its book had after them.
    pub stepped: usize,
    /// How many it had once all processes had ended.
    pub finished: usize,
}

/// What holds of a machine whose drives are those of its script, and whose book tells of their failures.
fn promise(machine: &Machine<AnyDrive>)
    requires told { AreTold machine.now.state.plan machine.now.drives }
    requires counted { HaveCounted faults_in 0 0 machine.now }
    ensures { IsRun machine.now }
{
    machine.book();
    machine.volumes().promise();
}

/// Steps a machine that followed its schedule until all processes have ended, and shuts it down. How many entries its
/// book had before, and once all processes had ended.
fn finish(machine: &mut Machine<AnyDrive>) -> Result<(usize, usize), NoMemory>
    requires told { AreTold machine.old.state.plan machine.old.drives }
    requires counted { HaveCounted faults_in 0 0 machine.old }
    ensures { IfOk result (λ n. EndsBy machine.old machine.new n.0 n.1) }
{
    let stepped = machine.book().len();
    if machine.stopped() {
        return Err(NoMemory);
    }
    machine.finish()?;
    let finished = machine.book().len();
    shut_down_machine(machine)?;
    promise(machine);
    Ok((stepped, finished))
}

/// A machine that followed its schedule by these steps, finished and shut down.
pub(crate) fn end(mut machine: Machine<AnyDrive>, steps: Vec<Step>) -> Result<Ran, NoMemory>
    requires told { AreTold machine.state.plan machine.drives }
    requires counted { HaveCounted faults_in 0 0 machine }
    ensures { IfOk result (EndsRan machine steps.items) }
{
    match finish(&mut machine) {
        Ok((stepped, finished)) => Ok(Ran {
            machine,
            steps,
            stepped,
            finished,
        }),
        Err(NoMemory) => {
            drop(machine);
            Err(NoMemory)
        }
    }
}

/// A machine that was just booted follows the lines of its schedule, and is finished and shut down.
fn run_lines(alloc: Global, mut machine: Machine<AnyDrive>, lines: &[Line]) -> Result<Ran, Astray>
    requires booted { IsBooted machine.state.plan machine }
    requires counted { HaveCounted faults_in 0 0 machine }
    requires within { AreWithin machine.state.plan.processors lines.now }
    ensures run { IfOk result (HasRunBy machine.state.plan lines.now) }
    ensures astray { IfErr result (RunsAstray machine.state.plan lines.now) }
{
    let steps = match follow(alloc, &mut machine, lines) {
        Ok(steps) => steps,
        Err(astray) => {
            drop(machine);
            return Err(astray);
        }
    };
    match end(machine, steps) {
        Ok(ran) => Ok(ran),
        Err(NoMemory) => Err(Astray::Memory),
    }
}

/// The machine of a script follows its schedule, and is finished and shut down. It takes memory for each step of the
/// schedule besides what the machine takes, and needs no thread.
///
/// # Errors
/// `Refused` is the first line of the schedule that can't be followed, and why; `Memory` is want of memory.
pub fn run(alloc: Global, scheduled: Scheduled) -> Result<Ran, Astray>
    requires { AreWithin scheduled.script.processors scheduled.lines.items }
    ensures run { IfOk result (HasRunBy scheduled.script scheduled.lines.items) }
    ensures astray { IfErr result (RunsAstray scheduled.script scheduled.lines.items) }
{
    let Scheduled { script, lines } = scheduled;
    match boot_machine(alloc, script) {
        Ok(machine) => run_lines(alloc, machine, &lines),
        Err(NoMemory) => Err(Astray::Memory),
    }
}
